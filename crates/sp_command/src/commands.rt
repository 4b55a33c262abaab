//! Commands, settings, and what can be shown.

use sp_base::Text;
use sp_command_words::Shown;
use sp_decimal::Decimal;
use sp_model::{Gap, Items};
use sp_pool::Rule;

/// A term of a range filter: the name of a variable, and its coefficient.
pub type RangeTerm = (Text, Decimal);

/// A term of a diversity filter: the name of a variable, its weight, and the value that it is compared with.
pub type DiversityTerm = (Text, Decimal, i64);

/// A setting with its value.
#[derive(Clone, Copy, Debug)]
pub enum Setting {
    /// The absolute gap of the pool.
    AbsGap(Gap),
    /// The relative gap of the pool.
    RelGap(Gap),
    /// The greatest number of members of the pool, from 0 to 2,100,000,000.
    Capacity(u32),
    /// The pool's intensity, from 0 to 4.
    Intensity(u8),
    /// What a full pool drops.
    Replace(Rule),
    /// The most points that one populate finds, from 1 to 2,100,000,000.
    Populate(u32),
    /// The most nodes of a tree, from 1 to 200,000.
    Nodes(u32),
}

/// A command of a session.
#[derive(Debug, Drop)]
pub enum Command {
    /// Read the model file of this name, which ends in `.lp` or `.mps`.
    Read(Text),
    /// Find the optimum.
    Optimize,
    /// List the points within the gaps.
    Populate,
    /// List so many best points, from 1 to 2,100,000,000.
    NBest(u32),
    /// Change a setting.
    Set(Setting),
    /// Add a filter on a sum of variables.
    FilterRange {
        /// Its name, of at most 255 bytes.
        name: Text,
        /// The least sum, if there is one.
        lo: Option<Decimal>,
        /// Its terms as they are written, at least one.
        terms: Items<RangeTerm>,
        /// The greatest sum, if there is one.
        hi: Option<Decimal>,
    },
    /// Add a filter on weighted distances from a reference point.
    FilterDiversity {
        /// Its name, of at most 255 bytes.
        name: Text,
        /// The least sum, if there is one.
        lo: Option<Decimal>,
        /// The greatest sum, if there is one.
        hi: Option<Decimal>,
        /// Its terms as they are written, at least one.
        terms: Items<DiversityTerm>,
    },
    /// Remove the filter of this name, of at most 255 bytes.
    FilterDelete(Text),
    /// Show something.
    Display(Shown),
    /// Write the tree into the file of this name.
    WriteTree(Text),
    /// End the session.
    Quit,
    /// A line without words.
    Blank,
}
