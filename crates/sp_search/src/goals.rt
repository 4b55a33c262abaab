//! What a step is for, and what it did.

ghost use Rattle.std.specs.Prelude.{◌≡◌, ◌↔◌, IsTrue};
ghost use Rattle.sp_search.specs.declared.goals.Stepped.TheVariants as Stepped;

use sp_filter::Filters;

/// What a step is for.
#[derive(Clone, Copy)]
pub enum Goal<'a> {
    /// A better point than all found before. Filters play no part.
    Improve,
    /// Each point that passes the filters held and isn't above the cut.
    Collect {
        /// The cut, in the scaled units of the objective.
        cut: i128,
        /// The filters that are held.
        filters: &'a Filters,
    },
}

/// What a step did with the leaf.
#[derive(Clone, Copy, PartialEq, Eq, Debug)]
pub enum Stepped {
    /// It is split.
    Split,
    /// It is closed, without a new point.
    Closed,
    /// Its one point was found, and has this serial.
    Found(u32),
    /// Nothing closes it, it has more than one point, and the node limit leaves no room for two more nodes.
    Full,
}

impl Stepped {
    /// Whether it could do nothing with the leaf.
    pub fn is_full(&self) -> bool
        ensures { IsTrue result ↔ (self.now ≡ Stepped.Full) }
    {
        matches!(self, Stepped::Full)
    }
}
