//! Sections, the words that begin them, and the two kinds of sets.
ghost use Rattle.std.specs.Prelude.{◌≡◌};
ghost use Rattle.sp_lp_words.specs.Sections.{pair_section, part_for, direction_for, is_free, set_kind_of};

use sp_model::SosKind;

/// A section of an LP file.
#[derive(Clone, Copy, PartialEq, Eq, Debug)]
pub enum Section {
    /// `minimize` and its like, before an objective that is to be as small as possible.
    Minimize,
    /// `maximize` and its like, before an objective that is to be as great as possible.
    Maximize,
    /// `subject to`, `lazy constraints` and their like: rows.
    Rows,
    /// `bounds`
    Bounds,
    /// `general`, `integer`: names of integer variables.
    General,
    /// `binary`: names of binary variables.
    Binary,
    /// `semi`, `semi-continuous`: names of variables that may be 0 beside the values between their bounds.
    Semi,
    /// `sos`: special ordered sets.
    Sets,
    /// `end`
    End,
    /// `user cuts`, which the format has and which aren't read.
    Cuts,
}

/// A section word of two parts.
#[derive(Clone, Copy, PartialEq, Eq, Debug)]
pub enum Pair {
    /// `subject to`
    SubjectTo,
    /// `such that`
    SuchThat,
    /// `lazy constraints`
    LazyConstraints,
    /// `user cuts`
    UserCuts,
}

impl Pair {
    /// The section that the word begins.
    pub fn section(self) -> Section
        ensures { result ≡ pair_section self }
    {
        match self {
            Pair::SubjectTo => Section::Rows,
            Pair::SuchThat => Section::Rows,
            Pair::LazyConstraints => Section::Rows,
            Pair::UserCuts => Section::Cuts,
        }
    }
}

/// What a name may be of a section word.
#[derive(Clone, Copy, PartialEq, Eq, Debug)]
pub enum Part {
    /// The whole of it.
    Whole(Section),
    /// The whole of it, or the first part of `semi-continuous`.
    Semi,
    /// The last part of `semi-continuous`.
    Continuous,
    /// The first of two parts.
    Opens(Pair),
    /// The second of two parts.
    Closes(Pair),
}

/// What the word with the code in the table of sections is.
pub(crate) fn part_for(code: u16) -> Option<Part>
    ensures { result ≡ part_for code }
{
    match code {
        1 => Some(Part::Whole(Section::Rows)),
        2 => Some(Part::Whole(Section::Bounds)),
        3 => Some(Part::Whole(Section::General)),
        4 => Some(Part::Whole(Section::Binary)),
        5 => Some(Part::Whole(Section::Sets)),
        6 => Some(Part::Whole(Section::End)),
        7 => Some(Part::Whole(Section::Semi)),
        8 => Some(Part::Semi),
        9 => Some(Part::Continuous),
        10 => Some(Part::Opens(Pair::SubjectTo)),
        11 => Some(Part::Closes(Pair::SubjectTo)),
        12 => Some(Part::Opens(Pair::SuchThat)),
        13 => Some(Part::Closes(Pair::SuchThat)),
        14 => Some(Part::Opens(Pair::LazyConstraints)),
        15 => Some(Part::Closes(Pair::LazyConstraints)),
        16 => Some(Part::Opens(Pair::UserCuts)),
        17 => Some(Part::Closes(Pair::UserCuts)),
        _ => None,
    }
}

/// What the word with the code in the table of objectives is.
pub(crate) fn direction_for(code: u16) -> Option<Part>
    ensures { result ≡ direction_for code }
{
    match code {
        1 => Some(Part::Whole(Section::Minimize)),
        2 => Some(Part::Whole(Section::Maximize)),
        _ => None,
    }
}

/// Whether the word is `free`, in any case.
pub fn is_free(word: &[u8]) -> bool
    ensures { result ≡ is_free word.now }
{
    word.eq_ignore_ascii_case(b"free")
}

/// The kind of set that the word is, `S1` or `S2` in any case.
pub fn set_kind_of(word: &[u8]) -> Option<SosKind>
    ensures { result ≡ set_kind_of word.now }
{
    if word.eq_ignore_ascii_case(b"s1") {
        Some(SosKind::One)
    } else if word.eq_ignore_ascii_case(b"s2") {
        Some(SosKind::Two)
    } else {
        None
    }
}
