//! The places of a file that is read from its front to its end.

use sp_lp_words::{Pair, Section};

/// A sum of terms.
#[derive(Clone, Copy, PartialEq, Eq, Debug)]
pub enum Sum {
    /// The objective.
    Cost,
    /// The first item of a row that begins with a sum or with a value.
    Lead,
    /// The sum of a row before its relation.
    Row,
    /// The sum of an indicator's row.
    Then,
    /// The sum of a row behind a value and a relation.
    Right,
}

/// A value behind a relation.
#[derive(Clone, Copy, PartialEq, Eq, Debug)]
pub enum Side {
    /// Behind the sum of a row.
    Row,
    /// Behind the sum of an indicator's row.
    Then,
    /// Behind the sum of a row that a value stands before.
    Range,
    /// Behind the name of a bound.
    Bound,
}

/// Where in a file the reader stands.
#[derive(Clone, Copy, PartialEq, Eq, Debug)]
pub enum Place {
    /// Before the first token.
    Start,
    /// Behind the objective's word.
    Objective,
    /// Behind a name there, which is the objective's name or its first variable.
    ObjectiveName,
    /// Behind the objective's name.
    CostOpen,
    /// Before the number or the name of an item, behind its signs if it has some.
    Signed(Sum),
    /// Behind the number of an item.
    Numbered(Sum),
    /// Behind an item.
    After(Sum),
    /// Before a row, directly behind its section's word (`true`) or not.
    Rows(bool),
    /// Behind a name there, which is the row's name, its first variable or an indicator's variable.
    RowName,
    /// Behind the name of a row.
    Labelled,
    /// Behind a name there, which is the row's first variable or an indicator's variable.
    LeadName,
    /// Behind such a name and an equals sign.
    EqualSide,
    /// Behind such a name, an equals sign and 0 or 1.
    Bit,
    /// Before the number of a value, behind its signs if it has some.
    Value(Side),
    /// Before a bound, directly behind its section's word (`true`) or not.
    Bounds(bool),
    /// Behind the name that a bound begins with.
    BoundName,
    /// Behind the signs that a bound begins with.
    BoundSigned,
    /// Behind the value that a bound begins with.
    BoundNumber,
    /// Behind such a value and a relation.
    BoundRight,
    /// Behind the name there: a relation may follow, or the next bound.
    BoundMiddle,
    /// In a list of names.
    Names(Section),
    /// Directly behind the word of a section of sets.
    Sets,
    /// Behind a name there, which is a set's name or kind.
    SetName,
    /// Behind the name of a set and its colon.
    SetLabelled,
    /// Behind the kind of a set.
    SetWord,
    /// Before a member of a set, or the next set.
    Members,
    /// Behind a name there, which is a member, or the next set's name or kind.
    MemberName,
    /// Behind such a name and a colon.
    MemberColon,
    /// Behind the signs of a weight.
    MemberSigned,
    /// Behind `end`.
    Done,
}

/// What the last tokens may be that haven't been settled yet.
#[derive(Clone, Copy, PartialEq, Eq, Debug)]
pub enum Pending {
    /// All tokens are settled.
    Nothing,
    /// A section word, or a name where a colon follows.
    Whole(Section),
    /// `semi`: a section word, the first part of one, or a name where a colon follows.
    Semi,
    /// The first part of a section word of two parts, or a name.
    Opened(Pair),
    /// `semi -`
    SemiMinus,
    /// All parts of a section word of more than one: no colon may follow.
    Complete(Section),
}
