//! The words of a line: what it is about, and its numbers. A number that is missing is read as 0.

use std::str::SplitWhitespace;

/// What a line is about.
#[derive(Clone, Copy, PartialEq, Eq, Debug)]
pub enum Kind {
    /// A variable's bounds.
    Var,
    /// A row.
    Row,
    /// An indicator.
    Gate,
    /// A special ordered set.
    Set,
    /// What a semi-integer variable may be beside 0.
    Core,
    /// A variable gets another range.
    Change,
    /// The first reason, the counts and the sums.
    State,
    /// A place where a split closes a side.
    Tight,
    /// The first reason of the box with one range turned round.
    Crossed,
    /// Whether a reason holds.
    Holds,
    /// Rounds of changes.
    Rounds,
    /// Rounds in which all is made.
    Make,
    /// Nothing that is known.
    Other,
}

/// What the next word names.
pub fn next_kind(words: &mut SplitWhitespace<'_>) -> Kind {
    match words.next() {
        None => Kind::Other,
        Some(word) => kind_of(word),
    }
}

fn kind_of(word: &str) -> Kind {
    match word {
        "var" => Kind::Var,
        "row" => Kind::Row,
        "gate" => Kind::Gate,
        "set" => Kind::Set,
        "core" => Kind::Core,
        _ => asking_kind_of(word),
    }
}

fn asking_kind_of(word: &str) -> Kind {
    match word {
        "change" => Kind::Change,
        "state" => Kind::State,
        "tight" => Kind::Tight,
        "crossed" => Kind::Crossed,
        "holds" => Kind::Holds,
        "rounds" => Kind::Rounds,
        "make" => Kind::Make,
        _ => Kind::Other,
    }
}

/// The next number.
pub fn number(words: &mut SplitWhitespace<'_>) -> i64 {
    match words.next() {
        None => 0,
        Some(word) => word.parse::<i64>().unwrap_or(0),
    }
}

/// The next number, the greatest one of 32 bits where it isn't one of these.
pub fn small(words: &mut SplitWhitespace<'_>) -> u32 {
    u32::try_from(number(words)).unwrap_or(u32::MAX)
}

/// The next two numbers.
pub fn range(words: &mut SplitWhitespace<'_>) -> (i64, i64) {
    (number(words), number(words))
}
