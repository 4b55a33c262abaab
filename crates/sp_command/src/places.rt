//! Where a reader of a sum stands.

use sp_decimal::Decimal;

/// What comes next in a sum.
#[derive(Clone, Copy, Debug)]
pub(crate) enum Place {
    /// The first term, with a sign or without.
    First,
    /// A further term with its sign, or the end of the sum.
    Next,
    /// A coefficient or a name, after a sign.
    Signed(bool),
    /// A name, after a coefficient.
    Counted(Decimal),
}

/// What a word does in a sum.
#[derive(Clone, Copy, Debug)]
pub(crate) enum Step {
    /// It can't stand there.
    Bad,
    /// It ends the sum.
    Ends,
    /// The reader goes on.
    Goes(Place),
    /// It is a name, which has this coefficient.
    Names(Decimal),
}
