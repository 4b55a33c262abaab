//! Pairs of a row and a value, one or two on a line.
ghost use Rattle.std.specs.Prelude.{◌≡◌, [], ◌∷◌, ◌++◌, Ok};
ghost use Rattle.sp_mps_sections.specs.Pairs.{is_led, is_bare};
ghost use Rattle.sp_mps_sections.specs.Answers.{Gives};
ghost use Rattle.sp_mps_sections.specs.inner.Answers.{one_or_two};

use crate::line_faults::LineFault;
use sp_decimal::{Decimal, Numeral};
use sp_model::Items;

/// A row by its place, and a value.
#[derive(Clone, Copy, Debug)]
pub struct RowValue {
    /// The place of the row.
    pub row: usize,
    /// The value.
    pub value: Decimal,
}

/// A row by its place, and a value that may be huge.
#[derive(Clone, Copy, Debug)]
pub struct RowSide {
    /// The place of the row.
    pub row: usize,
    /// The value.
    pub value: Numeral,
}

/// What a line of one pair or of two gives.
#[derive(Clone, Copy, Debug)]
pub(crate) struct OneOrTwo<T> {
    /// What the first pair gives.
    pub first: T,
    /// What the second one gives.
    pub second: Option<T>,
}

/// Whether a line of so many fields has another field before its pairs.
pub(crate) fn is_led(count: usize) -> bool
    ensures { result ≡ is_led count }
{
    count == 3 || count == 5
}

/// Whether a line of so many fields has its pairs alone.
pub(crate) fn is_bare(count: usize) -> bool
    ensures { result ≡ is_bare count }
{
    count == 2 || count == 4
}

/// Puts the item at the end.
pub(crate) fn push_one<T: Drop>(items: &mut Items<T>, item: T) -> Result<(), LineFault>
    ensures { Gives result items.new (Ok (items.old ++ item ∷ [])) }
{
    match items.push(item) {
        Ok(()) => Ok(()),
        Err(_) => Err(LineFault::NoMemory),
    }
}

/// Puts what a line gives at the end.
pub(crate) fn push_pair<T: Drop>(items: &mut Items<T>, pair: OneOrTwo<T>) -> Result<(), LineFault>
    ensures { Gives result items.new (Ok (items.old ++ one_or_two pair)) }
{
    let OneOrTwo { first, second } = pair;
    match second {
        None => push_one(items, first),
        Some(second) => match push_one(items, first) {
            Ok(()) => push_one(items, second),
            Err(fault) => Err(fault),
        },
    }
}
