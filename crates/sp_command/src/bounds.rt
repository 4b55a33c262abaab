//! Bounds and coefficients of filters.

ghost use Rattle.std.specs.Prelude.{◌≡◌, Some, None, if◌then◌else◌};
ghost use Rattle.sp_command.specs.Values.{lower_of, upper_of, exact_of};

use crate::numbers::{is_far_above, is_far_below};
use sp_decimal::{Decimal, Numeral};

/// No bound, where it is on the far side.
fn unbounded(far: bool) -> Option<Option<Decimal>>
    ensures { result ≡ (if far then Some None else None) }
{
    if far { Some(None) } else { None }
}

/// The lower bound that the word writes: outside `None` where it writes none, inside where it is no bound.
#[tactic(auto, unfolding(crate::specs::Values::lower_of))]
pub(crate) fn lower_bound(word: &[u8]) -> Option<Option<Decimal>>
    ensures { result ≡ lower_of word.now }
{
    match Numeral::read(word) {
        Ok(numeral) => match &numeral {
            Numeral::Exact(d) => {
                if is_far_below(d) {
                    Some(None)
                } else {
                    Some(Some(*d))
                }
            }
            Numeral::Huge { negative } => unbounded(*negative),
        },
        Err(_) => None,
    }
}

/// The upper bound that the word writes: outside `None` where it writes none, inside where it is no bound.
#[tactic(auto, unfolding(crate::specs::Values::upper_of))]
pub(crate) fn upper_bound(word: &[u8]) -> Option<Option<Decimal>>
    ensures { result ≡ upper_of word.now }
{
    match Numeral::read(word) {
        Ok(numeral) => match &numeral {
            Numeral::Exact(d) => {
                if is_far_above(d) {
                    Some(None)
                } else {
                    Some(Some(*d))
                }
            }
            Numeral::Huge { negative } => unbounded(!*negative),
        },
        Err(_) => None,
    }
}

/// The exact number that the word writes.
#[tactic(auto, unfolding(crate::specs::Values::exact_of))]
pub(crate) fn exact_number(word: &[u8]) -> Option<Decimal>
    ensures { result ≡ exact_of word.now }
{
    match Numeral::read(word) {
        Ok(numeral) => match &numeral {
            Numeral::Exact(d) => Some(*d),
            Numeral::Huge { .. } => None,
        },
        Err(_) => None,
    }
}
