//! The words of values.
ghost use Rattle.std.specs.Prelude.{◌≡◌};
ghost use Rattle.sp_mps_words.specs.Values.{value_of, exact_of, flag_of, is_whole};

use crate::faults::FaultKind;
use sp_decimal::{Decimal, Numeral, NumeralFault};

/// The value of the word, which may be huge.
///
/// # Errors
///
/// [`FaultKind::Syntax`] where the word is no numeral, [`FaultKind::WideNumeral`] where it needs too many digits.
#[tactic(auto, unfolding(crate::specs::Values::value_of))]
pub fn value_of(word: &[u8]) -> Result<Numeral, FaultKind>
    ensures { result ≡ value_of word.now }
{
    match Numeral::read(word) {
        Ok(value) => Ok(value),
        Err(NumeralFault::Wide) => Err(FaultKind::WideNumeral),
        Err(NumeralFault::NotNumeral) => Err(FaultKind::Syntax),
    }
}

/// The value of the word, which may not be huge.
///
/// # Errors
///
/// [`FaultKind::Syntax`] where the word is no numeral, [`FaultKind::WideNumeral`] where it needs too many digits or is
/// huge.
#[tactic(auto, unfolding(crate::specs::Values::exact_of))]
pub fn exact_of(word: &[u8]) -> Result<Decimal, FaultKind>
    ensures { result ≡ exact_of word.now }
{
    let read = Numeral::read(word);
    match &read {
        Ok(Numeral::Exact(value)) => Ok(*value),
        Ok(Numeral::Huge { .. }) => Err(FaultKind::WideNumeral),
        Err(NumeralFault::Wide) => Err(FaultKind::WideNumeral),
        Err(NumeralFault::NotNumeral) => Err(FaultKind::Syntax),
    }
}

/// Whether the value is the whole number.
fn is_whole(number: u8, value: &Decimal) -> bool
    ensures { result ≡ is_whole number value.now }
{
    value.p == i128::from(number) && value.s == 0
}

/// Whether the word, which stands for 0 or 1, stands for 1.
///
/// # Errors
///
/// [`FaultKind::WideNumeral`] where the word is a numeral that needs too many digits, [`FaultKind::Syntax`] where it
/// stands for anything else.
#[tactic(auto, unfolding(crate::specs::Values::flag_of))]
pub fn flag_of(word: &[u8]) -> Result<bool, FaultKind>
    ensures { result ≡ flag_of word.now }
{
    let read = Numeral::read(word);
    match &read {
        Ok(Numeral::Exact(value)) => {
            if is_whole(1, value) {
                Ok(true)
            } else if is_whole(0, value) {
                Ok(false)
            } else {
                Err(FaultKind::Syntax)
            }
        }
        Ok(Numeral::Huge { .. }) => Err(FaultKind::Syntax),
        Err(NumeralFault::Wide) => Err(FaultKind::WideNumeral),
        Err(NumeralFault::NotNumeral) => Err(FaultKind::Syntax),
    }
}
