//! Numerals: what their texts stand for, and why a text is none.
ghost use Rattle.std.specs.Prelude.{◌≡◌};
ghost use Rattle.sp_decimal.specs.Numerals.{numeral, opposite_numeral};

use crate::decimals::Decimal;
use crate::parts::{cut, is_endless, split_sign};
use crate::reading::value;
use thiserror::Error;

/// What the text of a numeral stands for.
#[derive(Clone, Copy, PartialEq, Eq, Debug)]
pub enum Numeral {
    /// Exactly this number.
    Exact(Decimal),
    /// A number of magnitude 10^30 or more, or an infinity.
    Huge {
        /// Whether it lies below 0.
        negative: bool,
    },
}

/// Why a text isn't read as a number.
#[derive(Clone, Copy, PartialEq, Eq, Debug, Error)]
pub enum NumeralFault {
    /// The text isn't a numeral.
    #[error("not a numeral")]
    NotNumeral,
    /// The value is below 10^30 in magnitude and needs more than thirty digits, or more than thirty decimal places.
    #[error("a numeral with too many digits")]
    Wide,
}

impl Numeral {
    /// What the text stands for: a numeral is decimal digits with a full stop or without, at least one digit, and an exponent
    /// or none; a sign may stand before it, and before the exponent's digits. `inf` and `infinity` in any case are huge.
    /// A text is read in a time that grows with its length, whatever the exponent, and takes no memory.
    ///
    /// # Errors
    ///
    /// [`NumeralFault::NotNumeral`] for any other text, and [`NumeralFault::Wide`] where a value below 10^30 in magnitude
    /// needs more than thirty digits or more than thirty decimal places.
    pub fn read(text: &[u8]) -> Result<Numeral, NumeralFault>
        ensures { result ≡ numeral text.now }
    {
        let (negative, digits) = split_sign(text);
        if is_endless(digits) {
            return Ok(Numeral::Huge { negative });
        }
        match cut(digits) {
            Some(parts) => value(negative, &parts),
            None => Err(NumeralFault::NotNumeral),
        }
    }
    /// The same with the other sign; the negation of a huge number is huge.
    pub fn negated(&self) -> Numeral
        ensures { result ≡ opposite_numeral self.now }
    {
        match self {
            Numeral::Exact(d) => Numeral::Exact(d.negated()),
            Numeral::Huge { negative } => Numeral::Huge {
                negative: !*negative,
            },
        }
    }
}
