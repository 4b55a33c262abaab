//! Where the digits of a number stand, and so how it is answered.

ghost use Rattle.std.specs.Prelude.{◌≡◌, ℕ, ◌<◌, ◌^◌, length, min, true, List};
ghost use Rattle.std.specs.List.{list_all};
ghost use Rattle.std.specs.Char.{is_ascii_digit};
ghost use Rattle.sp_decimal.specs.Grammar.{unsigned, raised_by, lowered_by, value_of};
ghost use Rattle.sp_decimal.specs.InnerPlaces.{IsPlace};

use crate::parts::split_sign;

/// What an exponent says from this number on is the same for all: no text is so long.
pub(crate) const FAR: u128 = 1 << 100;

/// The most digits of a decimal.
const MOST_DIGITS: u128 = 30;

/// The most digits of a decimal that stand behind the point.
const MOST_PLACES: u128 = 30;

/// How a number of digits is answered.
#[derive(Clone, Copy)]
pub(crate) enum Place {
    /// It is 10^30 or more.
    TooLarge,
    /// It is a whole number: the digits, with so many zeros behind them.
    Whole {
        /// How many.
        zeros: u32,
    },
    /// The digits, of which so many stand behind the point.
    Decimals {
        /// How many.
        places: u8,
    },
    /// The digits or the places are too many.
    TooFine,
}

/// How far an exponent raises a value, and how far it lowers it, each at most [`FAR`].
#[derive(Clone, Copy)]
pub(crate) struct Shift {
    /// By how many powers of ten it raises.
    pub(crate) raised: u128,
    /// By how many it lowers.
    pub(crate) lowered: u128,
}

/// The number of the digits, or `FAR` where it is greater.
fn capped(digits: &[u8]) -> u128
    requires { list_all is_ascii_digit digits.now ≡ true }
    ensures { result ≡ min (value_of digits.now) FAR }
{
    let mut value = 0;
    for digit in digits {
        value = (10 * value + u128::from(*digit - b'0')).min(FAR);
    }
    value
}

/// How far an exponent moves a value.
#[tactic(auto, unfolding(crate::specs::Grammar::raised_by, crate::specs::Grammar::lowered_by))]
pub(crate) fn shift_of(exponent: &[u8]) -> Shift
    requires { list_all is_ascii_digit (unsigned exponent.now) ≡ true }
    ensures raised { result.raised ≡ min (raised_by exponent.now) FAR }
    ensures lowered { result.lowered ≡ min (lowered_by exponent.now) FAR }
{
    let (negative, digits) = split_sign(exponent);
    let size = capped(digits);
    if negative {
        Shift {
            raised: 0,
            lowered: size,
        }
    } else {
        Shift {
            raised: size,
            lowered: 0,
        }
    }
}

/// The place of a number of `size` digits, of which the first and the last aren't 0, times `10^(raised - lowered)`.
pub(crate) fn place_of(size: u128, raised: u128, lowered: u128) -> Place
    requires size { size < 2 ^ 110 }
    requires raised { raised < 2 ^ 110 }
    requires lowered { lowered < 2 ^ 110 }
    ensures { IsPlace size raised lowered result }
{
    if MOST_DIGITS + lowered < size + raised {
        Place::TooLarge
    } else if lowered <= raised {
        Place::Whole {
            zeros: (raised - lowered) as u32,
        }
    } else if size <= MOST_DIGITS && lowered - raised <= MOST_PLACES {
        Place::Decimals {
            places: (lowered - raised) as u8,
        }
    } else {
        Place::TooFine
    }
}
