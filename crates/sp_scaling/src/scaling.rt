//! The scale of written terms, and how great their sum is in whole units.
ghost use Rattle.std.specs.Prelude.{◌≡◌, ◌↔◌, ◌<◌, ◌≤◌, ◌*◌, ◌-◌, max, IsTrue, SomeIff, unsigned_abs};
ghost use Rattle.sp_decimal.specs.DecimalFraction.{most_places as limit_of_places};
ghost use Rattle.sp_scaling.specs.Scaling.{greatest_width, most_places_of, numbers_of, units, scaled, size_of};

use sp_decimal::{Decimal, scaled};
use sp_model::VarId;

/// No sum's width is greater.
const GREATEST_WIDTH: u128 = 1_000_000_000_000_000_000_000_000_000_000_000_000;

/// How many decimal places the number has, at most 30.
fn places(d: &Decimal) -> u8
    ensures value { result ≡ d.now.s }
    ensures few { result ≤ limit_of_places }
{
    d.s
}

/// The most decimal places that one of the numbers has, at most 30; 0 without a number.
pub fn most_places_of(numbers: &[Decimal]) -> u8
    ensures value { result ≡ most_places_of numbers.now }
    ensures few { result ≤ limit_of_places }
{
    let mut most = 0;
    for number in numbers {
        most = places(number).max(most);
    }
    most
}

/// The most decimal places that one of the coefficients has, at most 30; 0 without a term.
pub fn most_places(terms: &[(VarId, Decimal)]) -> u8
    ensures value { result ≡ most_places_of (numbers_of terms.now) }
    ensures few { result ≤ limit_of_places }
{
    let mut most = 0;
    for term in terms {
        most = places(&term.1).max(most);
    }
    most
}

/// The magnitude of a number.
fn size(value: &i128) -> u128
    ensures { result ≡ unsigned_abs value.now }
{
    value.unsigned_abs()
}

/// What is left of the room, at most 10^36, beside the number's magnitude in units of 10^-places times the reach, at least
/// 1; `None` where that is more than the room. A number of units that 128 bits can't hold is more than every room.
pub fn room_beside(number: &Decimal, places: u8, reach: u128, room: u128) -> Option<u128>
    requires scale { number.now.s ≤ places }
    requires places { places ≤ limit_of_places }
    requires reach { 0 < reach }
    requires room { room ≤ greatest_width }
    ensures { let width = unsigned_abs (units places number.now) * reach in SomeIff result (width ≤ room) (room - width) }
{
    match scaled(number, places) {
        None => None,
        Some(units) => {
            let size = size(&units);
            if size > room / reach {
                None
            } else {
                Some(room - size * reach)
            }
        }
    }
}

/// Whether the magnitudes of the coefficients, in units of 10^-places, add up to at most 10^36.
pub fn is_narrow(terms: &[(VarId, Decimal)], places: u8) -> bool
    requires scale { most_places_of (numbers_of terms.now) ≤ places }
    requires places { places ≤ limit_of_places }
    ensures { IsTrue result ↔ (size_of (scaled places terms.now) ≤ greatest_width) }
{
    let mut left = GREATEST_WIDTH;
    for term in terms {
        match room_beside(&term.1, places, 1, left) {
            None => return false,
            Some(rest) => left = rest,
        }
    }
    true
}
