//! The value of a numeral's parts.

ghost use Rattle.std.specs.Prelude.{◌≡◌, ◌≢◌, ℕ, ◌+◌, ◌*◌, ◌%◌, ◌^◌, ◌<◌, ◌≤◌, true, length};
ghost use Rattle.std.specs.List.{list_all};
ghost use Rattle.std.specs.Char.{is_ascii_digit};
ghost use Rattle.sp_decimal.specs.DecimalFraction.{most_digits, most_places, huge_from};
ghost use Rattle.sp_decimal.specs.Grammar.{unsigned, raised_by, lowered_by};
ghost use Rattle.sp_decimal.specs.Numerals.{signed, fraction_numeral};
ghost use Rattle.sp_decimal.specs.InnerSignificands.{number_of};

use crate::decimals::Decimal;
use crate::numerals::{Numeral, NumeralFault};
use crate::parts::Parts;
use crate::places::{Place, place_of, shift_of};
use crate::significands::{Stripped, number, strip};

/// The number of the digits, with the sign.
fn with_sign(negative: bool, digits: u128) -> i128
    requires { digits < huge_from }
    ensures { result ≡ signed negative digits }
{
    let p = digits as i128;
    if negative { -p } else { p }
}

/// The decimal of these digits, of which so many stand behind the point.
fn decimal(negative: bool, digits: u128, places: u8) -> Decimal
    requires small { digits < huge_from }
    requires short { places ≤ most_places }
    requires least { 0 < places → digits % 10 ≢ 0 }
    ensures { result ≡ record { p = signed negative digits; s = places } }
{
    Decimal {
        p: with_sign(negative, digits),
        s: places,
    }
}

/// The number of the digits of both, with zeros behind them.
fn whole_number(head: &[u8], tail: &[u8], zeros: u32) -> u128
    requires head { list_all is_ascii_digit head.now ≡ true }
    requires tail { list_all is_ascii_digit tail.now ≡ true }
    requires short { length head.now + length tail.now + zeros ≤ most_digits }
    ensures { result ≡ number_of head.now tail.now * 10 ^ zeros }
{
    number(head, tail) * 10u128.pow(zeros)
}

/// What a numeral of these parts is read as.
pub(crate) fn value(negative: bool, parts: &Parts<'_>) -> Result<Numeral, NumeralFault>
    requires whole { list_all is_ascii_digit parts.now.whole.now ≡ true }
    requires fraction { list_all is_ascii_digit parts.now.fraction.now ≡ true }
    requires exponent { list_all is_ascii_digit (unsigned parts.now.exponent.now) ≡ true }
    ensures { result ≡ fraction_numeral negative
        (number_of parts.now.whole.now parts.now.fraction.now * 10 ^ raised_by parts.now.exponent.now)
        (10 ^ (length parts.now.fraction.now + lowered_by parts.now.exponent.now)) }
{
    let Stripped { head, tail, zeros } = strip(parts.whole, parts.fraction);
    let size = head.len() as u128 + tail.len() as u128;
    if size == 0 {
        return Ok(Numeral::Exact(decimal(negative, 0, 0)));
    }
    let shift = shift_of(parts.exponent);
    match place_of(
        size,
        zeros + shift.raised,
        parts.fraction.len() as u128 + shift.lowered,
    ) {
        Place::TooLarge => Ok(Numeral::Huge { negative }),
        Place::Whole { zeros } => Ok(Numeral::Exact(decimal(
            negative,
            whole_number(head, tail, zeros),
            0,
        ))),
        Place::Decimals { places } => Ok(Numeral::Exact(decimal(
            negative,
            number(head, tail),
            places,
        ))),
        Place::TooFine => Err(NumeralFault::Wide),
    }
}
