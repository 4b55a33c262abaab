//! Whole numbers and gaps.

ghost use Rattle.std.specs.Prelude.{◌≡◌, ◌<◌, ◌≤◌, ◌^◌, ◌-◌, min, IfSome};
ghost use Rattle.std.specs.List.{list_all};
ghost use Rattle.sp_model.specs.Cuts.{IsGap};
ghost use Rattle.sp_command.specs.Lawful.{IsFromTo};
ghost use Rattle.sp_command.specs.Values.{number_of, is_digit, is_whole, whole, gap_of, gap_for, is_far_up, is_far_down};

use sp_decimal::{Decimal, Numeral, ceil, floor};
use sp_model::Gap;

/// A bound of this magnitude or more is none, and such a gap is unlimited.
const ENDLESS: i128 = 100_000_000_000_000_000_000;

/// The digits of a gap stay below this number.
const GAP_DIGITS: i128 = 1_000_000_000_000;

/// The number that digits write, or the greatest one of 64 bits where that is less.
fn number(word: &[u8]) -> u64
    ensures { result ≡ min (number_of word.now) (2 ^ 64 - 1) }
{
    let mut n: u64 = 0;
    for byte in word {
        n = n
            .saturating_mul(10)
            .saturating_add(u64::from(byte.saturating_sub(b'0')));
    }
    n
}

/// Whether the byte is a digit.
fn is_digit_byte(byte: u8) -> bool
    ensures { result ≡ is_digit byte }
{
    b'0' <= byte && byte <= b'9'
}

/// Whether all bytes are digits.
fn are_digits(word: &[u8]) -> bool
    ensures { result ≡ list_all is_digit word.now }
{
    word.iter().all(|byte| is_digit_byte(*byte))
}

/// Whether the word is digits alone, at least one.
fn is_number(word: &[u8]) -> bool
    ensures { result ≡ is_whole word.now }
{
    if word.is_empty() {
        return false;
    }
    are_digits(word)
}

/// The whole number that the word writes, within these limits.
#[tactic(auto, unfolding(crate::specs::Values::whole))]
pub(crate) fn whole_number(least: u64, most: u64, word: &[u8]) -> Option<u64>
    requires { most < 2 ^ 63 }
    ensures value { result ≡ whole least most word.now }
    ensures inside { IfSome result (IsFromTo least most) }
{
    if !is_number(word) {
        return None;
    }
    let n = number(word);
    if n < least {
        return None;
    }
    if most < n {
        return None;
    }
    Some(n)
}

/// Whether the decimal is at least 10^20.
pub(crate) fn is_far_above(d: &Decimal) -> bool
    ensures { result ≡ is_far_up d.now }
{
    ENDLESS <= floor(d)
}

/// Whether the decimal is at most -10^20.
pub(crate) fn is_far_below(d: &Decimal) -> bool
    ensures { result ≡ is_far_down d.now }
{
    ceil(d) <= -ENDLESS
}

/// The gap that the number is.
fn exact_gap(d: &Decimal) -> Option<Gap>
    ensures value { result ≡ gap_for (Numeral.Exact d.now) }
    ensures lawful { IfSome result IsGap }
{
    if d.p < 0 {
        return None;
    }
    if is_far_above(d) {
        return Some(Gap::Unlimited);
    }
    if d.p < GAP_DIGITS && d.s <= 12 {
        return Some(Gap::Of {
            p: d.p as u64,
            s: d.s,
        });
    }
    None
}

/// The gap that the word writes.
#[tactic(auto, unfolding(crate::specs::Values::gap_of))]
pub(crate) fn gap(word: &[u8]) -> Option<Gap>
    ensures value { result ≡ gap_of word.now }
    ensures lawful { IfSome result IsGap }
{
    match Numeral::read(word) {
        Ok(numeral) => match &numeral {
            Numeral::Exact(d) => exact_gap(d),
            Numeral::Huge { negative } => {
                if *negative {
                    None
                } else {
                    Some(Gap::Unlimited)
                }
            }
        },
        Err(_) => None,
    }
}
