//! The values of options: gaps and limits.
ghost use Rattle.std.specs.Prelude.{◌≡◌, ◌-◌, ◌^◌, min, option_map, IfSome};
ghost use Rattle.std.specs.List.{list_all};
ghost use Rattle.sp_model.specs.Cuts.{IsGap};
ghost use Rattle.sp_args.specs.Values.{gap_for, gap_of, is_digit, is_endless, is_whole, nodes_of, number_of};
ghost use Rattle.sp_args.specs.Words.{gap_or, nodes_or};

use sp_decimal::{Decimal, Numeral, floor};
use sp_model::Gap;

/// From this number on a gap is unlimited.
const ENDLESS: i128 = 100_000_000_000_000_000_000;

/// The digits of a gap stay below this number.
const GAP_DIGITS: i128 = 1_000_000_000_000;

/// The most nodes of a tree.
const MOST_NODES: u64 = 200_000;

/// Whether the decimal is at least 10^20.
fn is_unlimited(d: &Decimal) -> bool
    ensures { result ≡ is_endless d.now }
{
    ENDLESS <= floor(d)
}

/// The gap that the decimal is.
fn exact_gap(d: &Decimal) -> Option<Gap>
    ensures value { result ≡ gap_for (Numeral.Exact d.now) }
    ensures lawful { IfSome result IsGap }
{
    if d.p < 0 {
        return None;
    }
    if is_unlimited(d) {
        return Some(Gap::Unlimited);
    }
    if d.p < GAP_DIGITS && d.s <= 12 {
        return Some(Gap::Of {
            p: d.p as u64,
            s: d.s,
        });
    }
    None
}

/// The gap that the text writes.
#[tactic(auto, unfolding(crate::specs::Values::gap_of))]
fn gap(text: &[u8]) -> Option<Gap>
    ensures value { result ≡ gap_of text.now }
    ensures lawful { IfSome result IsGap }
{
    match Numeral::read(text) {
        Ok(numeral) => match &numeral {
            Numeral::Exact(d) => exact_gap(d),
            Numeral::Huge { negative } => {
                if *negative {
                    None
                } else {
                    Some(Gap::Unlimited)
                }
            }
        },
        Err(_) => None,
    }
}

/// The gap that the text writes, or this one where no text is given.
pub(crate) fn given_gap(text: Option<&str>, other: Gap) -> Option<Gap>
    requires { IsGap other }
    ensures value { result ≡ gap_or other (option_map (λ s. s.now) text.entry) }
    ensures lawful { IfSome result IsGap }
{
    match text {
        None => Some(other),
        Some(text) => gap(text.as_bytes()),
    }
}

/// The number that digits write, or the greatest one of 64 bits where that is less.
fn number(text: &[u8]) -> u64
    ensures { result ≡ min (number_of text.now) (2 ^ 64 - 1) }
{
    let mut n: u64 = 0;
    for byte in text {
        n = n
            .saturating_mul(10)
            .saturating_add(u64::from(byte.saturating_sub(b'0')));
    }
    n
}

/// Whether the byte is a digit.
fn is_digit_byte(byte: u8) -> bool
    ensures { result ≡ is_digit byte }
{
    b'0' <= byte && byte <= b'9'
}

/// Whether all bytes are digits.
fn are_digits(text: &[u8]) -> bool
    ensures { result ≡ list_all is_digit text.now }
{
    text.iter().all(|byte| is_digit_byte(*byte))
}

/// Whether the text is digits alone, at least one.
fn is_number(text: &[u8]) -> bool
    ensures { result ≡ is_whole text.now }
{
    if text.is_empty() {
        return false;
    }
    are_digits(text)
}

/// The limit that the text writes.
#[tactic(auto, unfolding(crate::specs::Values::nodes_of))]
fn node_limit(text: &[u8]) -> Option<u32>
    ensures { result ≡ nodes_of text.now }
{
    if !is_number(text) {
        return None;
    }
    let n = number(text);
    if 1 <= n && n <= MOST_NODES {
        return Some(n as u32);
    }
    None
}

/// The limit that the text writes, or the most where no text is given.
pub(crate) fn given_nodes(text: Option<&str>) -> Option<u32>
    ensures { result ≡ nodes_or (option_map (λ s. s.now) text.entry) }
{
    match text {
        None => Some(MOST_NODES as u32),
        Some(text) => node_limit(text.as_bytes()),
    }
}
