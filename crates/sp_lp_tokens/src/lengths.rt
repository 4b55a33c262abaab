//! The lengths of the longest name, number and symbol that bytes begin with.
ghost use Rattle.std.specs.Prelude.{◌≡◌, if◌then◌else◌, length, take};
ghost use Rattle.std.specs.List.{prefix_len};
ghost use Rattle.sp_lp_tokens.specs.InnerNumeralPlaces.{ends_numeral};
ghost use Rattle.std.specs.Option.{IfSome, IfNone};
ghost use Rattle.sp_lp_tokens.specs.Longest.{IsLongest};
ghost use Rattle.sp_lp_tokens.specs.Texts.{is_name, is_name_byte, begins_name, is_number, is_symbol, spelling};

use crate::numeral_places::Place;
use crate::symbols::{Symbol, symbol_from};

/// Whether a name may hold the byte.
fn is_name_byte(byte: u8) -> bool
    ensures { result ≡ is_name_byte byte }
{
    matches!(
        byte,
        b'a'..=b'z' | b'A'..=b'Z' | b'0'..=b'9' | b'!'..=b')' | b',' | b'.' | b';' | b'?' | b'@' | b'_' | b'`' | b'{' | b'}' | b'~'
    )
}

/// Whether a name may begin with the byte.
fn begins_name(byte: u8) -> bool
    ensures { result ≡ begins_name byte }
{
    is_name_byte(byte) && !(byte.is_ascii_digit() || byte == b'.')
}

/// How many bytes of names stand first.
fn name_run(bytes: &[u8]) -> usize
    ensures { result ≡ prefix_len is_name_byte bytes.now }
{
    bytes.iter().take_while(|byte| is_name_byte(**byte)).count()
}

/// The length of the longest name that the bytes begin with; 0 without one.
pub(crate) fn name_length(bytes: &[u8]) -> usize
    ensures { IsLongest is_name bytes.now result }
{
    match bytes {
        [] => 0,
        [first, ..] => {
            if begins_name(*first) {
                name_run(bytes)
            } else {
                0
            }
        }
    }
}

/// The read bytes where they are a numeral, else what was the longest before.
fn longer(place: Place, read: usize, longest: usize) -> usize
    ensures { result ≡ (if ends_numeral place then read else longest) }
{
    if place.ends_numeral() { read } else { longest }
}

/// The length of the longest number that the bytes begin with; 0 without one.
pub(crate) fn number_length(bytes: &[u8]) -> usize
    ensures { IsLongest is_number bytes.now result }
{
    let mut place = Place::Start;
    let mut longest = 0;
    for (i, byte) in bytes.iter().enumerate() {
        match place.after(*byte) {
            None => return longest,
            Some(next) => {
                place = next;
                longest = longer(place, i + 1, longest);
            }
        }
    }
    longest
}

/// The symbol with the longest spelling that the bytes begin with; nothing without one.
pub(crate) fn symbol_at(bytes: &[u8]) -> Option<Symbol>
    ensures none { IfNone result (IsLongest is_symbol bytes.now 0) }
    ensures spelled { IfSome result (λ symbol. take (length (spelling symbol)) bytes.now ≡ spelling symbol) }
    ensures longest { IfSome result (λ symbol. IsLongest is_symbol bytes.now (length (spelling symbol))) }
{
    match bytes {
        [] => None,
        [first, rest @ ..] => symbol_from(*first, rest),
    }
}
