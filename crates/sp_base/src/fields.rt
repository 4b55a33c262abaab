//! The fields of a line, one after another.
ghost use Rattle.std.specs.Prelude.{◌≡◌, ◌<◌, ◌≤◌, [], ◌∷◌, length, MatchOption, IfSome};
ghost use Rattle.std.specs.List.{position_or_len, prefix_len};
ghost use Rattle.sp_base.specs.Fields.{is_blank, fields};

use crate::places::text_from;

/// Whether the byte is a space or a tab.
pub fn is_blank(byte: u8) -> bool
    ensures { result ≡ is_blank byte }
{
    byte == b' ' || byte == b'\t'
}

/// How many blanks the text begins with.
fn blanks_before(text: &[u8]) -> usize
    ensures count { result ≡ prefix_len is_blank text.now }
    ensures within { result ≤ length text.now }
{
    text.iter().take_while(|byte| is_blank(**byte)).count()
}

/// The place of the first blank, or the length.
fn blank_place(text: &[u8]) -> usize
    ensures place { result ≡ position_or_len is_blank text.now }
    ensures within { result ≤ length text.now }
{
    text.iter().take_while(|byte| !is_blank(**byte)).count()
}

/// The first field of the text, and the text behind it; `None` exactly where there is no field.
///
/// It takes no memory, and its time is that of the field and the blanks before it: going on with the second part, the
/// fields of a line come one after another in linear time.
#[tactic(auto, using(crate::proofs::FieldLemmas::no_field, crate::proofs::FieldLemmas::one_field, crate::proofs::FieldLemmas::shorter))]
pub fn next_field(text: &[u8]) -> Option<(&[u8], &[u8])>
    ensures field { MatchOption result (fields text.now ≡ []) (λ cut. fields text.now ≡ cut.0.now ∷ fields cut.1.now) }
    ensures shorter { IfSome result (λ cut. length cut.1.now < length text.now) }
{
    let inner = text_from(text, blanks_before(text));
    if inner.is_empty() {
        return None;
    }
    let end = blank_place(inner);
    Some((&inner[..end], text_from(inner, end)))
}
