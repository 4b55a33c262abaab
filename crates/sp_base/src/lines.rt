//! The lines of a text, one after another.
ghost use Rattle.std.specs.Prelude.{◌≡◌, ◌<◌, ◌≤◌, [], ◌∷◌, length, MatchOption, IfSome};
ghost use Rattle.std.specs.List.{position_or_len};
ghost use Rattle.std.specs.Str.Lines.{strip_carriage_return};
ghost use Rattle.sp_base.specs.Lines.{is_feed, lines};

use crate::places::text_from;

/// The place of the first line feed, or the length.
fn feed_place(text: &[u8]) -> usize
    ensures place { result ≡ position_or_len is_feed text.now }
    ensures within { result ≤ length text.now }
{
    text.iter().take_while(|byte| **byte != b'\n').count()
}

/// The text without a carriage return at its end.
fn without_return(text: &[u8]) -> &[u8]
    ensures { result.now ≡ strip_carriage_return text.now }
{
    if !text.is_empty() && text[text.len() - 1] == b'\r' {
        &text[..text.len() - 1]
    } else {
        text
    }
}

/// The first line of the text, and the text behind it; `None` exactly where the text is empty.
///
/// It takes no memory, and its time is that of the line: going on with the second part, the lines of a text come one
/// after another in linear time.
#[tactic(auto, using(crate::proofs::LineLemmas::feed_ends, crate::proofs::LineLemmas::text_ends))]
pub fn next_line(text: &[u8]) -> Option<(&[u8], &[u8])>
    ensures line { MatchOption result (text.now ≡ []) (λ cut. lines text.now ≡ cut.0.now ∷ lines cut.1.now) }
    ensures shorter { IfSome result (λ cut. length cut.1.now < length text.now) }
{
    if text.is_empty() {
        return None;
    }
    let end = feed_place(text);
    if end < text.len() {
        Some((without_return(&text[..end]), text_from(text, end + 1)))
    } else {
        Some((text, &[]))
    }
}
