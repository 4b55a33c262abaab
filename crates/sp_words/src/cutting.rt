//! Cutting a text at its single blanks.
ghost use Rattle.std.specs.Prelude.{◌≡◌, ◌≢◌, ◌≤◌, length, MatchOption};
ghost use Rattle.std.specs.List.{All, zip, position_or_len};
ghost use Rattle.sp_words.specs.Spellings.{is_blank, spellings};
ghost use Rattle.sp_words.specs.InnerEntries.{IsCut};

use crate::entries::Entry;

/// How many bytes stand before the first blank.
fn word_len(rest: &[u8]) -> usize
    ensures place { result ≡ position_or_len is_blank rest.now }
    ensures within { result ≤ length rest.now }
{
    rest.iter().take_while(|byte| **byte != b' ').count()
}

/// The entries of the spellings in the text, each with the code at its place; `None` where there are not `N` spellings.
#[tactic(auto, using(crate::proofs::CutLemmas::ends, crate::proofs::CutLemmas::too_many))]
pub(crate) fn cut<const N: usize>(text: &[u8], codes: &[u16; N]) -> Option<[Entry; N]>
    ensures { MatchOption result (length (spellings text.now) ≢ N) (λ entries. IsCut N text.now codes.now entries) }
{
    let mut entries = [Entry {
        start: 0,
        end: 0,
        code: 0,
    }; N];
    let mut start = if text.is_empty() { 1 } else { 0 };
    for i in 0..N {
        if text.len() < start {
            return None;
        }
        let end = start + word_len(&text[start..]);
        entries[i] = Entry {
            start,
            end,
            code: codes[i],
        };
        start = end + 1;
    }
    if start <= text.len() {
        return None;
    }
    Some(entries)
}
