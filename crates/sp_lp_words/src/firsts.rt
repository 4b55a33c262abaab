//! Names that can be no word of the tables, told by the first letter and the length.
ghost use Rattle.std.specs.Prelude.{◌≡◌};
ghost use Rattle.sp_lp_words.specs.InnerFirsts.{has_length, may_be_word};

/// Whether a spelling of the tables begins with the small letter and has the length.
#[tactic(auto, unfolding(crate::specs::InnerFirsts::has_length))]
fn has_length(letter: u8, length: usize) -> bool
    ensures { result ≡ has_length letter length }
{
    match letter {
        b's' => matches!(length, 2 | 3 | 4 | 5 | 7),
        b'b' => matches!(length, 3 | 5 | 6 | 8),
        b'c' => matches!(length, 4 | 10 | 11),
        b'g' | b'i' | b'm' => matches!(length, 3 | 7 | 8),
        b't' => matches!(length, 2 | 4),
        b'l' | b'u' => length == 4,
        b'e' => length == 3,
        _ => false,
    }
}

/// Whether a spelling of the tables begins with the word's first letter, in either case, and is as long as the word.
#[tactic(auto, using(crate::proofs::FirstLemmas::empty_told, crate::proofs::FirstLemmas::first_told))]
pub(crate) fn may_be_word(word: &[u8]) -> bool
    ensures { result ≡ may_be_word word.now }
{
    match word.first() {
        None => false,
        Some(byte) => has_length(byte.to_ascii_lowercase(), word.len()),
    }
}
