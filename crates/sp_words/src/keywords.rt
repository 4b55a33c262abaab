//! A table of keywords.
ghost use Rattle.std.specs.Prelude.{◌≡◌, ℕ, ◌↔◌, IsSome, IsNone, IfSome, IsTrue, false, Some};
ghost use Rattle.std.specs.List.{All, zip};
ghost use Rattle.sp_words.specs.Spellings.{spellings, same_word, is_table, IsTable};
ghost use Rattle.sp_words.specs.Rows.{words_of, code_of, IsCodeFor};
ghost use Rattle.sp_words.specs.InnerKept.{IsKept};

use crate::cutting::cut;
use crate::entries::{Entry, code_among, have_keywords};

/// A table of `N` keywords, each with a code. It takes no memory from an allocator.
///
/// A text that is written out makes its table with no test as the program runs, since the check computes that it is one:
///
/// ```text
/// Words::new("minimize min maximize max", [1, 1, 2, 2]).unwrap()
/// ```
#[derive(Clone, Copy, Debug)]
pub struct Words<const N: usize> {
    text: &'static [u8],
    entries: [Entry; N],
    ghost kept: { IsKept N text.now entries },
}

impl<const N: usize> Words<N> {
    ghost use Rattle.sp_words.specs.Words.{rows_in};

    /// The table whose rows are the spellings in the text, parted by single blanks, each with the code at its place.
    ///
    /// `None` exactly where there are not `N` spellings, one is empty, or two are the same word when ASCII case is ignored.
    /// The empty text has no spelling; a blank at either end, and two in a row, make an empty one.
    #[tactic(auto, using(crate::proofs::TableLemmas::keeps, crate::proofs::TableLemmas::taken, crate::proofs::TableLemmas::refused), unfolding(crate::specs::Words::rows_in))]
    pub fn new(words: &'static str, codes: [u16; N]) -> Option<Words<N>>
        ensures made { IsSome result ↔ IsTrue (is_table words.now N) }
        ensures rows { IfSome result (λ table. rows_in table ≡ zip (spellings words.now) codes.entry) }
        ensures table { IfSome result (λ table. IsTable N (words_of (rows_in table))) }
    {
        let text = words.as_bytes();
        match cut(text, &codes) {
            Some(entries) => {
                if have_keywords(text, &entries) {
                    Some(Words { text, entries })
                } else {
                    None
                }
            }
            None => None,
        }
    }

    /// The code of the row that equals the word when ASCII case is ignored; `None` exactly where no row does.
    ///
    /// Only A to Z fold: a byte above 127 equals itself alone. A row is compared byte by byte only where it is as long as the word.
    #[tactic(auto, using(crate::proofs::RowLemmas::none_or_other), unfolding(crate::specs::Words::rows_in))]
    pub fn find(&self, word: &[u8]) -> Option<u16>
        ensures code { result ≡ code_of word.now (rows_in self.now) }
        ensures row { (code : ℕ) → (result ≡ Some code) ↔ IsCodeFor (rows_in self.now) word.now code }
        ensures none { IsNone result ↔ All (λ row. same_word word.now row.0 ≡ false) (rows_in self.now) }
        ensures table { IsTable N (words_of (rows_in self.now)) }
    {
        code_among(self.text, &self.entries, word)
    }
}
