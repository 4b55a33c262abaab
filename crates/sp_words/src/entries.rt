//! Where the spellings of a table stand in its text.
ghost use Rattle.std.specs.Prelude.{◌≡◌};
ghost use Rattle.std.specs.List.{All, list_any};
ghost use Rattle.sp_words.specs.Spellings.{same_word, are_keywords};
ghost use Rattle.sp_words.specs.Rows.{code_of, words_of};
ghost use Rattle.sp_words.specs.InnerEntries.{IsWithin, spelling_at, rows_of};

/// A spelling by its place in the text, and the code beside it.
#[derive(Clone, Copy, Debug)]
pub(crate) struct Entry {
    /// The place of its first byte.
    pub(crate) start: usize,
    /// One past the place of its last byte.
    pub(crate) end: usize,
    /// What the spelling stands for.
    pub(crate) code: u16,
}

impl Entry {
    /// Whether the entry's spelling in the text is the word when ASCII case is ignored.
    #[tactic(auto, using(crate::proofs::WordLemmas::same_word_from_test))]
    fn is_word(&self, text: &[u8], word: &[u8]) -> bool
        requires { IsWithin text.now self.now }
        ensures { result ≡ same_word word.now (spelling_at text.now self.now) }
    {
        word.eq_ignore_ascii_case(&text[self.start..self.end])
    }
}

/// The code of the first entry that is the word.
#[tactic(auto, using(crate::proofs::EntryLemmas::found_here, crate::proofs::EntryLemmas::not_here))]
pub(crate) fn code_among(text: &[u8], entries: &[Entry], word: &[u8]) -> Option<u16>
    requires { All (IsWithin text.now) entries.now }
    ensures { result ≡ code_of word.now (rows_of text.now entries.now) }
{
    for entry in entries {
        if entry.is_word(text, word) {
            return Some(entry.code);
        }
    }
    None
}

/// Whether one of the entries is the word.
#[tactic(auto, using(crate::proofs::RowLemmas::is_some_code_of))]
fn is_among(text: &[u8], entries: &[Entry], word: &[u8]) -> bool
    requires { All (IsWithin text.now) entries.now }
    ensures { result ≡ list_any (same_word word.now) (words_of (rows_of text.now entries.now)) }
{
    code_among(text, entries, word).is_some()
}

/// Whether no entry is empty, and no two are the same word.
#[tactic(auto, using(crate::proofs::EntryLemmas::keywords_repeat, crate::proofs::EntryLemmas::keywords_more))]
pub(crate) fn have_keywords(text: &[u8], entries: &[Entry]) -> bool
    requires { All (IsWithin text.now) entries.now }
    ensures { result ≡ are_keywords (words_of (rows_of text.now entries.now)) }
{
    for (i, entry) in entries.iter().enumerate() {
        let word = &text[entry.start..entry.end];
        if word.is_empty() {
            return false;
        }
        if is_among(text, &entries[i + 1..], word) {
            return false;
        }
    }
    true
}
