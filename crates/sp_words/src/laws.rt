//! Laws of keyword tables: each is the contract of a function that does nothing.

ghost use Rattle.std.specs.Prelude.{◌≡◌, ◌↔◌, ℕ, ◌<◌, List, [], length, slice_index_or, false, IsTrue};
ghost use Rattle.std.specs.List.{All, AllZip, join_with_byte};
ghost use Rattle.sp_words.specs.Spellings.{is_blank, spellings, IsSameByte, same_word, IsTable, is_table};

/// The spellings, joined by blanks, give the text; none holds a blank; and the empty text alone has none.
pub fn spellings_are_pieces()
    ensures joined { (text : List ℕ) → join_with_byte 32 (spellings text) ≡ text }
    ensures parted { (text : List ℕ) → All (λ spelling. All (λ byte. is_blank byte ≡ false) spelling) (spellings text) }
    ensures empty { (text : List ℕ) → (length (spellings text) ≡ 0) ↔ (text ≡ []) }
{}

/// Two words are the same exactly where they are as long as each other, and at each place hold the same byte or one letter in two cases.
pub fn words_fold_case()
    ensures { (a b : List ℕ) → IsTrue (same_word a b) ↔ AllZip IsSameByte a b }
{}

/// The test of a text says exactly that its spellings make a table.
pub fn tables_are_tested()
    ensures { (text : List ℕ) (n : ℕ) → IsTrue (is_table text n) ↔ IsTable n (spellings text) }
{}

/// At most one spelling of a table is the word.
pub fn words_have_one_row()
    ensures { (n : ℕ) (words : List (List ℕ)) (word : List ℕ) (i j : ℕ) (d : List ℕ) → IsTable n words → i < n → j < n
        → IsTrue (same_word word (slice_index_or words i d)) → IsTrue (same_word word (slice_index_or words j d)) → i ≡ j }
{}
