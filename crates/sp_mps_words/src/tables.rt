//! The tables of the words of MPS files.
ghost use Rattle.std.specs.Prelude.{◌≡◌};
ghost use Rattle.sp_mps_words.specs.Heads.{head_of, HasHeads};
ghost use Rattle.sp_mps_words.specs.Kinds.{row_kind_of, bound_kind_of, direction_of, HasRowKinds, HasBoundKinds, HasDirections};
ghost use Rattle.sp_mps_words.specs.Marks.{HasMarks, mark_code, is_code, is_marker, mark_for, mark_of, is_if};

use crate::heads::{Head, head_for};
use crate::kinds::{BoundKind, RowKind, bound_kind_for, direction_for, row_kind_for};
use sp_words::Words;

/// The tables of the words of MPS files. The case of letters is of no account. They take no memory.
#[derive(Clone, Copy, Debug)]
pub struct Tables {
    heads: Words<9>,
    row_kinds: Words<4>,
    bound_kinds: Words<10>,
    directions: Words<4>,
    marks: Words<4>,
    ghost heads_kept: { HasHeads heads },
    ghost row_kinds_kept: { HasRowKinds row_kinds },
    ghost bound_kinds_kept: { HasBoundKinds bound_kinds },
    ghost directions_kept: { HasDirections directions },
    ghost marks_kept: { HasMarks marks },
}

impl Tables {
    /// The tables, which are made with no test as the program runs.
    pub fn new() -> Tables {
        Tables {
            heads: head_table(),
            row_kinds: row_kind_table(),
            bound_kinds: bound_kind_table(),
            directions: direction_table(),
            marks: mark_table(),
        }
    }

    /// The head that the word is.
    #[tactic(auto, unfolding(crate::specs::Heads::head_of))]
    pub fn head_of(&self, word: &[u8]) -> Option<Head>
        ensures { result ≡ head_of word.now }
    {
        match self.heads.find(word) {
            None => None,
            Some(code) => head_for(code),
        }
    }

    /// The kind of row that the word is.
    #[tactic(auto, unfolding(crate::specs::Kinds::row_kind_of))]
    pub fn row_kind_of(&self, word: &[u8]) -> Option<RowKind>
        ensures { result ≡ row_kind_of word.now }
    {
        match self.row_kinds.find(word) {
            None => None,
            Some(code) => row_kind_for(code),
        }
    }

    /// The kind of bound that the word is.
    #[tactic(auto, unfolding(crate::specs::Kinds::bound_kind_of))]
    pub fn bound_kind_of(&self, word: &[u8]) -> Option<BoundKind>
        ensures { result ≡ bound_kind_of word.now }
    {
        match self.bound_kinds.find(word) {
            None => None,
            Some(code) => bound_kind_for(code),
        }
    }

    /// Whether the word of direction asks to maximise; `None` where it is no such word.
    #[tactic(auto, unfolding(crate::specs::Kinds::direction_of))]
    pub fn direction_of(&self, word: &[u8]) -> Option<bool>
        ensures { result ≡ direction_of word.now }
    {
        match self.directions.find(word) {
            None => None,
            Some(code) => direction_for(code),
        }
    }

    #[tactic(auto, unfolding(crate::specs::Marks::mark_code))]
    fn mark_code(&self, word: &[u8]) -> Option<u16>
        ensures { result ≡ mark_code word.now }
    {
        self.marks.find(word)
    }

    /// Whether a line of so many words with this second one is a marker line.
    pub fn is_marker(&self, count: usize, second: &[u8]) -> bool
        ensures { result ≡ is_marker count second.now }
    {
        count == 3 && is_code(1, self.mark_code(second))
    }

    /// Whether a marker opens; `None` where the word is no marker's.
    pub fn mark_of(&self, word: &[u8]) -> Option<bool>
        ensures { result ≡ mark_of word.now }
    {
        match self.mark_code(word) {
            None => None,
            Some(code) => mark_for(code),
        }
    }

    /// Whether the word is the one that an indicator begins with.
    pub fn is_if(&self, word: &[u8]) -> bool
        ensures { result ≡ is_if word.now }
    {
        is_code(4, self.mark_code(word))
    }
}

fn head_table() -> Words<9>
    ensures { HasHeads result }
{
    Words::new(
        "name objsense rows columns rhs ranges bounds indicators endata",
        [1, 2, 3, 4, 5, 6, 7, 8, 9],
    )
    .unwrap()
}

fn row_kind_table() -> Words<4>
    ensures { HasRowKinds result }
{
    Words::new("n l g e", [1, 2, 3, 4]).unwrap()
}

fn bound_kind_table() -> Words<10>
    ensures { HasBoundKinds result }
{
    Words::new(
        "up lo fx fr mi pl bv li ui sc",
        [1, 2, 3, 4, 5, 6, 7, 8, 9, 10],
    )
    .unwrap()
}

fn direction_table() -> Words<4>
    ensures { HasDirections result }
{
    Words::new("max maximize min minimize", [1, 1, 2, 2]).unwrap()
}

fn mark_table() -> Words<4>
    ensures { HasMarks result }
{
    Words::new("'marker' 'intorg' 'intend' if", [1, 2, 3, 4]).unwrap()
}

/// Whether it is the wanted code.
fn is_code(wanted: u16, code: Option<u16>) -> bool
    ensures { result ≡ is_code wanted code }
{
    match code {
        None => false,
        Some(code) => code == wanted,
    }
}

/// Whether the marker with the code in the table opens.
fn mark_for(code: u16) -> Option<bool>
    ensures { result ≡ mark_for code }
{
    match code {
        2 => Some(true),
        3 => Some(false),
        _ => None,
    }
}
