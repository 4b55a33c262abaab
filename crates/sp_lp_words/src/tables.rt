//! The tables of the words of LP files.
ghost use Rattle.std.specs.Prelude.{◌≡◌, ◌≤◌, length};
ghost use Rattle.sp_lp_tokens.specs.SeenTokens.{seen};
ghost use Rattle.sp_lp_words.specs.Tables.{HasSections, HasObjectives, HasInfinities, part_of, direction_of, is_infinity};
ghost use Rattle.sp_lp_words.specs.Classes.{name_class, class_of};

use crate::classes::{Class, symbol_class};
use crate::firsts::may_be_word;
use crate::sections::{Part, direction_for, part_for};
use sp_decimal::Numeral;
use sp_lp_tokens::{Token, TokenKind};
use sp_words::Words;

/// The tables of section words, objective words and infinity words. They take no memory.
#[derive(Clone, Copy, Debug)]
pub struct Tables {
    sections: Words<27>,
    objectives: Words<6>,
    infinities: Words<2>,
    ghost sections_kept: { HasSections sections },
    ghost objectives_kept: { HasObjectives objectives },
    ghost infinities_kept: { HasInfinities infinities },
}

impl Tables {
    /// The tables, which are made with no test as the program runs.
    pub fn new() -> Tables {
        Tables {
            sections: section_table(),
            objectives: objective_table(),
            infinities: infinity_table(),
        }
    }

    /// What the word may be of a section word.
    #[tactic(auto, unfolding(crate::specs::Tables::part_of))]
    pub fn part_of(&self, word: &[u8]) -> Option<Part>
        ensures { result ≡ part_of word.now }
    {
        match self.sections.find(word) {
            None => None,
            Some(code) => part_for(code),
        }
    }

    /// The direction that the word asks for.
    #[tactic(auto, unfolding(crate::specs::Tables::direction_of))]
    pub fn direction_of(&self, word: &[u8]) -> Option<Part>
        ensures { result ≡ direction_of word.now }
    {
        match self.objectives.find(word) {
            None => None,
            Some(code) => direction_for(code),
        }
    }

    /// Whether the word stands for infinity.
    #[tactic(auto, unfolding(crate::specs::Tables::is_infinity))]
    pub fn is_infinity(&self, word: &[u8]) -> bool
        ensures { result ≡ is_infinity word.now }
    {
        self.infinities.find(word).is_some()
    }

    /// What a name is. The tables are asked only where its first letter and its length may be those of a word.
    fn name_class(&self, first: bool, word: &[u8]) -> Class
        ensures { result ≡ name_class first word.now }
    {
        if !may_be_word(word) {
            return Class::Name(None);
        }
        if self.is_infinity(word) {
            Class::Number(Numeral::Huge { negative: false })
        } else if first {
            Class::Name(self.direction_of(word))
        } else {
            Class::Name(self.part_of(word))
        }
    }

    /// What the token is, the first one of its file or a later one.
    #[tactic(auto, unfolding(crate::specs::Classes::class_of))]
    pub fn class_of(&self, source: &[u8], token: &Token, first: bool) -> Class
        requires rising { token.now.start ≤ token.now.end }
        requires within { token.now.end ≤ length source.now }
        ensures { result ≡ class_of first (seen source.now token.now) }
    {
        match token.kind {
            TokenKind::Name => self.name_class(first, token.text(source)),
            TokenKind::Number(number) => Class::Number(number),
            TokenKind::Symbol(symbol) => symbol_class(symbol),
        }
    }
}

fn section_table() -> Words<27>
    ensures { HasSections result }
{
    Words::new(
        "st s.t. st. bounds bound general generals gen integer integers int binary binaries bin sos end semis semi continuous subject to such that lazy constraints user cuts",
        [
            1, 1, 1, 2, 2, 3, 3, 3, 3, 3, 3, 4, 4, 4, 5, 6, 7, 8, 9, 10, 11, 12, 13, 14, 15, 16, 17,
        ],
    )
    .unwrap()
}

fn objective_table() -> Words<6>
    ensures { HasObjectives result }
{
    Words::new(
        "minimize minimum min maximize maximum max",
        [1, 1, 1, 2, 2, 2],
    )
    .unwrap()
}

fn infinity_table() -> Words<2>
    ensures { HasInfinities result }
{
    Words::new("inf infinity", [1, 1]).unwrap()
}
