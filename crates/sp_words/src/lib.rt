//! Tables of keywords: which code a word stands for, whatever the case of its letters.
#![tactic(auto)]

mod cutting;
mod entries;
mod keywords;
mod laws;
#[cfg(test)]
mod tests;

pub use keywords::Words;
pub use laws::{spellings_are_pieces, tables_are_tested, words_fold_case, words_have_one_row};
