//! The words of `solpool`'s command line, read by `clap`.
#![tactic(auto)]

mod options;
mod reading;
#[cfg(test)]
mod reading_tests;
mod requests;
mod values;

pub use reading::{read_words, words_have_one_reading};
pub use requests::{Request, WordsRefusal};
