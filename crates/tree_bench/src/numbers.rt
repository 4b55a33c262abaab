//! The numbers of a line. A number that is missing is read as 0.

use std::str::SplitWhitespace;

/// The next number.
pub fn number(words: &mut SplitWhitespace<'_>) -> i128 {
    match words.next() {
        None => 0,
        Some(word) => word.parse::<i128>().unwrap_or(0),
    }
}

/// The next number, 0 where it isn't one of 32 bits.
pub fn small(words: &mut SplitWhitespace<'_>) -> u32 {
    u32::try_from(number(words)).unwrap_or(0)
}

/// The next number, 0 where it isn't a signed one of 64 bits.
pub fn value(words: &mut SplitWhitespace<'_>) -> i64 {
    i64::try_from(number(words)).unwrap_or(0)
}
