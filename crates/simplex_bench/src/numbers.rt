//! The numbers on standard input.

use anyhow::{Context, Result};
use std::alloc::Global;
use std::io;
use std::io::Read;

/// All numbers of a text.
pub fn numbers_of<R: Read + Drop>(alloc: Global, reader: R) -> Result<Vec<i128>> {
    let text = io::read_to_string(alloc, reader)?;
    let mut numbers = Vec::new(alloc);
    for word in text.split_whitespace() {
        numbers.push(word.parse::<i128>().context("reading a number")?)?;
    }
    Ok(numbers)
}

/// The number at a place, 0 where there is none.
pub fn number_at(numbers: &[i128], place: usize) -> i128 {
    if place < numbers.len() {
        numbers[place]
    } else {
        0
    }
}
