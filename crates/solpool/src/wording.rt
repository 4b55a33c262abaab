//! The words of the command line, as bytes.
use sp_base::{Text, WordList};
use std::alloc::{AllocError, Global};
use std::env::FillError;
use std::rt::Env;

/// The words that follow the program's name. A word may be any bytes, also such as are no UTF-8.
pub fn words_of<E: Env>(alloc: Global, env: &E) -> Result<WordList, AllocError> {
    let mut words = WordList::new(alloc);
    for place in 1..usize::MAX {
        match word_at(alloc, env, place)? {
            Some(word) => words.push(word)?,
            None => return Ok(words),
        }
    }
    Ok(words)
}

/// The word at this place, where the program's name has place 0, or `None` past the last word.
fn word_at<E: Env>(alloc: Global, env: &E, place: usize) -> Result<Option<Text>, AllocError> {
    let mut room = 256usize;
    for _ in 0..usize::BITS {
        let mut bytes = vec![in alloc; 0u8; room]?;
        match env.arg(place, bytes.as_mut_slice()) {
            Ok(len) => {
                bytes.truncate(len);
                return Ok(Some(Text::from_vec(bytes)));
            }
            Err(FillError::NotPresent) => return Ok(None),
            Err(FillError::TooLong) => room = room.saturating_mul(2),
        }
    }
    Err(AllocError)
}
