//! Stand-ins for what lies outside.
ghost use Rattle.std.specs.Io.{WritesAtMost};

use std::env::FillError;
use std::rt::Env;

/// An environment with these words behind the program's name.
#[derive(Drop)]
pub struct FakeEnv<'a> {
    pub words: &'a [&'a [u8]],
}

/// Puts a word to the front of a buffer that has room for it.
fn fill(word: &[u8], buf: &mut [u8]) -> Result<usize, FillError>
    ensures { WritesAtMost result buf.new }
{
    if word.len() > buf.len() {
        return Err(FillError::TooLong);
    }
    buf[..word.len()].copy_from_slice(word);
    Ok(word.len())
}

impl<'a> Env for FakeEnv<'a> {
    fn arg(&self, i: usize, buf: &mut [u8]) -> Result<usize, FillError> {
        if i == 0 {
            return fill(b"solpool", buf);
        }
        match self.words.get(i - 1) {
            Some(word) => fill(word, buf),
            None => Err(FillError::NotPresent),
        }
    }

    fn var(&self, _name: &str, _buf: &mut [u8]) -> Result<usize, FillError> {
        Err(FillError::NotPresent)
    }

    fn var_at(&self, _i: usize, _buf: &mut [u8]) -> Result<usize, FillError> {
        Err(FillError::NotPresent)
    }
}
