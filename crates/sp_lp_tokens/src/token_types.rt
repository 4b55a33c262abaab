//! Tokens, and why a file has none.
ghost use Rattle.std.specs.Prelude.{◌≡◌, ◌≤◌, length};
ghost use Rattle.sp_lp_tokens.specs.Tokens.{text_of};

use crate::symbols::Symbol;
use sp_decimal::Numeral;
use std::mem::size_of;

/// A token of an LP file: what it is, and where its text stands in the file's bytes.
#[derive(Clone, Copy, PartialEq, Eq, Debug)]
pub struct Token {
    /// What the token is.
    pub kind: TokenKind,
    /// The place of its first byte, from 0.
    pub start: u32,
    /// The place behind its last byte.
    pub end: u32,
    /// The line that it stands in, from 1.
    pub line: u32,
}

// An enum's tag stands before its payload, and the 128 bits of a decimal stand on a multiple of 16 bytes, so the tags of the kind
// and of the numeral take 16 bytes each.
const _: () = prove!(size_of::<Token>() <= 80);

impl Token {
    /// The token's text, in the bytes of its file.
    pub fn text<'a>(&self, source: &'a [u8]) -> &'a [u8]
        requires rising { self.now.start ≤ self.now.end }
        requires within { self.now.end ≤ length source.now }
        ensures { result.now ≡ text_of source.now self.now }
    {
        &source[self.start as usize..self.end as usize]
    }
}

/// What a token is.
#[derive(Clone, Copy, PartialEq, Eq, Debug)]
pub enum TokenKind {
    /// A name of at most 255 bytes, or a word that has a meaning where it stands.
    Name,
    /// A number without sign.
    Number(Numeral),
    /// A symbol.
    Symbol(Symbol),
}

/// Why bytes aren't a token.
#[derive(Clone, Copy, PartialEq, Eq, Debug)]
pub enum TokenKindFault {
    /// No token begins with this byte.
    BadByte,
    /// A number that needs more than thirty digits, or more than thirty decimal places.
    Wide,
    /// A name of more than 255 bytes.
    LongName,
}

/// Why a file has no list of tokens.
#[derive(Clone, Copy, PartialEq, Eq, Debug)]
pub enum TokenRefusal {
    /// The first fault of the file.
    Fault {
        /// The line of the fault, from 1.
        line: u32,
        /// What the fault is.
        kind: TokenKindFault,
    },
    /// There was no memory for the list.
    NoMemory,
}
