//! The longest token that bytes begin with.
ghost use Rattle.std.specs.Prelude.{◌≡◌, ◌<◌, ◌≤◌, true, length};
ghost use Rattle.sp_lp_tokens.specs.Longest.{IsLongest};
ghost use Rattle.sp_lp_tokens.specs.Texts.{is_name, is_number};
ghost use Rattle.sp_lp_tokens.specs.InnerPieces.{IsPieceOrFault};

use crate::lengths::{name_length, number_length, symbol_at};
use crate::token_types::{TokenKind, TokenKindFault};
use sp_decimal::{Numeral, NumeralFault, numerals_have_one_reading};

/// The longest name that a token may have, in bytes.
const LONGEST_NAME: usize = 255;

/// The token that some bytes begin with.
#[derive(Clone, Copy)]
pub(crate) struct Piece {
    /// What the token is.
    pub kind: TokenKind,
    /// How many bytes its text has.
    pub length: usize,
}

/// The token that is a name of this length.
fn name_piece(bytes: &[u8], length: usize) -> Result<Piece, TokenKindFault>
    requires some { 0 < length }
    requires longest { IsLongest is_name bytes.now length }
    ensures { IsPieceOrFault bytes.now result }
{
    if length <= LONGEST_NAME {
        Ok(Piece {
            kind: TokenKind::Name,
            length,
        })
    } else {
        Err(TokenKindFault::LongName)
    }
}

/// The token that is a number of this length.
fn number_piece(bytes: &[u8], length: usize) -> Result<Piece, TokenKindFault>
    requires some { 0 < length }
    requires longest { IsLongest is_number bytes.now length }
    ensures { IsPieceOrFault bytes.now result }
{
    numerals_have_one_reading();
    match Numeral::read(&bytes[..length]) {
        Ok(numeral) => Ok(Piece {
            kind: TokenKind::Number(numeral),
            length,
        }),
        Err(NumeralFault::Wide) => Err(TokenKindFault::Wide),
        Err(NumeralFault::NotNumeral) => unreachable!(),
    }
}

/// The longest token that the bytes begin with, or why none does.
pub(crate) fn piece_at(bytes: &[u8]) -> Result<Piece, TokenKindFault>
    ensures { IsPieceOrFault bytes.now result }
{
    let name = name_length(bytes);
    if name > 0 {
        return name_piece(bytes, name);
    }
    let number = number_length(bytes);
    if number > 0 {
        return number_piece(bytes, number);
    }
    match symbol_at(bytes) {
        Some(symbol) => Ok(Piece {
            kind: TokenKind::Symbol(symbol),
            length: symbol.spelling().len(),
        }),
        None => Err(TokenKindFault::BadByte),
    }
}
