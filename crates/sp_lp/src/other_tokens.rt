//! Tokens in the place of others, to see whether the reader goes on with them.
ghost use Rattle.std.specs.Prelude.{◌≡◌, ℕ, ◌≤◌, true, ◌==◌, ◌++◌, take, List, length, IfOk, All};
ghost use Rattle.sp_lp_tokens.specs.SeenTokens.{all_seen};
ghost use Rattle.sp_lp_tokens.specs.Tokens.{IsSpan};
ghost use Rattle.sp_lp_grammar.specs.Lexemes.{mark_of};
ghost use Rattle.sp_lp_grammar.specs.InnerCursor.{origin, take_mark, walk, line_behind};
ghost use Rattle.sp_lp.specs.Cursors.{cursor_of};
ghost use Rattle.sp_lp.specs.Stops.{Gives};
ghost use Rattle.sp_lp.specs.InnerKinds.{fault_line, other_token, other_tokens, goes_with};

use crate::cursor::TokenReader;
use crate::stops::Stop;
use crate::walking::read_next;
use sp_decimal::{Decimal, Numeral};
use sp_lp_grammar::readers_tell_files;
use sp_lp_tokens::{Symbol, Token, TokenKind};
use sp_lp_words::Tables;
use sp_model::NoMemory;
use std::alloc::Global;

/// A token in the place of another one, in its line.
#[derive(Clone, Copy, PartialEq, Eq, Debug)]
pub enum Other {
    /// A name that no file has, since it is longer than any.
    Name,
    /// The kind of a set.
    SetKind,
    /// The number 1.
    Number,
    /// `+`
    Plus,
    /// `:`
    Colon,
}

/// A name that is longer than any in a file: 256 bytes.
const SPARE_NAME: [u8; 256] = [b'x'; 256];

/// The kind of a set.
const SET_KIND: [u8; 2] = *b"s1";

/// Reads a token in the place of another one in the line.
#[tactic(auto, unfolding(crate::specs::Standins::spare_name))]
fn read_other<'a>(
    tables: &Tables,
    other: Other,
    line: u32,
    initial: bool,
    before: u32,
    reader: &mut TokenReader<'a>,
) -> Result<(), Stop>
    ensures { Gives result (cursor_of reader.new) (take_mark (cursor_of reader.old) (mark_of initial before (other_token line other))) }
{
    match other {
        Other::Name => {
            let token = Token {
                kind: TokenKind::Name,
                start: 0,
                end: 256,
                line,
            };
            read_next(tables, &SPARE_NAME, &token, initial, before, reader)
        }
        Other::SetKind => {
            let token = Token {
                kind: TokenKind::Name,
                start: 0,
                end: 2,
                line,
            };
            read_next(tables, &SET_KIND, &token, initial, before, reader)
        }
        Other::Number => {
            let number = Numeral::Exact(Decimal { p: 1, s: 0 });
            let token = Token {
                kind: TokenKind::Number(number),
                start: 0,
                end: 0,
                line,
            };
            read_next(tables, b"", &token, initial, before, reader)
        }
        Other::Plus => {
            let token = Token {
                kind: TokenKind::Symbol(Symbol::Plus),
                start: 0,
                end: 0,
                line,
            };
            read_next(tables, b"", &token, initial, before, reader)
        }
        Other::Colon => {
            let token = Token {
                kind: TokenKind::Symbol(Symbol::Colon),
                start: 0,
                end: 0,
                line,
            };
            read_next(tables, b"", &token, initial, before, reader)
        }
    }
}

/// Reads tokens in the place of others in the line, behind a token of the line `before` or as the first of the file.
fn read_others<'a>(
    tables: &Tables,
    others: &[Other],
    line: u32,
    initial: bool,
    before: u32,
    reader: &mut TokenReader<'a>,
) -> Result<(), Stop>
    ensures { Gives result (cursor_of reader.new) (walk initial before (cursor_of reader.old) (other_tokens line others.now)) }
{
    let mut first = initial;
    let mut above = before;
    for other in others {
        match read_other(tables, *other, line, first, above, reader) {
            Ok(()) => {
                first = false;
                above = line;
            }
            Err(stop) => return Err(stop),
        }
    }
    Ok(())
}

/// Reads the tokens of the source from its front.
fn read_front<'a>(
    tables: &Tables,
    source: &'a [u8],
    tokens: &[Token],
    reader: &mut TokenReader<'a>,
) -> Result<(), Stop>
    requires { All (IsSpan source.now) tokens.now }
    ensures { Gives result (cursor_of reader.new) (walk true 0 (cursor_of reader.old) (all_seen source.now tokens.now)) }
{
    let mut first = true;
    let mut above = 0;
    for token in tokens {
        match read_next(tables, source, token, first, above, reader) {
            Ok(()) => {
                first = false;
                above = token.line;
            }
            Err(stop) => return Err(stop),
        }
    }
    Ok(())
}

/// The line of the token at the place; behind the last one it is that one's.
pub(crate) fn fault_line(list: &[Token], place: usize) -> u32
    ensures { result ≡ fault_line list.now place }
{
    match list.get(place) {
        Some(token) => token.line,
        None => match list.last() {
            Some(token) => token.line,
            None => 1,
        },
    }
}

/// The line of the token before the place, and 0 where there is none.
pub(crate) fn line_before(list: &[Token], place: usize) -> u32
    requires { place ≤ length list.now }
    ensures { (source : List ℕ) → result ≡ line_behind 0 (take place (all_seen source list.now)) }
{
    if place == 0 { 0 } else { list[place - 1].line }
}

/// The tokens before the place.
fn front(list: &[Token], place: usize) -> &[Token]
    requires { place ≤ length list.now }
    ensures { result.now ≡ take place list.now }
{
    &list[..place]
}

/// Reads the tokens before the place, and others behind them.
fn read_both<'a>(
    tables: &Tables,
    source: &'a [u8],
    list: &[Token],
    place: usize,
    others: &[Other],
    reader: &mut TokenReader<'a>,
) -> Result<(), Stop>
    requires spans { All (IsSpan source.now) list.now }
    requires within { place ≤ length list.now }
    requires new { cursor_of reader.old ≡ origin }
    ensures { Gives result (cursor_of reader.new) (walk true 0 origin (take place (all_seen source.now list.now) ++ other_tokens (fault_line list.now place) others.now)) }
{
    readers_tell_files();
    match read_front(tables, source, front(list, place), reader) {
        Ok(()) => {
            read_others(
                tables,
                others,
                fault_line(list, place),
                place == 0,
                line_before(list, place),
                reader,
            )
        }
        Err(stop) => Err(stop),
    }
}

/// Whether some file begins with the tokens before the place, and with others behind them.
pub(crate) fn goes_with(
    alloc: Global,
    tables: &Tables,
    source: &[u8],
    list: &[Token],
    place: usize,
    others: &[Other],
) -> Result<bool, NoMemory>
    requires spans { All (IsSpan source.now) list.now }
    requires within { place ≤ length list.now }
    ensures { IfOk result (λ goes. goes ≡ goes_with (all_seen source.now list.now) place others.now) }
{
    let mut reader = TokenReader::new(alloc);
    match read_both(tables, source, list, place, others, &mut reader) {
        Ok(()) => Ok(true),
        Err(Stop::Fault) => Ok(false),
        Err(Stop::Memory) => Err(NoMemory),
    }
}
