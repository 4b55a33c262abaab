//! The reader over the tokens of a file as they come, and over a list of them, up to its end or to the first token that
//! can't stand where it stands.
ghost use Rattle.std.specs.Prelude.{◌≡◌, ◌≤◌, ◌||◌, nat_lt, true, length, Some, MatchResult, OnOk, IfErr, IfSome, IsTrue, All};
ghost use Rattle.sp_lp_tokens.specs.Limits.{most_bytes};
ghost use Rattle.sp_lp_tokens.specs.SeenTokens.{seen, all_seen};
ghost use Rattle.sp_lp_tokens.specs.Tokens.{IsSpan};
ghost use Rattle.sp_lp_grammar.specs.InnerCursor.{origin, take_mark, walk};
ghost use Rattle.sp_lp.specs.Cursors.{cursor_of};
ghost use Rattle.sp_lp_grammar.specs.Lexemes.{mark_of};
ghost use Rattle.sp_lp.specs.Stops.{Gives};
ghost use Rattle.sp_lp.specs.Walks.{IsReadThrough, IsReadingOf, IsReading, IsStopped};

use crate::cursor::TokenReader;
use crate::stops::Stop;
use sp_draft::Draft;
use sp_lp_grammar::readers_tell_files;
use sp_lp_tokens::{Next, Rest, Token, next_token};
use sp_lp_words::Tables;
use std::alloc::Global;

/// Why a list of tokens isn't read to its end.
#[derive(Clone, Copy, PartialEq, Eq, Debug)]
pub enum Stopped {
    /// The token at this place, from 0, can't stand there.
    At(usize),
    /// The file can't end behind the last token.
    AtEnd,
    /// There was not enough memory.
    Memory,
}

/// Whether the token is the first of its line: the first of its file, or in a line below that of the token before.
fn is_first(initial: bool, before: u32, line: u32) -> bool
    ensures { result ≡ (initial || nat_lt before line) }
{
    initial || before < line
}

/// Reads one more token.
pub(crate) fn read_next<'a>(
    tables: &Tables,
    source: &'a [u8],
    token: &Token,
    initial: bool,
    before: u32,
    reader: &mut TokenReader<'a>,
) -> Result<(), Stop>
    requires rising { token.now.start ≤ token.now.end }
    requires within { token.now.end ≤ length source.now }
    ensures { Gives result (cursor_of reader.new) (take_mark (cursor_of reader.old) (mark_of initial before (seen source.now token.now))) }
{
    let class = tables.class_of(source, token, initial);
    let first = is_first(initial, before, token.line);
    reader.take(first, &class, token.text(source))
}

/// Reads the tokens of the source as they come, with a reader that has read none, and tells whether it came to their end.
fn read_through<'a>(source: &'a [u8], reader: &mut TokenReader<'a>) -> bool
    requires small { length source.now ≤ most_bytes }
    requires new { cursor_of reader.old ≡ origin }
    ensures { IsTrue result → IsReadThrough source.now (cursor_of reader.new) }
{
    let tables = Tables::new();
    let mut rest = Rest::whole();
    let mut first = true;
    let mut above = 0;
    loop {
        match next_token(source, &mut rest) {
            Next::Nothing => return true,
            Next::Fault(_, _) => return false,
            Next::Token(token) => {
                match read_next(&tables, source, &token, first, above, reader) {
                    Ok(()) => {
                        first = false;
                        above = token.line;
                    }
                    Err(_) => return false,
                }
            }
        }
    }
}

/// The draft of the source, `None` where a fault or want of memory keeps it from being read to its end.
pub(crate) fn reading_of(alloc: Global, source: &[u8]) -> Option<Draft>
    requires { length source.now ≤ most_bytes }
    ensures { IfSome result (IsReadingOf source.now) }
{
    let mut reader = TokenReader::new(alloc);
    if !read_through(source, &mut reader) {
        return None;
    }
    match reader.finish() {
        Ok(draft) => Some(draft),
        Err(_) => None,
    }
}

/// Reads the tokens of the source with a reader that has read none.
fn read_tokens<'a>(
    source: &'a [u8],
    tokens: &[Token],
    reader: &mut TokenReader<'a>,
) -> Result<(), Stopped>
    requires spans { All (IsSpan source.now) tokens.now }
    requires new { cursor_of reader.old ≡ origin }
    ensures read { OnOk result (walk true 0 origin (all_seen source.now tokens.now) ≡ Some (cursor_of reader.new)) }
    ensures stopped { IfErr result (IsStopped (all_seen source.now tokens.now)) }
{
    readers_tell_files();
    let tables = Tables::new();
    let mut before = 0;
    for (place, token) in tokens.iter().enumerate() {
        match read_next(&tables, source, token, place == 0, before, reader) {
            Ok(()) => before = token.line,
            Err(Stop::Fault) => return Err(Stopped::At(place)),
            Err(Stop::Memory) => return Err(Stopped::Memory),
        }
    }
    Ok(())
}

/// Reads the tokens of the source to their end with a reader that has read none.
fn read_draft<'a>(
    source: &'a [u8],
    tokens: &[Token],
    reader: &mut TokenReader<'a>,
) -> Result<Draft, Stopped>
    requires spans { All (IsSpan source.now) tokens.now }
    requires new { cursor_of reader.old ≡ origin }
    ensures { MatchResult result (IsReading (all_seen source.now tokens.now)) (IsStopped (all_seen source.now tokens.now)) }
{
    match read_tokens(source, tokens, reader) {
        Ok(()) => match reader.finish() {
            Ok(draft) => Ok(draft),
            Err(Stop::Fault) => Err(Stopped::AtEnd),
            Err(Stop::Memory) => Err(Stopped::Memory),
        },
        Err(stopped) => Err(stopped),
    }
}

/// The draft of the tokens of the source, or where the reader stops.
pub(crate) fn draft_of(alloc: Global, source: &[u8], tokens: &[Token]) -> Result<Draft, Stopped>
    requires { All (IsSpan source.now) tokens.now }
    ensures { MatchResult result (IsReading (all_seen source.now tokens.now)) (IsStopped (all_seen source.now tokens.now)) }
{
    let mut reader = TokenReader::new(alloc);
    read_draft(source, tokens, &mut reader)
}
