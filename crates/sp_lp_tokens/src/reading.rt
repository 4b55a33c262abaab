//! The list of the tokens of a file.
ghost use Rattle.sp_lp_tokens.specs.Limits.{most_bytes};
ghost use Rattle.std.specs.Prelude.{◌≡◌, ℕ, ◌≤◌, List, length, drop, IfOk, IfErr, MatchResult, All};
ghost use Rattle.sp_lp_tokens.specs.Gaps.{line_at};
ghost use Rattle.sp_lp_tokens.specs.Tokens.{AreTokens, AreInOrder, IsSpan, Ending, TokensFrom, is_end_word, colon_follows, ends_list};
ghost use Rattle.sp_lp_tokens.specs.declared.token_types.Token.{Token};
ghost use Rattle.sp_lp_tokens.specs.Rests.{whole, IsRest, IsTaken};
ghost use Rattle.sp_lp_tokens.specs.InnerNexts.{IsNext, rest_behind, IsRefusal, IsListOf, IsRefusalOf};

use crate::gaps::{gap_before, is_blank};
use crate::pieces::piece_at;
use crate::token_types::{Token, TokenKind, TokenKindFault, TokenRefusal};
use sp_decimal::Numeral;
use std::alloc::Global;

/// What comes next in a file.
#[derive(Clone, Copy, PartialEq, Eq, Debug)]
pub enum Next {
    /// Nothing: what is left are blanks, line feeds and comments, or the list of tokens has ended.
    Nothing,
    /// A fault, in this line, from 1.
    Fault(u32, TokenKindFault),
    /// A token.
    Token(Token),
}

/// What is left of a file's tokens.
#[derive(Clone, Copy, PartialEq, Eq, Debug)]
pub struct Rest {
    /// The place behind the tokens that were taken, in bytes from 0.
    pub place: usize,
    /// The line of that place, from 1.
    pub line: u32,
    /// The line of the last token that was taken, 0 before the first one.
    pub line_before: u32,
    /// Whether the list of tokens has ended with that token.
    pub ended: bool,
}

impl Rest {
    /// All tokens of a file.
    pub fn whole() -> Rest
        ensures whole { result ≡ whole }
        ensures rest { (source : List ℕ) → IsRest source result }
    {
        Rest {
            place: 0,
            line: 1,
            line_before: 0,
            ended: false,
        }
    }
}

/// The bytes from a place on.
fn rest_of(source: &[u8], place: usize) -> &[u8]
    requires { place ≤ length source.now }
    ensures { result.now ≡ drop place source.now }
{
    &source[place..]
}

/// What comes next behind a place of the file, in whose line the place stands.
fn next_at(source: &[u8], place: usize, line: u32) -> Next
    requires small { length source.now ≤ most_bytes }
    requires within { place ≤ length source.now }
    requires line { line ≡ line_at source.now place }
    ensures { IsNext source.now place result }
{
    let gap = gap_before(rest_of(source, place));
    let start = place + gap.length;
    let line = line + gap.feeds as u32;
    if start == source.len() {
        return Next::Nothing;
    }
    match piece_at(rest_of(source, start)) {
        Ok(piece) => Next::Token(Token {
            kind: piece.kind,
            start: start as u32,
            end: (start + piece.length) as u32,
            line,
        }),
        Err(kind) => Next::Fault(line, kind),
    }
}

/// Whether a colon stands next on the same line.
#[tactic(auto, unfolding(crate::specs::Tokens::colon_follows))]
fn colon_follows(bytes: &[u8]) -> bool
    ensures { result ≡ colon_follows bytes.now }
{
    for byte in bytes {
        if !is_blank(*byte) {
            return *byte == b':';
        }
    }
    false
}

/// Whether the text is the word `end`, in any case.
fn is_end_word(text: &[u8]) -> bool
    ensures { result ≡ is_end_word text.now }
{
    text.eq_ignore_ascii_case(b"end")
}

/// Whether the list of tokens ends with this one; the token before stands in the line `line_before`.
#[tactic(auto, unfolding(crate::specs::Tokens::ends_list))]
fn ends_list(source: &[u8], line_before: u32, token: &Token) -> bool
    requires rising { token.now.start ≤ token.now.end }
    requires within { token.now.end ≤ length source.now }
    ensures { result ≡ ends_list source.now line_before token.now }
{
    line_before < token.line
        && is_end_word(token.text(source))
        && !colon_follows(rest_of(source, token.end as usize))
}

/// What is left behind the token; the token before stands in the line `line_before`.
fn rest_behind(source: &[u8], line_before: u32, token: &Token) -> Rest
    requires rising { token.now.start ≤ token.now.end }
    requires within { token.now.end ≤ length source.now }
    ensures { result ≡ rest_behind source.now line_before token.now }
{
    Rest {
        place: token.end as usize,
        line: token.line,
        line_before: token.line,
        ended: ends_list(source, line_before, token),
    }
}

/// Takes the next token of a file in the CPLEX LP format, of at most 2^26 bytes, by longest match. The list of tokens ends
/// with the word `end`, in any case, where it is the first token of its line and no colon follows it there; what comes
/// later isn't read. At a fault, and where nothing comes, the rest stays. It takes no memory.
pub fn next_token(source: &[u8], rest: &mut Rest) -> Next
    requires small { length source.now ≤ most_bytes }
    requires rest { IsRest source.now rest.old }
    ensures left { IsRest source.now rest.new }
    ensures taken { IsTaken source.now rest.old rest.new result }
{
    if rest.ended {
        return Next::Nothing;
    }
    match next_at(source, rest.place, rest.line) {
        Next::Nothing => Next::Nothing,
        Next::Fault(line, kind) => Next::Fault(line, kind),
        Next::Token(token) => {
            *rest = rest_behind(source, rest.line_before, &token);
            Next::Token(token)
        }
    }
}

/// The tokens of a file in the CPLEX LP format, of at most 2^26 bytes, in their order: those that [`next_token`] takes.
/// `Fault` tells the first fault of the file with its line; `NoMemory` comes where the list can't grow.
pub fn tokens(alloc: Global, bytes: &[u8]) -> Result<Vec<Token>, TokenRefusal>
    requires { length bytes.now ≤ most_bytes }
    ensures found { IfOk result (λ tokens. AreTokens bytes.now tokens.items) }
    ensures fault { IfErr result (IsRefusal bytes.now) }
    ensures spans { IfOk result (λ tokens. AreInOrder 0 tokens.items (length bytes.now)) }
    ensures texts { IfOk result (λ tokens. All (IsSpan bytes.now) tokens.items) }
    ensures count { IfOk result (λ tokens. length tokens.items ≤ length bytes.now) }

    // Whatever tokens the file has, and however their list ends, this is the answer, unless memory ran out.
    ensures only { (tokens : List Token) (ending : Ending) → TokensFrom bytes.now 0 0 tokens ending →
        MatchResult result (λ found. IsListOf tokens ending found.items) (IsRefusalOf ending) }
{
    // Without a mention of the enums within a token, the prover makes no plan for a loop that carries tokens.
    let _held: Option<(TokenKind, Numeral)> = None;
    let mut tokens = Vec::new(alloc);
    let mut rest = Rest::whole();
    loop {
        match next_token(bytes, &mut rest) {
            Next::Nothing => return Ok(tokens),
            Next::Fault(line, kind) => return Err(TokenRefusal::Fault { line, kind }),
            Next::Token(token) => {
                if tokens.push(token).is_err() {
                    return Err(TokenRefusal::NoMemory);
                }
            }
        }
    }
}
