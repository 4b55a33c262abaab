//! What is printed of a file's tokens.
ghost use Rattle.std.specs.Prelude.{◌≤◌, ◌^◌, length, All};
ghost use Rattle.sp_lp_tokens.specs.Tokens.{IsSpan};

use anyhow::{Result, bail};
use sp_decimal::Numeral;
use sp_lp_tokens::{Token, TokenKind, TokenRefusal, tokens};
use std::alloc::Global;
use std::io;
use std::io::{BufWriter, Write};

/// Prints the number of the tokens, or the first fault.
pub fn count_tokens<P: Print>(rt: &P, alloc: Global, file: &[u8]) -> Result<()>
    requires { length file.now ≤ 2 ^ 26 }
{
    match tokens(alloc, file) {
        Ok(found) => {
            let count = found.len();
            println!(rt; "tokens {count}")?;
        }
        Err(refusal) => report(rt, refusal)?,
    }
    Ok(())
}

/// Prints a line for each token, or the first fault.
pub fn list_tokens<P: Print>(rt: &P, alloc: Global, file: &[u8]) -> Result<()>
    requires { length file.now ≤ 2 ^ 26 }
{
    match tokens(alloc, file) {
        Ok(found) => {
            let mut out = BufWriter::new(alloc, io::writer(rt))?;
            write_tokens(&mut out, file, found.as_slice())?;
            out.flush()?;
        }
        Err(refusal) => report(rt, refusal)?,
    }
    Ok(())
}

/// Prints the line of a fault; want of memory is an error.
fn report<P: Print>(rt: &P, refusal: TokenRefusal) -> Result<()> {
    match refusal {
        TokenRefusal::Fault { line, kind } => println!(rt; "fault {kind:?} line {line}")?,
        TokenRefusal::NoMemory => bail!("no memory for the tokens"),
    }
    Ok(())
}

/// Writes a line for each token.
fn write_tokens<W: Write>(out: &mut W, file: &[u8], tokens: &[Token]) -> io::Result<()>
    requires { All (IsSpan file.now) tokens.now }
{
    for token in tokens {
        write_token(out, file, token)?;
    }
    Ok(())
}

/// Writes the letter of the token's kind, its text, its value if it is a number, and its line.
fn write_token<W: Write>(out: &mut W, file: &[u8], token: &Token) -> io::Result<()>
    requires { IsSpan file.now token.now }
{
    let line = token.line;
    out.write_all(letter_of(&token.kind))?;
    out.write_all(token.text(file))?;
    write_value(out, &token.kind)?;
    writeln!(out, "@{line}")
}

/// The letter of a kind.
fn letter_of(kind: &TokenKind) -> &'static [u8] {
    match kind {
        TokenKind::Name => b"n",
        TokenKind::Number(_) => b"#",
        TokenKind::Symbol(_) => b"$",
    }
}

/// Writes the value of a number, and nothing for another token.
fn write_value<W: Write>(out: &mut W, kind: &TokenKind) -> io::Result<()> {
    match kind {
        TokenKind::Number(Numeral::Exact(decimal)) => {
            let (digits, places) = (decimal.p, decimal.s);
            write!(out, "={digits}/{places}")
        }
        TokenKind::Number(Numeral::Huge { .. }) => out.write_all(b"=huge"),
        TokenKind::Name | TokenKind::Symbol(_) => Ok(()),
    }
}
