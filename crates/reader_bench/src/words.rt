//! What the words of the command line ask for.
use anyhow::{Context, Result, bail};
use std::env;
use std::rt::Env;

/// What the program does.
#[derive(Clone, Copy, PartialEq, Eq, Debug)]
pub enum Command {
    /// Read so many numbers.
    Read(u64),
    /// Print so many numbers.
    Print(u64),
    /// Count the tokens of standard input.
    Tokens,
    /// Print the tokens of standard input.
    List,
    /// Count the variables and rows of the MPS file on standard input.
    Mps,
    /// Print the draft of the MPS file on standard input.
    MpsDraft,
}

/// Reads the words `read|print ROUNDS` or `tokens|list|mps|mps-draft`.
pub fn command_of<R: Env + AllocGlobal>(rt: &R) -> Result<Command> {
    let mut words = env::args(rt)?.skip(1);
    let (Some(verb), rounds, None) = (words.next(), words.next(), words.next()) else {
        bail!("usage: reader_bench read|print ROUNDS, or tokens|list|mps|mps-draft");
    };
    match (verb.as_str(), rounds) {
        ("read", Some(rounds)) => Ok(Command::Read(
            rounds.parse::<u64>().context("reading ROUNDS")?,
        )),
        ("print", Some(rounds)) => Ok(Command::Print(
            rounds.parse::<u64>().context("reading ROUNDS")?,
        )),
        ("tokens", None) => Ok(Command::Tokens),
        ("list", None) => Ok(Command::List),
        ("mps", None) => Ok(Command::Mps),
        ("mps-draft", None) => Ok(Command::MpsDraft),
        _ => bail!("usage: reader_bench read|print ROUNDS, or tokens|list|mps|mps-draft"),
    }
}
