//! What the words of the command line ask for.
use anyhow::{Result, bail};
use std::env;
use std::rt::Env;

/// What the program does.
#[derive(Clone, Copy, PartialEq, Eq, Debug)]
pub enum Command {
    /// Print the drafts of the files.
    Drafts,
    /// Count the parts of the file.
    Count,
    /// Count the tokens of the file.
    Tokens,
}

/// Reads the word `drafts`, `count` or `tokens`.
pub fn command_of<R: Env + AllocGlobal>(rt: &R) -> Result<Command> {
    let mut words = env::args(rt)?.skip(1);
    let (Some(verb), None) = (words.next(), words.next()) else {
        bail!("usage: lp_bench drafts|count|tokens");
    };
    match verb.as_str() {
        "drafts" => Ok(Command::Drafts),
        "count" => Ok(Command::Count),
        "tokens" => Ok(Command::Tokens),
        _ => bail!("usage: lp_bench drafts|count|tokens"),
    }
}
