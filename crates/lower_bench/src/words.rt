//! What the words of the command line ask for.

use anyhow::{Context, Result, bail};
use std::env;
use std::rt::Env;

/// What the program does.
#[derive(Clone, Copy, PartialEq, Eq, Debug)]
pub enum Task {
    /// Print what each draft is lowered to.
    Drafts,
    /// Lower each draft so many times, and print how many rows its model has.
    Rounds(u32),
    /// Add the fields of standard input to a list of names, and print how many it has.
    Names,
}

/// Reads no word, `rounds N` or `names`.
pub fn task_of<R: Env + AllocGlobal>(rt: &R) -> Result<Task> {
    let mut words = env::args(rt)?.skip(1);
    match (words.next(), words.next()) {
        (None, _) => Ok(Task::Drafts),
        (Some(task), None) => match task.as_str() {
            "names" => Ok(Task::Names),
            _ => bail!("usage: lower_bench [rounds N | names]"),
        },
        (Some(task), Some(rounds)) => match task.as_str() {
            "rounds" => Ok(Task::Rounds(rounds.parse::<u32>().context("reading the rounds")?)),
            _ => bail!("usage: lower_bench [rounds N | names]"),
        },
    }
}
