//! What the words of the command line ask for.

use anyhow::{Context, Result, bail};
use std::env;
use std::rt::Env;

/// What the program does.
#[derive(Clone, Copy, PartialEq, Eq, Debug)]
pub enum Task {
    /// Print what lines say.
    Lines,
    /// Tell a pool events.
    Pool,
    /// Offer points to a full pool.
    Fill {
        /// How many members it holds.
        members: u32,
        /// How many points it is offered then.
        offers: u32,
    },
}

/// Reads the words `lines`, `pool` or `fill MEMBERS OFFERS`.
pub fn task_of<R: Env + AllocGlobal>(rt: &R) -> Result<Task> {
    let mut words = env::args(rt)?.skip(1);
    match (words.next(), words.next(), words.next()) {
        (Some(task), None, None) => match task.as_str() {
            "lines" => Ok(Task::Lines),
            "pool" => Ok(Task::Pool),
            _ => bail!("usage: command_bench lines|pool, or fill MEMBERS OFFERS"),
        },
        (Some(_), Some(members), Some(offers)) => Ok(Task::Fill {
            members: members.parse::<u32>().context("reading MEMBERS")?,
            offers: offers.parse::<u32>().context("reading OFFERS")?,
        }),
        _ => bail!("usage: command_bench lines|pool, or fill MEMBERS OFFERS"),
    }
}
