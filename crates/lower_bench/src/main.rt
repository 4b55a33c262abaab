//! `lower_bench` prints the model of each draft on standard input, or its refusal.
//! `lower_bench rounds N` lowers each draft so many times, and prints how many rows its model has.
//! `lower_bench names` adds the fields of standard input to a list of names, and prints how many it has.
//! The scripts `scripts/compare_lowering.py` and `bench/lowering.py` run it.
#![tactic(auto)]

mod drafting;
mod forming;
mod inputs;
mod lowering;
mod printing;
mod words;

use anyhow::Result;
use inputs::file_of;
use lowering::{count_names, lower_drafts};
use words::{Task, task_of};

fn main(rt: HostRuntime) -> Result<()> {
    let alloc = rt.alloc();
    let task = task_of(&rt)?;
    let file = file_of(alloc, rt.stdin())?;
    match task {
        Task::Drafts => lower_drafts(&rt, alloc, file.as_slice(), None)?,
        Task::Rounds(rounds) => lower_drafts(&rt, alloc, file.as_slice(), Some(rounds))?,
        Task::Names => {
            let count = count_names(alloc, file.as_slice())?;
            println!(rt; "names {count}")?;
        }
    }
    Ok(())
}
