//! `command_bench lines` prints what each line of standard input says as a command, or why it is none.
//! `command_bench pool` tells a pool the events on standard input, and prints what it holds when asked.
//! `command_bench fill MEMBERS OFFERS` offers points to a full pool of so many members.
//! The scripts `scripts/compare_commands.py`, `scripts/compare_pool.py` and `bench/pool.py` run it.
#![tactic(auto)]

mod events;
mod inputs;
mod lines;
mod words;

use anyhow::Result;
use events::{fill, tell};
use inputs::file_of;
use lines::print_lines;
use words::{Task, task_of};

fn main(rt: HostRuntime) -> Result<()> {
    let alloc = rt.alloc();
    match task_of(&rt)? {
        Task::Lines => {
            let file = file_of(alloc, rt.stdin())?;
            print_lines(&rt, alloc, file.as_slice())?;
        }
        Task::Pool => {
            let file = file_of(alloc, rt.stdin())?;
            tell(&rt, alloc, file.as_slice())?;
        }
        Task::Fill { members, offers } => {
            let sum = fill(alloc, members, offers)?;
            println!(rt; "checksum {sum}")?;
        }
    }
    Ok(())
}
