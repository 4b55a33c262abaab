//! `lp_bench drafts` reads LP files from standard input, parted by bytes 0, and prints of each its draft, or its
//! refusal, and a line of one `%`. `lp_bench count` reads one file and prints how many variables, rows and terms of the
//! objective it has, and `lp_bench tokens` how many tokens. The scripts `scripts/compare_lp.py` and `bench/lp_files.py`
//! run it.
#![tactic(auto)]

mod inputs;
mod showing;
mod sizes;
mod words;

use anyhow::Result;
use inputs::file_of;
use showing::show_files;
use sizes::{show_sizes, show_tokens};
use words::{Command, command_of};

fn main(rt: HostRuntime) -> Result<()> {
    let alloc = rt.alloc();
    let command = command_of(&rt)?;
    let file = file_of(alloc, rt.stdin())?;
    match command {
        Command::Drafts => show_files(&rt, alloc, file.as_slice()),
        Command::Count => show_sizes(&rt, alloc, file.as_slice()),
        Command::Tokens => show_tokens(&rt, alloc, file.as_slice()),
    }
}
