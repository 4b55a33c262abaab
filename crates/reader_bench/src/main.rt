//! `reader_bench read|print ROUNDS` reads, or prints, so many numbers of ten digits and prints a checksum of what came
//! out. `reader_bench tokens|list` cuts standard input into tokens, and prints their number, or a line for each.
//! `reader_bench mps|mps-draft` reads an MPS file from standard input, and prints its sizes, or its draft; or why it
//! has none. The scripts `bench/decimals.py`, `bench/tokens.py`, `bench/mps.py`, `scripts/compare_tokens.py` and
//! `scripts/compare_mps.py` run it.
#![tactic(auto)]

mod drafts;
mod inputs;
mod listing;
mod models;
mod numbers;
mod words;

use anyhow::Result;
use inputs::file_of;
use listing::{count_tokens, list_tokens};
use models::{count_mps, list_mps};
use numbers::{checksum_of_printing, checksum_of_reading};
use words::{Command, command_of};

fn main(rt: HostRuntime) -> Result<()> {
    let alloc = rt.alloc();
    match command_of(&rt)? {
        Command::Read(rounds) => {
            let sum = checksum_of_reading(rounds);
            println!(rt; "checksum {sum}")?;
        }
        Command::Print(rounds) => {
            let sum = checksum_of_printing(rounds);
            println!(rt; "checksum {sum}")?;
        }
        Command::Tokens => {
            let file = file_of(alloc, rt.stdin())?;
            count_tokens(&rt, alloc, file.as_slice())?;
        }
        Command::List => {
            let file = file_of(alloc, rt.stdin())?;
            list_tokens(&rt, alloc, file.as_slice())?;
        }
        Command::Mps => {
            let file = file_of(alloc, rt.stdin())?;
            count_mps(&rt, alloc, file.as_slice())?;
        }
        Command::MpsDraft => {
            let file = file_of(alloc, rt.stdin())?;
            list_mps(&rt, alloc, file.as_slice())?;
        }
    }
    Ok(())
}
