//! `search_bench` makes the model of the lines of standard input, searches it as the first of them says, and prints how
//! that ended, and the whole tree where the task asks for it. src/inputs.rt and src/models.rt say what lines there are.
//! The scripts `scripts/compare_search.py` and `bench/search.py` run it.
#![tactic(auto)]

mod inputs;
mod models;
mod running;
mod searching;
mod telling;

use running::run;
use std::io;
use std::io::{BufWriter, Write};

fn main(rt: HostRuntime) -> io::Result<()> {
    let alloc = rt.alloc();
    let text = io::read_to_string(alloc, rt.stdin())?;
    let mut out = BufWriter::new(alloc, io::writer(&rt))?;
    run(&mut out, alloc, text.as_str())?;
    out.flush()
}
