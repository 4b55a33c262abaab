//! Reads cases from standard input, one a line, and prints the bounds of their lists. `scripts/compare_bounds.py` and
//! `bench/bounds.py` run it.
#![tactic(auto)]

mod cases;
mod telling;

use std::io;
use std::io::{BufWriter, Write};
use telling::tell_all;

fn main(rt: HostRuntime) -> io::Result<()> {
    let alloc = rt.alloc();
    let text = io::read_to_string(alloc, rt.stdin())?;
    let mut out = BufWriter::new(alloc, io::writer(&rt))?;
    tell_all(&mut out, alloc, text.as_str())?;
    out.flush()
}
