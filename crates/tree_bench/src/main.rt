//! Grows trees as the lines of standard input say, and prints what each call answers. `scripts/compare_tree.py` and
//! `bench/tree.py` run it.
#![tactic(auto)]

mod calls;
mod growing;
mod numbers;
mod telling;

use std::io;
use std::io::{BufWriter, Write};
use telling::tell_all;

fn main(rt: HostRuntime) -> io::Result<()> {
    let alloc = rt.alloc();
    let text = io::read_to_string(alloc, rt.stdin())?;
    let mut out = BufWriter::new(alloc, io::writer(&rt))?;
    tell_all(&rt, &mut out, alloc, text.as_str())?;
    out.flush()
}
