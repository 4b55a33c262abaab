//! `activity_bench` makes the model of the lines of standard input, carries out its further lines on a kept box, and
//! prints what the kept box and the plain calls say of it. src/models.rt and src/walking.rt say what lines there are.
//! The scripts `scripts/compare_reasons.py` and `bench/activity.py` run it.
#![tactic(auto)]

mod boxes;
mod inputs;
mod models;
mod rounds;
mod sums;
mod telling;
mod walking;

use std::io;
use std::io::{BufWriter, Write};
use walking::walk;

fn main(rt: HostRuntime) -> io::Result<()> {
    let alloc = rt.alloc();
    let text = io::read_to_string(alloc, rt.stdin())?;
    let mut out = BufWriter::new(alloc, io::writer(&rt))?;
    walk(&mut out, alloc, text.as_str())?;
    out.flush()
}
