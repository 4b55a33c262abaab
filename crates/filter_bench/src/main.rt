//! `filter_bench` does with a model and a list of filters what the lines of standard input say, and prints what they
//! answer. src/telling.rt says what lines there are. The scripts `scripts/compare_filters.py` and `bench/filters.py`
//! run it.
#![tactic(auto)]

mod asking;
mod inputs;
mod making;
mod telling;

use std::io;
use std::io::{BufWriter, Write};
use telling::tell_all;

fn main(rt: HostRuntime) -> io::Result<()> {
    let alloc = rt.alloc();
    let text = io::read_to_string(alloc, rt.stdin())?;
    let mut out = BufWriter::new(alloc, io::writer(&rt))?;
    tell_all(&mut out, alloc, text.as_str())?;
    out.flush()
}
