//! `populate_bench` carries out the lines of standard input: models, gaps, filters, runs to the optimum, to all listed
//! points and to the first ones, lists, and whole trees. src/session.rt says what lines there are. The scripts
//! `scripts/compare_populate.py` and `bench/populate.py` run it.
#![tactic(auto)]

mod filtering;
mod inputs;
mod making;
mod session;
mod showing;

use anyhow::Result;
use inputs::lines_of;
use session::run_all;

fn main(rt: HostRuntime) -> Result<()> {
    let alloc = rt.alloc();
    let lines = lines_of(&rt, alloc)?;
    run_all(&rt, alloc, lines.as_slice())
}
