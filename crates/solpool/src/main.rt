//! `solpool`: lists the solutions of a pure integer program within a gap of its optimum, as a model file states it.
#![tactic(auto)]

mod inputs;
mod outputs;
mod program;
mod reading;
mod shelving;
mod wording;

use program::carry_out;
use std::process::ExitCode;

fn main(rt: HostRuntime) -> ExitCode {
    carry_out(rt.alloc(), &rt, &rt, rt.stdin(), rt.stdout())
}

#[cfg(test)]
mod fakes;
#[cfg(test)]
mod program_tests;
#[cfg(test)]
mod tests;
