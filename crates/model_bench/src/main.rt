//! `model_bench feasible|value|close VARIABLES TERMS ROUNDS` asks a model of so many variables and so many terms in its
//! rows about two points in turn, or asks for the box that its rows close, and prints the sum of the answers.
//! `bench/model.py` measures it.
#![tactic(auto)]

mod asking;
mod making;
mod words;

use anyhow::{Result, bail};
use asking::{feasible_points, sum_of_closed, sum_of_values};
use making::{model_of, open_parts, point_of};
use std::alloc::Global;
use words::{Question, Sizes, question_and_sizes};

fn main(rt: HostRuntime) -> Result<()> {
    let alloc = rt.alloc();
    let (question, sizes) = question_and_sizes(&rt)?;
    let sum = match question {
        Question::Feasible => asked_points(alloc, &sizes, false)?,
        Question::Value => asked_points(alloc, &sizes, true)?,
        Question::Close => asked_box(alloc, &sizes)?,
    };
    println!(rt; "checksum {sum}")?;
    Ok(())
}

/// Asks two points in turn what they are worth, or else whether they are feasible.
fn asked_points(alloc: Global, sizes: &Sizes, is_value: bool) -> Result<i128> {
    let model = model_of(alloc, sizes)?;
    let even = point_of(alloc, sizes.variables, 0)?;
    let odd = point_of(alloc, sizes.variables, 5)?;
    if !model.is_within(&even) || !model.is_within(&odd) {
        bail!("a point has a value past its bounds");
    }
    if is_value {
        return Ok(sum_of_values(&model, &even, &odd, sizes.rounds));
    }
    let count = feasible_points(&model, &even, &odd, sizes.rounds);
    Ok(i128::from(count))
}

/// Asks for the box that the rows of a model with open variables close.
fn asked_box(alloc: Global, sizes: &Sizes) -> Result<i128> {
    let parts = open_parts(alloc, sizes)?;
    sum_of_closed(alloc, &parts, sizes.rounds)
}
