//! What the words of the command line ask for.
use anyhow::{Context, Result, bail};
use std::env;
use std::rt::Env;

/// What is asked.
#[derive(Clone, Copy, PartialEq, Eq, Debug)]
pub enum Question {
    /// Whether a point is feasible.
    Feasible,
    /// What the objective is worth at a point.
    Value,
    /// Which box the rows close.
    Close,
}

/// How large the model is, and how often it is asked.
#[derive(Clone, Copy, PartialEq, Eq, Debug)]
pub struct Sizes {
    /// The number of variables.
    pub variables: u32,
    /// The number of terms in all rows; a row has all variables, or 20 of them where a box is closed.
    pub terms: u32,
    /// How often it is asked.
    pub rounds: u64,
}

/// Reads the words `feasible|value|close VARIABLES TERMS ROUNDS`.
pub fn question_and_sizes<R: Env + AllocGlobal>(rt: &R) -> Result<(Question, Sizes)> {
    let mut words = env::args(rt)?.skip(1);
    let (Some(question), Some(variables), Some(terms), Some(rounds), None) = (
        words.next(),
        words.next(),
        words.next(),
        words.next(),
        words.next(),
    ) else {
        bail!("usage: model_bench feasible|value|close VARIABLES TERMS ROUNDS");
    };
    let question = match question.as_str() {
        "feasible" => Question::Feasible,
        "value" => Question::Value,
        "close" => Question::Close,
        _ => bail!("the question is none of feasible, value and close"),
    };
    let sizes = Sizes {
        variables: variables.parse::<u32>().context("reading VARIABLES")?,
        terms: terms.parse::<u32>().context("reading TERMS")?,
        rounds: rounds.parse::<u64>().context("reading ROUNDS")?,
    };
    Ok((question, sizes))
}
