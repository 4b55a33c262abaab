//! The top call of `solpool`: it reads the words, fetches the model file, finds the list and prints the reply.
#![tactic(auto)]

#[cfg(test)]
mod run_tests;
mod runs;

pub use runs::{Ending, run};
