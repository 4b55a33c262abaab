//! An untrusted finder of multipliers for the rows of a model, and of a point.
#![tactic(auto)]

mod filling;
mod finders;
mod listing;
mod numbers;
mod pivoting;
mod sides;
mod tables;

pub use finders::{Estimate, Finder, MOST_PLACES, Outcome, propose};
