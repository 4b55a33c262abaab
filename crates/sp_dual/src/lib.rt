//! Lists of multipliers for the rows of a model.
#![tactic(auto)]

mod multipliers;

pub use multipliers::Multipliers;
