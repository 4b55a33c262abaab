//! The search: steps on open leaves, each of which keeps the cover, and the proved optimum.
#![tactic(auto)]

mod advised;
mod agenda;
mod closers;
mod goals;
mod kept_closers;
mod optima;
mod preparing;
mod search_laws;
#[cfg(test)]
mod search_tests;
mod starting;
mod states;
mod steps;

pub use goals::{Goal, Stepped};
pub use optima::{OptEnd, optimize};
pub use preparing::{PIVOTS, prepare};
pub use search_laws::{searches_are_small, steps_fall};
pub use states::State;
pub use steps::step;
