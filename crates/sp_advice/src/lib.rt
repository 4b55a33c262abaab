//! Hints for a search, from what the finder found over a box or over one around it.
#![tactic(auto)]

mod advising;
mod numbers;
mod places;
mod recording;
mod records;
mod testing;

pub use advising::{Advice, Hints, NO_HINTS};
