//! Lower bounds on the objective over a box, from multipliers for the rows.
#![tactic(auto)]

mod asking;
#[cfg(test)]
mod bound_tests;
mod bounds;
mod conditions;
mod keeping;
mod kept;
mod laws;
mod numbers;
mod raising;
mod reduced;
mod scratch;
mod stated;
mod thresholds;

pub use bounds::bound;
pub use conditions::{are_rows_known, has_points, lies_inside};
pub use keeping::Owner;
pub use kept::KeptBounds;
pub use laws::{bounds_are_sound, missing_sides_close_nothing, stated_lists_are_lists};
pub use scratch::{Scratch, bound_in};
pub use stated::{MOST_STATED, stated_lists};
