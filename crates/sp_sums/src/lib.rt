//! Sums of rows over a box, kept while the box changes.
#![tactic(auto)]

mod columns;
mod flags;
mod kept;
mod laws;
mod making;
mod probes;
mod spans;
mod tallies;

pub use flags::Flags;
pub use kept::Sums;
pub use laws::{
    broken_rows_hold_nowhere, broken_rows_stay_broken, columns_are_exact,
    low_and_high_are_by_sides, rows_are_narrow_inside, sums_are_reached, sums_lie_between,
    sums_meet_at_a_point, sums_narrow_inside,
};
pub use making::span_over;
pub use spans::{Span, is_broken, is_high, is_low};
