//! The model of a pure integer program: its parts, its closed box, what is feasible, what an objective is worth, and the
//! cut of a gap.
#![tactic(auto)]

mod bound_rules;
mod box_laws;
mod boxes;
mod closing;
mod cut_laws;
mod ends;
mod feasibility;
mod gaps;
mod ids;
mod items;
mod limits;
mod model_laws;
#[cfg(test)]
mod model_tests;
mod models;
mod no_memory;
mod parts;
mod points;
mod refusal;
#[cfg(test)]
mod round_tests;
mod rounds;
mod rules;
mod sums;
mod tails;
mod terms;

pub use bound_rules::closed_box;
pub use box_laws::{
    points_are_all_within, points_are_counted, points_are_lexicographic, split_divides_count,
    split_divides_points, split_is_by_value, within_is_tested,
};
pub use boxes::BoxOf;
pub use cut_laws::{cut_is_between, cut_is_greatest};
pub use feasibility::{is_at_least, is_at_most};
pub use gaps::{Gap, Gaps, cut};
pub use ids::{RowId, VarId};
pub use items::Items;
pub use limits::{
    GREATEST_BOUND, GREATEST_SCALE, GREATEST_WIDTH, MOST_INDICATORS, MOST_ROUNDS, MOST_ROWS,
    MOST_SETS, MOST_VARIABLES,
};
pub use model_laws::{
    closed_box_is_stated, feasible_is_tested, feasible_is_within, feasible_points_are_all,
    objective_is_small, quotients_are_exact, root_is_near, root_is_short, stated_bounds_stay,
    widened_holds_core,
};
pub use models::Model;
pub use no_memory::NoMemory;
pub use parts::{Indicator, ModelParts, Row, Sos, SosKind};
pub use points::Point;
pub use refusal::BuildRefusal;
