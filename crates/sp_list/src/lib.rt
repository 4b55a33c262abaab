//! The list: each point within the cut of the optimum once, best objective first and then lexicographically.
#![tactic(auto)]

mod found;
mod list_laws;
mod lists;

pub use found::Found;
pub use list_laws::{
    best_is_unique, found_list_is_unique, kept_is_tested, list_has_distinct_points,
    list_is_list_of, list_is_unique, list_within_is_list_within_of, list_within_is_unique,
    optimum_is_optimum_of, optimum_is_unique, parts_join, set_is_enough, sorted_walk_is_list,
    walk_finds_all,
};
pub use lists::{least_value, list_from, order};
