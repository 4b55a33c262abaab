//! The cover of a search, the moves that keep it, and what a covered search has found.
#![tactic(auto)]

mod aims;
mod cover_laws;
mod searches;

pub use aims::{Aim, is_past};
pub use cover_laws::{
    covered_searches_find_all, found_points_are_few, screens_last, searches_last,
};
pub use searches::Search;
