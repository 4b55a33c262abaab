//! Phase two of a search: all points within the cut that pass the filters, and the list of them.
#![tactic(auto)]

mod best;
mod cuts;
mod leaves;
mod listing;
mod populate_laws;
#[cfg(test)]
mod populate_tests;
mod populating;

pub use best::{NBestEnd, nbest};
pub use cuts::present_cut;
pub use listing::{ListRefusal, list};
pub use populate_laws::{
    changed_filters_keep_the_cover, lists_are_filtered, lists_without_filters,
};
pub use populating::{PopEnd, populate};
