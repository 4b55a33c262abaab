//! Range and diversity filters on points and boxes.
#![tactic(auto)]

mod drafting;
mod filter_laws;
mod holding;
mod ids;
mod kinds;
mod lowering;
mod refusals;
mod sums;
mod terms;
mod widths;

pub use drafting::FilterDraft;
pub use filter_laws::{
    fitting_filters_are_narrow, narrow_filters_stay_narrow, terms_reach_their_ends,
};
pub use holding::{Filters, Held};
pub use ids::FilterId;
pub use kinds::Filter;
pub use refusals::{FilterRefusal, NoFilter};
