//! What a model file means: a model with the names of its variables, or the first reason why it has none.
#![tactic(auto)]

mod formats;
mod laws;
mod models;
mod refusals;
mod refusing;

pub use formats::{FileFormat, format_of};
pub use laws::files_mean_one_thing;
pub use models::{Meaning, NamedModel, meaning_of};
pub use refusals::Refusal;
