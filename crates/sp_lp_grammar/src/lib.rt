//! The grammar of LP files and what they mean, and the places of a reader that goes through them.
#![tactic(auto)]

mod grammar_laws;
mod places;

pub use grammar_laws::{
    faults_have_one_place, files_mean_one_draft, fronts_begin_files, readers_tell_files,
};
pub use places::{Pending, Place, Side, Sum};
