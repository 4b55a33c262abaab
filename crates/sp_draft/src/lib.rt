//! Drafts: what a model file says, with its names and its numbers as they are written.
#![tactic(auto)]

mod drafts;
mod naming;
mod read_refusals;
mod solution_lines;

pub use drafts::{Draft, DraftIndicator, DraftRow, DraftSos, DraftVar, Sense, Sides, VarKind};
pub use naming::Names;
pub use read_refusals::ReadRefusal;
pub use solution_lines::solution_line;
