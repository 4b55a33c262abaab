//! Lowering: the model that a draft stands for, or the first thing in it that no model has.
#![tactic(auto)]

mod bounds;
mod cores;
mod counts;
mod faults;
mod laws;
mod lowering;
mod objectives;
mod refusals;
mod rows;
mod sets;
mod sides;
mod variables;

pub use laws::lowered_parts_are_lawful;
pub use lowering::lower;
pub use refusals::{LowerRefusal, What};
