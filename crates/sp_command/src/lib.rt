//! Command lines: what a line of a session says.
#![tactic(auto)]

mod bounds;
mod command_laws;
mod commands;
mod diversity;
mod filters;
mod numbers;
mod parsing;
mod places;
mod ranges;
mod refusals;
mod settings;

pub use command_laws::sums_are_read_by_their_grammar;
pub use commands::{Command, DiversityTerm, RangeTerm, Setting};
pub use parsing::parse;
pub use refusals::CommandRefusal;
pub use sp_command_words::Shown;
