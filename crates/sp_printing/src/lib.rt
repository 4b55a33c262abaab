//! How replies are printed: their fixed parts, their lines, and the lines of the listed points. Nothing here takes
//! memory.
#![tactic(auto)]

mod laws;
mod printing;
mod replying;
mod wordings;

pub use laws::{printed_replies_are_told, runs_are_printable};
pub use printing::print_refusal;
pub use replying::print_reply;
pub use wordings::{Wording, bytes_of};
