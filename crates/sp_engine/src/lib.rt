//! What a session does with a command: it reads a model from a shelf and lists its solutions. Definitions of what each
//! command says stand in specs/.
#![tactic(auto)]

mod commands;
mod journals;
mod reading;
mod replies;
mod runs;
mod session_laws;

pub use commands::Command;
pub use journals::{Entry, FetchNote, Journal, RunEnd, StoreNote};
pub use reading::{ReadEnd, read};
pub use replies::Reply;
pub use runs::{Listing, list};
pub use session_laws::{journal_is_divided_in_one_way, roomy_runs_list_all};
