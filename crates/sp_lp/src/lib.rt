//! LP files: what each says, or why and in which line it is none.
#![tactic(auto)]

mod cursor;
mod fault_kinds;
#[cfg(test)]
mod file_tests;
mod headings;
mod known_names;
mod lp_files;
mod lp_laws;
mod names;
mod numbers;
mod other_tokens;
mod questions;
mod reader;
mod relations;
mod row_names;
mod saying;
mod signs;
mod standing;
mod stops;
mod values;
mod walking;

pub use lp_files::read_lp;
pub use lp_laws::{files_have_one_answer, files_have_some_answer};
