//! MPS files: what each says, or the first line that isn't of the format.
#![tactic(auto)]

mod draft_vars;
mod drafting;
mod mps_files;
mod mps_laws;
mod reader;
mod reading;
mod row_tables;
#[cfg(test)]
mod tests;

pub use mps_files::read_mps;
pub use mps_laws::{endata_ends_files, files_have_one_answer, files_have_some_answer};
