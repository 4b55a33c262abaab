//! The words of MPS files: lines, their fields, and what the words of heads, kinds, markers and values stand for.
#![tactic(auto)]

mod faults;
mod heads;
mod kinds;
mod line_fields;
mod line_kinds;
mod tables;
#[cfg(test)]
mod tests;
mod values;

pub use faults::FaultKind;
pub use heads::Head;
pub use kinds::{BoundKind, RowKind};
pub use line_fields::{LineFields, line_fields_of};
pub use line_kinds::{LineKind, kind_of_line};
pub use tables::Tables;
pub use values::{exact_of, flag_of, value_of};
