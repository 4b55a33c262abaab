//! The words of LP files: which tokens may be parts of section words, and what every token is to the grammar.
#![tactic(auto)]

mod classes;
mod firsts;
mod sections;
mod tables;

pub use classes::Class;
pub use sections::{Pair, Part, Section, is_free, set_kind_of};
pub use tables::Tables;
