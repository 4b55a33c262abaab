//! The words of commands: which spellings they have, and what they stand for.
#![tactic(auto)]

mod keywords;
mod tables;

pub use keywords::{FilterKind, Group, LimitKey, PoolKey, Shown, Symbol, Verb};
pub use tables::Tables;
