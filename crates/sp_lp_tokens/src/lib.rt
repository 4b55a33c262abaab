//! The tokens of CPLEX LP files: names, numbers and symbols by longest match, with their lines.
#![tactic(auto)]

mod gaps;
#[cfg(test)]
mod length_tests;
mod lengths;
mod numeral_places;
mod pieces;
mod reading;
mod symbols;
mod token_laws;
#[cfg(test)]
mod token_tests;
mod token_types;

pub use reading::{Next, Rest, next_token, tokens};
pub use symbols::Symbol;
pub use token_laws::{files_have_tokens, gaps_are_longest, tokens_are_unique};
pub use token_types::{Token, TokenKind, TokenKindFault, TokenRefusal};
