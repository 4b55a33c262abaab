//! Exact decimals: the value of a numeral's text, and the text of a value.
#![tactic(auto)]

mod decimals;
mod numeral_laws;
#[cfg(test)]
mod numeral_tests;
mod numerals;
mod parts;
mod places;
mod printing;
#[cfg(test)]
mod printing_tests;
mod reading;
mod rounding;
mod significands;

pub use decimals::Decimal;
pub use numeral_laws::{decimals_are_read_back, numerals_have_one_reading, written_is_exact};
pub use numerals::{Numeral, NumeralFault};
pub use printing::{Printed, print, values_have_one_text};
pub use rounding::{ceil, floor, scaled};
