//! The limits of a model, each named once.

/// The most variables.
pub const MOST_VARIABLES: usize = 2_000;

/// The most rows.
pub const MOST_ROWS: usize = 10_000;

/// The most indicators.
pub const MOST_INDICATORS: usize = 1_000;

/// The most special ordered sets.
pub const MOST_SETS: usize = 1_000;

/// The greatest magnitude of a bound, 10^15.
pub const GREATEST_BOUND: u64 = 1_000_000_000_000_000;

/// The greatest width of a row and of the objective, 10^36, and the greatest magnitude of every sum on the way.
pub const GREATEST_WIDTH: u128 = 1_000_000_000_000_000_000_000_000_000_000_000_000;

/// The greatest power of ten of a scale.
pub const GREATEST_SCALE: u8 = 30;

/// How many rounds close missing bounds.
pub const MOST_ROUNDS: u32 = 32;
