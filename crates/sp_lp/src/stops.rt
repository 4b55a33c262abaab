//! Why a reader stops.

/// Why a reader stops before the end of its file.
#[derive(Clone, Copy, PartialEq, Eq, Debug)]
pub enum Stop {
    /// The token can't stand here.
    Fault,
    /// There was not enough memory.
    Memory,
}
