//! Why a line isn't taken.

use sp_mps_words::FaultKind;

/// Why a line isn't taken.
#[derive(Clone, Copy, PartialEq, Eq, Debug)]
pub enum LineFault {
    /// It isn't lawful.
    Refused(FaultKind),
    /// There was not enough memory.
    NoMemory,
}
