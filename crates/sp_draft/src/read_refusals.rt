//! Why a model file isn't read.

/// Why a model file isn't read, and the line at fault, counted from 1.
#[derive(Clone, Copy, PartialEq, Eq, Debug)]
pub enum ReadRefusal {
    /// The file isn't of the format.
    Syntax {
        /// The line.
        line: u32,
    },
    /// A number needs too many digits, or is huge where it may not be.
    WideNumeral {
        /// The line.
        line: u32,
    },
    /// A name is declared twice.
    DuplicateName {
        /// The line.
        line: u32,
    },
    /// A row or a column isn't declared (MPS files alone).
    UnknownName {
        /// The line.
        line: u32,
    },
    /// The format has it, and it isn't supported here.
    Unsupported {
        /// The line.
        line: u32,
    },
    /// There was not enough memory.
    NoMemory,
}
