//! What can be wrong with a line.

/// What is wrong with a line of an MPS file.
#[derive(Clone, Copy, PartialEq, Eq, Debug)]
pub enum FaultKind {
    /// The line isn't of the format.
    Syntax,
    /// A value has too many digits, or is huge where it may not be.
    WideNumeral,
    /// A row is declared twice, or is an indicator twice.
    DuplicateName,
    /// A row or a column isn't declared.
    UnknownName,
    /// An unknown head, or a further set of a section.
    Unsupported,
}
