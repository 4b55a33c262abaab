//! Why a model file is refused.
use sp_base::Text;
use sp_lower::What;
use sp_model::RowId;

/// Why a model file is refused. Lines are counted from 1; rows, indicators and sets by their places, from 0.
#[derive(Debug, Drop)]
pub enum Refusal {
    /// The file isn't of its format.
    Syntax {
        /// The line at fault.
        line: u32,
    },
    /// A number needs too many digits, or is huge where it may not be.
    WideNumeral {
        /// The line at fault.
        line: u32,
    },
    /// The variable of this name isn't whole.
    Continuous(Text),
    /// A bound of the variable of this name is missing, and the rows don't close it.
    OpenVariable(Text),
    /// A bound of the variable of this name has a magnitude above 10^15.
    WideBound(Text),
    /// The row's width is above 10^36, or a side of it is huge.
    WideRow(RowId),
    /// The objective's width is above 10^36.
    WideObjective,
    /// A name is declared twice.
    DuplicateName {
        /// The line at fault.
        line: u32,
    },
    /// A row or a column isn't declared.
    UnknownName {
        /// The line at fault.
        line: u32,
    },
    /// The format has it, and it isn't supported.
    Unsupported {
        /// The line at fault.
        line: u32,
    },
    /// The variable of this name has an upper bound below 0, and no lower bound is stated.
    NegativeUpper(Text),
    /// The file has too much of this.
    TooMany(What),
    /// The indicator's variable isn't 0 or 1, or its row is wide.
    BadIndicator(u32),
    /// A variable stands twice in the set, or two members have one weight.
    BadSos(u32),
    /// There is no such file.
    FileAbsent,
    /// The file can't be read.
    FileFault,
    /// The file is too long.
    FileTooLong,
}
