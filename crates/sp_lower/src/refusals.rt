//! Why a draft makes no model.
use sp_model::{RowId, VarId};

/// What a draft has too much of.
#[derive(Clone, Copy, PartialEq, Eq, Debug)]
pub enum What {
    /// More than 2,000 variables.
    Variables,
    /// More than 10,000 rows.
    Rows,
    /// More than 200,000 written terms, in the objective, the rows, the indicators and as members of the sets.
    Terms,
    /// More than 1,000 indicators.
    Indicators,
    /// More than 1,000 special ordered sets.
    Sos,
}

/// Why a draft makes no model: the first thing in it, in this order, that no model has. Variables are looked at one after
/// another.
#[derive(Clone, Copy, PartialEq, Eq, Debug)]
pub enum LowerRefusal {
    /// There is too much of this.
    TooMany(What),
    /// The variable isn't whole.
    Continuous(VarId),
    /// The variable has an upper bound below 0, and no lower bound is stated.
    NegativeUpper(VarId),
    /// A bound of the variable, as a whole number, has a magnitude above 10^15.
    WideBound(VarId),
    /// A bound of the variable is missing, and the rows don't close it.
    OpenVariable(VarId),
    /// The objective's width is above 10^36.
    WideObjective,
    /// The row's width is above 10^36, or a side of it is huge.
    WideRow(RowId),
    /// The indicator's variable isn't 0 or 1, or its row is wide.
    BadIndicator(u32),
    /// A variable stands twice in the set, or two members have one weight.
    BadSos(u32),
    /// There was not enough memory.
    NoMemory,
}
