//! The parts of a draft: what a model file says of variables, rows, indicators and sets, before it is scaled.

use crate::naming::Names;
use sp_decimal::{Decimal, Numeral};
use sp_model::{Items, SosKind, VarId};

/// Which values a file lets a variable have.
#[derive(Clone, Copy, PartialEq, Eq, Debug)]
pub enum VarKind {
    /// Any number.
    Continuous,
    /// Whole numbers.
    Integer,
    /// 0 and 1.
    Binary,
}

/// A variable as a file states it.
#[derive(Clone, Copy, PartialEq, Eq, Debug)]
pub struct DraftVar {
    /// Which values it may have.
    pub kind: VarKind,
    /// The least value, if the file states one; a variable without one begins at 0.
    pub lower: Option<Numeral>,
    /// The greatest value, if the file states one; a binary variable without one ends at 1.
    pub upper: Option<Numeral>,
    /// Whether it is semi-integer: it may be 0 beside the values between its bounds.
    pub semi: bool,
}

/// How a row's sum compares with its right-hand side (the row types L, G and E of the MPS file format).
#[derive(Clone, Copy, PartialEq, Eq, Debug)]
pub enum Sense {
    /// At most the right-hand side.
    Less,
    /// At least the right-hand side.
    Greater,
    /// The right-hand side.
    Equal,
}

/// What a row's sum is held to.
#[derive(Clone, Copy, PartialEq, Eq, Debug)]
pub enum Sides {
    /// At most this.
    Le(Numeral),
    /// At least this.
    Ge(Numeral),
    /// Exactly this.
    Eq(Numeral),
    /// At least the first and at most the second.
    Between(Numeral, Numeral),
    /// Between the right-hand side and a point that lies the range's magnitude away from it: above it for `Greater`,
    /// below it for `Less`; for `Equal` above it, or below it where the range is negative (RANGES of the MPS file
    /// format).
    Ranged {
        /// The row's type.
        sense: Sense,
        /// The right-hand side.
        rhs: Numeral,
        /// The range.
        range: Decimal,
    },
}

/// A row as a file states it.
#[derive(Debug, Drop)]
pub struct DraftRow {
    /// A variable and its coefficient, in the order of the file; a variable may stand there more than once.
    pub terms: Items<(VarId, Decimal)>,
    /// What the sum is held to.
    pub sides: Sides,
}

/// A row that has to hold where a variable has a stated value.
#[derive(Debug, Drop)]
pub struct DraftIndicator {
    /// The variable.
    pub var: VarId,
    /// The row holds where the variable is 1 (`true`) or 0 (`false`).
    pub on: bool,
    /// The row.
    pub row: DraftRow,
}

/// A special ordered set as a file states it.
#[derive(Debug, Drop)]
pub struct DraftSos {
    /// How many members may differ from zero.
    pub kind: SosKind,
    /// A variable and its weight, in the order of the file.
    pub members: Items<(VarId, Decimal)>,
}

/// All that a model file says. Variables are named by their place among the names.
#[derive(Drop)]
pub struct Draft {
    /// Whether the objective is to be as great as possible.
    pub maximize: bool,
    /// The names of the variables, in declared order.
    pub names: Names,
    /// The variables, in the order of their names.
    pub vars: Items<DraftVar>,
    /// The objective's terms, in the order of the file.
    pub cost: Items<(VarId, Decimal)>,
    /// The objective's constants, in the order of the file; they are added.
    pub constants: Items<Decimal>,
    /// The rows.
    pub rows: Items<DraftRow>,
    /// The indicators.
    pub indicators: Items<DraftIndicator>,
    /// The special ordered sets.
    pub sos: Items<DraftSos>,
}
