//! What a model is made of: rows, indicators, sets, and all parts together.
use crate::ids::VarId;
use crate::items::Items;

/// A linear row: the sum of its terms lies between its sides. A side that is `None` is no bound.
#[derive(Debug, Drop)]
pub struct Row {
    /// A variable and its coefficient, by rising variable.
    pub terms: Items<(VarId, i128)>,
    /// The least value that the sum may have.
    pub lo: Option<i128>,
    /// The greatest value that the sum may have.
    pub hi: Option<i128>,
}

/// A row that has to hold where a variable has a stated value.
#[derive(Debug, Drop)]
pub struct Indicator {
    /// The variable, whose bounds lie within 0 and 1.
    pub var: VarId,
    /// The row holds where the variable is 1 (`true`) or 0 (`false`).
    pub on: bool,
    /// The row.
    pub row: Row,
}

/// The two kinds of special ordered sets, as Beale and Tomlin have them.
#[derive(Clone, Copy, PartialEq, Eq, Debug)]
pub enum SosKind {
    /// At most one member isn't zero.
    One,
    /// At most two members aren't zero, and two only as neighbours.
    Two,
}

/// A special ordered set.
#[derive(Debug, Drop)]
pub struct Sos {
    /// How many members may differ from zero.
    pub kind: SosKind,
    /// The members in order of weight.
    pub vars: Items<VarId>,
}

/// All that a model is made of, in scaled whole numbers and in the minimising direction.
#[derive(Debug, Drop)]
pub struct ModelParts {
    /// Whether the user maximises; `cost` and `constant` are negated already.
    pub maximize: bool,
    /// The power of ten by which the objective was multiplied, at most 30.
    pub scale: u8,
    /// The constant of the objective.
    pub constant: i128,
    /// The objective's terms, by rising variable.
    pub cost: Items<(VarId, i128)>,
    /// The stated lower bound of each variable, in declared order; `None` where it is missing.
    pub lower: Items<Option<i64>>,
    /// The stated upper bound of each variable, in declared order; `None` where it is missing.
    pub upper: Items<Option<i64>>,
    /// The semi-integer variables, by rising variable, each with the lower and the upper bound of its core. Such a
    /// variable is 0 or lies within its core; its stated bounds are the least range that holds both.
    pub semi: Items<(VarId, i64, i64)>,
    /// The rows.
    pub rows: Items<Row>,
    /// The indicators.
    pub indicators: Items<Indicator>,
    /// The special ordered sets.
    pub sos: Items<Sos>,
}
