//! The reasons for which a box holds no feasible point.
use sp_model::{RowId, VarId};

/// Why a box holds no feasible point, in the order in which reasons are looked for.
#[derive(Clone, Copy, PartialEq, Eq, Debug)]
pub enum Reason {
    /// The range of this variable is empty in the box.
    Empty(VarId),
    /// The greatest value of this row's sum over the box is below its least side.
    RowLow(RowId),
    /// The least value of this row's sum over the box is above its greatest side.
    RowHigh(RowId),
    /// The switch of this indicator is fixed in the box at the value that asks for its row, and the row's sum stays below its
    /// least side.
    IndicatorLow(u32),
    /// The same, and the row's sum stays above its greatest side.
    IndicatorHigh(u32),
    /// In this set, the members at these two places have ranges without 0, and the set doesn't allow both to differ from 0.
    Sos(u32, u32, u32),
    /// The core of this semi-integer variable and 0 both lie outside its range in the box.
    Semi(VarId),
}
