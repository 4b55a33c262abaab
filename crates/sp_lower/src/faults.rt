//! What rows and indicators are refused for, over the closed box.
ghost use Rattle.std.specs.Prelude.{◌≡◌, ◌≤◌, ◌<◌, All, length};
ghost use Rattle.sp_draft.specs.Drafts.{AreKnown, IsKnownIndicator};
ghost use Rattle.sp_model.specs.Boxes.{range_at};
ghost use Rattle.sp_lower.specs.Faults.{first_fault, row_fault, is_binary, indicator_fault};

use crate::refusals::LowerRefusal;
use crate::rows::is_wide;
use sp_draft::{DraftIndicator, DraftRow};
use sp_model::{BoxOf, RowId, VarId};

/// The first row that is too wide.
pub(crate) fn first_row_fault(root: &BoxOf, rows: &[DraftRow]) -> Option<LowerRefusal>
    requires known { All (λ row. AreKnown (length root.now) row.terms) rows.now }
    requires few { length rows.now ≤ 10000 }
    ensures { result ≡ first_fault (row_fault root.now) 0 rows.now }
{
    for (at, row) in rows.iter().enumerate() {
        if is_wide(root, row) {
            return Some(LowerRefusal::WideRow(RowId::new(at as u32)));
        }
    }
    None
}

/// Whether both bounds of the variable are 0 or 1.
fn is_binary(root: &BoxOf, var: VarId) -> bool
    requires { var < length root.now }
    ensures { result ≡ is_binary (range_at root.now var) }
{
    let (least, greatest) = root.range(var);
    (0 <= least && least <= 1) && (0 <= greatest && greatest <= 1)
}

/// What the indicator at the place is refused for, if anything.
fn indicator_fault(root: &BoxOf, at: u32, indicator: &DraftIndicator) -> Option<LowerRefusal>
    requires { IsKnownIndicator (length root.now) indicator.now }
    ensures { result ≡ indicator_fault root.now at indicator.now }
{
    if is_binary(root, indicator.var) && !is_wide(root, &indicator.row) {
        None
    } else {
        Some(LowerRefusal::BadIndicator(at))
    }
}

/// The first indicator whose variable isn't 0 or 1, or whose row is too wide.
pub(crate) fn first_indicator_fault(
    root: &BoxOf,
    indicators: &[DraftIndicator],
) -> Option<LowerRefusal>
    requires known { All (IsKnownIndicator (length root.now)) indicators.now }
    requires few { length indicators.now ≤ 1000 }
    ensures { result ≡ first_fault (indicator_fault root.now) 0 indicators.now }
{
    for (at, indicator) in indicators.iter().enumerate() {
        match indicator_fault(root, at as u32, indicator) {
            None => {}
            Some(fault) => return Some(fault),
        }
    }
    None
}
