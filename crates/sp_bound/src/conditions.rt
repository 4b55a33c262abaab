//! Tests of what bounds need.

ghost use Rattle.std.specs.Prelude.{◌↔◌, ◌<◌, ◌≤ℤ◌, IsTrue, length};
ghost use Rattle.sp_model.specs.Models.{root_of};
ghost use Rattle.sp_sums.specs.Ranges.{IsFilled, IsInside, IsPart};
ghost use Rattle.sp_bound.specs.Bounds.{AreRowsKnown};

use sp_dual::Multipliers;
use sp_model::{BoxOf, Model, RowId, VarId, root_is_short};

fn is_known(weight: &(RowId, i128), count: usize) -> bool
    ensures { IsTrue result ↔ (weight.now.0 < count) }
{
    weight.0.index() < count
}

/// Whether each row of the list is the model's.
pub fn are_rows_known(model: &Model, list: &Multipliers) -> bool
    ensures { IsTrue result ↔ AreRowsKnown model.now list.now }
{
    let parts = model.parts();
    let count = parts.rows.len();
    for weight in list.entries() {
        if !is_known(weight, count) {
            return false;
        }
    }
    true
}

fn is_part(whole: &(i64, i64), part: &(i64, i64)) -> bool
    ensures { IsTrue result ↔ IsPart whole.now part.now }
{
    whole.0 <= part.0 && part.0 <= part.1 && part.1 <= whole.1
}

/// Whether the box isn't empty and lies within the closed box of the model.
pub fn lies_inside(model: &Model, bounds: &BoxOf) -> bool
    ensures { IsTrue result ↔ IsInside (root_of model.now) bounds.now }
{
    root_is_short();
    let parts = model.parts();
    if bounds.len() != parts.lower.len() {
        return false;
    }
    for at in 0..bounds.len() {
        let var = VarId::new(at as u32);
        if !is_part(&model.bounds(var), &bounds.range(var)) {
            return false;
        }
    }
    true
}

fn is_filled(range: &(i64, i64)) -> bool
    ensures { IsTrue result ↔ (range.now.0 ≤ℤ range.now.1) }
{
    range.0 <= range.1
}

/// Whether the closed box of the model has points: no range is empty.
pub fn has_points(model: &Model) -> bool
    ensures { IsTrue result ↔ IsFilled (root_of model.now) }
{
    root_is_short();
    let parts = model.parts();
    for at in 0..parts.lower.len() {
        if !is_filled(&model.bounds(VarId::new(at as u32))) {
            return false;
        }
    }
    true
}
