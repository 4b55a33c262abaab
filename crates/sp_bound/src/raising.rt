//! The greatest sides of kept rows under another threshold.

ghost use Rattle.std.specs.Prelude.{◌≡◌, ◌^◌, ◌<◌, ◌≤◌, length, unsigned_abs};
ghost use Rattle.sp_dual.specs.Lists.{IsWellFormed};
ghost use Rattle.sp_bound.specs.Inner.{IsSideOf};
ghost use Rattle.sp_bound.specs.KeptBounds.{AreOwned, owner_at};
ghost use Rattle.sp_bound.specs.Raising.{IsRaising, RaisesRow};

use crate::keeping::Owner;
use crate::thresholds::closing_side;
use sp_dual::Multipliers;
use sp_model::{ModelParts, RowId};
use sp_sums::Sums;

/// The side of a list's row.
fn side_under(
    model: &ModelParts,
    threshold: &Option<i128>,
    list: &Multipliers,
    owner: &Owner,
) -> Option<i128>
    requires constant { unsigned_abs model.now.constant ≤ 10 ^ 36 }
    requires sides { unsigned_abs owner.now.sides ≤ 10 ^ 36 }
    ensures { IsSideOf threshold.now model.now.constant list.now.d owner.now.sides result }
{
    let _entries = list.entries();
    closing_side(threshold, &model.constant, &list.d, &owner.sides)
}

/// Gives one row the side of the threshold.
fn raise_row(
    model: &ModelParts,
    lists: &[Multipliers],
    threshold: &Option<i128>,
    owners: &[Owner],
    at: usize,
    sums: &mut Sums,
)
    requires constant { unsigned_abs model.now.constant ≤ 10 ^ 36 }
    requires known { at < length sums.old.rows }
    requires few { length owners.now ≤ 10000 }
    requires owned { AreOwned model.now lists.now owners.now sums.old.rows }
    ensures { RaisesRow model.now threshold.now lists.now owners.now at sums.old sums.new }
{
    let owner = &owners[at];
    let side = side_under(model, threshold, &lists[owner.place as usize], owner);
    sums.set_upper(RowId::new(at as u32), &side);
}

/// Gives each row the side of the threshold.
pub fn raise_all(
    model: &ModelParts,
    lists: &[Multipliers],
    threshold: &Option<i128>,
    owners: &[Owner],
    sums: &mut Sums,
)
    requires constant { unsigned_abs model.now.constant ≤ 10 ^ 36 }
    requires few { length owners.now ≤ 10000 }
    requires owned { AreOwned model.now lists.now owners.now sums.old.rows }
    ensures { IsRaising model.now threshold.now lists.now owners.now (length owners.now) sums.old sums.new }
{
    for at in 0..owners.len() {
        raise_row(model, lists, threshold, owners, at, sums);
    }
}
