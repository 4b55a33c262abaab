//! The rounds that are measured.

ghost use Rattle.std.specs.Prelude.{IfSome, IsTrue};
ghost use Rattle.sp_activity.specs.Kept.{IsKeptOf};
ghost use Rattle.sp_model.specs.Models.{root_of};
ghost use Rattle.sp_sums.specs.Ranges.{IsFilled};

use sp_activity::{Kept, boxes_with_points_are_filled};
use sp_model::{Model, VarId};
use std::alloc::Global;

/// Whether the closed box has points; false where there is no memory.
fn has_points(alloc: Global, model: &Model) -> bool
    ensures { IsTrue result → IsFilled (root_of model.now) }
{
    boxes_with_points_are_filled();
    match model.root(alloc) {
        Ok(root) => root.has_points(),
        Err(_) => false,
    }
}

/// All that is kept of a model over its closed box; none where that has no points, or there is no memory.
pub fn kept_of(alloc: Global, model: &Model) -> Option<Kept>
    ensures { IfSome result (IsKeptOf model.now) }
{
    if !has_points(alloc, model) {
        return None;
    }
    match Kept::new(alloc, model) {
        Ok(kept) => Some(kept),
        Err(_) => None,
    }
}

/// Gives a variable this range, where it may have it.
pub fn change(model: &Model, kept: &mut Kept, var: VarId, range: &(i64, i64))
    requires { IsKeptOf model.now kept.old }
    ensures { IsKeptOf model.now kept.new }
{
    if kept.can_set(model, var, range) {
        kept.set(model, var, range);
    }
}

/// In how many of so many rounds the box is open, where 100 variables in turn get one range, and then another.
pub fn count_open(
    model: &Model,
    kept: &mut Kept,
    rounds: u32,
    first: &(i64, i64),
    second: &(i64, i64),
) -> u32
    requires { IsKeptOf model.now kept.old }
    ensures { IsKeptOf model.now kept.new }
{
    let mut count = 0u32;
    for round in 0..rounds {
        let range = if round / 100 % 2 == 0 { first } else { second };
        change(model, kept, VarId::new(round % 100), range);
        if kept.closed(model).is_none() {
            count = count.saturating_add(1);
        }
    }
    count
}

/// Whether all that is kept can be made, and the closed box is open.
fn is_made_open(alloc: Global, model: &Model) -> bool {
    match kept_of(alloc, model) {
        Some(kept) => kept.closed(model).is_none(),
        None => false,
    }
}

/// In how many of so many rounds all that is kept is made, and the closed box is open.
pub fn count_made(alloc: Global, model: &Model, rounds: u32) -> u32 {
    let mut count = 0u32;
    for _ in 0..rounds {
        if is_made_open(alloc, model) {
            count = count.saturating_add(1);
        }
    }
    count
}
