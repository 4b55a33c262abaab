//! Boxes of their own, for the plain calls.

ghost use Rattle.std.specs.Prelude.{◌<◌, length, IfOk, ◌≡◌};
ghost use Rattle.sp_model.specs.Models.{root_of};
ghost use Rattle.sp_sums.specs.Ranges.{IsInside};
ghost use Rattle.sp_activity.specs.Kept.{IsKeptOf};

use sp_activity::{Kept, Reason, Side, closed, tighten};
use sp_model::{BoxOf, Items, Model, NoMemory, VarId};
use std::alloc::Global;

/// A place where a split of the same box closes a side, by the plain call; none where there is no memory.
pub fn plain_tight(alloc: Global, model: &Model, kept: &Kept) -> Option<(VarId, i64, Side)>
    requires { IsKeptOf model.now kept.now }
{
    match copy_of(alloc, kept.bounds_in(model)) {
        Ok(mut plain) => tighten(model, &mut plain),
        Err(_) => None,
    }
}

/// The first reason of the box with the ends of one range changed over, so that it is empty unless it has one value;
/// none where the variable is unknown, or there is no memory.
pub fn crossed_reason(alloc: Global, model: &Model, kept: &Kept, var: VarId) -> Option<Reason>
    requires { IsKeptOf model.now kept.now }
{
    match copy_of(alloc, kept.bounds_in(model)) {
        Ok(mut plain) => closed_with(model, &mut plain, var),
        Err(_) => None,
    }
}

/// A box of its own with the same ranges.
fn copy_of(alloc: Global, bounds: &BoxOf) -> Result<BoxOf, NoMemory>
    ensures { IfOk result (λ b. b ≡ bounds.now) }
{
    let lower = Items::from_vec(Vec::from_slice(alloc, bounds.lower.as_slice())?);
    let upper = Items::from_vec(Vec::from_slice(alloc, bounds.upper.as_slice())?);
    Ok(BoxOf { lower, upper })
}

fn closed_with(model: &Model, plain: &mut BoxOf, var: VarId) -> Option<Reason>
    requires { IsInside (root_of model.now) plain.old }
{
    if var.index() < plain.len() {
        closed_crossed(model, plain, var)
    } else {
        None
    }
}

fn closed_crossed(model: &Model, plain: &mut BoxOf, var: VarId) -> Option<Reason>
    requires inside { IsInside (root_of model.now) plain.old }
    requires known { var < length plain.old }
{
    let (lower, upper) = plain.range(var);
    plain.set(var, &(upper, lower));
    closed(model, plain)
}
