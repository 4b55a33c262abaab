//! A place where a split closes one side.

ghost use Rattle.std.specs.Prelude.{◌≡◌, ◌<◌, length, slice_set, true, false, IfNone, IfSome};
ghost use Rattle.sp_model.specs.Models.{root_of};
ghost use Rattle.sp_sums.specs.Ranges.{IsChange, IsInside};
ghost use Rattle.sp_activity.specs.Kept.{IsKeptOf, bounds_of};
ghost use Rattle.sp_activity.specs.Order.{IsOpen};
ghost use Rattle.sp_activity.specs.Sides.{HasReason, IsClosedPart, IsTight, IsLooseAt, NothingTight};

use crate::closing::closed;
use crate::kept::Kept;
use crate::laws::reasons_stay;
use sp_model::{BoxOf, Model, VarId, root_is_short};

/// A side of a split.
#[derive(Clone, Copy, PartialEq, Eq, Debug)]
pub enum Side {
    /// The part with the values up to the place.
    Left,
    /// The part with the values above it.
    Right,
}

/// A variable and a place to split its range, and the side whose box `closed` closes; none where there is no such place. The
/// box has points, is changed meanwhile, and is as before at the end. It takes no memory.
pub fn tighten(model: &Model, bounds: &mut BoxOf) -> Option<(VarId, i64, Side)>
    requires { IsInside (root_of model.now) bounds.old }
    ensures same { bounds.new ≡ bounds.old }
    ensures some { IfSome result (λ tight. IsTight model.now bounds.old tight.0 tight.1 tight.2) }
    ensures none { IfNone result (NothingTight model.now bounds.old) }
{
    root_is_short();
    let _parts = model.parts();
    for at in 0..bounds.len() {
        let var = VarId::new(at as u32);
        match tight_side(model, bounds, var) {
            Some(tight) => return Some((var, tight.0, tight.1)),
            None => {}
        }
    }
    None
}

/// The place of the variable's range, and the side.
fn tight_side(model: &Model, bounds: &mut BoxOf, var: VarId) -> Option<(i64, Side)>
    requires inside { IsInside (root_of model.now) bounds.old }
    requires known { var < length bounds.old }
    ensures same { bounds.new ≡ bounds.old }
    ensures some { IfSome result (λ tight. IsTight model.now bounds.old var tight.0 tight.1) }
    ensures none { IfNone result (IsLooseAt model.now bounds.old var) }
{
    reasons_stay();
    let (least, greatest) = bounds.range(var);
    if greatest <= least {
        return None;
    }
    if is_closed_part(model, bounds, var, &(least, least)) {
        return Some((least, Side::Left));
    }
    if is_closed_part(model, bounds, var, &(greatest, greatest)) {
        return Some((greatest - 1, Side::Right));
    }
    None
}

/// Whether the box with this range of the variable has a reason.
fn is_closed_part(model: &Model, bounds: &mut BoxOf, var: VarId, range: &(i64, i64)) -> bool
    requires inside { IsInside (root_of model.now) bounds.old }
    requires change { IsChange (root_of model.now) var range.now }
    ensures same { bounds.new ≡ bounds.old }
    ensures exact { IsClosedPart model.now (slice_set bounds.old var range.now) result }
{
    let before = bounds.range(var);
    bounds.set(var, range);
    let reason = closed(model, bounds);
    bounds.set(var, &before);
    reason.is_some()
}

impl Kept {
    /// The same over the kept box: it looks at what has each variable, and not at the whole model. The box and all that is
    /// kept are as before at the end.
    pub fn tighten(&mut self, model: &Model) -> Option<(VarId, i64, Side)>
        requires { IsKeptOf model.now self.old }
        ensures kept { IsKeptOf model.now self.new }
        ensures same { bounds_of self.new ≡ bounds_of self.old }
        ensures some { IfSome result (λ tight. IsTight model.now (bounds_of self.old) tight.0 tight.1 tight.2) }
        ensures none { IfNone result (NothingTight model.now (bounds_of self.old)) }
    {
        root_is_short();
        let _parts = model.parts();
        let _root = self.rows.root();
        for at in 0..self.bounds().len() {
            let var = VarId::new(at as u32);
            match self.tight_side(model, var) {
                Some(tight) => return Some((var, tight.0, tight.1)),
                None => {}
            }
        }
        None
    }

    /// The place of the variable's range, and the side.
    fn tight_side(&mut self, model: &Model, var: VarId) -> Option<(i64, Side)>
        requires kept { IsKeptOf model.now self.old }
        requires known { var < length (bounds_of self.old) }
        ensures kept { IsKeptOf model.now self.new }
        ensures same { bounds_of self.new ≡ bounds_of self.old }
        ensures some { IfSome result (λ tight. IsTight model.now (bounds_of self.old) var tight.0 tight.1) }
        ensures none { IfNone result (IsLooseAt model.now (bounds_of self.old) var) }
    {
        reasons_stay();
        let _root = self.rows.root();
        let (least, greatest) = self.bounds().range(var);
        if greatest <= least {
            return None;
        }
        if self.is_closed_part(model, var, &(least, least)) {
            return Some((least, Side::Left));
        }
        if self.is_closed_part(model, var, &(greatest, greatest)) {
            return Some((greatest - 1, Side::Right));
        }
        None
    }

    /// Whether the kept box with this range of the variable has a reason.
    fn is_closed_part(&mut self, model: &Model, var: VarId, range: &(i64, i64)) -> bool
        requires kept { IsKeptOf model.now self.old }
        requires change { IsChange (root_of model.now) var range.now }
        ensures kept { IsKeptOf model.now self.new }
        ensures same { bounds_of self.new ≡ bounds_of self.old }
        ensures exact { IsClosedPart model.now (slice_set (bounds_of self.old) var range.now) result }
    {
        let _root = self.rows.root();
        let before = self.bounds().range(var);
        self.set(model, var, range);
        let reason = self.closed(model);
        self.set(model, var, &before);
        reason.is_some()
    }
}
