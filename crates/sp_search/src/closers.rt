//! What closes a box: a reason, a held filter, or the bound of a stated list.

ghost use Rattle.std.specs.Prelude.{◌≡◌, ◌<◌, ◌≤◌, ◌^◌, ◌+ℤ◌, ℕ, ℤ, Some, length, unsigned_abs, IfNone, IfSome, MatchOption};
ghost use Rattle.sp_model.specs.Boxes.{CanSplit, range_at};
ghost use Rattle.sp_model.specs.Models.{root_of};
ghost use Rattle.sp_sums.specs.Ranges.{IsInside};
ghost use Rattle.sp_activity.specs.Within.{IsUnder};
ghost use Rattle.sp_cover.specs.Numbers.{least_objective, number_of};
ghost use Rattle.sp_search.specs.States.{AreFit, AreStated};
ghost use Rattle.sp_tree.specs.Tables.{IsPrefix, list_at};
ghost use Rattle.sp_cover.specs.Moves.{IsPast};
ghost use Rattle.sp_search.specs.InnerSteps.{IsNotPast, IsPastNumber};
ghost use Rattle.sp_bound.specs.Bounds.{AreRowsKnown};
ghost use Rattle.sp_bound.specs.StatedLists.{stated_lists};
ghost use Rattle.sp_search.specs.Steps.{ClosesAs, IsFitFor, IsPastList, IsScreenFor, IsScreenOf, IsUnclosed, IsUnlisted, IsUnscreened, IsUnscreenedFor, aim_of};

use crate::goals::Goal;
use sp_activity::closed;
use sp_bound::{Scratch, bound, bound_in, stated_lists_are_lists};
use sp_cover::{Aim, Search, is_past};
use sp_cursor::least_objective;
use sp_dual::Multipliers;
use sp_filter::{FilterId, Filters, fitting_filters_are_narrow, narrow_filters_stay_narrow};
use sp_model::{BoxOf, Model, VarId, root_is_short};
use sp_tree::{Bound, Kind};

/// The aim of a goal.
pub fn aim_of(goal: &Goal<'_>) -> Aim
    ensures { result ≡ aim_of goal.now }
{
    match goal {
        Goal::Improve => Aim::Improve,
        Goal::Collect { cut, filters: _ } => Aim::Collect { cut: *cut },
    }
}

/// The number that a list gives over a box, if it gives one.
pub fn number_of(
    model: &Model,
    bounds: &BoxOf,
    list: &Multipliers,
    scratch: &mut Scratch,
) -> Option<i128>
    requires known { AreRowsKnown model.now list.now }
    requires inside { IsInside (root_of model.now) bounds.now }
    ensures { result ≡ number_of model.now bounds.now list.now }
{
    if list.entries().is_empty() {
        Some(least_objective(model, bounds))
    } else if scratch.suits(model) {
        bound_in(model, bounds, list, scratch)
    } else {
        bound(model, bounds, list)
    }
}

/// The number of the list at a place, where there is one, as a bound, where it is past the aim.
pub fn past_number(
    number: &Option<i128>,
    aim: &Aim,
    best: &Option<i128>,
    place: u32,
) -> Option<Bound>
    ensures { MatchOption result
        ((v : ℤ) → number.now ≡ Some v → ¬ IsPast aim.now best.now v)
        (IsPastNumber number.now aim.now best.now place) }
{
    match number {
        Some(least) => {
            if is_past(aim, best, least) {
                Some(Bound {
                    by: place,
                    least: *least,
                })
            } else {
                None
            }
        }
        None => None,
    }
}

/// The number of the stated list at a place over the box, where it is past the aim.
pub fn past_list(
    model: &Model,
    lists: &[Multipliers],
    place: u32,
    aim: &Aim,
    best: &Option<i128>,
    bounds: &BoxOf,
    scratch: &mut Scratch,
) -> Option<Bound>
    requires front { IsPrefix (stated_lists model.now) lists.now }
    requires known { place < length (stated_lists model.now) }
    requires within { place < length lists.now }
    requires inside { IsInside (root_of model.now) bounds.now }
    ensures { MatchOption result
        (IsNotPast model.now (list_at lists.now place) aim.now best.now bounds.now)
        (λ bound. IsPastList model.now lists.now aim.now best.now bounds.now bound.by bound.least) }
{
    let _parts = model.parts();
    stated_lists_are_lists();
    let number = number_of(model, bounds, &lists[place as usize], scratch);
    past_number(&number, aim, best, place)
}

/// The first of the stated lists whose number over the box is past the aim.
pub fn closing_list(
    model: &Model,
    lists: &[Multipliers],
    stated: u32,
    aim: &Aim,
    best: &Option<i128>,
    bounds: &BoxOf,
    scratch: &mut Scratch,
) -> Option<Bound>
    requires front { IsPrefix (stated_lists model.now) lists.now }
    requires count { stated ≡ length (stated_lists model.now) }
    requires within { stated ≤ length lists.now }
    requires inside { IsInside (root_of model.now) bounds.now }
    ensures { MatchOption result
        (IsUnlisted model.now aim.now best.now bounds.now)
        (λ bound. IsPastList model.now lists.now aim.now best.now bounds.now bound.by bound.least) }
{
    for place in 0..stated {
        match past_list(model, lists, place, aim, best, bounds, scratch) {
            Some(bound) => return Some(bound),
            None => {}
        }
    }
    None
}

/// The first held filter that closes the box.
fn closing_filter(model: &Model, filters: &Filters, bounds: &BoxOf) -> Option<FilterId>
    requires inside { IsInside (root_of model.now) bounds.now }
    requires fit { AreFit model.now filters.now }
    ensures { MatchOption result
        (IsUnscreened filters.now bounds.now)
        (IsScreenOf filters.now bounds.now) }
{
    let held = filters.held();
    let _parts = model.parts();
    root_is_short();
    fitting_filters_are_narrow();
    narrow_filters_stay_narrow();
    for place in 0..held.len() {
        if held[place].filter.closed(bounds) {
            return Some(held[place].id);
        }
    }
    None
}

/// The held filter that closes the box, where the goal looks at filters.
pub fn screen_of(model: &Model, goal: &Goal<'_>, bounds: &BoxOf) -> Option<FilterId>
    requires inside { IsInside (root_of model.now) bounds.now }
    requires fit { IsFitFor model.now goal.now }
    ensures { MatchOption result (IsUnscreenedFor goal.now bounds.now) (IsScreenFor goal.now bounds.now) }
{
    match goal {
        Goal::Improve => None,
        Goal::Collect { cut: _, filters } => closing_filter(model, filters, bounds),
    }
}

/// What closes the box: a reason, a held filter, or the bound of a stated list, looked for in this order.
pub fn closing_kind(
    model: &Model,
    search: &Search,
    stated: u32,
    goal: &Goal<'_>,
    bounds: &BoxOf,
    scratch: &mut Scratch,
) -> Option<Kind>
    requires under { IsUnder (root_of model.now) bounds.now }
    requires stated { AreStated model.now search.now stated }
    requires table { stated ≤ length search.now.tree.lists }
    requires fit { IsFitFor model.now goal.now }
    ensures { MatchOption result
        (IsUnclosed model.now search.now goal.now bounds.now)
        (λ kind. ClosesAs model.now search.now goal.now bounds.now kind) }
{
    match closed(model, bounds) {
        Some(reason) => Some(Kind::Dead(reason)),
        None => match screen_of(model, goal, bounds) {
            Some(filter) => Some(Kind::Screened(filter)),
            None => {
                let aim = aim_of(goal);
                match closing_list(
                    model,
                    search.tree().multipliers(),
                    stated,
                    &aim,
                    search.best(),
                    bounds,
                    scratch,
                ) {
                    Some(bound) => Some(Kind::Bounded(bound)),
                    None => None,
                }
            }
        },
    }
}

/// A place where the box can be split, if it has more than one point.
fn wide_place(bounds: &BoxOf) -> Option<(VarId, i64)>
    requires { length bounds.now < 2 ^ 32 }
    ensures some { IfSome result (λ r. CanSplit bounds.now r.0 r.1) }
    ensures none { IfNone result ((j : ℕ) → ¬ CanSplit bounds.now j (range_at bounds.now j).0) }
{
    for place in 0..bounds.len() {
        let var = VarId::new(place as u32);
        let range = bounds.range(var);
        if bounds.can_split(var, range.0) {
            return Some((var, range.0));
        }
    }
    None
}

/// The place of a hint where the box can be split there, else another such place.
pub fn hinted_place(hint: &Option<(VarId, i64)>, bounds: &BoxOf) -> Option<(VarId, i64)>
    requires { length bounds.now < 2 ^ 32 }
    ensures some { IfSome result (λ r. CanSplit bounds.now r.0 r.1) }
    ensures none { IfNone result ((j : ℕ) → ¬ CanSplit bounds.now j (range_at bounds.now j).0) }
{
    match hint {
        Some(place) => {
            if bounds.can_split(place.0, place.1) {
                return Some(*place);
            }
        }
        None => {}
    }
    wide_place(bounds)
}
