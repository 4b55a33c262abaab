//! What closes a box by a hint: the number of a list that the table has, taken exactly.

ghost use Rattle.std.specs.Prelude.{IfSome, MatchOption};
ghost use Rattle.sp_model.specs.Models.{root_of};
ghost use Rattle.sp_sums.specs.Ranges.{IsInside};
ghost use Rattle.sp_search.specs.Steps.{ClosesAs, IsPastList, IsUnclosed, aim_of};

use crate::closers::{aim_of, number_of, past_number};
use crate::goals::Goal;
use sp_bound::{Scratch, are_rows_known};
use sp_cover::{Aim, Search};
use sp_dual::Multipliers;
use sp_model::{BoxOf, Model};
use sp_tree::{Bound, Kind};

/// The number of the list at a place over the box, where there is such a list and its number is past the aim.
fn past_hinted(
    model: &Model,
    lists: &[Multipliers],
    place: u32,
    aim: &Aim,
    best: &Option<i128>,
    bounds: &BoxOf,
    scratch: &mut Scratch,
) -> Option<Bound>
    requires { IsInside (root_of model.now) bounds.now }
    ensures { IfSome result (λ bound. IsPastList model.now lists.now aim.now best.now bounds.now bound.by bound.least) }
{
    if lists.len() <= place as usize {
        return None;
    }
    let list = &lists[place as usize];
    let _entries = list.entries();
    if !are_rows_known(model, list) {
        return None;
    }
    let number = number_of(model, bounds, list, scratch);
    past_number(&number, aim, best, place)
}

/// What a hint says that closes the box, if that holds.
fn hinted_kind(
    model: &Model,
    search: &Search,
    goal: &Goal<'_>,
    bounds: &BoxOf,
    hint: &Option<u32>,
    scratch: &mut Scratch,
) -> Option<Kind>
    requires { IsInside (root_of model.now) bounds.now }
    ensures { IfSome result (λ kind. ClosesAs model.now search.now goal.now bounds.now kind) }
{
    match hint {
        None => None,
        Some(place) => {
            let lists = search.tree().multipliers();
            let aim = aim_of(goal);
            match past_hinted(model, lists, *place, &aim, search.best(), bounds, scratch) {
                None => None,
                Some(bound) => Some(Kind::Bounded(bound)),
            }
        }
    }
}

/// What closes the box, else what a hint says that closes it.
pub fn kind_or_hinted(
    model: &Model,
    search: &Search,
    goal: &Goal<'_>,
    bounds: &BoxOf,
    kind: Option<Kind>,
    hint: &Option<u32>,
    scratch: &mut Scratch,
) -> Option<Kind>
    requires inside { IsInside (root_of model.now) bounds.now }
    requires kind { MatchOption kind
        (IsUnclosed model.now search.now goal.now bounds.now)
        (λ k. ClosesAs model.now search.now goal.now bounds.now k) }
    ensures { MatchOption result
        (IsUnclosed model.now search.now goal.now bounds.now)
        (λ k. ClosesAs model.now search.now goal.now bounds.now k) }
{
    match kind {
        Some(kind) => Some(kind),
        None => hinted_kind(model, search, goal, bounds, hint, scratch),
    }
}
