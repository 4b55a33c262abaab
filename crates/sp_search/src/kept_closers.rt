//! What closes the box in hand, by what is kept over it: the same answers as without.

ghost use Rattle.std.specs.Prelude.{◌≡◌, ◌↔◌, ◌<◌, ◌≤◌, IfSome, IsTrue, MatchOption, Some, length};
ghost use Rattle.sp_model.specs.Boxes.{Bounds};
ghost use Rattle.sp_model.specs.Models.{root_of};
ghost use Rattle.sp_sums.specs.Ranges.{IsInside};
ghost use Rattle.sp_tree.specs.Tables.{IsPrefix};
ghost use Rattle.sp_bound.specs.KeptBounds.{IsKeptOf as AreBoundsOf};
ghost use Rattle.sp_bound.specs.StatedLists.{stated_lists};
ghost use Rattle.sp_search.specs.InnerAims.{threshold_of};
ghost use Rattle.sp_cursor.specs.Cursors.{IsHand};
ghost use Rattle.sp_search.specs.States.{AreStated};
ghost use Rattle.sp_cover.specs.Moves.{IsPast};
ghost use Rattle.sp_cover.specs.Numbers.{least_objective};
ghost use Rattle.sp_search.specs.Steps.{ClosesAs, IsFitFor, IsPastList, IsUnclosed, IsUnlisted, aim_of};

use crate::closers::{closing_list, past_list, past_number, screen_of};
use crate::goals::Goal;
use sp_bound::{KeptBounds, Scratch, stated_lists_are_lists};
use sp_cover::{Aim, Search};
use sp_cursor::Hand;
use sp_dual::Multipliers;
use sp_model::{BoxOf, Model};
use sp_tree::{Bound, Kind};

fn is_same(left: &Option<i128>, right: &Option<i128>) -> bool
    ensures { IsTrue result ↔ (left.now ≡ right.now) }
{
    match left {
        None => match right {
            None => true,
            Some(_) => false,
        },
        Some(value) => match right {
            None => false,
            Some(other) => *value == *other,
        },
    }
}

/// Sets another threshold, where it is another one.
fn put_threshold(model: &Model, kept: &mut KeptBounds, threshold: &Option<i128>)
    requires { AreBoundsOf model.now kept.old }
    ensures kept { AreBoundsOf model.now kept.new }
    ensures bounds { kept.new.sums.bounds ≡ kept.old.sums.bounds }
    ensures threshold { kept.new.threshold ≡ threshold.now }
{
    if !is_same(&kept.threshold, threshold) {
        kept.set_threshold(model, threshold);
    }
}

/// Sets the threshold of the aim, and answers whether it fits 128 bits.
fn aim_lists(model: &Model, kept: &mut KeptBounds, aim: &Aim, best: &Option<i128>) -> bool
    requires { AreBoundsOf model.now kept.old }
    ensures kept { AreBoundsOf model.now kept.new }
    ensures bounds { kept.new.sums.bounds ≡ kept.old.sums.bounds }
    ensures threshold { IsTrue result → kept.new.threshold ≡ threshold_of aim.now best.now }
{
    match aim {
        Aim::Collect { cut } => {
            put_threshold(model, kept, &Some(*cut));
            true
        }
        Aim::Improve => match best {
            None => {
                put_threshold(model, kept, &None);
                true
            }
            Some(value) => match value.checked_sub(1) {
                None => false,
                Some(below) => {
                    put_threshold(model, kept, &Some(below));
                    true
                }
            },
        },
    }
}

/// The same for what is in hand.
pub fn aim_at(model: &Model, hand: &mut Hand, aim: &Aim, best: &Option<i128>) -> bool
    requires { AreBoundsOf model.now hand.old.lists }
    ensures hand { (b : Bounds) → IsHand model.now hand.old b → IsHand model.now hand.new b }
    ensures threshold { IsTrue result → hand.new.lists.threshold ≡ threshold_of aim.now best.now }
{
    aim_lists(model, &mut hand.lists, aim, best)
}

/// The number of the empty list over the box.
fn zero_number(model: &Model, bounds: &BoxOf, hand: &Hand) -> Option<i128>
    requires hand { IsHand model.now hand.now bounds.now }
    requires inside { IsInside (root_of model.now) bounds.now }
    ensures { result ≡ Some (least_objective model.now bounds.now) }
{
    Some(hand.least_objective(model, bounds))
}

/// The empty list's number over the box, where it is past the aim.
fn past_zero(
    model: &Model,
    lists: &[Multipliers],
    aim: &Aim,
    best: &Option<i128>,
    bounds: &BoxOf,
    hand: &Hand,
) -> Option<Bound>
    requires hand { IsHand model.now hand.now bounds.now }
    requires inside { IsInside (root_of model.now) bounds.now }
    requires front { IsPrefix (stated_lists model.now) lists.now }
    requires filled { 0 < length lists.now }
    ensures { MatchOption result
        (¬ IsPast aim.now best.now (least_objective model.now bounds.now))
        (λ bound. IsPastList model.now lists.now aim.now best.now bounds.now bound.by bound.least) }
{
    let _lists = lists;
    let _parts = model.parts();
    stated_lists_are_lists();
    let number = zero_number(model, bounds, hand);
    past_number(&number, aim, best, 0)
}

/// A list with a row of its own whose number over the box is past the aim, if one is known at once.
fn past_row(
    model: &Model,
    lists: &[Multipliers],
    aim: &Aim,
    best: &Option<i128>,
    bounds: &BoxOf,
    hand: &Hand,
) -> Option<Bound>
    requires hand { IsHand model.now hand.now bounds.now }
    requires front { IsPrefix (stated_lists model.now) lists.now }
    ensures { IfSome result (λ bound. IsPastList model.now lists.now aim.now best.now bounds.now bound.by bound.least) }
{
    let _parts = model.parts();
    let _bounds = bounds;
    stated_lists_are_lists();
    match hand.lists.row_closing(model) {
        None => None,
        Some((place, number)) => {
            if lists.len() <= place as usize || lists[place as usize].entries().is_empty() {
                return None;
            }
            past_number(&number, aim, best, place)
        }
    }
}

/// A stated list whose number over the box is past the aim, where the empty list's isn't.
fn past_kept(
    model: &Model,
    lists: &[Multipliers],
    stated: u32,
    aim: &Aim,
    best: &Option<i128>,
    bounds: &BoxOf,
    hand: &Hand,
    scratch: &mut Scratch,
) -> Option<Bound>
    requires hand { IsHand model.now hand.now bounds.now }
    requires threshold { hand.now.lists.threshold ≡ threshold_of aim.now best.now }
    requires low { ¬ IsPast aim.now best.now (least_objective model.now bounds.now) }
    requires inside { IsInside (root_of model.now) bounds.now }
    requires front { IsPrefix (stated_lists model.now) lists.now }
    requires count { stated ≡ length (stated_lists model.now) }
    requires within { stated ≤ length lists.now }
    ensures { MatchOption result
        (IsUnlisted model.now aim.now best.now bounds.now)
        (λ bound. IsPastList model.now lists.now aim.now best.now bounds.now bound.by bound.least) }
{
    match past_row(model, lists, aim, best, bounds, hand) {
        Some(bound) => return Some(bound),
        None => {}
    }
    match hand.lists.closing(model) {
        None => None,
        Some(place) => match past_list(model, lists, place, aim, best, bounds, scratch) {
            Some(bound) => Some(bound),
            // The list at the place is past: it isn't looked for among the others.
            None => closing_list(model, lists, stated, aim, best, bounds, scratch),
        },
    }
}

/// A stated list whose number over the box is past the aim.
fn listed(
    model: &Model,
    lists: &[Multipliers],
    stated: u32,
    aim: &Aim,
    best: &Option<i128>,
    bounds: &BoxOf,
    hand: &Hand,
    scratch: &mut Scratch,
) -> Option<Bound>
    requires hand { IsHand model.now hand.now bounds.now }
    requires threshold { hand.now.lists.threshold ≡ threshold_of aim.now best.now }
    requires inside { IsInside (root_of model.now) bounds.now }
    requires front { IsPrefix (stated_lists model.now) lists.now }
    requires count { stated ≡ length (stated_lists model.now) }
    requires within { stated ≤ length lists.now }
    requires filled { 0 < length lists.now }
    ensures { MatchOption result
        (IsUnlisted model.now aim.now best.now bounds.now)
        (λ bound. IsPastList model.now lists.now aim.now best.now bounds.now bound.by bound.least) }
{
    match past_zero(model, lists, aim, best, bounds, hand) {
        Some(bound) => Some(bound),
        None => past_kept(model, lists, stated, aim, best, bounds, hand, scratch),
    }
}

/// A stated list whose number over the box is past the aim: by what is kept where its threshold is the aim's.
fn listed_at(
    model: &Model,
    search: &Search,
    stated: u32,
    aim: &Aim,
    bounds: &BoxOf,
    hand: &Hand,
    is_aimed: bool,
    scratch: &mut Scratch,
) -> Option<Bound>
    requires hand { IsHand model.now hand.now bounds.now }
    requires threshold { IsTrue is_aimed → hand.now.lists.threshold ≡ threshold_of aim.now search.now.best }
    requires inside { IsInside (root_of model.now) bounds.now }
    requires stated { AreStated model.now search.now stated }
    requires table { stated ≤ length search.now.tree.lists }
    ensures { MatchOption result
        (IsUnlisted model.now aim.now search.now.best bounds.now)
        (λ bound. IsPastList model.now search.now.tree.lists aim.now search.now.best bounds.now bound.by bound.least) }
{
    let lists = search.tree().multipliers();
    let best = search.best();
    if is_aimed {
        listed(model, lists, stated, aim, best, bounds, hand, scratch)
    } else {
        closing_list(model, lists, stated, aim, best, bounds, scratch)
    }
}

/// What closes the box in hand, looked for in the order of `closing_kind`.
pub fn kept_kind(
    model: &Model,
    search: &Search,
    stated: u32,
    goal: &Goal<'_>,
    aim: &Aim,
    bounds: &BoxOf,
    hand: &Hand,
    is_aimed: bool,
    scratch: &mut Scratch,
) -> Option<Kind>
    requires hand { IsHand model.now hand.now bounds.now }
    requires aim { aim.now ≡ aim_of goal.now }
    requires threshold { IsTrue is_aimed → hand.now.lists.threshold ≡ threshold_of aim.now search.now.best }
    requires inside { IsInside (root_of model.now) bounds.now }
    requires stated { AreStated model.now search.now stated }
    requires table { stated ≤ length search.now.tree.lists }
    requires fit { IsFitFor model.now goal.now }
    ensures { MatchOption result
        (IsUnclosed model.now search.now goal.now bounds.now)
        (λ kind. ClosesAs model.now search.now goal.now bounds.now kind) }
{
    match hand.truths.closed(model) {
        Some(reason) => Some(Kind::Dead(reason)),
        None => match screen_of(model, goal, bounds) {
            Some(filter) => Some(Kind::Screened(filter)),
            None => match listed_at(model, search, stated, aim, bounds, hand, is_aimed, scratch) {
                Some(bound) => Some(Kind::Bounded(bound)),
                None => None,
            },
        },
    }
}
