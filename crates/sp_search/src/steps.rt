//! A step on an open leaf: it is closed, its point is found, it is split, or the tree is full.

ghost use Rattle.std.specs.Prelude.{◌≡◌, ◌⊎◌, ◌^◌, ◌<◌, length, true, IfOk, IfSome, MatchOption, OnErr};
ghost use Rattle.sp_model.specs.Boxes.{CanSplit};
ghost use Rattle.sp_model.specs.Models.{root_of};
ghost use Rattle.sp_sums.specs.Ranges.{IsInside, IsPointBox};
ghost use Rattle.sp_activity.specs.Order.{IsOpen as IsUnreasoned};
ghost use Rattle.sp_activity.specs.Within.{IsUnder};
ghost use Rattle.sp_filter.specs.Held.{FilterList};
ghost use Rattle.sp_tree.specs.Laws.{Extends};
ghost use Rattle.sp_cover.specs.Cover.{AreScreened, IsOpenAt, IsShut};
ghost use Rattle.sp_cursor.specs.Cursors.{IsCursorOf};
ghost use Rattle.sp_search.specs.InnerSteps.{AreSingle, IsDone, IsOnly, IsReady, IsWorked};
ghost use Rattle.sp_search.specs.States.{HasCursor, IsCovered, IsState, with_search};
ghost use Rattle.sp_search.specs.Steps.{AreGoalFilters, ClosesAs, FitsGoal, IsUnclosed, Steps};

use crate::advised::kind_or_hinted;
use crate::closers::{aim_of, closing_kind, hinted_place};
use crate::goals::{Goal, Stepped};
use crate::kept_closers::{aim_at, kept_kind};
use crate::states::State;
use sp_activity::open_points_are_feasible;
use sp_advice::Hints;
use sp_bound::Scratch;
use sp_cover::{Aim, Search, found_points_are_few};
use sp_cursor::{Cursor, Look, cursors_last, place_hint};
use sp_list::Found;
use sp_model::{BoxOf, Model, NoMemory, Point, VarId, root_is_short, split_divides_count};
use sp_sums::sums_meet_at_a_point;
use sp_tree::{Kind, NodeId, SplitRefusal, extensions_last, trees_divide};
use std::alloc::Global;

/// The one point of a box whose ranges are single numbers.
fn only_point(alloc: Global, bounds: &BoxOf) -> Result<Point, NoMemory>
    requires { AreSingle bounds.now }
    ensures { IfOk result (IsPointBox bounds.now) }
{
    let values = Vec::from_slice(alloc, bounds.lower.as_slice())?;
    Ok(Point::from_vec(values))
}

/// The one point of a box without a reason, with its objective.
fn only_found(alloc: Global, model: &Model, bounds: &BoxOf) -> Result<Found, NoMemory>
    requires inside { IsInside (root_of model.now) bounds.now }
    requires under { IsUnder (root_of model.now) bounds.now }
    requires unreasoned { IsUnreasoned model.now bounds.now }
    requires single { AreSingle bounds.now }
    ensures { IfOk result (IsOnly model.now bounds.now) }
{
    let _parts = model.parts();
    open_points_are_feasible();
    let point = only_point(alloc, bounds)?;
    let value = model.value(&point);
    Ok(Found { point, value })
}

/// Finds the one point of an open leaf that nothing closes.
fn find_only(
    alloc: Global,
    model: &Model,
    search: &mut Search,
    stated: u32,
    bounds: &BoxOf,
    node: NodeId,
    goal: &Goal<'_>,
    node_limit: u32,
) -> Result<Stepped, NoMemory>
    requires ready { IsReady model.now search.old stated bounds.now node goal.now }
    requires unclosed { IsUnclosed model.now search.old goal.now bounds.now }
    requires single { AreSingle bounds.now }
    ensures done { IsDone model.now search.old search.new goal.now node node_limit result }
    ensures screened { (fs : FilterList) → AreGoalFilters goal.now fs → AreScreened fs search.old.tree
        → AreScreened fs search.new.tree }
{
    found_points_are_few();
    sums_meet_at_a_point();
    let found = only_found(alloc, model, bounds)?;
    let _size = search.tree().size();
    let serial = search.found().len() as u32 + 1;
    search.find(node, found)?;
    Ok(Stepped::Found(serial))
}

/// Splits an open leaf that nothing closes.
fn split_wide(
    model: &Model,
    search: &mut Search,
    stated: u32,
    bounds: &BoxOf,
    node: NodeId,
    goal: &Goal<'_>,
    place: &(VarId, i64),
    node_limit: u32,
) -> Result<Stepped, NoMemory>
    requires ready { IsReady model.now search.old stated bounds.now node goal.now }
    requires unclosed { IsUnclosed model.now search.old goal.now bounds.now }
    requires lawful { CanSplit bounds.now place.now.0 place.now.1 }
    ensures done { IsDone model.now search.old search.new goal.now node node_limit result }
    ensures screened { (fs : FilterList) → AreGoalFilters goal.now fs → AreScreened fs search.old.tree
        → AreScreened fs search.new.tree }
{
    let _parts = model.parts();
    split_divides_count();
    match search.split(node, place.0, &place.1, node_limit) {
        Ok(_) => Ok(Stepped::Split),
        Err(SplitRefusal::NodeLimit) => Ok(Stepped::Full),
        Err(SplitRefusal::NoMemory) => Err(NoMemory),
    }
}

/// Does with an open leaf what its box asks for: what closes it, if anything does, and a hint where to split it else.
fn advance(
    alloc: Global,
    model: &Model,
    search: &mut Search,
    stated: u32,
    bounds: &BoxOf,
    kind: Option<Kind>,
    hint: &Option<(VarId, i64)>,
    node: NodeId,
    goal: &Goal<'_>,
    node_limit: u32,
) -> Result<Stepped, NoMemory>
    requires ready { IsReady model.now search.old stated bounds.now node goal.now }
    requires kind { MatchOption kind
        (IsUnclosed model.now search.old goal.now bounds.now)
        (λ k. ClosesAs model.now search.old goal.now bounds.now k) }
    requires short { length bounds.now < 2 ^ 32 }
    ensures done { IsDone model.now search.old search.new goal.now node node_limit result }
    ensures screened { (fs : FilterList) → AreGoalFilters goal.now fs → AreScreened fs search.old.tree
        → AreScreened fs search.new.tree }
{
    match kind {
        Some(kind) => {
            search.close(node, kind);
            Ok(Stepped::Closed)
        }
        None => match hinted_place(hint, bounds) {
            None => find_only(alloc, model, search, stated, bounds, node, goal, node_limit),
            Some(place) => split_wide(
                model, search, stated, bounds, node, goal, &place, node_limit,
            ),
        },
    }
}

/// Works on an open leaf whose box comes from the tree.
fn work_from_tree(
    alloc: Global,
    model: &Model,
    search: &mut Search,
    stated: u32,
    scratch: &mut Scratch,
    node: NodeId,
    goal: &Goal<'_>,
    node_limit: u32,
) -> Result<Stepped, NoMemory>
    requires state { IsState (record { model = model.now; search = search.old; stated = stated }) }
    requires known { IsOpenAt search.old.tree.nodes node }
    requires fits { FitsGoal goal.now (record { model = model.now; search = search.old; stated = stated }) }
    ensures done { IsDone model.now search.old search.new goal.now node node_limit result }
    ensures screened { (fs : FilterList) → AreGoalFilters goal.now fs
        → AreScreened fs search.old.tree → AreScreened fs search.new.tree }
{
    root_is_short();
    trees_divide();
    let bounds = search.tree().box_of(node)?;
    let kind = closing_kind(model, search, stated, goal, &bounds, scratch);
    advance(
        alloc, model, search, stated, &bounds, kind, &None, node, goal, node_limit,
    )
}

/// Where to split the box in hand, if nothing closes it.
fn hint_of(
    model: &Model,
    aim: &Aim,
    best: &Option<i128>,
    cursor: &Cursor,
    kind: &Option<Kind>,
    hints: &Hints,
) -> Option<(VarId, i64)> {
    match kind {
        Some(_) => None,
        None => {
            let last = match cursor.backs.as_slice().last() {
                Some(back) => Some(back.var),
                None => None,
            };
            let look = Look {
                last,
                turn: cursor.node.place(),
                forced: hints.forced,
                wanted: hints.wanted,
            };
            place_hint(model, aim, best, &cursor.hand, &look)
        }
    }
}

/// Works on an open leaf that the cursor is at.
fn work_in_hand(
    alloc: Global,
    model: &Model,
    search: &mut Search,
    stated: u32,
    cursor: &mut Cursor,
    scratch: &mut Scratch,
    hints: &Hints,
    node: NodeId,
    goal: &Goal<'_>,
    node_limit: u32,
) -> Result<Stepped, NoMemory>
    requires state { IsState (record { model = model.now; search = search.old; stated = stated }) }
    requires cursor { IsCursorOf model.now search.old.tree cursor.old }
    requires here { cursor.old.node ≡ node }
    requires known { IsOpenAt search.old.tree.nodes node }
    requires fits { FitsGoal goal.now (record { model = model.now; search = search.old; stated = stated }) }
    ensures cursor { IsCursorOf model.now search.old.tree cursor.new }
    ensures done { IsDone model.now search.old search.new goal.now node node_limit result }
    ensures screened { (fs : FilterList) → AreGoalFilters goal.now fs
        → AreScreened fs search.old.tree → AreScreened fs search.new.tree }
{
    root_is_short();
    let aim = aim_of(goal);
    let is_aimed = aim_at(model, &mut cursor.hand, &aim, search.best());
    let hand = &cursor.hand;
    let bounds = hand.truths.bounds_in(model);
    let kind = kept_kind(
        model, search, stated, goal, &aim, bounds, hand, is_aimed, scratch,
    );
    let closing = kind_or_hinted(model, search, goal, bounds, kind, &hints.closing, scratch);
    let hint = hint_of(model, &aim, search.best(), cursor, &closing, hints);
    advance(
        alloc, model, search, stated, bounds, closing, &hint, node, goal, node_limit,
    )
}

/// Works on an open leaf: with a cursor, which goes there, or else from the tree.
fn work_by(
    alloc: Global,
    model: &Model,
    search: &mut Search,
    stated: u32,
    cursor: &mut Option<Cursor>,
    scratch: &mut Scratch,
    hints: &Hints,
    node: NodeId,
    goal: &Goal<'_>,
    node_limit: u32,
) -> Result<Stepped, NoMemory>
    requires state { IsState (record { model = model.now; search = search.old; stated = stated }) }
    requires cursor { HasCursor (record { model = model.now; search = search.old; stated = stated }) cursor.old }
    requires known { IsOpenAt search.old.tree.nodes node }
    requires fits { FitsGoal goal.now (record { model = model.now; search = search.old; stated = stated }) }
    ensures cursor { HasCursor (record { model = model.now; search = search.old; stated = stated }) cursor.new }
    ensures done { IsDone model.now search.old search.new goal.now node node_limit result }
    ensures screened { (fs : FilterList) → AreGoalFilters goal.now fs
        → AreScreened fs search.old.tree → AreScreened fs search.new.tree }
{
    match cursor {
        None => work_from_tree(
            alloc, model, search, stated, scratch, node, goal, node_limit,
        ),
        Some(cursor) => {
            cursor.go(model, search.tree(), node)?;
            work_in_hand(
                alloc, model, search, stated, cursor, scratch, hints, node, goal, node_limit,
            )
        }
    }
}

/// Works on an open leaf, and ends phase one where no leaf is open any more.
fn work(
    alloc: Global,
    model: &Model,
    search: &mut Search,
    stated: u32,
    cursor: &mut Option<Cursor>,
    scratch: &mut Scratch,
    hints: &Hints,
    node: NodeId,
    goal: &Goal<'_>,
    node_limit: u32,
) -> Result<Stepped, NoMemory>
    requires state { IsState (record { model = model.now; search = search.old; stated = stated }) }
    requires cursor { HasCursor (record { model = model.now; search = search.old; stated = stated }) cursor.old }
    requires known { IsOpenAt search.old.tree.nodes node }
    requires fits { FitsGoal goal.now (record { model = model.now; search = search.old; stated = stated }) }
    ensures cursor { HasCursor (record { model = model.now; search = search.new; stated = stated }) cursor.new }
    ensures worked { IsWorked model.now search.old search.new stated goal.now node node_limit result }
    ensures screened { (fs : FilterList) → AreGoalFilters goal.now fs
        → AreScreened fs search.old.tree → AreScreened fs search.new.tree }
{
    cursors_last();
    let stepped = work_by(
        alloc, model, search, stated, cursor, scratch, hints, node, goal, node_limit,
    )?;
    search.settle();
    Ok(stepped)
}

/// Works on an open leaf: closes it, finds its one point, or splits it. Where phase one goes on and no leaf is open any
/// more, it ends. With a cursor, which goes to the leaf, it looks only at what has the variables split on the way;
/// without one the box comes from the tree. A hint names a list that may close the box, and places to split it: each is
/// tested first. After `Full` or an error the state is as before.
pub fn step(
    state: &mut State,
    cursor: &mut Option<Cursor>,
    hints: &Hints,
    node: NodeId,
    goal: &Goal<'_>,
    node_limit: u32,
) -> Result<Stepped, NoMemory>
    requires known { IsOpenAt state.old.search.tree.nodes node }
    requires fits { FitsGoal goal.now state.old }
    requires cursor { HasCursor state.old cursor.old }

    // What the answer says was done with this leaf, and nothing else.
    ensures steps { IfOk result (λ stepped.
        Steps state.old.model state.old.search state.new.search goal.now node node_limit stepped) }
    ensures rest { state.new ≡ with_search state.old state.new.search }
    ensures phase { state.new.search.proved ≡ true
        → (state.old.search.proved ≡ true) ⊎ IsShut state.new.search.tree.nodes }
    ensures memory { OnErr result (state.new ≡ state.old) }

    // The cover is kept, what was in the tree lasts, and the cursor is one of the state that is left.
    ensures covered { (fs : FilterList) → AreGoalFilters goal.now fs → IsCovered fs state.old
        → IsCovered fs state.new }
    ensures state { IsState state.new }
    ensures extends { Extends state.old.search.tree state.new.search.tree }
    ensures cursor { HasCursor state.new cursor.new }
{
    extensions_last();
    work(
        state.alloc,
        &state.model,
        &mut state.search,
        state.stated,
        cursor,
        &mut state.scratch,
        hints,
        node,
        goal,
        node_limit,
    )
}
