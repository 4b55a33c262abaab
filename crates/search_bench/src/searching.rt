//! Searches, with the open leaves in the usual order or in a random one.

ghost use Rattle.std.specs.Prelude.{IfOk, IfSome};
ghost use Rattle.sp_cover.specs.Cover.{IsOpenAt};
ghost use Rattle.sp_search.specs.States.{HasCursor};

use crate::inputs::{Order, Task};
use sp_advice::NO_HINTS;
use sp_cursor::Cursor;
use sp_model::NoMemory;
use sp_search::{Goal, OptEnd, State, optimize, step};
use sp_tree::{NodeId, Tree};

/// A random number for each round: the factor of the congruence of MMIX twice, with the upper half mixed in between.
fn random_of(seed: u32, round: u64) -> u64 {
    let first = u64::from(seed)
        .wrapping_mul(1_442_695_040_888_963_407)
        .wrapping_add(round)
        .wrapping_mul(6_364_136_223_846_793_005);
    (first ^ (first >> 32)).wrapping_mul(6_364_136_223_846_793_005)
}

/// A random place in a tree of so many nodes.
fn place_of(random: u64, size: u32) -> u32 {
    u32::try_from(random >> 33)
        .unwrap_or(0)
        .checked_rem(size)
        .unwrap_or(0)
}

/// The first open leaf at a place or behind it.
fn open_from(tree: &Tree, place: u32) -> Option<NodeId>
    ensures { IfSome result (IsOpenAt tree.now.nodes) }
{
    for next in place..tree.size() {
        let node = NodeId::new(next);
        if tree.node(node).is_open() {
            return Some(node);
        }
    }
    None
}

/// An open leaf near a random place, none where no leaf is open.
fn random_leaf(tree: &Tree, random: u64) -> Option<NodeId>
    ensures { IfSome result (IsOpenAt tree.now.nodes) }
{
    match open_from(tree, place_of(random, tree.size())) {
        Some(node) => Some(node),
        None => tree.open_leaf(),
    }
}

/// Works without hints on open leaves in a random order until none is left, or one can't be worked on within the limit.
fn take_steps(state: &mut State, cursor: &mut Option<Cursor>, task: &Task) -> Result<(), NoMemory>
    requires { HasCursor state.old cursor.old }
{
    for round in 0..u64::MAX {
        match random_leaf(state.tree(), random_of(task.seed, round)) {
            None => return Ok(()),
            Some(node) => {
                let stepped = step(state, cursor, &NO_HINTS, node, &Goal::Improve, task.limit)?;
                if stepped.is_full() {
                    return Ok(());
                }
            }
        }
    }
    Ok(())
}

/// What a state says of how phase one ended.
fn end_of(state: &State) -> OptEnd {
    if state.proved() {
        match state.best() {
            None => OptEnd::Infeasible,
            Some(_) => OptEnd::Optimal,
        }
    } else {
        OptEnd::NodeLimit
    }
}

/// The cursor that the task asks for: none where boxes come from the tree.
fn first_cursor(state: &State, task: &Task) -> Result<Option<Cursor>, NoMemory>
    ensures { IfOk result (λ cursor. HasCursor state.now cursor) }
{
    match task.order {
        Order::ByCursor => state.cursor(),
        _ => Ok(None),
    }
}

/// Owns the cursor of the steps.
fn search_at_random(state: &mut State, task: &Task) -> Result<(), NoMemory> {
    let mut cursor = first_cursor(state, task)?;
    take_steps(state, &mut cursor, task)
}

/// Searches as the task says, and answers how that ended.
pub fn search(state: &mut State, task: &Task) -> Result<OptEnd, NoMemory> {
    match task.order {
        Order::Usual | Order::Told => return optimize(state, task.limit),
        _ => search_at_random(state, task)?,
    }
    Ok(end_of(state))
}
