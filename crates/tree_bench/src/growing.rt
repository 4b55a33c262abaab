//! Trees of many nodes.

ghost use Rattle.std.specs.Prelude.{◌≡◌, IfSome};
ghost use Rattle.sp_model.specs.Boxes.{CanSplit, above};
ghost use Rattle.sp_tree.specs.Splits.{box_at};

use crate::calls::{is_divided, is_node_divided, is_open};
use sp_model::{BoxOf, VarId};
use sp_tree::{Bound, Kind, NodeId, Tree};
use std::alloc::Global;

/// A node with its box.
#[derive(Drop)]
struct Last {
    id: NodeId,
    bounds: BoxOf,
}

/// The right part of a box; `None` where there is no memory.
fn right_of(alloc: Global, bounds: &BoxOf, var: VarId, at: i64) -> Option<BoxOf>
    requires { CanSplit bounds.now var at }
    ensures { IfSome result (λ b. b ≡ above bounds.now var at) }
{
    match bounds.split(alloc, var, at) {
        Ok((_, right)) => Some(right),
        Err(_) => None,
    }
}

/// Splits a node at a value of the first variable, and answers its right node; `None` where it can't be split.
fn split_last(alloc: Global, tree: &mut Tree, last: &Last, at: i64) -> Option<Last>
    requires { last.now.bounds ≡ box_at tree.old.boxes last.now.id }
    ensures { IfSome result (λ l. l.bounds ≡ box_at tree.new.boxes l.id) }
{
    let var = VarId::new(0);
    if !is_open(tree, last.id) {
        return None;
    }
    if !is_divided(&last.bounds, var, at) {
        return None;
    }
    let bounds = right_of(alloc, &last.bounds, var, at)?;
    let _size = tree.size();
    match tree.split(last.id, var, at, u32::MAX) {
        Ok((_, id)) => Some(Last { id, bounds }),
        Err(_) => None,
    }
}

/// Splits the last node of a tree again and again: each split but the last has a leaf on its left. Answers how often.
pub fn chain(alloc: Global, tree: &mut Tree, count: u32) -> u32 {
    let id = NodeId::new(0);
    if tree.size() == 0 {
        return 0;
    }
    let Ok(bounds) = tree.box_of(id) else {
        return 0;
    };
    let mut last = Last { id, bounds };
    for at in 0..count {
        match split_last(alloc, tree, &last, i64::from(at)) {
            Some(next) => last = next,
            None => return at,
        }
    }
    count
}

/// The right part of a box at a value of the first variable; `None` where it can't be split there.
fn next_box(alloc: Global, bounds: &BoxOf, at: i64) -> Option<BoxOf> {
    let var = VarId::new(0);
    if is_divided(bounds, var, at) {
        right_of(alloc, bounds, var, at)
    } else {
        None
    }
}

/// Splits boxes alone as `chain` does.
pub fn boxes(alloc: Global, tree: &Tree, count: u32) -> u32 {
    if tree.size() == 0 {
        return 0;
    }
    let Ok(mut last) = tree.box_of(NodeId::new(0)) else {
        return 0;
    };
    for at in 0..count {
        match next_box(alloc, &last, i64::from(at)) {
            Some(next) => last = next,
            None => return at,
        }
    }
    count
}

/// Splits the first open leaf again and again, each at its depth's variable. Answers how often.
pub fn full(tree: &mut Tree, count: u32) -> u32 {
    for done in 0..count {
        if !split_first(tree) {
            return done;
        }
    }
    count
}

/// Splits the first open leaf at 0 of its depth's variable, and answers whether it did.
fn split_first(tree: &mut Tree) -> bool {
    let Some(id) = tree.open_leaf() else {
        return false;
    };
    let var = VarId::new(id.place().saturating_add(1).checked_ilog2().unwrap_or(0));
    if !is_node_divided(tree, id, var, 0) {
        return false;
    }
    tree.split(id, var, 0, u32::MAX).is_ok()
}

/// Closes the first open leaf as bounded by the list without entries, and answers whether it did.
fn close_first(tree: &mut Tree) -> bool {
    let Some(id) = tree.open_leaf() else {
        return false;
    };
    if tree.multipliers().is_empty() {
        return false;
    }
    tree.close(id, Kind::Bounded(Bound { by: 0, least: 0 }));
    true
}

/// Closes each open leaf, and answers how many there were.
pub fn close_all(tree: &mut Tree) -> u32 {
    let size = tree.size();
    for count in 0..size {
        if !close_first(tree) {
            return count;
        }
    }
    size
}

/// Asks for the box of a node, and answers whether it came.
fn has_box(tree: &Tree, place: u32) -> bool {
    if place < tree.size() {
        tree.box_of(NodeId::new(place)).is_ok()
    } else {
        false
    }
}

/// Asks for the box of a node, then of the one so many places behind it, and so on, so often. Answers how many there
/// were.
pub fn ask(tree: &Tree, first: u32, step: u32, rounds: u32) -> u32 {
    let mut count = 0u32;
    for round in 0..rounds {
        if has_box(tree, first.saturating_add(step.saturating_mul(round))) {
            count = count.saturating_add(1);
        }
    }
    count
}
