//! Which open leaf comes next: the last one that was put on the agenda, else the last one that was put behind all
//! others, else the first of the tree.

ghost use Rattle.std.specs.Prelude.{◌↔◌, ◌<◌, length, IfNone, IfSome, IsTrue};
ghost use Rattle.sp_cover.specs.Cover.{IsOpenAt, IsShut};

use crate::preparing::PIVOTS;
use crate::states::State;
use sp_advice::Advice;
use sp_cursor::{Cursor, price_of};
use sp_model::VarId;
use sp_tree::{Kind, NodeId, Tree};
use std::alloc::Global;

/// The leaves that come next, the last one first. It may name nodes that are no open leaves, and need not name all: a
/// node is looked at before it is taken. Behind all others stand those that seem to have no feasible point.
#[derive(Drop)]
pub struct Agenda {
    nodes: Vec<NodeId>,
    late: Vec<NodeId>,
    is_late: bool,
}

impl Agenda {
    /// The empty agenda, which takes no memory.
    pub fn new(alloc: Global) -> Agenda {
        Agenda {
            nodes: Vec::new(alloc),
            late: Vec::new(alloc),
            is_late: false,
        }
    }

    /// Puts the two parts of a split node on it: on top the one that holds the point that was found, else the one whose
    /// side of the variable costs less, and the part above where both cost the same. What has no memory is left out.
    pub fn add_parts(
        &mut self,
        state: &State,
        cursor: &Option<Cursor>,
        advice: &Advice,
        node: NodeId,
    )
        requires { node < length state.now.search.tree.nodes }
    {
        match &state.tree().node(node).kind {
            Kind::Split {
                var,
                at,
                left,
                right,
            } => {
                let is_late = is_late(state, advice, node, self.is_late);
                if comes_lower_first(cursor, advice, node, *var, at) {
                    self.add(*right, is_late);
                    self.add(*left, is_late);
                } else {
                    self.add(*left, is_late);
                    self.add(*right, is_late);
                }
            }
            _ => {}
        }
    }

    /// Puts a node on it, or behind all others. Without memory the node is left out.
    fn add(&mut self, node: NodeId, is_late: bool) {
        if is_late {
            let _ = self.late.push(node);
        } else {
            let _ = self.nodes.push(node);
        }
    }

    /// How many pivots the finder makes for the next node at most: none behind all others, while no point was found.
    pub fn pivots(&self, state: &State) -> u32 {
        if self.is_late && state.search.best().is_none() {
            0
        } else {
            PIVOTS
        }
    }

    /// An open leaf, none exactly where no leaf is open.
    pub fn next(&mut self, tree: &Tree) -> Option<NodeId>
        ensures found { IfSome result (IsOpenAt tree.now.nodes) }
        ensures none { IfNone result (IsShut tree.now.nodes) }
    {
        self.is_late = false;
        match pop_open(&mut self.nodes, tree) {
            Some(node) => Some(node),
            None => {
                self.is_late = true;
                match pop_open(&mut self.late, tree) {
                    Some(node) => Some(node),
                    None => tree.open_leaf(),
                }
            }
        }
    }
}

/// Takes the last of the nodes that is an open leaf, and all behind it.
fn pop_open(nodes: &mut Vec<NodeId>, tree: &Tree) -> Option<NodeId>
    ensures { IfSome result (IsOpenAt tree.now.nodes) }
{
    while let Some(node) = nodes.pop() {
        if is_open(tree, node) {
            return Some(node);
        }
    }
    None
}

/// Whether the parts of a node come behind all others: it seems that no feasible point lies there, while none was
/// found.
fn is_late(state: &State, advice: &Advice, node: NodeId, was_late: bool) -> bool {
    state.search.best().is_none() && (was_late || advice.is_unmet(node.place()))
}

/// Whether the lower part of a split node comes first.
fn comes_lower_first(
    cursor: &Option<Cursor>,
    advice: &Advice,
    node: NodeId,
    var: VarId,
    at: &i64,
) -> bool {
    match advice.is_lower_first(node.place(), var, at) {
        Some(is_lower) => is_lower,
        None => rises_with(cursor, var),
    }
}

/// Whether the node is an open leaf of the tree.
fn is_open(tree: &Tree, node: NodeId) -> bool
    ensures { IsTrue result ↔ IsOpenAt tree.now.nodes node }
{
    node.place() < tree.size() && tree.node(node).is_open()
}

/// Whether the objective rises with a variable, as far as that is known at once: a hint.
fn rises_with(cursor: &Option<Cursor>, var: VarId) -> bool {
    match cursor {
        Some(cursor) => 0 < price_of(&cursor.hand.objective, var),
        None => false,
    }
}
