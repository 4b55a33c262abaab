//! The cursor of a run: the node whose box is in hand, and the moves to other nodes of the tree.

ghost use Rattle.std.specs.Prelude.{◌≡◌, ◌↔◌, ◌<◌, ◌≤ℤ◌, ◌<ℤ◌, None, length, IfOk, IfSome, IsSome, MatchOption, OnOk};
ghost use Rattle.sp_model.specs.declared.parts.ModelParts.{ModelParts};
ghost use Rattle.sp_model.specs.Boxes.{CanSplit, range_at};
ghost use Rattle.sp_model.specs.Models.{root_of};
ghost use Rattle.sp_sums.specs.Ranges.{IsFilled};
ghost use Rattle.sp_tree.specs.Splits.{IsChild, parts_at};
ghost use Rattle.sp_tree.specs.Trees.{TreeOf, splits};
ghost use Rattle.sp_cursor.specs.Cursors.{HasRoot, IsCursorOf};
ghost use Rattle.sp_cursor.specs.InnerCursors.{IsCutOf, IsWayDown, part_of};

use crate::hands::{Hand, root_hand};
use sp_bound::has_points;
use sp_model::{BoxOf, Model, NoMemory, VarId};
use sp_tree::{Kind, NodeId, Tree};
use std::alloc::Global;

/// The way back from the box of a node to that of the node above it.
#[derive(Clone, Copy)]
pub struct Back {
    /// The node above.
    pub node: NodeId,
    /// The variable whose range differs.
    pub var: VarId,
    /// Its range at the node above.
    pub range: (i64, i64),
}

/// How a node is split.
#[derive(Clone, Copy)]
pub struct Cut {
    /// The variable whose range is split.
    pub var: VarId,
    /// The greatest value of the lower part.
    pub at: i64,
    /// The node that has the lower part.
    pub left: NodeId,
}

/// What is kept over the box of one node of a tree, with the way back to the root. It belongs to one model and one
/// tree, which each call takes.
#[derive(Drop)]
pub struct Cursor {
    /// What is kept over the box of the node.
    pub hand: Hand,
    /// The node.
    pub node: NodeId,
    /// The way back from it, the last step first taken.
    pub backs: Vec<Back>,
    /// Room for the way down to another node.
    pub path: Vec<NodeId>,
}

/// A cursor at the root of any tree whose root has the closed box of the model, none exactly where that box has no
/// points.
pub fn root_cursor(alloc: Global, model: &Model) -> Result<Option<Cursor>, NoMemory>
    ensures some { IfOk result (λ cursor. IsSome cursor ↔ IsFilled (root_of model.now)) }
    ensures cursor { (t : TreeOf) → HasRoot model.now t → IfOk result (λ cursor. IfSome cursor (IsCursorOf model.now t)) }
{
    if has_points(model) {
        let cursor = new_cursor(alloc, model)?;
        Ok(Some(cursor))
    } else {
        Ok(None)
    }
}

fn new_cursor(alloc: Global, model: &Model) -> Result<Cursor, NoMemory>
    requires { IsFilled (root_of model.now) }
    ensures { (t : TreeOf) → HasRoot model.now t → IfOk result (IsCursorOf model.now t) }
{
    let hand = root_hand(alloc, model)?;
    Ok(Cursor {
        hand,
        node: NodeId::new(0),
        backs: Vec::new(alloc),
        path: Vec::new(alloc),
    })
}

/// What a part of a split leaves of the range of its variable.
fn part_of(range: &(i64, i64), at: &i64, is_lower: bool) -> (i64, i64)
    requires least { range.now.0 ≤ℤ at.now }
    requires greatest { at.now <ℤ range.now.1 }
    ensures { result ≡ part_of range.now at.now is_lower }
{
    let greatest = range.1;
    if is_lower {
        (range.0, *at)
    } else {
        (*at + 1, greatest)
    }
}

/// The range of a variable that is split, and what one of the parts leaves of it.
fn ranges_at(bounds: &BoxOf, var: VarId, at: &i64, is_lower: bool) -> ((i64, i64), (i64, i64))
    requires { CanSplit bounds.now var at.now }
    ensures whole { result.0 ≡ range_at bounds.now var }
    ensures part { result.1 ≡ part_of (range_at bounds.now var) at.now is_lower }
{
    let whole = bounds.range(var);
    let part = part_of(&whole, at, is_lower);
    (whole, part)
}

/// How a node is split, if it is.
fn cut_at(tree: &Tree, node: NodeId) -> Option<Cut>
    requires { node < length tree.now.nodes }
    ensures { MatchOption result
        (parts_at (splits tree.now.nodes) node ≡ None)
        (IsCutOf (parts_at (splits tree.now.nodes) node)) }
{
    match &tree.node(node).kind {
        Kind::Split {
            var,
            at,
            left,
            right: _,
        } => Some(Cut {
            var: *var,
            at: *at,
            left: *left,
        }),
        Kind::Open => None,
        Kind::Dead(_) => None,
        Kind::Bounded(_) => None,
        Kind::Screened(_) => None,
        Kind::Point(_) => None,
    }
}

/// The node above one that isn't the root.
fn above(tree: &Tree, node: NodeId) -> NodeId
    requires some { 0 < node }
    requires known { node < length tree.now.nodes }
    ensures child { IsChild (parts_at (splits tree.now.nodes) result) node }
    ensures less { result < node }
{
    let _size = tree.size();
    match tree.parent(node) {
        Some(parent) => parent,
        None => NodeId::new(0),
    }
}

impl Cursor {
    /// Goes to the node above.
    fn up(&mut self, model: &Model, tree: &Tree)
        requires cursor { IsCursorOf model.now tree.now self.old }
        requires some { 0 < self.old.node }
        ensures cursor { IsCursorOf model.now tree.now self.new }
        ensures less { self.new.node < self.old.node }
        ensures path { self.new.path ≡ self.old.path }
    {
        let _tree = tree;
        match self.backs.pop() {
            None => {}
            Some(back) => {
                self.hand.set(model, back.var, &back.range);
                self.node = back.node;
            }
        }
    }

    /// Goes to a node that has a part of the box in hand. After an error the cursor is where it was.
    fn down(&mut self, model: &Model, tree: &Tree, node: NodeId) -> Result<(), NoMemory>
        requires cursor { IsCursorOf model.now tree.now self.old }
        requires child { IsChild (parts_at (splits tree.now.nodes) self.old.node) node }
        ensures cursor { IsCursorOf model.now tree.now self.new }
        ensures node { OnOk result (self.new.node ≡ node) }
        ensures path { self.new.path ≡ self.old.path }
    {
        match cut_at(tree, self.node) {
            None => Ok(()),
            Some(cut) => self.enter(model, tree, node, &cut),
        }
    }

    /// The same, where the node in hand is split so.
    fn enter(&mut self, model: &Model, tree: &Tree, node: NodeId, cut: &Cut) -> Result<(), NoMemory>
        requires cursor { IsCursorOf model.now tree.now self.old }
        requires child { IsChild (parts_at (splits tree.now.nodes) self.old.node) node }
        requires cut { IsCutOf (parts_at (splits tree.now.nodes) self.old.node) cut.now }
        ensures cursor { IsCursorOf model.now tree.now self.new }
        ensures node { OnOk result (self.new.node ≡ node) }
        ensures path { self.new.path ≡ self.old.path }
    {
        let _size = tree.size();
        let is_lower = cut.left.place() == node.place();
        let ranges = ranges_at(
            self.hand.truths.bounds_in(model),
            cut.var,
            &cut.at,
            is_lower,
        );
        let back = Back {
            node: self.node,
            var: cut.var,
            range: ranges.0,
        };
        self.backs.push(back)?;
        self.hand.set(model, cut.var, &ranges.1);
        self.node = node;
        Ok(())
    }

    /// Goes up to a node on the way from the root to another one, and notes the nodes on the way down from there.
    fn climb(&mut self, model: &Model, tree: &Tree, to: NodeId) -> Result<(), NoMemory>
        requires cursor { IsCursorOf model.now tree.now self.old }
        requires known { to < length tree.now.nodes }
        ensures cursor { IsCursorOf model.now tree.now self.new }
        ensures path { OnOk result (IsWayDown tree.now self.new.path.items self.new.node to) }
    {
        self.path.clear();
        let mut last = to;
        while self.node.place() != last.place() {
            if last.place() < self.node.place() {
                self.up(model, tree);
            } else {
                self.path.push(last)?;
                last = above(tree, last);
            }
        }
        Ok(())
    }

    /// Goes to a node of the tree. It looks only at what has the variables that are split on the way, and takes memory
    /// for the way alone. After an error the cursor is at a node on the way.
    pub fn go(&mut self, model: &Model, tree: &Tree, to: NodeId) -> Result<(), NoMemory>
        requires cursor { IsCursorOf model.now tree.now self.old }
        requires known { to < length tree.now.nodes }
        ensures cursor { IsCursorOf model.now tree.now self.new }
        ensures node { OnOk result (self.new.node ≡ to) }
    {
        self.climb(model, tree, to)?;
        while let Some(node) = self.path.pop() {
            self.down(model, tree, node)?;
        }
        Ok(())
    }
}
