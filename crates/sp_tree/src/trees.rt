//! The tree and its calls.

ghost use Rattle.std.specs.Prelude.{◌≡◌, ◌≢◌, ◌↔◌, ◌+◌, ◌<◌, ℕ, length, map, count_by, Contains, IsTrue, Ok, Err, IfOk, IsOk, OnErr, IsNone, IfSome, IfNone};
ghost use Rattle.sp_model.specs.Boxes.{point_count, CanSplit};
ghost use Rattle.sp_tree.specs.Splits.{box_at, parts_at, IsChild};
ghost use Rattle.sp_tree.specs.Tables.{IsTooHeavy, Keeps};
ghost use Rattle.sp_tree.specs.Trees.{TreeOf, node_at, splits, IsGrown, new_tree, SplitsNode, IsClosing, with_kind, is_held, IsComplete, reopened, is_reopened};
ghost use Rattle.sp_tree.specs.Laws.{Extends, KeepsFinal};
ghost use Rattle.sp_tree.specs.declared.nodes.Kind.TheVariants as Kind;
ghost use Rattle.sp_tree.specs.declared.tables.Keep.TheVariants as Keep;
ghost use Rattle.sp_tree.specs.declared.refusals.SplitRefusal.TheVariants as SplitRefusal;

use crate::cuts::{Cut, push_cut};
use crate::ids::NodeId;
use crate::nodes::{Kind, Node, one_open, push_two_open};
use crate::paths::{cut_above, narrowed};
use crate::refusals::SplitRefusal;
use crate::sweeps::{are_all_licensed, first_open, reopen_all};
use crate::tables::{Keep, Table};
use sp_dual::Multipliers;
use sp_filter::Filters;
use sp_model::{BoxOf, NoMemory, VarId, split_divides_count};
use std::alloc::Global;
use std::marker::Model;

/// A tree of boxes. Contracts see it as the list of its nodes, the list of their boxes, and the table of lists.
#[derive(Drop)]
pub struct Tree {
    root: BoxOf,
    cuts: Vec<Cut>,
    nodes: Vec<Node>,
    table: Table,
    first: u32,
}

impl Model for Tree {
    ghost use Rattle.sp_tree.specs.InnerTrees.{IsKept, boxes_of};
    ghost use Rattle.sp_tree.specs.Trees.{TreeOf};

    ghost Value = { TreeOf };

    ghost view = { λ t. record { boxes = boxes_of t.root t.cuts.items; nodes = t.nodes.items; lists = t.table } };

    ghost invariant = { λ t. IsKept t.root t.cuts.items t.nodes.items t.table t.first };
}

impl Tree {
    /// A tree of one open leaf.
    pub fn new(alloc: Global, root: BoxOf) -> Result<Tree, NoMemory>
        ensures made { IfOk result (λ t. t ≡ new_tree root) }
        ensures grown { IfOk result (λ t. IsGrown t) }
    {
        let nodes = one_open(alloc)?;
        let table = Table::new(alloc)?;
        Ok(Tree {
            root,
            cuts: Vec::new(alloc),
            nodes,
            table,
            first: 0,
        })
    }

    /// How many nodes it has.
    pub fn size(&self) -> u32
        ensures size { result ≡ length self.now.nodes }
        ensures grown { IsGrown self.now }
    {
        self.nodes.len() as u32
    }

    /// A node.
    pub fn node(&self, id: NodeId) -> &Node
        requires { id < length self.now.nodes }
        ensures { result.now ≡ node_at self.now.nodes id }
    {
        &self.nodes[id.index()]
    }

    /// The lists that bounds and marks name, by their places.
    pub fn multipliers(&self) -> &[Multipliers]
        ensures { result.now ≡ self.now.lists }
    {
        self.table.as_slice()
    }

    /// The node that is split in this one and another, `None` exactly for the root.
    pub fn parent(&self, id: NodeId) -> Option<NodeId>
        requires { id < length self.now.nodes }
        ensures root { IsNone result ↔ (id ≡ 0) }
        ensures parent { IfSome result (λ p. IsChild (parts_at (splits self.now.nodes) p) id) }
    {
        if id.place() == 0 {
            None
        } else {
            Some(cut_above(self.cuts.as_slice(), id).node)
        }
    }

    /// The box of a node.
    pub fn box_of(&self, id: NodeId) -> Result<BoxOf, NoMemory>
        requires { id < length self.now.nodes }
        ensures { IfOk result (λ b. b ≡ box_at self.now.boxes id) }
    {
        let alloc = *self.nodes.allocator();
        narrowed(alloc, &self.root, self.cuts.as_slice(), id)
    }

    /// The first open leaf, `None` exactly where no leaf is open.
    pub fn open_leaf(&self) -> Option<NodeId>
        ensures found { IfSome result (λ id. (id < length self.now.nodes) × ((node_at self.now.nodes id).kind ≡ Kind.Open)) }
        ensures first { IfSome result (λ id. (i : ℕ) → i < id → (node_at self.now.nodes i).kind ≢ Kind.Open) }
        ensures none { IfNone result ((i : ℕ) → i < length self.now.nodes → (node_at self.now.nodes i).kind ≢ Kind.Open) }
    {
        if (self.first as usize) < self.nodes.len() {
            Some(NodeId::new(self.first))
        } else {
            None
        }
    }

    /// Whether each leaf is licensed for the cut and the filters that are held.
    pub fn is_complete(&self, cut: i128, filters: &Filters) -> bool
        ensures { IsTrue result ↔ IsComplete cut (is_held filters.now) self.now.nodes }
    {
        are_all_licensed(self.nodes.as_slice(), &cut, filters)
    }

    /// Gives an open leaf another kind of leaf. Its mark and all else stay.
    pub fn close(&mut self, id: NodeId, kind: Kind)
        requires known { id < length self.old.nodes }
        requires is_open { (node_at self.old.nodes id).kind ≡ Kind.Open }
        requires closing { IsClosing self.old.lists (box_at self.old.boxes id) kind }
        ensures closed { self.new ≡ with_kind self.old id kind }
        ensures extends { Extends self.old self.new }
        ensures settled { KeepsFinal self.old.nodes self.new.nodes }
        ensures grown { IsGrown self.new }
    {
        self.nodes[id.index()].kind = kind;
        self.first = first_open(self.nodes.as_slice(), self.first);
    }

    /// Opens the bounded leaves up to the cut, whose bound becomes their mark, and the screened leaves whose filter isn't
    /// held. Answers how many. It takes no memory.
    pub fn reopen(&mut self, cut: i128, filters: &Filters) -> u32
        ensures boxes { self.new.boxes ≡ self.old.boxes }
        ensures nodes { self.new.nodes ≡ map (reopened cut (is_held filters.now)) self.old.nodes }
        ensures lists { self.new.lists ≡ self.old.lists }
        ensures count { result ≡ count_by (is_reopened cut (is_held filters.now)) self.old.nodes }
        ensures extends { Extends self.old self.new }
        ensures settled { KeepsFinal self.old.nodes self.new.nodes }
        ensures grown { IsGrown self.new }
    {
        let count = reopen_all(self.nodes.as_mut_slice(), &cut, filters);
        self.first = first_open(self.nodes.as_slice(), 0);
        count
    }

    /// The place of an equal list in the table, which is added at the end where there is none. Where the answer is `Full` or
    /// an error, the tree is as before.
    pub fn keep(&mut self, list: Multipliers) -> Result<Keep, NoMemory>
        ensures boxes { self.new.boxes ≡ self.old.boxes }
        ensures nodes { self.new.nodes ≡ self.old.nodes }
        ensures ok { IfOk result (λ kept. Keeps list self.old.lists self.new.lists kept) }
        ensures full { (result ≡ Ok Keep.Full) ↔ IsTooHeavy self.old.lists list }
        ensures there { Contains self.old.lists list → IsOk result }
        ensures err { OnErr result (self.new ≡ self.old) }
        ensures extends { Extends self.old self.new }
        ensures settled { KeepsFinal self.old.nodes self.new.nodes }
        ensures grown { IsGrown self.new }
    {
        self.table.keep(list)
    }

    /// Splits an open leaf in two open leaves. After a refusal the tree is as before.
    pub fn split(
        &mut self,
        id: NodeId,
        var: VarId,
        at: i64,
        node_limit: u32,
    ) -> Result<(NodeId, NodeId), SplitRefusal>
        requires known { id < length self.old.nodes }
        requires is_open { (node_at self.old.nodes id).kind ≡ Kind.Open }
        requires lawful { CanSplit (box_at self.old.boxes id) var at }
        requires filled { 0 < point_count (box_at self.old.boxes id) }
        ensures ok { IfOk result (λ made. SplitsNode self.old self.new id var at made.0 made.1) }
        ensures limit { (result ≡ Err SplitRefusal.NodeLimit) ↔ (node_limit < length self.old.nodes + 2) }
        ensures err { OnErr result (self.new ≡ self.old) }
        ensures extends { Extends self.old self.new }
        ensures settled { KeepsFinal self.old.nodes self.new.nodes }
        ensures grown { IsGrown self.new }
    {
        let size = self.nodes.len() as u32;
        if node_limit < 2 || node_limit - 2 < size {
            return Err(SplitRefusal::NodeLimit);
        }
        self.cuts.reserve(1).map_err(|_| SplitRefusal::NoMemory)?;
        self.nodes.reserve(2).map_err(|_| SplitRefusal::NoMemory)?;
        let left = NodeId::new(size);
        let right = NodeId::new(size + 1);
        self.nodes[id.index()].kind = Kind::Split {
            var,
            at,
            left,
            right,
        };
        split_divides_count();
        push_two_open(&mut self.nodes);
        push_cut(&mut self.cuts, id, var, &at);
        self.first = first_open(self.nodes.as_slice(), self.first);
        Ok((left, right))
    }
}
