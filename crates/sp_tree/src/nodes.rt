//! The nodes of a tree, and what reopening makes of one.

ghost use Rattle.std.specs.Prelude.{◌≡◌, ◌↔◌, ◌+◌, ◌≤◌, ◌++◌, ◌∷◌, [], length, None, IsTrue, IfOk, vec_capacity};
ghost use Rattle.sp_tree.specs.Trees.{open_node, opened, is_held, is_reopened, IsLicensed, split_of};
ghost use Rattle.sp_tree.specs.declared.nodes.Kind.TheVariants as Kind;

use crate::ids::NodeId;
use sp_activity::Reason;
use sp_filter::{FilterId, Filters};
use sp_model::{NoMemory, VarId};
use std::alloc::Global;
use std::mem::size_of;

/// A bound on the values of a box's feasible points, and the list of multipliers that gives it.
#[derive(Clone, Copy, Debug)]
pub struct Bound {
    /// The place of the list in the tree's table.
    pub by: u32,
    /// The bound, in the scaled units of the objective.
    pub least: i128,
}

/// What a node is: split, or one of five kinds of leaf.
#[derive(Debug, Drop)]
pub enum Kind {
    /// Its box is split at a value of a variable.
    Split {
        /// The variable.
        var: VarId,
        /// The variable's greatest value on the left.
        at: i64,
        /// The node of the part up to `at`.
        left: NodeId,
        /// The node of the part above `at`.
        right: NodeId,
    },
    /// Nothing is said of it yet.
    Open,
    /// Its box has no feasible point, for this reason.
    Dead(Reason),
    /// No feasible point of its box has a value below the bound.
    Bounded(Bound),
    /// This filter, while it is held, passes no point of its box.
    Screened(FilterId),
    /// Its box has one point, the found one of this serial.
    Point(u32),
}

/// A node, perhaps with a mark: a bound that it had as a leaf before it was opened again.
#[derive(Debug, Drop)]
pub struct Node {
    /// The mark.
    pub mark: Option<Bound>,
    /// What it is.
    pub kind: Kind,
}

const _: () = prove!(size_of::<Node>() <= 96);

impl Node {
    /// Whether it is an open leaf.
    pub fn is_open(&self) -> bool
        ensures { IsTrue result ↔ (self.now.kind ≡ Kind.Open) }
    {
        matches!(self.kind, Kind::Open)
    }

    /// Whether it is a leaf that is licensed for a cut and the filters that are held: a dead or a point leaf, a bounded
    /// leaf above the cut, or a screened leaf whose filter is held.
    pub fn is_licensed(&self, cut: &i128, filters: &Filters) -> bool
        ensures { IsTrue result ↔ IsLicensed cut.now (is_held filters.now) self.now.kind }
    {
        match &self.kind {
            Kind::Dead(_) | Kind::Point(_) => true,
            Kind::Bounded(bound) => *cut < bound.least,
            Kind::Screened(filter) => is_filter_held(filters, filter.number()),
            Kind::Split { .. } | Kind::Open => false,
        }
    }

    /// Whether it is split, or a leaf that is licensed.
    pub(crate) fn is_settled(&self, cut: &i128, filters: &Filters) -> bool
        ensures { IsTrue result ↔ (split_of self.now.kind ≡ None → IsLicensed cut.now (is_held filters.now) self.now.kind) }
    {
        match &self.kind {
            Kind::Split { .. } => true,
            _ => self.is_licensed(cut, filters),
        }
    }

    /// Whether a reopening for the cut and the filters that are held opens it.
    pub(crate) fn is_reopened(&self, cut: &i128, filters: &Filters) -> bool
        ensures { result ≡ is_reopened cut.now (is_held filters.now) self.now }
    {
        match &self.kind {
            Kind::Bounded(bound) => bound.least <= *cut,
            Kind::Screened(filter) => !is_filter_held(filters, filter.number()),
            _ => false,
        }
    }

    /// Opens it. A bound becomes its mark.
    pub(crate) fn reopen(&mut self)
        ensures { self.new ≡ opened self.old }
    {
        match &self.kind {
            Kind::Bounded(bound) => self.mark = Some(*bound),
            _ => {}
        }
        self.kind = Kind::Open;
    }
}

/// Whether the filter of this number is held.
fn is_filter_held(filters: &Filters, number: u32) -> bool
    ensures { result ≡ is_held filters.now number }
{
    filters.place(FilterId::new(number)).is_some()
}

/// The list of one open leaf.
pub fn one_open(alloc: Global) -> Result<Vec<Node>, NoMemory>
    ensures { IfOk result (λ nodes. nodes.items ≡ open_node ∷ []) }
{
    let mut nodes = Vec::new(alloc);
    nodes.push(Node {
        mark: None,
        kind: Kind::Open,
    })?;
    Ok(nodes)
}

/// Two more open leaves, for which there is room.
pub fn push_two_open(nodes: &mut Vec<Node>)
    requires { length nodes.old.items + 2 ≤ vec_capacity nodes.old }
    ensures { nodes.new.items ≡ nodes.old.items ++ (open_node ∷ open_node ∷ []) }
{
    nodes.push_reserved(Node {
        mark: None,
        kind: Kind::Open,
    });
    nodes.push_reserved(Node {
        mark: None,
        kind: Kind::Open,
    });
}
