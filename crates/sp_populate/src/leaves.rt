//! Which open leaf comes next: one near the last, else the first of the tree.

ghost use Rattle.std.specs.Prelude.{◌<◌, ◌↔◌, length, IfNone, IfSome, IsTrue};
ghost use Rattle.sp_cover.specs.Cover.{IsOpenAt, IsShut};

use sp_tree::{Kind, NodeId, Tree};

/// Whether the node is an open leaf of the tree.
fn is_open(tree: &Tree, node: NodeId) -> bool
    ensures { IsTrue result ↔ IsOpenAt tree.now.nodes node }
{
    node.place() < tree.size() && tree.node(node).is_open()
}

/// The first open part of a split node, if one is open.
fn open_part(tree: &Tree, node: NodeId) -> Option<NodeId>
    requires { node < length tree.now.nodes }
    ensures { IfSome result (IsOpenAt tree.now.nodes) }
{
    match &tree.node(node).kind {
        Kind::Split {
            var: _,
            at: _,
            left,
            right,
        } => {
            if is_open(tree, *left) {
                return Some(*left);
            }
            if is_open(tree, *right) {
                return Some(*right);
            }
            None
        }
        _ => None,
    }
}

/// An open leaf, none exactly where no leaf is open: a part of the last node or of one on the way up from it, else the
/// first of the tree.
pub fn next_leaf(tree: &Tree, last: NodeId) -> Option<NodeId>
    ensures found { IfSome result (IsOpenAt tree.now.nodes) }
    ensures none { IfNone result (IsShut tree.now.nodes) }
{
    let mut node = last;
    for _ in 0..tree.size() {
        if node.place() >= tree.size() {
            return first_leaf(tree);
        }
        match open_part(tree, node) {
            Some(leaf) => return Some(leaf),
            None => match tree.parent(node) {
                Some(parent) => node = parent,
                None => return first_leaf(tree),
            },
        }
    }
    first_leaf(tree)
}

/// The first open leaf of the tree, none exactly where no leaf is open.
fn first_leaf(tree: &Tree) -> Option<NodeId>
    ensures found { IfSome result (IsOpenAt tree.now.nodes) }
    ensures none { IfNone result (IsShut tree.now.nodes) }
{
    tree.open_leaf()
}
