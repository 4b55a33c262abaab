//! Laws of every tree: each is the contract of a function that does nothing.

ghost use Rattle.std.specs.Prelude.{◌≡◌, ◌≢◌, ◌↔◌, ◌≤◌, ◌<◌, ◌⊎◌, ℕ, ℤ, Bool, List, Some, None, length, map};
ghost use Rattle.sp_model.specs.Boxes.{point_count, room};
ghost use Rattle.sp_tree.specs.Laws.{IsPartition, Extends, KeepsFinal, HasMark};
ghost use Rattle.sp_tree.specs.Splits.{box_at};
ghost use Rattle.sp_tree.specs.Trees.{TreeOf, node_at, splits, split_of, IsGrown, IsLicensed, IsComplete, reopened};
ghost use Rattle.sp_tree.specs.declared.nodes.Bound.{Bound};
ghost use Rattle.sp_tree.specs.declared.nodes.Node.{Node};
ghost use Rattle.sp_tree.specs.declared.nodes.Kind.TheVariants as Kind;

use sp_model::{split_divides_count, split_divides_points, within_is_tested};

/// The leaves' boxes divide the root's, and a tree has at most as many nodes as its root's box has room for.
pub fn trees_divide()
    ensures partition { (t : TreeOf) → IsGrown t → IsPartition t.boxes (splits t.nodes) }
    ensures size { (t : TreeOf) → IsGrown t → length t.nodes ≤ room (point_count (box_at t.boxes 0)) }
{
    within_is_tested();
    split_divides_points();
    split_divides_count();
}

/// A reopening leaves a licensed leaf as it is, leaves no leaf but open and licensed ones, and makes the bound of a bounded
/// leaf that it opens its mark.
pub fn reopening_spares_licensed()
    ensures spared { (cut : ℤ) (held : ℕ → Bool) (n : Node) → IsLicensed cut held n.kind → reopened cut held n ≡ n }
    ensures settled { (cut : ℤ) (held : ℕ → Bool) (n : Node) → split_of n.kind ≡ None
        → ((reopened cut held n).kind ≡ Kind.Open) ⊎ IsLicensed cut held (reopened cut held n).kind }
    ensures marked { (cut : ℤ) (held : ℕ → Bool) (n : Node) (bound : Bound) → n.kind ≡ Kind.Bounded bound
        → ¬ IsLicensed cut held n.kind → reopened cut held n ≡ record { mark = Some bound; kind = Kind.Open } }
{}

/// What lasts from one tree to the next lasts over all later ones, and a mark on a node's path stays on it.
pub fn extensions_last()
    ensures same { (t : TreeOf) → Extends t t }
    ensures joined { (a b c : TreeOf) → Extends a b → Extends b c → Extends a c }
    ensures marks { (a b : TreeOf) → Extends a b → (i : ℕ) → i < length a.nodes → HasMark a.nodes i → HasMark b.nodes i }
{}

/// A tree is complete exactly where none of its leaves is open and a reopening leaves each node as it is.
pub fn complete_trees_stay_closed()
    ensures { (cut : ℤ) (held : ℕ → Bool) (nodes : List Node) → IsComplete cut held nodes
        ↔ (((i : ℕ) → i < length nodes → (node_at nodes i).kind ≢ Kind.Open) × (map (reopened cut held) nodes ≡ nodes)) }
{}

/// A final node stays as it is over all later calls.
pub fn final_nodes_stay()
    ensures same { (nodes : List Node) → KeepsFinal nodes nodes }
    ensures joined { (a b c : List Node) → KeepsFinal a b → KeepsFinal b c → KeepsFinal a c }
{}
