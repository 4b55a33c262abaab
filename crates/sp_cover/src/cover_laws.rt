//! Laws of the cover: each is the contract of a function that does nothing of its own.

ghost use Rattle.std.specs.Prelude.{◌≡◌, ◌+◌, ◌<◌, ◌≤◌, ℕ, ℤ, Bool, List, length, true};
ghost use Rattle.sp_list.specs.declared.found.Found.{Found as FoundOf};
ghost use Rattle.sp_model.specs.declared.parts.ModelParts.{ModelParts};
ghost use Rattle.sp_model.specs.Models.{IsOptimum, root_of};
ghost use Rattle.sp_model.specs.Rules.{IsLawful};
ghost use Rattle.sp_activity.specs.Order.{IsOpen as IsUnreasoned};
ghost use Rattle.sp_filter.specs.Held.{FilterList};
ghost use Rattle.sp_tree.specs.Laws.{Extends};
ghost use Rattle.sp_tree.specs.Splits.{box_at};
ghost use Rattle.sp_tree.specs.Trees.{IsComplete, IsGrown, SplitsNode, TreeOf, is_held, with_kind};
ghost use Rattle.sp_tree.specs.declared.nodes.Kind.{Kind as KindOf};
ghost use Rattle.sp_tree.specs.declared.nodes.Kind.TheVariants as Kind;
ghost use Rattle.sp_cover.specs.Cover.{AreScreened, IfScreened, IsBest, IsCover, IsOpenAt, IsSearch, IsShut, SearchOf};
ghost use Rattle.sp_cover.specs.Moves.{AreLater, FitsAim, KeepsLists, MayClose, MayFind, closed_as, ended, found_as, moved_to, new_search, reopened_tree};
ghost use Rattle.sp_cover.specs.Listing.{AreFound, IsListed, WasFound};
ghost use Rattle.sp_cover.specs.declared.aims.Aim.{Aim as AimOf};

use sp_activity::reasons_are_true;
use sp_bound::bounds_are_sound;
use sp_model::{feasible_is_within, points_are_all_within, points_are_counted};
use sp_sums::sums_lie_between;
use sp_tree::{extensions_last, trees_divide};

/// A law: each move keeps the cover, but for what it says of filters.
pub fn searches_last()
    ensures closing { (m : ModelParts) (s : SearchOf) (aim : AimOf) (id : ℕ) (kind : KindOf)
        → IsSearch m s → IsGrown (with_kind s.tree id kind) → Extends s.tree (with_kind s.tree id kind)
        → FitsAim aim s → IsOpenAt s.tree.nodes id → MayClose m s aim (box_at s.tree.boxes id) kind
        → IsSearch m (closed_as s id kind) }
    ensures finding { (m : ModelParts) (s : SearchOf) (id : ℕ) (f : FoundOf)
        → IsSearch m s → IsGrown (with_kind s.tree id (Kind.Point (length s.found + 1)))
        → Extends s.tree (with_kind s.tree id (Kind.Point (length s.found + 1)))
        → IsOpenAt s.tree.nodes id → MayFind m s (box_at s.tree.boxes id) f → IsSearch m (found_as s id f) }
    ensures splitting { (m : ModelParts) (s : SearchOf) (t : TreeOf) (id var : ℕ) (at : ℤ) (left right : ℕ)
        → IsSearch m s → IsGrown t → Extends s.tree t → SplitsNode s.tree t id var at left right
        → IsOpenAt s.tree.nodes id → IsUnreasoned m (box_at s.tree.boxes id) → IsSearch m (moved_to s t) }
    ensures keeping { (m : ModelParts) (s : SearchOf) (t : TreeOf) → IsSearch m s → IsGrown t
        → KeepsLists s.tree t → IsSearch m (moved_to s t) }
    ensures reopening { (m : ModelParts) (s : SearchOf) (cut : ℤ) (held : ℕ → Bool)
        → IsSearch m s → s.proved ≡ true → IsGrown (reopened_tree cut held s.tree)
        → Extends s.tree (reopened_tree cut held s.tree)
        → IsSearch m (moved_to s (reopened_tree cut held s.tree)) }
    ensures ending { (m : ModelParts) (s : SearchOf) → IsLawful m → IsSearch m s → IsShut s.tree.nodes
        → IsSearch m (ended s) }
    ensures starting { (m : ModelParts) → IsGrown (new_search (root_of m)).tree
        → IsSearch m (new_search (root_of m)) }
{
    extensions_last();
    trees_divide();
    feasible_is_within();
    reasons_are_true();
    sums_lie_between();
    bounds_are_sound();
    points_are_all_within();
    points_are_counted();
}

/// A law: each move keeps what the cover says of filters, and so does each change of filters.
pub fn screens_last()
    ensures closing { (fs : FilterList) (t : TreeOf) (id : ℕ) (kind : KindOf)
        → AreScreened fs t → IfScreened fs (box_at t.boxes id) kind → AreScreened fs (with_kind t id kind) }
    ensures splitting { (fs : FilterList) (s t : TreeOf) (id var : ℕ) (at : ℤ) (left right : ℕ)
        → Extends s t → SplitsNode s t id var at left right → IsOpenAt s.nodes id → AreScreened fs s
        → AreScreened fs t }
    ensures reopening { (fs : FilterList) (t : TreeOf) (cut : ℤ) (held : ℕ → Bool) → AreScreened fs t
        → AreScreened fs (reopened_tree cut held t) }
    ensures starting { (m : ModelParts) (fs : FilterList) → AreScreened fs (new_search (root_of m)).tree }
    ensures filters { (old new : FilterList) (t : TreeOf) → AreLater old new → AreScreened old t → AreScreened new t }
{}

/// A law: where each leaf is licensed for a cut and the filters held, every point that is feasible, passes them and isn't
/// above the cut was found; what was found is feasible, valued, and found once; and where no leaf is open, the best is the
/// optimum.
pub fn covered_searches_find_all()
    ensures found { (m : ModelParts) (fs : FilterList) (s : SearchOf) (cut : ℤ) (x : List ℤ)
        → IsLawful m → IsCover m fs s → IsComplete cut (is_held fs) s.tree.nodes → IsListed m cut fs x
        → WasFound m s.found x }
    ensures distinct { (m : ModelParts) (s : SearchOf) → IsSearch m s → AreFound m s.found }
    ensures optimum { (m : ModelParts) (fs : FilterList) (s : SearchOf)
        → IsCover m fs s → IsShut s.tree.nodes → IsOptimum m s.best × IsBest s.found s.best }
{
    trees_divide();
    feasible_is_within();
    reasons_are_true();
    sums_lie_between();
    bounds_are_sound();
    points_are_all_within();
    points_are_counted();
}

/// A law: there are no more found points than nodes, and fewer where a leaf is open.
pub fn found_points_are_few()
    ensures few { (m : ModelParts) (s : SearchOf) → IsSearch m s → length s.found ≤ length s.tree.nodes }
    ensures fewer { (m : ModelParts) (s : SearchOf) (i : ℕ) → IsSearch m s → IsOpenAt s.tree.nodes i
        → length s.found < length s.tree.nodes }
{}
