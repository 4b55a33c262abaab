//! Laws of the list: each is the contract of a function that does nothing.

ghost use Rattle.std.specs.Prelude.{◌≡◌, ◌≢◌, ◌↔◌, ◌||◌, ◌++◌, ℕ, AllPairs, Bool, List, Option, ℤ, IsTrue};
ghost use Rattle.sp_list.specs.declared.found.Found.{Found};
ghost use Rattle.sp_model.specs.declared.gaps.Gaps.{Gaps};
ghost use Rattle.sp_model.specs.declared.parts.ModelParts.{ModelParts};
ghost use Rattle.sp_model.specs.Models.{IsOptimum};
ghost use Rattle.sp_model.specs.Rules.{IsLawful};
ghost use Rattle.sp_list.specs.Lists.{AreValued, found_points, IsBest, IsFoundAll, IsFoundEnough, IsFoundList, IsKept, IsList, IsListWithin, IsSetOf, IsSortedWalk, is_kept, list_of, list_within_of, optimum_of, points_of};

use sp_model::{feasible_is_tested, feasible_points_are_all};

/// A law: a model has one optimum, or is shown to have none.
pub fn optimum_is_unique()
    ensures { (m : ModelParts) (best other : Option ℤ) →
        IsOptimum m best → IsOptimum m other → best ≡ other }
{}

/// A law: at most one list fits a model and a cut.
pub fn list_is_unique()
    ensures { (m : ModelParts) (cut : ℤ) (xs ys : List (List ℤ)) →
        IsList m cut xs → IsList m cut ys → xs ≡ ys }
{}

/// A law: at most one list fits a model and its gaps, the optimum and the cut included.
pub fn list_within_is_unique()
    ensures { (m : ModelParts) (gaps : Gaps) (xs ys : List (List ℤ)) →
        IsListWithin m gaps xs → IsListWithin m gaps ys → xs ≡ ys }
{}

/// A law: at most one list fits as the first `k` of the list under the gaps.
pub fn best_is_unique()
    ensures { (m : ModelParts) (gaps : Gaps) (k : ℕ) (xs ys : List (List ℤ)) →
        IsBest m gaps k xs → IsBest m gaps k ys → xs ≡ ys }
{}

/// A law: at most one list of found points fits a model and a cut.
pub fn found_list_is_unique()
    ensures { (m : ModelParts) (cut : ℤ) (found other : List Found) →
        IsFoundList m cut found → IsFoundList m cut other → found ≡ other }
{}

/// A law: the points of the bounds in lexicographic order, kept, then stably ordered by the objective, are the list.
pub fn sorted_walk_is_list()
    ensures { (m : ModelParts) (cut : ℤ) (xs : List (List ℤ)) →
        IsLawful m → IsSortedWalk m cut xs → IsList m cut xs }
{
    feasible_points_are_all();
}

/// A law: a list exists, and a function gives it.
pub fn list_is_list_of()
    ensures { (m : ModelParts) (cut : ℤ) (xs : List (List ℤ)) →
        IsLawful m → IsList m cut xs ↔ (xs ≡ list_of m cut) }
{
    feasible_points_are_all();
}

/// A law: each model has an optimum, or no point is feasible, and a function says which.
pub fn optimum_is_optimum_of()
    ensures { (m : ModelParts) (best : Option ℤ) →
        IsLawful m → IsOptimum m best ↔ (best ≡ optimum_of m) }
{
    feasible_points_are_all();
}

/// A law: a list under the gaps exists, and a function gives it.
pub fn list_within_is_list_within_of()
    ensures { (m : ModelParts) (gaps : Gaps) (xs : List (List ℤ)) →
        IsLawful m → IsListWithin m gaps xs ↔ (xs ≡ list_within_of m gaps) }
{
    feasible_points_are_all();
}

/// A law: whether a point is kept can be tested.
pub fn kept_is_tested()
    ensures { (m : ModelParts) (cut : ℤ) (x : List ℤ) →
        IsLawful m → IsTrue (is_kept m cut x) ↔ IsKept m cut x }
{
    feasible_is_tested();
}

/// A law: the points of two tests that no point passes both join to those of either test.
pub fn parts_join()
    ensures { (first second : List ℤ → Bool) (xs ys : List (List ℤ)) →
        ((x : List ℤ) → IsTrue (first x) → IsTrue (second x) → ⊥) →
        IsSetOf first xs → IsSetOf second ys → IsSetOf (λ x. first x || second x) (xs ++ ys) }
{}

/// A law: found points with their objectives whose points are the set of the kept ones are enough for the list.
pub fn set_is_enough()
    ensures { (m : ModelParts) (cut : ℤ) (found : List Found) →
        IsLawful m → AreValued m found → IsSetOf (is_kept m cut) (points_of found) → IsFoundEnough m cut found }
{
    feasible_is_tested();
}

/// A law: the feasible points of a lawful model in lexicographic order, with their objectives, are all there are, and enough
/// for the list at any cut.
pub fn walk_finds_all()
    ensures all { (m : ModelParts) → IsLawful m → IsFoundAll m (found_points m) }
    ensures enough { (m : ModelParts) (cut : ℤ) → IsLawful m → IsFoundEnough m cut (found_points m) }
{
    feasible_points_are_all();
}

/// A law: no point stands twice in a list.
pub fn list_has_distinct_points()
    ensures points { (m : ModelParts) (cut : ℤ) (xs : List (List ℤ)) → IsList m cut xs → AllPairs (λ x y. x ≢ y) xs }
    ensures found { (m : ModelParts) (cut : ℤ) (found : List Found) →
        IsFoundList m cut found → AllPairs (λ f g. f.point ≢ g.point) found }
{}
