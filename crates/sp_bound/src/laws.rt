//! Laws of bounds: each is the contract of a function that does nothing.

ghost use Rattle.std.specs.Prelude.{◌≡◌, ◌≤◌, ◌≤ℤ◌, All, List, Option, Some, length, true, ℤ};
ghost use Rattle.sp_model.specs.Boxes.{Bounds};
ghost use Rattle.sp_model.specs.Models.{objective, root_of};
ghost use Rattle.sp_model.specs.Rules.{IsLawful};
ghost use Rattle.sp_model.specs.declared.parts.ModelParts.{ModelParts};
ghost use Rattle.sp_sums.specs.Ranges.{IsInside};
ghost use Rattle.sp_dual.specs.Lists.{MultiplierList, IsWellFormed, zero_list};
ghost use Rattle.sp_bound.specs.Bounds.{KeepsRows, bound_of};
ghost use Rattle.sp_bound.specs.Closing.{IsIdle, closes, list_at};
ghost use Rattle.sp_bound.specs.StatedLists.{IsStated, stated_lists};

use sp_model::quotients_are_exact;
use sp_sums::sums_lie_between;

/// No point of the box at which the rows hold has a smaller objective than a bound.
pub fn bounds_are_sound()
    ensures { (m : ModelParts) (b : Bounds) (l : MultiplierList) (x : List ℤ) (v : ℤ) →
        IsLawful m → IsWellFormed l → IsInside (root_of m) b → KeepsRows m b x →
        bound_of m b l ≡ Some v → v ≤ℤ objective m x }
{
    quotients_are_exact();
    sums_lie_between();
}

/// Each stated list keeps the rules of lists, names rows of the model and has at most one entry. The first is the empty one,
/// and there are at most 65.
pub fn stated_lists_are_lists()
    ensures each { (m : ModelParts) → IsLawful m → All (IsStated m) (stated_lists m) }
    ensures first { (m : ModelParts) → list_at (stated_lists m) 0 ≡ zero_list }
    ensures few { (m : ModelParts) → length (stated_lists m) ≤ 65 }
{}

/// A list of one row that lacks the side closes no box that the empty list doesn't.
pub fn missing_sides_close_nothing()
    ensures { (m : ModelParts) (b : Bounds) (t : Option ℤ) (l : MultiplierList) →
        IsLawful m → IsWellFormed l → IsInside (root_of m) b → IsIdle m l →
        closes m b t l ≡ true → closes m b t zero_list ≡ true }
{
    quotients_are_exact();
}
