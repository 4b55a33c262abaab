//! Laws of reasons: each is the contract of a function that does nothing of its own.

ghost use Rattle.std.specs.Prelude.{◌↔◌, ◌<◌, List, ℤ};
ghost use Rattle.sp_model.specs.Boxes.{Bounds, IsWithin, point_count};
ghost use Rattle.sp_model.specs.Models.{Feasible, root_of};
ghost use Rattle.sp_model.specs.Rules.{IsLawful};
ghost use Rattle.sp_model.specs.declared.parts.ModelParts.{ModelParts};
ghost use Rattle.sp_sums.specs.Ranges.{IsFilled, IsInside, IsPointBox};
ghost use Rattle.sp_activity.specs.Order.{IsOpen};
ghost use Rattle.sp_activity.specs.Reasons.{Holds};
ghost use Rattle.sp_activity.specs.Within.{IsUnder};
ghost use Rattle.sp_activity.specs.declared.reasons.Reason.{Reason as ReasonOf};

use sp_model::feasible_is_tested;
use sp_sums::{broken_rows_hold_nowhere, broken_rows_stay_broken, sums_meet_at_a_point};

/// A law: no feasible point lies in a box with a reason.
pub fn reasons_are_true()
    ensures { (m : ModelParts) (b : Bounds) (r : ReasonOf) (x : List ℤ) → Holds m b r → IsWithin b x → ¬ Feasible m x }
{
    broken_rows_hold_nowhere();
}

/// A law: a reason of a box is one of each box inside it that isn't empty.
pub fn reasons_stay()
    ensures { (m : ModelParts) (b inner : Bounds) (r : ReasonOf) → IsInside b inner → Holds m b r → Holds m inner r }
{
    broken_rows_stay_broken();
}

/// A law: without a reason of a box of one point, the point is feasible.
pub fn open_points_are_feasible()
    ensures { (m : ModelParts) (b : Bounds) (x : List ℤ) → IsLawful m → IsUnder (root_of m) b → IsPointBox b x → IsOpen m b → Feasible m x }
{
    sums_meet_at_a_point();
    feasible_is_tested();
}

/// A law: no range of a box is empty exactly where the box has points.
pub fn boxes_with_points_are_filled()
    ensures { (b : Bounds) → IsFilled b ↔ (0 < point_count b) }
{}
