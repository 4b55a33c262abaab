//! Laws of filters: each is the contract of a function that does nothing.

ghost use Rattle.std.specs.Prelude.{◌≡◌, List, length, ℤ, ◌≤ℤ◌};
ghost use Rattle.sp_model.specs.declared.parts.ModelParts.{ModelParts};
ghost use Rattle.sp_model.specs.Boxes.{Bounds, IsWithin};
ghost use Rattle.sp_model.specs.Models.{root_of};
ghost use Rattle.sp_filter.specs.declared.kinds.Filter.{Filter};
ghost use Rattle.sp_filter.specs.Filters.{IsNarrow, Fits, LiesIn, box_at, least_multiple, most_multiple, distances};
ghost use Rattle.sp_filter.specs.Laws.{IsLeastOver, IsMostOver, multiple_by, distance_by};

/// A filter that is narrow over a box is narrow over each box within it, and at each point of it.
pub fn narrow_filters_stay_narrow()
    ensures boxes { (f : Filter) (outer inner : Bounds) → IsNarrow f outer → LiesIn outer inner → IsNarrow f inner }
    ensures points { (f : Filter) (b : Bounds) (x : List ℤ) → IsNarrow f b → IsWithin b x → IsNarrow f (box_at x) }
{}

/// A filter that fits a model is narrow over its root box, which has a range for each variable.
pub fn fitting_filters_are_narrow()
    ensures { (m : ModelParts) (f : Filter) → length (root_of m) ≡ length m.lower → Fits m f → IsNarrow f (root_of m) }
{}

/// Over a range that isn't empty, the sums of a box add up the least and the greatest values that the terms have there, each
/// of which a value of the variable reaches.
pub fn terms_reach_their_ends()
    ensures least_multiple { (a : ℤ) (r : ℤ × ℤ) → r.0 ≤ℤ r.1 → IsLeastOver (multiple_by a) r (least_multiple a r) }
    ensures most_multiple { (a : ℤ) (r : ℤ × ℤ) → r.0 ≤ℤ r.1 → IsMostOver (multiple_by a) r (most_multiple a r) }
    ensures least_distance { (w reference : ℤ) (r : ℤ × ℤ) → r.0 ≤ℤ r.1 → IsLeastOver (distance_by w reference) r (least_multiple w (distances r reference)) }
    ensures most_distance { (w reference : ℤ) (r : ℤ × ℤ) → r.0 ≤ℤ r.1 → IsMostOver (distance_by w reference) r (most_multiple w (distances r reference)) }
{}
