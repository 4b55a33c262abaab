//! Laws of boxes: each is the contract of a function that does nothing.

ghost use Rattle.std.specs.Prelude.{◌≡◌, ◌↔◌, ◌⊎◌, ◌+◌, ◌<◌, List, ℤ, ◌≤ℤ◌, ◌<ℤ◌, ℕ, length, Contains, IsTrue};
ghost use Rattle.std.specs.List.Sorted.{IsStrictlySortedBy};
ghost use Rattle.sp_model.specs.Boxes.{Bounds, coordinate, lex_cmp, IsWithin, lies_in, points, point_count, below, above, CanSplit};

/// A point is in the list of a box's points exactly where it lies within the box.
pub fn points_are_all_within()
    ensures { (b : Bounds) (x : List ℤ) → Contains (points b) x ↔ IsWithin b x }
{}

/// The points of a box are in strictly lexicographic order.
pub fn points_are_lexicographic()
    ensures { (b : Bounds) → IsStrictlySortedBy lex_cmp (points b) }
{}

/// A point lies within a box exactly where the test says so.
pub fn within_is_tested()
    ensures { (b : Bounds) (x : List ℤ) → IsWithin b x ↔ IsTrue (lies_in b x) }
{}

/// The list of a box's points has as many elements as the box has points.
pub fn points_are_counted()
    ensures { (b : Bounds) → length (points b) ≡ point_count b }
{}

/// A split gives the points with the variable's value up to `at`, and those above it.
pub fn split_is_by_value()
    ensures lower { (b : Bounds) (v : ℕ) (at : ℤ) (x : List ℤ) → CanSplit b v at
        → IsWithin (below b v at) x ↔ (IsWithin b x × (coordinate x v ≤ℤ at)) }
    ensures upper { (b : Bounds) (v : ℕ) (at : ℤ) (x : List ℤ) → CanSplit b v at
        → IsWithin (above b v at) x ↔ (IsWithin b x × (at <ℤ coordinate x v)) }
{}

/// Each point of a box lies in exactly one part of a split, and no other point in either.
pub fn split_divides_points()
    ensures covers { (b : Bounds) (v : ℕ) (at : ℤ) (x : List ℤ) → CanSplit b v at
        → IsWithin b x ↔ (IsWithin (below b v at) x ⊎ IsWithin (above b v at) x) }
    ensures apart { (b : Bounds) (v : ℕ) (at : ℤ) (x : List ℤ) → CanSplit b v at
        → ¬ (IsWithin (below b v at) x × IsWithin (above b v at) x) }
{}

/// A box has as many points as the two parts of a split together, and both have points where the box has any.
pub fn split_divides_count()
    ensures sum { (b : Bounds) (v : ℕ) (at : ℤ) → CanSplit b v at
        → point_count b ≡ point_count (below b v at) + point_count (above b v at) }
    ensures parts { (b : Bounds) (v : ℕ) (at : ℤ) → CanSplit b v at → 0 < point_count b
        → (0 < point_count (below b v at)) × (0 < point_count (above b v at)) }
{}
