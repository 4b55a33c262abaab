//! Laws of models: each is the contract of a function that does nothing.

ghost use Rattle.std.specs.Prelude.{◌≡◌, ◌↔◌, ◌≤◌, ◌&&◌, ◌<ℤ◌, ◌≤ℤ◌, ◌*ℤ◌, ℕ, All, Contains, List, Option, ℤ, length, map, pos, unsigned_abs, IsTrue};
ghost use Rattle.std.specs.List.Sorted.{IsStrictlySortedBy};
ghost use Rattle.sp_model.specs.declared.parts.ModelParts.{ModelParts};
ghost use Rattle.sp_model.specs.Boxes.{IsBetween, IsWithin, lex_cmp, lies_in, range_at};
ghost use Rattle.sp_model.specs.Limits.{greatest_bound, greatest_width, most_variables};
ghost use Rattle.sp_model.specs.Models.{Feasible, constraints_hold, feasible_points, objective, root_of};
ghost use Rattle.sp_model.specs.Rounds.{ceiling_of, closed, floor_of, rounded};
ghost use Rattle.sp_model.specs.Rules.{AreVariablesLawful, IsLawful};
ghost use Rattle.sp_model.specs.Stated.{Core, IsClosedRange, core_allows, open_at, stated_of, widened};

/// A law: the objective of a lawful model has a magnitude of at most 10^36 within the closed box.
pub fn objective_is_small()
    ensures { (m : ModelParts) (x : List ℤ) → IsLawful m → IsWithin (root_of m) x → unsigned_abs (objective m x) ≤ greatest_width }
{}

/// A law: the closed box of a lawful model has a range for each variable, and at most 2,000.
pub fn root_is_short()
    ensures long { (m : ModelParts) → AreVariablesLawful m → length (root_of m) ≡ length m.lower }
    ensures stated { (m : ModelParts) → AreVariablesLawful m → length (stated_of m) ≡ length m.lower }
    ensures lawful { (m : ModelParts) → IsLawful m → length (root_of m) ≡ length m.lower }
    ensures short { (m : ModelParts) → IsLawful m → length (root_of m) ≤ most_variables }
{}

/// A law: every point that is feasible lies within the closed box of a lawful model, although a missing bound excludes
/// nothing.
pub fn feasible_is_within()
    ensures { (m : ModelParts) (x : List ℤ) → IsLawful m → Feasible m x → IsWithin (root_of m) x }
{}

/// A law: the rounds change no bound that is stated.
pub fn stated_bounds_stay()
    ensures lower { (m : ModelParts) (j : ℕ) (v : ℤ) → (open_at (stated_of m) j).0 ≡ Some v → (range_at (root_of m) j).0 ≡ v }
    ensures upper { (m : ModelParts) (j : ℕ) (v : ℤ) → (open_at (stated_of m) j).1 ≡ Some v → (range_at (root_of m) j).1 ≡ v }
{}

/// A law: where no bound is missing, the closed box is that of the stated bounds.
pub fn closed_box_is_stated()
    ensures rounded { (m : ModelParts) → All IsClosedRange (stated_of m) → rounded m ≡ stated_of m }
    ensures root { (m : ModelParts) → All IsClosedRange (stated_of m) → root_of m ≡ map closed (stated_of m) }
{}

/// A law: the bounds of the closed box of a lawful model have a magnitude of at most 10^15.
pub fn root_is_near()
    ensures least { (m : ModelParts) (j : ℕ) → IsLawful m → unsigned_abs (range_at (root_of m) j).0 ≤ greatest_bound }
    ensures greatest { (m : ModelParts) (j : ℕ) → IsLawful m → unsigned_abs (range_at (root_of m) j).1 ≤ greatest_bound }
{}

/// A law: within the closed box of a lawful model, the test tells whether a point is feasible, and no other point is.
pub fn feasible_is_tested()
    ensures within { (m : ModelParts) (x : List ℤ) → IsLawful m → IsWithin (root_of m) x →
        IsTrue (constraints_hold m x) ↔ Feasible m x }
    ensures exact { (m : ModelParts) (x : List ℤ) → IsLawful m →
        IsTrue (lies_in (root_of m) x && constraints_hold m x) ↔ Feasible m x }
{}

/// A law: the points of the closed box that pass each constraint are the feasible ones, in strictly lexicographic order.
pub fn feasible_points_are_all()
    ensures all { (m : ModelParts) (x : List ℤ) → IsLawful m → Contains (feasible_points m) x ↔ Feasible m x }
    ensures rising { (m : ModelParts) → IsStrictlySortedBy lex_cmp (feasible_points m) }
{}

/// A law: what a core allows lies within its widened bounds, and an empty core allows 0 alone.
pub fn widened_holds_core()
    ensures within { (c : Core) (v : ℤ) → IsTrue (core_allows c v) → IsBetween (widened c) v }
    ensures empty { (c : Core) (v : ℤ) → c.2 <ℤ c.1 → IsTrue (core_allows c v) → v ≡ pos 0 }
{}

/// A law: what a rule takes for a quotient is the greatest whole number that isn't above it, or the least that isn't below.
pub fn quotients_are_exact()
    ensures floor { (d a v : ℤ) → pos 0 <ℤ a → ((a *ℤ v) ≤ℤ d) ↔ (v ≤ℤ floor_of d a) }
    ensures floor_below { (d a v : ℤ) → a <ℤ pos 0 → (d ≤ℤ (a *ℤ v)) ↔ (v ≤ℤ floor_of d a) }
    ensures ceiling { (d a v : ℤ) → pos 0 <ℤ a → (d ≤ℤ (a *ℤ v)) ↔ (ceiling_of d a ≤ℤ v) }
    ensures ceiling_below { (d a v : ℤ) → a <ℤ pos 0 → ((a *ℤ v) ≤ℤ d) ↔ (ceiling_of d a ≤ℤ v) }
{}
