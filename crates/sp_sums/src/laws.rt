//! Laws of the sums over a box and of the columns: each is the contract of a function that does nothing.

ghost use Rattle.std.specs.Prelude.{◌≡◌, ◌↔◌, ◌≤ℤ◌, ℕ, List, true, false, ℤ};
ghost use Rattle.sp_model.specs.Boxes.{Bounds, IsWithin};
ghost use Rattle.sp_model.specs.Models.{row_holds};
ghost use Rattle.sp_model.specs.Sums.{Term, sum_at};
ghost use Rattle.sp_model.specs.declared.parts.Row.{Row as RowOf};
ghost use Rattle.sp_sums.specs.Columns.{IsColumn, column_of};
ghost use Rattle.sp_sums.specs.Extremes.{AreTermsNarrow, IsSpanned, IsReached, IsBelowSide, IsAboveSide, span_of, most_over, least_over, is_low, is_high, is_broken_over};
ghost use Rattle.sp_sums.specs.Ranges.{IsFilled, IsInside, IsPointBox};
ghost use Rattle.sp_sums.specs.Rows.{AreRowsFit, IsRowFit};

/// The sum at each point of a box lies between the least and the greatest over it.
pub fn sums_lie_between()
    ensures { (b : Bounds) (ts : List Term) → IsSpanned b ts }
{}

/// Both are the sum at a point, where no range is empty and no variable stands twice.
pub fn sums_are_reached()
    ensures { (b : Bounds) (row : RowOf) → IsFilled b → IsRowFit b row → IsReached b row.terms }
{}

/// A row is low where its greatest sum is below its least side, and high where its least sum is above its greatest side.
pub fn low_and_high_are_by_sides()
    ensures low { (b : Bounds) (row : RowOf) → (is_low row (span_of b row) ≡ true) ↔ IsBelowSide row.lo (most_over b row.terms) }
    ensures high { (b : Bounds) (row : RowOf) → (is_high row (span_of b row) ≡ true) ↔ IsAboveSide row.hi (least_over b row.terms) }
{}

/// A row that holds at a point of the box isn't broken over the box.
pub fn broken_rows_hold_nowhere()
    ensures { (b : Bounds) (row : RowOf) (x : List ℤ) → IsWithin b x → row_holds row x ≡ true → is_broken_over b row ≡ false }
{}

/// A variable's column has exactly its terms, by rising row.
pub fn columns_are_exact()
    ensures { (root : Bounds) (rows : List RowOf) (j : ℕ) → AreRowsFit root rows → IsColumn j rows (column_of j rows) }
{}

/// A fit row stays within 10^36 over each box inside the root.
pub fn rows_are_narrow_inside()
    ensures { (root b : Bounds) (row : RowOf) → IsRowFit root row → IsInside root b → AreTermsNarrow b row.terms }
{}

/// Over a box inside another the least sum is no less, and the greatest no greater.
pub fn sums_narrow_inside()
    ensures least { (b inner : Bounds) (ts : List Term) → IsInside b inner → least_over b ts ≤ℤ least_over inner ts }
    ensures most { (b inner : Bounds) (ts : List Term) → IsInside b inner → most_over inner ts ≤ℤ most_over b ts }
{}

/// What is low or high over a box is so over each box inside it.
pub fn broken_rows_stay_broken()
    ensures low { (b inner : Bounds) (row : RowOf) → IsInside b inner → is_low row (span_of b row) ≡ true → is_low row (span_of inner row) ≡ true }
    ensures high { (b inner : Bounds) (row : RowOf) → IsInside b inner → is_high row (span_of b row) ≡ true → is_high row (span_of inner row) ≡ true }
{}

/// On a box of one point both sums are the sum at that point.
pub fn sums_meet_at_a_point()
    ensures { (b : Bounds) (ts : List Term) (x : List ℤ) → IsPointBox b x → (least_over b ts ≡ sum_at ts x) × (most_over b ts ≡ sum_at ts x) }
{}
