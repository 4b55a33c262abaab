//! The least and the greatest value of a row over a box.

ghost use Rattle.std.specs.Prelude.{◌≡◌, ◌≤ℤ◌, List, ℤ};
ghost use Rattle.sp_model.specs.Boxes.{IsWithin};
ghost use Rattle.sp_model.specs.Sums.{sum_at};
ghost use Rattle.sp_sums.specs.Extremes.{least_over, most_over};
ghost use Rattle.sp_sums.specs.Ranges.{IsFilled};
ghost use Rattle.sp_sums.specs.Rows.{IsRowFit};

use sp_model::{BoxOf, Row};
use sp_sums::{span_over, sums_are_reached, sums_lie_between};

/// The least value of the row's sum over a box without an empty range.
pub fn least(row: &Row, bounds: &BoxOf) -> i128
    requires fit { IsRowFit bounds.now row.now }
    requires filled { IsFilled bounds.now }
    ensures exact { result ≡ least_over bounds.now row.now.terms }
    ensures least { (x : List ℤ) → IsWithin bounds.now x → result ≤ℤ sum_at row.now.terms x }
    ensures reached { (x : List ℤ) × IsWithin bounds.now x × (sum_at row.now.terms x ≡ result) }
{
    sums_lie_between();
    sums_are_reached();
    let span = span_over(row.terms.as_slice(), bounds);
    span.least
}

/// The greatest value of the row's sum over a box without an empty range.
pub fn most(row: &Row, bounds: &BoxOf) -> i128
    requires fit { IsRowFit bounds.now row.now }
    requires filled { IsFilled bounds.now }
    ensures exact { result ≡ most_over bounds.now row.now.terms }
    ensures most { (x : List ℤ) → IsWithin bounds.now x → sum_at row.now.terms x ≤ℤ result }
    ensures reached { (x : List ℤ) × IsWithin bounds.now x × (sum_at row.now.terms x ≡ result) }
{
    sums_lie_between();
    sums_are_reached();
    let span = span_over(row.terms.as_slice(), bounds);
    span.most
}
