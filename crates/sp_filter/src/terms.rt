//! What a term of a filter adds to the sum, at a point and over a box.

ghost use Rattle.std.specs.Prelude.{◌≡◌, ◌^◌, ◌<◌, ◌≤◌, length, pos, ◌-ℤ◌, ◌*ℤ◌, unsigned_abs};
ghost use Rattle.sp_model.specs.Boxes.{coordinate, range_at, natural};
ghost use Rattle.sp_filter.specs.Filters.{multiple_at, distance_at, distance, least_multiple, most_multiple, nearest, farthest, distances, multiple_width, distance_width, box_at};

use sp_model::{BoxOf, VarId};

/// The coefficient times the value.
pub(crate) fn multiple(term: &(VarId, i128), x: &[i64]) -> i128
    requires known { term.now.0 < length x.now }
    requires small { multiple_width (box_at x.now) term.now ≤ 10 ^ 36 }
    ensures { result ≡ multiple_at x.now term.now }
{
    term.1 * i128::from(x[term.0.index()])
}

/// How far the value is from the reference.
fn distance_between(value: &i64, reference: &i64) -> u64
    ensures { result ≡ distance value.now reference.now }
{
    value.abs_diff(*reference)
}

/// The number, so many times.
fn times(a: &i128, count: u64) -> i128
    requires { unsigned_abs (a.now *ℤ pos count) ≤ 10 ^ 36 }
    ensures { result ≡ a.now *ℤ pos count }
{
    *a * i128::from(count)
}

/// The weight times the distance.
pub(crate) fn weighted(term: &(VarId, i128, i64), x: &[i64]) -> i128
    requires known { term.now.0 < length x.now }
    requires small { distance_width (box_at x.now) term.now ≤ 10 ^ 36 }
    ensures { result ≡ distance_at x.now term.now }
{
    times(&term.1, distance_between(&x[term.0.index()], &term.2))
}

/// How far the first number is above the second, 0 where it isn't.
fn excess(above: &i64, below: &i64) -> u64
    ensures { result ≡ natural (above.now -ℤ below.now) }
{
    if *below < *above {
        above.abs_diff(*below)
    } else {
        0
    }
}

/// The product of two numbers.
fn product(a: &i128, b: &i128) -> i128
    requires { unsigned_abs (a.now *ℤ b.now) ≤ 10 ^ 36 }
    ensures { result ≡ a.now *ℤ b.now }
{
    *a * *b
}

/// The lesser of the number's multiples by the two ends.
fn lesser_multiple(a: &i128, ends: &(i128, i128)) -> i128
    requires low { unsigned_abs (a.now *ℤ ends.now.0) ≤ 10 ^ 36 }
    requires high { unsigned_abs (a.now *ℤ ends.now.1) ≤ 10 ^ 36 }
    ensures { result ≡ least_multiple a.now ends.now }
{
    product(a, &ends.0).min(product(a, &ends.1))
}

/// The greater of the number's multiples by the two ends.
fn greater_multiple(a: &i128, ends: &(i128, i128)) -> i128
    requires low { unsigned_abs (a.now *ℤ ends.now.0) ≤ 10 ^ 36 }
    requires high { unsigned_abs (a.now *ℤ ends.now.1) ≤ 10 ^ 36 }
    ensures { result ≡ most_multiple a.now ends.now }
{
    product(a, &ends.0).max(product(a, &ends.1))
}

/// The range of the variable.
fn ends_of(bounds: &BoxOf, var: VarId) -> (i128, i128)
    requires { var < length bounds.now }
    ensures { result ≡ range_at bounds.now var }
{
    let (least, greatest) = bounds.range(var);
    (i128::from(least), i128::from(greatest))
}

/// The least and the greatest distance of the range's values from the reference.
fn distances_between(range: &(i64, i64), reference: &i64) -> (i128, i128)
    ensures { result ≡ distances range.now reference.now }
{
    let near = excess(&range.0, reference).max(excess(reference, &range.1));
    let far = distance_between(&range.0, reference).max(distance_between(&range.1, reference));
    (i128::from(near), i128::from(far))
}

/// The least and the greatest distance of the variable's values from the reference.
fn distances_of(bounds: &BoxOf, var: VarId, reference: &i64) -> (i128, i128)
    requires { var < length bounds.now }
    ensures { result ≡ distances (range_at bounds.now var) reference.now }
{
    distances_between(&bounds.range(var), reference)
}

/// The least multiple of the variable's values by the coefficient.
pub(crate) fn least_of_multiple(term: &(VarId, i128), bounds: &BoxOf) -> i128
    requires known { term.now.0 < length bounds.now }
    requires small { multiple_width bounds.now term.now ≤ 10 ^ 36 }
    ensures { result ≡ least_multiple term.now.1 (range_at bounds.now term.now.0) }
{
    lesser_multiple(&term.1, &ends_of(bounds, term.0))
}

/// The greatest multiple of the variable's values by the coefficient.
pub(crate) fn most_of_multiple(term: &(VarId, i128), bounds: &BoxOf) -> i128
    requires known { term.now.0 < length bounds.now }
    requires small { multiple_width bounds.now term.now ≤ 10 ^ 36 }
    ensures { result ≡ most_multiple term.now.1 (range_at bounds.now term.now.0) }
{
    greater_multiple(&term.1, &ends_of(bounds, term.0))
}

/// The least multiple of the distances by the weight.
pub(crate) fn least_of_weighted(term: &(VarId, i128, i64), bounds: &BoxOf) -> i128
    requires known { term.now.0 < length bounds.now }
    requires small { distance_width bounds.now term.now ≤ 10 ^ 36 }
    ensures { result ≡ least_multiple term.now.1 (distances (range_at bounds.now term.now.0) term.now.2) }
{
    lesser_multiple(&term.1, &distances_of(bounds, term.0, &term.2))
}

/// The greatest multiple of the distances by the weight.
pub(crate) fn most_of_weighted(term: &(VarId, i128, i64), bounds: &BoxOf) -> i128
    requires known { term.now.0 < length bounds.now }
    requires small { distance_width bounds.now term.now ≤ 10 ^ 36 }
    ensures { result ≡ most_multiple term.now.1 (distances (range_at bounds.now term.now.0) term.now.2) }
{
    greater_multiple(&term.1, &distances_of(bounds, term.0, &term.2))
}
