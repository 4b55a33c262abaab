//! The sums of a filter's terms, at a point and over a box.

ghost use Rattle.std.specs.Prelude.{◌≡◌, ◌^◌, ◌<◌, ◌≤◌, All, length, unsigned_abs};
ghost use Rattle.sp_model.specs.Boxes.{range_at};
ghost use Rattle.sp_filter.specs.Filters.{total, count_total, multiple_at, distance_at, least_multiple, most_multiple, distances, multiple_width, distance_width, box_at};

use crate::terms::{
    least_of_multiple, least_of_weighted, most_of_multiple, most_of_weighted, multiple, weighted,
};
use sp_model::{BoxOf, VarId};

/// The sum of the multiples at a point.
pub(crate) fn multiples(terms: &[(VarId, i128)], x: &[i64]) -> i128
    requires known { All (λ t. t.0 < length x.now) terms.now }
    requires narrow { count_total (multiple_width (box_at x.now)) terms.now ≤ 10 ^ 36 }
    ensures { result ≡ total (multiple_at x.now) terms.now }
{
    let mut sum = 0;
    for term in terms {
        sum += multiple(term, x);
    }
    sum
}

/// The sum of the weighted distances at a point.
pub(crate) fn weighted_distances(terms: &[(VarId, i128, i64)], x: &[i64]) -> i128
    requires known { All (λ t. t.0 < length x.now) terms.now }
    requires narrow { count_total (distance_width (box_at x.now)) terms.now ≤ 10 ^ 36 }
    ensures { result ≡ total (distance_at x.now) terms.now }
{
    let mut sum = 0;
    for term in terms {
        sum += weighted(term, x);
    }
    sum
}

/// The sum of the least multiples over a box.
pub(crate) fn least_multiples(terms: &[(VarId, i128)], bounds: &BoxOf) -> i128
    requires known { All (λ t. t.0 < length bounds.now) terms.now }
    requires narrow { count_total (multiple_width bounds.now) terms.now ≤ 10 ^ 36 }
    ensures { result ≡ total (λ t. least_multiple t.1 (range_at bounds.now t.0)) terms.now }
{
    let mut sum = 0;
    for term in terms {
        sum += least_of_multiple(term, bounds);
    }
    sum
}

/// The sum of the greatest multiples over a box.
pub(crate) fn most_multiples(terms: &[(VarId, i128)], bounds: &BoxOf) -> i128
    requires known { All (λ t. t.0 < length bounds.now) terms.now }
    requires narrow { count_total (multiple_width bounds.now) terms.now ≤ 10 ^ 36 }
    ensures { result ≡ total (λ t. most_multiple t.1 (range_at bounds.now t.0)) terms.now }
{
    let mut sum = 0;
    for term in terms {
        sum += most_of_multiple(term, bounds);
    }
    sum
}

/// The sum of the least weighted distances over a box.
pub(crate) fn least_distances(terms: &[(VarId, i128, i64)], bounds: &BoxOf) -> i128
    requires known { All (λ t. t.0 < length bounds.now) terms.now }
    requires narrow { count_total (distance_width bounds.now) terms.now ≤ 10 ^ 36 }
    ensures { result ≡ total (λ t. least_multiple t.1 (distances (range_at bounds.now t.0) t.2)) terms.now }
{
    let mut sum = 0;
    for term in terms {
        sum += least_of_weighted(term, bounds);
    }
    sum
}

/// The sum of the greatest weighted distances over a box.
pub(crate) fn most_distances(terms: &[(VarId, i128, i64)], bounds: &BoxOf) -> i128
    requires known { All (λ t. t.0 < length bounds.now) terms.now }
    requires narrow { count_total (distance_width bounds.now) terms.now ≤ 10 ^ 36 }
    ensures { result ≡ total (λ t. most_multiple t.1 (distances (range_at bounds.now t.0) t.2)) terms.now }
{
    let mut sum = 0;
    for term in terms {
        sum += most_of_weighted(term, bounds);
    }
    sum
}
