//! The rules by which a row closes a bound that is missing.

ghost use Rattle.std.specs.Prelude.{◌≡◌, ◌≢◌, ◌<◌, ◌≤◌, pos, unsigned_abs};
ghost use Rattle.sp_model.specs.Limits.{greatest_width};
ghost use Rattle.sp_model.specs.Rounds.{floor_of, ceiling_of, hi_upper, hi_lower, lo_lower, lo_upper, closed_by, after_rules};
ghost use Rattle.sp_model.specs.Sums.{side_width};

use crate::ends::{Ends, OpenRange, minus};
use crate::limits::GREATEST_BOUND;
use crate::parts::Row;

/// The greatest whole number not above the quotient.
fn floor_of(number: &i128, divisor: &i128) -> i128
    requires number { unsigned_abs number.now ≤ greatest_width }
    requires divisor { unsigned_abs divisor.now ≤ greatest_width }
    requires nonzero { divisor.now ≢ pos 0 }
    ensures value { result ≡ floor_of number.now divisor.now }
    ensures small { unsigned_abs result ≤ greatest_width }
{
    if 0 < *divisor {
        number.div_euclid(*divisor)
    } else {
        (-*number).div_euclid(-*divisor)
    }
}

/// The least whole number not below the quotient.
fn ceiling_of(number: &i128, divisor: &i128) -> i128
    requires number { unsigned_abs number.now ≤ greatest_width }
    requires divisor { unsigned_abs divisor.now ≤ greatest_width }
    requires nonzero { divisor.now ≢ pos 0 }
    ensures { result ≡ ceiling_of number.now divisor.now }
{
    -floor_of(&-*number, divisor)
}

/// The upper bound that the upper side gives a coefficient above 0.
fn hi_upper(hi: &Option<i128>, coefficient: &i128, least: &Option<i128>) -> Option<i128>
    requires hi { side_width hi.now ≤ greatest_width }
    requires coefficient { unsigned_abs coefficient.now ≤ greatest_width }
    requires least { side_width least.now ≤ greatest_width }
    ensures { result ≡ hi_upper hi.now coefficient.now least.now }
{
    if 0 < *coefficient {
        match minus(hi, least) {
            None => None,
            Some(left) => Some(floor_of(&left, coefficient)),
        }
    } else {
        None
    }
}

/// The lower bound that the upper side gives a coefficient below 0.
fn hi_lower(hi: &Option<i128>, coefficient: &i128, least: &Option<i128>) -> Option<i128>
    requires hi { side_width hi.now ≤ greatest_width }
    requires coefficient { unsigned_abs coefficient.now ≤ greatest_width }
    requires least { side_width least.now ≤ greatest_width }
    ensures { result ≡ hi_lower hi.now coefficient.now least.now }
{
    if *coefficient < 0 {
        match minus(hi, least) {
            None => None,
            Some(left) => Some(ceiling_of(&left, coefficient)),
        }
    } else {
        None
    }
}

/// The lower bound that the lower side gives a coefficient above 0.
fn lo_lower(lo: &Option<i128>, coefficient: &i128, greatest: &Option<i128>) -> Option<i128>
    requires lo { side_width lo.now ≤ greatest_width }
    requires coefficient { unsigned_abs coefficient.now ≤ greatest_width }
    requires greatest { side_width greatest.now ≤ greatest_width }
    ensures { result ≡ lo_lower lo.now coefficient.now greatest.now }
{
    if 0 < *coefficient {
        match minus(lo, greatest) {
            None => None,
            Some(asked) => Some(ceiling_of(&asked, coefficient)),
        }
    } else {
        None
    }
}

/// The upper bound that the lower side gives a coefficient below 0.
fn lo_upper(lo: &Option<i128>, coefficient: &i128, greatest: &Option<i128>) -> Option<i128>
    requires lo { side_width lo.now ≤ greatest_width }
    requires coefficient { unsigned_abs coefficient.now ≤ greatest_width }
    requires greatest { side_width greatest.now ≤ greatest_width }
    ensures { result ≡ lo_upper lo.now coefficient.now greatest.now }
{
    if *coefficient < 0 {
        match minus(lo, greatest) {
            None => None,
            Some(asked) => Some(floor_of(&asked, coefficient)),
        }
    } else {
        None
    }
}

/// The bound, or where it is missing the number that a rule gives, if its magnitude is a bound's.
fn closed_by(bound: &Option<i64>, number: &Option<i128>) -> Option<i64>
    ensures { result ≡ closed_by bound.now number.now }
{
    match (bound, number) {
        (Some(bound), _) => Some(*bound),
        (None, None) => None,
        (None, Some(number)) => as_bound(number),
    }
}

/// The number as a bound, if its magnitude is one's.
fn as_bound(number: &i128) -> Option<i64>
    ensures { result ≡ closed_by None (Some number.now) }
{
    if number.unsigned_abs() <= u128::from(GREATEST_BOUND) {
        Some(*number as i64)
    } else {
        None
    }
}

/// The lower bound after the rules.
fn lower_after(row: &Row, coefficient: &i128, bound: &Option<i64>, others: &Ends) -> Option<i64>
    requires coefficient { unsigned_abs coefficient.now ≤ greatest_width }
    requires lo { side_width row.now.lo ≤ greatest_width }
    requires hi { side_width row.now.hi ≤ greatest_width }
    requires least { side_width others.now.least ≤ greatest_width }
    requires greatest { side_width others.now.greatest ≤ greatest_width }
    ensures { result ≡
        closed_by (closed_by bound.now (hi_lower row.now.hi coefficient.now others.now.least)) (lo_lower row.now.lo coefficient.now others.now.greatest) }
{
    match bound {
        Some(bound) => Some(*bound),
        None => {
            let first = closed_by(&None, &hi_lower(&row.hi, coefficient, &others.least));
            closed_by(&first, &lo_lower(&row.lo, coefficient, &others.greatest))
        }
    }
}

/// The upper bound after the rules.
fn upper_after(row: &Row, coefficient: &i128, bound: &Option<i64>, others: &Ends) -> Option<i64>
    requires coefficient { unsigned_abs coefficient.now ≤ greatest_width }
    requires lo { side_width row.now.lo ≤ greatest_width }
    requires hi { side_width row.now.hi ≤ greatest_width }
    requires least { side_width others.now.least ≤ greatest_width }
    requires greatest { side_width others.now.greatest ≤ greatest_width }
    ensures { result ≡
        closed_by (closed_by bound.now (hi_upper row.now.hi coefficient.now others.now.least)) (lo_upper row.now.lo coefficient.now others.now.greatest) }
{
    match bound {
        Some(bound) => Some(*bound),
        None => {
            let first = closed_by(&None, &hi_upper(&row.hi, coefficient, &others.least));
            closed_by(&first, &lo_upper(&row.lo, coefficient, &others.greatest))
        }
    }
}

/// The bounds of a term's variable after the rules.
pub fn after_rules(row: &Row, coefficient: &i128, range: &OpenRange, others: &Ends) -> OpenRange
    requires coefficient { unsigned_abs coefficient.now ≤ greatest_width }
    requires lo { side_width row.now.lo ≤ greatest_width }
    requires hi { side_width row.now.hi ≤ greatest_width }
    requires least { side_width others.now.least ≤ greatest_width }
    requires greatest { side_width others.now.greatest ≤ greatest_width }
    ensures { result ≡ after_rules row.now coefficient.now range.now others.now.least others.now.greatest }
{
    (
        lower_after(row, coefficient, &range.0, others),
        upper_after(row, coefficient, &range.1, others),
    )
}
