//! The side of a kept row above which its list closes.

ghost use Rattle.std.specs.Prelude.{◌≡◌, ◌^◌, ◌≤◌, ◌≤ℤ◌, ◌-ℤ◌, ◌*ℤ◌, pos, unsigned_abs};
ghost use Rattle.sp_bound.specs.Inner.{IsSideAt, IsSideOf, far_side, side_or_far};

use crate::numbers::{less, times};
use sp_model::quotients_are_exact;

/// The side of a row where the number passed 128 bits: none for one above 0, else the least that there is.
fn far_side(number: &i128) -> Option<i128>
    ensures { result ≡ far_side number.now }
{
    if 0 < *number { None } else { Some(i128::MIN) }
}

/// The side that a sum of least values passes exactly where the bound passes the threshold. There is no division.
pub fn closing_side(
    threshold: &Option<i128>,
    constant: &i128,
    divisor: &i128,
    sides: &i128,
) -> Option<i128>
    requires constant { unsigned_abs constant.now ≤ 10 ^ 36 }
    requires divisor { pos 1 ≤ℤ divisor.now }
    requires sides { unsigned_abs sides.now ≤ 10 ^ 36 }
    ensures { IsSideOf threshold.now constant.now divisor.now sides.now result }
{
    quotients_are_exact();
    match threshold {
        None => None,
        Some(threshold) => side_of_threshold(threshold, constant, divisor, sides),
    }
}

/// The same side, from a threshold.
fn side_of_threshold(
    threshold: &i128,
    constant: &i128,
    divisor: &i128,
    sides: &i128,
) -> Option<i128>
    requires constant { unsigned_abs constant.now ≤ 10 ^ 36 }
    requires divisor { pos 1 ≤ℤ divisor.now }
    requires sides { unsigned_abs sides.now ≤ 10 ^ 36 }
    ensures { IsSideAt (divisor.now *ℤ (threshold.now -ℤ constant.now)) sides.now result }
{
    let excess = less(threshold, constant);
    match &excess {
        None => far_side(threshold),
        Some(excess) => side_of_excess(excess, divisor, sides),
    }
}

/// The same side, from the threshold without the constant.
fn side_of_excess(excess: &i128, divisor: &i128, sides: &i128) -> Option<i128>
    requires divisor { pos 1 ≤ℤ divisor.now }
    requires sides { unsigned_abs sides.now ≤ 10 ^ 36 }
    ensures { IsSideAt (divisor.now *ℤ excess.now) sides.now result }
{
    let product = times(divisor, excess);
    match &product {
        None => far_side(excess),
        Some(product) => side_of_product(product, sides),
    }
}

/// The same side, from the product.
fn side_of_product(product: &i128, sides: &i128) -> Option<i128>
    requires { unsigned_abs sides.now ≤ 10 ^ 36 }
    ensures { IsSideAt product.now sides.now result }
{
    let side = less(product, sides);
    side_or_far(product, &side)
}

/// The side, and the far side of the number where it has none.
fn side_or_far(number: &i128, side: &Option<i128>) -> Option<i128>
    ensures { result ≡ side_or_far number.now side.now }
{
    match side {
        None => far_side(number),
        Some(side) => Some(*side),
    }
}
