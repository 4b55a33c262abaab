//! Ranges, numbers and places, by calls that answer outside a list too.

use sp_model::{BoxOf, VarId};

/// The range of a variable, from 0 to 0 where the box doesn't have it.
pub fn range_at(bounds: &BoxOf, place: usize) -> (i64, i64) {
    let lower = bounds.lower.as_slice();
    let upper = bounds.upper.as_slice();
    if place < lower.len() && place < upper.len() {
        (lower[place], upper[place])
    } else {
        (0, 0)
    }
}

/// The variable at a place.
pub fn var_at(place: usize) -> Option<VarId> {
    match u32::try_from(place) {
        Ok(number) => Some(VarId::new(number)),
        Err(_) => None,
    }
}

/// The least value that a cost has over a range.
pub fn least_of(cost: &i128, range: &(i64, i64)) -> Option<i128> {
    if *cost < 0 {
        cost.checked_mul(i128::from(range.1))
    } else {
        cost.checked_mul(i128::from(range.0))
    }
}

/// The greatest number there is.
const FAR: u128 = 170_141_183_460_469_231_731_687_303_715_884_105_727;

/// How much a cost moves over a range, cut off at the greatest number there is.
pub fn reach_of(cost: &i128, range: &(i64, i64)) -> i128 {
    let width = i128::from(range.1).saturating_sub(i128::from(range.0));
    let reach = cost
        .unsigned_abs()
        .saturating_mul(width.unsigned_abs())
        .min(FAR);
    match i128::try_from(reach) {
        Ok(reach) => reach,
        Err(_) => i128::MAX,
    }
}

/// Adds a multiple of a number to the one at a place. `None` where a number passes 128 bits.
pub fn add_product(numbers: &mut [i128], place: usize, left: &i128, right: &i128) -> Option<()> {
    if place < numbers.len() {
        match left.checked_mul(*right) {
            None => return None,
            Some(product) => match numbers[place].checked_add(product) {
                None => return None,
                Some(sum) => numbers[place] = sum,
            },
        }
    }
    Some(())
}
