//! Numbers with 36 bits behind the point. What would pass 128 bits is `None`.

/// The number 1.
pub const ONE: i128 = 68_719_476_736;

/// Magnitudes below this one are taken for 0.
const DUST: u128 = 4_096;

/// The product of two numbers, rounded down.
pub fn product(left: &i128, right: &i128) -> Option<i128> {
    match left.checked_mul(*right) {
        None => None,
        Some(whole) => Some(whole >> 36),
    }
}

/// The quotient of two numbers, rounded towards 0. `None` where the divisor is 0, too.
pub fn quotient(left: &i128, right: &i128) -> Option<i128> {
    match left.checked_mul(ONE) {
        None => None,
        Some(whole) => whole.checked_div(*right),
    }
}

/// The number, or 0 where it is nearly 0.
pub fn tidied(value: &i128) -> i128 {
    if value.unsigned_abs() < DUST {
        0
    } else {
        *value
    }
}

/// A number with a product more, tidied.
pub fn sum_with(sum: &i128, left: &i128, right: &i128) -> Option<i128> {
    match product(left, right) {
        None => None,
        Some(addend) => match sum.checked_add(addend) {
            None => None,
            Some(value) => Some(tidied(&value)),
        },
    }
}

/// A number times a power of two, rounded down.
pub fn scaled(value: &i128, power: i32) -> Option<i128> {
    let places = power.unsigned_abs();
    if places < 127 {
        if power < 0 {
            Some(*value >> places)
        } else {
            value.checked_mul(1i128 << places)
        }
    } else if power < 0 {
        Some(0)
    } else {
        None
    }
}

/// How many bits a magnitude has.
pub fn bits_of(magnitude: u128) -> i32 {
    128u32.saturating_sub(magnitude.leading_zeros()) as i32
}

/// The number at a place, 0 where there is none.
pub fn number_at(numbers: &[i128], place: usize) -> i128 {
    if place < numbers.len() {
        numbers[place]
    } else {
        0
    }
}

/// Puts a number at a place, where there is one.
pub fn put(numbers: &mut [i128], place: usize, value: &i128) {
    if place < numbers.len() {
        numbers[place] = *value;
    }
}

/// Sets all numbers to 0.
pub fn clear(numbers: &mut [i128]) {
    for place in 0..numbers.len() {
        numbers[place] = 0;
    }
}

/// A smaller distance from a whole number counts for none.
const NEARLY: u64 = 65_536;

/// The whole part of a number, rounded down, and how many parts of 2^36 are above it; a number that is nearly whole is
/// taken for whole. `None` where the whole part passes 64 bits.
pub fn parts_of(value: &i128) -> Option<(i64, u64)> {
    let nudged = value.checked_add(i128::from(NEARLY))?;
    let whole = nudged >> 36;
    let rest = nudged.checked_sub(whole.checked_mul(ONE)?)?;
    let part = match u64::try_from(rest) {
        Err(_) => 0,
        Ok(part) => part,
    };
    let above = if part < 2 * NEARLY { 0 } else { part - NEARLY };
    match i64::try_from(whole) {
        Err(_) => None,
        Ok(floor) => Some((floor, above)),
    }
}
