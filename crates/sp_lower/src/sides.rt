//! The sides of a row in whole units.
ghost use Rattle.std.specs.Prelude.{◌≡◌, ◌<◌, ◌≤◌, ◌*◌, ◌^◌, max, option_map, pos, neg_ℤ, ◌+ℤ◌, ◌-ℤ◌, unsigned_abs, SomeIff, Some, if◌then◌else◌};
ghost use Rattle.std.specs.Option.{option_zip};
ghost use Rattle.sp_decimal.specs.DecimalFraction.{most_places as limit_of_places};
ghost use Rattle.sp_model.specs.Sums.{side_width};
ghost use Rattle.sp_scaling.specs.Scaling.{greatest_width, units};
ghost use Rattle.sp_lower.specs.Sides.{kept_below, kept_above, places_of, kept_places, side_places, side_units, goes_down, reach_below, reach_above, lower_side, upper_side};

use crate::bounds::{is_endless_above, is_endless_below};
use sp_decimal::{Decimal, Numeral, scaled};
use sp_draft::{Sense, Sides};

/// No sum's width is greater.
const GREATEST_WIDTH: u128 = 1_000_000_000_000_000_000_000_000_000_000_000_000;

/// The lower side, if it is kept.
fn kept_below(side: &Numeral) -> Option<Numeral>
    ensures { result ≡ kept_below side.now }
{
    if is_endless_below(side) {
        None
    } else {
        Some(*side)
    }
}

/// The upper side, if it is kept.
fn kept_above(side: &Numeral) -> Option<Numeral>
    ensures { result ≡ kept_above side.now }
{
    if is_endless_above(side) {
        None
    } else {
        Some(*side)
    }
}

/// The decimal places of a number, at most 30; a huge one has none.
fn places_of(number: &Numeral) -> u8
    ensures value { result ≡ places_of number.now }
    ensures few { result ≤ limit_of_places }
{
    match number {
        Numeral::Exact(d) => d.s,
        Numeral::Huge { negative: _ } => 0,
    }
}

/// The decimal places of a side that is kept; 0 where none is.
fn kept_places(side: &Option<Numeral>) -> u8
    ensures value { result ≡ kept_places side.now }
    ensures few { result ≤ limit_of_places }
{
    match side {
        None => 0,
        Some(number) => places_of(number),
    }
}

/// The most decimal places among the numbers that are kept, a range among them.
pub(crate) fn side_places(sides: &Sides) -> u8
    ensures value { result ≡ side_places sides.now }
    ensures few { result ≤ limit_of_places }
{
    match sides {
        Sides::Le(v) => kept_places(&kept_above(v)),
        Sides::Ge(v) => kept_places(&kept_below(v)),
        Sides::Eq(v) => places_of(v),
        Sides::Between(v, w) => kept_places(&kept_below(v)).max(kept_places(&kept_above(w))),
        Sides::Ranged {
            sense: _,
            rhs,
            range,
        } => places_of(rhs).max(range.s),
    }
}

/// The number, where its magnitude is at most 10^36.
fn if_narrow(number: &i128) -> Option<i128>
    ensures { SomeIff result (unsigned_abs number.now ≤ greatest_width) number.now }
{
    if number.unsigned_abs() <= GREATEST_WIDTH {
        Some(*number)
    } else {
        None
    }
}

/// The number in units of 10^-places, where it is at most 10^36 in magnitude. One that 128 bits can't hold isn't.
fn side_units(number: &Numeral, places: u8) -> Option<i128>
    requires scale { places_of number.now ≤ places }
    requires places { places ≤ limit_of_places }
    ensures { let side = side_units places number.now in SomeIff result (unsigned_abs side ≤ greatest_width) side }
{
    match number {
        Numeral::Huge { negative: _ } => None,
        Numeral::Exact(d) => match scaled(d, places) {
            None => None,
            Some(units) => if_narrow(&units),
        },
    }
}

/// The side in such units, if one is kept, where it is at most 10^36 in magnitude.
fn kept_units(side: &Option<Numeral>, places: u8) -> Option<Option<i128>>
    requires scale { kept_places side.now ≤ places }
    requires places { places ≤ limit_of_places }
    ensures { let kept = option_map (side_units places) side.now in SomeIff result (side_width kept ≤ greatest_width) kept }
{
    match side {
        None => Some(None),
        Some(number) => match side_units(number, places) {
            None => None,
            Some(units) => Some(Some(units)),
        },
    }
}

/// Whether the range goes down from the right-hand side.
fn goes_down(sense: Sense, range: &Decimal) -> bool
    ensures { result ≡ goes_down sense range.now.p }
{
    match sense {
        Sense::Less => true,
        Sense::Greater => false,
        Sense::Equal => range.p < 0,
    }
}

/// What lies so far below the right-hand side, where that is at most 10^36 in magnitude.
fn far_below(rhs: &i128, range: &i128) -> Option<i128>
    requires { unsigned_abs rhs.now ≤ greatest_width }
    ensures { let far = rhs.now -ℤ pos (unsigned_abs range.now) in SomeIff result (unsigned_abs far ≤ greatest_width) far }
{
    let size = range.unsigned_abs();
    if size > 2 * GREATEST_WIDTH {
        None
    } else {
        if_narrow(&(*rhs - size as i128))
    }
}

/// What lies so far above the right-hand side, where that is at most 10^36 in magnitude.
fn far_above(rhs: &i128, range: &i128) -> Option<i128>
    requires { unsigned_abs rhs.now ≤ greatest_width }
    ensures { let far = rhs.now +ℤ pos (unsigned_abs range.now) in SomeIff result (unsigned_abs far ≤ greatest_width) far }
{
    let size = range.unsigned_abs();
    if size > 2 * GREATEST_WIDTH {
        None
    } else {
        if_narrow(&(*rhs + size as i128))
    }
}

/// The sides of a range, where both are at most 10^36 in magnitude.
fn spread(down: bool, rhs: &i128, range: &i128) -> Option<(Option<i128>, Option<i128>)>
    requires { unsigned_abs rhs.now ≤ greatest_width }
    ensures { let below = rhs.now -ℤ pos (if down then unsigned_abs range.now else 0) in
        let above = rhs.now +ℤ pos (if down then 0 else unsigned_abs range.now) in
        SomeIff result ((unsigned_abs below ≤ greatest_width) × (unsigned_abs above ≤ greatest_width)) (Some below, Some above) }
{
    if down {
        match far_below(rhs, range) {
            None => None,
            Some(far) => Some((Some(far), Some(*rhs))),
        }
    } else {
        match far_above(rhs, range) {
            None => None,
            Some(far) => Some((Some(*rhs), Some(far))),
        }
    }
}

/// The sides of a range in units of 10^-places, where both are at most 10^36 in magnitude.
fn ranged_sides(
    sense: Sense,
    rhs: &Numeral,
    range: &Decimal,
    places: u8,
) -> Option<(Option<i128>, Option<i128>)>
    requires rhs { places_of rhs.now ≤ places }
    requires range { range.now.s ≤ places }
    requires places { places ≤ limit_of_places }
    ensures { let below = side_units places rhs.now -ℤ pos (reach_below places sense range.now) in
        let above = side_units places rhs.now +ℤ pos (reach_above places sense range.now) in
        SomeIff result ((unsigned_abs below ≤ greatest_width) × (unsigned_abs above ≤ greatest_width)) (Some below, Some above) }
{
    match side_units(rhs, places) {
        None => None,
        Some(rhs) => match scaled(range, places) {
            None => None,
            Some(units) => spread(goes_down(sense, range), &rhs, &units),
        },
    }
}

/// Both sides, where both are narrow.
fn paired(
    lower: Option<Option<i128>>,
    upper: Option<Option<i128>>,
) -> Option<(Option<i128>, Option<i128>)>
    ensures { result ≡ option_zip lower upper }
{
    match lower {
        None => None,
        Some(lower) => match upper {
            None => None,
            Some(upper) => Some((lower, upper)),
        },
    }
}

/// The least and the greatest value that the sides leave, in units of 10^-places, where both are at most 10^36 in magnitude. A
/// huge side isn't, nor is one that 128 bits can't hold.
pub(crate) fn units_of_sides(sides: &Sides, places: u8) -> Option<(Option<i128>, Option<i128>)>
    requires scale { side_places sides.now ≤ places }
    requires places { places ≤ limit_of_places }
    ensures { let lower = lower_side places sides.now in
        let upper = upper_side places sides.now in
        SomeIff result ((side_width lower ≤ greatest_width) × (side_width upper ≤ greatest_width)) (lower, upper) }
{
    match sides {
        Sides::Le(v) => paired(Some(None), kept_units(&kept_above(v), places)),
        Sides::Ge(v) => paired(kept_units(&kept_below(v), places), Some(None)),
        Sides::Eq(v) => paired(kept_units(&Some(*v), places), kept_units(&Some(*v), places)),
        Sides::Between(v, w) => paired(
            kept_units(&kept_below(v), places),
            kept_units(&kept_above(w), places),
        ),
        Sides::Ranged { sense, rhs, range } => ranged_sides(*sense, rhs, range, places),
    }
}
