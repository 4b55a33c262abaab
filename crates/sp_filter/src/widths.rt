//! Whether a filter fits a model: its variables, its weights and its width.

ghost use Rattle.std.specs.Prelude.{◌≡◌, ◌↔◌, ◌+◌, ◌-◌, ◌*◌, ◌^◌, ◌<◌, ◌≤◌, ◌≤ℤ◌, pos, max, All, length, IsTrue, SomeIff, unsigned_abs};
ghost use Rattle.sp_model.specs.Boxes.{range_at};
ghost use Rattle.sp_model.specs.Models.{root_of};
ghost use Rattle.sp_model.specs.Sums.{reach, side_width};
ghost use Rattle.sp_filter.specs.Filters.{count_total, multiple_width, distance_width};

use sp_model::{Model, VarId};

/// No filter's width is greater.
pub(crate) const GREATEST_WIDTH: u128 = 1_000_000_000_000_000_000_000_000_000_000_000_000;

/// Whether each variable is one of so many.
pub(crate) fn are_known(terms: &[(VarId, i128)], count: usize) -> bool
    ensures { IsTrue result ↔ All (λ t. t.0 < count) terms.now }
{
    terms.iter().all(|term| term.0.index() < count)
}

/// Whether each variable is one of so many.
pub(crate) fn are_weighted_known(terms: &[(VarId, i128, i64)], count: usize) -> bool
    ensures { IsTrue result ↔ All (λ t. t.0 < count) terms.now }
{
    terms.iter().all(|term| term.0.index() < count)
}

/// Whether no weight is negative.
pub(crate) fn are_weights_lawful(terms: &[(VarId, i128, i64)]) -> bool
    ensures { IsTrue result ↔ All (λ t. pos 0 ≤ℤ t.1) terms.now }
{
    terms.iter().all(|term| 0 <= term.1)
}

/// How far a value of the variable can be from 0, and at least 1.
pub(crate) fn reach_of(model: &Model, var: VarId) -> u128
    requires { var < length model.now.lower }
    ensures value { result ≡ reach (range_at (root_of model.now) var) }
    ensures small { result ≤ 2 ^ 64 }
{
    let (least, greatest) = model.bounds(var);
    u128::from(least.unsigned_abs().max(greatest.unsigned_abs()).max(1))
}

/// What is left of the room beside so many times a size, or `None` where that is more.
fn room_beside(room: u128, size: u128, times: u128) -> Option<u128>
    requires { 0 < times }
    ensures { SomeIff result (size * times ≤ room) (room - size * times) }
{
    if size > room / times {
        None
    } else {
        Some(room - size * times)
    }
}

/// What is left of the room beside the width of the terms, or `None` where they are wider.
pub(crate) fn room_beside_multiples(
    model: &Model,
    terms: &[(VarId, i128)],
    room: u128,
) -> Option<u128>
    requires { All (λ t. t.0 < length model.now.lower) terms.now }
    ensures { let width = count_total (multiple_width (root_of model.now)) terms.now in SomeIff result (width ≤ room) (room - width) }
{
    let mut left = room;
    for term in terms {
        match room_beside(left, size_of(&term.1), reach_of(model, term.0)) {
            None => return None,
            Some(rest) => left = rest,
        }
    }
    Some(left)
}

/// What is left of the room beside the width of the terms, or `None` where they are wider.
pub(crate) fn room_beside_distances(
    model: &Model,
    terms: &[(VarId, i128, i64)],
    room: u128,
) -> Option<u128>
    requires { All (λ t. t.0 < length model.now.lower) terms.now }
    ensures { let width = count_total (distance_width (root_of model.now)) terms.now in SomeIff result (width ≤ room) (room - width) }
{
    let mut left = room;
    for term in terms {
        let reach = reach_of(model, term.0) + u128::from(term.2.unsigned_abs());
        match room_beside(left, size_of(&term.1), reach) {
            None => return None,
            Some(rest) => left = rest,
        }
    }
    Some(left)
}

/// The magnitude of a number.
fn size_of(value: &i128) -> u128
    ensures { result ≡ unsigned_abs value.now }
{
    value.unsigned_abs()
}

/// What is left of the room beside the magnitude of a bound, or `None` where that is more.
pub(crate) fn room_beside_bound(bound: &Option<i128>, room: u128) -> Option<u128>
    ensures { SomeIff result (side_width bound.now ≤ room) (room - side_width bound.now) }
{
    match bound {
        None => Some(room),
        Some(value) => room.checked_sub(size_of(value)),
    }
}

/// Whether the room is enough for the magnitude of a bound.
pub(crate) fn is_roomy(bound: &Option<i128>, room: u128) -> bool
    ensures { IsTrue result ↔ (side_width bound.now ≤ room) }
{
    match room_beside_bound(bound, room) {
        None => false,
        Some(_) => true,
    }
}
