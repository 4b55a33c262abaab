//! Sums of terms at a point, and what is left of a width beside them.

ghost use Rattle.std.specs.Prelude.{◌≡◌, ◌+◌, ◌-◌, ◌*◌, ◌^◌, ◌<◌, ◌≤◌, All, length, ◌+ℤ◌, ◌*ℤ◌, unsigned_abs, SomeIff};
ghost use Rattle.sp_model.specs.Boxes.{coordinate, range_at};
ghost use Rattle.sp_model.specs.Sums.{sum_at, magnitude, reach, width_over, side_width};

use crate::boxes::BoxOf;
use crate::ids::VarId;

fn value_at(term: &(VarId, i128), x: &[i64]) -> i128
    requires known { term.now.0 < length x.now }
    requires small { unsigned_abs (term.now.1 *ℤ coordinate x.now term.now.0) ≤ 10 ^ 36 }
    ensures { result ≡ term.now.1 *ℤ coordinate x.now term.now.0 }
{
    term.1 * i128::from(x[term.0.index()])
}

/// The sum of the terms at the point, and of the number that it starts from.
pub fn sum_from(start: &i128, terms: &[(VarId, i128)], x: &[i64]) -> i128
    requires known { All (λ t. t.0 < length x.now) terms.now }
    requires small { unsigned_abs start.now + magnitude terms.now x.now ≤ 10 ^ 36 }
    ensures exact { result ≡ start.now +ℤ sum_at terms.now x.now }
    ensures small { unsigned_abs result ≤ 10 ^ 36 }
{
    let mut sum = *start;
    for term in terms {
        sum += value_at(term, x);
    }
    sum
}

/// How far a value of a range can be from 0, and at least 1.
fn reach_of_range(range: &(i64, i64)) -> u128
    ensures { result ≡ reach range.now }
{
    u128::from(range.0.unsigned_abs().max(range.1.unsigned_abs()).max(1))
}

/// How far a value of the variable can be from 0, and at least 1.
fn reach_of(root: &BoxOf, var: VarId) -> u128
    requires { var < length root.now }
    ensures { result ≡ reach (range_at root.now var) }
{
    reach_of_range(&root.range(var))
}

/// The magnitude of a number.
pub fn size_of(value: &i128) -> u128
    ensures { result ≡ unsigned_abs value.now }
{
    value.unsigned_abs()
}

/// What is left of the room beside the width of the terms, or `None` where they are wider than the room.
pub fn room_beside(root: &BoxOf, terms: &[(VarId, i128)], room: u128) -> Option<u128>
    requires { All (λ t. t.0 < length root.now) terms.now }
    ensures { SomeIff result (width_over root.now terms.now ≤ room) (room - width_over root.now terms.now) }
{
    let mut left = room;
    for term in terms {
        let reach = reach_of(root, term.0);
        let size = size_of(&term.1);
        if size > left / reach {
            return None;
        }
        left -= size * reach;
    }
    Some(left)
}

/// The magnitude of a side, 0 where there is none.
pub fn side_size(side: &Option<i128>) -> u128
    ensures { result ≡ side_width side.now }
{
    match side {
        None => 0,
        Some(value) => size_of(value),
    }
}
