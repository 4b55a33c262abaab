//! The objective in whole units.
ghost use Rattle.std.specs.Prelude.{◌≡◌, ◌-◌, ◌≤◌, map, length, unsigned_abs, SomeIff};
ghost use Rattle.sp_decimal.specs.DecimalFraction.{most_places as limit_of_places};
ghost use Rattle.sp_draft.specs.Drafts.{AreKnown};
ghost use Rattle.sp_scaling.specs.Scaling.{greatest_width, most_places_of, units, total, sizes, turned};
ghost use Rattle.sp_lower.specs.Objectives.{objective_places, whole_constants, is_wide_objective, model_constant};

use crate::rows::{GREATEST_WIDTH, room_beside_terms};
use sp_decimal::{Decimal, scaled};
use sp_model::{BoxOf, VarId};
use sp_scaling::{most_places, most_places_of, room_beside};

/// The scale of the objective: the most decimal places among its coefficients and constants.
pub(crate) fn objective_places(cost: &[(VarId, Decimal)], constants: &[Decimal]) -> u8
    ensures value { result ≡ objective_places cost.now constants.now }
    ensures few { result ≤ limit_of_places }
{
    most_places(cost).max(most_places_of(constants))
}

/// What is left of the room, at most 10^36, beside the magnitudes of the constants in units of 10^-places; `None` where
/// they add up to more.
fn room_beside_constants(constants: &[Decimal], places: u8, room: u128) -> Option<u128>
    requires scale { most_places_of constants.now ≤ places }
    requires places { places ≤ limit_of_places }
    requires room { room ≤ greatest_width }
    ensures { let width = sizes (map (units places) constants.now) in SomeIff result (width ≤ room) (room - width) }
{
    let mut left = room;
    for constant in constants {
        match room_beside(constant, places, 1, left) {
            None => return None,
            Some(rest) => left = rest,
        }
    }
    Some(left)
}

/// Whether the objective is wider than a model's may be, over the box.
pub(crate) fn is_wide_objective(
    root: &BoxOf,
    cost: &[(VarId, Decimal)],
    constants: &[Decimal],
) -> bool
    requires { AreKnown (length root.now) cost.now }
    ensures { result ≡ is_wide_objective root.now cost.now constants.now }
{
    let places = objective_places(cost, constants);
    match room_beside_terms(root, cost, places, GREATEST_WIDTH) {
        None => true,
        Some(left) => match room_beside_constants(constants, places, left) {
            None => true,
            Some(_) => false,
        },
    }
}

/// The number in units of 10^-places, where it is known to be small.
fn small_units(number: &Decimal, places: u8) -> i128
    requires scale { number.now.s ≤ places }
    requires places { places ≤ limit_of_places }
    requires small { unsigned_abs (units places number.now) ≤ greatest_width }
    ensures { result ≡ units places number.now }
{
    match scaled(number, places) {
        Some(units) => units,
        None => unreachable!(),
    }
}

/// The constants in units of 10^-places added up, where they are known to be small.
fn total_of(constants: &[Decimal], places: u8) -> i128
    requires scale { most_places_of constants.now ≤ places }
    requires places { places ≤ limit_of_places }
    requires small { sizes (map (units places) constants.now) ≤ greatest_width }
    ensures value { result ≡ total (map (units places) constants.now) }
    ensures small { unsigned_abs result ≤ greatest_width }
{
    let mut sum = 0;
    for constant in constants {
        sum += small_units(constant, places);
    }
    sum
}

/// The number, negated where the flag is set.
fn turned(negate: bool, value: &i128) -> i128
    requires { unsigned_abs value.now ≤ greatest_width }
    ensures { result ≡ turned negate value.now }
{
    if negate { -*value } else { *value }
}

/// The constant of the objective in the minimising direction, in units of 10^-places.
pub(crate) fn model_constant(maximize: bool, constants: &[Decimal], places: u8) -> i128
    requires scale { most_places_of constants.now ≤ places }
    requires places { places ≤ limit_of_places }
    requires small { sizes (map (units places) constants.now) ≤ greatest_width }
    ensures { result ≡ turned maximize (total (map (units places) constants.now)) }
{
    turned(maximize, &total_of(constants, places))
}
