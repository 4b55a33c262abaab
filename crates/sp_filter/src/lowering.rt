//! From a drafted filter to whole numbers.

ghost use Rattle.std.specs.Prelude.{◌≡◌, ◌↔◌, ◌-◌, ◌+◌, ◌∷◌, [], ◌++◌, ◌^◌, ◌<◌, ◌≤◌, ◌≤ℤ◌, pos, max, All, length, unsigned_abs, IsTrue, IfOk, SomeIff};
ghost use Rattle.sp_decimal.specs.DecimalFraction.{most_places as limit_of_places};
ghost use Rattle.sp_model.specs.Models.{root_of};
ghost use Rattle.sp_model.specs.Sums.{side_width};
ghost use Rattle.sp_scaling.specs.Scaling.{greatest_width, most_places_of, numbers_of, units, scaled, size_of};
ghost use Rattle.sp_filter.specs.Filters.{Weighted, count_total, multiple_width, distance_width, filter_width};
ghost use Rattle.sp_filter.specs.InnerLowering.{IsSmall};
ghost use Rattle.sp_filter.specs.Lowering.{bound_places, weight_places, places_of, bound_units, weighted_units, scaled_to, combined, AreDraftKnown, AreDraftWeightsLawful};

use crate::drafting::FilterDraft;
use crate::kinds::Filter;
use crate::widths::{GREATEST_WIDTH, reach_of};
use sp_decimal::{Decimal, scaled as units_of};
use sp_model::{Items, Model, NoMemory, VarId};
use sp_scaling::{collected, most_places, room_beside};
use std::alloc::Global;

/// How many decimal places the number has, at most 30.
fn places(d: &Decimal) -> u8
    ensures value { result ≡ d.now.s }
    ensures few { result ≤ limit_of_places }
{
    d.s
}

/// How many decimal places the bound has, at most 30.
fn bound_places(bound: &Option<Decimal>) -> u8
    ensures value { result ≡ bound_places bound.now }
    ensures few { result ≤ limit_of_places }
{
    match bound {
        None => 0,
        Some(d) => places(d),
    }
}

/// The most decimal places that one of the weights has, at most 30; 0 without a term.
fn weight_places(terms: &[(VarId, Decimal, i64)]) -> u8
    ensures value { result ≡ weight_places terms.now }
    ensures few { result ≤ limit_of_places }
{
    let mut most = 0;
    for term in terms {
        most = places(&term.1).max(most);
    }
    most
}

/// The scale of the draft, at most 30.
pub(crate) fn places_of(draft: &FilterDraft) -> u8
    ensures value { result ≡ places_of draft.now }
    ensures few { result ≤ limit_of_places }
{
    match draft {
        FilterDraft::Range { terms, lo, hi } => {
            most_places(terms.as_slice()).max(bound_places(lo).max(bound_places(hi)))
        }
        FilterDraft::Diversity { terms, lo, hi } => {
            weight_places(terms.as_slice()).max(bound_places(lo).max(bound_places(hi)))
        }
    }
}

/// Whether the number isn't negative.
fn is_lawful_weight(weight: &Decimal) -> bool
    ensures { IsTrue result ↔ (pos 0 ≤ℤ weight.now.p) }
{
    0 <= weight.p
}

/// Whether no weight is negative.
fn are_weights_lawful(terms: &[(VarId, Decimal, i64)]) -> bool
    ensures { IsTrue result ↔ All (λ t. pos 0 ≤ℤ t.1.p) terms.now }
{
    terms.iter().all(|term| is_lawful_weight(&term.1))
}

/// Whether no weight of the draft is negative.
pub(crate) fn has_lawful_weights(draft: &FilterDraft) -> bool
    ensures { IsTrue result ↔ AreDraftWeightsLawful draft.now }
{
    match draft {
        FilterDraft::Range { .. } => true,
        FilterDraft::Diversity { terms, .. } => are_weights_lawful(terms.as_slice()),
    }
}

/// What is left of the room, at most 10^36, beside the width of the terms, or `None` where they are wider.
fn room_beside_multiples(
    model: &Model,
    terms: &[(VarId, Decimal)],
    places: u8,
    room: u128,
) -> Option<u128>
    requires known { All (λ t. t.0 < length model.now.lower) terms.now }
    requires scale { most_places_of (numbers_of terms.now) ≤ places }
    requires places { places ≤ limit_of_places }
    requires room { room ≤ greatest_width }
    ensures { let width = count_total (multiple_width (root_of model.now)) (scaled places terms.now) in SomeIff result (width ≤ room) (room - width) }
{
    let mut left = room;
    for term in terms {
        match room_beside(&term.1, places, reach_of(model, term.0), left) {
            None => return None,
            Some(rest) => left = rest,
        }
    }
    Some(left)
}

/// What is left of the room, at most 10^36, beside the width of the terms, or `None` where they are wider.
fn room_beside_distances(
    model: &Model,
    terms: &[(VarId, Decimal, i64)],
    places: u8,
    room: u128,
) -> Option<u128>
    requires known { All (λ t. t.0 < length model.now.lower) terms.now }
    requires scale { weight_places terms.now ≤ places }
    requires places { places ≤ limit_of_places }
    requires room { room ≤ greatest_width }
    ensures { let width = count_total (distance_width (root_of model.now)) (weighted_units places terms.now) in SomeIff result (width ≤ room) (room - width) }
{
    let mut left = room;
    for term in terms {
        let reach = reach_of(model, term.0) + u128::from(term.2.unsigned_abs());
        match room_beside(&term.1, places, reach, left) {
            None => return None,
            Some(rest) => left = rest,
        }
    }
    Some(left)
}

/// What is left of the room, at most 10^36, beside the magnitude of a bound, or `None` where that is more.
fn room_beside_bound(bound: &Option<Decimal>, places: u8, room: u128) -> Option<u128>
    requires scale { bound_places bound.now ≤ places }
    requires places { places ≤ limit_of_places }
    requires room { room ≤ greatest_width }
    ensures { let width = side_width (bound_units places bound.now) in SomeIff result (width ≤ room) (room - width) }
{
    match bound {
        None => Some(room),
        Some(d) => room_beside(d, places, 1, room),
    }
}

/// Whether the room, at most 10^36, is enough for the magnitudes of two bounds.
fn is_roomy(lo: &Option<Decimal>, hi: &Option<Decimal>, places: u8, room: u128) -> bool
    requires lo { bound_places lo.now ≤ places }
    requires hi { bound_places hi.now ≤ places }
    requires places { places ≤ limit_of_places }
    requires room { room ≤ greatest_width }
    ensures { IsTrue result ↔ (side_width (bound_units places lo.now) + side_width (bound_units places hi.now) ≤ room) }
{
    match room_beside_bound(lo, places, room) {
        None => false,
        Some(room) => match room_beside_bound(hi, places, room) {
            None => false,
            Some(_) => true,
        },
    }
}

/// Whether the width of the draft in units of 10^-places is at most 10^36.
pub(crate) fn is_narrow(model: &Model, draft: &FilterDraft, places: u8) -> bool
    requires known { AreDraftKnown draft.now (length model.now.lower) }
    requires scale { places_of draft.now ≤ places }
    requires places { places ≤ limit_of_places }
    ensures { IsTrue result ↔ (filter_width (scaled_to places draft.now) (root_of model.now) ≤ greatest_width) }
{
    match draft {
        FilterDraft::Range { terms, lo, hi } => {
            match room_beside_multiples(model, terms.as_slice(), places, GREATEST_WIDTH) {
                None => false,
                Some(room) => is_roomy(lo, hi, places, room),
            }
        }
        FilterDraft::Diversity { terms, lo, hi } => {
            match room_beside_distances(model, terms.as_slice(), places, GREATEST_WIDTH) {
                None => false,
                Some(room) => is_roomy(lo, hi, places, room),
            }
        }
    }
}

/// The number in units of 10^-places, which is known to be small.
fn small_units(d: &Decimal, places: u8) -> i128
    requires scale { d.now.s ≤ places }
    requires places { places ≤ limit_of_places }
    requires small { unsigned_abs (units places d.now) ≤ greatest_width }
    ensures { result ≡ units places d.now }
{
    match units_of(d, places) {
        Some(units) => units,
        None => unreachable!(),
    }
}

/// The bound in units of 10^-places, which is known to be small.
fn small_bound(bound: &Option<Decimal>, places: u8) -> Option<i128>
    requires scale { bound_places bound.now ≤ places }
    requires places { places ≤ limit_of_places }
    requires small { side_width (bound_units places bound.now) ≤ greatest_width }
    ensures { result ≡ bound_units places bound.now }
{
    match bound {
        None => None,
        Some(d) => Some(small_units(d, places)),
    }
}

/// The terms with weights in units of 10^-places, which are known to be small.
fn small_weights(
    alloc: Global,
    terms: &[(VarId, Decimal, i64)],
    places: u8,
) -> Result<Items<(VarId, i128, i64)>, NoMemory>
    requires scale { weight_places terms.now ≤ places }
    requires places { places ≤ limit_of_places }
    requires small { count_total (λ (t : Weighted). unsigned_abs t.1) (weighted_units places terms.now) ≤ greatest_width }
    ensures { IfOk result (λ made. made ≡ weighted_units places terms.now) }
{
    let mut made = Vec::with_capacity(alloc, terms.len())?;
    for term in terms {
        made.push((term.0, small_units(&term.1, places), term.2))?;
    }
    Ok(Items::from_vec(made))
}

/// The filter that the draft becomes, in units of 10^-places.
pub(crate) fn lowered(alloc: Global, draft: &FilterDraft, places: u8) -> Result<Filter, NoMemory>
    requires scale { places_of draft.now ≤ places }
    requires places { places ≤ limit_of_places }
    requires small { IsSmall (scaled_to places draft.now) }
    ensures { IfOk result (λ filter. filter ≡ combined (scaled_to places draft.now)) }
{
    match draft {
        FilterDraft::Range { terms, lo, hi } => {
            let terms = collected(alloc, terms.as_slice(), places, false)?;
            Ok(Filter::Range {
                terms,
                lo: small_bound(lo, places),
                hi: small_bound(hi, places),
                scale: places,
            })
        }
        FilterDraft::Diversity { terms, lo, hi } => {
            let terms = small_weights(alloc, terms.as_slice(), places)?;
            Ok(Filter::Diversity {
                terms,
                lo: small_bound(lo, places),
                hi: small_bound(hi, places),
                scale: places,
            })
        }
    }
}
