//! Places where a box may be split, by reduced costs and a point.

use crate::numbers::{range_at, reach_of, var_at};
use sp_model::{BoxOf, VarId};
use sp_simplex::Estimate;

/// The number 1 in the parts of estimates, and a half.
const ONE: u64 = 68_719_476_736;

const HALF: u64 = 34_359_738_368;

/// The place behind which a range's far part costs more than the room.
fn forced_at(cost: &i128, range: &(i64, i64), room: &i128) -> Option<i64> {
    let steps = match room.unsigned_abs().checked_div(cost.unsigned_abs()) {
        None => return None,
        Some(steps) => steps,
    };
    match i64::try_from(steps) {
        Err(_) => None,
        Ok(steps) => {
            if 0 < *cost {
                range.0.checked_add(steps)
            } else {
                range.1.saturating_sub(1).checked_sub(steps)
            }
        }
    }
}

/// A place one of whose sides costs more than the room.
pub fn forced_place(costs: &[i128], bounds: &BoxOf, room: &i128) -> Option<(VarId, i64)> {
    for place in 0..costs.len() {
        let range = range_at(bounds, place);
        if costs[place] != 0 && *room < reach_of(&costs[place], &range) {
            match forced_at(&costs[place], &range, room) {
                None => {}
                Some(at) => return with_var(place, at),
            }
        }
    }
    None
}

fn with_var(place: usize, at: i64) -> Option<(VarId, i64)> {
    match var_at(place) {
        None => None,
        Some(var) => Some((var, at)),
    }
}

/// How far a value is from a whole number.
fn distance(part: u64) -> u64 {
    part.min(ONE.saturating_sub(part))
}

/// The place below the value that is furthest from a whole number, if one isn't whole.
pub fn fractional_place(point: &[Estimate], bounds: &BoxOf) -> Option<(VarId, i64)> {
    let mut most = 0;
    let mut found = None;
    for place in 0..point.len() {
        let range = range_at(bounds, place);
        if range.0 < range.1 && most < distance(point[place].part) {
            most = distance(point[place].part);
            found = with_var(place, point[place].floor);
        }
    }
    found
}

/// The place beside the point's value of the variable with the greatest reduced cost.
pub fn dear_place(costs: &[i128], point: &[Estimate], bounds: &BoxOf) -> Option<(VarId, i64)> {
    let mut most = 0;
    let mut found = None;
    for place in 0..costs.len() {
        let range = range_at(bounds, place);
        let size = costs[place].unsigned_abs();
        if range.0 < range.1 && place < point.len() && (most < size || found.is_none()) {
            let value = point[place].floor;
            most = size;
            found = with_var(place, value.min(range.1.saturating_sub(1)));
        }
    }
    found
}

/// Whether the lower part of a split holds the point or is nearer to it.
pub fn is_lower(point: &[Estimate], var: VarId, at: &i64) -> Option<bool> {
    if point.len() <= var.index() {
        return None;
    }
    let value = &point[var.index()];
    Some(value.floor < *at || value.floor == *at && value.part < HALF)
}
