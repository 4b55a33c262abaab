//! What was found over a box: a list with its reduced costs, and a point.

use crate::numbers::{least_of, range_at};
use sp_dual::Multipliers;
use sp_model::BoxOf;
use sp_simplex::Estimate;

/// What was found over a box. The list bounds the objective over each box, and the point is best in each part that
/// holds it.
#[derive(Drop)]
pub struct Record {
    /// The least value of each variable.
    pub lower: Vec<i64>,
    /// The greatest value of each variable.
    pub upper: Vec<i64>,
    /// The list, until it is taken.
    pub list: Option<Multipliers>,
    /// The place of the list in a table, once it has one.
    pub place: Option<u32>,
    /// The list's divisor.
    pub divisor: i128,
    /// The sum of the list's sides, with the constant.
    pub sides: i128,
    /// The reduced cost of each variable.
    pub costs: Vec<i128>,
    /// The value of each variable at the point, none where there is no point.
    pub point: Vec<Estimate>,
    /// Whether about no point of the box satisfies the rows.
    pub is_unmet: bool,
}

/// The number that a list gives over a box, times the list's divisor.
fn total_of(sides: &i128, costs: &[i128], bounds: &BoxOf) -> Option<i128> {
    let mut sum = *sides;
    for place in 0..costs.len() {
        if costs[place] != 0 {
            let least = least_of(&costs[place], &range_at(bounds, place))?;
            sum = sum.checked_add(least)?;
        }
    }
    Some(sum)
}

/// By how much the list's number over a box may rise until it is past a threshold, times the list's divisor. Below 0 it
/// is past.
pub fn room_of(record: &Record, bounds: &BoxOf, threshold: &i128) -> Option<i128> {
    let most = record.divisor.checked_mul(*threshold)?;
    most.checked_sub(total_of(&record.sides, record.costs.as_slice(), bounds)?)
}

/// Whether the value lies in the range.
fn is_in(value: &Estimate, range: &(i64, i64)) -> bool {
    range.0 <= value.floor && (value.floor < range.1 || value.floor == range.1 && value.part == 0)
}

/// Whether there is a point and the box holds it.
pub fn is_held(point: &[Estimate], bounds: &BoxOf) -> bool {
    for place in 0..point.len() {
        if !is_in(&point[place], &range_at(bounds, place)) {
            return false;
        }
    }
    !point.is_empty()
}

/// Whether a box lies within the ranges.
fn is_within(lower: &[i64], upper: &[i64], bounds: &BoxOf) -> bool {
    for place in 0..lower.len() {
        let range = range_at(bounds, place);
        if range.0 < lower[place] || upper.len() <= place || upper[place] < range.1 {
            return false;
        }
    }
    true
}

/// The last record, if there is one.
pub fn last_of(records: &[Record]) -> Option<&Record> {
    if records.is_empty() {
        None
    } else {
        Some(&records[records.len() - 1])
    }
}

/// Whether the last record is one of a box around this one.
fn is_around(records: &[Record], bounds: &BoxOf) -> bool {
    match last_of(records) {
        None => false,
        Some(record) => is_within(record.lower.as_slice(), record.upper.as_slice(), bounds),
    }
}

/// Forgets the last records, up to one of a box around this one.
pub fn forget(records: &mut Vec<Record>, bounds: &BoxOf) {
    for _ in 0..records.len() {
        if is_around(records.as_slice(), bounds) {
            return;
        }
        let _ = records.pop();
    }
}
