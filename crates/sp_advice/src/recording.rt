//! Records of what the finder found.

use crate::numbers::{add_product, var_at};
use crate::records::{Record, room_of};
use sp_dual::Multipliers;
use sp_model::{BoxOf, Model, ModelParts, Row, VarId};
use sp_simplex::{Estimate, Finder, Outcome};
use std::alloc::Global;

/// So many zeros.
fn zeros(alloc: Global, count: usize) -> Option<Vec<i128>> {
    match vec![in alloc; 0i128; count] {
        Ok(numbers) => Some(numbers),
        Err(_) => None,
    }
}

/// Adds a multiple of each term to the number of its variable.
fn add_terms(numbers: &mut [i128], terms: &[(VarId, i128)], factor: &i128) -> Option<()> {
    for term in terms {
        add_product(numbers, term.0.index(), &term.1, factor)?;
    }
    Some(())
}

/// Takes the shares of the rows from the costs.
fn take_rows(costs: &mut [i128], rows: &[Row], list: &Multipliers) -> Option<()> {
    for entry in list.entries() {
        if entry.0.index() < rows.len() {
            let factor = entry.1.checked_neg()?;
            add_terms(costs, rows[entry.0.index()].terms.as_slice(), &factor)?;
        }
    }
    Some(())
}

/// Writes the reduced costs of a list into zeros.
fn write_costs(costs: &mut [i128], model: &ModelParts, list: &Multipliers) -> Option<()> {
    add_terms(costs, model.cost.as_slice(), &list.d)?;
    take_rows(costs, model.rows.as_slice(), list)
}

/// The side that a multiplier names, times the multiplier.
fn side_of(row: &Row, multiplier: &i128) -> Option<i128> {
    let side = if 0 < *multiplier { &row.lo } else { &row.hi };
    match side {
        None => None,
        Some(value) => value.checked_mul(*multiplier),
    }
}

/// The sum of the sides of a list, with the constant.
fn sides_of(model: &ModelParts, list: &Multipliers) -> Option<i128> {
    let rows = model.rows.as_slice();
    let mut sum = list.d.checked_mul(model.constant)?;
    for entry in list.entries() {
        if entry.0.index() < rows.len() {
            let side = side_of(&rows[entry.0.index()], &entry.1)?;
            sum = sum.checked_add(side)?;
        }
    }
    Some(sum)
}

/// A copy of the numbers.
fn copy_of(alloc: Global, numbers: &[i64]) -> Option<Vec<i64>> {
    match Vec::from_slice(alloc, numbers) {
        Ok(copy) => Some(copy),
        Err(_) => None,
    }
}

/// A record over a box, without numbers yet.
fn blank(alloc: Global, list: Multipliers, is_unmet: bool) -> Record {
    Record {
        lower: Vec::new(alloc),
        upper: Vec::new(alloc),
        divisor: list.d,
        list: Some(list),
        place: None,
        sides: 0,
        costs: Vec::new(alloc),
        point: Vec::new(alloc),
        is_unmet,
    }
}

/// Writes the numbers of a record.
fn complete(alloc: Global, model: &ModelParts, bounds: &BoxOf, record: &mut Record) -> Option<()> {
    record.lower = copy_of(alloc, bounds.lower.as_slice())?;
    record.upper = copy_of(alloc, bounds.upper.as_slice())?;
    record.costs = zeros(alloc, bounds.len())?;
    match &record.list {
        None => None,
        Some(list) => {
            record.sides = sides_of(model, list)?;
            write_costs(record.costs.as_mut_slice(), model, list)
        }
    }
}

/// The record of a list over a box.
fn record_of(
    alloc: Global,
    model: &Model,
    bounds: &BoxOf,
    list: Multipliers,
    is_unmet: bool,
) -> Option<Record> {
    let mut record = blank(alloc, list, is_unmet);
    match complete(alloc, model.parts(), bounds, &mut record) {
        None => None,
        Some(()) => Some(record),
    }
}

/// Writes the finder's point, as far as it is known.
fn write_point(point: &mut Vec<Estimate>, finder: &Finder, count: usize) -> Option<()> {
    for place in 0..count {
        let value = finder.value(var_at(place)?)?;
        if point.push(value).is_err() {
            return None;
        }
    }
    Some(())
}

/// The record of the finder's last list.
fn found_record(
    alloc: Global,
    model: &Model,
    bounds: &BoxOf,
    finder: &Finder,
    is_unmet: bool,
) -> Option<Record> {
    match finder.list(alloc, model) {
        Err(_) => None,
        Ok(list) => record_of(alloc, model, bounds, list, is_unmet),
    }
}

/// The record of an optimum, with its point.
fn best_record(alloc: Global, model: &Model, bounds: &BoxOf, finder: &Finder) -> Option<Record> {
    match found_record(alloc, model, bounds, finder, false) {
        None => None,
        Some(record) => {
            let mut record = record;
            if write_point(&mut record.point, finder, bounds.len()).is_none() {
                record.point = Vec::new(alloc);
            }
            Some(record)
        }
    }
}

/// By how much the list's number over the box has to rise to be past the threshold.
fn rise_of(record: &Record, bounds: &BoxOf, threshold: &i128) -> Option<i128> {
    let room = room_of(record, bounds, threshold)?;
    room.checked_div(record.divisor)?.checked_add(1)
}

/// The record of the list that is raised past the threshold, where no point of the box satisfies the rows.
fn raised_record(
    alloc: Global,
    model: &Model,
    bounds: &BoxOf,
    finder: &mut Finder,
    rise: &i128,
) -> Option<Record> {
    match finder.raised_list(alloc, model, rise) {
        Err(_) => None,
        Ok(list) => record_of(alloc, model, bounds, list, true),
    }
}

/// The record where no point of the box satisfies the rows.
fn unmet_record(
    alloc: Global,
    model: &Model,
    bounds: &BoxOf,
    threshold: &Option<i128>,
    finder: &mut Finder,
) -> Option<Record> {
    match found_record(alloc, model, bounds, finder, true) {
        None => None,
        Some(record) => match threshold {
            None => Some(record),
            Some(threshold) => match rise_of(&record, bounds, threshold) {
                None => Some(record),
                Some(rise) => raised_record(alloc, model, bounds, finder, &rise),
            },
        },
    }
}

/// What the finder finds over a box, with so many pivots at most.
pub fn found_over(
    alloc: Global,
    model: &Model,
    bounds: &BoxOf,
    threshold: &Option<i128>,
    pivots: u32,
    finder: &mut Finder,
) -> Option<Record> {
    match finder.seek(model, bounds, pivots) {
        Outcome::Nothing => None,
        Outcome::Stopped => found_record(alloc, model, bounds, finder, false),
        Outcome::Optimal => best_record(alloc, model, bounds, finder),
        Outcome::Unmet => unmet_record(alloc, model, bounds, threshold, finder),
    }
}
