//! Models and drafts of filters from the numbers of lines.

use crate::inputs::{Kind, at, kind_of, numbers_of, var_at, whole_at};
use sp_decimal::Decimal;
use sp_filter::FilterDraft;
use sp_model::{Items, ModelParts, NoMemory, Row, VarId};
use std::alloc::Global;

/// The least or the greatest value of each variable: every second number, from the first or the second on.
fn bounds_of(
    alloc: Global,
    numbers: &[Option<Decimal>],
    from: usize,
) -> Result<Items<Option<i64>>, NoMemory> {
    let mut bounds = Items::new(alloc);
    for place in 0..numbers.len() {
        if place % 2 == from {
            bounds.push(whole_at(numbers, place))?;
        }
    }
    Ok(bounds)
}

/// The costs of the variables, from the first one on.
fn cost_of(alloc: Global, numbers: &[Option<Decimal>]) -> Result<Items<(VarId, i128)>, NoMemory> {
    let mut cost = Items::new(alloc);
    let mut var: u32 = 0;
    for place in 0..numbers.len() {
        match whole_at(numbers, place) {
            Some(value) if value != 0 => cost.push((VarId::new(var), i128::from(value)))?,
            _ => {}
        }
        var = var.saturating_add(1);
    }
    Ok(cost)
}

/// The terms of a row: behind its two sides a variable and its coefficient for each.
fn terms_of(alloc: Global, numbers: &[Option<Decimal>]) -> Result<Items<(VarId, i128)>, NoMemory> {
    let mut terms = Items::new(alloc);
    for place in 3..numbers.len() {
        match whole_at(numbers, place) {
            Some(value) if place % 2 == 1 => {
                terms.push((var_at(numbers, place - 1), i128::from(value)))?
            }
            _ => {}
        }
    }
    Ok(terms)
}

fn side_at(numbers: &[Option<Decimal>], place: usize) -> Option<i128> {
    match whole_at(numbers, place) {
        Some(side) => Some(i128::from(side)),
        None => None,
    }
}

/// The numbers of the first line of a kind.
fn first_of(alloc: Global, lines: &[String], kind: Kind) -> Result<Vec<Option<Decimal>>, NoMemory> {
    for line in lines {
        if kind_of(line.as_str()) == kind {
            return numbers_of(alloc, line.as_str());
        }
    }
    Ok(Vec::new(alloc))
}

fn row_of(alloc: Global, line: &str) -> Result<Row, NoMemory> {
    let numbers = numbers_of(alloc, line)?;
    let terms = terms_of(alloc, numbers.as_slice())?;
    Ok(Row {
        terms,
        lo: side_at(numbers.as_slice(), 0),
        hi: side_at(numbers.as_slice(), 1),
    })
}

fn rows_of(alloc: Global, lines: &[String]) -> Result<Items<Row>, NoMemory> {
    let mut rows = Items::new(alloc);
    for line in lines {
        if kind_of(line.as_str()) == Kind::Row {
            rows.push(row_of(alloc, line.as_str())?)?;
        }
    }
    Ok(rows)
}

/// The bounds of all variables, and their costs.
type Columns = (Items<Option<i64>>, Items<Option<i64>>, Items<(VarId, i128)>);

fn columns_of(alloc: Global, lines: &[String]) -> Result<Columns, NoMemory> {
    let ends = first_of(alloc, lines, Kind::Model)?;
    let lower = bounds_of(alloc, ends.as_slice(), 0)?;
    let upper = bounds_of(alloc, ends.as_slice(), 1)?;
    let costs = first_of(alloc, lines, Kind::Cost)?;
    let cost = cost_of(alloc, costs.as_slice())?;
    Ok((lower, upper, cost))
}

/// The parts of the model that the lines describe.
pub fn parts_of(alloc: Global, lines: &[String]) -> Result<ModelParts, NoMemory> {
    let (lower, upper, cost) = columns_of(alloc, lines)?;
    let rows = rows_of(alloc, lines)?;
    Ok(ModelParts {
        maximize: false,
        scale: 0,
        constant: 0,
        cost,
        lower,
        upper,
        semi: Items::new(alloc),
        rows,
        indicators: Items::new(alloc),
        sos: Items::new(alloc),
    })
}

/// The draft of a range filter: behind its name two bounds, and then a variable and its coefficient for each term.
pub fn range_of(alloc: Global, numbers: &[Option<Decimal>]) -> Result<FilterDraft, NoMemory> {
    let terms = multiples_of(alloc, numbers)?;
    Ok(FilterDraft::Range {
        terms,
        lo: at(numbers, 1),
        hi: at(numbers, 2),
    })
}

fn multiples_of(
    alloc: Global,
    numbers: &[Option<Decimal>],
) -> Result<Items<(VarId, Decimal)>, NoMemory> {
    let mut terms = Items::new(alloc);
    for place in 4..numbers.len() {
        match at(numbers, place) {
            Some(value) if place % 2 == 0 => terms.push((var_at(numbers, place - 1), value))?,
            _ => {}
        }
    }
    Ok(terms)
}

/// The draft of a diversity filter: behind its name two bounds, and then a variable, its weight and its reference for
/// each term.
pub fn diversity_of(alloc: Global, numbers: &[Option<Decimal>]) -> Result<FilterDraft, NoMemory> {
    let terms = distances_of(alloc, numbers)?;
    Ok(FilterDraft::Diversity {
        terms,
        lo: at(numbers, 1),
        hi: at(numbers, 2),
    })
}

fn distances_of(
    alloc: Global,
    numbers: &[Option<Decimal>],
) -> Result<Items<(VarId, Decimal, i64)>, NoMemory> {
    let mut terms = Items::new(alloc);
    for place in 4..numbers.len() {
        match at(numbers, place) {
            Some(weight) if place % 3 == 1 => {
                let reference = whole_at(numbers, place.saturating_add(1)).unwrap_or(0);
                terms.push((var_at(numbers, place - 1), weight, reference))?
            }
            _ => {}
        }
    }
    Ok(terms)
}
