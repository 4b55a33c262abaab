//! Models, points and drafts of filters from numbers.

use crate::inputs::{at, var_at, whole_at};
use sp_decimal::Decimal;
use sp_filter::FilterDraft;
use sp_model::{Items, Model, ModelParts, NoMemory, Point, VarId};
use std::alloc::Global;

/// Every second one of the numbers, from the first or the second on.
fn every_second(
    alloc: Global,
    numbers: &[Option<Decimal>],
    from: usize,
) -> Result<Items<Option<i64>>, NoMemory> {
    let mut bounds = Items::new(alloc);
    for place in 0..numbers.len() {
        if place % 2 == from {
            bounds.push(Some(whole_at(numbers, place)))?;
        }
    }
    Ok(bounds)
}

/// The parts of a model of variables with these bounds and nothing else.
fn parts_of(alloc: Global, lower: Items<Option<i64>>, upper: Items<Option<i64>>) -> ModelParts {
    ModelParts {
        maximize: false,
        scale: 0,
        constant: 0,
        cost: Items::new(alloc),
        lower,
        upper,
        semi: Items::new(alloc),
        rows: Items::new(alloc),
        indicators: Items::new(alloc),
        sos: Items::new(alloc),
    }
}

/// The model of variables with these bounds, a lower and an upper one for each, and nothing else; `None` where there is
/// none, or no memory for it.
pub fn model_of(alloc: Global, numbers: &[Option<Decimal>]) -> Option<Model> {
    match every_second(alloc, numbers, 0) {
        Ok(lower) => match every_second(alloc, numbers, 1) {
            Ok(upper) => Model::build(alloc, parts_of(alloc, lower, upper)).ok(),
            Err(_) => None,
        },
        Err(_) => None,
    }
}

/// The point of the numbers behind the first one.
pub fn point_of(alloc: Global, numbers: &[Option<Decimal>]) -> Result<Point, NoMemory> {
    let mut values = Vec::new(alloc);
    for place in 1..numbers.len() {
        values.push(whole_at(numbers, place))?;
    }
    Ok(Point::from_vec(values))
}

/// The draft of a range filter: behind its name two bounds, and then a variable and its coefficient for each term.
pub fn range_of(alloc: Global, numbers: &[Option<Decimal>]) -> Result<FilterDraft, NoMemory> {
    let terms = multiples_of(alloc, numbers)?;
    Ok(FilterDraft::Range {
        terms,
        lo: at(numbers, 1),
        hi: at(numbers, 2),
    })
}

fn multiples_of(
    alloc: Global,
    numbers: &[Option<Decimal>],
) -> Result<Items<(VarId, Decimal)>, NoMemory> {
    let mut terms = Items::new(alloc);
    for place in 4..numbers.len() {
        match at(numbers, place) {
            Some(value) if place % 2 == 0 => terms.push((var_at(numbers, place - 1), value))?,
            _ => {}
        }
    }
    Ok(terms)
}

/// The draft of a diversity filter: behind its name two bounds, and then a variable, its weight and its reference for
/// each term.
pub fn diversity_of(alloc: Global, numbers: &[Option<Decimal>]) -> Result<FilterDraft, NoMemory> {
    let terms = distances_of(alloc, numbers)?;
    Ok(FilterDraft::Diversity {
        terms,
        lo: at(numbers, 1),
        hi: at(numbers, 2),
    })
}

fn distances_of(
    alloc: Global,
    numbers: &[Option<Decimal>],
) -> Result<Items<(VarId, Decimal, i64)>, NoMemory> {
    let mut terms = Items::new(alloc);
    for place in 4..numbers.len() {
        match at(numbers, place) {
            Some(weight) if place % 3 == 1 => {
                let reference = whole_at(numbers, place.saturating_add(1));
                terms.push((var_at(numbers, place - 1), weight, reference))?
            }
            _ => {}
        }
    }
    Ok(terms)
}
