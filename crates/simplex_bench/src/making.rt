//! Models of a list of numbers: how many variables and rows, for each variable its bounds and its cost, and for each
//! row whether it has a least side, that side, whether it has a greatest side, that side, and each variable's
//! coefficient.

use crate::numbers::number_at;
use anyhow::{Result, bail};
use sp_model::{Items, Model, ModelParts, Row, VarId};
use std::alloc::{AllocError, Global};

/// A place of a list.
fn place_of(first: usize, each: usize, index: usize, more: usize) -> usize {
    first
        .saturating_add(each.saturating_mul(index))
        .saturating_add(more)
}

/// The terms of so many numbers, each so far from the one before.
fn terms_of(
    alloc: Global,
    numbers: &[i128],
    first: usize,
    each: usize,
    count: usize,
) -> Result<Items<(VarId, i128)>, AllocError> {
    let mut terms = Vec::new(alloc);
    for var in 0..count {
        let number = number_at(numbers, place_of(first, each, var, 0));
        if number != 0 && var < 2_000 {
            terms.push((VarId::new(var as u32), number))?;
        }
    }
    Ok(Items::from_vec(terms))
}

/// The bounds of so many numbers.
fn bounds_of(
    alloc: Global,
    numbers: &[i128],
    first: usize,
    count: usize,
) -> Result<Items<Option<i64>>, AllocError> {
    let mut bounds = Vec::new(alloc);
    for var in 0..count {
        let number = number_at(numbers, place_of(first, 3, var, 0));
        bounds.push(i64::try_from(number).ok())?;
    }
    Ok(Items::from_vec(bounds))
}

fn side_of(numbers: &[i128], first: usize) -> Option<i128> {
    if number_at(numbers, first) == 0 {
        None
    } else {
        Some(number_at(numbers, first.saturating_add(1)))
    }
}

fn rows_of(
    alloc: Global,
    numbers: &[i128],
    begin: usize,
    variables: usize,
    count: usize,
) -> Result<Items<Row>, AllocError> {
    let mut rows = Vec::new(alloc);
    let each = variables.saturating_add(4);
    let first = place_of(begin, 3, variables, 0);
    for row in 0..count {
        let start = place_of(first, each, row, 0);
        let terms = terms_of(alloc, numbers, start.saturating_add(4), 1, variables)?;
        rows.push(Row {
            terms,
            lo: side_of(numbers, start),
            hi: side_of(numbers, start.saturating_add(2)),
        })?;
    }
    Ok(Items::from_vec(rows))
}

/// How many variables or rows the model has whose numbers begin at a place.
fn count_at(numbers: &[i128], place: usize) -> usize {
    usize::try_from(number_at(numbers, place)).unwrap_or(0)
}

/// How many numbers the model has that begin at a place, at least two.
pub fn length_at(numbers: &[i128], first: usize) -> usize {
    let variables = count_at(numbers, first);
    let rows = count_at(numbers, first.saturating_add(1));
    place_of(
        place_of(2, 3, variables, 0),
        variables.saturating_add(4),
        rows,
        0,
    )
}

/// The model whose numbers begin at a place.
pub fn model_at(alloc: Global, numbers: &[i128], first: usize) -> Result<Model> {
    let variables = count_at(numbers, first);
    let count = count_at(numbers, first.saturating_add(1));
    let begin = first.saturating_add(2);
    let cost = terms_of(alloc, numbers, begin.saturating_add(2), 3, variables)?;
    let lower = bounds_of(alloc, numbers, begin, variables)?;
    let upper = bounds_of(alloc, numbers, begin.saturating_add(1), variables)?;
    let rows = rows_of(alloc, numbers, begin, variables, count)?;
    let parts = ModelParts {
        maximize: false,
        scale: 0,
        constant: 0,
        cost,
        lower,
        upper,
        semi: Items::new(alloc),
        rows,
        indicators: Items::new(alloc),
        sos: Items::new(alloc),
    };
    match Model::build(alloc, parts) {
        Ok(model) => Ok(model),
        Err(refusal) => bail!("{refusal:?}"),
    }
}
