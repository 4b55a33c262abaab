//! The models and the points.
ghost use Rattle.std.specs.Prelude.{◌<◌};

use crate::words::Sizes;
use anyhow::{Result, bail};
use sp_model::{Items, Model, ModelParts, Point, Row, VarId};
use std::alloc::{AllocError, Global};

/// The greatest value of each variable; the least is 0.
const UPPER: u32 = 9;
/// The greatest sum that a row allows, which no point within the bounds reaches.
const SIDE: i128 = 1_000_000;
/// How many variables have no upper bound where a box is closed.
const OPEN: u32 = 32;
/// How many terms each row has there.
const WIDTH: u32 = 20;

/// The coefficient of a variable in a row, from 1 to 19.
fn coefficient(row: u32, var: u32) -> i128 {
    let mixed = u64::from(var) * 7 + u64::from(row) * 13;
    i128::from(mixed % 19) + 1
}

/// The terms of a row: each variable once.
fn terms_of(alloc: Global, row: u32, variables: u32) -> Result<Items<(VarId, i128)>, AllocError> {
    let mut terms = Vec::with_capacity(alloc, variables as usize)?;
    for var in 0..variables {
        terms.push((VarId::new(var), coefficient(row, var)))?;
    }
    Ok(Items::from_vec(terms))
}

/// So many rows, each with all variables.
fn rows_of(alloc: Global, rows: u32, variables: u32) -> Result<Items<Row>, AllocError> {
    let mut all = Vec::with_capacity(alloc, rows as usize)?;
    for row in 0..rows {
        let terms = terms_of(alloc, row, variables)?;
        all.push(Row {
            terms,
            lo: None,
            hi: Some(SIDE),
        })?;
    }
    Ok(Items::from_vec(all))
}

/// The model with rows of all variables that have so many terms together, and an objective of all variables.
pub fn model_of(alloc: Global, sizes: &Sizes) -> Result<Model> {
    let variables = sizes.variables;
    let Some(rows) = sizes.terms.checked_div(variables) else {
        bail!("a model without variables has no terms");
    };
    let lower = vec![in alloc; Some(0i64); variables as usize]?;
    let upper = vec![in alloc; Some(i64::from(UPPER)); variables as usize]?;
    let parts = ModelParts {
        maximize: false,
        scale: 0,
        constant: 0,
        cost: terms_of(alloc, 0, variables)?,
        lower: Items::from_vec(lower),
        upper: Items::from_vec(upper),
        semi: Items::new(alloc),
        rows: rows_of(alloc, rows, variables)?,
        indicators: Items::new(alloc),
        sos: Items::new(alloc),
    };
    match Model::build(alloc, parts) {
        Ok(model) => Ok(model),
        Err(refusal) => bail!("no model: {refusal:?}"),
    }
}

/// The point whose values go from `first` up to 9 and then from 0 on again.
pub fn point_of(alloc: Global, variables: u32, first: u32) -> Result<Point, AllocError> {
    let mut values = Vec::with_capacity(alloc, variables as usize)?;
    for var in 0..variables {
        let value = (u64::from(var) + u64::from(first)) % u64::from(UPPER + 1);
        values.push(value as i64)?;
    }
    Ok(Point::from_vec(values))
}

/// The row by which an open variable and 18 others that aren't below 0 are together at most the next variable. The one
/// after the open ones has an upper bound.
fn chain_row(alloc: Global, var: u32) -> Result<Row, AllocError>
    requires { var < 32 }
{
    let mut terms = Vec::with_capacity(alloc, WIDTH as usize)?;
    terms.push((VarId::new(var), 1))?;
    terms.push((VarId::new(var + 1), -1))?;
    for other in OPEN + 1..OPEN + WIDTH - 1 {
        terms.push((VarId::new(other), 1))?;
    }
    Ok(Row {
        terms: Items::from_vec(terms),
        lo: None,
        hi: Some(0),
    })
}

/// A row over the first variable and 19 neighbours that have upper bounds. It closes nothing.
fn wide_row(alloc: Global, row: u32, variables: u32) -> Result<Row, AllocError>
    requires { 52 < variables }
{
    let mut terms = Vec::with_capacity(alloc, WIDTH as usize)?;
    terms.push((VarId::new(0), 1))?;
    let first = OPEN + row % (variables - OPEN - WIDTH);
    for var in first..first + WIDTH - 1 {
        terms.push((VarId::new(var), coefficient(row, var)))?;
    }
    Ok(Row {
        terms: Items::from_vec(terms),
        lo: Some(-1),
        hi: None,
    })
}

/// So many rows, and no fewer than 32. Those of the open variables come first, in the order in which each round closes
/// the last variable that is still open, and no other.
fn open_rows(alloc: Global, rows: u32, variables: u32) -> Result<Items<Row>, AllocError>
    requires { 52 < variables }
{
    let mut all = Vec::with_capacity(alloc, rows as usize)?;
    for var in 0..OPEN {
        all.push(chain_row(alloc, var)?)?;
    }
    for row in OPEN..rows {
        all.push(wide_row(alloc, row, variables)?)?;
    }
    Ok(Items::from_vec(all))
}

/// The upper bounds, of which the first 32 are missing.
fn open_bounds(alloc: Global, variables: u32) -> Result<Items<Option<i64>>, AllocError> {
    let mut bounds = Vec::with_capacity(alloc, variables as usize)?;
    for var in 0..variables {
        let bound = if var < OPEN {
            None
        } else {
            Some(i64::from(UPPER))
        };
        bounds.push(bound)?;
    }
    Ok(Items::from_vec(bounds))
}

/// The parts of a model of which 32 variables have no upper bound, and each of 32 rounds closes one of them. Its rows
/// have 20 terms each and so many together. The rows that close nothing have the first variable, which is closed last.
pub fn open_parts(alloc: Global, sizes: &Sizes) -> Result<ModelParts> {
    let variables = sizes.variables;
    if variables <= OPEN + WIDTH {
        bail!("a model with open variables has more than 52");
    }
    let lower = vec![in alloc; Some(0i64); variables as usize]?;
    let upper = open_bounds(alloc, variables)?;
    let rows = open_rows(alloc, sizes.terms / WIDTH, variables)?;
    Ok(ModelParts {
        maximize: false,
        scale: 0,
        constant: 0,
        cost: Items::new(alloc),
        lower: Items::from_vec(lower),
        upper,
        semi: Items::new(alloc),
        rows,
        indicators: Items::new(alloc),
        sos: Items::new(alloc),
    })
}
