//! The model that lines list.

use crate::inputs::{Kind, next_kind, number, small};
use sp_model::{Indicator, Items, Model, ModelParts, NoMemory, Row, Sos, SosKind, VarId};
use std::alloc::Global;
use std::str::SplitWhitespace;

/// The minimised model of the lines `var LOWER UPPER`, `constant NUMBER`, `cost COUNT VARIABLE NUMBER ..`,
/// `row SIDES TERMS`, `gate VARIABLE ON SIDES TERMS`, `set KIND COUNT VARIABLES` and `core VARIABLE LOWER UPPER`; other
/// lines are left to others. SIDES are four numbers: whether there is a least side, that side, and the same for the
/// greatest. TERMS are how many there are, and a variable and its coefficient for each. `None` where they are no model,
/// or there is no memory.
pub fn model_of(alloc: Global, text: &str) -> Option<Model> {
    let mut parts = ModelParts {
        maximize: false,
        scale: 0,
        constant: 0,
        cost: Items::new(alloc),
        lower: Items::new(alloc),
        upper: Items::new(alloc),
        semi: Items::new(alloc),
        rows: Items::new(alloc),
        indicators: Items::new(alloc),
        sos: Items::new(alloc),
    };
    match add_lines(alloc, &mut parts, text) {
        Ok(()) => Model::build(alloc, parts).ok(),
        Err(_) => None,
    }
}

fn add_lines(alloc: Global, parts: &mut ModelParts, text: &str) -> Result<(), NoMemory> {
    for line in text.lines() {
        add_line(alloc, parts, line)?;
    }
    Ok(())
}

fn add_line(alloc: Global, parts: &mut ModelParts, line: &str) -> Result<(), NoMemory> {
    let mut words = line.split_whitespace();
    match next_kind(&mut words) {
        Kind::Var => add_variable(&mut parts.lower, &mut parts.upper, &mut words),
        Kind::Constant => set_constant(&mut parts.constant, &mut words),
        Kind::Cost => add_terms(&mut parts.cost, &mut words),
        Kind::Row => add_row(alloc, &mut parts.rows, &mut words),
        Kind::Gate => add_gate(alloc, &mut parts.indicators, &mut words),
        Kind::Set => add_set(alloc, &mut parts.sos, &mut words),
        Kind::Core => add_core(&mut parts.semi, &mut words),
        Kind::Other => Ok(()),
    }
}

fn add_variable(
    lower: &mut Items<Option<i64>>,
    upper: &mut Items<Option<i64>>,
    words: &mut SplitWhitespace<'_>,
) -> Result<(), NoMemory> {
    lower.push(Some(number(words)))?;
    upper.push(Some(number(words)))?;
    Ok(())
}

fn set_constant(constant: &mut i128, words: &mut SplitWhitespace<'_>) -> Result<(), NoMemory> {
    *constant = i128::from(number(words));
    Ok(())
}

fn add_row(
    alloc: Global,
    rows: &mut Items<Row>,
    words: &mut SplitWhitespace<'_>,
) -> Result<(), NoMemory> {
    rows.push(row_of(alloc, words)?)?;
    Ok(())
}

fn add_gate(
    alloc: Global,
    gates: &mut Items<Indicator>,
    words: &mut SplitWhitespace<'_>,
) -> Result<(), NoMemory> {
    let var = VarId::new(small(words));
    let on = number(words) != 0;
    let row = row_of(alloc, words)?;
    gates.push(Indicator { var, on, row })?;
    Ok(())
}

fn add_set(
    alloc: Global,
    sets: &mut Items<Sos>,
    words: &mut SplitWhitespace<'_>,
) -> Result<(), NoMemory> {
    let kind = if number(words) == 1 {
        SosKind::One
    } else {
        SosKind::Two
    };
    let vars = members_of(alloc, words)?;
    sets.push(Sos { kind, vars })?;
    Ok(())
}

fn members_of(alloc: Global, words: &mut SplitWhitespace<'_>) -> Result<Items<VarId>, NoMemory> {
    let mut vars = Items::new(alloc);
    for _ in 0..small(words) {
        vars.push(VarId::new(small(words)))?;
    }
    Ok(vars)
}

fn add_core(
    cores: &mut Items<(VarId, i64, i64)>,
    words: &mut SplitWhitespace<'_>,
) -> Result<(), NoMemory> {
    let var = VarId::new(small(words));
    cores.push((var, number(words), number(words)))?;
    Ok(())
}

/// Both sides, and the terms.
fn row_of(alloc: Global, words: &mut SplitWhitespace<'_>) -> Result<Row, NoMemory> {
    let lo = side(words);
    let hi = side(words);
    let mut terms = Items::new(alloc);
    add_terms(&mut terms, words)?;
    Ok(Row { terms, lo, hi })
}

/// The second of the next two numbers, none where the first one is 0.
fn side(words: &mut SplitWhitespace<'_>) -> Option<i128> {
    let is_there = number(words) != 0;
    let side = i128::from(number(words));
    if is_there { Some(side) } else { None }
}

/// How many terms, and a variable and a coefficient for each.
fn add_terms(
    terms: &mut Items<(VarId, i128)>,
    words: &mut SplitWhitespace<'_>,
) -> Result<(), NoMemory> {
    for _ in 0..small(words) {
        let var = VarId::new(small(words));
        terms.push((var, i128::from(number(words))))?;
    }
    Ok(())
}
