//! Tests of runs to the optimum, against optima that a walk over all points in another language found.

use crate::optima::{OptEnd, optimize};
use crate::states::State;
use sp_model::{Items, Model, ModelParts, Row, VarId};
use std::alloc::{AllocError, Global};
use std::test::Fail;

/// Three binaries: their costs, the coefficients and the sides of one row, the node limit, the end, and the best value.
type Case = (
    [i128; 3],
    [i128; 3],
    Option<i128>,
    Option<i128>,
    u32,
    OptEnd,
    Option<i128>,
);

const CASES: [Case; 7] = [
    (
        [-5, -4, -3],
        [2, 3, 1],
        None,
        Some(5),
        15,
        OptEnd::Optimal,
        Some(-9),
    ),
    (
        [3, 1, 2],
        [1, 1, 1],
        Some(2),
        None,
        15,
        OptEnd::Optimal,
        Some(3),
    ),
    (
        [1, -1, 1],
        [2, 2, 2],
        Some(1),
        Some(1),
        15,
        OptEnd::Infeasible,
        None,
    ),
    (
        [-7, -2, -5],
        [4, 1, 3],
        None,
        Some(6),
        15,
        OptEnd::Optimal,
        Some(-9),
    ),
    (
        [1, 1, 1],
        [1, 1, 1],
        Some(3),
        Some(3),
        15,
        OptEnd::Optimal,
        Some(3),
    ),
    (
        [1, 1, 1],
        [1, 1, 1],
        Some(4),
        None,
        1,
        OptEnd::Infeasible,
        None,
    ),
    (
        [1, 1, 1],
        [1, 1, 1],
        Some(2),
        None,
        2,
        OptEnd::NodeLimit,
        None,
    ),
];

fn terms(alloc: Global, given: &[i128; 3]) -> Result<Items<(VarId, i128)>, AllocError> {
    let mut items = Vec::new(alloc);
    items.push((VarId::new(0), given[0]))?;
    items.push((VarId::new(1), given[1]))?;
    items.push((VarId::new(2), given[2]))?;
    Ok(Items::from_vec(items))
}

fn bounds(alloc: Global, count: u32, bound: i64) -> Result<Items<Option<i64>>, AllocError> {
    let mut items = Vec::new(alloc);
    for _ in 0..count {
        items.push(Some(bound))?;
    }
    Ok(Items::from_vec(items))
}

fn rows(alloc: Global, case: &Case) -> Result<Items<Row>, AllocError> {
    let terms = terms(alloc, &case.1)?;
    let mut items = Vec::new(alloc);
    items.push(Row {
        terms,
        lo: case.2,
        hi: case.3,
    })?;
    Ok(Items::from_vec(items))
}

fn parts(alloc: Global, case: &Case) -> Result<ModelParts, AllocError> {
    let cost = terms(alloc, &case.0)?;
    let lower = bounds(alloc, 3, 0)?;
    let upper = bounds(alloc, 3, 1)?;
    let rows = rows(alloc, case)?;
    Ok(ModelParts {
        maximize: false,
        scale: 0,
        constant: 0,
        cost,
        lower,
        upper,
        semi: Items::new(alloc),
        rows,
        indicators: Items::new(alloc),
        sos: Items::new(alloc),
    })
}

/// Whether the run ends as it should, with that value as its best.
fn ends(alloc: Global, case: &Case) -> Result<bool, Fail> {
    let parts = parts(alloc, case)?;
    Ok(ends_with(alloc, parts, case.4, case.5, &case.6))
}

fn ends_with(
    alloc: Global,
    parts: ModelParts,
    limit: u32,
    expected: OptEnd,
    best: &Option<i128>,
) -> bool {
    let Ok(model) = Model::build(alloc, parts) else {
        return false;
    };
    let Ok(mut state) = State::new(alloc, model) else {
        return false;
    };
    let Ok(end) = optimize(&mut state, limit) else {
        return false;
    };
    end == expected && best_value(&state) == *best
}

/// Each of 31 variables with this coefficient.
fn equal_terms(alloc: Global, coefficient: i128) -> Result<Items<(VarId, i128)>, AllocError> {
    let mut items = Vec::new(alloc);
    for place in 0..31 {
        items.push((VarId::new(place), coefficient))?;
    }
    Ok(Items::from_vec(items))
}

/// The row that twice the sum of 31 variables is at most 31.
fn half_row(alloc: Global) -> Result<Items<Row>, AllocError> {
    let terms = equal_terms(alloc, 2)?;
    let mut items = Vec::new(alloc);
    items.push(Row {
        terms,
        lo: None,
        hi: Some(31),
    })?;
    Ok(Items::from_vec(items))
}

/// The greatest sum of 31 binaries, twice of which is at most 31.
fn half_parts(alloc: Global) -> Result<ModelParts, AllocError> {
    let cost = equal_terms(alloc, -1)?;
    let lower = bounds(alloc, 31, 0)?;
    let upper = bounds(alloc, 31, 1)?;
    let rows = half_row(alloc)?;
    Ok(ModelParts {
        maximize: true,
        scale: 0,
        constant: 0,
        cost,
        lower,
        upper,
        semi: Items::new(alloc),
        rows,
        indicators: Items::new(alloc),
        sos: Items::new(alloc),
    })
}

/// The value of the best point.
fn best_value(state: &State) -> Option<i128> {
    match state.best() {
        Some(serial) => {
            let place = serial as usize;
            if place >= 1 && place <= state.found().len() {
                Some(state.found()[place - 1].value)
            } else {
                None
            }
        }
        None => None,
    }
}

#[test]
fn stated_lists_close_most_leaves(rt: HostRuntime) -> Result<(), Fail> {
    let parts = half_parts(rt.alloc())?;
    assert!(rt; ends_with(rt.alloc(), parts, 1000, OptEnd::Optimal, &Some(-15)));
    Ok(())
}

#[test]
fn runs_end_at_the_optimum(rt: HostRuntime) -> Result<(), Fail> {
    for case in &CASES {
        assert!(rt; ends(rt.alloc(), case)?);
    }
    Ok(())
}
