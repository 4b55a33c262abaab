//! Tests of runs and lists on small models, against lists by hand.

ghost use Rattle.std.specs.Prelude.{◌≤◌};
ghost use Rattle.sp_model.specs.Cuts.{IsGap};
ghost use Rattle.sp_populate.specs.Complete.{CanRun};

use crate::listing::list;
use crate::populating::{PopEnd, populate};
use sp_filter::Filters;
use sp_list::Found;
use sp_model::{Gap, Gaps, Items, Model, ModelParts, Row, VarId};
use sp_search::State;
use std::alloc::{AllocError, Global};
use std::test::Fail;

/// Three binaries: their costs, the coefficients and the sides of one row, the absolute gap, the node limit, the
/// populate limit, the end, and the list: behind a 9 the points as numbers of three binary digits, and 0 where there is
/// none.
type Case = (
    [i128; 3],
    [i128; 3],
    Option<i128>,
    Option<i128>,
    u64,
    u32,
    u32,
    PopEnd,
    u64,
);

const CASES: [Case; 9] = [
    // Gaps: the optimum alone, one that a point lies exactly on, all points.
    (
        [-5, -4, -3],
        [2, 3, 1],
        None,
        Some(5),
        0,
        15,
        8,
        PopEnd::Done,
        96,
    ),
    (
        [-5, -4, -3],
        [2, 3, 1],
        None,
        Some(5),
        2,
        15,
        8,
        PopEnd::Done,
        9653,
    ),
    (
        [-5, -4, -3],
        [2, 3, 1],
        None,
        Some(5),
        99,
        15,
        8,
        PopEnd::Done,
        96534210,
    ),
    // Ties stand lexicographically, at gap 0 too.
    (
        [1, 1, 1],
        [1, 1, 1],
        Some(2),
        None,
        0,
        15,
        8,
        PopEnd::Done,
        9356,
    ),
    (
        [1, 1, 1],
        [1, 1, 1],
        Some(2),
        None,
        1,
        15,
        8,
        PopEnd::Done,
        93567,
    ),
    // No point is feasible.
    (
        [1, 1, 1],
        [1, 1, 1],
        Some(4),
        None,
        9,
        15,
        8,
        PopEnd::Done,
        9,
    ),
    // Stopped by each limit, in phase one and in phase two.
    (
        [1, 1, 1],
        [1, 1, 1],
        Some(2),
        None,
        9,
        2,
        8,
        PopEnd::NodeLimit,
        0,
    ),
    (
        [1, 1, 1],
        [1, 1, 1],
        Some(1),
        None,
        9,
        15,
        1,
        PopEnd::PopulateLimit,
        0,
    ),
    (
        [-5, -4, -3],
        [2, 3, 1],
        None,
        Some(5),
        99,
        9,
        8,
        PopEnd::NodeLimit,
        0,
    ),
];

fn terms(alloc: Global, given: &[i128; 3]) -> Result<Items<(VarId, i128)>, AllocError> {
    let mut items = Vec::new(alloc);
    items.push((VarId::new(0), given[0]))?;
    items.push((VarId::new(1), given[1]))?;
    items.push((VarId::new(2), given[2]))?;
    Ok(Items::from_vec(items))
}

fn bounds(alloc: Global, bound: i64) -> Result<Items<Option<i64>>, AllocError> {
    let mut items = Vec::new(alloc);
    for _ in 0..3 {
        items.push(Some(bound))?;
    }
    Ok(Items::from_vec(items))
}

fn rows(alloc: Global, case: &Case) -> Result<Items<Row>, AllocError> {
    let terms = terms(alloc, &case.1)?;
    let mut items = Vec::new(alloc);
    items.push(Row {
        terms,
        lo: case.2,
        hi: case.3,
    })?;
    Ok(Items::from_vec(items))
}

fn parts(alloc: Global, case: &Case) -> Result<ModelParts, AllocError> {
    let cost = terms(alloc, &case.0)?;
    let lower = bounds(alloc, 0)?;
    let upper = bounds(alloc, 1)?;
    let rows = rows(alloc, case)?;
    Ok(ModelParts {
        maximize: false,
        scale: 0,
        constant: 0,
        cost,
        lower,
        upper,
        semi: Items::new(alloc),
        rows,
        indicators: Items::new(alloc),
        sos: Items::new(alloc),
    })
}

/// The point as a binary number.
fn number_of(found: &Found) -> u64 {
    let mut number: u64 = 0;
    for value in found.point.as_slice() {
        number = number.wrapping_mul(2).wrapping_add(value.unsigned_abs());
    }
    number
}

/// The points of these serials, behind a 9.
fn told(found: &[Found], serials: &[u32]) -> u64 {
    let mut told: u64 = 9;
    for serial in serials {
        let place = *serial as usize;
        if place >= 1 && place <= found.len() {
            told = told
                .wrapping_mul(10)
                .wrapping_add(number_of(&found[place - 1]));
        }
    }
    told
}

/// How the run of a state ends, and its list, 0 where there is none.
fn run(
    alloc: Global,
    state: &mut State,
    gaps: &Gaps,
    filters: &Filters,
    limits: (u32, u32),
) -> Option<(PopEnd, u64)>
    requires can { CanRun gaps.now filters.now state.old }
    requires some { 1 ≤ limits.1 }
{
    match populate(state, gaps, filters, limits.0, limits.1) {
        Ok(end) => match list(alloc, state, gaps, filters) {
            Ok(serials) => Some((end, told(state.found(), serials.as_slice()))),
            Err(_) => Some((end, 0)),
        },
        Err(_) => None,
    }
}

/// The same of a model without filters.
fn run_model(alloc: Global, model: Model, gaps: &Gaps, limits: (u32, u32)) -> Option<(PopEnd, u64)>
    requires abs { IsGap gaps.now.abs }
    requires rel { IsGap gaps.now.rel }
    requires some { 1 ≤ limits.1 }
{
    let filters = Filters::new(alloc);
    match State::new(alloc, model) {
        Ok(mut state) => run(alloc, &mut state, gaps, &filters, limits),
        Err(_) => None,
    }
}

/// Whether the run ends as it should, with that list.
fn ends(alloc: Global, case: &Case) -> Result<bool, Fail> {
    let gaps = Gaps {
        abs: Gap::Of { p: case.4, s: 0 },
        rel: Gap::Unlimited,
    };
    if !gaps.abs.is_lawful() || case.6 == 0 {
        return Ok(false);
    }
    let parts = parts(alloc, case)?;
    match Model::build(alloc, parts) {
        Ok(model) => Ok(run_model(alloc, model, &gaps, (case.5, case.6)) == Some((case.7, case.8))),
        Err(_) => Ok(false),
    }
}

#[test]
fn runs_end_with_the_list(rt: HostRuntime) -> Result<(), Fail> {
    for case in &CASES {
        assert!(rt; ends(rt.alloc(), case)?);
    }
    Ok(())
}
