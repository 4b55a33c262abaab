//! Tests of models against values by hand.

use crate::ids::{RowId, VarId};
use crate::items::Items;
use crate::models::Model;
use crate::parts::{Indicator, ModelParts, Row, Sos, SosKind};
use crate::points::Point;
use crate::refusal::BuildRefusal;
use std::alloc::{AllocError, Global};
use std::test::Fail;

const WIDEST: i128 = 1_000_000_000_000_000_000_000_000_000_000_000_000;

const FARTHEST: i64 = 1_000_000_000_000_000;

type Bound = Option<i64>;

fn bounds(alloc: Global, given: &[i64]) -> Result<Items<Bound>, AllocError> {
    let mut items = Vec::new(alloc);
    for bound in given {
        items.push(Some(*bound))?;
    }
    Ok(Items::from_vec(items))
}

fn same_bounds(alloc: Global, bound: Bound, count: u32) -> Result<Items<Bound>, AllocError> {
    let mut items = Vec::new(alloc);
    for _ in 0..count {
        items.push(bound)?;
    }
    Ok(Items::from_vec(items))
}

fn cores(alloc: Global, given: &[(u32, i64, i64)]) -> Result<Items<(VarId, i64, i64)>, AllocError> {
    let mut items = Vec::new(alloc);
    for core in given {
        items.push((VarId::new(core.0), core.1, core.2))?;
    }
    Ok(Items::from_vec(items))
}

fn terms(alloc: Global, given: &[(u32, i128)]) -> Result<Items<(VarId, i128)>, AllocError> {
    let mut items = Vec::new(alloc);
    for term in given {
        items.push((VarId::new(term.0), term.1))?;
    }
    Ok(Items::from_vec(items))
}

fn rows(alloc: Global, given: &[(u32, i128)], count: u32) -> Result<Items<Row>, AllocError> {
    let mut items = Vec::new(alloc);
    for _ in 0..count {
        let terms = terms(alloc, given)?;
        items.push(Row {
            terms,
            lo: Some(-1),
            hi: Some(4),
        })?;
    }
    Ok(Items::from_vec(items))
}

fn indicators(
    alloc: Global,
    switch: u32,
    on: bool,
    given: &[(u32, i128)],
    count: u32,
) -> Result<Items<Indicator>, AllocError> {
    let mut items = Vec::new(alloc);
    for _ in 0..count {
        let terms = terms(alloc, given)?;
        let row = Row {
            terms,
            lo: None,
            hi: Some(2),
        };
        items.push(Indicator {
            var: VarId::new(switch),
            on,
            row,
        })?;
    }
    Ok(Items::from_vec(items))
}

fn members(alloc: Global, given: &[u32]) -> Result<Items<VarId>, AllocError> {
    let mut items = Vec::new(alloc);
    for member in given {
        items.push(VarId::new(*member))?;
    }
    Ok(Items::from_vec(items))
}

fn sets(alloc: Global, kind: SosKind, given: &[u32], count: u32) -> Result<Items<Sos>, AllocError> {
    let mut items = Vec::new(alloc);
    for _ in 0..count {
        let vars = members(alloc, given)?;
        items.push(Sos { kind, vars })?;
    }
    Ok(Items::from_vec(items))
}

/// Three variables within 0 to 1, 0 to 5 and -2 to 2; 7 + 3a - b + 10c; -1 <= b + c <= 4; b - c <= 2 where a is as
/// said; and a set of all three.
fn plain(alloc: Global, kind: SosKind, on: bool) -> Result<ModelParts, AllocError> {
    let cost = terms(alloc, &[(0, 3), (1, -1), (2, 10)])?;
    let lower = bounds(alloc, &[0, 0, -2])?;
    let upper = bounds(alloc, &[1, 5, 2])?;
    let rows = rows(alloc, &[(1, 1), (2, 1)], 1)?;
    let indicators = indicators(alloc, 0, on, &[(1, 1), (2, -1)], 1)?;
    let sos = sets(alloc, kind, &[0, 1, 2], 1)?;
    Ok(ModelParts {
        maximize: false,
        scale: 30,
        constant: 7,
        cost,
        lower,
        upper,
        semi: Items::new(alloc),
        rows,
        indicators,
        sos,
    })
}

fn empty(alloc: Global) -> Result<ModelParts, AllocError> {
    let rows = rows(alloc, &[], 1)?;
    let sos = sets(alloc, SosKind::One, &[], 1)?;
    Ok(ModelParts {
        maximize: false,
        scale: 0,
        constant: -5,
        cost: Items::new(alloc),
        lower: Items::new(alloc),
        upper: Items::new(alloc),
        semi: Items::new(alloc),
        rows,
        indicators: Items::new(alloc),
        sos,
    })
}

/// What stands in place of a part of the plain model.
#[derive(Clone, Copy)]
enum Change {
    Fixed(u32),
    Lower(&'static [i64]),
    Upper(&'static [i64]),
    Open(u32),
    Semi(&'static [(u32, i64, i64)]),
    Scale(u8),
    Constant(i128),
    Cost(&'static [(u32, i128)]),
    Row(&'static [(u32, i128)], u32),
    Indicator(u32, &'static [(u32, i128)], u32),
    Set(&'static [u32], u32),
}

fn put(alloc: Global, parts: &mut ModelParts, change: Change) -> Result<(), AllocError> {
    match change {
        Change::Fixed(count) => {
            parts.lower = same_bounds(alloc, Some(0), count)?;
            parts.upper = same_bounds(alloc, Some(0), count)?;
        }
        Change::Lower(given) => parts.lower = bounds(alloc, given)?,
        Change::Upper(given) => parts.upper = bounds(alloc, given)?,
        Change::Open(count) => parts.upper = same_bounds(alloc, None, count)?,
        Change::Semi(given) => parts.semi = cores(alloc, given)?,
        Change::Scale(scale) => parts.scale = scale,
        Change::Constant(constant) => parts.constant = constant,
        Change::Cost(given) => parts.cost = terms(alloc, given)?,
        Change::Row(given, count) => parts.rows = rows(alloc, given, count)?,
        Change::Indicator(var, given, count) => {
            parts.indicators = indicators(alloc, var, true, given, count)?;
        }
        Change::Set(given, count) => parts.sos = sets(alloc, SosKind::Two, given, count)?,
    }
    Ok(())
}

fn refusal_of(alloc: Global, changes: &[Change]) -> Result<Option<BuildRefusal>, AllocError> {
    let mut parts = plain(alloc, SosKind::Two, true)?;
    for change in changes {
        put(alloc, &mut parts, *change)?;
    }
    Ok(Model::build(alloc, parts).err())
}

/// What is refused, without its place.
#[derive(Clone, Copy)]
enum Refused {
    Nothing,
    Variables,
    Bound,
    Open,
    Objective,
    Row,
    Indicator,
    Sos,
}

fn wanted(refused: Refused, at: u32) -> Option<BuildRefusal> {
    match refused {
        Refused::Nothing => None,
        Refused::Variables => Some(BuildRefusal::Variables),
        Refused::Bound => Some(BuildRefusal::Bound(VarId::new(at))),
        Refused::Open => Some(BuildRefusal::Open(VarId::new(at))),
        Refused::Objective => Some(BuildRefusal::Objective),
        Refused::Row => Some(BuildRefusal::Row(RowId::new(at))),
        Refused::Indicator => Some(BuildRefusal::Indicator(at)),
        Refused::Sos => Some(BuildRefusal::Sos(at)),
    }
}

type Case = (&'static [Change], Refused, u32);

/// The first case that has another answer.
fn first_wrong(alloc: Global, cases: &[Case]) -> Result<Option<usize>, AllocError> {
    for (k, (changes, refused, at)) in cases.iter().enumerate() {
        if refusal_of(alloc, changes)? != wanted(*refused, *at) {
            return Ok(Some(k));
        }
    }
    Ok(None)
}

static CASES: [Case; 46] = [
    (&[], Refused::Nothing, 0),
    (&[Change::Fixed(2_000)], Refused::Nothing, 0),
    (
        &[Change::Fixed(2_001), Change::Scale(31)],
        Refused::Variables,
        0,
    ),
    (&[Change::Upper(&[1, 5])], Refused::Variables, 0),
    (
        &[Change::Lower(&[0, FARTHEST + 1, 0, 0])],
        Refused::Variables,
        0,
    ),
    (
        &[
            Change::Lower(&[0, -FARTHEST, 0]),
            Change::Upper(&[1, FARTHEST, 0]),
        ],
        Refused::Nothing,
        0,
    ),
    (
        &[Change::Lower(&[0, 0, -FARTHEST - 1]), Change::Scale(31)],
        Refused::Bound,
        2,
    ),
    (
        &[
            Change::Lower(&[0, 0, FARTHEST + 1]),
            Change::Upper(&[1, FARTHEST + 1, 2]),
        ],
        Refused::Bound,
        1,
    ),
    (
        &[Change::Scale(31), Change::Row(&[(9, 1)], 1)],
        Refused::Objective,
        0,
    ),
    (&[Change::Cost(&[(0, 3), (3, 1)])], Refused::Objective, 0),
    (&[Change::Cost(&[(1, 3), (1, 1)])], Refused::Objective, 0),
    (&[Change::Cost(&[(1, 3), (0, 1)])], Refused::Objective, 0),
    (&[Change::Cost(&[(0, 3), (1, 0)])], Refused::Objective, 0),
    (
        &[Change::Cost(&[(0, WIDEST - 9), (2, 1)])],
        Refused::Nothing,
        0,
    ),
    (
        &[Change::Cost(&[(0, WIDEST - 8), (2, 1)])],
        Refused::Objective,
        0,
    ),
    (&[Change::Cost(&[(2, WIDEST)])], Refused::Objective, 0),
    (
        &[Change::Cost(&[]), Change::Constant(-WIDEST)],
        Refused::Nothing,
        0,
    ),
    (
        &[Change::Cost(&[]), Change::Constant(-WIDEST - 1)],
        Refused::Objective,
        0,
    ),
    (&[Change::Row(&[(0, 1), (3, 1)], 1)], Refused::Row, 0),
    (
        &[
            Change::Row(&[(2, 1), (1, 1)], 1),
            Change::Indicator(9, &[], 1),
        ],
        Refused::Row,
        0,
    ),
    (&[Change::Row(&[(2, 0)], 1)], Refused::Row, 0),
    (&[Change::Row(&[(0, WIDEST - 5)], 1)], Refused::Nothing, 0),
    (&[Change::Row(&[(0, 4 - WIDEST)], 1)], Refused::Row, 0),
    (
        &[Change::Row(&[(1, (WIDEST - 5) / 5)], 1)],
        Refused::Nothing,
        0,
    ),
    (&[Change::Row(&[(0, i128::MIN)], 1)], Refused::Row, 0),
    (&[Change::Row(&[(1, 1)], 10_000)], Refused::Nothing, 0),
    (
        &[Change::Row(&[(1, 1)], 10_001), Change::Indicator(9, &[], 1)],
        Refused::Row,
        10_000,
    ),
    (&[Change::Indicator(3, &[], 1)], Refused::Indicator, 0),
    (&[Change::Indicator(1, &[], 1)], Refused::Indicator, 0),
    (
        &[Change::Indicator(0, &[(0, WIDEST - 2)], 1)],
        Refused::Nothing,
        0,
    ),
    (
        &[
            Change::Indicator(0, &[(0, WIDEST - 1)], 1),
            Change::Set(&[3], 1),
        ],
        Refused::Indicator,
        0,
    ),
    (&[Change::Indicator(0, &[], 1_000)], Refused::Nothing, 0),
    (
        &[Change::Indicator(0, &[], 1_001)],
        Refused::Indicator,
        1_000,
    ),
    (&[Change::Set(&[0, 3], 1)], Refused::Sos, 0),
    (&[Change::Set(&[0, 2, 0], 1)], Refused::Sos, 0),
    (&[Change::Set(&[2, 0], 1_001)], Refused::Sos, 1_000),
    // cores: on either side of 0, over it, an empty one, and what breaks a core's rule, before what is open
    (
        &[
            Change::Semi(&[(0, 1, 1), (1, 3, 5), (2, 1, 0)]),
            Change::Lower(&[0, 0, 0]),
            Change::Upper(&[1, 5, 0]),
        ],
        Refused::Nothing,
        0,
    ),
    (
        &[
            Change::Semi(&[(1, -5, -3), (2, -2, 2)]),
            Change::Lower(&[0, -5, -2]),
            Change::Upper(&[1, 0, 2]),
        ],
        Refused::Nothing,
        0,
    ),
    (
        &[Change::Semi(&[(1, 1, 5), (1, 1, 5)]), Change::Open(3)],
        Refused::Bound,
        1,
    ),
    (&[Change::Semi(&[(2, -2, 2), (1, 1, 5)])], Refused::Bound, 1),
    (&[Change::Semi(&[(7, 0, 0)])], Refused::Bound, 7),
    (&[Change::Semi(&[(1, 1, 4)])], Refused::Bound, 1),
    (&[Change::Semi(&[(1, 5, 1)])], Refused::Bound, 1),
    (
        &[Change::Semi(&[(1, 1, FARTHEST + 1)]), Change::Open(3)],
        Refused::Bound,
        1,
    ),
    (
        &[Change::Semi(&[(1, 1, FARTHEST)]), Change::Open(3)],
        Refused::Open,
        0,
    ),
    (&[Change::Open(3), Change::Scale(31)], Refused::Open, 0),
];

fn cases() -> &'static [Case] {
    &CASES
}

#[test]
fn refuses_the_first_broken_rule(rt: HostRuntime) -> Result<(), Fail> {
    let wrong = first_wrong(rt.alloc(), cases())?;
    assert_eq!(rt; wrong, None);
    Ok(())
}

type Tried = (SosKind, bool, [i64; 3], bool, i128);

/// Whether the point is feasible, and its value, where it lies within the bounds.
fn judged(model: &Model, point: &Point) -> Option<(bool, i128)> {
    if !model.is_within(point) {
        return None;
    }
    Some((model.feasible(point), model.value(point)))
}

fn is_as_told(alloc: Global, tried: &Tried) -> Result<bool, Fail> {
    let (kind, on, values, feasible, value) = tried;
    let parts = plain(alloc, *kind, *on)?;
    let model = Model::build(alloc, parts)?;
    let point = Point::from_vec(Vec::from_slice(alloc, values)?);
    Ok(judged(&model, &point) == Some((*feasible, *value)))
}

fn tried_points() -> &'static [Tried] {
    &[
        (SosKind::Two, true, [0, 0, 0], true, 7),
        (SosKind::Two, true, [1, 2, 0], true, 8),
        (SosKind::Two, true, [1, 3, 0], false, 7),
        (SosKind::Two, false, [1, 3, 0], true, 7),
        (SosKind::Two, false, [0, 3, 0], false, 4),
        (SosKind::Two, true, [0, 4, 0], true, 3),
        (SosKind::Two, true, [0, 5, 0], false, 2),
        (SosKind::Two, true, [0, 3, 1], true, 14),
        (SosKind::Two, true, [1, 0, 1], false, 20),
        (SosKind::Two, true, [1, 1, 1], false, 19),
        (SosKind::One, true, [0, 3, 1], false, 14),
        (SosKind::One, true, [0, 0, -1], true, -3),
        (SosKind::Two, true, [0, 0, -2], false, -13),
    ]
}

#[test]
fn tells_feasible_points_and_values(rt: HostRuntime) -> Result<(), Fail> {
    for tried in tried_points() {
        assert!(rt; is_as_told(rt.alloc(), tried)?);
    }
    Ok(())
}

fn bounds_of(model: &Model, at: u32) -> Option<(i64, i64)> {
    if model.parts().lower.len() <= at as usize {
        return None;
    }
    Some(model.bounds(VarId::new(at)))
}

fn has_root(alloc: Global, model: &Model, least: &[i64], greatest: &[i64]) -> Result<bool, Fail> {
    let root = model.root(alloc)?;
    Ok(root.lower.as_slice() == least && root.upper.as_slice() == greatest)
}

#[test]
fn shows_bounds_and_root(rt: HostRuntime) -> Result<(), Fail> {
    let parts = plain(rt.alloc(), SosKind::One, true)?;
    let model = Model::build(rt.alloc(), parts)?;
    assert_eq!(rt; bounds_of(&model, 2), Some((-2, 2)));
    assert_eq!(rt; bounds_of(&model, 3), None);
    assert!(rt; has_root(rt.alloc(), &model, &[0, 0, -2], &[1, 5, 2])?);
    Ok(())
}

#[test]
fn takes_no_variables_at_all(rt: HostRuntime) -> Result<(), Fail> {
    let parts = empty(rt.alloc())?;
    let model = Model::build(rt.alloc(), parts)?;
    let point = Point::new(rt.alloc());
    assert_eq!(rt; judged(&model, &point), Some((true, -5)));
    Ok(())
}
