//! Tests of bounds against values by hand.

use crate::bounds::bound;
use crate::conditions::{are_rows_known, has_points, lies_inside};
use crate::kept::KeptBounds;
use crate::scratch::{Scratch, bound_in};
use crate::stated::stated_lists;
use smallvec::SmallVec;
use sp_dual::Multipliers;
use sp_model::{BoxOf, Items, Model, ModelParts, NoMemory, Row, RowId, VarId};
use std::alloc::Global;
use std::test::Fail;

/// A row from a variable on: the coefficients and the sides.
struct Line {
    first: u32,
    coefficients: &'static [i128],
    lo: Option<i128>,
    hi: Option<i128>,
}

/// A model of variables from 0 to their upper bounds, with a cost for each.
struct Plain {
    upper: &'static [i64],
    cost: &'static [i128],
    lines: &'static [Line],
}

const WIDE: i128 = 999_999_999_999_999_999_999_999_999_999;

/// A row as wide as one may be.
const WIDEST: Plain = Plain {
    upper: &[1_000_000, 1],
    cost: &[1, 1],
    lines: &[Line {
        first: 0,
        coefficients: &[WIDE, 1],
        lo: Some(999_999),
        hi: None,
    }],
};

/// One variable, of which twice is at most 5.
const HALVED: Plain = Plain {
    upper: &[5],
    cost: &[-1],
    lines: &[Line {
        first: 0,
        coefficients: &[2],
        lo: None,
        hi: Some(5),
    }],
};

const THREES: [i128; 16] = [3; 16];

const ONES: [i64; 32] = [1; 32];

const MINUS: [i128; 32] = [-1; 32];

/// Two rows, each over half of the variables.
const TWO_ROWS: Plain = Plain {
    upper: &ONES,
    cost: &MINUS,
    lines: &[
        Line {
            first: 0,
            coefficients: &THREES,
            lo: None,
            hi: Some(25),
        },
        Line {
            first: 16,
            coefficients: &THREES,
            lo: None,
            hi: Some(25),
        },
    ],
};

/// A model, a divisor, rows with multipliers, and the bound on the closed box.
const BOUNDS: [(&Plain, i128, &[(u32, i128)], Option<i128>); 9] = [
    (
        &WIDEST,
        1,
        &[(0, 1)],
        Some(2_999_999 - 1_000_000_000_000_000_000_000_000_000_000_000_000),
    ),
    (&WIDEST, 1, &[(0, 1_000)], None),
    (&WIDEST, 1, &[], Some(0)),
    (&HALVED, 2, &[(0, -1)], Some(-2)),
    (&HALVED, 1, &[], Some(-5)),
    (&TWO_ROWS, 1, &[], Some(-32)),
    (&TWO_ROWS, 3, &[(0, -1)], Some(-24)),
    (&TWO_ROWS, 3, &[(1, -1)], Some(-24)),
    (&TWO_ROWS, 3, &[(0, -1), (1, -1)], Some(-16)),
];

fn terms_of(alloc: Global, first: u32, numbers: &[i128]) -> Result<Items<(VarId, i128)>, NoMemory> {
    let mut terms = Items::new(alloc);
    let mut var = first;
    for number in numbers {
        terms.push((VarId::new(var), *number))?;
        var = var.saturating_add(1);
    }
    Ok(terms)
}

fn bounds_of(alloc: Global, given: &[i64]) -> Result<Items<Option<i64>>, NoMemory> {
    let mut bounds = Items::new(alloc);
    for bound in given {
        bounds.push(Some(*bound))?;
    }
    Ok(bounds)
}

fn zeros(alloc: Global, count: usize) -> Result<Items<Option<i64>>, NoMemory> {
    let mut bounds = Items::new(alloc);
    for _ in 0..count {
        bounds.push(Some(0))?;
    }
    Ok(bounds)
}

fn rows_of(alloc: Global, lines: &[Line]) -> Result<Items<Row>, NoMemory> {
    let mut rows = Items::new(alloc);
    for line in lines {
        let terms = terms_of(alloc, line.first, line.coefficients)?;
        rows.push(Row {
            terms,
            lo: line.lo,
            hi: line.hi,
        })?;
    }
    Ok(rows)
}

fn parts_of(alloc: Global, plain: &Plain) -> Result<ModelParts, NoMemory> {
    let cost = terms_of(alloc, 0, plain.cost)?;
    let lower = zeros(alloc, plain.upper.len())?;
    let upper = bounds_of(alloc, plain.upper)?;
    let rows = rows_of(alloc, plain.lines)?;
    Ok(ModelParts {
        maximize: false,
        scale: 0,
        constant: 0,
        cost,
        lower,
        upper,
        semi: Items::new(alloc),
        rows,
        indicators: Items::new(alloc),
        sos: Items::new(alloc),
    })
}

fn model_of(alloc: Global, plain: &Plain) -> Result<Model, NoMemory> {
    match Model::build(alloc, parts_of(alloc, plain)?) {
        Ok(model) => Ok(model),
        Err(_) => Err(NoMemory),
    }
}

fn list_of(alloc: Global, d: i128, given: &[(u32, i128)]) -> Result<Multipliers, NoMemory> {
    let mut entries = SmallVec::new(alloc);
    for entry in given {
        entries.push((RowId::new(entry.0), entry.1))?;
    }
    match Multipliers::from_entries(d, entries) {
        Some(list) => Ok(list),
        None => Err(NoMemory),
    }
}

/// Whether both calls give this bound.
fn gives(
    model: &Model,
    root: &BoxOf,
    list: &Multipliers,
    scratch: &mut Scratch,
    want: Option<i128>,
) -> bool {
    if !lies_inside(model, root) || !are_rows_known(model, list) || !scratch.suits(model) {
        return false;
    }
    bound(model, root, list) == want && bound_in(model, root, list, scratch) == want
}

/// Whether the case is as stated.
fn is_bound(
    alloc: Global,
    plain: &Plain,
    d: i128,
    given: &[(u32, i128)],
    want: Option<i128>,
) -> Result<bool, NoMemory> {
    let model = model_of(alloc, plain)?;
    let root = model.root(alloc)?;
    let list = list_of(alloc, d, given)?;
    let mut scratch = Scratch::new(alloc, &model)?;
    Ok(gives(&model, &root, &list, &mut scratch, want))
}

#[test]
fn bounds_are_as_by_hand(rt: HostRuntime) -> Result<(), Fail> {
    for case in &BOUNDS {
        assert!(rt;
            matches!(
                is_bound(rt.alloc(), case.0, case.1, case.2, case.3),
                Ok(true)
            )
        );
    }
    Ok(())
}

/// A model, and the divisor, the row and the multiplier of its stated lists behind the empty one.
const STATED: [(&Plain, &[(i128, u32, i128)]); 3] = [
    (&WIDEST, &[(WIDE, 0, 1), (1, 0, 1)]),
    (&HALVED, &[(2, 0, -1)]),
    (&TWO_ROWS, &[(3, 0, -1), (3, 1, -1)]),
];

/// Whether the list has this divisor, and this row with this multiplier alone.
fn is_single(list: &Multipliers, want: &(i128, u32, i128)) -> bool {
    let mut entries = 0;
    let mut right = list.d == want.0;
    for entry in list.entries() {
        entries = 1;
        right &= entry.0 == RowId::new(want.1) && entry.1 == want.2;
    }
    right && entries == 1
}

/// Whether the model has these stated lists behind the empty one.
fn states(alloc: Global, plain: &Plain, want: &[(i128, u32, i128)]) -> Result<bool, NoMemory> {
    let model = model_of(alloc, plain)?;
    let lists = stated_lists(alloc, &model)?;
    let mut right = true;
    let mut place = 0;
    for list in &lists {
        if place == 0 {
            right &= list.entries().is_empty() && list.d == 1;
        } else if place <= want.len() {
            right &= is_single(list, &want[place - 1]);
        } else {
            right = false;
        }
        place = place.saturating_add(1);
    }
    Ok(right && place > want.len())
}

#[test]
fn lists_are_as_by_hand(rt: HostRuntime) -> Result<(), Fail> {
    for case in &STATED {
        assert!(rt; matches!(states(rt.alloc(), case.0, case.1), Ok(true)));
    }
    Ok(())
}

/// A model, a range for its first variable, a threshold, and the place of the stated list that closes the box then.
const CLOSING: [(&Plain, (i64, i64), Option<i128>, Option<u32>); 6] = [
    (&TWO_ROWS, (0, 1), Some(-25), Some(1)),
    (&TWO_ROWS, (0, 1), Some(-24), None),
    (&TWO_ROWS, (0, 1), None, None),
    (&HALVED, (0, 5), Some(-3), Some(1)),
    (&HALVED, (0, 5), Some(-2), None),
    (&HALVED, (0, 1), Some(-2), Some(0)),
];

/// The place of the list that closes the box with this range of the first variable.
fn closing(
    alloc: Global,
    plain: &Plain,
    range: &(i64, i64),
    threshold: &Option<i128>,
) -> Result<Option<u32>, NoMemory> {
    let model = model_of(alloc, plain)?;
    if !has_points(&model) {
        return Err(NoMemory);
    }
    let mut kept = KeptBounds::new(alloc, &model)?;
    kept.set_threshold(&model, threshold);
    if !kept.can_set(&model, VarId::new(0), range) {
        return Err(NoMemory);
    }
    kept.set(&model, VarId::new(0), range);
    Ok(kept.closing(&model))
}

#[test]
fn boxes_close_as_by_hand(rt: HostRuntime) -> Result<(), Fail> {
    for case in &CLOSING {
        let found = closing(rt.alloc(), case.0, &case.1, &case.2);
        assert!(rt; matches!(found, Ok(place) if place == case.3));
    }
    Ok(())
}
