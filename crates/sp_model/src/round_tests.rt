//! Tests of the rounds against boxes by hand.

use crate::bound_rules::closed_box;
use crate::ids::VarId;
use crate::items::Items;
use crate::parts::{ModelParts, Row};
use crate::refusal::BuildRefusal;
use std::alloc::{AllocError, Global};
use std::test::Fail;

const WIDEST: i128 = 1_000_000_000_000_000_000_000_000_000_000_000_000;

const FARTHEST: i64 = 1_000_000_000_000_000;

type Bound = Option<i64>;

type Side = Option<i128>;

/// The bounds of each variable, the semi-integer variables, the rows with their sides, and the closed box, or the variable
/// that stays open.
struct Case {
    bounds: &'static [(Bound, Bound)],
    semi: &'static [(u32, i64, i64)],
    rows: &'static [(&'static [(u32, i128)], Side, Side)],
    closed: Result<&'static [(i64, i64)], u32>,
}

const NONE: (Bound, Bound) = (None, None);

const FROM_0: (Bound, Bound) = (Some(0), None);

static CASES: [Case; 19] = [
    // x + y <= 3, both from 0 on
    Case {
        bounds: &[FROM_0, FROM_0],
        semi: &[],
        rows: &[(&[(0, 1), (1, 1)], None, Some(3))],
        closed: Ok(&[(0, 3), (0, 3)]),
    },
    // x + y = 2 and x - y >= -4, x free
    Case {
        bounds: &[NONE, FROM_0],
        semi: &[],
        rows: &[
            (&[(0, 1), (1, 1)], Some(2), Some(2)),
            (&[(0, 1), (1, -1)], Some(-4), None),
        ],
        closed: Ok(&[(-4, 2), (0, 6)]),
    },
    // x - y <= 5 closes nothing
    Case {
        bounds: &[FROM_0, FROM_0],
        semi: &[],
        rows: &[(&[(0, 1), (1, -1)], None, Some(5))],
        closed: Err(0),
    },
    // quotients: 3x <= 7 and -3y <= 7; 3x >= -7 and -3y >= -7 with the other bound
    Case {
        bounds: &[FROM_0, (None, Some(0))],
        semi: &[],
        rows: &[(&[(0, 3)], None, Some(7)), (&[(1, -3)], None, Some(7))],
        closed: Ok(&[(0, 2), (-2, 0)]),
    },
    Case {
        bounds: &[(None, Some(0)), FROM_0],
        semi: &[],
        rows: &[(&[(0, 3)], Some(-7), None), (&[(1, -3)], Some(-7), None)],
        closed: Ok(&[(-2, 0), (0, 2)]),
    },
    Case {
        bounds: &[FROM_0, (None, Some(0))],
        semi: &[],
        rows: &[(&[(0, 3)], None, Some(-7)), (&[(1, -3)], None, Some(-7))],
        closed: Ok(&[(0, -3), (3, 0)]),
    },
    // a stated bound isn't changed, though 5x <= 3 says more
    Case {
        bounds: &[(Some(0), Some(9))],
        semi: &[],
        rows: &[(&[(0, 5)], None, Some(3))],
        closed: Ok(&[(0, 9)]),
    },
    // the first row that gives a bound gives it: x <= 8 before x <= 2
    Case {
        bounds: &[FROM_0],
        semi: &[],
        rows: &[(&[(0, 1)], None, Some(8)), (&[(0, 1)], None, Some(2))],
        closed: Ok(&[(0, 8)]),
    },
    // a bound that was closed serves the same row at once: 0 <= y <= 9 is closed by x in 0 to 9 of x + y <= 9, then x + y >= 0
    Case {
        bounds: &[FROM_0, NONE],
        semi: &[],
        rows: &[
            (&[(0, 1), (1, 1)], Some(0), Some(9)),
            (&[(0, 1)], None, Some(4)),
        ],
        closed: Ok(&[(0, 4), (-4, 9)]),
    },
    // a bound of exactly 10^15, and one more
    Case {
        bounds: &[FROM_0],
        semi: &[],
        rows: &[(&[(0, 1)], None, Some(FARTHEST as i128))],
        closed: Ok(&[(0, FARTHEST)]),
    },
    Case {
        bounds: &[FROM_0],
        semi: &[],
        rows: &[(&[(0, 1)], None, Some(FARTHEST as i128 + 1))],
        closed: Err(0),
    },
    // a sum so far of exactly 10^36, and one more
    Case {
        bounds: &[(Some(1), Some(1)), (Some(-1), Some(-1)), FROM_0],
        semi: &[],
        rows: &[(
            &[(0, WIDEST / 2), (1, WIDEST / 2 - 1), (2, 1)],
            None,
            Some(7),
        )],
        closed: Ok(&[(1, 1), (-1, -1), (0, 6)]),
    },
    Case {
        bounds: &[
            (Some(2), Some(2)),
            (Some(1), Some(1)),
            (Some(-4), Some(-4)),
            FROM_0,
        ],
        semi: &[],
        rows: &[(
            &[
                (0, WIDEST / 4),
                (1, WIDEST / 2),
                (2, WIDEST / 4 - 1),
                (3, 1),
            ],
            None,
            Some(9),
        )],
        closed: Ok(&[(2, 2), (1, 1), (-4, -4), (0, 5)]),
    },
    Case {
        bounds: &[
            (Some(2), Some(2)),
            (Some(1), Some(1)),
            (Some(-4), Some(-4)),
            FROM_0,
        ],
        semi: &[],
        rows: &[(
            &[
                (0, WIDEST / 4),
                (1, WIDEST / 2 + 1),
                (2, WIDEST / 4 - 2),
                (3, 1),
            ],
            None,
            Some(9),
        )],
        closed: Err(3),
    },
    // a product of exactly 10^36, and two more
    Case {
        bounds: &[(Some(2), Some(2)), (Some(-2), Some(-2)), FROM_0],
        semi: &[],
        rows: &[(
            &[(0, WIDEST / 2), (1, WIDEST / 2 - 1), (2, 1)],
            None,
            Some(5),
        )],
        closed: Ok(&[(2, 2), (-2, -2), (0, 3)]),
    },
    Case {
        bounds: &[(Some(2), Some(2)), (Some(-2), Some(-2)), FROM_0],
        semi: &[],
        rows: &[(
            &[(0, WIDEST / 2 + 1), (1, WIDEST / 2 - 2), (2, 1)],
            None,
            Some(9),
        )],
        closed: Err(2),
    },
    // rows that take no part: an unknown variable, variables that don't rise, a coefficient 0, too great coefficients
    Case {
        bounds: &[FROM_0, (Some(0), Some(0))],
        semi: &[],
        rows: &[
            (&[(0, 1), (2, 1)], None, Some(3)),
            (&[(1, 1), (0, 1)], None, Some(3)),
            (&[(0, 1), (1, 0)], None, Some(3)),
            (&[(0, 2), (1, WIDEST - 1)], None, Some(3)),
            (&[(0, 1)], Some(-WIDEST - 1), Some(3)),
        ],
        closed: Err(0),
    },
    // no rule closes a bound of a semi-integer variable
    Case {
        bounds: &[(Some(0), None)],
        semi: &[(0, 3, 5)],
        rows: &[(&[(0, 1)], None, Some(4))],
        closed: Err(0),
    },
    // an empty box stays one
    Case {
        bounds: &[(Some(5), Some(4)), FROM_0],
        semi: &[],
        rows: &[(&[(0, 1), (1, 1)], None, Some(4))],
        closed: Ok(&[(5, 4), (0, -1)]),
    },
];

fn row_of(alloc: Global, given: &[(u32, i128)], lo: Side, hi: Side) -> Result<Row, AllocError> {
    let mut terms = Vec::new(alloc);
    for term in given {
        terms.push((VarId::new(term.0), term.1))?;
    }
    let terms = Items::from_vec(terms);
    Ok(Row { terms, lo, hi })
}

/// A model of these bounds and rows, without an objective.
fn parts_of(
    alloc: Global,
    bounds: &[(Bound, Bound)],
    semi: &[(u32, i64, i64)],
    rows: Vec<Row>,
) -> Result<ModelParts, AllocError> {
    let mut parts = ModelParts {
        maximize: false,
        scale: 0,
        constant: 0,
        cost: Items::new(alloc),
        lower: Items::new(alloc),
        upper: Items::new(alloc),
        semi: Items::new(alloc),
        rows: Items::from_vec(rows),
        indicators: Items::new(alloc),
        sos: Items::new(alloc),
    };
    for range in bounds {
        parts.lower.push(range.0)?;
        parts.upper.push(range.1)?;
    }
    for core in semi {
        parts.semi.push((VarId::new(core.0), core.1, core.2))?;
    }
    Ok(parts)
}

/// Whether the closed box is this one, or this variable stays open.
fn closes(alloc: Global, parts: &ModelParts, closed: &Result<&'static [(i64, i64)], u32>) -> bool {
    match closed_box(alloc, parts) {
        Err(refusal) => match closed {
            Ok(_) => false,
            Err(var) => refusal == BuildRefusal::Open(VarId::new(*var)),
        },
        Ok(root) => match closed {
            Err(_) => false,
            Ok(ranges) => is_box(root.lower.as_slice(), root.upper.as_slice(), ranges),
        },
    }
}

fn is_box(lower: &[i64], upper: &[i64], ranges: &[(i64, i64)]) -> bool {
    lower.len() == ranges.len()
        && upper.len() == ranges.len()
        && lower
            .iter()
            .zip(ranges.iter())
            .all(|(l, range)| *l == range.0)
        && upper
            .iter()
            .zip(ranges.iter())
            .all(|(u, range)| *u == range.1)
}

fn is_as_told(alloc: Global, case: &Case) -> Result<bool, AllocError> {
    let mut rows = Vec::new(alloc);
    for (terms, lo, hi) in case.rows {
        rows.push(row_of(alloc, terms, *lo, *hi)?)?;
    }
    let parts = parts_of(alloc, case.bounds, case.semi, rows)?;
    Ok(closes(alloc, &parts, &case.closed))
}

/// The first case that has another answer.
fn first_wrong(alloc: Global, cases: &[Case]) -> Result<Option<usize>, AllocError> {
    for (k, case) in cases.iter().enumerate() {
        if !is_as_told(alloc, case)? {
            return Ok(Some(k));
        }
    }
    Ok(None)
}

fn cases() -> &'static [Case] {
    &CASES
}

/// The variables x1 to xk, from 0 on, with the rows x1 - x2 <= 0, x2 - x3 <= 0 and so on, and xk <= 1: each round closes
/// one variable, from the last one down. Whether all of them are closed.
fn closes_chain(alloc: Global, count: u32) -> Result<bool, AllocError> {
    let mut rows = Vec::new(alloc);
    for var in 1..count {
        let row = [(var - 1, 1), (var, -1)];
        rows.push(row_of(alloc, &row, None, Some(0))?)?;
    }
    let last = [(count.saturating_sub(1), 1)];
    rows.push(row_of(alloc, &last, None, Some(1))?)?;
    let mut parts = parts_of(alloc, &[], &[], rows)?;
    for _ in 0..count {
        parts.lower.push(Some(0))?;
        parts.upper.push(None)?;
    }
    Ok(closed_box(alloc, &parts).is_ok())
}

#[test]
fn closes_as_told(rt: HostRuntime) -> Result<(), Fail> {
    let wrong = first_wrong(rt.alloc(), cases())?;
    assert_eq!(rt; wrong, None);
    assert!(rt; closes_chain(rt.alloc(), 32)?);
    assert!(rt; !closes_chain(rt.alloc(), 33)?);
    Ok(())
}
