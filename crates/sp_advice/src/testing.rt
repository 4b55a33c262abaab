//! Whether a box looks open: no row of the model and none of some lists closes it.

use crate::numbers::{least_of, range_at};
use sp_bound::{Scratch, are_rows_known, bound_in, lies_inside};
use sp_dual::Multipliers;
use sp_model::{BoxOf, Model, Row, VarId};

/// The least sum of some terms over a box, each times a sign.
fn least_sum(terms: &[(VarId, i128)], bounds: &BoxOf, sign: &i128) -> Option<i128> {
    let mut sum: i128 = 0;
    for term in terms {
        let cost = term.1.checked_mul(*sign)?;
        let least = least_of(&cost, &range_at(bounds, term.0.index()))?;
        sum = sum.checked_add(least)?;
    }
    Some(sum)
}

/// Whether some terms pass a side for sure.
fn is_passed(terms: &[(VarId, i128)], bounds: &BoxOf, side: &Option<i128>, sign: &i128) -> bool {
    match side {
        None => false,
        Some(side) => match least_sum(terms, bounds, sign) {
            None => false,
            Some(least) => side.saturating_mul(*sign) < least,
        },
    }
}

/// Whether no point of the box satisfies one of the rows.
fn is_broken(rows: &[Row], bounds: &BoxOf) -> bool {
    for row in rows {
        let terms = row.terms.as_slice();
        if is_passed(terms, bounds, &row.hi, &1) || is_passed(terms, bounds, &row.lo, &-1) {
            return true;
        }
    }
    false
}

/// Whether the number of a list over the box is past the threshold.
fn is_past(
    model: &Model,
    bounds: &BoxOf,
    list: &Multipliers,
    threshold: &i128,
    scratch: &mut Scratch,
) -> bool {
    if !scratch.suits(model) || !are_rows_known(model, list) || !lies_inside(model, bounds) {
        return false;
    }
    match bound_in(model, bounds, list, scratch) {
        None => false,
        Some(least) => *threshold < least,
    }
}

/// Whether one of the lists closes the box.
fn is_closed(
    model: &Model,
    bounds: &BoxOf,
    lists: &[Multipliers],
    threshold: &Option<i128>,
    scratch: &mut Scratch,
) -> bool {
    match threshold {
        None => false,
        Some(threshold) => {
            for list in lists {
                if is_past(model, bounds, list, threshold, scratch) {
                    return true;
                }
            }
            false
        }
    }
}

/// Whether the box looks open.
pub fn looks_open(
    model: &Model,
    bounds: &BoxOf,
    lists: &[Multipliers],
    threshold: &Option<i128>,
    scratch: &mut Scratch,
) -> bool {
    !is_broken(model.parts().rows.as_slice(), bounds)
        && !is_closed(model, bounds, lists, threshold, scratch)
}
