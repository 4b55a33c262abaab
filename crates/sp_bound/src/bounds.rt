//! The bound of a list of multipliers, from nothing.

ghost use Rattle.std.specs.Prelude.{◌≡◌, ◌<◌, ◌≤◌, ◌≤ℤ◌, ◌*ℤ◌, All, length, pos, Some, IsSome};
ghost use Rattle.sp_model.specs.Models.{root_of};
ghost use Rattle.sp_model.specs.Rounds.{ceiling_of};
ghost use Rattle.sp_sums.specs.Extremes.{AreTermsNarrow};
ghost use Rattle.sp_sums.specs.Ranges.{IsInside};
ghost use Rattle.sp_dual.specs.Lists.{zero_list};
ghost use Rattle.sp_bound.specs.Bounds.{AreRowsKnown, bound_of, side_of, side_product};
ghost use Rattle.sp_bound.specs.Inner.{ended, if_fits, plus_sides, plus_values, reduced};

use crate::numbers::{least_value, plus, times};
use crate::reduced::reduced_cost;
use sp_dual::Multipliers;
use sp_model::{BoxOf, Model, ModelParts, Row, RowId, VarId, quotients_are_exact, root_is_short};
use sp_sums::{rows_are_narrow_inside, span_over};

/// The side of a row that the multiplier names.
fn side_of(bounds: &BoxOf, row: &Row, multiplier: &i128) -> i128
    requires { AreTermsNarrow bounds.now row.now.terms }
    ensures { result ≡ side_of bounds.now row.now multiplier.now }
{
    if 0 < *multiplier {
        match row.lo {
            Some(side) => side,
            None => span_over(row.terms.as_slice(), bounds).least,
        }
    } else {
        match row.hi {
            Some(side) => side,
            None => span_over(row.terms.as_slice(), bounds).most,
        }
    }
}

/// A multiplier times its side.
fn side_product(bounds: &BoxOf, rows: &[Row], weight: &(RowId, i128)) -> Option<i128>
    requires known { weight.now.0 < length rows.now }
    requires narrow { All (λ row. AreTermsNarrow bounds.now row.terms) rows.now }
    ensures { result ≡ if_fits (side_product bounds.now rows.now weight.now) }
{
    let side = side_of(bounds, &rows[weight.0.index()], &weight.1);
    times(&weight.1, &side)
}

/// The products of all sides, added up.
pub fn sum_of_sides(model: &ModelParts, bounds: &BoxOf, list: &Multipliers) -> Option<i128>
    requires known { All (λ w. w.0 < length model.now.rows) list.now.y }
    requires narrow { All (λ row. AreTermsNarrow bounds.now row.terms) model.now.rows }
    ensures { result ≡ plus_sides bounds.now model.now.rows (Some (pos 0)) list.now.y }
{
    let rows = model.rows.as_slice();
    let mut sum = Some(0);
    for weight in list.entries() {
        sum = plus(&sum, &side_product(bounds, rows, weight));
    }
    sum
}

/// A sum with the least values of all reduced costs.
fn plus_values(
    model: &ModelParts,
    bounds: &BoxOf,
    list: &Multipliers,
    start: &Option<i128>,
) -> Option<i128>
    requires short { length bounds.now ≤ 2000 }
    requires known { All (λ w. w.0 < length model.now.rows) list.now.y }
    ensures { result ≡ plus_values (reduced model.now list.now) 0 start.now bounds.now }
{
    let mut sum = *start;
    for at in 0..bounds.len() {
        let var = VarId::new(at as u32);
        let cost = reduced_cost(model, list, var);
        sum = plus(&sum, &least_value(&cost, &bounds.range(var)));
    }
    sum
}

/// The quotient, rounded up.
fn ceiling_of(sum: &i128, divisor: &i128) -> i128
    requires { pos 1 ≤ℤ divisor.now }
    ensures { result ≡ ceiling_of sum.now divisor.now }
{
    if 0 < *sum {
        (*sum - 1) / *divisor + 1
    } else {
        *sum / *divisor
    }
}

/// The bound of a sum.
pub fn ended(model: &ModelParts, list: &Multipliers, sum: &Option<i128>) -> Option<i128>
    ensures { result ≡ ended model.now list.now sum.now }
{
    match sum {
        None => None,
        Some(sum) => {
            let _entries = list.entries();
            ceiling_of(sum, &list.d).checked_add(model.constant)
        }
    }
}

/// The bound of the list on the box, in scaled units and in the minimising direction. `None` exactly where one of its
/// numbers passes 128 bits. It takes no memory.
pub fn bound(model: &Model, bounds: &BoxOf, list: &Multipliers) -> Option<i128>
    requires known { AreRowsKnown model.now list.now }
    requires inside { IsInside (root_of model.now) bounds.now }
    ensures exact { result ≡ bound_of model.now bounds.now list.now }
    ensures zero { list.now ≡ zero_list → IsSome result }
{
    let parts = model.parts();
    quotients_are_exact();
    rows_are_narrow_inside();
    root_is_short();
    let sides = sum_of_sides(parts, bounds, list);
    let sum = plus_values(parts, bounds, list, &sides);
    ended(parts, list, &sum)
}
