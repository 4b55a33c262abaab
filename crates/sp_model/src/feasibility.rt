//! Whether rows, indicators, sets and cores hold at a point.

ghost use Rattle.std.specs.Prelude.{◌≡◌, ◌↔◌, ◌&&◌, ◌<◌, All, length, IsTrue};
ghost use Rattle.std.specs.List.{list_all};
ghost use Rattle.std.specs.Ordering.{int_eq};
ghost use Rattle.sp_model.specs.Boxes.{IsWithin, coordinate};
ghost use Rattle.sp_model.specs.Rules.{IsLawful};
ghost use Rattle.sp_model.specs.Stated.{core_allows, core_holds, is_at_least, is_at_most};
ghost use Rattle.sp_model.specs.Sums.{AreTermsSafe};
ghost use Rattle.sp_model.specs.Models.{constraints_hold, row_holds, switch_value, indicator_holds, is_nonzero, set_holds, root_of};

use crate::ids::VarId;
use crate::parts::{Indicator, ModelParts, Row, Sos, SosKind};
use crate::sums::sum_from;

/// Whether the value isn't below the side; a missing one excludes nothing.
pub fn is_at_least(side: &Option<i128>, value: &i128) -> bool
    ensures { result ≡ is_at_least side.now value.now }
{
    match side {
        None => true,
        Some(least) => *least <= *value,
    }
}

/// Whether the value isn't above the side; a missing one excludes nothing.
pub fn is_at_most(side: &Option<i128>, value: &i128) -> bool
    ensures { result ≡ is_at_most side.now value.now }
{
    match side {
        None => true,
        Some(greatest) => *value <= *greatest,
    }
}

fn is_between_sides(row: &Row, sum: &i128) -> bool
    ensures { result ≡ (is_at_least row.now.lo sum.now && is_at_most row.now.hi sum.now) }
{
    is_at_least(&row.lo, sum) && is_at_most(&row.hi, sum)
}

fn does_row_hold(row: &Row, x: &[i64]) -> bool
    requires { AreTermsSafe row.now.terms x.now }
    ensures { result ≡ row_holds row.now x.now }
{
    let sum = sum_from(&0, row.terms.as_slice(), x);
    is_between_sides(row, &sum)
}

/// Whether each row holds at the point.
pub fn do_rows_hold(rows: &[Row], x: &[i64]) -> bool
    requires { All (λ row. AreTermsSafe row.terms x.now) rows.now }
    ensures { result ≡ list_all (λ row. row_holds row x.now) rows.now }
{
    for row in rows {
        if !does_row_hold(row, x) {
            return false;
        }
    }
    true
}

fn is_switched(on: bool, value: &i64) -> bool
    ensures { result ≡ int_eq value.now (switch_value on) }
{
    if on { *value == 1 } else { *value == 0 }
}

fn does_indicator_hold(indicator: &Indicator, x: &[i64]) -> bool
    requires known { indicator.now.var < length x.now }
    requires safe { AreTermsSafe indicator.now.row.terms x.now }
    ensures { result ≡ indicator_holds indicator.now x.now }
{
    if !is_switched(indicator.on, &x[indicator.var.index()]) {
        return true;
    }
    does_row_hold(&indicator.row, x)
}

/// Whether each indicator holds at the point.
pub fn do_indicators_hold(indicators: &[Indicator], x: &[i64]) -> bool
    requires known { All (λ i. i.var < length x.now) indicators.now }
    requires safe { All (λ i. AreTermsSafe i.row.terms x.now) indicators.now }
    ensures { result ≡ list_all (λ i. indicator_holds i x.now) indicators.now }
{
    for indicator in indicators {
        if !does_indicator_hold(indicator, x) {
            return false;
        }
    }
    true
}

fn is_nonzero_at(x: &[i64], var: VarId) -> bool
    requires { var < length x.now }
    ensures { result ≡ is_nonzero (coordinate x.now var) }
{
    x[var.index()] != 0
}

/// Whether the set allows the values that its members have at the point.
fn does_set_hold(set: &Sos, x: &[i64]) -> bool
    requires { All (λ v. v < length x.now) set.now.vars }
    ensures { result ≡ set_holds set.now x.now }
{
    let mut count: usize = 0;
    let mut last = false;
    let mut touching = false;
    for var in set.vars.as_slice() {
        let nonzero = is_nonzero_at(x, *var);
        touching |= last & nonzero;
        last = nonzero;
        count += usize::from(nonzero);
    }
    match set.kind {
        SosKind::One => count <= 1,
        SosKind::Two => (count <= 1) | ((count == 2) & touching),
    }
}

/// Whether each set holds at the point.
pub fn do_sets_hold(sets: &[Sos], x: &[i64]) -> bool
    requires { All (λ set. All (λ v. v < length x.now) set.vars) sets.now }
    ensures { result ≡ list_all (λ set. set_holds set x.now) sets.now }
{
    for set in sets {
        if !does_set_hold(set, x) {
            return false;
        }
    }
    true
}

fn does_core_hold(core: &(VarId, i64, i64), x: &[i64]) -> bool
    requires { core.now.0 < length x.now }
    ensures { result ≡ core_holds core.now x.now }
{
    does_core_allow(core, &x[core.0.index()])
}

fn does_core_allow(core: &(VarId, i64, i64), value: &i64) -> bool
    ensures { result ≡ core_allows core.now value.now }
{
    *value == 0 || core.1 <= *value && *value <= core.2
}

/// Whether each semi-integer variable is 0 or lies within its core.
pub fn do_cores_hold(cores: &[(VarId, i64, i64)], x: &[i64]) -> bool
    requires { All (λ core. core.0 < length x.now) cores.now }
    ensures { result ≡ list_all (λ core. core_holds core x.now) cores.now }
{
    for core in cores {
        if !does_core_hold(core, x) {
            return false;
        }
    }
    true
}

/// Whether each semi-integer variable, row, indicator and set of a lawful model holds at a point within the closed box.
pub fn do_all_hold(parts: &ModelParts, x: &[i64]) -> bool
    requires lawful { IsLawful parts.now }
    requires within { IsWithin (root_of parts.now) x.now }
    ensures { result ≡ constraints_hold parts.now x.now }
{
    let cores = do_cores_hold(parts.semi.as_slice(), x);
    if !cores {
        return false;
    }
    let rows = do_rows_hold(parts.rows.as_slice(), x);
    if !rows {
        return false;
    }
    let indicators = do_indicators_hold(parts.indicators.as_slice(), x);
    if !indicators {
        return false;
    }
    do_sets_hold(parts.sos.as_slice(), x)
}
