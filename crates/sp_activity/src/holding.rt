//! Whether a reason holds of a box of a model.

ghost use Rattle.std.specs.Prelude.{◌≡◌, ◌↔◌, ◌&&◌, ◌==◌, ◌<◌, length, true, All, IsTrue};
ghost use Rattle.sp_model.specs.Boxes.{range_at};
ghost use Rattle.sp_model.specs.Models.{root_of};
ghost use Rattle.sp_sums.specs.Extremes.{AreTermsNarrow};
ghost use Rattle.sp_sums.specs.Rows.{row_at};
ghost use Rattle.sp_activity.specs.Reasons.{Holds, IsClash, IsEmptyAt, IsMissedAt, Says, indicator_at, is_asked, is_high_over, is_low_over, is_missed, set_at};
ghost use Rattle.sp_activity.specs.Stages.{IsEmptyBy, IsReady};
ghost use Rattle.sp_activity.specs.Within.{IsUnder};

use crate::ranges::{is_crossed, is_missed, lacks_zero};
use crate::reasons::Reason;
use crate::stages::{clash_distance, first_empty, is_asked};
use sp_model::{BoxOf, Indicator, Model, ModelParts, Row, Sos, VarId, root_is_short};
use sp_sums::{is_high, is_low, rows_are_narrow_inside, span_over};

/// Whether the reason names only known things and holds of the box, whose ranges end within those of the model's closed
/// box. Of an empty box only `Empty` holds. It takes no memory.
pub fn holds(model: &Model, bounds: &BoxOf, reason: &Reason) -> bool
    requires { IsUnder (root_of model.now) bounds.now }
    ensures { IsTrue result ↔ Holds model.now bounds.now reason.now }
{
    let parts = model.parts();
    root_is_short();
    rows_are_narrow_inside();
    match first_empty(bounds) {
        Some(_) => is_empty_by(bounds, reason),
        None => is_said(parts, bounds, reason),
    }
}

/// Whether the reason is that this variable's range is empty, of an empty box.
fn is_empty_by(bounds: &BoxOf, reason: &Reason) -> bool
    ensures { IsTrue result ↔ IsEmptyBy bounds.now reason.now }
{
    match *reason {
        Reason::Empty(var) => is_empty_at(bounds, var),
        _ => false,
    }
}

fn is_empty_at(bounds: &BoxOf, var: VarId) -> bool
    ensures { IsTrue result ↔ IsEmptyAt bounds.now var }
{
    var.index() < bounds.len() && is_crossed(&bounds.range(var))
}

/// Whether the reason holds of a box that isn't empty.
fn is_said(parts: &ModelParts, bounds: &BoxOf, reason: &Reason) -> bool
    requires { IsReady parts.now bounds.now }
    ensures { IsTrue result ↔ Says parts.now bounds.now reason.now }
{
    match *reason {
        Reason::Empty(_) => false,
        Reason::RowLow(row) => is_row_low(parts.rows.as_slice(), bounds, row.index()),
        Reason::RowHigh(row) => is_row_high(parts.rows.as_slice(), bounds, row.index()),
        Reason::IndicatorLow(id) => is_gate_low(parts.indicators.as_slice(), bounds, id as usize),
        Reason::IndicatorHigh(id) => is_gate_high(parts.indicators.as_slice(), bounds, id as usize),
        Reason::Sos(id, first, second) => {
            is_set_clashing(parts.sos.as_slice(), bounds, id as usize, first, second)
        }
        Reason::Semi(var) => is_var_missed(parts.semi.as_slice(), bounds, var),
    }
}

fn is_row_low(rows: &[Row], bounds: &BoxOf, at: usize) -> bool
    requires { All (λ row. AreTermsNarrow bounds.now row.terms) rows.now }
    ensures { IsTrue result ↔ ((at < length rows.now) × (is_low_over bounds.now (row_at rows.now at) ≡ true)) }
{
    at < rows.len() && is_low(&rows[at], &span_over(rows[at].terms.as_slice(), bounds))
}

fn is_row_high(rows: &[Row], bounds: &BoxOf, at: usize) -> bool
    requires { All (λ row. AreTermsNarrow bounds.now row.terms) rows.now }
    ensures { IsTrue result ↔ ((at < length rows.now) × (is_high_over bounds.now (row_at rows.now at) ≡ true)) }
{
    at < rows.len() && is_high(&rows[at], &span_over(rows[at].terms.as_slice(), bounds))
}

/// Whether the indicator asks for its row, and that is low.
fn is_asked_low(indicator: &Indicator, bounds: &BoxOf) -> bool
    requires known { indicator.now.var < length bounds.now }
    requires narrow { AreTermsNarrow bounds.now indicator.now.row.terms }
    ensures { result ≡ (is_asked bounds.now indicator.now && is_low_over bounds.now indicator.now.row) }
{
    let row = &indicator.row;
    is_asked(indicator, bounds) && is_low(row, &span_over(row.terms.as_slice(), bounds))
}

/// Whether the indicator asks for its row, and that is high.
fn is_asked_high(indicator: &Indicator, bounds: &BoxOf) -> bool
    requires known { indicator.now.var < length bounds.now }
    requires narrow { AreTermsNarrow bounds.now indicator.now.row.terms }
    ensures { result ≡ (is_asked bounds.now indicator.now && is_high_over bounds.now indicator.now.row) }
{
    let row = &indicator.row;
    is_asked(indicator, bounds) && is_high(row, &span_over(row.terms.as_slice(), bounds))
}

fn is_gate_low(indicators: &[Indicator], bounds: &BoxOf, at: usize) -> bool
    requires known { All (λ i. i.var < length bounds.now) indicators.now }
    requires narrow { All (λ i. AreTermsNarrow bounds.now i.row.terms) indicators.now }
    ensures { let i = indicator_at indicators.now at in IsTrue result
        ↔ ((at < length indicators.now) × (is_asked bounds.now i ≡ true) × (is_low_over bounds.now i.row ≡ true)) }
{
    at < indicators.len() && is_asked_low(&indicators[at], bounds)
}

fn is_gate_high(indicators: &[Indicator], bounds: &BoxOf, at: usize) -> bool
    requires known { All (λ i. i.var < length bounds.now) indicators.now }
    requires narrow { All (λ i. AreTermsNarrow bounds.now i.row.terms) indicators.now }
    ensures { let i = indicator_at indicators.now at in IsTrue result
        ↔ ((at < length indicators.now) × (is_asked bounds.now i ≡ true) × (is_high_over bounds.now i.row ≡ true)) }
{
    at < indicators.len() && is_asked_high(&indicators[at], bounds)
}

/// Whether the members of the set at these places can't both differ from 0, and have ranges without 0.
fn is_clash(set: &Sos, bounds: &BoxOf, first: u32, second: u32) -> bool
    requires { All (λ v. v < length bounds.now) set.now.vars }
    ensures { IsTrue result ↔ IsClash bounds.now set.now first second }
{
    let vars = set.vars.as_slice();
    let (first, second) = (first as usize, second as usize);
    second < vars.len()
        && first + clash_distance(set.kind) <= second
        && lacks_zero(&bounds.range(vars[first]))
        && lacks_zero(&bounds.range(vars[second]))
}

fn is_set_clashing(sets: &[Sos], bounds: &BoxOf, at: usize, first: u32, second: u32) -> bool
    requires { All (λ set. All (λ v. v < length bounds.now) set.vars) sets.now }
    ensures { IsTrue result ↔ ((at < length sets.now) × IsClash bounds.now (set_at sets.now at) first second) }
{
    at < sets.len() && is_clash(&sets[at], bounds, first, second)
}

/// Whether the core is this variable's, and the box misses it together with 0.
fn is_missed_by(core: &(VarId, i64, i64), bounds: &BoxOf, var: VarId) -> bool
    requires { core.now.0 < length bounds.now }
    ensures { result ≡ ((core.now.0 == var) && is_missed (range_at bounds.now var) core.now) }
{
    core.0.index() == var.index() && is_missed(&bounds.range(core.0), core)
}

fn is_var_missed(cores: &[(VarId, i64, i64)], bounds: &BoxOf, var: VarId) -> bool
    requires { All (λ c. c.0 < length bounds.now) cores.now }
    ensures { IsTrue result ↔ IsMissedAt bounds.now cores.now var }
{
    for core in cores {
        if is_missed_by(core, bounds, var) {
            return true;
        }
    }
    false
}
