//! The first reason for which a box of a model holds no feasible point.

ghost use Rattle.std.specs.Prelude.{◌≡◌, ◌<◌, MatchOption};
ghost use Rattle.sp_model.specs.Models.{root_of};
ghost use Rattle.sp_sums.specs.Extremes.{is_low};
ghost use Rattle.sp_activity.specs.Order.{IsFirst, IsOpen};
ghost use Rattle.sp_activity.specs.Stages.{IsOpenToIndicators, IsOpenToRows, IsOpenToSets, IsReady, gate_reason, row_reason};
ghost use Rattle.sp_activity.specs.Within.{IsUnder};

use crate::reasons::Reason;
use crate::stages::{first_clash, first_core, first_empty, first_gate, first_row, first_set};
use sp_model::{BoxOf, Model, ModelParts, Row, RowId, root_is_short};
use sp_sums::{Span, is_low, rows_are_narrow_inside, span_over};

/// The reason of a broken row.
pub fn row_reason(row: &Row, span: &Span, id: RowId) -> Reason
    ensures { result ≡ row_reason id (is_low row.now span.now) }
{
    if is_low(row, span) {
        Reason::RowLow(id)
    } else {
        Reason::RowHigh(id)
    }
}

/// The reason of an indicator that asks for a broken row.
pub fn gate_reason(row: &Row, span: &Span, id: u32) -> Reason
    ensures { result ≡ gate_reason id (is_low row.now span.now) }
{
    if is_low(row, span) {
        Reason::IndicatorLow(id)
    } else {
        Reason::IndicatorHigh(id)
    }
}

/// The first reason that holds of the box, whose ranges end within those of the model's closed box. It takes no memory.
pub fn closed(model: &Model, bounds: &BoxOf) -> Option<Reason>
    requires { IsUnder (root_of model.now) bounds.now }
    ensures { MatchOption result (IsOpen model.now bounds.now) (λ r. IsFirst model.now bounds.now r) }
{
    let parts = model.parts();
    root_is_short();
    rows_are_narrow_inside();
    match first_empty(bounds) {
        Some(var) => Some(Reason::Empty(var)),
        None => closed_by_rows(parts, bounds),
    }
}

fn closed_by_rows(parts: &ModelParts, bounds: &BoxOf) -> Option<Reason>
    requires { IsReady parts.now bounds.now }
    ensures { MatchOption result (IsOpen parts.now bounds.now) (λ r. IsFirst parts.now bounds.now r) }
{
    let rows = parts.rows.as_slice();
    match first_row(rows, bounds) {
        Some(id) => {
            let row = &rows[id.index()];
            let span = span_over(row.terms.as_slice(), bounds);
            Some(row_reason(row, &span, id))
        }
        None => closed_by_indicators(parts, bounds),
    }
}

fn closed_by_indicators(parts: &ModelParts, bounds: &BoxOf) -> Option<Reason>
    requires ready { IsReady parts.now bounds.now }
    requires rows { IsOpenToRows parts.now bounds.now }
    ensures { MatchOption result (IsOpen parts.now bounds.now) (λ r. IsFirst parts.now bounds.now r) }
{
    let indicators = parts.indicators.as_slice();
    match first_gate(indicators, bounds) {
        Some(id) => {
            let row = &indicators[id as usize].row;
            let span = span_over(row.terms.as_slice(), bounds);
            Some(gate_reason(row, &span, id))
        }
        None => closed_by_sets(parts, bounds),
    }
}

/// Where the ranges, rows and indicators give no reason.
pub fn closed_by_sets(parts: &ModelParts, bounds: &BoxOf) -> Option<Reason>
    requires ready { IsReady parts.now bounds.now }
    requires indicators { IsOpenToIndicators parts.now bounds.now }
    ensures { MatchOption result (IsOpen parts.now bounds.now) (λ r. IsFirst parts.now bounds.now r) }
{
    let sets = parts.sos.as_slice();
    match first_set(sets, bounds) {
        Some(id) => match first_clash(&sets[id as usize], bounds) {
            Some(places) => Some(Reason::Sos(id, places.0, places.1)),
            // A broken set has two such places.
            None => None,
        },
        None => closed_by_cores(parts, bounds),
    }
}

/// Where only the cores can give one.
fn closed_by_cores(parts: &ModelParts, bounds: &BoxOf) -> Option<Reason>
    requires ready { IsReady parts.now bounds.now }
    requires sets { IsOpenToSets parts.now bounds.now }
    ensures { MatchOption result (IsOpen parts.now bounds.now) (λ r. IsFirst parts.now bounds.now r) }
{
    let cores = parts.semi.as_slice();
    match first_core(cores, bounds) {
        Some(place) => Some(Reason::Semi(cores[place].0)),
        None => None,
    }
}
