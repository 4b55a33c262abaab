//! The first range, row, indicator, set or core of a model that can't hold over a box.

ghost use Rattle.std.specs.Prelude.{◌≡◌, ◌&&◌, ◌<◌, ◌≤◌, All, length, false, IfNone, IfSome, MatchOption};
ghost use Rattle.std.specs.Ordering.{int_eq};
ghost use Rattle.sp_model.specs.Boxes.{range_at};
ghost use Rattle.sp_model.specs.Models.{switch_value};
ghost use Rattle.sp_sums.specs.Extremes.{AreTermsNarrow, is_broken_over};
ghost use Rattle.sp_sums.specs.Ranges.{IsFilled};
ghost use Rattle.sp_sums.specs.Rows.{AreUnbroken, IsFirstBroken};
ghost use Rattle.sp_activity.specs.Reasons.{clash_distance, is_asked, lacks_zero};
ghost use Rattle.sp_activity.specs.Stages.{AreCoresOpen, AreGatesOpen, AreSetsOpen, IsFirstClash, IsFirstCore, IsFirstEmpty, IsFirstGate, IsFirstNonzero, IsFirstSet, IsNoneNonzero, is_core_broken, is_gate_broken, is_set_broken};

use crate::ranges::{is_crossed, is_missed, lacks_zero};
use sp_model::{BoxOf, Indicator, Row, RowId, Sos, SosKind, VarId};
use sp_sums::{is_broken, span_over};

/// The first variable whose range is empty.
pub fn first_empty(bounds: &BoxOf) -> Option<VarId>
    requires { length bounds.now ≤ 2000 }
    ensures { MatchOption result (IsFilled bounds.now) (λ j. IsFirstEmpty bounds.now j) }
{
    for at in 0..bounds.len() {
        let var = VarId::new(at as u32);
        if is_crossed(&bounds.range(var)) {
            return Some(var);
        }
    }
    None
}

/// Whether the row can't hold at any point of the box.
pub fn is_row_broken(row: &Row, bounds: &BoxOf) -> bool
    requires { AreTermsNarrow bounds.now row.now.terms }
    ensures { result ≡ is_broken_over bounds.now row.now }
{
    let span = span_over(row.terms.as_slice(), bounds);
    is_broken(row, &span)
}

/// The first row that can't hold at any point of the box.
pub fn first_row(rows: &[Row], bounds: &BoxOf) -> Option<RowId>
    requires few { length rows.now ≤ 10000 }
    requires narrow { All (λ row. AreTermsNarrow bounds.now row.terms) rows.now }
    ensures { MatchOption result (AreUnbroken bounds.now rows.now) (λ k. IsFirstBroken bounds.now rows.now k) }
{
    for at in 0..rows.len() {
        if is_row_broken(&rows[at], bounds) {
            return Some(RowId::new(at as u32));
        }
    }
    None
}

/// Whether both numbers are the value that asks for an indicator's row.
fn is_on(on: bool, range: &(i64, i64)) -> bool
    ensures { result ≡ (int_eq range.now.0 (switch_value on) && int_eq range.now.1 (switch_value on)) }
{
    if on {
        range.0 == 1 && range.1 == 1
    } else {
        range.0 == 0 && range.1 == 0
    }
}

/// Whether the indicator's variable is fixed at the value that asks for its row.
pub fn is_asked(indicator: &Indicator, bounds: &BoxOf) -> bool
    requires { indicator.now.var < length bounds.now }
    ensures { result ≡ is_asked bounds.now indicator.now }
{
    is_on(indicator.on, &bounds.range(indicator.var))
}

/// Whether the indicator can't hold at any point of the box.
pub fn is_gate_broken(indicator: &Indicator, bounds: &BoxOf) -> bool
    requires known { indicator.now.var < length bounds.now }
    requires narrow { AreTermsNarrow bounds.now indicator.now.row.terms }
    ensures { result ≡ is_gate_broken bounds.now indicator.now }
{
    is_asked(indicator, bounds) && is_row_broken(&indicator.row, bounds)
}

/// The first indicator that can't hold at any point of the box.
pub fn first_gate(indicators: &[Indicator], bounds: &BoxOf) -> Option<u32>
    requires few { length indicators.now ≤ 1000 }
    requires known { All (λ i. i.var < length bounds.now) indicators.now }
    requires narrow { All (λ i. AreTermsNarrow bounds.now i.row.terms) indicators.now }
    ensures { MatchOption result (AreGatesOpen bounds.now indicators.now) (λ k. IsFirstGate bounds.now indicators.now k) }
{
    for at in 0..indicators.len() {
        if is_gate_broken(&indicators[at], bounds) {
            return Some(at as u32);
        }
    }
    None
}

/// Whether the variable's range is one without 0.
fn is_nonzero(bounds: &BoxOf, var: VarId) -> bool
    requires { var < length bounds.now }
    ensures { result ≡ lacks_zero (range_at bounds.now var) }
{
    lacks_zero(&bounds.range(var))
}

/// The first place from `start` on of a variable whose range is one without 0.
fn first_nonzero(vars: &[VarId], bounds: &BoxOf, start: usize) -> Option<usize>
    requires { All (λ v. v < length bounds.now) vars.now }
    ensures { MatchOption result
        (IsNoneNonzero bounds.now vars.now start)
        (λ p. IsFirstNonzero bounds.now vars.now start p) }
{
    for at in start..vars.len() {
        if is_nonzero(bounds, vars[at]) {
            return Some(at);
        }
    }
    None
}

/// How far apart two members are at least, if both may not differ from 0.
pub fn clash_distance(kind: SosKind) -> usize
    ensures exact { result ≡ clash_distance kind }
    ensures small { result ≤ 2 }
{
    match kind {
        SosKind::One => 1,
        SosKind::Two => 2,
    }
}

/// The first two places of the set whose members can't both differ from 0, and have ranges without 0.
pub fn first_clash(set: &Sos, bounds: &BoxOf) -> Option<(u32, u32)>
    requires known { All (λ v. v < length bounds.now) set.now.vars }
    requires short { length set.now.vars ≤ 2000 }
    ensures none { IfNone result (is_set_broken bounds.now set.now ≡ false) }
    ensures some { IfSome result (λ places. IsFirstClash bounds.now set.now places.0 places.1) }
{
    let vars = set.vars.as_slice();
    match first_nonzero(vars, bounds, 0) {
        None => None,
        Some(first) => match first_nonzero(vars, bounds, first + clash_distance(set.kind)) {
            None => None,
            Some(second) => Some((first as u32, second as u32)),
        },
    }
}

/// Whether the set can't hold at any point of the box.
pub fn is_set_broken(set: &Sos, bounds: &BoxOf) -> bool
    requires known { All (λ v. v < length bounds.now) set.now.vars }
    requires short { length set.now.vars ≤ 2000 }
    ensures { result ≡ is_set_broken bounds.now set.now }
{
    match first_clash(set, bounds) {
        None => false,
        Some(_) => true,
    }
}

/// The first set that can't hold at any point of the box.
pub fn first_set(sets: &[Sos], bounds: &BoxOf) -> Option<u32>
    requires few { length sets.now ≤ 1000 }
    requires known { All (λ set. All (λ v. v < length bounds.now) set.vars) sets.now }
    requires short { All (λ set. length set.vars ≤ 2000) sets.now }
    ensures { MatchOption result (AreSetsOpen bounds.now sets.now) (λ k. IsFirstSet bounds.now sets.now k) }
{
    for at in 0..sets.len() {
        if is_set_broken(&sets[at], bounds) {
            return Some(at as u32);
        }
    }
    None
}

/// Whether the variable's range has neither 0 nor a value of the core.
pub fn is_core_broken(core: &(VarId, i64, i64), bounds: &BoxOf) -> bool
    requires { core.now.0 < length bounds.now }
    ensures { result ≡ is_core_broken bounds.now core.now }
{
    is_missed(&bounds.range(core.0), core)
}

/// The place of the first core that the box misses together with 0.
pub fn first_core(cores: &[(VarId, i64, i64)], bounds: &BoxOf) -> Option<usize>
    requires { All (λ c. c.0 < length bounds.now) cores.now }
    ensures { MatchOption result (AreCoresOpen bounds.now cores.now) (λ n. IsFirstCore bounds.now cores.now n) }
{
    for at in 0..cores.len() {
        if is_core_broken(&cores[at], bounds) {
            return Some(at);
        }
    }
    None
}
