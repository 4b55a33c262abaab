//! The rules of a model's objective, rows, indicators and sets over its closed box.

ghost use Rattle.std.specs.Prelude.{◌≡◌, ◌≢◌, ◌↔◌, ◌<◌, ◌≤◌, All, AllPairs, length, map, nat_eq, IsTrue, IfOk, MatchOption, MatchResult};
ghost use Rattle.std.specs.HashSet as hash_set;
ghost use Rattle.sp_model.specs.Limits.{most_rows, most_indicators, most_sets, greatest_width};
ghost use Rattle.sp_model.specs.Models.{root_of, row_width, objective_width};
ghost use Rattle.sp_model.specs.Rules.{IsObjectiveLawful, IsRowLawful, IsBinary, IsIndicatorLawful, IsSetLawful, AreLawful, HasClosedBox, IsFirstBroken, IsLawful, IsFirstFault};

use crate::boxes::BoxOf;
use crate::ids::{RowId, VarId};
use crate::limits::{GREATEST_SCALE, GREATEST_WIDTH, MOST_INDICATORS, MOST_ROWS, MOST_SETS};
use crate::no_memory::NoMemory;
use crate::parts::{Indicator, ModelParts, Row, Sos};
use crate::refusal::BuildRefusal;
use crate::sums::{room_beside, side_size, size_of};
use crate::terms::are_terms_lawful;
use std::alloc::{AllocError, Global};
use std::collections::HashSet;

fn is_objective_narrow(root: &BoxOf, parts: &ModelParts) -> bool
    requires known { All (λ t. t.0 < length root.now) parts.now.cost }
    requires root { root.now ≡ root_of parts.now }
    ensures { IsTrue result ↔ (objective_width parts.now ≤ greatest_width) }
{
    match room_beside(root, parts.cost.as_slice(), GREATEST_WIDTH) {
        None => false,
        Some(left) => size_of(&parts.constant) <= left,
    }
}

fn is_objective_lawful(root: &BoxOf, parts: &ModelParts) -> bool
    requires { root.now ≡ root_of parts.now }
    ensures { IsTrue result ↔ IsObjectiveLawful parts.now }
{
    if !are_terms_lawful(root.len(), parts.cost.as_slice()) {
        return false;
    }
    parts.scale <= GREATEST_SCALE && is_objective_narrow(root, parts)
}

fn is_row_narrow(root: &BoxOf, row: &Row) -> bool
    requires { All (λ t. t.0 < length root.now) row.now.terms }
    ensures { IsTrue result ↔ (row_width root.now row.now ≤ greatest_width) }
{
    match room_beside(root, row.terms.as_slice(), GREATEST_WIDTH) {
        None => false,
        Some(left) => {
            let below = side_size(&row.lo);
            let above = side_size(&row.hi);
            below <= left && above <= left - below
        }
    }
}

fn is_row_lawful(root: &BoxOf, row: &Row) -> bool
    ensures { IsTrue result ↔ IsRowLawful root.now row.now }
{
    if !are_terms_lawful(root.len(), row.terms.as_slice()) {
        return false;
    }
    is_row_narrow(root, row)
}

fn broken_row(root: &BoxOf, rows: &[Row]) -> Option<u32>
    ensures { MatchOption result
        (AreLawful most_rows (IsRowLawful root.now) rows.now)
        (λ k. IsFirstBroken most_rows (IsRowLawful root.now) rows.now k) }
{
    for (k, row) in rows.iter().enumerate() {
        if k >= MOST_ROWS {
            return Some(k as u32);
        }
        if !is_row_lawful(root, row) {
            return Some(k as u32);
        }
    }
    None
}

fn is_binary(range: &(i64, i64)) -> bool
    ensures { IsTrue result ↔ IsBinary range.now }
{
    0 <= range.0 && range.0 <= 1 && 0 <= range.1 && range.1 <= 1
}

fn is_indicator_lawful(root: &BoxOf, indicator: &Indicator) -> bool
    ensures { IsTrue result ↔ IsIndicatorLawful root.now indicator.now }
{
    if root.len() <= indicator.var.index() {
        return false;
    }
    if !is_binary(&root.range(indicator.var)) {
        return false;
    }
    is_row_lawful(root, &indicator.row)
}

fn broken_indicator(root: &BoxOf, indicators: &[Indicator]) -> Option<u32>
    ensures { MatchOption result
        (AreLawful most_indicators (IsIndicatorLawful root.now) indicators.now)
        (λ k. IsFirstBroken most_indicators (IsIndicatorLawful root.now) indicators.now k) }
{
    for (k, indicator) in indicators.iter().enumerate() {
        if k >= MOST_INDICATORS {
            return Some(k as u32);
        }
        if !is_indicator_lawful(root, indicator) {
            return Some(k as u32);
        }
    }
    None
}

fn are_known(count: usize, vars: &[VarId]) -> bool
    ensures { IsTrue result ↔ All (λ v. v < count) vars.now }
{
    vars.iter().all(|var| var.index() < count)
}

fn places_of(alloc: Global, vars: &[VarId]) -> Result<HashSet<usize>, AllocError>
    ensures { IfOk result (hash_set.IsFromIterResult nat_eq (map (λ v. v) vars.now)) }
{
    vars.iter().map(|var| var.index()).collect(alloc)
}

fn are_distinct(alloc: Global, vars: &[VarId]) -> Result<bool, NoMemory>
    ensures { IfOk result (λ once. IsTrue once ↔ AllPairs (λ v w. v ≢ w) vars.now) }
{
    let places = places_of(alloc, vars)?;
    Ok(places.len() == vars.len())
}

fn is_set_lawful(alloc: Global, count: usize, set: &Sos) -> Result<bool, NoMemory>
    ensures { IfOk result (λ lawful. IsTrue lawful ↔ IsSetLawful count set.now) }
{
    if !are_known(count, set.vars.as_slice()) {
        return Ok(false);
    }
    are_distinct(alloc, set.vars.as_slice())
}

fn broken_set(alloc: Global, count: usize, sets: &[Sos]) -> Result<Option<u32>, NoMemory>
    ensures { IfOk result (λ broken. MatchOption broken
        (AreLawful most_sets (IsSetLawful count) sets.now)
        (λ k. IsFirstBroken most_sets (IsSetLawful count) sets.now k)) }
{
    for (k, set) in sets.iter().enumerate() {
        if k >= MOST_SETS {
            return Ok(Some(k as u32));
        }
        let lawful = is_set_lawful(alloc, count, set)?;
        if !lawful {
            return Ok(Some(k as u32));
        }
    }
    Ok(None)
}

/// The first rule after those of bounds that the parts break, if they break one.
pub fn check(alloc: Global, root: &BoxOf, parts: &ModelParts) -> Result<(), BuildRefusal>
    requires root { root.now ≡ root_of parts.now }
    requires closed { HasClosedBox parts.now }
    ensures { MatchResult result (λ _. IsLawful parts.now) (IsFirstFault parts.now) }
{
    if !is_objective_lawful(root, parts) {
        return Err(BuildRefusal::Objective);
    }
    if let Some(k) = broken_row(root, parts.rows.as_slice()) {
        return Err(BuildRefusal::Row(RowId::new(k)));
    }
    if let Some(k) = broken_indicator(root, parts.indicators.as_slice()) {
        return Err(BuildRefusal::Indicator(k));
    }
    match broken_set(alloc, root.len(), parts.sos.as_slice()) {
        Err(_) => Err(BuildRefusal::NoMemory),
        Ok(None) => Ok(()),
        Ok(Some(k)) => Err(BuildRefusal::Sos(k)),
    }
}
