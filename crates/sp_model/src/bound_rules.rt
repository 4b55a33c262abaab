//! The rules of stated bounds and of cores, and the closed box.

ghost use Rattle.std.specs.Prelude.{◌≡◌, ◌↔◌, ◌<◌, ◌≤◌, All, length, map, unsigned_abs, IsTrue, IfErr, IfOk, IsOkUnless, MatchOption, MatchResult};
ghost use Rattle.sp_model.specs.InnerRules.{HasFirstBrokenCore, RisesAt};
ghost use Rattle.sp_model.specs.Limits.{most_variables, greatest_bound};
ghost use Rattle.sp_model.specs.Models.{root_of};
ghost use Rattle.sp_model.specs.Rounds.{closed, rounded};
ghost use Rattle.sp_model.specs.Rules.{AreVariablesLawful, IsRangeLawful, IsMissingOr, IsCoreLawful, AreCoresLawful, AreBoundsLawful, HasClosedBox, IsFirstBroken, IsFirstFault, IsBoundsRefusal};
ghost use Rattle.sp_model.specs.Stated.{IsClosedRange, stated_of, widened};
ghost use Rattle.sp_model.specs.Sums.{side_width};

use crate::boxes::BoxOf;
use crate::ends::OpenRange;
use crate::ids::VarId;
use crate::items::Items;
use crate::limits::{GREATEST_BOUND, MOST_VARIABLES};
use crate::no_memory::NoMemory;
use crate::parts::ModelParts;
use crate::refusal::BuildRefusal;
use crate::rounds::{is_closed, rounded};
use std::alloc::Global;

fn are_variables_lawful(parts: &ModelParts) -> bool
    ensures { IsTrue result ↔ AreVariablesLawful parts.now }
{
    let count = parts.lower.len();
    count <= MOST_VARIABLES && parts.upper.len() == count
}

fn is_bound_lawful(bound: &Option<i64>) -> bool
    ensures { IsTrue result ↔ (side_width bound.now ≤ greatest_bound) }
{
    match bound {
        None => true,
        Some(bound) => bound.unsigned_abs() <= GREATEST_BOUND,
    }
}

fn is_range_lawful(lower: &Option<i64>, upper: &Option<i64>) -> bool
    ensures { IsTrue result ↔ IsRangeLawful (lower.now, upper.now) }
{
    is_bound_lawful(lower) && is_bound_lawful(upper)
}

fn broken_range(parts: &ModelParts) -> Option<u32>
    requires { AreVariablesLawful parts.now }
    ensures { MatchOption result
        (All IsRangeLawful (stated_of parts.now))
        (λ j. IsFirstBroken most_variables IsRangeLawful (stated_of parts.now) j) }
{
    let lower = parts.lower.as_slice();
    let upper = parts.upper.as_slice();
    for at in 0..lower.len() {
        if !is_range_lawful(&lower[at], &upper[at]) {
            return Some(at as u32);
        }
    }
    None
}

/// The least range that holds 0 and the core.
fn widened(core: &(VarId, i64, i64)) -> (i64, i64)
    ensures { result ≡ widened core.now }
{
    if core.1 <= core.2 {
        (core.1.min(0), core.2.max(0))
    } else {
        (0, 0)
    }
}

fn is_missing_or(value: &i64, bound: &Option<i64>) -> bool
    ensures { IsTrue result ↔ IsMissingOr value.now bound.now }
{
    match bound {
        None => true,
        Some(bound) => *bound == *value,
    }
}

fn agrees(core: &(VarId, i64, i64), lower: &Option<i64>, upper: &Option<i64>) -> bool
    ensures { IsTrue result ↔ (IsMissingOr (widened core.now).0 lower.now × IsMissingOr (widened core.now).1 upper.now) }
{
    let range = widened(core);
    is_missing_or(&range.0, lower) && is_missing_or(&range.1, upper)
}

fn is_core_small(core: &(VarId, i64, i64)) -> bool
    ensures { IsTrue result ↔ ((unsigned_abs core.now.1 ≤ greatest_bound) × (unsigned_abs core.now.2 ≤ greatest_bound)) }
{
    core.1.unsigned_abs() <= GREATEST_BOUND && core.2.unsigned_abs() <= GREATEST_BOUND
}

fn is_core_lawful(parts: &ModelParts, core: &(VarId, i64, i64)) -> bool
    requires { length parts.now.upper ≡ length parts.now.lower }
    ensures { IsTrue result ↔ IsCoreLawful (stated_of parts.now) core.now }
{
    let at = core.0.index();
    if parts.lower.len() <= at {
        return false;
    }
    if !is_core_small(core) {
        return false;
    }
    agrees(
        core,
        &parts.lower.as_slice()[at],
        &parts.upper.as_slice()[at],
    )
}

/// Whether the variable of the core at this place is above that of the core before it.
fn rises_at(cores: &[(VarId, i64, i64)], place: usize) -> bool
    requires { place < length cores.now }
    ensures { IsTrue result ↔ RisesAt cores.now place }
{
    place == 0 || cores[place - 1].0.index() < cores[place].0.index()
}

fn broken_core(parts: &ModelParts) -> Option<VarId>
    requires { length parts.now.upper ≡ length parts.now.lower }
    ensures { MatchOption result
        (AreCoresLawful (stated_of parts.now) parts.now.semi)
        (λ j. HasFirstBrokenCore (stated_of parts.now) parts.now.semi j) }
{
    let cores = parts.semi.as_slice();
    for place in 0..cores.len() {
        if !rises_at(cores, place) {
            return Some(cores[place].0);
        }
        if !is_core_lawful(parts, &cores[place]) {
            return Some(cores[place].0);
        }
    }
    None
}

fn open_variable(bounds: &[OpenRange]) -> Option<u32>
    requires { length bounds.now ≤ most_variables }
    ensures { MatchOption result
        (All IsClosedRange bounds.now)
        (λ j. IsFirstBroken most_variables IsClosedRange bounds.now j) }
{
    for at in 0..bounds.len() {
        if !is_closed(&bounds[at]) {
            return Some(at as u32);
        }
    }
    None
}

fn check_bounds(parts: &ModelParts) -> Result<(), BuildRefusal>
    ensures lawful { MatchResult result (λ _. AreBoundsLawful parts.now) (IsFirstFault parts.now) }
    ensures early { IfErr result IsBoundsRefusal }
{
    if !are_variables_lawful(parts) {
        return Err(BuildRefusal::Variables);
    }
    if let Some(at) = broken_range(parts) {
        return Err(BuildRefusal::Bound(VarId::new(at)));
    }
    if let Some(var) = broken_core(parts) {
        return Err(BuildRefusal::Bound(var));
    }
    Ok(())
}

/// The box of bounds of which none is missing.
fn box_of(alloc: Global, bounds: &[OpenRange]) -> Result<BoxOf, NoMemory>
    ensures { IfOk result (λ root. root ≡ map closed bounds.now) }
{
    let mut lower = Vec::new(alloc);
    let mut upper = Vec::new(alloc);
    for range in bounds {
        lower.push(range.0.unwrap_or(0))?;
        upper.push(range.1.unwrap_or(0))?;
    }
    let lower = Items::from_vec(lower);
    let upper = Items::from_vec(upper);
    Ok(BoxOf { lower, upper })
}

/// The closed box: the stated bounds and those that the rows close in 32 rounds. Or the first of the rules of bounds
/// that the parts break, a variable of which a bound stays missing among them. No width is looked at.
pub fn closed_box(alloc: Global, parts: &ModelParts) -> Result<BoxOf, BuildRefusal>
    ensures closed { IfOk result (λ root. (root ≡ root_of parts.now) × HasClosedBox parts.now) }
    ensures refused { IfErr result (IsFirstFault parts.now) }
    ensures early { IfErr result IsBoundsRefusal }
    ensures accepted { HasClosedBox parts.now → IsOkUnless result BuildRefusal.NoMemory }
    ensures long { IfOk result (λ root. length root ≡ length parts.now.lower) }
{
    match check_bounds(parts) {
        Err(refusal) => Err(refusal),
        Ok(()) => match rounded(alloc, parts) {
            Err(_) => Err(BuildRefusal::NoMemory),
            Ok(bounds) => close(alloc, parts, bounds.as_slice()),
        },
    }
}

/// The box of what the rounds gave, or the first variable that is open.
fn close(alloc: Global, parts: &ModelParts, bounds: &[OpenRange]) -> Result<BoxOf, BuildRefusal>
    requires lawful { AreBoundsLawful parts.now }
    requires rounded { bounds.now ≡ rounded parts.now }
    ensures closed { IfOk result (λ root. (root ≡ root_of parts.now) × HasClosedBox parts.now) }
    ensures refused { IfErr result (IsFirstFault parts.now) }
    ensures early { IfErr result IsBoundsRefusal }
{
    if let Some(at) = open_variable(bounds) {
        return Err(BuildRefusal::Open(VarId::new(at)));
    }
    match box_of(alloc, bounds) {
        Err(_) => Err(BuildRefusal::NoMemory),
        Ok(root) => Ok(root),
    }
}
