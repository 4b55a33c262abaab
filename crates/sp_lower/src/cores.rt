//! The bounds that a model states of variables, and the cores of the semi-integer ones.
ghost use Rattle.std.specs.Prelude.{◌≡◌, ◌≤◌, ◌<◌, ◌^◌, All, IfOk, Some, None, false, map, length, option_map};
ghost use Rattle.sp_model.specs.Stated.{widened};
ghost use Rattle.sp_lower.specs.Bounds.{has_far_bound, least_of, greatest_of};
ghost use Rattle.sp_lower.specs.Variables.{core_between, core_of, stated_lower, stated_upper, cores_from};

use crate::bounds::{greatest_of, least_of};
use sp_draft::DraftVar;
use sp_model::{Items, NoMemory, VarId};
use std::alloc::Global;

/// The core of two bounds; where one is missing, the other stands for both.
fn core_between(lower: &Option<i64>, upper: &Option<i64>) -> (i64, i64)
    ensures { result ≡ core_between lower.now upper.now }
{
    match lower {
        Some(least) => match upper {
            Some(greatest) => (*least, *greatest),
            None => (*least, *least),
        },
        None => match upper {
            Some(greatest) => (*greatest, *greatest),
            None => (0, 0),
        },
    }
}

/// The least range that holds 0 and the core: 0 alone where the core is empty.
fn widened(core: &(i64, i64)) -> (i64, i64)
    ensures { result ≡ widened (0, core.now.0, core.now.1) }
{
    let (least, greatest) = *core;
    if least <= greatest {
        (least.min(0), greatest.max(0))
    } else {
        (0, 0)
    }
}

/// The stated lower bound of a variable.
fn stated_lower(var: &DraftVar) -> Option<i64>
    requires { has_far_bound var.now ≡ false }
    ensures { result ≡ stated_lower var.now }
{
    let least = least_of(var);
    if !var.semi {
        return least;
    }
    match least {
        None => None,
        Some(_) => Some(widened(&core_between(&least, &greatest_of(var))).0),
    }
}

/// The stated upper bound of a variable.
fn stated_upper(var: &DraftVar) -> Option<i64>
    requires { has_far_bound var.now ≡ false }
    ensures { result ≡ stated_upper var.now }
{
    let greatest = greatest_of(var);
    if !var.semi {
        return greatest;
    }
    match greatest {
        None => None,
        Some(_) => Some(widened(&core_between(&least_of(var), &greatest)).1),
    }
}

/// The stated lower bounds of the variables.
pub(crate) fn lower_bounds(alloc: Global, vars: &[DraftVar]) -> Result<Items<Option<i64>>, NoMemory>
    requires { All (λ v. has_far_bound v ≡ false) vars.now }
    ensures { IfOk result (λ list. list ≡ map stated_lower vars.now) }
{
    let mut list = Items::new(alloc);
    for var in vars {
        list.push(stated_lower(var))?;
    }
    Ok(list)
}

/// The stated upper bounds of the variables.
pub(crate) fn upper_bounds(alloc: Global, vars: &[DraftVar]) -> Result<Items<Option<i64>>, NoMemory>
    requires { All (λ v. has_far_bound v ≡ false) vars.now }
    ensures { IfOk result (λ list. list ≡ map stated_upper vars.now) }
{
    let mut list = Items::new(alloc);
    for var in vars {
        list.push(stated_upper(var))?;
    }
    Ok(list)
}

/// The core of the variable at the place.
fn core_of(at: u32, var: &DraftVar) -> (VarId, i64, i64)
    requires { has_far_bound var.now ≡ false }
    ensures { result ≡ core_of at var.now }
{
    let (least, greatest) = core_between(&least_of(var), &greatest_of(var));
    (VarId::new(at), least, greatest)
}

/// The cores of the semi-integer variables, by rising variable.
pub(crate) fn cores(alloc: Global, vars: &[DraftVar]) -> Result<Items<(VarId, i64, i64)>, NoMemory>
    requires near { All (λ v. has_far_bound v ≡ false) vars.now }
    requires few { length vars.now ≤ 2000 }
    ensures { IfOk result (λ list. list ≡ cores_from 0 vars.now) }
{
    let mut list = Items::new(alloc);
    for (at, var) in vars.iter().enumerate() {
        if var.semi {
            list.push(core_of(at as u32, var))?;
        }
    }
    Ok(list)
}
