//! Special ordered sets: their members in order of weight.
ghost use Rattle.std.specs.Prelude.{◌≡◌, ◌<◌, ◌≤◌, unsigned_abs, max, pos, true, false, map, length, ◌≢◌, ◌↔◌, IsTrue, IfOk, AllPairs, nat_eq, MatchOption, None};
ghost use Rattle.std.specs.List.Sorted.{IsPermutation, IsSortedBy};
ghost use Rattle.std.specs.Ordering.{is_lt};
ghost use Rattle.std.specs.HashSet as hash_set;
ghost use Rattle.std.specs.Ordering.{int_cmp};
ghost use Rattle.sp_decimal.specs.DecimalFraction.{most_places, huge_from};
ghost use Rattle.sp_scaling.specs.Scaling.{units};
ghost use Rattle.sp_lower.specs.Sets.{weight_of, has_tie, has_twin, members_of, is_bad_set, model_set};
ghost use Rattle.sp_lower.specs.InnerSets.{rises};

use sp_decimal::{Decimal, scaled};
use sp_draft::DraftSos;
use sp_model::{Items, NoMemory, Sos, VarId};
use std::alloc::{AllocError, Global};
use std::cmp::Ordering;
use std::collections::HashSet;

/// The digits of a decimal, as a whole number.
fn digits(d: &Decimal) -> i128
    ensures value { result ≡ d.now.p }
    ensures small { unsigned_abs result < huge_from }
{
    d.p
}

/// The decimal places of a decimal.
fn places(d: &Decimal) -> u8
    ensures value { result ≡ d.now.s }
    ensures few { result ≤ most_places }
{
    d.s
}

/// How a number compares with 0.
fn sign(digits: &i128) -> Ordering
    ensures { result ≡ int_cmp digits.now (pos 0) }
{
    digits.cmp(&0)
}

/// How 0 compares with a number.
fn sign_against(digits: &i128) -> Ordering
    ensures { result ≡ int_cmp (pos 0) digits.now }
{
    0.cmp(digits)
}

/// How two numbers compare.
fn order(a: &i128, b: &i128) -> Ordering
    ensures { result ≡ int_cmp a.now b.now }
{
    a.cmp(b)
}

/// How two decimals compare in a unit that both can be counted in, as far as 128 bits can hold the numbers of units. One
/// that they can't hold is farther from 0 than the other.
fn compare_units(a: &Decimal, b: &Decimal, finer: u8) -> Ordering
    requires finer { finer ≡ max a.now.s b.now.s }
    requires few { finer ≤ most_places }
    requires first { unsigned_abs a.now.p < huge_from }
    requires second { unsigned_abs b.now.p < huge_from }
    ensures { result ≡ int_cmp (units most_places a.now) (units most_places b.now) }
{
    match scaled(a, finer) {
        None => sign(&a.p),
        Some(first) => match scaled(b, finer) {
            None => sign_against(&b.p),
            Some(second) => order(&first, &second),
        },
    }
}

/// How the weights of two members compare.
fn compare(a: &(VarId, Decimal), b: &(VarId, Decimal)) -> Ordering
    ensures { result ≡ int_cmp (weight_of a.now) (weight_of b.now) }
{
    let _first = digits(&a.1);
    let _second = digits(&b.1);
    let finer = places(&a.1).max(places(&b.1));
    compare_units(&a.1, &b.1, finer)
}

/// Whether each member is lighter than the next.
fn rises(members: &[(VarId, Decimal)]) -> bool
    ensures { result ≡ rises members.now }
{
    for at in 1..members.len() {
        match compare(&members[at - 1], &members[at]) {
            Ordering::Less => {}
            Ordering::Equal => return false,
            Ordering::Greater => return false,
        }
    }
    true
}

/// Puts the members in order of weight.
fn sort(members: &mut Vec<(VarId, Decimal)>)
    ensures same { IsPermutation members.old.items members.new.items }
    ensures ordered { IsSortedBy (λ a b. is_lt (int_cmp (weight_of a) (weight_of b))) members.new.items }
{
    members.sort_unstable_by(compare);
}

/// The variables of the members.
fn vars_of(alloc: Global, members: &[(VarId, Decimal)]) -> Result<Vec<VarId>, AllocError>
    ensures { IfOk result (λ v. v.items ≡ map (λ m. m.0) members.now) }
{
    let mut vars = Vec::with_capacity(alloc, members.len())?;
    for member in members {
        vars.push(member.0)?;
    }
    Ok(vars)
}

fn places_in(alloc: Global, vars: &[VarId]) -> Result<HashSet<usize>, AllocError>
    ensures { IfOk result (hash_set.IsFromIterResult nat_eq (map (λ v. v) vars.now)) }
{
    vars.iter().map(|var| var.index()).collect(alloc)
}

/// Whether no variable stands there twice.
fn are_distinct(alloc: Global, vars: &[VarId]) -> Result<bool, NoMemory>
    ensures { IfOk result (λ once. IsTrue once ↔ AllPairs (λ v w. v ≢ w) vars.now) }
{
    let places = places_in(alloc, vars)?;
    Ok(places.len() == vars.len())
}

/// The variables in order of weight, or `None` where two weights are equal or a variable stands there twice.
pub(crate) fn ordered(alloc: Global, set: &DraftSos) -> Result<Option<Vec<VarId>>, NoMemory>
    ensures { IfOk result (λ vars. MatchOption vars (is_bad_set set.now ≡ true)
        (λ v. (is_bad_set set.now ≡ false) × (v.items ≡ members_of set.now) × AllPairs (λ v w. v ≢ w) (members_of set.now))) }
{
    let mut members = Vec::from_slice(alloc, set.members.as_slice())?;
    sort(&mut members);
    if !rises(&members) {
        return Ok(None);
    }
    let vars = vars_of(alloc, &members)?;
    if are_distinct(alloc, &vars)? {
        Ok(Some(vars))
    } else {
        Ok(None)
    }
}
