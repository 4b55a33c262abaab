//! The terms of one variable added up.
ghost use Rattle.std.specs.Prelude.{◌≡◌, ◌<◌, ◌≤◌, ◌^◌, ◌++◌, pos, unsigned_abs, false, IfOk, OnOk};
ghost use Rattle.std.specs.List.Sorted.{IsPermutation, IsNonDecreasingBy};
ghost use Rattle.sp_decimal.specs.DecimalFraction.{most_places as limit_of_places};
ghost use Rattle.sp_scaling.specs.Merging.{emitted, merged};
ghost use Rattle.sp_scaling.specs.Scaling.{greatest_width, most_places_of, numbers_of, scaled, size_of, collected, turned_terms, units};

use sp_decimal::{Decimal, scaled as units_of};
use sp_model::{Items, NoMemory, VarId};
use std::alloc::{AllocError, Global};

/// The number in units of 10^-places, which is known to be small.
fn units(number: &Decimal, places: u8) -> i128
    requires scale { number.now.s ≤ places }
    requires places { places ≤ limit_of_places }
    requires small { unsigned_abs (units places number.now) ≤ greatest_width }
    ensures { result ≡ units places number.now }
{
    match units_of(number, places) {
        Some(units) => units,
        None => unreachable!(),
    }
}

/// The terms in units of 10^-places, each by itself.
fn scaled(
    alloc: Global,
    terms: &[(VarId, Decimal)],
    places: u8,
) -> Result<Vec<(VarId, i128)>, AllocError>
    requires scale { most_places_of (numbers_of terms.now) ≤ places }
    requires places { places ≤ limit_of_places }
    requires small { size_of (scaled places terms.now) ≤ greatest_width }
    ensures { IfOk result (λ v. v.items ≡ scaled places terms.now) }
{
    let mut list = Vec::with_capacity(alloc, terms.len())?;
    for term in terms {
        list.push((term.0, units(&term.1, places)))?;
    }
    Ok(list)
}

/// Puts the terms in order of their variables.
fn sort(terms: &mut Vec<(VarId, i128)>)
    ensures same { IsPermutation terms.old.items terms.new.items }
    ensures ordered { IsNonDecreasingBy (λ t. t.0) terms.new.items }
{
    terms.sort_unstable_by_key(|t| t.0);
}

/// The term, unless its coefficient is 0, at the end of the sums, negated where the flag is set.
fn emit(
    sums: &mut Items<(VarId, i128)>,
    id: VarId,
    sum: &i128,
    negate: bool,
) -> Result<(), AllocError>
    requires { unsigned_abs sum.now ≤ greatest_width }
    ensures { OnOk result (sums.new ≡ sums.old ++ turned_terms negate (emitted id sum.now)) }
{
    if *sum == 0 {
        Ok(())
    } else if negate {
        sums.push((id, -*sum))?;
        Ok(())
    } else {
        sums.push((id, *sum))?;
        Ok(())
    }
}

/// Neighbours with one variable put together, negated where the flag is set. Those of 0 are left out.
fn merged(
    alloc: Global,
    terms: &[(VarId, i128)],
    negate: bool,
) -> Result<Items<(VarId, i128)>, AllocError>
    requires { size_of terms.now ≤ greatest_width }
    ensures { IfOk result (λ sums. sums ≡ turned_terms negate (merged 0 (pos 0) terms.now)) }
{
    let mut sums = Items::new(alloc);
    let mut id = VarId::new(0);
    let mut sum: i128 = 0;
    for term in terms {
        if term.0 == id {
            sum += term.1;
        } else {
            match emit(&mut sums, id, &sum, negate) {
                Ok(()) => {
                    id = term.0;
                    sum = term.1;
                }
                Err(failed) => return Err(failed),
            }
        }
    }
    match emit(&mut sums, id, &sum, negate) {
        Ok(()) => Ok(sums),
        Err(failed) => Err(failed),
    }
}

/// The terms in units of 10^-places, each variable once with its coefficients added up, by rising variable, those of 0 left
/// out; negated where the flag is set.
///
/// # Errors
///
/// [`NoMemory`].
pub fn collected(
    alloc: Global,
    terms: &[(VarId, Decimal)],
    places: u8,
    negate: bool,
) -> Result<Items<(VarId, i128)>, NoMemory>
    requires scale { most_places_of (numbers_of terms.now) ≤ places }
    requires places { places ≤ limit_of_places }
    requires small { size_of (scaled places terms.now) ≤ greatest_width }
    ensures value { IfOk result (λ sums. sums ≡ turned_terms negate (collected (scaled places terms.now))) }
    ensures plain { negate ≡ false → IfOk result (λ sums. sums ≡ collected (scaled places terms.now)) }
{
    let mut list = scaled(alloc, terms, places)?;
    sort(&mut list);
    let sums = merged(alloc, &list, negate)?;
    Ok(sums)
}
