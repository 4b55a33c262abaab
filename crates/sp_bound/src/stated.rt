//! The stated lists of a model.

ghost use Rattle.std.specs.Prelude.{◌≡◌, ◌<◌, [], ◌∷◌, All, cond, int_lt, length, neg_ℤ, pos, unsigned_abs, IfOk, IsTrue, OnOk, ◌≤◌, ◌↔◌};
ghost use Rattle.std.specs.Ordering.{int_eq};
ghost use Rattle.std.specs.List.{list_any};
ghost use Rattle.sp_dual.specs.Lists.{zero_list};
ghost use Rattle.sp_bound.specs.StatedLists.{is_same, lists_of_rows, lists_of_terms, single_list, stated_lists};
ghost use Rattle.sp_bound.specs.Stating.{AddsLists, IsFactor, IsSmall, lists_with};

use crate::reduced::coefficient_in;
use smallvec::SmallVec;
use sp_dual::Multipliers;
use sp_model::{Model, NoMemory, Row, RowId, VarId};
use std::alloc::Global;

/// How many lists there are at most, the empty one among them.
pub const MOST_STATED: usize = 65;

/// Whether the two lists are one.
fn is_same(left: &Multipliers, right: &Multipliers) -> bool
    ensures { result ≡ is_same left.now right.now }
{
    left.is_equal(right)
}

/// Whether the list is one of these.
fn is_listed(lists: &[Multipliers], list: &Multipliers) -> bool
    ensures { result ≡ list_any (is_same list.now) lists.now }
{
    for other in lists {
        if is_same(list, other) {
            return true;
        }
    }
    false
}

/// Puts a list at the end, where none of these equals it.
fn add_new(lists: &mut Vec<Multipliers>, list: Multipliers) -> Result<(), NoMemory>
    requires { length lists.old.items < 65 }
    ensures { OnOk result (AddsLists (list ∷ []) lists.old.items lists.new.items) }
{
    if is_listed(lists.as_slice(), &list) {
        return Ok(());
    }
    lists.push(list)?;
    Ok(())
}

fn opposite(value: &i128) -> i128
    requires { IsSmall value.now }
    ensures { result ≡ neg_ℤ value.now }
{
    -*value
}

/// The magnitude of a coefficient.
fn magnitude(coefficient: &i128) -> i128
    requires { IsSmall coefficient.now }
    ensures { result ≡ pos (unsigned_abs coefficient.now) }
{
    if 0 < *coefficient {
        *coefficient
    } else {
        opposite(coefficient)
    }
}

/// The cost where the coefficient is above 0, else its opposite.
fn turned(coefficient: &i128, cost: &i128) -> i128
    requires { IsSmall cost.now }
    ensures { result ≡ cond (int_lt (pos 0) coefficient.now) cost.now (neg_ℤ cost.now) }
{
    if 0 < *coefficient {
        *cost
    } else {
        opposite(cost)
    }
}

/// The list of a row that leaves nothing of the cost.
fn single_list(
    alloc: Global,
    row: RowId,
    coefficient: &i128,
    cost: &i128,
) -> Result<Multipliers, NoMemory>
    requires coefficient { IsFactor coefficient.now }
    requires cost { IsFactor cost.now }
    ensures { IfOk result (λ list. list ≡ single_list row coefficient.now cost.now) }
{
    let multiplier = turned(coefficient, cost);
    let entries = SmallVec::from_slice(alloc, &[(row, multiplier)])?;
    match Multipliers::from_entries(magnitude(coefficient), entries) {
        Some(list) => Ok(list),
        None => unreachable!(),
    }
}

fn is_zero(value: &i128) -> bool
    ensures { result ≡ int_eq value.now (pos 0) }
{
    *value == 0
}

/// Adds the list of a coefficient and a cost, where that isn't 0.
fn add_list_with(
    alloc: Global,
    lists: &mut Vec<Multipliers>,
    row: RowId,
    coefficient: &i128,
    cost: &i128,
) -> Result<(), NoMemory>
    requires room { length lists.old.items < 65 }
    requires coefficient { IsFactor coefficient.now }
    requires cost { IsSmall cost.now }
    ensures { OnOk result (AddsLists (lists_with row coefficient.now cost.now) lists.old.items lists.new.items) }
{
    if is_zero(cost) {
        return Ok(());
    }
    let list = single_list(alloc, row, coefficient, cost)?;
    add_new(lists, list)?;
    Ok(())
}

/// Adds the list of a term, where its variable has a cost.
fn add_list_of(
    alloc: Global,
    lists: &mut Vec<Multipliers>,
    cost: &[(VarId, i128)],
    row: RowId,
    term: &(VarId, i128),
) -> Result<(), NoMemory>
    requires room { length lists.old.items < 65 }
    requires costs { All (λ t. IsSmall t.1) cost.now }
    requires term { IsFactor term.now.1 }
    ensures { OnOk result (AddsLists (lists_of_terms cost.now row (term.now ∷ [])) lists.old.items lists.new.items) }
{
    let own = coefficient_in(cost, term.0);
    add_list_with(alloc, lists, row, &term.1, &own)?;
    Ok(())
}

/// Whether there is no room for another list.
fn is_full(lists: &[Multipliers]) -> bool
    ensures { IsTrue result ↔ (65 ≤ length lists.now) }
{
    MOST_STATED <= lists.len()
}

/// Adds the lists of a row's terms, as long as there is room.
fn add_lists_of_terms(
    alloc: Global,
    lists: &mut Vec<Multipliers>,
    cost: &[(VarId, i128)],
    row: RowId,
    terms: &[(VarId, i128)],
) -> Result<(), NoMemory>
    requires costs { All (λ t. IsSmall t.1) cost.now }
    requires terms { All (λ t. IsFactor t.1) terms.now }
    ensures { OnOk result (AddsLists (lists_of_terms cost.now row terms.now) lists.old.items lists.new.items) }
{
    for term in terms {
        if is_full(lists.as_slice()) {
            return Ok(());
        }
        add_list_of(alloc, lists, cost, row, term)?;
    }
    Ok(())
}

/// Adds the lists of all rows.
fn add_lists_of_rows(
    alloc: Global,
    lists: &mut Vec<Multipliers>,
    cost: &[(VarId, i128)],
    rows: &[Row],
) -> Result<(), NoMemory>
    requires few { length rows.now ≤ 10000 }
    requires costs { All (λ t. IsSmall t.1) cost.now }
    requires terms { All (λ row. All (λ t. IsFactor t.1) row.terms) rows.now }
    ensures { OnOk result (AddsLists (lists_of_rows cost.now 0 rows.now) lists.old.items lists.new.items) }
{
    for at in 0..rows.len() {
        add_lists_of_terms(
            alloc,
            lists,
            cost,
            RowId::new(at as u32),
            rows[at].terms.as_slice(),
        )?;
    }
    Ok(())
}

fn empty_list_alone(alloc: Global) -> Result<Vec<Multipliers>, NoMemory>
    ensures { IfOk result (λ v. v.items ≡ zero_list ∷ []) }
{
    let mut lists = Vec::with_capacity(alloc, MOST_STATED)?;
    lists.push(Multipliers::zero(alloc))?;
    Ok(lists)
}

/// The stated lists of a model, the empty one first.
pub fn stated_lists(alloc: Global, model: &Model) -> Result<Vec<Multipliers>, NoMemory>
    ensures { IfOk result (λ lists. lists.items ≡ stated_lists model.now) }
{
    let parts = model.parts();
    let mut lists = empty_list_alone(alloc)?;
    add_lists_of_rows(
        alloc,
        &mut lists,
        parts.cost.as_slice(),
        parts.rows.as_slice(),
    )?;
    Ok(lists)
}
