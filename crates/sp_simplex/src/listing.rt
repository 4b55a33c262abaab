//! Lists of multipliers from weights of rows.

ghost use Rattle.std.specs.Prelude.{◌+◌, ◌≤◌, length, IfOk, IsOk};
ghost use Rattle.smallvec.specs.SmallVec.{HasRoomFor, small_vec_len};
ghost use Rattle.sp_simplex.specs.Proposals.{IsProposal};

use crate::filling::Scale;
use crate::numbers::{number_at, product, put, quotient, scaled};
use crate::pivoting::excess_of;
use crate::sides::{Basis, Sides};
use crate::tables::Table;
use smallvec::SmallVec;
use sp_bound::are_rows_known;
use sp_dual::Multipliers;
use sp_model::{Model, NoMemory, Row, RowId};
use std::alloc::Global;

/// The multiplier of a row, 0 where the row lacks the side that it names.
fn multiplier_of(row: &Row, weight: &i128, power: i32) -> i128 {
    let side = if 0 < *weight { &row.lo } else { &row.hi };
    match side {
        None => 0,
        Some(_) => match scaled(weight, power) {
            None => 0,
            Some(multiplier) => multiplier,
        },
    }
}

/// The power of two between the weight of a row and its multiplier.
fn power_between(scale: &Scale, row: usize) -> i32 {
    scale
        .divisor
        .saturating_add(scale.row(row))
        .saturating_sub(scale.costs)
        .saturating_sub(36)
}

/// Puts a row with its multiplier at the end, where that isn't 0.
fn add_entry(
    entries: &mut SmallVec<(RowId, i128), 8>,
    row: RowId,
    multiplier: &i128,
) -> Result<(), NoMemory>
    ensures len { small_vec_len entries.new ≤ small_vec_len entries.old + 1 }
    ensures capacity { entries.old.capacity ≤ entries.new.capacity }
    ensures succeeds { HasRoomFor entries.old 1 → IsOk result }
{
    if *multiplier == 0 {
        return Ok(());
    }
    match entries.push((row, *multiplier)) {
        Ok(()) => Ok(()),
        Err(_) => Err(NoMemory),
    }
}

/// The entries of the rows whose multipliers aren't 0.
fn entries_of(
    alloc: Global,
    rows: &[Row],
    weights: &[i128],
    scale: &Scale,
) -> Result<SmallVec<(RowId, i128), 8>, NoMemory>
    requires { length rows.now ≤ 10000 }
    ensures { length rows.now ≤ 8 → IsOk result }
{
    let mut entries = SmallVec::new(alloc);
    for place in 0..rows.len() {
        let weight = number_at(weights, place);
        let multiplier = multiplier_of(&rows[place], &weight, power_between(scale, place));
        match add_entry(&mut entries, RowId::new(place as u32), &multiplier) {
            Ok(()) => {}
            Err(_) => return Err(NoMemory),
        }
    }
    Ok(entries)
}

/// The divisor of lists.
fn divisor_of(scale: &Scale) -> i128 {
    match scaled(&1, scale.divisor) {
        None => 1,
        Some(divisor) => divisor,
    }
}

/// The list without entries.
fn empty_list(alloc: Global, model: &Model) -> Multipliers
    ensures { IsProposal model.now result }
{
    let list = Multipliers::zero(alloc);
    let _entries = list.entries();
    let _parts = model.parts();
    list
}

/// The list, where its rows are the model's; else the list without entries.
fn known_list(alloc: Global, model: &Model, list: Multipliers) -> Multipliers
    ensures { IsProposal model.now result }
{
    if are_rows_known(model, &list) {
        let _entries = list.entries();
        return list;
    }
    empty_list(alloc, model)
}

/// The list of a divisor and entries, where they keep the rules of lists; else the list without entries.
fn lawful_list(
    alloc: Global,
    model: &Model,
    divisor: &i128,
    entries: SmallVec<(RowId, i128), 8>,
) -> Multipliers
    ensures { IsProposal model.now result }
{
    match Multipliers::from_entries(*divisor, entries) {
        None => empty_list(alloc, model),
        Some(list) => known_list(alloc, model, list),
    }
}

/// The list of these weights.
pub fn list_of(
    alloc: Global,
    model: &Model,
    weights: &[i128],
    scale: &Scale,
) -> Result<Multipliers, NoMemory>
    ensures proposal { IfOk result (IsProposal model.now) }
    ensures short { length model.now.rows ≤ 8 → IsOk result }
{
    let parts = model.parts();
    match entries_of(alloc, parts.rows.as_slice(), weights, scale) {
        Err(_) => Err(NoMemory),
        Ok(entries) => Ok(lawful_list(alloc, model, &divisor_of(scale), entries)),
    }
}

/// How often a row is added, so that the bound rises by about this much.
fn times_of(scale: &Scale, excess: &i128, rise: &i128) -> Option<i128> {
    let needed = scaled(rise, scale.costs)?;
    let whole = quotient(&needed.checked_add(needed >> 8)?, excess)?;
    whole.checked_add(excess.signum())
}

/// Adds a row that can't come into its range to the weights, so that the bound rises by about this much.
pub fn raise(
    table: &Table,
    basis: &Basis,
    sides: &Sides,
    scale: &Scale,
    row: usize,
    rise: &i128,
    weights: &mut [i128],
) -> Option<()> {
    let excess = excess_of(basis, sides, row);
    let times = times_of(scale, &excess, rise)?;
    let first = table.costs.len();
    for column in 0..basis.columns.len() {
        if first <= basis.columns[column] {
            let place = basis.columns[column] - first;
            let share = product(&times, &table.entry(row, column))?;
            let weight = number_at(weights, place).checked_add(share)?;
            put(weights, place, &weight);
        }
    }
    if row < basis.rows.len() && first <= basis.rows[row] {
        let place = basis.rows[row] - first;
        let weight = number_at(weights, place).checked_sub(times)?;
        put(weights, place, &weight);
    }
    Some(())
}
