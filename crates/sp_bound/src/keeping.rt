//! Which stated lists get a row, and which are asked.

ghost use Rattle.std.specs.Prelude.{◌≡◌, ◌+◌, ◌-◌, ◌^◌, ◌<◌, ◌≤◌, ◌++◌, ◌∷◌, [], All, cond, length, pos, ⊤, unwrap_or, IfOk, IsTrue, OnOk, MatchOption, unsigned_abs, ◌↔◌};
ghost use Rattle.std.specs.Ordering.{int_eq};
ghost use Rattle.sp_model.specs.Models.{root_of};
ghost use Rattle.sp_model.specs.Sums.{reach};
ghost use Rattle.sp_bound.specs.Closing.{named_side};
ghost use Rattle.sp_bound.specs.Inner.{AreRowsRising};
ghost use Rattle.sp_bound.specs.Keeping.{AddsCost, AddsList, AsksOrKeeps, IsDraftOf, LeavesRoom, TellsSides, TellsTerms};
ghost use Rattle.sp_bound.specs.StatedLists.{IsStated};

use crate::numbers::times;
use crate::scratch::{empty_costs, reduce};
use sp_dual::Multipliers;
use sp_model::{BoxOf, Items, ModelParts, NoMemory, Row, RowId, VarId};
use std::alloc::Global;

/// The greatest magnitude of all that a kept list adds up, 10^36.
const ROOM: u128 = 1_000_000_000_000_000_000_000_000_000_000_000_000;

/// What is known of a list's sides.
#[derive(Clone, Copy)]
enum Sides {
    /// The row lacks the side.
    Missing,
    /// The product isn't small.
    Wide,
    /// The product of the side, 0 for the empty list.
    Of(i128),
}

/// The list of a kept row.
#[derive(Clone, Copy, PartialEq, Eq, Debug)]
pub struct Owner {
    /// The place of the list.
    pub place: u32,
    /// The sum of its sides' products.
    pub sides: i128,
}

/// The lists that have rows, and the places of those that are asked.
#[derive(Drop)]
pub struct Draft {
    /// The rows, each without a greatest side.
    pub rows: Items<Row>,
    /// The list of each row.
    pub owners: Items<Owner>,
    /// The places of the lists that are asked.
    pub asked: Items<u32>,
}

/// The side that the multiplier names.
fn named_side(row: &Row, multiplier: &i128) -> Option<i128>
    ensures { result ≡ named_side row.now multiplier.now }
{
    if 0 < *multiplier { row.lo } else { row.hi }
}

fn is_small(value: &i128) -> bool
    ensures { IsTrue result ↔ (unsigned_abs value.now ≤ 10 ^ 36) }
{
    value.unsigned_abs() <= ROOM
}

/// The side of a row.
fn side_of_row(rows: &[Row], weight: &(RowId, i128)) -> Sides
    requires { weight.now.0 < length rows.now }
    ensures { TellsSides rows.now (weight.now ∷ []) result }
{
    match named_side(&rows[weight.0.index()], &weight.1) {
        None => Sides::Missing,
        Some(side) => match times(&weight.1, &side) {
            None => Sides::Wide,
            Some(product) => {
                if is_small(&product) {
                    Sides::Of(product)
                } else {
                    Sides::Wide
                }
            }
        },
    }
}

/// The sides of a list of at most one row.
fn sides_of(rows: &[Row], weights: &[(RowId, i128)]) -> Sides
    requires short { length weights.now ≤ 1 }
    requires known { All (λ w. w.0 < length rows.now) weights.now }
    ensures { TellsSides rows.now weights.now result }
{
    if weights.is_empty() {
        Sides::Of(0)
    } else {
        side_of_row(rows, &weights[0])
    }
}

/// How far a value of a range can be from 0, and at least 1.
fn reach(range: &(i64, i64)) -> u128
    ensures { result ≡ reach range.now }
{
    u128::from(range.0.unsigned_abs().max(range.1.unsigned_abs()).max(1))
}

/// The room that a cost leaves, `None` where the cost has ended or takes more.
fn room_beside(room: u128, cost: &Option<i128>, range: &(i64, i64)) -> Option<u128>
    ensures { MatchOption result ⊤ (λ left. LeavesRoom room cost.now range.now left) }
{
    match cost {
        None => None,
        Some(cost) => {
            let size = cost.unsigned_abs();
            let reach = reach(range);
            if room / reach < size {
                None
            } else {
                Some(room - size * reach)
            }
        }
    }
}

/// Puts a term at the end, where its cost is there and isn't 0.
fn add_cost(
    terms: &mut Items<(VarId, i128)>,
    var: VarId,
    cost: &Option<i128>,
) -> Result<(), NoMemory>
    ensures { let value = unwrap_or cost.now (pos 0) in
        OnOk result (terms.new ≡ terms.old ++ cond (int_eq value (pos 0)) [] ((var, value) ∷ [])) }
{
    match cost {
        None => Ok(()),
        Some(value) => {
            if *value == 0 {
                return Ok(());
            }
            terms.push((var, *value))?;
            Ok(())
        }
    }
}

/// Adds the term of a cost, and gives the room that is left. `None` where the cost has ended or takes more.
fn add_next(
    terms: &mut Items<(VarId, i128)>,
    room: u128,
    var: VarId,
    cost: &Option<i128>,
    range: &(i64, i64),
) -> Result<Option<u128>, NoMemory>
    ensures { let old = terms.old in let new = terms.new in let value = unwrap_or cost.now (pos 0) in
        IfOk result (λ found. MatchOption found ⊤ (λ left. AddsCost old new var value room cost.now range.now left)) }
{
    match room_beside(room, cost, range) {
        None => Ok(None),
        Some(left) => {
            add_cost(terms, var, cost)?;
            Ok(Some(left))
        }
    }
}

/// The terms of the costs, `None` where one has ended or they take more than the room.
fn terms_of(
    alloc: Global,
    root: &BoxOf,
    costs: &[Option<i128>],
    room: u128,
) -> Result<Option<Items<(VarId, i128)>>, NoMemory>
    requires short { length root.now ≤ 2000 }
    requires long { length costs.now ≡ length root.now }
    ensures { IfOk result (λ found. MatchOption found ⊤ (λ terms. TellsTerms root.now costs.now room terms)) }
{
    let mut terms = Items::new(alloc);
    let mut left = room;
    for at in 0..root.len() {
        let var = VarId::new(at as u32);
        match add_next(&mut terms, left, var, &costs[at], &root.range(var))? {
            None => return Ok(None),
            Some(rest) => left = rest,
        }
    }
    Ok(Some(terms))
}

/// Puts a place among those that are asked.
fn ask(draft: &mut Draft, place: u32) -> Result<(), NoMemory>
    ensures { OnOk result (draft.new ≡ record draft.old { asked = draft.old.asked ++ place ∷ [] }) }
{
    draft.asked.push(place)?;
    Ok(())
}

/// Puts a row at the end, with its list.
fn push_row(draft: &mut Draft, row: Row, owner: Owner) -> Result<(), NoMemory>
    ensures { OnOk result (draft.new ≡ record draft.old { rows = draft.old.rows ++ row ∷ []; owners = draft.old.owners ++ owner ∷ [] }) }
{
    draft.rows.push(row)?;
    draft.owners.push(owner)?;
    Ok(())
}

/// The room beside the sides.
fn room_of(sides: &i128) -> u128
    requires { unsigned_abs sides.now ≤ 10 ^ 36 }
    ensures { result ≡ 10 ^ 36 - unsigned_abs sides.now }
{
    ROOM - sides.unsigned_abs()
}

/// Gives a list its row, or asks it where its numbers aren't small.
fn add_row(
    alloc: Global,
    root: &BoxOf,
    costs: &[Option<i128>],
    place: u32,
    sides: &i128,
    draft: &mut Draft,
) -> Result<(), NoMemory>
    requires short { length root.now ≤ 2000 }
    requires long { length costs.now ≡ length root.now }
    requires sides { unsigned_abs sides.now ≤ 10 ^ 36 }
    ensures { OnOk result (AsksOrKeeps root.now costs.now place sides.now draft.old draft.new) }
{
    match terms_of(alloc, root, costs, room_of(sides))? {
        None => {
            ask(draft, place)?;
            Ok(())
        }
        Some(terms) => {
            let row = Row {
                terms,
                lo: None,
                hi: None,
            };
            let owner = Owner {
                place,
                sides: *sides,
            };
            push_row(draft, row, owner)?;
            Ok(())
        }
    }
}

/// Puts the next list into the draft.
fn add_list(
    alloc: Global,
    model: &ModelParts,
    root: &BoxOf,
    list: &Multipliers,
    place: u32,
    costs: &mut Vec<Option<i128>>,
    draft: &mut Draft,
) -> Result<(), NoMemory>
    requires root { root.now ≡ root_of model.now }
    requires short { length root.now ≤ 2000 }
    requires long { length costs.old.items ≡ length root.now }
    requires few { length list.now.y ≤ 1 }
    requires known { All (λ w. w.0 < length model.now.rows) list.now.y }
    requires rising { AreRowsRising model.now (length costs.old.items) }
    ensures long { OnOk result (length costs.new.items ≡ length costs.old.items) }
    ensures added { OnOk result (AddsList model.now list.now place draft.old draft.new) }
{
    let sides = sides_of(model.rows.as_slice(), list.entries());
    match &sides {
        Sides::Missing => Ok(()),
        Sides::Wide => {
            ask(draft, place)?;
            Ok(())
        }
        Sides::Of(product) => {
            reduce(model, list, costs);
            add_row(alloc, root, costs.as_slice(), place, product, draft)?;
            Ok(())
        }
    }
}

fn empty_draft(alloc: Global) -> Draft
    ensures { result ≡ record { rows = []; owners = []; asked = [] } }
{
    Draft {
        rows: Items::new(alloc),
        owners: Items::new(alloc),
        asked: Items::new(alloc),
    }
}

/// The draft of these lists over the closed box of the model.
pub fn drafted(
    alloc: Global,
    model: &ModelParts,
    root: &BoxOf,
    lists: &[Multipliers],
) -> Result<Draft, NoMemory>
    requires root { root.now ≡ root_of model.now }
    requires short { length root.now ≤ 2000 }
    requires few { length lists.now ≤ 10000 }
    requires rising { AreRowsRising model.now (length root.now) }
    requires stated { All (IsStated model.now) lists.now }
    ensures { IfOk result (IsDraftOf model.now lists.now (length lists.now)) }
{
    let mut costs = empty_costs(alloc, root.len())?;
    let mut draft = empty_draft(alloc);
    for at in 0..lists.len() {
        add_list(
            alloc, model, root, &lists[at], at as u32, &mut costs, &mut draft,
        )?;
    }
    Ok(draft)
}
