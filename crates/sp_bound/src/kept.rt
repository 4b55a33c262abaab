//! The bounds of the stated lists over one box, which are kept while ranges of the box and the threshold change.

ghost use Rattle.std.specs.Prelude.{◌≡◌, ◌↔◌, ◌<◌, ◌≤◌, None, length, slice_set, IfOk, IfSome, IsTrue, MatchOption};
ghost use Rattle.sp_model.specs.Models.{root_of};
ghost use Rattle.sp_sums.specs.Ranges.{IsChange, IsFilled};
ghost use Rattle.sp_bound.specs.Closing.{HasBound, IsClosing, IsLeftOpen};
ghost use Rattle.sp_bound.specs.KeptBounds.{IsKeptOf, bounds_of, lists_of, threshold_of};
ghost use Rattle.sp_bound.specs.Keeping.{IsDraftOf, StandsOn};
ghost use Rattle.sp_bound.specs.StatedLists.{stated_lists};

use crate::asking::first_closing;
use crate::bounds::ended;
use crate::keeping::{Draft, Owner, drafted};
use crate::laws::stated_lists_are_lists;
use crate::numbers::added;
use crate::raising::raise_all;
use crate::stated::stated_lists;
use sp_dual::Multipliers;
use sp_model::{BoxOf, Items, Model, NoMemory, RowId, VarId, quotients_are_exact, root_is_short};
use sp_sums::Sums;
use std::alloc::Global;

/// The stated lists of a model, a box within its closed box, and a threshold. A list whose sums stay small has a row, which is
/// broken exactly where the list closes the box; others are asked. It belongs to one model, which each call takes.
#[derive(Drop)]
pub struct KeptBounds {
    /// The stated lists.
    pub lists: Vec<Multipliers>,
    /// What a bound has to pass; without it no list closes.
    pub threshold: Option<i128>,
    /// The rows of lists over the box.
    pub sums: Sums,
    /// The list of each row.
    pub owners: Items<Owner>,
    /// The places of the lists that are asked.
    pub asked: Items<u32>,
}

impl KeptBounds {
    /// The stated lists over the closed box of the model, which has points, without a threshold.
    pub fn new(alloc: Global, model: &Model) -> Result<KeptBounds, NoMemory>
        requires { IsFilled (root_of model.now) }
        ensures kept { IfOk result (IsKeptOf model.now) }
        ensures lists { IfOk result (λ k. lists_of k ≡ stated_lists model.now) }
        ensures bounds { IfOk result (λ k. bounds_of k ≡ root_of model.now) }
        ensures threshold { IfOk result (λ k. threshold_of k ≡ None) }
    {
        stated_lists_are_lists();
        let lists = stated_lists(alloc, model)?;
        let draft = draft_of(alloc, model, lists.as_slice())?;
        let parts = sums_of(alloc, model, lists.as_slice(), draft)?;
        Ok(joined(lists, parts))
    }

    /// The box.
    pub fn bounds(&self) -> &BoxOf
        ensures { result.now ≡ bounds_of self.now }
    {
        self.sums.bounds()
    }

    /// Whether `set` may be called: the variable is known, and the range isn't empty and lies within the model's closed box.
    pub fn can_set(&self, model: &Model, var: VarId, range: &(i64, i64)) -> bool
        requires { IsKeptOf model.now self.now }
        ensures { IsTrue result ↔ IsChange (root_of model.now) var range.now }
    {
        let _model = model;
        self.sums.can_set(var, range)
    }

    /// Gives a variable another range. It takes no memory, and looks only at the rows that have the variable.
    pub fn set(&mut self, model: &Model, var: VarId, range: &(i64, i64))
        requires kept { IsKeptOf model.now self.old }
        requires change { IsChange (root_of model.now) var range.now }
        ensures kept { IsKeptOf model.now self.new }
        ensures bounds { bounds_of self.new ≡ slice_set (bounds_of self.old) var range.now }
        ensures lists { lists_of self.new ≡ lists_of self.old }
        ensures threshold { threshold_of self.new ≡ threshold_of self.old }
    {
        let _model = model;
        self.sums.set(var, range);
    }

    /// Sets another threshold, or none. It takes no memory, and the same time for each row.
    pub fn set_threshold(&mut self, model: &Model, threshold: &Option<i128>)
        requires { IsKeptOf model.now self.old }
        ensures kept { IsKeptOf model.now self.new }
        ensures bounds { bounds_of self.new ≡ bounds_of self.old }
        ensures lists { lists_of self.new ≡ lists_of self.old }
        ensures threshold { threshold_of self.new ≡ threshold.now }
    {
        let parts = model.parts();
        let _root = self.sums.root();
        raise_all(
            parts,
            self.lists.as_slice(),
            threshold,
            self.owners.as_slice(),
            &mut self.sums,
        );
        self.threshold = *threshold;
    }

    /// A list with a row that closes the box, with its bound there, which no list is asked for. `None` says nothing.
    pub fn row_closing(&self, model: &Model) -> Option<(u32, Option<i128>)>
        requires { IsKeptOf model.now self.now }
        ensures { IfSome result (λ found. HasBound model.now (bounds_of self.now) (lists_of self.now) found.0 found.1) }
    {
        match self.sums.first_broken() {
            Some(row) => Some(self.row_bound(model, row)),
            None => None,
        }
    }

    /// The list of a row, with its bound over the box.
    fn row_bound(&self, model: &Model, row: RowId) -> (u32, Option<i128>)
        requires kept { IsKeptOf model.now self.now }
        requires known { row < length self.now.sums.rows }
        ensures { HasBound model.now (bounds_of self.now) (lists_of self.now) result.0 result.1 }
    {
        let parts = model.parts();
        stated_lists_are_lists();
        quotients_are_exact();
        let _root = self.sums.root();
        let owner = self.owners.as_slice()[row.index()];
        let list = &self.lists.as_slice()[owner.place as usize];
        let sum = added(&owner.sides, &self.sums.span(row).least);
        (owner.place, ended(parts, list, &sum))
    }

    /// The place of a stated list that closes the box: its bound is above the threshold. `None` exactly where no stated list
    /// does.
    pub fn closing(&self, model: &Model) -> Option<u32>
        requires { IsKeptOf model.now self.now }
        ensures { MatchOption result
            (IsLeftOpen model.now (bounds_of self.now) (threshold_of self.now) (lists_of self.now))
            (λ k. IsClosing model.now (bounds_of self.now) (threshold_of self.now) (lists_of self.now) k) }
    {
        let _parts = model.parts();
        stated_lists_are_lists();
        quotients_are_exact();
        let _root = self.sums.root();
        match self.sums.first_broken() {
            Some(row) => Some(self.owners.as_slice()[row.index()].place),
            None => first_closing(
                model,
                self.sums.bounds(),
                &self.threshold,
                self.lists.as_slice(),
                self.asked.as_slice(),
            ),
        }
    }
}

/// The draft of these lists over the closed box.
fn draft_of(alloc: Global, model: &Model, lists: &[Multipliers]) -> Result<Draft, NoMemory>
    requires { lists.now ≡ stated_lists model.now }
    ensures { IfOk result (IsDraftOf model.now lists.now (length lists.now)) }
{
    let parts = model.parts();
    root_is_short();
    stated_lists_are_lists();
    let root = model.root(alloc)?;
    drafted(alloc, parts, &root, lists)
}

/// The sums of the draft's rows over the closed box, with the rest of the draft.
fn sums_of(
    alloc: Global,
    model: &Model,
    lists: &[Multipliers],
    draft: Draft,
) -> Result<(Sums, Items<Owner>, Items<u32>), NoMemory>
    requires filled { IsFilled (root_of model.now) }
    requires few { length lists.now ≤ 10000 }
    requires draft { IsDraftOf model.now lists.now (length lists.now) draft }
    ensures { IfOk result (λ parts. StandsOn model.now draft parts.0 parts.1 parts.2) }
{
    let Draft {
        rows,
        owners,
        asked,
    } = draft;
    let root = model.root(alloc)?;
    let bounds = model.root(alloc)?;
    let sums = Sums::new(alloc, root, bounds, rows)?;
    Ok((sums, owners, asked))
}

/// The parts in one.
fn joined(lists: Vec<Multipliers>, parts: (Sums, Items<Owner>, Items<u32>)) -> KeptBounds
    ensures { result ≡ record { lists = lists; threshold = None; sums = parts.0; owners = parts.1; asked = parts.2 } }
{
    let (sums, owners, asked) = parts;
    KeptBounds {
        lists,
        threshold: None,
        sums,
        owners,
        asked,
    }
}
