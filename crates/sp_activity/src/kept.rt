//! The truths of a model over one box, which are kept while ranges of the box change.

ghost use Rattle.std.specs.Prelude.{◌≡◌, ◌↔◌, slice_set, IfOk, IsTrue, MatchOption};
ghost use Rattle.sp_model.specs.Models.{root_of};
ghost use Rattle.sp_sums.specs.Ranges.{IsChange, IsFilled, IsInside};
ghost use Rattle.sp_activity.specs.Kept.{IsKeptOf, bounds_of};
ghost use Rattle.sp_activity.specs.Order.{IsFirst, IsOpen};
ghost use Rattle.sp_activity.specs.Stages.{IsOpenToIndicators, IsOpenToRows, IsOpenToSets, IsReady};
ghost use Rattle.sp_activity.specs.Within.{IsUnder};

use crate::broken::{Broken, settle};
use crate::closing::{gate_reason, row_reason};
use crate::reasons::Reason;
use crate::roots::{root_sums, root_truths};
use crate::stages::first_clash;
use crate::uses::ModelUses;
use sp_model::{BoxOf, Model, ModelParts, NoMemory, RowId, VarId, root_is_short};
use sp_sums::{Sums, rows_are_narrow_inside};
use std::alloc::Global;

/// A box within the closed box of a model, with the sums of all rows over it, and with the truths which rows, indicators,
/// sets and cores can't hold there. It belongs to one model, which each call takes.
#[derive(Debug, Drop)]
pub struct Kept {
    /// The sums of the rows, and the box.
    pub rows: Sums,
    /// The sums of the indicators' rows.
    pub gates: Sums,
    /// Which indicators, sets and cores can't hold.
    pub broken: Broken,
    /// What has each variable.
    pub uses: ModelUses,
}

impl Kept {
    /// All over the closed box of the model, which has points.
    pub fn new(alloc: Global, model: &Model) -> Result<Kept, NoMemory>
        requires { IsFilled (root_of model.now) }
        ensures kept { IfOk result (IsKeptOf model.now) }
        ensures bounds { IfOk result (λ k. bounds_of k ≡ root_of model.now) }
    {
        let sums = root_sums(alloc, model)?;
        let truths = root_truths(alloc, model)?;
        Ok(joined(sums, truths))
    }

    /// The box.
    pub fn bounds(&self) -> &BoxOf
        ensures { result.now ≡ bounds_of self.now }
    {
        self.rows.bounds()
    }

    /// The box, which lies within the model's closed box and isn't empty.
    pub fn bounds_in(&self, model: &Model) -> &BoxOf
        requires { IsKeptOf model.now self.now }
        ensures same { result.now ≡ bounds_of self.now }
        ensures inside { IsInside (root_of model.now) result.now }
        ensures under { IsUnder (root_of model.now) result.now }
    {
        let _model = model;
        let _root = self.rows.root();
        self.rows.bounds()
    }

    /// Whether `set` may be called: the variable is known, and the range isn't empty and lies within the model's closed box.
    pub fn can_set(&self, model: &Model, var: VarId, range: &(i64, i64)) -> bool
        requires { IsKeptOf model.now self.now }
        ensures { IsTrue result ↔ IsChange (root_of model.now) var range.now }
    {
        let _model = model;
        self.rows.can_set(var, range)
    }

    /// Gives a variable another range. It takes no memory, and looks only at what has the variable.
    pub fn set(&mut self, model: &Model, var: VarId, range: &(i64, i64))
        requires kept { IsKeptOf model.now self.old }
        requires change { IsChange (root_of model.now) var range.now }
        ensures kept { IsKeptOf model.now self.new }
        ensures bounds { bounds_of self.new ≡ slice_set (bounds_of self.old) var range.now }
    {
        let parts = model.parts();
        root_is_short();
        rows_are_narrow_inside();
        self.rows.set(var, range);
        self.gates.set(var, range);
        let _root = self.gates.root();
        settle(&mut self.broken, parts, &self.uses, var, range, &self.gates);
    }

    /// The first reason that holds of the box. It looks for it only where a count isn't 0.
    pub fn closed(&self, model: &Model) -> Option<Reason>
        requires { IsKeptOf model.now self.now }
        ensures { MatchOption result
            (IsOpen model.now (bounds_of self.now))
            (λ r. IsFirst model.now (bounds_of self.now) r) }
    {
        let parts = model.parts();
        root_is_short();
        rows_are_narrow_inside();
        let _root = self.rows.root();
        match self.rows.first_broken() {
            Some(id) => {
                let row = &parts.rows.as_slice()[id.index()];
                Some(row_reason(row, &self.rows.span(id), id))
            }
            None => self.closed_by_indicators(parts),
        }
    }

    fn closed_by_indicators(&self, parts: &ModelParts) -> Option<Reason>
        requires kept { IsKeptOf parts.now self.now }
        requires ready { IsReady parts.now (bounds_of self.now) }
        requires rows { IsOpenToRows parts.now (bounds_of self.now) }
        ensures { MatchOption result
            (IsOpen parts.now (bounds_of self.now))
            (λ r. IsFirst parts.now (bounds_of self.now) r) }
    {
        let indicators = parts.indicators.as_slice();
        match self.broken.gates.first() {
            Some(id) => {
                let indicator = &indicators[id as usize];
                let span = self.gates.span(RowId::new(id));
                Some(gate_reason(&indicator.row, &span, id))
            }
            None => self.closed_by_sets(parts),
        }
    }

    fn closed_by_sets(&self, parts: &ModelParts) -> Option<Reason>
        requires kept { IsKeptOf parts.now self.now }
        requires ready { IsReady parts.now (bounds_of self.now) }
        requires indicators { IsOpenToIndicators parts.now (bounds_of self.now) }
        ensures { MatchOption result
            (IsOpen parts.now (bounds_of self.now))
            (λ r. IsFirst parts.now (bounds_of self.now) r) }
    {
        let sets = parts.sos.as_slice();
        match self.broken.sets.first() {
            Some(id) => match first_clash(&sets[id as usize], self.rows.bounds()) {
                Some(places) => Some(Reason::Sos(id, places.0, places.1)),
                // A broken set has two such places.
                None => None,
            },
            None => self.closed_by_cores(parts),
        }
    }

    fn closed_by_cores(&self, parts: &ModelParts) -> Option<Reason>
        requires kept { IsKeptOf parts.now self.now }
        requires ready { IsReady parts.now (bounds_of self.now) }
        requires sets { IsOpenToSets parts.now (bounds_of self.now) }
        ensures { MatchOption result
            (IsOpen parts.now (bounds_of self.now))
            (λ r. IsFirst parts.now (bounds_of self.now) r) }
    {
        let cores = parts.semi.as_slice();
        match self.broken.cores.first() {
            Some(place) => Some(Reason::Semi(cores[place as usize].0)),
            None => None,
        }
    }
}

/// The parts in one.
fn joined(sums: (Sums, Sums), truths: (Broken, ModelUses)) -> Kept
    ensures { result ≡ record { rows = sums.0; gates = sums.1; broken = truths.0; uses = truths.1 } }
{
    let (rows, gates) = sums;
    let (broken, uses) = truths;
    Kept {
        rows,
        gates,
        broken,
        uses,
    }
}
