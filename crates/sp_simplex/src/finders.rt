//! The finder: a bounded dual simplex from the rows as basis.

ghost use Rattle.std.specs.Prelude.{◌≤◌, length, IfOk, IsOk};
ghost use Rattle.sp_simplex.specs.Proposals.{IsProposal};

use crate::filling::{Scale, fill};
use crate::listing::{list_of, raise};
use crate::numbers::{clear, number_at, parts_of};
use crate::pivoting::{Turn, pivot};
use crate::sides::{Basis, Sides};
use crate::tables::{Table, copy, zeros};
use sp_dual::Multipliers;
use sp_model::{BoxOf, Model, ModelParts, NoMemory, VarId};
use std::alloc::Global;

/// How many rows times variables a model has at most for which anything is found.
pub const MOST_PLACES: usize = 30_000;

/// How a search for multipliers ended.
#[derive(Clone, Copy, PartialEq, Eq, Debug)]
pub enum Outcome {
    /// There was none, or nothing was found.
    Nothing,
    /// The pivots were used up, or a number passed 128 bits.
    Stopped,
    /// The list and the point are about the best ones.
    Optimal,
    /// About no point of the box satisfies the rows.
    Unmet,
}

/// About the value of a variable.
#[derive(Clone, Copy, PartialEq, Eq, Debug)]
pub struct Estimate {
    /// The value, rounded down.
    pub floor: i64,
    /// What is above that, in parts of 2^36.
    pub part: u64,
}

/// Room for the tableau of a model, and what was found last. All that is found is a hint: a bound of `bound`, and
/// nothing else, says what a list is worth.
#[derive(Debug, Drop)]
pub struct Finder {
    table: Table,
    basis: Basis,
    sides: Sides,
    scale: Scale,
    weights: Vec<i128>,
    raised: Vec<i128>,
    values: Vec<i128>,
    outcome: Outcome,
    unmet: usize,
}

/// How many rows and variables there is room for: those of the model, or none.
fn size_for(model: &ModelParts) -> (usize, usize) {
    let rows = model.rows.len();
    let columns = model.lower.len();
    match rows.checked_mul(columns) {
        None => (0, 0),
        Some(places) => {
            if places <= MOST_PLACES {
                (rows, columns)
            } else {
                (0, 0)
            }
        }
    }
}

/// Pivots, and the row that can't come into its range.
fn run(table: &mut Table, basis: &mut Basis, sides: &Sides, pivots: u32) -> (Outcome, usize) {
    for _ in 0..pivots {
        match pivot(table, basis, sides) {
            Turn::Optimal => return (Outcome::Optimal, 0),
            Turn::Unmet(row) => return (Outcome::Unmet, row),
            Turn::Wide => return (Outcome::Stopped, 0),
            Turn::Exchanged => {}
        }
    }
    (Outcome::Stopped, 0)
}

impl Finder {
    /// Room for the model.
    pub fn new(alloc: Global, model: &Model) -> Result<Finder, NoMemory> {
        let (rows, columns) = size_for(model.parts());
        let mut finder = Finder::empty(alloc);
        match finder.make_room(alloc, rows, columns) {
            Ok(()) => Ok(finder),
            Err(_) => Err(NoMemory),
        }
    }

    /// A finder that finds nothing, and takes no memory.
    fn empty(alloc: Global) -> Finder {
        Finder {
            table: Table::empty(alloc),
            basis: Basis::empty(alloc),
            sides: Sides::empty(alloc),
            scale: Scale::empty(alloc),
            weights: Vec::new(alloc),
            raised: Vec::new(alloc),
            values: Vec::new(alloc),
            outcome: Outcome::Nothing,
            unmet: 0,
        }
    }

    /// Makes room for so many rows and variables.
    fn make_room(&mut self, alloc: Global, rows: usize, columns: usize) -> Result<(), NoMemory> {
        self.table.make_room(alloc, rows, columns)?;
        self.basis.make_room(alloc, rows, columns)?;
        self.sides.make_room(alloc, rows.saturating_add(columns))?;
        self.scale.make_room(rows)?;
        self.weights = zeros(alloc, rows)?;
        self.raised = zeros(alloc, rows)?;
        self.values = zeros(alloc, columns)?;
        Ok(())
    }

    /// Whether there is room for exactly the rows and the variables of a model and a box.
    fn suits(&self, model: &ModelParts, bounds: &BoxOf) -> bool {
        self.table.rows.len() == model.rows.len()
            && self.table.costs.len() == model.lower.len()
            && self.table.costs.len() == bounds.len()
    }

    /// Looks for multipliers of the model's rows and for a point over a box, with so many pivots at most. It takes no
    /// memory.
    pub fn seek(&mut self, model: &Model, bounds: &BoxOf, pivots: u32) -> Outcome {
        let parts = model.parts();
        self.outcome = Outcome::Nothing;
        clear(self.weights.as_mut_slice());
        if self.suits(parts, bounds) {
            self.work(parts, bounds, pivots);
        }
        self.outcome
    }

    /// Whether there is room for a model with rows, so that something may be found.
    pub fn has_room(&self) -> bool {
        !self.table.rows.is_empty()
    }

    /// How the last search ended.
    pub fn outcome(&self) -> Outcome {
        self.outcome
    }

    /// Looks for multipliers and for a point.
    fn work(&mut self, model: &ModelParts, bounds: &BoxOf, pivots: u32) {
        let filled = fill(
            &mut self.table,
            &mut self.sides,
            &mut self.basis,
            &mut self.scale,
            model,
            bounds,
        );
        match filled {
            None => {}
            Some(()) => {
                let (outcome, unmet) = run(&mut self.table, &mut self.basis, &self.sides, pivots);
                self.outcome = outcome;
                self.unmet = unmet;
                self.tell();
            }
        }
    }

    /// Writes down what was found.
    fn tell(&mut self) {
        let count = self.table.costs.len();
        let costs = self.table.costs.as_slice();
        self.basis
            .write_columns(count, costs, self.weights.as_mut_slice());
        self.basis.write_values(count, self.values.as_mut_slice());
    }

    /// The multipliers that the last search found, for the model's rows.
    pub fn list(&self, alloc: Global, model: &Model) -> Result<Multipliers, NoMemory>
        ensures proposal { IfOk result (IsProposal model.now) }
        ensures short { length model.now.rows ≤ 8 → IsOk result }
    {
        list_of(alloc, model, self.weights.as_slice(), &self.scale)
    }

    /// Those multipliers with a row that no point satisfies, so that their bound rises by about as much as is said. The
    /// multipliers alone where the last search found no such row.
    pub fn raised_list(
        &mut self,
        alloc: Global,
        model: &Model,
        rise: &i128,
    ) -> Result<Multipliers, NoMemory>
        ensures proposal { IfOk result (IsProposal model.now) }
        ensures short { length model.now.rows ≤ 8 → IsOk result }
    {
        if self.raise(rise) {
            list_of(alloc, model, self.raised.as_slice(), &self.scale)
        } else {
            self.list(alloc, model)
        }
    }

    /// Writes the raised weights. `false` where there are none.
    fn raise(&mut self, rise: &i128) -> bool {
        if self.outcome != Outcome::Unmet {
            return false;
        }
        copy(self.weights.as_slice(), self.raised.as_mut_slice());
        let raised = raise(
            &self.table,
            &self.basis,
            &self.sides,
            &self.scale,
            self.unmet,
            rise,
            self.raised.as_mut_slice(),
        );
        raised.is_some()
    }

    /// Looks for multipliers of the model's rows over a box, with so many pivots at most.
    pub fn propose(
        &mut self,
        alloc: Global,
        model: &Model,
        bounds: &BoxOf,
        pivots: u32,
    ) -> Result<Multipliers, NoMemory>
        ensures proposal { IfOk result (IsProposal model.now) }
        ensures short { length model.now.rows ≤ 8 → IsOk result }
    {
        self.seek(model, bounds, pivots);
        self.list(alloc, model)
    }

    /// About the value of a variable at the point that the last search found, within the box. `None` where it found none.
    pub fn value(&self, var: VarId) -> Option<Estimate> {
        if self.outcome == Outcome::Nothing || self.values.len() <= var.index() {
            return None;
        }
        let low = number_at(self.sides.low.as_slice(), var.index());
        let high = number_at(self.sides.high.as_slice(), var.index());
        let value = self.values[var.index()].min(high).max(low);
        match parts_of(&value) {
            None => None,
            Some((floor, part)) => Some(Estimate { floor, part }),
        }
    }
}

/// Multipliers for the rows of the model, found over a box with so many pivots at most.
pub fn propose(
    alloc: Global,
    model: &Model,
    bounds: &BoxOf,
    pivots: u32,
) -> Result<Multipliers, NoMemory>
    ensures { IfOk result (IsProposal model.now) }
{
    let mut finder = Finder::new(alloc, model)?;
    finder.propose(alloc, model, bounds, pivots)
}
