//! The bound of a list of multipliers by one sum a variable.

ghost use Rattle.std.specs.Prelude.{◌≡◌, ◌<◌, ◌≤◌, ◌*ℤ◌, All, AllPairs, IfOk, IsTrue, length, pos, Some, slice_set, ◌↔◌};
ghost use Rattle.sp_model.specs.Models.{root_of};
ghost use Rattle.sp_sums.specs.Ranges.{IsInside};
ghost use Rattle.sp_sums.specs.Rows.{row_at};
ghost use Rattle.sp_bound.specs.Bounds.{AreRowsKnown, bound_of};
ghost use Rattle.sp_bound.specs.Inner.{AreHeld, AreReduced, AreRowsRising, Changes, IsRising, cost_at, if_fits, minus, plus, plus_values};

use crate::bounds::{ended, sum_of_sides};
use crate::numbers::{least_value, minus, plus, times};
use sp_dual::Multipliers;
use sp_model::{BoxOf, Model, ModelParts, NoMemory, RowId, VarId, root_is_short};
use sp_sums::rows_are_narrow_inside;
use std::alloc::Global;

/// Room for the reduced cost of each variable. Nothing in it outlasts a call.
#[derive(Debug, Drop)]
pub struct Scratch {
    costs: Vec<Option<i128>>,
}

impl std::marker::Model for Scratch {
    ghost use Rattle.std.specs.Prelude.{ℤ, List, Option};

    ghost Value = { List (Option ℤ) };

    ghost view = { λ s. s.costs.items };
}

impl Scratch {
    /// Room for the variables of a model.
    pub fn new(alloc: Global, model: &Model) -> Result<Scratch, NoMemory>
        ensures { IfOk result (λ s. length s ≡ length (root_of model.now)) }
    {
        let parts = model.parts();
        root_is_short();
        let costs = empty_costs(alloc, parts.lower.len())?;
        Ok(Scratch { costs })
    }

    /// Whether it has room for the variables of the model, and no more.
    pub fn suits(&self, model: &Model) -> bool
        ensures { IsTrue result ↔ (length self.now ≡ length (root_of model.now)) }
    {
        root_is_short();
        self.costs.len() == model.parts().lower.len()
    }
}

pub fn empty_costs(alloc: Global, count: usize) -> Result<Vec<Option<i128>>, NoMemory>
    ensures { IfOk result (λ v. length v.items ≡ count) }
{
    let mut costs = Vec::with_capacity(alloc, count)?;
    for _ in 0..count {
        costs.push(None)?;
    }
    Ok(costs)
}

/// Sets all costs to 0.
fn clear(costs: &mut Vec<Option<i128>>)
    ensures long { length costs.new.items ≡ length costs.old.items }
    ensures zero { All (λ c. c ≡ Some (pos 0)) costs.new.items }
{
    for at in 0..costs.len() {
        costs[at] = Some(0);
    }
}

/// Adds a multiple of a term to the cost of its variable.
fn add_term(costs: &mut Vec<Option<i128>>, factor: &i128, term: &(VarId, i128))
    requires { term.now.0 < length costs.old.items }
    ensures { costs.new.items ≡ slice_set costs.old.items term.now.0 (plus (cost_at costs.old.items term.now.0) (if_fits (factor.now *ℤ term.now.1))) }
{
    let at = term.0.index();
    costs[at] = plus(&costs[at], &times(factor, &term.1));
}

/// Adds a multiple of each term to the cost of its variable.
fn add_terms(costs: &mut Vec<Option<i128>>, factor: &i128, terms: &[(VarId, i128)])
    requires known { All (λ t. t.0 < length costs.old.items) terms.now }
    requires rising { AllPairs (λ t u. t.0 < u.0) terms.now }
    requires held { AreHeld costs.old.items }
    ensures { Changes plus factor.now terms.now costs.old.items costs.new.items }
{
    for term in terms {
        add_term(costs, factor, term);
    }
}

/// Takes a multiple of a term from the cost of its variable.
fn take_term(costs: &mut Vec<Option<i128>>, factor: &i128, term: &(VarId, i128))
    requires { term.now.0 < length costs.old.items }
    ensures { costs.new.items ≡ slice_set costs.old.items term.now.0 (minus (cost_at costs.old.items term.now.0) (if_fits (factor.now *ℤ term.now.1))) }
{
    let at = term.0.index();
    costs[at] = minus(&costs[at], &times(factor, &term.1));
}

/// Takes a multiple of each term from the cost of its variable.
fn take_terms(costs: &mut Vec<Option<i128>>, factor: &i128, terms: &[(VarId, i128)])
    requires known { All (λ t. t.0 < length costs.old.items) terms.now }
    requires rising { AllPairs (λ t u. t.0 < u.0) terms.now }
    requires held { AreHeld costs.old.items }
    ensures { Changes minus factor.now terms.now costs.old.items costs.new.items }
{
    for term in terms {
        take_term(costs, factor, term);
    }
}

/// Adds the scaled costs of all variables.
fn add_costs(model: &ModelParts, list: &Multipliers, costs: &mut Vec<Option<i128>>)
    requires cost { IsRising (length costs.old.items) model.now.cost }
    requires held { AreHeld costs.old.items }
    ensures { Changes plus list.now.d model.now.cost costs.old.items costs.new.items }
{
    add_terms(costs, &list.d, model.cost.as_slice());
}

/// Takes the shares of a row from all costs.
fn take_row(model: &ModelParts, costs: &mut Vec<Option<i128>>, weight: &(RowId, i128))
    requires known { weight.now.0 < length model.now.rows }
    requires rising { IsRising (length costs.old.items) (row_at model.now.rows weight.now.0).terms }
    requires held { AreHeld costs.old.items }
    ensures { Changes minus weight.now.1 (row_at model.now.rows weight.now.0).terms costs.old.items costs.new.items }
{
    let row = &model.rows.as_slice()[weight.0.index()];
    take_terms(costs, &weight.1, row.terms.as_slice());
}

/// Sets the costs to the reduced costs of the list.
pub fn reduce(model: &ModelParts, list: &Multipliers, costs: &mut Vec<Option<i128>>)
    requires known { All (λ w. w.0 < length model.now.rows) list.now.y }
    requires rising { AreRowsRising model.now (length costs.old.items) }
    ensures { AreReduced model.now list.now (length costs.old.items) costs.new.items }
{
    clear(costs);
    add_costs(model, list, costs);
    for weight in list.entries() {
        take_row(model, costs, weight);
    }
}

/// A sum with the least values of all costs.
fn plus_costs(costs: &[Option<i128>], bounds: &BoxOf, start: &Option<i128>) -> Option<i128>
    requires short { length bounds.now ≤ 2000 }
    requires long { length costs.now ≡ length bounds.now }
    ensures { result ≡ plus_values (cost_at costs.now) 0 start.now bounds.now }
{
    let mut sum = *start;
    for at in 0..bounds.len() {
        let range = bounds.range(VarId::new(at as u32));
        sum = plus(&sum, &least_value(&costs[at], &range));
    }
    sum
}

/// The same number as `bound` gives, for the terms of the list's rows and the variables.
pub fn bound_in(
    model: &Model,
    bounds: &BoxOf,
    list: &Multipliers,
    scratch: &mut Scratch,
) -> Option<i128>
    requires known { AreRowsKnown model.now list.now }
    requires inside { IsInside (root_of model.now) bounds.now }
    requires room { length scratch.old ≡ length (root_of model.now) }
    ensures exact { result ≡ bound_of model.now bounds.now list.now }
    ensures room { length scratch.new ≡ length scratch.old }
{
    let parts = model.parts();
    rows_are_narrow_inside();
    root_is_short();
    let sides = sum_of_sides(parts, bounds, list);
    reduce(parts, list, &mut scratch.costs);
    let sum = plus_costs(scratch.costs.as_slice(), bounds, &sides);
    ended(parts, list, &sum)
}
