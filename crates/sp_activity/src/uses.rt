//! Which items have a variable.

ghost use Rattle.std.specs.Prelude.{◌≡◌, [], ◌∷◌, ◌++◌, ◌^◌, ◌<◌, ◌≤◌, All, length, map, replicate, slice_set, IfOk, OnOk};
ghost use Rattle.sp_activity.specs.Uses.{AreUses, IsUsed, core_vars, gate_vars, set_vars, uses_at};

use sp_model::{Indicator, Items, NoMemory, Sos, VarId};
use std::alloc::Global;

/// For each variable the places of the items that have it. Contracts see the list of the variables' lists.
#[derive(Debug, Drop)]
pub struct Uses {
    lists: Vec<Items<u32>>,
}

impl std::marker::Model for Uses {
    ghost use Rattle.std.specs.Prelude.{ℕ, List};

    ghost Value = { List (List ℕ) };

    ghost view = { λ u. u.lists.items };
}

impl Uses {
    /// The items that have the variable.
    pub fn of(&self, var: VarId) -> &[u32]
        requires { var < length self.now }
        ensures { result.now ≡ uses_at self.now var }
    {
        self.lists[var.index()].as_slice()
    }

    /// The indicators that have a variable as their switch or in their row.
    pub fn of_indicators(
        alloc: Global,
        count: usize,
        indicators: &[Indicator],
    ) -> Result<Uses, NoMemory>
        requires few { length indicators.now ≤ 1000 }
        requires known { All (λ i. All (λ v. v < count) (gate_vars i)) indicators.now }
        ensures { IfOk result (λ u. AreUses count (map gate_vars indicators.now) u) }
    {
        let mut lists = empty_lists(alloc, count)?;
        for at in 0..indicators.len() {
            let indicator = &indicators[at];
            add(&mut lists, indicator.var.index(), at as u32)?;
            add_terms(&mut lists, indicator.row.terms.as_slice(), at as u32)?;
        }
        Ok(Uses { lists })
    }

    /// The sets that have a variable as a member.
    pub fn of_sets(alloc: Global, count: usize, sets: &[Sos]) -> Result<Uses, NoMemory>
        requires few { length sets.now ≤ 1000 }
        requires known { All (λ set. All (λ v. v < count) (set_vars set)) sets.now }
        ensures { IfOk result (λ u. AreUses count (map set_vars sets.now) u) }
    {
        let mut lists = empty_lists(alloc, count)?;
        for at in 0..sets.len() {
            add_all(&mut lists, sets[at].vars.as_slice(), at as u32)?;
        }
        Ok(Uses { lists })
    }

    /// The cores of a variable.
    pub fn of_cores(
        alloc: Global,
        count: usize,
        cores: &[(VarId, i64, i64)],
    ) -> Result<Uses, NoMemory>
        requires few { length cores.now < 2 ^ 32 }
        requires known { All (λ c. All (λ v. v < count) (core_vars c)) cores.now }
        ensures { IfOk result (λ u. AreUses count (map core_vars cores.now) u) }
    {
        let mut lists = empty_lists(alloc, count)?;
        for at in 0..cores.len() {
            add(&mut lists, cores[at].0.index(), at as u32)?;
        }
        Ok(Uses { lists })
    }
}

/// The items of each variable: indicators, sets and cores.
#[derive(Debug, Drop)]
pub struct ModelUses {
    /// The indicators of each variable.
    pub gates: Uses,
    /// The sets of each variable.
    pub sets: Uses,
    /// The cores of each variable.
    pub cores: Uses,
}

fn empty_lists(alloc: Global, count: usize) -> Result<Vec<Items<u32>>, NoMemory>
    ensures { IfOk result (λ v. v.items ≡ replicate count []) }
{
    let mut lists = Vec::with_capacity(alloc, count)?;
    for _ in 0..count {
        lists.push(Items::new(alloc))?;
    }
    Ok(lists)
}

/// Puts an item to the end of a variable's list.
fn add(lists: &mut Vec<Items<u32>>, var: usize, item: u32) -> Result<(), NoMemory>
    requires { var < length lists.old.items }
    ensures { OnOk result (lists.new.items ≡ slice_set lists.old.items var (uses_at lists.old.items var ++ item ∷ [])) }
{
    let list = &mut lists[var];
    list.push(item)?;
    Ok(())
}

/// Puts an item to the end of the list of each of these variables.
fn add_all(lists: &mut Vec<Items<u32>>, vars: &[VarId], item: u32) -> Result<(), NoMemory>
    requires { All (λ v. v < length lists.old.items) vars.now }
    ensures { OnOk result (IsUsed item vars.now lists.old.items lists.new.items) }
{
    for var in vars {
        add(lists, var.index(), item)?;
    }
    Ok(())
}

/// Puts an item to the end of the list of each variable of these terms.
fn add_terms(
    lists: &mut Vec<Items<u32>>,
    terms: &[(VarId, i128)],
    item: u32,
) -> Result<(), NoMemory>
    requires { All (λ t. t.0 < length lists.old.items) terms.now }
    ensures { OnOk result (IsUsed item (map (λ t. t.0) terms.now) lists.old.items lists.new.items) }
{
    for term in terms {
        add(lists, term.0.index(), item)?;
    }
    Ok(())
}
