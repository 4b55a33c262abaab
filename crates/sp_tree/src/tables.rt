//! The table of lists of multipliers, each of which stands there once.

ghost use Rattle.std.specs.Prelude.{◌≡◌, ◌≢◌, ◌↔◌, ◌^◌, ◌<◌, ℕ, [], ◌∷◌, length, Contains, Ok, IfOk, OnErr, MatchOption, IsOk};
ghost use Rattle.sp_dual.specs.Lists.{zero_list};
ghost use Rattle.sp_tree.specs.Tables.{list_at, IsTable, IsPrefix, IsTooHeavy, Keeps};
ghost use Rattle.sp_tree.specs.InnerTables.{print_of};
ghost use Rattle.sp_tree.specs.declared.tables.Keep.TheVariants as Keep;

use crate::indexes::{Index, fingerprint};
use sp_dual::Multipliers;
use sp_model::NoMemory;
use std::alloc::Global;
use std::marker::Model;

/// What the lists of a table weigh at most. A list weighs one more than it has entries.
const MOST_WEIGHT: u32 = 8_000_000;

/// Where a list is kept.
#[derive(Clone, Copy, PartialEq, Eq, Debug)]
pub enum Keep {
    /// It stands at this place of the table.
    At(u32),
    /// It isn't in the table, and would make it too heavy.
    Full,
}

/// A table of distinct lists, the first of which has no entries. Contracts see it as their list.
#[derive(Drop)]
pub struct Table {
    lists: Vec<Multipliers>,
    weight: u32,
    index: Index,
}

impl Model for Table {
    ghost use Rattle.std.specs.Prelude.{List};
    ghost use Rattle.sp_dual.specs.Lists.{MultiplierList};

    ghost Value = { List MultiplierList };

    ghost use Rattle.sp_tree.specs.InnerTables.{IsKeptTable};

    ghost view = { λ t. t.lists.items };

    ghost invariant = { λ t. IsKeptTable t.lists.items t.weight t.index };
}

impl Table {
    /// The table of the list without entries.
    pub fn new(alloc: Global) -> Result<Table, NoMemory>
        ensures { IfOk result (λ t. t ≡ zero_list ∷ []) }
    {
        let zero = Multipliers::zero(alloc);
        let mut index = Index::new(alloc)?;
        index.add(fingerprint(&zero))?;
        let mut lists = Vec::new(alloc);
        lists.push(zero)?;
        Ok(Table {
            lists,
            weight: 1,
            index,
        })
    }

    /// The lists by their places.
    pub fn as_slice(&self) -> &[Multipliers]
        ensures same { result.now ≡ self.now }
        ensures table { IsTable self.now }
    {
        self.lists.as_slice()
    }

    /// The place of an equal list, which is added at the end where there is none. Where the answer is `Full` or an error, the
    /// table is as before.
    pub fn keep(&mut self, list: Multipliers) -> Result<Keep, NoMemory>
        ensures ok { IfOk result (λ kept. Keeps list self.old self.new kept) }
        ensures full { (result ≡ Ok Keep.Full) ↔ IsTooHeavy self.old list }
        ensures there { Contains self.old list → IsOk result }
        ensures err { OnErr result (self.new ≡ self.old) }
        ensures longer { IsPrefix self.old self.new }
        ensures table { IsTable self.new }
    {
        let print = fingerprint(&list);
        match self.index.find(print, self.lists.as_slice(), &list) {
            Some(place) => Ok(Keep::At(place)),
            None => self.add(list, print),
        }
    }

    /// Adds a list that isn't there, unless that makes the table too heavy.
    fn add(&mut self, list: Multipliers, print: u32) -> Result<Keep, NoMemory>
        requires new { ¬ Contains self.old list }
        requires print { print ≡ print_of list }
        ensures ok { IfOk result (λ kept. Keeps list self.old self.new kept) }
        ensures full { (result ≡ Ok Keep.Full) ↔ IsTooHeavy self.old list }
        ensures err { OnErr result (self.new ≡ self.old) }
        ensures longer { IsPrefix self.old self.new }
        ensures table { IsTable self.new }
    {
        let weight = list.entries().len() as u32 + 1;
        if MOST_WEIGHT - self.weight < weight {
            return Ok(Keep::Full);
        }
        let place = self.lists.len() as u32;
        self.lists.reserve(1)?;
        self.index.add(print)?;
        self.lists.push_reserved(list);
        self.weight += weight;
        Ok(Keep::At(place))
    }
}
