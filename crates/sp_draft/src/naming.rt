//! The names of variables, each with the place where it first came.
ghost use Rattle.std.specs.Prelude.{◌≡◌, ◌≢◌, ◌+◌, ◌<◌, ◌^◌, [], length, slice_get, Some, AllPairs, IfOk, OnOk, OnErr};
ghost use Rattle.sp_draft.specs.Names.{find_name, place_of, with_name};

use indexmap::IndexSet;
use sp_model::{NoMemory, VarId};
use std::alloc::Global;
use std::marker::Model;

/// Distinct names in the order in which they were added. A name is any bytes, and its variable never changes. Contracts
/// see the list of the names.
#[derive(Drop)]
pub struct Names {
    alloc: Global,
    set: IndexSet<Vec<u8>>,
}

impl Model for Names {
    ghost use Rattle.std.specs.Prelude.{ℕ, ◌<◌, ◌^◌, List, length, map};

    ghost Value = { List (List ℕ) };

    ghost view = { λ n. map (λ v. v.items) n.set.keys };

    ghost invariant = { λ n. length n.set.keys < 2 ^ 32 };
}

impl Names {
    /// No name yet. It takes no memory.
    pub fn new(alloc: Global) -> Names
        ensures { result ≡ [] }
    {
        Names {
            alloc,
            set: IndexSet::new(alloc),
        }
    }

    /// How many names there are.
    pub fn len(&self) -> usize
        ensures count { result ≡ length self.now }
        ensures few { result < 2 ^ 32 }
        ensures distinct { AllPairs (λ v w. v ≢ w) self.now }
    {
        self.set.len()
    }

    /// The variable of the name, `None` where it isn't there. It takes no memory.
    pub fn find(&self, name: &[u8]) -> Option<VarId>
        ensures { result ≡ find_name self.now name.now }
    {
        match self.set.get_index_of(name) {
            None => None,
            Some(place) => Some(VarId::new(place as u32)),
        }
    }

    /// The bytes of the name of a variable that is there.
    pub fn name(&self, var: VarId) -> &[u8]
        requires { var < length self.now }
        ensures { slice_get self.now var ≡ Some result.now }
    {
        self.set.as_slice()[var.index()].as_slice()
    }

    /// The variable of the name, which is put at the end if it isn't there yet. A name that is there takes no memory.
    /// There is room for 2^32 - 1 names.
    ///
    /// # Errors
    ///
    /// [`NoMemory`], and the names are as before.
    pub fn add(&mut self, name: &[u8]) -> Result<VarId, NoMemory>
        requires { length self.old + 1 < 2 ^ 32 }
        ensures names { OnOk result (self.new ≡ with_name self.old name.now) }
        ensures place { IfOk result (λ id. id ≡ place_of self.old name.now) }
        ensures err { OnErr result (self.new ≡ self.old) }
    {
        match self.set.get_index_of(name) {
            Some(place) => Ok(VarId::new(place as u32)),
            None => {
                let key = Vec::from_slice(self.alloc, name)?;
                let (place, _) = self.set.insert_full(key)?;
                Ok(VarId::new(place as u32))
            }
        }
    }
}
