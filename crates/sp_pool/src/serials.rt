//! The serials of a pool's members, in ascending order.

ghost use Rattle.std.specs.Prelude.{◌≡◌, ◌+◌, ◌<◌, ◌≤◌, [], ◌∷◌, ℕ, true, length, filter, IsOk, OnOk, IsPermutation, ◌==◌, get_or};
ghost use Rattle.std.specs.List.{list_any};
ghost use Rattle.std.specs.List.Sorted.{IsNonDecreasing};

use sp_model::NoMemory;
use std::alloc::Global;
use std::marker::Model;

/// Serials in ascending order, each as often as it was put in.
#[derive(Drop)]
pub(crate) struct Serials {
    sorted: Vec<u32>,
}

impl Model for Serials {
    ghost use Rattle.std.specs.Prelude.{vec_capacity};
    ghost use Rattle.std.specs.List.Sorted.{IsNonDecreasing};
    ghost use Rattle.sp_pool.specs.InnerSerials.{Tally};

    ghost Value = { Tally };

    ghost view = { λ s. record { items = s.sorted.items; capacity = vec_capacity s.sorted } };

    ghost invariant = { λ s. IsNonDecreasing s.sorted.items };
}

/// Whether the serial is among these, which are searched by halves.
pub(crate) fn lists(serials: &[u32], serial: u32) -> bool
    requires { IsNonDecreasing serials.now }
    ensures { result ≡ list_any (λ listed. listed == serial) serials.now }
{
    serials.binary_search(&serial).is_ok()
}

/// A place behind all serials that are less and before all that are greater.
fn place_of(serials: &[u32], serial: u32) -> usize
    requires { IsNonDecreasing serials.now }
    ensures within { result ≤ length serials.now }
    ensures low { (k d : ℕ) → k < result → get_or serials.now k d ≤ serial }
    ensures high { (k d : ℕ) → result ≤ k → k < length serials.now → serial ≤ get_or serials.now k d }
{
    match serials.binary_search(&serial) {
        Ok(place) => place,
        Err(place) => place,
    }
}

impl Serials {
    /// No serials, which takes no memory.
    pub(crate) fn new(alloc: Global) -> Serials
        ensures items { result.items ≡ [] }
        ensures capacity { result.capacity ≡ 0 }
    {
        Serials {
            sorted: Vec::new(alloc),
        }
    }

    /// How many serials fit with no more memory.
    pub(crate) fn capacity(&self) -> usize
        ensures { result ≡ self.now.capacity }
    {
        self.sorted.capacity()
    }

    /// Makes room for so many serials more than the `len` that there are. After an error they are as before.
    pub(crate) fn make_room(&mut self, len: usize, additional: usize) -> Result<(), NoMemory>
        requires { len ≡ length self.old.items }
        ensures items { self.new.items ≡ self.old.items }
        ensures room { OnOk result (len + additional ≤ self.new.capacity) }
        ensures capacity { self.old.capacity ≤ self.new.capacity }
        ensures succeeds { len + additional ≤ self.old.capacity → IsOk result }
    {
        match self.sorted.reserve(additional) {
            Ok(()) => Ok(()),
            Err(_) => Err(NoMemory),
        }
    }

    /// Whether the serial is among them.
    pub(crate) fn holds(&self, serial: u32) -> bool
        ensures { result ≡ list_any (λ listed. listed == serial) self.now.items }
    {
        lists(&self.sorted, serial)
    }

    /// Puts the serial in. It takes no memory.
    pub(crate) fn add(&mut self, serial: u32)
        requires { length self.old.items < self.old.capacity }
        ensures items { IsPermutation (serial ∷ self.old.items) self.new.items }
        ensures capacity { self.new.capacity ≡ self.old.capacity }
    {
        let place = place_of(&self.sorted, serial);
        // There is room, so it succeeds.
        let _ = self.sorted.insert(place, serial);
    }

    /// Takes the serial out once, if it is among them.
    pub(crate) fn remove(&mut self, serial: u32)
        ensures items { list_any (λ listed. listed == serial) self.old.items ≡ true → IsPermutation self.old.items (serial ∷ self.new.items) }
        ensures capacity { self.new.capacity ≡ self.old.capacity }
    {
        if let Ok(place) = self.sorted.binary_search(&serial) {
            self.sorted.remove(place);
        }
    }

    /// Leaves the serials out that aren't among these.
    pub(crate) fn retain(&mut self, serials: &[u32])
        requires { IsNonDecreasing serials.now }
        ensures items { self.new.items ≡ filter (λ serial. list_any (λ listed. listed == serial) serials.now) self.old.items }
        ensures capacity { self.new.capacity ≡ self.old.capacity }
    {
        self.sorted.retain(|serial| lists(serials, *serial));
    }
}
