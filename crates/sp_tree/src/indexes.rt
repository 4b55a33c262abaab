//! Where lists stand, by their fingerprints: chains of places, so that an equal list is found without a look at all of them.

ghost use Rattle.std.specs.Prelude.{◌≡◌, ◌<◌, ◌≤◌, ◌^◌, [], ◌∷◌, ◌++◌, length, map, cond, Contains, pos, int_lt, OnOk, OnErr, IfOk, MatchOption};
ghost use Rattle.sp_tree.specs.Tables.{list_at};
ghost use Rattle.sp_tree.specs.InnerTables.{mixed_with, print_of, AreLinked};

use sp_dual::Multipliers;
use sp_model::{NoMemory, RowId};
use std::alloc::Global;
use std::marker::Model;

/// One more than the greatest fingerprint.
const PRINTS: u64 = 4_294_967_296;

/// How many chains there are at first.
const FIRST_CHAINS: usize = 16;

/// The fingerprints of lists by their places. Contracts see it as the list of them.
#[derive(Drop)]
pub struct Index {
    prints: Vec<u32>,
    // For each place, one more than the one before it in its chain, or 0.
    next: Vec<u32>,
    // For each chain, one more than its last place, or 0. A fingerprint belongs to the chain of its remainder.
    heads: Vec<u32>,
}

impl Model for Index {
    ghost use Rattle.std.specs.Prelude.{List, ℕ};

    ghost Value = { List ℕ };

    ghost use Rattle.sp_tree.specs.InnerTables.{IsIndex};

    ghost view = { λ i. i.prints.items };

    ghost invariant = { λ i. IsIndex i.prints.items i.next.items i.heads.items };
}

/// 1 for a number below 0, else 0.
fn sign_of(value: &i128) -> u64
    ensures { result ≡ cond (int_lt value.now (pos 0)) 1 0 }
{
    if *value < 0 { 1 } else { 0 }
}

/// The fingerprint with an entry mixed in.
fn mixed(print: u64, entry: &(RowId, i128)) -> u64
    requires { print < 2 ^ 32 }
    ensures value { result ≡ mixed_with print entry.now }
    ensures small { result < 2 ^ 32 }
{
    let row = entry.0.index() as u64 % PRINTS;
    let magnitude = (entry.1.unsigned_abs() % 4_294_967_296) as u64;
    (print * 69_069 + row + (2 * magnitude + sign_of(&entry.1))) % PRINTS
}

/// The fingerprint of a list.
pub fn fingerprint(list: &Multipliers) -> u32
    ensures { result ≡ print_of list.now }
{
    let mut print = (list.d.unsigned_abs() % 4_294_967_296) as u64;
    for entry in list.entries() {
        print = mixed(print, entry);
    }
    print as u32
}

/// Puts the places from `from` on into their chains.
fn link(prints: &[u32], next: &mut Vec<u32>, heads: &mut Vec<u32>, from: usize)
    requires some { 0 < length heads.old.items }
    requires long { length next.old.items ≡ length prints.now }
    requires small { length prints.now < 2 ^ 31 }
    requires few { from ≤ length prints.now }
    requires linked { AreLinked prints.now (length heads.old.items) next.old.items heads.old.items from }
    ensures long { length next.new.items ≡ length prints.now }
    ensures same { length heads.new.items ≡ length heads.old.items }
    ensures linked { AreLinked prints.now (length heads.old.items) next.new.items heads.new.items (length prints.now) }
{
    for place in from..prints.len() {
        let chain = prints[place] as usize % heads.len();
        next[place] = heads[chain];
        heads[chain] = place as u32 + 1;
    }
}

/// The place of the list, looked for in the chain of its fingerprint.
fn find_in(
    next: &[u32],
    heads: &[u32],
    print: u32,
    lists: &[Multipliers],
    list: &Multipliers,
) -> Option<u32>
    requires some { 0 < length heads.now }
    requires long { length next.now ≡ length lists.now }
    requires linked { AreLinked (map print_of lists.now) (length heads.now) next.now heads.now (length lists.now) }
    requires print { print ≡ print_of list.now }
    ensures { MatchOption result
        (¬ Contains lists.now list.now)
        (λ place. (place < length lists.now) × (list_at lists.now place ≡ list.now)) }
{
    let mut at = heads[print as usize % heads.len()];
    while at > 0 {
        let place = at - 1;
        if lists[place as usize].is_equal(list) {
            return Some(place);
        }
        at = next[place as usize];
    }
    None
}

impl Index {
    /// No fingerprint.
    pub fn new(alloc: Global) -> Result<Index, NoMemory>
        ensures { IfOk result (λ index. index ≡ []) }
    {
        Ok(Index {
            prints: Vec::new(alloc),
            next: Vec::new(alloc),
            heads: vec![in alloc; 0; FIRST_CHAINS]?,
        })
    }

    /// Puts a fingerprint at the end. After an error they are as before.
    pub fn add(&mut self, print: u32) -> Result<(), NoMemory>
        requires { length self.old < 2 ^ 30 }
        ensures ok { OnOk result (self.new ≡ self.old ++ print ∷ []) }
        ensures err { OnErr result (self.new ≡ self.old) }
    {
        let place = self.prints.len();
        self.prints.reserve(1)?;
        self.next.reserve(1)?;
        if place < self.heads.len() {
            self.prints.push_reserved(print);
            self.next.push_reserved(0);
            link(
                self.prints.as_slice(),
                &mut self.next,
                &mut self.heads,
                place,
            );
        } else {
            let mut heads = vec![in *self.prints.allocator(); 0; 2 * place]?;
            self.prints.push_reserved(print);
            self.next.push_reserved(0);
            link(self.prints.as_slice(), &mut self.next, &mut heads, 0);
            self.heads = heads;
        }
        Ok(())
    }

    /// The place of the list among the lists that have these fingerprints.
    pub fn find(&self, print: u32, lists: &[Multipliers], list: &Multipliers) -> Option<u32>
        requires prints { self.now ≡ map print_of lists.now }
        requires print { print ≡ print_of list.now }
        ensures { MatchOption result
            (¬ Contains lists.now list.now)
            (λ place. (place < length lists.now) × (list_at lists.now place ≡ list.now)) }
    {
        find_in(
            self.next.as_slice(),
            self.heads.as_slice(),
            print,
            lists,
            list,
        )
    }
}
