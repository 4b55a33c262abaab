//! Members in the pool's order, with an index by value.

ghost use Rattle.std.specs.Prelude.{◌≡◌, ◌+◌, ◌<◌, ◌≤◌, [], ◌∷◌, ◌++◌, ℕ, length, drop, not, option_copied, IsOk, OnOk, filter, IfOk, vec_capacity, ◌==◌};
ghost use Rattle.std.specs.List.{list_any, prefix_len};
ghost use Rattle.std.specs.List.Sorted.{IsNonDecreasing};
ghost use Rattle.sp_pool.specs.InnerLines.{AreApart, member_at, members_in, without_key};
ghost use Rattle.sp_pool.specs.InnerRanks.{is_lesser, is_up_to, is_held, unless_listed, swept, at_keys, IsParted};
ghost use Rattle.sp_pool.specs.InnerSerials.{IsTally};
ghost use Rattle.sp_pool.specs.Pools.{is_above, within, without_worst, holds, is_listed};

use crate::lines::Line;
use crate::members::Member;
use crate::serials::{Serials, lists};
use sp_model::NoMemory;
use std::alloc::Global;
use std::marker::Model;

/// Members in the pool's order, with an index by value and their serials.
#[derive(Drop)]
pub(crate) struct Ranking {
    line: Line,
    // The keys of the members by value, and those of one value as they arrived.
    by_value: Vec<usize>,
    serials: Serials,
}

impl Model for Ranking {
    ghost use Rattle.std.specs.Prelude.{min, vec_capacity};
    ghost use Rattle.sp_pool.specs.InnerLines.{members_in};
    ghost use Rattle.sp_pool.specs.InnerRanks.{Roll};
    ghost use Rattle.sp_pool.specs.InnerSerials.{IsIndexed};

    ghost Value = { Roll };

    ghost view = { λ r. record { members = members_in r.line.items; storage = min (min r.line.capacity (vec_capacity r.by_value)) r.serials.capacity } };

    ghost invariant = { λ r. IsIndexed r.line r.by_value.items r.serials.items };
}

/// Whether the member under the key has a lesser value.
fn has_lesser(line: &Line, key: usize, value: &i128) -> bool
    ensures { result ≡ is_lesser value.now (member_at key line.now.items) }
{
    match line.get(key) {
        Some(member) => member.value < *value,
        None => false,
    }
}

/// Whether the member under the key has no greater value.
fn has_up_to(line: &Line, key: usize, value: &i128) -> bool
    ensures { result ≡ is_up_to value.now (member_at key line.now.items) }
{
    match line.get(key) {
        Some(member) => member.value <= *value,
        None => false,
    }
}

/// How many members have a lesser value: they are the first in the list by value, which is searched by halves.
fn count_lesser(line: &Line, by_value: &[usize], value: &i128) -> usize
    requires { IsParted (at_keys (is_lesser value.now) line.now.items) by_value.now }
    ensures { result ≡ prefix_len (at_keys (is_lesser value.now) line.now.items) by_value.now }
{
    by_value.partition_point(|key| has_lesser(line, *key, value))
}

/// How many members have no greater value: they are the first in the list by value, which is searched by halves.
fn count_up_to(line: &Line, by_value: &[usize], value: &i128) -> usize
    requires { IsParted (at_keys (is_up_to value.now) line.now.items) by_value.now }
    ensures { result ≡ prefix_len (at_keys (is_up_to value.now) line.now.items) by_value.now }
{
    by_value.partition_point(|key| has_up_to(line, *key, value))
}

/// Takes the member under the key and its serial out, if there is one.
fn take_out(line: &mut Line, serials: &mut Serials, key: usize)
    requires apart { AreApart line.old.items }
    requires tally { IsTally serials.old.items (members_in line.old.items) }
    ensures items { line.new.items ≡ without_key key line.old.items }
    ensures capacity { line.new.capacity ≡ line.old.capacity }
    ensures tally { IsTally serials.new.items (members_in line.new.items) }
    ensures room { serials.new.capacity ≡ serials.old.capacity }
{
    if let Some(member) = line.get(key) {
        serials.remove(member.serial);
        line.remove(key);
    }
}

/// Takes the member under the key out, unless its serial is listed.
fn keep_listed(line: &mut Line, key: usize, serials: &[u32])
    requires sorted { IsNonDecreasing serials.now }
    requires apart { AreApart line.old.items }
    ensures items { line.new.items ≡ unless_listed serials.now key line.old.items }
    ensures capacity { line.new.capacity ≡ line.old.capacity }
{
    if let Some(member) = line.get(key) {
        if !lists(serials, member.serial) {
            line.remove(key);
        }
    }
}

/// Takes the members under the keys out, unless their serials are listed.
fn keep_all_listed(line: &mut Line, keys: &[usize], serials: &[u32])
    requires sorted { IsNonDecreasing serials.now }
    requires apart { AreApart line.old.items }
    ensures items { line.new.items ≡ swept serials.now keys.now line.old.items }
    ensures capacity { line.new.capacity ≡ line.old.capacity }
{
    for key in keys {
        keep_listed(line, *key, serials);
    }
}

/// Whether there is a member under the key.
fn has_member(line: &Line, key: usize) -> bool
    ensures { result ≡ is_held line.now.items key }
{
    match line.get(key) {
        Some(_) => true,
        None => false,
    }
}

/// Leaves the keys out that have no member.
fn keep_held(by_value: &mut Vec<usize>, line: &Line)
    ensures items { by_value.new.items ≡ filter (is_held line.now.items) by_value.old.items }
    ensures capacity { vec_capacity by_value.new ≡ vec_capacity by_value.old }
{
    by_value.retain(|key| has_member(line, *key));
}

impl Ranking {
    /// A ranking without members, which takes no memory.
    pub(crate) fn new(alloc: Global) -> Ranking
        ensures members { result.members ≡ [] }
        ensures storage { result.storage ≡ 0 }
    {
        Ranking {
            line: Line::new(alloc),
            by_value: Vec::new(alloc),
            serials: Serials::new(alloc),
        }
    }

    /// How many members there are.
    pub(crate) fn len(&self) -> usize
        ensures { result ≡ length self.now.members }
    {
        self.line.len()
    }

    /// How many members fit with no more memory.
    pub(crate) fn storage(&self) -> usize
        ensures { result ≡ self.now.storage }
    {
        self.line
            .capacity()
            .min(self.by_value.capacity())
            .min(self.serials.capacity())
    }

    /// Makes room for so many more members. After an error the members are as before.
    pub(crate) fn reserve(&mut self, additional: usize) -> Result<(), NoMemory>
        ensures members { self.new.members ≡ self.old.members }
        ensures room { OnOk result (length self.old.members + additional ≤ self.new.storage) }
        ensures storage { self.old.storage ≤ self.new.storage }
        ensures succeeds { length self.old.members + additional ≤ self.old.storage → IsOk result }
    {
        let (members, keys) = (self.line.len(), self.by_value.as_slice().len());
        prove!(members == keys);
        if self.line.reserve(additional).is_err() {
            return Err(NoMemory);
        }
        if self.by_value.reserve(additional).is_err() {
            return Err(NoMemory);
        }
        if self.serials.make_room(members, additional).is_err() {
            return Err(NoMemory);
        }
        Ok(())
    }

    /// Whether a member has a greater value.
    pub(crate) fn exceeds(&self, value: &i128) -> bool
        ensures { result ≡ list_any (is_above value.now) self.now.members }
    {
        match self.by_value.last() {
            Some(key) => !has_up_to(&self.line, *key, value),
            None => false,
        }
    }

    /// Puts the member at the end. It takes no memory.
    pub(crate) fn append(&mut self, member: &Member)
        requires { length self.old.members < self.old.storage }
        ensures members { self.new.members ≡ self.old.members ++ member.now ∷ [] }
        ensures storage { self.new.storage ≡ self.old.storage }
    {
        let place = count_up_to(&self.line, &self.by_value, &member.value);
        let key = self.line.push(member);
        // There is room, so it succeeds.
        let _ = self.by_value.insert(place, key);
        self.serials.add(member.serial);
    }

    /// Drops the first member, if there is one.
    pub(crate) fn drop_first(&mut self)
        ensures members { self.new.members ≡ drop 1 self.old.members }
        ensures storage { self.new.storage ≡ self.old.storage }
    {
        if let Some(key) = self.line.first() {
            if let Some(member) = self.line.get(key) {
                let place = count_lesser(&self.line, &self.by_value, &member.value);
                self.by_value.remove(place);
                take_out(&mut self.line, &mut self.serials, key);
            }
        }
    }

    /// Drops the member of greatest value, the last one on a tie, if there is one.
    pub(crate) fn drop_worst(&mut self)
        ensures members { self.new.members ≡ without_worst self.old.members }
        ensures storage { self.new.storage ≡ self.old.storage }
    {
        if let Some(key) = self.by_value.pop() {
            take_out(&mut self.line, &mut self.serials, key);
        }
    }

    /// Drops the members whose value is above the cut.
    pub(crate) fn drop_above(&mut self, cut: &i128)
        ensures members { self.new.members ≡ within cut.now self.old.members }
        ensures storage { self.new.storage ≡ self.old.storage }
    {
        while self.exceeds(cut) {
            self.drop_worst();
        }
    }

    /// Whether the serial is a member's.
    pub(crate) fn holds(&self, serial: u32) -> bool
        ensures { result ≡ holds self.now.members serial }
    {
        self.serials.holds(serial)
    }

    /// The members in the pool's order.
    pub(crate) fn members(&self, alloc: Global) -> Result<Vec<Member>, NoMemory>
        ensures { IfOk result (λ found. found.items ≡ self.now.members) }
    {
        self.line.members(alloc)
    }

    /// Drops the members whose serial isn't among these.
    pub(crate) fn retain(&mut self, serials: &[u32])
        requires { IsNonDecreasing serials.now }
        ensures members { self.new.members ≡ filter (is_listed serials.now) self.old.members }
        ensures storage { self.new.storage ≡ self.old.storage }
    {
        keep_all_listed(&mut self.line, &self.by_value, serials);
        keep_held(&mut self.by_value, &self.line);
        self.serials.retain(serials);
    }
}
