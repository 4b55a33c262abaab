//! Members in the pool's order, each under a key that it keeps, linked to the members beside it.

ghost use Rattle.std.specs.Prelude.{◌≡◌, ◌+◌, ◌<◌, ◌≤◌, [], ◌∷◌, ◌++◌, Some, None, length, option_copied, false, IsOk, IfOk, OnOk};
ghost use Rattle.std.specs.Option.{option_and_then};
ghost use Rattle.slab.specs.Slab.{get};
ghost use Rattle.sp_pool.specs.InnerLines.{Relinks, end_with, first_key, has_key, member_at, members_in, with_after, with_before, without_key};

use crate::members::Member;
use crate::nodes::Node;
use slab::Slab;
use sp_model::NoMemory;
use std::alloc::Global;
use std::marker::Model;

/// Members in the pool's order, each under a key that it keeps.
#[derive(Drop)]
pub(crate) struct Line {
    nodes: Slab<Node>,
    // The key of the first member.
    first: Option<usize>,
    // The key of the last member.
    last: Option<usize>,
}

impl Model for Line {
    ghost use Rattle.sp_pool.specs.InnerLines.{Row, walk, IsLinked};
    ghost use Rattle.slab.specs.Slab.{slab_len};

    ghost Value = { Row };

    ghost view = { λ line. record { items = walk line.nodes (slab_len line.nodes) line.first; capacity = line.nodes.capacity } };

    ghost invariant = { λ line. IsLinked line.nodes line.first line.last (walk line.nodes (slab_len line.nodes) line.first) };
}

/// Lets the node of this key name another key as the next one.
fn set_after(nodes: &mut Slab<Node>, key: usize, after: Option<usize>)
    ensures { Relinks nodes.old nodes.new (Some key) (with_after after) }
{
    if let Some(node) = nodes.get_mut(key) {
        node.after = after;
    }
}

/// Lets the node of this key name another key as the one before it.
fn set_before(nodes: &mut Slab<Node>, key: usize, before: Option<usize>)
    ensures { Relinks nodes.old nodes.new (Some key) (with_before before) }
{
    if let Some(node) = nodes.get_mut(key) {
        node.before = before;
    }
}

/// Lets the node before a place name the key after it, or makes that key the first one where there is no such node.
fn link_forward(
    nodes: &mut Slab<Node>,
    first: &mut Option<usize>,
    before: Option<usize>,
    after: Option<usize>,
)
    ensures nodes { Relinks nodes.old nodes.new before (with_after after) }
    ensures first { first.new ≡ end_with before after first.old }
{
    match before {
        None => *first = after,
        Some(key) => set_after(nodes, key, after),
    }
}

/// Lets the node after a place name the key before it, or makes that key the last one where there is no such node.
fn link_back(
    nodes: &mut Slab<Node>,
    last: &mut Option<usize>,
    before: Option<usize>,
    after: Option<usize>,
)
    ensures nodes { Relinks nodes.old nodes.new after (with_before before) }
    ensures last { last.new ≡ end_with after before last.old }
{
    match after {
        None => *last = before,
        Some(key) => set_before(nodes, key, before),
    }
}

/// The node under the key, if there is a key.
fn node_at(nodes: &Slab<Node>, key: Option<usize>) -> Option<&Node>
    ensures { option_copied result ≡ option_and_then (get nodes.now) key }
{
    match key {
        Some(key) => nodes.get(key),
        None => None,
    }
}

impl Line {
    /// A line without members, which takes no memory.
    pub(crate) fn new(alloc: Global) -> Line
        ensures items { result.items ≡ [] }
        ensures capacity { result.capacity ≡ 0 }
    {
        Line {
            nodes: Slab::new(alloc),
            first: None,
            last: None,
        }
    }

    /// How many members there are.
    pub(crate) fn len(&self) -> usize
        ensures { result ≡ length self.now.items }
    {
        self.nodes.len()
    }

    /// How many members fit with no more memory.
    pub(crate) fn capacity(&self) -> usize
        ensures { result ≡ self.now.capacity }
    {
        self.nodes.capacity()
    }

    /// The key of the first member.
    pub(crate) fn first(&self) -> Option<usize>
        ensures { result ≡ first_key self.now.items None }
    {
        self.first
    }

    /// The member under the key.
    pub(crate) fn get(&self, key: usize) -> Option<&Member>
        ensures { option_copied result ≡ member_at key self.now.items }
    {
        match self.nodes.get(key) {
            Some(node) => Some(&node.member),
            None => None,
        }
    }

    /// The members in their order.
    pub(crate) fn members(&self, alloc: Global) -> Result<Vec<Member>, NoMemory>
        ensures { IfOk result (λ found. found.items ≡ members_in self.now.items) }
    {
        let mut found = Vec::new(alloc);
        let mut next = self.first;
        for _ in 0..self.nodes.len() {
            if let Some(node) = node_at(&self.nodes, next) {
                found.push(node.member)?;
                next = node.after;
            }
        }
        Ok(found)
    }

    /// Makes room for so many more members. After an error the line is as before.
    pub(crate) fn reserve(&mut self, additional: usize) -> Result<(), NoMemory>
        ensures items { self.new.items ≡ self.old.items }
        ensures room { OnOk result (length self.old.items + additional ≤ self.new.capacity) }
        ensures capacity { self.old.capacity ≤ self.new.capacity }
        ensures succeeds { length self.old.items + additional ≤ self.old.capacity → IsOk result }
    {
        match self.nodes.reserve(additional) {
            Ok(()) => Ok(()),
            Err(_) => Err(NoMemory),
        }
    }

    /// Puts the member at the end, and answers its key. It takes no memory.
    pub(crate) fn push(&mut self, member: &Member) -> usize
        requires { length self.old.items < self.old.capacity }
        ensures items { self.new.items ≡ self.old.items ++ (result, member.now) ∷ [] }
        ensures fresh { has_key result self.old.items ≡ false }
        ensures capacity { self.new.capacity ≡ self.old.capacity }
    {
        let before = self.last;
        let key = self.nodes.insert_reserved(Node {
            member: *member,
            before,
            after: None,
        });
        link_forward(&mut self.nodes, &mut self.first, before, Some(key));
        self.last = Some(key);
        key
    }

    /// Takes the member under the key out, if there is one.
    pub(crate) fn remove(&mut self, key: usize)
        ensures items { self.new.items ≡ without_key key self.old.items }
        ensures capacity { self.new.capacity ≡ self.old.capacity }
    {
        if let Some(node) = self.nodes.try_remove(key) {
            link_forward(&mut self.nodes, &mut self.first, node.before, node.after);
            link_back(&mut self.nodes, &mut self.last, node.before, node.after);
        }
    }
}
