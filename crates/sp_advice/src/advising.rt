//! Hints on the box of a node: a list that may close it, and where it may be split.

use crate::places::{dear_place, forced_place, fractional_place, is_lower};
use crate::recording::found_over;
use crate::records::{Record, forget, is_held, last_of, room_of};
use crate::testing::looks_open;
use sp_bound::Scratch;
use sp_dual::Multipliers;
use sp_model::{BoxOf, Model, VarId};
use sp_simplex::Finder;
use std::alloc::Global;

/// How many searches for multipliers there are in any case.
const FIRST_CALLS: u32 = 100;

/// How many more there are for each that closed a box.
const MORE_CALLS: u32 = 4;

/// Hints on one box.
#[derive(Clone, Copy)]
pub struct Hints {
    /// The place in the table of a list that may close it.
    pub closing: Option<u32>,
    /// A place one of whose sides that list, or the one that was found last, may close.
    pub forced: Option<(VarId, i64)>,
    /// A place by the point that was found.
    pub wanted: Option<(VarId, i64)>,
}

/// No hints.
pub const NO_HINTS: Hints = Hints {
    closing: None,
    forced: None,
    wanted: None,
};

/// What was found over the boxes around the one in hand, and hints on that one. A hint may be wrong.
#[derive(Drop)]
pub struct Advice {
    finder: Option<Finder>,
    records: Vec<Record>,
    calls: u32,
    closed: u32,
    closes: bool,
    node: u32,
    hints: Hints,
}

/// A finder for the model, where its lists can tell more than those of single rows do and it isn't too large.
fn finder_for(alloc: Global, model: &Model) -> Option<Finder> {
    if model.parts().rows.len() < 2 {
        return None;
    }
    match Finder::new(alloc, model) {
        Err(_) => None,
        Ok(finder) => {
            if finder.has_room() {
                Some(finder)
            } else {
                None
            }
        }
    }
}

impl Advice {
    /// No hints yet. Without memory for a finder there are never any.
    pub fn new(alloc: Global, model: &Model) -> Advice {
        Advice {
            finder: finder_for(alloc, model),
            records: Vec::new(alloc),
            calls: 0,
            closed: 0,
            closes: false,
            node: 0,
            hints: NO_HINTS,
        }
    }

    /// Whether there may be hints at all.
    pub fn is_useful(&self) -> bool {
        self.finder.is_some()
    }

    /// Makes up the hints on the box of a node. A bound above the threshold closes a box; the lists are those that are
    /// asked without hints. A search takes so many pivots at most, and with 0 there is none.
    pub fn look(
        &mut self,
        alloc: Global,
        model: &Model,
        node: u32,
        bounds: &BoxOf,
        lists: &[Multipliers],
        threshold: &Option<i128>,
        pivots: u32,
        scratch: &mut Scratch,
    ) {
        self.node = node;
        self.hints = NO_HINTS;
        forget(&mut self.records, bounds);
        self.closes = self.does_close(bounds, threshold);
        if !self.closes
            && 0 < pivots
            && self.is_wanting(bounds, threshold)
            && looks_open(model, bounds, lists, threshold, scratch)
        {
            self.seek(alloc, model, bounds, threshold, pivots);
        }
        self.point_out(bounds, threshold);
    }

    /// Whether the last list closes the box.
    fn does_close(&self, bounds: &BoxOf, threshold: &Option<i128>) -> bool {
        match self.room(bounds, threshold) {
            None => false,
            Some(room) => room < 0,
        }
    }

    /// By how much the last list's number may rise until the list closes the box.
    fn room(&self, bounds: &BoxOf, threshold: &Option<i128>) -> Option<i128> {
        match last_of(self.records.as_slice()) {
            None => None,
            Some(record) => match threshold {
                None => None,
                Some(threshold) => room_of(record, bounds, threshold),
            },
        }
    }

    /// Whether a search may find more than what there is.
    fn is_wanting(&self, bounds: &BoxOf, threshold: &Option<i128>) -> bool {
        if FIRST_CALLS.saturating_add(self.closed.saturating_mul(MORE_CALLS)) <= self.calls {
            return false;
        }
        match last_of(self.records.as_slice()) {
            None => true,
            Some(record) => {
                !(record.is_unmet && threshold.is_none())
                    && !is_held(record.point.as_slice(), bounds)
            }
        }
    }

    /// Searches for multipliers and a point.
    fn seek(
        &mut self,
        alloc: Global,
        model: &Model,
        bounds: &BoxOf,
        threshold: &Option<i128>,
        pivots: u32,
    ) {
        self.calls = self.calls.saturating_add(1);
        let found = match &mut self.finder {
            None => None,
            Some(finder) => found_over(alloc, model, bounds, threshold, pivots, finder),
        };
        match found {
            None => {}
            Some(record) => {
                let _ = self.records.push(record);
                self.closes = self.does_close(bounds, threshold);
                if self.closes {
                    self.closed = self.closed.saturating_add(1);
                }
            }
        }
    }

    /// Finds where the box may be split.
    fn point_out(&mut self, bounds: &BoxOf, threshold: &Option<i128>) {
        let room = self.room(bounds, threshold);
        match last_of(self.records.as_slice()) {
            None => {}
            Some(record) => {
                self.hints.closing = if self.closes { record.place } else { None };
                self.hints.forced = match &room {
                    None => None,
                    Some(room) => forced_place(record.costs.as_slice(), bounds, room),
                };
                self.hints.wanted = wanted_place(record, bounds);
            }
        }
    }

    /// The list that is to close the box, the first time that it is asked for.
    pub fn take_list(&mut self) -> Option<Multipliers> {
        let count = self.records.len();
        if self.closes && 0 < count {
            self.records[count - 1].list.take()
        } else {
            None
        }
    }

    /// Says at which place of a table the list stands that was taken last.
    pub fn put_place(&mut self, place: u32) {
        let count = self.records.len();
        if 0 < count {
            self.records[count - 1].place = Some(place);
            self.hints.closing = Some(place);
        }
    }

    /// The hints on the box of a node: none, where the last box was another one's.
    pub fn hints(&self, node: u32) -> Hints {
        if node == self.node {
            self.hints
        } else {
            NO_HINTS
        }
    }

    /// Whether the lower part of a node's split comes first, where the point says so.
    pub fn is_lower_first(&self, node: u32, var: VarId, at: &i64) -> Option<bool> {
        if node != self.node {
            return None;
        }
        match last_of(self.records.as_slice()) {
            None => None,
            Some(record) => is_lower(record.point.as_slice(), var, at),
        }
    }

    /// Whether about no point of a node's box satisfies the rows.
    pub fn is_unmet(&self, node: u32) -> bool {
        if node != self.node {
            return false;
        }
        match last_of(self.records.as_slice()) {
            None => false,
            Some(record) => record.is_unmet,
        }
    }
}

/// The place of the point that is furthest from a whole number, else the dearest one.
fn wanted_place(record: &Record, bounds: &BoxOf) -> Option<(VarId, i64)> {
    let point = record.point.as_slice();
    if !is_held(point, bounds) {
        return None;
    }
    match fractional_place(point, bounds) {
        Some(place) => Some(place),
        None => dear_place(record.costs.as_slice(), point, bounds),
    }
}
