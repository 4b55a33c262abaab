//! The filters that are held, in order of adding.

ghost use Rattle.std.specs.Prelude.{◌≡◌, ◌↔◌, ◌+◌, ◌<◌, [], ◌∷◌, ◌++◌, ℕ, List, ◌==◌, false, not, filter, length, position, option_copied, None, Some, All, IsTrue, IfOk, IfErr, IfSome, IsSomeAnd, MatchOption, IsOkUnless, OnOk, OnErr};
ghost use Rattle.std.specs.List.{list_all};
ghost use Rattle.std.specs.Str.{bytes_eq};
ghost use Rattle.sp_filter.specs.Filters.{IsNarrow, Fits, box_at, is_passed};
ghost use Rattle.sp_filter.specs.Lowering.{AreDraftKnown, AreDraftWeightsLawful, lowered};
ghost use Rattle.sp_filter.specs.Held.{most_filters, last_id, IsOrderly, HasRoom, CanAdd, IsNarrowDraft, IsFirstRefusal, Passes, Closes, filter_of, id_of, is_taken, with_filter, without_filter};

use crate::drafting::FilterDraft;
use crate::ids::FilterId;
use crate::kinds::Filter;
use crate::lowering::{has_lawful_weights, is_narrow, lowered, places_of};
use crate::refusals::{FilterRefusal, NoFilter};
use sp_base::Text;
use sp_model::{BoxOf, Model as IntegerModel, NoMemory, Point};
use std::alloc::Global;
use std::marker::Model;

/// A filter with its id and its name.
#[derive(Debug, Drop)]
pub struct Held {
    /// Its id.
    pub id: FilterId,
    /// Its name, which no other held filter has.
    pub name: Text,
    /// The filter.
    pub filter: Filter,
}

/// The filters that are held, in order of adding, at most 64 of them. Contracts see their list and the next id.
#[derive(Drop)]
pub struct Filters {
    alloc: Global,
    held: Vec<Held>,
    next: u32,
}

impl Model for Filters {
    ghost use Rattle.sp_filter.specs.Held.{FilterList, IsOrderly};

    ghost Value = { FilterList };

    ghost view = { λ f. record { held = f.held.items; next = f.next } };

    ghost invariant = { λ f. IsOrderly (record { held = f.held.items; next = f.next }) };
}

/// The most filters that are held at once.
const MOST_FILTERS: usize = 64;

/// The id that no filter gets.
const LAST_ID: u32 = u32::MAX;

/// The place of the filter of this id.
fn place_of(held: &[Held], id: FilterId) -> Option<usize>
    ensures { result ≡ position (λ h. h.id == id) held.now }
{
    held.iter().position(|held| held.id == id)
}

/// The filter of this id.
fn filter_of(held: &[Held], id: FilterId) -> Option<&Filter>
    ensures { option_copied result ≡ filter_of held.now id }
{
    for entry in held {
        if entry.id == id {
            return Some(&entry.filter);
        }
    }
    None
}

/// Whether the filter has this name.
fn has_name(held: &Held, name: &[u8]) -> bool
    ensures { result ≡ bytes_eq held.now.name name.now }
{
    held.name.as_slice() == name
}

/// The id of the filter of this name.
fn id_of(held: &[Held], name: &[u8]) -> Option<FilterId>
    ensures { result ≡ id_of held.now name.now }
{
    for entry in held {
        if has_name(entry, name) {
            return Some(entry.id);
        }
    }
    None
}

/// Whether a filter has this name.
fn is_taken(held: &[Held], name: &[u8]) -> bool
    ensures { result ≡ is_taken held.now name.now }
{
    held.iter().any(|entry| has_name(entry, name))
}

/// Leaves out the filters of this name.
fn drop_named(held: &mut Vec<Held>, name: &[u8])
    ensures { held.new.items ≡ filter (λ h. not (bytes_eq h.name name.now)) held.old.items }
{
    held.retain(|entry| !has_name(entry, name));
}

/// Whether the point passes each filter.
fn are_all_passed(held: &[Held], x: &Point) -> bool
    requires { All (λ h. IsNarrow h.filter (box_at x.now)) held.now }
    ensures { result ≡ list_all (λ h. is_passed h.filter x.now) held.now }
{
    for entry in held {
        if !entry.filter.passes(x) {
            return false;
        }
    }
    true
}

/// Whether the point passes each filter.
fn are_passed(held: &[Held], x: &Point) -> bool
    requires { All (λ h. IsNarrow h.filter (box_at x.now)) held.now }
    ensures { IsTrue result ↔ Passes held.now x.now }
{
    are_all_passed(held, x)
}

/// Whether one more filter may be held, and an id is left.
fn has_room(held: usize, next: u32) -> bool
    ensures { IsTrue result ↔ ((held < most_filters) × (next < last_id)) }
{
    held < MOST_FILTERS && next < LAST_ID
}

/// The filter that the draft becomes.
fn filter_from(alloc: Global, model: &IntegerModel, draft: &FilterDraft) -> Result<Filter, NoMemory>
    requires known { AreDraftKnown draft.now (length model.now.lower) }
    requires weights { AreDraftWeightsLawful draft.now }
    requires narrow { IsNarrowDraft model.now draft.now }
    ensures lowered { IfOk result (λ filter. filter ≡ lowered draft.now) }
    ensures fits { Fits model.now (lowered draft.now) }
{
    lowered(alloc, draft, places_of(draft))
}

impl Filters {
    /// No filter. It takes no memory.
    pub fn new(alloc: Global) -> Filters
        ensures held { result.held ≡ [] }
        ensures next { result.next ≡ 0 }
    {
        Filters {
            alloc,
            held: Vec::new(alloc),
            next: 0,
        }
    }

    /// The held filters in order of adding.
    pub fn held(&self) -> &[Held]
        ensures same { result.now ≡ self.now.held }
        ensures orderly { IsOrderly self.now }
    {
        self.held.as_slice()
    }

    /// The place of the filter among the held ones, from 0, `None` exactly where it isn't held.
    pub fn place(&self, id: FilterId) -> Option<u32>
        ensures { result ≡ position (λ h. h.id == id) self.now.held }
    {
        match place_of(&self.held, id) {
            Some(place) => Some(place as u32),
            None => None,
        }
    }

    /// Whether the point passes each held filter.
    pub fn passes(&self, x: &Point) -> bool
        requires { All (λ h. IsNarrow h.filter (box_at x.now)) self.now.held }
        ensures { IsTrue result ↔ Passes self.now.held x.now }
    {
        are_passed(&self.held, x)
    }

    /// Whether the held filter closes the box: the greatest values that its terms have there add up to less than the least
    /// allowed sum, or the least ones to more than the greatest allowed sum.
    pub fn closed(&self, id: FilterId, b: &BoxOf) -> bool
        requires { IsSomeAnd (filter_of self.now.held id) (λ f. IsNarrow f b.now) }
        ensures { IfSome (filter_of self.now.held id) (λ f. Closes f b.now result) }
    {
        match filter_of(&self.held, id) {
            Some(filter) => filter.closed(b),
            None => false,
        }
    }

    /// Whether one more filter may be held, and an id is left.
    fn has_room(&self) -> bool
        ensures { IsTrue result ↔ HasRoom self.now }
    {
        has_room(self.held.len(), self.next)
    }

    /// Why the draft can't be added under this name, if it can't.
    fn refusal(
        &self,
        model: &IntegerModel,
        name: &[u8],
        draft: &FilterDraft,
    ) -> Option<FilterRefusal>
        requires { AreDraftKnown draft.now (length model.now.lower) }
        ensures { MatchOption result (CanAdd self.now model.now name.now draft.now) (IsFirstRefusal self.now model.now name.now draft.now) }
    {
        if is_taken(&self.held, name) {
            Some(FilterRefusal::NameTaken)
        } else if !self.has_room() {
            Some(FilterRefusal::TooMany)
        } else if !has_lawful_weights(draft) {
            Some(FilterRefusal::NegativeWeight)
        } else if !is_narrow(model, draft, places_of(draft)) {
            Some(FilterRefusal::Wide)
        } else {
            None
        }
    }

    /// Puts the filter at the end. After an error the filters are as before.
    fn put(&mut self, name: Text, filter: Filter) -> Result<FilterId, NoMemory>
        requires room { HasRoom self.old }
        requires free { is_taken self.old.held name ≡ false }
        ensures held { OnOk result (self.new.held ≡ self.old.held ++ record { id = self.old.next; name = name; filter = filter } ∷ []) }
        ensures next { OnOk result (self.new.next ≡ self.old.next + 1) }
        ensures id { IfOk result (λ id. id ≡ self.old.next) }
        ensures err { OnErr result (self.new ≡ self.old) }
    {
        let id = FilterId::new(self.next);
        match self.held.push(Held { id, name, filter }) {
            Ok(()) => {
                self.next += 1;
                Ok(id)
            }
            Err(_) => Err(NoMemory),
        }
    }

    /// Adds the filter that the draft becomes, in whole numbers, under the next id.
    ///
    /// # Errors
    ///
    /// In this order, exactly: [`FilterRefusal::NameTaken`] where a held filter has the name; [`FilterRefusal::TooMany`] where
    /// 64 are held or the next id is 2^32 - 1; [`FilterRefusal::NegativeWeight`] where a diversity weight is negative;
    /// [`FilterRefusal::Wide`] where the width is above 10^36. [`FilterRefusal::NoMemory`] comes only where nothing of this
    /// does, since memory is taken last. The filters are then as before.
    pub fn add(
        &mut self,
        model: &IntegerModel,
        name: Text,
        draft: FilterDraft,
    ) -> Result<FilterId, FilterRefusal>
        requires { AreDraftKnown draft (length model.now.lower) }

        // The filter stands behind the others, under the next id, and fits the model.
        ensures held { OnOk result (self.new ≡ with_filter self.old name draft) }
        ensures id { IfOk result (λ id. id ≡ self.old.next) }
        ensures fits { OnOk result (Fits model.now (lowered draft)) }

        // It is added exactly where nothing forbids it, and the refusal is the first thing that does.
        ensures ok { OnOk result (CanAdd self.old model.now name draft) }
        ensures refused { IfErr result (IsFirstRefusal self.old model.now name draft) }
        ensures accepted { CanAdd self.old model.now name draft → IsOkUnless result FilterRefusal.NoMemory }
        ensures err { OnErr result (self.new ≡ self.old) }
    {
        match self.refusal(model, name.as_slice(), &draft) {
            Some(why) => Err(why),
            None => match filter_from(self.alloc, model, &draft) {
                Err(NoMemory) => Err(FilterRefusal::NoMemory),
                Ok(filter) => match self.put(name, filter) {
                    Err(NoMemory) => Err(FilterRefusal::NoMemory),
                    Ok(id) => Ok(id),
                },
            },
        }
    }

    /// Leaves out the filter of this name, and answers its id, which is never used again. It takes no memory.
    ///
    /// # Errors
    ///
    /// [`NoFilter`] exactly where no held filter has the name. The filters are then as before.
    pub fn remove(&mut self, name: &Text) -> Result<FilterId, NoFilter>
        ensures held { IfOk result (λ id. id_of self.old.held name.now ≡ Some id) }
        ensures ok { OnOk result (self.new ≡ without_filter self.old name.now) }
        ensures missing { OnErr result (id_of self.old.held name.now ≡ None) }
        ensures err { OnErr result (self.new ≡ self.old) }
    {
        match id_of(&self.held, name.as_slice()) {
            None => Err(NoFilter),
            Some(id) => {
                drop_named(&mut self.held, name.as_slice());
                Ok(id)
            }
        }
    }
}
