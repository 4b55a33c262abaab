//! The state of a search: the model, its tree, and what was found.

ghost use Rattle.std.specs.Prelude.{◌≡◌, ◌↔◌, ◌^◌, ◌<◌, [], count_by, length, true, IfOk, IfSome, IsNone, IsSome};
ghost use Rattle.sp_model.specs.Models.{root_of};
ghost use Rattle.sp_filter.specs.Held.{FilterList};
ghost use Rattle.sp_list.specs.declared.found.Found.{Found as FoundOf};
ghost use Rattle.sp_sums.specs.Ranges.{IsFilled};
ghost use Rattle.sp_cover.specs.Cover.{IsBest};
ghost use Rattle.sp_tree.specs.Laws.{Extends};
ghost use Rattle.sp_tree.specs.Trees.{is_held, is_reopened};
ghost use Rattle.sp_cover.specs.Moves.{moved_to, reopened_tree};
ghost use Rattle.sp_search.specs.States.{HasCursor, IsCovered, IsState, first_search, with_search};
ghost use Rattle.sp_search.specs.Runs.{IsFirstBest};

use crate::starting::{begun, stated_count};
use sp_advice::Advice;
use sp_bound::Scratch;
use sp_cover::{Search, found_points_are_few};
use sp_cursor::{Cursor, root_cursor};
use sp_filter::Filters;
use sp_list::Found;
use sp_model::{Model as IntegerModel, NoMemory};
use sp_tree::Tree;
use std::alloc::Global;
use std::marker::Model;

/// A search of a model, with the model. Contracts see the model, the search, and how many stated lists stand first in
/// the tree's table.
#[derive(Drop)]
pub struct State {
    pub(crate) alloc: Global,
    pub(crate) model: IntegerModel,
    pub(crate) search: Search,
    pub(crate) stated: u32,
    pub(crate) scratch: Scratch,
}

impl Model for State {
    ghost use Rattle.sp_search.specs.States.{IsState, StateOf};

    ghost Value = { StateOf };

    ghost view = { λ s. record { model = s.model; search = s.search; stated = s.stated } };

    ghost invariant = { λ s. IsState (record { model = s.model; search = s.search; stated = s.stated }) };
}

impl State {
    /// A search of the model that has not begun: a tree of one open leaf, which is the model's closed box, the
    /// stated lists first in the table, and nothing found.
    pub fn new(alloc: Global, model: IntegerModel) -> Result<State, NoMemory>
        ensures model { IfOk result (λ s. s.model ≡ model) }
        ensures search { IfOk result (λ s. s.search ≡ first_search model) }
        ensures covered { (fs : FilterList) → IfOk result (λ s. IsCovered fs s) }
    {
        let search = begun(alloc, &model)?;
        let stated = stated_count(&model, &search);
        let scratch = Scratch::new(alloc, &model)?;
        let _parts = model.parts();
        Ok(State {
            alloc,
            model,
            search,
            stated,
            scratch,
        })
    }

    /// The model.
    pub fn model(&self) -> &IntegerModel
        ensures model { result.now ≡ self.now.model }
        ensures state { IsState self.now }
    {
        &self.model
    }

    /// The tree.
    pub fn tree(&self) -> &Tree
        ensures tree { result.now ≡ self.now.search.tree }
        ensures state { IsState self.now }
    {
        self.search.tree()
    }

    /// What was found, in order. The first point has the serial 1.
    pub fn found(&self) -> &[Found]
        ensures found { result.now ≡ self.now.search.found }
        ensures state { IsState self.now }
    {
        self.search.found()
    }

    /// Whether phase one has ended, so that the best value is the optimum, or no point is feasible.
    pub fn proved(&self) -> bool
        ensures proved { result ≡ self.now.search.proved }
        ensures state { IsState self.now }
    {
        self.search.is_proved()
    }

    /// How many stated lists the model has: they stand first in the tree's table, in their order.
    pub fn stated(&self) -> u32
        ensures stated { result ≡ self.now.stated }
        ensures state { IsState self.now }
    {
        self.stated
    }

    /// The serial of the first found point of least value, `None` exactly where no point was found.
    pub fn best(&self) -> Option<u32>
        ensures none { IsNone result ↔ (self.now.search.found ≡ []) }
        ensures first { IfSome result (IsFirstBest self.now.search.found) }
    {
        found_points_are_few();
        let _size = self.search.tree().size();
        first_best(self.search.found(), self.search.best())
    }

    /// A cursor at the root of the tree, for a run of steps; none exactly where the closed box has no points. It takes
    /// time and memory that grow with the terms of the model alone.
    pub fn cursor(&self) -> Result<Option<Cursor>, NoMemory>
        ensures some { IfOk result (λ cursor. IsSome cursor ↔ IsFilled (root_of self.now.model)) }
        ensures cursor { IfOk result (λ cursor. HasCursor self.now cursor) }
        ensures state { IsState self.now }
    {
        let _size = self.search.tree().size();
        root_cursor(self.alloc, &self.model)
    }

    /// No hints yet, for a run of steps: without memory for a finder, for a model of one row and for a large one there
    /// are never any.
    pub fn advice(&self) -> Advice {
        Advice::new(self.alloc, &self.model)
    }

    /// Opens, after phase one, what the cut and the filters held no longer justify: the bounded leaves up to the cut,
    /// whose bound becomes their mark, and the screened leaves whose filter isn't held. Answers how many. It takes no
    /// memory.
    pub fn reopen(&mut self, cut: i128, filters: &Filters) -> u32
        requires { self.old.search.proved ≡ true }
        ensures reopened { self.new ≡ with_search self.old
            (moved_to self.old.search (reopened_tree cut (is_held filters.now) self.old.search.tree)) }
        ensures count { result ≡ count_by (is_reopened cut (is_held filters.now)) self.old.search.tree.nodes }
        ensures covered { (fs : FilterList) → IsCovered fs self.old → IsCovered fs self.new }
        ensures state { IsState self.new }
        ensures extends { Extends self.old.search.tree self.new.search.tree }
    {
        self.search.reopen(cut, filters)
    }
}

/// The serial of the first found point of this value, which is the least.
fn first_best(found: &[Found], best: &Option<i128>) -> Option<u32>
    requires few { length found.now < 2 ^ 32 }
    requires best { IsBest found.now best.now }
    ensures none { IsNone result ↔ (found.now ≡ []) }
    ensures first { IfSome result (IsFirstBest found.now) }
{
    match best {
        None => None,
        Some(value) => {
            for place in 0..found.len() {
                if found[place].value == *value {
                    return Some(place as u32 + 1);
                }
            }
            None
        }
    }
}
