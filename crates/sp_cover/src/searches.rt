//! A search: its tree, what it found, and its moves, each of which keeps the cover.

ghost use Rattle.std.specs.Prelude.{◌≡◌, ◌↔◌, ◌⊎◌, ◌+◌, ◌<◌, ℕ, true, count_by, length, Ok, Err, IfOk, OnErr, OnOk};
ghost use Rattle.sp_model.specs.declared.parts.ModelParts.{ModelParts};
ghost use Rattle.sp_model.specs.Boxes.{CanSplit, point_count};
ghost use Rattle.sp_model.specs.Rules.{IsLawful};
ghost use Rattle.sp_activity.specs.Order.{IsOpen as IsUnreasoned};
ghost use Rattle.sp_filter.specs.Held.{FilterList};
ghost use Rattle.sp_tree.specs.Laws.{Extends};
ghost use Rattle.sp_tree.specs.Splits.{box_at};
ghost use Rattle.sp_tree.specs.Tables.{IsTooHeavy, Keeps};
ghost use Rattle.sp_tree.specs.Trees.{IsClosing, IsGrown, SplitsNode, is_held, is_reopened};
ghost use Rattle.sp_tree.specs.declared.refusals.SplitRefusal.TheVariants as SplitRefusal;
ghost use Rattle.sp_tree.specs.declared.tables.Keep.TheVariants as Keep;
ghost use Rattle.sp_cover.specs.Cover.{AreScreened, IfScreened, IsEnded, IsOpenAt, IsSearch, IsShut};
ghost use Rattle.sp_cover.specs.Moves.{FitsAim, KeepsLists, MayClose, MayFind, best_after, closed_as, ended, found_as, moved_to, new_search, reopened_tree, settled};
ghost use Rattle.sp_cover.specs.declared.aims.Aim.{Aim as AimOf};

use sp_activity::reasons_are_true;
use sp_bound::bounds_are_sound;
use sp_dual::Multipliers;
use sp_filter::Filters;
use sp_list::Found;
use sp_model::{
    BoxOf, NoMemory, VarId, feasible_is_within, points_are_all_within, points_are_counted,
};
use sp_sums::sums_lie_between;
use sp_tree::{Keep, Kind, NodeId, SplitRefusal, Tree, extensions_last, trees_divide};
use std::alloc::Global;
use std::marker::Model;

/// A search of a model. Contracts see its tree, the points that it found in order, whether phase one has ended, and the least
/// value that it found.
#[derive(Drop)]
pub struct Search {
    tree: Tree,
    found: Vec<Found>,
    proved: bool,
    best: Option<i128>,
}

impl Model for Search {
    ghost use Rattle.sp_cover.specs.Cover.{SearchOf};

    ghost Value = { SearchOf };

    ghost view = { λ s. record { tree = s.tree; found = s.found.items; proved = s.proved; best = s.best } };
}

impl Search {
    /// A search that has not begun: one open leaf with this box, and nothing found.
    pub fn new(alloc: Global, root: BoxOf) -> Result<Search, NoMemory>
        ensures made { IfOk result (λ s. s ≡ new_search root) }
        ensures grown { IfOk result (λ s. IsGrown s.tree) }
    {
        let tree = Tree::new(alloc, root)?;
        Ok(Search {
            tree,
            found: Vec::new(alloc),
            proved: false,
            best: None,
        })
    }

    /// The tree.
    pub fn tree(&self) -> &Tree
        ensures { result.now ≡ self.now.tree }
    {
        &self.tree
    }

    /// What was found, in order. The first one has the serial 1.
    pub fn found(&self) -> &[Found]
        ensures { result.now ≡ self.now.found }
    {
        self.found.as_slice()
    }

    /// Whether phase one has ended.
    pub fn is_proved(&self) -> bool
        ensures { result ≡ self.now.proved }
    {
        self.proved
    }

    /// The least value that was found, in the scaled units of the objective.
    pub fn best(&self) -> &Option<i128>
        ensures { result.now ≡ self.now.best }
    {
        &self.best
    }

    /// Closes an open leaf without a new point: for a reason, by a bound, or by a filter.
    pub fn close(&mut self, id: NodeId, kind: Kind)
        requires known { IsOpenAt self.old.tree.nodes id }
        requires closing { IsClosing self.old.tree.lists (box_at self.old.tree.boxes id) kind }
        ensures closed { self.new ≡ closed_as self.old id kind }
        ensures extends { Extends self.old.tree self.new.tree }
        ensures search { (m : ModelParts) (aim : AimOf) → IsSearch m self.old → FitsAim aim self.old
            → MayClose m self.old aim (box_at self.old.tree.boxes id) kind → IsSearch m self.new }
        ensures screened { (fs : FilterList) → AreScreened fs self.old.tree
            → IfScreened fs (box_at self.old.tree.boxes id) kind → AreScreened fs self.new.tree }
    {
        extensions_last();
        self.tree.close(id, kind);
    }

    /// Splits an open leaf in two. After a refusal the search is as before.
    pub fn split(
        &mut self,
        id: NodeId,
        var: VarId,
        at: &i64,
        node_limit: u32,
    ) -> Result<(NodeId, NodeId), SplitRefusal>
        requires known { IsOpenAt self.old.tree.nodes id }
        requires lawful { CanSplit (box_at self.old.tree.boxes id) var at.now }
        requires filled { 0 < point_count (box_at self.old.tree.boxes id) }
        ensures ok { IfOk result (λ made. SplitsNode self.old.tree self.new.tree id var at.now made.0 made.1) }
        ensures rest { self.new ≡ moved_to self.old self.new.tree }
        ensures limit { (result ≡ Err SplitRefusal.NodeLimit) ↔ (node_limit < length self.old.tree.nodes + 2) }
        ensures err { OnErr result (self.new ≡ self.old) }
        ensures extends { Extends self.old.tree self.new.tree }
        ensures search { (m : ModelParts) → IsSearch m self.old
            → IsUnreasoned m (box_at self.old.tree.boxes id) → IsSearch m self.new }
        ensures screened { (fs : FilterList) → AreScreened fs self.old.tree → AreScreened fs self.new.tree }
    {
        extensions_last();
        self.tree.split(id, var, *at, node_limit)
    }

    /// Finds the one point of an open leaf's box. After an error the search is as before.
    pub fn find(&mut self, id: NodeId, found: Found) -> Result<(), NoMemory>
        requires known { IsOpenAt self.old.tree.nodes id }
        requires one { point_count (box_at self.old.tree.boxes id) ≡ 1 }
        requires fewer { length self.old.found < length self.old.tree.nodes }
        ensures ok { OnOk result (self.new ≡ found_as self.old id found) }
        ensures err { OnErr result (self.new ≡ self.old) }
        ensures extends { Extends self.old.tree self.new.tree }
        ensures search { (m : ModelParts) → IsSearch m self.old
            → MayFind m self.old (box_at self.old.tree.boxes id) found → IsSearch m self.new }
        ensures screened { (fs : FilterList) → AreScreened fs self.old.tree → AreScreened fs self.new.tree }
    {
        extensions_last();
        let _size = self.tree.size();
        let serial = self.found.len() as u32 + 1;
        let best = best_with(self.proved, &self.best, &found.value);
        self.found.push(found)?;
        self.best = best;
        self.tree.close(id, Kind::Point(serial));
        Ok(())
    }

    /// Keeps a list in the tree's table. Where the answer is `Full` or an error, the search is as before.
    pub fn keep(&mut self, list: Multipliers) -> Result<Keep, NoMemory>
        ensures ok { IfOk result (λ kept. Keeps list self.old.tree.lists self.new.tree.lists kept) }
        ensures full { (result ≡ Ok Keep.Full) ↔ IsTooHeavy self.old.tree.lists list }
        ensures rest { self.new ≡ moved_to self.old self.new.tree }
        ensures lists { KeepsLists self.old.tree self.new.tree }
        ensures err { OnErr result (self.new ≡ self.old) }
        ensures extends { Extends self.old.tree self.new.tree }
        ensures search { (m : ModelParts) → IsSearch m self.old → IsSearch m self.new }
        ensures screened { (fs : FilterList) → AreScreened fs self.old.tree → AreScreened fs self.new.tree }
    {
        self.tree.keep(list)
    }

    /// Ends phase one where no leaf is open.
    pub fn settle(&mut self)
        ensures shut { IsShut self.old.tree.nodes → self.new ≡ ended self.old }
        ensures still_open { (i : ℕ) → IsOpenAt self.old.tree.nodes i → self.new ≡ self.old }
        ensures rest { self.new ≡ settled self.old self.new.proved }
        ensures ended { IsEnded self.new }
        ensures phase { self.new.proved ≡ true → (self.old.proved ≡ true) ⊎ IsShut self.old.tree.nodes }
        ensures search { (m : ModelParts) → IsLawful m → IsSearch m self.old → IsSearch m self.new }
    {
        feasible_is_within();
        reasons_are_true();
        sums_lie_between();
        bounds_are_sound();
        trees_divide();
        points_are_all_within();
        points_are_counted();
        match self.tree.open_leaf() {
            Some(_) => {}
            None => self.proved = true,
        }
    }

    /// Opens, after phase one, what the cut and the filters held no longer justify. Answers how many leaves. It takes no memory.
    pub fn reopen(&mut self, cut: i128, filters: &Filters) -> u32
        requires { self.old.proved ≡ true }
        ensures reopened { self.new ≡ moved_to self.old (reopened_tree cut (is_held filters.now) self.old.tree) }
        ensures count { result ≡ count_by (is_reopened cut (is_held filters.now)) self.old.tree.nodes }
        ensures extends { Extends self.old.tree self.new.tree }
        ensures search { (m : ModelParts) → IsSearch m self.old → IsSearch m self.new }
        ensures screened { (fs : FilterList) → AreScreened fs self.old.tree → AreScreened fs self.new.tree }
    {
        extensions_last();
        self.tree.reopen(cut, filters)
    }
}

/// The best after a new point.
fn best_with(proved: bool, best: &Option<i128>, value: &i128) -> Option<i128>
    ensures { result ≡ best_after proved best.now value.now }
{
    if proved { *best } else { Some(*value) }
}
