//! Hints for a node, before a step works on it: all of them are tested by the step.

ghost use Rattle.std.specs.Prelude.{◌≡◌};
ghost use Rattle.sp_model.specs.declared.parts.ModelParts.{ModelParts};
ghost use Rattle.sp_filter.specs.Held.{FilterList};
ghost use Rattle.sp_tree.specs.Laws.{Extends};
ghost use Rattle.sp_cover.specs.Cover.{AreScreened, IsSearch};
ghost use Rattle.sp_cover.specs.Moves.{KeepsLists, moved_to};
ghost use Rattle.sp_search.specs.Prepared.{IsPrepared};

use crate::closers::aim_of;
use crate::goals::Goal;
use crate::states::State;
use sp_advice::Advice;
use sp_bound::Scratch;
use sp_cover::Search;
use sp_cursor::most_wanted;
use sp_dual::Multipliers;
use sp_model::Model;
use sp_tree::{Keep, NodeId, Tree, extensions_last};
use std::alloc::Global;

/// How many pivots the finder makes for a node at most.
pub const PIVOTS: u32 = 200;

/// The first so many lists.
fn first_lists(lists: &[Multipliers], count: u32) -> &[Multipliers] {
    if count as usize <= lists.len() {
        &lists[..count as usize]
    } else {
        lists
    }
}

/// Looks for hints on the box of a node. Without memory for the box there are none.
fn look(
    alloc: Global,
    model: &Model,
    tree: &Tree,
    stated: u32,
    threshold: &Option<i128>,
    node: NodeId,
    pivots: u32,
    advice: &mut Advice,
    scratch: &mut Scratch,
) {
    if !advice.is_useful() || tree.size() <= node.place() {
        return;
    }
    match tree.box_of(node) {
        Err(_) => {}
        Ok(bounds) => {
            let lists = first_lists(tree.multipliers(), stated);
            advice.look(
                alloc,
                model,
                node.place(),
                &bounds,
                lists,
                threshold,
                pivots,
                scratch,
            );
        }
    }
}

/// Keeps the list that may close the box in the tree's table, where there is room for it.
fn keep_found(search: &mut Search, advice: &mut Advice)
    ensures rest { search.new ≡ moved_to search.old search.new.tree }
    ensures lists { KeepsLists search.old.tree search.new.tree }
    ensures extends { Extends search.old.tree search.new.tree }
    ensures search { (m : ModelParts) → IsSearch m search.old → IsSearch m search.new }
    ensures screened { (fs : FilterList) → AreScreened fs search.old.tree → AreScreened fs search.new.tree }
{
    extensions_last();
    match advice.take_list() {
        None => {}
        Some(list) => match search.keep(list) {
            Ok(Keep::At(place)) => advice.put_place(place),
            Ok(Keep::Full) => {}
            Err(_) => {}
        },
    }
}

/// Looks for hints on the box of a node, with so many pivots of the finder at most. A list that may close the box is
/// kept in the tree's table, where there is room and memory for it. All else of the state stays.
pub fn prepare(state: &mut State, advice: &mut Advice, node: NodeId, goal: &Goal<'_>, pivots: u32)
    ensures { IsPrepared state.old state.new }
{
    let threshold = most_wanted(&aim_of(goal), state.search.best());
    look(
        state.alloc,
        &state.model,
        state.search.tree(),
        state.stated,
        &threshold,
        node,
        pivots,
        advice,
        &mut state.scratch,
    );
    keep_found(&mut state.search, advice);
}
