//! All points within the cut that pass the filters.

ghost use Rattle.std.specs.Prelude.{◌≡◌, ◌≢◌, ◌↔◌, ◌≤◌, ◌+◌, ◌≤ℤ◌, length, true, Ok, IfOk, IfSome, OnOk};
ghost use Rattle.sp_model.specs.Boxes.{point_count, room};
ghost use Rattle.sp_model.specs.Models.{root_of};
ghost use Rattle.sp_tree.specs.Trees.{is_held};
ghost use Rattle.sp_search.specs.Runs.{KeepsShut};
ghost use Rattle.sp_search.specs.States.{AreFit, HasCursor, IsCovered, IsState};
ghost use Rattle.sp_populate.specs.Complete.{CanRun, IsCompleteFor, cut_under};
ghost use Rattle.sp_populate.specs.Ends.{IsPopulateFull, IsPopulated, KeepsLicensed, PopEnds, SparesLicensed};
ghost use Rattle.sp_populate.specs.InnerEnds.{AreSettled, CollectEnds, IsLater, found_by};
ghost use Rattle.sp_populate.specs.declared.populating.PopEnd.TheVariants as PopEnd;

use crate::cuts::present_cut;
use crate::leaves::next_leaf;
use sp_advice::Advice;
use sp_cover::found_points_are_few;
use sp_cursor::{Cursor, cursors_last};
use sp_filter::Filters;
use sp_model::{Gaps, NoMemory, split_divides_count};
use sp_search::{
    Goal, PIVOTS, State, Stepped, optimize, prepare, searches_are_small, step, steps_fall,
};
use sp_tree::{NodeId, extensions_last, reopening_spares_licensed};

/// How a run that collects ended.
#[derive(Clone, Copy, PartialEq, Eq, Debug)]
pub enum PopEnd {
    /// The tree is complete for the cut and the filters: every listed point was found.
    Done,
    /// The node limit leaves no room for two more nodes, and an open leaf remains that nothing closes.
    NodeLimit,
    /// So many points were found in phase two of this call, and an open leaf remains.
    PopulateLimit,
}

/// Takes open leaves until none is left, or so many points were found.
fn take_leaves(
    state: &mut State,
    cursor: &mut Option<Cursor>,
    advice: &mut Advice,
    cut: &i128,
    filters: &Filters,
    node_limit: u32,
    found_limit: u32,
) -> Result<PopEnd, NoMemory>
    requires proved { state.old.search.proved ≡ true }
    requires above { IfSome state.old.search.best (λ best. best ≤ℤ cut.now) }
    requires fit { AreFit state.old.model filters.now }
    requires settled { AreSettled cut.now (is_held filters.now) state.old.search.tree.nodes }
    requires cursor { HasCursor state.old cursor.old }
    ensures ends { IfOk result (λ end. CollectEnds state.old state.new cut.now filters.now node_limit found_limit end) }
    ensures run { IsLater state.old state.new cut.now filters.now node_limit }
    ensures settled { AreSettled cut.now (is_held filters.now) state.new.search.tree.nodes }
    ensures touched { KeepsShut state.old.search.tree.nodes state.new.search.tree.nodes }
    ensures covered { IsCovered filters.now state.old → IsCovered filters.now state.new }
    ensures state { IsState state.new }
{
    extensions_last();
    steps_fall();
    cursors_last();
    let _phase = state.proved();
    let mut left = found_limit;
    let mut last = NodeId::new(0);
    while let Some(node) = next_leaf(state.tree(), last) {
        if left == 0 {
            let _size = state.tree().size();
            return Ok(PopEnd::PopulateLimit);
        }
        let goal = Goal::Collect { cut: *cut, filters };
        prepare(state, advice, node, &goal, PIVOTS);
        let hints = advice.hints(node.place());
        let stepped = step(state, cursor, &hints, node, &goal, node_limit)?;
        if stepped.is_full() {
            return Ok(PopEnd::NodeLimit);
        }
        left -= found_by(&stepped);
        last = node;
    }
    Ok(PopEnd::Done)
}

/// The same with a cursor and hints of its own, which take no time that grows with the tree.
pub fn work_off(
    state: &mut State,
    cut: &i128,
    filters: &Filters,
    node_limit: u32,
    found_limit: u32,
) -> Result<PopEnd, NoMemory>
    requires proved { state.old.search.proved ≡ true }
    requires above { IfSome state.old.search.best (λ best. best ≤ℤ cut.now) }
    requires fit { AreFit state.old.model filters.now }
    requires settled { AreSettled cut.now (is_held filters.now) state.old.search.tree.nodes }
    ensures ends { IfOk result (λ end. CollectEnds state.old state.new cut.now filters.now node_limit found_limit end) }
    ensures run { IsLater state.old state.new cut.now filters.now node_limit }
    ensures settled { AreSettled cut.now (is_held filters.now) state.new.search.tree.nodes }
    ensures touched { KeepsShut state.old.search.tree.nodes state.new.search.tree.nodes }
    ensures covered { IsCovered filters.now state.old → IsCovered filters.now state.new }
    ensures state { IsState state.new }
{
    extensions_last();
    let mut cursor = state.cursor()?;
    let mut advice = state.advice();
    take_leaves(
        state,
        &mut cursor,
        &mut advice,
        cut,
        filters,
        node_limit,
        found_limit,
    )
}

/// How many points a step found.
fn found_by(stepped: &Stepped) -> u32
    ensures found { result ≡ found_by stepped.now }
    ensures few { result ≤ 1 }
{
    match stepped {
        Stepped::Found(_) => 1,
        _ => 0,
    }
}

/// Opens what the present cut and the filters held no longer justify, and takes open leaves until none is left, or so
/// many points were found.
fn collect(
    state: &mut State,
    gaps: &Gaps,
    filters: &Filters,
    node_limit: u32,
    found_limit: u32,
) -> Result<PopEnd, NoMemory>
    requires can { CanRun gaps.now filters.now state.old }
    requires proved { state.old.search.proved ≡ true }
    ensures ends { IfOk result (λ end.
        CollectEnds state.old state.new (cut_under gaps.now state.old) filters.now node_limit found_limit end) }
    ensures run { IsLater state.old state.new (cut_under gaps.now state.old) filters.now node_limit }
    ensures settled { AreSettled (cut_under gaps.now state.old) (is_held filters.now) state.new.search.tree.nodes }
    ensures kept { KeepsLicensed (cut_under gaps.now state.old) (is_held filters.now)
        state.old.search.tree.nodes state.new.search.tree.nodes }
    ensures covered { IsCovered filters.now state.new }
    ensures state { IsState state.new }
{
    extensions_last();
    reopening_spares_licensed();
    let cut = present_cut(state, gaps);
    state.reopen(cut, filters);
    work_off(state, &cut, filters, node_limit, found_limit)
}

/// Finds all points that pass the filters and aren't above the cut of the optimum under the gaps. It ends phase one if
/// that hasn't ended, opens what the present cut and filters no longer justify, and collects. After an error the state
/// is that of the last whole step.
pub fn populate(
    state: &mut State,
    gaps: &Gaps,
    filters: &Filters,
    node_limit: u32,
    found_limit: u32,
) -> Result<PopEnd, NoMemory>
    requires can { CanRun gaps.now filters.now state.old }
    requires some { 1 ≤ found_limit }

    // The answer: Done exactly with a complete tree, the populate limit exactly where so many points were found and a
    // leaf is open, and the node limit only where nothing closes an open leaf and there is no room.
    ensures ends { IfOk result (λ end.
        PopEnds state.old state.new gaps.now filters.now node_limit found_limit end) }
    ensures complete { IfOk result (λ end. (end ≡ PopEnd.Done) ↔ IsCompleteFor gaps.now filters.now state.new) }
    ensures full { IfOk result (λ end. (end ≡ PopEnd.PopulateLimit) ↔ IsPopulateFull state.old state.new found_limit) }
    ensures roomy { room (point_count (root_of state.old.model)) ≤ node_limit → result ≢ Ok PopEnd.NodeLimit }
    ensures plenty { room (point_count (root_of state.old.model)) ≤ found_limit → result ≢ Ok PopEnd.PopulateLimit }
    ensures endless { found_limit ≡ 4294967295 → result ≢ Ok PopEnd.PopulateLimit }

    // What it leaves, after an error too.
    ensures run { IsPopulated state.old state.new gaps.now filters.now node_limit }
    ensures kept { state.new.search.proved ≡ true → OnOk result
        (KeepsLicensed (cut_under gaps.now state.new) (is_held filters.now) state.old.search.tree.nodes state.new.search.tree.nodes) }
    ensures spared { SparesLicensed (cut_under gaps.now state.new) (is_held filters.now)
        state.old.search.tree.nodes state.new.search.tree.nodes }
    ensures covered { IsCovered filters.now state.new }
    ensures state { IsState state.new }
{
    extensions_last();
    split_divides_count();
    found_points_are_few();
    searches_are_small();
    let _phase = state.proved();
    optimize(state, node_limit)?;
    if !state.proved() {
        return Ok(PopEnd::NodeLimit);
    }
    collect(state, gaps, filters, node_limit, found_limit)
}
