//! The first points of the list.

ghost use Rattle.std.specs.Prelude.{◌≡◌, ◌≢◌, ◌≤◌, ◌≤ℤ◌, ℤ, true, Ok, IfOk, IfSome};
ghost use Rattle.sp_model.specs.Boxes.{point_count, room};
ghost use Rattle.sp_model.specs.Models.{root_of};
ghost use Rattle.sp_tree.specs.Trees.{is_held};
ghost use Rattle.sp_search.specs.Runs.{KeepsShut};
ghost use Rattle.sp_search.specs.States.{AreFit, IsCovered, IsState};
ghost use Rattle.sp_populate.specs.Best.{NBestEnds};
ghost use Rattle.sp_populate.specs.Complete.{CanRun, cut_under};
ghost use Rattle.sp_populate.specs.Ends.{IsPopulated, SparesLicensed};
ghost use Rattle.sp_populate.specs.InnerBest.{IsCutFor, IsFirstOf, IsGathered, IsLowered, RoundsEnd};
ghost use Rattle.sp_populate.specs.InnerEnds.{AreSettled, IsLater};
ghost use Rattle.sp_populate.specs.declared.best.NBestEnd.TheVariants as NBestEnd;

use crate::cuts::{best_value, present_cut};
use crate::listing::{count_within, sorted_within};
use crate::populating::{PopEnd, work_off};
use sp_cover::{covered_searches_find_all, found_points_are_few};
use sp_filter::Filters;
use sp_list::{Found, list_is_list_of};
use sp_model::{Gaps, NoMemory, split_divides_count};
use sp_search::{State, optimize};
use sp_tree::{Kind, NodeId, Tree, extensions_last, reopening_spares_licensed};
use std::alloc::{AllocError, Global};

/// How a run for the first points of the list ended.
#[derive(Debug, Drop)]
pub enum NBestEnd {
    /// The serials of the first points of the list, in its order.
    Done(Vec<u32>),
    /// The node limit leaves no room for two more nodes, and an open leaf remains that nothing closes.
    NodeLimit,
}

/// So many times a cut rises at most: twice as far each time passes all values there are.
const ROUNDS: u32 = 128;

/// The value of the k-th of the serials, none where there are fewer.
fn value_at(found: &[Found], serials: &[u32], k: u32) -> Option<i128> {
    if k == 0 || serials.len() < k as usize {
        return None;
    }
    let place = serials[k as usize - 1] as usize;
    if place == 0 || place > found.len() {
        return None;
    }
    Some(found[place - 1].value)
}

/// Whether the value may be the cut in place of this one.
fn is_lower(state: &State, k: u32, cut: &i128, filters: &Filters, value: &i128) -> bool
    requires { AreFit state.now.model filters.now }
    ensures { result ≡ true → IsLowered state.now.search.found state.now.search.best filters.now k cut.now value.now }
{
    if *value > *cut {
        return false;
    }
    match best_value(state) {
        None => false,
        Some(best) => {
            if *value < best {
                return false;
            }
            count_within(state, value, filters) >= k as usize
        }
    }
}

/// A cut that isn't above this one, nor below the least value found, and up to which there are k points to list if it
/// is less.
fn lowered(
    alloc: Global,
    state: &State,
    k: u32,
    cut: &i128,
    filters: &Filters,
) -> Result<i128, AllocError>
    requires { AreFit state.now.model filters.now }
    ensures { IfOk result (λ new. IsLowered state.now.search.found state.now.search.best filters.now k cut.now new) }
{
    let serials = sorted_within(alloc, state, cut, filters)?;
    match value_at(state.found(), serials.as_slice(), k) {
        None => Ok(*cut),
        Some(value) => {
            if is_lower(state, k, cut, filters, &value) {
                Ok(value)
            } else {
                Ok(*cut)
            }
        }
    }
}

/// The serials of the first k points to list up to the cut.
fn first_serials(
    alloc: Global,
    state: &State,
    k: u32,
    cut: &i128,
    filters: &Filters,
) -> Result<Vec<u32>, AllocError>
    requires { AreFit state.now.model filters.now }
    ensures { IfOk result (λ serials. IsFirstOf state.now.search.found cut.now filters.now k serials.items) }
{
    let mut serials = sorted_within(alloc, state, cut, filters)?;
    serials.truncate(k as usize);
    Ok(serials)
}

/// Collects up to the cut, and, wherever so many points were found, goes on with a cut that falls to the value of the
/// k-th, and twice as many.
fn rounds(
    alloc: Global,
    state: &mut State,
    k: u32,
    size: u32,
    cut: &i128,
    filters: &Filters,
    node_limit: u32,
) -> Result<NBestEnd, NoMemory>
    requires some { 1 ≤ size }
    requires proved { state.old.search.proved ≡ true }
    requires above { IfSome state.old.search.best (λ best. best ≤ℤ cut.now) }
    requires fit { AreFit state.old.model filters.now }
    requires settled { AreSettled cut.now (is_held filters.now) state.old.search.tree.nodes }
    ensures ends { (most : ℤ) → IsCutFor state.old.search.found cut.now most filters.now k
        → IfOk result (λ end. RoundsEnd state.new most filters.now k node_limit end) }
    ensures run { (most : ℤ) → cut.now ≤ℤ most → IsLater state.old state.new most filters.now node_limit }
    ensures touched { KeepsShut state.old.search.tree.nodes state.new.search.tree.nodes }
    ensures covered { IsCovered filters.now state.old → IsCovered filters.now state.new }
    ensures state { IsState state.new }
{
    extensions_last();
    found_points_are_few();
    match work_off(state, cut, filters, node_limit, size)? {
        PopEnd::Done => {
            let serials = first_serials(alloc, state, k, cut, filters)?;
            Ok(NBestEnd::Done(serials))
        }
        PopEnd::NodeLimit => Ok(NBestEnd::NodeLimit),
        PopEnd::PopulateLimit => {
            let lower = lowered(alloc, state, k, cut, filters)?;
            rounds(
                alloc,
                state,
                k,
                size.saturating_mul(2),
                &lower,
                filters,
                node_limit,
            )
        }
    }
}

/// The least bound above the cut of a bounded leaf.
fn next_bound(tree: &Tree, cut: &i128) -> Option<i128> {
    let mut next = None;
    for place in 0..tree.size() {
        match &tree.node(NodeId::new(place)).kind {
            Kind::Bounded(bound) if bound.least > *cut => {
                next = match next {
                    Some(least) if least <= bound.least => next,
                    _ => Some(bound.least),
                };
            }
            _ => {}
        }
    }
    next
}

/// A cut that is about twice as far from the least value as this one, at least the next bound.
fn proposed(state: &State, cut: &i128) -> i128 {
    let best = best_value(state).unwrap_or(*cut);
    let twice = cut.saturating_sub(best).saturating_add(*cut);
    match next_bound(state.tree(), cut) {
        None => i128::MAX,
        Some(next) => next.max(twice),
    }
}

/// The number that is proposed where it lies between the two, else the upper one.
fn between(low: &i128, number: &i128, most: &i128) -> i128
    requires { low.now ≤ℤ most.now }
    ensures above { low.now ≤ℤ result }
    ensures below { result ≤ℤ most.now }
{
    if *number < *low || *number > *most {
        return *most;
    }
    *number
}

/// The least value found, the most where nothing was found.
fn least_cut(state: &State, most: &i128) -> i128
    requires { IfSome state.now.search.best (λ best. best ≤ℤ most.now) }
    ensures above { IfSome state.now.search.best (λ best. best ≤ℤ result) }
    ensures lower { result ≤ℤ most.now }
{
    match best_value(state) {
        None => *most,
        Some(best) => best,
    }
}

/// Opens what the cut and the filters held no longer justify, and collects up to it until so many points were found.
/// Answers whether no leaf is left.
fn gather_to(
    state: &mut State,
    k: u32,
    cut: &i128,
    most: &i128,
    filters: &Filters,
    node_limit: u32,
) -> Result<bool, NoMemory>
    requires proved { state.old.search.proved ≡ true }
    requires above { IfSome state.old.search.best (λ best. best ≤ℤ cut.now) }
    requires lower { cut.now ≤ℤ most.now }
    requires fit { AreFit state.old.model filters.now }
    ensures run { IsGathered state.old state.new most.now filters.now node_limit }
    ensures state { IsState state.new }
{
    extensions_last();
    reopening_spares_licensed();
    state.reopen(*cut, filters);
    let end = work_off(state, cut, filters, node_limit, k)?;
    Ok(end == PopEnd::Done)
}

/// Collects up to cuts that rise from this one to the most, until k points to list were found. What it finds lets the
/// cut for the first k points fall at once.
fn gather(
    state: &mut State,
    k: u32,
    cut: &i128,
    most: &i128,
    filters: &Filters,
    node_limit: u32,
    left: u32,
) -> Result<(), NoMemory>
    requires proved { state.old.search.proved ≡ true }
    requires above { IfSome state.old.search.best (λ best. best ≤ℤ cut.now) }
    requires lower { cut.now ≤ℤ most.now }
    requires fit { AreFit state.old.model filters.now }
    ensures run { IsGathered state.old state.new most.now filters.now node_limit }
    ensures state { IsState state.new }
{
    extensions_last();
    let done = gather_to(state, k, cut, most, filters, node_limit)?;
    if !done || left == 0 {
        return Ok(());
    }
    if count_within(state, cut, filters) >= k as usize {
        return Ok(());
    }
    let wish = proposed(state, cut);
    let next = between(cut, &wish, most);
    gather(state, k, &next, most, filters, node_limit, left - 1)
}

/// Opens what a cut for the first k points and the filters held no longer justify, and collects up to it.
fn finish(
    alloc: Global,
    state: &mut State,
    k: u32,
    most: &i128,
    filters: &Filters,
    node_limit: u32,
) -> Result<NBestEnd, NoMemory>
    requires proved { state.old.search.proved ≡ true }
    requires above { IfSome state.old.search.best (λ best. best ≤ℤ most.now) }
    requires fit { AreFit state.old.model filters.now }
    ensures ends { IfOk result (λ end. RoundsEnd state.new most.now filters.now k node_limit end) }
    ensures run { IsLater state.old state.new most.now filters.now node_limit }
    ensures kept { SparesLicensed most.now (is_held filters.now) state.old.search.tree.nodes state.new.search.tree.nodes }
    ensures covered { IsCovered filters.now state.old → IsCovered filters.now state.new }
    ensures state { IsState state.new }
{
    extensions_last();
    reopening_spares_licensed();
    let _phase = state.proved();
    let cut = lowered(alloc, state, k, most, filters)?;
    state.reopen(cut, filters);
    rounds(alloc, state, k, k.max(1), &cut, filters, node_limit)
}

/// Finds the first k points up to the present cut: some first, up to cuts that rise, and then all up to the value of
/// the k-th.
fn collect_best(
    alloc: Global,
    state: &mut State,
    k: u32,
    gaps: &Gaps,
    filters: &Filters,
    node_limit: u32,
) -> Result<NBestEnd, NoMemory>
    requires can { CanRun gaps.now filters.now state.old }
    requires proved { state.old.search.proved ≡ true }
    ensures ends { IfOk result (λ end.
        RoundsEnd state.new (cut_under gaps.now state.old) filters.now k node_limit end) }
    ensures run { IsLater state.old state.new (cut_under gaps.now state.old) filters.now node_limit }
    ensures kept { SparesLicensed (cut_under gaps.now state.old) (is_held filters.now)
        state.old.search.tree.nodes state.new.search.tree.nodes }
    ensures covered { IsCovered filters.now state.new }
    ensures state { IsState state.new }
{
    extensions_last();
    let most = present_cut(state, gaps);
    let least = least_cut(state, &most);
    gather(state, k, &least, &most, filters, node_limit, ROUNDS)?;
    finish(alloc, state, k, &most, filters, node_limit)
}

/// The serials of the first k points of the list, in its order, or of all where it is shorter. It ends phase one if
/// that hasn't ended, opens what the cuts that it takes and the filters no longer justify, and collects. Its cut rises
/// from the optimum until k points were found, and then falls to the value of the k-th, so that points behind these are
/// found only by the way. After an error the state is that of the last whole step.
pub fn nbest(
    alloc: Global,
    state: &mut State,
    k: u32,
    gaps: &Gaps,
    filters: &Filters,
    node_limit: u32,
) -> Result<NBestEnd, NoMemory>
    requires can { CanRun gaps.now filters.now state.old }

    // The answer: Done with the first points of the list, and the node limit only where nothing closes an open leaf and
    // there is no room.
    ensures ends { IfOk result (λ end. NBestEnds state.new gaps.now filters.now k node_limit end) }
    ensures roomy { room (point_count (root_of state.old.model)) ≤ node_limit → result ≢ Ok NBestEnd.NodeLimit }

    // What it leaves, after an error too.
    ensures run { IsPopulated state.old state.new gaps.now filters.now node_limit }
    ensures spared { SparesLicensed (cut_under gaps.now state.new) (is_held filters.now)
        state.old.search.tree.nodes state.new.search.tree.nodes }
    ensures covered { IsCovered filters.now state.new }
    ensures state { IsState state.new }
{
    extensions_last();
    split_divides_count();
    covered_searches_find_all();
    list_is_list_of();
    let _phase = state.proved();
    optimize(state, node_limit)?;
    if !state.proved() {
        return Ok(NBestEnd::NodeLimit);
    }
    collect_best(alloc, state, k, gaps, filters, node_limit)
}
