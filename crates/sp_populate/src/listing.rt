//! The list of a complete tree, by the serials of its points.

ghost use Rattle.std.specs.Prelude.{◌≡◌, ◌↔◌, ◌<◌, ◌^◌, All, filter, length, map, Err, IfOk};
ghost use Rattle.sp_filter.specs.Filters.{IsNarrow, box_at};
ghost use Rattle.sp_list.specs.Lists.{found_cmp};
ghost use Rattle.sp_search.specs.States.{AreFit};
ghost use Rattle.sp_populate.specs.Complete.{CanRun, IsCompleteFor};
ghost use Rattle.sp_populate.specs.Listings.{IsListing};
ghost use Rattle.sp_populate.specs.InnerLists.{IsRanking, IsSorting, is_listed};
ghost use Rattle.sp_populate.specs.declared.listing.ListRefusal.TheVariants as ListRefusal;

use crate::cuts::present_cut;
use sp_cover::{covered_searches_find_all, found_points_are_few};
use sp_filter::{Filters, fitting_filters_are_narrow, narrow_filters_stay_narrow};
use sp_list::Found;
use sp_model::{Gaps, NoMemory, feasible_is_within, root_is_short};
use sp_search::State;
use std::alloc::{AllocError, Global};
use std::cmp::Ordering;

/// Why there is no list.
#[derive(Clone, Copy, PartialEq, Eq, Debug)]
pub enum ListRefusal {
    /// A leaf of the tree isn't licensed for the present cut and the filters held.
    Incomplete,
    /// There is no memory for it.
    NoMemory,
}

/// The list's order, of found points beside their serials.
fn compare(left: &(u32, &Found), right: &(u32, &Found)) -> Ordering
    ensures { result ≡ found_cmp left.now.1.now right.now.1.now }
{
    left.1
        .value
        .cmp(&right.1.value)
        .then(left.1.point.as_slice().cmp(right.1.point.as_slice()))
}

/// Whether the point passes the filters and isn't above the cut.
fn is_listed(found: &Found, cut: &i128, filters: &Filters) -> bool
    requires { All (λ h. IsNarrow h.filter (box_at found.now.point)) filters.now.held }
    ensures { result ≡ is_listed cut.now filters.now found.now }
{
    if found.value > *cut {
        return false;
    }
    filters.passes(&found.point)
}

/// The found points to list, each beside its serial.
fn ranked<'a>(
    alloc: Global,
    found: &'a [Found],
    cut: &i128,
    filters: &Filters,
) -> Result<Vec<(u32, &'a Found)>, AllocError>
    requires few { length found.now < 2 ^ 32 }
    requires narrow { All (λ f. All (λ h. IsNarrow h.filter (box_at f.point)) filters.now.held) found.now }
    ensures { IfOk result (λ rs. IsRanking found.now cut.now filters.now rs.items) }
{
    let mut ranked = Vec::new(alloc);
    for place in 0..found.len() {
        if is_listed(&found[place], cut, filters) {
            ranked.push((place as u32 + 1, &found[place]))?;
        }
    }
    Ok(ranked)
}

/// The serials.
fn serials_of(alloc: Global, ranked: &[(u32, &Found)]) -> Result<Vec<u32>, AllocError>
    ensures { IfOk result (λ serials. serials.items ≡ map (λ r. r.0) ranked.now) }
{
    ranked.iter().map(|r| r.0).collect(alloc)
}

/// The serials of the found points to list, in the list's order.
fn sorted(
    alloc: Global,
    found: &[Found],
    cut: &i128,
    filters: &Filters,
) -> Result<Vec<u32>, AllocError>
    requires few { length found.now < 2 ^ 32 }
    requires narrow { All (λ f. All (λ h. IsNarrow h.filter (box_at f.point)) filters.now.held) found.now }
    ensures { IfOk result (λ serials. IsSorting found.now cut.now filters.now serials.items) }
{
    let mut ranked = ranked(alloc, found, cut, filters)?;
    ranked.sort_unstable_by(compare);
    serials_of(alloc, ranked.as_slice())
}

/// The found points of a state, which may be asked of each filter.
fn found_in<'a>(state: &'a State, filters: &Filters) -> &'a [Found]
    requires { AreFit state.now.model filters.now }
    ensures found { result.now ≡ state.now.search.found }
    ensures few { length result.now < 2 ^ 32 }
    ensures narrow { All (λ f. All (λ h. IsNarrow h.filter (box_at f.point)) filters.now.held) result.now }
{
    covered_searches_find_all();
    found_points_are_few();
    feasible_is_within();
    root_is_short();
    fitting_filters_are_narrow();
    narrow_filters_stay_narrow();
    let _size = state.tree().size();
    state.found()
}

/// How many of the found points are to be listed.
fn count_listed(found: &[Found], cut: &i128, filters: &Filters) -> usize
    requires few { length found.now < 2 ^ 32 }
    requires narrow { All (λ f. All (λ h. IsNarrow h.filter (box_at f.point)) filters.now.held) found.now }
    ensures { result ≡ length (filter (is_listed cut.now filters.now) found.now) }
{
    let mut count: usize = 0;
    for place in 0..found.len() {
        if is_listed(&found[place], cut, filters) {
            count += 1;
        }
    }
    count
}

/// How many of the state's found points pass the filters and aren't above the cut.
pub fn count_within(state: &State, cut: &i128, filters: &Filters) -> usize
    requires { AreFit state.now.model filters.now }
    ensures { result ≡ length (filter (is_listed cut.now filters.now) state.now.search.found) }
{
    count_listed(found_in(state, filters), cut, filters)
}

/// The serials of the state's found points that pass the filters and aren't above the cut, in the list's order.
pub fn sorted_within(
    alloc: Global,
    state: &State,
    cut: &i128,
    filters: &Filters,
) -> Result<Vec<u32>, AllocError>
    requires { AreFit state.now.model filters.now }
    ensures { IfOk result (λ serials. IsSorting state.now.search.found cut.now filters.now serials.items) }
{
    sorted(alloc, found_in(state, filters), cut, filters)
}

/// The serials of the listed points: those that are feasible, pass the filters and aren't above the cut of the optimum
/// under the gaps, best objective first and then lexicographically.
pub fn list(
    alloc: Global,
    state: &State,
    gaps: &Gaps,
    filters: &Filters,
) -> Result<Vec<u32>, ListRefusal>
    requires { CanRun gaps.now filters.now state.now }
    ensures listed { IfOk result (λ serials. IsListing state.now gaps.now filters.now serials.items) }
    ensures incomplete { (result ≡ Err ListRefusal.Incomplete) ↔ (¬ IsCompleteFor gaps.now filters.now state.now) }
{
    covered_searches_find_all();
    let cut = present_cut(state, gaps);
    if !state.tree().is_complete(cut, filters) {
        return Err(ListRefusal::Incomplete);
    }
    match sorted_within(alloc, state, &cut, filters) {
        Ok(serials) => Ok(serials),
        Err(_) => Err(ListRefusal::NoMemory),
    }
}
