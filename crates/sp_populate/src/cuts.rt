//! The cut of a state under gaps.

ghost use Rattle.std.specs.Prelude.{◌≡◌, ◌≤ℤ◌, IfSome};
ghost use Rattle.sp_model.specs.Cuts.{IsGap};
ghost use Rattle.sp_populate.specs.Complete.{cut_at, cut_under};

use sp_cover::covered_searches_find_all;
use sp_model::{Gaps, cut, cut_is_between, feasible_is_within, objective_is_small};
use sp_search::State;

/// The cut where nothing was found: no cut is greater.
const CEILING: i128 = 1_000_000_000_000_000_000_000_000_000_000_000_000;

/// The least value found, none where nothing was found.
pub fn best_value(state: &State) -> Option<i128>
    ensures { result ≡ state.now.search.best }
{
    let _phase = state.proved();
    match state.best() {
        None => None,
        Some(serial) => Some(state.found()[serial as usize - 1].value),
    }
}

/// The cut of the least value that the state found, under the gaps; the greatest cut there is where it found nothing.
/// It takes no memory.
pub fn present_cut(state: &State, gaps: &Gaps) -> i128
    requires abs { IsGap gaps.now.abs }
    requires rel { IsGap gaps.now.rel }
    ensures cut { result ≡ cut_under gaps.now state.now }
    ensures above { IfSome state.now.search.best (λ best. best ≤ℤ result) }
{
    covered_searches_find_all();
    feasible_is_within();
    objective_is_small();
    cut_is_between();
    match best_value(state) {
        None => CEILING,
        Some(best) => cut(best, gaps, state.model().parts().scale),
    }
}
