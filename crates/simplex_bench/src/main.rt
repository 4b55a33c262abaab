//! `simplex_bench` reads models from standard input and prints a line for each: how the finder's search on its closed
//! box ended, the bound of the list, and that of the list raised by a million. `scripts/compare_simplex.py` runs it.
#![tactic(auto)]

mod making;
mod numbers;

use anyhow::{Result, bail};
use making::{length_at, model_at};
use numbers::numbers_of;
use sp_bound::{are_rows_known, bound, lies_inside};
use sp_dual::Multipliers;
use sp_model::{BoxOf, Model, NoMemory};
use sp_simplex::{Finder, Outcome};
use std::alloc::Global;

/// How many pivots there are at most.
const PIVOTS: u32 = 200;

/// By how much the bound is to rise where no point satisfies the rows.
const RISE: i128 = 1_000_000;

/// How a search ended, and two bounds.
type Found = (Outcome, Option<i128>, Option<i128>);

/// The bound of a list.
fn bound_of(model: &Model, bounds: &BoxOf, list: &Multipliers) -> Option<i128> {
    if lies_inside(model, bounds) && are_rows_known(model, list) {
        bound(model, bounds, list)
    } else {
        None
    }
}

/// What the finder says of the box.
fn found_over(
    alloc: Global,
    model: &Model,
    bounds: &BoxOf,
    finder: &mut Finder,
) -> Result<Found, NoMemory> {
    let list = finder.propose(alloc, model, bounds, PIVOTS)?;
    let found = bound_of(model, bounds, &list);
    let outcome = finder.outcome();
    let raised = finder.raised_list(alloc, model, &RISE)?;
    Ok((outcome, found, bound_of(model, bounds, &raised)))
}

/// What the finder says of the closed box.
fn found_of(alloc: Global, model: &Model) -> Result<Found, NoMemory> {
    let bounds = model.root(alloc)?;
    let mut finder = Finder::new(alloc, model)?;
    found_over(alloc, model, &bounds, &mut finder)
}

fn main(rt: HostRuntime) -> Result<()> {
    let alloc = rt.alloc();
    let numbers = numbers_of(alloc, rt.stdin())?;
    let mut first = 0;
    for _ in 0..numbers.len() {
        if numbers.len() <= first {
            break;
        }
        let model = model_at(alloc, numbers.as_slice(), first)?;
        let Ok((outcome, bound, raised)) = found_of(alloc, &model) else {
            bail!("no memory");
        };
        println!(rt; "{outcome:?} {bound:?} {raised:?}")?;
        first = first.saturating_add(length_at(numbers.as_slice(), first));
    }
    Ok(())
}
