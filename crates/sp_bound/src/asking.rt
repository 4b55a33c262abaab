//! Lists that are asked for their bounds one after another.

ghost use Rattle.std.specs.Prelude.{◌≡◌, ◌<◌, All, false, length, MatchOption};
ghost use Rattle.sp_model.specs.Models.{root_of};
ghost use Rattle.sp_sums.specs.Ranges.{IsInside};
ghost use Rattle.sp_bound.specs.Bounds.{AreRowsKnown};
ghost use Rattle.sp_bound.specs.Closing.{IsClosing, closes, is_above, list_at};

use crate::bounds::bound;
use sp_dual::Multipliers;
use sp_model::{BoxOf, Model};

/// Whether there is a bound, and it is above the threshold.
fn is_above(threshold: &Option<i128>, bound: &Option<i128>) -> bool
    ensures { result ≡ is_above threshold.now bound.now }
{
    match threshold {
        None => false,
        Some(threshold) => match bound {
            None => false,
            Some(bound) => *threshold < *bound,
        },
    }
}

/// Whether the list closes the box.
fn closes(model: &Model, bounds: &BoxOf, threshold: &Option<i128>, list: &Multipliers) -> bool
    requires known { AreRowsKnown model.now list.now }
    requires inside { IsInside (root_of model.now) bounds.now }
    ensures { result ≡ closes model.now bounds.now threshold.now list.now }
{
    is_above(threshold, &bound(model, bounds, list))
}

/// Whether the list at a place closes the box.
fn closes_at(
    model: &Model,
    bounds: &BoxOf,
    threshold: &Option<i128>,
    lists: &[Multipliers],
    place: u32,
) -> bool
    requires place { place < length lists.now }
    requires known { All (λ l. AreRowsKnown model.now l) lists.now }
    requires inside { IsInside (root_of model.now) bounds.now }
    ensures { result ≡ closes model.now bounds.now threshold.now (list_at lists.now place) }
{
    closes(model, bounds, threshold, &lists[place as usize])
}

/// The first of these places whose list closes the box.
pub fn first_closing(
    model: &Model,
    bounds: &BoxOf,
    threshold: &Option<i128>,
    lists: &[Multipliers],
    asked: &[u32],
) -> Option<u32>
    requires places { All (λ p. p < length lists.now) asked.now }
    requires known { All (λ l. AreRowsKnown model.now l) lists.now }
    requires inside { IsInside (root_of model.now) bounds.now }
    ensures { MatchOption result
        (All (λ p. closes model.now bounds.now threshold.now (list_at lists.now p) ≡ false) asked.now)
        (λ p. IsClosing model.now bounds.now threshold.now lists.now p) }
{
    for place in asked {
        if closes_at(model, bounds, threshold, lists, *place) {
            return Some(*place);
        }
    }
    None
}
