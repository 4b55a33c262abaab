//! What filters tell of points and boxes, where they fit the model.
ghost use Rattle.std.specs.Prelude.{◌≡◌, All, IsTrue, IsSomeAnd};
ghost use Rattle.sp_model.specs.Models.{root_of};
ghost use Rattle.sp_filter.specs.Filters.{IsNarrow, box_at};
ghost use Rattle.sp_filter.specs.Held.{filter_of};

use sp_filter::{
    Filter, FilterId, Filters, Held, fitting_filters_are_narrow, narrow_filters_stay_narrow,
};
use sp_model::{BoxOf, Model, Point, root_is_short};

/// Whether the filter fits the model, and the point lies within its closed box: the filter may be asked there then.
fn is_narrow_at(filter: &Filter, model: &Model, x: &Point) -> bool
    ensures { IsTrue result → IsNarrow filter.now (box_at x.now) }
{
    root_is_short();
    narrow_filters_stay_narrow();
    fitting_filters_are_narrow();
    if !filter.fits(model) {
        return false;
    }
    model.is_within(x)
}

/// The same of all held filters.
fn are_narrow_at(held: &[Held], model: &Model, x: &Point) -> bool
    ensures { IsTrue result → All (λ h. IsNarrow h.filter (box_at x.now)) held.now }
{
    for entry in held {
        if !is_narrow_at(&entry.filter, model, x) {
            return false;
        }
    }
    true
}

/// Whether the filter fits the model, whose closed box this is: the filter may be asked of it then.
fn is_narrow_over(filter: &Filter, model: &Model, root: &BoxOf) -> bool
    requires { root.now ≡ root_of model.now }
    ensures { IsTrue result → IsNarrow filter.now root.now }
{
    root_is_short();
    fitting_filters_are_narrow();
    let _parts = model.parts();
    filter.fits(model)
}

/// The same of the filter of this id, where it is held.
fn is_held_narrow(held: &[Held], id: FilterId, model: &Model, root: &BoxOf) -> bool
    requires { root.now ≡ root_of model.now }
    ensures { IsTrue result → IsSomeAnd (filter_of held.now id) (λ f. IsNarrow f root.now) }
{
    for entry in held {
        if entry.id == id {
            return is_narrow_over(&entry.filter, model, root);
        }
    }
    false
}

/// In how many of so many rounds the point passes all filters; `None` where they may not be asked.
pub fn count_passes(filters: &Filters, model: &Model, x: &Point, rounds: u32) -> Option<u32> {
    if !are_narrow_at(filters.held(), model, x) {
        return None;
    }
    let mut count = 0_u32;
    for _ in 0..rounds {
        if filters.passes(x) {
            count = count.saturating_add(1);
        }
    }
    Some(count)
}

/// Whether the point passes the filter; `None` where it may not be asked.
pub fn passes_one(filter: &Filter, model: &Model, x: &Point) -> Option<bool> {
    if is_narrow_at(filter, model, x) {
        Some(filter.passes(x))
    } else {
        None
    }
}

/// In how many of so many rounds the held filter closes the model's box; `None` where it may not be asked.
pub fn count_closings(
    filters: &Filters,
    id: FilterId,
    model: &Model,
    root: &BoxOf,
    rounds: u32,
) -> Option<u32>
    requires { root.now ≡ root_of model.now }
{
    if !is_held_narrow(filters.held(), id, model, root) {
        return None;
    }
    let mut count = 0_u32;
    for _ in 0..rounds {
        if filters.closed(id, root) {
            count = count.saturating_add(1);
        }
    }
    Some(count)
}

/// Whether the filter itself closes the model's box; `None` where it may not be asked.
pub fn closes_one(filter: &Filter, model: &Model, root: &BoxOf) -> Option<bool>
    requires { root.now ≡ root_of model.now }
{
    if is_narrow_over(filter, model, root) {
        Some(filter.closed(root))
    } else {
        None
    }
}
