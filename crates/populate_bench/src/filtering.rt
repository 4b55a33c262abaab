//! Filters that are added and removed between runs of one state.
ghost use Rattle.std.specs.Prelude.{◌≡◌};
ghost use Rattle.sp_search.specs.States.{AreFit, IsCovered, StateOf};

use sp_base::Text;
use sp_filter::{FilterDraft, FilterId, FilterRefusal, Filters, NoFilter};
use sp_model::Model;
use sp_populate::changed_filters_keep_the_cover;

/// Adds the filter; nothing where a variable isn't the model's.
pub fn add(
    filters: &mut Filters,
    model: &Model,
    name: Text,
    draft: FilterDraft,
) -> Option<Result<FilterId, FilterRefusal>>
    ensures fit { AreFit model.now filters.old → AreFit model.now filters.new }
    ensures covered { (s : StateOf) → IsCovered filters.old s → IsCovered filters.new s }
{
    changed_filters_keep_the_cover();
    if draft.is_known(model.parts().lower.len()) {
        Some(filters.add(model, name, draft))
    } else {
        None
    }
}

/// Removes the filter of this name.
pub fn remove(filters: &mut Filters, model: &Model, name: &Text) -> Result<FilterId, NoFilter>
    ensures fit { AreFit model.now filters.old → AreFit model.now filters.new }
    ensures covered { (s : StateOf) → IsCovered filters.old s → IsCovered filters.new s }
{
    changed_filters_keep_the_cover();
    let _held = filters.held();
    let _parts = model.parts();
    filters.remove(name)
}
