//! Laws of the list: each is the contract of a function that does nothing of its own.

ghost use Rattle.std.specs.Prelude.{◌≡◌, [], List, Option, ℕ, ℤ};
ghost use Rattle.sp_model.specs.declared.gaps.Gaps.{Gaps};
ghost use Rattle.sp_model.specs.declared.parts.ModelParts.{ModelParts};
ghost use Rattle.sp_model.specs.Rules.{IsLawful};
ghost use Rattle.sp_list.specs.Lists.{IsListAt};
ghost use Rattle.sp_filter.specs.declared.drafting.FilterDraft.{FilterDraft};
ghost use Rattle.sp_filter.specs.Filters.{Fits};
ghost use Rattle.sp_filter.specs.Held.{FilterList, IsOrderly, with_filter, without_filter};
ghost use Rattle.sp_filter.specs.Lowering.{lowered};
ghost use Rattle.sp_search.specs.States.{AreFit, IsCovered, StateOf};
ghost use Rattle.sp_populate.specs.Listings.{IsFiltered, IsPassedListAt};

use sp_cover::screens_last;
use sp_list::list_is_list_of;

/// A law: where no filter is held, the list is that of the model under the gaps.
pub fn lists_without_filters()
    ensures { (m : ModelParts) (gaps : Gaps) (fs : FilterList) (best : Option ℤ) (xs : List (List ℤ))
        → fs.held ≡ [] → IsPassedListAt m gaps fs best xs → IsListAt m gaps best xs }
{}

/// A law: the list is that of the model under the gaps without the points that don't pass the filters.
pub fn lists_are_filtered()
    ensures { (m : ModelParts) (gaps : Gaps) (fs : FilterList) (best : Option ℤ) (xs : List (List ℤ))
        → IsLawful m → IsPassedListAt m gaps fs best xs → IsFiltered m gaps fs best xs }
{
    list_is_list_of();
}

/// A law: a filter that is added or removed between runs keeps the cover, and filters for the model stay filters for
/// it.
pub fn changed_filters_keep_the_cover()
    ensures added { (fs : FilterList) (name : List ℕ) (d : FilterDraft) (s : StateOf)
        → IsCovered fs s → IsCovered (with_filter fs name d) s }
    ensures removed { (fs : FilterList) (name : List ℕ) (s : StateOf) → IsOrderly fs
        → IsCovered fs s → IsCovered (without_filter fs name) s }
    ensures fit { (m : ModelParts) (fs : FilterList) (name : List ℕ) (d : FilterDraft)
        → AreFit m fs → Fits m (lowered d) → AreFit m (with_filter fs name d) }
    ensures still_fit { (m : ModelParts) (fs : FilterList) (name : List ℕ)
        → AreFit m fs → AreFit m (without_filter fs name) }
{
    screens_last();
}
