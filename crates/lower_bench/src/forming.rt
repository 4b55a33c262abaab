//! Whether a draft is one that can be lowered.
ghost use Rattle.std.specs.Prelude.{◌≡◌, ◌↔◌, ◌<◌, All, IsTrue, length};
ghost use Rattle.sp_draft.specs.Drafts.{AreKnown, IsKnownIndicator, IsWellFormed};

use sp_decimal::Decimal;
use sp_draft::{Draft, DraftIndicator, DraftRow, DraftSos};
use sp_model::VarId;

/// Whether each term's variable is one of so many.
fn are_known(terms: &[(VarId, Decimal)], count: usize) -> bool
    ensures { IsTrue result ↔ AreKnown count terms.now }
{
    terms.iter().all(|term| term.0.index() < count)
}

/// The same of the rows' terms.
fn are_rows_known(rows: &[DraftRow], count: usize) -> bool
    ensures { IsTrue result ↔ All (λ row. AreKnown count row.terms) rows.now }
{
    rows.iter()
        .all(|row| are_known(row.terms.as_slice(), count))
}

/// Whether the indicator's variable and those of its row are some of so many.
fn is_indicator_known(indicator: &DraftIndicator, count: usize) -> bool
    ensures { IsTrue result → IsKnownIndicator count indicator.now }
{
    if indicator.var.index() < count {
        are_known(indicator.row.terms.as_slice(), count)
    } else {
        false
    }
}

/// The same of the indicators.
fn are_indicators_known(indicators: &[DraftIndicator], count: usize) -> bool
    ensures { IsTrue result → All (IsKnownIndicator count) indicators.now }
{
    indicators
        .iter()
        .all(|indicator| is_indicator_known(indicator, count))
}

/// The same of the sets' members.
fn are_sets_known(sets: &[DraftSos], count: usize) -> bool
    ensures { IsTrue result ↔ All (λ set. AreKnown count set.members) sets.now }
{
    sets.iter()
        .all(|set| are_known(set.members.as_slice(), count))
}

/// Whether the draft has as many variables as names, and all its parts speak of these alone.
pub fn is_well_formed(draft: &Draft) -> bool
    ensures { IsTrue result → IsWellFormed draft.now }
{
    let count = draft.names.len();
    if draft.vars.len() != count {
        return false;
    }
    if !are_known(draft.cost.as_slice(), count) {
        return false;
    }
    if !are_rows_known(draft.rows.as_slice(), count) {
        return false;
    }
    if !are_indicators_known(draft.indicators.as_slice(), count) {
        return false;
    }
    are_sets_known(draft.sos.as_slice(), count)
}
