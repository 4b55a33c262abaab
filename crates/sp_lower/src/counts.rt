//! How much a draft has, against the limits.
ghost use Rattle.std.specs.Prelude.{◌≡◌, ◌-◌, ◌≤◌, SomeIff, nat_lt};
ghost use Rattle.sp_lower.specs.Faults.{terms_of_rows, terms_of_indicators, terms_of_sets, term_count, count_fault};

use crate::refusals::{LowerRefusal, What};
use sp_draft::{Draft, DraftIndicator, DraftRow, DraftSos};

/// The most variables.
const MOST_VARIABLES: usize = 2_000;

/// The most rows.
const MOST_ROWS: usize = 10_000;

/// The most written terms, in the objective, the rows, the indicators and as members of the sets.
const MOST_TERMS: usize = 200_000;

/// The most indicators.
const MOST_INDICATORS: usize = 1_000;

/// The most special ordered sets.
const MOST_SETS: usize = 1_000;

/// What is left of the room beside the terms of the rows, `None` where they are more.
fn room_beside_rows(rows: &[DraftRow], room: usize) -> Option<usize>
    ensures { SomeIff result (terms_of_rows rows.now ≤ room) (room - terms_of_rows rows.now) }
{
    let mut left = room;
    for row in rows {
        if row.terms.len() > left {
            return None;
        }
        left -= row.terms.len();
    }
    Some(left)
}

/// What is left of the room beside the terms of the indicators, `None` where they are more.
fn room_beside_indicators(indicators: &[DraftIndicator], room: usize) -> Option<usize>
    ensures { SomeIff result (terms_of_indicators indicators.now ≤ room) (room - terms_of_indicators indicators.now) }
{
    let mut left = room;
    for indicator in indicators {
        if indicator.row.terms.len() > left {
            return None;
        }
        left -= indicator.row.terms.len();
    }
    Some(left)
}

/// What is left of the room beside the members of the sets, `None` where they are more.
fn room_beside_sets(sets: &[DraftSos], room: usize) -> Option<usize>
    ensures { SomeIff result (terms_of_sets sets.now ≤ room) (room - terms_of_sets sets.now) }
{
    let mut left = room;
    for set in sets {
        if set.members.len() > left {
            return None;
        }
        left -= set.members.len();
    }
    Some(left)
}

/// Whether there are more written terms than may be.
fn has_too_many_terms(draft: &Draft) -> bool
    ensures { result ≡ nat_lt 200000 (term_count draft.now) }
{
    if draft.cost.len() > MOST_TERMS {
        return true;
    }
    match room_beside_rows(draft.rows.as_slice(), MOST_TERMS - draft.cost.len()) {
        None => true,
        Some(left) => match room_beside_indicators(draft.indicators.as_slice(), left) {
            None => true,
            Some(left) => match room_beside_sets(draft.sos.as_slice(), left) {
                None => true,
                Some(_) => false,
            },
        },
    }
}

/// The first count that is above its limit.
pub(crate) fn count_fault(draft: &Draft) -> Option<LowerRefusal>
    ensures { result ≡ count_fault draft.now }
{
    if draft.vars.len() > MOST_VARIABLES {
        return Some(LowerRefusal::TooMany(What::Variables));
    }
    if draft.rows.len() > MOST_ROWS {
        return Some(LowerRefusal::TooMany(What::Rows));
    }
    if has_too_many_terms(draft) {
        return Some(LowerRefusal::TooMany(What::Terms));
    }
    if draft.indicators.len() > MOST_INDICATORS {
        return Some(LowerRefusal::TooMany(What::Indicators));
    }
    if draft.sos.len() > MOST_SETS {
        return Some(LowerRefusal::TooMany(What::Sos));
    }
    None
}
