//! Hints on where to split a box. A hint is tested before it is used, and no clause says that it is a good one.

use crate::hands::Hand;
use sp_bound::KeptBounds;
use sp_cover::Aim;
use sp_model::{BoxOf, Model, Row, RowId, VarId};
use sp_sums::{Span, Sums};

/// How many terms of a sum a hint looks at.
const MOST_TERMS: usize = 256;

/// How many rows a hint looks at.
const MOST_ROWS: usize = 64;

/// From so many free variables on, one row is as good as another.
const MOST_FREE: u32 = 24;

/// Where a hint looks: at the rows of the variable that was split last, and from places that change with each turn
/// where there are more terms or rows than it looks at.
#[derive(Clone, Copy)]
pub struct Look {
    /// The variable that was split last.
    pub last: Option<VarId>,
    /// A number that changes from step to step.
    pub turn: u32,
    /// A place one of whose sides a list may close that was found for a box around this one.
    pub forced: Option<(VarId, i64)>,
    /// A place by a point that was found for such a box.
    pub wanted: Option<(VarId, i64)>,
}

/// Where to split the box in hand. First a place one of whose sides a row closes at once, then one of which a list that
/// was found closes a side, then one of which the least objective does, then one of which the nearest stated list does.
/// Then the place by the point that was found. Then, in the row with the fewest free variables of those that some point
/// of the box breaks, the variable that moves the objective most, at its better end. Then the variable of the objective
/// that does. It takes a time that doesn't grow with the model where columns are short.
pub fn place_hint(
    model: &Model,
    aim: &Aim,
    best: &Option<i128>,
    hand: &Hand,
    look: &Look,
) -> Option<(VarId, i64)> {
    let bounds = hand.truths.bounds();
    match forced_place_of(model, aim, best, hand, look) {
        Some(place) => return Some(place),
        None => {}
    }
    match usable(&look.wanted, bounds) {
        Some(place) => return Some(place),
        None => {}
    }
    match place_in_rows(&hand.truths.rows, &hand.objective, bounds, look) {
        Some(place) => Some(place),
        None => dearest(model.parts().cost.as_slice(), &hand.objective, bounds, look),
    }
}

/// The place, where the box can be split there.
fn usable(place: &Option<(VarId, i64)>, bounds: &BoxOf) -> Option<(VarId, i64)> {
    match place {
        Some(place) => {
            if bounds.can_split(place.0, place.1) {
                Some(*place)
            } else {
                None
            }
        }
        None => None,
    }
}

/// A place one of whose sides is closed at once.
fn forced_place_of(
    model: &Model,
    aim: &Aim,
    best: &Option<i128>,
    hand: &Hand,
    look: &Look,
) -> Option<(VarId, i64)> {
    let bounds = hand.truths.bounds();
    match forced_by_rows(&hand.truths.rows, bounds, look) {
        Some(place) => return Some(place),
        None => {}
    }
    match usable(&look.forced, bounds) {
        Some(place) => return Some(place),
        None => {}
    }
    match forced_by_cost(model, aim, best, &hand.objective, bounds, look) {
        Some(place) => Some(place),
        None => forced_by_lists(&hand.lists, bounds, look),
    }
}

/// The first of so many places to look at, of which at most so many are looked at.
fn first_place(count: usize, most: usize, look: &Look) -> usize {
    if count <= most {
        0
    } else {
        (look.turn as usize)
            .wrapping_mul(most)
            .checked_rem(count)
            .unwrap_or(0)
    }
}

/// The range of a variable, from 0 to 0 where the box doesn't have it.
fn range_of(bounds: &BoxOf, var: VarId) -> (i64, i64) {
    if var.index() < bounds.len() {
        bounds.range(var)
    } else {
        (0, 0)
    }
}

fn magnitude(value: &i128) -> i128 {
    if *value < 0 {
        0i128.saturating_sub(*value)
    } else {
        *value
    }
}

/// How far a term moves over a range.
fn reach(coefficient: &i128, range: &(i64, i64)) -> i128 {
    let width = i128::from(range.1).saturating_sub(i128::from(range.0));
    if width == 1 {
        magnitude(coefficient)
    } else {
        magnitude(coefficient).saturating_mul(width)
    }
}

/// The sums of a row, if there is one at the place.
fn span_at(sums: &Sums, place: usize) -> Option<Span> {
    match u32::try_from(place) {
        Ok(at) => {
            if (at as usize) < sums.rows().len() {
                Some(sums.span(RowId::new(at)))
            } else {
                None
            }
        }
        Err(_) => None,
    }
}

/// How far the sum of a row moves over the box.
fn spread_of(span: &Span) -> i128 {
    span.most.saturating_sub(span.least)
}

/// The greatest value of a variable at which the term stays within the slack, where the term grows towards the side;
/// else the greatest at which it doesn't.
fn forced_place(
    coefficient: &i128,
    range: &(i64, i64),
    slack: &i128,
    is_upper: bool,
) -> Option<i64> {
    let steps = match slack.checked_div(magnitude(coefficient)) {
        Some(steps) => i64::try_from(steps).unwrap_or(0),
        None => 0,
    };
    if (0 < *coefficient) == is_upper {
        range.0.checked_add(steps)
    } else {
        range.1.saturating_sub(1).checked_sub(steps)
    }
}

/// A place of the term one of whose sides moves the sum by more than the slack.
fn forced_term(
    term: &(VarId, i128),
    bounds: &BoxOf,
    slack: &i128,
    is_upper: bool,
) -> Option<(VarId, i64)> {
    let range = range_of(bounds, term.0);
    if range.0 < range.1 && *slack < reach(&term.1, &range) {
        match forced_place(&term.1, &range, slack, is_upper) {
            Some(at) => Some((term.0, at)),
            None => None,
        }
    } else {
        None
    }
}

/// Such a place of one of the terms that are looked at.
fn forced_in(
    terms: &[(VarId, i128)],
    bounds: &BoxOf,
    slack: &i128,
    is_upper: bool,
    look: &Look,
) -> Option<(VarId, i64)> {
    let first = first_place(terms.len(), MOST_TERMS, look);
    for step in 0..MOST_TERMS.min(terms.len()) {
        match terms.get(first.wrapping_add(step)) {
            Some(term) => match forced_term(term, bounds, slack, is_upper) {
                Some(place) => return Some(place),
                None => {}
            },
            None => return None,
        }
    }
    None
}

/// The same where the whole sum moves by more than the slack.
fn forced_within(
    terms: &[(VarId, i128)],
    bounds: &BoxOf,
    span: &Span,
    slack: &i128,
    is_upper: bool,
    look: &Look,
) -> Option<(VarId, i64)> {
    if *slack < spread_of(span) {
        forced_in(terms, bounds, slack, is_upper, look)
    } else {
        None
    }
}

/// A place one of whose sides breaks a side of the row.
fn forced_by_row(row: &Row, span: &Span, bounds: &BoxOf, look: &Look) -> Option<(VarId, i64)> {
    let terms = row.terms.as_slice();
    let upper = match row.hi {
        Some(side) => {
            let slack = side.saturating_sub(span.least);
            forced_within(terms, bounds, span, &slack, true, look)
        }
        None => None,
    };
    match upper {
        Some(place) => Some(place),
        None => match row.lo {
            Some(side) => {
                let slack = span.most.saturating_sub(side);
                forced_within(terms, bounds, span, &slack, false, look)
            }
            None => None,
        },
    }
}

/// The same of the row at a place.
fn forced_at(sums: &Sums, place: usize, bounds: &BoxOf, look: &Look) -> Option<(VarId, i64)> {
    match sums.rows().get(place) {
        Some(row) => match span_at(sums, place) {
            Some(span) => forced_by_row(row, &span, bounds, look),
            None => None,
        },
        None => None,
    }
}

/// The rows of a variable.
fn column_of(sums: &Sums, var: Option<VarId>) -> &[(RowId, i128)] {
    match var {
        Some(var) => {
            if var.index() < sums.root().len() {
                sums.column(var)
            } else {
                &[]
            }
        }
        None => &[],
    }
}

/// The same of one of the rows that are looked at.
fn forced_by_rows(sums: &Sums, bounds: &BoxOf, look: &Look) -> Option<(VarId, i64)> {
    let count = sums.rows().len();
    if MOST_ROWS < count {
        for entry in column_of(sums, look.last) {
            match forced_at(sums, entry.0.index(), bounds, look) {
                Some(found) => return Some(found),
                None => {}
            }
        }
    }
    let first = first_place(count, MOST_ROWS, look);
    for step in 0..MOST_ROWS.min(count) {
        match forced_at(sums, first.wrapping_add(step), bounds, look) {
            Some(found) => return Some(found),
            None => {}
        }
    }
    None
}

/// The greatest objective that is still wanted.
pub fn most_wanted(aim: &Aim, best: &Option<i128>) -> Option<i128> {
    match aim {
        Aim::Collect { cut } => Some(*cut),
        Aim::Improve => match best {
            Some(value) => value.checked_sub(1),
            None => None,
        },
    }
}

/// A place one of whose sides has a least objective that isn't wanted.
fn forced_by_cost(
    model: &Model,
    aim: &Aim,
    best: &Option<i128>,
    objective: &Sums,
    bounds: &BoxOf,
    look: &Look,
) -> Option<(VarId, i64)> {
    let parts = model.parts();
    match most_wanted(aim, best) {
        Some(wanted) => match span_at(objective, 0) {
            Some(span) => {
                let least = span.least.saturating_add(parts.constant);
                let slack = wanted.saturating_sub(least);
                forced_within(parts.cost.as_slice(), bounds, &span, &slack, true, look)
            }
            None => None,
        },
        None => None,
    }
}

/// How much the sum of a list's row may grow before the list closes the box, and the divisor of the list.
fn slack_of(kept: &KeptBounds, row: &Row, place: usize) -> Option<(i128, i128)> {
    match row.hi {
        Some(side) => match span_at(&kept.sums, place) {
            Some(span) => match kept.owners.as_slice().get(place) {
                Some(owner) => match kept.lists.as_slice().get(owner.place as usize) {
                    Some(list) => Some((side.saturating_sub(span.least), list.d)),
                    None => None,
                },
                None => None,
            },
            None => None,
        },
        None => None,
    }
}

/// The product, which is quick where both numbers are small.
fn product_of(left: i128, right: i128) -> i128 {
    match (i64::try_from(left), i64::try_from(right)) {
        (Ok(small), Ok(other)) => match small.checked_mul(other) {
            Some(product) => i128::from(product),
            None => left.saturating_mul(right),
        },
        _ => left.saturating_mul(right),
    }
}

/// Whether the first slack is less than the second one, each over the divisor of its list.
fn is_nearer(slack: &(i128, i128), nearest: &(i128, i128)) -> bool {
    product_of(slack.0, nearest.1) < product_of(nearest.0, slack.1)
}

/// The row whose list has the least slack, in the units of the objective.
fn nearest_row(kept: &KeptBounds) -> Option<usize> {
    let mut nearest = (0i128, 1i128);
    let mut chosen = None;
    let mut place = 0usize;
    for row in kept.sums.rows() {
        match slack_of(kept, row, place) {
            Some(slack) => {
                if chosen.is_none() || is_nearer(&slack, &nearest) {
                    nearest = slack;
                    chosen = Some(place);
                }
            }
            None => {}
        }
        place = place.saturating_add(1);
    }
    chosen
}

/// A place one of whose sides the nearest stated list closes.
fn forced_by_lists(kept: &KeptBounds, bounds: &BoxOf, look: &Look) -> Option<(VarId, i64)> {
    match nearest_row(kept) {
        Some(place) => forced_at(&kept.sums, place, bounds, look),
        None => None,
    }
}

/// Whether each point of the box keeps the row.
fn is_kept_by(row: &Row, over: &Span) -> bool {
    let low = match row.lo {
        Some(side) => side <= over.least,
        None => true,
    };
    let high = match row.hi {
        Some(side) => over.most <= side,
        None => true,
    };
    low && high
}

/// How many of the variables have more than one value, as far as there are fewer than so many.
fn free_in(terms: &[(VarId, i128)], bounds: &BoxOf, most: u32) -> u32 {
    let mut free = 0u32;
    for term in terms {
        let range = range_of(bounds, term.0);
        if range.0 < range.1 {
            free = free.saturating_add(1);
            if most <= free {
                return free;
            }
        }
    }
    free
}

/// How many free variables the row at a place has, as far as there are fewer than so many; 0 where each point of the
/// box keeps it.
fn free_at(sums: &Sums, place: usize, bounds: &BoxOf, most: u32) -> u32 {
    match sums.rows().get(place) {
        Some(row) => match span_at(sums, place) {
            Some(span) => {
                if span.least < span.most && !is_kept_by(row, &span) {
                    free_in(row.terms.as_slice(), bounds, most)
                } else {
                    0
                }
            }
            None => 0,
        },
        None => 0,
    }
}

/// Of the rows that are looked at, one with the fewest free variables of those that some point of the box breaks.
fn tightest_row(sums: &Sums, bounds: &BoxOf, first: usize) -> Option<usize> {
    let mut fewest = MOST_FREE;
    let mut chosen = None;
    for step in 0..MOST_ROWS.min(sums.rows().len()) {
        let place = first.wrapping_add(step);
        let free = free_at(sums, place, bounds, fewest);
        if 0 < free && (free < fewest || chosen.is_none()) {
            fewest = free;
            chosen = Some(place);
        }
    }
    chosen
}

/// Such a row of those of the variable that was split last.
fn tightest_of(sums: &Sums, bounds: &BoxOf, look: &Look) -> Option<usize> {
    let mut fewest = u32::MAX;
    let mut chosen = None;
    for entry in column_of(sums, look.last) {
        let place = entry.0.index();
        let free = free_at(sums, place, bounds, fewest);
        if 0 < free && free < fewest {
            fewest = free;
            chosen = Some(place);
        }
    }
    chosen
}

/// Such a row: of few rows, of those of the variable that was split last, or else of the next ones that have one.
fn chosen_row(sums: &Sums, bounds: &BoxOf, look: &Look) -> Option<usize> {
    let count = sums.rows().len();
    if MOST_ROWS < count {
        match tightest_of(sums, bounds, look) {
            Some(place) => return Some(place),
            None => {}
        }
    }
    let mut first = first_place(count, MOST_ROWS, look);
    for _ in 0..count.wrapping_div(MOST_ROWS).saturating_add(1) {
        match tightest_row(sums, bounds, first) {
            Some(place) => return Some(place),
            None => {}
        }
        first = first.wrapping_add(MOST_ROWS);
        if count <= first {
            first = 0;
        }
    }
    None
}

/// A place in such a row.
fn place_in_rows(
    sums: &Sums,
    objective: &Sums,
    bounds: &BoxOf,
    look: &Look,
) -> Option<(VarId, i64)> {
    match chosen_row(sums, bounds, look) {
        Some(place) => match sums.rows().get(place) {
            Some(row) => dearest(row.terms.as_slice(), objective, bounds, look),
            None => None,
        },
        None => None,
    }
}

/// The coefficient of a variable in the objective, 0 where it has none.
pub fn price_of(objective: &Sums, var: VarId) -> i128 {
    match column_of(objective, Some(var)).first() {
        Some(entry) => entry.1,
        None => 0,
    }
}

/// The place that parts the end of a range where the objective is least from the rest, with its coefficient there.
fn better_end(coefficient: &i128, range: &(i64, i64)) -> i64 {
    if *coefficient < 0 {
        range.1.saturating_sub(1)
    } else {
        range.0
    }
}

/// Of the terms of a sum, the variable that moves the objective most; of those that move it alike, the one that moves
/// the sum most. It looks at so many places from the first one on.
fn dearest_from(
    terms: &[(VarId, i128)],
    objective: &Sums,
    bounds: &BoxOf,
    first: usize,
    most: usize,
) -> Option<(VarId, i64)> {
    let mut dear = 0i128;
    let mut far = 0i128;
    let mut chosen = None;
    for step in 0..most {
        match terms.get(first.wrapping_add(step)) {
            Some(term) => {
                let range = range_of(bounds, term.0);
                if range.0 < range.1 {
                    let price = price_of(objective, term.0);
                    let costs = reach(&price, &range);
                    let moves = reach(&term.1, &range);
                    if dear < costs || (dear == costs && far < moves) {
                        dear = costs;
                        far = moves;
                        chosen = Some((term.0, better_end(&price, &range)));
                    }
                }
            }
            None => return chosen,
        }
    }
    chosen
}

/// The same of those that are looked at, or of all where these have one value each.
fn dearest(
    terms: &[(VarId, i128)],
    objective: &Sums,
    bounds: &BoxOf,
    look: &Look,
) -> Option<(VarId, i64)> {
    let count = terms.len();
    let first = first_place(count, MOST_TERMS, look);
    match dearest_from(terms, objective, bounds, first, MOST_TERMS.min(count)) {
        Some(place) => Some(place),
        None => {
            if count <= MOST_TERMS {
                None
            } else {
                dearest_from(terms, objective, bounds, 0, count)
            }
        }
    }
}
