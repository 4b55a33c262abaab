//! What a row's later terms add to a sum, known without going through them again.

ghost use Rattle.std.specs.Prelude.{◌≡◌, ◌∷◌, ◌<◌, ◌≤◌, ℤ, List, Option, All, length, unsigned_abs, OnOk};
ghost use Rattle.sp_model.specs.InnerRounds.{joined, IsTail, IsSpan, IsSpanOrNone, AreTailsOf, AreTails};
ghost use Rattle.sp_model.specs.Limits.{greatest_width};
ghost use Rattle.sp_model.specs.Sums.{Term, side_width};

use crate::ends::{Ends, OpenRange, ends_of};
use crate::ids::VarId;
use crate::limits::GREATEST_WIDTH;
use crate::no_memory::NoMemory;

/// How a sum goes on: by how much it changes in all, and by how much at most on the way, downwards and upwards.
#[derive(Clone, Copy)]
pub struct Tail {
    /// The change in all.
    pub total: i128,
    /// The least change on the way, at most 0.
    pub low: i128,
    /// The greatest change on the way, at least 0.
    pub high: i128,
}

/// The tails of some terms at their ends; `None` where no sum can go on by them.
#[derive(Clone, Copy)]
pub struct Tails {
    /// Of the terms at their least.
    pub least: Option<Tail>,
    /// Of the terms at their greatest.
    pub greatest: Option<Tail>,
}

/// The greatest distance between two sums.
const FARTHEST: u128 = 2 * GREATEST_WIDTH;

/// The tail of no term.
const NOTHING: Tail = Tail {
    total: 0,
    low: 0,
    high: 0,
};

/// The tail with a further addend in front.
fn extended(addend: &Option<i128>, tail: &Option<Tail>) -> Option<Tail>
    requires small { side_width addend.now ≤ greatest_width }
    requires span { IsSpanOrNone tail.now }
    ensures { (vs : List (Option ℤ)) → IsTail vs tail.now → IsTail (addend.now ∷ vs) result }
{
    match addend {
        None => None,
        Some(addend) => match tail {
            None => None,
            Some(tail) => lengthened(addend, tail),
        },
    }
}

/// The tail with a further addend in front, if a sum can still go on by it.
fn lengthened(addend: &i128, tail: &Tail) -> Option<Tail>
    requires small { unsigned_abs addend.now ≤ greatest_width }
    requires span { IsSpan tail.now }
    ensures { (vs : List (Option ℤ)) → IsTail vs (Some tail.now) → IsTail (Some addend.now ∷ vs) result }
{
    let low = (*addend + tail.low).min(0);
    let high = (*addend + tail.high).max(0);
    if high.abs_diff(low) <= FARTHEST {
        let total = *addend + tail.total;
        Some(Tail { total, low, high })
    } else {
        None
    }
}

/// The sum so far and its tail.
fn joined(sum: &Option<i128>, tail: &Option<Tail>) -> Option<i128>
    requires small { side_width sum.now ≤ greatest_width }
    requires span { IsSpanOrNone tail.now }
    ensures value { result ≡ joined sum.now tail.now }
    ensures small { side_width result ≤ greatest_width }
{
    match (sum, tail) {
        (Some(sum), Some(tail)) => gone_on(sum, tail),
        _ => None,
    }
}

/// The sum so far and its tail, if no sum on the way is too great or too small.
fn gone_on(sum: &i128, tail: &Tail) -> Option<i128>
    requires small { unsigned_abs sum.now ≤ greatest_width }
    requires span { IsSpan tail.now }
    ensures value { result ≡ joined (Some sum.now) (Some tail.now) }
    ensures small { side_width result ≤ greatest_width }
{
    let greatest = GREATEST_WIDTH as i128;
    if greatest < *sum + tail.high {
        return None;
    }
    if *sum + tail.low < -greatest {
        return None;
    }
    Some(*sum + tail.total)
}

/// The row's other terms at their ends: those before, and those still to come.
pub fn others(before: &Ends, tails: &Tails) -> Ends
    requires least { side_width before.now.least ≤ greatest_width }
    requires greatest { side_width before.now.greatest ≤ greatest_width }
    requires least_span { IsSpanOrNone tails.now.least }
    requires greatest_span { IsSpanOrNone tails.now.greatest }
    ensures least { result.least ≡ joined before.now.least tails.now.least }
    ensures greatest { result.greatest ≡ joined before.now.greatest tails.now.greatest }
    ensures least_small { side_width result.least ≤ greatest_width }
    ensures greatest_small { side_width result.greatest ≤ greatest_width }
{
    Ends {
        least: joined(&before.least, &tails.least),
        greatest: joined(&before.greatest, &tails.greatest),
    }
}

/// The tails of the later terms and of one in front of them.
fn tails_before(bounds: &[OpenRange], term: &(VarId, i128), tails: &Tails) -> Tails
    requires known { term.now.0 < length bounds.now }
    requires least_span { IsSpanOrNone tails.now.least }
    requires greatest_span { IsSpanOrNone tails.now.greatest }
    ensures { (ts : List Term) → AreTailsOf bounds.now ts tails.now → AreTailsOf bounds.now (term.now ∷ ts) result }
{
    let ends = ends_of(bounds, term);
    Tails {
        least: extended(&ends.least, &tails.least),
        greatest: extended(&ends.greatest, &tails.greatest),
    }
}

/// The tails of the last terms, none of them first and all but the first last. After want of memory nothing is said.
pub fn note_tails(
    bounds: &[OpenRange],
    terms: &[(VarId, i128)],
    tails: &mut Vec<Tails>,
) -> Result<(), NoMemory>
    requires { All (λ t. t.0 < length bounds.now) terms.now }
    ensures { OnOk result (AreTails bounds.now terms.now tails.new.items) }
{
    tails.clear();
    let mut next = Tails {
        least: Some(NOTHING),
        greatest: Some(NOTHING),
    };
    for place in 0..terms.len() {
        tails.push(next)?;
        next = tails_before(bounds, &terms[terms.len() - 1 - place], &next);
    }
    Ok(())
}
