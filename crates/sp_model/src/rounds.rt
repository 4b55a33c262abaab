//! The rounds, in which the rows close bounds that are missing.

ghost use Rattle.std.specs.Prelude.{◌≡◌, ◌↔◌, ◌<◌, ◌≤◌, ℕ, pos, [], All, cond, is_none, length, map, slice_index_or, slice_set, unsigned_abs, IsFalse, IsTrue, IfOk, OnOk};
ghost use Rattle.sp_model.specs.InnerRounds.{marked, no_tails, AreTails, IsIdle, IsSideIdle};
ghost use Rattle.sp_model.specs.Limits.{greatest_width, most_rounds};
ghost use Rattle.sp_model.specs.Rounds.{takes_part, coefficient_size, least_end, greatest_end, plus, after_rules, close_along, close_row, round, rounds, rounded};
ghost use Rattle.sp_model.specs.Stated.{IsClosedRange, open_at, is_semi, stated_of};
ghost use Rattle.sp_model.specs.Sums.{side_width};

use crate::closing::after_rules;
use crate::ends::{Ends, OpenRange, ends_of, plus};
use crate::ids::VarId;
use crate::limits::{GREATEST_WIDTH, MOST_ROUNDS};
use crate::no_memory::NoMemory;
use crate::parts::{ModelParts, Row};
use crate::sums::{side_size, size_of};
use crate::tails::{Tails, note_tails, others};
use crate::terms::are_terms_lawful;
use std::alloc::Global;

/// Whether the coefficients add up to at most the greatest width in magnitude.
fn are_coefficients_small(terms: &[(VarId, i128)]) -> bool
    ensures { IsTrue result ↔ (coefficient_size terms.now ≤ greatest_width) }
{
    let mut left = GREATEST_WIDTH;
    for term in terms {
        match left.checked_sub(size_of(&term.1)) {
            None => return false,
            Some(less) => left = less,
        }
    }
    true
}

/// Whether the row takes part in the rounds of a model of so many variables.
fn takes_part(count: usize, row: &Row) -> bool
    ensures { result ≡ takes_part count row.now }
{
    are_terms_lawful(count, row.terms.as_slice())
        && are_coefficients_small(row.terms.as_slice())
        && side_size(&row.lo) <= GREATEST_WIDTH
        && side_size(&row.hi) <= GREATEST_WIDTH
}

/// Whether each row takes part.
fn parts_taken(alloc: Global, count: usize, rows: &[Row]) -> Result<Vec<bool>, NoMemory>
    ensures { IfOk result (λ taken. taken.items ≡ map (takes_part count) rows.now) }
{
    let mut taken = Vec::new(alloc);
    for row in rows {
        taken.push(takes_part(count, row))?;
    }
    Ok(taken)
}

/// A mark for each variable that is semi-integer.
fn marks_of(alloc: Global, count: usize, cores: &[(VarId, i64, i64)]) -> Result<Vec<bool>, NoMemory>
    requires { All (λ c. c.0 < count) cores.now }
    ensures marked { IfOk result (λ marks. (j : ℕ) → marked marks.items j ≡ is_semi cores.now j) }
    ensures long { IfOk result (λ marks. length marks.items ≡ count) }
{
    let mut marks = vec![in alloc; false; count]?;
    for core in cores {
        marks[core.0.index()] = true;
    }
    Ok(marks)
}

/// The stated bounds.
fn stated_bounds(alloc: Global, parts: &ModelParts) -> Result<Vec<OpenRange>, NoMemory>
    requires { length parts.now.upper ≡ length parts.now.lower }
    ensures { IfOk result (λ bounds. bounds.items ≡ stated_of parts.now) }
{
    let lower = parts.lower.as_slice();
    let upper = parts.upper.as_slice();
    let mut bounds = Vec::new(alloc);
    for place in 0..lower.len() {
        bounds.push((lower[place], upper[place]))?;
    }
    Ok(bounds)
}

/// Whether no bound is missing.
pub fn is_closed(range: &OpenRange) -> bool
    ensures { IsTrue result ↔ IsClosedRange range.now }
{
    range.0.is_some() && range.1.is_some()
}

/// Whether a rule may close a bound by the row. `false` is certain, and all rows but those that close a bound, or whose
/// numbers are too great for it, are known by it in one short pass.
fn may_close(bounds: &[OpenRange], row: &Row) -> bool
    requires { All (λ t. t.0 < length bounds.now) row.now.terms }
    ensures { IsFalse result → IsIdle bounds.now row.now }
{
    let hi = lack_of(&row.hi);
    let lo = lack_of(&row.lo);
    let mut least: usize = 0;
    let mut greatest: usize = 0;
    let mut both: usize = 0;
    for term in row.terms.as_slice() {
        let lacks = lacks_of(bounds, term);
        least += usize::from(lacks.0);
        greatest += usize::from(lacks.1);
        both += usize::from(lacks.0 & lacks.1);
        if are_both_stuck(hi + least, lo + greatest) {
            return false;
        }
    }
    may_side_close(hi + least, greatest, both) | may_side_close(lo + greatest, least, both)
}

fn are_both_stuck(hi: usize, lo: usize) -> bool
    ensures { IsTrue result ↔ ((2 ≤ hi) × (2 ≤ lo)) }
{
    2 <= hi && 2 <= lo
}

/// Whether a side may close a bound that lacks so many things, where so many bounds are missing that it could close, and so
/// many variables lack both.
fn may_side_close(lacks: usize, targets: usize, both: usize) -> bool
    ensures { IsFalse result → IsSideIdle lacks targets both }
{
    lacks < 2 && 0 < targets && (lacks == 0 || 0 < both)
}

/// What a side lacks by itself.
fn lack_of(side: &Option<i128>) -> usize
    ensures value { result ≡ cond (is_none side.now) 2 0 }
    ensures few { result ≤ 2 }
{
    if side.is_none() { 2 } else { 0 }
}

/// Whether the term lacks a bound at its least, and whether it lacks one at its greatest.
fn lacks_of(bounds: &[OpenRange], term: &(VarId, i128)) -> (bool, bool)
    requires { term.now.0 < length bounds.now }
    ensures least { result.0 ≡ is_none (least_end term.now.1 (open_at bounds.now term.now.0)) }
    ensures greatest { result.1 ≡ is_none (greatest_end term.now.1 (open_at bounds.now term.now.0)) }
{
    let range = &bounds[term.0.index()];
    if 0 < term.1 {
        (range.0.is_none(), range.1.is_none())
    } else {
        (range.1.is_none(), range.0.is_none())
    }
}

/// Applies the rules to one variable of a row. The answer says whether a bound was closed.
fn close_variable(
    marks: &[bool],
    row: &Row,
    bounds: &mut [OpenRange],
    term: &(VarId, i128),
    others: &Ends,
) -> bool
    requires known { term.now.0 < length bounds.old }
    requires marked { term.now.0 < length marks.now }
    requires coefficient { unsigned_abs term.now.1 ≤ greatest_width }
    requires lo { side_width row.now.lo ≤ greatest_width }
    requires hi { side_width row.now.hi ≤ greatest_width }
    requires least { side_width others.now.least ≤ greatest_width }
    requires greatest { side_width others.now.greatest ≤ greatest_width }
    ensures closed { bounds.new ≡ cond (marked marks.now term.now.0) bounds.old
        (slice_set bounds.old term.now.0
        (after_rules row.now term.now.1 (open_at bounds.old term.now.0) others.now.least others.now.greatest)) }
    ensures still { IsFalse result → bounds.new ≡ bounds.old }
{
    let var = term.0.index();
    if marks[var] {
        return false;
    }
    let range = bounds[var];
    let after = after_rules(row, &term.1, &range, others);
    bounds[var] = after;
    is_closer(&range, &after)
}

/// Whether a bound is there after the rules that was missing before them.
fn is_closer(before: &OpenRange, after: &OpenRange) -> bool
    ensures lower { IsFalse result → is_none before.now.0 ≡ is_none after.now.0 }
    ensures upper { IsFalse result → is_none before.now.1 ≡ is_none after.now.1 }
{
    before.0.is_none() != after.0.is_none() || before.1.is_none() != after.1.is_none()
}

/// The sums of the terms so far and of one more.
fn gone_past(before: &Ends, ends: &Ends) -> Ends
    requires least { side_width before.now.least ≤ greatest_width }
    requires greatest { side_width before.now.greatest ≤ greatest_width }
    requires least_end { side_width ends.now.least ≤ greatest_width }
    requires greatest_end { side_width ends.now.greatest ≤ greatest_width }
    ensures least { result.least ≡ plus before.now.least ends.now.least }
    ensures greatest { result.greatest ≡ plus before.now.greatest ends.now.greatest }
    ensures least_small { side_width result.least ≤ greatest_width }
    ensures greatest_small { side_width result.greatest ≤ greatest_width }
{
    Ends {
        least: plus(&before.least, &ends.least),
        greatest: plus(&before.greatest, &ends.greatest),
    }
}

fn tails_at(tails: &[Tails], place: usize) -> Tails
    requires { place < length tails.now }
    ensures { result ≡ slice_index_or tails.now place no_tails }
{
    tails[place]
}

/// Applies the rules to each variable of a row. The answer says whether a bound was closed.
fn close_along(marks: &[bool], row: &Row, bounds: &mut [OpenRange], tails: &[Tails]) -> bool
    requires part { IsTrue (takes_part (length bounds.old) row.now) }
    requires marked { length marks.now ≡ length bounds.old }
    requires tails { AreTails bounds.old row.now.terms tails.now }
    ensures closed { bounds.new ≡ close_along (marked marks.now) row.now bounds.old [] row.now.terms }
    ensures still { IsFalse result → bounds.new ≡ bounds.old }
{
    let terms = row.terms.as_slice();
    let mut before = Ends {
        least: Some(0),
        greatest: Some(0),
    };
    let mut changed = false;
    for place in 0..terms.len() {
        let term = &terms[place];
        let rest = others(&before, &tails_at(tails, terms.len() - 1 - place));
        changed |= close_variable(marks, row, bounds, term, &rest);
        before = gone_past(&before, &ends_of(bounds, term));
    }
    changed
}

/// Applies the rules to each variable of a row that takes part. The answer says whether a bound was closed. After want of
/// memory nothing is said.
fn close_row(
    taken: bool,
    marks: &[bool],
    row: &Row,
    bounds: &mut [OpenRange],
    tails: &mut Vec<Tails>,
) -> Result<bool, NoMemory>
    requires taken { taken ≡ takes_part (length bounds.old) row.now }
    requires marked { length marks.now ≡ length bounds.old }
    ensures closed { OnOk result (bounds.new ≡ close_row (marked marks.now) bounds.old row.now) }
    ensures still { IfOk result (λ changed. IsFalse changed → bounds.new ≡ bounds.old) }
{
    if !taken {
        return Ok(false);
    }
    if !may_close(bounds, row) {
        return Ok(false);
    }
    note_tails(bounds, row.terms.as_slice(), tails)?;
    Ok(close_along(marks, row, bounds, tails.as_slice()))
}

/// One round over all rows. The answer says whether a bound was closed. After want of memory nothing is said.
fn round(
    rows: &[Row],
    taken: &[bool],
    marks: &[bool],
    bounds: &mut [OpenRange],
    tails: &mut Vec<Tails>,
) -> Result<bool, NoMemory>
    requires taken { taken.now ≡ map (takes_part (length bounds.old)) rows.now }
    requires marked { length marks.now ≡ length bounds.old }
    ensures closed { OnOk result (bounds.new ≡ round (marked marks.now) rows.now bounds.old) }
    ensures still { IfOk result (λ changed. IsFalse changed → bounds.new ≡ bounds.old) }
{
    let mut changed = false;
    for place in 0..rows.len() {
        let closed = close_row(taken[place], marks, &rows[place], bounds, tails)?;
        changed |= closed;
    }
    Ok(changed)
}

/// All rounds. They stop where one closes nothing.
fn make_rounds(
    rows: &[Row],
    taken: &[bool],
    marks: &[bool],
    bounds: &mut [OpenRange],
    tails: &mut Vec<Tails>,
) -> Result<(), NoMemory>
    requires taken { taken.now ≡ map (takes_part (length bounds.old)) rows.now }
    requires marked { length marks.now ≡ length bounds.old }
    ensures { OnOk result (bounds.new ≡ rounds (marked marks.now) rows.now most_rounds bounds.old) }
{
    for number in 0..MOST_ROUNDS {
        let changed = round(rows, taken, marks, bounds, tails)?;
        if !changed {
            return Ok(());
        }
    }
    Ok(())
}

/// The stated bounds and those that the rounds close.
pub fn rounded(alloc: Global, parts: &ModelParts) -> Result<Vec<OpenRange>, NoMemory>
    requires paired { length parts.now.upper ≡ length parts.now.lower }
    requires cores { All (λ c. c.0 < length parts.now.lower) parts.now.semi }
    ensures { IfOk result (λ bounds. bounds.items ≡ rounded parts.now) }
{
    let count = parts.lower.len();
    let rows = parts.rows.as_slice();
    let mut bounds = stated_bounds(alloc, parts)?;
    let marks = marks_of(alloc, count, parts.semi.as_slice())?;
    let taken = parts_taken(alloc, count, rows)?;
    let mut tails = Vec::new(alloc);
    make_rounds(
        rows,
        taken.as_slice(),
        marks.as_slice(),
        bounds.as_mut_slice(),
        &mut tails,
    )?;
    Ok(bounds)
}
