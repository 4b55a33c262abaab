//! Rows in whole units.
ghost use Rattle.std.specs.Prelude.{◌≡◌, ◌↔◌, ◌+◌, ◌*◌, ◌-◌, ◌<◌, ◌≤◌, ◌^◌, max, All, length, IsTrue, SomeIff, IfOk, unsigned_abs};
ghost use Rattle.sp_decimal.specs.DecimalFraction.{most_places as limit_of_places};
ghost use Rattle.sp_model.specs.Boxes.{range_at};
ghost use Rattle.sp_model.specs.Sums.{reach, width_over, side_width};
ghost use Rattle.sp_scaling.specs.Scaling.{greatest_width, most_places_of, numbers_of, scaled, size_of, collected};
ghost use Rattle.sp_lower.specs.Rows.{row_places, row_terms, row_lower, row_upper, model_row, written_width, is_wide, is_tame, no_row, closing_row};
ghost use Rattle.sp_draft.specs.Drafts.{AreKnown};

use crate::sides::{side_places, units_of_sides};
use sp_decimal::Decimal;
use sp_draft::DraftRow;
use sp_model::{BoxOf, Items, NoMemory, Row, VarId};
use sp_scaling::{collected, is_narrow, most_places, room_beside};
use std::alloc::Global;

/// No sum's width is greater.
pub(crate) const GREATEST_WIDTH: u128 = 1_000_000_000_000_000_000_000_000_000_000_000_000;

/// The scale of a row: the most decimal places among its coefficients and the sides that are kept.
fn row_places(row: &DraftRow) -> u8
    ensures value { result ≡ row_places row.now }
    ensures few { result ≤ limit_of_places }
{
    most_places(row.terms.as_slice()).max(side_places(&row.sides))
}

/// How far a value of the variable can be from 0 within the box, and at least 1.
fn reach_of(root: &BoxOf, var: VarId) -> u128
    requires { var < length root.now }
    ensures value { result ≡ reach (range_at root.now var) }
    ensures some { 0 < result }
{
    let (least, greatest) = root.range(var);
    u128::from(least.unsigned_abs().max(greatest.unsigned_abs()).max(1))
}

/// What is left of the room, at most 10^36, beside the width of the terms over the box, each counted by itself; `None` where
/// they are wider.
pub(crate) fn room_beside_terms(
    root: &BoxOf,
    terms: &[(VarId, Decimal)],
    places: u8,
    room: u128,
) -> Option<u128>
    requires known { AreKnown (length root.now) terms.now }
    requires scale { most_places_of (numbers_of terms.now) ≤ places }
    requires places { places ≤ limit_of_places }
    requires room { room ≤ greatest_width }
    ensures { let width = width_over root.now (scaled places terms.now) in SomeIff result (width ≤ room) (room - width) }
{
    let mut left = room;
    for term in terms {
        let reach = reach_of(root, term.0);
        match room_beside(&term.1, places, reach, left) {
            None => return None,
            Some(rest) => left = rest,
        }
    }
    Some(left)
}

/// The magnitude of a side, 0 where there is none.
fn side_size(side: &Option<i128>) -> u128
    ensures { result ≡ side_width side.now }
{
    match side {
        None => 0,
        Some(value) => value.unsigned_abs(),
    }
}

/// Whether the row is wider than a model's may be, over the box.
pub(crate) fn is_wide(root: &BoxOf, row: &DraftRow) -> bool
    requires { AreKnown (length root.now) row.now.terms }
    ensures { result ≡ is_wide root.now row.now }
{
    let places = row_places(row);
    match units_of_sides(&row.sides, places) {
        None => true,
        Some((lower, upper)) => {
            match room_beside_terms(root, row.terms.as_slice(), places, GREATEST_WIDTH) {
                None => true,
                Some(left) => {
                    let below = side_size(&lower);
                    let above = side_size(&upper);
                    !(below <= left && above <= left - below)
                }
            }
        }
    }
}

/// The row in whole units, whose coefficients and sides are known to be small enough.
fn row_of(
    alloc: Global,
    terms: &[(VarId, Decimal)],
    places: u8,
    sides: (Option<i128>, Option<i128>),
) -> Result<Row, NoMemory>
    requires scale { most_places_of (numbers_of terms.now) ≤ places }
    requires places { places ≤ limit_of_places }
    requires small { size_of (scaled places terms.now) ≤ greatest_width }
    ensures { IfOk result (λ row. row ≡ record { terms = collected (scaled places terms.now); lo = sides.0; hi = sides.1 }) }
{
    let terms = collected(alloc, terms, places, false)?;
    let (lo, hi) = sides;
    Ok(Row { terms, lo, hi })
}

/// A row that says nothing.
fn no_row(alloc: Global) -> Row
    ensures { result ≡ no_row }
{
    Row {
        terms: Items::new(alloc),
        lo: None,
        hi: None,
    }
}

/// The row as it stands while bounds are closed: one whose coefficients or sides are too great says nothing.
pub(crate) fn closing_row(alloc: Global, row: &DraftRow) -> Result<Row, NoMemory>
    ensures { IfOk result (λ made. made ≡ closing_row row.now) }
{
    let places = row_places(row);
    match units_of_sides(&row.sides, places) {
        None => Ok(no_row(alloc)),
        Some(sides) => {
            if is_narrow(row.terms.as_slice(), places) {
                row_of(alloc, row.terms.as_slice(), places, sides)
            } else {
                Ok(no_row(alloc))
            }
        }
    }
}
