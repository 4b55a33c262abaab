//! Pivots: which variable leaves, which one enters, and the exchange.

use crate::numbers::{number_at, quotient};
use crate::sides::{Basis, Sides};
use crate::tables::Table;

/// A smaller excess counts for none.
const TOLERANCE: u128 = 16_384;

/// No entry of a smaller magnitude is a pivot.
const LEAST_PIVOT: u128 = 65_536;

/// How a pivot went.
pub enum Turn {
    /// Each variable is within its range.
    Optimal,
    /// The variables of two places were exchanged.
    Exchanged,
    /// The variable of this row can't come into its range.
    Unmet(usize),
    /// A number passed 128 bits.
    Wide,
}

/// A column that may enter.
#[derive(Clone, Copy)]
struct Rival {
    column: usize,
    cost: u128,
    entry: u128,
}

/// The row with the greatest excess, if one counts.
fn leaving(basis: &Basis, sides: &Sides) -> Option<usize> {
    let mut most = TOLERANCE;
    let mut found = None;
    for row in 0..basis.rows.len() {
        let value = number_at(basis.held.as_slice(), row);
        let excess = sides.excess(basis.rows[row], &value).unsigned_abs();
        if most < excess {
            most = excess;
            found = Some(row);
        }
    }
    found
}

/// Whether the first of two columns costs less for each unit, or as much with a greater entry.
fn is_better(left: &Rival, right: &Rival) -> bool {
    match left.cost.checked_mul(right.entry) {
        None => false,
        Some(first) => match right.cost.checked_mul(left.entry) {
            None => true,
            Some(second) => { first < second || first == second && right.entry < left.entry }
        },
    }
}

/// Whether a column can bring a row's variable towards its range: up, or down.
fn can_enter(basis: &Basis, sides: &Sides, column: usize, entry: &i128, up: bool) -> bool {
    if entry.unsigned_abs() < LEAST_PIVOT || basis.columns.len() <= column {
        return false;
    }
    let variable = basis.columns[column];
    let value = number_at(basis.resting.as_slice(), column);
    let rises = (0 < *entry) == sides.is_low(variable, &value);
    sides.is_open(variable) && rises == up
}

/// The column that enters for a row, if there is one.
fn entering(table: &Table, basis: &Basis, sides: &Sides, row: usize, up: bool) -> Option<usize> {
    let mut best: Option<Rival> = None;
    for column in 0..table.costs.len() {
        let entry = table.entry(row, column);
        if can_enter(basis, sides, column, &entry, up) {
            let rival = Rival {
                column,
                cost: table.costs[column].unsigned_abs(),
                entry: entry.unsigned_abs(),
            };
            best = match best {
                None => Some(rival),
                Some(held) => Some(if is_better(&rival, &held) {
                    rival
                } else {
                    held
                }),
            };
        }
    }
    match best {
        None => None,
        Some(rival) => Some(rival.column),
    }
}

/// Exchanges the variables of a row and of a column, so that the row's comes to rest at the end of its range.
fn exchange(
    table: &mut Table,
    basis: &mut Basis,
    row: usize,
    column: usize,
    excess: &i128,
) -> Option<()> {
    let opposite = excess.checked_neg()?;
    let step = quotient(&opposite, &table.entry(row, column))?;
    let rest = number_at(basis.held.as_slice(), row).checked_sub(*excess)?;
    basis.advance(table, column, &step)?;
    table.exchange(row, column)?;
    basis.exchange(row, column, &rest);
    Some(())
}

/// One pivot.
pub fn pivot(table: &mut Table, basis: &mut Basis, sides: &Sides) -> Turn {
    match leaving(basis, sides) {
        None => Turn::Optimal,
        Some(row) => {
            let excess = excess_of(basis, sides, row);
            match entering(table, basis, sides, row, excess < 0) {
                None => Turn::Unmet(row),
                Some(column) => match exchange(table, basis, row, column, &excess) {
                    None => Turn::Wide,
                    Some(()) => Turn::Exchanged,
                },
            }
        }
    }
}

/// The excess of a row's variable.
pub fn excess_of(basis: &Basis, sides: &Sides, row: usize) -> i128 {
    if row < basis.rows.len() {
        let value = number_at(basis.held.as_slice(), row);
        sides.excess(basis.rows[row], &value)
    } else {
        0
    }
}
