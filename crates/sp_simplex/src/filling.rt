//! The tableau of a model over a box: rows and costs are brought to one size by powers of two.

use crate::numbers::{ONE, bits_of, clear, number_at, put, scaled};
use crate::sides::{Basis, FAR, Sides};
use crate::tables::{Table, sum_of_products};
use sp_model::{BoxOf, ModelParts, NoMemory, Row, VarId};
use std::alloc::Global;

/// The powers of two by which rows and costs were multiplied, and that of the divisor of lists.
#[derive(Debug, Drop)]
pub struct Scale {
    pub rows: Vec<i32>,
    pub costs: i32,
    pub divisor: i32,
}

impl Scale {
    /// The powers of no rows, which takes no memory.
    pub fn empty(alloc: Global) -> Scale {
        Scale {
            rows: Vec::new(alloc),
            costs: 0,
            divisor: 0,
        }
    }

    /// Makes room for so many rows.
    pub fn make_room(&mut self, count: usize) -> Result<(), NoMemory> {
        for _ in 0..count {
            self.rows.push(0)?;
        }
        Ok(())
    }

    /// The power of a row.
    pub fn row(&self, row: usize) -> i32 {
        if row < self.rows.len() {
            self.rows[row]
        } else {
            0
        }
    }
}

/// The greatest magnitude of a coefficient.
fn widest(terms: &[(VarId, i128)]) -> u128 {
    let mut most = 0;
    for term in terms {
        let size = term.1.unsigned_abs();
        if most < size {
            most = size;
        }
    }
    most
}

/// Writes terms, times a power of two, into a list of zeros.
fn write_terms(numbers: &mut [i128], terms: &[(VarId, i128)], power: i32) -> Option<()> {
    clear(numbers);
    for term in terms {
        put(numbers, term.0.index(), &scaled(&term.1, power)?);
    }
    Some(())
}

/// A side times a power of two, or the far one where it is missing or as far.
fn side_of(side: &Option<i128>, power: i32, far: &i128) -> i128 {
    match side {
        None => *far,
        Some(value) => match scaled(value, power) {
            None => *far,
            Some(near) => {
                if near.unsigned_abs() < FAR.unsigned_abs() {
                    near
                } else {
                    *far
                }
            }
        },
    }
}

/// Writes a row and its sides.
fn write_row(
    table: &mut Table,
    sides: &mut Sides,
    scale: &mut Scale,
    place: usize,
    row: &Row,
) -> Option<()> {
    let power = 37i32.saturating_sub(bits_of(widest(row.terms.as_slice())));
    let variable = table.costs.len().checked_add(place)?;
    if place < scale.rows.len() {
        scale.rows[place] = power;
    }
    put(
        sides.low.as_mut_slice(),
        variable,
        &side_of(&row.lo, power, &-FAR),
    );
    put(
        sides.high.as_mut_slice(),
        variable,
        &side_of(&row.hi, power, &FAR),
    );
    if place < table.rows.len() {
        write_terms(
            table.rows[place].as_mut_slice(),
            row.terms.as_slice(),
            power,
        )?;
    }
    Some(())
}

fn write_rows(table: &mut Table, sides: &mut Sides, scale: &mut Scale, rows: &[Row]) -> Option<()> {
    for place in 0..rows.len() {
        write_row(table, sides, scale, place, &rows[place])?;
    }
    Some(())
}

/// Writes the range of each variable.
fn write_box(sides: &mut Sides, bounds: &BoxOf) -> Option<()> {
    let lower = bounds.lower.as_slice();
    let upper = bounds.upper.as_slice();
    for place in 0..lower.len() {
        put(
            sides.low.as_mut_slice(),
            place,
            &i128::from(lower[place]).checked_mul(ONE)?,
        );
    }
    for place in 0..upper.len() {
        put(
            sides.high.as_mut_slice(),
            place,
            &i128::from(upper[place]).checked_mul(ONE)?,
        );
    }
    Some(())
}

/// Numbers the variables from one on.
fn write_variables(variables: &mut [usize], first: usize) -> Option<()> {
    for place in 0..variables.len() {
        variables[place] = first.checked_add(place)?;
    }
    Some(())
}

/// Puts each variable at the end of its range where it costs least.
fn write_resting(resting: &mut [i128], costs: &[i128], sides: &Sides) {
    for place in 0..resting.len() {
        resting[place] = if number_at(costs, place) < 0 {
            number_at(sides.high.as_slice(), place)
        } else {
            number_at(sides.low.as_slice(), place)
        };
    }
}

/// Writes the value of each row.
fn write_held(held: &mut [i128], rows: &[Vec<i128>], resting: &[i128]) -> Option<()> {
    for place in 0..held.len() {
        if place < rows.len() {
            held[place] = sum_of_products(rows[place].as_slice(), resting)?;
        }
    }
    Some(())
}

/// Puts the variables into the columns and the rows into the rows, with their values.
fn write_basis(table: &Table, sides: &Sides, basis: &mut Basis) -> Option<()> {
    write_variables(basis.columns.as_mut_slice(), 0)?;
    write_variables(basis.rows.as_mut_slice(), basis.columns.len())?;
    write_resting(basis.resting.as_mut_slice(), table.costs.as_slice(), sides);
    write_held(
        basis.held.as_mut_slice(),
        table.rows.as_slice(),
        basis.resting.as_slice(),
    )
}

/// The greatest magnitude that the objective may reach over the box, without its constant.
fn reach_of(terms: &[(VarId, i128)], bounds: &BoxOf) -> Option<u128> {
    let lower = bounds.lower.as_slice();
    let upper = bounds.upper.as_slice();
    let mut sum: u128 = 0;
    for term in terms {
        let place = term.0.index();
        if place < lower.len() && place < upper.len() {
            let far = lower[place].unsigned_abs().max(upper[place].unsigned_abs());
            sum = sum.checked_add(term.1.unsigned_abs().checked_mul(u128::from(far))?)?;
        }
    }
    Some(sum)
}

/// The power of two of the divisor of lists: what the rows ask for, as far as sums stay below 2^110.
fn divisor_of(model: &ModelParts, bounds: &BoxOf, scale: &Scale) -> i32 {
    let room = match reach_of(model.cost.as_slice(), bounds) {
        None => 0,
        Some(reach) => 110i32.saturating_sub(bits_of(reach)),
    };
    let mut power = 0;
    for row in 0..scale.rows.len() {
        let asked = scale
            .costs
            .saturating_add(36)
            .saturating_sub(scale.rows[row]);
        power = power.max(asked);
    }
    power.min(room).max(0)
}

/// Writes the tableau of a model over a box, with the rows as basis. `None` where a number passes 128 bits.
pub fn fill(
    table: &mut Table,
    sides: &mut Sides,
    basis: &mut Basis,
    scale: &mut Scale,
    model: &ModelParts,
    bounds: &BoxOf,
) -> Option<()> {
    scale.costs = 56i32.saturating_sub(bits_of(widest(model.cost.as_slice())));
    write_terms(
        table.costs.as_mut_slice(),
        model.cost.as_slice(),
        scale.costs,
    )?;
    write_rows(table, sides, scale, model.rows.as_slice())?;
    write_box(sides, bounds)?;
    write_basis(table, sides, basis)?;
    scale.divisor = divisor_of(model, bounds, scale);
    Some(())
}
