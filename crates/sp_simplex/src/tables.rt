//! The tableau: what each basic variable and the objective are in terms of the others.

use crate::numbers::{ONE, number_at, product, put, quotient, sum_with};
use sp_model::NoMemory;
use std::alloc::Global;

/// So many zeros.
pub fn zeros(alloc: Global, count: usize) -> Result<Vec<i128>, NoMemory> {
    let mut numbers = Vec::with_capacity(alloc, count)?;
    for _ in 0..count {
        numbers.push(0)?;
    }
    Ok(numbers)
}

/// So many rows of so many zeros.
fn empty_rows(alloc: Global, rows: usize, columns: usize) -> Result<Vec<Vec<i128>>, NoMemory> {
    let mut entries = Vec::with_capacity(alloc, rows)?;
    for _ in 0..rows {
        entries.push(zeros(alloc, columns)?)?;
    }
    Ok(entries)
}

/// A dictionary: each row's variable is the sum of its entries times the columns' variables.
#[derive(Debug, Drop)]
pub struct Table {
    /// By row, and in a row by column.
    pub rows: Vec<Vec<i128>>,
    /// The reduced cost of each column.
    pub costs: Vec<i128>,
    /// The row that comes in next.
    fresh: Vec<i128>,
}

impl Table {
    /// A table without rows and columns, which takes no memory.
    pub fn empty(alloc: Global) -> Table {
        Table {
            rows: Vec::new(alloc),
            costs: Vec::new(alloc),
            fresh: Vec::new(alloc),
        }
    }

    /// Makes it a table of zeros.
    pub fn make_room(
        &mut self,
        alloc: Global,
        rows: usize,
        columns: usize,
    ) -> Result<(), NoMemory> {
        self.costs = zeros(alloc, columns)?;
        self.fresh = zeros(alloc, columns)?;
        self.rows = empty_rows(alloc, rows, columns)?;
        Ok(())
    }

    /// The entry at a place, 0 where there is none.
    pub fn entry(&self, row: usize, column: usize) -> i128 {
        if row < self.rows.len() {
            number_at(self.rows[row].as_slice(), column)
        } else {
            0
        }
    }

    /// Exchanges the variable of a row and that of a column. `None` where a number passes 128 bits: then costs and
    /// columns are as before, unless it was a cost.
    pub fn exchange(&mut self, row: usize, column: usize) -> Option<()> {
        if row < self.rows.len() {
            solve(self.rows[row].as_slice(), column, self.fresh.as_mut_slice())?;
        }
        replace_all(self.rows.as_mut_slice(), self.fresh.as_slice(), row, column)?;
        replace(self.costs.as_mut_slice(), self.fresh.as_slice(), column)
    }
}

/// Solves a row for the variable of a column.
fn solve(row: &[i128], column: usize, fresh: &mut [i128]) -> Option<()> {
    let pivot = number_at(row, column);
    let opposite = pivot.checked_neg()?;
    for place in 0..row.len() {
        put(fresh, place, &quotient(&row[place], &opposite)?);
    }
    put(fresh, column, &quotient(&ONE, &pivot)?);
    Some(())
}

/// Puts what the variable of a column is into a row.
fn replace(row: &mut [i128], fresh: &[i128], column: usize) -> Option<()> {
    let factor = number_at(row, column);
    if factor == 0 {
        return Some(());
    }
    put(row, column, &0);
    for place in 0..row.len() {
        if place < fresh.len() && fresh[place] != 0 {
            row[place] = sum_with(&row[place], &factor, &fresh[place])?;
        }
    }
    Some(())
}

/// The same for all rows but one, which the fresh row takes the place of.
fn replace_all(rows: &mut [Vec<i128>], fresh: &[i128], row: usize, column: usize) -> Option<()> {
    for place in 0..rows.len() {
        if place == row {
            copy(fresh, rows[place].as_mut_slice());
        } else {
            replace(rows[place].as_mut_slice(), fresh, column)?;
        }
    }
    Some(())
}

/// Copies as many numbers as both have.
pub fn copy(from: &[i128], to: &mut [i128]) {
    for place in 0..from.len() {
        put(to, place, &from[place]);
    }
}

/// The sum of the products of two lists.
pub fn sum_of_products(left: &[i128], right: &[i128]) -> Option<i128> {
    let mut sum: i128 = 0;
    for place in 0..left.len() {
        if left[place] != 0 {
            sum = sum.checked_add(product(&left[place], &number_at(right, place))?)?;
        }
    }
    Some(sum)
}
