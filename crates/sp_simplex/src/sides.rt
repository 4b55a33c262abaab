//! The ranges of variables and rows, and where each of them stands.

use crate::numbers::{clear, number_at, product, put};
use crate::tables::{Table, zeros};
use sp_model::NoMemory;
use std::alloc::Global;

/// A side that is missing or further away than any sum.
pub const FAR: i128 = 1_298_074_214_633_706_907_132_624_082_305_024;

/// The least and the greatest value of each variable, and then of each row.
#[derive(Debug, Drop)]
pub struct Sides {
    pub low: Vec<i128>,
    pub high: Vec<i128>,
}

impl Sides {
    /// No ranges, which takes no memory.
    pub fn empty(alloc: Global) -> Sides {
        Sides {
            low: Vec::new(alloc),
            high: Vec::new(alloc),
        }
    }

    /// Makes it so many ranges that hold 0 alone.
    pub fn make_room(&mut self, alloc: Global, count: usize) -> Result<(), NoMemory> {
        self.low = zeros(alloc, count)?;
        self.high = zeros(alloc, count)?;
        Ok(())
    }

    /// How far a value is above the greatest, or below 0 how far it is below the least. 0 where it is neither.
    pub fn excess(&self, variable: usize, value: &i128) -> i128 {
        let low = number_at(self.low.as_slice(), variable);
        let high = number_at(self.high.as_slice(), variable);
        if *value < low {
            value.saturating_sub(low)
        } else if high < *value {
            value.saturating_sub(high)
        } else {
            0
        }
    }

    /// Whether the range has two values or more.
    pub fn is_open(&self, variable: usize) -> bool {
        number_at(self.low.as_slice(), variable) < number_at(self.high.as_slice(), variable)
    }

    /// Whether the value is the least.
    pub fn is_low(&self, variable: usize, value: &i128) -> bool {
        number_at(self.low.as_slice(), variable) == *value
    }
}

/// Which variable stands in each row and in each column, and its value. A row of the model is a variable too, after the
/// model's variables.
#[derive(Debug, Drop)]
pub struct Basis {
    pub rows: Vec<usize>,
    pub held: Vec<i128>,
    pub columns: Vec<usize>,
    pub resting: Vec<i128>,
}

fn places(alloc: Global, count: usize) -> Result<Vec<usize>, NoMemory> {
    let mut places = Vec::with_capacity(alloc, count)?;
    for _ in 0..count {
        places.push(0)?;
    }
    Ok(places)
}

/// Changes the value of each row by its entry times a step.
fn advance_rows(held: &mut [i128], table: &Table, column: usize, step: &i128) -> Option<()> {
    for row in 0..held.len() {
        let change = product(&table.entry(row, column), step)?;
        held[row] = held[row].checked_add(change)?;
    }
    Some(())
}

impl Basis {
    /// A basis without rows and columns, which takes no memory.
    pub fn empty(alloc: Global) -> Basis {
        Basis {
            rows: Vec::new(alloc),
            held: Vec::new(alloc),
            columns: Vec::new(alloc),
            resting: Vec::new(alloc),
        }
    }

    /// Makes room for so many rows and columns.
    pub fn make_room(
        &mut self,
        alloc: Global,
        rows: usize,
        columns: usize,
    ) -> Result<(), NoMemory> {
        self.held = zeros(alloc, rows)?;
        self.resting = zeros(alloc, columns)?;
        self.rows = places(alloc, rows)?;
        self.columns = places(alloc, columns)?;
        Ok(())
    }

    /// Changes the value of a column by a step, and those of all rows with it.
    pub fn advance(&mut self, table: &Table, column: usize, step: &i128) -> Option<()> {
        advance_rows(self.held.as_mut_slice(), table, column, step)?;
        let value = number_at(self.resting.as_slice(), column).checked_add(*step)?;
        put(self.resting.as_mut_slice(), column, &value);
        Some(())
    }

    /// Exchanges the variable of a row and that of a column, with their values; that of the row comes to rest at a value.
    pub fn exchange(&mut self, row: usize, column: usize, rest: &i128) {
        if row < self.rows.len() && column < self.columns.len() {
            let leaving = self.rows[row];
            self.rows[row] = self.columns[column];
            self.columns[column] = leaving;
            let value = number_at(self.resting.as_slice(), column);
            put(self.held.as_mut_slice(), row, &value);
            put(self.resting.as_mut_slice(), column, rest);
        }
    }

    /// Writes the value of each variable before a place into the list.
    pub fn write_values(&self, count: usize, values: &mut [i128]) {
        clear(values);
        for row in 0..self.rows.len() {
            if self.rows[row] < count {
                put(
                    values,
                    self.rows[row],
                    &number_at(self.held.as_slice(), row),
                );
            }
        }
        for column in 0..self.columns.len() {
            if self.columns[column] < count {
                let value = number_at(self.resting.as_slice(), column);
                put(values, self.columns[column], &value);
            }
        }
    }

    /// Writes the number of each column into the list of its variable, from a place on.
    pub fn write_columns(&self, from: usize, numbers: &[i128], list: &mut [i128]) {
        clear(list);
        for column in 0..self.columns.len() {
            if from <= self.columns[column] {
                put(
                    list,
                    self.columns[column] - from,
                    &number_at(numbers, column),
                );
            }
        }
    }
}
