//! The terms of each variable, by row.

ghost use Rattle.std.specs.Prelude.{◌≡◌, [], ◌∷◌, ◌++◌, ◌<◌, ◌≤◌, All, length, replicate, slice_set, IfOk, OnOk};
ghost use Rattle.sp_sums.specs.Inner.{AreColumns, WithRow, column_at};

use sp_model::{Items, NoMemory, Row, RowId, VarId};
use std::alloc::Global;

/// The terms of each variable, by row. Contracts see the list of the variables' lists.
#[derive(Debug, Drop)]
pub struct Columns {
    columns: Vec<Items<(RowId, i128)>>,
}

impl std::marker::Model for Columns {
    ghost use Rattle.std.specs.Prelude.{ℕ, ℤ, List};

    ghost Value = { List (List (ℕ × ℤ)) };

    ghost view = { λ c. c.columns.items };
}

impl Columns {
    /// The columns of so many variables.
    pub fn new(alloc: Global, count: usize, rows: &[Row]) -> Result<Columns, NoMemory>
        requires few { length rows.now ≤ 10000 }
        requires known { All (λ row. All (λ t. t.0 < count) row.terms) rows.now }
        ensures { IfOk result (AreColumns count rows.now) }
    {
        let mut columns = empty_columns(alloc, count)?;
        for at in 0..rows.len() {
            add_row(
                &mut columns,
                RowId::new(at as u32),
                rows[at].terms.as_slice(),
            )?;
        }
        Ok(Columns { columns })
    }

    /// The rows that have a term of the variable, with its coefficient there.
    pub fn column(&self, var: VarId) -> &[(RowId, i128)]
        requires { var < length self.now }
        ensures { result.now ≡ column_at self.now var }
    {
        self.columns[var.index()].as_slice()
    }
}

fn empty_columns(alloc: Global, count: usize) -> Result<Vec<Items<(RowId, i128)>>, NoMemory>
    ensures { IfOk result (λ v. v.items ≡ replicate count []) }
{
    let mut columns = Vec::with_capacity(alloc, count)?;
    for _ in 0..count {
        columns.push(Items::new(alloc))?;
    }
    Ok(columns)
}

fn add_entry(
    columns: &mut Vec<Items<(RowId, i128)>>,
    at: usize,
    row: RowId,
    coefficient: &i128,
) -> Result<(), NoMemory>
    requires { at < length columns.old.items }
    ensures { OnOk result (columns.new.items ≡ slice_set columns.old.items at (column_at columns.old.items at ++ (row, coefficient.now) ∷ [])) }
{
    let column = &mut columns[at];
    column.push((row, *coefficient))?;
    Ok(())
}

fn add_row(
    columns: &mut Vec<Items<(RowId, i128)>>,
    row: RowId,
    terms: &[(VarId, i128)],
) -> Result<(), NoMemory>
    requires { All (λ t. t.0 < length columns.old.items) terms.now }
    ensures { OnOk result (WithRow row terms.now columns.old.items columns.new.items) }
{
    for term in terms {
        add_entry(columns, term.0.index(), row, &term.1)?;
    }
    Ok(())
}
