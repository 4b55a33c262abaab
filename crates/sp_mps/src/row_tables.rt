//! What the lines say of rows, gathered by row.
ghost use Rattle.std.specs.Prelude.{◌≡◌, [], ◌∷◌, ◌++◌, length, map, Some, IfOk, OnOk, slice_index_or, slice_set};
ghost use Rattle.sp_mps.specs.Drafts.{written};
ghost use Rattle.sp_mps.specs.inner.Tables.{term_table, side_table, range_table};

use sp_decimal::{Decimal, Numeral};
use sp_model::{Items, VarId};
use sp_mps_sections::{RowSide, RowValue, Term};
use std::alloc::{AllocError, Global};

/// Adds the term to its row, if there is one.
fn add_term(table: &mut Vec<Items<(VarId, Decimal)>>, term: Term) -> Result<(), AllocError>
    ensures { OnOk result (table.new.items ≡ slice_set table.old.items term.row (slice_index_or table.old.items
        term.row [] ++ written term ∷ [])) }
{
    if term.row < table.len() {
        table[term.row].push((term.column, term.value))?;
    }
    Ok(())
}

/// So many empty rows.
#[tactic(auto, unfolding(crate::specs::inner::Tables::term_table, crate::specs::Drafts::row_terms))]
fn empty_rows(alloc: Global, count: usize) -> Result<Vec<Items<(VarId, Decimal)>>, AllocError>
    ensures { IfOk result (λ table. table.items ≡ term_table count []) }
{
    (0..count).map(|_| Items::new(alloc)).collect(alloc)
}

/// The terms of each row.
pub(crate) fn term_table(
    alloc: Global,
    count: usize,
    terms: &[Term],
) -> Result<Vec<Items<(VarId, Decimal)>>, AllocError>
    ensures { IfOk result (λ table. table.items ≡ term_table count terms.now) }
{
    let mut table = empty_rows(alloc, count)?;
    for term in terms {
        add_term(&mut table, *term)?;
    }
    Ok(table)
}

/// Puts the value at the place, if there is one.
fn put<T: Drop>(table: &mut Vec<Option<T>>, place: usize, value: T)
    ensures { table.new.items ≡ slice_set table.old.items place (Some value) }
{
    if place < table.len() {
        table[place] = Some(value);
    }
}

/// So many rows without right-hand sides.
#[tactic(auto, unfolding(crate::specs::inner::Tables::side_table, crate::specs::Drafts::last_side))]
fn no_sides(alloc: Global, count: usize) -> Result<Vec<Option<Numeral>>, AllocError>
    ensures { IfOk result (λ table. table.items ≡ side_table count []) }
{
    (0..count).map(|_| None).collect(alloc)
}

/// The last right-hand side of each row.
pub(crate) fn side_table(
    alloc: Global,
    count: usize,
    sides: &[RowSide],
) -> Result<Vec<Option<Numeral>>, AllocError>
    ensures { IfOk result (λ table. table.items ≡ side_table count sides.now) }
{
    let mut table = no_sides(alloc, count)?;
    for side in sides {
        put(&mut table, side.row, side.value);
    }
    Ok(table)
}

/// So many rows without ranges.
#[tactic(auto, unfolding(crate::specs::inner::Tables::range_table, crate::specs::Drafts::last_range))]
fn no_ranges(alloc: Global, count: usize) -> Result<Vec<Option<Decimal>>, AllocError>
    ensures { IfOk result (λ table. table.items ≡ range_table count []) }
{
    (0..count).map(|_| None).collect(alloc)
}

/// The last range of each row.
pub(crate) fn range_table(
    alloc: Global,
    count: usize,
    ranges: &[RowValue],
) -> Result<Vec<Option<Decimal>>, AllocError>
    ensures { IfOk result (λ table. table.items ≡ range_table count ranges.now) }
{
    let mut table = no_ranges(alloc, count)?;
    for range in ranges {
        put(&mut table, range.row, range.value);
    }
    Ok(table)
}
