//! The variables of a draft.
ghost use Rattle.std.specs.Prelude.{◌≡◌, [], true, false, length, map, IfOk, slice_index_or, slice_set};
ghost use Rattle.std.specs.List.{range_with_len};
ghost use Rattle.sp_mps.specs.Drafts.{below, above, whole, first_var, plain_var, with_bound, with_line, draft_var};
ghost use Rattle.sp_mps.specs.inner.Tables.{bounded_table, var_table, first_at};

use crate::reader::Reader;
use sp_decimal::{Decimal, Numeral};
use sp_draft::{DraftVar, VarKind};
use sp_mps_sections::ColumnBound;
use sp_mps_words::BoundKind;
use std::alloc::{AllocError, Global};

/// No least value.
fn below() -> Option<Numeral>
    ensures { result ≡ below }
{
    Some(Numeral::Huge { negative: true })
}

/// No greatest value.
fn above() -> Option<Numeral>
    ensures { result ≡ above }
{
    Some(Numeral::Huge { negative: false })
}

/// The whole number as a bound.
fn whole(number: u8) -> Option<Numeral>
    ensures { result ≡ whole number }
{
    Some(Numeral::Exact(Decimal {
        p: i128::from(number),
        s: 0,
    }))
}

/// A column with nothing stated but whether it is integer.
fn plain_var(is_integer: bool) -> DraftVar
    ensures { result ≡ plain_var is_integer }
{
    DraftVar {
        kind: if is_integer {
            VarKind::Integer
        } else {
            VarKind::Continuous
        },
        lower: None,
        upper: None,
        semi: false,
    }
}

/// A column before its bounds.
fn first_var(is_integer: bool, is_bounded: bool) -> DraftVar
    ensures { result ≡ first_var is_integer is_bounded }
{
    if is_integer {
        if is_bounded {
            plain_var(true)
        } else {
            DraftVar {
                kind: VarKind::Integer,
                lower: whole(0),
                upper: whole(1),
                semi: false,
            }
        }
    } else {
        plain_var(false)
    }
}

/// The column with a bound more.
fn with_bound(kind: BoundKind, value: &Numeral, mut var: DraftVar) -> DraftVar
    ensures { result ≡ with_bound kind value.now var }
{
    match kind {
        BoundKind::Upper => var.upper = Some(*value),
        BoundKind::Lower => var.lower = Some(*value),
        BoundKind::Fixed => {
            var.lower = Some(*value);
            var.upper = Some(*value);
        }
        BoundKind::Unbounded => {
            var.lower = below();
            var.upper = above();
        }
        BoundKind::NoLower => var.lower = below(),
        BoundKind::NoUpper => var.upper = above(),
        BoundKind::Binary => {
            var.kind = VarKind::Integer;
            var.lower = whole(0);
            var.upper = whole(1);
        }
        BoundKind::WholeLower => {
            var.kind = VarKind::Integer;
            var.lower = Some(*value);
        }
        BoundKind::WholeUpper => {
            var.kind = VarKind::Integer;
            var.upper = Some(*value);
        }
        BoundKind::SemiUpper => {
            var.upper = Some(*value);
            var.semi = true;
        }
    }
    var
}

/// So many columns without bounds.
#[tactic(auto, unfolding(crate::specs::inner::Tables::bounded_table, crate::specs::Drafts::bounds_of))]
fn unbounded(alloc: Global, count: usize) -> Result<Vec<bool>, AllocError>
    ensures { IfOk result (λ table. table.items ≡ bounded_table count []) }
{
    (0..count).map(|_| false).collect(alloc)
}

/// Notes that the column has a bound, if there is such a column.
fn mark(table: &mut Vec<bool>, place: usize)
    ensures { table.new.items ≡ slice_set table.old.items place true }
{
    if place < table.len() {
        table[place] = true;
    }
}

/// Of each column whether it has bounds.
fn bounded_table(
    alloc: Global,
    count: usize,
    bounds: &[ColumnBound],
) -> Result<Vec<bool>, AllocError>
    ensures { IfOk result (λ table. table.items ≡ bounded_table count bounds.now) }
{
    let mut table = unbounded(alloc, count)?;
    for bound in bounds {
        mark(&mut table, bound.column.index());
    }
    Ok(table)
}

/// The flag at the place, false where there is none.
fn flag_at(flags: &[bool], place: usize) -> bool
    ensures { result ≡ slice_index_or flags.now place false }
{
    match flags.get(place) {
        None => false,
        Some(flag) => *flag,
    }
}

/// The column at the place before its bounds.
fn first_at(integers: &[bool], bounded: &[bool], place: usize) -> DraftVar
    ensures { result ≡ first_at integers.now bounded.now place }
{
    first_var(flag_at(integers, place), flag_at(bounded, place))
}

/// The columns before their bounds.
#[tactic(auto, unfolding(crate::specs::inner::Tables::var_table, crate::specs::Drafts::bounds_of))]
fn first_vars(
    alloc: Global,
    count: usize,
    integers: &[bool],
    bounded: &[bool],
) -> Result<Vec<DraftVar>, AllocError>
    ensures { IfOk result (λ table. table.items ≡ var_table count (first_at integers.now bounded.now) []) }
{
    (0..count)
        .map(|place| first_at(integers, bounded, place))
        .collect(alloc)
}

/// Adds the bound to its column, if there is one.
fn add_bound(table: &mut Vec<DraftVar>, bound: ColumnBound)
    ensures { table.new.items ≡ slice_set table.old.items bound.column (with_line (slice_index_or table.old.items
        bound.column (plain_var false)) bound) }
{
    let place = bound.column.index();
    if place < table.len() {
        table[place] = with_bound(bound.kind, &bound.value, table[place]);
    }
}

/// The columns with their bounds.
fn var_table(
    alloc: Global,
    count: usize,
    integers: &[bool],
    bounded: &[bool],
    bounds: &[ColumnBound],
) -> Result<Vec<DraftVar>, AllocError>
    ensures { IfOk result (λ table. table.items ≡ var_table count (first_at integers.now bounded.now) bounds.now) }
{
    let mut table = first_vars(alloc, count, integers, bounded)?;
    for bound in bounds {
        add_bound(&mut table, *bound);
    }
    Ok(table)
}

/// The variables that the lines make.
pub(crate) fn draft_vars(alloc: Global, reader: &Reader) -> Result<Vec<DraftVar>, AllocError>
    ensures { IfOk result (λ vars. vars.items ≡ map (draft_var reader.now) (range_with_len 0 (length
        reader.now.columns.names))) }
{
    let count = reader.columns.names.len();
    let bounds = reader.bounds.bounds.as_slice();
    let bounded = bounded_table(alloc, count, bounds)?;
    var_table(
        alloc,
        count,
        reader.columns.integers.as_slice(),
        bounded.as_slice(),
        bounds,
    )
}
