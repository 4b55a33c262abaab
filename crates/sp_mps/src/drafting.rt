//! The draft that the lines of a file make.
ghost use Rattle.std.specs.Prelude.{◌≡◌, ◌<◌, ◌≤◌, ◌^◌, [], ◌∷◌, ◌++◌, length, map, filter, None, All, IfOk, OnOk, IfSome, slice_index_or, slice_set};
ghost use Rattle.std.specs.List.{range_with_len};
ghost use Rattle.sp_mps_words.specs.declared.kinds.RowKind.TheVariants.{Free};
ghost use Rattle.sp_mps_sections.specs.Fronts.{listed};
ghost use Rattle.sp_mps.specs.Drafts.{sides_for, side_or_zero, draft_row, is_plain, draft_rows, draft_indicator, constant_of, constants_of, cost_of, is_maximised, draft_of};
ghost use Rattle.sp_mps.specs.inner.Reads.{IsKnown};
ghost use Rattle.sp_mps.specs.inner.Parts.{IsMadeOf, AreRowParts, IsJoined};
ghost use Rattle.sp_mps.specs.inner.Tables.{term_table, side_table, range_table, row_of, indicator_of, cost_at, constants_at};

use crate::draft_vars::draft_vars;
use crate::reader::Reader;
use crate::row_tables::{range_table, side_table, term_table};
use sp_decimal::{Decimal, Numeral};
use sp_draft::{Draft, DraftIndicator, DraftRow, DraftVar, Sense, Sides};
use sp_model::{Items, VarId};
use sp_mps_sections::{ColumnList, IndicatorRow};
use sp_mps_words::RowKind;
use std::alloc::{AllocError, Global};
use std::mem::replace;

/// What a row of the kind is held to.
fn sides_for(kind: RowKind, rhs: Numeral, range: Option<Decimal>) -> Sides
    ensures { result ≡ sides_for kind rhs range }
{
    match kind {
        RowKind::Free => Sides::Le(Numeral::Huge { negative: false }),
        RowKind::Less => match range {
            None => Sides::Le(rhs),
            Some(range) => Sides::Ranged {
                sense: Sense::Less,
                rhs,
                range,
            },
        },
        RowKind::Greater => match range {
            None => Sides::Ge(rhs),
            Some(range) => Sides::Ranged {
                sense: Sense::Greater,
                rhs,
                range,
            },
        },
        RowKind::Equal => match range {
            None => Sides::Eq(rhs),
            Some(range) => Sides::Ranged {
                sense: Sense::Equal,
                rhs,
                range,
            },
        },
    }
}

/// The kind of the row at the place; a row that isn't there asks nothing.
fn kind_at(kinds: &[RowKind], row: usize) -> RowKind
    ensures { result ≡ slice_index_or kinds.now row Free }
{
    match kinds.get(row) {
        None => RowKind::Free,
        Some(kind) => *kind,
    }
}

/// The right-hand side of the row at the place, or zero.
fn side_at(sides: &[Option<Numeral>], row: usize) -> Numeral
    ensures { result ≡ side_or_zero (slice_index_or sides.now row None) }
{
    match sides.get(row) {
        Some(Some(side)) => *side,
        _ => Numeral::Exact(Decimal { p: 0, s: 0 }),
    }
}

/// The range of the row at the place, if it has one.
fn range_at(ranges: &[Option<Decimal>], row: usize) -> Option<Decimal>
    ensures { result ≡ slice_index_or ranges.now row None }
{
    match ranges.get(row) {
        None => None,
        Some(range) => *range,
    }
}

/// What the row at the place is held to.
fn sides_at(
    kinds: &[RowKind],
    sides: &[Option<Numeral>],
    ranges: &[Option<Decimal>],
    row: usize,
) -> Sides
    ensures { result ≡ sides_for (slice_index_or kinds.now row Free) (side_or_zero (slice_index_or sides.now row
        None)) (slice_index_or ranges.now row None) }
{
    sides_for(
        kind_at(kinds, row),
        side_at(sides, row),
        range_at(ranges, row),
    )
}

/// The same terms once more.
fn copied(alloc: Global, terms: &[(VarId, Decimal)]) -> Result<Items<(VarId, Decimal)>, AllocError>
    ensures { IfOk result (λ copy. copy ≡ terms.now) }
{
    let copy = Vec::from_slice(alloc, terms)?;
    Ok(Items::from_vec(copy))
}

/// The terms of the row at the place, once more.
fn copied_at(
    alloc: Global,
    terms: &[Items<(VarId, Decimal)>],
    row: usize,
) -> Result<Items<(VarId, Decimal)>, AllocError>
    ensures { IfOk result (λ copy. copy ≡ slice_index_or terms.now row []) }
{
    match terms.get(row) {
        None => Ok(Items::new(alloc)),
        Some(terms) => copied(alloc, terms.as_slice()),
    }
}

/// What the lines say of rows, gathered by row.
#[derive(Drop)]
struct RowTables {
    /// The terms of each row.
    terms: Vec<Items<(VarId, Decimal)>>,
    /// The last right-hand side of each row.
    sides: Vec<Option<Numeral>>,
    /// The last range of each row.
    ranges: Vec<Option<Decimal>>,
}

/// What the lines say of rows, gathered by row.
fn row_tables(alloc: Global, reader: &Reader) -> Result<RowTables, AllocError>
    ensures terms { IfOk result (λ t. t.terms.items ≡ term_table (length reader.now.rows.names)
        reader.now.columns.terms) }
    ensures sides { IfOk result (λ t. t.sides.items ≡ side_table (length reader.now.rows.names)
        reader.now.sides.sides) }
    ensures ranges { IfOk result (λ t. t.ranges.items ≡ range_table (length reader.now.rows.names)
        reader.now.ranges.ranges) }
{
    let count = reader.rows.names.len();
    let terms = term_table(alloc, count, reader.columns.terms.as_slice())?;
    let sides = side_table(alloc, count, reader.sides.sides.as_slice())?;
    let ranges = range_table(alloc, count, reader.ranges.ranges.as_slice())?;
    Ok(RowTables {
        terms,
        sides,
        ranges,
    })
}

/// The row at the place, with its terms once more.
fn row_at(
    alloc: Global,
    kinds: &[RowKind],
    tables: &RowTables,
    row: usize,
) -> Result<DraftRow, AllocError>
    ensures { IfOk result (λ made. made ≡ row_of kinds.now tables.now.terms.items tables.now.sides.items
        tables.now.ranges.items row) }
{
    let terms = copied_at(alloc, tables.terms.as_slice(), row)?;
    Ok(DraftRow {
        terms,
        sides: sides_at(
            kinds,
            tables.sides.as_slice(),
            tables.ranges.as_slice(),
            row,
        ),
    })
}

/// The indicator that a line makes.
fn indicator_at(
    alloc: Global,
    kinds: &[RowKind],
    tables: &RowTables,
    line: &IndicatorRow,
) -> Result<DraftIndicator, AllocError>
    ensures { IfOk result (λ made. made ≡ indicator_of kinds.now tables.now.terms.items tables.now.sides.items
        tables.now.ranges.items line.now) }
{
    let row = row_at(alloc, kinds, tables, line.row)?;
    Ok(DraftIndicator {
        var: line.column,
        on: line.on,
        row,
    })
}

/// Puts the indicator at the end.
fn push_indicator(
    made: &mut Vec<DraftIndicator>,
    indicator: DraftIndicator,
) -> Result<(), AllocError>
    ensures { OnOk result (made.new.items ≡ made.old.items ++ indicator ∷ []) }
{
    made.push(indicator)?;
    Ok(())
}

/// The indicators, in the order of their lines.
fn indicators(
    alloc: Global,
    kinds: &[RowKind],
    tables: &RowTables,
    lines: &[IndicatorRow],
) -> Result<Vec<DraftIndicator>, AllocError>
    ensures { IfOk result (λ made. made.items ≡ map (indicator_of kinds.now tables.now.terms.items
        tables.now.sides.items tables.now.ranges.items) lines.now) }
{
    let mut made = Vec::new(alloc);
    for line in lines {
        let indicator = indicator_at(alloc, kinds, tables, line)?;
        push_indicator(&mut made, indicator)?;
    }
    Ok(made)
}

/// The terms of the objective.
fn cost(
    alloc: Global,
    objective: Option<usize>,
    tables: &RowTables,
) -> Result<Items<(VarId, Decimal)>, AllocError>
    ensures { IfOk result (λ cost. cost ≡ cost_at tables.now.terms.items objective) }
{
    match objective {
        None => Ok(Items::new(alloc)),
        Some(row) => copied_at(alloc, tables.terms.as_slice(), row),
    }
}

/// Minus the right-hand side of the objective, if it has one.
fn constant(side: &Option<Numeral>) -> Option<Decimal>
    ensures { listed result ≡ constant_of side.now }
{
    match side {
        None => None,
        Some(Numeral::Exact(value)) => Some(value.negated()),
        Some(Numeral::Huge { .. }) => None,
    }
}

/// The constants of the objective.
fn constants(
    alloc: Global,
    objective: Option<usize>,
    tables: &RowTables,
) -> Result<Items<Decimal>, AllocError>
    ensures { IfOk result (λ made. made ≡ constants_at tables.now.sides.items objective) }
{
    let mut made = Items::new(alloc);
    match objective {
        None => {}
        Some(row) => match tables.sides.as_slice().get(row) {
            None => {}
            Some(side) => match constant(side) {
                None => {}
                Some(value) => made.push(value)?,
            },
        },
    }
    Ok(made)
}

/// Whether the row at the place is one of the draft.
#[tactic(auto, using(crate::proofs::RowLemmas::plain_is))]
fn is_plain(reader: &Reader, row: usize) -> bool
    requires within { row < length reader.now.rows.names }
    requires few { length reader.now.rows.names < 2 ^ 32 }
    ensures { result ≡ is_plain reader.now row }
{
    let name = reader.rows.names.name(VarId::new(row as u32));
    !reader.rows.is_free_at(row) && !reader.indicators.holds(name)
}

/// Takes the terms of the row out of the table.
fn taken(
    alloc: Global,
    table: &mut Vec<Items<(VarId, Decimal)>>,
    row: usize,
) -> Items<(VarId, Decimal)>
    ensures terms { result ≡ slice_index_or table.old.items row [] }
    ensures table { table.new.items ≡ slice_set table.old.items row [] }
{
    if row < table.len() {
        replace(&mut table[row], Items::new(alloc))
    } else {
        Items::new(alloc)
    }
}

/// Puts the row at the place at the end, with its terms taken out of the table.
fn push_row(
    alloc: Global,
    made: &mut Vec<DraftRow>,
    table: &mut Vec<Items<(VarId, Decimal)>>,
    sides: Sides,
    row: usize,
) -> Result<(), AllocError>
    ensures made { OnOk result (made.new.items ≡ made.old.items ++ record {
      terms = slice_index_or table.old.items row
          [];
      sides = sides;
    } ∷ []) }
    ensures table { OnOk result (table.new.items ≡ slice_set table.old.items row []) }
{
    let terms = taken(alloc, table, row);
    made.push(DraftRow { terms, sides })?;
    Ok(())
}

/// The rows that aren't indicators and whose kind isn't N, in their order.
fn rows(alloc: Global, reader: &Reader, tables: RowTables) -> Result<Vec<DraftRow>, AllocError>
    ensures { IfOk result (λ made. made.items ≡ map (row_of reader.now.rows.kinds tables.terms.items
        tables.sides.items tables.ranges.items) (filter (is_plain reader.now) (range_with_len 0 (length
        reader.now.rows.names)))) }
{
    let RowTables {
        mut terms,
        sides,
        ranges,
    } = tables;
    let mut made = Vec::new(alloc);
    for row in 0..reader.rows.names.len() {
        if is_plain(reader, row) {
            let held = sides_at(
                reader.rows.kinds.as_slice(),
                sides.as_slice(),
                ranges.as_slice(),
                row,
            );
            push_row(alloc, &mut made, &mut terms, held, row)?;
        }
    }
    Ok(made)
}

/// What a draft says of rows, and the objective.
#[derive(Drop)]
pub(crate) struct RowParts {
    /// The terms of the objective.
    pub cost: Items<(VarId, Decimal)>,
    /// The constants of the objective.
    pub constants: Items<Decimal>,
    /// The rows.
    pub rows: Items<DraftRow>,
    /// The indicators.
    pub indicators: Items<DraftIndicator>,
}

/// The parts of a draft that are made of what is gathered by row.
fn parts_from(alloc: Global, reader: &Reader, tables: RowTables) -> Result<RowParts, AllocError>
    ensures { IfOk result (IsMadeOf reader.now tables.terms.items tables.sides.items tables.ranges.items) }
{
    let kinds = reader.rows.kinds.as_slice();
    let lines = reader.indicators.rows.as_slice();
    let cost = cost(alloc, reader.rows.objective, &tables)?;
    let constants = constants(alloc, reader.rows.objective, &tables)?;
    let indicators = indicators(alloc, kinds, &tables, lines)?;
    let rows = rows(alloc, reader, tables)?;
    Ok(RowParts {
        cost,
        constants,
        rows: Items::from_vec(rows),
        indicators: Items::from_vec(indicators),
    })
}

/// The parts of a draft that speak of rows.
fn row_parts(alloc: Global, reader: &Reader) -> Result<RowParts, AllocError>
    requires { IsKnown reader.now }
    ensures { IfOk result (AreRowParts reader.now) }
{
    let tables = row_tables(alloc, reader)?;
    let parts = parts_from(alloc, reader, tables)?;
    Ok(parts)
}

/// The draft of its parts.
fn joined(alloc: Global, reader: Reader, vars: Vec<DraftVar>, parts: RowParts) -> Draft
    ensures { IsJoined reader vars.items parts result }
{
    let Reader {
        columns,
        direction,
        ..
    } = reader;
    let ColumnList { names, .. } = columns;
    let RowParts {
        cost,
        constants,
        rows,
        indicators,
    } = parts;
    Draft {
        maximize: direction.unwrap_or(false),
        names,
        vars: Items::from_vec(vars),
        cost,
        constants,
        rows,
        indicators,
        sos: Items::new(alloc),
    }
}

/// The draft that the lines make.
pub(crate) fn draft_of(alloc: Global, reader: Reader) -> Result<Draft, AllocError>
    requires { IsKnown reader }
    ensures { IfOk result (λ d. d ≡ draft_of reader) }
{
    let vars = draft_vars(alloc, &reader)?;
    let parts = row_parts(alloc, &reader)?;
    Ok(joined(alloc, reader, vars, parts))
}
