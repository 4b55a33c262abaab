//! The rows that hold where a column has a value.
ghost use Rattle.std.specs.Prelude.{◌≡◌, ◌+◌, ◌<◌, ◌^◌, length, Ok};
ghost use Rattle.sp_draft.specs.Names.{is_among, place_of};
ghost use Rattle.sp_mps_sections.specs.Indicators.{check_indicator, indicator_fault, indicator_row, row_fault};
ghost use Rattle.sp_mps_sections.specs.Answers.{Gives, unless};
ghost use Rattle.sp_mps_sections.specs.inner.Answers.{GivesValue};
ghost use Rattle.sp_mps_sections.specs.Additions.{no_indicators, with_indicator};

use crate::line_faults::LineFault;
use crate::names::{contains, declared};
use crate::pairs::push_one;
use crate::rows::RowList;
use sp_draft::Names;
use sp_model::{Items, VarId};
use sp_mps_words::{FaultKind, LineFields, Tables, flag_of};
use std::alloc::Global;

/// A row that holds where a column has a value.
#[derive(Clone, Copy, Debug)]
pub struct IndicatorRow {
    /// The place of the row.
    pub row: usize,
    /// The column.
    pub column: VarId,
    /// The row holds where the column is 1 (`true`) or 0 (`false`).
    pub on: bool,
}

/// The indicators that were read so far.
#[derive(Drop)]
pub struct IndicatorList {
    /// The names of their rows.
    pub names: Names,
    /// The indicators, in the order of the lines.
    pub rows: Items<IndicatorRow>,
}

impl IndicatorList {
    /// No indicators yet. They take no memory.
    pub fn new(alloc: Global) -> IndicatorList
        ensures { result ≡ no_indicators }
    {
        IndicatorList {
            names: Names::new(alloc),
            rows: Items::new(alloc),
        }
    }

    /// The place of a row that may be an indicator.
    fn row(&self, rows: &RowList, name: &[u8]) -> Result<usize, FaultKind>
        ensures { GivesValue result (row_fault rows.now self.now.names name.now) (place_of rows.now.names name.now) }
    {
        match rows.place(name) {
            Err(kind) => Err(kind),
            Ok(place) => {
                if rows.is_free_at(place) {
                    Err(FaultKind::Syntax)
                } else if self.holds(name) {
                    Err(FaultKind::DuplicateName)
                } else {
                    Ok(place)
                }
            }
        }
    }

    /// A row, a column and a value.
    fn indicator(
        &self,
        rows: &RowList,
        columns: &Names,
        row: &[u8],
        column: &[u8],
        value: &[u8],
    ) -> Result<IndicatorRow, FaultKind>
        ensures { GivesValue result (indicator_fault rows.now columns.now self.now.names row.now column.now value.now)
            (indicator_row rows.now columns.now row.now column.now value.now) }
    {
        match self.row(rows, row) {
            Err(kind) => Err(kind),
            Ok(row) => match declared(columns, column) {
                Err(kind) => Err(kind),
                Ok(column) => match flag_of(value) {
                    Err(kind) => Err(kind),
                    Ok(on) => Ok(IndicatorRow { row, column, on }),
                },
            },
        }
    }

    /// Whether the row with the name is an indicator.
    pub fn holds(&self, name: &[u8]) -> bool
        ensures { result ≡ is_among self.now.names name.now }
    {
        contains(&self.names, name)
    }

    fn keep(&mut self, name: &[u8], row: IndicatorRow) -> Result<(), LineFault>
        requires { length self.old.names + 1 < 2 ^ 32 }
        ensures { Gives result self.new (Ok (with_indicator name.now row self.old)) }
    {
        match self.names.add(name) {
            Err(_) => Err(LineFault::NoMemory),
            Ok(_) => push_one(&mut self.rows, row),
        }
    }

    /// Takes a line of INDICATORS.
    pub fn read(
        &mut self,
        rows: &RowList,
        columns: &Names,
        tables: &Tables,
        fields: &LineFields<'_>,
    ) -> Result<(), LineFault>
        requires { length self.old.names + 1 < 2 ^ 32 }
        ensures { Gives result self.new (unless
            (check_indicator rows.now columns.now self.old.names fields.now.count fields.now.first.now
            fields.now.second.now fields.now.third.now fields.now.fourth.now)
            (with_indicator fields.now.second.now (indicator_row rows.now columns.now fields.now.second.now
            fields.now.third.now fields.now.fourth.now) self.old)) }
    {
        if fields.count != 4 {
            return Err(LineFault::Refused(FaultKind::Syntax));
        }
        if !tables.is_if(fields.first) {
            return Err(LineFault::Refused(FaultKind::Syntax));
        }
        match self.indicator(rows, columns, fields.second, fields.third, fields.fourth) {
            Err(kind) => Err(LineFault::Refused(kind)),
            Ok(row) => self.keep(fields.second, row),
        }
    }
}
