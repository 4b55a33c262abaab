//! The columns of a file, and their terms.
ghost use Rattle.std.specs.Prelude.{◌≡◌, ◌==◌, ◌+◌, ◌<◌, ◌^◌, ◌++◌, length, map, Ok};
ghost use Rattle.sp_draft.specs.Names.{place_of, with_name};
ghost use Rattle.sp_mps_words.specs.Marks.{mark_of};
ghost use Rattle.sp_mps_sections.specs.Columns.{check_mark, mark_fault, check_terms, check_column, term_of};
ghost use Rattle.sp_mps_sections.specs.Pairs.{row_values};
ghost use Rattle.sp_mps_sections.specs.Answers.{Gives, GivesFault, unless};
ghost use Rattle.sp_mps_sections.specs.inner.Answers.{one_or_two};
ghost use Rattle.sp_mps_sections.specs.Additions.{no_columns, with_mark, with_column, with_column_line};
ghost use Rattle.sp_mps_sections.specs.inner.Columns.{with_integer, with_terms};

use crate::line_faults::LineFault;
use crate::names::{check_name, contains};
use crate::pairs::{OneOrTwo, RowValue, is_led, push_one, push_pair};
use crate::rows::RowList;
use sp_decimal::Decimal;
use sp_draft::Names;
use sp_model::{Items, VarId};
use sp_mps_words::{FaultKind, LineFields, Tables};
use std::alloc::Global;

/// A coefficient.
#[derive(Clone, Copy, Debug)]
pub struct Term {
    /// The place of the row.
    pub row: usize,
    /// The column.
    pub column: VarId,
    /// The coefficient.
    pub value: Decimal,
}

/// The columns that were read so far.
#[derive(Drop)]
pub struct ColumnList {
    /// Their names, in the order of their first lines.
    pub names: Names,
    /// Whether the last marker opened.
    pub is_open: bool,
    /// Of each column whether it is integer by the markers.
    pub integers: Items<bool>,
    /// The terms, in the order of the lines.
    pub terms: Items<Term>,
}

/// The term of the column.
fn term_of(column: VarId, pair: RowValue) -> Term
    ensures { result ≡ term_of column pair }
{
    Term {
        row: pair.row,
        column,
        value: pair.value,
    }
}

/// The terms of the column.
fn terms_of(column: VarId, pairs: OneOrTwo<RowValue>) -> OneOrTwo<Term>
    ensures { one_or_two result ≡ map (term_of column) (one_or_two pairs) }
{
    let OneOrTwo { first, second } = pairs;
    match second {
        None => OneOrTwo {
            first: term_of(column, first),
            second: None,
        },
        Some(second) => OneOrTwo {
            first: term_of(column, first),
            second: Some(term_of(column, second)),
        },
    }
}

/// Tests whether a marker opens what is closed, or closes what is open.
fn check_turn(is_open: bool, mark: Option<bool>) -> Result<(), FaultKind>
    ensures { GivesFault result (mark_fault is_open mark) }
{
    match mark {
        None => Err(FaultKind::Syntax),
        Some(opens) => {
            if is_open == opens {
                Err(FaultKind::Syntax)
            } else {
                Ok(())
            }
        }
    }
}

impl ColumnList {
    /// No columns yet. They take no memory.
    pub fn new(alloc: Global) -> ColumnList
        ensures { result ≡ no_columns }
    {
        ColumnList {
            names: Names::new(alloc),
            is_open: false,
            integers: Items::new(alloc),
            terms: Items::new(alloc),
        }
    }

    /// Lets a marker open or close.
    fn turn(&mut self, mark: Option<bool>)
        ensures { self.new ≡ with_mark mark self.old }
    {
        match mark {
            None => {}
            Some(opens) => self.is_open = opens,
        }
    }

    /// Takes a marker line.
    fn mark(&mut self, name: &[u8], mark: Option<bool>) -> Result<(), LineFault>
        ensures { Gives result self.new (unless (check_mark self.old.is_open name.now mark) (with_mark mark self.old)) }
    {
        match check_name(name) {
            Err(kind) => Err(LineFault::Refused(kind)),
            Ok(()) => match check_turn(self.is_open, mark) {
                Err(kind) => Err(LineFault::Refused(kind)),
                Ok(()) => {
                    self.turn(mark);
                    Ok(())
                }
            },
        }
    }

    /// Notes of a new column whether it is integer.
    fn note_integer(&mut self, name: &[u8]) -> Result<(), LineFault>
        ensures { Gives result self.new (Ok (with_integer name.now self.old)) }
    {
        if contains(&self.names, name) {
            Ok(())
        } else {
            push_one(&mut self.integers, self.is_open)
        }
    }

    /// Puts the terms of a column at the end.
    fn push_terms(&mut self, column: VarId, pairs: OneOrTwo<RowValue>) -> Result<(), LineFault>
        ensures { Gives result self.new (Ok (with_terms (map (term_of column) (one_or_two pairs)) self.old)) }
    {
        push_pair(&mut self.terms, terms_of(column, pairs))
    }

    /// Adds the column and its terms.
    fn add_terms(&mut self, name: &[u8], pairs: OneOrTwo<RowValue>) -> Result<(), LineFault>
        requires { length self.old.names + 1 < 2 ^ 32 }
        ensures { Gives result self.new (Ok (with_terms (map (term_of (place_of self.old.names name.now)) (one_or_two
            pairs)) (record self.old { names = with_name self.old.names name.now }))) }
    {
        match self.names.add(name) {
            Err(_) => Err(LineFault::NoMemory),
            Ok(column) => self.push_terms(column, pairs),
        }
    }

    /// Keeps a line of coefficients.
    fn keep(&mut self, name: &[u8], pairs: OneOrTwo<RowValue>) -> Result<(), LineFault>
        requires { length self.old.names + 1 < 2 ^ 32 }
        ensures { Gives result self.new (Ok (with_column name.now (one_or_two pairs) self.old)) }
    {
        match self.note_integer(name) {
            Err(fault) => Err(fault),
            Ok(()) => self.add_terms(name, pairs),
        }
    }

    /// Takes a line of coefficients, of so many fields.
    fn coefficients(&mut self, rows: &RowList, fields: &LineFields<'_>) -> Result<(), LineFault>
        requires { length self.old.names + 1 < 2 ^ 32 }
        ensures { Gives result self.new (unless
            (check_terms rows.now fields.now.count fields.now.first.now fields.now.second.now fields.now.third.now
            fields.now.fourth.now fields.now.fifth.now)
            (with_column fields.now.first.now (row_values rows.now (fields.now.count == 5) fields.now.second.now
            fields.now.third.now fields.now.fourth.now fields.now.fifth.now) self.old)) }
    {
        if !is_led(fields.count) {
            return Err(LineFault::Refused(FaultKind::Syntax));
        }
        match check_name(fields.first) {
            Err(kind) => Err(LineFault::Refused(kind)),
            Ok(()) => match rows.values(
                fields.count == 5,
                fields.second,
                fields.third,
                fields.fourth,
                fields.fifth,
            ) {
                Err(kind) => Err(LineFault::Refused(kind)),
                Ok(pairs) => self.keep(fields.first, pairs),
            },
        }
    }

    /// Takes a line of COLUMNS.
    pub fn read(
        &mut self,
        rows: &RowList,
        tables: &Tables,
        fields: &LineFields<'_>,
    ) -> Result<(), LineFault>
        requires { length self.old.names + 1 < 2 ^ 32 }
        ensures { Gives result self.new (unless
            (check_column rows.now self.old.is_open fields.now.count fields.now.first.now fields.now.second.now
            fields.now.third.now fields.now.fourth.now fields.now.fifth.now)
            (with_column_line rows.now fields.now.count fields.now.first.now fields.now.second.now
            fields.now.third.now fields.now.fourth.now fields.now.fifth.now self.old)) }
    {
        if tables.is_marker(fields.count, fields.second) {
            self.mark(fields.first, tables.mark_of(fields.third))
        } else {
            self.coefficients(rows, fields)
        }
    }
}
