//! The rows of a file.
ghost use Rattle.std.specs.Prelude.{◌≡◌, ◌+◌, ◌<◌, ◌^◌, length, Some, Ok};
ghost use Rattle.sp_draft.specs.Names.{place_of};
ghost use Rattle.sp_mps_words.specs.Kinds.{row_kind_of};
ghost use Rattle.sp_mps_words.specs.Values.{value_of};
ghost use Rattle.sp_mps_sections.specs.Fronts.{first_of};
ghost use Rattle.sp_mps_sections.specs.Faults.{declared_fault};
ghost use Rattle.sp_mps_sections.specs.Rows.{check_row, is_free, is_free_at, free_place};
ghost use Rattle.sp_mps_sections.specs.Pairs.{check_value, row_value, check_values, row_values, is_objective, side_value_fault, value_or_zero, check_side, row_side, check_sides, row_sides};
ghost use Rattle.sp_mps_sections.specs.Answers.{Gives, unless, or_else};
ghost use Rattle.sp_mps_sections.specs.inner.Answers.{GivesValue, GivesPair};
ghost use Rattle.sp_mps_sections.specs.Additions.{no_rows, with_row};

use crate::line_faults::LineFault;
use crate::names::{check_name, contains, declared};
use crate::pairs::{OneOrTwo, RowSide, RowValue, push_one};
use sp_decimal::Numeral;
use sp_draft::Names;
use sp_model::Items;
use sp_mps_words::{FaultKind, RowKind, Tables, exact_of, value_of};
use std::alloc::Global;

/// The rows that were declared so far.
#[derive(Drop)]
pub struct RowList {
    /// Their names.
    pub names: Names,
    /// Their kinds.
    pub kinds: Items<RowKind>,
    /// The place of the objective: the first row of kind N.
    pub objective: Option<usize>,
}

impl RowList {
    /// No rows yet. They take no memory.
    pub fn new(alloc: Global) -> RowList
        ensures { result ≡ no_rows }
    {
        RowList {
            names: Names::new(alloc),
            kinds: Items::new(alloc),
            objective: None,
        }
    }

    /// Whether the row at the place asks nothing.
    pub fn is_free_at(&self, place: usize) -> bool
        ensures { result ≡ is_free_at self.now.kinds place }
    {
        match self.kinds.as_slice().get(place) {
            None => true,
            Some(kind) => is_free(*kind),
        }
    }

    /// The place of a row that has to be declared.
    pub(crate) fn place(&self, name: &[u8]) -> Result<usize, FaultKind>
        ensures { GivesValue result (declared_fault self.now.names name.now) (place_of self.now.names name.now) }
    {
        match declared(&self.names, name) {
            Ok(place) => Ok(place.index()),
            Err(kind) => Err(kind),
        }
    }

    /// A row and a value that may not be huge.
    fn value(&self, row: &[u8], value: &[u8]) -> Result<RowValue, FaultKind>
        ensures { GivesValue result (check_value self.now row.now value.now) (row_value self.now row.now value.now) }
    {
        match self.place(row) {
            Err(kind) => Err(kind),
            Ok(row) => match exact_of(value) {
                Err(kind) => Err(kind),
                Ok(value) => Ok(RowValue { row, value }),
            },
        }
    }

    /// One pair of a row and a value that may not be huge, or two.
    pub(crate) fn values(
        &self,
        two: bool,
        a: &[u8],
        b: &[u8],
        c: &[u8],
        d: &[u8],
    ) -> Result<OneOrTwo<RowValue>, FaultKind>
        ensures { GivesPair result (check_values self.now two a.now b.now c.now d.now) (row_values self.now two a.now
            b.now c.now d.now) }
    {
        match self.value(a, b) {
            Err(kind) => Err(kind),
            Ok(first) => {
                if two {
                    match self.value(c, d) {
                        Err(kind) => Err(kind),
                        Ok(second) => Ok(OneOrTwo {
                            first,
                            second: Some(second),
                        }),
                    }
                } else {
                    Ok(OneOrTwo {
                        first,
                        second: None,
                    })
                }
            }
        }
    }

    /// Whether the row is the objective.
    fn is_objective(&self, row: usize) -> bool
        ensures { result ≡ is_objective self.now.objective row }
    {
        match self.objective {
            None => false,
            Some(objective) => objective == row,
        }
    }

    /// A row and a value that may be huge but on the objective.
    fn side(&self, row: &[u8], value: &[u8]) -> Result<RowSide, FaultKind>
        ensures { GivesValue result (check_side self.now row.now value.now) (row_side self.now row.now value.now) }
    {
        match self.place(row) {
            Err(kind) => Err(kind),
            Ok(row) => match side_value(self.is_objective(row), value) {
                Err(kind) => Err(kind),
                Ok(value) => Ok(RowSide { row, value }),
            },
        }
    }

    /// One pair of a row and a value that may be huge but on the objective, or two.
    pub(crate) fn sides(
        &self,
        two: bool,
        a: &[u8],
        b: &[u8],
        c: &[u8],
        d: &[u8],
    ) -> Result<OneOrTwo<RowSide>, FaultKind>
        ensures { GivesPair result (check_sides self.now two a.now b.now c.now d.now) (row_sides self.now two a.now
            b.now c.now d.now) }
    {
        match self.side(a, b) {
            Err(kind) => Err(kind),
            Ok(first) => {
                if two {
                    match self.side(c, d) {
                        Err(kind) => Err(kind),
                        Ok(second) => Ok(OneOrTwo {
                            first,
                            second: Some(second),
                        }),
                    }
                } else {
                    Ok(OneOrTwo {
                        first,
                        second: None,
                    })
                }
            }
        }
    }

    /// Notes the first row that asks nothing, which is the next one.
    fn note_objective(&mut self, kind: RowKind)
        ensures { self.new ≡ record self.old {
          objective = or_else self.old.objective (first_of (free_place (Some
              kind) (length self.old.names)));
        } }
    {
        if self.objective.is_none() && is_free(kind) {
            self.objective = Some(self.names.len());
        }
    }

    /// Puts the row at the end.
    fn keep(&mut self, kind: RowKind, name: &[u8]) -> Result<(), LineFault>
        requires { length self.old.names + 1 < 2 ^ 32 }
        ensures { Gives result self.new (Ok (with_row (Some kind) name.now self.old)) }
    {
        self.note_objective(kind);
        match self.names.add(name) {
            Err(_) => Err(LineFault::NoMemory),
            Ok(_) => push_one(&mut self.kinds, kind),
        }
    }

    /// Takes a line of ROWS, of so many fields.
    pub fn read(
        &mut self,
        tables: &Tables,
        count: usize,
        kind: &[u8],
        name: &[u8],
    ) -> Result<(), LineFault>
        requires { length self.old.names + 1 < 2 ^ 32 }
        ensures { Gives result self.new (unless (check_row self.old count kind.now name.now) (with_row (row_kind_of
            kind.now) name.now self.old)) }
    {
        if count != 2 {
            return Err(LineFault::Refused(FaultKind::Syntax));
        }
        match tables.row_kind_of(kind) {
            None => Err(LineFault::Refused(FaultKind::Syntax)),
            Some(kind) => match check_name(name) {
                Err(kind) => Err(LineFault::Refused(kind)),
                Ok(()) => {
                    if contains(&self.names, name) {
                        Err(LineFault::Refused(FaultKind::DuplicateName))
                    } else {
                        self.keep(kind, name)
                    }
                }
            },
        }
    }
}

/// Whether a row of the kind asks nothing.
fn is_free(kind: RowKind) -> bool
    ensures { result ≡ is_free (Some kind) }
{
    match kind {
        RowKind::Free => true,
        RowKind::Less => false,
        RowKind::Greater => false,
        RowKind::Equal => false,
    }
}

/// A value that may be huge but on the objective.
fn side_value(on_objective: bool, word: &[u8]) -> Result<Numeral, FaultKind>
    ensures { GivesValue result (side_value_fault on_objective (value_of word.now)) (value_or_zero (value_of
        word.now)) }
{
    let read = value_of(word);
    match &read {
        Err(kind) => Err(*kind),
        Ok(Numeral::Exact(value)) => Ok(Numeral::Exact(*value)),
        Ok(Numeral::Huge { negative }) => {
            if on_objective {
                Err(FaultKind::WideNumeral)
            } else {
                Ok(Numeral::Huge {
                    negative: *negative,
                })
            }
        }
    }
}
