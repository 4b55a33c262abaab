//! The bounds of columns.
ghost use Rattle.std.specs.Prelude.{◌≡◌, [], ◌∷◌, Ok};
ghost use Rattle.sp_mps_sections.specs.Bounds.{names_set, names_no_set, set_on, column_bound, bounds_on, check_column_bound, check_parts, check_bound, bound_fault, bound_value};
ghost use Rattle.sp_mps_sections.specs.Answers.{Gives, unless};
ghost use Rattle.sp_mps_sections.specs.inner.Answers.{GivesValue};
ghost use Rattle.sp_mps_sections.specs.Additions.{no_bounds, with_bounds};

use crate::line_faults::LineFault;
use crate::names::{check_set, declared, keep_set};
use crate::pairs::push_one;
use sp_base::Text;
use sp_decimal::{Decimal, Numeral};
use sp_draft::Names;
use sp_model::{Items, VarId};
use sp_mps_words::{BoundKind, FaultKind, value_of};
use std::alloc::Global;

/// A column's bound.
#[derive(Clone, Copy, Debug)]
pub struct ColumnBound {
    /// The column.
    pub column: VarId,
    /// What the bound does.
    pub kind: BoundKind,
    /// Its value, which may be huge; zero where the kind has none.
    pub value: Numeral,
}

/// The bounds that were read so far.
#[derive(Drop)]
pub struct BoundList {
    /// The name of their set.
    pub set: Option<Text>,
    /// The bounds, in the order of the lines.
    pub bounds: Items<ColumnBound>,
}

/// Whether a line of so many fields names a set.
fn names_set(kind: BoundKind, count: usize) -> bool
    ensures { result ≡ names_set kind count }
{
    count == 4 || (if kind.has_value() { false } else { count == 3 })
}

/// Whether a line of so many fields names none.
fn names_no_set(kind: BoundKind, count: usize) -> bool
    ensures { result ≡ names_no_set kind count }
{
    if kind.has_value() {
        count == 3
    } else {
        count == 2
    }
}

/// The value of a bound.
fn bound_value(kind: BoundKind, word: &[u8]) -> Result<Numeral, FaultKind>
    ensures { GivesValue result (bound_fault kind word.now) (bound_value kind word.now) }
{
    if kind.has_value() {
        value_of(word)
    } else {
        Ok(Numeral::Exact(Decimal { p: 0, s: 0 }))
    }
}

/// A column and a value.
fn column_bound(
    columns: &Names,
    kind: BoundKind,
    column: &[u8],
    value: &[u8],
) -> Result<ColumnBound, FaultKind>
    ensures { GivesValue result (check_column_bound columns.now kind column.now value.now) (column_bound columns.now
        kind column.now value.now) }
{
    match declared(columns, column) {
        Err(kind) => Err(kind),
        Ok(column) => match bound_value(kind, value) {
            Err(kind) => Err(kind),
            Ok(value) => Ok(ColumnBound {
                column,
                kind,
                value,
            }),
        },
    }
}

impl BoundList {
    /// No bounds yet. They take no memory.
    pub fn new(alloc: Global) -> BoundList
        ensures { result ≡ no_bounds }
    {
        BoundList {
            set: None,
            bounds: Items::new(alloc),
        }
    }

    fn keep(&mut self, alloc: Global, set: &[u8], bound: ColumnBound) -> Result<(), LineFault>
        ensures { Gives result self.new (Ok (with_bounds set.now (bound ∷ []) self.old)) }
    {
        // The proof wants the types of a bound's parts to be named here.
        let _held: Option<(BoundKind, Numeral)> = None;
        match keep_set(alloc, &mut self.set, set) {
            Err(fault) => Err(fault),
            Ok(()) => push_one(&mut self.bounds, bound),
        }
    }

    /// Takes a set, a column, and a value where the kind has one.
    fn add(
        &mut self,
        alloc: Global,
        columns: &Names,
        kind: BoundKind,
        set: &[u8],
        column: &[u8],
        value: &[u8],
    ) -> Result<(), LineFault>
        ensures { Gives result self.new (unless
            (check_parts columns.now self.old.set kind set.now column.now value.now)
            (with_bounds set.now (column_bound columns.now kind column.now value.now ∷ []) self.old)) }
    {
        match check_set(&self.set, set) {
            Err(kind) => Err(LineFault::Refused(kind)),
            Ok(()) => match column_bound(columns, kind, column, value) {
                Err(kind) => Err(LineFault::Refused(kind)),
                Ok(bound) => self.keep(alloc, set, bound),
            },
        }
    }

    /// Takes a line of BOUNDS of so many fields, with a bound of this kind, and what stands behind the kind.
    pub fn read(
        &mut self,
        alloc: Global,
        columns: &Names,
        kind: Option<BoundKind>,
        count: usize,
        b: &[u8],
        c: &[u8],
        d: &[u8],
    ) -> Result<(), LineFault>
        ensures { Gives result self.new (unless
            (check_bound columns.now self.old.set kind count b.now c.now d.now)
            (with_bounds (set_on kind count b.now) (bounds_on columns.now kind count b.now c.now d.now) self.old)) }
    {
        match kind {
            None => Err(LineFault::Refused(FaultKind::Syntax)),
            Some(kind) => {
                if names_set(kind, count) {
                    self.add(alloc, columns, kind, b, c, d)
                } else if names_no_set(kind, count) {
                    self.add(alloc, columns, kind, &[], b, c)
                } else {
                    Err(LineFault::Refused(FaultKind::Syntax))
                }
            }
        }
    }
}
