//! Sums of rows over one box, which are kept while ranges of the box change.

ghost use Rattle.std.specs.Prelude.{◌≡◌, ◌<◌, ◌↔◌, count_by, length, slice_set, IfOk, IsTrue, MatchOption};
ghost use Rattle.sp_sums.specs.Columns.{column_of};
ghost use Rattle.sp_sums.specs.Extremes.{is_broken_over, span_of};
ghost use Rattle.sp_sums.specs.Ranges.{IsChange, IsInside, IsPart};
ghost use Rattle.sp_sums.specs.Rows.{AreRowsFit, AreUnbroken, IsBrokenAt, IsFirstBroken, NoMoreBroken, row_at, with_range, with_upper};

use crate::columns::Columns;
use crate::making::tally_over;
use crate::probes::broken_after;
use crate::spans::{Span, is_broken};
use crate::tallies::Tally;
use sp_model::{BoxOf, Items, NoMemory, Row, RowId, VarId};
use std::alloc::Global;
use std::marker::Model;

/// Rows over a box within a root box, with the least and the greatest sum of each row over the box. Contracts see the root
/// box, the box and the rows; the sums are always those of the rows over the box.
#[derive(Debug, Drop)]
pub struct Sums {
    root: BoxOf,
    bounds: BoxOf,
    rows: Vec<Row>,
    columns: Columns,
    tally: Tally,
}

impl Model for Sums {
    ghost use Rattle.sp_sums.specs.Rows.{RowsOver};

    ghost Value = { RowsOver };

    ghost use Rattle.sp_sums.specs.Inner.{IsKept};

    ghost view = { λ s. record { root = s.root; bounds = s.bounds; rows = s.rows.items } };

    ghost invariant = { λ s. IsKept s.root s.bounds s.rows.items s.columns s.tally.spans s.tally.broken };
}

impl Sums {
    /// The sums of these rows over this box within the root box.
    pub fn new(
        alloc: Global,
        root: BoxOf,
        bounds: BoxOf,
        rows: Items<Row>,
    ) -> Result<Sums, NoMemory>
        requires inside { IsInside root bounds }
        requires fit { AreRowsFit root rows }
        ensures { IfOk result (λ s. s ≡ record { root = root; bounds = bounds; rows = rows }) }
    {
        let columns = Columns::new(alloc, root.len(), rows.as_slice())?;
        let tally = tally_over(alloc, rows.as_slice(), &bounds)?;
        Ok(Sums {
            root,
            bounds,
            rows: rows.into_vec(),
            columns,
            tally,
        })
    }

    /// The root box, in which the rows are fit and the box lies.
    pub fn root(&self) -> &BoxOf
        ensures same { result.now ≡ self.now.root }
        ensures fit { AreRowsFit self.now.root self.now.rows }
        ensures inside { IsInside self.now.root self.now.bounds }
    {
        &self.root
    }

    /// The box.
    pub fn bounds(&self) -> &BoxOf
        ensures { result.now ≡ self.now.bounds }
    {
        &self.bounds
    }

    /// The rows.
    pub fn rows(&self) -> &[Row]
        ensures { result.now ≡ self.now.rows }
    {
        self.rows.as_slice()
    }

    /// The rows that have a term of the variable, with its coefficient there.
    pub fn column(&self, var: VarId) -> &[(RowId, i128)]
        requires { var < length self.now.root }
        ensures { result.now ≡ column_of var self.now.rows }
    {
        self.columns.column(var)
    }

    /// The least and the greatest sum of a row over the box.
    pub fn span(&self, row: RowId) -> Span
        requires { row < length self.now.rows }
        ensures { result ≡ span_of self.now.bounds (row_at self.now.rows row) }
    {
        self.tally.spans.as_slice()[row.index()]
    }

    /// Whether a row can't hold at any point of the box.
    pub fn is_broken(&self, row: RowId) -> bool
        requires { row < length self.now.rows }
        ensures { result ≡ is_broken_over self.now.bounds (row_at self.now.rows row) }
    {
        self.tally.broken.get(row.index())
    }

    /// How many rows can't hold at any point of the box.
    pub fn broken(&self) -> u32
        ensures { result ≡ count_by (is_broken_over self.now.bounds) self.now.rows }
    {
        self.tally.broken.count()
    }

    /// The first row that can't hold at any point of the box. It looks for it only where there is one.
    pub fn first_broken(&self) -> Option<RowId>
        ensures { MatchOption result
            (AreUnbroken self.now.bounds self.now.rows)
            (λ k. IsFirstBroken self.now.bounds self.now.rows k) }
    {
        match self.tally.broken.first() {
            None => None,
            Some(at) => Some(RowId::new(at)),
        }
    }

    /// Whether `set` may be called: the variable is known, and the range isn't empty and lies within the root's.
    pub fn can_set(&self, var: VarId, range: &(i64, i64)) -> bool
        ensures { IsTrue result ↔ IsChange self.now.root var range.now }
    {
        if var.index() < self.root.len() {
            is_part(&self.root.range(var), range)
        } else {
            false
        }
    }

    /// Gives a variable another range. It takes no memory, and as long as the variable has terms.
    pub fn set(&mut self, var: VarId, range: &(i64, i64))
        requires { IsChange self.old.root var range.now }
        ensures { self.new ≡ with_range self.old var range.now }
    {
        let column = self.columns.column(var);
        self.tally.move_column(
            &self.root,
            self.rows.as_slice(),
            column,
            &self.bounds,
            var,
            range,
        );
        self.bounds.set(var, range);
    }

    /// Gives a row another greatest side, or none. It takes no memory, and the same time for each row.
    pub fn set_upper(&mut self, row: RowId, upper: &Option<i128>)
        requires { row < length self.old.rows }
        ensures { self.new ≡ with_upper self.old row upper.now }
    {
        let at = row.index();
        let changed = &mut self.rows[at];
        changed.hi = *upper;
        let broken = is_broken(&self.rows[at], &self.tally.spans.as_slice()[at]);
        self.tally.broken.put(at, broken);
    }

    /// A row that couldn't hold at any point of the box if the variable had this range; where there is none, no row that
    /// isn't broken now would be. The sums stay.
    pub fn broken_by(&self, var: VarId, range: &(i64, i64)) -> Option<RowId>
        requires { IsChange self.now.root var range.now }
        ensures { let after = slice_set self.now.bounds var range.now in MatchOption result
            (NoMoreBroken self.now.rows self.now.bounds after)
            (λ k. IsBrokenAt after self.now.rows k) }
    {
        broken_after(
            &self.root,
            &self.bounds,
            self.rows.as_slice(),
            self.columns.column(var),
            self.tally.spans.as_slice(),
            var,
            range,
        )
    }
}

fn is_part(whole: &(i64, i64), part: &(i64, i64)) -> bool
    ensures { IsTrue result ↔ IsPart whole.now part.now }
{
    whole.0 <= part.0 && part.0 <= part.1 && part.1 <= whole.1
}
