//! The spans of rows with the marks of those that are broken, and their change by one variable's range.

ghost use Rattle.std.specs.Prelude.{◌≡◌, ◌<◌, ◌≤◌, length, slice_set};
ghost use Rattle.sp_model.specs.Boxes.{range_at};
ghost use Rattle.sp_sums.specs.Columns.{column_of};
ghost use Rattle.sp_sums.specs.Inner.{IsMove, IsNext, IsTally, IsTermSmall, IsSpanSmall, marks, moved, span_at};

use crate::flags::Flags;
use crate::spans::{Span, is_broken, moved};
use sp_model::{BoxOf, Items, Row, RowId, VarId};

/// The span of each row, and which of the rows are broken.
#[derive(Debug, Drop)]
pub struct Tally {
    /// Each row's span.
    pub spans: Items<Span>,
    /// Whether each row is broken.
    pub broken: Flags,
}

impl Tally {
    /// Puts a row's span, in place of the one there.
    fn put(&mut self, rows: &[Row], at: usize, span: &Span)
        requires known { at < length rows.now }
        requires paired { length self.old.spans ≡ length rows.now }
        requires marked { self.old.broken ≡ marks rows.now self.old.spans }
        ensures spans { self.new.spans ≡ slice_set self.old.spans at span.now }
        ensures marked { self.new.broken ≡ marks rows.now self.new.spans }
    {
        let broken = is_broken(&rows[at], span);
        self.spans.set(at, *span);
        self.broken.put(at, broken);
    }

    /// Moves the span of the entry's row, after its variable's range went from one to another.
    fn move_row(&mut self, rows: &[Row], entry: &(RowId, i128), from: &(i64, i64), to: &(i64, i64))
        requires paired { length self.old.spans ≡ length rows.now }
        requires marked { self.old.broken ≡ marks rows.now self.old.spans }
        requires next { IsNext from.now to.now (length rows.now) entry.now self.old.spans }
        ensures spans { self.new.spans ≡ slice_set self.old.spans entry.now.0 (moved (span_at self.old.spans entry.now.0) entry.now.1 from.now to.now) }
        ensures marked { self.new.broken ≡ marks rows.now self.new.spans }
    {
        let at = entry.0.index();
        let span = moved(&self.spans.as_slice()[at], &entry.1, from, to);
        self.put(rows, at, &span);
    }

    /// Moves the spans of a variable's rows, where its range goes to another.
    pub fn move_column(
        &mut self,
        root: &BoxOf,
        rows: &[Row],
        column: &[(RowId, i128)],
        bounds: &BoxOf,
        var: VarId,
        to: &(i64, i64),
    )
        requires change { IsMove root.now bounds.now rows.now var to.now }
        requires column { column.now ≡ column_of var rows.now }
        requires tally { IsTally bounds.now rows.now self.old.spans self.old.broken }
        ensures { IsTally (slice_set bounds.now var to.now) rows.now self.new.spans self.new.broken }
    {
        let _root = root;
        let from = bounds.range(var);
        for entry in column {
            self.move_row(rows, entry, &from, to);
        }
    }
}
