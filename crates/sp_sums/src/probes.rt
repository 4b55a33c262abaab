//! What a change would make of the rows of a column.

ghost use Rattle.std.specs.Prelude.{◌≡◌, length, map, slice_set, MatchOption};
ghost use Rattle.sp_sums.specs.Columns.{column_of};
ghost use Rattle.sp_sums.specs.Extremes.{is_broken, span_of};
ghost use Rattle.sp_sums.specs.Inner.{IsMove, IsNext, moved, span_at};
ghost use Rattle.sp_sums.specs.Rows.{IsBrokenAt, NoMoreBroken, row_at};

use crate::spans::{Span, is_broken, moved};
use sp_model::{BoxOf, Row, RowId, VarId};

/// A row of the column that would be broken if the variable had this range; where there is none, no row would be that isn't
/// broken now.
pub fn broken_after(
    root: &BoxOf,
    bounds: &BoxOf,
    rows: &[Row],
    column: &[(RowId, i128)],
    spans: &[Span],
    var: VarId,
    range: &(i64, i64),
) -> Option<RowId>
    requires change { IsMove root.now bounds.now rows.now var range.now }
    requires column { column.now ≡ column_of var rows.now }
    requires spans { spans.now ≡ map (span_of bounds.now) rows.now }
    ensures { let after = slice_set bounds.now var range.now in MatchOption result
        (NoMoreBroken rows.now bounds.now after)
        (λ k. IsBrokenAt after rows.now k) }
{
    let _root = root;
    let from = bounds.range(var);
    for entry in column {
        if would_break(rows, spans, entry, &from, range) {
            return Some(entry.0);
        }
    }
    None
}

/// Whether the entry's row would be broken after the range of its variable went from one to another.
fn would_break(
    rows: &[Row],
    spans: &[Span],
    entry: &(RowId, i128),
    from: &(i64, i64),
    to: &(i64, i64),
) -> bool
    requires next { IsNext from.now to.now (length rows.now) entry.now spans.now }
    requires paired { length spans.now ≡ length rows.now }
    ensures { result
        ≡ is_broken (row_at rows.now entry.now.0) (moved (span_at spans.now entry.now.0) entry.now.1 from.now to.now) }
{
    let at = entry.0.index();
    let span = moved(&spans[at], &entry.1, from, to);
    is_broken(&rows[at], &span)
}
