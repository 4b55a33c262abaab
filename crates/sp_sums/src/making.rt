//! The spans of rows over a box, from nothing.

ghost use Rattle.std.specs.Prelude.{◌≡◌, ◌<◌, ◌≤◌, All, length, map, IfOk};
ghost use Rattle.sp_sums.specs.Extremes.{AreTermsNarrow, span_over, span_of};
ghost use Rattle.sp_sums.specs.Inner.{IsTally, marks};

use crate::flags::Flags;
use crate::spans::{Span, is_broken, with_term};
use crate::tallies::Tally;
use sp_model::{BoxOf, Items, NoMemory, Row, VarId};
use std::alloc::Global;

/// The least and the greatest sum of the terms over a box.
pub fn span_over(terms: &[(VarId, i128)], bounds: &BoxOf) -> Span
    requires { AreTermsNarrow bounds.now terms.now }
    ensures { result ≡ span_over bounds.now terms.now }
{
    let mut span = Span { least: 0, most: 0 };
    for term in terms {
        let range = bounds.range(term.0);
        span = with_term(&span, &term.1, &range);
    }
    span
}

fn spans_over(alloc: Global, rows: &[Row], bounds: &BoxOf) -> Result<Vec<Span>, NoMemory>
    requires { All (λ row. AreTermsNarrow bounds.now row.terms) rows.now }
    ensures { IfOk result (λ v. v.items ≡ map (span_of bounds.now) rows.now) }
{
    let mut spans = Vec::with_capacity(alloc, rows.len())?;
    for row in rows {
        let span = span_over(row.terms.as_slice(), bounds);
        spans.push(span)?;
    }
    Ok(spans)
}

fn marks_of(alloc: Global, rows: &[Row], spans: &[Span]) -> Result<Flags, NoMemory>
    requires few { length rows.now ≤ 10000 }
    requires paired { length spans.now ≡ length rows.now }
    ensures { IfOk result (λ f. f ≡ marks rows.now spans.now) }
{
    let mut flags = Flags::new(alloc);
    for at in 0..rows.len() {
        let broken = is_broken(&rows[at], &spans[at]);
        flags.push(broken)?;
    }
    Ok(flags)
}

/// The spans and marks of rows over a box.
pub fn tally_over(alloc: Global, rows: &[Row], bounds: &BoxOf) -> Result<Tally, NoMemory>
    requires few { length rows.now ≤ 10000 }
    requires narrow { All (λ row. AreTermsNarrow bounds.now row.terms) rows.now }
    ensures { IfOk result (λ t. IsTally bounds.now rows.now t.spans t.broken) }
{
    let spans = spans_over(alloc, rows, bounds)?;
    let broken = marks_of(alloc, rows, spans.as_slice())?;
    Ok(Tally {
        spans: Items::from_vec(spans),
        broken,
    })
}
