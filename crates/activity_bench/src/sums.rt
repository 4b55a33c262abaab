//! The least and the greatest sum of rows, kept and from nothing.

ghost use Rattle.std.specs.Prelude.{◌<◌, length};
ghost use Rattle.sp_sums.specs.Ranges.{IsFilled};
ghost use Rattle.sp_sums.specs.Rows.{IsRowFit};

use sp_activity::{least, most};
use sp_model::{BoxOf, Row, RowId};
use sp_sums::{Span, Sums, rows_are_narrow_inside};
use std::io;
use std::io::Write;

/// Prints both sums of each row, kept and from nothing.
pub fn tell_sums<W: Write>(out: &mut W, sums: &Sums) -> io::Result<()> {
    let _root = sums.root();
    for at in 0..sums.rows().len() {
        tell_sum(out, sums, RowId::new(at as u32))?;
    }
    Ok(())
}

fn tell_sum<W: Write>(out: &mut W, sums: &Sums, row: RowId) -> io::Result<()>
    requires { row < length sums.now.rows }
{
    write_spans(out, &sums.span(row), &plain_span(sums, row))
}

fn write_spans<W: Write>(out: &mut W, kept: &Span, plain: &Span) -> io::Result<()> {
    let (least, most) = (kept.least, kept.most);
    let (plain_least, plain_most) = (plain.least, plain.most);
    writeln!(out, "sums {least} {most} {plain_least} {plain_most}")
}

/// Both sums of a row over the box, from nothing.
fn plain_span(sums: &Sums, row: RowId) -> Span
    requires { row < length sums.now.rows }
{
    rows_are_narrow_inside();
    let _root = sums.root();
    extremes_of(&sums.rows()[row.index()], sums.bounds())
}

fn extremes_of(row: &Row, bounds: &BoxOf) -> Span
    requires fit { IsRowFit bounds.now row.now }
    requires filled { IsFilled bounds.now }
{
    Span {
        least: least(row, bounds),
        most: most(row, bounds),
    }
}
