//! A model as a line of text.

use sp_model::{Indicator, Model, Row, Sos, SosKind, VarId};
use std::io;
use std::io::Write;

/// Writes the parts of a model in one line: direction, scale and constant, the objective's terms, the stated bounds of
/// each variable, and what comes with them.
pub fn write_model<W: Write>(out: &mut W, model: &Model) -> io::Result<()> {
    let parts = model.parts();
    let direction = if parts.maximize { "max" } else { "min" };
    let scale = parts.scale;
    let constant = parts.constant;
    write!(out, "{direction} {scale} {constant} cost")?;
    write_terms(out, parts.cost.as_slice())?;
    write_bounds(out, parts.lower.as_slice(), parts.upper.as_slice())?;
    write_cores(out, parts.semi.as_slice())?;
    write_rows(out, parts.rows.as_slice())?;
    write_indicators(out, parts.indicators.as_slice())?;
    write_sets(out, parts.sos.as_slice())?;
    out.write_all(b"\n")
}

fn write_terms<W: Write>(out: &mut W, terms: &[(VarId, i128)]) -> io::Result<()> {
    for term in terms {
        let place = term.0.index();
        let value = term.1;
        write!(out, " {place}:{value}")?;
    }
    Ok(())
}

fn write_bound<W: Write>(out: &mut W, bound: &Option<i64>) -> io::Result<()> {
    match bound {
        None => out.write_all(b" -"),
        Some(value) => write!(out, " {value}"),
    }
}

fn write_bounds<W: Write>(
    out: &mut W,
    lower: &[Option<i64>],
    upper: &[Option<i64>],
) -> io::Result<()> {
    for bounds in lower.iter().zip(upper) {
        out.write_all(b"; var")?;
        write_bound(out, bounds.0)?;
        write_bound(out, bounds.1)?;
    }
    Ok(())
}

fn write_cores<W: Write>(out: &mut W, cores: &[(VarId, i64, i64)]) -> io::Result<()> {
    for core in cores {
        let place = core.0.index();
        let least = core.1;
        let greatest = core.2;
        write!(out, "; core {place} {least} {greatest}")?;
    }
    Ok(())
}

fn write_side<W: Write>(out: &mut W, side: &Option<i128>) -> io::Result<()> {
    match side {
        None => out.write_all(b" -"),
        Some(value) => write!(out, " {value}"),
    }
}

fn write_row<W: Write>(out: &mut W, row: &Row) -> io::Result<()> {
    write_side(out, &row.lo)?;
    write_side(out, &row.hi)?;
    write_terms(out, row.terms.as_slice())
}

fn write_rows<W: Write>(out: &mut W, rows: &[Row]) -> io::Result<()> {
    for row in rows {
        out.write_all(b"; row")?;
        write_row(out, row)?;
    }
    Ok(())
}

fn write_indicators<W: Write>(out: &mut W, indicators: &[Indicator]) -> io::Result<()> {
    for indicator in indicators {
        let place = indicator.var.index();
        let on = if indicator.on { 1 } else { 0 };
        write!(out, "; if {place} {on}")?;
        write_row(out, &indicator.row)?;
    }
    Ok(())
}

fn write_sets<W: Write>(out: &mut W, sets: &[Sos]) -> io::Result<()> {
    for set in sets {
        out.write_all(match set.kind {
            SosKind::One => b"; set 1",
            SosKind::Two => b"; set 2",
        })?;
        for var in set.vars.as_slice() {
            let place = var.index();
            write!(out, " {place}")?;
        }
    }
    Ok(())
}
