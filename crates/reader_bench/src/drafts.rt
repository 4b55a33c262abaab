//! What is printed of a draft.
ghost use Rattle.std.specs.Prelude.{◌<◌, length};

use sp_decimal::{Decimal, Numeral};
use sp_draft::{Draft, DraftIndicator, DraftRow, DraftSos, DraftVar, Names, Sense, Sides, VarKind};
use sp_model::{SosKind, VarId};
use std::io;
use std::io::Write;

/// Writes a line for the direction, and one for each variable, term of the objective, constant, row, indicator and set.
/// Variables stand by their place, but in their own lines.
pub fn write_draft<W: Write>(out: &mut W, draft: &Draft) -> io::Result<()> {
    out.write_all(direction(draft.maximize))?;
    write_vars(out, &draft.names, draft.vars.as_slice())?;
    for term in draft.cost.as_slice() {
        out.write_all(b"cost")?;
        write_term(out, term)?;
        out.write_all(b"\n")?;
    }
    for constant in draft.constants.as_slice() {
        out.write_all(b"constant")?;
        write_decimal(out, constant)?;
        out.write_all(b"\n")?;
    }
    for row in draft.rows.as_slice() {
        out.write_all(b"row")?;
        write_row(out, row)?;
    }
    for indicator in draft.indicators.as_slice() {
        write_indicator(out, indicator)?;
    }
    for set in draft.sos.as_slice() {
        write_set(out, set)?;
    }
    Ok(())
}

/// The line of a direction.
fn direction(maximize: bool) -> &'static [u8] {
    if maximize {
        b"maximize\n"
    } else {
        b"minimize\n"
    }
}

/// Writes a line for each variable: its name, its kind, its bounds, and `semi` if it is that.
fn write_vars<W: Write>(out: &mut W, names: &Names, vars: &[DraftVar]) -> io::Result<()> {
    for (place, var) in vars.iter().enumerate() {
        if place < names.len() {
            out.write_all(b"var ")?;
            out.write_all(names.name(VarId::new(place as u32)))?;
            write_var(out, var)?;
        }
    }
    Ok(())
}

/// Writes what a file states of a variable, and ends the line.
fn write_var<W: Write>(out: &mut W, var: &DraftVar) -> io::Result<()> {
    out.write_all(kind(var.kind))?;
    write_bound(out, &var.lower)?;
    write_bound(out, &var.upper)?;
    if var.semi {
        out.write_all(b" semi")?;
    }
    out.write_all(b"\n")
}

/// The word of a kind.
fn kind(kind: VarKind) -> &'static [u8] {
    match kind {
        VarKind::Continuous => b" continuous",
        VarKind::Integer => b" integer",
        VarKind::Binary => b" binary",
    }
}

/// Writes a bound, or a dash where none is stated.
fn write_bound<W: Write>(out: &mut W, bound: &Option<Numeral>) -> io::Result<()> {
    match bound {
        None => out.write_all(b" -"),
        Some(value) => write_numeral(out, value),
    }
}

/// Writes a decimal as its digits over its places.
fn write_decimal<W: Write>(out: &mut W, decimal: &Decimal) -> io::Result<()> {
    let (digits, places) = (decimal.p, decimal.s);
    write!(out, " {digits}/{places}")
}

/// Writes a decimal, or the sign of a huge number.
fn write_numeral<W: Write>(out: &mut W, numeral: &Numeral) -> io::Result<()> {
    match numeral {
        Numeral::Exact(decimal) => write_decimal(out, decimal),
        Numeral::Huge { negative: false } => out.write_all(b" +huge"),
        Numeral::Huge { negative: true } => out.write_all(b" -huge"),
    }
}

/// Writes the place of a variable and its number.
fn write_term<W: Write>(out: &mut W, term: &(VarId, Decimal)) -> io::Result<()> {
    let place = term.0.index();
    write!(out, " {place}")?;
    write_decimal(out, &term.1)
}

/// Writes what a row is held to and its terms, and ends the line.
fn write_row<W: Write>(out: &mut W, row: &DraftRow) -> io::Result<()> {
    write_sides(out, &row.sides)?;
    for term in row.terms.as_slice() {
        write_term(out, term)?;
    }
    out.write_all(b"\n")
}

/// Writes what a row is held to.
fn write_sides<W: Write>(out: &mut W, sides: &Sides) -> io::Result<()> {
    match sides {
        Sides::Le(side) => {
            out.write_all(b" le")?;
            write_numeral(out, side)
        }
        Sides::Ge(side) => {
            out.write_all(b" ge")?;
            write_numeral(out, side)
        }
        Sides::Eq(side) => {
            out.write_all(b" eq")?;
            write_numeral(out, side)
        }
        Sides::Between(low, high) => {
            out.write_all(b" between")?;
            write_numeral(out, low)?;
            write_numeral(out, high)
        }
        Sides::Ranged { sense, rhs, range } => {
            out.write_all(b" ranged")?;
            out.write_all(letter(*sense))?;
            write_numeral(out, rhs)?;
            write_decimal(out, range)
        }
    }
}

/// The letter of a row's kind.
fn letter(sense: Sense) -> &'static [u8] {
    match sense {
        Sense::Less => b" L",
        Sense::Greater => b" G",
        Sense::Equal => b" E",
    }
}

/// Writes a line for an indicator: its variable, the value at which the row holds, and the row.
fn write_indicator<W: Write>(out: &mut W, indicator: &DraftIndicator) -> io::Result<()> {
    let (place, on) = (indicator.var.index(), u8::from(indicator.on));
    write!(out, "indicator {place} {on}")?;
    write_row(out, &indicator.row)
}

/// Writes a line for a set: how many members may differ from zero, and its members with their weights.
fn write_set<W: Write>(out: &mut W, set: &DraftSos) -> io::Result<()> {
    out.write_all(match set.kind {
        SosKind::One => b"sos 1",
        SosKind::Two => b"sos 2",
    })?;
    for member in set.members.as_slice() {
        write_term(out, member)?;
    }
    out.write_all(b"\n")
}
