//! What is printed of a draft.
ghost use Rattle.std.specs.Prelude.{◌≤◌, ◌^◌, length};

use anyhow::Result;
use sp_decimal::{Decimal, Numeral};
use sp_draft::{Draft, DraftIndicator, DraftRow, DraftSos, DraftVar, Names, Sides, VarKind};
use sp_lp::read_lp;
use sp_model::{Items, SosKind, VarId};
use std::alloc::Global;
use std::io;
use std::io::{BufWriter, Write};

/// Prints of each of the files, which are parted by bytes 0, its draft or its refusal.
pub fn show_files<P: Print>(rt: &P, alloc: Global, all: &[u8]) -> Result<()>
    requires { length all.now ≤ 2 ^ 26 }
{
    let mut out = BufWriter::new(alloc, io::writer(rt))?;
    for file in all.split(|byte| *byte == 0) {
        if file.len() <= 1 << 26 {
            show_file(&mut out, alloc, file)?;
        }
    }
    out.flush()?;
    Ok(())
}

fn show_file<W: Write>(out: &mut W, alloc: Global, file: &[u8]) -> io::Result<()>
    requires { length file.now ≤ 2 ^ 26 }
{
    match read_lp(alloc, file) {
        Ok(draft) => show_draft(out, &draft)?,
        Err(refusal) => writeln!(out, "{refusal:?}")?,
    }
    out.write_all(b"%\n")
}

fn show_draft<W: Write>(out: &mut W, draft: &Draft) -> io::Result<()> {
    out.write_all(if draft.maximize { b"max\n" } else { b"min\n" })?;
    for (place, var) in draft.vars.as_slice().iter().enumerate() {
        show_var(out, &draft.names, place, var)?;
    }
    out.write_all(b"cost")?;
    show_terms(out, &draft.cost)?;
    out.write_all(b"\nconstants")?;
    for constant in draft.constants.as_slice() {
        out.write_all(b" ")?;
        show_decimal(out, constant)?;
    }
    out.write_all(b"\n")?;
    for row in draft.rows.as_slice() {
        out.write_all(b"row ")?;
        show_row(out, row)?;
    }
    for indicator in draft.indicators.as_slice() {
        show_indicator(out, indicator)?;
    }
    for set in draft.sos.as_slice() {
        show_set(out, set)?;
    }
    Ok(())
}

fn show_var<W: Write>(out: &mut W, names: &Names, place: usize, var: &DraftVar) -> io::Result<()> {
    out.write_all(b"var ")?;
    if place < names.len() {
        out.write_all(names.name(VarId::new(place as u32)))?;
    }
    out.write_all(match var.kind {
        VarKind::Continuous => b" C ",
        VarKind::Integer => b" I ",
        VarKind::Binary => b" B ",
    })?;
    show_bound(out, &var.lower)?;
    out.write_all(b" ")?;
    show_bound(out, &var.upper)?;
    out.write_all(if var.semi { b" semi\n" } else { b" .\n" })
}

fn show_bound<W: Write>(out: &mut W, bound: &Option<Numeral>) -> io::Result<()> {
    match bound {
        None => out.write_all(b"."),
        Some(number) => show_numeral(out, number),
    }
}

fn show_numeral<W: Write>(out: &mut W, number: &Numeral) -> io::Result<()> {
    match number {
        Numeral::Exact(decimal) => show_decimal(out, decimal),
        Numeral::Huge { negative } => out.write_all(if *negative { b"-inf" } else { b"inf" }),
    }
}

fn show_decimal<W: Write>(out: &mut W, decimal: &Decimal) -> io::Result<()> {
    let (digits, places) = (decimal.p, decimal.s);
    write!(out, "{digits}/{places}")
}

fn show_terms<W: Write>(out: &mut W, terms: &Items<(VarId, Decimal)>) -> io::Result<()> {
    for term in terms.as_slice() {
        let var = term.0.index();
        write!(out, " {var}:")?;
        show_decimal(out, &term.1)?;
    }
    Ok(())
}

fn show_row<W: Write>(out: &mut W, row: &DraftRow) -> io::Result<()> {
    show_sides(out, &row.sides)?;
    show_terms(out, &row.terms)?;
    out.write_all(b"\n")
}

fn show_sides<W: Write>(out: &mut W, sides: &Sides) -> io::Result<()> {
    match sides {
        Sides::Le(value) => {
            out.write_all(b"L ")?;
            show_numeral(out, value)
        }
        Sides::Ge(value) => {
            out.write_all(b"G ")?;
            show_numeral(out, value)
        }
        Sides::Eq(value) => {
            out.write_all(b"E ")?;
            show_numeral(out, value)
        }
        Sides::Between(low, high) => {
            out.write_all(b"B ")?;
            show_numeral(out, low)?;
            out.write_all(b" ")?;
            show_numeral(out, high)
        }
        Sides::Ranged { .. } => out.write_all(b"R"),
    }
}

fn show_indicator<W: Write>(out: &mut W, indicator: &DraftIndicator) -> io::Result<()> {
    let var = indicator.var.index();
    write!(out, "if {var} ")?;
    out.write_all(if indicator.on { b"1 " } else { b"0 " })?;
    show_row(out, &indicator.row)
}

fn show_set<W: Write>(out: &mut W, set: &DraftSos) -> io::Result<()> {
    out.write_all(match set.kind {
        SosKind::One => b"set 1",
        SosKind::Two => b"set 2",
    })?;
    show_terms(out, &set.members)?;
    out.write_all(b"\n")
}
