//! What is printed of a line.

use anyhow::Result;
use sp_base::{Text, next_line};
use sp_command::{Command, CommandRefusal, DiversityTerm, RangeTerm, Setting, Shown, parse};
use sp_decimal::Decimal;
use sp_model::Gap;
use sp_pool::Rule;
use std::alloc::Global;
use std::io;
use std::io::{BufWriter, Write};

/// Prints a line for each line.
pub fn print_lines<P: Print>(rt: &P, alloc: Global, file: &[u8]) -> Result<()> {
    let mut out = BufWriter::new(alloc, io::writer(rt))?;
    let mut rest = file;
    while let Some((line, behind)) = next_line(rest) {
        write_line(&mut out, alloc, line)?;
        rest = behind;
    }
    out.flush()?;
    Ok(())
}

/// Writes what the line says.
fn write_line<W: Write>(out: &mut W, alloc: Global, line: &[u8]) -> io::Result<()> {
    match parse(alloc, line) {
        Ok(command) => write_command(out, &command)?,
        Err(CommandRefusal::LongLine) => out.write_all(b"long line")?,
        Err(CommandRefusal::UnknownCommand) => out.write_all(b"unknown command")?,
        Err(CommandRefusal::BadArgument) => out.write_all(b"bad argument")?,
        Err(CommandRefusal::NoMemory) => out.write_all(b"no memory")?,
    }
    out.write_all(b"\n")
}

fn write_command<W: Write>(out: &mut W, command: &Command) -> io::Result<()> {
    match command {
        Command::Read(file) => write_named(out, b"read ", file),
        Command::Optimize => out.write_all(b"optimize"),
        Command::Populate => out.write_all(b"populate"),
        Command::NBest(count) => write!(out, "nbest {count}"),
        Command::Set(setting) => write_setting(out, setting),
        Command::FilterRange {
            name,
            lo,
            terms,
            hi,
        } => {
            write_named(out, b"range ", name)?;
            write_bounds(out, lo, hi)?;
            write_range_terms(out, terms.as_slice())
        }
        Command::FilterDiversity {
            name,
            lo,
            hi,
            terms,
        } => {
            write_named(out, b"diversity ", name)?;
            write_bounds(out, lo, hi)?;
            write_distances(out, terms.as_slice())
        }
        Command::FilterDelete(name) => write_named(out, b"delete ", name),
        Command::Display(what) => write_shown(out, *what),
        Command::WriteTree(file) => write_named(out, b"write ", file),
        Command::Quit => out.write_all(b"quit"),
        Command::Blank => out.write_all(b"blank"),
    }
}

fn write_named<W: Write>(out: &mut W, verb: &[u8], name: &Text) -> io::Result<()> {
    out.write_all(verb)?;
    out.write_all(name.as_slice())
}

fn write_shown<W: Write>(out: &mut W, what: Shown) -> io::Result<()> {
    match what {
        Shown::Found => out.write_all(b"display found"),
        Shown::Pool => out.write_all(b"display pool"),
        Shown::Settings => out.write_all(b"display settings"),
        Shown::Model => out.write_all(b"display model"),
        Shown::Filters => out.write_all(b"display filters"),
    }
}

fn write_setting<W: Write>(out: &mut W, setting: &Setting) -> io::Result<()> {
    match setting {
        Setting::AbsGap(gap) => write_gap(out, b"absgap ", gap),
        Setting::RelGap(gap) => write_gap(out, b"relgap ", gap),
        Setting::Capacity(n) => write!(out, "capacity {n}"),
        Setting::Intensity(n) => write!(out, "intensity {n}"),
        Setting::Replace(Rule::Fifo) => out.write_all(b"replace fifo"),
        Setting::Replace(Rule::Worst) => out.write_all(b"replace worst"),
        Setting::Populate(n) => write!(out, "limit populate {n}"),
        Setting::Nodes(n) => write!(out, "limit nodes {n}"),
    }
}

fn write_gap<W: Write>(out: &mut W, key: &[u8], gap: &Gap) -> io::Result<()> {
    out.write_all(key)?;
    match gap {
        Gap::Unlimited => out.write_all(b"unlimited"),
        Gap::Of { p, s } => write!(out, "{p}/{s}"),
    }
}

fn write_decimal<W: Write>(out: &mut W, d: &Decimal) -> io::Result<()> {
    let (p, s) = (d.p, d.s);
    write!(out, "{p}/{s}")
}

fn write_bound<W: Write>(out: &mut W, bound: &Option<Decimal>) -> io::Result<()> {
    match bound {
        None => out.write_all(b" none"),
        Some(d) => {
            out.write_all(b" ")?;
            write_decimal(out, d)
        }
    }
}

fn write_bounds<W: Write>(
    out: &mut W,
    lo: &Option<Decimal>,
    hi: &Option<Decimal>,
) -> io::Result<()> {
    write_bound(out, lo)?;
    write_bound(out, hi)
}

fn write_range_terms<W: Write>(out: &mut W, terms: &[RangeTerm]) -> io::Result<()> {
    for term in terms {
        out.write_all(b" ")?;
        out.write_all(term.0.as_slice())?;
        out.write_all(b"*")?;
        write_decimal(out, &term.1)?;
    }
    Ok(())
}

fn write_distances<W: Write>(out: &mut W, terms: &[DiversityTerm]) -> io::Result<()> {
    for term in terms {
        out.write_all(b" ")?;
        out.write_all(term.0.as_slice())?;
        out.write_all(b"*")?;
        write_decimal(out, &term.1)?;
        let reference = term.2;
        write!(out, "@{reference}")?;
    }
    Ok(())
}
