//! What drafts are lowered to, and how many times.

use crate::drafting::{add_name, empty, take_line};
use crate::forming::is_well_formed;
use crate::printing::write_model;
use anyhow::{Result, bail};
use sp_base::{next_field, next_line};
use sp_draft::{Draft, Names};
use sp_lower::{LowerRefusal, lower};
use sp_model::Model;
use std::alloc::Global;
use std::io;
use std::io::{BufWriter, Write};

/// The model of a draft, where it is well-formed, or its refusal.
fn lowered(alloc: Global, draft: &Draft) -> Result<Result<Model, LowerRefusal>> {
    if !is_well_formed(draft) {
        bail!("a draft speaks of a variable that it doesn't have");
    }
    Ok(lower(alloc, draft))
}

/// Writes the model of a draft, or its refusal.
fn write_lowered<W: Write>(out: &mut W, alloc: Global, draft: &Draft) -> Result<()> {
    match lowered(alloc, draft)? {
        Ok(model) => write_model(out, &model)?,
        Err(LowerRefusal::NoMemory) => bail!("no memory for a model"),
        Err(refusal) => writeln!(out, "refused {refusal:?}")?,
    }
    Ok(())
}

/// Writes how many rows the model of a draft has, after it was lowered so many times.
fn write_rows<W: Write>(out: &mut W, alloc: Global, draft: &Draft, rounds: u32) -> Result<()> {
    let mut rows = 0;
    for _ in 0..rounds {
        match lowered(alloc, draft)? {
            Ok(model) => rows = model.parts().rows.len(),
            Err(refusal) => bail!("refused {refusal:?}"),
        }
    }
    writeln!(out, "rows {rows}")?;
    Ok(())
}

/// What is done at the end of a draft.
fn finish<W: Write>(out: &mut W, alloc: Global, draft: &Draft, rounds: Option<u32>) -> Result<()> {
    match rounds {
        None => write_lowered(out, alloc, draft),
        Some(rounds) => write_rows(out, alloc, draft, rounds),
    }
}

/// Takes a line: it adds to the draft, or ends it.
fn take<W: Write>(
    out: &mut W,
    alloc: Global,
    draft: &mut Draft,
    line: &[u8],
    rounds: Option<u32>,
) -> Result<()> {
    match next_field(line) {
        None => Ok(()),
        Some((b"end", _)) => {
            finish(out, alloc, draft, rounds)?;
            *draft = empty(alloc);
            Ok(())
        }
        Some((word, fields)) => take_line(alloc, draft, word, fields),
    }
}

/// Lowers the drafts of the lines, and prints a line for each.
pub fn lower_drafts<P: Print>(
    rt: &P,
    alloc: Global,
    file: &[u8],
    rounds: Option<u32>,
) -> Result<()> {
    let mut out = BufWriter::new(alloc, io::writer(rt))?;
    let mut draft = empty(alloc);
    let mut rest = file;
    while let Some((line, behind)) = next_line(rest) {
        take(&mut out, alloc, &mut draft, line, rounds)?;
        rest = behind;
    }
    out.flush()?;
    Ok(())
}

/// How many different fields the text has.
pub fn count_names(alloc: Global, file: &[u8]) -> Result<usize> {
    let mut names = Names::new(alloc);
    let mut rest = file;
    while let Some((name, behind)) = next_field(rest) {
        add_name(&mut names, name)?;
        rest = behind;
    }
    Ok(names.len())
}
