//! What is printed of a model file.
ghost use Rattle.std.specs.Prelude.{◌≤◌, ◌^◌, length};

use crate::drafts::write_draft;
use anyhow::{Result, bail};
use sp_draft::{Draft, ReadRefusal};
use sp_mps::read_mps;
use std::alloc::Global;
use std::io;
use std::io::{BufWriter, Write};

/// Prints the draft of an MPS file, or why there is none.
pub fn list_mps<P: Print>(rt: &P, alloc: Global, file: &[u8]) -> Result<()>
    requires { length file.now ≤ 2 ^ 26 }
{
    match read_mps(alloc, file) {
        Ok(draft) => {
            let mut out = BufWriter::new(alloc, io::writer(rt))?;
            write_draft(&mut out, &draft)?;
            out.flush()?;
        }
        Err(refusal) => report(rt, refusal)?,
    }
    Ok(())
}

/// Prints how many variables and rows an MPS file has, or why it isn't read.
pub fn count_mps<P: Print>(rt: &P, alloc: Global, file: &[u8]) -> Result<()>
    requires { length file.now ≤ 2 ^ 26 }
{
    match read_mps(alloc, file) {
        Ok(draft) => {
            let (vars, rows) = counts(&draft);
            println!(rt; "variables {vars} rows {rows}")?;
        }
        Err(refusal) => report(rt, refusal)?,
    }
    Ok(())
}

/// The numbers of variables and of rows.
fn counts(draft: &Draft) -> (usize, usize) {
    (draft.vars.as_slice().len(), draft.rows.as_slice().len())
}

/// Prints a refusal and its line; want of memory is an error.
fn report<P: Print>(rt: &P, refusal: ReadRefusal) -> Result<()> {
    match refusal {
        ReadRefusal::Syntax { line } => println!(rt; "refused syntax line {line}")?,
        ReadRefusal::WideNumeral { line } => println!(rt; "refused wide numeral line {line}")?,
        ReadRefusal::DuplicateName { line } => println!(rt; "refused duplicate name line {line}")?,
        ReadRefusal::UnknownName { line } => println!(rt; "refused unknown name line {line}")?,
        ReadRefusal::Unsupported { line } => println!(rt; "refused unsupported line {line}")?,
        ReadRefusal::NoMemory => bail!("no memory for the model"),
    }
    Ok(())
}
