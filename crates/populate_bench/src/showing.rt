//! What is printed of a state.

use anyhow::Result;
use sp_search::State;
use sp_tree::NodeId;
use std::alloc::Global;
use std::io;
use std::io::{BufWriter, Write};

/// Prints how many nodes and found points there are, and each node and each found point, one a line.
pub fn show_tree<P: Print>(rt: &P, alloc: Global, state: &State) -> Result<()> {
    let mut out = BufWriter::new(alloc, io::writer(rt))?;
    let (size, count) = (state.tree().size(), state.found().len());
    writeln!(out, "tree {size} {count}")?;
    for place in 0..size {
        let node = state.tree().node(NodeId::new(place));
        writeln!(out, "{node:?}")?;
    }
    for found in state.found() {
        writeln!(out, "{found:?}")?;
    }
    out.flush()?;
    Ok(())
}

/// Prints how a run ended, how many nodes there are, and how many points were found.
pub fn show_end<P: Print>(rt: &P, state: &State, end: &str) -> Result<()> {
    let (size, found) = (state.tree().size(), state.found().len());
    println!(rt; "{end} nodes {size} found {found}")?;
    Ok(())
}

/// The value of the best point that was found.
fn best_value(state: &State) -> Option<i128> {
    match state.best() {
        None => None,
        Some(serial) => match state.found().get((serial as usize).wrapping_sub(1)) {
            None => None,
            Some(found) => Some(found.value),
        },
    }
}

/// Prints the best value that was found.
pub fn show_value<P: Print>(rt: &P, state: &State) -> Result<()> {
    let value = best_value(state);
    println!(rt; "value {value:?}")?;
    Ok(())
}

/// Prints how many points are listed, and the serial of each.
pub fn show_list<P: Print>(rt: &P, serials: &[u32]) -> Result<()> {
    let count = serials.len();
    println!(rt; "listed {count} {serials:?}")?;
    Ok(())
}

/// Prints how many points are listed, and the serials of the first and the last one.
pub fn show_count<P: Print>(rt: &P, serials: &[u32]) -> Result<()> {
    let (count, first, last) = (serials.len(), serials.first(), serials.last());
    println!(rt; "counted {count} {first:?} {last:?}")?;
    Ok(())
}
