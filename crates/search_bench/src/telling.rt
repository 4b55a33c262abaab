//! What is printed of a search.

use sp_dual::Multipliers;
use sp_list::Found;
use sp_search::{OptEnd, State};
use sp_tree::{NodeId, Tree};
use std::io;
use std::io::Write;

/// The value of the best point that was found.
fn best_value(state: &State) -> Option<i128> {
    match state.best() {
        None => None,
        Some(serial) => match state.found().get((serial as usize).wrapping_sub(1)) {
            None => None,
            Some(found) => Some(found.value),
        },
    }
}

/// Prints how a search ended, the best value, and how many nodes there are.
pub fn tell_end<W: Write>(out: &mut W, state: &State, end: &OptEnd) -> io::Result<()> {
    let best = best_value(state);
    let size = state.tree().size();
    writeln!(out, "{end:?} best {best:?} nodes {size}")
}

/// Prints the nodes, the found points and the lists, one a line.
pub fn tell_tree<W: Write>(out: &mut W, state: &State) -> io::Result<()> {
    tell_nodes(out, state.tree())?;
    tell_found(out, state.found())?;
    tell_lists(out, state.tree().multipliers())
}

fn tell_nodes<W: Write>(out: &mut W, tree: &Tree) -> io::Result<()> {
    for place in 0..tree.size() {
        let node = tree.node(NodeId::new(place));
        writeln!(out, "{node:?}")?;
    }
    Ok(())
}

fn tell_found<W: Write>(out: &mut W, found: &[Found]) -> io::Result<()> {
    for point in found {
        writeln!(out, "{point:?}")?;
    }
    Ok(())
}

fn tell_lists<W: Write>(out: &mut W, lists: &[Multipliers]) -> io::Result<()> {
    for list in lists {
        let (divisor, entries) = (list.d, list.entries());
        writeln!(out, "List {divisor} {entries:?}")?;
    }
    Ok(())
}
