//! A line, what it says to do, and what is printed then.

use crate::calls::{Answer, close, drop_filter, hold, keep, split, tree_over};
use crate::growing::{ask, boxes, chain, close_all, full};
use crate::numbers::{number, small};
use sp_filter::Filters;
use sp_tree::{NodeId, Tree};
use std::alloc::Global;
use std::io;
use std::io::Write;
use std::str::SplitWhitespace;
use std::time::CpuClock;

/// Does what the lines say, one after another.
pub fn tell_all<R: CpuClock, W: Write>(
    rt: &R,
    out: &mut W,
    alloc: Global,
    text: &str,
) -> io::Result<()> {
    match tree_over(alloc, &mut "".split_whitespace()) {
        Ok(mut tree) => {
            let mut filters = Filters::new(alloc);
            tell_lines(rt, out, alloc, &mut tree, &mut filters, text)
        }
        Err(_) => Ok(()),
    }
}

fn tell_lines<R: CpuClock, W: Write>(
    rt: &R,
    out: &mut W,
    alloc: Global,
    tree: &mut Tree,
    filters: &mut Filters,
    text: &str,
) -> io::Result<()> {
    for line in text.lines() {
        tell(rt, out, alloc, tree, filters, line)?;
    }
    Ok(())
}

/// Does what a line says, and prints what is answered.
fn tell<R: CpuClock, W: Write>(
    rt: &R,
    out: &mut W,
    alloc: Global,
    tree: &mut Tree,
    filters: &mut Filters,
    line: &str,
) -> io::Result<()> {
    let mut words = line.split_whitespace();
    match words.next() {
        None => Ok(()),
        Some("show") => show(out, tree, filters, number(&mut words)),
        Some("time") => tell_time(rt, out),
        Some(word) => {
            let answer = answer_of(alloc, tree, filters, word, &mut words);
            writeln!(out, "{answer:?}")
        }
    }
}

/// Prints the nanoseconds of processor time so far.
fn tell_time<R: CpuClock, W: Write>(rt: &R, out: &mut W) -> io::Result<()> {
    let time = rt.process_cpu_time()?.as_nanos();
    writeln!(out, "{time}")
}

/// `box COUNT LEAST GREATEST ..`
fn begin(alloc: Global, tree: &mut Tree, words: &mut SplitWhitespace<'_>) -> Answer {
    match tree_over(alloc, words) {
        Ok(new) => {
            *tree = new;
            Answer::Grown(1)
        }
        Err(_) => Answer::NoMemory,
    }
}

/// Does what a line asks for.
fn answer_of(
    alloc: Global,
    tree: &mut Tree,
    filters: &mut Filters,
    word: &str,
    words: &mut SplitWhitespace<'_>,
) -> Answer {
    match word {
        "box" => begin(alloc, tree, words),
        "split" => split(tree, words),
        "reopen" => Answer::Opened(tree.reopen(number(words), filters)),
        "keep" => keep(alloc, tree, words),
        "hold" => hold(alloc, filters, words),
        "drop" => drop_filter(alloc, filters, words),
        _ => many(alloc, tree, word, words),
    }
}

/// Makes many calls, or closes a leaf.
fn many(alloc: Global, tree: &mut Tree, word: &str, words: &mut SplitWhitespace<'_>) -> Answer {
    match word {
        "chain" => Answer::Grown(chain(alloc, tree, small(words))),
        "boxes" => Answer::Grown(boxes(alloc, tree, small(words))),
        "full" => Answer::Grown(full(tree, small(words))),
        "closeall" => Answer::Grown(close_all(tree)),
        "ask" => Answer::Grown(ask(tree, small(words), small(words), small(words))),
        _ => close(tree, word, words),
    }
}

/// Prints the tree: whether it is complete for the cut, how many nodes and lists it has, its first open leaf, and each
/// node.
fn show<W: Write>(out: &mut W, tree: &Tree, filters: &Filters, cut: i128) -> io::Result<()> {
    let complete = tree.is_complete(cut, filters);
    let (size, lists, first) = (tree.size(), tree.multipliers().len(), tree.open_leaf());
    writeln!(
        out,
        "complete {complete} size {size} lists {lists} open {first:?}"
    )?;
    for place in 0..size {
        show_node(out, tree, filters, &cut, NodeId::new(place))?;
    }
    Ok(())
}

/// Prints a node: its place, its parent, whether it is licensed for the cut, its mark, its kind and its box.
fn show_node<W: Write>(
    out: &mut W,
    tree: &Tree,
    filters: &Filters,
    cut: &i128,
    id: NodeId,
) -> io::Result<()> {
    if id.place() >= tree.size() {
        return Ok(());
    }
    let node = tree.node(id);
    let (place, parent, licensed) = (id.place(), tree.parent(id), node.is_licensed(cut, filters));
    let (mark, kind) = (&node.mark, &node.kind);
    writeln!(out, "{place} {parent:?} {licensed} {mark:?} {kind:?}")?;
    match tree.box_of(id) {
        Ok(bounds) => {
            let (lower, upper) = (bounds.lower.as_slice(), bounds.upper.as_slice());
            writeln!(out, "  {lower:?} {upper:?}")
        }
        Err(_) => out.write_all(b"  no memory\n"),
    }
}
