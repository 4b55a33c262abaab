//! The bounds of cases.

ghost use Rattle.std.specs.Prelude.{IfSome};
ghost use Rattle.sp_model.specs.Models.{root_of};
ghost use Rattle.sp_sums.specs.Ranges.{IsInside};
ghost use Rattle.sp_bound.specs.Bounds.{AreRowsKnown};
ghost use Rattle.sp_bound.specs.KeptBounds.{IsKeptOf};

use crate::cases::{list_of, model_of, side, small, value};
use sp_bound::{KeptBounds, Scratch, are_rows_known, bound, bound_in, has_points, lies_inside};
use sp_dual::Multipliers;
use sp_model::{BoxOf, Model, VarId};
use std::alloc::Global;
use std::io;
use std::io::Write;
use std::str::SplitWhitespace;

/// Prints each case, one a line.
pub fn tell_all<W: Write>(out: &mut W, alloc: Global, text: &str) -> io::Result<()> {
    for line in text.lines() {
        tell(out, alloc, line)?;
        out.write_all(b"\n")?;
    }
    Ok(())
}

/// Reads a case and prints it.
fn tell<W: Write>(out: &mut W, alloc: Global, line: &str) -> io::Result<()> {
    let mut words = line.split_whitespace();
    match model_of(alloc, &mut words) {
        Some(model) => tell_model(out, alloc, &model, &mut words),
        None => out.write_all(b"no model"),
    }
}

/// The stated lists over the closed box.
fn kept_of(alloc: Global, model: &Model) -> Option<KeptBounds>
    ensures { IfSome result (IsKeptOf model.now) }
{
    if !has_points(model) {
        return None;
    }
    match KeptBounds::new(alloc, model) {
        Ok(kept) => Some(kept),
        Err(_) => None,
    }
}

fn tell_model<W: Write>(
    out: &mut W,
    alloc: Global,
    model: &Model,
    words: &mut SplitWhitespace<'_>,
) -> io::Result<()> {
    match kept_of(alloc, model) {
        Some(mut kept) => tell_kept(out, alloc, model, &mut kept, words),
        None => out.write_all(b"no box"),
    }
}

/// Sets the threshold and the box of the next numbers, and prints in how many rounds before that a list closed, which
/// one closes then, and the bounds.
fn tell_kept<W: Write>(
    out: &mut W,
    alloc: Global,
    model: &Model,
    kept: &mut KeptBounds,
    words: &mut SplitWhitespace<'_>,
) -> io::Result<()>
    requires { IsKeptOf model.now kept.old }
{
    kept.set_threshold(model, &side(words));
    let closed = change(model, kept, words);
    narrow(model, kept, words);
    tell_closing(out, closed, kept.closing(model))?;
    tell_stated(out, alloc, model, kept)?;
    tell_lists(out, alloc, model, kept.bounds(), words)
}

fn tell_closing<W: Write>(out: &mut W, closed: u32, place: Option<u32>) -> io::Result<()> {
    match place {
        Some(place) => write!(out, "{closed} {place}"),
        None => write!(out, "{closed} open"),
    }
}

/// Gives one variable after another one range and then another, in so many rounds: how many rounds, how many variables,
/// and both ranges are the next numbers. Answers in how many of them a list closes the box.
fn change(model: &Model, kept: &mut KeptBounds, words: &mut SplitWhitespace<'_>) -> u32
    requires { IsKeptOf model.now kept.old }
    ensures { IsKeptOf model.now kept.new }
{
    let rounds = small(words);
    let count = small(words);
    let even = (value(words), value(words));
    let odd = (value(words), value(words));
    let mut closed = 0u32;
    for round in 0..rounds {
        let range = if round % 2 == 0 { &even } else { &odd };
        let place = (round / 2).checked_rem(count).unwrap_or(0);
        set(model, kept, VarId::new(place), range);
        if kept.closing(model).is_some() {
            closed = closed.saturating_add(1);
        }
    }
    closed
}

/// Gives the variable the range, where that may be.
fn set(model: &Model, kept: &mut KeptBounds, var: VarId, range: &(i64, i64))
    requires { IsKeptOf model.now kept.old }
    ensures { IsKeptOf model.now kept.new }
{
    if kept.can_set(model, var, range) {
        kept.set(model, var, range);
    }
}

/// Gives each variable the range of the next two numbers.
fn narrow(model: &Model, kept: &mut KeptBounds, words: &mut SplitWhitespace<'_>)
    requires { IsKeptOf model.now kept.old }
    ensures { IsKeptOf model.now kept.new }
{
    for place in 0..small(words) {
        let range = (value(words), value(words));
        set(model, kept, VarId::new(place), &range);
    }
}

/// Prints the stated lists with their bounds.
fn tell_stated<W: Write>(
    out: &mut W,
    alloc: Global,
    model: &Model,
    kept: &KeptBounds,
) -> io::Result<()> {
    for list in &kept.lists {
        write_list(out, list)?;
        tell_bounds(out, alloc, model, kept.bounds(), list, (1, 1))?;
    }
    Ok(())
}

/// Prints the bounds of the lists that the next numbers are: how often each is asked by either call, how many they are,
/// and each of them.
fn tell_lists<W: Write>(
    out: &mut W,
    alloc: Global,
    model: &Model,
    bounds: &BoxOf,
    words: &mut SplitWhitespace<'_>,
) -> io::Result<()> {
    let rounds = (small(words), small(words));
    for _ in 0..small(words) {
        tell_list(out, alloc, model, bounds, words, rounds)?;
    }
    Ok(())
}

fn tell_list<W: Write>(
    out: &mut W,
    alloc: Global,
    model: &Model,
    bounds: &BoxOf,
    words: &mut SplitWhitespace<'_>,
    rounds: (u32, u32),
) -> io::Result<()> {
    match list_of(alloc, words) {
        Some(list) => tell_bounds(out, alloc, model, bounds, &list, rounds),
        None => out.write_all(b" no list"),
    }
}

/// Prints a list: its divisor, and its rows with their multipliers.
fn write_list<W: Write>(out: &mut W, list: &Multipliers) -> io::Result<()> {
    let divisor = list.d;
    write!(out, " {divisor}")?;
    for entry in list.entries() {
        let (row, multiplier) = (entry.0.index(), entry.1);
        write!(out, " {row} {multiplier}")?;
    }
    Ok(())
}

/// Prints the bound of a list by both calls, each made so often.
fn tell_bounds<W: Write>(
    out: &mut W,
    alloc: Global,
    model: &Model,
    bounds: &BoxOf,
    list: &Multipliers,
    rounds: (u32, u32),
) -> io::Result<()> {
    if !lies_inside(model, bounds) {
        return out.write_all(b" no bound");
    }
    if !are_rows_known(model, list) {
        return out.write_all(b" no bound");
    }
    write_bound(out, &by_bound(model, bounds, list, rounds.0))?;
    write_bound(out, &by_bound_in(alloc, model, bounds, list, rounds.1))
}

fn write_bound<W: Write>(out: &mut W, bound: &Option<i128>) -> io::Result<()> {
    match bound {
        Some(bound) => write!(out, " {bound}"),
        None => out.write_all(b" none"),
    }
}

/// What the last of so many calls answers.
fn by_bound(model: &Model, bounds: &BoxOf, list: &Multipliers, rounds: u32) -> Option<i128>
    requires known { AreRowsKnown model.now list.now }
    requires inside { IsInside (root_of model.now) bounds.now }
{
    let mut found = None;
    for _ in 0..rounds {
        found = bound(model, bounds, list);
    }
    found
}

/// What the last of so many calls with a scratch answers.
fn by_bound_in(
    alloc: Global,
    model: &Model,
    bounds: &BoxOf,
    list: &Multipliers,
    rounds: u32,
) -> Option<i128>
    requires known { AreRowsKnown model.now list.now }
    requires inside { IsInside (root_of model.now) bounds.now }
{
    let mut found = None;
    let Ok(mut scratch) = Scratch::new(alloc, model) else {
        return None;
    };
    for _ in 0..rounds {
        if scratch.suits(model) {
            found = bound_in(model, bounds, list, &mut scratch);
        }
    }
    found
}
