//! Lines that change a kept box, and ask of it.

ghost use Rattle.sp_activity.specs.Kept.{IsKeptOf};

use crate::inputs::{Kind, next_kind, range, small};
use crate::models::model_of;
use crate::rounds::{change, kept_of};
use crate::telling::{tell_crossed, tell_holds, tell_made, tell_rounds, tell_state, tell_tight};
use sp_activity::Kept;
use sp_model::{Model, VarId};
use std::alloc::Global;
use std::io;
use std::io::Write;
use std::str::SplitWhitespace;

/// Carries out the lines `change VARIABLE LOWER UPPER`, `state`, `tight`, `crossed VARIABLE`, `holds KIND PLACE PLACE
/// PLACE`, `rounds ROUNDS LOWER UPPER LOWER UPPER` and `make ROUNDS` on the closed box of the model of the other lines.
/// A range that a variable can't have changes nothing.
pub fn walk<W: Write>(out: &mut W, alloc: Global, text: &str) -> io::Result<()> {
    match model_of(alloc, text) {
        Some(model) => walk_model(out, alloc, &model, text),
        None => out.write_all(b"no model\n"),
    }
}

fn walk_model<W: Write>(out: &mut W, alloc: Global, model: &Model, text: &str) -> io::Result<()> {
    match kept_of(alloc, model) {
        Some(mut kept) => walk_kept(out, alloc, model, &mut kept, text),
        None => out.write_all(b"no box\n"),
    }
}

fn walk_kept<W: Write>(
    out: &mut W,
    alloc: Global,
    model: &Model,
    kept: &mut Kept,
    text: &str,
) -> io::Result<()>
    requires { IsKeptOf model.now kept.old }
{
    for line in text.lines() {
        carry_out(out, alloc, model, kept, line)?;
    }
    Ok(())
}

/// Carries out one line.
fn carry_out<W: Write>(
    out: &mut W,
    alloc: Global,
    model: &Model,
    kept: &mut Kept,
    line: &str,
) -> io::Result<()>
    requires { IsKeptOf model.now kept.old }
    ensures { IsKeptOf model.now kept.new }
{
    let mut words = line.split_whitespace();
    match next_kind(&mut words) {
        Kind::Change => give_range(model, kept, &mut words),
        Kind::Tight => tell_tight(out, alloc, model, kept),
        Kind::Rounds => tell_rounds(out, model, kept, &mut words),
        asked => tell(out, alloc, model, kept, asked, &mut words),
    }
}

fn give_range(model: &Model, kept: &mut Kept, words: &mut SplitWhitespace<'_>) -> io::Result<()>
    requires { IsKeptOf model.now kept.old }
    ensures { IsKeptOf model.now kept.new }
{
    let var = VarId::new(small(words));
    change(model, kept, var, &range(words));
    Ok(())
}

/// Prints what is asked.
fn tell<W: Write>(
    out: &mut W,
    alloc: Global,
    model: &Model,
    kept: &Kept,
    asked: Kind,
    words: &mut SplitWhitespace<'_>,
) -> io::Result<()>
    requires { IsKeptOf model.now kept.now }
{
    match asked {
        Kind::State => tell_state(out, model, kept),
        Kind::Crossed => tell_crossed(out, alloc, model, kept, words),
        Kind::Holds => tell_holds(out, model, kept, words),
        Kind::Make => tell_made(out, alloc, model, words),
        _ => Ok(()),
    }
}
