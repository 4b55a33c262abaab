//! What is printed of a kept box.

ghost use Rattle.sp_activity.specs.Kept.{IsKeptOf};

use crate::boxes::{crossed_reason, plain_tight};
use crate::inputs::{number, range, small};
use crate::rounds::{count_made, count_open};
use crate::sums::tell_sums;
use sp_activity::{Kept, Reason, closed, holds};
use sp_model::{Model, RowId, VarId};
use std::alloc::Global;
use std::io;
use std::io::Write;
use std::str::SplitWhitespace;

/// Prints the first reason by either form, how many rows, indicators, sets and cores can't hold, and the rows' sums.
pub fn tell_state<W: Write>(out: &mut W, model: &Model, kept: &Kept) -> io::Result<()>
    requires { IsKeptOf model.now kept.now }
{
    tell_reasons(out, model, kept)?;
    tell_counts(out, kept)?;
    tell_sums(out, &kept.rows)
}

fn tell_reasons<W: Write>(out: &mut W, model: &Model, kept: &Kept) -> io::Result<()>
    requires { IsKeptOf model.now kept.now }
{
    let of_kept = kept.closed(model);
    let of_plain = closed(model, kept.bounds_in(model));
    writeln!(out, "closed {of_kept:?} {of_plain:?}")
}

fn tell_counts<W: Write>(out: &mut W, kept: &Kept) -> io::Result<()> {
    let rows = kept.rows.broken();
    let gates = kept.broken.gates.count();
    let sets = kept.broken.sets.count();
    let cores = kept.broken.cores.count();
    writeln!(out, "broken {rows} {gates} {sets} {cores}")
}

/// Prints a place where a split closes a side, by either form.
pub fn tell_tight<W: Write>(
    out: &mut W,
    alloc: Global,
    model: &Model,
    kept: &mut Kept,
) -> io::Result<()>
    requires { IsKeptOf model.now kept.old }
    ensures { IsKeptOf model.now kept.new }
{
    let of_kept = kept.tighten(model);
    let of_plain = plain_tight(alloc, model, kept);
    writeln!(out, "tight {of_kept:?} {of_plain:?}")
}

/// Prints the first reason of the box with the ends of one range changed over.
pub fn tell_crossed<W: Write>(
    out: &mut W,
    alloc: Global,
    model: &Model,
    kept: &Kept,
    words: &mut SplitWhitespace<'_>,
) -> io::Result<()>
    requires { IsKeptOf model.now kept.now }
{
    let reason = crossed_reason(alloc, model, kept, VarId::new(small(words)));
    writeln!(out, "crossed {reason:?}")
}

/// Prints whether the reason that the numbers name holds of the box.
pub fn tell_holds<W: Write>(
    out: &mut W,
    model: &Model,
    kept: &Kept,
    words: &mut SplitWhitespace<'_>,
) -> io::Result<()>
    requires { IsKeptOf model.now kept.now }
{
    let reason = reason_of(words);
    let answer = u32::from(holds(model, kept.bounds_in(model), &reason));
    writeln!(out, "holds {answer}")
}

fn reason_of(words: &mut SplitWhitespace<'_>) -> Reason {
    let kind = number(words);
    let place = small(words);
    match kind {
        0 => Reason::Empty(VarId::new(place)),
        1 => Reason::RowLow(RowId::new(place)),
        2 => Reason::RowHigh(RowId::new(place)),
        3 => Reason::IndicatorLow(place),
        4 => Reason::IndicatorHigh(place),
        5 => Reason::Sos(place, small(words), small(words)),
        _ => Reason::Semi(VarId::new(place)),
    }
}

/// Prints in how many rounds of changes the box is open.
pub fn tell_rounds<W: Write>(
    out: &mut W,
    model: &Model,
    kept: &mut Kept,
    words: &mut SplitWhitespace<'_>,
) -> io::Result<()>
    requires { IsKeptOf model.now kept.old }
    ensures { IsKeptOf model.now kept.new }
{
    let rounds = small(words);
    let (first, second) = (range(words), range(words));
    let count = count_open(model, kept, rounds, &first, &second);
    writeln!(out, "open {count}")
}

/// Prints how often all that is kept was made.
pub fn tell_made<W: Write>(
    out: &mut W,
    alloc: Global,
    model: &Model,
    words: &mut SplitWhitespace<'_>,
) -> io::Result<()> {
    let count = count_made(alloc, model, small(words));
    writeln!(out, "made {count}")
}
