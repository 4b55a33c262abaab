//! The lines of replies. Nothing here takes memory: only the sink can answer that there is none.
//! Where an error is matched and not passed on by `?`, the clause needs the fact of its arm.
ghost use Rattle.std.specs.Prelude.{◌≡◌, ◌≤◌, ◌^◌, ◌+◌, ◌++◌, IfSome, unsigned_abs};
ghost use Rattle.std.specs.Fmt.{decimal};
ghost use Rattle.sp_base.specs.Writing.{Writes};
ghost use Rattle.sp_draft.specs.SolutionLines.{in_user_direction, objective_text};
ghost use Rattle.sp_printing.specs.Replies.{done_head, optimum_line, read_text, stopped_text};
ghost use Rattle.sp_printing.specs.Replies.{refusal_argument, refusal_text};
ghost use Rattle.sp_printing.specs.Wording.{refusal_wording, spelling};

use crate::wordings::{Wording, bytes_of, wording_of};
use itoa::Buffer;
use sp_base::{Sink, SinkEnd, texts_join, write_all, write_each};
use sp_decimal::print;
use sp_meaning::Refusal;
use sp_model::Model;

/// An objective in the user's direction: negated back where the user maximises.
fn user_value(maximize: bool, value: &i128) -> i128
    requires { unsigned_abs value.now ≤ 10 ^ 36 }
    ensures { result ≡ in_user_direction maximize value.now }
{
    if maximize { -*value } else { *value }
}

/// Prints a line of a fixed part and an argument.
fn print_pair<'a, K: Sink>(sink: &mut K, before: Wording, argument: &'a [u8]) -> Result<(), SinkEnd>
    ensures written { Writes K.Sink result sink.old sink.new
        (spelling before ++ argument.now ++ spelling Wording.LineEnd) }
{
    write_each(
        sink,
        &[bytes_of(before), argument, bytes_of(Wording::LineEnd)],
    )
}

/// Prints the line of this optimum.
fn print_value<K: Sink>(sink: &mut K, model: &Model, value: &i128) -> Result<(), SinkEnd>
    requires { unsigned_abs value.now ≤ 10 ^ 36 }
    ensures written { let shown = objective_text model.now.maximize model.now.scale value.now in
        Writes K.Sink result sink.old sink.new (spelling Wording.Optimum ++ shown ++ spelling Wording.LineEnd) }
{
    let parts = model.parts();
    let shown = print(user_value(parts.maximize, value), parts.scale);
    print_pair(sink, Wording::Optimum, shown.as_bytes())
}

/// Prints the line of the optimum, or the one that says that no point is feasible.
#[tactic(auto, unfolding(crate::specs::Replies::optimum_line))]
fn print_optimum<K: Sink>(sink: &mut K, model: &Model, best: &Option<i128>) -> Result<(), SinkEnd>
    requires { IfSome best.now (λ v. unsigned_abs v ≤ 10 ^ 36) }
    ensures written { Writes K.Sink result sink.old sink.new (optimum_line model.now best.now) }
{
    match best {
        None => write_all(sink, bytes_of(Wording::Infeasible)),
        Some(value) => print_value(sink, model, value),
    }
}

/// Prints the line with the number of listed points.
fn print_number<K: Sink>(sink: &mut K, number: usize) -> Result<(), SinkEnd>
    ensures written { Writes K.Sink result sink.old sink.new
        (spelling Wording.Solutions ++ decimal number ++ spelling Wording.LineEnd) }
{
    let mut buffer = Buffer::new();
    print_pair(sink, Wording::Solutions, buffer.format(number).as_bytes())
}

/// Prints the reply of a run that the node limit stopped.
#[tactic(auto, unfolding(crate::specs::Replies::stopped_text))]
pub fn print_stopped<K: Sink>(sink: &mut K, nodes: u32) -> Result<(), SinkEnd>
    ensures written { Writes K.Sink result sink.old sink.new (stopped_text nodes) }
{
    let mut buffer = Buffer::new();
    let digits = buffer.format(nodes).as_bytes();
    let (status, before) = (bytes_of(Wording::StatusNodeLimit), bytes_of(Wording::Nodes));
    write_each(sink, &[status, before, digits, bytes_of(Wording::LineEnd)])
}

/// Prints what stands before the solution lines of a complete list, but for their number.
fn print_status<K: Sink>(sink: &mut K, model: &Model, best: &Option<i128>) -> Result<(), SinkEnd>
    requires { IfSome best.now (λ v. unsigned_abs v ≤ 10 ^ 36) }
    ensures written { Writes K.Sink result sink.old sink.new
        (spelling Wording.StatusDone ++ optimum_line model.now best.now) }
{
    texts_join();
    match write_all(sink, bytes_of(Wording::StatusDone)) {
        Err(end) => Err(end),
        Ok(()) => print_optimum(sink, model, best),
    }
}

/// Prints what stands before the solution lines of a complete list.
pub fn print_head<K: Sink>(
    sink: &mut K,
    model: &Model,
    best: &Option<i128>,
    number: usize,
) -> Result<(), SinkEnd>
    requires { IfSome best.now (λ v. unsigned_abs v ≤ 10 ^ 36) }
    ensures written { Writes K.Sink result sink.old sink.new (done_head model.now best.now number) }
{
    texts_join();
    match print_status(sink, model, best) {
        Err(end) => Err(end),
        Ok(()) => print_number(sink, number),
    }
}

/// Prints the reply of an accepted read.
pub fn print_read<K: Sink>(sink: &mut K, variables: usize, rows: usize) -> Result<(), SinkEnd>
    ensures written { Writes K.Sink result sink.old sink.new (read_text variables rows) }
{
    let (mut first, mut second) = (Buffer::new(), Buffer::new());
    let variables = first.format(variables).as_bytes();
    let rows = second.format(rows).as_bytes();
    let (before, between) = (bytes_of(Wording::ReadVariables), bytes_of(Wording::Rows));
    write_each(
        sink,
        &[before, variables, between, rows, bytes_of(Wording::LineEnd)],
    )
}

/// The digits of the number of a line.
fn line_of(buffer: &mut Buffer, line: u32) -> &[u8]
    ensures { result.now ≡ decimal line }
{
    buffer.format(line).as_bytes()
}

/// The digits of the number of a place, counted from 1.
fn number_of(buffer: &mut Buffer, place: usize) -> &[u8]
    ensures { result.now ≡ decimal (place + 1) }
{
    // of 128 bits, so that no place is too great
    buffer.format(place as u128 + 1).as_bytes()
}

/// The argument of a refusal. The buffer holds its digits.
fn argument_of<'a>(why: &'a Refusal, buffer: &'a mut Buffer) -> &'a [u8]
    ensures { result.now ≡ refusal_argument why.now }
{
    match why {
        Refusal::Syntax { line } => line_of(buffer, *line),
        Refusal::WideNumeral { line } => line_of(buffer, *line),
        Refusal::DuplicateName { line } => line_of(buffer, *line),
        Refusal::UnknownName { line } => line_of(buffer, *line),
        Refusal::Unsupported { line } => line_of(buffer, *line),
        Refusal::Continuous(name) => name.as_slice(),
        Refusal::OpenVariable(name) => name.as_slice(),
        Refusal::WideBound(name) => name.as_slice(),
        Refusal::NegativeUpper(name) => name.as_slice(),
        Refusal::WideRow(row) => number_of(buffer, row.index()),
        Refusal::BadIndicator(place) => number_of(buffer, *place as usize),
        Refusal::BadSos(place) => number_of(buffer, *place as usize),
        Refusal::WideObjective => b"",
        Refusal::TooMany(_) => b"",
        Refusal::FileAbsent => b"",
        Refusal::FileFault => b"",
        Refusal::FileTooLong => b"",
    }
}

/// Prints the reply of a refused command.
pub fn print_refusal<K: Sink>(sink: &mut K, why: &Refusal) -> Result<(), SinkEnd>
    ensures written { Writes K.Sink result sink.old sink.new (refusal_text why.now) }
{
    let mut buffer = Buffer::new();
    print_pair(sink, wording_of(why), argument_of(why, &mut buffer))
}
