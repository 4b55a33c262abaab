//! The replies, whose listed points stand among the notes. Nothing here takes memory.
//! Where an error is matched and not passed on by `?`, the clause needs the fact of its arm.
ghost use Rattle.std.specs.Prelude.{◌≡◌, ◌<◌, ◌≤◌, ◌^◌, ◌++◌, All, length, flat_map, IfSome, unsigned_abs};
ghost use Rattle.sp_base.specs.Writing.{Writes};
ghost use Rattle.sp_printing.specs.Replies.{done_head};
ghost use Rattle.sp_printing.specs.Printing.{CanPrint, IsPrintable, entry_line, named_of, printed_text, serial_line};

use crate::printing::{print_head, print_read, print_refusal, print_stopped};
use sp_base::{Sink, SinkEnd, texts_grow, texts_join};
use sp_draft::{Names, solution_line};
use sp_engine::{Entry, Reply};
use sp_model::Model;

/// Prints the line of a noted point, and nothing for another note.
#[tactic(auto, unfolding(crate::specs::Printing::entry_line))]
fn print_entry<K: Sink>(
    sink: &mut K,
    names: &Names,
    model: &Model,
    entry: &Entry,
) -> Result<(), SinkEnd>
    requires { IsPrintable (named_of names.now model.now) entry.now }
    ensures written { Writes K.Sink result sink.old sink.new (entry_line (named_of names.now model.now) entry.now) }
{
    texts_join();
    match entry {
        Entry::Found(point) => solution_line(names, model, point, sink),
        Entry::Fetched(_) => Ok(()),
        Entry::Stored(_) => Ok(()),
        Entry::Ended { .. } => Ok(()),
    }
}

/// Prints the line of the point of this serial.
#[tactic(auto, unfolding(crate::specs::Printing::serial_line))]
fn print_serial<K: Sink>(
    sink: &mut K,
    names: &Names,
    model: &Model,
    notes: &[Entry],
    serial: &u32,
) -> Result<(), SinkEnd>
    requires noted { serial.now < length notes.now }
    requires notes { All (IsPrintable (named_of names.now model.now)) notes.now }
    ensures written { Writes K.Sink result sink.old sink.new (serial_line (named_of names.now model.now) notes.now serial.now) }
{
    print_entry(sink, names, model, &notes[*serial as usize])
}

/// Prints the lines of the points of these serials.
fn print_serials<K: Sink>(
    sink: &mut K,
    names: &Names,
    model: &Model,
    notes: &[Entry],
    serials: &[u32],
) -> Result<(), SinkEnd>
    requires noted { All (λ serial. serial < length notes.now) serials.now }
    requires notes { All (IsPrintable (named_of names.now model.now)) notes.now }
    ensures written { Writes K.Sink result sink.old sink.new (flat_map (serial_line (named_of names.now model.now) notes.now) serials.now) }
{
    texts_grow();
    for serial in serials {
        match print_serial(sink, names, model, notes, serial) {
            Err(end) => return Err(end),
            Ok(()) => {}
        }
    }
    Ok(())
}

/// Prints the reply of a complete list.
fn print_listed<K: Sink>(
    sink: &mut K,
    names: &Names,
    model: &Model,
    optimum: &Option<i128>,
    serials: &[u32],
    notes: &[Entry],
) -> Result<(), SinkEnd>
    requires optimum { IfSome optimum.now (λ v. unsigned_abs v ≤ 10 ^ 36) }
    requires noted { All (λ serial. serial < length notes.now) serials.now }
    requires notes { All (IsPrintable (named_of names.now model.now)) notes.now }
    ensures written { let head = done_head model.now optimum.now (length serials.now) in
        Writes K.Sink result sink.old sink.new
        (head ++ flat_map (serial_line (named_of names.now model.now) notes.now) serials.now) }
{
    texts_join();
    match print_head(sink, model, optimum, serials.len()) {
        Err(end) => Err(end),
        Ok(()) => print_serials(sink, names, model, notes, serials),
    }
}

/// Prints a reply over this model. The notes are the read's and those that were made since.
#[tactic(auto, unfolding(crate::specs::Printing::printed_text))]
pub fn print_reply<K: Sink>(
    sink: &mut K,
    names: &Names,
    model: &Model,
    reply: &Reply,
    notes: &[Entry],
) -> Result<(), SinkEnd>
    requires { CanPrint (named_of names.now model.now) notes.now reply.now }
    ensures written { Writes K.Sink result sink.old sink.new (printed_text (named_of names.now model.now) notes.now reply.now) }
{
    match reply {
        Reply::Listed { optimum, serials } => {
            print_listed(sink, names, model, optimum, serials.as_slice(), notes)
        }
        Reply::Read { variables, rows } => print_read(sink, *variables, *rows),
        Reply::Stopped { nodes } => print_stopped(sink, *nodes),
        Reply::Refused(why) => print_refusal(sink, why),
    }
}
