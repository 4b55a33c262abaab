//! The top call: one run over a source, a shelf and a sink.
ghost use Rattle.std.specs.Prelude.{◌≡◌, ◌≤◌, ◌<◌, ◌++◌, ◌∷◌, [], ◌⊎◌, Some, List, ℕ, Option};
ghost use Rattle.std.specs.Prelude.{length, count_by, vec_len, vec_capacity};
ghost use Rattle.sp_args.specs.Requests.{IsNoReading};
ghost use Rattle.sp_base.specs.Buffers.{inner_of, waiting_of};
ghost use Rattle.sp_base.specs.Counts.{Rose, RoseBy, raised_by};
ghost use Rattle.sp_base.specs.Shelf.{Files};
ghost use Rattle.sp_base.specs.Status.{code_of};
ghost use Rattle.sp_base.specs.Writing.{Sends};
ghost use Rattle.sp_meaning.specs.Formats.{format_of};
ghost use Rattle.sp_engine.specs.Notes.{AreAnswers, is_answer, is_absence, is_overrun, is_fault, shelf_state};
ghost use Rattle.sp_engine.specs.ReadEnds.{bytes_notes};
ghost use Rattle.sp_engine.specs.Replies.{is_refused};
ghost use Rattle.sp_model.specs.Cuts.{IsGap};
ghost use Rattle.sp_model.specs.Models.{root_of};
ghost use Rattle.sp_printing.specs.Printing.{CanPrint, named_of, printed_text};
ghost use Rattle.sp_printing.specs.Replies.{refusal_text};
ghost use Rattle.sp_shell.specs.Runs.{settings_of, status_by, RunText, RunUnsaid, Outcome};
ghost use Rattle.sp_printing.specs.Wording.{spelling};

use sp_args::{Request, WordsRefusal, read_words};
use sp_base::{Buffered, Shelf, Sink, SinkEnd, Source, Status, Text, WordList, write_all};
use sp_draft::Names;
use sp_engine::{Entry, FetchNote, Journal, Listing, ReadEnd, Reply, list, read};
use sp_meaning::{FileFormat, NamedModel, Refusal, format_of};
use sp_model::{Items, Model, feasible_is_within};
use sp_printing::{
    Wording, bytes_of, print_refusal, print_reply, printed_replies_are_told, runs_are_printable,
};
use std::alloc::Global;

/// How a run ended, and what it noted.
#[derive(Debug, Drop)]
pub struct Ending {
    /// The status with which the program ends.
    pub status: Status,
    /// What was asked of the shelf and found, in order.
    pub journal: Journal,
}

impl Ending {
    /// The exit status of a program whose run ended so, from 0 to 6.
    pub fn exit_code(&self) -> u8
        ensures { result ≡ code_of self.now.status }
    {
        self.status.code()
    }
}

ghost use Rattle.sp_shell.specs.InnerRuns.{IsRead, OwnNotes};
ghost use Rattle.sp_shell.specs.InnerEndings.{status_after, Answers, EndsFile, EndsRun, IsWhole};

/// The ending with this status and these notes.
fn end_with(status: Status, entries: Vec<Entry>) -> Ending
    ensures status { result.status ≡ status }
    ensures entries { result.journal.entries ≡ entries.items }
{
    let journal = Journal {
        entries: Items::from_vec(entries),
    };
    Ending { status, journal }
}

/// The status of a run that was to end with `intended`, after its text was sent or not.
fn status_of(sent: Result<(), SinkEnd>, intended: Status) -> Status
    ensures { result ≡ status_after sent intended }
{
    match sent {
        Ok(()) => intended,
        Err(SinkEnd::Fault) => Status::SinkFault,
        Err(SinkEnd::NoMemory) => Status::NoMemory,
    }
}

/// Puts a note behind the others, for which there is room.
fn push_note(entries: &mut Vec<Entry>, entry: Entry)
    requires { vec_len entries.old < vec_capacity entries.old }
    ensures { entries.new.items ≡ entries.old.items ++ entry ∷ [] }
{
    if entries.push(entry).is_err() {
        unreachable!()
    }
}

/// Prints a reply and sends all of it.
fn send_reply<K: Sink>(
    buffer: &mut Buffered<K>,
    names: &Names,
    model: &Model,
    reply: &Reply,
    notes: &[Entry],
) -> Result<(), SinkEnd>
    requires waits { waiting_of buffer.old ≡ [] }
    requires printable { CanPrint (named_of names.now model.now) notes.now reply.now }
    ensures { Sends K.Sink result (inner_of buffer.old) (inner_of buffer.new)
        (printed_text (named_of names.now model.now) notes.now reply.now) }
{
    let written = print_reply(buffer, names, model, reply, notes);
    buffer.finish(written)
}

/// Prints the reply of the list, whose notes stand behind the read's, and ends with the status that the reply asks for.
fn end_with_list<K: Sink>(
    buffer: &mut Buffered<K>,
    names: &Names,
    model: &Model,
    reply: &Reply,
    entries: Vec<Entry>,
) -> Ending
    requires waits { waiting_of buffer.old ≡ [] }
    requires printable { CanPrint (named_of names.now model.now) entries.items reply.now }
    ensures entries { result.journal.entries ≡ entries.items }
    ensures answered { Answers K.Sink (status_by (is_refused reply.now)) result.status (inner_of buffer.old)
        (inner_of buffer.new) (printed_text (named_of names.now model.now) entries.items reply.now) }
{
    let sent = send_reply(buffer, names, model, reply, entries.as_slice());
    end_with(status_of(sent, status_for(reply)), entries)
}

/// The status of a run with this last reply.
fn status_for(reply: &Reply) -> Status
    ensures { result ≡ status_by (is_refused reply.now) }
{
    if reply.is_refused() {
        Status::SomeRefused
    } else {
        Status::Clean
    }
}

/// Lists the model that the file was read as, behind the note of its bytes, and prints the reply.
fn list_model<K: Sink>(
    alloc: Global,
    bytes: Text,
    named: NamedModel,
    request: &Request,
    mut entries: Vec<Entry>,
    buffer: &mut Buffered<K>,
) -> Ending
    requires named { length named.names ≡ length (root_of named.model) }
    requires gaps { IsGap request.now.gaps.abs × IsGap request.now.gaps.rel }
    requires empty { entries.items ≡ [] }
    requires waits { waiting_of buffer.old ≡ [] }
    requires room { vec_len entries < vec_capacity entries }
    ensures notes { OwnNotes (Entry.Fetched (FetchNote.Bytes bytes)) result.journal.entries }
    ensures same { K.name (inner_of buffer.new) ≡ K.name (inner_of buffer.old) }
    ensures ends { let settings = settings_of request.now in
        (files : Option Files) (name : List ℕ) → IsRead settings files name bytes named
        → EndsFile K.Sink settings files name result (inner_of buffer.old) (inner_of buffer.new) }
{
    feasible_is_within();
    runs_are_printable();
    printed_replies_are_told();
    // that the model is lawful is known of its parts
    let _parts = named.model.parts();
    push_note(&mut entries, Entry::Fetched(FetchNote::Bytes(bytes)));
    let Ok(listing) = list(alloc, named, &request.gaps, request.nodes) else {
        return end_with(Status::NoMemory, entries);
    };
    let Listing {
        names,
        state,
        mut notes,
        reply,
    } = listing;
    match entries.append(&mut notes) {
        Err(_) => end_with(Status::NoMemory, entries),
        Ok(()) => end_with_list(buffer, &names, state.model(), &reply, entries),
    }
}

/// The same through a buffer, so that many short lines make few writes.
fn list_buffered<K: Sink>(
    alloc: Global,
    bytes: Text,
    named: NamedModel,
    request: &Request,
    mut entries: Vec<Entry>,
    sink: &mut K,
) -> Ending
    requires named { length named.names ≡ length (root_of named.model) }
    requires gaps { IsGap request.now.gaps.abs × IsGap request.now.gaps.rel }
    requires empty { entries.items ≡ [] }
    requires room { vec_len entries < vec_capacity entries }
    ensures notes { OwnNotes (Entry.Fetched (FetchNote.Bytes bytes)) result.journal.entries }
    ensures ends { let settings = settings_of request.now in
        (files : Option Files) (name : List ℕ) → IsRead settings files name bytes named
        → EndsFile K.Sink settings files name result sink.old sink.new }
{
    match Buffered::new(alloc, sink) {
        Err(_sink) => {
            push_note(&mut entries, Entry::Fetched(FetchNote::Bytes(bytes)));
            end_with(Status::NoMemory, entries)
        }
        Ok(mut buffer) => {
            let ending = list_model(alloc, bytes, named, request, entries, &mut buffer);
            // the sink is taken back since this alone tells what it is in the end
            let _sink = buffer.into_inner();
            ending
        }
    }
}

/// Prints a fixed line, and ends with `intended` where all of it went out.
fn end_with_line<K: Sink>(
    sink: &mut K,
    entries: Vec<Entry>,
    line: Wording,
    intended: Status,
) -> Ending
    requires { IsWhole intended }
    ensures entries { result.journal.entries ≡ entries.items }
    ensures answered { Answers K.Sink intended result.status sink.old sink.new (spelling line) }
{
    let sent = write_all(sink, bytes_of(line));
    end_with(status_of(sent, intended), entries)
}

/// Notes the shelf's answer and prints why the file is refused.
fn refuse<K: Sink>(sink: &mut K, mut entries: Vec<Entry>, answer: FetchNote, why: Refusal) -> Ending
    requires empty { entries.items ≡ [] }
    requires room { vec_len entries < vec_capacity entries }
    ensures entries { result.journal.entries ≡ Entry.Fetched answer ∷ [] }
    ensures answered { Answers K.Sink Status.SomeRefused result.status sink.old sink.new
        (refusal_text why) }
{
    push_note(&mut entries, Entry::Fetched(answer));
    let sent = print_refusal(sink, &why);
    end_with(status_of(sent, Status::SomeRefused), entries)
}

/// Ends where memory was wanting, with a note of the bytes where they were fetched.
fn end_without_memory(mut entries: Vec<Entry>, bytes: Option<Text>) -> Ending
    requires empty { entries.items ≡ [] }
    requires room { vec_len entries < vec_capacity entries }
    ensures status { result.status ≡ Status.NoMemory }
    ensures entries { result.journal.entries ≡ bytes_notes bytes }
{
    match bytes {
        None => end_with(Status::NoMemory, entries),
        Some(bytes) => {
            push_note(&mut entries, Entry::Fetched(FetchNote::Bytes(bytes)));
            end_with(Status::NoMemory, entries)
        }
    }
}

/// Reads the file that the words ask for from the shelf and lists its model. There is room for the shelf's answer.
fn read_and_list<F: Shelf, K: Sink>(
    alloc: Global,
    request: &Request,
    format: FileFormat,
    entries: Vec<Entry>,
    shelf: &mut F,
    sink: &mut K,
) -> Ending
    requires format { format_of request.now.file ≡ Some format }
    requires gaps { IsGap request.now.gaps.abs × IsGap request.now.gaps.rel }
    requires empty { entries.items ≡ [] }
    requires room { vec_len entries < vec_capacity entries }
    ensures ends { EndsFile K.Sink (settings_of request.now) (F.files shelf.old) request.now.file result sink.old sink.new }
    ensures noted { AreAnswers result.journal.entries (shelf_state F.Shelf shelf.old) (shelf_state F.Shelf shelf.new) }
{
    match read(alloc, &request.file, format, 0, shelf) {
        ReadEnd::Accepted { bytes, named } => {
            list_buffered(alloc, bytes, named, request, entries, sink)
        }
        ReadEnd::Refused { answer, why } => refuse(sink, entries, answer, why),
        ReadEnd::NoMemory { bytes } => end_without_memory(entries, bytes),
    }
}

/// Ends where the words ask for nothing: with the usage line, or without memory.
fn end_unread<K: Sink>(alloc: Global, why: WordsRefusal, sink: &mut K) -> Ending
    ensures entries { result.journal.entries ≡ [] }
    ensures ends { (files : Option Files) (words : List (List ℕ))
        → (why ≡ WordsRefusal.NoMemory) ⊎ IsNoReading words
        → EndsRun K.Sink files words result sink.old sink.new }
{
    match why {
        WordsRefusal::NoMemory => end_with(Status::NoMemory, Vec::new(alloc)),
        WordsRefusal::Usage => {
            end_with_line(sink, Vec::new(alloc), Wording::Usage, Status::Usage)
        }
    }
}

/// Carries out the words of the command line: asks the shelf for the model file that they name, lists its points within
/// the gaps, and prints the reply to the sink. The source isn't read.
///
/// The text that is printed, the journal and the status fit one another, whatever the words and whatever the shelf
/// gives: `optimum` is the optimum, the solution lines are exactly the feasible points within both gaps of it, each
/// once, best objective first and then in lexicographic order, and `nodelimit` comes only where the tree has no room
/// for another split and the model's largest tree passes the limit.
///
/// `NoMemory` comes in the middle of the text only from a sink that takes memory, and else before any text went out,
/// while the words were read, the file was fetched or its model listed.
pub fn run<S: Source, F: Shelf, K: Sink>(
    alloc: Global,
    words: &WordList,
    source: &mut S,
    shelf: &mut F,
    sink: &mut K,
) -> Ending
    // what was printed, noted and answered
    ensures outcome { let files = F.files shelf.old in
        Outcome K.takes_memory (RunText files words.now) (RunUnsaid files words.now)
        result.journal.entries result.status (K.held sink.old) (K.held sink.new) }

    // the cause of a sink's fault
    ensures sink_fault { result.status ≡ Status.SinkFault → Rose (K.faults sink.old) (K.faults sink.new) }
    ensures sink_later { K.faults sink.old ≤ K.faults sink.new }

    // each answer of the shelf is noted, and its counts rose by as many
    ensures answers { let notes = count_by is_answer result.journal.entries in
        F.answers shelf.new ≡ raised_by notes (F.answers shelf.old) }
    ensures absences { let notes = count_by is_absence result.journal.entries in
        RoseBy notes (F.absences shelf.old) (F.absences shelf.new) }
    ensures overruns { let notes = count_by is_overrun result.journal.entries in
        RoseBy notes (F.overruns shelf.old) (F.overruns shelf.new) }
    ensures shelf_faults { let notes = count_by is_fault result.journal.entries in
        RoseBy notes (F.faults shelf.old) (F.faults shelf.new) }

    // nothing else changes
    ensures files { F.files shelf.new ≡ F.files shelf.old }
    ensures left { S.left source.new ≡ S.left source.old }
    ensures source_faults { S.faults source.new ≡ S.faults source.old }
{
    // no words read the source yet
    let _ = source;
    match read_words(alloc, words) {
        Err(why) => end_unread(alloc, why, sink),
        Ok(request) => match format_of(request.file.as_slice()) {
            None => end_with_line(
                sink,
                Vec::new(alloc),
                Wording::BadArgument,
                Status::SomeRefused,
            ),
            Some(format) => match Vec::with_capacity(alloc, 1) {
                Err(_) => end_with(Status::NoMemory, Vec::new(alloc)),
                Ok(entries) => read_and_list(alloc, &request, format, entries, shelf, sink),
            },
        },
    }
}
