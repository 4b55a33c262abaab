//! Reading a model file from a shelf.
ghost use Rattle.std.specs.Prelude.{◌≡◌, ◌≤◌, ℕ, List, length, Some};
ghost use Rattle.sp_meaning.specs.Formats.{file_limit, format_of};
ghost use Rattle.sp_engine.specs.Notes.{AreAnswers, shelf_state};
ghost use Rattle.sp_engine.specs.Views.{View, limit_after};

use crate::journals::FetchNote;
use sp_base::{Fetched, Shelf, Text};
use sp_meaning::{FileFormat, Meaning, NamedModel, Refusal, meaning_of};
use std::alloc::Global;

/// The most bytes of one file, 2^26.
const FILE_LIMIT: u64 = 1 << 26;

/// The most bytes of all files that a session reads, 2^28.
const SESSION_LIMIT: u64 = 1 << 28;

/// How the reading of a file ended.
#[derive(Drop)]
pub enum ReadEnd {
    /// The file was fetched and read.
    Accepted {
        /// The bytes of the file.
        bytes: Text,
        /// Its model.
        named: NamedModel,
    },
    /// The file was refused.
    Refused {
        /// The shelf's answer.
        answer: FetchNote,
        /// Why.
        why: Refusal,
    },
    /// There was no memory.
    NoMemory {
        /// The bytes of the file, where they were fetched before.
        bytes: Option<Text>,
    },
}

ghost use Rattle.sp_meaning.specs.Models.{IsPaired, Means};
ghost use Rattle.sp_engine.specs.ReadEnds.{IsReadOf, ReadSays, IsRunnable, read_notes};

/// The most bytes that the next file of a session may have, which fetched so many before.
fn limit_after(fetched: u64) -> u64
    ensures { result ≡ limit_after fetched }
{
    FILE_LIMIT.min(SESSION_LIMIT.saturating_sub(fetched))
}

/// The end of reading a file of this format with this meaning.
fn read_end(bytes: Text, meaning: Meaning) -> ReadEnd
    ensures { (name : List ℕ) → Means name bytes meaning → IsPaired meaning → IsReadOf name bytes result }
{
    match meaning {
        Meaning::Model(named) => ReadEnd::Accepted { bytes, named },
        Meaning::Refused(why) => ReadEnd::Refused {
            answer: FetchNote::Bytes(bytes),
            why,
        },
    }
}

/// Reads the bytes of a file of this format.
fn read_bytes(alloc: Global, format: FileFormat, bytes: Text) -> ReadEnd
    requires { length bytes ≤ file_limit }
    ensures { (name : List ℕ) → format_of name ≡ Some format → IsReadOf name bytes result }
{
    match meaning_of(alloc, format, bytes.as_slice()) {
        Ok(meaning) => read_end(bytes, meaning),
        Err(_) => ReadEnd::NoMemory { bytes: Some(bytes) },
    }
}

/// Asks the shelf for the file of this name, once, and reads it by its format, in a session that fetched so many bytes
/// before.
pub fn read<F: Shelf>(
    alloc: Global,
    name: &Text,
    format: FileFormat,
    fetched: u64,
    shelf: &mut F,
) -> ReadEnd
    requires { format_of name.now ≡ Some format }
    ensures says { (view : View) → view.files ≡ F.files shelf.old → view.fetched ≡ fetched
        → ReadSays view name.now result }
    ensures runnable { IsRunnable result }
    ensures noted { AreAnswers (read_notes result) (shelf_state F.Shelf shelf.old) (shelf_state F.Shelf shelf.new) }
{
    match shelf.read(name, limit_after(fetched)) {
        Fetched::Bytes(bytes) => read_bytes(alloc, format, bytes),
        Fetched::Absent => ReadEnd::Refused {
            answer: FetchNote::Absent,
            why: Refusal::FileAbsent,
        },
        Fetched::TooLong => ReadEnd::Refused {
            answer: FetchNote::TooLong,
            why: Refusal::FileTooLong,
        },
        Fetched::Failed => ReadEnd::Refused {
            answer: FetchNote::Failed,
            why: Refusal::FileFault,
        },
        Fetched::NoMemory => ReadEnd::NoMemory { bytes: None },
    }
}
