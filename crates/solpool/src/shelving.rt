//! The files of the system as a shelf.
ghost use Rattle.std.specs.Prelude.{◌≡◌, ℕ, List, None, OnOk};
ghost use Rattle.std.specs.Io.KnownBytes.{Appends};
ghost use Rattle.sp_base.specs.Shelf.{Fetches};

use crate::reading::opened_contents;
use sp_base::{Fetched, Shelf, Stored, Text};
use std::alloc::Global;
use std::fs::{File, OpenOptions};
use std::io::{Error, ErrorKind, Write};
use std::rt::Files;
use std::{io, str};

/// The files that the system has, by their paths, with counts of what went wrong. It tells nothing of the files.
#[derive(Drop)]
pub struct HostShelf<'a, R: Files> {
    alloc: Global,
    files: &'a R,
    faults: u64,
    absences: u64,
    overruns: u64,
    answers: u64,
}

impl<'a, R: Files> HostShelf<'a, R> {
    /// The shelf of these files. What is read is held in memory of `alloc`.
    pub fn new(alloc: Global, files: &'a R) -> HostShelf<'a, R>
        ensures faults { result.faults ≡ 0 }
        ensures absences { result.absences ≡ 0 }
        ensures overruns { result.overruns ≡ 0 }
        ensures answers { result.answers ≡ 0 }
    {
        HostShelf {
            alloc,
            files,
            faults: 0,
            absences: 0,
            overruns: 0,
            answers: 0,
        }
    }
}

impl<'a, R: Files> Shelf for HostShelf<'a, R> {
    ghost files = { λ _. None };

    ghost faults = { λ s. s.faults };

    ghost absences = { λ s. s.absences };

    ghost overruns = { λ s. s.overruns };

    ghost answers = { λ s. s.answers };

    fn read(&mut self, name: &Text, limit: u64) -> Fetched {
        let answer = fetch(self.alloc, self.files, name.as_slice(), limit);
        match &answer {
            Fetched::Absent => self.absences = self.absences.saturating_add(1),
            Fetched::TooLong => self.overruns = self.overruns.saturating_add(1),
            Fetched::Failed => self.faults = self.faults.saturating_add(1),
            Fetched::Bytes(_) | Fetched::NoMemory => (),
        }
        self.answers = answer.counted(self.answers);
        answer
    }

    #[tactic(auto, unfolding(sp_base::specs::Shelf::set_file))]
    fn write(&mut self, name: &Text, bytes: &[u8]) -> Stored {
        let answer = match store(self.files, name.as_slice(), bytes) {
            Ok(()) => Stored::Kept,
            Err(_) => {
                self.faults = self.faults.saturating_add(1);
                Stored::Failed
            }
        };
        self.answers = answer.counted(self.answers);
        answer
    }
}

/// The bytes of the file at a path, if there are at most `limit` of them. There is no file at a path that isn't UTF-8.
fn fetch<R: Files>(alloc: Global, files: &R, name: &[u8], limit: u64) -> Fetched
    ensures { (path : List ℕ) → Fetches result None path limit }
{
    let Ok(path) = str::from_utf8(name) else {
        return Fetched::Absent;
    };
    opened_contents(
        alloc,
        OpenOptions::new().read(true).open(files, path),
        limit,
    )
}

/// Writes all these bytes, and nothing else, to a file that was opened for it.
fn fill<W: Write>(file: &mut W, bytes: &[u8]) -> io::Result<()>
    ensures { OnOk result (Appends (W.contents file.old) (W.contents file.new) bytes.now) }
{
    file.write_all(bytes)
}

/// Makes the file at a path, or empties it, and writes these bytes.
fn store<R: Files>(files: &R, name: &[u8], bytes: &[u8]) -> io::Result<()> {
    let Ok(path) = str::from_utf8(name) else {
        return Err(Error::from(ErrorKind::InvalidInput));
    };
    let mut file = File::create(files, path)?;
    fill(&mut file, bytes)
}
