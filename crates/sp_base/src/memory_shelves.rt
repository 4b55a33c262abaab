//! Shelves that keep files in memory.
ghost use Rattle.std.specs.Prelude.{◌≡◌, ◌≢◌, ◌↔◌, ◌<◌, ◌≤◌, length, position, IsSomeAnd, IsTrue, OnErr, OnOk, Some, None};
ghost use Rattle.std.specs.Option.{option_copied};
ghost use Rattle.std.specs.Str.{bytes_eq};
ghost use Rattle.sp_base.specs.Counts.{Rose};
ghost use Rattle.sp_base.specs.Memory.{absences_after, after_call, fails_next, files_after, files_of, overruns_after};
ghost use Rattle.sp_base.specs.Shelf.{Fetches, Stores, answers_after_read, answers_after_write, file, with_file};

use crate::call_logs::CallLog;
use crate::shelves::{Fetched, Shelf, Stored};
use crate::texts::Text;
use std::alloc::{AllocError, Global};
use std::marker::Model;

/// The place of the first entry of this name.
fn place_of(entries: &[(Text, Vec<u8>)], name: &[u8]) -> Option<usize>
    ensures { result ≡ position (λ entry. bytes_eq name.now entry.0) entries.now }
{
    entries.iter().position(|entry| name == entry.0.as_slice())
}

/// The bytes of the first entry of this name.
fn find_file<'a>(entries: &'a [(Text, Vec<u8>)], name: &[u8]) -> Option<&'a [u8]>
    ensures { option_copied result ≡ file (files_of entries.now) name.now }
{
    match place_of(entries, name) {
        Some(place) => Some(entries[place].1.as_slice()),
        None => None,
    }
}

/// What a read of this name with this limit answers.
fn fetch(alloc: Global, entries: &[(Text, Vec<u8>)], name: &Text, limit: u64) -> Fetched
    ensures answer { Fetches result (Some (files_of entries.now)) name.now limit }
    ensures sure { result ≢ Fetched.Failed }
    ensures no_memory { result ≡ Fetched.NoMemory → IsSomeAnd (file (files_of entries.now) name.now) (λ bytes. length bytes ≤ limit) }
{
    match find_file(entries, name.as_slice()) {
        Some(bytes) => {
            if bytes.len() as u64 > limit {
                return Fetched::TooLong;
            }
            match Vec::from_slice(alloc, bytes) {
                Ok(copy) => Fetched::Bytes(Text::from_vec(copy)),
                Err(_) => Fetched::NoMemory,
            }
        }
        None => Fetched::Absent,
    }
}

/// Sets the bytes of the first entry of this name, or puts a new entry at the end.
fn keep(
    alloc: Global,
    entries: &mut Vec<(Text, Vec<u8>)>,
    name: &Text,
    bytes: &[u8],
) -> Result<(), AllocError>
    ensures ok { OnOk result (files_of entries.new.items ≡ with_file (files_of entries.old.items) name.now bytes.now) }
    ensures err { OnErr result (files_of entries.new.items ≡ files_of entries.old.items) }
{
    let copy = Vec::from_slice(alloc, bytes)?;
    match place_of(entries.as_slice(), name.as_slice()) {
        Some(place) => entries[place].1 = copy,
        None => {
            let name = Vec::from_slice(alloc, name.as_slice())?;
            entries.push((Text::from_vec(name), copy))?;
        }
    }
    Ok(())
}

/// A shelf in memory that tells its files and never fails. It takes memory, and can answer that there is none.
#[derive(Debug, Drop)]
pub struct SureShelf {
    alloc: Global,
    entries: Vec<(Text, Vec<u8>)>,
    absences: u64,
    overruns: u64,
    answers: u64,
}

impl Model for SureShelf {
    ghost use Rattle.sp_base.specs.Memory.{SureFiles, files_of, sure_files_code};

    ghost Value = { SureFiles };

    ghost coded = { sure_files_code };

    ghost view = { λ s. record { files = files_of s.entries.items; absences = s.absences; overruns = s.overruns; answers = s.answers } };
}

impl SureShelf {
    /// A shelf of these files. Where a name stands twice, its first file counts.
    pub fn new(alloc: Global, files: Vec<(Text, Vec<u8>)>) -> SureShelf
        ensures { result ≡ record { files = files_of files.items; absences = 0; overruns = 0; answers = 0 } }
    {
        SureShelf {
            alloc,
            entries: files,
            absences: 0,
            overruns: 0,
            answers: 0,
        }
    }

    /// The bytes of the file of this name, if it is there.
    pub fn file(&self, name: &Text) -> Option<&[u8]>
        ensures { option_copied result ≡ file self.now.files name.now }
    {
        find_file(self.entries.as_slice(), name.as_slice())
    }

    /// How many reads named no file.
    pub fn absences(&self) -> u64
        ensures { result ≡ self.now.absences }
    {
        self.absences
    }

    /// How many reads met a file that was too long.
    pub fn overruns(&self) -> u64
        ensures { result ≡ self.now.overruns }
    {
        self.overruns
    }

    /// How many reads and writes had another answer than want of memory.
    pub fn answers(&self) -> u64
        ensures { result ≡ self.now.answers }
    {
        self.answers
    }
}

impl Shelf for SureShelf {
    ghost files = { λ s. Some s.files };

    ghost faults = { λ _. 0 };

    ghost absences = { λ s. s.absences };

    ghost overruns = { λ s. s.overruns };

    ghost answers = { λ s. s.answers };

    fn read(&mut self, name: &Text, limit: u64) -> Fetched
        ensures answer { Fetches result (Some self.old.files) name.now limit }
        ensures absences_later { self.old.absences ≤ self.new.absences }
        ensures overruns_later { self.old.overruns ≤ self.new.overruns }
        ensures counted { self.new.answers ≡ answers_after_read result self.old.answers }

        // Exactly which answer comes, want of memory aside, and what it leaves.
        ensures sure { result ≢ Fetched.Failed }
        ensures no_memory { result ≡ Fetched.NoMemory → IsSomeAnd (file self.old.files name.now) (λ bytes. length bytes ≤ limit) }
        ensures files { self.new.files ≡ self.old.files }
        ensures absences { self.new.absences ≡ absences_after result self.old.absences }
        ensures overruns { self.new.overruns ≡ overruns_after result self.old.overruns }
    {
        let answer = fetch(self.alloc, self.entries.as_slice(), name, limit);
        match &answer {
            Fetched::Absent => self.absences = self.absences.saturating_add(1),
            Fetched::TooLong => self.overruns = self.overruns.saturating_add(1),
            Fetched::Bytes(_) | Fetched::Failed | Fetched::NoMemory => (),
        }
        self.answers = answer.counted(self.answers);
        answer
    }

    #[tactic(auto, unfolding(crate::specs::Shelf::set_file))]
    fn write(&mut self, name: &Text, bytes: &[u8]) -> Stored
        ensures answer { Stores result (Some self.old.files) (Some self.new.files) name.now bytes.now }
        ensures counted { self.new.answers ≡ answers_after_write result self.old.answers }

        // Exactly which answer comes, want of memory aside, and what it leaves.
        ensures sure { result ≢ Stored.Failed }
        ensures files { self.new.files ≡ files_after result self.old.files name.now bytes.now }
        ensures absences { self.new.absences ≡ self.old.absences }
        ensures overruns { self.new.overruns ≡ self.old.overruns }
    {
        let answer = match keep(self.alloc, &mut self.entries, name, bytes) {
            Ok(()) => Stored::Kept,
            Err(_) => Stored::NoMemory,
        };
        self.answers = answer.counted(self.answers);
        answer
    }
}

/// A shelf in memory that tells its files, and fails at the calls that it was told to fail at. It takes
/// memory, and can answer that there is none.
///
/// Its calls of `read` and `write` are numbered together, from 1. The number stays at 2^64 - 1 once it is there.
/// A write that fails leaves all files as they were.
#[derive(Debug, Drop)]
pub struct MemShelf {
    inner: SureShelf,
    answers: u64,
    log: CallLog,
}

impl Model for MemShelf {
    ghost use Rattle.sp_base.specs.Memory.{MemFiles, mem_files_code};

    ghost Value = { MemFiles };

    ghost coded = { mem_files_code };

    ghost view = { λ s. record { files = s.inner.files; absences = s.inner.absences; overruns = s.inner.overruns; answers = s.answers; log = s.log } };
}

impl MemShelf {
    ghost use Rattle.sp_base.specs.Memory.{new_log};

    /// A shelf of these files that fails at the calls with these numbers. Where a name stands twice, its first
    /// file counts.
    pub fn new(alloc: Global, files: Vec<(Text, Vec<u8>)>, failing: Vec<u64>) -> MemShelf
        ensures { result ≡ record { files = files_of files.items; absences = 0; overruns = 0; answers = 0; log = new_log failing.items } }
    {
        MemShelf {
            inner: SureShelf::new(alloc, files),
            answers: 0,
            log: CallLog::new(failing),
        }
    }

    /// The bytes of the file of this name, if it is there. This is no call that counts.
    pub fn file(&self, name: &Text) -> Option<&[u8]>
        ensures { option_copied result ≡ file self.now.files name.now }
    {
        self.inner.file(name)
    }

    /// How many reads and writes were made.
    pub fn calls(&self) -> u64
        ensures { result ≡ self.now.log.calls }
    {
        self.log.calls()
    }

    /// How many reads and writes failed.
    pub fn faults(&self) -> u64
        ensures { result ≡ self.now.log.faults }
    {
        self.log.faults()
    }

    /// How many reads named no file.
    pub fn absences(&self) -> u64
        ensures { result ≡ self.now.absences }
    {
        self.inner.absences()
    }

    /// How many reads met a file that was too long.
    pub fn overruns(&self) -> u64
        ensures { result ≡ self.now.overruns }
    {
        self.inner.overruns()
    }

    /// How many reads and writes had another answer than want of memory.
    pub fn answers(&self) -> u64
        ensures { result ≡ self.now.answers }
    {
        self.answers
    }
}

impl Shelf for MemShelf {
    ghost files = { λ s. Some s.files };

    ghost faults = { λ s. s.log.faults };

    ghost absences = { λ s. s.absences };

    ghost overruns = { λ s. s.overruns };

    ghost answers = { λ s. s.answers };

    fn read(&mut self, name: &Text, limit: u64) -> Fetched
        ensures answer { Fetches result (Some self.old.files) name.now limit }
        ensures faults_later { self.old.log.faults ≤ self.new.log.faults }
        ensures absences_later { self.old.absences ≤ self.new.absences }
        ensures overruns_later { self.old.overruns ≤ self.new.overruns }
        ensures failed { result ≡ Fetched.Failed → Rose self.old.log.faults self.new.log.faults }
        ensures counted { self.new.answers ≡ answers_after_read result self.old.answers }

        // Exactly which answer comes, want of memory aside, and what it leaves.
        ensures fails { (result ≡ Fetched.Failed) ↔ IsTrue (fails_next self.old.log) }
        ensures no_memory { result ≡ Fetched.NoMemory → IsSomeAnd (file self.old.files name.now) (λ bytes. length bytes ≤ limit) }
        ensures files { self.new.files ≡ self.old.files }
        ensures absences { self.new.absences ≡ absences_after result self.old.absences }
        ensures overruns { self.new.overruns ≡ overruns_after result self.old.overruns }
        ensures log { self.new.log ≡ after_call self.old.log }
    {
        let answer = if self.log.fails_next() {
            Fetched::Failed
        } else {
            self.inner.read(name, limit)
        };
        self.answers = answer.counted(self.answers);
        answer
    }

    #[tactic(auto, unfolding(crate::specs::Shelf::set_file))]
    fn write(&mut self, name: &Text, bytes: &[u8]) -> Stored
        ensures answer { Stores result (Some self.old.files) (Some self.new.files) name.now bytes.now }
        ensures faults_later { self.old.log.faults ≤ self.new.log.faults }
        ensures failed { result ≡ Stored.Failed → Rose self.old.log.faults self.new.log.faults }
        ensures counted { self.new.answers ≡ answers_after_write result self.old.answers }

        // Exactly which answer comes, want of memory aside, and what it leaves.
        ensures fails { (result ≡ Stored.Failed) ↔ IsTrue (fails_next self.old.log) }
        ensures files { self.new.files ≡ files_after result self.old.files name.now bytes.now }
        ensures absences { self.new.absences ≡ self.old.absences }
        ensures overruns { self.new.overruns ≡ self.old.overruns }
        ensures log { self.new.log ≡ after_call self.old.log }
    {
        let answer = if self.log.fails_next() {
            Stored::Failed
        } else {
            self.inner.write(name, bytes)
        };
        self.answers = answer.counted(self.answers);
        answer
    }
}
