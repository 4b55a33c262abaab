//! Files by name.
ghost use Rattle.std.specs.Prelude.{◌≡◌, ℕ, ◌≤◌, Option};
ghost use Rattle.sp_base.specs.Counts.{Rose};
ghost use Rattle.sp_base.specs.Shelf.{Files, Fetches, Stores, answers_after_read, answers_after_write};

use crate::texts::Text;

/// What a shelf answers to a read.
#[derive(Debug, Drop)]
pub enum Fetched {
    /// The bytes of the file.
    Bytes(Text),
    /// There is no such file.
    Absent,
    /// The file is longer than the limit.
    TooLong,
    /// The read failed.
    Failed,
    /// There was no memory for the bytes.
    NoMemory,
}

/// What a shelf answers to a write.
#[derive(Clone, Copy, PartialEq, Eq, Debug)]
pub enum Stored {
    /// The file has these bytes now.
    Kept,
    /// The write failed: the file is as it was or has a front part of the bytes.
    Failed,
    /// There was no memory for the write, and nothing changed.
    NoMemory,
}

impl Fetched {
    /// The count of answers after this one, where want of memory is none. It stays at 2^64 - 1 once it is there.
    pub fn counted(&self, answers: u64) -> u64
        ensures { result ≡ answers_after_read self.now answers }
    {
        match self {
            Fetched::Bytes(_) | Fetched::Absent | Fetched::TooLong | Fetched::Failed =>
                answers.saturating_add(1),
            Fetched::NoMemory => answers,
        }
    }
}

impl Stored {
    /// The count of answers after this one, where want of memory is none. It stays at 2^64 - 1 once it is there.
    pub fn counted(self, answers: u64) -> u64
        ensures { result ≡ answers_after_write self answers }
    {
        match self {
            Stored::Kept | Stored::Failed => answers.saturating_add(1),
            Stored::NoMemory => answers,
        }
    }
}

/// A shelf of files. It may tell its files, and counts its faults, the reads of files that weren't there
/// (absences), the reads of files that were too long (overruns), and its answers.
pub trait Shelf {
    // Its files, where they are told.
    ghost files: { Self → Option Files };

    // How many reads and writes failed.
    ghost faults: { Self → ℕ };

    // How many reads named no file.
    ghost absences: { Self → ℕ };

    // How many reads met a file that was too long.
    ghost overruns: { Self → ℕ };

    // How many reads and writes had another answer than want of memory.
    ghost answers: { Self → ℕ };

    /// The bytes of the file `name`, if there are at most `limit` of them.
    fn read(&mut self, name: &Text, limit: u64) -> Fetched
        ensures answer { Fetches result (files self.old) name.now limit }
        ensures unchanged { files self.new ≡ files self.old }
        ensures faults_later { faults self.old ≤ faults self.new }
        ensures absences_later { absences self.old ≤ absences self.new }
        ensures overruns_later { overruns self.old ≤ overruns self.new }
        ensures failed { result ≡ Fetched.Failed → Rose (faults self.old) (faults self.new) }
        ensures absent { result ≡ Fetched.Absent → Rose (absences self.old) (absences self.new) }
        ensures too_long { result ≡ Fetched.TooLong → Rose (overruns self.old) (overruns self.new) }
        ensures counted { answers self.new ≡ answers_after_read result (answers self.old) };

    /// Sets the file `name` to these bytes.
    fn write(&mut self, name: &Text, bytes: &[u8]) -> Stored
        ensures answer { Stores result (files self.old) (files self.new) name.now bytes.now }
        ensures faults_later { faults self.old ≤ faults self.new }
        ensures absences_later { absences self.old ≤ absences self.new }
        ensures overruns_later { overruns self.old ≤ overruns self.new }
        ensures failed { result ≡ Stored.Failed → Rose (faults self.old) (faults self.new) }
        ensures counted { answers self.new ≡ answers_after_write result (answers self.old) };
}
