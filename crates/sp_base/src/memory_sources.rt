//! Sources that give bytes from memory.
ghost use Rattle.std.specs.Prelude.{◌≡◌, ◌≢◌, ◌↔◌, ℕ, ◌<◌, ◌≤◌, List, [], length, take, min, Some, IsTrue};
ghost use Rattle.sp_base.specs.Counts.{Rose};
ghost use Rattle.sp_base.specs.Memory.{IfGave, after_call, fails_next, left_after};
ghost use Rattle.sp_base.specs.Source.{Gives};

use crate::call_logs::CallLog;
use crate::sources::{Got, Source};
use std::alloc::Global;
use std::marker::Model;

/// Copies the front of `left` to the front of `out`, at most `most` bytes, and says how many.
fn give(left: &[u8], most: usize, out: &mut [u8]) -> usize
    requires some { 1 ≤ most }
    requires room { 0 < length out.old }
    ensures count { result ≡ min most (min (length out.old) (length left.now)) }
    ensures copied { take result out.new ≡ take result left.now }
    ensures none { result ≡ 0 → left.now ≡ [] }
{
    let count = most.min(out.len().min(left.len()));
    out[..count].copy_from_slice(&left[..count]);
    count
}

/// A source in memory that tells what is left and never fails.
#[derive(Debug, Drop)]
pub struct SureSource {
    bytes: Vec<u8>,
    at: usize,
    most: usize,
}

impl Model for SureSource {
    ghost use Rattle.std.specs.Prelude.{◌≤◌, drop, vec_len};
    ghost use Rattle.sp_base.specs.Memory.{SureStream};

    ghost Value = { SureStream };

    ghost view = { λ s. record { bytes = drop s.at s.bytes.items; most = s.most } };

    ghost invariant = { λ s. (s.at ≤ vec_len s.bytes) × (1 ≤ s.most) };
}

impl SureSource {
    /// A source of these bytes that gives at most `most` of them, at least 1, per call.
    pub fn new(_alloc: Global, bytes: Vec<u8>, most: usize) -> SureSource
        requires { 1 ≤ most }
        ensures { result ≡ record { bytes = bytes.items; most = most } }
    {
        SureSource { bytes, at: 0, most }
    }
}

impl Source for SureSource {
    ghost left = { λ s. Some s.bytes };

    ghost faults = { λ _. 0 };

    fn read(&mut self, out: &mut [u8]) -> Got
        requires { 0 < length out.old }
        ensures bytes { Gives result (Some self.old.bytes) (Some self.new.bytes) out.new }

        // Exactly which answer comes, and what it leaves.
        ensures sure { result ≢ Got.Failed }
        ensures count { IfGave result (λ n. n ≡ min self.old.most (min (length out.old) (length self.old.bytes))) }
        ensures left { self.new.bytes ≡ left_after result self.old.bytes }
        ensures most { self.new.most ≡ self.old.most }
    {
        let (_, left) = self.bytes.as_slice().split_at(self.at);
        let count = give(left, self.most, out);
        if count == 0 {
            return Got::End;
        }
        self.at += count;
        Got::Bytes(count)
    }
}

/// A source in memory that tells what is left, and fails at the calls that it was told to fail at.
///
/// Its calls of `read` are numbered from 1. The number stays at 2^64 - 1 once it is there.
#[derive(Debug, Drop)]
pub struct MemSource {
    inner: SureSource,
    log: CallLog,
}

impl Model for MemSource {
    ghost use Rattle.sp_base.specs.Memory.{MemStream};

    ghost Value = { MemStream };

    ghost view = { λ s. record { bytes = s.inner.bytes; most = s.inner.most; log = s.log } };
}

impl MemSource {
    ghost use Rattle.sp_base.specs.Memory.{new_log};

    /// A source of these bytes that gives at most `most` of them, at least 1, per call, and fails at the calls
    /// with these numbers.
    pub fn new(alloc: Global, bytes: Vec<u8>, most: usize, failing: Vec<u64>) -> MemSource
        requires { 1 ≤ most }
        ensures { result ≡ record { bytes = bytes.items; most = most; log = new_log failing.items } }
    {
        MemSource {
            inner: SureSource::new(alloc, bytes, most),
            log: CallLog::new(failing),
        }
    }

    /// How many reads were made.
    pub fn calls(&self) -> u64
        ensures { result ≡ self.now.log.calls }
    {
        self.log.calls()
    }

    /// How many reads failed.
    pub fn faults(&self) -> u64
        ensures { result ≡ self.now.log.faults }
    {
        self.log.faults()
    }
}

impl Source for MemSource {
    ghost left = { λ s. Some s.bytes };

    ghost faults = { λ s. s.log.faults };

    fn read(&mut self, out: &mut [u8]) -> Got
        requires { 0 < length out.old }
        ensures bytes { Gives result (Some self.old.bytes) (Some self.new.bytes) out.new }
        ensures later { self.old.log.faults ≤ self.new.log.faults }
        ensures failed { result ≡ Got.Failed → Rose self.old.log.faults self.new.log.faults }

        // Exactly which answer comes, and what it leaves.
        ensures fails { (result ≡ Got.Failed) ↔ IsTrue (fails_next self.old.log) }
        ensures count { IfGave result (λ n. n ≡ min self.old.most (min (length out.old) (length self.old.bytes))) }
        ensures left { self.new.bytes ≡ left_after result self.old.bytes }
        ensures most { self.new.most ≡ self.old.most }
        ensures log { self.new.log ≡ after_call self.old.log }
    {
        if self.log.fails_next() {
            return Got::Failed;
        }
        self.inner.read(out)
    }
}
