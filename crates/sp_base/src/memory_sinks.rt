//! Sinks that keep bytes in memory.
ghost use Rattle.std.specs.Prelude.{◌≡◌, ◌≢◌, ◌↔◌, ℕ, ◌<◌, ◌≤◌, List, [], length, min, Some, IsTrue};
ghost use Rattle.sp_base.specs.Counts.{Rose};
ghost use Rattle.sp_base.specs.Memory.{IfTook, after_call, fails_next, held_after};
ghost use Rattle.sp_base.specs.Sink.{Takes};
ghost use Rattle.sp_base.specs.Told.{Grows};

use crate::call_logs::CallLog;
use crate::sinks::{Put, Sink};
use std::alloc::Global;
use std::marker::Model;

/// A sink in memory that tells what it holds and never fails. It takes memory, and can answer that there is none.
#[derive(Debug, Drop)]
pub struct SureSink {
    bytes: Vec<u8>,
    most: usize,
}

impl Model for SureSink {
    ghost use Rattle.std.specs.Prelude.{◌≤◌};
    ghost use Rattle.sp_base.specs.Memory.{SureStream};

    ghost Value = { SureStream };

    ghost view = { λ s. record { bytes = s.bytes.items; most = s.most } };

    ghost invariant = { λ s. 1 ≤ s.most };
}

impl SureSink {
    /// An empty sink that takes at most `most` bytes, at least 1, per call.
    pub fn new(alloc: Global, most: usize) -> SureSink
        requires { 1 ≤ most }
        ensures { result ≡ record { bytes = []; most = most } }
    {
        SureSink {
            bytes: Vec::new(alloc),
            most,
        }
    }

    /// The bytes that it holds.
    pub fn bytes(&self) -> &[u8]
        ensures { result.now ≡ self.now.bytes }
    {
        self.bytes.as_slice()
    }
}

impl Sink for SureSink {
    ghost held = { λ s. Some s.bytes };

    ghost sent = { λ s. Some s.bytes };

    ghost faults = { λ _. 0 };

    #[tactic(auto, using(crate::proofs::ToldLemmas::told_laws, crate::proofs::WritingLemmas::grows_if))]
    fn write(&mut self, piece: &[u8]) -> Put
        requires { 0 < length piece.now }
        ensures bytes { Takes result (Some self.old.bytes) (Some self.new.bytes) piece.now }
        ensures grown { Grows (Some self.old.bytes) (Some self.new.bytes) }

        // Exactly which answer comes, want of memory aside, and what it leaves.
        ensures sure { result ≢ Put.Failed }
        ensures count { IfTook result (λ n. n ≡ min self.old.most (length piece.now)) }
        ensures held { self.new.bytes ≡ held_after result self.old.bytes piece.now }
        ensures most { self.new.most ≡ self.old.most }
    {
        let count = self.most.min(piece.len());
        let (front, _) = piece.split_at(count);
        match self.bytes.extend_from_slice(front) {
            Ok(()) => Put::Took(count),
            Err(_) => Put::NoMemory,
        }
    }
}

/// A sink in memory that tells what it holds, and fails at the calls that it was told to fail at. It takes
/// memory, and can answer that there is none.
///
/// Its calls of `write` are numbered from 1. The number stays at 2^64 - 1 once it is there.
#[derive(Debug, Drop)]
pub struct MemSink {
    inner: SureSink,
    log: CallLog,
}

impl Model for MemSink {
    ghost use Rattle.sp_base.specs.Memory.{MemStream};

    ghost Value = { MemStream };

    ghost view = { λ s. record { bytes = s.inner.bytes; most = s.inner.most; log = s.log } };
}

impl MemSink {
    ghost use Rattle.sp_base.specs.Memory.{new_log};

    /// An empty sink that takes at most `most` bytes, at least 1, per call, and fails at the calls with these
    /// numbers.
    pub fn new(alloc: Global, most: usize, failing: Vec<u64>) -> MemSink
        requires { 1 ≤ most }
        ensures { result ≡ record { bytes = []; most = most; log = new_log failing.items } }
    {
        MemSink {
            inner: SureSink::new(alloc, most),
            log: CallLog::new(failing),
        }
    }

    /// The bytes that it holds.
    pub fn bytes(&self) -> &[u8]
        ensures { result.now ≡ self.now.bytes }
    {
        self.inner.bytes()
    }

    /// How many writes were made.
    pub fn calls(&self) -> u64
        ensures { result ≡ self.now.log.calls }
    {
        self.log.calls()
    }

    /// How many writes failed.
    pub fn faults(&self) -> u64
        ensures { result ≡ self.now.log.faults }
    {
        self.log.faults()
    }
}

impl Sink for MemSink {
    ghost held = { λ s. Some s.bytes };

    ghost sent = { λ s. Some s.bytes };

    ghost faults = { λ s. s.log.faults };

    #[tactic(auto, using(crate::proofs::WritingLemmas::grows_rules))]
    fn write(&mut self, piece: &[u8]) -> Put
        requires { 0 < length piece.now }
        ensures bytes { Takes result (Some self.old.bytes) (Some self.new.bytes) piece.now }
        ensures grown { Grows (Some self.old.bytes) (Some self.new.bytes) }
        ensures later { self.old.log.faults ≤ self.new.log.faults }
        ensures failed { result ≡ Put.Failed → Rose self.old.log.faults self.new.log.faults }

        // Exactly which answer comes, want of memory aside, and what it leaves.
        ensures fails { (result ≡ Put.Failed) ↔ IsTrue (fails_next self.old.log) }
        ensures count { IfTook result (λ n. n ≡ min self.old.most (length piece.now)) }
        ensures held { self.new.bytes ≡ held_after result self.old.bytes piece.now }
        ensures most { self.new.most ≡ self.old.most }
        ensures log { self.new.log ≡ after_call self.old.log }
    {
        if self.log.fails_next() {
            return Put::Failed;
        }
        self.inner.write(piece)
    }
}
