//! The calls of an object in memory, and which of them fail.
ghost use Rattle.std.specs.Prelude.{◌≡◌, ◌≤◌, IsTrue};
ghost use Rattle.sp_base.specs.Counts.{Rose};
ghost use Rattle.sp_base.specs.Memory.{after_call, fails_next, new_log};

use std::marker::Model;

/// The numbers of the calls that fail, how many calls were made and how many of these failed.
#[derive(Debug, Drop)]
pub(crate) struct CallLog {
    failing: Vec<u64>,
    calls: u64,
    faults: u64,
}

impl Model for CallLog {
    ghost use Rattle.sp_base.specs.Memory as memory;

    ghost Value = { memory.CallLog };

    ghost view = { λ l. record { failing = l.failing.items; calls = l.calls; faults = l.faults } };
}

impl CallLog {
    /// The log of an object that was never called.
    pub(crate) fn new(failing: Vec<u64>) -> CallLog
        ensures { result ≡ new_log failing.items }
    {
        CallLog {
            failing,
            calls: 0,
            faults: 0,
        }
    }

    /// Counts one more call, says whether it fails, and then counts a fault too.
    pub(crate) fn fails_next(&mut self) -> bool
        ensures answer { result ≡ fails_next self.old }
        ensures after { self.new ≡ after_call self.old }
        ensures later { self.old.faults ≤ self.new.faults }
        ensures failed { IsTrue result → Rose self.old.faults self.new.faults }
    {
        self.calls = self.calls.saturating_add(1);
        if self.failing.contains(&self.calls) {
            self.faults = self.faults.saturating_add(1);
            return true;
        }
        false
    }

    /// How many calls were made.
    pub(crate) fn calls(&self) -> u64
        ensures { result ≡ self.now.calls }
    {
        self.calls
    }

    /// How many calls failed.
    pub(crate) fn faults(&self) -> u64
        ensures { result ≡ self.now.faults }
    {
        self.faults
    }
}
