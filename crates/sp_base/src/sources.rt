//! Where bytes come from.
ghost use Rattle.std.specs.Prelude.{◌≡◌, ℕ, ◌<◌, ◌≤◌, List, length, Option};
ghost use Rattle.sp_base.specs.Counts.{Rose};
ghost use Rattle.sp_base.specs.Source.{Gives};

/// What a source answers to a read.
#[derive(Clone, Copy, PartialEq, Eq, Debug)]
pub enum Got {
    /// So many bytes, at least one, stand at the front of the buffer.
    Bytes(usize),
    /// Nothing is left.
    End,
    /// The read failed, and nothing was taken.
    Failed,
}

/// A source of bytes. It may tell the bytes that are left, and counts its faults.
pub trait Source {
    // The bytes that are left, where they are told.
    ghost left: { Self → Option (List ℕ) };

    // How many reads failed.
    ghost faults: { Self → ℕ };

    /// Moves some bytes from the source to the front of `out`, which isn't empty. The rest of `out` may change too.
    fn read(&mut self, out: &mut [u8]) -> Got
        requires { 0 < length out.old }
        ensures bytes { Gives result (left self.old) (left self.new) out.new }
        ensures later { faults self.old ≤ faults self.new }
        ensures failed { result ≡ Got.Failed → Rose (faults self.old) (faults self.new) };
}
