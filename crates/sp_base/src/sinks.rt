//! Where bytes go.
ghost use Rattle.std.specs.Prelude.{◌≡◌, ℕ, ◌<◌, ◌≤◌, List, length, Option, Bool, true, IsTrue};
ghost use Rattle.std.specs.Borrow.{GName};
ghost use Rattle.sp_base.specs.Counts.{Rose};
ghost use Rattle.sp_base.specs.Sink.{Takes};
ghost use Rattle.sp_base.specs.Told.{Grows};

/// What a sink answers to a write.
#[derive(Clone, Copy, PartialEq, Eq, Debug)]
pub enum Put {
    /// So many bytes of the piece, at least one, were taken from its front.
    Took(usize),
    /// The write failed, and nothing was taken.
    Failed,
    /// There was no memory for the write, and nothing was taken.
    NoMemory,
}

/// A sink of bytes. It may tell the bytes that it holds, and counts its faults.
pub trait Sink {
    // The bytes that it took, where they are told.
    ghost held: { Self → Option (List ℕ) };

    // The front of them that has gone on; all of them in a sink that keeps none back.
    ghost sent: { Self → Option (List ℕ) };

    // How many writes failed.
    ghost faults: { Self → ℕ };

    // Which reference it writes through, where it does; it always writes through the same one.
    ghost name: { Self → GName } = { λ _. 0 };

    // Whether its writes can answer that there is no memory.
    ghost takes_memory: { Bool } = { true };

    /// Takes some bytes from the front of `piece`, which isn't empty.
    fn write(&mut self, piece: &[u8]) -> Put
        requires { 0 < length piece.now }
        ensures bytes { Takes result (held self.old) (held self.new) piece.now }
        ensures grown { Grows (sent self.old) (sent self.new) }
        ensures later { faults self.old ≤ faults self.new }
        ensures same { name self.new ≡ name self.old }
        ensures failed { result ≡ Put.Failed → Rose (faults self.old) (faults self.new) }
        ensures no_memory { result ≡ Put.NoMemory → IsTrue takes_memory };
}

/// Why not all of a piece was written.
#[derive(Clone, Copy, PartialEq, Eq, Debug)]
pub enum SinkEnd {
    /// The sink failed.
    Fault,
    /// The sink had no memory.
    NoMemory,
}

impl<K: Sink> Sink for &mut K {
    ghost held = { λ sink. K.held sink.now };

    ghost sent = { λ sink. K.sent sink.now };

    ghost faults = { λ sink. K.faults sink.now };

    ghost name = { λ sink. sink.ghost_name };

    ghost takes_memory = { K.takes_memory };

    fn write(&mut self, piece: &[u8]) -> Put {
        Sink::write(&mut **self, piece)
    }
}
