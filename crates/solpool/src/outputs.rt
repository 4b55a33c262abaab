//! A writer of the system as a sink.
ghost use Rattle.std.specs.Prelude.{◌≡◌, ◌≢◌, ◌<◌, ◌≤◌, None, false, length};
ghost use Rattle.sp_base.specs.Counts.{Rose};
ghost use Rattle.sp_base.specs.Sink.{Takes};
ghost use Rattle.sp_base.specs.Told.{Grows};
ghost use Rattle.solpool.specs.Moves.{Hands};

use sp_base::{Put, Sink};
use std::io::Write;

/// A writer, as standard output, with a count of the writes that failed or took nothing. It tells nothing of the
/// bytes that it took, and keeps none back.
#[derive(Drop)]
pub struct HostSink<W: Write + Drop> {
    inner: W,
    faults: u64,
}

impl<W: Write + Drop> HostSink<W> {
    /// The sink that hands all bytes to this writer.
    pub fn new(inner: W) -> HostSink<W>
        ensures { result.faults ≡ 0 }
    {
        HostSink { inner, faults: 0 }
    }
}

impl<W: Write + Drop> Sink for HostSink<W> {
    ghost held = { λ _. None };

    ghost sent = { λ _. None };

    ghost faults = { λ s. s.faults };

    ghost takes_memory = { false };

    #[tactic(auto, unfolding(sp_base::specs::Told::append))]
    fn write(&mut self, piece: &[u8]) -> Put
        requires { 0 < length piece.now }
        ensures bytes { Takes result None None piece.now }
        ensures grown { Grows None None }
        ensures later { self.old.faults ≤ self.new.faults }
        ensures failed { result ≡ Put.Failed → Rose self.old.faults self.new.faults }
        ensures no_memory { result ≢ Put.NoMemory }
        ensures moved { Hands result (W.contents self.old.inner) (W.contents self.new.inner) piece.now }
    {
        match self.inner.write(piece) {
            Ok(0) | Err(_) => {
                self.faults = self.faults.saturating_add(1);
                Put::Failed
            }
            Ok(count) => Put::Took(count),
        }
    }
}
