//! A reader of the system as a source.
ghost use Rattle.std.specs.Prelude.{◌≡◌, ◌<◌, ◌≤◌, None, length};
ghost use Rattle.sp_base.specs.Counts.{Rose};
ghost use Rattle.sp_base.specs.Source.{Gives};
ghost use Rattle.solpool.specs.Moves.{Takes};

use sp_base::{Got, Source};
use std::io::{ErrorKind, Read};

/// A reader, as standard input, with a count of its failed reads. It tells nothing of its bytes.
///
/// A read that a signal interrupted is made again, and is no failure.
#[derive(Drop)]
pub struct HostSource<R: Read + Drop> {
    inner: R,
    faults: u64,
}

impl<R: Read + Drop> HostSource<R> {
    /// The source of what this reader gives.
    pub fn new(inner: R) -> HostSource<R>
        ensures inner { result.inner ≡ inner }
        ensures faults { result.faults ≡ 0 }
    {
        HostSource { inner, faults: 0 }
    }
}

impl<R: Read + Drop> Source for HostSource<R> {
    ghost left = { λ _. None };

    ghost faults = { λ s. s.faults };

    #[tactic(auto, unfolding(sp_base::specs::Told::prepend))]
    fn read(&mut self, out: &mut [u8]) -> Got
        requires { 0 < length out.old }
        ensures bytes { Gives result None None out.new }
        ensures later { self.old.faults ≤ self.new.faults }
        ensures failed { result ≡ Got.Failed → Rose self.old.faults self.new.faults }
        ensures moved { Takes result (R.remaining self.old.inner) (R.remaining self.new.inner) out.new }
    {
        for _ in 0..u64::MAX {
            match self.inner.read(out) {
                Ok(0) => return Got::End,
                Ok(count) => return Got::Bytes(count),
                Err(error) => {
                    if error.kind() != ErrorKind::Interrupted {
                        break;
                    }
                }
            }
        }
        self.faults = self.faults.saturating_add(1);
        Got::Failed
    }
}
