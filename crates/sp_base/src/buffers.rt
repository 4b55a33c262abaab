//! A buffer in front of a sink, so that many small pieces make few writes.
ghost use Rattle.std.specs.Prelude.{◌≡◌, ℕ, ◌+◌, ◌<◌, ◌≤◌, [], ◌++◌, List, length, take, drop, vec_len, vec_capacity, IfErr, IfOk, OnOk};
ghost use Rattle.sp_base.specs.Told.{append};
ghost use Rattle.sp_base.specs.Buffers.{refusal_of};

use crate::sinks::{Put, Sink, SinkEnd};
use crate::writing::write_front;
use std::alloc::Global;

/// How many bytes a buffer holds, 64 KiB.
const CAPACITY: usize = 1 << 16;

/// A sink that holds up to 64 KiB of what it takes, and sends them to the sink behind it when it is full or is told to.
///
/// All that it took is what the sink behind it holds, and then what waits. A send that fails keeps what wasn't sent, so
/// that no byte is lost and none is sent twice. Writing takes no memory.
#[derive(Drop)]
pub struct Buffered<K> {
    inner: K,
    waiting: Vec<u8>,
}

/// Drops the first `count` bytes.
fn remove_front(bytes: &mut Vec<u8>, count: usize)
    requires { count ≤ vec_len bytes.old }
    ensures { bytes.new.items ≡ drop count bytes.old.items }
{
    let len = bytes.len();
    bytes.as_mut_slice().copy_within(count..len, 0);
    bytes.truncate(len - count);
}

/// Puts a piece behind what waits, for which there is room.
fn hold(waiting: &mut Vec<u8>, piece: &[u8])
    requires { vec_len waiting.old + length piece.now ≤ vec_capacity waiting.old }
    ensures { waiting.new.items ≡ waiting.old.items ++ piece.now }
{
    match waiting.extend_from_slice(piece) {
        Ok(()) => {}
        Err(_) => unreachable!(),
    }
}

/// Puts a front of a piece behind what waits, as long as there is room for, and gives its length.
fn gather(waiting: &mut Vec<u8>, piece: &[u8]) -> usize
    requires room { vec_len waiting.old < vec_capacity waiting.old }
    requires some { 0 < length piece.now }
    ensures some { 0 < result }
    ensures bound { result ≤ length piece.now }
    ensures items { waiting.new.items ≡ waiting.old.items ++ take result piece.now }
{
    let room = waiting.capacity() - waiting.len();
    if piece.len() <= room {
        hold(waiting, piece);
        return piece.len();
    }
    let (front, _) = piece.split_at(room);
    hold(waiting, front);
    room
}

impl<K: Sink> Buffered<K> {
    ghost use Rattle.sp_base.specs.Buffers.{inner_of, waiting_of};
    ghost use Rattle.sp_base.specs.Writing.{Sends, Writes};

    /// An empty buffer in front of this sink. All its memory is taken here; the error gives the sink back where there is
    /// none.
    pub fn new(alloc: Global, inner: K) -> Result<Buffered<K>, K>
        ensures inner { IfOk result (λ b. inner_of b ≡ inner) }
        ensures empty { IfOk result (λ b. waiting_of b ≡ []) }
        ensures back { IfErr result (λ k. k ≡ inner) }
    {
        match Vec::with_capacity(alloc, CAPACITY) {
            Ok(waiting) => Ok(Buffered { inner, waiting }),
            Err(_) => Err(inner),
        }
    }

    /// Sends all that waits. On an error a front part of it was sent, and the rest still waits.
    pub fn flush(&mut self) -> Result<(), SinkEnd>
        ensures empty { OnOk result (waiting_of self.new ≡ []) }
        ensures writes { Writes ⟦<Buffered<K> as Sink>⟧ result self.old self.new [] }
    {
        let (count, end) = write_front(&mut self.inner, self.waiting.as_slice());
        remove_front(&mut self.waiting, count);
        end
    }

    /// Sends what waits of a text, where all of it was written, and gives how the whole ended; `written` is how the writing
    /// did.
    ///
    /// Where nothing waited before the text, all of it went to the sink behind, or a front part of it with the cause.
    pub fn finish(&mut self, written: Result<(), SinkEnd>) -> Result<(), SinkEnd>
        ensures { (start : Buffered K) (text : List ℕ) → waiting_of start ≡ [] → Writes ⟦<Buffered<K> as Sink>⟧ written start self.old text
            → Sends K.Sink result (inner_of start) (inner_of self.new) text }
    {
        match written {
            Err(end) => Err(end),
            Ok(()) => self.flush(),
        }
    }

    /// The sink behind.
    pub fn inner(&self) -> &K
        ensures { result.now ≡ inner_of self.now }
    {
        &self.inner
    }

    /// The sink behind. What still waits is dropped.
    pub fn into_inner(self) -> K
        ensures { result ≡ inner_of self }
    {
        self.inner
    }
}

/// What a write answers where nothing could be sent.
fn refusal(end: SinkEnd) -> Put
    ensures { result ≡ refusal_of end }
{
    match end {
        SinkEnd::Fault => Put::Failed,
        SinkEnd::NoMemory => Put::NoMemory,
    }
}

impl<K: Sink> Buffered<K> {
    ghost use Rattle.std.specs.Prelude.{IsTrue};
    ghost use Rattle.sp_base.specs.Counts.{Rose};
    ghost use Rattle.sp_base.specs.Sink.{Takes};
    ghost use Rattle.sp_base.specs.Told.{Grows};

    /// The write of a piece that doesn't fit: fills the room that is left, or sends first where none is. Kept apart, since the
    /// pieces that fit are most of them.
    #[cold]
    #[inline(never)]
    #[tactic(auto, using(crate::proofs::WritingLemmas::grows_rules))]
    fn write_more(&mut self, piece: &[u8]) -> Put
        requires { 0 < length piece.now }
        ensures bytes { Takes result (append (K.held self.old.inner) self.old.waiting.items) (append (K.held self.new.inner) self.new.waiting.items) piece.now }
        ensures grown { Grows (K.held self.old.inner) (K.held self.new.inner) }
        ensures later { K.faults self.old.inner ≤ K.faults self.new.inner }
        ensures same { K.name self.new.inner ≡ K.name self.old.inner }
        ensures failed { result ≡ Put.Failed → Rose (K.faults self.old.inner) (K.faults self.new.inner) }
        ensures no_memory { result ≡ Put.NoMemory → IsTrue K.takes_memory }
    {
        if self.waiting.len() < self.waiting.capacity() {
            return Put::Took(gather(&mut self.waiting, piece));
        }
        match self.flush() {
            Err(end) => refusal(end),
            Ok(()) => {
                if piece.len() < self.waiting.capacity() {
                    return Put::Took(gather(&mut self.waiting, piece));
                }
                self.inner.write(piece)
            }
        }
    }
}

impl<K: Sink> Sink for Buffered<K> {
    ghost held = { λ b. append (K.held b.inner) b.waiting.items };

    ghost sent = { λ b. K.held b.inner };

    ghost faults = { λ b. K.faults b.inner };

    ghost name = { λ b. K.name b.inner };

    ghost takes_memory = { K.takes_memory };

    #[tactic(auto, using(crate::proofs::WritingLemmas::grows_rules))]
    fn write(&mut self, piece: &[u8]) -> Put {
        if piece.len() <= self.waiting.capacity() - self.waiting.len() {
            hold(&mut self.waiting, piece);
            return Put::Took(piece.len());
        }
        self.write_more(piece)
    }
}
