//! Writing whole texts to a sink. Nothing here takes memory of its own.
ghost use Rattle.std.specs.Prelude.{◌≡◌, ◌++◌, ◌≤◌, length, take, OnOk, OnErr, Err, IsTrue};
ghost use Rattle.sp_base.specs.Counts.{Rose};
ghost use Rattle.sp_base.specs.Told.{append};
ghost use Rattle.sp_base.specs.Writing.{Writes, joined};

use crate::sinks::{Put, Sink, SinkEnd};

/// Writes the piece, in at most as many writes as it has bytes, and gives how many bytes were written before a write
/// failed, or all were.
pub(crate) fn write_front<K: Sink>(sink: &mut K, piece: &[u8]) -> (usize, Result<(), SinkEnd>)
    ensures bound { result.0 ≤ length piece.now }
    ensures all { OnOk result.1 (result.0 ≡ length piece.now) }
    ensures writes { Writes K.Sink result.1 sink.old sink.new piece.now }
    ensures told { K.held sink.new ≡ append (K.held sink.old) (take result.0 piece.now) }
{
    let mut at = 0;
    while at < piece.len() {
        let (_, rest) = piece.split_at(at);
        match sink.write(rest) {
            Put::Took(count) => at += count,
            Put::Failed => return (at, Err(SinkEnd::Fault)),
            Put::NoMemory => return (at, Err(SinkEnd::NoMemory)),
        }
    }
    (at, Ok(()))
}

/// Writes the whole piece, in at most as many writes as it has bytes.
///
/// On an error a front part of the piece was written. `NoMemory` is the sink's own answer, passed on.
pub fn write_all<K: Sink>(sink: &mut K, piece: &[u8]) -> Result<(), SinkEnd>
    ensures written { Writes K.Sink result sink.old sink.new piece.now }
{
    let (_, end) = write_front(sink, piece);
    end
}

/// Writes the pieces, one behind the other. On an error a front part of them was written.
#[tactic(auto, using(crate::proofs::WritingLemmas::step_rules))]
pub fn write_each<K: Sink>(sink: &mut K, pieces: &[&[u8]]) -> Result<(), SinkEnd>
    ensures written { Writes K.Sink result sink.old sink.new (joined pieces.now) }
{
    for piece in pieces {
        match write_all(sink, piece) {
            Err(end) => return Err(end),
            Ok(()) => {}
        }
    }
    Ok(())
}
