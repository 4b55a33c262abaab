//! The contents of one file.
ghost use Rattle.std.specs.Prelude.{◌≡◌, ℕ, ◌<◌, ◌≤◌, List, length, None, IfErr, IfOk};
ghost use Rattle.std.specs.IoError.{error_kind};
ghost use Rattle.sp_base.specs.Counts.{Rose};
ghost use Rattle.sp_base.specs.Memory.{IfGave};
ghost use Rattle.sp_base.specs.Shelf.{Fetches};
ghost use Rattle.solpool.specs.Contents.{IsContentsOf, IsReadFrom, refusal_of};
ghost use Rattle.solpool.specs.Moves.{Takes};

use crate::inputs::HostSource;
use sp_base::{Fetched, Got, Source, Text};
use std::alloc::Global;
use std::fs::OpenFile;
use std::io;
use std::io::{Error, ErrorKind, Read};

/// How many bytes are asked of a file at once.
const PIECE: usize = 65536;

/// What is answered where a file can't be opened.
fn refused(error: &Error) -> Fetched
    ensures { result ≡ refusal_of (error_kind error.now) }
{
    match error.kind() {
        ErrorKind::NotFound => Fetched::Absent,
        ErrorKind::OutOfMemory => Fetched::NoMemory,
        _ => Fetched::Failed,
    }
}

/// One read of at most `most` bytes to the front of `piece`.
fn read_front<F: Read + Drop>(source: &mut HostSource<F>, piece: &mut [u8], most: usize) -> Got
    requires some { 0 < most }
    requires room { most ≤ length piece.old }
    ensures some { IfGave result (λ n. 0 < n) }
    ensures bound { IfGave result (λ n. n ≤ most) }
    ensures later { source.old.faults ≤ source.new.faults }
    ensures failed { result ≡ Got.Failed → Rose source.old.faults source.new.faults }
    ensures moved { Takes result (F.remaining source.old.inner) (F.remaining source.new.inner) piece.new }
{
    source.read(&mut piece[..most])
}

/// All bytes that are left, if there are at most `limit` of them. At most one byte more is taken, and memory grows with
/// what was read. `Failed` comes only where a read failed.
pub fn contents<F: Read + Drop>(alloc: Global, source: &mut HostSource<F>, limit: u64) -> Fetched
    ensures within { (path : List ℕ) → Fetches result None path limit }
    ensures exact { IsContentsOf result (F.remaining source.old.inner) limit }
    ensures failed { result ≡ Fetched.Failed → Rose source.old.faults source.new.faults }
{
    let mut bytes = Vec::new(alloc);
    let mut piece = [0u8; PIECE];
    loop {
        let room = limit - bytes.len() as u64;
        let most = room.min(PIECE as u64 - 1) as usize + 1;
        match read_front(source, &mut piece, most) {
            Got::End => return Fetched::Bytes(Text::from_vec(bytes)),
            Got::Failed => return Fetched::Failed,
            Got::Bytes(count) => {
                let (got, _) = piece.split_at(count);
                if count as u64 > room {
                    return Fetched::TooLong;
                }
                if bytes.extend_from_slice(got).is_err() {
                    return Fetched::NoMemory;
                }
            }
        }
    }
}

/// Whether this is a plain file that the system says to have more than `limit` bytes. Such a file isn't read.
fn is_longer<F: OpenFile>(file: &F, limit: u64) -> bool {
    match file.metadata() {
        Ok(told) => told.is_file() && told.len() > limit,
        Err(_) => false,
    }
}

/// The bytes of a file that was opened, if there are at most `limit` of them, or what the error of its opening means.
pub fn opened_contents<F: Read + OpenFile + Drop>(
    alloc: Global,
    opened: io::Result<F>,
    limit: u64,
) -> Fetched
    ensures within { (path : List ℕ) → Fetches result None path limit }
    ensures read { IfOk opened (λ file. IsReadFrom result (F.remaining file)) }
    ensures refused { IfErr opened (λ error. result ≡ refusal_of (error_kind error)) }
{
    match opened {
        Ok(file) => {
            if is_longer(&file, limit) {
                return Fetched::TooLong;
            }
            contents(alloc, &mut HostSource::new(file), limit)
        }
        Err(error) => refused(&error),
    }
}
