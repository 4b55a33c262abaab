//! MPS files.
ghost use Rattle.std.specs.Prelude.{◌≡◌, ◌≤◌, ◌^◌, ◌⊎◌, length, IfOk, IfErr, Ok, Err};
ghost use Rattle.sp_draft.specs.Drafts.{IsWellFormed};
ghost use Rattle.sp_draft.specs.declared.drafts.Draft.{Draft};
ghost use Rattle.sp_draft.specs.declared.read_refusals.ReadRefusal.{ReadRefusal};
ghost use Rattle.sp_mps_words.specs.Lines.{lines_of};
ghost use Rattle.sp_mps.specs.Verdicts.{IsDraft, IsRefused};

use crate::drafting::draft_of;
use crate::reading::read;
use sp_draft::{Draft, ReadRefusal};
use std::alloc::Global;

/// Reads a file in the MPS file format, fixed or free, of at most 2^26 bytes: fields are parted by spaces and tabs, so
/// that names have none. Beside ROWS, COLUMNS with markers, RHS, RANGES and BOUNDS it has OBJSENSE and INDICATORS.
///
/// `Ok` exactly where each line through ENDATA is of the format; what follows ENDATA isn't read.
///
/// # Errors
///
/// The first line that isn't of the format decides, and in it the first of its tests in their order: the number of
/// fields, then the fields from the left. A file without ENDATA is [`ReadRefusal::Syntax`] at its last line, or at
/// line 1 where it has none. [`ReadRefusal::NoMemory`] may come at any time.
pub fn read_mps(alloc: Global, bytes: &[u8]) -> Result<Draft, ReadRefusal>
    requires { length bytes.now ≤ 2 ^ 26 }

    // The draft is that of the lines, and what `lower` asks for.
    ensures found { IfOk result (IsDraft (lines_of bytes.now)) }
    ensures known { IfOk result IsWellFormed }
    ensures only { (d : Draft) → IsDraft (lines_of bytes.now) d → (result ≡ Ok d) ⊎ (result ≡ Err
        ReadRefusal.NoMemory) }

    // Each refusal but want of memory is that of the lines.
    ensures refused { IfErr result (λ r. (r ≡ ReadRefusal.NoMemory) ⊎ IsRefused (lines_of bytes.now) r) }
    ensures first { (r : ReadRefusal) → IsRefused (lines_of bytes.now) r → (result ≡ Err r) ⊎ (result ≡ Err
        ReadRefusal.NoMemory) }
{
    match read(alloc, bytes) {
        Err(refusal) => Err(refusal),
        Ok(reader) => match draft_of(alloc, reader) {
            Ok(draft) => Ok(draft),
            Err(_) => Err(ReadRefusal::NoMemory),
        },
    }
}
