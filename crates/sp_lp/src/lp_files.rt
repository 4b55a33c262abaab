//! LP files.
ghost use Rattle.std.specs.Prelude.{◌≡◌, ◌≤◌, ◌⊎◌, length, IfOk, IfErr, Ok, Err, All, slice_index_or};
ghost use Rattle.sp_draft.specs.Drafts.{IsWellFormed};
ghost use Rattle.sp_draft.specs.declared.drafts.Draft.{Draft};
ghost use Rattle.sp_lp_tokens.specs.Limits.{most_bytes};
ghost use Rattle.sp_lp_tokens.specs.SeenTokens.{all_seen};
ghost use Rattle.sp_lp_tokens.specs.Tokens.{IsSpan};
ghost use Rattle.sp_lp_grammar.specs.Reads.{Lp, LpOf};
ghost use Rattle.sp_draft.specs.declared.read_refusals.ReadRefusal.{ReadRefusal};
ghost use Rattle.sp_lp.specs.Refusals.{refusal_of, IsListRefusal, IsRefused};
ghost use Rattle.sp_lp.specs.InnerKinds.{fault_kind};
ghost use Rattle.sp_lp.specs.InnerAnswers.{refusal_by, IsOnlyAnswer};

use crate::fault_kinds::{FaultKind, fault_kind};
use crate::lp_laws::files_have_one_answer;
use crate::other_tokens::fault_line;
use crate::walking::{Stopped, draft_of, reading_of};
use sp_draft::{Draft, ReadRefusal};
use sp_lp_grammar::{files_mean_one_draft, fronts_begin_files, readers_tell_files};
use sp_lp_tokens::{Token, TokenKindFault, TokenRefusal, tokens, tokens_are_unique};
use std::alloc::Global;

/// The refusal of a fault of the tokens.
fn refusal_of(kind: TokenKindFault, line: u32) -> ReadRefusal
    ensures { result ≡ refusal_of kind line }
{
    match kind {
        TokenKindFault::BadByte => ReadRefusal::Syntax { line },
        TokenKindFault::LongName => ReadRefusal::Syntax { line },
        TokenKindFault::Wide => ReadRefusal::WideNumeral { line },
    }
}

/// The refusal of the fault at the place.
fn refusal_at(alloc: Global, source: &[u8], list: &[Token], place: usize) -> ReadRefusal
    requires spans { All (IsSpan source.now) list.now }
    requires within { place ≤ length list.now }
    ensures { (result ≡ ReadRefusal.NoMemory) ⊎ (result ≡ refusal_by (fault_kind (all_seen source.now list.now) place) list.now place) }
{
    let line = fault_line(list, place);
    match fault_kind(alloc, source, list, place) {
        Ok(FaultKind::Syntax) => ReadRefusal::Syntax { line },
        Ok(FaultKind::Wide) => ReadRefusal::WideNumeral { line },
        Ok(FaultKind::WideBefore) => ReadRefusal::WideNumeral {
            line: fault_line(list, place.saturating_sub(1)),
        },
        Ok(FaultKind::Duplicate) => ReadRefusal::DuplicateName { line },
        Ok(FaultKind::Unsupported) => ReadRefusal::Unsupported { line },
        Err(_) => ReadRefusal::NoMemory,
    }
}

/// Reads a file's tokens.
fn read_list(alloc: Global, source: &[u8], list: &[Token]) -> Result<Draft, ReadRefusal>
    requires { All (IsSpan source.now) list.now }
    ensures found { IfOk result (Lp (all_seen source.now list.now)) }
    ensures known { IfOk result IsWellFormed }
    ensures only { IsOnlyAnswer (all_seen source.now list.now) result }
    ensures refused { IfErr result (λ r. (r ≡ ReadRefusal.NoMemory) ⊎ IsListRefusal (all_seen source.now list.now) r) }
{
    readers_tell_files();
    fronts_begin_files();
    files_mean_one_draft();
    match draft_of(alloc, source, list) {
        Ok(draft) => Ok(draft),
        Err(Stopped::At(place)) => Err(refusal_at(alloc, source, list, place)),
        Err(Stopped::AtEnd) => Err(refusal_at(alloc, source, list, list.len())),
        Err(Stopped::Memory) => Err(ReadRefusal::NoMemory),
    }
}

/// Reads a file by the list of its tokens, which tells the place of a fault.
fn read_by_list(alloc: Global, bytes: &[u8]) -> Result<Draft, ReadRefusal>
    requires { length bytes.now ≤ most_bytes }
    ensures found { IfOk result (LpOf bytes.now) }
    ensures known { IfOk result IsWellFormed }
    ensures only { (d : Draft) → LpOf bytes.now d → (result ≡ Ok d) ⊎ (result ≡ Err ReadRefusal.NoMemory) }
    ensures refused { IfErr result (λ r. (r ≡ ReadRefusal.NoMemory) ⊎ IsRefused bytes.now r) }
{
    tokens_are_unique();
    match tokens(alloc, bytes) {
        Ok(list) => read_list(alloc, bytes, list.as_slice()),
        Err(TokenRefusal::Fault { line, kind }) => Err(refusal_of(kind, line)),
        Err(TokenRefusal::NoMemory) => Err(ReadRefusal::NoMemory),
    }
}

/// Reads a file. One that is accepted is read as its tokens come, without a list of them.
fn read_file(alloc: Global, bytes: &[u8]) -> Result<Draft, ReadRefusal>
    requires { length bytes.now ≤ most_bytes }
    ensures found { IfOk result (LpOf bytes.now) }
    ensures known { IfOk result IsWellFormed }
    ensures only { (d : Draft) → LpOf bytes.now d → (result ≡ Ok d) ⊎ (result ≡ Err ReadRefusal.NoMemory) }
    ensures refused { IfErr result (λ r. (r ≡ ReadRefusal.NoMemory) ⊎ IsRefused bytes.now r) }
{
    readers_tell_files();
    fronts_begin_files();
    files_mean_one_draft();
    tokens_are_unique();
    match reading_of(alloc, bytes) {
        Some(draft) => Ok(draft),
        None => read_by_list(alloc, bytes),
    }
}

/// Reads a file in the CPLEX LP format, of at most 2^26 bytes. An accepted file takes memory for its draft alone; to tell
/// the fault of any other, the list of its tokens is made too.
///
/// # Errors
///
/// A fault of the tokens comes first. Else the fault is the first token such that no accepted file, of whatever length,
/// begins with the tokens through it; where the tokens run out it is the last one, and line 1 where there is none. It is
/// [`ReadRefusal::Unsupported`] at `[`, `<->` and a word of `user cuts`; [`ReadRefusal::WideNumeral`] at a constant, a
/// weight or a coefficient that is huge, in the line of that number; [`ReadRefusal::DuplicateName`] where another name of
/// a row or a set could stand; and else [`ReadRefusal::Syntax`]. [`ReadRefusal::NoMemory`] may come at any time.
pub fn read_lp(alloc: Global, bytes: &[u8]) -> Result<Draft, ReadRefusal>
    requires { length bytes.now ≤ most_bytes }

    // The draft is the one that the bytes mean, and what `lower` asks for.
    ensures found { IfOk result (LpOf bytes.now) }
    ensures known { IfOk result IsWellFormed }
    ensures only { (d : Draft) → LpOf bytes.now d → (result ≡ Ok d) ⊎ (result ≡ Err ReadRefusal.NoMemory) }

    // Each refusal but want of memory is that of the bytes, and the refusal of the bytes is the answer.
    ensures refused { IfErr result (λ r. (r ≡ ReadRefusal.NoMemory) ⊎ IsRefused bytes.now r) }
    ensures first { (r : ReadRefusal) → IsRefused bytes.now r → (result ≡ Err r) ⊎ (result ≡ Err ReadRefusal.NoMemory) }
{
    files_have_one_answer();
    read_file(alloc, bytes)
}
