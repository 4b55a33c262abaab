//! The lines of a file, read one after another.
ghost use Rattle.std.specs.Prelude.{◌≡◌, ◌≤◌, ◌^◌, length};
ghost use Rattle.sp_mps_words.specs.Lines.{line_of, lines_of};
ghost use Rattle.sp_mps.specs.Verdicts.{ends, is_endata, refusal_of};
ghost use Rattle.sp_mps.specs.inner.Reads.{Says, refusal_at};

use crate::reader::Reader;
use sp_base::next_line;
use sp_draft::ReadRefusal;
use sp_mps_sections::LineFault;
use sp_mps_words::{FaultKind, Head, LineKind, Tables, kind_of_line, line_fields_of};
use std::alloc::Global;

fn is_endata(head: Option<Head>) -> bool
    ensures { result ≡ is_endata head }
{
    match head {
        Some(Head::Endata) => true,
        _ => false,
    }
}

/// Whether the line is ENDATA.
#[tactic(auto, unfolding(crate::specs::Verdicts::ends, sp_mps_words::specs::Lines::line_of))]
fn is_end(tables: &Tables, line: &[u8]) -> bool
    ensures { result ≡ ends (line_of line.now) }
{
    match kind_of_line(line) {
        LineKind::Section => is_endata(tables.head_of(line_fields_of(line).first)),
        LineKind::Ignored => false,
        LineKind::Data => false,
    }
}

/// The refusal of a line that isn't lawful.
fn refusal_of(kind: FaultKind, line: u32) -> ReadRefusal
    ensures { result ≡ refusal_of kind line }
{
    match kind {
        FaultKind::Syntax => ReadRefusal::Syntax { line },
        FaultKind::WideNumeral => ReadRefusal::WideNumeral { line },
        FaultKind::DuplicateName => ReadRefusal::DuplicateName { line },
        FaultKind::UnknownName => ReadRefusal::UnknownName { line },
        FaultKind::Unsupported => ReadRefusal::Unsupported { line },
    }
}

/// The refusal of a line that isn't taken.
fn refusal_at(fault: LineFault, line: u32) -> ReadRefusal
    ensures { result ≡ refusal_at fault line }
{
    match fault {
        LineFault::Refused(kind) => refusal_of(kind, line),
        LineFault::NoMemory => ReadRefusal::NoMemory,
    }
}

/// What the lines through ENDATA say.
pub(crate) fn read(alloc: Global, bytes: &[u8]) -> Result<Reader, ReadRefusal>
    requires { length bytes.now ≤ 2 ^ 26 }
    ensures { Says (lines_of bytes.now) result }
{
    let tables = Tables::new();
    let mut reader = Reader::new(alloc);
    let mut rest = bytes;
    let mut count: u32 = 0;
    'lines: while let Some((line, after)) = next_line(rest) {
        match reader.line(alloc, &tables, line) {
            Err(fault) => return Err(refusal_at(fault, count + 1)),
            Ok(()) => {
                if is_end(&tables, line) {
                    return Ok(reader);
                }
                rest = after;
                count += 1;
            }
        }
    }
    Err(ReadRefusal::Syntax { line: count.max(1) })
}
