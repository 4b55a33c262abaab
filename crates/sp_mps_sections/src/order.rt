//! The order of the sections.
ghost use Rattle.std.specs.Prelude.{◌≡◌};
ghost use Rattle.sp_mps_words.specs.Kinds.{direction_of};
ghost use Rattle.sp_mps_sections.specs.Fronts.{number_of, first_of};
ghost use Rattle.sp_mps_sections.specs.Order.{rank, is_late, has_rank, lacks, is_misplaced, is_crowded, sense_fault, check_head, directions_at, check_direction};
ghost use Rattle.sp_mps_sections.specs.Answers.{GivesFault};

use sp_mps_words::{FaultKind, Head, Tables};

/// The place of the head in the table of heads.
fn number_of(head: Head) -> u8
    ensures { result ≡ number_of head }
{
    match head {
        Head::Name => 1,
        Head::Objsense => 2,
        Head::Rows => 3,
        Head::Columns => 4,
        Head::Rhs => 5,
        Head::Ranges => 6,
        Head::Bounds => 7,
        Head::Indicators => 8,
        Head::Endata => 9,
    }
}

/// A section stands behind those of a lower rank.
fn rank(head: Head) -> u8
    ensures { result ≡ rank head }
{
    match head {
        Head::Name => 0,
        Head::Objsense => 0,
        Head::Rows => 1,
        Head::Columns => 2,
        Head::Rhs => 3,
        Head::Ranges => 3,
        Head::Bounds => 3,
        Head::Indicators => 3,
        Head::Endata => 4,
    }
}

/// Whether the head, or one of a later rank, is among the heads.
fn is_late(heads: &[Head], head: Head) -> bool
    ensures { result ≡ is_late heads.now head }
{
    heads.iter().any(|h| number_of(*h) == number_of(head) || rank(head) < rank(*h))
}

/// Whether a head of the rank is among the heads.
fn has_rank(heads: &[Head], wanted: u8) -> bool
    ensures { result ≡ has_rank heads.now wanted }
{
    heads.iter().any(|h| rank(*h) == wanted)
}

/// Whether a section that the head needs isn't among the heads.
fn lacks(heads: &[Head], head: Head) -> bool
    ensures { result ≡ lacks heads.now head }
{
    let rank = rank(head);
    if rank == 2 {
        !has_rank(heads, 1)
    } else if rank > 2 {
        !has_rank(heads, 2)
    } else {
        false
    }
}

fn is_misplaced(heads: &[Head], head: Head) -> bool
    ensures { result ≡ is_misplaced heads.now head }
{
    is_late(heads, head) || lacks(heads, head)
}

/// Whether the line of the head has more fields than it may have.
fn is_crowded(head: Head, count: usize) -> bool
    ensures { result ≡ is_crowded head count }
{
    match head {
        Head::Name => false,
        Head::Objsense => count > 2,
        Head::Rows => count > 1,
        Head::Columns => count > 1,
        Head::Rhs => count > 1,
        Head::Ranges => count > 1,
        Head::Bounds => count > 1,
        Head::Indicators => count > 1,
        Head::Endata => count > 1,
    }
}

/// Tests a second field behind OBJSENSE.
fn check_sense(tables: &Tables, head: Head, count: usize, second: &[u8]) -> Result<(), FaultKind>
    ensures { GivesFault result (sense_fault head count second.now) }
{
    match head {
        Head::Objsense => {
            if count == 2 {
                match tables.direction_of(second) {
                    None => Err(FaultKind::Syntax),
                    Some(_) => Ok(()),
                }
            } else {
                Ok(())
            }
        }
        Head::Name
        | Head::Rows
        | Head::Columns
        | Head::Rhs
        | Head::Ranges
        | Head::Bounds
        | Head::Indicators
        | Head::Endata => Ok(()),
    }
}

/// Tests a section line with these heads before it.
pub fn check_head(
    tables: &Tables,
    heads: &[Head],
    head: Option<Head>,
    count: usize,
    second: &[u8],
) -> Result<(), FaultKind>
    ensures { GivesFault result (check_head heads.now head count second.now) }
{
    match head {
        None => Err(FaultKind::Unsupported),
        Some(head) => {
            if is_crowded(head, count) {
                Err(FaultKind::Syntax)
            } else if is_misplaced(heads, head) {
                Err(FaultKind::Syntax)
            } else {
                check_sense(tables, head, count, second)
            }
        }
    }
}

/// The direction that a section line gives, if it does.
pub fn direction_at(
    tables: &Tables,
    head: Option<Head>,
    count: usize,
    second: &[u8],
) -> Option<bool>
    ensures { result ≡ first_of (directions_at head count second.now) }
{
    match head {
        Some(Head::Objsense) => {
            if count == 2 {
                tables.direction_of(second)
            } else {
                None
            }
        }
        _ => None,
    }
}

/// Tests a data line of OBJSENSE.
pub fn check_direction(
    tables: &Tables,
    given: Option<bool>,
    count: usize,
    word: &[u8],
) -> Result<(), FaultKind>
    ensures { GivesFault result (check_direction given count word.now) }
{
    if count != 1 {
        return Err(FaultKind::Syntax);
    }
    match tables.direction_of(word) {
        None => Err(FaultKind::Syntax),
        Some(_) => match given {
            None => Ok(()),
            Some(_) => Err(FaultKind::Syntax),
        },
    }
}
