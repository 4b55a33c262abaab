//! Names and sets, and what is wrong with them.
ghost use Rattle.std.specs.Prelude.{◌≡◌, false, true, MatchOption, Some, Ok};
ghost use Rattle.sp_draft.specs.Names.{is_among, place_of};
ghost use Rattle.sp_mps_words.specs.Words.{is_long};
ghost use Rattle.sp_mps_sections.specs.Faults.{declared_fault, name_fault, further_fault, set_fault};
ghost use Rattle.sp_mps_sections.specs.Answers.{Gives, GivesFault, or_else};
ghost use Rattle.sp_mps_sections.specs.inner.Answers.{GivesValue};

use crate::line_faults::LineFault;
use sp_base::Text;
use sp_draft::Names;
use sp_model::VarId;
use sp_mps_words::FaultKind;
use std::alloc::Global;

/// The most bytes that a name may have.
pub(crate) const LONGEST_NAME: usize = 255;

/// The place of the name, if it is one of them.
#[tactic(auto, using(crate::proofs::NameLemmas::found))]
fn place(names: &Names, name: &[u8]) -> Option<VarId>
    ensures { MatchOption result (is_among names.now name.now ≡ false) (λ p. (is_among names.now name.now ≡ true) × (p
        ≡ place_of names.now name.now)) }
{
    names.find(name)
}

/// Whether the name is one of them.
pub(crate) fn contains(names: &Names, name: &[u8]) -> bool
    ensures { result ≡ is_among names.now name.now }
{
    place(names, name).is_some()
}

/// Tests the length of a name.
pub(crate) fn check_name(name: &[u8]) -> Result<(), FaultKind>
    ensures { GivesFault result (name_fault name.now) }
{
    if name.len() > LONGEST_NAME {
        Err(FaultKind::Syntax)
    } else {
        Ok(())
    }
}

/// The place of a name that has to be declared.
pub(crate) fn declared(names: &Names, name: &[u8]) -> Result<VarId, FaultKind>
    ensures { GivesValue result (declared_fault names.now name.now) (place_of names.now name.now) }
{
    match check_name(name) {
        Err(kind) => Err(kind),
        Ok(()) => match place(names, name) {
            None => Err(FaultKind::UnknownName),
            Some(place) => Ok(place),
        },
    }
}

/// Tests whether the set is the first one of its section.
fn check_further(first: &Option<Text>, name: &[u8]) -> Result<(), FaultKind>
    ensures { GivesFault result (further_fault first.now name.now) }
{
    match first {
        None => Ok(()),
        Some(first) => {
            if first.as_slice() == name {
                Ok(())
            } else {
                Err(FaultKind::Unsupported)
            }
        }
    }
}

/// Tests the set of a line, where its section's first set is this.
pub(crate) fn check_set(first: &Option<Text>, name: &[u8]) -> Result<(), FaultKind>
    ensures { GivesFault result (set_fault first.now name.now) }
{
    match check_name(name) {
        Err(kind) => Err(kind),
        Ok(()) => check_further(first, name),
    }
}

/// Keeps the set of a line, if its section has none yet.
pub(crate) fn keep_set(
    alloc: Global,
    first: &mut Option<Text>,
    name: &[u8],
) -> Result<(), LineFault>
    ensures { Gives result first.new (Ok (or_else first.old (Some name.now))) }
{
    if first.is_none() {
        match Vec::from_slice(alloc, name) {
            Err(_) => return Err(LineFault::NoMemory),
            Ok(bytes) => *first = Some(Text::from_vec(bytes)),
        }
    }
    Ok(())
}
