//! Why a model file is refused, in the words of a session.
ghost use Rattle.std.specs.Prelude.{◌≡◌, IfOk, Some};
ghost use Rattle.sp_meaning.specs.Models.{lowering_refusal, name_of, reading_refusal};

use crate::refusals::Refusal;
use sp_base::Text;
use sp_draft::{Names, ReadRefusal};
use sp_lower::LowerRefusal;
use sp_model::{NoMemory, VarId};
use std::alloc::Global;

/// What a file that can't be read is refused for; `None` where memory was wanting.
pub fn reading_refusal(why: ReadRefusal) -> Option<Refusal>
    ensures { result ≡ reading_refusal why }
{
    match why {
        ReadRefusal::Syntax { line } => Some(Refusal::Syntax { line }),
        ReadRefusal::WideNumeral { line } => Some(Refusal::WideNumeral { line }),
        ReadRefusal::DuplicateName { line } => Some(Refusal::DuplicateName { line }),
        ReadRefusal::UnknownName { line } => Some(Refusal::UnknownName { line }),
        ReadRefusal::Unsupported { line } => Some(Refusal::Unsupported { line }),
        ReadRefusal::NoMemory => None,
    }
}

/// The name of a variable. Each variable of a refusal has one; another number would have the empty name.
fn name_of(alloc: Global, names: &Names, var: VarId) -> Result<Text, NoMemory>
    ensures { IfOk result (λ name. name ≡ name_of names.now var) }
{
    if var.index() < names.len() {
        Ok(Text::from_vec(Vec::from_slice(alloc, names.name(var))?))
    } else {
        Ok(Text::new(alloc))
    }
}

/// What a draft that makes no model is refused for.
pub fn lowering_refusal(
    alloc: Global,
    names: &Names,
    why: LowerRefusal,
) -> Result<Refusal, NoMemory>
    ensures { IfOk result (λ r. lowering_refusal names.now why ≡ Some r) }
{
    match why {
        LowerRefusal::TooMany(what) => Ok(Refusal::TooMany(what)),
        LowerRefusal::Continuous(var) => Ok(Refusal::Continuous(name_of(alloc, names, var)?)),
        LowerRefusal::NegativeUpper(var) => Ok(Refusal::NegativeUpper(name_of(alloc, names, var)?)),
        LowerRefusal::WideBound(var) => Ok(Refusal::WideBound(name_of(alloc, names, var)?)),
        LowerRefusal::OpenVariable(var) => Ok(Refusal::OpenVariable(name_of(alloc, names, var)?)),
        LowerRefusal::WideObjective => Ok(Refusal::WideObjective),
        LowerRefusal::WideRow(row) => Ok(Refusal::WideRow(row)),
        LowerRefusal::BadIndicator(place) => Ok(Refusal::BadIndicator(place)),
        LowerRefusal::BadSos(place) => Ok(Refusal::BadSos(place)),
        LowerRefusal::NoMemory => Err(NoMemory),
    }
}
