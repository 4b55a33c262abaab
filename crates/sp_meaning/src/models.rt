//! What a model file means: it is read by its format, and lowered.
ghost use Rattle.std.specs.Prelude.{◌≡◌, ◌≤◌, ◌⊎◌, ℕ, List, length, IfOk, Err, Some};
ghost use Rattle.sp_draft.specs.Drafts.{IsWellFormed};
ghost use Rattle.sp_meaning.specs.Formats.{file_limit, format_of};

use crate::formats::FileFormat;
use crate::refusals::Refusal;
use crate::refusing::{lowering_refusal, reading_refusal};
use sp_draft::{Draft, Names, ReadRefusal};
use sp_lower::lower;
use sp_lp::read_lp;
use sp_model::{Model, NoMemory, root_is_short};
use sp_mps::read_mps;
use std::alloc::Global;

/// A model with the names of its variables, in declared order.
#[derive(Drop)]
pub struct NamedModel {
    /// The names.
    pub names: Names,
    /// The model.
    pub model: Model,
}

/// What a model file means.
#[derive(Drop)]
pub enum Meaning {
    /// A model.
    Model(NamedModel),
    /// There is none, for this reason.
    Refused(Refusal),
}

ghost use Rattle.sp_meaning.specs.Models.{IsPaired, Means, ReadsAs, meaning_of_draft};

/// What the bytes of a file of this format say.
fn draft_of(alloc: Global, format: FileFormat, bytes: &[u8]) -> Result<Draft, ReadRefusal>
    requires { length bytes.now ≤ file_limit }
    ensures known { IfOk result IsWellFormed }
    ensures reads { (result ≡ Err ReadRefusal.NoMemory) ⊎ ReadsAs format bytes.now result }
{
    match format {
        FileFormat::Lp => read_lp(alloc, bytes),
        FileFormat::Mps => read_mps(alloc, bytes),
    }
}

/// The model of a draft with its names, or why there is none.
fn lowered(alloc: Global, draft: Draft) -> Result<Meaning, NoMemory>
    requires { IsWellFormed draft }
    ensures meaning { IfOk result (λ m. meaning_of_draft draft ≡ Some m) }
    ensures paired { IfOk result IsPaired }
{
    root_is_short();
    match lower(alloc, &draft) {
        Err(why) => match lowering_refusal(alloc, &draft.names, why) {
            Ok(why) => Ok(Meaning::Refused(why)),
            Err(_) => Err(NoMemory),
        },
        Ok(model) => {
            // that the model is lawful is known of its parts
            let _parts = model.parts();
            let Draft { names, .. } = draft;
            Ok(Meaning::Model(NamedModel { names, model }))
        }
    }
}

/// What a file of this format with these bytes means.
pub fn meaning_of(alloc: Global, format: FileFormat, bytes: &[u8]) -> Result<Meaning, NoMemory>
    requires { length bytes.now ≤ file_limit }
    ensures means { (name : List ℕ) → format_of name ≡ Some format → IfOk result (Means name bytes.now) }
    ensures paired { IfOk result IsPaired }
{
    match draft_of(alloc, format, bytes) {
        Ok(draft) => lowered(alloc, draft),
        Err(why) => match reading_refusal(why) {
            Some(why) => Ok(Meaning::Refused(why)),
            None => Err(NoMemory),
        },
    }
}
