//! The law of lowering: the contract of a function that does nothing.
ghost use Rattle.std.specs.Prelude.{◌≡◌, ◌≤◌, None};
ghost use Rattle.sp_model.specs.Limits.{greatest_scale};
ghost use Rattle.sp_model.specs.Rules.{IsLawful};
ghost use Rattle.sp_draft.specs.declared.drafts.Draft.{Draft};
ghost use Rattle.sp_draft.specs.Drafts.{IsWellFormed};
ghost use Rattle.sp_lower.specs.Lowering.{refusal_of, model_of};
ghost use Rattle.sp_lower.specs.Objectives.{objective_places};

use sp_scaling::{collected_terms_are_lawful, turned_terms_are_lawful};

/// A law: a draft of which nothing is refused stands for a lawful model, one that [`sp_model::Model::build`] refuses for want
/// of memory alone.
pub fn lowered_parts_are_lawful()
    ensures { (d : Draft) → IsWellFormed d → objective_places d.cost d.constants ≤ greatest_scale → refusal_of d ≡ None → IsLawful (model_of d) }
{
    collected_terms_are_lawful();
    turned_terms_are_lawful();
}
