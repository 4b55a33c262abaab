//! Laws of LP files: each is the contract of a function that does nothing of its own.
ghost use Rattle.std.specs.Prelude.{◌≡◌, ◌⊎◌, ℕ, List};
ghost use Rattle.sp_draft.specs.declared.drafts.Draft.{Draft};
ghost use Rattle.sp_draft.specs.declared.read_refusals.ReadRefusal.{ReadRefusal};
ghost use Rattle.sp_lp_grammar.specs.Reads.{LpOf};
ghost use Rattle.sp_lp.specs.Refusals.{IsRefused};

use sp_lp_grammar::{
    faults_have_one_place, files_mean_one_draft, fronts_begin_files, readers_tell_files,
};
use sp_lp_tokens::{files_have_tokens, tokens_are_unique};

/// A file has at most one draft, at most one refusal, and not both.
pub fn files_have_one_answer()
    ensures draft { (bytes : List ℕ) (c d : Draft) → LpOf bytes c → LpOf bytes d → c ≡ d }
    ensures refusal { (bytes : List ℕ) (q r : ReadRefusal) → IsRefused bytes q → IsRefused bytes r → q ≡ r }
    ensures apart { (bytes : List ℕ) (d : Draft) (r : ReadRefusal) → LpOf bytes d → IsRefused bytes r → ⊥ }
{
    tokens_are_unique();
    files_mean_one_draft();
    faults_have_one_place();
}

/// Each file has a draft or a refusal.
pub fn files_have_some_answer()
    ensures { (bytes : List ℕ) → ((d : Draft) × LpOf bytes d) ⊎ ((r : ReadRefusal) × IsRefused bytes r) }
{
    files_have_tokens();
    files_mean_one_draft();
    readers_tell_files();
    fronts_begin_files();
}
