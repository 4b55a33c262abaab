//! Laws of LP files: each is the contract of a function that does nothing.
ghost use Rattle.std.specs.Prelude.{◌≡◌, ℕ, ◌≤◌, true, List, ◌++◌, take, length, Some, None, Option};
ghost use Rattle.sp_draft.specs.declared.drafts.Draft.{Draft};
ghost use Rattle.sp_lp_tokens.specs.SeenTokens.{SeenToken};
ghost use Rattle.sp_lp_grammar.specs.Reads.{Lp, Begins, IsFaultPlace};
ghost use Rattle.sp_lp_grammar.specs.InnerCursor.{Cursor, origin, walk, ended_at, first_behind, line_behind};

/// A list of tokens means at most one draft.
pub fn files_mean_one_draft()
    ensures { (ts : List SeenToken) (d e : Draft) → Lp ts d → Lp ts e → d ≡ e }
{}

/// Each front of an accepted list of tokens begins one, and so does each front of what begins one.
pub fn fronts_begin_files()
    ensures accepted { (ts : List SeenToken) (d : Draft) (i : ℕ) → Lp ts d → Begins (take i ts) }
    ensures begun { (ts : List SeenToken) (i k : ℕ) → i ≤ k → k ≤ length ts → Begins (take k ts) → Begins (take i ts) }
{}

/// A list of tokens has at most one place of a fault.
pub fn faults_have_one_place()
    ensures { (ts : List SeenToken) (i k : ℕ) → IsFaultPlace ts i → IsFaultPlace ts k → i ≡ k }
{
    fronts_begin_files();
}

/// What a reader tells that takes one token after another: where it comes to an end its draft is the one that the tokens
/// mean, as far as it comes they begin an accepted list, and where it stops they begin none.
pub fn readers_tell_files()
    ensures accepted { (ts : List SeenToken) (c : Cursor) (d : Draft) → walk true 0 origin ts ≡ Some c → ended_at c ≡ Some d → Lp ts d }
    ensures unfinished { (ts : List SeenToken) (c : Cursor) (d : Draft) → walk true 0 origin ts ≡ Some c → ended_at c ≡ None → Lp ts d → ⊥ }
    ensures begun { (ts : List SeenToken) (c : Cursor) → walk true 0 origin ts ≡ Some c → Begins ts }
    ensures refused { (ts : List SeenToken) → walk true 0 origin ts ≡ None → Begins ts → ⊥ }
    ensures joined { (a b : List SeenToken) (c : Cursor) → walk true 0 origin a ≡ Some c → walk true 0 origin (a ++ b) ≡ walk (first_behind true a) (line_behind 0 a) c b }
{}
