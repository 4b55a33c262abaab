//! What holds of every MPS file.
ghost use Rattle.std.specs.Prelude.{◌≡◌, ◌++◌, ◌∷◌, ◌↔◌, ◌⊎◌, List, true};
ghost use Rattle.sp_draft.specs.declared.drafts.Draft.{Draft};
ghost use Rattle.sp_draft.specs.declared.read_refusals.ReadRefusal.{ReadRefusal};
ghost use Rattle.sp_mps_words.specs.Lines.{Line};
ghost use Rattle.sp_mps.specs.Verdicts.{ends, IsDraft, IsRefused};

/// A file has at most one draft, at most one refusal, and not both.
pub fn files_have_one_answer()
    ensures draft { (lines : List Line) (c d : Draft) → IsDraft lines c → IsDraft lines d → c ≡ d }
    ensures refusal { (lines : List Line) (q r : ReadRefusal) → IsRefused lines q → IsRefused lines r → q ≡ r }
    ensures apart { (lines : List Line) (d : Draft) (r : ReadRefusal) → IsDraft lines d → IsRefused lines r → ⊥ }
{}

/// Each file has a draft or a refusal.
pub fn files_have_some_answer()
    ensures { (lines : List Line) → ((d : Draft) × IsDraft lines d) ⊎ ((r : ReadRefusal) × IsRefused lines r) }
{}

/// What stands behind ENDATA plays no part.
pub fn endata_ends_files()
    ensures draft { (front behind other : List Line) (l : Line) (d : Draft) → ends l ≡ true → IsDraft (front ++ l ∷
        behind) d ↔ IsDraft (front ++ l ∷ other) d }
    ensures refusal { (front behind other : List Line) (l : Line) (r : ReadRefusal) → ends l ≡ true → IsRefused (front
        ++ l ∷ behind) r ↔ IsRefused (front ++ l ∷ other) r }
{}
