//! Laws of what is printed of a run: each is the contract of a function that does nothing.
ghost use Rattle.std.specs.Prelude.{◌≡◌, ◌∷◌, ℕ, ℤ, All, List, Some, length};
ghost use Rattle.sp_engine.specs.declared.journals.Entry.TheVariants as entry;
ghost use Rattle.sp_engine.specs.declared.journals.FetchNote.{FetchNote as Answer};
ghost use Rattle.sp_engine.specs.declared.journals.RunEnd.{RunEnd as End};
ghost use Rattle.sp_engine.specs.declared.replies.Reply.{Reply as Said};
ghost use Rattle.sp_engine.specs.Listing.{RepliesAfter};
ghost use Rattle.sp_engine.specs.Notes.{run_notes};
ghost use Rattle.sp_engine.specs.Runs.{IsSmall};
ghost use Rattle.sp_engine.specs.Views.{View};
ghost use Rattle.sp_meaning.specs.declared.models.NamedModel.{NamedModel as Named};
ghost use Rattle.sp_model.specs.Boxes.{IsWithin};
ghost use Rattle.sp_model.specs.Models.{Feasible, root_of};
ghost use Rattle.sp_printing.specs.Printing.{CanPrint, printed_text};
ghost use Rattle.sp_printing.specs.Replies.{reply_text};

/// A law: the notes of a run, behind the note of the read, can be printed with the run's reply.
pub fn runs_are_printable()
    ensures { (named : Named) (answer : Answer) (found : List (List ℤ)) (e : End) (nodes : ℕ) (after : View) (r : Said)
        → ((x : List ℤ) → Feasible named.model x → IsWithin (root_of named.model) x)
        → length named.names ≡ length (root_of named.model) → All (Feasible named.model) found
        → after.found ≡ found → RepliesAfter e named nodes after r → IsSmall r
        → CanPrint named (entry.Fetched answer ∷ run_notes found e nodes) r }
{}

/// A law: what is printed then, from the notes, is the text of the reply.
pub fn printed_replies_are_told()
    ensures { (named : Named) (answer : Answer) (found : List (List ℤ)) (e : End) (nodes : ℕ) (after : View) (r : Said)
        → after.model ≡ Some named → after.found ≡ found → RepliesAfter e named nodes after r
        → printed_text named (entry.Fetched answer ∷ run_notes found e nodes) r ≡ reply_text after r }
{}
