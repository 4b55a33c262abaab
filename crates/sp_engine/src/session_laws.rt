//! Laws of sessions: each is the contract of a function that does nothing.
ghost use Rattle.std.specs.Prelude.{◌≡◌, ◌≤◌, ◌++◌, ℕ, List, Some, length, true};
ghost use Rattle.sp_engine.specs.declared.commands.Command.{Command as Asked};
ghost use Rattle.sp_engine.specs.declared.journals.Entry.{Entry as Note};
ghost use Rattle.sp_meaning.specs.declared.models.NamedModel.{NamedModel as Named};
ghost use Rattle.sp_engine.specs.declared.replies.Reply.{Reply as Answer};
ghost use Rattle.sp_engine.specs.LegalRuns.{room_of};
ghost use Rattle.sp_engine.specs.Replies.{is_listed};
ghost use Rattle.sp_engine.specs.Sessions.{Says, share_of};
ghost use Rattle.sp_engine.specs.Views.{View};

/// A law: of a journal, the notes of the first command are told by the command and the journal alone, so that it is
/// divided among commands in one way.
pub fn journal_is_divided_in_one_way()
    ensures { (view after : View) (command : Asked) (notes rest : List Note) (reply : Answer)
        → Says view command notes reply after → share_of command (notes ++ rest) ≡ length notes }
{}

/// A law: where the node limit is at least the size of the model's largest tree, the list comes, and no stop.
pub fn roomy_runs_list_all()
    ensures { (view after : View) (named : Named) (notes : List Note) (reply : Answer)
        → view.model ≡ Some named → Says view Asked.List notes reply after
        → room_of named.model ≤ view.settings.node_limit → is_listed reply ≡ true }
{}
