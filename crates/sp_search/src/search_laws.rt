//! Laws of steps: each is the contract of a function that does nothing of its own.

ghost use Rattle.std.specs.Prelude.{◌≢◌, ◌<◌, ◌≤◌, ℕ, length};
ghost use Rattle.sp_model.specs.Boxes.{point_count, room};
ghost use Rattle.sp_model.specs.Models.{root_of};
ghost use Rattle.sp_cover.specs.Cover.{IsOpenAt};
ghost use Rattle.sp_search.specs.States.{IsState, StateOf};
ghost use Rattle.sp_search.specs.Steps.{Steps};
ghost use Rattle.sp_search.specs.Measures.{open_room};
ghost use Rattle.sp_search.specs.declared.goals.Goal.{Goal as GoalOf};
ghost use Rattle.sp_search.specs.declared.goals.Stepped.{Stepped as SteppedOf};
ghost use Rattle.sp_search.specs.declared.goals.Stepped.TheVariants as Stepped;

use sp_cover::found_points_are_few;
use sp_model::split_divides_count;
use sp_tree::trees_divide;

/// A law: the open leaves have room for fewer nodes after each step that isn't `Full`.
pub fn steps_fall()
    ensures falls { (old new : StateOf) (goal : GoalOf) (node limit : ℕ) (stepped : SteppedOf)
        → IsState old → IsOpenAt old.search.tree.nodes node → stepped ≢ Stepped.Full
        → Steps old.model old.search new.search goal node limit stepped
        → open_room new.search.tree < open_room old.search.tree }
{
    split_divides_count();
}

/// A law: a search has at most as many nodes as the model's closed box has room for, and no more found points than
/// nodes.
pub fn searches_are_small()
    ensures nodes { (s : StateOf) → IsState s
        → length s.search.tree.nodes ≤ room (point_count (root_of s.model)) }
    ensures found { (s : StateOf) → IsState s → length s.search.found ≤ length s.search.tree.nodes }
{
    trees_divide();
    found_points_are_few();
}
