//! Phase one: steps to the proved optimum.

ghost use Rattle.std.specs.Prelude.{◌≡◌, ◌≢◌, ◌≤◌, ℕ, false, true, Ok, IfOk};
ghost use Rattle.sp_model.specs.Boxes.{point_count, room};
ghost use Rattle.sp_model.specs.Models.{root_of};
ghost use Rattle.sp_filter.specs.Held.{FilterList};
ghost use Rattle.sp_cover.specs.Cover.{IsShut};
ghost use Rattle.sp_search.specs.States.{HasCursor, IsCovered, IsState};
ghost use Rattle.sp_search.specs.Runs.{Ends, IsRun, KeepsShut};
ghost use Rattle.sp_search.specs.declared.optima.OptEnd.TheVariants as OptEnd;

use crate::agenda::Agenda;
use crate::goals::Goal;
use crate::preparing::prepare;
use crate::states::State;
use crate::steps::step;
use sp_advice::Advice;
use sp_cursor::{Cursor, cursors_last};
use sp_model::{NoMemory, split_divides_count};
use sp_tree::extensions_last;

/// How phase one ended.
#[derive(Clone, Copy, PartialEq, Eq, Debug)]
pub enum OptEnd {
    /// The least value found is the optimum.
    Optimal,
    /// No point is feasible.
    Infeasible,
    /// The node limit leaves no room for two more nodes, and an open leaf remains that nothing closes.
    NodeLimit,
}

/// The end of a state that is proved.
fn end_of(state: &State) -> OptEnd
    requires { state.now.search.proved ≡ true }
    ensures { (limit : ℕ) → Ends state.now limit result }
{
    match state.search.best() {
        Some(_) => OptEnd::Optimal,
        None => OptEnd::Infeasible,
    }
}

/// Takes open leaves until none is left, where phase one hasn't ended.
fn improve(
    state: &mut State,
    cursor: &mut Option<Cursor>,
    advice: &mut Advice,
    node_limit: u32,
) -> Result<OptEnd, NoMemory>
    requires open { state.old.search.proved ≡ false }
    requires cursor { HasCursor state.old cursor.old }
    ensures ends { IfOk result (λ end. Ends state.new node_limit end) }
    ensures roomy { room (point_count (root_of state.old.model)) ≤ node_limit → result ≢ Ok OptEnd.NodeLimit }
    ensures run { IsRun state.old state.new node_limit }
    ensures kept { KeepsShut state.old.search.tree.nodes state.new.search.tree.nodes }
    ensures covered { (fs : FilterList) → IsCovered fs state.old → IsCovered fs state.new }
    ensures state { IsState state.new }
{
    extensions_last();
    split_divides_count();
    cursors_last();
    let _phase = state.proved();
    let mut agenda = Agenda::new(state.alloc);
    while let Some(node) = agenda.next(state.tree()) {
        let pivots = agenda.pivots(state);
        prepare(state, advice, node, &Goal::Improve, pivots);
        let hints = advice.hints(node.place());
        let stepped = step(state, cursor, &hints, node, &Goal::Improve, node_limit)?;
        if stepped.is_full() {
            return Ok(OptEnd::NodeLimit);
        }
        agenda.add_parts(state, cursor, advice, node);
    }
    Ok(end_of(state))
}

/// Takes open leaves until none is left. A state that is proved stays as it is. After an error the state is that of the
/// last whole step.
pub fn optimize(state: &mut State, node_limit: u32) -> Result<OptEnd, NoMemory>
    // The answer: the optimum is the best value found, or no point is feasible, or the limit leaves no room.
    ensures ends { IfOk result (λ end. Ends state.new node_limit end) }
    ensures proved { state.old.search.proved ≡ true → state.new ≡ state.old }
    ensures roomy { room (point_count (root_of state.old.model)) ≤ node_limit → result ≢ Ok OptEnd.NodeLimit }

    // What it leaves, after an error too.
    ensures run { IsRun state.old state.new node_limit }
    ensures kept { KeepsShut state.old.search.tree.nodes state.new.search.tree.nodes }
    ensures covered { (fs : FilterList) → IsCovered fs state.old → IsCovered fs state.new }
    ensures state { IsState state.new }
{
    extensions_last();
    if state.proved() {
        return Ok(end_of(state));
    }
    let mut cursor = state.cursor()?;
    let mut advice = state.advice();
    improve(state, &mut cursor, &mut advice, node_limit)
}
