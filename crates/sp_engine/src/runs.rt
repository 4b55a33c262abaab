//! Listing the solutions of a model: all that takes memory is done here, before the first line goes out.
ghost use Rattle.std.specs.Prelude.{◌≡◌, ◌≢◌, IfOk};
ghost use Rattle.sp_filter.specs.Held.{FilterList};
ghost use Rattle.sp_model.specs.Cuts.{IsGap};
ghost use Rattle.sp_list.specs.Lists.{points_of};
ghost use Rattle.sp_search.specs.States.{IsCovered};
ghost use Rattle.sp_populate.specs.Complete.{CanRun};

use crate::journals::{Entry, RunEnd};
use crate::replies::Reply;
use sp_cover::covered_searches_find_all;
use sp_draft::Names;
use sp_filter::Filters;
use sp_list::{Found, optimum_is_unique};
use sp_meaning::NamedModel;
use sp_model::{Gaps, Items, NoMemory, Point, feasible_is_within, objective_is_small};
use sp_populate::{PopEnd, lists_without_filters, populate};
use sp_search::{State, searches_are_small};
use std::alloc::{AllocError, Global};

/// What a run of a model noted and replies, with the model's search.
#[derive(Drop)]
pub struct Listing {
    /// The names of the variables, in declared order.
    pub names: Names,
    /// The search of the model.
    pub state: State,
    /// The found points, in the order in which they were found, and the end of the run.
    pub notes: Vec<Entry>,
    /// The reply.
    pub reply: Reply,
}

/// What a run noted and replies.
#[derive(Drop)]
struct Said {
    notes: Vec<Entry>,
    reply: Reply,
}

ghost use Rattle.sp_engine.specs.Notes.{run_notes};
ghost use Rattle.sp_engine.specs.Runs.{IsListing};
ghost use Rattle.sp_engine.specs.Views.{settings_with};
ghost use Rattle.sp_engine.specs.InnerRuns.{IsFresh, IsFirstRun, IsReplyOf, run_end};

/// The note of a found point.
fn note_of(alloc: Global, found: &Found) -> Result<Entry, AllocError>
    ensures { IfOk result (λ note. note ≡ Entry.Found found.now.point) }
{
    let point = Vec::from_slice(alloc, found.point.as_slice())?;
    Ok(Entry::Found(Point::from_vec(point)))
}

/// A note of each point, in their order, and of the end.
fn notes_of(
    alloc: Global,
    found: &[Found],
    end: RunEnd,
    nodes: u32,
) -> Result<Vec<Entry>, AllocError>
    ensures { IfOk result (λ notes. notes.items ≡ run_notes (points_of found.now) end nodes) }
{
    let mut notes = Vec::new(alloc);
    for one in found {
        notes.push(note_of(alloc, one)?)?;
    }
    notes.push(Entry::Ended { end, nodes })?;
    Ok(notes)
}

/// How a run ended, in a journal's words.
fn end_of(end: PopEnd) -> RunEnd
    ensures { result ≡ run_end end }
{
    match end {
        PopEnd::Done => RunEnd::Done,
        PopEnd::NodeLimit => RunEnd::NodeLimit,
        PopEnd::PopulateLimit => RunEnd::PopulateLimit,
    }
}

/// The least value found, none where nothing was found.
fn least_value(state: &State) -> Option<i128>
    ensures { result ≡ state.now.search.best }
{
    // the facts of every state are known of any of its parts
    let _phase = state.proved();
    match state.best() {
        None => None,
        Some(serial) => Some(state.found()[serial as usize - 1].value),
    }
}

/// The reply to a run that ended so.
fn reply_to(
    alloc: Global,
    state: &State,
    gaps: &Gaps,
    filters: &Filters,
    end: PopEnd,
) -> Result<Reply, NoMemory>
    requires { CanRun gaps.now filters.now state.now }
    ensures { IfOk result (IsReplyOf state.now gaps.now filters.now end) }
{
    match end {
        PopEnd::Done => match sp_populate::list(alloc, state, gaps, filters) {
            Err(_) => Err(NoMemory),
            Ok(serials) => Ok(Reply::Listed {
                optimum: least_value(state),
                serials: Items::from_vec(serials),
            }),
        },
        PopEnd::NodeLimit | PopEnd::PopulateLimit => Ok(Reply::Stopped {
            nodes: state.tree().size(),
        }),
    }
}

/// Runs a search that found nothing yet.
fn run_new(alloc: Global, state: &mut State, gaps: &Gaps, node_limit: u32) -> Result<Said, NoMemory>
    requires fresh { IsFresh state.old }
    requires covered { (fs : FilterList) → IsCovered fs state.old }
    requires abs { IsGap gaps.now.abs }
    requires rel { IsGap gaps.now.rel }
    ensures model { state.new.model ≡ state.old.model }
    ensures run { let settings = settings_with gaps.now node_limit in
        IfOk result (λ said. IsFirstRun state.new.model settings said.notes.items said.reply) }
{
    covered_searches_find_all();
    searches_are_small();
    lists_without_filters();
    optimum_is_unique();
    feasible_is_within();
    objective_is_small();
    let filters = Filters::new(alloc);
    let end = populate(state, gaps, &filters, node_limit, u32::MAX)?;
    let reply = reply_to(alloc, state, gaps, &filters, end)?;
    let notes = notes_of(alloc, state.found(), end_of(end), state.tree().size())?;
    Ok(Said { notes, reply })
}

/// Lists the solutions of a model within these gaps, with a tree of so many nodes at most. `NoMemory` may come at any
/// time.
pub fn list(
    alloc: Global,
    named: NamedModel,
    gaps: &Gaps,
    node_limit: u32,
) -> Result<Listing, NoMemory>
    requires abs { IsGap gaps.now.abs }
    requires rel { IsGap gaps.now.rel }
    ensures { IfOk result (IsListing named (settings_with gaps.now node_limit)) }
{
    let NamedModel { names, model } = named;
    let mut state = State::new(alloc, model)?;
    let Said { notes, reply } = run_new(alloc, &mut state, gaps, node_limit)?;
    Ok(Listing {
        names,
        state,
        notes,
        reply,
    })
}
