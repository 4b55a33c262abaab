//! The lines carried out, one after another.
ghost use Rattle.std.specs.Prelude.{◌≡◌, IfOk, OnOk};
ghost use Rattle.sp_filter.specs.Held.{FilterList};
ghost use Rattle.sp_model.specs.Cuts.{IsGap};
ghost use Rattle.sp_search.specs.States.{AreFit, IsCovered, StateOf};
ghost use Rattle.sp_populate.specs.Complete.{CanRun};

use crate::filtering::{add, remove};
use crate::inputs::{Kind, gap_at, kind_of, name_of, numbers_of, small_at};
use crate::making::{diversity_of, parts_of, range_of};
use crate::showing::{show_count, show_end, show_list, show_tree, show_value};
use anyhow::{Result, anyhow, bail};
use sp_filter::{FilterDraft, Filters};
use sp_model::{Gap, Gaps, Model, ModelParts, NoMemory};
use sp_populate::{NBestEnd, PopEnd, list, nbest, populate};
use sp_search::{OptEnd, State, optimize};
use std::alloc::Global;

/// Want of memory as an error of this program.
fn no_memory(_error: NoMemory) -> anyhow::Error {
    anyhow!("no memory")
}

/// The model of these parts.
fn built(alloc: Global, parts: ModelParts) -> Result<Model> {
    match Model::build(alloc, parts) {
        Ok(model) => Ok(model),
        Err(refusal) => bail!("no model: {refusal:?}"),
    }
}

/// A search of the model that has not begun.
fn begun(alloc: Global, model: Model) -> Result<State>
    ensures { (fs : FilterList) → IfOk result (λ s. IsCovered fs s) }
{
    match State::new(alloc, model) {
        Ok(state) => Ok(state),
        Err(_) => bail!("no memory"),
    }
}

/// Carries out the lines: `model L U ..`, with the bounds of each variable, begins a new model, without filters and
/// with unlimited gaps; `cost C ..`, with the cost of each variable, and `row LO HI J A ..`, with two sides and a
/// variable and its coefficient for each term, stand behind it, and `-` is no side. `gaps ABS REL` sets both gaps, `-`
/// for an unlimited one; `range NAME LO HI J A ..`, `diversity NAME LO HI J W REF ..` and `remove NAME` change the
/// filters; `optimize NODES`, `populate NODES FOUND` and `nbest K NODES` run, `-` for no limit; `value` prints the best
/// value that was found; `list` and `count` list the points, `count` without their serials; and `tree` prints all nodes
/// and found points.
pub fn run_all<P: Print>(rt: &P, alloc: Global, lines: &[String]) -> Result<()> {
    for place in 0..lines.len() {
        if kind_of(lines[place].as_str()) == Kind::Model {
            run_model(rt, alloc, block_of(&lines[place..]))?;
        }
    }
    Ok(())
}

/// The lines up to the second model.
fn block_of(lines: &[String]) -> &[String] {
    for place in 1..lines.len() {
        if kind_of(lines[place].as_str()) == Kind::Model {
            return &lines[..place];
        }
    }
    lines
}

fn run_model<P: Print>(rt: &P, alloc: Global, lines: &[String]) -> Result<()> {
    let parts = parts_of(alloc, lines).map_err(no_memory)?;
    let model = built(alloc, parts)?;
    let mut state = begun(alloc, model)?;
    run_lines(rt, alloc, &mut state, lines)
}

fn run_lines<P: Print>(rt: &P, alloc: Global, state: &mut State, lines: &[String]) -> Result<()>
    requires { (fs : FilterList) → IsCovered fs state.old }
{
    let mut filters = Filters::new(alloc);
    let mut gaps = Gaps {
        abs: Gap::Unlimited,
        rel: Gap::Unlimited,
    };
    for line in lines {
        carry_out(rt, alloc, state, &mut filters, &mut gaps, line.as_str())?;
    }
    Ok(())
}

fn carry_out<P: Print>(
    rt: &P,
    alloc: Global,
    state: &mut State,
    filters: &mut Filters,
    gaps: &mut Gaps,
    line: &str,
) -> Result<()>
    requires { CanRun gaps.old filters.old state.old }
    ensures { CanRun gaps.new filters.new state.new }
{
    match kind_of(line) {
        Kind::Gaps => set_gaps(alloc, gaps, line),
        Kind::Range | Kind::Diversity | Kind::Remove => {
            change_filters(rt, alloc, filters, state.model(), line)
        }
        Kind::Optimize | Kind::Populate | Kind::Best => run(rt, alloc, state, gaps, filters, line),
        Kind::List | Kind::Count => tell_list(rt, alloc, state, gaps, filters, line),
        Kind::Value => show_value(rt, state),
        Kind::Tree => show_tree(rt, alloc, state),
        _ => Ok(()),
    }
}

fn set_gaps(alloc: Global, gaps: &mut Gaps, line: &str) -> Result<()>
    requires abs { IsGap gaps.old.abs }
    requires rel { IsGap gaps.old.rel }
    ensures abs { IsGap gaps.new.abs }
    ensures rel { IsGap gaps.new.rel }
{
    let numbers = numbers_of(alloc, line).map_err(no_memory)?;
    *gaps = Gaps {
        abs: gap_at(numbers.as_slice(), 0),
        rel: gap_at(numbers.as_slice(), 1),
    };
    Ok(())
}

/// The draft of the filter that the line describes.
fn draft_of(alloc: Global, line: &str) -> Result<FilterDraft, NoMemory> {
    let numbers = numbers_of(alloc, line)?;
    match kind_of(line) {
        Kind::Range => range_of(alloc, numbers.as_slice()),
        _ => diversity_of(alloc, numbers.as_slice()),
    }
}

fn change_filters<P: Print>(
    rt: &P,
    alloc: Global,
    filters: &mut Filters,
    model: &Model,
    line: &str,
) -> Result<()>
    ensures fit { AreFit model.now filters.old → AreFit model.now filters.new }
    ensures covered { (s : StateOf) → IsCovered filters.old s → IsCovered filters.new s }
{
    let name = name_of(alloc, line).map_err(no_memory)?;
    match kind_of(line) {
        Kind::Remove => {
            let removed = remove(filters, model, &name);
            println!(rt; "removed {removed:?}")?;
        }
        _ => {
            let draft = draft_of(alloc, line).map_err(no_memory)?;
            let added = add(filters, model, name, draft);
            println!(rt; "added {added:?}")?;
        }
    }
    Ok(())
}

/// The word for how a run to the optimum ended.
fn optimum_word(end: Result<OptEnd, NoMemory>) -> &'static str {
    match end {
        Ok(OptEnd::Optimal) => "Optimal",
        Ok(OptEnd::Infeasible) => "Infeasible",
        Ok(OptEnd::NodeLimit) => "NodeLimit",
        Err(_) => "NoMemory",
    }
}

/// The word for how a run to all listed points ended.
fn populate_word(end: Result<PopEnd, NoMemory>) -> &'static str {
    match end {
        Ok(PopEnd::Done) => "Done",
        Ok(PopEnd::NodeLimit) => "NodeLimit",
        Ok(PopEnd::PopulateLimit) => "PopulateLimit",
        Err(_) => "NoMemory",
    }
}

/// Runs to the optimum, to all listed points, or to the first ones.
fn run<P: Print>(
    rt: &P,
    alloc: Global,
    state: &mut State,
    gaps: &Gaps,
    filters: &Filters,
    line: &str,
) -> Result<()>
    requires { CanRun gaps.now filters.now state.old }
    ensures { CanRun gaps.now filters.now state.new }
{
    let numbers = numbers_of(alloc, line).map_err(no_memory)?;
    let (first, second) = (
        small_at(numbers.as_slice(), 0),
        small_at(numbers.as_slice(), 1),
    );
    match kind_of(line) {
        Kind::Optimize => {
            let end = optimize(state, first);
            show_end(rt, state, optimum_word(end))
        }
        Kind::Populate => {
            let end = populate(state, gaps, filters, first, second.max(1));
            show_end(rt, state, populate_word(end))
        }
        _ => {
            let end = nbest(alloc, state, first, gaps, filters, second);
            show_best(rt, state, end)
        }
    }
}

/// Prints how a run to the first points ended, and their serials.
fn show_best<P: Print>(rt: &P, state: &State, end: Result<NBestEnd, NoMemory>) -> Result<()> {
    match end {
        Ok(NBestEnd::Done(serials)) => {
            show_end(rt, state, "Best")?;
            show_list(rt, serials.as_slice())
        }
        Ok(NBestEnd::NodeLimit) => show_end(rt, state, "NodeLimit"),
        Err(_) => show_end(rt, state, "NoMemory"),
    }
}

/// Prints the list, or how many points it has.
fn tell_list<P: Print>(
    rt: &P,
    alloc: Global,
    state: &State,
    gaps: &Gaps,
    filters: &Filters,
    line: &str,
) -> Result<()>
    requires { CanRun gaps.now filters.now state.now }
{
    match list(alloc, state, gaps, filters) {
        Ok(serials) => match kind_of(line) {
            Kind::Count => show_count(rt, serials.as_slice()),
            _ => show_list(rt, serials.as_slice()),
        },
        Err(refusal) => {
            println!(rt; "{refusal:?}")?;
            Ok(())
        }
    }
}
