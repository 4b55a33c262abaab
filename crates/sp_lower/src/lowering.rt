//! Drafts lowered: the model that one stands for, or the first thing in it that no model has.
ghost use Rattle.std.specs.Prelude.{◌≡◌, ◌≤◌, ◌⊎◌, All, length, map, None, Some, Err, IfOk, IfErr, IfSome, MatchOption, true, false};
ghost use Rattle.std.specs.Option.{option_or};
ghost use Rattle.sp_draft.specs.Drafts.{IsWellFormed, AreKnown};
ghost use Rattle.sp_model.specs.Models.{root_of};
ghost use Rattle.sp_model.specs.Rounds.{rounded};
ghost use Rattle.sp_model.specs.Limits.{greatest_scale};
ghost use Rattle.sp_model.specs.Rules.{AreBoundsLawful, HasClosedBox, IsLawful};
ghost use Rattle.sp_lower.specs.Bounds.{has_far_bound};
ghost use Rattle.sp_lower.specs.Faults.{first_fault, count_fault, variable_fault, objective_fault, row_fault, indicator_fault, set_fault};
ghost use Rattle.sp_lower.specs.Lowering.{outline, box_of, open_fault, model_indicator, refusal_of, model_of};
ghost use Rattle.sp_lower.specs.InnerLowering.{early_fault, box_fault, Refuses, MakesModel, IsOpening, opened, closing_indicator, boxed_fault, late_fault, filled, IsNarrowObjective};
ghost use Rattle.sp_lower.specs.Objectives.{objective_places, is_wide_objective, model_cost};
ghost use Rattle.sp_lower.specs.Rows.{is_tame, closing_row};
ghost use Rattle.sp_lower.specs.Sets.{is_bad_set, model_set};

use crate::cores::{cores, lower_bounds, upper_bounds};
use crate::counts::count_fault;
use crate::faults::{first_indicator_fault, first_row_fault};
use crate::laws::lowered_parts_are_lawful;
use crate::objectives::{is_wide_objective, model_constant, objective_places};
use crate::refusals::LowerRefusal;
use crate::rows::closing_row;
use crate::sets::ordered;
use crate::variables::first_variable_fault;
use sp_draft::{Draft, DraftIndicator, DraftRow, DraftSos};
use sp_model::{
    BoxOf, BuildRefusal, Indicator, Items, Model, ModelParts, NoMemory, Row, Sos, closed_box,
};
use sp_scaling::collected;
use std::alloc::Global;

/// The first count above its limit, or what the first variable that is refused is refused for.
fn early_fault(draft: &Draft) -> Option<LowerRefusal>
    ensures { result ≡ early_fault draft.now }
{
    match count_fault(draft) {
        Some(fault) => Some(fault),
        None => first_variable_fault(draft.vars.as_slice()),
    }
}

/// The rows as they stand while bounds are closed.
fn closing_rows(alloc: Global, rows: &[DraftRow]) -> Result<Items<Row>, NoMemory>
    ensures { IfOk result (λ list. list ≡ map closing_row rows.now) }
{
    let mut list = Items::new(alloc);
    for row in rows {
        list.push(closing_row(alloc, row)?)?;
    }
    Ok(list)
}

/// What the closed box depends on: the variables, and the rows that help to close bounds.
fn outline(alloc: Global, draft: &Draft) -> Result<ModelParts, NoMemory>
    requires near { All (λ v. has_far_bound v ≡ false) draft.now.vars }
    requires few { length draft.now.vars ≤ 2000 }
    ensures { IfOk result (λ parts. parts ≡ outline draft.now) }
{
    let vars = draft.vars.as_slice();
    let lower = lower_bounds(alloc, vars)?;
    let upper = upper_bounds(alloc, vars)?;
    let semi = cores(alloc, vars)?;
    let rows = closing_rows(alloc, draft.rows.as_slice())?;
    Ok(ModelParts {
        maximize: draft.maximize,
        scale: 0,
        constant: 0,
        cost: Items::new(alloc),
        lower,
        upper,
        semi,
        rows,
        indicators: Items::new(alloc),
        sos: Items::new(alloc),
    })
}

/// Why a box isn't closed, in the words of drafts: a variable stays open, or there was no memory.
fn opened(refusal: BuildRefusal) -> LowerRefusal
    requires { IsOpening refusal }
    ensures { result ≡ opened refusal }
{
    match refusal {
        BuildRefusal::Open(var) => LowerRefusal::OpenVariable(var),
        BuildRefusal::NoMemory => LowerRefusal::NoMemory,
        BuildRefusal::Variables => unreachable!(),
        BuildRefusal::Bound(_) => unreachable!(),
        BuildRefusal::Objective => unreachable!(),
        BuildRefusal::Row(_) => unreachable!(),
        BuildRefusal::Indicator(_) => unreachable!(),
        BuildRefusal::Sos(_) => unreachable!(),
    }
}

/// The closed box, or the first variable that stays open.
fn closed_root(alloc: Global, parts: &ModelParts) -> Result<BoxOf, LowerRefusal>
    requires { AreBoundsLawful parts.now }
    ensures closed { IfOk result (λ root. (root ≡ root_of parts.now) × HasClosedBox parts.now × (length root ≡ length parts.now.lower)) }
    ensures none { IfOk result (λ root. first_fault open_fault 0 (rounded parts.now) ≡ None) }
    ensures refused { IfErr result (Refuses (first_fault open_fault 0 (rounded parts.now))) }
{
    match closed_box(alloc, parts) {
        Ok(root) => Ok(root),
        Err(refusal) => Err(opened(refusal)),
    }
}

/// What the objective, the rows and the indicators are refused for over the closed box, the first of it.
fn box_fault(root: &BoxOf, draft: &Draft) -> Option<LowerRefusal>
    requires formed { IsWellFormed draft.now }
    requires long { length root.now ≡ length draft.now.vars }
    requires rows { length draft.now.rows ≤ 10000 }
    requires indicators { length draft.now.indicators ≤ 1000 }
    ensures { result ≡ box_fault root.now draft.now }
{
    if is_wide_objective(root, draft.cost.as_slice(), draft.constants.as_slice()) {
        return Some(LowerRefusal::WideObjective);
    }
    match first_row_fault(root, draft.rows.as_slice()) {
        Some(fault) => Some(fault),
        None => first_indicator_fault(root, draft.indicators.as_slice()),
    }
}

/// The set in the words of a model, `None` where it is a bad one.
fn model_set(alloc: Global, set: &DraftSos) -> Result<Option<Sos>, NoMemory>
    ensures { IfOk result (λ made. MatchOption made (is_bad_set set.now ≡ true) (λ s. (is_bad_set set.now ≡ false) × (s ≡ model_set set.now))) }
{
    match ordered(alloc, set)? {
        None => Ok(None),
        Some(vars) => Ok(Some(Sos {
            kind: set.kind,
            vars: Items::from_vec(vars),
        })),
    }
}

/// The sets with their members in order of weight, or the first bad one.
fn model_sets(alloc: Global, sets: &[DraftSos]) -> Result<Items<Sos>, LowerRefusal>
    requires { length sets.now ≤ 1000 }
    ensures good { IfOk result (λ list. (first_fault set_fault 0 sets.now ≡ None) × (list ≡ map model_set sets.now)) }
    ensures refused { IfErr result (Refuses (first_fault set_fault 0 sets.now)) }
{
    let mut list = Items::new(alloc);
    for (at, set) in sets.iter().enumerate() {
        match model_set(alloc, set) {
            Err(_) => return Err(LowerRefusal::NoMemory),
            Ok(None) => return Err(LowerRefusal::BadSos(at as u32)),
            Ok(Some(made)) => match list.push(made) {
                Err(_) => return Err(LowerRefusal::NoMemory),
                Ok(()) => {}
            },
        }
    }
    Ok(list)
}

/// The indicators in whole units.
fn model_indicators(
    alloc: Global,
    indicators: &[DraftIndicator],
) -> Result<Items<Indicator>, NoMemory>
    ensures { IfOk result (λ list. list ≡ map closing_indicator indicators.now) }
{
    let mut list = Items::new(alloc);
    for indicator in indicators {
        list.push(Indicator {
            var: indicator.var,
            on: indicator.on,
            row: closing_row(alloc, &indicator.row)?,
        })?;
    }
    Ok(list)
}

/// The parts with the objective, the indicators and the sets in place, where no width is too great.
fn filled(
    alloc: Global,
    draft: &Draft,
    parts: ModelParts,
    sos: Items<Sos>,
) -> Result<ModelParts, NoMemory>
    requires { IsNarrowObjective draft.now.cost draft.now.constants }
    ensures made { IfOk result (λ made. made ≡ filled draft.now parts sos) }
    ensures few { objective_places draft.now.cost draft.now.constants ≤ greatest_scale }
{
    let places = objective_places(draft.cost.as_slice(), draft.constants.as_slice());
    let cost = collected(alloc, draft.cost.as_slice(), places, draft.maximize)?;
    let constant = model_constant(draft.maximize, draft.constants.as_slice(), places);
    let indicators = model_indicators(alloc, draft.indicators.as_slice())?;
    let mut made = parts;
    made.scale = places;
    made.constant = constant;
    made.cost = cost;
    made.indicators = indicators;
    made.sos = sos;
    Ok(made)
}

/// The model of the parts, which nothing but want of memory refuses.
fn built(alloc: Global, parts: ModelParts) -> Result<Model, LowerRefusal>
    requires { IsLawful parts }
    ensures same { IfOk result (λ m. m ≡ parts) }
    ensures refused { IfErr result (λ r. r ≡ LowerRefusal.NoMemory) }
{
    match Model::build(alloc, parts) {
        Ok(model) => Ok(model),
        Err(refusal) => Err(opened(refusal)),
    }
}

/// The model of a draft of which nothing was refused.
fn finished(
    alloc: Global,
    draft: &Draft,
    parts: ModelParts,
    sos: Items<Sos>,
) -> Result<Model, LowerRefusal>
    requires parts { parts ≡ outline draft.now }
    requires passed { box_fault (box_of draft.now) draft.now ≡ None }
    requires sets { sos ≡ map model_set draft.now.sos }
    requires lawful { MakesModel draft.now }
    ensures same { IfOk result (λ m. m ≡ model_of draft.now) }
    ensures refused { IfErr result (λ r. r ≡ LowerRefusal.NoMemory) }
{
    match filled(alloc, draft, parts, sos) {
        Err(_) => Err(LowerRefusal::NoMemory),
        Ok(made) => built(alloc, made),
    }
}

/// The model of a draft of which nothing was refused before its sets.
fn with_sets(alloc: Global, draft: &Draft, parts: ModelParts) -> Result<Model, LowerRefusal>
    requires parts { parts ≡ outline draft.now }
    requires passed { box_fault (box_of draft.now) draft.now ≡ None }
    requires few { length draft.now.sos ≤ 1000 }
    requires lawful { first_fault set_fault 0 draft.now.sos ≡ None → MakesModel draft.now }
    ensures good { IfOk result (λ m. (first_fault set_fault 0 draft.now.sos ≡ None) × (m ≡ model_of draft.now)) }
    ensures refused { IfErr result (Refuses (first_fault set_fault 0 draft.now.sos)) }
{
    match model_sets(alloc, draft.sos.as_slice()) {
        Err(refusal) => Err(refusal),
        Ok(sos) => finished(alloc, draft, parts, sos),
    }
}

/// The model of a draft whose closed box this is.
fn with_root(
    alloc: Global,
    draft: &Draft,
    root: &BoxOf,
    parts: ModelParts,
) -> Result<Model, LowerRefusal>
    requires formed { IsWellFormed draft.now }
    requires early { early_fault draft.now ≡ None }
    requires parts { parts ≡ outline draft.now }
    requires root { root.now ≡ box_of draft.now }
    requires long { length root.now ≡ length draft.now.vars }
    requires lawful { boxed_fault draft.now ≡ None → MakesModel draft.now }
    ensures good { IfOk result (λ m. (boxed_fault draft.now ≡ None) × (m ≡ model_of draft.now)) }
    ensures refused { IfErr result (Refuses (boxed_fault draft.now)) }
{
    match box_fault(root, draft) {
        Some(fault) => Err(fault),
        None => with_sets(alloc, draft, parts),
    }
}

/// The model of a draft with this outline.
fn with_parts(alloc: Global, draft: &Draft, parts: ModelParts) -> Result<Model, LowerRefusal>
    requires formed { IsWellFormed draft.now }
    requires early { early_fault draft.now ≡ None }
    requires parts { parts ≡ outline draft.now }
    requires lawful { late_fault draft.now ≡ None → MakesModel draft.now }
    ensures good { IfOk result (λ m. (late_fault draft.now ≡ None) × (m ≡ model_of draft.now)) }
    ensures refused { IfErr result (Refuses (late_fault draft.now)) }
{
    match closed_root(alloc, &parts) {
        Err(refusal) => Err(refusal),
        Ok(root) => with_root(alloc, draft, &root, parts),
    }
}

/// The model of a draft whose counts and variables are in order.
fn with_outline(alloc: Global, draft: &Draft) -> Result<Model, LowerRefusal>
    requires formed { IsWellFormed draft.now }
    requires early { early_fault draft.now ≡ None }
    requires lawful { late_fault draft.now ≡ None → MakesModel draft.now }
    ensures good { IfOk result (λ m. (late_fault draft.now ≡ None) × (m ≡ model_of draft.now)) }
    ensures refused { IfErr result (Refuses (late_fault draft.now)) }
{
    match outline(alloc, draft) {
        Err(_) => Err(LowerRefusal::NoMemory),
        Ok(parts) => with_parts(alloc, draft, parts),
    }
}

/// The model that a draft stands for.
///
/// Numbers are made whole: each sum is counted in units of the finest decimal place that it has, and the terms of one variable
/// are added up; bounds are rounded inwards; a range becomes two sides; the members of a set stand in order of weight; an
/// objective to be maximised is negated. Bounds that are missing are closed from the rows where that is possible.
///
/// # Errors
///
/// The first thing in the draft, in the order of [`LowerRefusal`], that no model has.
pub fn lower(alloc: Global, draft: &Draft) -> Result<Model, LowerRefusal>
    requires { IsWellFormed draft.now }
    ensures good { IfOk result (λ m. (refusal_of draft.now ≡ None) × (m ≡ model_of draft.now)) }
    ensures refused { IfErr result (λ r. (r ≡ LowerRefusal.NoMemory) ⊎ (refusal_of draft.now ≡ Some r)) }

    // A count or a variable is refused before memory is taken.
    ensures early { IfSome (option_or (count_fault draft.now) (first_fault variable_fault 0 draft.now.vars)) (λ r. result ≡ Err r) }
{
    lowered_parts_are_lawful();
    match early_fault(draft) {
        Some(fault) => Err(fault),
        None => with_outline(alloc, draft),
    }
}
