//! What is kept over the box in hand: the truths of the model, the bounds of its stated lists, and the sum of its
//! objective.

ghost use Rattle.std.specs.Prelude.{◌≡◌, ◌≤◌, ◌^◌, ◌+ℤ◌, ◌∷◌, [], slice_set, unsigned_abs, IfOk};
ghost use Rattle.sp_model.specs.Boxes.{Bounds};
ghost use Rattle.sp_model.specs.Models.{root_of};
ghost use Rattle.sp_sums.specs.Ranges.{IsChange, IsFilled, IsInside};
ghost use Rattle.sp_sums.specs.Rows.{RowsOver};
ghost use Rattle.sp_activity.specs.Kept.{IsKeptOf};
ghost use Rattle.sp_bound.specs.KeptBounds.{IsKeptOf as AreBoundsOf};
ghost use Rattle.sp_cover.specs.Numbers.{least_objective};
ghost use Rattle.sp_cursor.specs.Cursors.{IsHand, objective_row};

use sp_activity::Kept;
use sp_bound::KeptBounds;
use sp_model::{
    BoxOf, Items, Model, ModelParts, NoMemory, Row, RowId, VarId, objective_is_small, root_is_short,
};
use sp_sums::{Sums, rows_are_narrow_inside, span_over, sums_are_reached};
use std::alloc::Global;

/// The least objective over a box, whatever the rows say.
pub fn least_objective(model: &Model, bounds: &BoxOf) -> i128
    requires { IsInside (root_of model.now) bounds.now }
    ensures { result ≡ least_objective model.now bounds.now }
{
    let parts = model.parts();
    objective_is_small();
    root_is_short();
    rows_are_narrow_inside();
    sums_are_reached();
    let span = span_over(parts.cost.as_slice(), bounds);
    sum_of(&parts.constant, &span.least)
}

/// The sum of two numbers.
fn sum_of(left: &i128, right: &i128) -> i128
    requires { unsigned_abs (left.now +ℤ right.now) ≤ 10 ^ 36 }
    ensures { result ≡ left.now +ℤ right.now }
{
    *left + *right
}

/// What is kept over one box of a model. It belongs to that model, which each call takes.
#[derive(Drop)]
pub struct Hand {
    /// The truths of the model.
    pub truths: Kept,
    /// The bounds of its stated lists.
    pub lists: KeptBounds,
    /// The sum of its objective, as the one row.
    pub objective: Sums,
}

/// The objective as the one row, without sides.
fn objective_rows(alloc: Global, parts: &ModelParts) -> Result<Items<Row>, NoMemory>
    ensures { IfOk result (λ rows. rows ≡ objective_row parts.now ∷ []) }
{
    let terms = Vec::from_slice(alloc, parts.cost.as_slice())?;
    let mut rows = Items::new(alloc);
    rows.push(Row {
        terms: Items::from_vec(terms),
        lo: None,
        hi: None,
    })?;
    Ok(rows)
}

/// The sum of the objective over the closed box.
fn objective_sums(alloc: Global, model: &Model) -> Result<Sums, NoMemory>
    requires { IsFilled (root_of model.now) }
    ensures root { IfOk result (λ s. s.root ≡ root_of model.now) }
    ensures bounds { IfOk result (λ s. s.bounds ≡ root_of model.now) }
    ensures rows { IfOk result (λ s. s.rows ≡ objective_row model.now ∷ []) }
{
    let rows = objective_rows(alloc, model.parts())?;
    let root = model.root(alloc)?;
    let bounds = model.root(alloc)?;
    Sums::new(alloc, root, bounds, rows)
}

/// All over the closed box of the model, which has points.
pub fn root_hand(alloc: Global, model: &Model) -> Result<Hand, NoMemory>
    requires { IsFilled (root_of model.now) }
    ensures { IfOk result (λ h. IsHand model.now h (root_of model.now)) }
{
    let truths = Kept::new(alloc, model)?;
    let lists = KeptBounds::new(alloc, model)?;
    let objective = objective_sums(alloc, model)?;
    Ok(Hand {
        truths,
        lists,
        objective,
    })
}

impl Hand {
    /// Gives a variable another range. It takes no memory, and looks only at what has the variable.
    pub fn set(&mut self, model: &Model, var: VarId, range: &(i64, i64))
        requires truths { IsKeptOf model.now self.old.truths }
        requires lists { AreBoundsOf model.now self.old.lists }
        requires root { self.old.objective.root ≡ root_of model.now }
        requires change { IsChange (root_of model.now) var range.now }
        ensures { (b : Bounds) → IsHand model.now self.old b → IsHand model.now self.new (slice_set b var range.now) }
    {
        self.truths.set(model, var, range);
        self.lists.set(model, var, range);
        self.objective.set(var, range);
    }

    /// The least objective over the box, whatever the rows say. It takes the same time for each box.
    pub fn least_objective(&self, model: &Model, bounds: &BoxOf) -> i128
        requires hand { IsHand model.now self.now bounds.now }
        requires inside { IsInside (root_of model.now) bounds.now }
        ensures { result ≡ least_objective model.now bounds.now }
    {
        let _bounds = bounds;
        let parts = model.parts();
        objective_is_small();
        root_is_short();
        rows_are_narrow_inside();
        sums_are_reached();
        let span = self.objective.span(RowId::new(0));
        sum_of(&parts.constant, &span.least)
    }
}
