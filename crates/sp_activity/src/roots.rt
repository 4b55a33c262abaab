//! What is kept of a model over its closed box, from nothing.

ghost use Rattle.std.specs.Prelude.{◌≡◌, length, map, IfOk};
ghost use Rattle.sp_model.specs.Models.{root_of};
ghost use Rattle.sp_sums.specs.Ranges.{IsFilled};
ghost use Rattle.sp_activity.specs.Kept.{AreUsesOf, IsBrokenOf, gates_over, rows_over};

use crate::broken::{Broken, broken_over};
use crate::making::{copy_rows, indicator_rows};
use crate::uses::{ModelUses, Uses};
use sp_model::{BoxOf, Model, NoMemory, root_is_short};
use sp_sums::{Sums, rows_are_narrow_inside};
use std::alloc::Global;

/// The sums of the rows over the closed box.
fn row_sums(alloc: Global, model: &Model) -> Result<Sums, NoMemory>
    requires { IsFilled (root_of model.now) }
    ensures { IfOk result (λ s. s ≡ rows_over model.now (root_of model.now)) }
{
    root_is_short();
    let parts = model.parts();
    let rows = copy_rows(alloc, parts.rows.as_slice())?;
    let root = model.root(alloc)?;
    let bounds = model.root(alloc)?;
    Sums::new(alloc, root, bounds, rows)
}

/// The sums of the indicators' rows over the closed box.
fn gate_sums(alloc: Global, model: &Model) -> Result<Sums, NoMemory>
    requires { IsFilled (root_of model.now) }
    ensures { IfOk result (λ s. s ≡ gates_over model.now (root_of model.now)) }
{
    root_is_short();
    let parts = model.parts();
    let rows = indicator_rows(alloc, parts.indicators.as_slice())?;
    let root = model.root(alloc)?;
    let bounds = model.root(alloc)?;
    Sums::new(alloc, root, bounds, rows)
}

/// Which items can't hold over the closed box.
fn root_broken(alloc: Global, model: &Model, bounds: &BoxOf) -> Result<Broken, NoMemory>
    requires filled { IsFilled (root_of model.now) }
    requires root { bounds.now ≡ root_of model.now }
    ensures { IfOk result (IsBrokenOf model.now (root_of model.now)) }
{
    root_is_short();
    rows_are_narrow_inside();
    broken_over(alloc, model.parts(), bounds)
}

/// What has each variable.
fn root_uses(alloc: Global, model: &Model, count: usize) -> Result<ModelUses, NoMemory>
    requires { count ≡ length (root_of model.now) }
    ensures { IfOk result (AreUsesOf model.now (length (root_of model.now))) }
{
    root_is_short();
    let parts = model.parts();
    let gates = Uses::of_indicators(alloc, count, parts.indicators.as_slice())?;
    let sets = Uses::of_sets(alloc, count, parts.sos.as_slice())?;
    let cores = Uses::of_cores(alloc, count, parts.semi.as_slice())?;
    Ok(ModelUses { gates, sets, cores })
}

/// The sums of the rows and of the indicators' rows over the closed box.
pub fn root_sums(alloc: Global, model: &Model) -> Result<(Sums, Sums), NoMemory>
    requires { IsFilled (root_of model.now) }
    ensures rows { IfOk result (λ sums. sums.0 ≡ rows_over model.now (root_of model.now)) }
    ensures gates { IfOk result (λ sums. sums.1 ≡ gates_over model.now (root_of model.now)) }
{
    let rows = row_sums(alloc, model)?;
    let gates = gate_sums(alloc, model)?;
    Ok((rows, gates))
}

/// Which items can't hold over the closed box, and what has each variable.
pub fn root_truths(alloc: Global, model: &Model) -> Result<(Broken, ModelUses), NoMemory>
    requires { IsFilled (root_of model.now) }
    ensures broken { IfOk result (λ truths. IsBrokenOf model.now (root_of model.now) truths.0) }
    ensures uses { IfOk result (λ truths. AreUsesOf model.now (length (root_of model.now)) truths.1) }
{
    let root = model.root(alloc)?;
    let broken = root_broken(alloc, model, &root)?;
    let uses = root_uses(alloc, model, root.len())?;
    Ok((broken, uses))
}
