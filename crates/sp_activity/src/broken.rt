//! Which indicators, sets and cores of a model can't hold over a box.

ghost use Rattle.std.specs.Prelude.{◌≡◌, ◌<◌, ◌≤◌, All, length, map, IfOk};
ghost use Rattle.sp_activity.specs.Kept.{AreUsesOf, IsBrokenOf, IsMoved};
ghost use Rattle.sp_activity.specs.Stages.{IsReady};

use crate::making::{broken_cores, broken_gates, broken_sets};
use crate::settling::{settle_cores, settle_gates, settle_sets};
use crate::uses::ModelUses;
use sp_model::{BoxOf, ModelParts, NoMemory, VarId};
use sp_sums::{Flags, Sums};
use std::alloc::Global;

/// Which items of a model can't hold over a box.
#[derive(Debug, Drop)]
pub struct Broken {
    /// The indicators that ask for a row that can't hold.
    pub gates: Flags,
    /// The sets that can't hold.
    pub sets: Flags,
    /// The cores that are missed together with 0.
    pub cores: Flags,
}

/// Which items can't hold over the box.
pub fn broken_over(alloc: Global, parts: &ModelParts, bounds: &BoxOf) -> Result<Broken, NoMemory>
    requires ready { IsReady parts.now bounds.now }
    requires few { length parts.now.semi ≤ 2000 }
    ensures { IfOk result (IsBrokenOf parts.now bounds.now) }
{
    let gates = broken_gates(alloc, parts.indicators.as_slice(), bounds)?;
    let sets = broken_sets(alloc, parts.sos.as_slice(), bounds)?;
    let cores = broken_cores(alloc, parts.semi.as_slice(), bounds)?;
    Ok(Broken { gates, sets, cores })
}

/// Finds the truths anew of what has the variable, after its range changed. The sums of the indicators' rows have the new box.
pub fn settle(
    broken: &mut Broken,
    parts: &ModelParts,
    uses: &ModelUses,
    var: VarId,
    range: &(i64, i64),
    gates: &Sums,
)
    requires ready { IsReady parts.now gates.now.bounds }
    requires rows { gates.now.rows ≡ map (λ i. i.row) parts.now.indicators }
    requires uses { AreUsesOf parts.now (length gates.now.bounds) uses.now }
    requires known { var < length gates.now.bounds }
    requires moved { IsMoved parts.now broken.old var range.now gates.now.bounds }
    ensures { IsBrokenOf parts.now gates.now.bounds broken.new }
{
    let _range = range;
    let bounds = gates.bounds();
    settle_gates(
        &mut broken.gates,
        uses.gates.of(var),
        parts.indicators.as_slice(),
        gates,
    );
    settle_sets(
        &mut broken.sets,
        uses.sets.of(var),
        parts.sos.as_slice(),
        bounds,
    );
    settle_cores(
        &mut broken.cores,
        uses.cores.of(var),
        parts.semi.as_slice(),
        bounds,
    );
}
