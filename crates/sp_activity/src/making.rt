//! The truths of items over a box from nothing, and copies of rows.

ghost use Rattle.std.specs.Prelude.{◌≡◌, ◌<◌, ◌≤◌, All, length, map, IfOk};
ghost use Rattle.sp_sums.specs.Extremes.{AreTermsNarrow};
ghost use Rattle.sp_activity.specs.Stages.{is_core_broken, is_gate_broken, is_set_broken};

use crate::stages::{is_core_broken, is_gate_broken, is_set_broken};
use sp_model::{BoxOf, Indicator, Items, NoMemory, Row, Sos, VarId};
use sp_sums::Flags;
use std::alloc::Global;

/// Which indicators can't hold at any point of the box.
pub fn broken_gates(
    alloc: Global,
    indicators: &[Indicator],
    bounds: &BoxOf,
) -> Result<Flags, NoMemory>
    requires few { length indicators.now ≤ 1000 }
    requires known { All (λ i. i.var < length bounds.now) indicators.now }
    requires narrow { All (λ i. AreTermsNarrow bounds.now i.row.terms) indicators.now }
    ensures { IfOk result (λ f. f ≡ map (is_gate_broken bounds.now) indicators.now) }
{
    let mut flags = Flags::new(alloc);
    for indicator in indicators {
        let broken = is_gate_broken(indicator, bounds);
        flags.push(broken)?;
    }
    Ok(flags)
}

/// Which sets can't hold at any point of the box.
pub fn broken_sets(alloc: Global, sets: &[Sos], bounds: &BoxOf) -> Result<Flags, NoMemory>
    requires few { length sets.now ≤ 1000 }
    requires known { All (λ set. All (λ v. v < length bounds.now) set.vars) sets.now }
    requires short { All (λ set. length set.vars ≤ 2000) sets.now }
    ensures { IfOk result (λ f. f ≡ map (is_set_broken bounds.now) sets.now) }
{
    let mut flags = Flags::new(alloc);
    for set in sets {
        let broken = is_set_broken(set, bounds);
        flags.push(broken)?;
    }
    Ok(flags)
}

/// Which cores the box misses together with 0.
pub fn broken_cores(
    alloc: Global,
    cores: &[(VarId, i64, i64)],
    bounds: &BoxOf,
) -> Result<Flags, NoMemory>
    requires few { length cores.now ≤ 2000 }
    requires known { All (λ c. c.0 < length bounds.now) cores.now }
    ensures { IfOk result (λ f. f ≡ map (is_core_broken bounds.now) cores.now) }
{
    let mut flags = Flags::new(alloc);
    for core in cores {
        let broken = is_core_broken(core, bounds);
        flags.push(broken)?;
    }
    Ok(flags)
}

fn copy_row(alloc: Global, row: &Row) -> Result<Row, NoMemory>
    ensures { IfOk result (λ r. r ≡ row.now) }
{
    let terms = Items::from_vec(Vec::from_slice(alloc, row.terms.as_slice())?);
    Ok(Row {
        terms,
        lo: row.lo,
        hi: row.hi,
    })
}

/// The same rows.
pub fn copy_rows(alloc: Global, rows: &[Row]) -> Result<Items<Row>, NoMemory>
    ensures { IfOk result (λ items. items ≡ rows.now) }
{
    let mut copies = Vec::with_capacity(alloc, rows.len())?;
    for row in rows {
        let copy = copy_row(alloc, row)?;
        copies.push(copy)?;
    }
    Ok(Items::from_vec(copies))
}

/// The rows of the indicators.
pub fn indicator_rows(alloc: Global, indicators: &[Indicator]) -> Result<Items<Row>, NoMemory>
    ensures { IfOk result (λ items. items ≡ map (λ i. i.row) indicators.now) }
{
    let mut copies = Vec::with_capacity(alloc, indicators.len())?;
    for indicator in indicators {
        let copy = copy_row(alloc, &indicator.row)?;
        copies.push(copy)?;
    }
    Ok(Items::from_vec(copies))
}
