//! The truths of the items that have a variable, found anew where its range changed.

ghost use Rattle.std.specs.Prelude.{◌≡◌, ◌<◌, ◌≤◌, All, length, map};
ghost use Rattle.sp_activity.specs.Reasons.{indicator_at};
ghost use Rattle.sp_activity.specs.Stages.{is_core_broken, is_gate_broken, is_set_broken};
ghost use Rattle.sp_activity.specs.Uses.{IsSettling};

use crate::stages::{is_asked, is_core_broken, is_set_broken};
use sp_model::{BoxOf, Indicator, RowId, Sos, VarId};
use sp_sums::{Flags, Sums};

/// Whether the indicator can't hold at any point of the box of the kept sums.
fn is_kept_broken(indicators: &[Indicator], gates: &Sums, place: u32) -> bool
    requires inside { place < length indicators.now }
    requires rows { gates.now.rows ≡ map (λ i. i.row) indicators.now }
    requires known { All (λ i. i.var < length gates.now.bounds) indicators.now }
    ensures { result ≡ is_gate_broken gates.now.bounds (indicator_at indicators.now place) }
{
    let indicator = &indicators[place as usize];
    is_asked(indicator, gates.bounds()) && gates.is_broken(RowId::new(place))
}

/// Puts the truths of the indicators at these places.
pub fn settle_gates(flags: &mut Flags, places: &[u32], indicators: &[Indicator], gates: &Sums)
    requires rows { gates.now.rows ≡ map (λ i. i.row) indicators.now }
    requires known { All (λ i. i.var < length gates.now.bounds) indicators.now }
    requires settling { IsSettling (map (is_gate_broken gates.now.bounds) indicators.now) places.now flags.old }
    ensures { flags.new ≡ map (is_gate_broken gates.now.bounds) indicators.now }
{
    for place in places {
        let broken = is_kept_broken(indicators, gates, *place);
        flags.put(*place as usize, broken);
    }
}

/// Puts the truths of the sets at these places.
pub fn settle_sets(flags: &mut Flags, places: &[u32], sets: &[Sos], bounds: &BoxOf)
    requires known { All (λ set. All (λ v. v < length bounds.now) set.vars) sets.now }
    requires short { All (λ set. length set.vars ≤ 2000) sets.now }
    requires settling { IsSettling (map (is_set_broken bounds.now) sets.now) places.now flags.old }
    ensures { flags.new ≡ map (is_set_broken bounds.now) sets.now }
{
    for place in places {
        let at = *place as usize;
        let broken = is_set_broken(&sets[at], bounds);
        flags.put(at, broken);
    }
}

/// Puts the truths of the cores at these places.
pub fn settle_cores(flags: &mut Flags, places: &[u32], cores: &[(VarId, i64, i64)], bounds: &BoxOf)
    requires known { All (λ c. c.0 < length bounds.now) cores.now }
    requires settling { IsSettling (map (is_core_broken bounds.now) cores.now) places.now flags.old }
    ensures { flags.new ≡ map (is_core_broken bounds.now) cores.now }
{
    for place in places {
        let at = *place as usize;
        let broken = is_core_broken(&cores[at], bounds);
        flags.put(at, broken);
    }
}
