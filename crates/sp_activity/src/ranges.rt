//! Tests of ranges: what values they lack.

ghost use Rattle.std.specs.Prelude.{◌≡◌};
ghost use Rattle.sp_activity.specs.Reasons.{is_crossed, is_missed, lacks_core, lacks_zero};

use sp_model::VarId;

/// Whether the range is empty.
pub fn is_crossed(range: &(i64, i64)) -> bool
    ensures { result ≡ is_crossed range.now }
{
    !(range.0 <= range.1)
}

/// Whether 0 doesn't lie in the range.
pub fn lacks_zero(range: &(i64, i64)) -> bool
    ensures { result ≡ lacks_zero range.now }
{
    !(range.0 <= 0 && 0 <= range.1)
}

/// Whether no value of the core lies in the range.
fn lacks_core(range: &(i64, i64), core: &(VarId, i64, i64)) -> bool
    ensures { result ≡ lacks_core range.now core.now }
{
    !(core.1 <= core.2 && core.1 <= range.1 && range.0 <= core.2)
}

/// Whether neither 0 nor a value of the core lies in the range.
pub fn is_missed(range: &(i64, i64), core: &(VarId, i64, i64)) -> bool
    ensures { result ≡ is_missed range.now core.now }
{
    lacks_zero(range) && lacks_core(range, core)
}
