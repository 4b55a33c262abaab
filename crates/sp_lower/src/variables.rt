//! What variables are refused for, and the bounds that a model states of them.
ghost use Rattle.std.specs.Prelude.{◌≡◌, ◌<◌, ◌≤◌, length, false};
ghost use Rattle.sp_lower.specs.Bounds.{has_far_bound, least_of, greatest_of, is_near, whole_lower, whole_upper};
ghost use Rattle.sp_lower.specs.Faults.{first_fault, variable_fault};

use crate::bounds::{has_far_bound, is_continuous, lacks_lower};
use crate::refusals::LowerRefusal;
use sp_draft::DraftVar;
use sp_model::VarId;

/// What the variable at the place is refused for, if anything.
fn variable_fault(at: u32, var: &DraftVar) -> Option<LowerRefusal>
    ensures { result ≡ variable_fault at var.now }
{
    if is_continuous(var.kind) {
        return Some(LowerRefusal::Continuous(VarId::new(at)));
    }
    if lacks_lower(&var.lower, &var.upper) {
        return Some(LowerRefusal::NegativeUpper(VarId::new(at)));
    }
    if has_far_bound(var) {
        return Some(LowerRefusal::WideBound(VarId::new(at)));
    }
    None
}

/// What the first variable that is refused is refused for.
pub(crate) fn first_variable_fault(vars: &[DraftVar]) -> Option<LowerRefusal>
    requires { length vars.now ≤ 2000 }
    ensures { result ≡ first_fault variable_fault 0 vars.now }
{
    for (at, var) in vars.iter().enumerate() {
        if let Some(fault) = variable_fault(at as u32, var) {
            return Some(fault);
        }
    }
    None
}
