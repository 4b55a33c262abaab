//! Reduced costs: what rows with multipliers leave of the cost of a variable.

ghost use Rattle.std.specs.Prelude.{◌≡◌, ◌==◌, ◌<◌, All, length};
ghost use Rattle.sp_bound.specs.Bounds.{coefficient_in, scaled_cost, share_of};
ghost use Rattle.sp_bound.specs.Inner.{if_fits, reduced};

use crate::numbers::{minus, times};
use sp_dual::Multipliers;
use sp_model::{ModelParts, Row, RowId, VarId};

fn is_of(term: &(VarId, i128), var: VarId) -> bool
    ensures { result ≡ (term.now.0 == var) }
{
    term.0.index() == var.index()
}

/// The coefficient of a variable, 0 where no term has it.
pub fn coefficient_in(terms: &[(VarId, i128)], var: VarId) -> i128
    ensures { result ≡ coefficient_in terms.now var }
{
    for term in terms {
        if is_of(term, var) {
            return term.1;
        }
    }
    0
}

/// What a row takes from the cost of a variable.
fn share_of(rows: &[Row], var: VarId, weight: &(RowId, i128)) -> Option<i128>
    requires { weight.now.0 < length rows.now }
    ensures { result ≡ if_fits (share_of rows.now var weight.now) }
{
    let coefficient = coefficient_in(rows[weight.0.index()].terms.as_slice(), var);
    times(&weight.1, &coefficient)
}

/// The cost of a variable times the divisor.
fn scaled_cost(model: &ModelParts, list: &Multipliers, var: VarId) -> Option<i128>
    ensures { result ≡ if_fits (scaled_cost model.now list.now var) }
{
    let coefficient = coefficient_in(model.cost.as_slice(), var);
    times(&list.d, &coefficient)
}

/// The reduced cost of a variable.
pub fn reduced_cost(model: &ModelParts, list: &Multipliers, var: VarId) -> Option<i128>
    requires { All (λ w. w.0 < length model.now.rows) list.now.y }
    ensures { result ≡ reduced model.now list.now var }
{
    let rows = model.rows.as_slice();
    let mut cost = scaled_cost(model, list, var);
    for weight in list.entries() {
        cost = minus(&cost, &share_of(rows, var, weight));
    }
    cost
}
