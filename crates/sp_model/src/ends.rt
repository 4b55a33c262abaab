//! A row's terms at the ends of their variables' ranges, and their sums, of which none passes 128 bits.

ghost use Rattle.std.specs.Prelude.{◌≡◌, ◌<◌, ◌≤◌, ◌*ℤ◌, length};
ghost use Rattle.sp_model.specs.Limits.{greatest_width};
ghost use Rattle.sp_model.specs.Rounds.{least_end, greatest_end, if_small, times, plus, minus};
ghost use Rattle.sp_model.specs.Stated.{open_at};
ghost use Rattle.sp_model.specs.Sums.{side_width};

use crate::ids::VarId;
use crate::limits::GREATEST_WIDTH;

/// The lower and the upper bound of a variable; `None` where one is missing.
pub type OpenRange = (Option<i64>, Option<i64>);

/// A number at its least and at its greatest; `None` where a bound is missing or a number isn't small.
#[derive(Clone, Copy)]
pub struct Ends {
    /// At its least.
    pub least: Option<i128>,
    /// At its greatest.
    pub greatest: Option<i128>,
}

/// The number, where its magnitude is at most the greatest width.
fn if_small(value: &i128) -> Option<i128>
    ensures value { result ≡ if_small value.now }
    ensures small { side_width result ≤ greatest_width }
{
    if value.unsigned_abs() <= GREATEST_WIDTH {
        Some(*value)
    } else {
        None
    }
}

/// A coefficient times a bound.
fn times(coefficient: &i128, bound: &Option<i64>) -> Option<i128>
    ensures value { result ≡ times coefficient.now bound.now }
    ensures small { side_width result ≤ greatest_width }
{
    match bound {
        None => None,
        Some(bound) => product(coefficient, bound),
    }
}

/// The product, where its magnitude is at most the greatest width.
fn product(coefficient: &i128, bound: &i64) -> Option<i128>
    ensures value { result ≡ if_small (coefficient.now *ℤ bound.now) }
    ensures small { side_width result ≤ greatest_width }
{
    match coefficient.checked_mul(i128::from(*bound)) {
        None => None,
        Some(product) => if_small(&product),
    }
}

/// A sum so far and the next addend.
pub fn plus(sum: &Option<i128>, addend: &Option<i128>) -> Option<i128>
    requires sum { side_width sum.now ≤ greatest_width }
    requires addend { side_width addend.now ≤ greatest_width }
    ensures value { result ≡ plus sum.now addend.now }
    ensures small { side_width result ≤ greatest_width }
{
    match (sum, addend) {
        (Some(sum), Some(addend)) => if_small(&(*sum + *addend)),
        _ => None,
    }
}

/// A side without a sum.
pub fn minus(side: &Option<i128>, sum: &Option<i128>) -> Option<i128>
    requires side { side_width side.now ≤ greatest_width }
    requires sum { side_width sum.now ≤ greatest_width }
    ensures value { result ≡ minus side.now sum.now }
    ensures small { side_width result ≤ greatest_width }
{
    match (side, sum) {
        (Some(side), Some(sum)) => if_small(&(*side - *sum)),
        _ => None,
    }
}

/// The bound at which a term is least.
fn least_end(coefficient: &i128, range: &OpenRange) -> Option<i64>
    ensures { result ≡ least_end coefficient.now range.now }
{
    if 0 < *coefficient { range.0 } else { range.1 }
}

/// The bound at which a term is greatest.
fn greatest_end(coefficient: &i128, range: &OpenRange) -> Option<i64>
    ensures { result ≡ greatest_end coefficient.now range.now }
{
    if 0 < *coefficient { range.1 } else { range.0 }
}

/// A term at its ends.
pub fn ends_of(bounds: &[OpenRange], term: &(VarId, i128)) -> Ends
    requires { term.now.0 < length bounds.now }
    ensures least { result.least ≡ times term.now.1 (least_end term.now.1 (open_at bounds.now term.now.0)) }
    ensures greatest { result.greatest ≡ times term.now.1 (greatest_end term.now.1 (open_at bounds.now term.now.0)) }
    ensures least_small { side_width result.least ≤ greatest_width }
    ensures greatest_small { side_width result.greatest ≤ greatest_width }
{
    let range = &bounds[term.0.index()];
    Ends {
        least: times(&term.1, &least_end(&term.1, range)),
        greatest: times(&term.1, &greatest_end(&term.1, range)),
    }
}
