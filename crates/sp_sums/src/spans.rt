//! The least and the greatest sum of a row, and how they change.

ghost use Rattle.std.specs.Prelude.{◌≡◌, ◌||◌, ◌*◌, ◌^◌, ◌≤◌, not, ◌+ℤ◌, ◌-ℤ◌, ◌*ℤ◌, unsigned_abs};
ghost use Rattle.sp_sums.specs.Extremes.{term_least, term_most, is_low, is_high, is_broken};
ghost use Rattle.sp_sums.specs.Inner.{moved, with_term, IsTermSmall, IsSpanSmall};

use sp_model::{Row, is_at_least, is_at_most};

/// The least and the greatest sum of a row over a box.
#[derive(Clone, Copy, PartialEq, Eq, Debug)]
pub struct Span {
    /// The least sum.
    pub least: i128,
    /// The greatest sum.
    pub most: i128,
}

fn product(coefficient: &i128, value: &i64) -> i128
    requires { unsigned_abs (coefficient.now *ℤ value.now) ≤ 10 ^ 36 }
    ensures { result ≡ coefficient.now *ℤ value.now }
{
    *coefficient * i128::from(*value)
}

/// The least value of a term over a range.
pub fn term_least(coefficient: &i128, range: &(i64, i64)) -> i128
    requires { IsTermSmall coefficient.now range.now }
    ensures exact { result ≡ term_least coefficient.now range.now }
    ensures small { unsigned_abs result ≤ 10 ^ 36 }
{
    if *coefficient >= 0 {
        product(coefficient, &range.0)
    } else {
        product(coefficient, &range.1)
    }
}

/// The greatest value of a term over a range.
pub fn term_most(coefficient: &i128, range: &(i64, i64)) -> i128
    requires { IsTermSmall coefficient.now range.now }
    ensures exact { result ≡ term_most coefficient.now range.now }
    ensures small { unsigned_abs result ≤ 10 ^ 36 }
{
    if *coefficient >= 0 {
        product(coefficient, &range.1)
    } else {
        product(coefficient, &range.0)
    }
}

/// The sum after one of its values went from one to another.
fn raised(sum: &i128, coefficient: &i128, from: &i64, to: &i64) -> i128
    requires sum { unsigned_abs sum.now ≤ 3 * 10 ^ 36 }
    requires from { unsigned_abs (coefficient.now *ℤ from.now) ≤ 10 ^ 36 }
    requires to { unsigned_abs (coefficient.now *ℤ to.now) ≤ 10 ^ 36 }
    ensures { result ≡ sum.now +ℤ ((coefficient.now *ℤ to.now) -ℤ (coefficient.now *ℤ from.now)) }
{
    if *to == *from {
        return *sum;
    }
    let change = difference(from, to);
    let part = scaled(coefficient, &change);
    increased(sum, &part)
}

fn difference(from: &i64, to: &i64) -> i128
    ensures { result ≡ to.now -ℤ from.now }
{
    i128::from(*to) - i128::from(*from)
}

fn scaled(coefficient: &i128, change: &i128) -> i128
    requires { unsigned_abs (coefficient.now *ℤ change.now) ≤ 2 * 10 ^ 36 }
    ensures { result ≡ coefficient.now *ℤ change.now }
{
    *coefficient * *change
}

/// The sum with one part more.
fn increased(sum: &i128, plus: &i128) -> i128
    requires sum { unsigned_abs sum.now ≤ 3 * 10 ^ 36 }
    requires plus { unsigned_abs plus.now ≤ 2 * 10 ^ 36 }
    ensures { result ≡ sum.now +ℤ plus.now }
{
    *sum + *plus
}

/// The span with one term more.
pub fn with_term(span: &Span, coefficient: &i128, range: &(i64, i64)) -> Span
    requires small { IsSpanSmall span.now }
    requires term { IsTermSmall coefficient.now range.now }
    ensures { result ≡ with_term span.now coefficient.now range.now }
{
    let least = increased(&span.least, &term_least(coefficient, range));
    let most = increased(&span.most, &term_most(coefficient, range));
    Span { least, most }
}

/// The span after the range of one of the row's coefficients changed.
pub fn moved(span: &Span, coefficient: &i128, from: &(i64, i64), to: &(i64, i64)) -> Span
    requires small { IsSpanSmall span.now }
    requires from { IsTermSmall coefficient.now from.now }
    requires to { IsTermSmall coefficient.now to.now }
    ensures { result ≡ moved span.now coefficient.now from.now to.now }
{
    if *coefficient >= 0 {
        let least = raised(&span.least, coefficient, &from.0, &to.0);
        let most = raised(&span.most, coefficient, &from.1, &to.1);
        Span { least, most }
    } else {
        let least = raised(&span.least, coefficient, &from.1, &to.1);
        let most = raised(&span.most, coefficient, &from.0, &to.0);
        Span { least, most }
    }
}

/// Whether the greatest sum is below the row's least side.
pub fn is_low(row: &Row, span: &Span) -> bool
    ensures { result ≡ is_low row.now span.now }
{
    !is_at_least(&row.lo, &span.most)
}

/// Whether the least sum is above the row's greatest side.
pub fn is_high(row: &Row, span: &Span) -> bool
    ensures { result ≡ is_high row.now span.now }
{
    !is_at_most(&row.hi, &span.least)
}

/// Whether the row can't hold between these sums.
pub fn is_broken(row: &Row, span: &Span) -> bool
    ensures { result ≡ is_broken row.now span.now }
{
    is_low(row, span) || is_high(row, span)
}
