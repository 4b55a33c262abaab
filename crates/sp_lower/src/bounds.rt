//! The bounds of a variable as whole numbers.
ghost use Rattle.std.specs.Prelude.{◌≡◌, ◌<◌, ◌≤◌, ◌*◌, ◌^◌, IfSome, unsigned_abs, ◌≤ℤ◌, neg_ℤ, pos, int_le, ◌*ℤ◌, Some, true, false};
ghost use Rattle.std.specs.Int.{int_max, int_min};
ghost use Rattle.sp_decimal.specs.DecimalFraction.{huge_from};
ghost use Rattle.sp_lower.specs.Bounds.{is_endless_below, is_endless_above, rounded_up, rounded_down, whole_lower, whole_upper, kept_lower, kept_upper, least_of, greatest_of, is_continuous, is_below_zero, lacks_lower, is_near, has_far_bound};

use sp_decimal::{Decimal, Numeral, ceil, floor};
use sp_draft::{DraftVar, VarKind};

/// A bound of this magnitude or more, in its own direction, bounds nothing.
const ENDLESS: i128 = 100_000_000_000_000_000_000;

/// A number of this magnitude is huge.
const HUGE: i128 = 1_000_000_000_000_000_000_000_000_000_000;

/// The greatest magnitude of a whole bound.
const FARTHEST: u128 = 1_000_000_000_000_000;

/// Whether the decimal is at most the whole number.
fn is_at_most(d: &Decimal, limit: &i128) -> bool
    ensures { result ≡ int_le d.now.p (limit.now *ℤ pos (10 ^ d.now.s)) }
{
    ceil(d) <= *limit
}

/// Whether the decimal is at least the whole number.
fn is_at_least(d: &Decimal, limit: &i128) -> bool
    ensures { result ≡ int_le (limit.now *ℤ pos (10 ^ d.now.s)) d.now.p }
{
    *limit <= floor(d)
}

/// The least huge number with this sign.
fn huge(negative: bool) -> i128
    ensures value { result ≡ rounded_up (Numeral.Huge negative) }
    ensures small { unsigned_abs result ≤ huge_from }
{
    if negative { -HUGE } else { HUGE }
}

/// Whether the lower bound bounds nothing.
pub(crate) fn is_endless_below(bound: &Numeral) -> bool
    ensures { result ≡ is_endless_below bound.now }
{
    match bound {
        Numeral::Exact(d) => is_at_most(d, &-ENDLESS),
        Numeral::Huge { negative } => *negative,
    }
}

/// Whether the upper bound bounds nothing.
pub(crate) fn is_endless_above(bound: &Numeral) -> bool
    ensures { result ≡ is_endless_above bound.now }
{
    match bound {
        Numeral::Exact(d) => is_at_least(d, &ENDLESS),
        Numeral::Huge { negative } => !*negative,
    }
}

/// The least whole number that isn't below the bound.
fn rounded_up(bound: &Numeral) -> i128
    ensures value { result ≡ rounded_up bound.now }
    ensures small { unsigned_abs result ≤ huge_from }
{
    match bound {
        Numeral::Exact(d) => ceil(d),
        Numeral::Huge { negative } => huge(*negative),
    }
}

/// The greatest whole number that isn't above the bound.
fn rounded_down(bound: &Numeral) -> i128
    ensures value { result ≡ rounded_down bound.now }
    ensures small { unsigned_abs result ≤ huge_from }
{
    match bound {
        Numeral::Exact(d) => floor(d),
        Numeral::Huge { negative } => huge(*negative),
    }
}

/// The lower bound as a whole number, if one is left: 0 where none is stated.
fn whole_lower(bound: &Option<Numeral>) -> Option<i128>
    ensures { result ≡ whole_lower bound.now }
{
    match bound {
        None => Some(0),
        Some(bound) => {
            if is_endless_below(bound) {
                None
            } else {
                Some(rounded_up(bound))
            }
        }
    }
}

/// The upper bound as a whole number, if one is left.
fn whole_upper(bound: &Option<Numeral>) -> Option<i128>
    ensures { result ≡ whole_upper bound.now }
{
    match bound {
        None => None,
        Some(bound) => {
            if is_endless_above(bound) {
                None
            } else {
                Some(rounded_down(bound))
            }
        }
    }
}

/// Whether the bound, if there is one, has a magnitude of at most 10^15.
fn is_near(bound: &Option<i128>) -> bool
    ensures { result ≡ is_near bound.now }
{
    match bound {
        None => true,
        Some(bound) => bound.unsigned_abs() <= FARTHEST,
    }
}

/// Whether a whole bound has a magnitude above 10^15.
pub(crate) fn has_far_bound(var: &DraftVar) -> bool
    ensures { result ≡ has_far_bound var.now }
{
    let lower = whole_lower(&var.lower);
    let upper = whole_upper(&var.upper);
    !(is_near(&lower) && is_near(&upper))
}

/// Whether the kind isn't whole.
pub(crate) fn is_continuous(kind: VarKind) -> bool
    ensures { result ≡ is_continuous kind }
{
    match kind {
        VarKind::Continuous => true,
        VarKind::Integer => false,
        VarKind::Binary => false,
    }
}

/// Whether the number is below 0.
fn is_below_zero(bound: &Numeral) -> bool
    ensures { result ≡ is_below_zero bound.now }
{
    match bound {
        Numeral::Exact(d) => !is_at_least(d, &0),
        Numeral::Huge { negative } => *negative,
    }
}

/// Whether the upper bound is below 0 and no lower bound is stated.
pub(crate) fn lacks_lower(lower: &Option<Numeral>, upper: &Option<Numeral>) -> bool
    ensures { result ≡ lacks_lower lower.now upper.now }
{
    match lower {
        Some(_) => false,
        None => match upper {
            None => false,
            Some(bound) => is_below_zero(bound),
        },
    }
}

/// The bound in 64 bits, where its magnitude is known to be at most 10^15.
fn near(bound: &Option<i128>) -> Option<i64>
    requires { is_near bound.now ≡ true }
    ensures { result ≡ bound.now }
{
    match bound {
        None => None,
        Some(bound) => Some(*bound as i64),
    }
}

/// The least value that the kind leaves within the bound.
fn kept_lower(kind: VarKind, lower: &Option<i64>) -> Option<i64>
    ensures { result ≡ kept_lower kind lower.now }
{
    match kind {
        VarKind::Continuous => *lower,
        VarKind::Integer => *lower,
        VarKind::Binary => match lower {
            None => Some(0),
            Some(bound) => Some((*bound).max(0)),
        },
    }
}

/// The greatest value that the kind leaves within the bound.
fn kept_upper(kind: VarKind, upper: &Option<i64>) -> Option<i64>
    ensures { result ≡ kept_upper kind upper.now }
{
    match kind {
        VarKind::Continuous => *upper,
        VarKind::Integer => *upper,
        VarKind::Binary => match upper {
            None => Some(1),
            Some(bound) => Some((*bound).min(1)),
        },
    }
}

/// The least value of a variable, if there is one.
pub(crate) fn least_of(var: &DraftVar) -> Option<i64>
    requires { has_far_bound var.now ≡ false }
    ensures { result ≡ least_of var.now }
{
    kept_lower(var.kind, &near(&whole_lower(&var.lower)))
}

/// The greatest value of a variable, if there is one.
pub(crate) fn greatest_of(var: &DraftVar) -> Option<i64>
    requires { has_far_bound var.now ≡ false }
    ensures { result ≡ greatest_of var.now }
{
    kept_upper(var.kind, &near(&whole_upper(&var.upper)))
}
