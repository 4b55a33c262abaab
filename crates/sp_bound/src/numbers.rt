//! Numbers that end where they pass 128 bits.

ghost use Rattle.std.specs.Prelude.{◌≡◌, ◌+ℤ◌, ◌-ℤ◌, ◌*ℤ◌};
ghost use Rattle.sp_bound.specs.Inner.{if_fits, least_value, minus, plus};
ghost use Rattle.sp_sums.specs.Extremes.{term_least};

/// The product.
pub fn times(left: &i128, right: &i128) -> Option<i128>
    ensures { result ≡ if_fits (left.now *ℤ right.now) }
{
    left.checked_mul(*right)
}

/// The difference.
pub fn less(left: &i128, right: &i128) -> Option<i128>
    ensures { result ≡ if_fits (left.now -ℤ right.now) }
{
    left.checked_sub(*right)
}

/// The sum.
pub fn added(left: &i128, right: &i128) -> Option<i128>
    ensures { result ≡ if_fits (left.now +ℤ right.now) }
{
    left.checked_add(*right)
}

/// A sum with one addend more.
pub fn plus(sum: &Option<i128>, addend: &Option<i128>) -> Option<i128>
    ensures { result ≡ plus sum.now addend.now }
{
    match sum {
        None => None,
        Some(sum) => match addend {
            None => None,
            Some(addend) => sum.checked_add(*addend),
        },
    }
}

/// A cost with one share less.
pub fn minus(cost: &Option<i128>, share: &Option<i128>) -> Option<i128>
    ensures { result ≡ minus cost.now share.now }
{
    match cost {
        None => None,
        Some(cost) => match share {
            None => None,
            Some(share) => cost.checked_sub(*share),
        },
    }
}

fn at_end(cost: &i128, range: &(i64, i64)) -> Option<i128>
    ensures { result ≡ if_fits (term_least cost.now range.now) }
{
    if 0 <= *cost {
        cost.checked_mul(i128::from(range.0))
    } else {
        cost.checked_mul(i128::from(range.1))
    }
}

/// The least value of a cost over a range.
pub fn least_value(cost: &Option<i128>, range: &(i64, i64)) -> Option<i128>
    ensures { result ≡ least_value cost.now range.now }
{
    match cost {
        None => None,
        Some(cost) => at_end(cost, range),
    }
}
