//! Decimals as whole numbers: scaled by a power of ten, rounded down and rounded up.
ghost use Rattle.std.specs.Prelude.{◌≡◌, ◌-◌, ◌^◌, ◌<◌, ◌≤◌, pos, ◌*ℤ◌, unsigned_abs, SomeIff, FitsSigned};
ghost use Rattle.std.specs.Int.{w128};
ghost use Rattle.sp_decimal.specs.DecimalFraction.{most_places, huge_from};
ghost use Rattle.sp_decimal.specs.Rounding.{IsFloor, IsCeil, floor_of, ceil_of};

use crate::decimals::Decimal;

/// The powers of ten up to that with the exponent 30.
static POWERS: [u128; 31] = [
    1,
    10,
    100,
    1_000,
    10_000,
    100_000,
    1_000_000,
    10_000_000,
    100_000_000,
    1_000_000_000,
    10_000_000_000,
    100_000_000_000,
    1_000_000_000_000,
    10_000_000_000_000,
    100_000_000_000_000,
    1_000_000_000_000_000,
    10_000_000_000_000_000,
    100_000_000_000_000_000,
    1_000_000_000_000_000_000,
    10_000_000_000_000_000_000,
    100_000_000_000_000_000_000,
    1_000_000_000_000_000_000_000,
    10_000_000_000_000_000_000_000,
    100_000_000_000_000_000_000_000,
    1_000_000_000_000_000_000_000_000,
    10_000_000_000_000_000_000_000_000,
    100_000_000_000_000_000_000_000_000,
    1_000_000_000_000_000_000_000_000_000,
    10_000_000_000_000_000_000_000_000_000,
    100_000_000_000_000_000_000_000_000_000,
    1_000_000_000_000_000_000_000_000_000_000,
];

/// The decimal as a whole number of units of `10^-s`, at most thirty places and no fewer than it has. It is `None`
/// exactly where that number passes 128 bits with the sign.
pub fn scaled(d: &Decimal, s: u8) -> Option<i128>
    requires places { d.now.s ≤ s }
    requires most { s ≤ most_places }
    ensures { let units = d.now.p *ℤ pos (10 ^ (s - d.now.s)) in SomeIff result (FitsSigned w128 units) units }
{
    d.p.checked_mul(power_of_ten(s - d.s) as i128)
}

/// The greatest whole number that isn't above the decimal. Its magnitude is below 10^30.
pub fn floor(d: &Decimal) -> i128
    ensures greatest { IsFloor d.now result }
    ensures value { result ≡ floor_of d.now }
    ensures small { unsigned_abs result < huge_from }
{
    let unit = power_of_ten(d.s);
    let size = d.p.unsigned_abs();
    if d.p < 0 {
        -(size.div_ceil(unit) as i128)
    } else {
        (size / unit) as i128
    }
}

/// The least whole number that isn't below the decimal. Its magnitude is below 10^30.
pub fn ceil(d: &Decimal) -> i128
    ensures least { IsCeil d.now result }
    ensures value { result ≡ ceil_of d.now }
    ensures small { unsigned_abs result < huge_from }
{
    let unit = power_of_ten(d.s);
    let size = d.p.unsigned_abs();
    if d.p < 0 {
        -((size / unit) as i128)
    } else {
        size.div_ceil(unit) as i128
    }
}

/// Ten to this exponent.
pub(crate) fn power_of_ten(exponent: u8) -> u128
    requires { exponent ≤ most_places }
    ensures value { result ≡ 10 ^ exponent }
    ensures positive { 0 < result }
    ensures small { result ≤ huge_from }
{
    POWERS[usize::from(exponent)]
}
