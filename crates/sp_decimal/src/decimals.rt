//! Decimals: whole numbers with places behind a point.
ghost use Rattle.std.specs.Prelude.{◌≡◌};

use std::marker::Model;

/// The number `p / 10^s`, written with the fewest decimal places: `p` has at most thirty digits, `s` is at most 30,
/// and `p` ends in 0 only where `s` is 0. Zero is `p = 0` and `s = 0`.
#[derive(Clone, Copy, PartialEq, Eq, Debug)]
pub struct Decimal {
    /// The digits with the sign, as a whole number of magnitude below 10^30.
    pub p: i128,
    /// How many of the digits stand behind the point, from 0 to 30.
    pub s: u8,
}

impl Model for Decimal {
    ghost use Rattle.sp_decimal.specs.DecimalFraction.{DecimalFraction, IsDecimal};

    ghost Value = { DecimalFraction };

    ghost view = { λ d. record { p = d.p; s = d.s } };

    ghost invariant = { λ d. IsDecimal d.p d.s };

    ghost inverse = { λ v. record { p = v.p; s = v.s } };
}

impl Decimal {
    ghost use Rattle.sp_decimal.specs.DecimalFraction.{opposite};

    /// The decimal with the other sign, in as many places.
    pub fn negated(&self) -> Decimal
        ensures { result ≡ opposite self.now }
    {
        Decimal {
            p: -self.p,
            s: self.s,
        }
    }
}
