//! Numbers with their printed texts, and decimals rounded and scaled.
use crate::decimals::Decimal;
use crate::printing::print;
use crate::rounding::{ceil, floor, scaled};

/// Ten to the power of thirty.
const UNIT: i128 = 1_000_000_000_000_000_000_000_000_000_000;

/// The greatest number that a decimal's digits may be.
const MOST: i128 = UNIT - 1;

/// The greatest number that ten to the power of nine takes to no more than 128 bits with the sign.
const FITS: i128 = 170_141_183_460_469_231_731_687_303_715;

/// A number, its decimal places, and its text.
const TEXTS: [(i128, u8, &str); 20] = [
    (0, 0, "0"),
    (0, 30, "0"),
    (5, 1, "0.5"),
    (-5, 1, "-0.5"),
    (50, 1, "5"),
    (1, 30, "0.000000000000000000000000000001"),
    (-1, 30, "-0.000000000000000000000000000001"),
    (UNIT, 30, "1"),
    (123450, 3, "123.45"),
    (1000, 0, "1000"),
    (1000, 2, "10"),
    (1005, 2, "10.05"),
    (-7, 0, "-7"),
    (-1050, 1, "-105"),
    (i128::MAX, 0, "170141183460469231731687303715884105727"),
    (i128::MAX, 1, "17014118346046923173168730371588410572.7"),
    (i128::MAX, 30, "170141183.460469231731687303715884105727"),
    (i128::MIN, 0, "-170141183460469231731687303715884105728"),
    (i128::MIN, 1, "-17014118346046923173168730371588410572.8"),
    (i128::MIN, 30, "-170141183.460469231731687303715884105728"),
];

/// A decimal, the greatest whole number not above it, and the least not below it.
const ROUNDED: [(i128, u8, i128, i128); 15] = [
    (0, 0, 0, 0),
    (5, 1, 0, 1),
    (-5, 1, -1, 0),
    (15, 1, 1, 2),
    (-15, 1, -2, -1),
    (123, 2, 1, 2),
    (7, 0, 7, 7),
    (-7, 0, -7, -7),
    (1000, 0, 1000, 1000),
    (1, 30, 0, 1),
    (-1, 30, -1, 0),
    (MOST, 30, 0, 1),
    (-MOST, 30, -1, 0),
    (MOST, 0, MOST, MOST),
    (-MOST, 0, -MOST, -MOST),
];

/// A decimal, a number of places, and the decimal in units of the last of them.
const SCALED: [(i128, u8, u8, Option<i128>); 13] = [
    (0, 0, 30, Some(0)),
    (5, 1, 1, Some(5)),
    (5, 1, 3, Some(500)),
    (-5, 1, 2, Some(-50)),
    (7, 0, 0, Some(7)),
    (1, 0, 30, Some(UNIT)),
    (MOST, 30, 30, Some(MOST)),
    (
        MOST,
        0,
        8,
        Some(99_999_999_999_999_999_999_999_999_999_900_000_000),
    ),
    (MOST, 0, 30, None),
    (FITS, 0, 9, Some(FITS * 1_000_000_000)),
    (FITS + 1, 0, 9, None),
    (-FITS, 0, 9, Some(FITS * -1_000_000_000)),
    (-FITS - 1, 0, 9, None),
];

/// The decimal `p / 10^s`, if that is one in its fewest places.
fn decimal(p: i128, s: u8) -> Option<Decimal> {
    let size = p.unsigned_abs();
    if size <= MOST as u128 && s <= 30 && (s == 0 || size % 10 != 0) {
        Some(Decimal { p, s })
    } else {
        None
    }
}

/// What `scaled` makes of `p / 10^s`, if its conditions hold.
fn scaled_to(p: i128, s: u8, to: u8) -> Option<Option<i128>> {
    match decimal(p, s) {
        Some(d) if d.s <= to && to <= 30 => Some(scaled(&d, to)),
        _ => None,
    }
}

#[test]
fn numbers_are_printed(rt: HostRuntime) {
    for (z, s, text) in TEXTS {
        assert!(rt;
            s <= 30 && print(z, s).as_bytes() == text.as_bytes(),
            "{text}"
        );
    }
}

#[test]
fn decimals_are_rounded(rt: HostRuntime) {
    for (p, s, below, above) in ROUNDED {
        let d = decimal(p, s).expect(&rt, "a decimal");
        assert!(rt; floor(&d) == below && ceil(&d) == above, "{p} / 10^{s}");
    }
}

#[test]
fn decimals_are_scaled(rt: HostRuntime) {
    for (p, s, to, units) in SCALED {
        assert!(rt; scaled_to(p, s, to) == Some(units), "{p} / 10^{s} to {to}");
    }
}
