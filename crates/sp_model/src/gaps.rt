//! Gaps, and the cut that they give.

ghost use Rattle.std.specs.Prelude.{◌≡◌, ◌*◌, ◌/◌, ◌^◌, ◌<◌, ◌≤◌, ◌↔◌, ℤ, ℕ, min, ◌≤ℤ◌, unsigned_abs, IsTrue};
ghost use Rattle.sp_model.specs.Cuts.{least_of, ceiling, cut_by, cut_of, IsGap};

/// How far from the optimum a listed point may lie.
#[derive(Clone, Copy, Debug)]
pub enum Gap {
    /// As far as it likes.
    Unlimited,
    /// At most `p / 10^s`, with `p` below 10^12, `s` at most 12, and no 0 at the end of `p` unless `s` is 0.
    Of {
        /// The digits of the gap.
        p: u64,
        /// How many of them stand behind the point.
        s: u8,
    },
}

/// The two gaps of a list, which both have to hold.
#[derive(Clone, Copy, Debug)]
pub struct Gaps {
    /// The gap in units of the objective.
    pub abs: Gap,
    /// The gap as a multiple of the optimum's magnitude.
    pub rel: Gap,
}

/// No cut is above this number.
const CEILING: i128 = 1_000_000_000_000_000_000_000_000_000_000_000_000;

/// No gap reaches further than this: from the least number that an optimum may be to past the ceiling.
const FARTHEST: u128 = 2_000_000_000_000_000_000_000_000_000_000_000_000;

impl Gap {
    /// Whether the gap has at most twelve digits, at most twelve of them behind the point, and no 0 at the end there.
    pub fn is_lawful(&self) -> bool
        ensures { IsTrue result ↔ IsGap self.now }
    {
        match self {
            Gap::Unlimited => true,
            Gap::Of { p, s } => *p < 1_000_000_000_000 && *s <= 12 && (*s == 0 || *p % 10 != 0),
        }
    }
}

impl Gaps {
    /// The gaps under which exactly the optimal points are listed: an absolute gap of 0 and an unlimited relative one.
    pub fn only_optima() -> Gaps
        ensures abs { result.abs ≡ Gap.Of 0 0 }
        ensures rel { result.rel ≡ Gap.Unlimited }
        ensures cut { (best : ℤ) (scale : ℕ) → best ≤ℤ ceiling → cut_of best result scale ≡ best }
    {
        Gaps {
            abs: Gap::Of { p: 0, s: 0 },
            rel: Gap::Unlimited,
        }
    }
}

/// The greatest number that an objective may have for its point to be listed, where the optimum is `best`, in units of
/// `10^-scale`. It takes no memory.
pub fn cut(best: i128, gaps: &Gaps, scale: u8) -> i128
    requires near { unsigned_abs best ≤ 10 ^ 36 }
    requires abs { IsGap gaps.now.abs }
    requires rel { IsGap gaps.now.rel }
    requires scale { scale ≤ 30 }
    ensures { result ≡ cut_of best gaps.now scale }
{
    let unit = 10_u128.pow(u32::from(scale));
    let abs = part_of(&best, &gaps.abs, unit);
    let rel = part_of(&best, &gaps.rel, best.unsigned_abs());
    abs.min(rel)
}

/// The greatest whole number that isn't above `best` by more than the gap, nor above the ceiling.
fn part_of(best: &i128, gap: &Gap, base: u128) -> i128
    requires near { unsigned_abs best.now ≤ 10 ^ 36 }
    requires gap { IsGap gap.now }
    requires base { base ≤ 10 ^ 36 }
    ensures { result ≡ least_of (cut_by best.now gap.now base) ceiling }
{
    match gap {
        Gap::Unlimited => CEILING,
        Gap::Of { p, s } => {
            let digits = 10_u128.pow(u32::from(*s));
            let reach = quotient(u128::from(*p), base, digits);
            (*best + reach as i128).min(CEILING)
        }
    }
}

/// `p * base / divisor`, or the farthest reach where that is less. The base is divided first, so that nothing passes 128 bits.
fn quotient(p: u128, base: u128, divisor: u128) -> u128
    requires digits { p < 10 ^ 12 }
    requires positive { 0 < divisor }
    requires small { divisor ≤ 10 ^ 12 }
    ensures { result ≡ min (p * base / divisor) (2 * 10 ^ 36) }
{
    let rest = p * (base % divisor) / divisor;
    p.saturating_mul(base / divisor)
        .saturating_add(rest)
        .min(FARTHEST)
}

#[cfg(test)]
mod tests {
    use super::*;

    /// The ceiling.
    const TOP: i128 = 1_000_000_000_000_000_000_000_000_000_000_000_000;

    /// The greatest number of twelve digits.
    const MOST: u64 = 999_999_999_999;

    /// No gap.
    const FREE: Gap = Gap::Unlimited;

    /// No distance.
    const NONE: Gap = Gap::Of { p: 0, s: 0 };

    /// The greatest gap, with so many digits behind the point.
    const MOST_0: Gap = Gap::Of { p: MOST, s: 0 };

    const MOST_11: Gap = Gap::Of { p: MOST, s: 11 };

    const MOST_12: Gap = Gap::Of { p: MOST, s: 12 };

    /// An optimum, the two gaps, the scale, and the cut, computed with fractions by the definition in another language.
    const CASES: [(i128, Gap, Gap, u8, i128); 18] = [
        (0, NONE, FREE, 0, 0),
        (TOP, MOST_0, FREE, 30, TOP),
        (
            -TOP,
            MOST_0,
            FREE,
            0,
            -999_999_999_999_999_999_999_999_000_000_000_001,
        ),
        (-TOP, MOST_0, FREE, 30, TOP),
        (
            -TOP,
            MOST_12,
            FREE,
            30,
            -999_999_000_000_000_001_000_000_000_000_000_000,
        ),
        (
            -TOP,
            MOST_12,
            FREE,
            12,
            -999_999_999_999_999_999_999_999_000_000_000_001,
        ),
        (-TOP, MOST_12, FREE, 0, -TOP),
        (TOP - 10, Gap::Of { p: 5, s: 0 }, FREE, 0, TOP - 5),
        (-TOP, FREE, MOST_12, 0, -1_000_000_000_000_000_000_000_000),
        (-TOP, FREE, MOST_0, 0, TOP),
        (
            1 - TOP,
            FREE,
            MOST_12,
            30,
            -1_000_000_000_000_000_000_000_000,
        ),
        (TOP, FREE, Gap::Of { p: 1, s: 12 }, 0, TOP),
        (
            -TOP,
            MOST_11,
            Gap::Of {
                p: 999_999_999_997,
                s: 12,
            },
            30,
            -999_990_000_000_000_010_000_000_000_000_000_000,
        ),
        (-7, FREE, Gap::Of { p: 25, s: 2 }, 0, -6),
        (7, FREE, Gap::Of { p: 25, s: 2 }, 0, 8),
        (
            123_456_789,
            Gap::Of { p: 25, s: 1 },
            Gap::Of { p: 1, s: 6 },
            2,
            123_456_912,
        ),
        (-8, Gap::Of { p: 15, s: 1 }, Gap::Of { p: 2, s: 0 }, 0, -7),
        (-5, FREE, FREE, 0, TOP),
    ];

    /// The cut, or `None` where it isn't asked for by the rules.
    fn cut_at(best: i128, abs: Gap, rel: Gap, scale: u8) -> Option<i128> {
        if best.unsigned_abs() <= 1_000_000_000_000_000_000_000_000_000_000_000_000
            && scale <= 30
            && abs.is_lawful()
            && rel.is_lawful()
        {
            Some(cut(best, &Gaps { abs, rel }, scale))
        } else {
            None
        }
    }

    #[test]
    fn cuts(rt: HostRuntime) {
        for (best, abs, rel, scale, want) in CASES {
            assert_eq!(rt;
                cut_at(best, abs, rel, scale),
                Some(want),
                "{best} {abs:?} {rel:?} {scale}"
            );
        }
    }

    #[test]
    fn gaps_are_tested(rt: HostRuntime) {
        assert_eq!(rt;
            cut_at(
                0,
                Gap::Of {
                    p: 1_000_000_000_000,
                    s: 0
                },
                FREE,
                0
            ),
            None
        );
        assert_eq!(rt; cut_at(0, FREE, Gap::Of { p: 0, s: 13 }, 0), None);
        assert_eq!(rt; cut(-3, &Gaps::only_optima(), 0), -3);
    }
}
