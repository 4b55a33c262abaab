//! Decimals and numerals with their signs.
ghost use Rattle.std.specs.Prelude.{◌≡◌};
ghost use Rattle.sp_lp_grammar.specs.Grammar.{turned, signed, signed_numeral};
ghost use Rattle.sp_lp_grammar.specs.InnerMachine.{later, ordered, is_whole, bit_of};
ghost use Rattle.sp_lp_grammar.specs.Meaning.{one, mirrored, sides_of, sides_between};

use sp_decimal::{Decimal, Numeral};
use sp_draft::{Sense, Sides};
use sp_lp_grammar::Sum;

/// The sign behind a further one.
pub(crate) fn turned(negative: bool, minus: bool) -> bool
    ensures { result ≡ turned negative minus }
{
    if minus { !negative } else { negative }
}

/// The number with the sign.
pub(crate) fn signed(negative: bool, number: &Decimal) -> Decimal
    ensures { result ≡ signed negative number.now }
{
    if negative { number.negated() } else { *number }
}

/// The number with the sign.
pub(crate) fn signed_numeral(negative: bool, number: &Numeral) -> Numeral
    ensures { result ≡ signed_numeral negative number.now }
{
    if negative { number.negated() } else { *number }
}

/// A coefficient that isn't written.
pub(crate) fn one() -> Decimal
    ensures { result ≡ one }
{
    Decimal { p: 1, s: 0 }
}

/// The sum of the items behind the first one.
pub(crate) fn later(sum: Sum) -> Sum
    ensures { result ≡ later sum }
{
    match sum {
        Sum::Cost => Sum::Cost,
        Sum::Lead => Sum::Row,
        Sum::Row => Sum::Row,
        Sum::Then => Sum::Then,
        Sum::Right => Sum::Right,
    }
}

/// The relation as it reads from the other side.
pub(crate) fn mirrored(sense: Sense) -> Sense
    ensures { result ≡ mirrored sense }
{
    match sense {
        Sense::Less => Sense::Greater,
        Sense::Greater => Sense::Less,
        Sense::Equal => Sense::Equal,
    }
}

/// Whether a sum may stand between the relations.
pub(crate) fn ordered(first: Sense, second: Sense) -> bool
    ensures { result ≡ ordered first second }
{
    match first {
        Sense::Less => matches!(second, Sense::Less),
        Sense::Greater => matches!(second, Sense::Greater),
        Sense::Equal => false,
    }
}

/// What a sum with this relation to the value is held to.
pub(crate) fn sides_of(sense: Sense, value: &Numeral) -> Sides
    ensures { result ≡ sides_of sense value.now }
{
    match sense {
        Sense::Less => Sides::Le(*value),
        Sense::Greater => Sides::Ge(*value),
        Sense::Equal => Sides::Eq(*value),
    }
}

/// What a sum between the values is held to.
pub(crate) fn sides_between(left: &Numeral, sense: Sense, right: &Numeral) -> Sides
    ensures { result ≡ sides_between left.now sense right.now }
{
    match sense {
        Sense::Less => Sides::Between(*left, *right),
        Sense::Greater => Sides::Between(*right, *left),
        Sense::Equal => Sides::Between(*left, *right),
    }
}

/// Whether the decimal is the number, 0 or 1.
fn is_whole(number: u8, value: &Decimal) -> bool
    ensures { result ≡ is_whole number value.now }
{
    value.p == i128::from(number) && value.s == 0
}

/// The value of a binary variable that the number is.
pub(crate) fn bit_of(number: &Numeral) -> Option<bool>
    ensures { result ≡ bit_of number.now }
{
    match number {
        Numeral::Exact(value) => {
            if is_whole(0, value) {
                Some(false)
            } else if is_whole(1, value) {
                Some(true)
            } else {
                None
            }
        }
        Numeral::Huge { .. } => None,
    }
}
