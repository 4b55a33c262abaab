//! A text, cut into the parts of a numeral.

ghost use Rattle.std.specs.Prelude.{◌≡◌, not, true, IfSome, is_some, option_map, nat_le, length, ◌++◌, List, ℕ};
ghost use Rattle.std.specs.List.{position_or_len, list_all};
ghost use Rattle.std.specs.Char.{is_ascii_digit};
ghost use Rattle.sp_decimal.specs.Grammar.{has_minus, unsigned, is_infinity, some_digits, is_plain_numeral};
ghost use Rattle.sp_decimal.specs.InnerParts.{IsDigitRun, BeginsWith, power_behind, IsCut};

/// Whether a minus stands first, and the text without the sign that it may begin with.
pub(crate) fn split_sign(text: &[u8]) -> (bool, &[u8])
    ensures negative { result.0 ≡ has_minus text.now }
    ensures rest { result.1.now ≡ unsigned text.now }
{
    match text {
        [b'-', rest @ ..] => (true, rest),
        [b'+', rest @ ..] => (false, rest),
        _ => (false, text),
    }
}

/// Whether the text is a word for a number without end.
pub(crate) fn is_endless(text: &[u8]) -> bool
    ensures { result ≡ is_infinity text.now }
{
    text.eq_ignore_ascii_case(b"inf") || text.eq_ignore_ascii_case(b"infinity")
}

/// How many digits stand first.
fn digit_count(text: &[u8]) -> usize
    ensures { result ≡ position_or_len (λ b. not (is_ascii_digit b)) text.now }
{
    for i in 0..text.len() {
        if !text[i].is_ascii_digit() {
            return i;
        }
    }
    text.len()
}

/// The digits that stand first, and the rest.
#[tactic(auto, using(crate::proofs::DigitRunLemmas::runs))]
fn split_digits(text: &[u8]) -> (&[u8], &[u8])
    ensures { IsDigitRun text.now result.0.now result.1.now }
{
    text.split_at(digit_count(text))
}

/// Whether the text is one digit or more.
#[tactic(auto, using(crate::proofs::DigitRunLemmas::runs))]
fn is_digits(text: &[u8]) -> bool
    ensures { result ≡ some_digits text.now }
{
    1 <= text.len() && digit_count(text) == text.len()
}

/// The mantissa that a text begins with, and what stands behind it.
#[derive(Clone, Copy)]
struct Mantissa<'a> {
    whole: &'a [u8],
    fraction: &'a [u8],
    rest: &'a [u8],
}

/// A numeral without its sign.
#[derive(Clone, Copy)]
pub(crate) struct Parts<'a> {
    /// The digits before the full stop.
    pub(crate) whole: &'a [u8],
    /// The digits behind the full stop.
    pub(crate) fraction: &'a [u8],
    /// What stands behind the exponent's letter: digits, with a sign or without, or nothing.
    pub(crate) exponent: &'a [u8],
}

/// The digits that stand first, with those behind a full stop that ends them.
fn split_mantissa(text: &[u8]) -> Mantissa<'_>
    ensures { BeginsWith text.now result.whole.now result.fraction.now result.rest.now }
{
    let (whole, rest) = split_digits(text);
    match rest {
        [b'.', behind @ ..] => {
            let (fraction, rest) = split_digits(behind);
            Mantissa {
                whole,
                fraction,
                rest,
            }
        }
        _ => Mantissa {
            whole,
            fraction: &[],
            rest,
        },
    }
}

/// Whether the text is an exponent: digits, with a sign or without.
fn is_exponent(text: &[u8]) -> bool
    ensures { result ≡ some_digits (unsigned text.now) }
{
    let (_, digits) = split_sign(text);
    is_digits(digits)
}

/// What stands behind an exponent's letter that begins the text, or nothing of an empty text.
fn power_of(text: &[u8]) -> Option<&[u8]>
    ensures { option_map (λ power. power.now) result ≡ power_behind text.now }
{
    match text {
        [] => Some(text),
        [b'e' | b'E', power @ ..] if is_exponent(power) => Some(power),
        _ => None,
    }
}

/// Whether there is no digit on either side of the full stop.
fn has_none(whole: &[u8], fraction: &[u8]) -> bool
    ensures { not result ≡ nat_le 1 (length (whole.now ++ fraction.now)) }
{
    whole.is_empty() && fraction.is_empty()
}

/// The parts of a plain numeral.
pub(crate) fn cut(text: &[u8]) -> Option<Parts<'_>>
    ensures plain { is_some result ≡ is_plain_numeral text.now }
    ensures parts { IfSome result (λ p. IsCut text.now p.whole.now p.fraction.now p.exponent.now) }
    ensures whole { IfSome result (λ p. list_all is_ascii_digit p.whole.now ≡ true) }
    ensures fraction { IfSome result (λ p. list_all is_ascii_digit p.fraction.now ≡ true) }
    ensures power { IfSome result (λ p. list_all is_ascii_digit (unsigned p.exponent.now) ≡ true) }
{
    let Mantissa {
        whole,
        fraction,
        rest,
    } = split_mantissa(text);
    if has_none(whole, fraction) {
        return None;
    }
    match power_of(rest) {
        Some(exponent) => Some(Parts {
            whole,
            fraction,
            exponent,
        }),
        None => None,
    }
}
