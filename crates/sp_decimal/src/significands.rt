//! The digits of a numeral without the zeros around them, and their number.

ghost use Rattle.std.specs.Prelude.{◌≡◌, ℕ, ◌+◌, ◌*◌, ◌^◌, ◌≤◌, true, length};
ghost use Rattle.std.specs.List.{list_all};
ghost use Rattle.std.specs.Char.{is_ascii_digit};
ghost use Rattle.sp_decimal.specs.Grammar.{value_of};
ghost use Rattle.sp_decimal.specs.InnerSignificands.{number_of, IsFrontTrimmed, IsBackTrimmed, IsStripped};

/// The digits without the zeros that stand first.
fn without_leading_zeros(digits: &[u8]) -> &[u8]
    requires { list_all is_ascii_digit digits.now ≡ true }
    ensures { IsFrontTrimmed digits.now result.now }
{
    for i in 0..digits.len() {
        if digits[i] != b'0' {
            return &digits[i..];
        }
    }
    &[]
}

/// The digits without the zeros that stand last.
fn without_trailing_zeros(digits: &[u8]) -> &[u8]
    requires { list_all is_ascii_digit digits.now ≡ true }
    ensures { IsBackTrimmed digits.now result.now }
{
    let mut end = digits.len();
    while end > 0 {
        if digits[end - 1] != b'0' {
            return &digits[..end];
        }
        end -= 1;
    }
    &[]
}

/// Digits before and behind a full stop, without the zeros around them.
#[derive(Clone, Copy)]
pub(crate) struct Stripped<'a> {
    /// The digits before the full stop.
    pub(crate) head: &'a [u8],
    /// The digits behind it.
    pub(crate) tail: &'a [u8],
    /// How many zeros are taken away behind them.
    pub(crate) zeros: u128,
}

/// The digits without the zeros around them.
pub(crate) fn strip<'a>(whole: &'a [u8], fraction: &'a [u8]) -> Stripped<'a>
    requires whole { list_all is_ascii_digit whole.now ≡ true }
    requires fraction { list_all is_ascii_digit fraction.now ≡ true }
    ensures { IsStripped whole.now fraction.now result.head.now result.tail.now result.zeros }
{
    let head = without_leading_zeros(whole);
    let tail = without_trailing_zeros(fraction);
    if tail.is_empty() {
        let short = without_trailing_zeros(head);
        let zeros = fraction.len() as u128 + (head.len() - short.len()) as u128;
        return Stripped {
            head: short,
            tail,
            zeros,
        };
    }
    let zeros = (fraction.len() - tail.len()) as u128;
    if head.is_empty() {
        return Stripped {
            head,
            tail: without_leading_zeros(tail),
            zeros,
        };
    }
    Stripped { head, tail, zeros }
}

/// The number of the digits behind those of `value`.
fn append(value: u128, digits: &[u8]) -> u128
    requires digits { list_all is_ascii_digit digits.now ≡ true }
    requires fits { (value + 1) * 10 ^ length digits.now ≤ 10 ^ 38 }
    ensures { result ≡ value * 10 ^ length digits.now + value_of digits.now }
{
    let mut value = value;
    for digit in digits {
        value = 10 * value + u128::from(*digit - b'0');
    }
    value
}

/// The same in one word of the machine.
fn append_short(value: u64, digits: &[u8]) -> u64
    requires digits { list_all is_ascii_digit digits.now ≡ true }
    requires fits { (value + 1) * 10 ^ length digits.now ≤ 10 ^ 19 }
    ensures { result ≡ value * 10 ^ length digits.now + value_of digits.now }
{
    let mut value = value;
    for digit in digits {
        value = 10 * value + u64::from(*digit - b'0');
    }
    value
}

/// The number of the digits of both.
pub(crate) fn number(head: &[u8], tail: &[u8]) -> u128
    requires head { list_all is_ascii_digit head.now ≡ true }
    requires tail { list_all is_ascii_digit tail.now ≡ true }
    requires short { length head.now + length tail.now ≤ 38 }
    ensures { result ≡ number_of head.now tail.now }
{
    if head.len() + tail.len() <= 19 {
        u128::from(append_short(append_short(0, head), tail))
    } else {
        append(append(0, head), tail)
    }
}
