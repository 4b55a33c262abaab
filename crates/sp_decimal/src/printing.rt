//! The texts of numbers with decimal places.
ghost use Rattle.std.specs.Prelude.{◌≡◌, ◌+◌, ◌-◌, ◌<◌, ◌≤◌, ◌^◌, if◌then◌else◌, [], ◌∷◌, ◌++◌, length, take, List, ℕ, ◌==◌, unsigned_abs};
ghost use Rattle.std.specs.Fmt.{sign_text};
ghost use Rattle.std.specs.Int.{is_negative};
ghost use Rattle.sp_decimal.specs.DecimalFraction.{most_places};
ghost use Rattle.sp_decimal.specs.Numerals.{numeral, fraction_numeral};
ghost use Rattle.sp_decimal.specs.Printing.{longest_text, printed, printed_size, without_zeros, HasValue, HaveOneValue, IsNormalForm};

use itoa::Buffer;
use std::marker::Model;

/// The longest text: a minus, the thirty-nine digits of a number of 128 bits, and a point.
const LONGEST: usize = 41;

/// As many zeros as there may be places.
const ZEROS: [u8; 30] = [b'0'; 30];

/// The text of a number.
#[derive(Drop)]
pub struct Printed {
    bytes: [u8; LONGEST],
    len: usize,
}

impl Model for Printed {
    ghost use Rattle.std.specs.Prelude.{ℕ, ◌≤◌, List, take};
    ghost use Rattle.sp_decimal.specs.Printing.{longest_text};

    ghost Value = { List ℕ };

    ghost view = { λ text. take text.len text.bytes };

    ghost invariant = { λ text. text.len ≤ longest_text };
}

impl Printed {
    /// The bytes of the text, at most 41.
    pub fn as_bytes(&self) -> &[u8]
        ensures value { result.now ≡ self.now }
        ensures short { length result.now ≤ longest_text }
    {
        let (text, _) = self.bytes.split_at(self.len);
        text
    }

    /// A text without a byte.
    fn new() -> Printed
        ensures { result ≡ [] }
    {
        Printed {
            bytes: [0; LONGEST],
            len: 0,
        }
    }

    /// Adds the piece at the end.
    fn put(&mut self, piece: &[u8])
        requires { length self.old + length piece.now ≤ longest_text }
        ensures { self.new ≡ self.old ++ piece.now }
    {
        let end = self.len + piece.len();
        self.bytes[self.len..end].copy_from_slice(piece);
        self.len = end;
    }
}

/// The text of `z / 10^s`, with `s` at most 30: a minus before a negative number alone, the whole part without a zero in
/// front but the one that stands alone, and, where the number isn't whole, a point and the digits up to the last that
/// isn't 0. It takes no memory.
pub fn print(z: i128, s: u8) -> Printed
    requires { s ≤ most_places }
    ensures exact { result ≡ printed z s }
    ensures normal { IsNormalForm result }
    ensures value { HasValue result z s }
    ensures reads { numeral result ≡ fraction_numeral (is_negative z) (unsigned_abs z) (10 ^ s) }
{
    print_size(sign_of(&z), z.unsigned_abs(), s)
}

/// A value has one text in the form in which numbers are printed: two texts in it that are by the grammar one number with
/// one sign are one text.
pub fn values_have_one_text()
    ensures { (a b : List ℕ) → IsNormalForm a → IsNormalForm b → HaveOneValue a b → a ≡ b }
{}

/// A minus for a negative number, and nothing for any other.
fn sign_of(z: &i128) -> &'static [u8]
    ensures { result.now ≡ sign_text (is_negative z.now) }
{
    if *z < 0 { b"-" } else { b"" }
}

/// The text of `n / 10^s` behind the sign.
fn print_size(sign: &[u8], n: u128, s: u8) -> Printed
    requires sign { length sign.now ≤ 1 }
    requires places { s ≤ most_places }
    ensures { result ≡ sign.now ++ printed_size n s }
{
    let mut buffer = Buffer::new();
    let digits = buffer.format(n).as_bytes();
    let places = usize::from(s);
    if digits.len() > places {
        let (whole, behind) = digits.split_at(digits.len() - places);
        joined(sign, whole, b"", trimmed(behind))
    } else {
        let (zeros, _) = ZEROS.split_at(places - digits.len());
        joined(sign, b"0", zeros, trimmed(digits))
    }
}

/// The digits up to the last that isn't 0.
fn trimmed(digits: &[u8]) -> &[u8]
    ensures value { result.now ≡ without_zeros digits.now }
    ensures short { length result.now ≤ length digits.now }
{
    let mut end = digits.len();
    while end > 0 && digits[end - 1] == b'0' {
        end -= 1;
    }
    let (kept, _) = digits.split_at(end);
    kept
}

/// The sign and the whole part, and behind a point the zeros and the rest, where there is a rest.
fn joined(sign: &[u8], whole: &[u8], zeros: &[u8], rest: &[u8]) -> Printed
    requires { length sign.now + length whole.now + length zeros.now + length rest.now ≤ 40 }
    ensures { result ≡ sign.now ++ whole.now ++ (if length rest.now == 0 then [] else 46 ∷ zeros.now ++ rest.now) }
{
    let mut text = Printed::new();
    text.put(sign);
    text.put(whole);
    if !rest.is_empty() {
        text.put(b".");
        text.put(zeros);
        text.put(rest);
    }
    text
}
