//! The places of a numeral, and the one behind each next byte.
ghost use Rattle.std.specs.Prelude.{◌≡◌};
ghost use Rattle.sp_lp_tokens.specs.InnerNumeralPlaces.{place_after, ends_numeral};
ghost use Rattle.sp_decimal.specs.Grammar.{is_exponent_letter, is_sign};

/// How far a numeral has been read.
#[derive(Clone, Copy, PartialEq, Eq, Debug)]
pub(crate) enum Place {
    /// Before the numeral.
    Start,
    /// Behind digits.
    Whole,
    /// Behind a full stop that no digit stands before.
    Point,
    /// Behind a full stop that stands behind a digit, or behind digits behind a full stop.
    Fraction,
    /// Behind the exponent's letter.
    Letter,
    /// Behind the exponent's sign.
    Sign,
    /// Behind digits of the exponent.
    Power,
}

/// Whether the byte begins an exponent.
fn is_exponent_letter(byte: u8) -> bool
    ensures { result ≡ is_exponent_letter byte }
{
    byte == b'E' || byte == b'e'
}

/// Whether the byte is a sign.
fn is_sign(byte: u8) -> bool
    ensures { result ≡ is_sign byte }
{
    byte == b'+' || byte == b'-'
}

impl Place {
    /// The place behind one more byte, or nothing where no numeral goes on with it.
    pub(crate) fn after(self, byte: u8) -> Option<Place>
        ensures { result ≡ place_after self byte }
    {
        let digit = byte.is_ascii_digit();
        match self {
            Place::Start if digit => Some(Place::Whole),
            Place::Start if byte == b'.' => Some(Place::Point),
            Place::Whole if digit => Some(Place::Whole),
            Place::Whole if byte == b'.' => Some(Place::Fraction),
            Place::Point | Place::Fraction if digit => Some(Place::Fraction),
            Place::Whole | Place::Fraction if is_exponent_letter(byte) => Some(Place::Letter),
            Place::Letter | Place::Sign | Place::Power if digit => Some(Place::Power),
            Place::Letter if is_sign(byte) => Some(Place::Sign),
            _ => None,
        }
    }

    /// Whether what stands before the place is a numeral.
    pub(crate) fn ends_numeral(self) -> bool
        ensures { result ≡ ends_numeral self }
    {
        matches!(self, Place::Whole | Place::Fraction | Place::Power)
    }
}
