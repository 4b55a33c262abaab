//! The fields of a line by their number.
ghost use Rattle.std.specs.Prelude.{◌≡◌, length, drop};
ghost use Rattle.sp_base.specs.Fields.{fields};
ghost use Rattle.sp_mps_words.specs.Words.{word_at};

use sp_base::next_field;

/// How many fields a line has, and the first five of them. A field that isn't there is empty. No line of the format
/// but NAME's has more.
#[derive(Clone, Copy, Debug)]
pub struct LineFields<'a> {
    /// How many fields the line has.
    pub count: usize,
    /// The first field.
    pub first: &'a [u8],
    /// The second field.
    pub second: &'a [u8],
    /// The third field.
    pub third: &'a [u8],
    /// The fourth field.
    pub fourth: &'a [u8],
    /// The fifth field.
    pub fifth: &'a [u8],
}

/// How many fields the line has.
fn field_count(line: &[u8]) -> usize
    ensures { result ≡ length (fields line.now) }
{
    let mut count = 0;
    let mut rest = line;
    'fields: while let Some((_, after)) = next_field(rest) {
        count += 1;
        rest = after;
    }
    count
}

/// The first field or the empty text, and the text of the other fields.
fn first_field(line: &[u8]) -> (&[u8], &[u8])
    ensures first { result.0.now ≡ word_at (fields line.now) 0 }
    ensures rest { fields result.1.now ≡ drop 1 (fields line.now) }
{
    match next_field(line) {
        Some(cut) => cut,
        None => (&[], line),
    }
}

/// The fields of the line. It takes no memory.
pub fn line_fields_of(line: &[u8]) -> LineFields<'_>
    ensures count { result.count ≡ length (fields line.now) }
    ensures first { result.first.now ≡ word_at (fields line.now) 0 }
    ensures second { result.second.now ≡ word_at (fields line.now) 1 }
    ensures third { result.third.now ≡ word_at (fields line.now) 2 }
    ensures fourth { result.fourth.now ≡ word_at (fields line.now) 3 }
    ensures fifth { result.fifth.now ≡ word_at (fields line.now) 4 }
{
    let count = field_count(line);
    let (first, rest) = first_field(line);
    let (second, rest) = first_field(rest);
    let (third, rest) = first_field(rest);
    let (fourth, rest) = first_field(rest);
    let (fifth, _) = first_field(rest);
    LineFields {
        count,
        first,
        second,
        third,
        fourth,
        fifth,
    }
}
