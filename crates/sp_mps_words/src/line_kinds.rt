//! What a line is.
ghost use Rattle.std.specs.Prelude.{◌≡◌};
ghost use Rattle.sp_mps_words.specs.Lines.{kind_of_line, star_first, blank_first, is_ignored};

use sp_base::{is_blank, next_field};

/// What a line is.
#[derive(Clone, Copy, PartialEq, Eq, Debug)]
pub enum LineKind {
    /// A comment, which begins with a star, or a line of blanks alone.
    Ignored,
    /// The head of a section; no blank stands before it.
    Section,
    /// A line of data, which begins with a blank.
    Data,
}

fn is_star_first(line: &[u8]) -> bool
    ensures { result ≡ star_first line.now }
{
    match line {
        [] => false,
        [first, ..] => *first == b'*',
    }
}

fn is_blank_first(line: &[u8]) -> bool
    ensures { result ≡ blank_first line.now }
{
    match line {
        [] => false,
        [first, ..] => is_blank(*first),
    }
}

fn is_ignored(line: &[u8]) -> bool
    ensures { result ≡ is_ignored line.now }
{
    is_star_first(line) || next_field(line).is_none()
}

/// What the line is.
pub fn kind_of_line(line: &[u8]) -> LineKind
    ensures { result ≡ kind_of_line line.now }
{
    if is_ignored(line) {
        LineKind::Ignored
    } else if is_blank_first(line) {
        LineKind::Data
    } else {
        LineKind::Section
    }
}
