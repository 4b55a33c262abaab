//! Parts of a text by their place.
ghost use Rattle.std.specs.Prelude.{◌≡◌, ◌≤◌, length, drop};

/// The text from the place on.
pub(crate) fn text_from(text: &[u8], place: usize) -> &[u8]
    requires { place ≤ length text.now }
    ensures { result.now ≡ drop place text.now }
{
    &text[place..]
}
