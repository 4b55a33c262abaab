//! What stands between tokens: blanks, line feeds and comments.
ghost use Rattle.std.specs.Prelude.{◌≡◌, ℕ, suc, ◌≤◌, false, List, ◌∷◌, length, take, count_by, MatchOption};
ghost use Rattle.sp_lp_tokens.specs.Gaps.{is_feed, is_blank, gap_length};

/// What stands before a token.
#[derive(Clone, Copy)]
pub(crate) struct Gap {
    /// How many bytes it has.
    pub length: usize,
    /// How many of them are line feeds.
    pub feeds: usize,
}

/// Whether the byte is a space, a tab or a carriage return.
pub(crate) fn is_blank(byte: u8) -> bool
    ensures { result ≡ is_blank byte }
{
    matches!(byte, b' ' | b'\t' | b'\r')
}

/// Whether a comment goes on behind the byte, where it belongs to what stands before a token.
#[tactic(auto, unfolding(crate::specs::Gaps::gap_length))]
fn comment_behind(comment: bool, byte: u8) -> Option<bool>
    ensures { (rest : List ℕ) → MatchOption result
        (gap_length comment (byte ∷ rest) ≡ 0)
        (λ next. gap_length comment (byte ∷ rest) ≡ suc (gap_length next rest)) }
{
    if comment {
        return Some(byte != b'\n');
    }
    match byte {
        b' ' | b'\t' | b'\r' | b'\n' => Some(false),
        b'\\' => Some(true),
        _ => None,
    }
}

/// The blanks, line feeds and comments that the bytes begin with.
pub(crate) fn gap_before(bytes: &[u8]) -> Gap
    ensures length { result.length ≡ gap_length false bytes.now }
    ensures feeds { result.feeds ≡ count_by is_feed (take result.length bytes.now) }
    ensures within { result.length ≤ length bytes.now }
{
    let mut feeds = 0;
    let mut comment = false;
    for (length, byte) in bytes.iter().enumerate() {
        match comment_behind(comment, *byte) {
            Some(next) => comment = next,
            None => return Gap { length, feeds },
        }
        if *byte == b'\n' {
            feeds += 1;
        }
    }
    Gap {
        length: bytes.len(),
        feeds,
    }
}
