//! Laws of tokens: each is the contract of a function that does nothing.
ghost use Rattle.std.specs.Prelude.{◌≡◌, ℕ, ◌≤◌, false, List, length, take};
ghost use Rattle.sp_lp_tokens.specs.Gaps.{gap_length, IsGap};
ghost use Rattle.sp_lp_tokens.specs.declared.token_types.Token.{Token};
ghost use Rattle.sp_lp_tokens.specs.Tokens.{Ending, TokensFrom};

use sp_decimal::numerals_have_one_reading;

/// A file has at most one list of tokens, and it ends in one way.
pub fn tokens_are_unique()
    ensures { (source : List ℕ) (ts us : List Token) (a b : Ending) →
        TokensFrom source 0 0 ts a → TokensFrom source 0 0 us b → (ts ≡ us) × (a ≡ b) }
{}

/// Each file has a list of tokens, which ends in some way: complete or at a fault.
pub fn files_have_tokens()
    ensures { (source : List ℕ) → (ts : List Token) × (ending : Ending) × TokensFrom source 0 0 ts ending }
{
    numerals_have_one_reading();
}

/// What stands before a token is the longest front made of blanks, line feeds and pieces from a backslash to its line feed; at
/// the end of a file the last of these pieces need not have one.
pub fn gaps_are_longest()
    ensures gap { (bytes : List ℕ) → IsGap (take (gap_length false bytes) bytes) }
    ensures longest { (bytes : List ℕ) (k : ℕ) → k ≤ length bytes → IsGap (take k bytes) → k ≤ gap_length false bytes }
{}
