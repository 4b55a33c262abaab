//! What a token is to the grammar.
ghost use Rattle.std.specs.Prelude.{◌≡◌};
ghost use Rattle.sp_lp_words.specs.Classes.{symbol_class};

use crate::sections::Part;
use sp_decimal::Numeral;
use sp_draft::Sense;
use sp_lp_tokens::Symbol;

/// What a token is to the grammar. The case of letters is of no account.
#[derive(Clone, Copy, PartialEq, Eq, Debug)]
pub enum Class {
    /// A name, and what it may be of a section word.
    Name(Option<Part>),
    /// A number without sign, or a word for infinity.
    Number(Numeral),
    /// `+`, or `-` (`true`).
    Sign(bool),
    /// At most, at least or equal.
    Relation(Sense),
    /// `:`
    Colon,
    /// `::`
    DoubleColon,
    /// `->`
    Arrow,
    /// Any other symbol.
    Other,
}

/// What the symbol is.
pub(crate) fn symbol_class(symbol: Symbol) -> Class
    ensures { result ≡ symbol_class symbol }
{
    match symbol {
        Symbol::Plus => Class::Sign(false),
        Symbol::Minus => Class::Sign(true),
        Symbol::Colon => Class::Colon,
        Symbol::DoubleColon => Class::DoubleColon,
        Symbol::Less => Class::Relation(Sense::Less),
        Symbol::LessEqual => Class::Relation(Sense::Less),
        Symbol::EqualLess => Class::Relation(Sense::Less),
        Symbol::Greater => Class::Relation(Sense::Greater),
        Symbol::GreaterEqual => Class::Relation(Sense::Greater),
        Symbol::EqualGreater => Class::Relation(Sense::Greater),
        Symbol::Equal => Class::Relation(Sense::Equal),
        Symbol::Arrow => Class::Arrow,
        _ => Class::Other,
    }
}
