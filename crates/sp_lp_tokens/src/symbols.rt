//! The symbols of LP files.
ghost use Rattle.std.specs.Prelude.{◌≡◌, if◌then◌else◌};
ghost use Rattle.sp_lp_tokens.specs.InnerSymbolHeads.{begins_with, begins_with_arrow, less_symbol, equal_symbol, symbol_from};
ghost use Rattle.sp_lp_tokens.specs.Texts.{spelling};

/// A symbol of the format.
#[derive(Clone, Copy, PartialEq, Eq, Debug)]
pub enum Symbol {
    /// `+`
    Plus,
    /// `-`
    Minus,
    /// `:`
    Colon,
    /// `::`
    DoubleColon,
    /// `<`
    Less,
    /// `<=`
    LessEqual,
    /// `=<`
    EqualLess,
    /// `>`
    Greater,
    /// `>=`
    GreaterEqual,
    /// `=>`
    EqualGreater,
    /// `=`
    Equal,
    /// `->`
    Arrow,
    /// `<->`
    DoubleArrow,
    /// `[`
    LeftBracket,
    /// `]`
    RightBracket,
    /// `*`
    Star,
    /// `^`
    Caret,
    /// `/`
    Slash,
}

impl Symbol {
    /// The bytes that the symbol is written with, one to three.
    pub fn spelling(self) -> &'static [u8]
        ensures { result.now ≡ spelling self }
    {
        match self {
            Symbol::Plus => b"+",
            Symbol::Minus => b"-",
            Symbol::Colon => b":",
            Symbol::DoubleColon => b"::",
            Symbol::Less => b"<",
            Symbol::LessEqual => b"<=",
            Symbol::EqualLess => b"=<",
            Symbol::Greater => b">",
            Symbol::GreaterEqual => b">=",
            Symbol::EqualGreater => b"=>",
            Symbol::Equal => b"=",
            Symbol::Arrow => b"->",
            Symbol::DoubleArrow => b"<->",
            Symbol::LeftBracket => b"[",
            Symbol::RightBracket => b"]",
            Symbol::Star => b"*",
            Symbol::Caret => b"^",
            Symbol::Slash => b"/",
        }
    }
}

/// Whether the text begins with the byte.
fn begins_with(text: &[u8], byte: u8) -> bool
    ensures { result ≡ begins_with text.now byte }
{
    match text {
        [] => false,
        [first, ..] => *first == byte,
    }
}

/// Whether the text begins with a minus and a greater sign.
fn begins_with_arrow(text: &[u8]) -> bool
    ensures { result ≡ begins_with_arrow text.now }
{
    match text {
        [] => false,
        [first, rest @ ..] => *first == b'-' && begins_with(rest, b'>'),
    }
}

/// The longest symbol that the text behind a less sign makes of it.
fn less_symbol(rest: &[u8]) -> Symbol
    ensures { result ≡ less_symbol rest.now }
{
    if begins_with(rest, b'=') {
        Symbol::LessEqual
    } else if begins_with_arrow(rest) {
        Symbol::DoubleArrow
    } else {
        Symbol::Less
    }
}

/// The longest symbol that the text behind an equals sign makes of it.
fn equal_symbol(rest: &[u8]) -> Symbol
    ensures { result ≡ equal_symbol rest.now }
{
    if begins_with(rest, b'<') {
        Symbol::EqualLess
    } else if begins_with(rest, b'>') {
        Symbol::EqualGreater
    } else {
        Symbol::Equal
    }
}

/// The longer symbol where the text behind its first byte begins with its second one, else the shorter one.
fn longer_or(rest: &[u8], second: u8, longer: Symbol, shorter: Symbol) -> Symbol
    ensures { result ≡ (if begins_with rest.now second then longer else shorter) }
{
    if begins_with(rest, second) {
        longer
    } else {
        shorter
    }
}

/// The longest symbol that begins with the byte and goes on with the text behind it.
#[tactic(auto, unfolding(crate::specs::InnerSymbolHeads::symbol_from))]
pub(crate) fn symbol_from(first: u8, rest: &[u8]) -> Option<Symbol>
    ensures { result ≡ symbol_from first rest.now }
{
    match first {
        b'+' => Some(Symbol::Plus),
        b'-' => Some(longer_or(rest, b'>', Symbol::Arrow, Symbol::Minus)),
        b':' => Some(longer_or(rest, b':', Symbol::DoubleColon, Symbol::Colon)),
        b'<' => Some(less_symbol(rest)),
        b'=' => Some(equal_symbol(rest)),
        b'>' => Some(longer_or(rest, b'=', Symbol::GreaterEqual, Symbol::Greater)),
        b'[' => Some(Symbol::LeftBracket),
        b']' => Some(Symbol::RightBracket),
        b'*' => Some(Symbol::Star),
        b'^' => Some(Symbol::Caret),
        b'/' => Some(Symbol::Slash),
        _ => None,
    }
}
