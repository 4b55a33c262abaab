//! Tests of the lengths of names, numbers and symbols.
use crate::lengths::{name_length, number_length, symbol_at};
use crate::symbols::Symbol;
use std::test::Fail;

/// Whether the longest name, number and symbol at the head of the text are these: two lengths in bytes and the symbol.
fn begins_so(text: &[u8], name: usize, number: usize, symbol: Option<Symbol>) -> bool {
    name_length(text) == name && number_length(text) == number && symbol_at(text) == symbol
}

#[test]
fn tells_the_longest_head(rt: HostRuntime) -> Result<(), Fail> {
    let heads: [(&[u8], usize, usize, Option<Symbol>); 47] = [
        (b"", 0, 0, None),
        (b" x", 0, 0, None),
        (b"\\ x", 0, 0, None),
        (b"x1 + y", 2, 0, None),
        (b"x.1:y", 3, 0, None),
        (b"e5<=2", 2, 0, None),
        (b"_a!\"#$%&'(),;?@`{}~^", 19, 0, None),
        (b"a|b", 1, 0, None),
        (b"Zz9\n", 3, 0, None),
        (b"2x", 0, 1, None),
        (b"2e", 0, 1, None),
        (b"2e+", 0, 1, None),
        (b"2e+x", 0, 1, None),
        (b"2E-07 ", 0, 5, None),
        (b"12.5e3x", 0, 6, None),
        (b"1.e5", 0, 4, None),
        (b"1.", 0, 2, None),
        (b"1..2", 0, 2, None),
        (b"1.5.2", 0, 3, None),
        (b".5", 0, 2, None),
        (b".5e1", 0, 4, None),
        (b".x", 0, 0, None),
        (b".", 0, 0, None),
        (b".e5", 0, 0, None),
        (b"1e5.0", 0, 3, None),
        (b"1e5e6", 0, 3, None),
        (b"1e+-5", 0, 1, None),
        (b"+5", 0, 0, Some(Symbol::Plus)),
        (b"-5", 0, 0, Some(Symbol::Minus)),
        (b"->", 0, 0, Some(Symbol::Arrow)),
        (b"--", 0, 0, Some(Symbol::Minus)),
        (b":x", 0, 0, Some(Symbol::Colon)),
        (b":::", 0, 0, Some(Symbol::DoubleColon)),
        (b"<", 0, 0, Some(Symbol::Less)),
        (b"<-", 0, 0, Some(Symbol::Less)),
        (b"<=>", 0, 0, Some(Symbol::LessEqual)),
        (b"<->", 0, 0, Some(Symbol::DoubleArrow)),
        (b"=-", 0, 0, Some(Symbol::Equal)),
        (b"=<", 0, 0, Some(Symbol::EqualLess)),
        (b"=>=", 0, 0, Some(Symbol::EqualGreater)),
        (b"> =", 0, 0, Some(Symbol::Greater)),
        (b">=", 0, 0, Some(Symbol::GreaterEqual)),
        (b"[x]", 0, 0, Some(Symbol::LeftBracket)),
        (b"]/2", 0, 0, Some(Symbol::RightBracket)),
        (b"*y", 0, 0, Some(Symbol::Star)),
        (b"^2", 0, 0, Some(Symbol::Caret)),
        (b"/ 2", 0, 0, Some(Symbol::Slash)),
    ];
    for (text, name, number, symbol) in heads {
        assert!(rt; begins_so(text, name, number, symbol));
    }
    Ok(())
}

#[test]
fn spells_its_symbols(rt: HostRuntime) -> Result<(), Fail> {
    assert_eq!(rt; Symbol::DoubleArrow.spelling(), b"<->".as_slice());
    Ok(())
}
