//! Tests of the tokens of whole files.
ghost use Rattle.std.specs.Prelude.{All};
ghost use Rattle.sp_lp_tokens.specs.Tokens.{IsSpan};

use crate::reading::tokens;
use crate::token_types::{Token, TokenKind, TokenKindFault, TokenRefusal};
use sp_decimal::Numeral;
use std::alloc::{AllocError, Global};
use std::test::Fail;

/// Puts the bytes at the end of the text, each as a character.
fn put(out: &mut String, bytes: &[u8]) -> Result<(), AllocError> {
    for byte in bytes {
        out.push(char::from(*byte))?;
    }
    Ok(())
}

/// A token as a letter for its kind, its text, its value if it is a number, and its line.
fn show(alloc: Global, source: &[u8], token: &Token) -> Result<String, AllocError>
    requires { IsSpan source.now token.now }
{
    let mut out = String::new(alloc);
    out.push_str(match token.kind {
        TokenKind::Name => "n",
        TokenKind::Number(_) => "#",
        TokenKind::Symbol(_) => "$",
    })?;
    if let TokenKind::Symbol(symbol) = token.kind {
        put(&mut out, symbol.spelling())?;
    } else {
        put(&mut out, token.text(source))?;
    }
    match token.kind {
        TokenKind::Number(Numeral::Exact(d)) => {
            let value = format!(in alloc; "={}/{}", d.p, d.s)?;
            out.push_str(value.as_str())?;
        }
        TokenKind::Number(Numeral::Huge { .. }) => out.push_str("=huge")?,
        _ => {}
    }
    let line = format!(in alloc; "@{}", token.line)?;
    out.push_str(line.as_str())?;
    Ok(out)
}

/// Some tokens, parted by blanks.
fn show_all(alloc: Global, source: &[u8], tokens: &[Token]) -> Result<String, AllocError>
    requires { All (IsSpan source.now) tokens.now }
{
    let mut out = String::new(alloc);
    for token in tokens {
        if !out.is_empty() {
            out.push_str(" ")?;
        }
        let shown = show(alloc, source, token)?;
        out.push_str(shown.as_str())?;
    }
    Ok(out)
}

/// The tokens of a file, or its fault with its line.
fn shown(alloc: Global, source: &[u8]) -> Result<String, AllocError> {
    if source.len() > 1 << 26 {
        return Err(AllocError);
    }
    match tokens(alloc, source) {
        Ok(found) => show_all(alloc, source, found.as_slice()),
        Err(TokenRefusal::Fault { line, kind }) => format!(in alloc; "{kind:?} {line}"),
        Err(TokenRefusal::NoMemory) => Err(AllocError),
    }
}

/// Files, and what they are cut into.
static FILES: [(&[u8], &str); 78] = [
    (b"", ""),
    (b" \t\r\n", ""),
    (b"\\ only a comment", ""),
    (b"x", "nx@1"),
    (b"x\n", "nx@1"),
    (b"\n\nx", "nx@3"),
    (b"2x1", "#2=2/0@1 nx1@1"),
    (b"1e5x", "#1e5=100000/0@1 nx@1"),
    (b"2e", "#2=2/0@1 ne@1"),
    (b"2e+3", "#2e+3=2000/0@1"),
    (b"2e+", "#2=2/0@1 ne@1 $+@1"),
    (b"1.e5", "#1.e5=100000/0@1"),
    (b".5", "#.5=5/1@1"),
    (b"1.", "#1.=1/0@1"),
    (b"1..2", "#1.=1/0@1 #.2=2/1@1"),
    (b"1.5.2", "#1.5=15/1@1 #.2=2/1@1"),
    (b"0.50", "#0.50=5/1@1"),
    (b"1e75", "#1e75=huge@1"),
    (b"1e-31", "Wide 1"),
    (b".x", "BadByte 1"),
    (b"x.", "nx.@1"),
    (b".", "BadByte 1"),
    (b"x.1e5", "nx.1e5@1"),
    (b"inf", "ninf@1"),
    (b"x1_!\"#$%&(),;?@'`{}~", "nx1_!\"#$%&(),;?@'`{}~@1"),
    (b"<=>", "$<=@1 $>@1"),
    (b"=<>", "$=<@1 $>@1"),
    (b"<->", "$<->@1"),
    (b"<-", "$<@1 $-@1"),
    (b"<--", "$<@1 $-@1 $-@1"),
    (b"<->>", "$<->@1 $>@1"),
    (b"->", "$->@1"),
    (b"-->", "$-@1 $->@1"),
    (b"=->", "$=@1 $->@1"),
    (b"=>=", "$=>@1 $=@1"),
    (b">=<", "$>=@1 $<@1"),
    (b">==", "$>=@1 $=@1"),
    (b"==<", "$=@1 $=<@1"),
    (b"<<=", "$<@1 $<=@1"),
    (b"<==", "$<=@1 $=@1"),
    (b"=<->", "$=<@1 $->@1"),
    (b">->", "$>@1 $->@1"),
    (b":::", "$::@1 $:@1"),
    (b"::::", "$::@1 $::@1"),
    (
        b"[x]*y^2/2",
        "$[@1 nx@1 $]@1 $*@1 ny@1 $^@1 #2=2/0@1 $/@1 #2=2/0@1",
    ),
    (
        b"<> >> << :< := :> :- -< -= -: =: >: <: == ",
        "$<@1 $>@1 $>@1 $>@1 $<@1 $<@1 $:@1 $<@1 $:@1 $=@1 $:@1 $>@1 $:@1 $-@1 $-@1 $<@1 $-@1 $=@1 $-@1 $:@1 $=@1 $:@1 $>@1 $:@1 $<@1 $:@1 $=@1 $=@1",
    ),
    (b"+-+", "$+@1 $-@1 $+@1"),
    (b"x<=3", "nx@1 $<=@1 #3=3/0@1"),
    (b"c1:x", "nc1@1 $:@1 nx@1"),
    (b"< =", "$<@1 $=@1"),
    (b"<\\\n=", "$<@1 $=@2"),
    (b"end", "nend@1"),
    (b"End\nx |", "nEnd@1"),
    (b"END\xff\x00", "nEND@1"),
    (b"x end |", "BadByte 1"),
    (b"x\nend y |\n|", "nx@1 nend@2"),
    (b"end: x\n", "nend@1 $:@1 nx@1"),
    (b"END:\n|", "BadByte 2"),
    (b"end :: x", "nend@1 $::@1 nx@1"),
    (b"end \t\r: x", "nend@1 $:@1 nx@1"),
    (b"end\n: x", "nend@1"),
    (b"end \\ :\n: |", "nend@1"),
    (b"\\end\nx", "nx@2"),
    (b"ends\nx", "nends@1 nx@2"),
    (b"2 end\n|", "BadByte 2"),
    (b"x\n end\n|", "nx@1 nend@2"),
    (b"\\ \xff|\n  eNd", "neNd@2"),
    (b"end end", "nend@1"),
    (b"end:end\nend|", "nend@1 $:@1 nend@1 nend@2"),
    (b"x\r\ny", "nx@1 ny@2"),
    (b"x \\ a | comment \\ \xf0\ny", "nx@1 ny@2"),
    (b"\\\n\\\n\n|", "BadByte 4"),
    (b"x\n\\ c\n 1e-99", "Wide 3"),
    (b"x|", "BadByte 1"),
    (b"x \x0b", "BadByte 1"),
    (b"\xc3\xa9", "BadByte 1"),
    (b"1|", "BadByte 1"),
    (b"999999999999999999999999999999.9", "Wide 1"),
];

#[test]
fn cuts_files(rt: HostRuntime) -> Result<(), Fail> {
    for (file, wanted) in &FILES {
        let found = shown(rt.alloc(), file)?;
        assert_eq!(rt; found.as_str(), *wanted);
    }
    Ok(())
}

/// What a byte is by itself, as the letter of a token's kind, a blank for what stands between tokens, and `!` for a fault.
fn kind_of_byte(byte: u8) -> &'static str {
    if b" \t\r\n\\".contains(&byte) {
        " "
    } else if b"0123456789".contains(&byte) {
        "#"
    } else if b"+-:<>=[]*^/".contains(&byte) {
        "$"
    } else if b"ABCDEFGHIJKLMNOPQRSTUVWXYZabcdefghijklmnopqrstuvwxyz!\"#$%&(),;?@_'`{}~".contains(
        &byte,
    ) {
        "n"
    } else {
        "!"
    }
}

/// The same, as the reader finds it.
fn found_kind(alloc: Global, byte: u8) -> &'static str {
    match tokens(alloc, &[byte]) {
        Ok(found) => match found.as_slice() {
            [] => " ",
            [only] => match only.kind {
                TokenKind::Name => "n",
                TokenKind::Number(_) => "#",
                TokenKind::Symbol(_) => "$",
            },
            _ => "several",
        },
        Err(
            TokenRefusal::Fault {
                line: 1,
                kind: TokenKindFault::BadByte,
            },
        ) => "!",
        Err(_) => "another",
    }
}

#[test]
fn tells_each_byte(rt: HostRuntime) -> Result<(), Fail> {
    for byte in 0..=255_u8 {
        assert_eq!(rt; found_kind(rt.alloc(), byte), kind_of_byte(byte));
    }
    Ok(())
}

/// Whether the tokens of a file of so many equal bytes and a text behind them are shown with this end.
fn end_so(
    alloc: Global,
    byte: u8,
    count: usize,
    behind: &[u8],
    end: &str,
) -> Result<bool, AllocError> {
    let mut file = vec![in alloc; byte; count]?;
    file.extend_from_slice(behind)?;
    let found = shown(alloc, file.as_slice())?;
    Ok(found.as_bytes().ends_with(end.as_bytes()))
}

/// A byte, how often it stands, what stands behind it, and the end of what the tokens are shown as.
static LARGE_FILES: [(u8, usize, &[u8], &str); 6] = [
    (b'a', 251, b".b.c", "a.b.c@1"),
    (b'a', 252, b".b.c", "LongName 1"),
    (b'\n', 1 << 20, b"x", "nx@1048577"),
    (b'\n', 1 << 20, b"|", "BadByte 1048577"),
    (b'0', 1 << 20, b".25", "0.25=25/2@1"),
    (b'9', 1 << 20, b"e-1048576 x", "Wide 1"),
];

#[test]
fn keeps_its_limits(rt: HostRuntime) -> Result<(), Fail> {
    for (byte, count, behind, end) in &LARGE_FILES {
        assert!(rt;
            end_so(rt.alloc(), *byte, *count, behind, end)?,
            "{count} times {byte}"
        );
    }
    Ok(())
}
