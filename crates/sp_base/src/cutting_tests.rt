//! Texts, and the fields of their lines.
use crate::{next_field, next_line};
use std::alloc::{AllocError, Global};

/// The fields of the line, a comma behind each.
fn push_fields(out: &mut Vec<u8>, line: &[u8]) -> Result<(), AllocError> {
    let mut rest = line;
    'fields: while let Some((field, after)) = next_field(rest) {
        out.extend_from_slice(field)?;
        out.extend_from_slice(b",")?;
        rest = after;
    }
    Ok(())
}

/// The fields of the text, a comma behind each, and a semicolon behind those of a line.
fn drawn(alloc: Global, text: &[u8]) -> Result<Vec<u8>, AllocError> {
    let mut out = Vec::new(alloc);
    let mut rest = text;
    'lines: while let Some((line, after)) = next_line(rest) {
        push_fields(&mut out, line)?;
        out.extend_from_slice(b";")?;
        rest = after;
    }
    Ok(out)
}

fn is_drawn(alloc: Global, text: &[u8], wanted: &[u8]) -> bool {
    match drawn(alloc, text) {
        Ok(out) => out.as_slice() == wanted,
        Err(_) => false,
    }
}

const TEXTS: [(&[u8], &[u8]); 14] = [
    (b"", b""),
    (b"\n", b";"),
    (b"\r\n", b";"),
    (b"\r", b"\r,;"),
    (b"a", b"a,;"),
    (b"a\n", b"a,;"),
    (b"a\r\n", b"a,;"),
    (b"a\r\r\n", b"a\r,;"),
    (b"a\r", b"a\r,;"),
    (b"a\rb\n", b"a\rb,;"),
    (b"\n\n b", b";;b,;"),
    (b"  set\tabsgap   2 \r\n\tquit", b"set,absgap,2,;quit,;"),
    (b" \t \n  \n", b";;"),
    (b"a\0b \x0b\x0c \xff\n", b"a\0b,\x0b\x0c,\xff,;"),
];

fn all_drawn(alloc: Global) -> bool {
    TEXTS.iter().all(|case| is_drawn(alloc, case.0, case.1))
}

#[test]
fn texts_are_cut_into_lines_and_fields(rt: HostRuntime) {
    assert!(rt; all_drawn(rt.alloc()));
}
