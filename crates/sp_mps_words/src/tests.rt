//! Words, lines and values beside what they stand for, taken from the format by hand.
use crate::{
    BoundKind, FaultKind, Head, LineKind, RowKind, Tables, exact_of, flag_of, kind_of_line,
    line_fields_of, value_of,
};
use sp_decimal::{Decimal, Numeral};
use std::process::Abort;

/// Words beside the heads that they are.
const HEADS: [(&[u8], Option<Head>); 16] = [
    (b"NAME", Some(Head::Name)),
    (b"ObjSense", Some(Head::Objsense)),
    (b"rows", Some(Head::Rows)),
    (b"COLUMNS", Some(Head::Columns)),
    (b"RHS", Some(Head::Rhs)),
    (b"Ranges", Some(Head::Ranges)),
    (b"BOUNDS", Some(Head::Bounds)),
    (b"INDICATORS", Some(Head::Indicators)),
    (b"ENDATA", Some(Head::Endata)),
    (b"ENDDATA", None),
    (b"ROW", None),
    (b"SOS1", None),
    (b"OBJNAME", None),
    (b"ROWS\r", None),
    (b"", None),
    (b"RHS:", None),
];

/// Words beside the kinds of rows that they are.
const ROW_KINDS: [(&[u8], Option<RowKind>); 9] = [
    (b"N", Some(RowKind::Free)),
    (b"n", Some(RowKind::Free)),
    (b"L", Some(RowKind::Less)),
    (b"l", Some(RowKind::Less)),
    (b"G", Some(RowKind::Greater)),
    (b"E", Some(RowKind::Equal)),
    (b"X", None),
    (b"LE", None),
    (b"", None),
];

/// Words beside the kinds of bounds that they are, and whether these have values.
const BOUND_KINDS: [(&[u8], Option<BoundKind>, bool); 13] = [
    (b"UP", Some(BoundKind::Upper), true),
    (b"lo", Some(BoundKind::Lower), true),
    (b"FX", Some(BoundKind::Fixed), true),
    (b"FR", Some(BoundKind::Unbounded), false),
    (b"MI", Some(BoundKind::NoLower), false),
    (b"PL", Some(BoundKind::NoUpper), false),
    (b"Bv", Some(BoundKind::Binary), false),
    (b"LI", Some(BoundKind::WholeLower), true),
    (b"UI", Some(BoundKind::WholeUpper), true),
    (b"SC", Some(BoundKind::SemiUpper), true),
    (b"SI", None, false),
    (b"U", None, false),
    (b"UPP", None, false),
];

/// Words beside what they say of the direction.
const DIRECTIONS: [(&[u8], Option<bool>); 9] = [
    (b"MAX", Some(true)),
    (b"max", Some(true)),
    (b"MAXIMIZE", Some(true)),
    (b"MIN", Some(false)),
    (b"Minimize", Some(false)),
    (b"MAXIMUM", None),
    (b"MINIMISE", None),
    (b"M", None),
    (b"", None),
];

/// How many words a line has, its second word, whether it is a marker line, and whether that word opens or closes.
const MARKS: [(usize, &[u8], bool, Option<bool>); 9] = [
    (3, b"'MARKER'", true, None),
    (3, b"'Marker'", true, None),
    (2, b"'MARKER'", false, None),
    (4, b"'MARKER'", false, None),
    (5, b"'MARKER'", false, None),
    (3, b"MARKER", false, None),
    (3, b"'INTORG'", false, Some(true)),
    (3, b"'intend'", false, Some(false)),
    (3, b"IF", false, None),
];

#[test]
fn finds_words(rt: HostRuntime) {
    let tables = Tables::new();
    for (word, head) in HEADS {
        assert_eq!(rt; tables.head_of(word), head);
    }
    for (word, kind) in ROW_KINDS {
        assert_eq!(rt; tables.row_kind_of(word), kind);
    }
    for (word, kind, valued) in BOUND_KINDS {
        let found = tables.bound_kind_of(word);
        assert_eq!(rt; found, kind);
        assert_eq!(rt; has_value(found), valued);
    }
    for (word, maximize) in DIRECTIONS {
        assert_eq!(rt; tables.direction_of(word), maximize);
    }
    for (count, word, marker, mark) in MARKS {
        assert_eq!(rt;
            (tables.is_marker(count, word), tables.mark_of(word)),
            (marker, mark)
        );
    }
    assert_eq!(rt; (tables.is_if(b"If"), tables.is_if(b"IFF")), (true, false));
}

/// Whether there is a kind, and it has a value.
fn has_value(kind: Option<BoundKind>) -> bool {
    match kind {
        None => false,
        Some(kind) => kind.has_value(),
    }
}

/// Lines beside what they are, how many fields they have, and the first and the fifth of these.
const LINES: [(&[u8], LineKind, usize, &[u8], &[u8]); 13] = [
    (b"", LineKind::Ignored, 0, b"", b""),
    (b" \t ", LineKind::Ignored, 0, b"", b""),
    (b"*", LineKind::Ignored, 1, b"*", b""),
    (b"* a b", LineKind::Ignored, 3, b"*", b""),
    (b" * a", LineKind::Data, 2, b"*", b""),
    (b"a* b", LineKind::Section, 2, b"a*", b""),
    (b"ROWS", LineKind::Section, 1, b"ROWS", b""),
    (b"RHS\t \t", LineKind::Section, 1, b"RHS", b""),
    (b"\tX", LineKind::Data, 1, b"X", b""),
    (b" a b c d e f g", LineKind::Data, 7, b"a", b"e"),
    (b"  a\tb  c\t\td e ", LineKind::Data, 5, b"a", b"e"),
    (b" a\r b", LineKind::Data, 2, b"a\r", b""),
    (b"\r", LineKind::Section, 1, b"\r", b""),
];

#[test]
fn takes_lines_apart(rt: HostRuntime) {
    for (line, kind, count, first, fifth) in LINES {
        let fields = line_fields_of(line);
        assert_eq!(rt; (kind_of_line(line), fields.count), (kind, count));
        assert_eq!(rt; (fields.first, fields.fifth), (first, fifth));
    }
}

/// Words beside the number that they are if it is no fraction and not huge, and the kinds of fault as a value that may
/// be huge, as one that may not, and as 0 or 1. `None` is no fault.
const VALUES: [(
    &[u8],
    Option<i32>,
    Option<FaultKind>,
    Option<FaultKind>,
    Option<FaultKind>,
); 13] = [
    (b"0", Some(0), None, None, None),
    (b"-0.0", Some(0), None, None, None),
    (b"1", Some(1), None, None, None),
    (b"+1.", Some(1), None, None, None),
    (b"2", Some(2), None, None, Some(FaultKind::Syntax)),
    (b"-1", Some(-1), None, None, Some(FaultKind::Syntax)),
    (b".5", None, None, None, Some(FaultKind::Syntax)),
    (
        b"1e30",
        None,
        None,
        Some(FaultKind::WideNumeral),
        Some(FaultKind::Syntax),
    ),
    (
        b"-Inf",
        None,
        None,
        Some(FaultKind::WideNumeral),
        Some(FaultKind::Syntax),
    ),
    (
        b"1e-31",
        None,
        Some(FaultKind::WideNumeral),
        Some(FaultKind::WideNumeral),
        Some(FaultKind::WideNumeral),
    ),
    (
        b"",
        None,
        Some(FaultKind::Syntax),
        Some(FaultKind::Syntax),
        Some(FaultKind::Syntax),
    ),
    (
        b"x",
        None,
        Some(FaultKind::Syntax),
        Some(FaultKind::Syntax),
        Some(FaultKind::Syntax),
    ),
    (
        b"1e",
        None,
        Some(FaultKind::Syntax),
        Some(FaultKind::Syntax),
        Some(FaultKind::Syntax),
    ),
];

#[test]
fn reads_values(rt: HostRuntime) {
    for (word, whole, value, exact, flag) in VALUES {
        check_values(&rt, word, whole, value);
        assert_eq!(rt; (exact_of(word).err(), flag_of(word).err()), (exact, flag));
    }
    assert_eq!(rt;
        (flag_of(b"1.0").ok(), flag_of(b"0").ok()),
        (Some(true), Some(false))
    );
}

/// The decimal of a whole number.
fn whole_number(p: i32) -> Decimal {
    Decimal { p: p as i128, s: 0 }
}

/// The word is the number if that is told, or gives the fault.
fn check_values(rt: &impl Abort, word: &[u8], whole: Option<i32>, value: Option<FaultKind>) {
    let read = value_of(word);
    match whole {
        None => assert_eq!(rt; read.err(), value),
        Some(p) => assert_eq!(rt; read.ok(), Some(Numeral::Exact(whole_number(p)))),
    }
}
