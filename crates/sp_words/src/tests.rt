//! Tables of section words, and texts that make a table or none.
use crate::Words;

/// The section words of an LP file. That the text makes a table of twelve is proved, and not tested as this runs.
fn sections() -> Words<12> {
    Words::new(
        "minimize minimum min maximize maximum max bounds bound general generals gen end",
        [1, 1, 1, 2, 2, 2, 3, 3, 4, 4, 4, 65535],
    )
    .unwrap()
}

/// Words beside their codes; 0 stands for no row.
const SECTION_WORDS: [(&[u8], u16); 52] = [
    (b"minimize", 1),
    (b"MINIMIZE", 1),
    (b"MiniMize", 1),
    (b"minimum", 1),
    (b"MINIMUM", 1),
    (b"minimuM", 1),
    (b"min", 1),
    (b"MIN", 1),
    (b"Min", 1),
    (b"maximize", 2),
    (b"MAXIMIZE", 2),
    (b"mAXIMIZe", 2),
    (b"maximum", 2),
    (b"MAXIMUM", 2),
    (b"MaXiMuM", 2),
    (b"max", 2),
    (b"MAX", 2),
    (b"mAx", 2),
    (b"bounds", 3),
    (b"BOUNDS", 3),
    (b"Bounds", 3),
    (b"bound", 3),
    (b"BOUND", 3),
    (b"bounD", 3),
    (b"general", 4),
    (b"GENERAL", 4),
    (b"General", 4),
    (b"generals", 4),
    (b"GENERALS", 4),
    (b"generalS", 4),
    (b"gen", 4),
    (b"GEN", 4),
    (b"gEn", 4),
    (b"end", 65535),
    (b"END", 65535),
    (b"eNd", 65535),
    (b"", 0),
    (b"m", 0),
    (b"mi", 0),
    (b"mini", 0),
    (b"minimiz", 0),
    (b"minimizer", 0),
    (b"mins", 0),
    (b"ends", 0),
    (b"en", 0),
    (b"nd", 0),
    (b" end", 0),
    (b"end ", 0),
    (b"min max", 0),
    (b"e\x4Ed", 65535),
    (b"e\xCEd", 0),
    (b"e\xEEd", 0),
];

/// How many of the words have the code beside them.
fn right_codes<const N: usize>(table: &Words<N>, cases: &[(&[u8], u16)]) -> usize {
    cases
        .iter()
        .filter(|case| table.find(case.0).unwrap_or(0) == case.1)
        .count()
}

#[test]
fn finds_words_in_any_case(rt: HostRuntime) {
    assert_eq!(rt; right_codes(&sections(), SECTION_WORDS.as_slice()), 52);
}

/// Only the letters from A to Z fold: neither signs beside them nor bytes above 127 do.
const OTHER_WORDS: [(&[u8], u16); 12] = [
    (b"x@", 1),
    (b"X@", 1),
    (b"x`", 0),
    (b"x[", 2),
    (b"x{", 0),
    (b"az", 3),
    (b"AZ", 3),
    (b"\xC3\xA9", 4),
    (b"\xC3\x89", 5),
    (b"\xE3\xA9", 0),
    (b"\xC3", 0),
    (b"", 0),
];

#[test]
fn folds_letters_alone(rt: HostRuntime) {
    let right = match Words::new("x@ x[ az \u{e9} \u{c9}", [1, 2, 3, 4, 5]) {
        Some(table) => right_codes(&table, OTHER_WORDS.as_slice()),
        None => 0,
    };
    assert_eq!(rt; right, 12);
}

/// Texts, and whether each makes a table of no row, of one, of two and of three.
const TEXTS: [(&'static str, [bool; 4]); 17] = [
    ("", [true, false, false, false]),
    ("a", [false, true, false, false]),
    ("minimize", [false, true, false, false]),
    ("a\tb", [false, true, false, false]),
    (" ", [false, false, false, false]),
    ("  ", [false, false, false, false]),
    (" a", [false, false, false, false]),
    ("a ", [false, false, false, false]),
    ("a b", [false, false, true, false]),
    ("a  b", [false, false, false, false]),
    ("a b ", [false, false, false, false]),
    (" a b", [false, false, false, false]),
    ("a A", [false, false, false, false]),
    ("a ab abc", [false, false, false, true]),
    ("end b END", [false, false, false, false]),
    ("a b c d", [false, false, false, false]),
    ("\u{e9} \u{c9}", [false, false, true, false]),
];

/// Whether the text makes a table of no row, of one, of two and of three.
fn tables_made(text: &'static str) -> [bool; 4] {
    [
        Words::new(text, []).is_some(),
        Words::new(text, [1]).is_some(),
        Words::new(text, [1, 2]).is_some(),
        Words::new(text, [1, 2, 3]).is_some(),
    ]
}

#[test]
fn takes_whole_tables_alone(rt: HostRuntime) {
    for (text, want) in TEXTS {
        assert_eq!(rt; tables_made(text), want, "for the text {text:?}");
    }
}
