//! Files and lines with what they say or are refused for, worked out by hand from the format.
use crate::read_mps;
use sp_decimal::{Decimal, Numeral};
use sp_draft::{Draft, DraftIndicator, DraftRow, DraftVar, ReadRefusal, Sense, Sides, VarKind};
use sp_model::VarId;
use std::alloc::Global;
use std::process::Abort;
use std::test::Fail;

/// The most bytes that a file may have.
const MOST: usize = 1 << 26;

/// The answer for a file that is read.
const READ: u8 = 0;
/// The number of the refusal that the file isn't of the format.
const SYNTAX: u8 = 1;
/// That of a number with too many digits, or huge where it may not be.
const WIDE: u8 = 2;
/// That of a name that is declared twice.
const DUPLICATE: u8 = 8;
/// That of a row or column that isn't declared.
const UNKNOWN: u8 = 9;
/// That of an unknown head or a further set.
const UNSUPPORTED: u8 = 10;

/// Two columns that are integer by markers, a row of kind E with a range below, and a constant.
const DEMO: &[u8] = b"NAME          DEMO
ROWS
 N  COST
 E  R1
COLUMNS
    M1        'MARKER'                 'INTORG'
    X         COST         1   R1           1
    Y         COST         1   R1          -1
    M2        'MARKER'                 'INTEND'
RHS
    RHS       COST         5   R1           0
RANGES
    RNG       R1          -1
ENDATA
";

/// The number of the refusal and its line; `READ` and 0 where the file is read.
fn answer_to(alloc: Global, file: &[u8]) -> (u8, u32) {
    if file.len() > MOST {
        return (255, 0);
    }
    match read_mps(alloc, file) {
        Ok(_) => (READ, 0),
        Err(ReadRefusal::Syntax { line }) => (SYNTAX, line),
        Err(ReadRefusal::WideNumeral { line }) => (WIDE, line),
        Err(ReadRefusal::DuplicateName { line }) => (DUPLICATE, line),
        Err(ReadRefusal::UnknownName { line }) => (UNKNOWN, line),
        Err(ReadRefusal::Unsupported { line }) => (UNSUPPORTED, line),
        Err(ReadRefusal::NoMemory) => (254, 0),
    }
}

/// Whole files, each with its answer.
const FILES: [(&[u8], u8, u32); 50] = [
    (b"", SYNTAX, 1),
    (b"\n", SYNTAX, 1),
    (b"\n\n\n", SYNTAX, 3),
    (b"* only\n* comments", SYNTAX, 2),
    (b"NAME A\n ROWS\n", SYNTAX, 2),
    (b"NAME A\nROWS\n N COST\nCOLUMNS\n X R1 1\n", UNKNOWN, 5),
    (b"ROWS\nCOLUMNS\nENDATA", READ, 0),
    (b"ROWS\r\nCOLUMNS\r\nENDATA\r\n", READ, 0),
    (b"ROWS\nCOLUMNS\nENDATA\r", UNSUPPORTED, 3),
    (b"rows\nColumns\neNDATA\n", READ, 0),
    (b"ROWS\nCOLUMNS\nENDATA\n X\nROWS\n\xff\x00", READ, 0),
    (b"ROWS\nCOLUMNS\nENDATA X\n", SYNTAX, 3),
    (b"ROWS\nCOLUMNS\n", SYNTAX, 2),
    (b"COLUMNS\nENDATA\n", SYNTAX, 1),
    (b"ROWS\nENDATA\n", SYNTAX, 2),
    (b"ENDATA\n", SYNTAX, 1),
    (b"ROWS\nROWS\n", SYNTAX, 2),
    (b"ROWS X\n", SYNTAX, 1),
    (b"ROWS\nNAME\n", SYNTAX, 2),
    (b"ROWS\nOBJSENSE\n", SYNTAX, 2),
    (b"ROWS\nCOLUMNS\nROWS\n", SYNTAX, 3),
    (b"ROWS\nRHS\nCOLUMNS\nENDATA\n", SYNTAX, 2),
    (b"ROWS\nCOLUMNS\nRHS\nCOLUMNS\n", SYNTAX, 4),
    (b"ROWS\nCOLUMNS\nRHS\nRHS\n", SYNTAX, 4),
    (
        b"ROWS\nCOLUMNS\nINDICATORS\nBOUNDS\nRANGES\nRHS\nENDATA\n",
        READ,
        0,
    ),
    (b"ROWS\nCOLUMNS\nSOS\nENDATA\n", UNSUPPORTED, 3),
    (b"ROWS\nCOLUMNS\nSOS 1 2\n", UNSUPPORTED, 3),
    (b"OBJNAME\n", UNSUPPORTED, 1),
    (b" MAX\n", SYNTAX, 1),
    (b"NAME\n X\n", SYNTAX, 2),
    (b"NAME a b c d e f g\nROWS\nCOLUMNS\nENDATA\n", READ, 0),
    (b"OBJSENSE MAX\nNAME\nROWS\nCOLUMNS\nENDATA\n", READ, 0),
    (b"OBJSENSE\n MAX\nROWS\nCOLUMNS\nENDATA\n", READ, 0),
    (
        b"OBJSENSE\n\n*\n maximize\nROWS\nCOLUMNS\nENDATA\n",
        READ,
        0,
    ),
    (b"OBJSENSE\nROWS\nCOLUMNS\nENDATA\n", READ, 0),
    (b"OBJSENSE Minimize\nROWS\nCOLUMNS\nENDATA\n", READ, 0),
    (b"OBJSENSE MAXIMUM\n", SYNTAX, 1),
    (b"OBJSENSE MAX MIN\n", SYNTAX, 1),
    (b"OBJSENSE\n MIN\n MIN\n", SYNTAX, 3),
    (b"OBJSENSE MIN\n MIN\n", SYNTAX, 2),
    (b"OBJSENSE\n MIN MIN\n", SYNTAX, 2),
    (b"OBJSENSE\nNAME\n MIN\n", SYNTAX, 3),
    (b"OBJSENSE\nOBJSENSE\n", SYNTAX, 2),
    (b"ROWS\n N C\nCOLUMNS\n M 'MARKER' 'INTEND'\n", SYNTAX, 4),
    (
        b"ROWS\n N C\nCOLUMNS\n M 'marker' 'IntOrg'\n X C 1\nENDATA\n",
        READ,
        0,
    ),
    (
        b"ROWS\n N C\nCOLUMNS\n M 'MARKER' 'INTORG'\n M 'MARKER' 'INTORG'\n",
        SYNTAX,
        5,
    ),
    (
        b"ROWS\n N C\nCOLUMNS\n M 'MARKER' 'INTORG'\n M 'MARKER' 'INTEND'\n M 'MARKER' 'INTEND'\n",
        SYNTAX,
        6,
    ),
    (b"ROWS\n N C\nCOLUMNS\n M 'MARKER' 'SOSORG'\n", SYNTAX, 4),
    (
        b"ROWS\n N C\nCOLUMNS\n M 'MARKER' 'INTORG'\n X C -1\n M 'MARKER' 'INTEND'\nBOUNDS\n LO B X 2\n SC B X 4\nENDATA",
        READ,
        0,
    ),
    (
        b"ROWS\n E 'MARKER'\nCOLUMNS\n X 'MARKER' 1 'MARKER' 2\nENDATA\n",
        READ,
        0,
    ),
];

#[test]
fn answers_whole_files(rt: HostRuntime) -> Result<(), Fail> {
    for (file, number, line) in FILES {
        assert_eq!(rt; answer_to(rt.alloc(), file), (number, line));
    }
    Ok(())
}

/// The section that a tested line stands in.
#[derive(Clone, Copy)]
enum Place {
    /// ROWS, where four rows stand before it.
    Rows,
    /// COLUMNS, without a column before it.
    Columns,
    /// RHS, where a column stands before the section.
    Rhs,
    /// RANGES, where a column stands before the section.
    Ranges,
    /// BOUNDS, where a column stands before the section.
    Bounds,
    /// INDICATORS, where a column stands before the section.
    Indicators,
}

/// The lines before the tested one.
fn lines_before(place: Place) -> &'static [u8] {
    match place {
        Place::Rows => b"ROWS\n N C\n E R\n N F\n G S\n",
        Place::Columns => b"ROWS\n N C\n E R\n N F\nCOLUMNS\n",
        Place::Rhs => b"ROWS\n N C\n E R\nCOLUMNS\n X R 1\nRHS\n",
        Place::Ranges => b"ROWS\n N C\n E R\nCOLUMNS\n X R 1\nRANGES\n",
        Place::Bounds => b"ROWS\n N C\n E R\nCOLUMNS\n X R 1\nBOUNDS\n",
        Place::Indicators => b"ROWS\n N C\n E R\nCOLUMNS\n X R 1\nINDICATORS\n",
    }
}

/// The lines behind the tested one.
fn lines_behind(place: Place) -> &'static [u8] {
    match place {
        Place::Rows => b"\nCOLUMNS\nENDATA\n",
        _ => b"\nENDATA\n",
    }
}

/// Puts the text behind the file. A `@` in it stands for a name of 255 bytes, and a `#` for one of 256.
fn add(file: &mut Vec<u8>, text: &[u8]) -> Result<(), Fail> {
    for byte in text {
        match *byte {
            b'@' => file.extend_from_slice(&[b'n'; 255])?,
            b'#' => file.extend_from_slice(&[b'n'; 256])?,
            other => file.push(other)?,
        }
    }
    Ok(())
}

/// The file of three texts, one behind the other.
fn joined(alloc: Global, before: &[u8], text: &[u8], behind: &[u8]) -> Result<Vec<u8>, Fail> {
    let mut file = Vec::new(alloc);
    add(&mut file, before)?;
    add(&mut file, text)?;
    add(&mut file, behind)?;
    Ok(file)
}

/// Lines of the rows and of the columns, the number of the refusal of the last one, and its line in the file. Each section has
/// lines of one to seven fields.
const DECLARATION_LINES: [(Place, &[u8], u8, u32); 50] = [
    (Place::Rows, b" L", SYNTAX, 6),
    (Place::Rows, b" L Q", READ, 0),
    (Place::Rows, b" L Q 1", SYNTAX, 6),
    (Place::Rows, b" L Q 1 2", SYNTAX, 6),
    (Place::Rows, b" L Q 1 2 3", SYNTAX, 6),
    (Place::Rows, b" L Q 1 2 3 4", SYNTAX, 6),
    (Place::Rows, b" L Q 1 2 3 4 5", SYNTAX, 6),
    (Place::Rows, b" e q", READ, 0),
    (Place::Rows, b" g Q", READ, 0),
    (Place::Rows, b" n Q", READ, 0),
    (Place::Rows, b" l r", READ, 0),
    (Place::Rows, b" X Q", SYNTAX, 6),
    (Place::Rows, b" EQ Q", SYNTAX, 6),
    (Place::Rows, b" E R", DUPLICATE, 6),
    (Place::Rows, b" N C", DUPLICATE, 6),
    (Place::Rows, b" L $a", READ, 0),
    (Place::Rows, b" L a*b", READ, 0),
    (Place::Rows, b" L @", READ, 0),
    (Place::Rows, b" L #", SYNTAX, 6),
    (Place::Rows, b" X R", SYNTAX, 6),
    (Place::Rows, b"\tL\tQ\t", READ, 0),
    (Place::Rows, b"* L Q 1", READ, 0),
    (Place::Rows, b" * Q", SYNTAX, 6),
    (Place::Columns, b" X", SYNTAX, 6),
    (Place::Columns, b" X R", SYNTAX, 6),
    (Place::Columns, b" X R 1", READ, 0),
    (Place::Columns, b" X R 1 C", SYNTAX, 6),
    (Place::Columns, b" X R 1 C 2", READ, 0),
    (Place::Columns, b" X R 1 C 2 E", SYNTAX, 6),
    (Place::Columns, b" X R 1 C 2 E 3", SYNTAX, 6),
    (Place::Columns, b" X R 1 R 2", READ, 0),
    (Place::Columns, b" X F 1", READ, 0),
    (Place::Columns, b" X Q 1", UNKNOWN, 6),
    (Place::Columns, b" X r 1", UNKNOWN, 6),
    (Place::Columns, b" X R x", SYNTAX, 6),
    (Place::Columns, b" X R 1e30", WIDE, 6),
    (Place::Columns, b" X R inf", WIDE, 6),
    (Place::Columns, b" X F 1e30", WIDE, 6),
    (Place::Columns, b" X R 1e-31", WIDE, 6),
    (Place::Columns, b" X R 1 Q 2", UNKNOWN, 6),
    (Place::Columns, b" X R 1 C x", SYNTAX, 6),
    (Place::Columns, b" X R x Q 2", SYNTAX, 6),
    (Place::Columns, b" X Q x", UNKNOWN, 6),
    (Place::Columns, b" @ R 1", READ, 0),
    (Place::Columns, b" # R 1", SYNTAX, 6),
    (Place::Columns, b" # Q 1", SYNTAX, 6),
    (Place::Columns, b" X # 1", SYNTAX, 6),
    (Place::Columns, b" X @ 1", UNKNOWN, 6),
    (Place::Columns, b" $ R 1", READ, 0),
    (Place::Columns, b" X* R 1\n X* C 1", READ, 0),
];

#[test]
fn answers_lines_of_rows_and_columns(rt: HostRuntime) -> Result<(), Fail> {
    for (place, text, number, line) in DECLARATION_LINES {
        let file = joined(rt.alloc(), lines_before(place), text, lines_behind(place))?;
        assert_eq!(rt; answer_to(rt.alloc(), file.as_slice()), (number, line));
    }
    Ok(())
}

/// Lines of the right-hand sides and of the ranges, the number of the refusal of the last one, and its line in the file. Each section has
/// lines of one to seven fields.
const SIDE_LINES: [(Place, &[u8], u8, u32); 40] = [
    (Place::Rhs, b" R", SYNTAX, 7),
    (Place::Rhs, b" R 1", READ, 0),
    (Place::Rhs, b" B R 1", READ, 0),
    (Place::Rhs, b" R 1 C 2", READ, 0),
    (Place::Rhs, b" B R 1 C 2", READ, 0),
    (Place::Rhs, b" B R 1 C 2 R", SYNTAX, 7),
    (Place::Rhs, b" B R 1 C 2 R 3", SYNTAX, 7),
    (Place::Rhs, b" R 1e30", READ, 0),
    (Place::Rhs, b" C 1e30", WIDE, 7),
    (Place::Rhs, b" R 1e-31", WIDE, 7),
    (Place::Rhs, b" R 1 C x", SYNTAX, 7),
    (Place::Rhs, b" Q 1", UNKNOWN, 7),
    (Place::Rhs, b" B R 1\n B C 1", READ, 0),
    (Place::Rhs, b" B R 1\n b C 1", UNSUPPORTED, 8),
    (Place::Rhs, b" B R 1\n C 1", UNSUPPORTED, 8),
    (Place::Rhs, b" C 1\n B R 1", UNSUPPORTED, 8),
    (Place::Rhs, b" @ R 1", READ, 0),
    (Place::Rhs, b" # R 1", SYNTAX, 7),
    (Place::Rhs, b" B R 1\n # Q 1", SYNTAX, 8),
    (Place::Rhs, b" B R 1\n D Q x", UNSUPPORTED, 8),
    (Place::Ranges, b" R", SYNTAX, 7),
    (Place::Ranges, b" R 1", READ, 0),
    (Place::Ranges, b" B R 1", READ, 0),
    (Place::Ranges, b" R 1 C 2", READ, 0),
    (Place::Ranges, b" B R 1 C 2", READ, 0),
    (Place::Ranges, b" B R 1 C 2 R", SYNTAX, 7),
    (Place::Ranges, b" B R 1 C 2 R 3", SYNTAX, 7),
    (Place::Ranges, b" R 1e30", WIDE, 7),
    (Place::Ranges, b" C 1e30", WIDE, 7),
    (Place::Ranges, b" R 1e-31", WIDE, 7),
    (Place::Ranges, b" R 1 C x", SYNTAX, 7),
    (Place::Ranges, b" Q 1", UNKNOWN, 7),
    (Place::Ranges, b" B R 1\n B C 1", READ, 0),
    (Place::Ranges, b" B R 1\n b C 1", UNSUPPORTED, 8),
    (Place::Ranges, b" B R 1\n C 1", UNSUPPORTED, 8),
    (Place::Ranges, b" C 1\n B R 1", UNSUPPORTED, 8),
    (Place::Ranges, b" @ R 1", READ, 0),
    (Place::Ranges, b" # R 1", SYNTAX, 7),
    (Place::Ranges, b" B R 1\n # Q 1", SYNTAX, 8),
    (Place::Ranges, b" B R 1\n D Q x", UNSUPPORTED, 8),
];

#[test]
fn answers_lines_of_sides_and_ranges(rt: HostRuntime) -> Result<(), Fail> {
    for (place, text, number, line) in SIDE_LINES {
        let file = joined(rt.alloc(), lines_before(place), text, lines_behind(place))?;
        assert_eq!(rt; answer_to(rt.alloc(), file.as_slice()), (number, line));
    }
    Ok(())
}

/// Lines of the bounds and of the indicators, the number of the refusal of the last one, and its line in the file. Each section has
/// lines of one to seven fields.
const BOUND_LINES: [(Place, &[u8], u8, u32); 45] = [
    (Place::Bounds, b" UP", SYNTAX, 7),
    (Place::Bounds, b" UP X", SYNTAX, 7),
    (Place::Bounds, b" UP X 1", READ, 0),
    (Place::Bounds, b" UP B X 1", READ, 0),
    (Place::Bounds, b" UP B X 1 2", SYNTAX, 7),
    (Place::Bounds, b" UP B X 1 2 3", SYNTAX, 7),
    (Place::Bounds, b" UP B X 1 2 3 4", SYNTAX, 7),
    (Place::Bounds, b" FR", SYNTAX, 7),
    (Place::Bounds, b" FR X", READ, 0),
    (Place::Bounds, b" FR B X", READ, 0),
    (Place::Bounds, b" FR B X *", READ, 0),
    (Place::Bounds, b" FR B X # 1", SYNTAX, 7),
    (Place::Bounds, b" XX X 1", SYNTAX, 7),
    (Place::Bounds, b" UP Q 1", UNKNOWN, 7),
    (Place::Bounds, b" UP X 1e30", READ, 0),
    (Place::Bounds, b" UP X 1e-31", WIDE, 7),
    (Place::Bounds, b" UP X x", SYNTAX, 7),
    (Place::Bounds, b" UP B X 1\n UP B X 2", READ, 0),
    (Place::Bounds, b" UP B X 1\n FR C X", UNSUPPORTED, 8),
    (Place::Bounds, b" UP X 1\n FR B X", UNSUPPORTED, 8),
    (Place::Bounds, b" FR X\n UP B X 1", UNSUPPORTED, 8),
    (Place::Bounds, b" FR B #", SYNTAX, 7),
    (Place::Bounds, b" FR # X", SYNTAX, 7),
    (Place::Bounds, b" FR @ X", READ, 0),
    (Place::Bounds, b" BV B X #", READ, 0),
    (Place::Indicators, b" IF", SYNTAX, 7),
    (Place::Indicators, b" IF R", SYNTAX, 7),
    (Place::Indicators, b" IF R X", SYNTAX, 7),
    (Place::Indicators, b" IF R X 1", READ, 0),
    (Place::Indicators, b" IF R X 1 2", SYNTAX, 7),
    (Place::Indicators, b" IF R X 1 2 3", SYNTAX, 7),
    (Place::Indicators, b" IF R X 1 2 3 4", SYNTAX, 7),
    (Place::Indicators, b" if R X 0.0", READ, 0),
    (Place::Indicators, b" IG R X 1", SYNTAX, 7),
    (Place::Indicators, b" IF Q X 1", UNKNOWN, 7),
    (Place::Indicators, b" IF C X 1", SYNTAX, 7),
    (Place::Indicators, b" IF C Q x", SYNTAX, 7),
    (Place::Indicators, b" IF R Q 1", UNKNOWN, 7),
    (Place::Indicators, b" IF R X 2", SYNTAX, 7),
    (Place::Indicators, b" IF R X 1e30", SYNTAX, 7),
    (Place::Indicators, b" IF R X 1e-31", WIDE, 7),
    (Place::Indicators, b" IF R X x", SYNTAX, 7),
    (Place::Indicators, b" IF R X 1\n IF R X 0", DUPLICATE, 8),
    (Place::Indicators, b" IF R X 1\n IF R Q x", DUPLICATE, 8),
    (Place::Indicators, b" IF # X 1", SYNTAX, 7),
];

#[test]
fn answers_lines_of_bounds_and_indicators(rt: HostRuntime) -> Result<(), Fail> {
    for (place, text, number, line) in BOUND_LINES {
        let file = joined(rt.alloc(), lines_before(place), text, lines_behind(place))?;
        assert_eq!(rt; answer_to(rt.alloc(), file.as_slice()), (number, line));
    }
    Ok(())
}

/// The worked file with a text before a line of it, counted from 1; the line stays or is left out.
fn changed(alloc: Global, place: u32, text: &[u8], stays: bool) -> Result<Vec<u8>, Fail> {
    let mut file = Vec::new(alloc);
    let mut line: u32 = 1;
    let mut begins = true;
    for byte in DEMO {
        if begins && line == place {
            add(&mut file, text)?;
        }
        if stays || line != place {
            file.push(*byte)?;
        }
        begins = *byte == b'\n';
        if begins {
            line = line.saturating_add(1);
        }
    }
    Ok(file)
}

/// Texts before a line of the worked file, whether that line stays, and the answer.
const CHANGES: [(u32, &[u8], bool, u8, u32); 12] = [
    (14, b"", false, SYNTAX, 13),
    (14, b"SOS\n", true, UNSUPPORTED, 14),
    (12, b" RHS2 R1 1\n", true, UNSUPPORTED, 12),
    (12, b" RHS R1 1e75\n", true, READ, 0),
    (12, b" RHS COST 1e75\n", true, WIDE, 12),
    (9, b" M2 'MARKER' 'INTORG'\n", false, SYNTAX, 9),
    (7, b" X COST 1e-31 R1 1\n", false, WIDE, 7),
    (7, b" X R2 1e-31\n", false, UNKNOWN, 7),
    (5, b" E  R1\n", true, DUPLICATE, 5),
    (5, b" X  R1\n", true, SYNTAX, 5),
    (2, b"OBJSENSE\n MAX\n", true, READ, 0),
    (1, b"*\n\n", true, READ, 0),
];

#[test]
fn answers_changes_of_a_file(rt: HostRuntime) -> Result<(), Fail> {
    for (place, text, stays, number, line) in CHANGES {
        let file = changed(rt.alloc(), place, text, stays)?;
        assert_eq!(rt; answer_to(rt.alloc(), file.as_slice()), (number, line));
    }
    Ok(())
}

/// How many line feeds the text has.
fn feeds(text: &[u8]) -> u32 {
    let mut count: u32 = 0;
    for byte in text {
        if *byte == b'\n' {
            count = count.saturating_add(1);
        }
    }
    count
}

#[test]
fn answers_each_front_of_a_file(rt: HostRuntime) {
    for size in 0..DEMO.len() {
        let front = &DEMO[..size];
        let (number, line) = answer_to(rt.alloc(), front);
        assert!(rt; number < 254 && line <= feeds(front).saturating_add(1));
    }
}

/// The number that the text is, if it is one.
fn numeral(text: &[u8]) -> Option<Numeral> {
    match Numeral::read(text) {
        Ok(value) => Some(value),
        Err(_) => None,
    }
}

/// The number that the text is, if it is one and isn't huge.
fn decimal(text: &[u8]) -> Option<Decimal> {
    let read = Numeral::read(text);
    match &read {
        Ok(Numeral::Exact(value)) => Some(*value),
        _ => None,
    }
}

/// Lines of BOUNDS, and what they make of a column: its kind, its bounds or nothing, and whether it is
/// semi-integer.
const BOUNDS: [(&[u8], VarKind, &[u8], &[u8], bool); 29] = [
    (b" UP X 2", VarKind::Continuous, b"", b"2", false),
    (b" UP B X 2", VarKind::Continuous, b"", b"2", false),
    (b" UP X 1e30", VarKind::Continuous, b"", b"inf", false),
    (b" LO X -.5", VarKind::Continuous, b"-.5", b"", false),
    (b" LO B X -1e75", VarKind::Continuous, b"-inf", b"", false),
    (b" FX X 2", VarKind::Continuous, b"2", b"2", false),
    (b" FX B X 2", VarKind::Continuous, b"2", b"2", false),
    (b" LI X 2", VarKind::Integer, b"2", b"", false),
    (b" LI B X 2", VarKind::Integer, b"2", b"", false),
    (b" UI X 2", VarKind::Integer, b"", b"2", false),
    (b" UI B X 2", VarKind::Integer, b"", b"2", false),
    (b" SC X 2", VarKind::Continuous, b"", b"2", true),
    (b" SC B X 2", VarKind::Continuous, b"", b"2", true),
    (b" FR X", VarKind::Continuous, b"-inf", b"inf", false),
    (b" FR B X", VarKind::Continuous, b"-inf", b"inf", false),
    (b" FR B X 2", VarKind::Continuous, b"-inf", b"inf", false),
    (b" MI X", VarKind::Continuous, b"-inf", b"", false),
    (b" MI B X", VarKind::Continuous, b"-inf", b"", false),
    (b" MI B X 2", VarKind::Continuous, b"-inf", b"", false),
    (b" PL X", VarKind::Continuous, b"", b"inf", false),
    (b" PL B X", VarKind::Continuous, b"", b"inf", false),
    (b" PL B X 2", VarKind::Continuous, b"", b"inf", false),
    (b" BV X", VarKind::Integer, b"0", b"1", false),
    (b" BV B X", VarKind::Integer, b"0", b"1", false),
    (b" BV B X 2", VarKind::Integer, b"0", b"1", false),
    (b" UP X 2\n UP X 1", VarKind::Continuous, b"", b"1", false),
    (b" BV X\n LO X 1", VarKind::Integer, b"1", b"1", false),
    (
        b" FX X 2\n FR X",
        VarKind::Continuous,
        b"-inf",
        b"inf",
        false,
    ),
    (
        b" LO X 1\n SC X 2\n LI X 2",
        VarKind::Integer,
        b"2",
        b"2",
        true,
    ),
];

/// The draft of a file, if it is read.
fn draft_of(alloc: Global, file: &[u8]) -> Option<Draft> {
    if file.len() > MOST {
        return None;
    }
    match read_mps(alloc, file) {
        Ok(draft) => Some(draft),
        Err(_) => None,
    }
}

/// What the file says of its first column.
fn first_var(alloc: Global, file: &[u8]) -> Option<DraftVar> {
    match draft_of(alloc, file) {
        None => None,
        Some(draft) => draft.vars.as_slice().first().copied(),
    }
}

#[test]
fn bounds_columns(rt: HostRuntime) -> Result<(), Fail> {
    for (lines, kind, lower, upper, semi) in BOUNDS {
        let file = joined(rt.alloc(), lines_before(Place::Bounds), lines, b"\nENDATA")?;
        let wanted = DraftVar {
            kind,
            lower: numeral(lower),
            upper: numeral(upper),
            semi,
        };
        assert_eq!(rt; first_var(rt.alloc(), file.as_slice()), Some(wanted));
    }
    Ok(())
}

/// Rows of four kinds, a column in each of them, and the beginning of RHS.
const ROWS: &[u8] =
    b"ROWS\n N C\n L A\n G B\n E D\n N F\nCOLUMNS\n X A 1 B 1\n X D 1 F 1\n X C 1\nRHS\n";

/// Lines behind RHS, the place of a row in the draft, and what holds it: its kind, its right-hand side, and its range or nothing.
const SIDES: [(&[u8], usize, u8, &[u8], &[u8]); 18] = [
    (b"", 0, b'L', b"0", b""),
    (b"", 1, b'G', b"0", b""),
    (b"", 2, b'E', b"0", b""),
    (b" A 3 B 1", 0, b'L', b"3", b""),
    (b" S A 1 B 3", 1, b'G', b"3", b""),
    (b" D 3", 2, b'E', b"3", b""),
    (b" A 1 A 2\n A 3", 0, b'L', b"3", b""),
    (b" B 1e30", 1, b'G', b"inf", b""),
    (b" F 1e30\n C 2", 0, b'L', b"0", b""),
    (b" A 3\nRANGES\n A 2", 0, b'L', b"3", b"2"),
    (b" A 3\nRANGES\n A -2", 0, b'L', b"3", b"-2"),
    (b" B 3\nRANGES\n S B -2", 1, b'G', b"3", b"-2"),
    (b" B 3\nRANGES\n S A 1 B 2", 1, b'G', b"3", b"2"),
    (b"RANGES\n D 2 F 1", 2, b'E', b"0", b"2"),
    (b"RANGES\n D -2", 2, b'E', b"0", b"-2"),
    (b"RANGES\n D 0", 2, b'E', b"0", b"0"),
    (b" D 3\nRANGES\n D 1 D 2\n D -1", 2, b'E', b"3", b"-1"),
    (b"RANGES\n C 1 F 2", 0, b'L', b"0", b""),
];

/// What a row of the kind is held to, if the right-hand side is a number; the range may be none.
fn sides(kind: u8, rhs: &[u8], range: &[u8]) -> Option<Sides> {
    let sense = match kind {
        b'L' => Sense::Less,
        b'G' => Sense::Greater,
        _ => Sense::Equal,
    };
    match numeral(rhs) {
        None => None,
        Some(rhs) => match (decimal(range), sense) {
            (Some(range), sense) => Some(Sides::Ranged { sense, rhs, range }),
            (None, Sense::Less) => Some(Sides::Le(rhs)),
            (None, Sense::Greater) => Some(Sides::Ge(rhs)),
            (None, Sense::Equal) => Some(Sides::Eq(rhs)),
        },
    }
}

/// What the row at the place is held to, if the file has three rows.
fn sides_at(alloc: Global, file: &[u8], place: usize) -> Option<Sides> {
    match draft_of(alloc, file) {
        None => None,
        Some(draft) => match (
            draft.rows.as_slice().len(),
            draft.rows.as_slice().get(place),
        ) {
            (3, Some(row)) => Some(row.sides),
            _ => None,
        },
    }
}

#[test]
fn holds_rows(rt: HostRuntime) -> Result<(), Fail> {
    for (lines, place, kind, rhs, range) in SIDES {
        let file = joined(rt.alloc(), ROWS, lines, b"\nENDATA")?;
        assert_eq!(rt;
            sides_at(rt.alloc(), file.as_slice(), place),
            sides(kind, rhs, range)
        );
    }
    Ok(())
}

/// A file to maximise, with a second row of kind N, columns inside and outside of markers, and two indicators.
const MIXED: &[u8] =
    b"OBJSENSE\n MAX\nROWS\n N C\n L A\n G B\n E D\n N F\nCOLUMNS\n M 'MARKER' 'INTORG'\n Y D 1 F 2\n \
M 'MARKER' 'INTEND'\n Z B 1 C .5\n Y C 2 A 1\nRHS\n C -3\nINDICATORS\n IF D Z 1\n IF A Y 0\nENDATA\n";

/// The terms are these: a variable by its place, and a coefficient.
fn check_terms(rt: &impl Abort, terms: &[(VarId, Decimal)], wanted: &[(usize, &[u8])]) {
    assert_eq!(rt; terms.len(), wanted.len());
    for (term, (place, text)) in terms.iter().zip(wanted.iter()) {
        assert_eq!(rt; term.0.index(), *place);
        assert_eq!(rt; Some(term.1), decimal(text));
    }
}

/// There is one row, with these terms and sides.
fn check_row(rt: &impl Abort, rows: &[DraftRow], terms: &[(usize, &[u8])], sides: Option<Sides>) {
    assert_eq!(rt; rows.len(), 1);
    for row in rows {
        check_terms(rt, row.terms.as_slice(), terms);
        assert_eq!(rt; Some(row.sides), sides);
    }
}

#[test]
fn drafts_the_worked_file(rt: HostRuntime) {
    match draft_of(rt.alloc(), DEMO) {
        None => assert_eq!(rt; 0, 1),
        Some(draft) => {
            assert!(rt; !draft.maximize);
            assert_eq!(rt; draft.vars.as_slice().len(), 2);
            for var in draft.vars.as_slice() {
                assert_eq!(rt; var.kind, VarKind::Integer);
                assert_eq!(rt; (var.lower, var.upper), (numeral(b"0"), numeral(b"1")));
            }
            check_terms(&rt, draft.cost.as_slice(), &[(0, b"1"), (1, b"1")]);
            check_constant(&rt, draft.constants.as_slice(), b"-5");
            check_row(
                &rt,
                draft.rows.as_slice(),
                &[(0, b"1"), (1, b"-1")],
                sides(b'E', b"0", b"-1"),
            );
        }
    }
}

/// There is one constant, which is this number.
fn check_constant(rt: &impl Abort, constants: &[Decimal], text: &[u8]) {
    assert_eq!(rt; constants.len(), 1);
    assert_eq!(rt; constants.first().copied(), decimal(text));
}

#[test]
fn drafts_directions_and_indicators(rt: HostRuntime) {
    match draft_of(rt.alloc(), MIXED) {
        None => assert_eq!(rt; 0, 1),
        Some(draft) => {
            assert!(rt; draft.maximize);
            check_terms(&rt, draft.cost.as_slice(), &[(1, b".5"), (0, b"2")]);
            check_constant(&rt, draft.constants.as_slice(), b"3");
            check_row(
                &rt,
                draft.rows.as_slice(),
                &[(1, b"1")],
                sides(b'G', b"0", b""),
            );
            check_indicators(&rt, draft.indicators.as_slice());
        }
    }
}

/// The row of kind E holds where Z is 1, and the one of kind L where Y is 0.
fn check_indicators(rt: &impl Abort, indicators: &[DraftIndicator]) {
    match indicators {
        [first, second] => {
            assert_eq!(rt; (first.var.index(), first.on), (1, true));
            assert_eq!(rt; Some(first.row.sides), sides(b'E', b"0", b""));
            assert_eq!(rt; (second.var.index(), second.on), (0, false));
            check_terms(rt, second.row.terms.as_slice(), &[(0, b"1")]);
            assert_eq!(rt; Some(second.row.sides), sides(b'L', b"0", b""));
        }
        _ => assert_eq!(rt; indicators.len(), 2),
    }
}
