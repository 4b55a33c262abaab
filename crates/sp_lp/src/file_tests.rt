//! Tests of whole files: accepted ones, and the kind and line of refusals.
use crate::read_lp;
use sp_draft::ReadRefusal;
use std::alloc::Global;

/// The answer for a file as a number: 0 for a draft, else ten times the line and the kind.
fn answer_of(alloc: Global, file: &[u8]) -> u64 {
    if (1 << 26) < file.len() {
        return 9;
    }
    match read_lp(alloc, file) {
        Ok(_) => 0,
        Err(ReadRefusal::Syntax { line }) => 10 * u64::from(line) + 1,
        Err(ReadRefusal::WideNumeral { line }) => 10 * u64::from(line) + 2,
        Err(ReadRefusal::DuplicateName { line }) => 10 * u64::from(line) + 3,
        Err(ReadRefusal::Unsupported { line }) => 10 * u64::from(line) + 4,
        Err(_) => 9,
    }
}

/// Files beside their answers.
const FILES: [(&[u8], u64); 46] = [
    (b"", 11),
    (b"\xff", 11),
    (b"Minimize\nobj: x\nend", 0),
    (b"min x + 2 - - 3.5 y\nend", 0),
    (b"min: x\nend", 11),
    (b"Minimize\nx\nBounds\nx <= 1\nGenerals\nx", 61),
    (
        b"Minimize\nobj: x\nSubject To\nc1: x >= 1\nc1: x <= 2\nEnd",
        53,
    ),
    (b"Minimize\nobj: x\nSubject To\nc1: x = 1 <-> x >= 1", 44),
    (b"Minimize\nobj: x\nSubject To\nc1: x >=", 41),
    (b"Minimize\nobj: x\nSubject To\nc1: x <= 2 y", 41),
    (b"Minimize\nobj: [ x ^ 2 ] / 2\nEnd", 24),
    (b"Minimize\nobj: 1e30 x\nEnd", 22),
    (b"Minimize\nobj: 1e-31 x\nEnd", 22),
    (b"min\nst\nc: x + 1e30 <= 3\nend", 31),
    (b"min\nst\nc: x + inf y <= 3\nend", 32),
    (b"min\nst\nc: 1e30\ny <= 3\nend", 32),
    (b"min\nst\nc: 1e30 >= y\nend", 0),
    (b"min\nst\nc: 3 <=\nst\nend", 41),
    (b"min\nst\nst: x\n- y <= inf\nend: x <= 1\nend", 0),
    (b"min\nst\n1 <= x + y <= 3\n2 >= z >= - 2\nend", 0),
    (b"min\nst\n1 <= x >= 3\nend", 31),
    (b"min\nst\n1 = x = 1\nend", 31),
    (b"min\nst\nx + 1 <= 3\nend", 31),
    (b"min\nst\nb: z = 1 -> x + y <= 2\nz = 0 -> x = 1\nend", 0),
    (b"min\nst\nb: z = 2 -> x <= 2\nend", 31),
    (b"min\nst\nb: z = 1 -> x <= 2\nb: x <= 1\nend", 43),
    (
        b"min\nbounds\nx free\n-1 <= y <= inf\n3 = z\nz >= - 1e30\nend",
        0,
    ),
    (b"min\nbounds\nx free y free\nend", 31),
    (
        b"min\ngenerals\nx y\nbin\nx\nsemi-continuous\ny\nsemis\nz\nend",
        0,
    ),
    (b"min\nuser cuts\nend", 24),
    (b"min\nsos\na: S1 :: x : 1 y : - 2\ns2 :: x : 3\nend", 0),
    (b"min\nsos\na: S1 :: x : 1\na : S2 :: y : 1\nend", 43),
    (b"min\nsos\na: S1 :: x : 1\nsos\na\nend", 53),
    (b"min\nsos\na: S1 :: x : 1\na", 41),
    (b"min\nsos\na: S1 :: x : 1e30\nend", 32),
    (
        b"min\nlazy constraints\nx >= 1\nsuch that\ns.t.\ny < 2\nend\n| what comes later isn't read",
        0,
    ),
    (b"min 1e30\nend", 12),
    (b"min\nst\nc: 1e30\nst : x\nend", 32),
    (b"min\nst\nc: 1e30\nst\nend", 41),
    (b"min\nst\n3 <= inf x\nend", 32),
    (b"min\nst\n3 <= inf\nend", 31),
    (b"min\nst\nc: x <= 1\nc : y = 1 -> z <= 1\nend", 43),
    (b"min\nuser cuts : 1", 21),
    (b"min\nsos\nuser: S1 :: x : 1\nsos\nuser cuts\nend", 54),
    (b"min\nsos\nuser: S1 :: x : 1\nsos\nuser\ncuts\nend", 53),
    (b"min\nsos\ns1: S1 :: x : 1\nsos\ns1 : S2 ::", 53),
];

#[test]
fn reads_files(rt: HostRuntime) {
    for (file, want) in FILES {
        assert_eq!(rt; answer_of(rt.alloc(), file), want);
    }
}
