//! Numerals with what they are read as, written by hand.
use crate::{Numeral, NumeralFault};
use std::process::Abort;

/// What a text should be read as.
#[derive(Clone, Copy, PartialEq, Eq, Debug)]
enum Answer {
    Exact(i128, u8),
    Huge,
    NegativeHuge,
    Wide,
    NotNumeral,
}

use Answer::{Exact, Huge, NegativeHuge, NotNumeral, Wide};

const NINES: i128 = 999_999_999_999_999_999_999_999_999_999;

const TEN_TO_29: i128 = 100_000_000_000_000_000_000_000_000_000;

static TEXTS: [(&[u8], Answer); 74] = [
    (b"0.50", Exact(5, 1)),
    (b".5", Exact(5, 1)),
    (b"5.", Exact(5, 0)),
    (b"+5", Exact(5, 0)),
    (b"-5", Exact(-5, 0)),
    (b"-123.4500", Exact(-12345, 2)),
    (b"123.4500e2", Exact(12345, 0)),
    (b"0.001e3", Exact(1, 0)),
    (b"12e-1", Exact(12, 1)),
    (b"+.5E-1", Exact(5, 2)),
    (b"1000e-3", Exact(1, 0)),
    (b"1000e-5", Exact(1, 2)),
    (b"1e5", Exact(100_000, 0)),
    (b"1E+05", Exact(100_000, 0)),
    (b"00012.30", Exact(123, 1)),
    (b"0.00070", Exact(7, 4)),
    (b"1020.0300", Exact(102_003, 2)),
    (b"1234567890", Exact(1_234_567_890, 0)),
    (b"0", Exact(0, 0)),
    (b"-0", Exact(0, 0)),
    (b"-0.0e-5", Exact(0, 0)),
    (b"0e999999999999999999999", Exact(0, 0)),
    (
        b"0.00e1234567890123456789012345678901234567890",
        Exact(0, 0),
    ),
    (b"0e-1234567890123456789012345678901234567890", Exact(0, 0)),
    (b"1e29", Exact(TEN_TO_29, 0)),
    (b"0.1e30", Exact(TEN_TO_29, 0)),
    (
        b"10e0000000000000000000000000000000000000028",
        Exact(TEN_TO_29, 0),
    ),
    (b"999999999999999999999999999999", Exact(NINES, 0)),
    (b"-99999999999999999999.9999999999", Exact(-NINES, 10)),
    (b"0.000000000000000000000000000001", Exact(1, 30)),
    (b"1e-30", Exact(1, 30)),
    (b"0.999999999999999999999999999999", Exact(NINES, 30)),
    (b"1000000000000000000000000000000e-60", Exact(1, 30)),
    (b"9999999999999999999999999999990e-1", Exact(NINES, 0)),
    (b"1000000000000000000000000000000", Huge),
    (b"999999999999999999999999999999.9e1", Huge),
    (b"1e30", Huge),
    (b"1e75", Huge),
    (b"-0.1e31", NegativeHuge),
    (b"1e+1234567890123456789012345678901234567890", Huge),
    (b"-1e1234567890123456789012345678901234567890", NegativeHuge),
    (b"inf", Huge),
    (b"-inf", NegativeHuge),
    (b"+Infinity", Huge),
    (b"-iNFINITY", NegativeHuge),
    (b"1e-31", Wide),
    (b"0.0000000000000000000000000000001", Wide),
    (b"999999999999999999999999999999.9", Wide),
    (b"-1.000000000000000000000000000001", Wide),
    (b"1e-1234567890123456789012345678901234567890", Wide),
    (b"", NotNumeral),
    (b"+", NotNumeral),
    (b"-", NotNumeral),
    (b".", NotNumeral),
    (b".e5", NotNumeral),
    (b"e5", NotNumeral),
    (b"1e", NotNumeral),
    (b"1e+", NotNumeral),
    (b"1e5.0", NotNumeral),
    (b"1e1e1", NotNumeral),
    (b"1.2.3", NotNumeral),
    (b"--1", NotNumeral),
    (b"1-", NotNumeral),
    (b"1e--1", NotNumeral),
    (b" 1", NotNumeral),
    (b"1 ", NotNumeral),
    (b"1_000", NotNumeral),
    (b"0x10", NotNumeral),
    (b"infinit", NotNumeral),
    (b"infinity1", NotNumeral),
    (b"nan", NotNumeral),
    (b"\xb2", NotNumeral),
    (b"1\xff", NotNumeral),
    (b"\xd9\xa1", NotNumeral),
];

fn told(text: &[u8]) -> Answer {
    let read = Numeral::read(text);
    match &read {
        Ok(Numeral::Exact(d)) => Exact(d.p, d.s),
        Ok(Numeral::Huge { negative }) => if *negative { NegativeHuge } else { Huge },
        Err(NumeralFault::Wide) => Wide,
        Err(NumeralFault::NotNumeral) => NotNumeral,
    }
}

/// The place of the first text that is read as something else.
fn first_wrong(texts: &[(&[u8], Answer)]) -> Option<usize> {
    texts
        .iter()
        .position(|(text, wanted)| told(text) != *wanted)
}

#[test]
fn reads_texts_as_what_they_stand_for(rt: HostRuntime) {
    assert_eq!(rt; first_wrong(&TEXTS), None);
}
