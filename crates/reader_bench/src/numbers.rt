//! The numbers of ten digits that are read and printed.
use sp_decimal::{Numeral, print};

/// The texts that are read, one after the other.
static TEXTS: [&[u8]; 8] = [
    b"1234567890",
    b"9.876543210",
    b"31415.92654",
    b"2718281828",
    b"57721566.49",
    b"1414213562",
    b"161803398.9",
    b"6931471806",
];

/// The numbers that are printed, one after the other, with from 0 to 9 decimal places.
static NUMBERS: [i128; 8] = [
    1_234_567_890,
    -9_876_543_210,
    3_141_592_654,
    -2_718_281_828,
    5_772_156_649,
    -1_414_213_562,
    1_618_033_989,
    -6_931_471_806,
];

/// The digits of a number and its places, added up.
fn weight_of_numeral(numeral: &Numeral) -> i128 {
    match numeral {
        Numeral::Exact(decimal) => decimal.p.wrapping_add(i128::from(decimal.s)),
        Numeral::Huge { .. } => -1,
    }
}

/// A number that depends on what a text was read as.
fn weight_of(text: &[u8]) -> i128 {
    match Numeral::read(text) {
        Ok(numeral) => weight_of_numeral(&numeral),
        Err(_) => -2,
    }
}

/// The sum, which wraps at 128 bits, of the digits and places of so many texts.
pub fn checksum_of_reading(rounds: u64) -> i128 {
    let mut sum = 0i128;
    for round in 0..rounds {
        let text = TEXTS[(round % 8) as usize];
        sum = sum.wrapping_add(weight_of(text));
    }
    sum
}

/// The length of a printed text and the byte in its middle, added up.
fn weight_of_text(text: &[u8]) -> u64 {
    match text.get(text.len() / 2) {
        Some(byte) => u64::from(*byte).wrapping_add(text.len() as u64),
        None => 0,
    }
}

/// The sum, which wraps at 64 bits, of the lengths and of the middle bytes of so many printed numbers.
pub fn checksum_of_printing(rounds: u64) -> u64 {
    let mut sum = 0u64;
    for round in 0..rounds {
        let number = NUMBERS[(round % 8) as usize];
        let printed = print(number, (round % 10) as u8);
        sum = sum.wrapping_add(weight_of_text(printed.as_bytes()));
    }
    sum
}
