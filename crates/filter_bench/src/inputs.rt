//! The kind and the numbers of a line.

use sp_base::Text;
use sp_decimal::{Decimal, Numeral};
use sp_model::{NoMemory, VarId};
use std::alloc::Global;

/// The greatest magnitude of a whole number.
const FARTHEST: u128 = 1_000_000_000_000_000_000;

/// What a line is about, by its first word.
#[derive(Clone, Copy)]
pub enum Kind {
    Model,
    New,
    Range,
    Diversity,
    Remove,
    Place,
    Held,
    Point,
    Box,
    Other,
}

/// The kind that the first word of a line names.
pub fn kind_of(line: &str) -> Kind {
    let Some(word) = line.split_whitespace().next() else {
        return Kind::Other;
    };
    match word {
        "model" => Kind::Model,
        "new" => Kind::New,
        "range" => Kind::Range,
        "diversity" => Kind::Diversity,
        "remove" => Kind::Remove,
        "place" => Kind::Place,
        "held" => Kind::Held,
        "point" => Kind::Point,
        "box" => Kind::Box,
        _ => Kind::Other,
    }
}

/// The second word of a line; no text where there is none.
pub fn name_of(alloc: Global, line: &str) -> Result<Text, NoMemory> {
    let word = line.split_whitespace().nth(1).unwrap_or("");
    let bytes = Vec::from_slice(alloc, word.as_bytes())?;
    Ok(Text::from_vec(bytes))
}

/// The exact numbers behind the first word of a line, `None` for each word that is none.
pub fn numbers_of(alloc: Global, line: &str) -> Result<Vec<Option<Decimal>>, NoMemory> {
    let mut numbers = Vec::new(alloc);
    for word in line.split_whitespace().skip(1) {
        numbers.push(number_of(word.as_bytes()))?;
    }
    Ok(numbers)
}

fn number_of(word: &[u8]) -> Option<Decimal> {
    let read = Numeral::read(word);
    match &read {
        Ok(Numeral::Exact(d)) => Some(*d),
        _ => None,
    }
}

/// The number at a place, `None` past the last one.
pub fn at(numbers: &[Option<Decimal>], place: usize) -> Option<Decimal> {
    if place < numbers.len() {
        numbers[place]
    } else {
        None
    }
}

/// The whole number at a place, 0 where there is none.
pub fn whole_at(numbers: &[Option<Decimal>], place: usize) -> i64 {
    match at(numbers, place) {
        Some(d) => whole(&d),
        None => 0,
    }
}

/// The number, where it is whole and at most 10^18 in magnitude, and else 0.
fn whole(d: &Decimal) -> i64 {
    if d.s != 0 || d.p.unsigned_abs() > FARTHEST {
        0
    } else {
        d.p as i64
    }
}

/// The number at a place as one of 32 bits; the greatest of these where it isn't one.
pub fn small_at(numbers: &[Option<Decimal>], place: usize) -> u32 {
    let number = whole_at(numbers, place);
    if number < 0 || number > i64::from(u32::MAX) {
        u32::MAX
    } else {
        number as u32
    }
}

/// The variable at a place.
pub fn var_at(numbers: &[Option<Decimal>], place: usize) -> VarId {
    VarId::new(small_at(numbers, place))
}
