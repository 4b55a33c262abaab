//! The lines of standard input, and the kind and the numbers of each.

ghost use Rattle.sp_model.specs.Cuts.{IsGap};

use anyhow::Result;
use sp_base::Text;
use sp_decimal::{Decimal, Numeral};
use sp_model::{Gap, NoMemory, VarId};
use std::alloc::Global;

/// The greatest magnitude of a whole number.
const FARTHEST: u128 = 1_000_000_000_000_000_000;

/// What a line is about, by its first word.
#[derive(Clone, Copy, PartialEq, Eq, Debug)]
pub enum Kind {
    Model,
    Cost,
    Row,
    Gaps,
    Range,
    Diversity,
    Remove,
    Optimize,
    Populate,
    Best,
    Value,
    List,
    Count,
    Tree,
    Other,
}

/// The lines of standard input.
pub fn lines_of<R: Input>(rt: &R, alloc: Global) -> Result<Vec<String>> {
    let mut lines = Vec::new(alloc);
    for line in rt.lines(alloc) {
        lines.push(line?)?;
    }
    Ok(lines)
}

/// The kind that the first word of a line names.
pub fn kind_of(line: &str) -> Kind {
    let Some(word) = line.split_whitespace().next() else {
        return Kind::Other;
    };
    match word {
        "model" => Kind::Model,
        "cost" => Kind::Cost,
        "row" => Kind::Row,
        "gaps" => Kind::Gaps,
        "range" => Kind::Range,
        "diversity" => Kind::Diversity,
        "remove" => Kind::Remove,
        "optimize" => Kind::Optimize,
        "populate" => Kind::Populate,
        "nbest" => Kind::Best,
        "value" => Kind::Value,
        "list" => Kind::List,
        "count" => Kind::Count,
        "tree" => Kind::Tree,
        _ => Kind::Other,
    }
}

/// The second word of a line; no text where there is none.
pub fn name_of(alloc: Global, line: &str) -> Result<Text, NoMemory> {
    let word = line.split_whitespace().nth(1).unwrap_or("");
    let bytes = Vec::from_slice(alloc, word.as_bytes())?;
    Ok(Text::from_vec(bytes))
}

/// The exact numbers behind the first word of a line, `None` for each word that is none.
pub fn numbers_of(alloc: Global, line: &str) -> Result<Vec<Option<Decimal>>, NoMemory> {
    let mut numbers = Vec::new(alloc);
    for word in line.split_whitespace().skip(1) {
        numbers.push(number_of(word.as_bytes()))?;
    }
    Ok(numbers)
}

fn number_of(word: &[u8]) -> Option<Decimal> {
    let read = Numeral::read(word);
    match &read {
        Ok(Numeral::Exact(d)) => Some(*d),
        _ => None,
    }
}

/// The number at a place, `None` past the last one.
pub fn at(numbers: &[Option<Decimal>], place: usize) -> Option<Decimal> {
    if place < numbers.len() {
        numbers[place]
    } else {
        None
    }
}

/// The whole number at a place, `None` where there is none of at most 10^18 in magnitude.
pub fn whole_at(numbers: &[Option<Decimal>], place: usize) -> Option<i64> {
    match at(numbers, place) {
        Some(d) => whole(&d),
        None => None,
    }
}

fn whole(d: &Decimal) -> Option<i64> {
    if d.s != 0 || d.p.unsigned_abs() > FARTHEST {
        None
    } else {
        Some(d.p as i64)
    }
}

/// The number at a place as one of 32 bits; the greatest of these where it isn't one.
pub fn small_at(numbers: &[Option<Decimal>], place: usize) -> u32 {
    match whole_at(numbers, place) {
        Some(number) if number >= 0 && number < i64::from(u32::MAX) => number as u32,
        _ => u32::MAX,
    }
}

/// The variable at a place.
pub fn var_at(numbers: &[Option<Decimal>], place: usize) -> VarId {
    VarId::new(small_at(numbers, place))
}

/// The gap at a place, unlimited where there is no number, or one that isn't a gap.
pub fn gap_at(numbers: &[Option<Decimal>], place: usize) -> Gap
    ensures { IsGap result }
{
    let gap = match at(numbers, place) {
        Some(d) => gap_of(&d),
        None => Gap::Unlimited,
    };
    if gap.is_lawful() { gap } else { Gap::Unlimited }
}

fn gap_of(d: &Decimal) -> Gap {
    if d.p < 0 || d.p.unsigned_abs() > FARTHEST {
        Gap::Unlimited
    } else {
        Gap::Of {
            p: d.p as u64,
            s: d.s,
        }
    }
}
