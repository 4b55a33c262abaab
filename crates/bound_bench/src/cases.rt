//! Models and lists that are read as whole numbers. A number that is missing is read as 0.

use smallvec::SmallVec;
use sp_dual::Multipliers;
use sp_model::{Items, Model, ModelParts, NoMemory, Row, RowId, VarId};
use std::alloc::Global;
use std::str::SplitWhitespace;

/// The next number.
pub fn number(words: &mut SplitWhitespace<'_>) -> i128 {
    match words.next() {
        None => 0,
        Some(word) => word.parse::<i128>().unwrap_or(0),
    }
}

/// The next number, 0 where it isn't one of 32 bits.
pub fn small(words: &mut SplitWhitespace<'_>) -> u32 {
    u32::try_from(number(words)).unwrap_or(0)
}

/// The next number, 0 where it isn't a signed one of 64 bits.
pub fn value(words: &mut SplitWhitespace<'_>) -> i64 {
    i64::try_from(number(words)).unwrap_or(0)
}

/// The number behind a 1, none behind a 0.
pub fn side(words: &mut SplitWhitespace<'_>) -> Option<i128> {
    if number(words) == 0 {
        None
    } else {
        Some(number(words))
    }
}

/// How many terms, and a variable and a coefficient for each.
fn add_terms(
    words: &mut SplitWhitespace<'_>,
    terms: &mut Items<(VarId, i128)>,
) -> Result<(), NoMemory> {
    for _ in 0..small(words) {
        let var = VarId::new(small(words));
        terms.push((var, number(words)))?;
    }
    Ok(())
}

fn terms_of(
    alloc: Global,
    words: &mut SplitWhitespace<'_>,
) -> Result<Items<(VarId, i128)>, NoMemory> {
    let mut terms = Items::new(alloc);
    add_terms(words, &mut terms)?;
    Ok(terms)
}

/// Both sides, and the terms.
fn row_of(alloc: Global, words: &mut SplitWhitespace<'_>) -> Result<Row, NoMemory> {
    let lo = side(words);
    let hi = side(words);
    let terms = terms_of(alloc, words)?;
    Ok(Row { terms, lo, hi })
}

fn add_row(
    alloc: Global,
    words: &mut SplitWhitespace<'_>,
    rows: &mut Items<Row>,
) -> Result<(), NoMemory> {
    rows.push(row_of(alloc, words)?)?;
    Ok(())
}

/// How many rows, and each of them.
fn add_rows(
    alloc: Global,
    words: &mut SplitWhitespace<'_>,
    rows: &mut Items<Row>,
) -> Result<(), NoMemory> {
    for _ in 0..small(words) {
        add_row(alloc, words, rows)?;
    }
    Ok(())
}

fn add_values(
    words: &mut SplitWhitespace<'_>,
    count: u32,
    values: &mut Items<Option<i64>>,
) -> Result<(), NoMemory> {
    for _ in 0..count {
        values.push(Some(value(words)))?;
    }
    Ok(())
}

fn read_parts(
    alloc: Global,
    words: &mut SplitWhitespace<'_>,
    parts: &mut ModelParts,
) -> Result<(), NoMemory> {
    let count = small(words);
    add_values(words, count, &mut parts.lower)?;
    add_values(words, count, &mut parts.upper)?;
    parts.constant = number(words);
    add_terms(words, &mut parts.cost)?;
    add_rows(alloc, words, &mut parts.rows)
}

/// The model of the next numbers: how many variables, their lower and their upper bounds, the constant, the cost's
/// terms, and the rows.
pub fn model_of(alloc: Global, words: &mut SplitWhitespace<'_>) -> Option<Model> {
    let mut parts = ModelParts {
        maximize: false,
        scale: 0,
        constant: 0,
        cost: Items::new(alloc),
        lower: Items::new(alloc),
        upper: Items::new(alloc),
        semi: Items::new(alloc),
        rows: Items::new(alloc),
        indicators: Items::new(alloc),
        sos: Items::new(alloc),
    };
    match read_parts(alloc, words, &mut parts) {
        Ok(()) => Model::build(alloc, parts).ok(),
        Err(_) => None,
    }
}

/// The list of the next numbers: the divisor, how many entries, and a row and a multiplier for each.
pub fn list_of(alloc: Global, words: &mut SplitWhitespace<'_>) -> Option<Multipliers> {
    let d = number(words);
    let mut entries = SmallVec::new(alloc);
    for _ in 0..small(words) {
        let row = RowId::new(small(words));
        if entries.push((row, number(words))).is_err() {
            return None;
        }
    }
    Multipliers::from_entries(d, entries)
}
