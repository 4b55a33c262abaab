//! Drafts from lines.

use anyhow::{Result, anyhow, bail};
use sp_base::next_field;
use sp_decimal::{Decimal, Numeral};
use sp_draft::{Draft, DraftIndicator, DraftRow, DraftSos, DraftVar, Names, Sense, Sides, VarKind};
use sp_model::{Items, NoMemory, SosKind, VarId};
use std::alloc::Global;

/// The most names that are added.
const MOST_NAMES: usize = 1 << 26;

/// A draft of which nothing is said yet.
pub fn empty(alloc: Global) -> Draft {
    Draft {
        maximize: false,
        names: Names::new(alloc),
        vars: Items::new(alloc),
        cost: Items::new(alloc),
        constants: Items::new(alloc),
        rows: Items::new(alloc),
        indicators: Items::new(alloc),
        sos: Items::new(alloc),
    }
}

/// Want of memory as an error of this program.
pub fn no_memory(_error: NoMemory) -> anyhow::Error {
    anyhow!("no memory")
}

fn numeral_of(word: &[u8]) -> Result<Numeral> {
    match Numeral::read(word) {
        Ok(numeral) => Ok(numeral),
        Err(_) => bail!("a word is no number"),
    }
}

fn decimal_of(word: &[u8]) -> Result<Decimal> {
    let numeral = numeral_of(word)?;
    match &numeral {
        Numeral::Exact(d) => Ok(*d),
        Numeral::Huge { .. } => bail!("a number is too great"),
    }
}

/// A place of 32 bits.
fn place_of(d: &Decimal) -> Result<VarId> {
    if d.s != 0 || d.p < 0 || d.p >= 1 << 32 {
        bail!("a number is no variable");
    }
    Ok(VarId::new(d.p as u32))
}

fn var_of(word: &[u8]) -> Result<VarId> {
    let number = decimal_of(word)?;
    place_of(&number)
}

fn bound_of(word: &[u8]) -> Result<Option<Numeral>> {
    if word.eq_ignore_ascii_case(b"-") {
        return Ok(None);
    }
    let bound = numeral_of(word)?;
    Ok(Some(bound))
}

fn kind_of(word: &[u8]) -> Result<VarKind> {
    match word {
        b"int" => Ok(VarKind::Integer),
        b"bin" => Ok(VarKind::Binary),
        b"con" => Ok(VarKind::Continuous),
        _ => bail!("a kind is unknown"),
    }
}

/// A variable: its kind, its two bounds, and whether it is semi-integer.
fn variable_of(rest: &[u8]) -> Result<DraftVar> {
    let Some((kind, rest)) = next_field(rest) else {
        bail!("a kind is missing")
    };
    let Some((lower, rest)) = next_field(rest) else {
        bail!("a lower bound is missing")
    };
    let Some((upper, rest)) = next_field(rest) else {
        bail!("an upper bound is missing")
    };
    let semi = match next_field(rest) {
        None => false,
        Some(_) => true,
    };
    Ok(DraftVar {
        kind: kind_of(kind)?,
        lower: bound_of(lower)?,
        upper: bound_of(upper)?,
        semi,
    })
}

/// The terms of the fields, a variable and a number for each.
fn terms_of(alloc: Global, fields: &[u8]) -> Result<Items<(VarId, Decimal)>> {
    let mut terms = Items::new(alloc);
    let mut rest = fields;
    while let Some((var, behind)) = next_field(rest) {
        let Some((value, behind)) = next_field(behind) else {
            bail!("a coefficient is missing")
        };
        terms.push((var_of(var)?, decimal_of(value)?))?;
        rest = behind;
    }
    Ok(terms)
}

/// The sides that one number gives, `None` where the kind has two.
fn one_number(kind: &[u8], value: &Numeral) -> Option<Sides> {
    match kind {
        b"le" => Some(Sides::Le(*value)),
        b"ge" => Some(Sides::Ge(*value)),
        b"eq" => Some(Sides::Eq(*value)),
        _ => None,
    }
}

fn sense_of(kind: &[u8]) -> Result<Sense> {
    match kind {
        b"l" => Ok(Sense::Less),
        b"g" => Ok(Sense::Greater),
        b"e" => Ok(Sense::Equal),
        _ => bail!("a kind of sides is unknown"),
    }
}

/// The sides that two numbers give.
fn two_numbers(kind: &[u8], first: &Numeral, second: &[u8]) -> Result<Sides> {
    if kind.eq_ignore_ascii_case(b"in") {
        let upper = numeral_of(second)?;
        return Ok(Sides::Between(*first, upper));
    }
    let sense = sense_of(kind)?;
    let range = decimal_of(second)?;
    Ok(Sides::Ranged {
        sense,
        rhs: *first,
        range,
    })
}

/// A row: its sides, and its terms.
fn row_of(alloc: Global, fields: &[u8]) -> Result<DraftRow> {
    let Some((kind, rest)) = next_field(fields) else {
        bail!("sides are missing")
    };
    let Some((first, rest)) = next_field(rest) else {
        bail!("a side is missing")
    };
    let first = numeral_of(first)?;
    if let Some(sides) = one_number(kind, &first) {
        return with_terms(alloc, sides, rest);
    }
    let Some((second, rest)) = next_field(rest) else {
        bail!("a side is missing")
    };
    let sides = two_numbers(kind, &first, second)?;
    with_terms(alloc, sides, rest)
}

fn with_terms(alloc: Global, sides: Sides, fields: &[u8]) -> Result<DraftRow> {
    let terms = terms_of(alloc, fields)?;
    Ok(DraftRow { terms, sides })
}

/// An indicator: its variable, the value for which its row holds, and the row.
fn indicator_of(alloc: Global, fields: &[u8]) -> Result<DraftIndicator> {
    let Some((var, rest)) = next_field(fields) else {
        bail!("a variable is missing")
    };
    let Some((on, rest)) = next_field(rest) else {
        bail!("a value is missing")
    };
    let var = var_of(var)?;
    let on = on.eq_ignore_ascii_case(b"1");
    let row = row_of(alloc, rest)?;
    Ok(DraftIndicator { var, on, row })
}

/// A set: its kind, and its members.
fn set_of(alloc: Global, fields: &[u8]) -> Result<DraftSos> {
    let Some((kind, rest)) = next_field(fields) else {
        bail!("a kind is missing")
    };
    let kind = if kind.eq_ignore_ascii_case(b"1") {
        SosKind::One
    } else {
        SosKind::Two
    };
    let members = terms_of(alloc, rest)?;
    Ok(DraftSos { kind, members })
}

/// Adds a name, of which there are at most 2^26.
pub fn add_name(names: &mut Names, name: &[u8]) -> Result<()> {
    if names.len() >= MOST_NAMES {
        bail!("too many names");
    }
    let _id = names.add(name).map_err(no_memory)?;
    Ok(())
}

/// Adds the name of the variable at the place.
fn name_next(alloc: Global, names: &mut Names, place: usize) -> Result<()> {
    let name = format!(in alloc; "x{place}")?;
    add_name(names, name.as_bytes())
}

/// Puts the variable behind the others. The first line only mentions types, without which the toolchain stops here with
/// a fault of its own.
fn push_variable(vars: &mut Items<DraftVar>, variable: DraftVar) -> Result<()> {
    let _held: Option<(VarKind, Numeral)> = None;
    vars.push(variable)?;
    Ok(())
}

/// A further variable, under a name of its own.
fn add_variable(alloc: Global, draft: &mut Draft, fields: &[u8]) -> Result<()> {
    let _held: Option<(VarKind, Numeral)> = None;
    let variable = variable_of(fields)?;
    let place = draft.vars.len();
    name_next(alloc, &mut draft.names, place)?;
    push_variable(&mut draft.vars, variable)
}

/// More terms of the objective.
fn add_cost(draft: &mut Draft, fields: &[u8]) -> Result<()> {
    let mut rest = fields;
    while let Some((var, behind)) = next_field(rest) {
        let Some((value, behind)) = next_field(behind) else {
            bail!("a coefficient is missing")
        };
        draft.cost.push((var_of(var)?, decimal_of(value)?))?;
        rest = behind;
    }
    Ok(())
}

/// Adds what a line says to the draft.
pub fn take_line(alloc: Global, draft: &mut Draft, word: &[u8], fields: &[u8]) -> Result<()> {
    match word {
        b"max" => draft.maximize = true,
        b"var" => add_variable(alloc, draft, fields)?,
        b"cost" => add_cost(draft, fields)?,
        b"add" => add_constant(draft, fields)?,
        b"row" => {
            let row = row_of(alloc, fields)?;
            draft.rows.push(row)?;
        }
        b"if" => {
            let indicator = indicator_of(alloc, fields)?;
            draft.indicators.push(indicator)?;
        }
        b"set" => {
            let set = set_of(alloc, fields)?;
            draft.sos.push(set)?;
        }
        b"#" => {}
        _ => bail!("a line is unknown"),
    }
    Ok(())
}

fn add_constant(draft: &mut Draft, fields: &[u8]) -> Result<()> {
    let Some((value, _)) = next_field(fields) else {
        bail!("a constant is missing")
    };
    let value = decimal_of(value)?;
    draft.constants.push(value)?;
    Ok(())
}
