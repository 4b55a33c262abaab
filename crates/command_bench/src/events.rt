//! Events that a pool is told.
ghost use Rattle.std.specs.Prelude.{All, IfSome, IfOk};
ghost use Rattle.sp_model.specs.Cuts.{IsGap};
ghost use Rattle.sp_pool.specs.Pools.{IsNear};

use anyhow::{Result, bail};
use sp_base::{next_field, next_line};
use sp_decimal::Numeral;
use sp_model::{Gap, Gaps, NoMemory};
use sp_pool::{Offered, Pool, PoolEvent, Rule};
use std::alloc::Global;
use std::io;
use std::io::{BufWriter, Write};

/// The greatest magnitude of a value that a pool is offered.
const FARTHEST: u128 = 1_000_000_000_000_000_000_000_000_000_000_000_000;

/// Tells a pool each line's event, and writes the members where a line asks for them.
pub fn tell<P: Print>(rt: &P, alloc: Global, file: &[u8]) -> Result<()> {
    let mut out = BufWriter::new(alloc, io::writer(rt))?;
    let mut pool = Pool::new(alloc, 0);
    let mut rest = file;
    while let Some((line, behind)) = next_line(rest) {
        if let Some((word, numbers)) = next_field(line) {
            let numbers = numbers_of(alloc, numbers)?;
            if word.eq_ignore_ascii_case(b"members") {
                write_members(&mut out, &pool)?;
            } else {
                tell_event(alloc, &mut pool, word, numbers.as_slice())?;
            }
        }
        rest = behind;
    }
    out.flush()?;
    Ok(())
}

/// The whole numbers of a text.
fn numbers_of(alloc: Global, text: &[u8]) -> Result<Vec<i128>> {
    let mut numbers = Vec::new(alloc);
    let mut rest = text;
    while let Some((word, behind)) = next_field(rest) {
        numbers.push(number_of(word)?)?;
        rest = behind;
    }
    Ok(numbers)
}

fn number_of(word: &[u8]) -> Result<i128> {
    match Numeral::read(word) {
        Ok(numeral) => match &numeral {
            Numeral::Exact(d) => Ok(d.p),
            Numeral::Huge { .. } => bail!("a number is too great"),
        },
        Err(_) => bail!("a word is no number"),
    }
}

fn write_members<W: Write>(out: &mut W, pool: &Pool) -> Result<()> {
    for member in pool.members().map_err(no_memory)?.iter() {
        let serial = member.serial;
        write!(out, "{serial} ")?;
    }
    out.write_all(b"\n")?;
    Ok(())
}

fn no_memory(_error: NoMemory) -> anyhow::Error {
    anyhow::anyhow!("no memory")
}

/// A number of 32 bits.
fn small(number: i128) -> Result<u32> {
    if number < 0 || number >= 1 << 32 {
        bail!("a number is out of range");
    }
    Ok(number as u32)
}

/// An offer of a serial, a value and whether it passes.
fn offer_of(serial: i128, value: i128, passes: i128) -> Result<Offered>
    ensures { IfOk result (λ o. IsNear o.value) }
{
    if value.unsigned_abs() > FARTHEST {
        bail!("a value is too great");
    }
    Ok(Offered {
        serial: small(serial)?,
        value,
        passes: passes != 0,
    })
}

/// The offers that the numbers are, three for each.
fn offers_of(alloc: Global, numbers: &[i128]) -> Result<Vec<Offered>>
    ensures { IfOk result (λ os. All (λ o. IsNear o.value) os.items) }
{
    let mut offers = Vec::new(alloc);
    let mut place = 0;
    while numbers.len().saturating_sub(place) >= 3 {
        offers.push(offer_of(numbers[place], numbers[place + 1], numbers[place + 2])?)?;
        place += 3;
    }
    Ok(offers)
}

/// A gap of so many digits with so many behind the point; a negative number stands for none.
fn gap_of(p: i128, s: i128) -> Result<Gap>
    ensures { IfOk result IsGap }
{
    if p < 0 || s < 0 || s > 12 || p >= 1_000_000_000_000 {
        return Ok(Gap::Unlimited);
    }
    let gap = Gap::Of {
        p: p as u64,
        s: s as u8,
    };
    if gap.is_lawful() {
        Ok(gap)
    } else {
        bail!("a gap isn't lawful")
    }
}

fn serials_of(alloc: Global, numbers: &[i128]) -> Result<Vec<u32>> {
    let mut serials = Vec::new(alloc);
    for number in numbers {
        serials.push(small(*number)?)?;
    }
    Ok(serials)
}

fn offer_event(pool: &mut Pool, serial: i128, value: i128, passes: i128) -> Result<()> {
    let offered = offer_of(serial, value, passes)?;
    pool.apply(PoolEvent::Offer {
        serial: offered.serial,
        value: offered.value,
        passes: offered.passes,
    })
    .map_err(no_memory)?;
    Ok(())
}

fn gap_event(pool: &mut Pool, abs: (i128, i128), rel: (i128, i128)) -> Result<()> {
    let gaps = Gaps {
        abs: gap_of(abs.0, abs.1)?,
        rel: gap_of(rel.0, rel.1)?,
    };
    pool.apply(PoolEvent::Gap(gaps)).map_err(no_memory)?;
    Ok(())
}

fn rule_of(number: i128) -> Rule {
    if number == 0 { Rule::Fifo } else { Rule::Worst }
}

/// Tells the pool an event by its name and its numbers.
fn tell_event(alloc: Global, pool: &mut Pool, word: &[u8], numbers: &[i128]) -> Result<()> {
    if word.eq_ignore_ascii_case(b"offer") && numbers.len() == 3 {
        return offer_event(pool, numbers[0], numbers[1], numbers[2]);
    }
    if word.eq_ignore_ascii_case(b"capacity") && numbers.len() == 1 {
        let capacity = small(numbers[0])?;
        pool.apply(PoolEvent::Capacity(capacity))
            .map_err(no_memory)?;
        return Ok(());
    }
    if word.eq_ignore_ascii_case(b"rule") && numbers.len() == 1 {
        pool.apply(PoolEvent::Rule(rule_of(numbers[0])))
            .map_err(no_memory)?;
        return Ok(());
    }
    if word.eq_ignore_ascii_case(b"gap") && numbers.len() == 4 {
        return gap_event(pool, (numbers[0], numbers[1]), (numbers[2], numbers[3]));
    }
    if word.eq_ignore_ascii_case(b"retain") {
        let serials = serials_of(alloc, numbers)?;
        pool.apply(PoolEvent::Retain(serials.as_slice()))
            .map_err(no_memory)?;
        return Ok(());
    }
    if word.eq_ignore_ascii_case(b"refresh") {
        let offers = offers_of(alloc, numbers)?;
        pool.apply(PoolEvent::Refresh(offers.as_slice()))
            .map_err(no_memory)?;
        return Ok(());
    }
    bail!("no event")
}

/// Offers points to a full pool under Worst, and answers the sum of the serials that it holds in the end.
pub fn fill(alloc: Global, members: u32, offers: u32) -> Result<u64> {
    let mut pool = Pool::new(alloc, 0);
    pool.apply(PoolEvent::Capacity(members)).map_err(no_memory)?;
    pool.apply(PoolEvent::Rule(Rule::Worst)).map_err(no_memory)?;
    for round in 0..u64::from(members) + u64::from(offers) {
        // Values in a scattered order, each lower than most before it.
        let value = 1_000_003_u64
            .wrapping_mul(round)
            .wrapping_rem(1_000_000_007)
            / (round / 1024 + 1);
        pool.apply(PoolEvent::Offer {
            serial: (round % 4_000_000_000) as u32,
            value: i128::from(value),
            passes: true,
        })
        .map_err(no_memory)?;
    }
    let mut sum = 0_u64;
    for member in pool.members().map_err(no_memory)?.iter() {
        sum = sum.wrapping_add(u64::from(member.serial));
    }
    Ok(sum)
}
