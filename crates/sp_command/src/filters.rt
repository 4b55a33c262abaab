//! The commands on filters.

ghost use Rattle.std.specs.Prelude.{◌≡◌, IfOk};
ghost use Rattle.sp_command.specs.Lawful.{IsShort, IsLawfulCommand};
ghost use Rattle.std.specs.Option.{option_and_then};
ghost use Rattle.sp_base.specs.Fields.{fields};
ghost use Rattle.sp_command.specs.Filters.{is_filter_name, range_of, range_named, range_above, range_sum, sum_from, diversity_of, diversity_named, diversity_above, diversity_within, delete_of, is_at_most};
ghost use Rattle.sp_command.specs.Commands.{only};
ghost use Rattle.sp_command.specs.Values.{upper_of};
ghost use Rattle.sp_command_words.specs.Keywords.{symbol_of};
ghost use Rattle.sp_command.specs.InnerResults.{Gives};

use crate::bounds::{lower_bound, upper_bound};
use crate::commands::Command;
use crate::diversity::terms;
use crate::places::Place;
use crate::ranges::{copied, sum};
use crate::refusals::CommandRefusal;
use crate::settings::only_field;
use sp_base::next_field;
use sp_command_words::{Symbol, Tables};
use sp_decimal::Decimal;
use std::alloc::Global;

/// The most bytes of a filter's name.
const LONGEST_NAME: usize = 255;

/// Whether the word can be a filter's name.
fn is_name(word: &[u8]) -> bool
    ensures { result ≡ is_filter_name word.now }
{
    word.len() <= LONGEST_NAME
}

/// Whether the word is `<=`.
fn compares(tables: &Tables, word: &[u8]) -> bool
    ensures { result ≡ is_at_most (symbol_of word.now) }
{
    match tables.symbol_of(word) {
        None => false,
        Some(symbol) => match symbol {
            Symbol::Plus => false,
            Symbol::Minus => false,
            Symbol::AtMost => true,
        },
    }
}

/// The upper bound that is the only word left.
fn last_bound(rest: &[u8]) -> Option<Option<Decimal>>
    ensures { result ≡ option_and_then upper_of (only (fields rest.now)) }
{
    match only_field(rest) {
        None => None,
        Some(word) => upper_bound(word),
    }
}

fn range_from(
    alloc: Global,
    tables: &Tables,
    name: &[u8],
    lo: Option<Decimal>,
    rest: &[u8],
) -> Result<Command, CommandRefusal>
    requires { IsShort name.now }
    ensures gives { Gives result (range_sum name.now lo (sum_from Place.First (fields rest.now))) }
    ensures lawful { IfOk result IsLawfulCommand }
{
    match sum(alloc, tables, rest) {
        Err(why) => Err(why),
        Ok((terms, rest)) => match last_bound(rest) {
            None => Err(CommandRefusal::BadArgument),
            Some(hi) => match copied(alloc, name) {
                Err(_) => Err(CommandRefusal::NoMemory),
                Ok(name) => Ok(Command::FilterRange {
                    name,
                    lo,
                    terms,
                    hi,
                }),
            },
        },
    }
}

fn range_with(
    alloc: Global,
    tables: &Tables,
    name: &[u8],
    lo: Option<Decimal>,
    rest: &[u8],
) -> Result<Command, CommandRefusal>
    requires { IsShort name.now }
    ensures gives { Gives result (range_above name.now lo (fields rest.now)) }
    ensures lawful { IfOk result IsLawfulCommand }
{
    match next_field(rest) {
        None => Err(CommandRefusal::BadArgument),
        Some((word, rest)) => {
            if compares(tables, word) {
                range_from(alloc, tables, name, lo, rest)
            } else {
                Err(CommandRefusal::BadArgument)
            }
        }
    }
}

fn range_for(
    alloc: Global,
    tables: &Tables,
    name: &[u8],
    rest: &[u8],
) -> Result<Command, CommandRefusal>
    requires { IsShort name.now }
    ensures gives { Gives result (range_named name.now (fields rest.now)) }
    ensures lawful { IfOk result IsLawfulCommand }
{
    match next_field(rest) {
        None => Err(CommandRefusal::BadArgument),
        Some((word, rest)) => match lower_bound(word) {
            None => Err(CommandRefusal::BadArgument),
            Some(lo) => range_with(alloc, tables, name, lo, rest),
        },
    }
}

/// A range filter: NAME LO <= EXPR <= HI.
pub(crate) fn range(alloc: Global, tables: &Tables, rest: &[u8]) -> Result<Command, CommandRefusal>
    ensures gives { Gives result (range_of (fields rest.now)) }
    ensures lawful { IfOk result IsLawfulCommand }
{
    match next_field(rest) {
        None => Err(CommandRefusal::BadArgument),
        Some((name, rest)) => {
            if is_name(name) {
                range_for(alloc, tables, name, rest)
            } else {
                Err(CommandRefusal::BadArgument)
            }
        }
    }
}

fn diversity_from(
    alloc: Global,
    name: &[u8],
    lo: Option<Decimal>,
    hi: Option<Decimal>,
    rest: &[u8],
) -> Result<Command, CommandRefusal>
    requires { IsShort name.now }
    ensures gives { Gives result (diversity_within name.now lo hi (fields rest.now)) }
    ensures lawful { IfOk result IsLawfulCommand }
{
    match terms(alloc, rest) {
        Err(why) => Err(why),
        Ok(terms) => match copied(alloc, name) {
            Err(_) => Err(CommandRefusal::NoMemory),
            Ok(name) => Ok(Command::FilterDiversity {
                name,
                lo,
                hi,
                terms,
            }),
        },
    }
}

fn diversity_with(
    alloc: Global,
    name: &[u8],
    lo: Option<Decimal>,
    rest: &[u8],
) -> Result<Command, CommandRefusal>
    requires { IsShort name.now }
    ensures gives { Gives result (diversity_above name.now lo (fields rest.now)) }
    ensures lawful { IfOk result IsLawfulCommand }
{
    match next_field(rest) {
        None => Err(CommandRefusal::BadArgument),
        Some((word, rest)) => match upper_bound(word) {
            None => Err(CommandRefusal::BadArgument),
            Some(hi) => diversity_from(alloc, name, lo, hi, rest),
        },
    }
}

fn diversity_for(alloc: Global, name: &[u8], rest: &[u8]) -> Result<Command, CommandRefusal>
    requires { IsShort name.now }
    ensures gives { Gives result (diversity_named name.now (fields rest.now)) }
    ensures lawful { IfOk result IsLawfulCommand }
{
    match next_field(rest) {
        None => Err(CommandRefusal::BadArgument),
        Some((word, rest)) => match lower_bound(word) {
            None => Err(CommandRefusal::BadArgument),
            Some(lo) => diversity_with(alloc, name, lo, rest),
        },
    }
}

/// A diversity filter: NAME LO HI T ..
pub(crate) fn diversity(alloc: Global, rest: &[u8]) -> Result<Command, CommandRefusal>
    ensures gives { Gives result (diversity_of (fields rest.now)) }
    ensures lawful { IfOk result IsLawfulCommand }
{
    match next_field(rest) {
        None => Err(CommandRefusal::BadArgument),
        Some((name, rest)) => {
            if is_name(name) {
                diversity_for(alloc, name, rest)
            } else {
                Err(CommandRefusal::BadArgument)
            }
        }
    }
}

/// The removal of a filter: NAME.
pub(crate) fn deletion(alloc: Global, rest: &[u8]) -> Result<Command, CommandRefusal>
    ensures gives { Gives result (delete_of (fields rest.now)) }
    ensures lawful { IfOk result IsLawfulCommand }
{
    match only_field(rest) {
        None => Err(CommandRefusal::BadArgument),
        Some(name) => {
            if !is_name(name) {
                return Err(CommandRefusal::BadArgument);
            }
            match copied(alloc, name) {
                Err(_) => Err(CommandRefusal::NoMemory),
                Ok(name) => Ok(Command::FilterDelete(name)),
            }
        }
    }
}
