//! The command that adds a range filter.

ghost use Rattle.std.specs.Prelude.{◌≡◌, ◌∷◌, [], ◌++◌, IfOk, IfErr, OnOk, MatchResult, Some, None, List, ℕ};
ghost use Rattle.sp_base.specs.Fields.{fields};
ghost use Rattle.sp_command_words.specs.Keywords.{symbol_of};
ghost use Rattle.sp_command.specs.Filters.{is_number, coefficient_of, begins_with_sign, signed, counted_or_named, step_of, sum_from};
ghost use Rattle.sp_command.specs.InnerResults.{IsBad};

use crate::bounds::exact_number;
use crate::commands::RangeTerm;
use crate::places::{Place, Step};
use crate::refusals::CommandRefusal;
use sp_base::{Text, next_field};
use sp_command_words::{Symbol, Tables};
use sp_decimal::{Decimal, Numeral, NumeralFault};
use sp_model::Items;
use std::alloc::Global;

/// The text of these bytes.
pub(crate) fn copied(alloc: Global, bytes: &[u8]) -> Result<Text, CommandRefusal>
    ensures ok { IfOk result (λ text. text ≡ bytes.now) }
    ensures err { IfErr result (λ why. why ≡ CommandRefusal.NoMemory) }
{
    match bytes.to_vec(alloc) {
        Ok(bytes) => Ok(Text::from_vec(bytes)),
        Err(_) => Err(CommandRefusal::NoMemory),
    }
}

/// Whether the word is a numeral.
#[tactic(auto, unfolding(crate::specs::Filters::is_number))]
fn is_numeral(word: &[u8]) -> bool
    ensures { result ≡ is_number word.now }
{
    match Numeral::read(word) {
        Ok(_) => true,
        Err(fault) => match fault {
            NumeralFault::NotNumeral => false,
            NumeralFault::Wide => true,
        },
    }
}

/// Whether the word begins with a sign.
fn has_sign(word: &[u8]) -> bool
    ensures { result ≡ begins_with_sign word.now }
{
    match word {
        [] => false,
        [first, ..] => *first == b'+' || *first == b'-',
    }
}

/// The coefficient that the word is.
fn coefficient(word: &[u8]) -> Option<Decimal>
    ensures { result ≡ coefficient_of word.now }
{
    if has_sign(word) {
        None
    } else {
        exact_number(word)
    }
}

/// The number with a sign.
fn with_sign(negative: bool, d: &Decimal) -> Decimal
    ensures { result ≡ signed negative d.now }
{
    if negative { d.negated() } else { *d }
}

/// A number or a name, after a sign or at the first term.
fn count_or_name(negative: bool, word: &[u8]) -> Step
    ensures { result ≡ counted_or_named negative word.now }
{
    if is_numeral(word) {
        return match coefficient(word) {
            None => Step::Bad,
            Some(d) => Step::Goes(Place::Counted(with_sign(negative, &d))),
        };
    }
    Step::Names(with_sign(negative, &Decimal { p: 1, s: 0 }))
}

/// What a word does in a sum.
fn step(tables: &Tables, place: &Place, word: &[u8]) -> Step
    ensures { result ≡ step_of place.now (symbol_of word.now) word.now }
{
    match tables.symbol_of(word) {
        Some(symbol) => symbol_step(place, symbol),
        None => word_step(place, word),
    }
}

fn symbol_step(place: &Place, symbol: Symbol) -> Step
    ensures { (word : List ℕ) → result ≡ step_of place.now (Some symbol) word }
{
    match place {
        Place::First => match symbol {
            Symbol::Plus => Step::Goes(Place::Signed(false)),
            Symbol::Minus => Step::Goes(Place::Signed(true)),
            Symbol::AtMost => Step::Bad,
        },
        Place::Next => match symbol {
            Symbol::Plus => Step::Goes(Place::Signed(false)),
            Symbol::Minus => Step::Goes(Place::Signed(true)),
            Symbol::AtMost => Step::Ends,
        },
        Place::Signed(_) => Step::Bad,
        Place::Counted(_) => Step::Bad,
    }
}

fn word_step(place: &Place, word: &[u8]) -> Step
    ensures { result ≡ step_of place.now None word.now }
{
    match place {
        Place::First => count_or_name(false, word),
        Place::Next => Step::Bad,
        Place::Signed(negative) => count_or_name(*negative, word),
        Place::Counted(d) => {
            if is_numeral(word) {
                Step::Bad
            } else {
                Step::Names(*d)
            }
        }
    }
}

/// Puts a term at the end.
fn put_term(
    alloc: Global,
    terms: &mut Items<RangeTerm>,
    word: &[u8],
    coefficient: &Decimal,
) -> Result<(), CommandRefusal>
    ensures ok { OnOk result (terms.new ≡ terms.old ++ (word.now, coefficient.now) ∷ []) }
    ensures err { IfErr result (λ why. why ≡ CommandRefusal.NoMemory) }
{
    let name = copied(alloc, word)?;
    match terms.push((name, *coefficient)) {
        Ok(()) => Ok(()),
        Err(_) => Err(CommandRefusal::NoMemory),
    }
}

/// The sum that the words begin with, and the text behind its comparison.
pub(crate) fn sum<'a>(
    alloc: Global,
    tables: &Tables,
    text: &'a [u8],
) -> Result<(Items<RangeTerm>, &'a [u8]), CommandRefusal>
    ensures { MatchResult result (λ found. sum_from Place.First (fields text.now) ≡ Some (found.0, fields found.1.now)) (λ why. IsBad why (sum_from Place.First (fields text.now))) }
{
    let mut terms = Items::new(alloc);
    let mut place = Place::First;
    let mut rest = text;
    while let Some((word, behind)) = next_field(rest) {
        match step(tables, &place, word) {
            Step::Bad => return Err(CommandRefusal::BadArgument),
            Step::Ends => return Ok((terms, behind)),
            Step::Goes(next) => place = next,
            Step::Names(d) => {
                put_term(alloc, &mut terms, word, &d)?;
                place = Place::Next;
            }
        }
        rest = behind;
    }
    Err(CommandRefusal::BadArgument)
}
