//! The terms of a diversity filter.

ghost use Rattle.std.specs.Prelude.{◌≡◌, ◌∷◌, [], ◌++◌, OnOk, IfErr, IfOk, MatchOption, MatchResult, IfSome, All, ◌≤◌, ◌^◌, unsigned_abs, Some, None};
ghost use Rattle.sp_command.specs.Lawful.{IsDistance};
ghost use Rattle.sp_base.specs.Fields.{fields};
ghost use Rattle.sp_command.specs.Filters.{cut_last, reference_of, distance_of, distances, joined};
ghost use Rattle.sp_command.specs.InnerResults.{IsBad, after_distances};

use crate::bounds::exact_number;
use crate::commands::DiversityTerm;
use crate::numbers::whole_number;
use crate::ranges::copied;
use crate::refusals::CommandRefusal;
use crate::settings::tail;
use sp_base::next_field;
use sp_decimal::Decimal;
use sp_model::Items;
use std::alloc::Global;

/// The greatest magnitude of a reference value.
const GREATEST: u64 = 1_000_000_000_000_000;

/// What stands before the last colon, and what stands behind it.
fn split_last(text: &[u8]) -> Option<(&[u8], &[u8])>
    ensures { MatchOption result (cut_last text.now ≡ None) (λ cut. cut_last text.now ≡ Some (cut.0.now, cut.1.now)) }
{
    for place in (0..text.len()).rev() {
        if text[place] == b':' {
            return Some((&text[..place], tail(text, place + 1)));
        }
    }
    None
}

/// The whole number with a minus or without.
fn reference(text: &[u8]) -> Option<i64>
    ensures value { result ≡ reference_of text.now }
    ensures small { IfSome result (λ z. unsigned_abs z ≤ 10 ^ 15) }
{
    if text.is_empty() {
        return None;
    }
    if text[0] == b'-' {
        return match whole_number(0, GREATEST, tail(text, 1)) {
            None => None,
            Some(n) => Some(-(n as i64)),
        };
    }
    match whole_number(0, GREATEST, text) {
        None => None,
        Some(n) => Some(n as i64),
    }
}

/// The term that the word is: the name, its weight and its reference value.
fn distance(word: &[u8]) -> Option<(&[u8], Decimal, i64)>
    ensures value { MatchOption result (distance_of word.now ≡ None) (λ term. distance_of word.now ≡ Some (term.0.now, term.1, term.2)) }
    ensures small { IfSome result (λ term. unsigned_abs term.2 ≤ 10 ^ 15) }
{
    match split_last(word) {
        None => None,
        Some((head, behind)) => match split_last(head) {
            None => None,
            Some((name, weight)) => match reference(behind) {
                None => None,
                Some(z) => {
                    if name.is_empty() {
                        return None;
                    }
                    match exact_number(weight) {
                        None => None,
                        Some(d) => Some((name, d, z)),
                    }
                }
            },
        },
    }
}

/// Puts a term at the end.
fn put_term(
    alloc: Global,
    terms: &mut Items<DiversityTerm>,
    name: &[u8],
    weight: &Decimal,
    reference: &i64,
) -> Result<(), CommandRefusal>
    ensures ok { OnOk result (terms.new ≡ terms.old ++ (name.now, weight.now, reference.now) ∷ []) }
    ensures err { IfErr result (λ why. why ≡ CommandRefusal.NoMemory) }
{
    let name = copied(alloc, name)?;
    match terms.push((name, *weight, *reference)) {
        Ok(()) => Ok(()),
        Err(_) => Err(CommandRefusal::NoMemory),
    }
}

/// Puts the term that the word is at the end.
fn put_word(
    alloc: Global,
    terms: &mut Items<DiversityTerm>,
    word: &[u8],
) -> Result<(), CommandRefusal>
    ensures ok { OnOk result (after_distances terms.old (joined (distance_of word.now) (Some [])) ≡ Some terms.new) }
    ensures err { IfErr result (λ why. IsBad why (distance_of word.now)) }
    ensures small { All IsDistance terms.old → OnOk result (All IsDistance terms.new) }
{
    match distance(word) {
        None => Err(CommandRefusal::BadArgument),
        Some((name, weight, reference)) => put_term(alloc, terms, name, &weight, &reference),
    }
}

/// The terms that the words are, at least one.
pub(crate) fn terms(alloc: Global, text: &[u8]) -> Result<Items<DiversityTerm>, CommandRefusal>
    ensures terms { MatchResult result (λ found. distances (fields text.now) ≡ Some found) (λ why. IsBad why (distances (fields text.now))) }
    ensures small { IfOk result (All IsDistance) }
{
    if next_field(text).is_none() {
        return Err(CommandRefusal::BadArgument);
    }
    let mut terms = Items::new(alloc);
    let mut rest = text;
    while let Some((word, behind)) = next_field(rest) {
        put_word(alloc, &mut terms, word)?;
        rest = behind;
    }
    Ok(terms)
}
