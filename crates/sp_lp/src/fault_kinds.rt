//! What is wrong with a token that can't stand where it stands: which other token in its place, or in the place of one
//! before it, would go on.
ghost use Rattle.std.specs.Prelude.{◌≡◌, ◌≤◌, ◌+◌, length, IfOk, All};
ghost use Rattle.sp_lp_tokens.specs.SeenTokens.{all_seen};
ghost use Rattle.sp_lp_tokens.specs.Tokens.{IsSpan};
ghost use Rattle.sp_lp.specs.Refusals.{marks_from, name_stands};
ghost use Rattle.sp_lp.specs.InnerKinds.{is_number_part, is_wide_here, is_wide_before, is_known_set, is_known_label, is_known_opening, is_duplicate, fault_kind};

use crate::other_tokens::{Other, goes_with};
use crate::standing::{
    colon_stands_at, huge_stands_at, is_unsupported_at, name_stands_at, set_kind_stands_at,
};
use sp_lp_tokens::Token;
use sp_lp_words::Tables;
use sp_model::NoMemory;
use std::alloc::Global;

/// What is wrong with a token.
#[derive(Clone, Copy, PartialEq, Eq, Debug)]
pub enum FaultKind {
    /// It can't stand there.
    Syntax,
    /// It is a coefficient, a constant or a weight that is huge.
    Wide,
    /// It is the name of a coefficient that is huge: the token before it.
    WideBefore,
    /// It ends a name that is there already, or is one.
    Duplicate,
    /// The format has it, and it isn't supported.
    Unsupported,
}

/// Whether a name stands behind the place.
fn name_stands_behind(tables: &Tables, source: &[u8], list: &[Token], place: usize) -> bool
    requires spans { All (IsSpan source.now) list.now }
    ensures { result ≡ name_stands (marks_from (all_seen source.now list.now) (place + 1)) }
{
    if place < list.len() {
        name_stands_at(tables, source, list, place + 1)
    } else {
        false
    }
}

/// Whether a number at the place would be a constant, a weight, or the coefficient of the name behind it.
fn is_number_part(
    alloc: Global,
    tables: &Tables,
    source: &[u8],
    list: &[Token],
    place: usize,
) -> Result<bool, NoMemory>
    requires spans { All (IsSpan source.now) list.now }
    requires within { place ≤ length list.now }
    ensures { IfOk result (λ is. is ≡ is_number_part (all_seen source.now list.now) place) }
{
    if goes_with(
        alloc,
        tables,
        source,
        list,
        place,
        &[Other::Number, Other::Plus],
    )? {
        return Ok(true);
    }
    if goes_with(
        alloc,
        tables,
        source,
        list,
        place,
        &[Other::Number, Other::Name, Other::Colon],
    )? {
        return Ok(true);
    }
    if name_stands_behind(tables, source, list, place) {
        goes_with(
            alloc,
            tables,
            source,
            list,
            place,
            &[Other::Number, Other::Name],
        )
    } else {
        Ok(false)
    }
}

/// Whether at the place is a huge number that is a constant, a weight or a coefficient.
fn is_wide_here(
    alloc: Global,
    tables: &Tables,
    source: &[u8],
    list: &[Token],
    place: usize,
) -> Result<bool, NoMemory>
    requires spans { All (IsSpan source.now) list.now }
    requires within { place ≤ length list.now }
    ensures { IfOk result (λ is. is ≡ is_wide_here (all_seen source.now list.now) place) }
{
    if huge_stands_at(tables, source, list, place) {
        is_number_part(alloc, tables, source, list, place)
    } else {
        Ok(false)
    }
}

/// Whether at the place is the name of which the huge number before it is the coefficient.
fn is_wide_before(
    alloc: Global,
    tables: &Tables,
    source: &[u8],
    list: &[Token],
    place: usize,
) -> Result<bool, NoMemory>
    requires spans { All (IsSpan source.now) list.now }
    requires within { place ≤ length list.now }
    ensures { IfOk result (λ is. is ≡ is_wide_before (all_seen source.now list.now) place) }
{
    let number = place.saturating_sub(1);
    if !name_stands_at(tables, source, list, place) {
        return Ok(false);
    }
    if huge_stands_at(tables, source, list, number) {
        goes_with(
            alloc,
            tables,
            source,
            list,
            number,
            &[Other::Number, Other::Name],
        )
    } else {
        Ok(false)
    }
}

/// Whether at the place is the name of a set that is there already.
fn is_known_set(
    alloc: Global,
    tables: &Tables,
    source: &[u8],
    list: &[Token],
    place: usize,
) -> Result<bool, NoMemory>
    requires spans { All (IsSpan source.now) list.now }
    requires within { place ≤ length list.now }
    ensures { IfOk result (λ is. is ≡ is_known_set (all_seen source.now list.now) place) }
{
    if name_stands_at(tables, source, list, place) {
        goes_with(
            alloc,
            tables,
            source,
            list,
            place,
            &[Other::Name, Other::Colon],
        )
    } else {
        Ok(false)
    }
}

/// Whether at the place is a colon that ends a name that is there already.
fn is_known_label(
    alloc: Global,
    tables: &Tables,
    source: &[u8],
    list: &[Token],
    place: usize,
) -> Result<bool, NoMemory>
    requires spans { All (IsSpan source.now) list.now }
    requires within { place ≤ length list.now }
    ensures { IfOk result (λ is. is ≡ is_known_label (all_seen source.now list.now) place) }
{
    let name = place.saturating_sub(1);
    if !colon_stands_at(tables, source, list, place) {
        return Ok(false);
    }
    if name_stands_at(tables, source, list, name) {
        goes_with(
            alloc,
            tables,
            source,
            list,
            name,
            &[Other::Name, Other::Colon],
        )
    } else {
        Ok(false)
    }
}

/// Whether at the place is the kind of a set behind a name and a colon, and the name is there already.
fn is_known_opening(
    alloc: Global,
    tables: &Tables,
    source: &[u8],
    list: &[Token],
    place: usize,
) -> Result<bool, NoMemory>
    requires spans { All (IsSpan source.now) list.now }
    requires within { place ≤ length list.now }
    ensures { IfOk result (λ is. is ≡ is_known_opening (all_seen source.now list.now) place) }
{
    let colon = place.saturating_sub(1);
    let name = place.saturating_sub(2);
    if !set_kind_stands_at(tables, source, list, place) {
        return Ok(false);
    }
    if !colon_stands_at(tables, source, list, colon) {
        return Ok(false);
    }
    if name_stands_at(tables, source, list, name) {
        let others = [Other::Name, Other::Colon, Other::SetKind];
        goes_with(alloc, tables, source, list, name, &others)
    } else {
        Ok(false)
    }
}

/// Whether another name could stand where a name, or one that ends there, can't.
fn is_duplicate(
    alloc: Global,
    tables: &Tables,
    source: &[u8],
    list: &[Token],
    place: usize,
) -> Result<bool, NoMemory>
    requires spans { All (IsSpan source.now) list.now }
    requires within { place ≤ length list.now }
    ensures { IfOk result (λ is. is ≡ is_duplicate (all_seen source.now list.now) place) }
{
    if is_known_set(alloc, tables, source, list, place)? {
        return Ok(true);
    }
    if is_known_label(alloc, tables, source, list, place)? {
        return Ok(true);
    }
    is_known_opening(alloc, tables, source, list, place)
}

/// What is wrong with the token at the place, which can't stand there; behind the last one nothing else is.
#[tactic(auto, unfolding(crate::specs::InnerKinds::fault_kind))]
pub(crate) fn fault_kind(
    alloc: Global,
    source: &[u8],
    list: &[Token],
    place: usize,
) -> Result<FaultKind, NoMemory>
    requires spans { All (IsSpan source.now) list.now }
    requires within { place ≤ length list.now }
    ensures { IfOk result (λ kind. kind ≡ fault_kind (all_seen source.now list.now) place) }
{
    let tables = Tables::new();
    if is_unsupported_at(&tables, source, list, place) {
        return Ok(FaultKind::Unsupported);
    }
    if is_wide_here(alloc, &tables, source, list, place)? {
        return Ok(FaultKind::Wide);
    }
    if is_wide_before(alloc, &tables, source, list, place)? {
        return Ok(FaultKind::WideBefore);
    }
    if is_duplicate(alloc, &tables, source, list, place)? {
        return Ok(FaultKind::Duplicate);
    }
    Ok(FaultKind::Syntax)
}
