//! What stands at a place of a file, as the grammar sees it.
ghost use Rattle.std.specs.Prelude.{◌≡◌, ℕ, ◌≤◌, ◌+◌, false, List, drop, length, All};
ghost use Rattle.sp_lp_tokens.specs.SeenTokens.{all_seen};
ghost use Rattle.sp_lp_tokens.specs.Tokens.{IsSpan};
ghost use Rattle.sp_lp_grammar.specs.Lexemes.{marks, colon_first};
ghost use Rattle.sp_lp.specs.Refusals.{marks_from, is_name_class, is_huge_class, is_colon_class, is_cuts, is_foreign, name_stands, set_kind_stands, huge_stands, colon_stands, cuts_stand, foreign_stands, is_unsupported};
ghost use Rattle.sp_lp.specs.InnerKinds.{pair_counts, word_counts, class_counts, section_stands, is_cuts_section};

use crate::cursor::{is_colon, is_second};
use crate::other_tokens::line_before;
use sp_decimal::Numeral;
use sp_lp_tokens::{Symbol, Token, TokenKind};
use sp_lp_words::{Class, Pair, Part, Section, Tables, set_kind_of};

/// Whether it is a name.
fn is_name_class(class: &Class) -> bool
    ensures { result ≡ is_name_class class.now }
{
    matches!(class, Class::Name(_))
}

/// Whether it is a huge number.
fn is_huge_class(class: &Class) -> bool
    ensures { result ≡ is_huge_class class.now }
{
    match class {
        Class::Number(number) => match number {
            Numeral::Exact(_) => false,
            Numeral::Huge { .. } => true,
        },
        _ => false,
    }
}

/// Whether it is a colon by itself.
fn is_colon_class(class: &Class) -> bool
    ensures { result ≡ is_colon_class class.now }
{
    matches!(class, Class::Colon)
}

/// Whether it is `[` or `<->`.
fn is_foreign(kind: &TokenKind) -> bool
    ensures { result ≡ is_foreign kind.now }
{
    match kind {
        TokenKind::Symbol(Symbol::LeftBracket) => true,
        TokenKind::Symbol(Symbol::DoubleArrow) => true,
        _ => false,
    }
}

/// Whether a colon or a double colon comes first of what is left behind a token.
fn has_colon(tables: &Tables, source: &[u8], rest: &[Token]) -> bool
    requires { All (IsSpan source.now) rest.now }
    ensures { (before : ℕ) → result ≡ colon_first (marks false before (all_seen source.now rest.now)) }
{
    match rest.split_first() {
        None => false,
        Some((token, _)) => is_colon(&tables.class_of(source, token, false)),
    }
}

/// The section whose word of two parts counts, of which the first part stands before the rest.
fn pair_counts(
    tables: &Tables,
    source: &[u8],
    pair: Pair,
    before: u32,
    rest: &[Token],
) -> Option<Section>
    requires { All (IsSpan source.now) rest.now }
    ensures { result ≡ pair_counts pair (marks false before (all_seen source.now rest.now)) }
{
    match rest.split_first() {
        None => None,
        Some((token, others)) => {
            let class = tables.class_of(source, token, false);
            let begins = before < token.line;
            if !begins && is_second(pair, &class) && !has_colon(tables, source, others) {
                Some(pair.section())
            } else {
                None
            }
        }
    }
}

/// The section, where no colon follows its word.
fn word_counts(
    tables: &Tables,
    source: &[u8],
    section: Section,
    before: u32,
    rest: &[Token],
) -> Option<Section>
    requires { All (IsSpan source.now) rest.now }
    ensures { result ≡ word_counts section (marks false before (all_seen source.now rest.now)) }
{
    if has_colon(tables, source, rest) {
        None
    } else {
        Some(section)
    }
}

/// The section whose word counts, of which a token of this class before the rest is the first of its line.
fn class_counts(
    tables: &Tables,
    source: &[u8],
    class: &Class,
    before: u32,
    rest: &[Token],
) -> Option<Section>
    requires { All (IsSpan source.now) rest.now }
    ensures { result ≡ class_counts class.now (marks false before (all_seen source.now rest.now)) }
{
    match class {
        Class::Name(Some(Part::Whole(section))) => {
            word_counts(tables, source, *section, before, rest)
        }
        Class::Name(Some(Part::Semi)) => {
            word_counts(tables, source, Section::Semi, before, rest)
        }
        Class::Name(Some(Part::Opens(pair))) => pair_counts(tables, source, *pair, before, rest),
        _ => None,
    }
}

/// The section whose word counts first of the rest, of which the first token is that of the file, or stands behind one
/// in the line `before`.
fn section_stands(
    tables: &Tables,
    source: &[u8],
    initial: bool,
    before: u32,
    rest: &[Token],
) -> Option<Section>
    requires { All (IsSpan source.now) rest.now }
    ensures { result ≡ section_stands (marks initial before (all_seen source.now rest.now)) }
{
    match rest.split_first() {
        None => None,
        Some((token, others)) => {
            if initial || before < token.line {
                let class = tables.class_of(source, token, initial);
                class_counts(tables, source, &class, token.line, others)
            } else {
                None
            }
        }
    }
}

/// Whether a name comes first of the rest that is no word of a section.
#[tactic(auto, using(crate::proofs::StandingLemmas::name_by_section))]
fn name_stands(tables: &Tables, source: &[u8], initial: bool, before: u32, rest: &[Token]) -> bool
    requires { All (IsSpan source.now) rest.now }
    ensures { result ≡ name_stands (marks initial before (all_seen source.now rest.now)) }
{
    match rest.split_first() {
        None => false,
        Some((token, _)) => {
            let class = tables.class_of(source, token, initial);
            let section = section_stands(tables, source, initial, before, rest);
            is_name_class(&class) && section.is_none()
        }
    }
}

/// Whether the kind of a set comes first of the rest, as a name that is no word of a section.
fn set_kind_stands(
    tables: &Tables,
    source: &[u8],
    initial: bool,
    before: u32,
    rest: &[Token],
) -> bool
    requires { All (IsSpan source.now) rest.now }
    ensures { result ≡ set_kind_stands (marks initial before (all_seen source.now rest.now)) }
{
    match rest.split_first() {
        None => false,
        Some((token, _)) => {
            name_stands(tables, source, initial, before, rest)
                && set_kind_of(token.text(source)).is_some()
        }
    }
}

/// Whether a huge number comes first of the rest.
fn huge_stands(tables: &Tables, source: &[u8], initial: bool, rest: &[Token]) -> bool
    requires { All (IsSpan source.now) rest.now }
    ensures { (before : ℕ) → result ≡ huge_stands (marks initial before (all_seen source.now rest.now)) }
{
    match rest.split_first() {
        None => false,
        Some((token, _)) => is_huge_class(&tables.class_of(source, token, initial)),
    }
}

/// Whether a colon comes first of the rest.
fn colon_stands(tables: &Tables, source: &[u8], initial: bool, rest: &[Token]) -> bool
    requires { All (IsSpan source.now) rest.now }
    ensures { (before : ℕ) → result ≡ colon_stands (marks initial before (all_seen source.now rest.now)) }
{
    match rest.split_first() {
        None => false,
        Some((token, _)) => is_colon_class(&tables.class_of(source, token, initial)),
    }
}

/// Whether `user cuts` comes first of the rest, where it counts.
#[tactic(auto, using(crate::proofs::StandingLemmas::cuts_by_section))]
fn cuts_stand(tables: &Tables, source: &[u8], initial: bool, before: u32, rest: &[Token]) -> bool
    requires { All (IsSpan source.now) rest.now }
    ensures { result ≡ cuts_stand (marks initial before (all_seen source.now rest.now)) }
{
    is_cuts_section(section_stands(tables, source, initial, before, rest))
}

/// Whether it is the section of `user cuts`.
fn is_cuts_section(section: Option<Section>) -> bool
    ensures { result ≡ is_cuts_section section }
{
    match section {
        Some(Section::Cuts) => true,
        _ => false,
    }
}

/// What is left of the list from the place on; behind its end nothing.
pub(crate) fn rest_of(list: &[Token], place: usize) -> &[Token]
    ensures { result.now ≡ drop place list.now }
{
    if place <= list.len() {
        &list[place..]
    } else {
        &[]
    }
}

/// Whether a name stands at the place that is no word of a section.
pub(crate) fn name_stands_at(tables: &Tables, source: &[u8], list: &[Token], place: usize) -> bool
    requires spans { All (IsSpan source.now) list.now }
    requires within { place ≤ length list.now }
    ensures { result ≡ name_stands (marks_from (all_seen source.now list.now) place) }
{
    let before = line_before(list, place);
    name_stands(tables, source, place == 0, before, rest_of(list, place))
}

/// Whether the kind of a set stands at the place, as a name that is no word of a section.
pub(crate) fn set_kind_stands_at(
    tables: &Tables,
    source: &[u8],
    list: &[Token],
    place: usize,
) -> bool
    requires spans { All (IsSpan source.now) list.now }
    requires within { place ≤ length list.now }
    ensures { result ≡ set_kind_stands (marks_from (all_seen source.now list.now) place) }
{
    let before = line_before(list, place);
    set_kind_stands(tables, source, place == 0, before, rest_of(list, place))
}

/// Whether a huge number stands at the place.
pub(crate) fn huge_stands_at(tables: &Tables, source: &[u8], list: &[Token], place: usize) -> bool
    requires spans { All (IsSpan source.now) list.now }
    requires within { place ≤ length list.now }
    ensures { result ≡ huge_stands (marks_from (all_seen source.now list.now) place) }
{
    huge_stands(tables, source, place == 0, rest_of(list, place))
}

/// Whether a colon stands at the place.
pub(crate) fn colon_stands_at(tables: &Tables, source: &[u8], list: &[Token], place: usize) -> bool
    requires spans { All (IsSpan source.now) list.now }
    requires within { place ≤ length list.now }
    ensures { result ≡ colon_stands (marks_from (all_seen source.now list.now) place) }
{
    colon_stands(tables, source, place == 0, rest_of(list, place))
}

/// Whether `user cuts` stands at the place, where it counts.
fn cuts_stand_at(tables: &Tables, source: &[u8], list: &[Token], place: usize) -> bool
    requires spans { All (IsSpan source.now) list.now }
    requires within { place ≤ length list.now }
    ensures { result ≡ cuts_stand (marks_from (all_seen source.now list.now) place) }
{
    let before = line_before(list, place);
    cuts_stand(tables, source, place == 0, before, rest_of(list, place))
}

/// Whether `[` or `<->` comes first of the rest.
fn foreign_stands(rest: &[Token]) -> bool
    ensures { (source : List ℕ) → result ≡ foreign_stands (all_seen source rest.now) }
{
    match rest.split_first() {
        None => false,
        Some((token, _)) => is_foreign(&token.kind),
    }
}

/// Whether `[` or `<->` stands at the place.
fn foreign_stands_at(list: &[Token], place: usize) -> bool
    ensures { (source : List ℕ) → result ≡ foreign_stands (drop place (all_seen source list.now)) }
{
    foreign_stands(rest_of(list, place))
}

/// Whether the token at the place is one that the format has and that isn't read.
pub(crate) fn is_unsupported_at(
    tables: &Tables,
    source: &[u8],
    list: &[Token],
    place: usize,
) -> bool
    requires spans { All (IsSpan source.now) list.now }
    requires within { place ≤ length list.now }
    ensures { result ≡ is_unsupported (all_seen source.now list.now) place }
{
    let before = place.saturating_sub(1);
    foreign_stands_at(list, place)
        || cuts_stand_at(tables, source, list, place)
        || cuts_stand_at(tables, source, list, before)
}
