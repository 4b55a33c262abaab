//! The reading of the words.
ghost use Rattle.std.specs.Prelude.{◌≡◌, ◌⊎◌, List, ℕ, [], ◌∷◌, drop, map, IfOk, MatchOption, MatchResult, None, Some};
ghost use Rattle.std.specs.List.{All};
ghost use Rattle.std.specs.Str.{IsUtf8};
ghost use Rattle.sp_model.specs.Cuts.{IsGap};
ghost use Rattle.sp_args.specs.declared.requests.Request.{Request as Asked};
ghost use Rattle.sp_args.specs.Requests.{IsReading, IsNoReading};

use crate::options::{Given, take_texts};
use crate::requests::{Request, WordsRefusal};
use crate::values::{given_gap, given_nodes};
use sp_base::{Text, WordList};
use sp_model::{Gap, Gaps};
use std::alloc::{AllocError, Global};
use std::str;

/// A request, before the name of its file is copied.
#[derive(Drop)]
struct Meant<'a> {
    gaps: Gaps,
    nodes: u32,
    file: &'a str,
}

ghost use Rattle.sp_args.specs.InnerReading.{request_at, request_of, texts_of};
ghost use Rattle.sp_args.specs.InnerMeanings.{IsMeant, asked_by};

/// What the texts ask for, where each value is one and there is a file.
#[tactic(auto, unfolding(crate::specs::InnerReading::request_at))]
fn meaning_of<'a>(given: &Given<'a>) -> Option<Meant<'a>>
    ensures value { MatchOption result (request_at (texts_of given.now) ≡ None)
        (λ m. request_at (texts_of given.now) ≡ Some (asked_by m)) }
    ensures lawful { MatchOption result (Unit {0}) IsMeant }
{
    match given_gap(given.absgap, Gap::Of { p: 0, s: 0 }) {
        None => None,
        Some(abs) => match given_gap(given.relgap, Gap::Unlimited) {
            None => None,
            Some(rel) => match given_nodes(given.nodes) {
                None => None,
                Some(nodes) => match given.file {
                    None => None,
                    Some(file) => Some(Meant {
                        gaps: Gaps { abs, rel },
                        nodes,
                        file,
                    }),
                },
            },
        },
    }
}

/// The request, with the name of its file in memory of its own.
fn copied(alloc: Global, meant: &Meant) -> Result<Request, AllocError>
    ensures { IfOk result (λ r. r ≡ asked_by meant.now) }
{
    let file = Text::from_vec(Vec::from_slice(alloc, meant.file.as_bytes())?);
    Ok(Request {
        gaps: meant.gaps,
        nodes: meant.nodes,
        file,
    })
}

/// What the words behind the first one ask for, which is the program's name.
fn read_texts<'a>(alloc: Global, words: &'a [&'a str]) -> Result<Request, WordsRefusal>
    requires { All IsUtf8 (map (λ s. s.now) words.now) }
    ensures value { let rest = drop 1 (map (λ s. s.now) words.entry.now) in MatchResult result
        (λ r. request_of rest ≡ Some r)
        (λ why. (why ≡ WordsRefusal.NoMemory) ⊎ (request_of rest ≡ None)) }
    ensures lawful { IfOk result (λ r. IsGap r.gaps.abs × IsGap r.gaps.rel) }
{
    match take_texts(alloc, words) {
        Err(why) => Err(why),
        Ok(given) => match meaning_of(&given) {
            None => Err(WordsRefusal::Usage),
            Some(meant) => match copied(alloc, &meant) {
                Err(_) => Err(WordsRefusal::NoMemory),
                Ok(request) => Ok(request),
            },
        },
    }
}

/// The words as texts behind an empty one, which stands for the program's name; `None` where one isn't UTF-8.
fn texts_of_words<'a>(alloc: Global, words: &'a [Text]) -> Result<Option<Vec<&'a str>>, AllocError>
    ensures { IfOk result (λ texts. MatchOption texts (All IsUtf8 words.entry.now → ⊥)
        (λ v. (map (λ s. s.now) v.items ≡ [] ∷ words.entry.now)
        × All IsUtf8 (map (λ s. s.now) v.items))) }
{
    let mut texts = Vec::new(alloc);
    texts.push("")?;
    for word in words {
        let Ok(text) = str::from_utf8(word.as_slice()) else {
            return Ok(None);
        };
        texts.push(text)?;
    }
    Ok(Some(texts))
}

/// Reads the words of a command line, without the program's name: `Ok` exactly where they are a reading, and then what
/// they ask for. `NoMemory` may come at any time.
pub fn read_words(alloc: Global, words: &WordList) -> Result<Request, WordsRefusal>
    ensures reading { MatchResult result (IsReading words.now)
        (λ why. (why ≡ WordsRefusal.NoMemory) ⊎ IsNoReading words.now) }
    ensures lawful { IfOk result (λ r. IsGap r.gaps.abs × IsGap r.gaps.rel) }
{
    match texts_of_words(alloc, words.as_slice()) {
        Err(_) => Err(WordsRefusal::NoMemory),
        Ok(None) => Err(WordsRefusal::Usage),
        Ok(Some(texts)) => read_texts(alloc, texts.as_slice()),
    }
}

/// A law: words have one reading at most.
pub fn words_have_one_reading()
    ensures { (words : List (List ℕ)) (r s : Asked) → IsReading words r → IsReading words s → r ≡ s }
{}
