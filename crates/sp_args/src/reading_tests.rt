//! What no clause says: that there is memory, and that the definitions mean what is meant. The readings are worked out by
//! hand from the rules of the command line.
ghost use Rattle.std.specs.Prelude.{◌≡◌};

use crate::read_words;
use crate::requests::Request;
use sp_base::{Text, WordList};
use sp_model::Gap;
use std::alloc::{AllocError, Global};
use std::test::Fail;

const ZERO: Gap = Gap::Of { p: 0, s: 0 };

const FREE: Gap = Gap::Unlimited;

/// Both gaps, the node limit and the name of the file.
type Wanted = (Gap, Gap, u32, &'static [u8]);

/// Words, and what they ask for.
static WORDS: [(&[&[u8]], Option<Wanted>); 26] = [
    (&[b"a.lp"], Some((ZERO, FREE, 200_000, b"a.lp"))),
    (
        &[b"--absgap", b"1", b"a.lp"],
        Some((Gap::Of { p: 1, s: 0 }, FREE, 200_000, b"a.lp")),
    ),
    (
        &[b"a.lp", b"--absgap=1e20", b"--relgap", b"0.10"],
        Some((FREE, Gap::Of { p: 1, s: 1 }, 200_000, b"a.lp")),
    ),
    (
        &[b"--relgap=+inf", b"--nodes=007", b"-"],
        Some((ZERO, FREE, 7, b"-")),
    ),
    (
        &[b"--nodes", b"200000", b"--", b"-5"],
        Some((ZERO, FREE, 200_000, b"-5")),
    ),
    (&[b""], Some((ZERO, FREE, 200_000, b""))),
    (&[b"--", b"--"], Some((ZERO, FREE, 200_000, b"--"))),
    (&[], None),
    (&[b"-5"], None),
    (&[b"--nodes", b"5"], None),
    (&[b"--nodes", b"5", b"--nodes=5", b"a.lp"], None),
    (&[b"--nodes=0", b"a.lp"], None),
    (&[b"--nodes=200001", b"a.lp"], None),
    (&[b"--nodes=", b"a.lp"], None),
    (&[b"--nodes=+5", b"a.lp"], None),
    (&[b"--nodes", b"--", b"a.lp"], None),
    (&[b"--nodes", b"-", b"a.lp"], None),
    (&[b"--absgap=-0.5", b"a.lp"], None),
    (&[b"--absgap", b"-1", b"a.lp"], None),
    (&[b"--absgap=99999999999999999999", b"a.lp"], None),
    (&[b"--relgap=1e-13", b"a.lp"], None),
    (&[b"--node=5", b"a.lp"], None),
    (&[b"--demo", b"3"], None),
    (&[b"--help"], None),
    (&[b"a.lp", b"b.lp"], None),
    (&[b"caf\xe9.lp"], None),
];

fn list_of(alloc: Global, given: &[&[u8]]) -> Result<WordList, AllocError> {
    let mut words = WordList::new(alloc);
    for word in given {
        words.push(Text::from_vec(Vec::from_slice(alloc, *word)?))?;
    }
    Ok(words)
}

fn is_same(gap: &Gap, other: &Gap) -> bool {
    match gap {
        Gap::Unlimited => matches!(other, Gap::Unlimited),
        Gap::Of { p, s } => match other {
            Gap::Unlimited => false,
            Gap::Of { p: q, s: t } => *p == *q && *s == *t,
        },
    }
}

fn is_wanted(request: &Request, wanted: &Wanted) -> bool {
    let (abs, rel, nodes, file) = wanted;
    is_same(&request.gaps.abs, abs)
        && is_same(&request.gaps.rel, rel)
        && request.nodes == *nodes
        && request.file.as_slice() == *file
}

/// Whether these words ask for that.
fn asks(alloc: Global, words: &WordList, wanted: &Option<Wanted>) -> bool {
    match read_words(alloc, words) {
        Err(_) => wanted.is_none(),
        Ok(request) => match wanted {
            None => false,
            Some(wanted) => is_wanted(&request, wanted),
        },
    }
}

/// The first words that ask for something else.
fn first_wrong(alloc: Global) -> Result<Option<usize>, AllocError> {
    for (at, (given, wanted)) in WORDS.iter().enumerate() {
        if !asks(alloc, &list_of(alloc, given)?, wanted) {
            return Ok(Some(at));
        }
    }
    Ok(None)
}

#[test]
fn words_are_read(rt: HostRuntime) -> Result<(), Fail> {
    assert_eq!(rt; first_wrong(rt.alloc())?, None);
    Ok(())
}
