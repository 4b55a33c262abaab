//! Which status each kind of run ends with, and that all words are looked at.
use crate::fakes::FakeEnv;
use crate::program::carry_out;
use crate::wording::words_of;
use std::alloc::{AllocError, Global};
use std::collections::VecDeque;
use std::process::ExitCode;
use std::rt::Files;
use std::test::Fail;

/// What the program over these words ends with.
fn ends<R: Files>(alloc: Global, files: &R, words: &[&[u8]]) -> ExitCode {
    let (input, output) = (VecDeque::new(alloc), VecDeque::new(alloc));
    carry_out(alloc, &FakeEnv { words }, files, input, output)
}

#[test]
fn runs_end_with_their_status(rt: HostRuntime) {
    let table = [
        (b"".as_slice(), 1),
        (b"--nothing".as_slice(), 2),
        (b"/no/such/file.lp".as_slice(), 1),
        (b"/dev/null".as_slice(), 1),
    ];
    for (word, status) in table {
        assert_eq!(rt; ends(rt.alloc(), &rt, &[word]), ExitCode::from(status));
    }
}

#[test]
fn an_output_that_takes_nothing_is_a_fault(rt: HostRuntime) {
    let alloc = rt.alloc();
    let mut nothing = [0u8; 0];
    let status = carry_out(
        alloc,
        &FakeEnv { words: &[] },
        &rt,
        VecDeque::new(alloc),
        nothing.as_mut_slice(),
    );
    assert_eq!(rt; status, ExitCode::from(4));
}

/// Whether the words are those of the environment, in their order.
fn are_read(alloc: Global, words: &[&[u8]]) -> Result<bool, AllocError> {
    let read = words_of(alloc, &FakeEnv { words })?;
    let read = read.as_slice();
    Ok(
        read.len() == words.len()
            && read
                .iter()
                .zip(words)
                .all(|(one, other)| one.as_slice() == *other),
    )
}

#[test]
fn all_words_are_read(rt: HostRuntime) -> Result<(), Fail> {
    let long = vec![in rt.alloc(); b'x'; 70_000]?;
    let few = [b"a.lp".as_slice(), b"", b"caf\xe9", long.as_slice(), b"-"];
    let many = vec![in rt.alloc(); b"w".as_slice(); 3_000]?;
    assert_eq!(rt;
        (
            are_read(rt.alloc(), &few)?,
            are_read(rt.alloc(), many.as_slice())?
        ),
        (true, true)
    );
    Ok(())
}
