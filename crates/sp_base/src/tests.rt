//! What the clauses leave open: that there is memory, and that the words mean what their readers take them for.
use crate::{
    Buffered, Fetched, Got, MemShelf, MemSink, MemSource, Shelf, Sink, SinkEnd, Source, Status,
    Stored, SureShelf, SureSink, SureSource, Text, WordList, write_all,
};
use std::alloc::{AllocError, Global};
use std::process::Abort;
use std::test::Fail;

fn text(alloc: Global, bytes: &[u8]) -> Result<Text, AllocError> {
    Ok(Text::from_vec(Vec::from_slice(alloc, bytes)?))
}

#[test]
fn statuses_are_numbered(rt: HostRuntime) {
    let table = [
        (Status::Clean, 0),
        (Status::SomeRefused, 1),
        (Status::Usage, 2),
        (Status::SourceFault, 3),
        (Status::SinkFault, 4),
        (Status::NoMemory, 5),
        (Status::StreamTooLong, 6),
    ];
    for (status, code) in table {
        assert_eq!(rt; status.code(), code, "at {status:?}");
    }
}

/// The words `say` and `hi`, put together in each way that there is.
fn say_hi(alloc: Global) -> Result<WordList, AllocError> {
    let mut word = Text::new(alloc);
    word.push(b'h')?;
    word.push(b'i')?;
    let mut words = WordList::new(alloc);
    words.push(text(alloc, b"say")?)?;
    words.push(Text::from_vec(word.into_vec()))?;
    Ok(WordList::from_vec(words.into_vec()))
}

#[test]
fn texts_grow(rt: HostRuntime) -> Result<(), Fail> {
    let words = say_hi(rt.alloc())?;
    assert_eq!(rt; words.as_slice().len(), 2);
    for (word, wanted) in words
        .as_slice()
        .iter()
        .zip([b"say".as_slice(), b"hi".as_slice()])
    {
        assert_eq!(rt; word.as_slice(), wanted);
    }
    Ok(())
}

/// What one read of at most six bytes answers, and the six bytes of the buffer.
fn read_six<S: Source>(source: &mut S) -> (Got, [u8; 6]) {
    let mut buffer = *b"......";
    (source.read(&mut buffer), buffer)
}

#[test]
fn sources_give_what_they_have(rt: HostRuntime) -> Result<(), Fail> {
    let bytes = Vec::from_slice(rt.alloc(), b"hello world")?;
    let mut source = MemSource::new(rt.alloc(), bytes, 4, Vec::from_slice(rt.alloc(), &[2])?);
    let mut sure = SureSource::new(rt.alloc(), Vec::from_slice(rt.alloc(), b"hello world")?, 9);
    let table = [
        (Got::Bytes(4), *b"hell..", Got::Bytes(6)),
        (Got::Failed, *b"......", Got::Bytes(5)),
        (Got::Bytes(4), *b"o wo..", Got::End),
        (Got::Bytes(3), *b"rld...", Got::End),
        (Got::End, *b"......", Got::End),
    ];
    for (answer, bytes, sure_answer) in table {
        assert_eq!(rt; read_six(&mut source), (answer, bytes));
        assert_eq!(rt; read_six(&mut sure).0, sure_answer);
    }
    assert_eq!(rt; (source.calls(), source.faults()), (5, 1));
    Ok(())
}

#[test]
fn sinks_keep_what_they_took(rt: HostRuntime) -> Result<(), Fail> {
    let mut sink = MemSink::new(rt.alloc(), 4, Vec::from_slice(rt.alloc(), &[4])?);
    let mut sure = SureSink::new(rt.alloc(), 1);
    let table = [
        (b"hello".as_slice(), Ok(()), b"hello".as_slice(), 2),
        (
            b", world".as_slice(),
            Err(SinkEnd::Fault),
            b"hello, wo".as_slice(),
            4,
        ),
        (b"".as_slice(), Ok(()), b"hello, wo".as_slice(), 4),
        (b"rld".as_slice(), Ok(()), b"hello, world".as_slice(), 5),
    ];
    for (piece, answer, held, calls) in table {
        assert_eq!(rt; write_all(&mut sink, piece), answer);
        assert_eq!(rt; sink.bytes(), held);
        assert_eq!(rt; sink.calls(), calls);
        assert_eq!(rt; write_all(&mut sure, piece), Ok(()));
    }
    assert_eq!(rt; sink.faults(), 1);
    assert_eq!(rt; sure.bytes(), b"hello, worldrld".as_slice());
    Ok(())
}

/// The bytes of the file of this name, if it has at most five, or a word for the answer.
fn read_five<F: Shelf>(alloc: Global, shelf: &mut F, name: &[u8]) -> Result<Text, AllocError> {
    match shelf.read(&text(alloc, name)?, 5) {
        Fetched::Bytes(bytes) => Ok(bytes),
        Fetched::Absent => text(alloc, b"(absent)"),
        Fetched::TooLong => text(alloc, b"(too long)"),
        Fetched::Failed => text(alloc, b"(failed)"),
        Fetched::NoMemory => text(alloc, b"(no memory)"),
    }
}

/// A call of a shelf: a write of these bytes, if there are any, and else a read; and what it answers.
#[derive(Drop)]
struct Call {
    name: &'static [u8],
    bytes: Option<&'static [u8]>,
    answer: &'static [u8],
}

const fn read(name: &'static [u8], answer: &'static [u8]) -> Call {
    Call {
        name,
        bytes: None,
        answer,
    }
}

const fn write(name: &'static [u8], bytes: &'static [u8], answer: &'static [u8]) -> Call {
    Call {
        name,
        bytes: Some(bytes),
        answer,
    }
}

fn ask<F: Shelf>(alloc: Global, shelf: &mut F, call: &Call) -> Result<Text, AllocError> {
    let Some(bytes) = call.bytes else {
        return read_five(alloc, shelf, call.name);
    };
    match shelf.write(&text(alloc, call.name)?, bytes) {
        Stored::Kept => text(alloc, b"(kept)"),
        Stored::Failed => text(alloc, b"(failed)"),
        Stored::NoMemory => text(alloc, b"(no memory)"),
    }
}

fn ask_all<F: Shelf>(
    rt: &impl Abort,
    alloc: Global,
    shelf: &mut F,
    calls: &[Call],
) -> Result<(), AllocError> {
    for call in calls {
        let answer = ask(alloc, shelf, call)?;
        assert_eq!(rt; answer.as_slice(), call.answer);
    }
    Ok(())
}

/// The files `a`, `b`, `l` and a second `a`, which doesn't count.
fn some_files(alloc: Global) -> Result<Vec<(Text, Vec<u8>)>, AllocError> {
    let mut files = Vec::new(alloc);
    for (name, bytes) in [
        (b"a", b"12345".as_slice()),
        (b"b", b""),
        (b"l", b"123456"),
        (b"a", b"twice"),
    ] {
        files.push((
            text(alloc, name.as_slice())?,
            Vec::from_slice(alloc, bytes)?,
        ))?;
    }
    Ok(files)
}

/// The calls that read and write, the fifth and the seventh of which fail.
fn some_calls() -> [Call; 11] {
    [
        read(b"a", b"12345"),
        read(b"b", b""),
        read(b"c", b"(absent)"),
        read(b"l", b"(too long)"),
        read(b"a", b"(failed)"),
        write(b"a", b"new", b"(kept)"),
        write(b"c", b"first", b"(failed)"),
        read(b"c", b"(absent)"),
        write(b"c", b"then", b"(kept)"),
        read(b"c", b"then"),
        read(b"a", b"new"),
    ]
}

#[test]
fn shelves_keep_files(rt: HostRuntime) -> Result<(), Fail> {
    let mut shelf = MemShelf::new(
        rt.alloc(),
        some_files(rt.alloc())?,
        Vec::from_slice(rt.alloc(), &[5, 7])?,
    );
    ask_all(&rt, rt.alloc(), &mut shelf, &some_calls())?;
    assert_eq!(rt; (shelf.calls(), shelf.faults()), (11, 2));
    assert_eq!(rt;
        (shelf.absences(), shelf.overruns(), shelf.answers()),
        (2, 1, 11)
    );
    let name = text(rt.alloc(), b"c")?;
    assert_eq!(rt; shelf.file(&name), Some(b"then".as_slice()));
    Ok(())
}

#[test]
fn sure_shelves_keep_files(rt: HostRuntime) -> Result<(), Fail> {
    let mut shelf = SureShelf::new(rt.alloc(), some_files(rt.alloc())?);
    let calls = [
        read(b"d", b"(absent)"),
        read(b"l", b"(too long)"),
        write(b"d", b"more", b"(kept)"),
        read(b"d", b"more"),
    ];
    ask_all(&rt, rt.alloc(), &mut shelf, &calls)?;
    assert_eq!(rt;
        (shelf.absences(), shelf.overruns(), shelf.answers()),
        (1, 1, 4)
    );
    let name = text(rt.alloc(), b"a")?;
    assert_eq!(rt; shelf.file(&name), Some(b"12345".as_slice()));
    Ok(())
}

/// Writes 28,571 pieces of seven bytes, and gives how many of these writes failed.
fn write_many<K: Sink>(sink: &mut K) -> u64 {
    let mut failed = 0_u64;
    for _ in 0..28_571_u32 {
        if write_all(sink, b"abcdefg").is_err() {
            failed = failed.saturating_add(1);
        }
    }
    failed
}

#[test]
fn a_buffer_keeps_what_was_not_sent(rt: HostRuntime) -> Result<(), Fail> {
    let failing = Vec::from_slice(rt.alloc(), &[2, 5])?;
    let Ok(mut buffer) = Buffered::new(rt.alloc(), MemSink::new(rt.alloc(), 40_000, failing)) else {
        return Err(Fail::from(AllocError));
    };
    let failed = write_many(&mut buffer);
    let ended = buffer.flush();
    let (sent, calls) = (buffer.inner().bytes().len(), buffer.inner().calls());
    assert_eq!(rt; (failed, ended, sent, calls), (2, Ok(()), 199_989, 8));
    Ok(())
}
