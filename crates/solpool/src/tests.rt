//! Which bytes the adapters move, which no clause says of what lies outside.
use crate::inputs::HostSource;
use crate::outputs::HostSink;
use crate::shelving::HostShelf;
use sp_base::{Fetched, Got, Put, Shelf, Sink, Source, Stored, Text};
use std::collections::VecDeque;
use std::test::Fail;
use std::{env, fs, process};

fn shown(fetched: &Fetched) -> &[u8] {
    match fetched {
        Fetched::Bytes(bytes) => bytes.as_slice(),
        Fetched::Absent => b"absent",
        Fetched::TooLong => b"too long",
        Fetched::Failed => b"failed",
        Fetched::NoMemory => b"no memory",
    }
}

#[test]
fn files_are_kept_and_read(rt: HostRuntime) -> Result<(), Fail> {
    let alloc = rt.alloc();
    let folder = env::temp_dir(&rt)?;
    let id = process::id(rt.process());
    let path = format!(in alloc; "{}/solpool-{id}", folder.as_path().display())?;
    let name = Text::from_vec(Vec::from_slice(alloc, path.as_bytes())?);
    let mut shelf = HostShelf::new(alloc, &rt);
    assert_eq!(rt; shown(&shelf.read(&name, 9)), b"absent".as_slice());
    assert_eq!(rt; shelf.write(&name, b"abc"), Stored::Kept);
    for (limit, expected) in [(3u64, b"abc".as_slice()), (2, b"too long".as_slice())] {
        assert_eq!(rt; shown(&shelf.read(&name, limit)), expected);
    }
    let long = vec![in alloc; b'x'; 70_000]?;
    assert_eq!(rt; shelf.write(&name, long.as_slice()), Stored::Kept);
    assert_eq!(rt; shown(&shelf.read(&name, 70_000)), long.as_slice());
    fs::remove_file(&rt, path.as_str())?;
    let others = [
        (b"/".as_slice(), b"failed".as_slice()),
        (b"/dev/null".as_slice(), b"".as_slice()),
        (b"/dev/zero".as_slice(), b"too long".as_slice()),
        (b"caf\xe9".as_slice(), b"absent".as_slice()),
    ];
    for (bytes, expected) in others {
        let name = Text::from_vec(Vec::from_slice(alloc, bytes)?);
        assert_eq!(rt; shown(&shelf.read(&name, 70000)), expected);
    }
    let no_text = Text::from_vec(Vec::from_slice(alloc, b"caf\xe9")?);
    assert_eq!(rt; shelf.write(&no_text, b"abc"), Stored::Failed);
    Ok(())
}

#[test]
fn bytes_go_out_and_come_in(rt: HostRuntime) {
    let mut queue = VecDeque::new(rt.alloc());
    assert_eq!(rt; HostSink::new(&mut queue).write(b"hello"), Put::Took(5));
    let mut source = HostSource::new(&mut queue);
    let mut room = [0u8; 3];
    assert_eq!(rt; source.read(&mut room), Got::Bytes(3));
    assert_eq!(rt; room.as_slice(), b"hel".as_slice());
    assert_eq!(rt; source.read(&mut room), Got::Bytes(2));
    assert_eq!(rt; room.as_slice(), b"lol".as_slice());
    assert_eq!(rt; source.read(&mut room), Got::End);
}
