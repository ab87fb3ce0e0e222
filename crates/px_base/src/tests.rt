//! What no contract says: that the calls succeed, and the names and numbers as people count them.
use crate::*;
use std::alloc::{AllocError, Global};
use std::test::Fail;

#[test]
fn places(rt: HostRuntime) {
    let text = b"ab\n\ncd";
    for (at, line, col) in [(0, 1, 1), (2, 1, 3), (3, 2, 1), (4, 3, 1), (6, 3, 3)] {
        assert!(rt; at <= 6);
        assert_eq!(rt; pos_of(text, at), Pos { line, col }, "at {at}");
    }
}

fn shelf(alloc: Global, failing: u32) -> Result<MemShelf, AllocError> {
    let mut files = Vec::new(alloc);
    for (name, text) in [
        ("a", "first"),
        ("b", "other"),
        ("a", "second"),
        ("empty", ""),
    ] {
        files.push((
            String::from_str(alloc, name)?,
            text.as_bytes().to_vec(alloc)?,
        ))?;
    }
    Ok(MemShelf::new(files, vec![in alloc; failing]?))
}

fn outcome(read: &Result<Vec<u8>, ReadEnd>) -> &[u8] {
    match read {
        Ok(bytes) => bytes,
        Err(ReadEnd::Failed) => b"failed",
        Err(ReadEnd::TooLarge) => b"too large",
        Err(ReadEnd::Memory(_)) => b"no memory",
    }
}

#[test]
fn files(rt: HostRuntime) -> Result<(), Fail> {
    let cases = [
        ("a", 5, 0, "first"),
        ("a", 4, 0, "too large"),
        ("a", 5, 1, "failed"),
        ("a", 5, 3, "failed"),
        ("a", 5, 4, "first"),
        ("empty", 0, 0, ""),
        ("missing", 5, 0, "failed"),
    ];
    for (name, limit, failing, want) in cases {
        let mut shelf = shelf(rt.alloc(), failing)?;
        let read = read_file(rt.alloc(), &mut shelf, name, limit);
        assert_eq!(rt;
            outcome(&read),
            want.as_bytes(),
            "{name} within {limit}, call {failing} fails"
        );
    }
    Ok(())
}

#[test]
fn long_input(rt: HostRuntime) -> Result<(), Fail> {
    let mut text = Vec::new(rt.alloc());
    for i in 0..20000u32 {
        text.push((i % 251) as u8)?;
    }
    let mut source = MemSource::new(text.clone()?, Vec::new(rt.alloc()));
    let read = read_all(rt.alloc(), &mut source, 20000);
    assert_eq!(rt; outcome(&read), text.as_slice());
    let mut sure = SureSource::new(text);
    let read = read_all(rt.alloc(), &mut sure, 19999);
    assert_eq!(rt; outcome(&read), b"too large".as_slice());
    Ok(())
}

#[test]
fn sinks(rt: HostRuntime) -> Result<(), Fail> {
    let cases = [
        (10, 10, 0, true, "0123456789"),
        (10, 3, 0, true, "0123456789"),
        (9, 4, 0, false, "012345678"),
        (10, 4, 3, false, "01234567"),
        (0, 1, 0, false, ""),
    ];
    for (room, most, failing, whole, want) in cases {
        assert!(rt; most >= 1);
        let mut sink = MemSink::new(rt.alloc(), room, most, vec![in rt.alloc(); failing]?)?;
        let written = write_all(&mut sink, b"0123456789");
        assert_eq!(rt;
            written.is_ok(),
            whole,
            "room for {room}, call {failing} fails"
        );
        assert_eq!(rt;
            sink.bytes(),
            want.as_bytes(),
            "room for {room}, call {failing} fails"
        );
    }
    Ok(())
}

#[test]
fn sure_objects(rt: HostRuntime) -> Result<(), Fail> {
    let mut shelf = SureShelf::new(b"text".to_vec(rt.alloc())?);
    let mut unpicked = [0; 8];
    assert_eq!(rt; shelf.read(&mut unpicked), Ok(0));
    let read = read_file(rt.alloc(), &mut shelf, "any name", 4);
    assert_eq!(rt; outcome(&read), b"text".as_slice());
    assert!(rt; write_all(&mut SureSink::new(), b"text").is_ok());
    Ok(())
}
