//! Files and outputs: those in memory, the current folder, and standard output.

use lam_io::{
    DirShelf, Got, MemShelf, MemSink, Shelf, ShelfFault, Sink, SinkFault, StdSink, write_all,
};
use std::alloc::Global;
use std::test::Fail;
use std::{fs, process};

#[test]
fn sink_takes_what_fits(rt: HostRuntime) -> Result<(), Fail> {
    let alloc = rt.alloc();
    let mut failing = Vec::new(alloc);
    failing.push(3)?;
    let mut sink = MemSink::new(alloc, 5, failing)?;

    // One call, and none for the empty rest.
    assert_eq!(rt; write_all(&mut sink, b"ab"), Ok(()));
    assert_eq!(rt; sink.write(b"c"), Ok(1));
    assert_eq!(rt; sink.write(b""), Err(SinkFault::Failed));
    assert_eq!(rt; sink.write(b""), Ok(0));
    assert_eq!(rt; write_all(&mut sink, b"defg"), Err(SinkFault::Failed));
    assert_eq!(rt; sink.bytes(), b"abcde".as_slice());
    Ok(())
}

/// What a store gives of a file: its bytes, nothing, or too much.
#[derive(Clone, Copy, Debug, PartialEq, Eq)]
enum OpEffect {
    Wanted,
    Other,
    Absent,
    TooLong,
    Failed,
}

/// What is read of a file, where these bytes are wanted.
fn seen<S: Shelf>(alloc: Global, shelf: &mut S, name: &str, limit: u64, want: &[u8]) -> OpEffect {
    match shelf.read(alloc, name, limit) {
        Ok(Got::Found(bytes)) if bytes.as_slice() == want => OpEffect::Wanted,
        Ok(Got::Found(_)) => OpEffect::Other,
        Ok(Got::Absent) => OpEffect::Absent,
        Ok(Got::TooLong) => OpEffect::TooLong,
        Err(_) => OpEffect::Failed,
    }
}

#[test]
fn shelf_reads_what_was_written(rt: HostRuntime) -> Result<(), Fail> {
    let alloc = rt.alloc();
    let mut failing = Vec::new(alloc);
    failing.push(2)?;
    let mut shelf = MemShelf::new(Vec::new(alloc), failing);
    assert_eq!(rt; shelf.write("a", b"xy"), Ok(()));
    assert_eq!(rt; shelf.write("a", b"z"), Err(ShelfFault::Failed));
    for (name, limit, want) in [
        ("a", 2, OpEffect::Wanted),
        ("a", 1, OpEffect::TooLong),
        ("b", 1, OpEffect::Absent),
    ] {
        assert_eq!(rt; seen(alloc, &mut shelf, name, limit, b"xy"), want);
    }
    Ok(())
}

/// The name of a file that no other process writes.
fn own_name(rt: &HostRuntime) -> Result<String, Fail> {
    Ok(format!(in rt.alloc(); "/tmp/lam_io_{}", process::id(rt.process()))?)
}

#[test]
fn folder_is_a_shelf(rt: HostRuntime) -> Result<(), Fail> {
    let name = own_name(&rt)?;
    let mut shelf = DirShelf::new(rt.clone()?);
    assert_eq!(rt; shelf.write(name.as_str(), b"xy"), Ok(()));
    let found = seen(rt.alloc(), &mut shelf, name.as_str(), 2, b"xy");
    fs::remove_file(&rt, name.as_str())?;
    assert_eq!(rt; found, OpEffect::Wanted);
    let gone = seen(rt.alloc(), &mut shelf, name.as_str(), 2, b"xy");
    assert_eq!(rt; gone, OpEffect::Absent);
    Ok(())
}

/// A file without an end is read no further than one byte past the limit.
#[test]
fn folder_refuses(rt: HostRuntime) -> Result<(), Fail> {
    let mut shelf = DirShelf::new(rt.clone()?);
    let endless = seen(rt.alloc(), &mut shelf, "/dev/zero", 3, b"");
    assert_eq!(rt; endless, OpEffect::TooLong);
    assert_eq!(rt; seen(rt.alloc(), &mut shelf, "/", 3, b""), OpEffect::Failed);
    assert_eq!(rt; shelf.write("/", b"xy"), Err(ShelfFault::Failed));
    Ok(())
}

#[test]
fn standard_output_is_a_sink(rt: HostRuntime) -> Result<(), Fail> {
    let mut sink = StdSink::new(rt.clone()?);
    assert_eq!(rt; sink.write(b""), Ok(0));
    assert_eq!(rt; sink.write(b"a\n"), Ok(2));
    Ok(())
}
