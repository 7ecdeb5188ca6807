//! One call of the tool over files in memory, and its results.

use crate::gates::Hook;
use lam_io::{Got, MemShelf, MemSink, Shelf};
use lam_main::{Status, lam};
use std::alloc::{AllocError, Global};
use std::str::from_utf8;
use std::sync::Wait;
use std::test::Fail;
use std::thread::Threads;

/// What a call of the tool needs of the runtime.
pub trait Calls: Threads + Wait + Sync + AllocGlobal {}

impl<R: Threads + Wait + Sync + AllocGlobal> Calls for R {}

/// A program and a world that are run.
#[derive(Clone, Copy)]
pub struct Given<'a> {
    pub program: &'a str,
    pub world: &'a str,
}

impl<'a> Given<'a> {
    /// The files of a run: `P` and `W`.
    pub fn files(self) -> [(&'a str, &'a str); 2] {
        [("P", self.program), ("W", self.world)]
    }
}

/// An output: its room, how many bytes it takes by a call at most, but at least one, and the numbers of its calls that
/// fail, from 1.
#[derive(Clone, Copy)]
pub struct Output<'a> {
    pub room: u64,
    pub most: u64,
    pub failing: &'a [u64],
}

/// An output that takes all.
pub const WIDE: Output<'static> = Output {
    room: 65_536,
    most: 65_536,
    failing: &[],
};

/// How a call ended, and what it printed.
#[derive(Drop)]
pub struct Told {
    pub status: Status,
    pub text: String,
}

/// A store of the files, each of which a call writes. Its calls with the given numbers, from 1, fail.
pub fn store<R: Calls>(rt: &R, files: &[(&str, &str)], failing: &[u64]) -> Result<MemShelf, Fail> {
    let mut shelf = MemShelf::new(Vec::new(rt.alloc()), failing.to_vec(rt.alloc())?);
    for (name, text) in files {
        shelf.write(name, text.as_bytes())?;
    }
    Ok(shelf)
}

/// Calls the tool with the words, by a gate.
pub fn tell<R: Calls>(
    rt: &R,
    shelf: &mut MemShelf,
    words: &[&str],
    output: Output<'_>,
    gate: Hook<'_>,
) -> Result<Told, Fail> {
    let alloc = rt.alloc();
    let words = texts_of(alloc, words)?;
    let failing = output.failing.to_vec(alloc)?;
    let mut sink = MemSink::short(alloc, output.room, output.most.max(1), failing)?;
    let status = lam(rt, alloc, &words, shelf, &mut sink, &gate);
    let text = String::from_str(alloc, from_utf8(sink.bytes())?)?;
    Ok(Told { status, text })
}

/// A call, and what it is to come to.
#[derive(Clone, Copy)]
pub struct Wanted<'a> {
    /// What the call shows, in the words of a failure.
    pub shows: &'a str,
    pub words: &'a [&'a str],
    pub output: Output<'a>,
    pub status: Status,
    pub printed: &'a str,
}

/// Calls the tool with the words, by a gate. It fails, with what was printed, where the call ends in another way than it
/// should or prints another text.
pub fn comes_to<R: Calls>(
    rt: &R,
    shelf: &mut MemShelf,
    wanted: Wanted<'_>,
    gate: Hook<'_>,
) -> Result<(), Fail> {
    let told = tell(rt, shelf, wanted.words, wanted.output, gate)?;
    if told.status == wanted.status && told.text.as_str() == wanted.printed {
        drop(told);
        return Ok(());
    }
    Err(another_end(wanted.shows, told))
}

/// The failure of a call that came to something else.
fn another_end(shows: &str, told: Told) -> Fail {
    let Told { status, text } = told;
    Fail::new(format_args!("{shows}: ended with {status:?}, and printed:\n{text}"))
}

/// The bytes of the book that a call wrote, which is `B`.
pub fn book_in<R: Calls>(rt: &R, shelf: &mut MemShelf) -> Result<Vec<u8>, Fail> {
    match shelf.read(rt.alloc(), "B", 16_777_216) {
        Ok(Got::Found(bytes)) => Ok(bytes),
        _ => Err(Fail::new("no book")),
    }
}

/// Fails where the book that a call wrote has another text.
pub fn wrote<R: Calls>(
    rt: &R,
    shelf: &mut MemShelf,
    shows: &str,
    wanted: &str,
) -> Result<(), Fail> {
    let book = book_in(rt, shelf)?;
    let well = book.as_slice() == wanted.as_bytes();
    drop(book);
    if well {
        return Ok(());
    }
    Err(Fail::new(format_args!("{shows}: another book was written")))
}

fn texts_of(alloc: Global, words: &[&str]) -> Result<Vec<String>, AllocError> {
    let mut texts = Vec::new(alloc);
    for word in words {
        texts.push(String::from_str(alloc, word)?)?;
    }
    Ok(texts)
}
