//! Every proper prefix of a program, of a book and of a world document.

use crate::call::{Calls, WIDE, Wanted, comes_to, store};
use crate::gates::Hook;
use crate::given::ENTERS;
use lam_io::{MemShelf, Shelf};
use lam_main::Status;
use std::test::Fail;

const PROGRAM: &str = "fn f(x:int):int{return (x+1)*2;}";

const BOOK: &str = "lam book 1\n0 8\n";

const NOT_JSON: Wanted<'static> = Wanted {
    shows: "a document that is cut off is no document",
    words: &["replay", "P", "W", "B", "{}/{}"],
    output: WIDE,
    status: Status::World,
    printed: "lam: 4 NotJson\n",
};

#[test]
fn cut_texts_are_refused(rt: HostRuntime) -> Result<(), Fail> {
    let (program, world) = lam_make::make(rt.alloc(), 1, 2)?;
    drop(program);
    let mut shelf = store(&rt, &ENTERS.files(), &[])?;
    let well = are_refused(&rt, &mut shelf, world.as_bytes());
    drop(shelf);
    well
}

/// The document is put in place of the one that the book goes with, so books come first.
fn are_refused<R: Calls>(rt: &R, shelf: &mut MemShelf, world: &[u8]) -> Result<(), Fail> {
    books_are_refused(rt, shelf)?;
    worlds_are_refused(rt, shelf, world)?;
    programs_are_refused(rt, shelf)
}

fn books_are_refused<R: Calls>(rt: &R, shelf: &mut MemShelf) -> Result<(), Fail> {
    for len in 0..BOOK.len() {
        shelf.write("B", &BOOK.as_bytes()[..len])?;
        comes_to(rt, shelf, of_book(len), Hook::Open)?;
    }
    Ok(())
}

/// What a front of the book comes to: it has no whole head, no turns, or a line without its end.
fn of_book(len: usize) -> Wanted<'static> {
    let (status, printed) = match len {
        0..=10 => (Status::Book, "lam: 5 BadHead line 1\n"),
        11 => (Status::Done, ""),
        _ => (Status::Book, "lam: 5 BadLine line 2\n"),
    };
    Wanted {
        shows: "a book that is cut off",
        words: &["replay", "P", "W", "B", "{}/{}"],
        output: WIDE,
        status,
        printed,
    }
}

fn worlds_are_refused<R: Calls>(rt: &R, shelf: &mut MemShelf, world: &[u8]) -> Result<(), Fail> {
    for len in 0..world.len() {
        shelf.write("W", &world[..len])?;
        comes_to(rt, shelf, NOT_JSON, Hook::Open)?;
    }
    Ok(())
}

/// The first byte alone is a name, with which nothing begins. Every longer front lacks what is to follow.
fn programs_are_refused<R: Calls>(rt: &R, shelf: &mut MemShelf) -> Result<(), Fail> {
    for len in 1..PROGRAM.len() {
        shelf.write("P", &PROGRAM.as_bytes()[..len])?;
        let at = if len == 1 { 0 } else { len };
        let line = format!(in rt.alloc(); "lam: 3 Unexpected at {at}\n")?;
        let well = comes_to(rt, shelf, of_program(line.as_str()), Hook::Open);
        drop(line);
        well?;
    }
    Ok(())
}

fn of_program(line: &str) -> Wanted<'_> {
    Wanted {
        shows: "a program that is cut off is refused at its end",
        words: &["format", "P"],
        output: WIDE,
        status: Status::Program,
        printed: line,
    }
}
