//! Scripts of the greatest length.

use crate::call::{Calls, WIDE, Wanted, comes_to, store};
use crate::gates::Hook;
use lam_io::{MemShelf, Shelf};
use lam_main::Status;
use std::alloc::{AllocError, Global};
use std::test::Fail;

const READ: Wanted<'static> = Wanted {
    shows: "a script of a mebibyte is read",
    words: &["play", "s", "{}/{}"],
    output: WIDE,
    status: Status::Program,
    printed: "lam: 3 Script line 1\n",
};

const NOT_READ: Wanted<'static> = Wanted {
    shows: "a script of a byte more is not read",
    words: &["play", "s", "{}/{}"],
    output: WIDE,
    status: Status::Missing,
    printed: "lam: 6 TooLong s\n",
};

#[test]
fn long_script_is_refused(rt: HostRuntime) -> Result<(), Fail> {
    let mut shelf = store(&rt, &[], &[])?;
    let well = longest_are_played(&rt, &mut shelf);
    drop(shelf);
    well
}

/// Plays a script of a mebibyte, and one of a byte more.
fn longest_are_played<R: Calls>(rt: &R, shelf: &mut MemShelf) -> Result<(), Fail> {
    write_script(rt, shelf, "")?;
    comes_to(rt, shelf, READ, Hook::Open)?;
    write_script(rt, shelf, "x")?;
    comes_to(rt, shelf, NOT_READ, Hook::Open)
}

/// Writes a script of a mebibyte, with an end behind it.
fn write_script<R: Calls>(rt: &R, shelf: &mut MemShelf, end: &str) -> Result<(), Fail> {
    let script = script_with(rt.alloc(), end)?;
    let written = shelf.write("s", script.as_bytes());
    drop(script);
    written?;
    Ok(())
}

fn script_with(alloc: Global, end: &str) -> Result<String, AllocError> {
    let mut script = String::new(alloc);
    for _ in 0..131_072 {
        script.push_str("tag a234")?;
    }
    script.push_str(end)?;
    Ok(script)
}
