//! Worked calls of the tool's two programs, as data.
//!
//! The program makes each call that a line of the file `calls` asks, over the files beside it, and prints what a
//! terminal would show. A line of `calls` is what stands at a terminal: `lam` or `lam_closed`, and the words of the call,
//! each after one space, so that a second space begins an empty word. It is printed after `$ `, then what the call
//! prints, and then the number of its status. A line `cat NAME` is printed so, too, and then the text of that file and
//! the end of a line. A line that is empty or begins with `#` is printed as it is. The calls are made from the first to
//! the last, so that one can read the book that another has written.
//!
//! The program ends with 0 where it made each call, however these ended, and else with the status of what failed.
#![tactic(auto)]

use lam_io::{DirShelf, Got, OpenGate, Shelf, ShelfFault, Sink, SinkFault, StdSink, write_all};
use lam_main::Status;
use std::alloc::{AllocError, Global};
use std::process::ExitCode;
use std::sync::Wait;
use std::thread::Threads;

/// The name of the file of the calls.
const CALLS: &str = "calls";

/// How a line begins that calls the program of the closed schedule.
const CLOSED: &str = "lam_closed";

/// The greatest length of a file that is read here.
const LONGEST: u64 = 1_048_576;

fn main(rt: HostRuntime) -> ExitCode {
    let mut shelf = DirShelf::new(&rt);
    let mut out = StdSink::new(&rt);
    match make_calls(&rt, &mut shelf, &mut out) {
        Ok(()) => ExitCode::SUCCESS,
        Err(status) => ExitCode::from(status.code()),
    }
}

/// Makes the calls of the file, and prints each with what it prints.
fn make_calls<R: Threads + Wait + Sync + AllocGlobal, H: Shelf, O: Sink>(
    rt: &R,
    shelf: &mut H,
    out: &mut O,
) -> Result<(), Status> {
    let text = text_of_calls(rt.alloc(), shelf)?;
    for line in text.as_str().lines() {
        if line.is_empty() || line.starts_with('#') {
            print(out, line)?;
            print(out, "\n")?;
        } else if let Some(name) = line.strip_prefix("cat ") {
            print_file(rt.alloc(), line, name, shelf, out)?;
        } else {
            make_call(rt, line, shelf, out)?;
        }
    }
    Ok(())
}

/// Prints a line that asks for a file, and the text of the file.
fn print_file<H: Shelf, O: Sink>(
    alloc: Global,
    line: &str,
    name: &str,
    shelf: &mut H,
    out: &mut O,
) -> Result<(), Status> {
    print(out, "$ ")?;
    print(out, line)?;
    print(out, "\n")?;
    let text = text_of(alloc, name, shelf)?;
    print(out, text.as_str())?;
    print(out, "\n")
}

/// The text of the file of the calls.
fn text_of_calls<H: Shelf>(alloc: Global, shelf: &mut H) -> Result<String, Status> {
    text_of(alloc, CALLS, shelf)
}

/// The text of a file.
fn text_of<H: Shelf>(alloc: Global, name: &str, shelf: &mut H) -> Result<String, Status> {
    match shelf.read(alloc, name, LONGEST) {
        Ok(Got::Found(bytes)) => String::from_utf8(bytes).map_err(|_| Status::Words),
        Ok(Got::Absent) | Ok(Got::TooLong) => Err(Status::Missing),
        Err(ShelfFault::Failed) => Err(Status::ShelfFault),
        Err(ShelfFault::NoMemory) => Err(Status::NoMemory),
    }
}

/// Makes the call of a line, and prints the line, what the call prints, and its status.
fn make_call<R: Threads + Wait + Sync + AllocGlobal, H: Shelf, O: Sink>(
    rt: &R,
    line: &str,
    shelf: &mut H,
    out: &mut O,
) -> Result<(), Status> {
    print(out, "$ ")?;
    print(out, line)?;
    print(out, "\n")?;
    let words = words_of(rt.alloc(), line)?;
    let number = if line.starts_with(CLOSED) {
        let status = lam_closed_main::lam_closed(rt.alloc(), words.as_slice(), shelf, out);
        status.code()
    } else {
        let status = lam_main::lam(rt, rt.alloc(), words.as_slice(), shelf, out, &OpenGate);
        status.code()
    };
    print_status(rt.alloc(), out, number)
}

/// The words of a call: those of its line after the first, which is the program's name.
fn words_of(alloc: Global, line: &str) -> Result<Vec<String>, Status> {
    match line
        .split(' ')
        .skip(1)
        .map(|word| String::from_str(alloc, word))
        .try_collect(alloc)
    {
        Ok(words) => Ok(words),
        Err(AllocError) => Err(Status::NoMemory),
    }
}

/// Prints the number of a status, in a line.
fn print_status<O: Sink>(alloc: Global, out: &mut O, number: u8) -> Result<(), Status> {
    match format!(in alloc; "status {}\n", number) {
        Ok(line) => print(out, line.as_str()),
        Err(AllocError) => Err(Status::NoMemory),
    }
}

/// Prints a text.
fn print<O: Sink>(out: &mut O, text: &str) -> Result<(), Status> {
    match write_all(out, text.as_bytes()) {
        Ok(()) => Ok(()),
        Err(SinkFault::Failed) => Err(Status::SinkFault),
    }
}
