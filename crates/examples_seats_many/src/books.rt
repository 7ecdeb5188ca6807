//! The contents of a run's book.

use flow_labels::{TagNames, parse_label};
use lam_main_replay::{NamedViewer, Viewer, shown_turns};
use std::alloc::Global;
use std::mem::forget;
use std::test::Fail;
use thread_host_run::Run;
use turn_book::{Turns, read_book, write_book};
use want_of_memory::NoMemory;

/// What an observer sees of the book of a run, which is written, read again and replayed: the lines of a thread before those
/// of the next.
pub fn shown_by_thread(
    alloc: Global,
    run: &Run,
    observer: &str,
    threads: u32,
) -> Result<String, Fail> {
    let turns = booked(alloc, run)?;
    let viewer = viewer_at(run, observer)?;
    let text = replayed(alloc, run, turns.as_slice(), &viewer)?;
    by_thread(alloc, text.as_str(), threads)
}

/// The turns that the book of a run has.
fn booked(alloc: Global, run: &Run) -> Result<Turns, Fail> {
    let book = write_book(alloc, run.turns())?;
    Ok(read_book(alloc, book.as_slice())?)
}

fn viewer_at(run: &Run, observer: &str) -> Result<NamedViewer, Fail> {
    let names = run.start().stores().names.copy()?;
    let who = Viewer::Observer(parse_label(observer, &names)?);
    Ok(NamedViewer { names, who })
}

fn replayed(alloc: Global, run: &Run, turns: &[u32], viewer: &NamedViewer) -> Result<String, Fail> {
    let _whole = run.turns();
    let start = run.start().copy()?;
    match shown_turns(alloc, run.code(), start, turns, viewer) {
        Ok(text) => Ok(text),
        Err(halt) => {
            forget(halt);
            Err(Fail::new("the book is not replayed"))
        }
    }
}

/// The lines of a text, those of a thread before those of the next.
fn by_thread(alloc: Global, text: &str, threads: u32) -> Result<String, Fail> {
    let mut lines = String::new(alloc);
    for thread in 0..threads {
        let head = format!(in alloc; "t{thread} ")?;
        push_lines(&mut lines, text, head.as_str())?;
    }
    Ok(lines)
}

fn push_lines(lines: &mut String, text: &str, head: &str) -> Result<(), NoMemory> {
    for line in text.lines() {
        if line.starts_with(head) {
            lines.push_str(line)?;
            lines.push('\n')?;
        }
    }
    Ok(())
}

/// How many places hold this.
pub fn holding(places: &[Option<u32>], held: Option<u32>) -> u64 {
    let mut count = 0u64;
    for place in places {
        if *place == held {
            count = count.saturating_add(1);
        }
    }
    count
}
