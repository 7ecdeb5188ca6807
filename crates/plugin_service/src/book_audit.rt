//! The book of a closed run, and its audit.

use crate::stop::Stop;
use flow_labels::TagNames;
use lam_main_replay::{NamedViewer, Viewer, shown_turns};
use seat_host::Closed;
use std::alloc::Global;
use std::mem::forget;
use thread_host_run::{Run, let_go_run};
use turn_book::{Turns, read_book, write_book};

/// The audit of a closed run: its book is written, read again, and audited as the tool does it.
pub fn audited(alloc: Global, closed: Closed, names: TagNames) -> Result<String, Stop> {
    let Closed { run, places } = closed;
    drop(places);
    let viewer = NamedViewer {
        names,
        who: Viewer::Auditor,
    };
    let audit = audit_of(alloc, &run, &viewer);
    let_go_run(run);
    audit
}

fn audit_of(alloc: Global, run: &Run, viewer: &NamedViewer) -> Result<String, Stop> {
    let turns = booked(alloc, run)?;
    let audit = notes_of(alloc, run, turns, viewer)?;
    without_turns(alloc, audit.as_str())
}

/// The turns that the book of a run has.
fn booked(alloc: Global, run: &Run) -> Result<Turns, Stop> {
    let book = write_book(alloc, run.turns())?;
    match read_book(alloc, book.as_slice()) {
        Ok(turns) => Ok(turns),
        Err(_) => Err(Stop::Book),
    }
}

/// The audit of turns, from the start of a run.
fn notes_of(alloc: Global, run: &Run, turns: Turns, viewer: &NamedViewer) -> Result<String, Stop> {
    let _whole = run.turns();
    let start = run.start().copy()?;
    match shown_turns(alloc, run.code(), start, turns.as_slice(), viewer) {
        Ok(text) => Ok(text),
        Err(halt) => {
            forget(halt);
            Err(Stop::Book)
        }
    }
}

/// The lines of an audit without the numbers of the turns.
fn without_turns(alloc: Global, audit: &str) -> Result<String, Stop> {
    let mut text = String::from_str(alloc, "the audit\n")?;
    for line in audit.lines() {
        if let Some((_turn, rest)) = line.split_once(' ') {
            text.push_str(rest)?;
            text.push('\n')?;
        }
    }
    Ok(text)
}
