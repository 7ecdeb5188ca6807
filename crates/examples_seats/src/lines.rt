//! The answers of calls, and the parts of a closed run, as lines.

use audit_log_texts::push_event;
use decimal_text::push_number;
use flow_labels::TagNames;
use lam_asks::{Event, What, let_go_event};
use seat_host::{Closed, TurnAnswer};
use std::alloc::Global;
use std::str::from_utf8;
use std::test::Fail;
use turn_book::write_book;
use want_of_memory::NoMemory;

/// Writes the line of an answer, and lets the answer go: its name, its place, and the line of its event where it is a
/// turn that asked for something.
pub fn push_answer(
    lines: &mut String,
    answer: TurnAnswer,
    names: &TagNames,
) -> Result<(), NoMemory> {
    match answer {
        TurnAnswer::Took { place, event } => {
            let written = push_took(lines, place, &event, names);
            let_go_event(event);
            written
        }
        TurnAnswer::Stale { place, seen } => push_numbers(lines, "stale", &[place, seen]),
        TurnAnswer::Full { place } => push_numbers(lines, "full", &[place]),
        TurnAnswer::NotReady { place } => push_numbers(lines, "not ready", &[place]),
        TurnAnswer::NoMemory { place } => push_numbers(lines, "no memory", &[place]),
        TurnAnswer::Worn { drawn } => push_numbers(lines, "worn", &[drawn]),
    }
}

fn push_took(
    lines: &mut String,
    place: u64,
    event: &Event,
    names: &TagNames,
) -> Result<(), NoMemory> {
    match &event.what {
        What::Private => push_numbers(lines, "took", &[place]),
        What::Asked { .. } => {
            lines.push_str("took ")?;
            push_number(lines, place)?;
            lines.push(' ')?;
            push_event(lines, event, names)
        }
    }
}

/// Writes a line of a word and numbers.
pub fn push_numbers(lines: &mut String, word: &str, numbers: &[u64]) -> Result<(), NoMemory> {
    lines.push_str(word)?;
    for number in numbers {
        lines.push(' ')?;
        push_number(lines, *number)?;
    }
    Ok(lines.push('\n')?)
}

/// Writes what a shared run was closed into: a line for each stretch of places that hold the same, with how many they are,
/// and the book of the turns.
pub fn push_closed(alloc: Global, lines: &mut String, closed: &Closed) -> Result<(), Fail> {
    push_places(lines, closed.places.as_slice())?;
    let book = write_book(alloc, closed.run.turns())?;
    lines.push_str(from_utf8(book.as_slice())?)?;
    Ok(())
}

fn push_places(lines: &mut String, places: &[Option<u32>]) -> Result<(), NoMemory> {
    let mut held = None;
    let mut count = 0u64;
    for place in places {
        if count > 0 && *place != held {
            push_stretch(lines, held, count)?;
            count = 0;
        }
        held = *place;
        count = count.saturating_add(1);
    }
    push_stretch(lines, held, count)
}

/// Writes the line of so many places that hold a thread or nothing.
fn push_stretch(lines: &mut String, held: Option<u32>, count: u64) -> Result<(), NoMemory> {
    match held {
        Some(thread) => push_numbers(lines, "places of", &[u64::from(thread), count]),
        None => push_numbers(lines, "empty places", &[count]),
    }
}
