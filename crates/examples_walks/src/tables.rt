//! Tables of a thread's asks, with what its source does not ask there.

use crate::follows::{Begins, place_of};
use crate::written::{Asks, Gets, answer_of, ask_of};
use lam_asks::{Answer, Ask, What, let_go};
use std::alloc::Global;
use std::mem::forget;
use std::test::Fail;
use want_of_memory::NoMemory;

/// A line of a table.
#[derive(Clone, Copy)]
pub enum Line {
    /// The source makes this ask, and it has this answer.
    Did(Asks, Gets),
    /// In the place of the last one the source does not make this ask.
    Not(Asks),
}

/// The text of a program, how a thread of it begins, and its table.
#[derive(Clone, Copy)]
pub struct Thread {
    pub text: &'static str,
    pub begins: Begins,
    pub lines: &'static [Line],
}

/// Enough for the turns of each of these threads.
const UNITS: u64 = 100;

/// An ask with its answer.
fn asked(ask: Ask, answer: Result<Answer, NoMemory>) -> Result<What, NoMemory> {
    match answer {
        Ok(answer) => Ok(What::Asked { ask, answer }),
        Err(error) => {
            let_go(ask);
            Err(error)
        }
    }
}

/// An ask with its answer, or a turn that asks nothing.
fn what_of(alloc: Global, asks: Option<&Asks>, gets: &Gets) -> Result<What, NoMemory> {
    match asks {
        None => Ok(What::Private),
        Some(asks) => asked(ask_of(alloc, *asks)?, answer_of(alloc, *gets)),
    }
}

/// What a thread did by its table, but for another ask, or none, at one of the lines.
fn did_of(
    alloc: Global,
    lines: &[Line],
    at: usize,
    other: Option<&Asks>,
) -> Result<Vec<What>, NoMemory> {
    let mut did = Vec::new(alloc);
    for line in 0..lines.len() {
        if let Line::Did(asks, gets) = &lines[line] {
            let asks = if line == at { other } else { Some(asks) };
            did.push(what_of(alloc, asks, gets)?)?;
        }
    }
    Ok(did)
}

/// Fails where a thread that did this departs from its source elsewhere.
fn departs(
    alloc: Global,
    thread: Thread,
    at: usize,
    other: Option<&Asks>,
    want: Option<u64>,
) -> Result<(), Fail> {
    let did = did_of(alloc, thread.lines, at, other)?;
    let found = place_of(alloc, thread.text, thread.begins, UNITS, did.as_slice());
    forget(did);
    match found? {
        place if place == want => Ok(()),
        place => Err(Fail::new(format_args!("line {at}: {place:?}"))),
    }
}

/// Fails unless a thread that did what its table says keeps to its source, departs where it asks what stands there as not
/// asked, and departs where it leaves out an ask and makes the next.
pub fn departs_at_each(rt: &HostRuntime, thread: Thread) -> Result<(), Fail> {
    let alloc = rt.alloc();
    let lines = thread.lines;
    departs(alloc, thread, lines.len(), None, None)?;
    let mut here = 0;
    let mut asked = 0u64;
    for at in 0..lines.len() {
        match &lines[at] {
            Line::Did(..) => {
                if asked > 0 {
                    departs(alloc, thread, here, None, Some(asked - 1))?;
                }
                here = at;
                asked = asked.saturating_add(1);
            }
            Line::Not(other) => {
                let place = asked.saturating_sub(1);
                departs(alloc, thread, here, Some(other), Some(place))?;
            }
        }
    }
    Ok(())
}

/// Fails unless a thread that did what its table says keeps to its source up to its last ask, and departs there.
pub fn departs_at_last(rt: &HostRuntime, thread: Thread) -> Result<(), Fail> {
    let alloc = rt.alloc();
    let asked = thread.lines.len();
    if asked == 0 {
        return Err(Fail::new("no ask"));
    }
    let last = asked - 1;
    departs(alloc, thread, asked, None, Some(last as u64))?;
    let before = Thread {
        text: thread.text,
        begins: thread.begins,
        lines: &thread.lines[..last],
    };
    departs(alloc, before, asked, None, None)
}
