//! The answers of a caller's turn, and the results of closing a shared run.

use lam_asks::{Event, let_go_event};
use thread_host_run::{Run, let_go_run};

/// What a caller's turn answers. A place is one ticket's use, counted from 0.
#[derive(Drop)]
pub enum TurnAnswer {
    /// The ticket word has reached its last number, and no ticket was drawn.
    Worn { drawn: u64 },
    /// The thread took a turn at the place `seen`, which the caller's seat had not seen.
    Stale { place: u64, seen: u64 },
    /// The run has as many turns as it may have.
    Full { place: u64 },
    /// The thread is not there, has ended, is stuck or waits.
    NotReady { place: u64 },
    /// Memory was refused; the run is as it was.
    NoMemory { place: u64 },
    /// The thread took its turn, which was this event.
    Took { place: u64, event: Event },
}

/// Why a shared run was not closed into its parts.
#[derive(Clone, Copy, PartialEq, Eq, Debug)]
pub enum CloseFault {
    /// A ticket was drawn and not served: how many places are finished, and how many tickets were drawn.
    Open { served: u64, drawn: u64 },
    /// Memory was refused.
    NoMemory,
}

/// A run, and what each place holds: the thread that took a turn there, or nothing.
#[derive(Drop)]
pub struct Closed {
    pub run: Run,
    pub places: Vec<Option<u32>>,
}

/// Lets a closed run go.
pub fn let_go_closed(closed: Closed) {
    let Closed { run, places } = closed;
    drop(places);
    let_go_run(run);
}

/// Lets an answer go.
pub fn let_go_answer(answer: TurnAnswer) {
    match answer {
        TurnAnswer::Took { event, .. } => let_go_event(event),
        TurnAnswer::Worn { .. }
        | TurnAnswer::Stale { .. }
        | TurnAnswer::Full { .. }
        | TurnAnswer::NotReady { .. }
        | TurnAnswer::NoMemory { .. } => {}
    }
}
