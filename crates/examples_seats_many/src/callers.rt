//! Callers on threads of their own, each with a seat of its own.
//!
//! Each takes the turns of one lam thread until that thread is not ready, and writes down what they showed.

ghost use Rattle.std.specs.Prelude.{◌≡◌};

use audit_log_texts::push_event;
use flow_labels::TagNames;
use lam_asks::let_go_event;
use seat_host::{Seat, SeatRun, TurnAnswer};
use std::alloc::{AllocError, Global};
use std::sync::Wait;
use std::thread::{Threads, join};
use thread_host_run::TURN_LIMIT;
use want_of_memory::NoMemory;

/// Why a caller stops early.
#[derive(Clone, Copy, Debug)]
pub enum Stop {
    /// It is answered neither a turn nor that the thread is not ready.
    OtherAnswer,
    /// Memory ran out.
    NoMemory,
}

impl From<NoMemory> for Stop {
    fn from(_e: NoMemory) -> Stop {
        Stop::NoMemory
    }
}

impl From<AllocError> for Stop {
    fn from(_e: AllocError) -> Stop {
        Stop::NoMemory
    }
}

/// What callers have in the end: one seat, how often they called, and the lines of the events of their turns, those of a
/// caller before those of the next.
pub struct Acted {
    pub seat: Seat,
    pub calls: u64,
    pub lines: Result<String, Stop>,
}

/// So many lam threads from this one on, each for a caller of its own.
#[derive(Clone, Copy)]
pub struct Part {
    pub first: u32,
    pub count: u32,
}

/// Callers for all threads of a part, at once.
pub fn all_act<R: Threads + Wait + Sync>(
    rt: &R,
    alloc: Global,
    run: &SeatRun,
    names: &TagNames,
    seat: Seat,
    part: Part,
) -> Acted
    requires { seat.of ≡ run.now }
    ensures { result.seat.of ≡ run.now }
{
    if part.count < 2 {
        return act(rt, alloc, run, names, seat, part.first);
    }
    let half = part.count / 2;
    let front = Part {
        first: part.first,
        count: half,
    };
    let back = Part {
        first: part.first.saturating_add(half),
        count: part.count - half,
    };
    let (left, right) = run.split(seat);
    let (left, right) = join(
        rt,
        move || -> Acted
            requires { left.of ≡ run.now }
            ensures { result.seat.of ≡ run.entry.now }
        { all_act(rt, alloc, run, names, left, front) },
        move || -> Acted
            requires { right.of ≡ run.now }
            ensures { result.seat.of ≡ run.entry.now }
        { all_act(rt, alloc, run, names, right, back) },
    );
    joined(run, left, right)
}

/// One of two, with the seats, the calls and the lines of both.
pub fn joined(run: &SeatRun, first: Acted, second: Acted) -> Acted
    requires first { first.seat.of ≡ run.now }
    requires second { second.seat.of ≡ run.now }
    ensures { result.seat.of ≡ run.now }
{
    let Acted {
        seat: one,
        calls,
        lines,
    } = first;
    let Acted {
        seat: other,
        calls: more,
        lines: rest,
    } = second;
    Acted {
        seat: run.join(one, other),
        calls: calls.saturating_add(more),
        lines: after(lines, rest),
    }
}

/// Lines, and others behind them.
fn after(lines: Result<String, Stop>, more: Result<String, Stop>) -> Result<String, Stop> {
    let mut lines = lines?;
    let more = more?;
    lines.push_str(more.as_str())?;
    Ok(lines)
}

/// Takes the turns of a thread until it is not ready.
pub fn act<R: Wait>(
    rt: &R,
    alloc: Global,
    run: &SeatRun,
    names: &TagNames,
    seat: Seat,
    thread: u32,
) -> Acted
    requires { seat.of ≡ run.now }
    ensures { result.seat.of ≡ run.now }
{
    let mut lines = String::new(alloc);
    let (seat, calls, end) = take_turns(rt, run, names, seat, thread, &mut lines);
    let lines = match end {
        Ok(()) => Ok(lines),
        Err(stop) => Err(stop),
    };
    Acted { seat, calls, lines }
}

/// Takes the turns of a thread until it is not ready, and writes the lines of their events. It gives how often it called.
fn take_turns<R: Wait>(
    rt: &R,
    run: &SeatRun,
    names: &TagNames,
    seat: Seat,
    thread: u32,
    lines: &mut String,
) -> (Seat, u64, Result<(), Stop>)
    requires { seat.of ≡ run.now }
    ensures { result.0.of ≡ run.now }
{
    let mut seat = seat;
    for calls in 0..TURN_LIMIT {
        let (next, answer) = run.turn_as(rt, seat, thread);
        seat = next;
        match goes_on(lines, answer, names) {
            Ok(true) => {}
            Ok(false) => return (seat, calls + 1, Ok(())),
            Err(stop) => return (seat, calls + 1, Err(stop)),
        }
    }
    (seat, TURN_LIMIT, Err(Stop::OtherAnswer))
}

/// Whether a caller goes on after an answer. The line of its event is written.
fn goes_on(lines: &mut String, answer: TurnAnswer, names: &TagNames) -> Result<bool, Stop> {
    match answer {
        TurnAnswer::Took { event, .. } => {
            let written = push_event(lines, &event, names);
            let_go_event(event);
            written?;
            Ok(true)
        }
        TurnAnswer::NotReady { .. } => Ok(false),
        TurnAnswer::NoMemory { .. } => Err(Stop::NoMemory),
        TurnAnswer::Stale { .. } | TurnAnswer::Full { .. } | TurnAnswer::Worn { .. } => {
            Err(Stop::OtherAnswer)
        }
    }
}
