//! The callers, each with a seat of its own.
//!
//! Each takes the turns of one lam thread until that thread has ended, and writes down what it sees of them.

ghost use Rattle.std.specs.Prelude.{◌≡◌};

use crate::stop::Stop;
use crate::story::{ANN, BOB, HOST, PLUGIN};
use audit_log_texts::push_event;
use flow_labels::TagNames;
use lam_asks::{Ask, Event, What, let_go_event};
use seat_host::{Seat, SeatRun, TurnAnswer};
use std::alloc::Global;
use std::sync::Wait;
use std::thread;
use std::thread::{Threads, join};
use std::time::{Clock, Duration};

/// How often a caller asks for a turn, at most.
const CALL_LIMIT: u32 = 20_000;

/// How long a caller waits where its thread can take no turn yet, in milliseconds.
const PAUSE: u64 = 1;

/// What a caller has in the end: its seat, and the lines of what its turns showed, or why it stopped.
pub struct Done {
    pub seat: Seat,
    pub lines: Result<String, Stop>,
}

/// What a caller does after an answer.
#[derive(Clone, Copy)]
enum Next {
    /// Asks again.
    Again,
    /// Asks again a little later.
    Later,
    /// Goes, as its thread has ended.
    Ended,
    /// Goes.
    Stopped(Stop),
}

/// All callers: the host, which starts the others, and then these at once.
pub fn all_act<R: Threads + Wait + Clock + Sync>(
    rt: &R,
    alloc: Global,
    run: &SeatRun,
    names: &TagNames,
    seat: Seat,
) -> Done
    requires { seat.of ≡ run.now }
    ensures { result.seat.of ≡ run.now }
{
    let Done { seat, lines } = act(rt, alloc, run, names, seat, HOST, "the host saw\n");
    match lines {
        Ok(lines) => {
            let Done { seat, lines: more } = three_act(rt, alloc, run, names, seat);
            Done {
                seat,
                lines: after(lines, more),
            }
        }
        Err(stop) => Done {
            seat,
            lines: Err(stop),
        },
    }
}

/// The users on threads of their own, and the plug-in on this one. Where no thread can be made, the plug-in comes first.
fn three_act<R: Threads + Wait + Clock + Sync>(
    rt: &R,
    alloc: Global,
    run: &SeatRun,
    names: &TagNames,
    seat: Seat,
) -> Done
    requires { seat.of ≡ run.now }
    ensures { result.seat.of ≡ run.now }
{
    let (users, plugin) = run.split(seat);
    let (users, plugin) = join(
        rt,
        move || -> Done
            requires { users.of ≡ run.now }
            ensures { result.seat.of ≡ run.entry.now }
        { users_act(rt, alloc, run, names, users) },
        move || -> Done
            requires { plugin.of ≡ run.now }
            ensures { result.seat.of ≡ run.entry.now }
        { act(rt, alloc, run, names, plugin, PLUGIN, "the plug-in saw\n") },
    );
    joined(run, plugin, users)
}

/// The users, each on a thread.
fn users_act<R: Threads + Wait + Clock + Sync>(
    rt: &R,
    alloc: Global,
    run: &SeatRun,
    names: &TagNames,
    seat: Seat,
) -> Done
    requires { seat.of ≡ run.now }
    ensures { result.seat.of ≡ run.now }
{
    let (ann, bob) = run.split(seat);
    let (ann, bob) = join(
        rt,
        move || -> Done
            requires { ann.of ≡ run.now }
            ensures { result.seat.of ≡ run.entry.now }
        { act(rt, alloc, run, names, ann, ANN, "Ann saw\n") },
        move || -> Done
            requires { bob.of ≡ run.now }
            ensures { result.seat.of ≡ run.entry.now }
        { act(rt, alloc, run, names, bob, BOB, "Bob saw\n") },
    );
    joined(run, ann, bob)
}

/// One of two: its seat has seen what either had, and its lines are those of both.
fn joined(run: &SeatRun, first: Done, second: Done) -> Done
    requires first { first.seat.of ≡ run.now }
    requires second { second.seat.of ≡ run.now }
    ensures { result.seat.of ≡ run.now }
{
    let Done { seat: one, lines } = first;
    let Done {
        seat: other,
        lines: more,
    } = second;
    let seat = run.join(one, other);
    let lines = match lines {
        Ok(lines) => after(lines, more),
        Err(stop) => Err(stop),
    };
    Done { seat, lines }
}

/// Lines, and others behind them.
fn after(lines: String, more: Result<String, Stop>) -> Result<String, Stop> {
    let mut lines = lines;
    lines.push_str(more?.as_str())?;
    Ok(lines)
}

/// Takes the turns of a thread until it has ended.
fn act<R: Wait + Clock>(
    rt: &R,
    alloc: Global,
    run: &SeatRun,
    names: &TagNames,
    seat: Seat,
    thread: u32,
    title: &str,
) -> Done
    requires { seat.of ≡ run.now }
    ensures { result.seat.of ≡ run.now }
{
    let mut lines = String::new(alloc);
    if lines.push_str(title).is_err() {
        return stopped(seat, Stop::NoMemory);
    }
    let (seat, end) = take_turns(rt, run, names, seat, thread, &mut lines);
    match end {
        Ok(()) => Done {
            seat,
            lines: Ok(lines),
        },
        Err(stop) => stopped(seat, stop),
    }
}

fn stopped(seat: Seat, stop: Stop) -> Done
    ensures { result.seat ≡ seat }
{
    Done {
        seat,
        lines: Err(stop),
    }
}

/// Takes the turns of a thread until it has ended, and writes the line of each.
fn take_turns<R: Wait + Clock>(
    rt: &R,
    run: &SeatRun,
    names: &TagNames,
    seat: Seat,
    thread: u32,
    lines: &mut String,
) -> (Seat, Result<(), Stop>)
    requires { seat.of ≡ run.now }
    ensures { result.0.of ≡ run.now }
{
    let mut seat = seat;
    for _ in 0..CALL_LIMIT {
        let (next, answer) = run.turn_as(rt, seat, thread);
        seat = next;
        match told(lines, answer, names) {
            Next::Again => {}
            Next::Later => thread::sleep(rt, Duration::from_millis(PAUSE)),
            Next::Ended => return (seat, Ok(())),
            Next::Stopped(stop) => return (seat, Err(stop)),
        }
    }
    (seat, Err(Stop::Unfinished))
}

/// What comes after an answer. The line of its event is written.
fn told(lines: &mut String, answer: TurnAnswer, names: &TagNames) -> Next {
    match answer {
        TurnAnswer::Took { event, .. } => shown(lines, event, names),
        TurnAnswer::NotReady { .. } | TurnAnswer::Stale { .. } => Next::Later,
        TurnAnswer::Full { .. } | TurnAnswer::Worn { .. } => Next::Stopped(Stop::Full),
        TurnAnswer::NoMemory { .. } => Next::Stopped(Stop::NoMemory),
    }
}

fn shown(lines: &mut String, event: Event, names: &TagNames) -> Next {
    let next = if ends(&event) {
        Next::Ended
    } else {
        Next::Again
    };
    let written = push_event(lines, &event, names);
    let_go_event(event);
    match written {
        Ok(()) => next,
        Err(_) => Next::Stopped(Stop::NoMemory),
    }
}

/// Whether a thread's last turn was this one.
fn ends(event: &Event) -> bool {
    match &event.what {
        What::Asked { ask, .. } => matches!(ask, Ask::End(_)),
        What::Private => false,
    }
}
