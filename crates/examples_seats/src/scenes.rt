//! Calls of one seat, or of two, at a run that is opened and closed.

ghost use Rattle.std.specs.Prelude.{◌≡◌, IfOk};

use crate::lines::{push_answer, push_closed, push_numbers};
use flow_labels::TagNames;
use seat_host::{Closed, Seat, SeatRun, TurnAnswer, let_go_answer, let_go_closed};
use seat_opening::{Opened, open_run};
use std::alloc::Global;
use std::mem::forget;
use std::process::Abort;
use std::sync::Wait;
use std::test::Fail;
use want_of_memory::NoMemory;

/// What a scene needs of the runtime.
pub trait Scene: Abort + Wait + AllocGlobal {}

impl<R: Abort + Wait + AllocGlobal> Scene for R {}

/// A program, and the world that it starts from.
#[derive(Clone, Copy)]
pub struct Given<'a> {
    pub program: &'a str,
    pub world: &'a str,
}

/// One of two seats.
#[derive(Clone, Copy)]
pub enum By {
    First,
    Second,
}

/// By a seat, so many turns of a thread one after another, as long as they are taken. Its line is that of the last answer.
#[derive(Clone, Copy)]
pub struct Call {
    pub by: By,
    pub thread: u32,
    pub turns: u32,
}

/// Compares the lines of a scene of one seat, which calls for a turn of each of these threads: a line for each call, how
/// many places the seat has seen then, and what the run is closed into.
pub fn one_seat_shows<R: Scene>(
    rt: &R,
    given: Given<'_>,
    threads: &[u32],
    lines: &str,
) -> Result<(), Fail> {
    let text = text_of_one(rt, rt.alloc(), opened(rt.alloc(), given)?, threads)?;
    assert_eq!(rt; text.as_str(), lines);
    Ok(())
}

/// Compares the lines of a scene of two seats, which were one before the first call: a line for each of the calls, how many
/// places each has seen then, and what the run is closed into once they are joined.
pub fn two_seats_show<R: Scene>(
    rt: &R,
    given: Given<'_>,
    calls: &[Call],
    lines: &str,
) -> Result<(), Fail> {
    let text = text_of_two(rt, rt.alloc(), opened(rt.alloc(), given)?, calls)?;
    assert_eq!(rt; text.as_str(), lines);
    Ok(())
}

fn opened(alloc: Global, given: Given<'_>) -> Result<Opened, Fail>
    ensures { IfOk result (λ o. o.seat.of ≡ o.run) }
{
    match open_run(alloc, given.program.as_bytes(), given.world.as_bytes()) {
        Ok(opened) => Ok(opened),
        Err(fault) => {
            forget(fault);
            Err(Fail::new("the run is not opened"))
        }
    }
}

fn text_of_one<R: Wait>(
    rt: &R,
    alloc: Global,
    opened: Opened,
    threads: &[u32],
) -> Result<String, Fail>
    requires { opened.seat.of ≡ opened.run }
{
    let Opened { run, seat, names } = opened;
    let mut lines = String::new(alloc);
    let (seat, written) = one_answered(rt, &run, &names, seat, threads, &mut lines);
    let seen = push_numbers(&mut lines, "seen", &[seat.seen()]);
    text_closed(alloc, run, seat, lines, written.and(seen))
}

/// The calls of one seat, and the line of each.
fn one_answered<R: Wait>(
    rt: &R,
    run: &SeatRun,
    names: &TagNames,
    seat: Seat,
    threads: &[u32],
    lines: &mut String,
) -> (Seat, Result<(), NoMemory>)
    requires { seat.of ≡ run.now }
    ensures { result.0.of ≡ run.now }
{
    let mut seat = seat;
    for thread in threads {
        let (next, answer) = run.turn_as(rt, seat, *thread);
        seat = next;
        let written = push_answer(lines, answer, names);
        if written.is_err() {
            return (seat, written);
        }
    }
    (seat, Ok(()))
}

fn text_of_two<R: Wait>(
    rt: &R,
    alloc: Global,
    opened: Opened,
    calls: &[Call],
) -> Result<String, Fail>
    requires { opened.seat.of ≡ opened.run }
{
    let Opened { run, seat, names } = opened;
    let mut lines = String::new(alloc);
    let (first, second) = run.split(seat);
    let pair = Pair { first, second };
    let (pair, written) = two_answered(rt, &run, &names, pair, calls, &mut lines);
    let Pair { first, second } = pair;
    let seen = push_numbers(&mut lines, "seen", &[first.seen(), second.seen()]);
    let seat = run.join(first, second);
    text_closed(alloc, run, seat, lines, written.and(seen))
}

/// Two seats.
struct Pair {
    first: Seat,
    second: Seat,
}

/// The calls of two seats, and the line of each.
fn two_answered<R: Wait>(
    rt: &R,
    run: &SeatRun,
    names: &TagNames,
    pair: Pair,
    calls: &[Call],
    lines: &mut String,
) -> (Pair, Result<(), NoMemory>)
    requires first { pair.first.of ≡ run.now }
    requires second { pair.second.of ≡ run.now }
    ensures first { result.0.first.of ≡ run.now }
    ensures second { result.0.second.of ≡ run.now }
{
    let mut pair = pair;
    for call in calls {
        let (next, answer) = called(rt, run, pair, *call);
        pair = next;
        let written = push_answer(lines, answer, names);
        if written.is_err() {
            return (pair, written);
        }
    }
    (pair, Ok(()))
}

fn called<R: Wait>(rt: &R, run: &SeatRun, pair: Pair, call: Call) -> (Pair, TurnAnswer)
    requires first { pair.first.of ≡ run.now }
    requires second { pair.second.of ≡ run.now }
    ensures first { result.0.first.of ≡ run.now }
    ensures second { result.0.second.of ≡ run.now }
{
    let Pair { first, second } = pair;
    match call.by {
        By::First => {
            let (first, answer) = turns_taken(rt, run, first, call);
            (Pair { first, second }, answer)
        }
        By::Second => {
            let (second, answer) = turns_taken(rt, run, second, call);
            (Pair { first, second }, answer)
        }
    }
}

/// The turns of a call by its seat, and the last answer.
fn turns_taken<R: Wait>(rt: &R, run: &SeatRun, seat: Seat, call: Call) -> (Seat, TurnAnswer)
    requires { seat.of ≡ run.now }
    ensures { result.0.of ≡ run.now }
{
    let (mut seat, mut answer) = run.turn_as(rt, seat, call.thread);
    for _ in 1..call.turns {
        if !matches!(&answer, TurnAnswer::Took { .. }) {
            return (seat, answer);
        }
        let_go_answer(answer);
        let (next, later) = run.turn_as(rt, seat, call.thread);
        seat = next;
        answer = later;
    }
    (seat, answer)
}

/// The lines, and what the run is closed into.
fn text_closed(
    alloc: Global,
    run: SeatRun,
    seat: Seat,
    lines: String,
    written: Result<(), NoMemory>,
) -> Result<String, Fail>
    requires { seat.of ≡ run }
{
    match run.close(alloc, seat) {
        Ok(closed) => {
            written?;
            with_closed(alloc, lines, closed)
        }
        Err(fault) => Err(Fail::new(format_args!("the run is not closed: {fault:?}"))),
    }
}

fn with_closed(alloc: Global, lines: String, closed: Closed) -> Result<String, Fail> {
    let mut lines = lines;
    let written = push_closed(alloc, &mut lines, &closed);
    let_go_closed(closed);
    written?;
    Ok(lines)
}
