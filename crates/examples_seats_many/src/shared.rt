//! A run that callers share, from its opening to its close.

ghost use Rattle.std.specs.Prelude.{◌≡◌, IfOk};

use crate::callers::{Acted, Part, Stop, act, all_act, joined};
use flow_labels::TagNames;
use seat_host::{Closed, Seat, SeatRun};
use seat_opening::{Opened, open_run};
use std::alloc::Global;
use std::mem::forget;
use std::sync::Wait;
use std::test::Fail;
use std::thread::Threads;

/// What callers need of the runtime.
pub trait Calls: Threads + Wait + Sync + AllocGlobal {}

impl<R: Threads + Wait + Sync + AllocGlobal> Calls for R {}

/// A run that was closed, how often its callers called, and the lines of the events of their turns, those of a lam thread
/// before those of the next.
pub struct Told {
    pub closed: Closed,
    pub calls: u64,
    pub lines: Result<String, Stop>,
}

/// A shared run of a program, from a world.
pub fn opened(alloc: Global, program: &str, world: &str) -> Result<Opened, Fail>
    ensures { IfOk result (λ o. o.seat.of ≡ o.run) }
{
    match open_run(alloc, program.as_bytes(), world.as_bytes()) {
        Ok(opened) => Ok(opened),
        Err(fault) => {
            forget(fault);
            Err(Fail::new("the run is not opened"))
        }
    }
}

/// Callers for so many threads, all at once.
pub fn shared_at_once<R: Calls>(rt: &R, opened: Opened, count: u32) -> Result<Told, Fail>
    requires { opened.seat.of ≡ opened.run }
{
    let Opened { run, seat, names } = opened;
    let part = Part { first: 0, count };
    let acted = all_act(rt, rt.alloc(), &run, &names, seat, part);
    closed_run(rt.alloc(), run, acted)
}

/// A caller for the first thread, and then callers for so many that it started, all at once.
pub fn shared_after_first<R: Calls>(rt: &R, opened: Opened, count: u32) -> Result<Told, Fail>
    requires { opened.seat.of ≡ opened.run }
{
    let Opened { run, seat, names } = opened;
    let acted = first_and_others(rt, rt.alloc(), &run, &names, seat, count);
    closed_run(rt.alloc(), run, acted)
}

fn first_and_others<R: Threads + Wait + Sync>(
    rt: &R,
    alloc: Global,
    run: &SeatRun,
    names: &TagNames,
    seat: Seat,
    count: u32,
) -> Acted
    requires { seat.of ≡ run.now }
    ensures { result.seat.of ≡ run.now }
{
    let (seat, later) = run.split(seat);
    let first = act(rt, alloc, run, names, seat, 0);
    let others = all_act(rt, alloc, run, names, later, Part { first: 1, count });
    joined(run, first, others)
}

/// What is told of a run that callers are done with.
fn closed_run(alloc: Global, run: SeatRun, acted: Acted) -> Result<Told, Fail>
    requires { acted.seat.of ≡ run }
{
    let Acted { seat, calls, lines } = acted;
    match run.close(alloc, seat) {
        Ok(closed) => Ok(Told {
            closed,
            calls,
            lines,
        }),
        Err(fault) => Err(Fail::new(format_args!("the run is not closed: {fault:?}"))),
    }
}
