//! Runs that workers take to their end.

use crate::given::{ZERO, start_of, verified};
use lam_io::OpenGate;
use std::mem::forget;
use std::sync::Wait;
use std::test::Fail;
use std::thread::Threads;
use thread_host::{Finished, How, run_on};
use thread_host_run::TURN_LIMIT;

/// So many workers, the most turns that they may take, how many they take, and how the run ends then.
struct Case {
    workers: u64,
    most: u64,
    turns: u64,
    how: How,
}

const CASES: [Case; 3] = [
    Case {
        workers: 1,
        most: 100,
        turns: 5,
        how: How::Done,
    },
    Case {
        workers: 2,
        most: 5,
        turns: 5,
        how: How::Done,
    },
    Case {
        workers: 1,
        most: 4,
        turns: 4,
        how: How::Budget,
    },
];

/// Workers take all turns of a run, or as many as they may.
#[test]
fn workers_take_a_run(rt: HostRuntime) -> Result<(), Fail> {
    for case in &CASES {
        ends_so(&rt, case)?;
    }
    Ok(())
}

fn ends_so<R: Threads + Wait + Sync + AllocGlobal>(rt: &R, case: &Case) -> Result<(), Fail> {
    let Finished { run, how } = finished(rt, case.workers, case.most)?;
    let turns = run.turns().len() as u64;
    forget(run);
    if turns == case.turns && how == case.how {
        return Ok(());
    }
    Err(Fail::new(format_args!("{turns} turns, {how:?}")))
}

/// The run, taken by so many workers, with so many turns at most.
fn finished<R: Threads + Wait + Sync + AllocGlobal>(
    rt: &R,
    workers: u64,
    most: u64,
) -> Result<Finished, Fail> {
    if workers == 0 || workers > 16 || most == 0 || most > TURN_LIMIT {
        return Err(Fail::new("no such workers"));
    }
    let alloc = rt.alloc();
    let code = verified(alloc)?;
    let start = start_of(alloc, &code, ZERO)?;
    Ok(run_on(rt, alloc, code, start, workers, most, &OpenGate)?)
}
