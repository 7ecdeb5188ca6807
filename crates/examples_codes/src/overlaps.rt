//! Workers that are away with turns at one time.
//!
//! Threads that compute for ever, one for each worker. A hook notes where a worker picks while another one is away: both
//! picked at one number of turns, and the run then has a row of turns of each one's thread. A body that takes all turns under
//! the lock has no such two picks. No worker waits for luck: the hook brings all but one to the lock when that one goes away.
//! Where the system lets that one come back first each time, a longer run is tried, a number of times.

ghost use Rattle.std.specs.Prelude.{IfOk};
ghost use Rattle.lam_bytecode.specs.Codes.{IsCode};
ghost use Rattle.guarded_code_runs.specs.Worlds.{IsSound};

use crate::given::{start_of, verified_of};
use guarded_code::Verified;
use lam_bytecode::Op;
use lam_io::Gate;
use lam_machine_world::World;
use std::alloc::{AllocError, Global};
use std::mem::forget;
use std::sync::Wait;
use std::sync::atomic::{AtomicU64, Ordering};
use std::test::Fail;
use std::thread::{Threads, yield_now};
use thread_host::{Finished, How, run_on};
use thread_host_run::TURN_LIMIT;
use written_code::{Constant, Unit, UnitHead, Written};

/// Drops a number again and again.
const COMPUTES: Written<'static> = Written {
    units: &[Unit {
        head: UnitHead::Function {
            name: "main",
            takes: &[],
        },
        locals: 0,
        ops: &[Op::Const(0), Op::Pop, Op::Jump(0)],
    }],
    constants: &[Constant::Int(0)],
    classes: &[],
};

const WORLD_HEAD: &str = "{\"version\":1,\"tags\":[],\"tree\":[],\"pipes\":[],\"threads\":[";

const WORLD_THREAD: &str = "{\"run\":\"main\",\"args\":[],\"caps\":{\"plus\":[],\"minus\":[]}}";

/// How many turns the runs have, of which each is tried where the one before had no overlap.
const BUDGETS: [u64; 8] = [
    100_000, 200_000, 400_000, 1_000_000, 1_000_000, 1_000_000, 1_000_000, 1_000_000,
];

/// As many turns as sixteen workers have away at most. What the budget leaves makes the last rows short.
const LAST_TURNS: u64 = 65_536;

/// The fewest turns that a thread which computes is away for, before the last turns.
const ROW: u64 = 64;

#[test]
fn two_workers_overlap(rt: HostRuntime) -> Result<(), Fail> {
    overlap(&rt, 2)
}

#[test]
fn three_workers_overlap(rt: HostRuntime) -> Result<(), Fail> {
    overlap(&rt, 3)
}

#[test]
fn sixteen_workers_overlap(rt: HostRuntime) -> Result<(), Fail> {
    overlap(&rt, 16)
}

/// Fails where in none of the runs two of so many workers are away at one time.
fn overlap<R: Threads + Wait + Sync + AllocGlobal>(rt: &R, workers: u64) -> Result<(), Fail> {
    for turns in BUDGETS {
        if some_overlap(rt, workers, turns)? {
            return Ok(());
        }
    }
    Err(Fail::new(format_args!("{workers} workers were never away at one time")))
}

/// Whether two workers are away at one time in a run.
fn some_overlap<R: Threads + Wait + Sync + AllocGlobal>(
    rt: &R,
    workers: u64,
    turns: u64,
) -> Result<bool, Fail> {
    let gate = gate_of(workers, turns);
    let Finished { run, how } = finished(rt, workers, turns, &gate)?;
    let at = gate.at.load(Ordering::SeqCst);
    let first = gate.first.load(Ordering::SeqCst);
    let second = gate.second.load(Ordering::SeqCst);
    let from = at.saturating_sub(1);
    let rows = has_row(run.turns(), from, first) && has_row(run.turns(), from, second);
    forget(run);
    if how != How::Budget {
        return Err(Fail::new(format_args!("the run ended with {how:?}")));
    }
    if at > 0 && !rows {
        return Err(Fail::new(format_args!(
            "{first} and {second} picked at {from}, and one has no row"
        )));
    }
    Ok(at > 0)
}

/// The run of so many threads by as many workers.
fn finished<R: Threads + Wait + Sync + AllocGlobal>(
    rt: &R,
    workers: u64,
    turns: u64,
    gate: &Overlaps,
) -> Result<Finished, Fail> {
    if workers == 0 || workers > 16 || turns == 0 || turns > TURN_LIMIT {
        return Err(Fail::new("no such workers"));
    }
    let alloc = rt.alloc();
    let code = verified_of(alloc, COMPUTES)?;
    let start = start_with(alloc, &code, workers)?;
    Ok(run_on(rt, alloc, code, start, workers, turns, gate)?)
}

/// A start with so many threads.
fn start_with(alloc: Global, code: &Verified, threads: u64) -> Result<World, Fail>
    requires { IsCode code.now }
    ensures { IfOk result (IsSound code.now) }
{
    let world = world_of(alloc, threads)?;
    let start = start_of(alloc, code, world.as_str());
    drop(world);
    start
}

/// A world with so many threads.
fn world_of(alloc: Global, threads: u64) -> Result<String, AllocError> {
    let mut text = String::from_str(alloc, WORLD_HEAD)?;
    for thread in 0..threads {
        if thread > 0 {
            text.push(',')?;
        }
        text.push_str(WORLD_THREAD)?;
    }
    text.push_str("]}")?;
    Ok(text)
}

/// Whether the first turns of a thread from there on are so many in a row.
fn has_row(turns: &[u32], from: u64, thread: u64) -> bool {
    let mut count = 0u64;
    for turn in turns.iter().skip(from as usize) {
        if u64::from(*turn) == thread {
            count = count.saturating_add(1);
        } else if count > 0 {
            break;
        }
    }
    count >= ROW
}

/// How often a worker looks for another one's pick before it yields, and how often at all.
const LOOKS: u64 = 4_000;

const MOST_LOOKS: u64 = 2_000_000;

/// Each of some workers picks the thread with its own number. It is noted where two of them pick at one number of turns: the
/// first one is away then, since whoever has checked in has added turns.
///
/// To bring that about, a worker waits between turns until one of the others picks, and the last of them does not wait. When
/// it picks, all others are on their way to the lock.
#[derive(Drop)]
struct Overlaps {
    workers: u64,
    /// From this number of turns on nobody waits and nothing is noted.
    until: u64,
    /// The last pick: its number of turns plus one, and its worker.
    turn: AtomicU64,
    worker: AtomicU64,
    /// How many picks there were, and how many workers wait.
    picks: AtomicU64,
    waiting: AtomicU64,
    /// The two picks that are noted: their number of turns plus one, and their workers.
    at: AtomicU64,
    first: AtomicU64,
    second: AtomicU64,
    /// 1 where nobody waits any more: there is a note, `until` is passed, or a worker waited in vain.
    over: AtomicU64,
}

/// A hook for so many workers, in a run of so many turns.
fn gate_of(workers: u64, turns: u64) -> Overlaps {
    Overlaps {
        workers,
        until: turns.saturating_sub(LAST_TURNS),
        turn: AtomicU64::new(0),
        worker: AtomicU64::new(0),
        picks: AtomicU64::new(0),
        waiting: AtomicU64::new(0),
        at: AtomicU64::new(0),
        first: AtomicU64::new(0),
        second: AtomicU64::new(0),
        over: AtomicU64::new(0),
    }
}

impl Gate for Overlaps {
    fn pick(&self, worker: u64, turn: u64, _ready: &[u32]) -> u64 {
        if turn >= self.until {
            self.over.store(1, Ordering::SeqCst);
        }
        if !self.is_over() {
            self.note(worker, turn.saturating_add(1));
        }
        self.picks.fetch_add(1, Ordering::SeqCst);
        worker
    }

    fn between(&self, _worker: u64, _thread: u32) {
        let picks = self.picks.load(Ordering::SeqCst);
        let others = self.waiting.fetch_add(1, Ordering::SeqCst);
        if others.saturating_add(1) < self.workers {
            self.wait(picks);
        }
        self.waiting.fetch_sub(1, Ordering::SeqCst);
    }
}

impl Overlaps {
    fn is_over(&self) -> bool {
        self.over.load(Ordering::SeqCst) == 1
    }

    /// This pick becomes the last one. All picks are under the lock.
    fn note(&self, worker: u64, turn: u64) {
        let before = self.worker.swap(worker, Ordering::SeqCst);
        if self.turn.swap(turn, Ordering::SeqCst) == turn && before != worker {
            self.first.store(before, Ordering::SeqCst);
            self.second.store(worker, Ordering::SeqCst);
            self.at.store(turn, Ordering::SeqCst);
            self.over.store(1, Ordering::SeqCst);
        }
    }

    /// Waits until there were more picks. At first it only looks: so where a processor is free, it goes on at once.
    fn wait(&self, picks: u64) {
        for look in 0..MOST_LOOKS {
            if self.picks.load(Ordering::SeqCst) != picks || self.is_over() {
                return;
            }
            if look >= LOOKS {
                yield_now();
            }
        }
        self.over.store(1, Ordering::SeqCst);
    }
}
