//! The workers that share a course under one lock.

ghost use Rattle.std.specs.Prelude.{◌≡◌, ◌<◌, ◌≤◌, [], length, IfOk, vec_len};
ghost use Rattle.guarded_code_runs.specs.Worlds.{IsSound};
ghost use Rattle.lam_machine_terms.specs.Turns.{moments};
ghost use Rattle.thread_core_stretches.specs.Stretches.{StretchStands};
ghost use Rattle.thread_host_run.specs.Courses.{IsCourse};
ghost use Rattle.thread_host.specs.Sharing.{Agree};
ghost use Rattle.thread_host.specs.Stretching.{GoesBy};
ghost use Rattle.thread_host.specs.Visits.{EndsAs};
ghost use Rattle.turn_book.specs.Limits.{most_turns, most_workers};

use crate::origins::Origin;
use crate::shared::Shared;
use crate::stretches::Opening;
use crate::visits::Visit;
use guarded_code::Verified;
use lam_io::Gate;
use lam_machine_replay::{Keeps, World};
use lam_machine_runs::How;
use std::alloc::Global;
use std::sync::atomic::{AtomicU64, Ordering};
use std::sync::{Condvar, Mutex, Wait};
use std::thread;
use std::thread::Threads;
use thread_core_stretches::{Stretch, let_go_stretch};
use thread_host_pace::{Wakes, may_wait};
use thread_host_run::Course;
use want_of_memory::NoMemory;

/// A worker: its number, and whether it met want of memory.
#[derive(Drop)]
pub struct Worker {
    pub number: u64,
    pub refused: bool,
}

/// A course whose run has ended, how it ended, and what was kept of it.
#[derive(Drop)]
pub struct Ending<Kept: Drop> {
    pub course: Course,
    pub how: How,
    pub kept: Kept,
}

/// What workers share: a course under its lock, where they sleep until there is something to take, and the worker that takes
/// turns in place, plus one, while its hook is called.
#[derive(Drop)]
struct Desk<J: Origin<Kept>, Kept: Drop> {
    shared: Mutex<Shared<J, Kept>>,
    more: Condvar,
    beyond: AtomicU64,
}

/// Takes turns of the shared course until its run has ended, and wakes whoever sleeps then.
fn work<J: Origin<Kept>, Kept: Drop, K: Keeps<Kept>, R: Wait, G: Gate>(
    rt: &R,
    alloc: Global,
    desk: &Desk<J, Kept>,
    code: &Verified,
    who: &K,
    worker: u64,
    budget: u64,
    gate: &G,
) -> Result<(), NoMemory>
    requires few { budget ≤ most_turns }
    requires of { (code.now ≡ J.code) × (budget ≡ J.budget) }
    requires keeps { Agree (K.AreKept who.now) J.AreKept }
{
    let ended = take_turns(rt, alloc, desk, code, who, worker, budget, gate);
    if ended.is_err() {
        desk.shared.lock(rt).lose();
    }
    desk.more.notify_all();
    ended
}

/// Takes turns of the shared course until its run has ended, private ones outside the lock.
fn take_turns<J: Origin<Kept>, Kept: Drop, K: Keeps<Kept>, R: Wait, G: Gate>(
    rt: &R,
    alloc: Global,
    desk: &Desk<J, Kept>,
    code: &Verified,
    who: &K,
    worker: u64,
    budget: u64,
    gate: &G,
) -> Result<(), NoMemory>
    requires few { budget ≤ most_turns }
    requires of { (code.now ≡ J.code) × (budget ≡ J.budget) }
    requires keeps { Agree (K.AreKept who.now) J.AreKept }
{
    for _ in rt.forever() {
        let opening = opened(rt, alloc, desk, code, who, worker, budget, gate)?;
        let outcome = match opening {
            Opening::Away => None,
            Opening::Took(thread) => Some(Visit::Took(thread)),
            Opening::Along(thread) => Some(Visit::Took(thread)),
            Opening::Ended(how) => Some(Visit::Ended(how)),
            Opening::Out(stretch, most) => {
                let gone = gone_out(stretch, code, most)?;
                Some(ended(rt, alloc, desk, code, who, gone, worker, budget, gate)?)
            }
        };
        match outcome {
            None => {}
            Some(Visit::Took(thread)) => {
                gate.between(worker, thread);
                comes_from_hook(&desk.beyond, worker);
            }
            Some(Visit::Ended(_)) => return Ok(()),
        }
    }
    unreachable!()
}

/// A worker whose hook was called is on its way again.
fn comes_from_hook(beyond: &AtomicU64, worker: u64) {
    let own = worker.saturating_add(1);
    if beyond.load(Ordering::SeqCst) == own {
        let _ = beyond.compare_exchange(own, 0, Ordering::SeqCst, Ordering::SeqCst);
    }
}

/// What a worker finds under the lock. Where there is nothing to take it sleeps until somebody wakes it; else it wakes another
/// one where more can be taken: so the sleepers are woken one by one as long as there is something for them.
fn opened<J: Origin<Kept>, Kept: Drop, K: Keeps<Kept>, R: Wait, G: Gate>(
    rt: &R,
    alloc: Global,
    desk: &Desk<J, Kept>,
    code: &Verified,
    who: &K,
    worker: u64,
    budget: u64,
    gate: &G,
) -> Result<Opening, NoMemory>
    requires few { budget ≤ most_turns }
    requires of { (code.now ≡ J.code) × (budget ≡ J.budget) }
    requires keeps { Agree (K.AreKept who.now) J.AreKept }
    ensures { IfOk result (GoesBy code.now) }
{
    let mut held = desk.shared.lock(rt);
    held.hears(desk.beyond.load(Ordering::SeqCst));
    let opening = looked(alloc, &mut held, code, who, worker, budget, gate)?;
    if is_away(&opening) {
        held.falls_asleep(worker);
        let mut woken = desk.more.wait(rt, held);
        woken.wakes_up();
        return Ok(opening);
    }
    if held.is_missed(worker) {
        desk.beyond
            .store(worker.saturating_add(1), Ordering::SeqCst);
    }
    let wakes = held.wakes();
    drop(held);
    wake(&desk.more, wakes);
    Ok(opening)
}

/// What a worker finds where it has the lock. As long as it takes turns in place, and its hook waits for nobody, it looks again
/// a number of times. The hook is called after each time but the last here, since the caller calls it then.
fn looked<J: Origin<Kept>, Kept: Drop, K: Keeps<Kept>, G: Gate>(
    alloc: Global,
    shared: &mut Shared<J, Kept>,
    code: &Verified,
    who: &K,
    worker: u64,
    budget: u64,
    gate: &G,
) -> Result<Opening, NoMemory>
    requires few { budget ≤ most_turns }
    requires of { (code.now ≡ J.code) × (budget ≡ J.budget) }
    requires keeps { Agree (K.AreKept who.now) J.AreKept }
    ensures { IfOk result (GoesBy code.now) }
{
    for _ in 1..shared.looks_at_once() {
        let opening = shared.begin(alloc, code, who, worker, budget, gate)?;
        match taken_here(&opening) {
            None => return Ok(opening),
            Some(thread) => gate.between(worker, thread),
        }
    }
    shared.begin(alloc, code, who, worker, budget, gate)
}

/// The thread of which turns were taken in place.
fn taken_here(opening: &Opening) -> Option<u32> {
    match opening {
        Opening::Took(thread) => Some(*thread),
        Opening::Along(thread) => Some(*thread),
        _ => None,
    }
}

/// Wakes those that sleep, as many as are to be woken.
fn wake(more: &Condvar, wakes: Wakes) {
    match wakes {
        Wakes::Nobody => {}
        Wakes::One => more.notify_one(),
        Wakes::All => more.notify_all(),
    }
}

fn is_away(opening: &Opening) -> bool {
    matches!(opening, Opening::Away)
}

/// A stretch comes back, and a worker that sleeps is woken where something can be taken, or all are that waited for one to be
/// back.
fn ended<J: Origin<Kept>, Kept: Drop, K: Keeps<Kept>, R: Wait, G: Gate>(
    rt: &R,
    alloc: Global,
    desk: &Desk<J, Kept>,
    code: &Verified,
    who: &K,
    stretch: Stretch,
    worker: u64,
    budget: u64,
    gate: &G,
) -> Result<Visit, NoMemory>
    requires few { budget ≤ most_turns }
    requires of { (code.now ≡ J.code) × (budget ≡ J.budget) }
    requires keeps { Agree (K.AreKept who.now) J.AreKept }
    requires stands { StretchStands code.now stretch }
{
    let mut held = desk.shared.lock(rt);
    let visit = held.end(alloc, code, who, stretch, worker, budget, gate)?;
    let wakes = held.wakes();
    drop(held);
    wake(&desk.more, wakes);
    Ok(visit)
}

/// As many private turns as there are, up to so many, taken outside the lock.
fn gone_out(from: Stretch, code: &Verified, most: u64) -> Result<Stretch, NoMemory>
    requires { StretchStands code.now from }
    ensures { IfOk result (StretchStands code.now) }
{
    let mut stretch = from;
    match stretch.go_for(code, most) {
        Ok(()) => Ok(stretch),
        Err(error) => {
            let_go_stretch(stretch);
            Err(error)
        }
    }
}

fn new_workers(alloc: Global, count: u64) -> Result<Vec<Worker>, NoMemory>
    ensures { IfOk result (λ v. vec_len v ≡ count) }
{
    let mut workers = Vec::new(alloc);
    for number in 0..count {
        workers.push(Worker {
            number,
            refused: false,
        })?;
    }
    Ok(workers)
}

/// A course after its workers, and whether one of them met want of memory.
#[derive(Drop)]
struct Left<J: Origin<Kept>, Kept: Drop> {
    shared: Shared<J, Kept>,
    refused: bool,
}

/// The course of a code from a start that so many workers take to its end, and then the caller, as worker 0, where something
/// is left. One worker is the caller: it starts no thread and takes no lock. The origin is what is handed in, and its caller
/// picks it.
///
/// # Errors
///
/// `NoMemory` where memory is refused, once every worker has stopped.
pub fn by_workers<
    J: Origin<Kept> + Send + Sync,
    Kept: Drop + Send,
    K: Keeps<Kept> + Sync,
    R: Threads + Wait + Sync,
    G: Gate + Sync,
>(
    rt: &R,
    alloc: Global,
    code: &Verified,
    start: &World,
    count: u64,
    budget: u64,
    gate: &G,
    who: &K,
    nothing: Kept,
) -> Result<Ending<Kept>, NoMemory>
    requires of { (code.now ≡ J.code) × (start.now ≡ J.start) × (budget ≡ J.budget) }
    requires keeps { Agree (K.AreKept who.now) J.AreKept }
    requires sound { IsSound code.now start.now }
    requires nothing { K.AreKept who.now [] nothing }
    requires workers { (0 < count) × (count ≤ most_workers) }
    requires few { budget ≤ most_turns }
    ensures course { IfOk result (λ e. IsCourse code.now start.now e.course) }
    ensures budget { IfOk result (λ e. length e.course.turns ≤ budget) }
    ensures how { IfOk result (λ e. EndsAs code.now budget e.course e.how) }
    ensures kept { IfOk result (λ e. K.AreKept who.now (moments code.now e.course.turns start.now) e.kept) }
{
    let waits = may_wait(gate);
    let fresh: Shared<J, Kept> = Shared::new(alloc, code, start, nothing, count, waits)?;
    let left = shared_out(rt, alloc, fresh, code, count, budget, gate, who)?;
    let Left { shared, refused } = left;
    finish(alloc, shared, refused, code, who, budget, gate)
}

/// What so many workers leave of a course. Where there is one, it is the caller, to whom all is left.
fn shared_out<
    J: Origin<Kept> + Send + Sync,
    Kept: Drop + Send,
    K: Keeps<Kept> + Sync,
    R: Threads + Wait + Sync,
    G: Gate + Sync,
>(
    rt: &R,
    alloc: Global,
    shared: Shared<J, Kept>,
    code: &Verified,
    count: u64,
    budget: u64,
    gate: &G,
    who: &K,
) -> Result<Left<J, Kept>, NoMemory>
    requires of { (code.now ≡ J.code) × (budget ≡ J.budget) }
    requires keeps { Agree (K.AreKept who.now) J.AreKept }
    requires workers { (0 < count) × (count ≤ most_workers) }
    requires few { budget ≤ most_turns }
{
    if count == 1 {
        return Ok(Left {
            shared,
            refused: false,
        });
    }
    let mut workers = new_workers(alloc, count)?;
    let desk: Desk<J, Kept> = Desk {
        shared: Mutex::new(shared),
        more: Condvar::new(),
        beyond: AtomicU64::new(0),
    };
    let at = &desk;
    thread::for_each_mut(
        rt,
        workers.as_mut_slice(),
        count as usize,
        &|_, worker: &mut Worker|
            requires { (code.now ≡ J.code) × (budget ≡ J.budget) × (budget ≤ most_turns) × Agree (K.AreKept who.now) J.AreKept }
        { worker.refused = work(rt, alloc, at, code, who, worker.number, budget, gate).is_err() },
    );
    let refused = workers.iter().any(|worker| worker.refused);
    let Desk { shared, .. } = desk;
    Ok(Left {
        shared: shared.into_inner(),
        refused,
    })
}

/// Takes the turns that are left, unless a worker met want of memory.
fn finish<J: Origin<Kept>, Kept: Drop, K: Keeps<Kept>, G: Gate>(
    alloc: Global,
    mut shared: Shared<J, Kept>,
    refused: bool,
    code: &Verified,
    who: &K,
    budget: u64,
    gate: &G,
) -> Result<Ending<Kept>, NoMemory>
    requires few { budget ≤ most_turns }
    requires of { (code.now ≡ J.code) × (budget ≡ J.budget) }
    requires keeps { Agree (K.AreKept who.now) J.AreKept }
    ensures course { IfOk result (λ e. IsCourse code.now J.start e.course) }
    ensures budget { IfOk result (λ e. length e.course.turns ≤ budget) }
    ensures how { IfOk result (λ e. EndsAs code.now budget e.course e.how) }
    ensures kept { IfOk result (λ e. K.AreKept who.now (moments code.now e.course.turns J.start) e.kept) }
{
    if refused {
        let_go(shared);
        return Err(NoMemory);
    }
    match take_rest(alloc, &mut shared, code, who, budget, gate) {
        Ok(how) => match shared.into_parts() {
            None => Err(NoMemory),
            Some((course, kept)) => Ok(Ending { course, how, kept }),
        },
        Err(error) => {
            let_go(shared);
            Err(error)
        }
    }
}

/// Lets what was shared go.
fn let_go<J: Origin<Kept>, Kept: Drop>(shared: Shared<J, Kept>) {
    drop(shared);
}

/// Takes turns alone, as worker 0, until the run has ended: private ones in rows, as long as that serves.
fn take_rest<J: Origin<Kept>, Kept: Drop, K: Keeps<Kept>, G: Gate>(
    alloc: Global,
    shared: &mut Shared<J, Kept>,
    code: &Verified,
    who: &K,
    budget: u64,
    gate: &G,
) -> Result<How, NoMemory>
    requires few { budget ≤ most_turns }
    requires of { (code.now ≡ J.code) × (budget ≡ J.budget) }
    requires keeps { Agree (K.AreKept who.now) J.AreKept }
    ensures { IfOk result (EndsAs code.now budget shared.new) }
{
    take_rows(alloc, shared, code, who, budget, gate)?;
    go_on(alloc, shared, code, who, budget, gate)
}

/// Takes turns alone, as worker 0, private ones in rows. A visit takes a turn at least, so as many visits as the budget has
/// turns are enough.
fn take_rows<J: Origin<Kept>, Kept: Drop, K: Keeps<Kept>, G: Gate>(
    alloc: Global,
    shared: &mut Shared<J, Kept>,
    code: &Verified,
    who: &K,
    budget: u64,
    gate: &G,
) -> Result<(), NoMemory>
    requires few { budget ≤ most_turns }
    requires of { (code.now ≡ J.code) × (budget ≡ J.budget) }
    requires keeps { Agree (K.AreKept who.now) J.AreKept }
{
    for _ in 0..budget {
        match take_row(alloc, shared, code, who, budget, gate)? {
            Some(thread) => gate.between(0, thread),
            None => return Ok(()),
        }
    }
    Ok(())
}

/// A visit of a worker that is alone: the thread of which it took turns, or `None` where there is nothing to take.
fn take_row<J: Origin<Kept>, Kept: Drop, K: Keeps<Kept>, G: Gate>(
    alloc: Global,
    shared: &mut Shared<J, Kept>,
    code: &Verified,
    who: &K,
    budget: u64,
    gate: &G,
) -> Result<Option<u32>, NoMemory>
    requires few { budget ≤ most_turns }
    requires of { (code.now ≡ J.code) × (budget ≡ J.budget) }
    requires keeps { Agree (K.AreKept who.now) J.AreKept }
{
    match shared.begin(alloc, code, who, 0, budget, gate)? {
        Opening::Took(thread) => Ok(Some(thread)),
        Opening::Along(thread) => Ok(Some(thread)),
        Opening::Away => Ok(None),
        Opening::Ended(_) => Ok(None),
        Opening::Out(stretch, most) => {
            let gone = gone_out(stretch, code, most)?;
            let visit = shared.end(alloc, code, who, gone, 0, budget, gate)?;
            Ok(taken_in(visit))
        }
    }
}

/// The thread of a turn, where one was taken.
fn taken_in(visit: Visit) -> Option<u32> {
    match visit {
        Visit::Took(thread) => Some(thread),
        Visit::Ended(_) => None,
    }
}

/// Takes turns alone, as worker 0, one by one, until the run has ended.
fn go_on<J: Origin<Kept>, Kept: Drop, K: Keeps<Kept>, G: Gate>(
    alloc: Global,
    shared: &mut Shared<J, Kept>,
    code: &Verified,
    who: &K,
    budget: u64,
    gate: &G,
) -> Result<How, NoMemory>
    requires few { budget ≤ most_turns }
    requires of { (code.now ≡ J.code) × (budget ≡ J.budget) }
    requires keeps { Agree (K.AreKept who.now) J.AreKept }
    ensures { IfOk result (EndsAs code.now budget shared.new) }
{
    loop {
        match shared.visit(alloc, code, who, 0, budget, gate)? {
            Visit::Took(thread) => gate.between(0, thread),
            Visit::Ended(how) => return Ok(how),
        }
    }
}
