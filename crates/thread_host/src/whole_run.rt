//! The running of workers, to the end of a run.

ghost use Rattle.std.specs.Prelude.{◌≡◌, ◌<◌, ◌≤◌, [], length, IfOk};
ghost use Rattle.guarded_code_runs.specs.Worlds.{IsSound};
ghost use Rattle.lam_machine_terms.specs.Turns.{moments};
ghost use Rattle.lam_machine_runs.specs.Ends.{HasEnded, EndsOnlySo};
ghost use Rattle.thread_host_run.specs.Courses.{IsCourse, ran_to};
ghost use Rattle.thread_host.specs.Visits.{EndsAs};
ghost use Rattle.turn_book.specs.Limits.{most_turns, most_workers};

use crate::workers::{Ending, by_workers};
use guarded_code::Verified;
use lam_io::Gate;
use lam_machine_replay::{Keeps, Nobody};
use lam_machine_runs::{How, runs_end_in_one_way};
use lam_machine_world::{World, let_go_world};
use std::alloc::Global;
use std::marker::Brand;
use std::sync::Wait;
use std::thread::Threads;
use thread_host_run::{Run, let_go_verified};
use want_of_memory::NoMemory;

/// A run, and how it ended.
#[derive(Drop)]
pub struct Finished {
    pub run: Run,
    pub how: How,
}

/// A run that has ended, and what was kept of it.
#[derive(Drop)]
pub struct FinishedKept<Kept: Drop> {
    pub finished: Finished,
    pub kept: Kept,
}

/// The run of a code from a start by so many workers at once, with at most so many turns, and how it ended: every thread
/// has ended, else no thread is ready, else the turns are used up. No run ends in two of these ways.
///
/// The hook is asked under the lock, with the number of turns so far and the ready threads in increasing order; its answer is
/// taken modulo their number. It is asked once for each turn that is served, and once for a number of private turns of one
/// thread: up to 64 of them with one worker, up to 4,096 with more. After each check-in it is called outside the lock, and may
/// wait there for other workers. A hook of a type without a size holds nothing, and waits for nobody: it may be called under
/// the lock too, and while it is called no other worker is woken for what this one does next.
///
/// A thread may be away with another worker, or be left to the worker that takes turns in place. If the hook chooses such a
/// thread, the next ready one that is neither is taken. The hook is asked and no turn follows
///
/// * where the worker finds no such thread,
/// * where the threads that are away have all turns that the budget leaves, or
/// * where one has been away for long.
///
/// The worker then sleeps, and asks again once it is woken. Private turns that would pass `turns`, or whose thread has changed,
/// are not taken; the hook is asked anew for one turn. Once the workers have stopped, the caller goes on as worker 0, where
/// something is left. A turn takes no memory for its list of ready threads.
///
/// # Errors
///
/// `NoMemory` where memory is refused, once every worker has stopped.
pub fn run_on<R: Threads + Wait + Sync, G: Gate + Sync>(
    rt: &R,
    alloc: Global,
    code: Verified,
    start: World,
    workers: u64,
    turns: u64,
    gate: &G,
) -> Result<Finished, NoMemory>
    requires sound { IsSound code start }
    requires workers { (0 < workers) × (workers ≤ most_workers) }
    requires turns { (0 < turns) × (turns ≤ most_turns) }
    ensures start { IfOk result (λ f. (f.run.code ≡ code) × (f.run.start ≡ start)) }
    ensures budget { IfOk result (λ f. length f.run.turns ≤ turns) }
    ensures how { IfOk result (λ f. HasEnded f.run.code f.run.world (length f.run.turns) turns f.how) }
    ensures only { IfOk result (λ f. EndsOnlySo f.run.code f.run.world f.how) }
{
    let nobody = Nobody;
    match run_kept(rt, alloc, code, start, workers, turns, gate, &nobody, ()) {
        Ok(done) => Ok(done.finished),
        Err(error) => Err(error),
    }
}

/// The run of a code from a start, as [`run_on`], with what somebody keeps of it as its turns are taken. `nothing` is what
/// is kept of no turns.
///
/// # Errors
///
/// `NoMemory` where memory is refused, for what is kept too, once every worker has stopped.
pub fn run_kept<Kept: Drop + Send, K: Keeps<Kept> + Sync, R: Threads + Wait + Sync, G: Gate + Sync>(
    rt: &R,
    alloc: Global,
    code: Verified,
    start: World,
    workers: u64,
    turns: u64,
    gate: &G,
    who: &K,
    nothing: Kept,
) -> Result<FinishedKept<Kept>, NoMemory>
    requires sound { IsSound code start }
    requires workers { (0 < workers) × (workers ≤ most_workers) }
    requires turns { (0 < turns) × (turns ≤ most_turns) }
    requires nothing { K.AreKept who.now [] nothing }
    ensures start { IfOk result (λ f. (f.finished.run.code ≡ code) × (f.finished.run.start ≡ start)) }
    ensures budget { IfOk result (λ f. length f.finished.run.turns ≤ turns) }
    ensures how { IfOk result (λ f. HasEnded f.finished.run.code f.finished.run.world (length f.finished.run.turns) turns f.finished.how) }
    ensures only { IfOk result (λ f. EndsOnlySo f.finished.run.code f.finished.run.world f.finished.how) }
    ensures kept { IfOk result (λ f. K.AreKept who.now (moments f.finished.run.code f.finished.run.turns f.finished.run.start) f.kept) }
{
    match by_workers::<Brand, Kept, K, R, G>(
        rt, alloc, &code, &start, workers, turns, gate, who, nothing,
    ) {
        Ok(ending) => Ok(put_together(code, start, ending, turns)),
        Err(error) => {
            let_go_world(start);
            let_go_verified(code);
            Err(error)
        }
    }
}

/// The run that a course of a code from a start is, with what was kept of it.
fn put_together<Kept: Drop>(
    code: Verified,
    start: World,
    ending: Ending<Kept>,
    turns: u64,
) -> FinishedKept<Kept>
    requires course { IsCourse code start ending.course }
    requires how { EndsAs code turns ending.course ending.how }
    ensures run { result.finished.run ≡ ran_to code start ending.course }
    ensures kept { result.kept ≡ ending.kept }
    ensures how { HasEnded result.finished.run.code result.finished.run.world (length result.finished.run.turns) turns result.finished.how }
    ensures only { EndsOnlySo result.finished.run.code result.finished.run.world result.finished.how }
{
    let Ending { course, how, kept } = ending;
    let run = Run::of(code, start, course);
    FinishedKept {
        finished: ended_so(run, how, turns),
        kept,
    }
}

/// A run that has ended in this way, and so in no other.
fn ended_so(run: Run, how: How, turns: u64) -> Finished
    requires { HasEnded run.code run.world (length run.turns) turns how }
    ensures run { result.run ≡ run }
    ensures how { HasEnded result.run.code result.run.world (length result.run.turns) turns result.how }
    ensures only { EndsOnlySo result.run.code result.run.world result.how }
{
    let _valid = run.now();
    runs_end_in_one_way();
    Finished { run, how }
}
