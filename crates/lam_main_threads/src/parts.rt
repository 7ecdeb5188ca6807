//! The turns that threads take, as parts of their run, with what is kept.

ghost use Rattle.std.specs.Prelude.{◌<◌, ◌≤◌, [], IfOk};
ghost use Rattle.guarded_code_runs.specs.Worlds.{IsSound};
ghost use Rattle.lam_machine_terms.specs.Turns.{moments};
ghost use Rattle.lam_main_threads.specs.Taken.{IsParted, IsEndedRun, HasBook};
ghost use Rattle.turn_book.specs.Limits.{most_turns, most_workers};

use crate::Bounds;
use guarded_code::Verified;
use lam_io::Gate;
use lam_machine_runs::How;
use std::alloc::Global;
use std::sync::Wait;
use std::thread::Threads;
use thread_host::{Finished, FinishedKept, Keeps, RunParts, World, run_kept};
use want_of_memory::NoMemory;

/// The turns that were taken, with the code and the start that they are of, and how their run ended.
#[derive(Drop)]
pub(crate) struct Ended {
    pub(crate) parts: RunParts,
    pub(crate) how: How,
}

/// The turns that were taken, and what was kept of them.
pub(crate) struct EndedKept<Kept: Drop> {
    pub(crate) ended: Ended,
    pub(crate) kept: Kept,
}

/// A run of a code from a start, by so many workers, and what somebody keeps of it. `nothing` is what is kept of no turns.
pub(crate) fn taken_turns<
    Kept: Drop + Send,
    K: Keeps<Kept> + Sync,
    R: Threads + Wait + Sync,
    G: Gate + Sync,
>(
    rt: &R,
    alloc: Global,
    code: Verified,
    start: World,
    bounds: Bounds,
    gate: &G,
    who: &K,
    nothing: Kept,
) -> Result<EndedKept<Kept>, NoMemory>
    requires sound { IsSound code start }
    requires workers { (0 < bounds.workers) × (bounds.workers ≤ most_workers) }
    requires turns { (0 < bounds.turns) × (bounds.turns ≤ most_turns) }
    requires nothing { K.AreKept who.now [] nothing }
    ensures run { IfOk result (λ e. IsEndedRun code start bounds.turns e.ended) }
    ensures book { IfOk result (λ e. HasBook e.ended) }
    ensures kept { IfOk result (λ e. K.AreKept who.now (moments e.ended.parts.code e.ended.parts.turns.items e.ended.parts.start) e.kept) }
{
    match run_kept(
        rt,
        alloc,
        code,
        start,
        bounds.workers,
        bounds.turns,
        gate,
        who,
        nothing,
    ) {
        Ok(done) => {
            let FinishedKept { finished, kept } = done;
            let ended = parted(finished);
            Ok(EndedKept { ended, kept })
        }
        Err(error) => Err(error),
    }
}

/// The parts of a finished run. Its present world is let go.
fn parted(finished: Finished) -> Ended
    ensures { IsParted finished result }
{
    let Finished { run, how } = finished;
    let parts = run.into_parts();
    Ended { parts, how }
}
