//! The walk over the threads of a run.

ghost use Rattle.std.specs.Prelude.{◌≡◌, ◌≤◌, length, None, IfOk, OnOk, IfErr};
ghost use Rattle.lam_resolve_tree.specs.Tree.{resolved_tree};
ghost use Rattle.lam_resolve_tree.specs.Limits.{WithinLimits};
ghost use Rattle.guarded_code_runs.specs.Worlds.{IsSound};
ghost use Rattle.lam_machine_terms.specs.Limits.{most_threads};
ghost use Rattle.lam_machine_runs.specs.Stops.{stopped_at};
ghost use Rattle.source_walk_run.specs.Stops.{IsStop};
ghost use Rattle.source_walk_terms.specs.Walks.{ThreadsAtEntries, IsWalked};
ghost use Rattle.source_walk.specs.Starts.{AreBeginnings};
ghost use Rattle.source_walk.specs.Walking.{IsFirstDeparture};

use crate::starts::beginnings;
use guarded_code::Verified;
use lam_machine_world::let_go_world;
use lam_resolve_tree::Resolved;
use source_walk_run::{Departures, RunFault, World, departures_of, runs_have_threads};
use source_walk_state::Beginning;
use source_walk_terms::Walked;
use std::alloc::Global;
use want_of_memory::NoMemory;

/// Compares the asks of turns of a start with those of their source. `Same`: each thread's asks are the first ones of its
/// source, with as many units as it took turns. `Departs`: the first thread where they are not, and the place of its first
/// ask that is not.
///
/// It goes over the turns twice, to count each thread's and to take them, and once over the source of each thread.
///
/// # Errors
///
/// `NotReady` at the first turn whose thread is not ready, exactly where there is one; `NoMemory`.
pub fn walk_turns(
    alloc: Global,
    program: &Resolved,
    code: &Verified,
    start: World,
    turns: &[u32],
) -> Result<Walked, RunFault>
    requires sound { IsSound code.now start }
    requires entries { ThreadsAtEntries (resolved_tree program.now) code.now start }
    requires limits { WithinLimits (resolved_tree program.now) }
    ensures ok { IfOk result (IsWalked (resolved_tree program.now) code.now start turns.now) }
    ensures run { OnOk result (stopped_at code.now turns.now start ≡ None) }
    ensures stops { IfErr result (λ f. IsStop f (stopped_at code.now turns.now start)) }
{
    match beginnings(alloc, program, code, start.threads()) {
        Err(NoMemory) => {
            let_go_world(start);
            Err(RunFault::NoMemory)
        }
        Ok(starts) => walk_from(alloc, program, starts, code, start, turns),
    }
}

/// The same, where it is known how the threads of the start begin.
fn walk_from(
    alloc: Global,
    program: &Resolved,
    starts: Vec<Beginning>,
    code: &Verified,
    start: World,
    turns: &[u32],
) -> Result<Walked, RunFault>
    requires sound { IsSound code.now start }
    requires starts { AreBeginnings (resolved_tree program.now) code.now start.threads starts.items }
    ensures ok { IfOk result (IsWalked (resolved_tree program.now) code.now start turns.now) }
    ensures run { OnOk result (stopped_at code.now turns.now start ≡ None) }
    ensures stops { IfErr result (λ f. IsStop f (stopped_at code.now turns.now start)) }
{
    runs_have_threads();
    let found = departures_of(alloc, program, starts.as_slice(), code, start, turns);
    drop(starts);
    let departures = found?;
    let walked = first_departure(&departures);
    drop(departures);
    Ok(walked)
}

/// The first thread that departs from its source, if one does.
fn first_departure(departures: &Departures) -> Walked
    requires { length departures.now.places.items ≤ most_threads }
    ensures { IsFirstDeparture departures.now result }
{
    for thread in 0..departures.places.len() {
        if let Some(ask) = departures.places[thread] {
            return Walked::Departs {
                thread: thread as u32,
                ask,
            };
        }
    }
    Walked::Same {
        asks: departures.asks,
    }
}
