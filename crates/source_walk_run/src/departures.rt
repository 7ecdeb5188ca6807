//! The places where a run's threads depart from their source.

ghost use Rattle.std.specs.Prelude.{◌≡◌, length, map, None, IfOk, OnOk, IfErr};
ghost use Rattle.lam_resolve_tree.specs.Tree.{resolved_tree};
ghost use Rattle.lam_machine_terms.specs.Limits.{most_threads};
ghost use Rattle.lam_machine_replay.specs.Worlds.{IsSound};
ghost use Rattle.lam_machine_runs.specs.Stops.{stopped_at};
ghost use Rattle.lam_machine_replay.specs.Stops.{IsStop};
ghost use Rattle.source_walk_follow.specs.Following.{place_left};
ghost use Rattle.source_walk_run.specs.Counting.{AreTurnsOf};
ghost use Rattle.source_walk_run.specs.Departures.{DeparturesOf};

use crate::tally::turns_of_each;
use crate::turns_pass::{Kept, Walker, kept_of};
use guarded_code::Verified;
use lam_machine_effects::THREAD_LIMIT;
use lam_machine_replay::{RunFault, World, runs_are_whole};
use lam_machine_valid::runs_stay_valid;
use lam_machine_world::let_go_world;
use lam_resolve_tree::Resolved;
use source_walk_follow::{Follower, departure};
use source_walk_meets::runs_have_threads;
use source_walk_state::Beginning;
use std::alloc::Global;
use want_of_memory::NoMemory;

/// What the walks of a run's threads found.
#[derive(Drop)]
pub struct Departures {
    /// The place of each thread's first ask that is not its source's, `None` where there is none, by the thread's number.
    /// A thread that began at no entry departs at once.
    pub places: Vec<Option<u64>>,
    /// How many asks there are.
    pub asks: u64,
}

/// Where the threads depart from their source in the turns of a start, whose threads began so.
///
/// It goes over the turns twice, to count each thread's and to take them, and once over the source of each thread. It
/// keeps the state of each walk alone.
///
/// # Errors
///
/// `NotReady` at the first turn whose thread is not ready, exactly where there is one; `NoMemory`.
pub fn departures_of(
    alloc: Global,
    program: &Resolved,
    starts: &[Beginning],
    code: &Verified,
    start: World,
    turns: &[u32],
) -> Result<Departures, RunFault>
    requires sound { IsSound code.now start }
    requires starts { length starts.now ≡ length start.threads }
    ensures ok { IfOk result (DeparturesOf (resolved_tree program.now) starts.now code.now turns.now start) }
    ensures run { OnOk result (stopped_at code.now turns.now start ≡ None) }
    ensures stops { IfErr result (λ f. IsStop f (stopped_at code.now turns.now start)) }
{
    match turns_of_each(alloc, turns, THREAD_LIMIT as usize) {
        Err(NoMemory) => {
            let_go_world(start);
            Err(RunFault::NoMemory)
        }
        Ok(counts) => {
            let units = counts.as_slice();
            let found = departures_with(alloc, program, starts, units, code, start, turns);
            drop(counts);
            found
        }
    }
}

/// The same, where it is known how many turns each thread takes.
fn departures_with(
    alloc: Global,
    program: &Resolved,
    starts: &[Beginning],
    counts: &[u64],
    code: &Verified,
    start: World,
    turns: &[u32],
) -> Result<Departures, RunFault>
    requires sound { IsSound code.now start }
    requires starts { length starts.now ≡ length start.threads }
    requires counts { AreTurnsOf turns.now most_threads counts.now }
    ensures ok { IfOk result (DeparturesOf (resolved_tree program.now) starts.now code.now turns.now start) }
    ensures run { OnOk result (stopped_at code.now turns.now start ≡ None) }
    ensures stops { IfErr result (λ f. IsStop f (stopped_at code.now turns.now start)) }
{
    runs_are_whole();
    runs_stay_valid();
    runs_have_threads();
    let walker = Walker {
        program,
        starts,
        turns: counts,
    };
    let kept = kept_of(alloc, &walker, code, start, turns)?;
    let departures = told(alloc, kept)?;
    Ok(departures)
}

/// What is told of the walks that are kept.
fn told(alloc: Global, kept: Kept<'_>) -> Result<Departures, NoMemory>
    ensures places { IfOk result (λ d. d.places.items ≡ map place_left kept.entry.walks.items) }
    ensures asks { IfOk result (λ d. d.asks ≡ kept.entry.asks) }
{
    let asks = kept.asks;
    let places = places_of(alloc, kept.walks.as_slice());
    drop(kept);
    Ok(Departures {
        places: places?,
        asks,
    })
}

/// Where the thread of each walk departed.
fn places_of(alloc: Global, walks: &[Follower<'_>]) -> Result<Vec<Option<u64>>, NoMemory>
    ensures { IfOk result (λ places. places.items ≡ map place_left walks.now) }
{
    let mut places = Vec::with_capacity(alloc, walks.len())?;
    for walk in walks {
        places.push(departure(walk))?;
    }
    Ok(places)
}
