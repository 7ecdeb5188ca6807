//! The pass over the turns of a run.

ghost use Rattle.std.specs.Prelude.{◌≡◌, ◌<◌, ◌-◌, ◌^◌, [], None, IfOk, OnOk, IfErr};
ghost use Rattle.lam_resolve_tree.specs.Tree.{resolved_tree};
ghost use Rattle.lam_machine_terms.specs.Turns.{moments};
ghost use Rattle.lam_machine_replay.specs.Worlds.{IsSound};
ghost use Rattle.lam_machine_runs.specs.Stops.{stopped_at};
ghost use Rattle.lam_machine_replay.specs.Stops.{IsStop};
ghost use Rattle.source_walk_run.specs.Walking.{HaveRoom};
ghost use Rattle.source_walk_run.specs.Keeping.{IsKept, Adds};

use crate::walks::{asks, begin_started, first_walks, follow_at};
use guarded_code::Verified;
use lam_asks::{Event, let_go_event};
use lam_machine_replay::{Keeps, RunFault, World, keep_turns};
use lam_machine_world::let_go_world;
use lam_resolve_tree::Resolved;
use source_walk_follow::Follower;
use source_walk_state::Beginning;
use std::alloc::Global;
use want_of_memory::NoMemory;

/// What is kept of the turns so far: the walk of each thread, and how many asks there were.
#[derive(Drop)]
pub(crate) struct Kept<'a> {
    pub(crate) walks: Vec<Follower<'a>>,
    pub(crate) asks: u64,
}

/// What the walks go by: the program, how the threads of the start began, and how many turns each thread takes.
#[derive(Drop)]
pub(crate) struct Walker<'a, 'b, 'c> {
    pub(crate) program: &'a Resolved,
    pub(crate) starts: &'b [Beginning],
    pub(crate) turns: &'c [u64],
}

impl<'a, 'b, 'c> Keeps<Kept<'a>> for Walker<'a, 'b, 'c> {
    ghost AreKept = { λ who ms kept. IsKept (resolved_tree who.program.now) who.starts.now who.turns.now ms kept };

    fn keep(
        &self,
        alloc: Global,
        kept: &mut Kept<'a>,
        _turn: u64,
        event: Event,
        _world: &World,
    ) -> Result<(), NoMemory> {
        let added = add_turn(alloc, self.program, self.turns, kept, &event);
        let_go_event(event);
        added
    }

    fn leaves_private(&self) {}
}

/// Takes the walks on by one turn.
fn add_turn<'a>(
    alloc: Global,
    program: &'a Resolved,
    turns: &[u64],
    kept: &mut Kept<'a>,
    event: &Event,
) -> Result<(), NoMemory>
    requires asks { kept.old.asks < 2 ^ 64 - 1 }
    requires walks { HaveRoom kept.old.walks.items }
    ensures { OnOk result (Adds (resolved_tree program.now) turns.now event.now.thread event.now.what kept.old kept.new) }
{
    begin_started(alloc, program, turns, &mut kept.walks, &event.what)?;
    let thread = event.thread as usize;
    follow_at(alloc, program, &mut kept.walks, thread, &event.what)?;
    let more = asks(&event.what);
    kept.asks += more;
    Ok(())
}

/// What is kept of the turns of a start.
///
/// # Errors
///
/// `NotReady` at the first turn whose thread is not ready, exactly where there is one; `NoMemory`.
pub(crate) fn kept_of<'a>(
    alloc: Global,
    who: &Walker<'a, '_, '_>,
    code: &Verified,
    start: World,
    turns: &[u32],
) -> Result<Kept<'a>, RunFault>
    requires sound { IsSound code.now start }
    ensures ok { IfOk result (IsKept (resolved_tree who.now.program.now) who.now.starts.now who.now.turns.now (moments code.now turns.now start)) }
    ensures run { OnOk result (stopped_at code.now turns.now start ≡ None) }
    ensures stops { IfErr result (λ f. IsStop f (stopped_at code.now turns.now start)) }
{
    match nothing_yet(alloc, who) {
        Err(NoMemory) => {
            let_go_world(start);
            Err(RunFault::NoMemory)
        }
        Ok(kept) => kept_from(alloc, who, kept, code, start, turns),
    }
}

/// No turn was taken.
fn nothing_yet<'a>(alloc: Global, who: &Walker<'a, '_, '_>) -> Result<Kept<'a>, NoMemory>
    ensures { IfOk result (IsKept (resolved_tree who.now.program.now) who.now.starts.now who.now.turns.now []) }
{
    let walks = first_walks(alloc, who.program, who.starts, who.turns)?;
    Ok(Kept { walks, asks: 0 })
}

/// What is kept of turns, beside what there is.
fn kept_from<'a>(
    alloc: Global,
    who: &Walker<'a, '_, '_>,
    kept: Kept<'a>,
    code: &Verified,
    start: World,
    turns: &[u32],
) -> Result<Kept<'a>, RunFault>
    requires sound { IsSound code.now start }
    requires nothing { IsKept (resolved_tree who.now.program.now) who.now.starts.now who.now.turns.now [] kept }
    ensures ok { IfOk result (IsKept (resolved_tree who.now.program.now) who.now.starts.now who.now.turns.now (moments code.now turns.now start)) }
    ensures run { OnOk result (stopped_at code.now turns.now start ≡ None) }
    ensures stops { IfErr result (λ f. IsStop f (stopped_at code.now turns.now start)) }
{
    let mut all = kept;
    match keep_turns(alloc, who, &mut all, code, start, turns) {
        Ok(()) => Ok(all),
        Err(fault) => {
            drop(all);
            Err(fault)
        }
    }
}
