//! The first turn at which turns are not closed.

ghost use Rattle.std.specs.Prelude.{◌≡◌, ◌≤◌, None, length, drop, IfOk, OnOk, IfErr};
ghost use Rattle.lam_machine.specs.Worlds.{IsSound};
ghost use Rattle.lam_machine_runs.specs.Stops.{stopped_at};
ghost use Rattle.lam_machine_replay.specs.Stops.{IsStop};
ghost use Rattle.closed_terms.specs.Schedule.{quantum};
ghost use Rattle.closed_terms.specs.Departures.{departure};
ghost use Rattle.closed_run.specs.Departing.{GoesAlong, FollowsTo, departed, later};

use crate::next::next_of;
use crate::places::slot_with;
use closed_terms::{Departure, Slot};
use flow_labels::{Label, flows};
use guarded_code::Verified;
use lam_asks::let_go_event;
use lam_machine_replay::{Nobody, RunFault, World, keep_turns, step};
use lam_machine_world::let_go_world;
use std::alloc::Global;
use want_of_memory::NoMemory;

/// The first turn at which turns are not closed: its number, counted from 0, and its thread, which is not next there. `None`
/// where the turns are those of the schedule. A front of a closed run is closed.
///
/// It takes as many steps as there are turns.
///
/// # Errors
///
/// `NotReady` at the first turn whose thread is not ready, exactly where there is one, also behind a departure; `NoMemory`.
pub fn first_departure(
    alloc: Global,
    code: &Verified,
    start: World,
    turns: &[u32],
    base: &Label,
) -> Result<Option<Departure>, RunFault>
    requires sound { IsSound code.now start }
    ensures ok { IfOk result (λ d. d ≡ departure base.now code.now turns.now start) }
    ensures run { OnOk result (stopped_at code.now turns.now start ≡ None) }
    ensures stops { IfErr result (λ f. IsStop f (stopped_at code.now turns.now start)) }
{
    let mut world = start;
    match follow(alloc, &mut world, code, turns, base) {
        Ok(taken) => take_rest(alloc, code, world, turns, taken),
        Err(_) => {
            let_go_world(world);
            Err(RunFault::NoMemory)
        }
    }
}

/// Takes turns as long as they follow the schedule: how many it took.
fn follow(
    alloc: Global,
    world: &mut World,
    code: &Verified,
    turns: &[u32],
    base: &Label,
) -> Result<usize, NoMemory>
    requires sound { IsSound code.now world.old }
    ensures { IfOk result (λ n. FollowsTo base.now code.now world.old turns.now n world.new) }
{
    let mut slot = Slot { thread: 0, used: 0 };
    let mut turn = 0;
    'turns: while turn < turns.len() {
        match go_along(alloc, world, code, base, slot, turns[turn])? {
            None => return Ok(turn),
            Some(next) => {
                slot = next;
                turn += 1;
            }
        }
    }
    Ok(turn)
}

/// Takes the turn of a thread where it is next: the slot after it.
fn go_along(
    alloc: Global,
    world: &mut World,
    code: &Verified,
    base: &Label,
    slot: Slot,
    thread: u32,
) -> Result<Option<Slot>, NoMemory>
    requires sound { IsSound code.now world.old }
    requires few { slot.used ≤ quantum }
    ensures { IfOk result (λ o. GoesAlong base.now code.now world.old slot thread o world.new) }
{
    match next_of(code, world, base, slot) {
        Some(next) if next.thread == thread => match step(alloc, world, code, thread)? {
            None => unreachable!(),
            Some(event) => {
                let is_open = flows(&event.label, base);
                let_go_event(event);
                Ok(Some(slot_with(next, is_open, 1)))
            }
        },
        _ => Ok(None),
    }
}

/// Takes the turns behind so many, which are a run or not: the departure that the first of them is, if there is one.
fn take_rest(
    alloc: Global,
    code: &Verified,
    world: World,
    turns: &[u32],
    taken: usize,
) -> Result<Option<Departure>, RunFault>
    requires sound { IsSound code.now world }
    requires within { taken ≤ length turns.now }
    ensures ok { IfOk result (λ d. d ≡ departed turns.now taken) }
    ensures run { OnOk result (stopped_at code.now (drop taken turns.now) world ≡ None) }
    ensures stops { IfErr result (λ f. IsStop f (later taken (stopped_at code.now (drop taken turns.now) world))) }
{
    let nobody = Nobody;
    match keep_turns(alloc, &nobody, &mut (), code, world, &turns[taken..]) {
        Ok(()) => Ok(departed(turns, taken)),
        Err(RunFault::NoMemory) => Err(RunFault::NoMemory),
        Err(RunFault::NotReady { turn, thread }) => Err(RunFault::NotReady {
            turn: taken as u64 + turn,
            thread,
        }),
    }
}

/// The turn of this number as a departure, where there is one.
fn departed(turns: &[u32], taken: usize) -> Option<Departure>
    ensures { result ≡ departed turns.now taken }
{
    match turns.get(taken) {
        None => None,
        Some(thread) => Some(Departure {
            turn: taken as u64,
            thread: *thread,
        }),
    }
}
