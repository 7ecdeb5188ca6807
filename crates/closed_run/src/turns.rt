//! A closed run from where it stands: whether it goes on, private turns in a row, and one turn.

ghost use Rattle.std.specs.Prelude.{◌≡◌, ◌<◌, ◌≤◌, ◌++◌, true, length, replicate, IfOk, OnOk};
ghost use Rattle.lam_machine.specs.Worlds.{IsSound};
ghost use Rattle.lam_machine_terms.specs.Turns.{ready};
ghost use Rattle.lam_machine_replay.specs.Keeping.{KeptOfSoMany};
ghost use Rattle.closed_terms.specs.Schedule.{quantum};
ghost use Rattle.closed_terms.specs.Ends.{all_ended, idle, most_turns};
ghost use Rattle.closed_run.specs.Places.{Fits};
ghost use Rattle.closed_run.specs.Going.{Comes, TakesRow, TakesOne};

use crate::next::{is_inside, next_of};
use crate::places::{Place, room, with_turns};
use closed_terms::{End, MOST_TURNS, Slot};
use flow_labels::{Label, flows};
use guarded_code::Verified;
use lam_machine_replay::{Keeps, World, step, step_privately_for};
use lam_machine_world::lives;
use std::alloc::Global;
use thread_host_run::living_in;
use want_of_memory::NoMemory;

/// What comes next of a closed run.
pub(crate) enum Coming {
    /// Who has the slot next, and takes a turn.
    Next(Slot),
    /// The run has ended.
    Ends(End),
}

/// Whether a closed run goes on, and with whom, or how it has ended.
pub(crate) fn what_comes(
    code: &Verified,
    world: &World,
    base: &Label,
    budget: u64,
    place: Place,
    turns: u64,
) -> Coming
    requires sound { IsSound code.now world.now }
    ensures { Comes base.now code.now budget world.now place turns result }
{
    if has_ended(world, place.slot.thread) {
        return Coming::Ends(End::Done);
    }
    if place.open_turns >= budget {
        return Coming::Ends(End::Cut);
    }
    match next_of(code, world, base, place.slot) {
        None => Coming::Ends(idle(is_inside(world, base, place.slot.thread))),
        Some(_) if turns >= MOST_TURNS => Coming::Ends(End::Over),
        Some(next) => Coming::Next(next),
    }
}

/// How a run ends where nobody is next.
fn idle(inside: bool) -> End
    ensures { result ≡ idle inside }
{
    if inside { End::Stalled } else { End::Waits }
}

/// Whether every thread has ended. It looks at one thread first, and at all only where that one has ended.
fn has_ended(world: &World, thread: u32) -> bool
    ensures { result ≡ all_ended world.now.threads }
{
    if lives(world.threads(), thread) {
        return false;
    }
    match living_in(world) {
        None => true,
        Some(_) => false,
    }
}

/// Takes private turns of the slot's thread in a row, as many as there are and as the schedule leaves it.
pub(crate) fn take_row(
    world: &mut World,
    turns: &mut Vec<u32>,
    code: &Verified,
    base: &Label,
    budget: u64,
    place: Place,
) -> Result<Place, NoMemory>
    requires { Fits budget (length turns.old.items) place }
    ensures { IfOk result (λ p. TakesRow base.now code.now budget place p turns.old.items turns.new.items world.old world.new) }
{
    let thread = place.slot.thread;
    let is_open = !is_inside(world, base, thread);
    let most = room(place, is_open, budget, turns.len() as u64);
    let taken = step_privately_for(world, code, thread, most)?;
    push_row(turns, thread, taken)?;
    Ok(with_turns(place, is_open, taken))
}

/// So many turns of a thread more.
fn push_row(turns: &mut Vec<u32>, thread: u32, count: u64) -> Result<(), NoMemory>
    ensures { OnOk result (turns.new.items ≡ turns.old.items ++ replicate count thread) }
{
    for pushed in 0..count {
        turns.push(thread)?;
    }
    Ok(())
}

/// Takes the turn of who has the slot next, and keeps what there is of it.
pub(crate) fn take_turn<Kept, K: Keeps<Kept>>(
    alloc: Global,
    who: &K,
    kept: &mut Kept,
    world: &mut World,
    turns: &mut Vec<u32>,
    code: &Verified,
    base: &Label,
    place: Place,
) -> Result<Place, NoMemory>
    requires sound { IsSound code.now world.old }
    requires ready { ready code.now world.old place.slot.thread ≡ true }
    requires few { length turns.old.items < most_turns }
    requires slot { place.slot.used ≤ quantum }
    requires open_turns { place.open_turns ≤ most_turns }
    requires before { KeptOfSoMany (K.AreKept who.now) (length turns.old.items) kept.old }
    ensures { IfOk result (λ p. TakesOne base.now code.now (K.AreKept who.now) place p turns.old.items turns.new.items world.old world.new kept.old kept.new) }
{
    let turn = turns.len() as u64;
    let thread = place.slot.thread;
    turns.push(thread)?;
    match step(alloc, world, code, thread)? {
        None => unreachable!(),
        Some(event) => {
            let is_open = flows(&event.label, base);
            who.keep(alloc, kept, turn, event, world)?;
            Ok(with_turns(place, is_open, 1))
        }
    }
}
