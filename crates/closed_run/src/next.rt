//! The schedule: who has the slot next.

ghost use Rattle.std.specs.Prelude.{◌≡◌, ◌-◌, ◌≤◌, length};
ghost use Rattle.lam_machine.specs.Worlds.{IsSound};
ghost use Rattle.closed_terms.specs.Schedule.{stand_inside, is_inside, first_ready, next_ready, next_slot};

use closed_terms::{QUANTUM, Slot};
use flow_labels::{Label, flows};
use guarded_code::Verified;
use lam_machine_replay::World;
use thread_core_state::LamThread;
use thread_host_run::ready;

/// Who has the slot next, or `None` where nobody has.
///
/// A thread is *inside* where its acting label does not flow to the base. The slot's thread goes on as long as it is
/// inside, or nobody does. Else it goes on while it is ready and took fewer than 64 open turns; then the next ready
/// thread by number gets the slot. Takes no memory.
pub fn next_of(code: &Verified, world: &World, base: &Label, slot: Slot) -> Option<Slot>
    requires sound { IsSound code.now world.now }
    ensures { result ≡ next_slot base.now code.now world.now slot }
{
    let thread = slot.thread;
    if is_inside(world, base, thread) {
        return if ready(world, code, thread) {
            Some(slot)
        } else {
            None
        };
    }
    if ready(world, code, thread) && slot.used < QUANTUM {
        return Some(slot);
    }
    match next_ready(code, world, thread) {
        None => None,
        Some(thread) => Some(Slot { thread, used: 0 }),
    }
}

/// Whether the acting label of a thread does not flow to the base. A thread with no context is not inside.
pub(crate) fn is_inside(world: &World, base: &Label, thread: u32) -> bool
    ensures { result ≡ is_inside base.now world.now thread }
{
    match world.threads().get(thread as usize) {
        None => false,
        Some(found) => stands_inside(found, base),
    }
}

fn stands_inside(thread: &LamThread, base: &Label) -> bool
    ensures { result ≡ stand_inside base.now thread.now.contexts }
{
    match thread.top() {
        None => false,
        Some(context) => !flows(context.label(), base),
    }
}

/// The first ready thread of those after one, and then of those up to it.
fn next_ready(code: &Verified, world: &World, thread: u32) -> Option<u32>
    requires sound { IsSound code.now world.now }
    ensures { result ≡ next_ready code.now world.now thread }
{
    let count = count_of(world);
    if thread >= count {
        return first_ready(code, world, 0, count);
    }
    match first_ready(code, world, thread + 1, count) {
        Some(found) => Some(found),
        None => first_ready(code, world, 0, thread + 1),
    }
}

/// How many threads there are.
fn count_of(world: &World) -> u32
    ensures count { result ≡ length world.now.threads }
    ensures few { result ≤ 4096 }
{
    world.threads().len() as u32
}

/// The first ready thread from one number on, up to another one.
fn first_ready(code: &Verified, world: &World, from: u32, to: u32) -> Option<u32>
    requires sound { IsSound code.now world.now }
    ensures { result ≡ first_ready code.now world.now (to - from) from }
{
    for thread in from..to {
        if ready(world, code, thread) {
            return Some(thread);
        }
    }
    None
}
