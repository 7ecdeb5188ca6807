//! Readiness of threads, tested without memory.
//!
//! [`ready`] tells whether there is a turn of a thread to take. It reads how the thread stands, and, where it asks
//! next, what the ask waits for. `lam_machine_terms` says by the turn itself what ready means; `specs/Readiness` says
//! it by these two.

ghost use Rattle.std.specs.Prelude.{◌≡◌, slice_get};
ghost use Rattle.std.specs.Option.{option_copied};
ghost use Rattle.lam_machine.specs.Worlds.{IsSound};
ghost use Rattle.thread_core_stretches.specs.Turning.{awaited_by, standing_of};
ghost use Rattle.lam_machine_terms.specs.Turns as turns;
ghost use Rattle.lam_machine_effects.specs.Parts.{world_of};
ghost use Rattle.thread_host_run.specs.Readiness.{waits_on, ready_by};

use guarded_code::Verified;
use lam_machine::World;
use lam_machine_effects::Stores;
use lam_machine_equal::lives;
use thread_core_state::LamThread;
use thread_core_stretches::{Outlook, Standing, Waits, outlook};

/// Whether a thread is there, is neither stuck nor ended, and its next ask, if it makes one, does not wait. Takes no
/// memory.
///
/// The world is sound for the code, so each access finds a reference whose rule holds, and none is tested again.
pub fn ready(world: &World, code: &Verified, thread: u32) -> bool
    requires sound { IsSound code.now world.now }
    ensures { result ≡ turns.ready code.now world.now thread }
{
    ready_at(&world.stores, world.threads.as_slice(), code, thread)
}

fn ready_at(stores: &Stores, threads: &[LamThread], code: &Verified, thread: u32) -> bool
    requires sound { IsSound code.now (world_of stores.now threads.now) }
    ensures { result ≡ turns.ready code.now (world_of stores.now threads.now) thread }
{
    match thread_in(threads, thread) {
        None => false,
        Some(found) => stands_ready(stores, threads, thread, outlook(found, code)),
    }
}

/// The thread of a number, where it is there.
pub fn thread_in(threads: &[LamThread], thread: u32) -> Option<&LamThread>
    ensures { option_copied result ≡ slice_get threads.now thread }
{
    threads.get(thread as usize)
}

/// Whether a thread that is there is ready, by how it stands and what its next ask waits for.
pub fn stands_ready(stores: &Stores, threads: &[LamThread], thread: u32, outlook: Outlook) -> bool
    ensures { result ≡ ready_by (standing_of outlook.entry.standing) (waits_on (world_of stores.now threads.now) thread (awaited_by outlook.entry.waits)) }
{
    match outlook.standing {
        Standing::Private => true,
        Standing::Shared => !ask_waits(stores, threads, thread, outlook.waits),
        Standing::Stuck => false,
        Standing::Ended => false,
    }
}

/// Whether a thread waits for what its ask waits for: another one holds the monitor, or the other one lives.
fn ask_waits(stores: &Stores, threads: &[LamThread], thread: u32, waits: Waits) -> bool
    ensures { result ≡ waits_on (world_of stores.now threads.now) thread (awaited_by waits.entry) }
{
    match waits {
        Waits::Nobody => false,
        Waits::Monitor(name) => !stores.monitors.is_free_for(name, thread),
        Waits::Thread(number) => lives(threads, number),
    }
}
