//! The first thread of a world that lives, and the first that is ready.

ghost use Rattle.std.specs.Prelude.{◌≡◌, true, MatchOption};
ghost use Rattle.lam_machine.specs.Worlds.{IsSound};
ghost use Rattle.lam_machine_terms.specs.Worlds.{thread_at};
ghost use Rattle.lam_machine_terms.specs.Turns as turns;
ghost use Rattle.lam_machine_terms.specs.Turns.{IsDone, is_living};
ghost use Rattle.lam_machine_runs.specs.Ends.{NoneReady};

use crate::lists::few_threads;
use crate::ready;
use guarded_code::Verified;
use lam_machine::World;
use lam_machine_equal::lives;
use thread_core_state::LamThread;

/// The first thread that lives, `None` where every thread has ended.
#[tactic(auto, using(crate::proofs::SeekLemmas::none_lives))]
pub fn living_in(world: &World) -> Option<u32>
    ensures { MatchOption result (IsDone world.now) (λ t. is_living (thread_at world.now t) ≡ true) }
{
    let threads = world.threads();
    for thread in 0..few_threads(world) {
        if lives(threads, thread) {
            return Some(thread);
        }
    }
    None
}

/// The first thread that is ready, `None` where none is.
#[tactic(auto, using(crate::proofs::SeekLemmas::none_ready))]
pub fn ready_in(world: &World, code: &Verified) -> Option<u32>
    requires sound { IsSound code.now world.now }
    ensures { MatchOption result (NoneReady code.now world.now) (λ t. turns.ready code.now world.now t ≡ true) }
{
    for thread in 0..few_threads(world) {
        if ready(world, code, thread) {
            return Some(thread);
        }
    }
    None
}
