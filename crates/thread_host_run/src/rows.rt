//! Private turns of one thread in a row, taken in place: nothing is copied or compared.

ghost use Rattle.std.specs.Prelude.{◌≡◌, ◌<◌, ◌≤◌, ◌++◌, length, replicate, IfOk, OnErr};
ghost use Rattle.lam_machine_effects.specs.declared.stores.Stores.{Stores};
ghost use Rattle.lam_machine_effects.specs.Parts.{world_of};
ghost use Rattle.thread_host_run.specs.Going.{WentIn};

use crate::stretches::push_again;
use guarded_code::Verified;
use lam_machine::World;
use thread_core_state::LamThread;
use thread_core_stretches::go_privately;
use want_of_memory::NoMemory;

/// Takes private turns of a thread that is there, up to so many. The room for them is taken first, so that nothing has changed
/// where memory is refused.
pub fn go_along(
    turns: &mut Vec<u32>,
    world: &mut World,
    code: &Verified,
    thread: u32,
    most: u64,
) -> Result<u64, NoMemory>
    requires { thread < length world.old.threads }
    ensures few { IfOk result (λ n. n ≤ most) }
    ensures ok { IfOk result (λ n. WentIn code.now thread n world.old world.new) }
    ensures turns { IfOk result (λ n. turns.new.items ≡ turns.old.items ++ replicate n thread) }
    ensures same_turns { OnErr result (turns.new.items ≡ turns.old.items) }
    ensures same_world { OnErr result (world.new ≡ world.old) }
{
    turns.reserve(most as usize)?;
    let taken = go_in(world, code, thread, most)?;
    push_again(turns, thread, taken);
    Ok(taken)
}

/// Private turns of a thread of a world.
fn go_in(world: &mut World, code: &Verified, thread: u32, most: u64) -> Result<u64, NoMemory>
    requires { thread < length world.old.threads }
    ensures few { IfOk result (λ n. n ≤ most) }
    ensures ok { IfOk result (λ n. WentIn code.now thread n world.old world.new) }
    ensures err { OnErr result (world.new ≡ world.old) }
{
    let taken = go_at(&mut world.threads, code, thread, most)?;
    Ok(taken)
}

/// Private turns of a thread of many.
#[tactic(auto, using(crate::proofs::GoingLemmas::went_at, crate::proofs::GoingLemmas::kept_at))]
fn go_at(
    threads: &mut Vec<LamThread>,
    code: &Verified,
    thread: u32,
    most: u64,
) -> Result<u64, NoMemory>
    requires { thread < length threads.old.items }
    ensures few { IfOk result (λ n. n ≤ most) }
    ensures ok { IfOk result (λ n. (s : Stores) → WentIn code.now thread n (world_of s threads.old.items) (world_of s threads.new.items)) }
    ensures size { length threads.new.items ≡ length threads.old.items }
    ensures err { OnErr result (threads.new.items ≡ threads.old.items) }
{
    let taken = go_privately(&mut threads[thread as usize], code, most)?;
    Ok(taken)
}
