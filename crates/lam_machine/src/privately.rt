//! Private turns, which make no event.

ghost use Rattle.std.specs.Prelude.{◌≡◌, ◌≤◌, length, IfOk, OnErr};
ghost use Rattle.lam_machine_effects.specs.declared.stores.Stores.{Stores};
ghost use Rattle.lam_machine_effects.specs.Parts.{world_of};
ghost use Rattle.thread_core_answers.specs.Turning.{standing_of};
ghost use Rattle.lam_machine.specs.Privately.{IsPrivateStep, ArePrivateSteps, is_private_standing};

use guarded_code::Verified;
use lam_machine_world::World;
use thread_core_answers::{Standing, go_on};
use thread_core_state::LamThread;
use thread_core_stretches::go_privately;
use want_of_memory::NoMemory;

/// Takes the turn of a thread where it is private: whether it was. Else the world stays as it is, and
/// [`step`](crate::step) tells what the turn is. A private turn shows nobody anything, and here costs no event.
///
/// # Errors
///
/// `NoMemory` where memory is refused; the world is then as it was.
pub fn step_privately(world: &mut World, code: &Verified, thread: u32) -> Result<bool, NoMemory>
    ensures ok { IfOk result (λ taken. IsPrivateStep code.now thread world.old taken world.new) }
    ensures err { OnErr result (world.new ≡ world.old) }
{
    go_on_at(&mut world.threads, code, thread)
}

/// A private turn of a thread of many. A thread that is not there has none.
#[tactic(auto, using(crate::proofs::PrivateLemmas::goes_on, crate::proofs::PrivateLemmas::absent, crate::proofs::AdvanceLemmas::kept_at))]
fn go_on_at(threads: &mut Vec<LamThread>, code: &Verified, thread: u32) -> Result<bool, NoMemory>
    ensures ok { IfOk result (λ taken. (s : Stores) → IsPrivateStep code.now thread (world_of s threads.old.items) taken (world_of s threads.new.items)) }
    ensures few { length threads.new.items ≡ length threads.old.items }
    ensures err { OnErr result (threads.new.items ≡ threads.old.items) }
{
    let at = thread as usize;
    if at >= threads.len() {
        return Ok(false);
    }
    let standing = go_on(&mut threads[at], code)?;
    Ok(was_private(standing))
}

fn was_private(standing: Standing) -> bool
    ensures { result ≡ is_private_standing (standing_of standing) }
{
    match standing {
        Standing::Private => true,
        Standing::Shared => false,
        Standing::Stuck => false,
        Standing::Ended => false,
    }
}

/// Takes private turns of a thread, as many as there are in a row, up to so many: how many it took. A thread that is not
/// there takes none.
///
/// # Errors
///
/// `NoMemory` where memory is refused for the first of them; the world is then as it was. Where it is refused for a later
/// one, the answer is how many were taken before.
pub fn step_privately_for(
    world: &mut World,
    code: &Verified,
    thread: u32,
    most: u64,
) -> Result<u64, NoMemory>
    ensures few { IfOk result (λ n. n ≤ most) }
    ensures ok { IfOk result (λ n. ArePrivateSteps code.now thread n world.old world.new) }
    ensures err { OnErr result (world.new ≡ world.old) }
{
    go_on_for(&mut world.threads, code, thread, most)
}

/// Private turns of a thread of many, in a row.
#[tactic(auto, using(crate::proofs::ManyPrivateLemmas::went_at, crate::proofs::AdvanceLemmas::kept_at))]
fn go_on_for(
    threads: &mut Vec<LamThread>,
    code: &Verified,
    thread: u32,
    most: u64,
) -> Result<u64, NoMemory>
    ensures few { IfOk result (λ n. n ≤ most) }
    ensures ok { IfOk result (λ n. (s : Stores) → ArePrivateSteps code.now thread n (world_of s threads.old.items) (world_of s threads.new.items)) }
    ensures size { length threads.new.items ≡ length threads.old.items }
    ensures err { OnErr result (threads.new.items ≡ threads.old.items) }
{
    let at = thread as usize;
    if at >= threads.len() {
        return Ok(0);
    }
    let taken = go_privately(&mut threads[at], code, most)?;
    Ok(taken)
}
