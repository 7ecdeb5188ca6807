//! One turn of a run with its event, and whether it was quiet. After a quiet turn every other thread is ready where it
//! was.

ghost use Rattle.std.specs.Prelude.{◌≡◌, true, ◌++◌, ◌∷◌, [], IfOk, OnOk, OnErr};
ghost use Rattle.lam_machine_terms.specs.Turns.{ready};
ghost use Rattle.lam_machine_laws.specs.Turned.{IsTurn};
ghost use Rattle.lam_machine.specs.Worlds.{IsSound};
ghost use Rattle.thread_host_run.specs.Quiet.{touches_others, is_quiet};
ghost use Rattle.thread_host_run.specs.Courses.{TookTurn, was_quiet};

use guarded_code::Verified;
use lam_asks::{Ask, Event, What};
use lam_machine::{World, step, step_privately};
use std::alloc::Global;
use want_of_memory::NoMemory;

/// A thread that is ready takes a turn in a world, and is put behind the turns so far. The room for it is taken first, so
/// that nothing has changed where memory is refused.
pub fn take_turn(
    turns: &mut Vec<u32>,
    world: &mut World,
    code: &Verified,
    thread: u32,
) -> Result<Event, NoMemory>
    requires ready { ready code.now world.old thread ≡ true }
    requires sound { IsSound code.now world.old }
    ensures turn { IfOk result (λ e. IsTurn code.now thread world.old e world.new) }
    ensures turns { OnOk result (turns.new.items ≡ turns.old.items ++ thread ∷ []) }
    ensures same_world { OnErr result (world.new ≡ world.old) }
    ensures same_turns { OnErr result (turns.new.items ≡ turns.old.items) }
{
    turns.reserve(1)?;
    let alloc = *turns.allocator();
    match step(alloc, world, code, thread)? {
        None => unreachable!(),
        Some(event) => {
            turns.push_reserved(thread);
            Ok(event)
        }
    }
}

/// As [`take_turn`], where no event is made of a private turn.
pub fn go_turn(
    turns: &mut Vec<u32>,
    world: &mut World,
    code: &Verified,
    thread: u32,
) -> Result<Option<Event>, NoMemory>
    requires ready { ready code.now world.old thread ≡ true }
    requires sound { IsSound code.now world.old }
    ensures turn { IfOk result (λ o. TookTurn code.now thread world.old o world.new) }
    ensures turns { OnOk result (turns.new.items ≡ turns.old.items ++ thread ∷ []) }
    ensures same_world { OnErr result (world.new ≡ world.old) }
    ensures same_turns { OnErr result (turns.new.items ≡ turns.old.items) }
{
    turns.reserve(1)?;
    let alloc = *turns.allocator();
    let taken = go_step(alloc, world, code, thread)?;
    turns.push_reserved(thread);
    Ok(taken)
}

/// A thread that is ready takes a turn: its event, or `None` where it is private.
fn go_step(
    alloc: Global,
    world: &mut World,
    code: &Verified,
    thread: u32,
) -> Result<Option<Event>, NoMemory>
    requires ready { ready code.now world.old thread ≡ true }
    requires sound { IsSound code.now world.old }
    ensures turn { IfOk result (λ o. TookTurn code.now thread world.old o world.new) }
    ensures same_world { OnErr result (world.new ≡ world.old) }
{
    if step_privately(world, code, thread)? {
        return Ok(None);
    }
    match step(alloc, world, code, thread)? {
        None => unreachable!(),
        Some(event) => Ok(Some(event)),
    }
}

/// Whether a turn was quiet, so that every other thread is ready where it was.
pub fn was_quiet(taken: &Option<Event>) -> bool
    ensures { result ≡ was_quiet taken.now }
{
    match taken {
        None => true,
        Some(event) => is_quiet(&event.what),
    }
}

fn is_quiet(what: &What) -> bool
    ensures { result ≡ is_quiet what.now }
{
    match what {
        What::Private => true,
        What::Asked { ask, .. } => !touches_others(ask),
    }
}

/// Whether another thread may be ready after the ask where it was not, or not where it was: who holds a monitor may change,
/// a thread may be started, or one ends.
pub fn touches_others(ask: &Ask) -> bool
    ensures { result ≡ touches_others ask.now }
{
    matches!(
        ask,
        Ask::MonEnter { .. }
            | Ask::MonLeave { .. }
            | Ask::Caught(_)
            | Ask::Suppressed(_)
            | Ask::Spawn { .. }
            | Ask::End(_)
    )
}
