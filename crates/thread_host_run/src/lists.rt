//! The list of a run's ready threads, kept from turn to turn.
//!
//! After a quiet turn no monitor has changed its holder and no thread was started or has ended. So each other thread is
//! ready where it was, and only the one that took the turn is looked at again. Private turns are quiet, and so are all
//! asks but those that take monitors or give them back, start a thread or end one. After these,
//! [`ReadyList`](crate::ReadyList) makes the list anew. The list's room is taken once, for as many threads as a run can
//! have.

ghost use Rattle.std.specs.Prelude.{◌≡◌, ◌<◌, ◌≤◌, length, IfOk, OnOk, OnErr, vec_capacity};
ghost use Rattle.lam_machine_terms.specs.Turns as turns;
ghost use Rattle.lam_machine.specs.Worlds.{IsSound};
ghost use Rattle.thread_core_stretches.specs.Stretches.{StretchStands};
ghost use Rattle.thread_host_run.specs.Stretched.{StretchFits, checked_in};
ghost use Rattle.thread_host_run.specs.ReadyLists.{ready_threads, is_other, kept_list};
ghost use Rattle.std.specs.List.{filter};
ghost use Rattle.lam_machine_terms.specs.Limits.{most_threads};

use crate::course::Course;
use crate::readiness::ready;
use guarded_code::Verified;
use lam_machine::World;
use lam_machine_effects::THREAD_LIMIT;
use std::alloc::Global;
use thread_core_stretches::Stretch;
use want_of_memory::NoMemory;

/// A list with room for every thread of a run.
pub fn roomy_list(alloc: Global) -> Result<Vec<u32>, NoMemory>
    ensures { IfOk result (λ list. most_threads ≤ vec_capacity list) }
{
    Ok(Vec::with_capacity(alloc, THREAD_LIMIT as usize)?)
}

/// How many threads there are.
pub fn few_threads(world: &World) -> u32
    ensures count { result ≡ length world.now.threads }
    ensures few { result ≤ most_threads }
{
    world.threads().len() as u32
}

/// Checks a stretch of some turns in; the list stays that of the ready threads, and only the stretch's thread is looked at.
///
/// # Errors
///
/// `NoMemory` where memory is refused; nothing has changed then, and the stretch is let go.
pub fn check_in_listed(
    course: &mut Course,
    list: &mut Vec<u32>,
    code: &Verified,
    stretch: Stretch,
) -> Result<(), NoMemory>
    requires sound { IsSound code.now course.old.world }
    requires stands { StretchStands code.now stretch }
    requires some { 0 < stretch.count }
    requires fits { StretchFits course.old stretch }
    requires list { list.old.items ≡ ready_threads code.now course.old.world }
    requires room { most_threads ≤ vec_capacity list.old }
    ensures ok { OnOk result (course.new ≡ checked_in course.old stretch) }
    ensures err { OnErr result (course.new ≡ course.old) }
    ensures list { list.new.items ≡ ready_threads code.now course.new.world }
    ensures room { most_threads ≤ vec_capacity list.new }
{
    let thread = stretch.thread;
    course.check_in(stretch)?;
    after_quiet(list, course.world(), code, thread);
    Ok(())
}

/// After a quiet turn of a thread: it leaves the list where it is no longer ready.
pub fn after_quiet(list: &mut Vec<u32>, world: &World, code: &Verified, thread: u32)
    requires sound { IsSound code.now world.now }
    ensures list { list.new.items ≡ kept_list (turns.ready code.now world.now thread) thread list.old.items }
    ensures room { vec_capacity list.new ≡ vec_capacity list.old }
{
    if !ready(world, code, thread) {
        leave(list, thread);
    }
}

/// A thread leaves the list.
pub fn leave(list: &mut Vec<u32>, thread: u32)
    ensures list { list.new.items ≡ filter (is_other thread) list.old.items }
    ensures room { vec_capacity list.new ≡ vec_capacity list.old }
{
    list.retain(|other| *other != thread);
}
