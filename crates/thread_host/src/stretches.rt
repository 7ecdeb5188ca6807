//! Stretches of private turns outside the lock: their beginning and their return.

ghost use Rattle.std.specs.Prelude.{◌≡◌, ◌+◌, ◌<◌, ◌≤◌, ◌↔◌, true, false, length, IsTrue, IfOk, IfSome, OnOk, OnErr};
ghost use Rattle.thread_core_stretches.specs.Stretches.{StretchStands, begun};
ghost use Rattle.thread_host_run.specs.Stretched.{StretchFits, checked_in};
ghost use Rattle.thread_host_run.specs.Kept.{Lists, HasRoom};
ghost use Rattle.thread_host.specs.Sharing.{IsShared};
ghost use Rattle.turn_book.specs.Limits.{most_turns};
ghost use Rattle.thread_host.specs.Stretching.{StretchOf, StretchKeepsTo, WentReady};
ghost use Rattle.lam_machine_terms.specs.Turns as turns;

use crate::lightness::is_light;
use crate::origins::Origin;
use guarded_code::Verified;
use lam_machine_replay::Keeps;
use lam_machine_runs::How;
use thread_core::{Standing, standing};
use thread_core_state::LamThread;
use thread_core_stretches::Stretch;
use thread_host_run::{Course, ReadyList, check_in_ready, go_ready};
use want_of_memory::NoMemory;

/// What a worker found under the lock.
#[derive(Drop)]
pub enum Opening {
    /// The next turn of a thread is private, and a copy of it pays: so many turns of it at most are to be taken outside the
    /// lock.
    Out(Stretch, u64),
    /// It was not private: a turn of this thread.
    Took(u32),
    /// It was private, and so many as follow it were: they were taken of this thread, in place.
    Along(u32),
    /// Nothing now: other workers take turns of what is ready.
    Away,
    /// Nothing: the run has ended.
    Ended(How),
}

/// A stretch of a thread with no turn yet, where the next turn of the thread is private and the thread is light.
pub fn stretch_of(
    course: &Course,
    code: &Verified,
    thread: u32,
) -> Result<Option<Stretch>, NoMemory>
    ensures { IfOk result (λ o. IfSome o (λ s. (s.thread ≡ thread) × StretchOf code.now course.now s)) }
{
    match course.world().threads().get(thread as usize) {
        None => Ok(None),
        Some(found) => private_stretch(found, code, thread),
    }
}

/// A stretch of this thread, where its next turn is private and it is light.
fn private_stretch(
    found: &LamThread,
    code: &Verified,
    thread: u32,
) -> Result<Option<Stretch>, NoMemory>
    ensures { IfOk result (λ o. IfSome o (λ s. s ≡ begun thread found.now)) }
{
    match standing(found, code) {
        Standing::Private => {
            if !is_light(found) {
                return Ok(None);
            }
            let stretch = Stretch::begin(thread, found)?;
            Ok(Some(stretch))
        }
        Standing::Shared => Ok(None),
        Standing::Stuck => Ok(None),
        Standing::Ended => Ok(None),
    }
}

/// Whether a thread of a course is light; one that is not there is.
pub fn is_light_in(course: &Course, thread: u32) -> bool {
    match course.world().threads().get(thread as usize) {
        None => true,
        Some(found) => is_light(found),
    }
}

/// Takes private turns of a thread that is ready in place, up to so many: how many they were. `list` is that of the ready
/// threads, and stays so; nothing is kept of private turns.
pub fn take_along<J: Origin<Kept>, Kept: Drop, K: Keeps<Kept>>(
    code: &Verified,
    who: &K,
    course: &mut Course,
    list: &mut ReadyList,
    kept: &Kept,
    thread: u32,
    most: u64,
    budget: u64,
) -> Result<u64, NoMemory>
    requires ready { turns.ready code.now course.old.world thread ≡ true }
    requires within { length course.old.turns + most ≤ budget }
    requires few { budget ≤ most_turns }
    requires lists { Lists code.now course.old.world list.old }
    requires room { HasRoom list.old }
    requires shared { IsShared (K.AreKept who.now) code.now J.start budget course.old false kept.now }
    ensures lists { Lists code.now course.new.world list.new }
    ensures room { HasRoom list.new }
    ensures shared { IsShared (K.AreKept who.now) code.now J.start budget course.new false kept.now }
    ensures ok { OnOk result (WentReady code.now budget course.old course.new thread) }
    ensures none { IfOk result (λ n. n ≡ 0 → course.new ≡ course.old) }
    ensures err { OnErr result (course.new ≡ course.old) }
{
    who.leaves_private();
    let taken = go_ready(course, list, code, thread, most)?;
    Ok(taken)
}

/// Whether a stretch can be checked in within the budget.
pub fn keeps_to(course: &Course, stretch: &Stretch, budget: u64) -> bool
    requires { budget ≤ most_turns }
    ensures { IsTrue result ↔ StretchKeepsTo budget course.now stretch.now }
{
    stretch.count > 0 && is_within(course.turns(), stretch.count, budget) && course.fits(stretch)
}

/// Whether so many turns more keep to the budget.
fn is_within(turns: &[u32], count: u64, budget: u64) -> bool
    ensures { IsTrue result ↔ (length turns.now + count ≤ budget) }
{
    let taken = turns.len() as u64;
    taken <= budget && count <= budget - taken
}

/// Checks a stretch in. `list` is that of the ready threads, and stays so; nothing is kept of private turns.
pub fn take_stretch<J: Origin<Kept>, Kept: Drop, K: Keeps<Kept>>(
    code: &Verified,
    who: &K,
    course: &mut Course,
    list: &mut ReadyList,
    kept: &Kept,
    stretch: Stretch,
    budget: u64,
) -> Result<(), NoMemory>
    requires stands { StretchStands code.now stretch }
    requires keeps { StretchKeepsTo budget course.old stretch }
    requires few { budget ≤ most_turns }
    requires lists { Lists code.now course.old.world list.old }
    requires room { HasRoom list.old }
    requires shared { IsShared (K.AreKept who.now) code.now J.start budget course.old false kept.now }
    ensures lists { Lists code.now course.new.world list.new }
    ensures room { HasRoom list.new }
    ensures shared { IsShared (K.AreKept who.now) code.now J.start budget course.new false kept.now }
    ensures ok { OnOk result (course.new ≡ checked_in course.old stretch) }
    ensures err { OnErr result (course.new ≡ course.old) }
{
    who.leaves_private();
    check_in_ready(course, list, code, stretch)?;
    Ok(())
}
