//! One visit of a course: a turn of a ready thread, or the run's end.

ghost use Rattle.std.specs.Prelude.{◌≡◌, ◌<◌, ◌≤◌, ◌⊎◌, true, false, length, OnOk, OnErr, MatchOption};
ghost use Rattle.lam_machine_terms.specs.Turns as turns;
ghost use Rattle.lam_machine_replay.specs.Keeping.{KeptOfSoMany};
ghost use Rattle.thread_host_run.specs.Courses.{one_more};
ghost use Rattle.thread_host_run.specs.ReadyLists.{ready_threads};
ghost use Rattle.thread_host_run.specs.Kept.{Lists, HasRoom};
ghost use Rattle.thread_host.specs.Sharing.{IsShared, KeepsTaken, Unless};
ghost use Rattle.thread_host.specs.Visits.{GoesOn, EndsAs};
ghost use Rattle.turn_book.specs.Limits.{most_turns};

use crate::origins::Origin;
use guarded_code::Verified;
use lam_asks::Event;
use lam_io::Gate;
use lam_machine_replay::{Keeps, World};
use lam_machine_runs::How;
use std::alloc::Global;
use thread_host_pace::Pace;
use thread_host_run::{Course, ReadyList, list_after_turn, living_in};
use want_of_memory::NoMemory;

/// What one visit did.
#[derive(Clone, Copy, Debug, PartialEq, Eq)]
pub enum Visit {
    /// A turn of this thread.
    Took(u32),
    /// Nothing: the run has ended.
    Ended(How),
}

/// How the run has ended, if it has. `ready` are its ready threads.
pub fn how_it_stands(code: &Verified, course: &Course, ready: &[u32], budget: u64) -> Option<How>
    requires list { ready.now ≡ ready_threads code.now course.now.world }
    requires within { length course.now.turns ≤ budget }
    ensures { MatchOption result (GoesOn code.now budget course.now) (EndsAs code.now budget course.now) }
{
    if ready.is_empty() {
        return match living_in(course.world()) {
            None => Some(How::Done),
            Some(_) => Some(How::AllWait),
        };
    }
    if course.turns().len() as u64 >= budget {
        return Some(How::Budget);
    }
    None
}

/// The thread among the ready ones that the hook picks, or the next one that the worker may take.
pub fn picked<G: Gate>(
    code: &Verified,
    course: &Course,
    ready: &[u32],
    worker: u64,
    gate: &G,
    pace: &Pace,
) -> u32
    requires list { ready.now ≡ ready_threads code.now course.now.world }
    requires some { 0 < length ready.now }
    ensures { turns.ready code.now course.now.world result ≡ true }
{
    let turn = course.turns().len() as u64;
    let place = gate.pick(worker, turn, ready) % ready.len() as u64;
    let at = pace.place_from(ready, place as usize, worker);
    ready[at]
}

/// A turn of a thread that is ready, and what is kept of it. `list` is that of the ready threads, and stays so. Where memory
/// is refused for what is kept, that is lost.
pub fn take_turn<J: Origin<Kept>, Kept: Drop, K: Keeps<Kept>>(
    alloc: Global,
    code: &Verified,
    who: &K,
    course: &mut Course,
    list: &mut ReadyList,
    kept: &mut Kept,
    lost: &mut bool,
    thread: u32,
    budget: u64,
) -> Result<(), NoMemory>
    requires few { budget ≤ most_turns }
    requires ready { turns.ready code.now course.old.world thread ≡ true }
    requires left { length course.old.turns < budget }
    requires lists { Lists code.now course.old.world list.old }
    requires room { HasRoom list.old }
    requires shared { IsShared (K.AreKept who.now) code.now J.start budget course.old false kept.old }
    requires still { lost.old ≡ false }
    ensures lists { Lists code.now course.new.world list.new }
    ensures room { HasRoom list.new }
    ensures shared { IsShared (K.AreKept who.now) code.now J.start budget course.new lost.new kept.new }
    ensures ok { OnOk result (course.new ≡ one_more course.old thread course.new.world) }
    ensures err { OnErr result ((course.new ≡ course.old) ⊎ (course.new ≡ one_more course.old thread course.new.world)) }
{
    let before = course.turns().len() as u64;
    let event = course.turn(code, thread)?;
    let taken = Some(event);
    list_after_turn(list, course.world(), code, thread, &taken);
    keep_taken(alloc, who, kept, lost, before, taken, course.world())
}

/// What is kept of a turn of this number, which is nothing where it is private.
fn keep_taken<Kept: Drop, K: Keeps<Kept>>(
    alloc: Global,
    who: &K,
    kept: &mut Kept,
    lost: &mut bool,
    turn: u64,
    taken: Option<Event>,
    world: &World,
) -> Result<(), NoMemory>
    requires few { turn < most_turns }
    requires before { KeptOfSoMany (K.AreKept who.now) turn kept.old }
    requires still { lost.old ≡ false }
    ensures { Unless lost.new (KeepsTaken (K.AreKept who.now) turn taken world.now kept.old kept.new) }
{
    who.leaves_private();
    match taken {
        None => Ok(()),
        Some(event) => {
            let ended = who.keep(alloc, kept, turn, event, world);
            *lost = ended.is_err();
            ended
        }
    }
}
