//! Stretches of private turns on a copy of a thread, and their return.

ghost use Rattle.std.specs.Prelude.{◌≡◌, ◌+◌, ◌<◌, ◌≤◌, ◌++◌, Some, length, slice_set, replicate, IsTrue, ◌↔◌, OnOk, OnErr, vec_len, vec_capacity};
ghost use Rattle.lam_machine_terms.specs.Worlds.{thread_at, with_thread};
ghost use Rattle.thread_host_run.specs.Stretched.{StretchFits};
ghost use Rattle.turn_book.specs.Limits.{most_turns};

use lam_machine::World;
use lam_machine_equal::same_thread;
use std::mem::replace;
use thread_core_state::LamThread;
use thread_core_stretches::{Stretch, let_go_stretch};
use turn_book::TURN_LIMIT;
use want_of_memory::NoMemory;

/// Whether the thread of a stretch is there as it was when the stretch began, and there is room for its turns.
pub fn fits(turns: &[u32], world: &World, stretch: &Stretch) -> bool
    ensures { IsTrue result ↔ StretchFits (record { turns = turns.now; world = world.now }) stretch.now }
{
    has_room(turns, stretch.count) && is_there(world, stretch.thread, &stretch.before)
}

/// Whether so many turns more are no more than a run may have.
fn has_room(turns: &[u32], count: u64) -> bool
    ensures { IsTrue result ↔ (length turns.now + count ≤ most_turns) }
{
    let taken = turns.len() as u64;
    taken <= TURN_LIMIT && count <= TURN_LIMIT - taken
}

/// Whether a thread is there and is this one.
fn is_there(world: &World, thread: u32, before: &LamThread) -> bool
    ensures { IsTrue result ↔ (thread_at world.now thread ≡ Some before.now) }
{
    match world.threads().get(thread as usize) {
        None => false,
        Some(found) => same_thread(found, before),
    }
}

/// Puts a stretch that fits into turns and a world. The room is taken first, so that nothing has changed where memory is
/// refused.
pub fn check_in(turns: &mut Vec<u32>, world: &mut World, stretch: Stretch) -> Result<(), NoMemory>
    requires { thread_at world.old stretch.thread ≡ Some stretch.before }
    ensures turns { OnOk result (turns.new.items ≡ turns.old.items ++ replicate stretch.count stretch.thread) }
    ensures world { OnOk result (world.new ≡ with_thread world.old stretch.thread stretch.after) }
    ensures same_turns { OnErr result (turns.new.items ≡ turns.old.items) }
    ensures same_world { OnErr result (world.new ≡ world.old) }
{
    if turns.reserve(stretch.count as usize).is_err() {
        let_go_stretch(stretch);
        return Err(NoMemory);
    }
    let Stretch {
        thread,
        before,
        after,
        count,
    } = stretch;
    push_again(turns, thread, count);
    put_thread(world, thread, after);
    let_go_thread(before);
    Ok(())
}

/// So many turns of a thread more. There is room for them.
pub fn push_again(turns: &mut Vec<u32>, thread: u32, count: u64)
    requires { vec_len turns.old + count ≤ vec_capacity turns.old }
    ensures { turns.new.items ≡ turns.old.items ++ replicate count thread }
{
    for pushed in 0..count {
        turns.push_reserved(thread);
    }
}

/// A thread that is there becomes another one, and is let go.
fn put_thread(world: &mut World, thread: u32, to: LamThread)
    requires { thread < length world.old.threads }
    ensures { world.new ≡ with_thread world.old thread to }
{
    put_at(&mut world.threads, thread, to);
}

fn put_at(threads: &mut Vec<LamThread>, thread: u32, to: LamThread)
    requires { thread < length threads.old.items }
    ensures list { threads.new.items ≡ slice_set threads.old.items thread to }
    ensures few { length threads.new.items ≡ length threads.old.items }
{
    let_go_thread(replace(&mut threads[thread as usize], to));
}

/// Lets a thread go.
fn let_go_thread(thread: LamThread) {
    drop(thread);
}
