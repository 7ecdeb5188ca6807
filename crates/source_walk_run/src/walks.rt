//! The walks of all threads of a run.

ghost use Rattle.std.specs.Prelude.{◌≡◌, get_or, length, [], ◌∷◌, IfOk, OnOk};
ghost use Rattle.lam_resolve_tree.specs.Tree.{resolved_tree};
ghost use Rattle.source_walk_meets.specs.Runs.{asked_in};
ghost use Rattle.source_walk_meets.specs.Births.{birth_of};
ghost use Rattle.source_walk_follow.specs.Following.{asks_met};
ghost use Rattle.source_walk_run.specs.Walking.{IsMeeting, AreFirstWalks, HaveRoom, Begins, FollowsAt};

use crate::births::begun;
use crate::entries::is_entry;
use lam_asks::What;
use lam_resolve_tree::Resolved;
use source_walk_follow::{Follower, begin_following, follow_turn};
use source_walk_state::Beginning;
use std::alloc::Global;
use want_of_memory::NoMemory;

/// The walk of a thread that did nothing yet. One that begins at no entry departs at once.
fn begin<'a>(
    alloc: Global,
    program: &'a Resolved,
    beginning: &Beginning,
    units: u64,
) -> Result<Follower<'a>, NoMemory>
    ensures meets { IfOk result (IsMeeting (resolved_tree program.now) units beginning.now []) }
    ensures asks { IfOk result (λ w. asks_met w ≡ 0) }
{
    if !is_entry(program, beginning.function, beginning.args.as_slice()) {
        return Ok(Follower::Departed(0));
    }
    begin_following(alloc, program, beginning, units)
}

/// How many turns a thread takes, by the numbers of all.
fn turns_at(turns: &[u64], thread: usize) -> u64
    ensures { result ≡ get_or turns.now thread 0 }
{
    match turns.get(thread) {
        None => 0,
        Some(count) => *count,
    }
}

/// The walks of the threads of a start, before the first turn.
///
/// # Errors
///
/// `NoMemory` where memory is refused.
pub(crate) fn first_walks<'a>(
    alloc: Global,
    program: &'a Resolved,
    starts: &[Beginning],
    turns: &[u64],
) -> Result<Vec<Follower<'a>>, NoMemory>
    ensures { IfOk result (λ walks. AreFirstWalks (resolved_tree program.now) starts.now turns.now walks.items) }
{
    let mut walks = Vec::with_capacity(alloc, starts.len())?;
    for start in starts {
        let thread = walks.len();
        let units = turns_at(turns, thread);
        let walk = begin(alloc, program, start, units)?;
        walks.push(walk)?;
    }
    Ok(walks)
}

/// Where a turn started a thread, its walk is put to the end.
///
/// # Errors
///
/// `NoMemory` where memory is refused.
pub(crate) fn begin_started<'a>(
    alloc: Global,
    program: &'a Resolved,
    turns: &[u64],
    walks: &mut Vec<Follower<'a>>,
    what: &What,
) -> Result<(), NoMemory>
    ensures { OnOk result (Begins (resolved_tree program.now) turns.now (birth_of what.now) walks.old.items walks.new.items) }
{
    let started = begun(what)?;
    match started {
        None => Ok(()),
        Some(beginning) => {
            let thread = walks.len();
            let units = turns_at(turns, thread);
            let first = begin(alloc, program, &beginning, units);
            drop(beginning);
            let walk = first?;
            walks.push(walk)?;
            Ok(())
        }
    }
}

/// Takes the walk of a thread on, where the thread is there.
///
/// # Errors
///
/// `NoMemory` where memory is refused.
pub(crate) fn follow_at<'a>(
    alloc: Global,
    program: &'a Resolved,
    walks: &mut Vec<Follower<'a>>,
    thread: usize,
    what: &What,
) -> Result<(), NoMemory>
    requires { HaveRoom walks.old.items }
    ensures { OnOk result (FollowsAt (resolved_tree program.now) thread what.now walks.old.items walks.new.items) }
{
    if thread < walks.len() {
        follow_turn(alloc, program, &mut walks[thread], what)
    } else {
        Ok(())
    }
}

/// How many asks a turn makes: one, or none.
pub(crate) fn asks(what: &What) -> u64
    ensures { result ≡ length (asked_in (what.now ∷ [])) }
{
    match what {
        What::Private => 0,
        What::Asked { .. } => 1,
    }
}
