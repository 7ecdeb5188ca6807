//! A thread's walk over its source, turn by turn.

ghost use Rattle.std.specs.Prelude.{◌≡◌, ◌<◌, ◌-◌, ◌^◌, [], IfOk, OnOk};
ghost use Rattle.lam_asks.specs.declared.answer.What.TheVariants.{Asked as asked};
ghost use Rattle.lam_resolve_tree.specs.Tree.{resolved_tree};
ghost use Rattle.lam_meaning.specs.Plays.{asks_made};
ghost use Rattle.source_walk_follow.specs.declared.followers.Follower.TheVariants.{Along as along};
ghost use Rattle.source_walk_follow.specs.Following.{IsFollowing, asks_met, place_left, FollowsTurn};

use crate::begins::{Walking, begin_walk};
use crate::turns::take;
use lam_asks::{Answer, Ask, What};
use lam_resolve_tree::Resolved;
use source_walk_state::Beginning;
use std::alloc::Global;
use std::mem::replace;
use want_of_memory::NoMemory;

/// How far a thread came along its source.
#[derive(Drop)]
pub enum Follower<'a> {
    /// All its asks so far, so many, are its source's. Here the walk goes on.
    Along { walking: Walking<'a>, asks: u64 },
    /// At this place of its asks, its source asks something else or nothing.
    Departed(u64),
}

/// A thread that did nothing yet, with as many units as it is to take turns.
///
/// # Errors
///
/// `NoMemory` where memory is refused.
pub fn begin_following<'a>(
    alloc: Global,
    program: &'a Resolved,
    begin: &Beginning,
    units: u64,
) -> Result<Follower<'a>, NoMemory>
    ensures follows { IfOk result (IsFollowing (resolved_tree program.now) (asks_made (resolved_tree program.now) units begin.now.function begin.now.args begin.now.caps) []) }
    ensures asks { IfOk result (λ w. asks_met w ≡ 0) }
{
    let walking = begin_walk(alloc, program, begin, units)?;
    Ok(Follower::Along { walking, asks: 0 })
}

/// Follows the thread's next turn. The ask of the turn is compared with that of the source, and its answer is given to
/// the walk. Of a private turn there is nothing to follow.
///
/// # Errors
///
/// `NoMemory` where memory is refused. The follower is then of no use.
pub fn follow_turn<'a>(
    alloc: Global,
    program: &'a Resolved,
    follower: &mut Follower<'a>,
    what: &What,
) -> Result<(), NoMemory>
    requires { asks_met follower.old < 2 ^ 64 - 1 }
    ensures { OnOk result (FollowsTurn (resolved_tree program.now) follower.old what.now follower.new) }
{
    match what {
        What::Private => Ok(()),
        What::Asked { ask, answer } => follow_ask(alloc, program, follower, ask, answer),
    }
}

/// The same of an ask and its answer.
fn follow_ask<'a>(
    alloc: Global,
    program: &'a Resolved,
    follower: &mut Follower<'a>,
    ask: &Ask,
    answer: &Answer,
) -> Result<(), NoMemory>
    requires { asks_met follower.old < 2 ^ 64 - 1 }
    ensures { OnOk result (FollowsTurn (resolved_tree program.now) follower.old (asked ask.now answer.now) follower.new) }
{
    let before = replace(follower, Follower::Departed(0));
    let after = behind(alloc, program, before, ask, answer)?;
    drop(replace(follower, after));
    Ok(())
}

/// How far the thread came with this ask.
fn behind<'a>(
    alloc: Global,
    program: &'a Resolved,
    follower: Follower<'a>,
    ask: &Ask,
    answer: &Answer,
) -> Result<Follower<'a>, NoMemory>
    requires { asks_met follower < 2 ^ 64 - 1 }
    ensures { IfOk result (FollowsTurn (resolved_tree program.now) follower.entry (asked ask.now answer.now)) }
{
    match follower {
        Follower::Departed(place) => Ok(Follower::Departed(place)),
        Follower::Along { walking, asks } => {
            behind_ask(alloc, program, walking, asks, ask, answer)
        }
    }
}

/// The same of one that went along.
fn behind_ask<'a>(
    alloc: Global,
    program: &'a Resolved,
    walking: Walking<'a>,
    asks: u64,
    ask: &Ask,
    answer: &Answer,
) -> Result<Follower<'a>, NoMemory>
    requires { asks < 2 ^ 64 - 1 }
    ensures { IfOk result (FollowsTurn (resolved_tree program.now) (along walking.entry asks) (asked ask.now answer.now)) }
{
    let Walking { mut walk, control } = walking;
    let next = take(alloc, program, &mut walk, control, ask, answer)?;
    match next {
        None => {
            drop(walk);
            Ok(Follower::Departed(asks))
        }
        Some(control) => Ok(Follower::Along {
            walking: Walking { walk, control },
            asks: asks + 1,
        }),
    }
}

/// The place of the thread's first ask that is not its source's, if there is one.
pub fn departure(follower: &Follower<'_>) -> Option<u64>
    ensures { result ≡ place_left follower.now }
{
    match follower {
        Follower::Along { .. } => None,
        Follower::Departed(place) => Some(*place),
    }
}
