//! The walk along a thread's history.

ghost use Rattle.std.specs.Prelude.{◌≡◌, [], IfOk, OnOk};
ghost use Rattle.lam_resolve_tree.specs.Tree.{resolved_tree};
ghost use Rattle.source_walk_follow.specs.Following.{asks_met, FollowsAll};
ghost use Rattle.source_walk_follow.specs.Followed.{IsFollowed};

use crate::followers::{Follower, begin_following, departure, follow_turn};
use lam_asks::What;
use lam_resolve_tree::Resolved;
use source_walk_state::Beginning;
use std::alloc::Global;
use want_of_memory::NoMemory;

/// Whether what a thread asked are the first asks that its source makes, with so many units and the answers that the
/// thread got: `None`; else the place of the first ask that is not.
///
/// # Errors
///
/// `NoMemory` where memory is refused.
pub fn follow(
    alloc: Global,
    program: &Resolved,
    begin: &Beginning,
    units: u64,
    did: &[What],
) -> Result<Option<u64>, NoMemory>
    ensures { IfOk result (IsFollowed (resolved_tree program.now) units begin.now.function begin.now.args begin.now.caps did.now) }
{
    let mut follower = begin_following(alloc, program, begin, units)?;
    let ended = follow_all(alloc, program, &mut follower, did);
    let place = departure(&follower);
    drop(follower);
    match ended {
        Ok(()) => Ok(place),
        Err(error) => Err(error),
    }
}

/// Follows all turns that a thread took.
fn follow_all<'a>(
    alloc: Global,
    program: &'a Resolved,
    follower: &mut Follower<'a>,
    did: &[What],
) -> Result<(), NoMemory>
    requires { asks_met follower.old ≡ 0 }
    ensures { OnOk result (FollowsAll (resolved_tree program.now) follower.old did.now follower.new) }
{
    for what in did {
        follow_turn(alloc, program, follower, what)?;
    }
    Ok(())
}
