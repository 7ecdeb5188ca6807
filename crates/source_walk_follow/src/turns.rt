//! A walk's comparison with one ask of a thread.

ghost use Rattle.std.specs.Prelude.{◌≡◌, true, IfOk};
ghost use Rattle.lam_resolve_tree.specs.Tree.{resolved_tree};
ghost use Rattle.source_walk_parts.specs.States.{state_of};
ghost use Rattle.source_walk_follow.specs.Standing.{stands, Meets};

use crate::answers::answered;
use crate::compares::makes;
use crate::steps::settle;
use lam_asks::{Answer, Ask};
use lam_resolve_tree::Resolved;
use source_walk_parts::Walk;
use source_walk_state::Control;
use std::alloc::Global;
use want_of_memory::NoMemory;

/// An ask that a thread made, with its answer, where the walk stands: how it goes on, or `None` where the source makes
/// another ask there, or none.
fn compare<'a>(
    alloc: Global,
    program: &'a Resolved,
    w: &mut Walk<'a>,
    control: &Control<'a>,
    ask: &Ask,
    answer: &Answer,
) -> Result<Option<Control<'a>>, NoMemory>
    requires { stands control.now ≡ true }
    ensures { IfOk result (Meets (resolved_tree program.now) control.now (state_of w.old) ask.now answer.now (state_of w.new)) }
{
    let same = makes(alloc, program, w, control, ask)?;
    if !same {
        return Ok(None);
    }
    let next = answered(alloc, w, control, ask, answer)?;
    Ok(Some(next))
}

/// The same, from where the walk is.
pub(crate) fn take<'a>(
    alloc: Global,
    program: &'a Resolved,
    w: &mut Walk<'a>,
    control: Control<'a>,
    ask: &Ask,
    answer: &Answer,
) -> Result<Option<Control<'a>>, NoMemory>
    ensures { IfOk result (Meets (resolved_tree program.now) control.entry (state_of w.old) ask.now answer.now (state_of w.new)) }
{
    let settled = settle(alloc, program, w, control)?;
    let next = compare(alloc, program, w, &settled, ask, answer);
    drop(settled);
    next
}
