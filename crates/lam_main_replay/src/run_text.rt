//! The text of the run of turns.

ghost use Rattle.std.specs.Prelude.{◌≡◌, ◌≢◌, IfErr};
ghost use Rattle.guarded_code_runs.specs.Worlds.{IsSound};
ghost use Rattle.lam_main_plan.specs.Replays.{IsOfTurns};
ghost use Rattle.lam_main_replay.specs.Halts.{Says};
ghost use Rattle.lam_main_replay.specs.Asked.{lines_for};

use crate::halt::Halt;
use crate::turns::run_halt;
use crate::viewer::NamedViewer;
use audit_log_lines::{World, keep_turns};
use guarded_code::Verified;
use std::alloc::Global;

/// What the reader is shown of turns. A line is written as its turn is taken, and nothing else is kept of it.
///
/// # Errors
///
/// A refusal with the first turn whose thread is not ready; `NoMemory`.
pub fn shown_turns(
    alloc: Global,
    code: &Verified,
    start: World,
    turns: &[u32],
    viewer: &NamedViewer,
) -> Result<String, Halt>
    requires sound { IsSound code.now start }
    ensures says { Says result (IsOfTurns code.now start (lines_for viewer.now.who viewer.now.names) turns.now) }
    ensures no_fault { IfErr result (λ halt. halt ≢ Halt.ShelfFailed) }
{
    let mut text = String::new(alloc);
    match keep_turns(alloc, viewer, &mut text, code, start, turns) {
        Ok(()) => Ok(text),
        Err(fault) => Err(run_halt(fault)),
    }
}
