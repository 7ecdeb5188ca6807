//! The walk over a run of a checked program.

ghost use Rattle.std.specs.Prelude.{◌≡◌, Some, None, IfOk};
ghost use Rattle.region_check.specs.Seen.{checked_tree};
ghost use Rattle.lam_resolve_tree.specs.Tree.{ResolvedTree, resolved_tree};
ghost use Rattle.lam_resolve_tree.specs.Limits.{WithinLimits};
ghost use Rattle.lam_resolve_laws.specs.Resolved.{resolved};
ghost use Rattle.guarded_code_runs.specs.Worlds.{IsSound};
ghost use Rattle.lam_machine_runs.specs.Stops.{stopped_at};
ghost use Rattle.source_walk_terms.specs.Walks.{ThreadsAtEntries, IsWalked};

use crate::threads_walk::walk_turns;
use guarded_code::Verified;
use lam_resolve::resolve;
use lam_resolve_tree::Resolved;
use region_check::Checked;
use source_walk_run::{RunFault, World, runs_are_whole};
use source_walk_terms::Walked;
use std::alloc::Global;
use thread_host_run::Run;
use want_of_memory::NoMemory;

/// Compares a run's asks with those of its program's source, with its names resolved. `Same`: each thread's asks are the
/// first ones of its source, with as many units as it took turns. `Departs`: the first thread where they are not, and the
/// place of its first ask that is not. The run may be of any code; the threads of its start stand at entries of functions
/// of the program. They do where the code is what is run of the program and the start is a document's world: the law
/// `starts_stand_at_entries` of `lam_main_walk`.
///
/// # Errors
///
/// `NoMemory` where memory is refused.
pub fn walk(alloc: Global, checked: &Checked, run: &Run) -> Result<Walked, NoMemory>
    requires entries { (r : ResolvedTree) → resolved (checked_tree checked.now) ≡ Some r → ThreadsAtEntries r run.now.code run.now.start }
    ensures { IfOk result (λ walked. (r : ResolvedTree) → resolved (checked_tree checked.now) ≡ Some r → IsWalked r run.now.code run.now.start run.now.turns walked) }
{
    match resolve(checked) {
        Ok(program) => {
            let walked = walk_run(alloc, &program, run);
            let_go_program(program);
            walked
        }
        Err(error) => Err(error),
    }
}

/// Lets a program go.
fn let_go_program(program: Resolved) {
    drop(program);
}

/// The same of a program with its names resolved.
fn walk_run(alloc: Global, program: &Resolved, run: &Run) -> Result<Walked, NoMemory>
    requires entries { ThreadsAtEntries (resolved_tree program.now) run.now.code run.now.start }
    requires limits { WithinLimits (resolved_tree program.now) }
    ensures { IfOk result (IsWalked (resolved_tree program.now) run.now.code run.now.start run.now.turns) }
{
    runs_are_whole();
    let start = run.start().copy()?;
    walk_whole(alloc, program, run.code(), start, run.turns())
}

/// The same of turns that are a run, so that none is refused.
fn walk_whole(
    alloc: Global,
    program: &Resolved,
    code: &Verified,
    start: World,
    turns: &[u32],
) -> Result<Walked, NoMemory>
    requires sound { IsSound code.now start }
    requires entries { ThreadsAtEntries (resolved_tree program.now) code.now start }
    requires limits { WithinLimits (resolved_tree program.now) }
    requires whole { stopped_at code.now turns.now start ≡ None }
    ensures { IfOk result (IsWalked (resolved_tree program.now) code.now start turns.now) }
{
    match walk_turns(alloc, program, code, start, turns) {
        Ok(walked) => Ok(walked),
        Err(RunFault::NoMemory) => Err(NoMemory),
        Err(RunFault::NotReady { turn: _, thread: _ }) => unreachable!(),
    }
}
