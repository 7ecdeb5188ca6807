//! Whether a run begins at the first function of a program, as a walk over it wants.

ghost use Rattle.std.specs.Prelude.{◌≡◌, ◌∷◌, [], Some, IsTrue, IfOk};
ghost use Rattle.lam_builtins.specs.Types.{int};
ghost use Rattle.region_check.specs.Seen.{checked_tree};
ghost use Rattle.lam_resolve_tree.specs.Tree.{ResolvedTree, resolved_tree, option_type_tree};
ghost use Rattle.lam_resolve_laws.specs.Resolved.{resolved};
ghost use Rattle.source_walk_terms.specs.Walks.{IsEntry, ThreadsAtEntries};
ghost use Rattle.examples_codes.specs.Starts.{IsFirst};

use capabilities::Caps;
use guarded_code::Verified;
use lam_machine_equal::same_thread;
use lam_resolve::resolve;
use lam_resolve_tree::{Resolved, ValueType};
use lam_value::Values;
use region_check::Checked;
use std::alloc::Global;
use std::mem::forget;
use thread_core_state::LamThread;
use thread_host_run::Run;
use want_of_memory::NoMemory;

/// Whether the start of a run has one thread, and that stands at the first function of a program.
pub fn begins_there(alloc: Global, checked: &Checked, run: &Run) -> Result<bool, NoMemory>
    ensures { IfOk result (λ there. IsTrue there → (r : ResolvedTree) → resolved (checked_tree checked.now) ≡ Some r → ThreadsAtEntries r run.now.code run.now.start) }
{
    let program = resolve(checked)?;
    let entry = has_entry(&program);
    forget(program);
    if !entry {
        return Ok(false);
    }
    let first = first_thread(alloc, run.code())?;
    let alone = is_alone(run.start().threads(), &first);
    forget(first);
    Ok(alone)
}

/// A thread at the first function, without arguments and capabilities.
fn first_thread(alloc: Global, code: &Verified) -> Result<LamThread, NoMemory>
    ensures { IfOk result (IsFirst code.now) }
{
    let args = Values::new(alloc);
    let caps = Caps::none(alloc);
    LamThread::start(alloc, code.code(), 0, args, caps)
}

/// Whether threads are this one alone.
fn is_alone(threads: &[LamThread], first: &LamThread) -> bool
    ensures { IsTrue result → threads.now ≡ first.now ∷ [] }
{
    threads.len() == 1 && same_thread(&threads[0], first)
}

/// Whether the first function of a program takes nothing and returns a number.
fn has_entry(program: &Resolved) -> bool
    ensures { IsTrue result → IsEntry (resolved_tree program.now) 0 [] }
{
    match program.functions.first() {
        None => false,
        Some(declared) => {
            declared.params.as_slice().is_empty() && gives_number(&declared.result)
        }
    }
}

fn gives_number(gives: &Option<ValueType>) -> bool
    ensures { IsTrue result → option_type_tree gives.now ≡ Some int }
{
    matches!(gives, Some(ValueType::Int))
}
