//! The beginnings of a start's threads.

ghost use Rattle.std.specs.Prelude.{◌≡◌, ◌≤◌, ◌<◌, ◌^◌, take, length, IfOk};
ghost use Rattle.lam_resolve_tree.specs.Tree.{resolved_tree};
ghost use Rattle.lam_resolve_tree.specs.Limits.{WithinLimits};
ghost use Rattle.source_walk_terms.specs.Walks.{AreAtEntries, StandsAtEntry};
ghost use Rattle.source_walk.specs.Starts.{BeginsAt, AreBeginnings};

use guarded_code::Verified;
use lam_resolve_tree::Resolved;
use source_walk_state::Beginning;
use std::alloc::Global;
use thread_core_state::{Context, LamThread, listed};
use want_of_memory::NoMemory;

/// How threads begin that stand at entries, in order.
///
/// # Errors
///
/// `NoMemory` where memory is refused.
pub(crate) fn beginnings(
    alloc: Global,
    program: &Resolved,
    code: &Verified,
    threads: &[LamThread],
) -> Result<Vec<Beginning>, NoMemory>
    requires entries { AreAtEntries (resolved_tree program.now) code.now threads.now }
    requires limits { WithinLimits (resolved_tree program.now) }
    ensures { IfOk result (λ all. AreBeginnings (resolved_tree program.now) code.now threads.now all.items) }
{
    let mut all = Vec::with_capacity(alloc, threads.len())?;
    for thread in threads {
        all.push(beginning(alloc, program, code, thread)?)?;
    }
    Ok(all)
}

/// How a thread begins that stands at an entry: its first context is at it, with the arguments as its first locals.
fn beginning(
    alloc: Global,
    program: &Resolved,
    code: &Verified,
    thread: &LamThread,
) -> Result<Beginning, NoMemory>
    requires entry { StandsAtEntry (resolved_tree program.now) code.now thread.now }
    requires limits { WithinLimits (resolved_tree program.now) }
    ensures { IfOk result (BeginsAt (resolved_tree program.now) code.now thread.now) }
{
    match thread.top() {
        None => unreachable!(),
        Some(context) => {
            let takes = program.functions[context.unit].params.len();
            begun_with(alloc, context, takes)
        }
    }
}

/// How a context began that was given so many arguments.
fn begun_with(alloc: Global, context: &Context, takes: usize) -> Result<Beginning, NoMemory>
    requires unit { context.now.inside.frame.unit < 2 ^ 32 }
    requires takes { takes ≤ length context.now.inside.frame.locals }
    ensures function { IfOk result (λ b. b.function ≡ context.now.inside.frame.unit) }
    ensures args { IfOk result (λ b. b.args ≡ take takes context.now.inside.frame.locals) }
    ensures caps { IfOk result (λ b. b.caps ≡ context.now.caps) }
{
    let args = listed(alloc, &context.locals.as_slice()[..takes])?;
    let caps = context.caps().copy()?;
    Ok(Beginning {
        function: context.unit as u32,
        args,
        caps,
    })
}
