//! The uses of argument values: function calls, built-in calls, labels and new threads.

ghost use Rattle.std.specs.Prelude.{◌≡◌, ◌<◌, ℕ, Some, slice_get, IfOk};
ghost use Rattle.lam_resolve_tree.specs.Tree.{resolved_tree, function_tree, ResolvedTree};
ghost use Rattle.source_walk_state.specs.declared.Using.TheVariants as purposes;
ghost use Rattle.source_walk_parts.specs.States.{State, state_of};
ghost use Rattle.source_walk_go.specs.Uses.{Uses};
ghost use Rattle.thread_steps.specs.Limits.{frames_limit};

use lam_asks::Fault;
use lam_builtins::Builtin;
use lam_resolve_tree::{Expr, Function, Resolved};
use lam_value::{Value, Values};
use source_walk_parts::{Walk, begin_call, built, labelled, padded, push, spawns, spend};
use source_walk_state::{Control, Frame, Sort, Using};
use std::alloc::Global;
use thread_core_ops::FRAMES_LIMIT;
use want_of_memory::NoMemory;

/// How many calls of a context may be open.
const CALLS_LIMIT: u64 = FRAMES_LIMIT as u64;

/// The values of all arguments are there.
///
/// # Errors
///
/// `NoMemory` where memory is refused.
pub fn use_all<'a>(
    alloc: Global,
    program: &'a Resolved,
    w: &mut Walk<'a>,
    depth: u64,
    done: Values,
    using: Using<'a>,
) -> Result<Control<'a>, NoMemory>
    ensures { IfOk result (λ d. Uses (resolved_tree program.now) depth «using».entry done (state_of w.old) d (state_of w.new)) }
{
    match using {
        Using::Call { function } => call(program, w, depth, function, done),
        Using::Builtin { call, sort } => built_in(alloc, w, depth, call, sort, &done),
        Using::Secrets { vouchers } => Ok(next_tags(alloc, depth, vouchers, done)),
        Using::Vouchers { secrets } => labels(alloc, depth, &secrets, &done),
        Using::Spawn { function, caps } => Ok(spawn(depth, function, caps, done)),
    }
}

fn built_in<'a>(
    alloc: Global,
    w: &Walk<'a>,
    depth: u64,
    call: Builtin,
    sort: Sort,
    done: &Values,
) -> Result<Control<'a>, NoMemory>
    ensures { IfOk result (λ d. (r : ResolvedTree) → Uses r depth (purposes.Builtin call sort) done.now (state_of w.now) d (state_of w.now)) }
{
    built(alloc, &w.label, &w.caps, call, sort, done.as_slice())
}

fn next_tags<'a>(alloc: Global, depth: u64, rest: &'a [Expr], secrets: Values) -> Control<'a>
    ensures { (r : ResolvedTree) (s : State) → Uses r depth (purposes.Secrets rest.entry) secrets s result s }
{
    let done = Values::new(alloc);
    let using = Using::Vouchers { secrets };
    Control::Gather {
        depth,
        rest,
        done,
        using,
    }
}

fn labels<'a>(
    alloc: Global,
    depth: u64,
    secrets: &Values,
    done: &Values,
) -> Result<Control<'a>, NoMemory>
    ensures { IfOk result (λ d. (r : ResolvedTree) (s : State) → Uses r depth (purposes.Vouchers secrets.now) done.now s d s) }
{
    labelled(alloc, secrets.as_slice(), done.as_slice())
}

fn spawn<'a>(depth: u64, function: usize, caps: Value, done: Values) -> Control<'a>
    ensures { (r : ResolvedTree) (s : State) → Uses r depth (purposes.Spawn function caps) done s result s }
{
    spawns(function, caps, done)
}

/// Calls a function: it takes a unit, after the test that not too many calls are open.
fn call<'a>(
    program: &'a Resolved,
    w: &mut Walk<'a>,
    depth: u64,
    function: usize,
    args: Values,
) -> Result<Control<'a>, NoMemory>
    ensures { IfOk result (λ d. Uses (resolved_tree program.now) depth (purposes.Call function) args (state_of w.old) d (state_of w.new)) }
{
    if w.calls >= CALLS_LIMIT {
        return Ok(Control::Raise(Fault::Deep));
    }
    if w.units == 0 {
        return Ok(Control::Spent);
    }
    match program.functions.get(function) {
        None => Ok(Control::Broken),
        Some(callee) => call_of(w, depth, callee, args),
    }
}

fn call_of<'a>(
    w: &mut Walk<'a>,
    depth: u64,
    callee: &'a Function,
    args: Values,
) -> Result<Control<'a>, NoMemory>
    requires calls { w.old.calls < frames_limit }
    requires units { 0 < w.old.units }
    ensures { IfOk result (λ d. (r : ResolvedTree) (f : ℕ) → slice_get r.functions f ≡ Some (function_tree callee.now) → Uses r depth (purposes.Call f) args (state_of w.old) d (state_of w.new)) }
{
    if depth == 0 {
        return Ok(Control::Spent);
    }
    let depth = depth - 1;
    let locals = padded(args, callee.slots.len())?;
    let calls = w.calls;
    spend(w);
    let locals = begin_call(w, locals);
    push(w, Frame::Called { calls, locals })?;
    let rest = callee.body.as_slice();
    Ok(Control::Block { depth, rest })
}
