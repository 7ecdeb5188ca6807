//! The way of a walk to where it stands: its steps that ask nothing.

ghost use Rattle.std.specs.Prelude.{◌≡◌, ◌<◌, ◌⊎◌, true, false, IfOk};
ghost use Rattle.lam_resolve_tree.specs.Tree.{resolved_tree, exprs_tree};
ghost use Rattle.source_walk_parts.specs.States.{state_of, left_at, Goes};
ghost use Rattle.source_walk_state.specs.declared.Control.TheVariants as controls;
ghost use Rattle.source_walk_follow.specs.Standing.{stands};

use lam_resolve_tree::{Expr, Resolved};
use lam_value::Values;
use source_walk_go::{give, leave, raise, use_all};
use source_walk_open::{block, eval, exec, next_arg};
use source_walk_parts::Walk;
use source_walk_state::{Control, Using};
use std::alloc::Global;
use want_of_memory::NoMemory;

/// Whether a walk stands: it asks, or asks no more.
pub fn stands(control: &Control<'_>) -> bool
    ensures { result ≡ stands control.now }
{
    match control {
        Control::Eval { .. } => false,
        Control::Gather { .. } => false,
        Control::Exec { .. } => false,
        Control::Block { .. } => false,
        Control::Give(_) => false,
        Control::Raise(_) => false,
        Control::Leave(_) => false,
        _ => true,
    }
}

/// The next of some arguments, or their use.
fn gather<'a>(
    alloc: Global,
    program: &'a Resolved,
    w: &mut Walk<'a>,
    depth: u64,
    rest: &'a [Expr],
    done: Values,
    using: Using<'a>,
) -> Result<Control<'a>, NoMemory>
    ensures { IfOk result (λ d. Goes (resolved_tree program.now) (controls.Gather depth rest.entry done «using».entry) (state_of w.old) d (state_of w.new)) }
{
    match rest.split_first() {
        None => use_all(alloc, program, w, depth, done, using),
        Some((first, rest)) => next_arg(w, depth, first, rest, done, using),
    }
}

/// One step.
fn step<'a>(
    alloc: Global,
    program: &'a Resolved,
    w: &mut Walk<'a>,
    control: Control<'a>,
) -> Result<Control<'a>, NoMemory>
    requires { stands control ≡ false }
    ensures { IfOk result (λ d. Goes (resolved_tree program.now) control.entry (state_of w.old) d (state_of w.new)) }
{
    match control {
        Control::Eval { depth, e } => eval(alloc, w, depth, e),
        Control::Gather {
            depth,
            rest,
            done,
            using,
        } => gather(alloc, program, w, depth, rest, done, using),
        Control::Exec { depth, s } => exec(w, depth, s),
        Control::Block { depth, rest } => block(w, depth, rest),
        Control::Give(v) => give(alloc, w, v),
        Control::Raise(fault) => raise(w, fault),
        Control::Leave(v) => leave(w, v),
        _ => Ok(control),
    }
}

/// Steps while no unit is taken, up to where the walk stands.
fn run_on<'a>(
    alloc: Global,
    program: &'a Resolved,
    w: &mut Walk<'a>,
    control: Control<'a>,
) -> Result<Control<'a>, NoMemory>
    ensures left { IfOk result (λ d. left_at (resolved_tree program.now) d (state_of w.new) ≡ left_at (resolved_tree program.now) control.entry (state_of w.old)) }
    ensures less { IfOk result (λ d. (stands d ≡ true) ⊎ ((state_of w.new).units < (state_of w.old).units)) }
{
    let units = w.units;
    let mut control = control;
    while !stands(&control) && w.units == units {
        control = step(alloc, program, w, control)?;
    }
    Ok(control)
}

/// Steps up to where the walk stands. What is asked is as before.
///
/// # Errors
///
/// `NoMemory` where memory is refused.
pub fn settle<'a>(
    alloc: Global,
    program: &'a Resolved,
    w: &mut Walk<'a>,
    control: Control<'a>,
) -> Result<Control<'a>, NoMemory>
    ensures left { IfOk result (λ d. left_at (resolved_tree program.now) d (state_of w.new) ≡ left_at (resolved_tree program.now) control.entry (state_of w.old)) }
    ensures stands { IfOk result (λ d. stands d ≡ true) }
{
    let mut control = control;
    while !stands(&control) {
        control = run_on(alloc, program, w, control)?;
    }
    Ok(control)
}
