//! The first state of a walk: a function with its arguments, and no frames.

ghost use Rattle.std.specs.Prelude.{◌≡◌, ℕ, Some, slice_get, IfOk};
ghost use Rattle.lam_resolve_tree.specs.Tree.{function_tree, resolved_tree, ResolvedTree};
ghost use Rattle.lam_meaning.specs.Means.{means};
ghost use Rattle.source_walk_parts.specs.States.{state_of, left_at};
ghost use Rattle.source_walk_follow.specs.Standing.{first_state};

use capabilities::Caps;
use flow_labels::Label;
use lam_resolve_tree::{Function, Resolved};
use lam_value::Values;
use source_walk_parts::{Walk, padded};
use source_walk_state::{Beginning, Control};
use std::alloc::Global;
use want_of_memory::NoMemory;

/// A walk, and what it does now.
#[derive(Drop)]
pub struct Walking<'a> {
    pub walk: Walk<'a>,
    pub control: Control<'a>,
}

/// A walk that stands at a control, with these locals and capabilities and no frame.
fn walk_at<'a>(
    alloc: Global,
    control: Control<'a>,
    units: u64,
    locals: Values,
    caps: Caps,
) -> Walking<'a>
    ensures control { result.control ≡ control.entry }
    ensures state { state_of result.walk ≡ first_state units locals caps }
{
    Walking {
        walk: Walk {
            frames: Vec::new(alloc),
            label: Label::public(alloc),
            calls: 1,
            units,
            locals,
            caps,
        },
        control,
    }
}

/// The body of a function, with arguments.
fn body_of<'a>(
    alloc: Global,
    callee: &'a Function,
    units: u64,
    args: Values,
    caps: Caps,
) -> Result<Walking<'a>, NoMemory>
    ensures { IfOk result (λ g. (r : ResolvedTree) (f : ℕ) → slice_get r.functions f ≡ Some (function_tree callee.now) → left_at r g.control (state_of g.walk) ≡ means r units f args caps) }
{
    let locals = padded(args, callee.slots.len())?;
    let depth = units;
    let rest = callee.body.as_slice();
    let control = Control::Block { depth, rest };
    Ok(walk_at(alloc, control, units, locals, caps))
}

/// A walk of a thread from its beginning on, with so many units.
///
/// # Errors
///
/// `NoMemory` where memory is refused.
pub fn begin_walk<'a>(
    alloc: Global,
    program: &'a Resolved,
    begin: &Beginning,
    units: u64,
) -> Result<Walking<'a>, NoMemory>
    ensures { IfOk result (λ g. left_at (resolved_tree program.now) g.control (state_of g.walk) ≡ means (resolved_tree program.now) units begin.now.function begin.now.args begin.now.caps) }
{
    let args = begin.args.copy()?;
    let caps = begin.caps.copy()?;
    match program.functions.get(begin.function as usize) {
        None => Ok(walk_at(alloc, Control::Broken, units, args, caps)),
        Some(callee) => body_of(alloc, callee, units, args, caps),
    }
}
