//! The state of a walk beside its control.

ghost use Rattle.std.specs.Prelude.{◌≡◌, ◌<◌, ◌-◌, [], IfOk, OnOk, MatchOption, slice_get, ◌^◌};
ghost use Rattle.lam_meaning.specs.Trees.{value_or_null};
ghost use Rattle.lam_meaning.specs.Means.{inside};
ghost use Rattle.source_walk_state.specs.Meaning.{place_of, own_of};
ghost use Rattle.source_walk_state.specs.declared.Control.TheVariants as control;
ghost use Rattle.source_walk_parts.specs.States.{state_of, pushed, local_set, outside_of, returned, at_place, called, with_units, IsWaiting, begun};

use capabilities::Caps;
use flow_labels::Label;
use lam_resolve_tree::Expr;
use lam_value::{Value, Values};
use source_walk_state::{Control, Frame, Outside};
use std::mem::replace;
use want_of_memory::NoMemory;

/// What a walk keeps beside its control.
#[derive(Drop)]
pub struct Walk<'a> {
    /// The frames, the next one last.
    pub frames: Vec<Frame<'a>>,
    /// The label of the context.
    pub label: Label,
    /// How many calls of the context are open.
    pub calls: u64,
    /// How many units are left, for turns of loops and for calls.
    pub units: u64,
    /// The locals of the acting call.
    pub locals: Values,
    /// The capabilities of the context.
    pub caps: Caps,
}

/// Puts a frame before those that are there.
///
/// # Errors
///
/// `NoMemory` where memory is refused.
pub fn push<'a>(w: &mut Walk<'a>, frame: Frame<'a>) -> Result<(), NoMemory>
    ensures { OnOk result (state_of w.new ≡ pushed (state_of w.old) frame.entry) }
{
    w.frames.push(frame)?;
    Ok(())
}

/// Takes the next frame, where there is one.
pub fn pop<'a>(w: &mut Walk<'a>) -> Option<Frame<'a>>
    ensures { MatchOption result (((state_of w.old).frames ≡ []) × (state_of w.new ≡ state_of w.old)) (λ f. state_of w.old ≡ pushed (state_of w.new) f) }
{
    w.frames.pop()
}

/// An expression comes now, and a frame waits for its value.
///
/// # Errors
///
/// `NoMemory` where memory is refused.
pub fn wait<'a>(
    w: &mut Walk<'a>,
    depth: u64,
    e: &'a Expr,
    frame: Frame<'a>,
) -> Result<Control<'a>, NoMemory>
    ensures { IfOk result (λ c. IsWaiting (control.Eval depth e.entry) frame.entry (state_of w.old) c (state_of w.new)) }
{
    push(w, frame)?;
    Ok(Control::Eval { depth, e })
}

/// A copy of a local, null where there is none.
///
/// # Errors
///
/// `NoMemory` where memory is refused.
pub fn local_of(locals: &Values, slot: usize) -> Result<Value, NoMemory>
    ensures { IfOk result (λ v. v ≡ value_or_null (slice_get locals.now slot)) }
{
    match locals.get(slot as u64) {
        None => Ok(Value::Nothing),
        Some(value) => value.copy(),
    }
}

/// A local gets a value.
pub fn set_local(w: &mut Walk<'_>, slot: usize, value: Value)
    ensures { state_of w.new ≡ local_set (state_of w.old) slot value }
{
    drop(w.locals.set(slot as u64, value));
}

/// Takes a unit, where one is left.
pub fn spend(w: &mut Walk<'_>)
    requires { 0 < w.old.units }
    ensures { state_of w.new ≡ with_units (state_of w.old) (w.old.units - 1) }
{
    w.units -= 1;
}

/// The context of a region begins. The answer is what stood around it.
pub fn begin_region(w: &mut Walk<'_>, label: Label, caps: Caps, locals: Values) -> Outside
    ensures place { place_of result ≡ (state_of w.old).place }
    ensures own { own_of result ≡ (state_of w.old).own }
    ensures state { state_of w.new ≡ begun (state_of w.old) label caps locals }
{
    Outside {
        label: replace(&mut w.label, label),
        calls: replace(&mut w.calls, 1),
        locals: replace(&mut w.locals, locals),
        caps: replace(&mut w.caps, caps),
    }
}

/// What stood around a region comes back.
pub fn restore(w: &mut Walk<'_>, outside: Outside)
    ensures { state_of w.new ≡ outside_of (state_of w.old) outside }
{
    let Outside {
        label,
        calls,
        locals,
        caps,
    } = outside;
    w.calls = calls;
    drop(replace(&mut w.label, label));
    drop(replace(&mut w.locals, locals));
    drop(replace(&mut w.caps, caps));
}

/// A call ends: its caller's locals come back.
pub fn return_to(w: &mut Walk<'_>, calls: u64, locals: Values)
    ensures { state_of w.new ≡ returned (state_of w.old) calls locals }
{
    w.calls = calls;
    drop(replace(&mut w.locals, locals));
}

/// The context goes on at another place, with what it has of its own.
pub fn go_to(w: &mut Walk<'_>, label: Label, calls: u64)
    ensures { state_of w.new ≡ at_place (state_of w.old) (record { label = label; calls = calls }) }
{
    w.calls = calls;
    drop(replace(&mut w.label, label));
}

/// A call begins, with its locals. The answer is those of its caller.
pub fn begin_call(w: &mut Walk<'_>, locals: Values) -> Values
    requires { w.old.calls < 2 ^ 64 - 1 }
    ensures outer { result ≡ (state_of w.old).own.locals }
    ensures state { state_of w.new ≡ called (state_of w.old) locals }
{
    w.calls += 1;
    replace(&mut w.locals, locals)
}
