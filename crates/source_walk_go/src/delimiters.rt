//! Delimiters, the ends of calls and regions, which stop faults and returns.

ghost use Rattle.std.specs.Prelude.{◌≡◌, ℕ, List, IfOk};
ghost use Rattle.lam_asks.specs.declared.fault.Fault.{Fault as TheFault};
ghost use Rattle.source_walk_state.specs.declared.Region.{Region as TheRegion};
ghost use Rattle.lam_value.specs.declared.values.Value.{Value as TheValue};
ghost use Rattle.source_walk_state.specs.declared.Sort.TheVariants as sorts;
ghost use Rattle.source_walk_state.specs.declared.Reply.TheVariants as replies;
ghost use Rattle.source_walk_state.specs.declared.BeforeRegion.TheVariants as part;
ghost use Rattle.source_walk_state.specs.declared.Frame.TheVariants as frames;
ghost use Rattle.source_walk_state.specs.declared.Control.TheVariants as controls;
ghost use Rattle.source_walk_parts.specs.States.{State, state_of, pushed, Always};
ghost use Rattle.source_walk_go.specs.Choices.{is_region_delimiter, is_region_end};

use lam_asks::{Ask, Fault, Outcome};
use lam_value::{Value, Values};
use source_walk_parts::{
    Walk, go_to, local_of, monitor, pop, push, restore, return_to, wait_if_asked,
};
use source_walk_state::{BeforeRegion, Control, Frame, Outside, Region, Reply, Sort};
use want_of_memory::NoMemory;

/// An ask that is done and has no value.
pub fn act<'a>(ask: Ask) -> Control<'a>
    ensures { result ≡ controls.Ask ask sorts.Number replies.Done }
{
    Control::Ask {
        ask,
        sort: Sort::Number,
        reply: Reply::Done,
    }
}

/// A call ends where no `return` comes.
pub fn end_call<'a>(w: &mut Walk<'a>, calls: u64, locals: Values) -> Control<'a>
    ensures { (v : TheValue) → Always (controls.Give v) (pushed (state_of w.old) (frames.Called calls locals)) result (state_of w.new) }
{
    return_to(w, calls, locals);
    Control::Give(Value::Nothing)
}

/// A region's catch block ends.
pub fn end_region<'a>(w: &mut Walk<'a>, outside: Outside) -> Control<'a>
    ensures { (v : TheValue) → Always (controls.Give v) (pushed (state_of w.old) (frames.Catch outside)) result (state_of w.new) }
{
    restore(w, outside);
    act(Ask::Leave)
}

/// A fault goes to the next frame. With no frame the thread ends.
///
/// # Errors
///
/// `NoMemory` where memory is refused.
pub fn raise<'a>(w: &mut Walk<'a>, fault: Fault) -> Result<Control<'a>, NoMemory>
    ensures { IfOk result (λ d. Always (controls.Raise fault) (state_of w.old) d (state_of w.new)) }
{
    match pop(w) {
        None => Ok(Control::End(Outcome::Failed(fault))),
        Some(frame) => raise_to(w, frame, fault),
    }
}

/// A fault goes to a frame.
fn raise_to<'a>(w: &mut Walk<'a>, frame: Frame<'a>, fault: Fault) -> Result<Control<'a>, NoMemory>
    ensures { IfOk result (λ d. Always (controls.Raise fault) (pushed (state_of w.old) frame.entry) d (state_of w.new)) }
{
    match frame {
        Frame::Called { calls, locals } => Ok(fail_call(w, fault, calls, locals)),
        Frame::Region {
            depth,
            region,
            before,
        } => fail_region(w, fault, depth, region, before),
        Frame::Catch { outside } => Ok(suppress(w, fault, outside)),
        other => {
            drop(other);
            Ok(Control::Raise(fault))
        }
    }
}

fn fail_call<'a>(w: &mut Walk<'a>, fault: Fault, calls: u64, locals: Values) -> Control<'a>
    ensures { Always (controls.Raise fault) (pushed (state_of w.old) (frames.Called calls locals)) result (state_of w.new) }
{
    return_to(w, calls, locals);
    Control::Raise(fault)
}

/// A fault in a catch block.
fn suppress<'a>(w: &mut Walk<'a>, fault: Fault, outside: Outside) -> Control<'a>
    ensures { Always (controls.Raise fault) (pushed (state_of w.old) (frames.Catch outside)) result (state_of w.new) }
{
    restore(w, outside);
    act(Ask::Suppressed(fault))
}

/// A fault in the body of a region is caught.
fn catch<'a>(
    w: &mut Walk<'a>,
    fault: Fault,
    depth: u64,
    region: Region<'a>,
    outside: Outside,
) -> Result<Control<'a>, NoMemory>
    ensures { IfOk result (λ d. Always (controls.Raise fault) (pushed (state_of w.old) (frames.Region depth region.entry (part.Body outside))) d (state_of w.new)) }
{
    let before = BeforeRegion::Caught(fault, outside);
    push(
        w,
        Frame::Region {
            depth,
            region,
            before,
        },
    )?;
    Ok(act(Ask::Caught(fault)))
}

/// A fault before the catch block of a region, whose fault was to be caught.
fn fail_outside<'a>(w: &mut Walk<'a>, fault: Fault, outside: Outside) -> Control<'a>
    ensures { (depth : ℕ) (x : TheRegion) (g : TheFault) → Always (controls.Raise fault) (pushed (state_of w.old) (frames.Region depth x (part.Caught g outside))) result (state_of w.new) }
{
    let Outside {
        label,
        calls,
        locals: _,
        caps: _,
    } = outside;
    go_to(w, label, calls);
    Control::Raise(fault)
}

/// A fault goes to a part of a region.
fn fail_region<'a>(
    w: &mut Walk<'a>,
    fault: Fault,
    depth: u64,
    region: Region<'a>,
    before: BeforeRegion<'a>,
) -> Result<Control<'a>, NoMemory>
    ensures { IfOk result (λ d. Always (controls.Raise fault) (pushed (state_of w.old) (frames.Region depth region.entry before.entry)) d (state_of w.new)) }
{
    match before {
        BeforeRegion::Label(_) => Ok(Control::Raise(fault)),
        BeforeRegion::Caps(_) => Ok(Control::Raise(fault)),
        BeforeRegion::Body(outside) => catch(w, fault, depth, region, outside),
        BeforeRegion::Caught(_, outside) => Ok(fail_outside(w, fault, outside)),
    }
}

/// A `return` goes to the next frame, with its value. With no frame the thread ends.
///
/// # Errors
///
/// `NoMemory` where memory is refused.
pub fn leave<'a>(w: &mut Walk<'a>, v: Value) -> Result<Control<'a>, NoMemory>
    ensures { IfOk result (λ d. Always (controls.Leave v) (state_of w.old) d (state_of w.new)) }
{
    match pop(w) {
        None => Ok(Control::End(Outcome::Value(v))),
        Some(frame) => leave_to(w, frame, v),
    }
}

/// Whether a frame is a delimiter of a region, which no `return` comes to.
fn is_region_delimiter(frame: &Frame<'_>) -> bool
    ensures { result ≡ is_region_delimiter frame.now }
{
    match frame {
        Frame::Region { before, .. } => is_region_end(before),
        Frame::Catch { .. } => true,
        _ => false,
    }
}

fn is_region_end(before: &BeforeRegion<'_>) -> bool
    ensures { result ≡ is_region_end before.now }
{
    match before {
        BeforeRegion::Label(_) => false,
        BeforeRegion::Caps(_) => false,
        BeforeRegion::Body(_) => true,
        BeforeRegion::Caught(_, _) => true,
    }
}

/// A `return` past a frame that is no call's and holds no monitor.
fn leave_past<'a>(frame: &Frame<'a>, v: Value) -> Control<'a>
    ensures { (s : State) → ((slot : ℕ) → frame.now ≡ frames.Held slot → ⊥) → ((calls : ℕ) (ls : List TheValue) → frame.now ≡ frames.Called calls ls → ⊥) → Always (controls.Leave v) (pushed s frame.now) result s }
{
    if is_region_delimiter(frame) {
        drop(v);
        Control::Broken
    } else {
        Control::Leave(v)
    }
}

/// A `return` goes to a frame.
fn leave_to<'a>(w: &mut Walk<'a>, frame: Frame<'a>, v: Value) -> Result<Control<'a>, NoMemory>
    ensures { IfOk result (λ d. Always (controls.Leave v) (pushed (state_of w.old) frame.entry) d (state_of w.new)) }
{
    match frame {
        Frame::Held(slot) => give_back(w, slot, v),
        Frame::Called { calls, locals } => Ok(leave_call(w, calls, locals, v)),
        other => {
            let control = leave_past(&other, v);
            drop(other);
            Ok(control)
        }
    }
}

fn leave_call<'a>(w: &mut Walk<'a>, calls: u64, locals: Values, v: Value) -> Control<'a>
    ensures { Always (controls.Leave v) (pushed (state_of w.old) (frames.Called calls locals)) result (state_of w.new) }
{
    return_to(w, calls, locals);
    Control::Give(v)
}

/// The monitor of a `sync` is given back, before a `return` goes on.
fn give_back<'a>(w: &mut Walk<'a>, slot: usize, v: Value) -> Result<Control<'a>, NoMemory>
    ensures { IfOk result (λ d. Always (controls.Leave v) (pushed (state_of w.old) (frames.Held slot)) d (state_of w.new)) }
{
    let thing = local_of(&w.locals, slot)?;
    let control = monitor(false, thing);
    match wait_if_asked(w, &control, Frame::Leaving(v)) {
        Ok(()) => Ok(control),
        Err(problem) => {
            drop(control);
            Err(problem)
        }
    }
}
