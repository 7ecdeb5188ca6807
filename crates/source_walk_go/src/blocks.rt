//! The continuation of frames of statements with blocks.

ghost use Rattle.std.specs.Prelude.{◌≡◌, ℕ, true, false, IfOk};
ghost use Rattle.source_walk_state.specs.declared.Region.{Region as TheRegion};
ghost use Rattle.lam_value.specs.declared.values.Value.{Value as TheValue};
ghost use Rattle.lam_value.specs.declared.values.Value.TheVariants as values;
ghost use Rattle.lam_asks.specs.Faults.{fault_number};
ghost use Rattle.source_walk_state.specs.declared.BeforeBlock.TheVariants as earlier;
ghost use Rattle.source_walk_state.specs.declared.BeforeRegion.TheVariants as part;
ghost use Rattle.source_walk_state.specs.declared.Frame.TheVariants as frames;
ghost use Rattle.source_walk_state.specs.declared.Control.TheVariants as controls;
ghost use Rattle.source_walk_parts.specs.States.{state_of, pushed, Always};
ghost use Rattle.source_walk_go.specs.Choices.{branch_control, enter_control};

use crate::delimiters::act;
use capabilities::Caps;
use flow_labels::Label;
use lam_asks::{Ask, Fault};
use lam_resolve_tree::{Expr, Stmt};
use lam_value::Value;
use source_walk_parts::{Walk, monitor, push, restore, set_local, spend, wait, wait_if_asked};
use source_walk_state::{BeforeBlock, BeforeRegion, Control, Frame, Outside, Region};
use want_of_memory::NoMemory;

/// One of two blocks, by a truth value.
pub fn branch<'a>(depth: u64, first: &'a [Stmt], other: &'a [Stmt], v: &Value) -> Control<'a>
    ensures { result ≡ branch_control depth first.entry other.entry v.now }
{
    match v {
        Value::Bool(true) => Control::Block { depth, rest: first },
        Value::Bool(false) => Control::Block { depth, rest: other },
        _ => Control::Broken,
    }
}

/// A turn of a loop, where its test was true: it takes a unit.
fn turn<'a>(
    w: &mut Walk<'a>,
    depth: u64,
    test: &'a Expr,
    body: &'a [Stmt],
) -> Result<Control<'a>, NoMemory>
    ensures { IfOk result (λ d. Always (controls.Give (values.Bool true)) (pushed (state_of w.old) (frames.Loop depth test.entry body.entry true)) d (state_of w.new)) }
{
    if w.units == 0 {
        return Ok(Control::Spent);
    }
    spend(w);
    let tested = false;
    push(
        w,
        Frame::Loop {
            depth,
            test,
            body,
            tested,
        },
    )?;
    Ok(Control::Block { depth, rest: body })
}

/// A turn of a loop, where its test was true, and else its end.
fn turn_if<'a>(
    w: &mut Walk<'a>,
    depth: u64,
    test: &'a Expr,
    body: &'a [Stmt],
    goes_on: bool,
) -> Result<Control<'a>, NoMemory>
    ensures { IfOk result (λ d. Always (controls.Give (values.Bool goes_on)) (pushed (state_of w.old) (frames.Loop depth test.entry body.entry true)) d (state_of w.new)) }
{
    if goes_on {
        turn(w, depth, test, body)
    } else {
        Ok(Control::Give(Value::Nothing))
    }
}

/// A loop after its test.
fn tested<'a>(
    w: &mut Walk<'a>,
    depth: u64,
    test: &'a Expr,
    body: &'a [Stmt],
    v: &Value,
) -> Result<Control<'a>, NoMemory>
    ensures { IfOk result (λ d. Always (controls.Give v.now) (pushed (state_of w.old) (frames.Loop depth test.entry body.entry true)) d (state_of w.new)) }
{
    match v {
        Value::Bool(goes_on) => turn_if(w, depth, test, body, *goes_on),
        _ => Ok(Control::Broken),
    }
}

/// A loop after a turn: its test again, one less deep.
fn again<'a>(
    w: &mut Walk<'a>,
    depth: u64,
    test: &'a Expr,
    body: &'a [Stmt],
) -> Result<Control<'a>, NoMemory>
    ensures { IfOk result (λ d. (v : TheValue) → Always (controls.Give v) (pushed (state_of w.old) (frames.Loop depth test.entry body.entry false)) d (state_of w.new)) }
{
    if depth == 0 {
        return Ok(Control::Spent);
    }
    let depth = depth - 1;
    let tested = true;
    wait(
        w,
        depth,
        test,
        Frame::Loop {
            depth,
            test,
            body,
            tested,
        },
    )
}

/// A loop, after its test or after a turn.
pub fn loop_on<'a>(
    w: &mut Walk<'a>,
    depth: u64,
    test: &'a Expr,
    body: &'a [Stmt],
    after_test: bool,
    v: &Value,
) -> Result<Control<'a>, NoMemory>
    ensures { IfOk result (λ d. Always (controls.Give v.now) (pushed (state_of w.old) (frames.Loop depth test.entry body.entry after_test)) d (state_of w.new)) }
{
    if after_test {
        tested(w, depth, test, body, v)
    } else {
        again(w, depth, test, body)
    }
}

/// The monitor of a thing is taken, and kept in a slot.
fn take<'a>(
    w: &mut Walk<'a>,
    depth: u64,
    body: &'a [Stmt],
    slot: usize,
    v: Value,
) -> Result<Control<'a>, NoMemory>
    ensures { IfOk result (λ d. Always (controls.Give v) (pushed (state_of w.old) (frames.Block depth body.entry (earlier.Thing slot))) d (state_of w.new)) }
{
    let kept = v.copy()?;
    set_local(w, slot, kept);
    let control = monitor(true, v);
    let before = BeforeBlock::Taking(slot);
    let taking = Frame::Block {
        depth,
        body,
        before,
    };
    match wait_if_asked(w, &control, taking) {
        Ok(()) => Ok(control),
        Err(problem) => {
            drop(control);
            Err(problem)
        }
    }
}

/// The body of a `sync`, whose monitor was taken.
fn hold<'a>(
    w: &mut Walk<'a>,
    depth: u64,
    rest: &'a [Stmt],
    slot: usize,
) -> Result<Control<'a>, NoMemory>
    ensures { IfOk result (λ d. (v : TheValue) → Always (controls.Give v) (pushed (state_of w.old) (frames.Block depth rest.entry (earlier.Taking slot))) d (state_of w.new)) }
{
    push(w, Frame::Held(slot))?;
    Ok(Control::Block { depth, rest })
}

/// A block comes after what is before it.
pub fn next_block<'a>(
    w: &mut Walk<'a>,
    depth: u64,
    rest: &'a [Stmt],
    before: BeforeBlock,
    v: Value,
) -> Result<Control<'a>, NoMemory>
    ensures { IfOk result (λ d. Always (controls.Give v) (pushed (state_of w.old) (frames.Block depth rest.entry before)) d (state_of w.new)) }
{
    match before {
        BeforeBlock::Statement => {
            drop(v);
            Ok(Control::Block { depth, rest })
        }
        BeforeBlock::Thing(slot) => take(w, depth, rest, slot, v),
        BeforeBlock::Taking(slot) => {
            drop(v);
            hold(w, depth, rest, slot)
        }
    }
}

/// A region is asked for, at a label with capabilities.
fn enter<'a>(depth: u64, region: Region<'a>, label: Value, c: Value) -> Control<'a>
    ensures { result ≡ enter_control depth region.entry label c }
{
    match label {
        Value::Lab(label) => enter_at(depth, region, label, c),
        Value::Nothing => enter_nowhere(&c),
        _ => Control::Broken,
    }
}

fn enter_at<'a>(depth: u64, region: Region<'a>, label: Label, c: Value) -> Control<'a>
    ensures { result ≡ enter_control depth region.entry (values.Lab label) c }
{
    match c {
        Value::CapV { plus, minus } => {
            let caps = Caps { plus, minus };
            Control::Enter {
                depth,
                label,
                caps,
                region,
            }
        }
        Value::Nothing => Control::Raise(Fault::Null),
        _ => Control::Broken,
    }
}

/// No region is asked for, without a label.
fn enter_nowhere<'a>(c: &Value) -> Control<'a>
    ensures { (depth : ℕ) (x : TheRegion) → result ≡ enter_control depth x values.Nothing c.now }
{
    match c {
        Value::CapV { .. } => Control::Raise(Fault::Null),
        Value::Nothing => Control::Raise(Fault::Null),
        _ => Control::Broken,
    }
}

/// A fault as a value: its number.
fn number_of(fault: Fault) -> Value
    ensures { result ≡ values.Int (fault_number fault) }
{
    Value::Int(fault.number())
}

/// The catch block of a region, whose fault was caught.
fn handle<'a>(
    w: &mut Walk<'a>,
    depth: u64,
    region: Region<'a>,
    fault: Fault,
    outside: Outside,
) -> Result<Control<'a>, NoMemory>
    ensures { IfOk result (λ d. (v : TheValue) → Always (controls.Give v) (pushed (state_of w.old) (frames.Region depth region.entry (part.Caught fault outside))) d (state_of w.new)) }
{
    set_local(w, region.catch_slot, number_of(fault));
    push(w, Frame::Catch { outside })?;
    let rest = region.catch_body;
    Ok(Control::Block { depth, rest })
}

/// A part of a region comes after what is before it.
pub fn region_on<'a>(
    w: &mut Walk<'a>,
    depth: u64,
    region: Region<'a>,
    before: BeforeRegion<'a>,
    v: Value,
) -> Result<Control<'a>, NoMemory>
    ensures { IfOk result (λ d. Always (controls.Give v) (pushed (state_of w.old) (frames.Region depth region.entry before.entry)) d (state_of w.new)) }
{
    match before {
        BeforeRegion::Label(caps) => label_given(w, depth, region, caps, v),
        BeforeRegion::Caps(label) => Ok(enter(depth, region, label, v)),
        BeforeRegion::Body(outside) => {
            drop(v);
            Ok(end_body(w, outside))
        }
        BeforeRegion::Caught(fault, outside) => {
            drop(v);
            handle(w, depth, region, fault, outside)
        }
    }
}

fn label_given<'a>(
    w: &mut Walk<'a>,
    depth: u64,
    region: Region<'a>,
    caps: &'a Expr,
    label: Value,
) -> Result<Control<'a>, NoMemory>
    ensures { IfOk result (λ d. Always (controls.Give label) (pushed (state_of w.old) (frames.Region depth region.entry (part.Label caps.entry))) d (state_of w.new)) }
{
    let before = BeforeRegion::Caps(label);
    wait(
        w,
        depth,
        caps,
        Frame::Region {
            depth,
            region,
            before,
        },
    )
}

/// A region's body ends.
fn end_body<'a>(w: &mut Walk<'a>, outside: Outside) -> Control<'a>
    ensures { (v : TheValue) (depth : ℕ) (x : TheRegion) → Always (controls.Give v) (pushed (state_of w.old) (frames.Region depth x (part.Body outside))) result (state_of w.new) }
{
    restore(w, outside);
    act(Ask::Leave)
}
