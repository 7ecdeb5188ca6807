//! The continuation of the next frame with a value.

ghost use Rattle.std.specs.Prelude.{◌≡◌, ◌++◌, ◌∷◌, [], IfOk};
ghost use Rattle.lam_value.specs.declared.values.Value.{Value as TheValue};
ghost use Rattle.source_walk_state.specs.declared.BeforeExpr.TheVariants as earlier;
ghost use Rattle.source_walk_state.specs.declared.Frame.TheVariants as frames;
ghost use Rattle.source_walk_state.specs.declared.Control.TheVariants as controls;
ghost use Rattle.source_walk_parts.specs.States.{State, state_of, pushed, Always};
ghost use Rattle.source_walk_go.specs.Choices.{and_control, or_control};

use crate::blocks::{branch, loop_on, next_block, region_on};
use crate::delimiters::{end_call, end_region};
use lam_asks::{Fault, Outcome};
use lam_operators::{BinaryOp, UnaryOp};
use lam_resolve_tree::Expr;
use lam_value::{Kind, Value, Values};
use source_walk_parts::{
    Walk, Way, element_access, field_access, local_of, monitor, new_array, operated, pop, prefixed,
    reads, set_local, thrown, wait, writes,
};
use source_walk_state::{BeforeExpr, Control, Frame, Sort, Using};
use std::alloc::Global;
use want_of_memory::NoMemory;

/// A value goes to the next frame. With no frame the thread ends.
///
/// # Errors
///
/// `NoMemory` where memory is refused.
pub fn give<'a>(alloc: Global, w: &mut Walk<'a>, v: Value) -> Result<Control<'a>, NoMemory>
    ensures { IfOk result (λ d. Always (controls.Give v) (state_of w.old) d (state_of w.new)) }
{
    match pop(w) {
        None => Ok(Control::End(Outcome::Value(Value::Nothing))),
        Some(frame) => give_to(alloc, w, frame, v),
    }
}

/// A value goes to a frame.
fn give_to<'a>(
    alloc: Global,
    w: &mut Walk<'a>,
    frame: Frame<'a>,
    v: Value,
) -> Result<Control<'a>, NoMemory>
    ensures { IfOk result (λ d. Always (controls.Give v) (pushed (state_of w.old) frame.entry) d (state_of w.new)) }
{
    match frame {
        Frame::Prefix(op) => {
            let control = to_prefix(alloc, op, &v);
            drop(v);
            control
        }
        Frame::Operate { op, left } => {
            let control = to_operator(alloc, op, &left, &v);
            drop(left);
            drop(v);
            control
        }
        Frame::Field { at, sort } => to_field(w, at, sort, v),
        Frame::Element { array, sort } => to_element(w, array, sort, v),
        Frame::Length(kind) => {
            let control = to_length(kind, &v);
            drop(v);
            Ok(control)
        }
        Frame::Expr { depth, e, before } => to_expr(w, depth, e, before, v),
        Frame::Spawn {
            depth,
            function,
            args,
        } => Ok(to_spawn(alloc, depth, function, args, v)),
        Frame::Args {
            depth,
            rest,
            done,
            using,
        } => to_args(depth, rest, done, using, v),
        Frame::Assign(slot) => Ok(to_local(w, slot, v)),
        Frame::Drop => {
            drop(v);
            Ok(Control::Give(Value::Nothing))
        }
        Frame::SetField { at, object } => to_set_field(w, at, object, v),
        Frame::Index {
            depth,
            index,
            value,
        } => to_index(w, depth, index, value, v),
        Frame::SetElement { array, index } => {
            let control = to_set_element(w, array, &index, v);
            drop(index);
            control
        }
        Frame::Return => Ok(Control::Leave(v)),
        Frame::Throw => {
            let control = to_throw(&v);
            drop(v);
            Ok(control)
        }
        Frame::Branch {
            depth,
            first,
            other,
        } => {
            let control = branch(depth, first, other, &v);
            drop(v);
            Ok(control)
        }
        Frame::Loop {
            depth,
            test,
            body,
            tested,
        } => {
            let control = loop_on(w, depth, test, body, tested, &v);
            drop(v);
            control
        }
        Frame::Block {
            depth,
            body,
            before,
        } => next_block(w, depth, body, before, v),
        Frame::Held(slot) => {
            drop(v);
            to_held(w, slot)
        }
        Frame::Region {
            depth,
            region,
            before,
        } => region_on(w, depth, region, before, v),
        Frame::Bar => {
            drop(v);
            Ok(Control::Raise(Fault::Denied))
        }
        Frame::Leaving(value) => {
            drop(v);
            Ok(Control::Leave(value))
        }
        Frame::Called { calls, locals } => {
            drop(v);
            Ok(end_call(w, calls, locals))
        }
        Frame::Catch { outside } => {
            drop(v);
            Ok(end_region(w, outside))
        }
    }
}

fn to_prefix<'a>(alloc: Global, op: UnaryOp, v: &Value) -> Result<Control<'a>, NoMemory>
    ensures { IfOk result (λ d. (s : State) → Always (controls.Give v.now) (pushed s (frames.Prefix op)) d s) }
{
    prefixed(alloc, op, v)
}

fn to_operator<'a>(
    alloc: Global,
    op: BinaryOp,
    left: &Value,
    v: &Value,
) -> Result<Control<'a>, NoMemory>
    ensures { IfOk result (λ d. (s : State) → Always (controls.Give v.now) (pushed s (frames.Operate op left.now)) d s) }
{
    operated(alloc, op, left, v)
}

fn to_field<'a>(w: &mut Walk<'a>, at: usize, sort: Sort, v: Value) -> Result<Control<'a>, NoMemory>
    ensures { IfOk result (λ d. Always (controls.Give v) (pushed (state_of w.old) (frames.Field at sort)) d (state_of w.new)) }
{
    let access = field_access(Way::Reads, &w.label, v, at);
    reads(w, access, sort)
}

fn to_element<'a>(
    w: &mut Walk<'a>,
    array: Value,
    sort: Sort,
    v: Value,
) -> Result<Control<'a>, NoMemory>
    ensures { IfOk result (λ d. Always (controls.Give v) (pushed (state_of w.old) (frames.Element array sort)) d (state_of w.new)) }
{
    let access = element_access(Way::Reads, &w.label, array, &v);
    drop(v);
    reads(w, access, sort)
}

fn to_length<'a>(kind: Kind, v: &Value) -> Control<'a>
    ensures { (s : State) → Always (controls.Give v.now) (pushed s (frames.Length kind)) result s }
{
    new_array(kind, v)
}

/// The second operand of `&&`, where the first is true.
fn to_and<'a>(depth: u64, e: &'a Expr, v: &Value) -> Control<'a>
    ensures { result ≡ and_control depth e.entry v.now }
{
    match v {
        Value::Bool(true) => Control::Eval { depth, e },
        Value::Bool(false) => Control::Give(Value::Bool(false)),
        _ => Control::Broken,
    }
}

/// The second operand of `||`, where the first is false.
fn to_or<'a>(depth: u64, e: &'a Expr, v: &Value) -> Control<'a>
    ensures { result ≡ or_control depth e.entry v.now }
{
    match v {
        Value::Bool(true) => Control::Give(Value::Bool(true)),
        Value::Bool(false) => Control::Eval { depth, e },
        _ => Control::Broken,
    }
}

fn to_operand<'a>(
    w: &mut Walk<'a>,
    depth: u64,
    e: &'a Expr,
    op: BinaryOp,
    v: Value,
) -> Result<Control<'a>, NoMemory>
    ensures { IfOk result (λ d. Always (controls.Give v) (pushed (state_of w.old) (frames.Expr depth e.entry (earlier.Left op))) d (state_of w.new)) }
{
    match op {
        BinaryOp::And => {
            let control = to_and(depth, e, &v);
            drop(v);
            Ok(control)
        }
        BinaryOp::Or => {
            let control = to_or(depth, e, &v);
            drop(v);
            Ok(control)
        }
        _ => wait(w, depth, e, Frame::Operate { op, left: v }),
    }
}

/// An expression comes after the value of the one before it.
fn to_expr<'a>(
    w: &mut Walk<'a>,
    depth: u64,
    e: &'a Expr,
    before: BeforeExpr,
    v: Value,
) -> Result<Control<'a>, NoMemory>
    ensures { IfOk result (λ d. Always (controls.Give v) (pushed (state_of w.old) (frames.Expr depth e.entry before)) d (state_of w.new)) }
{
    match before {
        BeforeExpr::Left(op) => to_operand(w, depth, e, op, v),
        BeforeExpr::OfElement(sort) => wait(w, depth, e, Frame::Element { array: v, sort }),
        BeforeExpr::OfField(at) => wait(w, depth, e, Frame::SetField { at, object: v }),
        BeforeExpr::OfIndex(array) => wait(w, depth, e, Frame::SetElement { array, index: v }),
    }
}

fn to_spawn<'a>(
    alloc: Global,
    depth: u64,
    function: usize,
    rest: &'a [Expr],
    caps: Value,
) -> Control<'a>
    ensures { (s : State) → Always (controls.Give caps) (pushed s (frames.Spawn depth function rest.entry)) result s }
{
    let done = Values::new(alloc);
    let using = Using::Spawn { function, caps };
    Control::Gather {
        depth,
        rest,
        done,
        using,
    }
}

fn to_args<'a>(
    depth: u64,
    rest: &'a [Expr],
    done: Values,
    using: Using<'a>,
    v: Value,
) -> Result<Control<'a>, NoMemory>
    ensures { IfOk result (λ d. (s : State) → Always (controls.Give v) (pushed s (frames.Args depth rest.entry done «using».entry)) d s) }
{
    match with_value(done, v) {
        Ok(all) => Ok(Control::Gather {
            depth,
            rest,
            done: all,
            using,
        }),
        Err(problem) => {
            drop(using);
            Err(problem)
        }
    }
}

/// A value behind those that are done.
fn with_value(done: Values, v: Value) -> Result<Values, NoMemory>
    ensures { IfOk result (λ vs. vs ≡ done ++ v ∷ []) }
{
    let mut all = done;
    all.push(v)?;
    Ok(all)
}

fn to_local<'a>(w: &mut Walk<'a>, slot: usize, v: Value) -> Control<'a>
    ensures { Always (controls.Give v) (pushed (state_of w.old) (frames.Assign slot)) result (state_of w.new) }
{
    set_local(w, slot, v);
    Control::Give(Value::Nothing)
}

fn to_set_field<'a>(
    w: &mut Walk<'a>,
    at: usize,
    object: Value,
    v: Value,
) -> Result<Control<'a>, NoMemory>
    ensures { IfOk result (λ d. Always (controls.Give v) (pushed (state_of w.old) (frames.SetField at object)) d (state_of w.new)) }
{
    let access = field_access(Way::Writes, &w.label, object, at);
    writes(w, access, v)
}

fn to_index<'a>(
    w: &mut Walk<'a>,
    depth: u64,
    index: &'a Expr,
    value: &'a Expr,
    array: Value,
) -> Result<Control<'a>, NoMemory>
    ensures { IfOk result (λ d. Always (controls.Give array) (pushed (state_of w.old) (frames.Index depth index.entry value.entry)) d (state_of w.new)) }
{
    let before = BeforeExpr::OfIndex(array);
    wait(
        w,
        depth,
        index,
        Frame::Expr {
            depth,
            e: value,
            before,
        },
    )
}

fn to_set_element<'a>(
    w: &mut Walk<'a>,
    array: Value,
    index: &Value,
    v: Value,
) -> Result<Control<'a>, NoMemory>
    ensures { IfOk result (λ d. Always (controls.Give v) (pushed (state_of w.old) (frames.SetElement array index.now)) d (state_of w.new)) }
{
    let access = element_access(Way::Writes, &w.label, array, index);
    writes(w, access, v)
}

fn to_throw<'a>(v: &Value) -> Control<'a>
    ensures { (s : State) → Always (controls.Give v.now) (pushed s frames.Throw) result s }
{
    thrown(v)
}

/// The monitor in a slot is given back, at the end of its block.
fn to_held<'a>(w: &Walk<'a>, slot: usize) -> Result<Control<'a>, NoMemory>
    ensures { IfOk result (λ d. (v : TheValue) → Always (controls.Give v) (pushed (state_of w.now) (frames.Held slot)) d (state_of w.now)) }
{
    let thing = local_of(&w.locals, slot)?;
    Ok(monitor(false, thing))
}
