//! Effects of operations, known before they are done.

ghost use Rattle.std.specs.Prelude.{◌≡◌, ◌+◌, if◌then◌else◌, List, slice_get, length};
ghost use Rattle.lam_value.specs.declared.values.Value.{Value};
ghost use Rattle.thread_steps.specs.Ops.{on_constant, on_any, on_truth, on_int, stores, at_address, gives, jumps, fails, returns};
ghost use Rattle.lam_asks.specs.declared.fault.Fault.TheVariants as fault;
ghost use Rattle.thread_steps.specs.Next.{around, ops_of};
ghost use Rattle.thread_core_effects.specs.Acting.{did_of, calls_unit};
ghost use Rattle.thread_core_ops.specs.Untested.{untested};

use crate::operators::{add_cap, before, between, make_label};
use crate::units::{enter_region, spawn};
use lam_asks::Fault;
use lam_bytecode::{Code, CodeUnit, Op};
use lam_operators::{BinaryOp, UnaryOp};
use lam_value::Value;
use thread_core_calls::{
    enter_monitor, get_element, get_field, leave_monitor, new_array, new_object, put_element,
    put_field, read_barrier, system, write_barrier,
};
use thread_core_effects::{Context, OpEffect, Operands, ValueRef, number_in, truth_in};
use thread_steps::function_takes;

/// How many calls may be open in a context.
pub const FRAMES_LIMIT: usize = 256;

/// The value with a number, on top.
fn given(values: &[Value], n: u32) -> OpEffect<'_>
    ensures { (locals s : List Value) → did_of result locals s ≡ on_constant s (slice_get values.now n) }
{
    match values.get(n as usize) {
        None => OpEffect::Breaks,
        Some(v) => OpEffect::Puts {
            takes: 0,
            value_ref: ValueRef::Same(v),
        },
    }
}

fn store(stack: &Operands, locals: &[Value], n: u32) -> OpEffect<'static>
    ensures { did_of result locals.now stack.now ≡ on_any stack.now (λ v s. stores locals.now n v s) }
{
    let local = n as usize;
    if stack.len() > 0 && local < locals.len() {
        OpEffect::Sets { local }
    } else {
        OpEffect::Breaks
    }
}

fn pop(stack: &Operands) -> OpEffect<'static>
    ensures { (locals : List Value) → did_of result locals stack.now ≡ on_any stack.now (λ v s. gives s) }
{
    if stack.len() > 0 {
        OpEffect::Drops { takes: 1 }
    } else {
        OpEffect::Breaks
    }
}

/// An address of the unit, which has so many operations.
fn jump(size: usize, to: u32) -> OpEffect<'static>
    ensures { (locals s : List Value) → did_of result locals s ≡ at_address size to (jumps to s) }
{
    let to = to as usize;
    if to < size {
        OpEffect::Jumps { to, takes: 0 }
    } else {
        OpEffect::Breaks
    }
}

/// An address of the unit, where the top operand is false. One that the unit does not have breaks whatever the operand is.
fn jump_if_false(stack: &Operands, size: usize, to: u32) -> OpEffect<'static>
    ensures { (locals : List Value) → did_of result locals stack.now ≡ at_address size to (on_truth stack.now (λ b s. if b then gives s else jumps to s)) }
{
    let to = to as usize;
    if to >= size {
        return OpEffect::Breaks;
    }
    let Some(v) = stack.get(0) else {
        return OpEffect::Breaks;
    };
    match truth_in(v) {
        None => OpEffect::Breaks,
        Some(true) => OpEffect::Drops { takes: 1 },
        Some(false) => OpEffect::Jumps { to, takes: 1 },
    }
}

fn call(stack: &Operands, units: &[CodeUnit], unit: u32, callers: usize) -> OpEffect<'static>
    ensures { (locals : List Value) → did_of result locals stack.now ≡ calls_unit units.now (callers + 1) unit stack.now }
{
    let Some(count) = function_takes(units, unit) else {
        return OpEffect::Breaks;
    };
    if stack.len() < count {
        return OpEffect::Breaks;
    }
    if callers < FRAMES_LIMIT - 1 {
        OpEffect::Calls {
            unit: unit as usize,
            count,
        }
    } else {
        OpEffect::Fails(Fault::Deep)
    }
}

fn ret(stack: &Operands) -> OpEffect<'static>
    ensures { (locals : List Value) → did_of result locals stack.now ≡ on_any stack.now (λ v s. returns v) }
{
    if stack.len() > 0 {
        OpEffect::Returns
    } else {
        OpEffect::Breaks
    }
}

fn throw(stack: &Operands) -> OpEffect<'static>
    ensures { (locals : List Value) → did_of result locals stack.now ≡ on_int stack.now (λ n s. fails (fault.Thrown n)) }
{
    let Some(v) = stack.get(0) else {
        return OpEffect::Breaks;
    };
    match number_in(v) {
        None => OpEffect::Breaks,
        Some(n) => OpEffect::Fails(Fault::Thrown(n)),
    }
}

/// How many operations a unit has, 0 where there is no such unit.
fn size_of(code: &Code, unit: usize) -> usize
    ensures { result ≡ length (ops_of code.now unit) }
{
    match code.units().get(unit) {
        None => 0,
        Some(unit) => unit.ops.as_slice().len(),
    }
}

/// What an operation does in the acting call of a context, exactly, where an access goes by the barrier before it.
#[tactic(auto, unfolding(thread_steps::specs::Ops::effect, crate::specs::Untested::untested))]
pub fn see<'a>(c: &'a Context, code: &'a Code, op: Op) -> OpEffect<'a>
    ensures { did_of result c.now.inside.frame.locals c.now.inside.frame.stack ≡ untested (around code.now c.now) c.now.inside.frame.stack op }
{
    let stack = &c.stack;
    match op {
        Op::Const(k) => given(code.constants(), k),
        Op::Load(n) => given(c.locals.as_slice(), n),
        Op::Store(n) => store(stack, c.locals.as_slice(), n),
        Op::Pop => pop(stack),
        Op::Add => between(BinaryOp::Add, stack),
        Op::Sub => between(BinaryOp::Sub, stack),
        Op::Mul => between(BinaryOp::Mul, stack),
        Op::Div => between(BinaryOp::Div, stack),
        Op::Rem => between(BinaryOp::Rem, stack),
        Op::Neg => before(UnaryOp::Neg, stack),
        Op::Not => before(UnaryOp::Not, stack),
        Op::Eq => between(BinaryOp::Eq, stack),
        Op::Ne => between(BinaryOp::Ne, stack),
        Op::Lt => between(BinaryOp::Lt, stack),
        Op::Le => between(BinaryOp::Le, stack),
        Op::Gt => between(BinaryOp::Gt, stack),
        Op::Ge => between(BinaryOp::Ge, stack),
        Op::Jump(to) => jump(size_of(code, c.unit), to),
        Op::JumpIfFalse(to) => jump_if_false(stack, size_of(code, c.unit), to),
        Op::Call(unit) => call(stack, code.units(), unit, c.callers.len()),
        Op::Return => ret(stack),
        Op::Throw => throw(stack),
        Op::ReadBarrier(below) => read_barrier(stack, below as usize, &c.label),
        Op::WriteBarrier(below) => write_barrier(stack, below as usize, &c.label),
        Op::GetField(at) => get_field(stack, at),
        Op::PutField(at) => put_field(stack, at),
        Op::GetElement => get_element(stack, &c.label),
        Op::PutElement => put_element(stack, &c.label),
        Op::NewObject(class) => new_object(code.classes(), class),
        Op::NewArray(kind) => new_array(stack, kind),
        Op::MakeLabel { secrecy, integrity } => make_label(stack, secrecy, integrity),
        Op::NoCaps => OpEffect::Puts {
            takes: 0,
            value_ref: ValueRef::NoCaps,
        },
        Op::WithPlus => add_cap(true, stack),
        Op::WithMinus => add_cap(false, stack),
        Op::System(b) => system(stack, &c.label, &c.caps, b),
        Op::EnterMonitor => enter_monitor(stack),
        Op::LeaveMonitor => leave_monitor(stack, c.held.as_slice()),
        Op::EnterRegion(region) => enter_region(stack, code, region),
        Op::LeaveRegion => OpEffect::Leaves,
        Op::Spawn(unit) => spawn(stack, code.units(), unit),
    }
}
