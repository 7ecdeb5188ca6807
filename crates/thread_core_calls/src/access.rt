//! Effects of barriers, accesses, monitors, and of making things.
//!
//! A barrier tests its rule, and the access does not test it again. In a run of guarded code it finds a reference whose
//! rule holds. The access tests the rule only where an element's index is outside the length, since an access whose
//! rule fails raises nothing.

ghost use Rattle.std.specs.Prelude.{◌≡◌, ◌∷◌, true, reverse, List};
ghost use Rattle.lam_asks.specs.declared.ask.Ask.TheVariants as ask;
ghost use Rattle.thread_steps.specs.Ops.{tested, on_thing, may_read, may_write, barrier, unless_denied, fails, new_array, on_any, on_int, monitor_of, is_held};
ghost use Rattle.lam_value.specs.declared.values.Value.{Value};
ghost use Rattle.thread_core_effects.specs.Acting.{did_of, makes_object};
ghost use Rattle.thread_core_effects.specs.Fitting.{place_in};
ghost use Rattle.thread_core_calls.specs.Reaching.{reads_field, writes_field, reads_element, writes_element};
ghost use Rattle.lam_asks.specs.declared.fault.Fault.TheVariants as fault;

use flow_labels::{Denied, Label, read_rule, write_rule};
use lam_asks::Fault;
use lam_bytecode::Kinds;
use lam_value::{Kind, Name, Value};
use thread_core_effects::{AskRef, OpEffect, Operands, is_null, same_names, thing_in};

/// How long an array may be.
pub const LENGTH_LIMIT: u64 = 65_536;

fn barred(denied: Option<Denied>) -> OpEffect<'static>
    ensures { (locals s : List Value) → did_of result locals s ≡ barrier s denied }
{
    match denied {
        None => OpEffect::Drops { takes: 0 },
        Some(denied) => OpEffect::Asks {
            ask: AskRef::Barred(denied),
            takes: 0,
            leaves_null: false,
        },
    }
}

/// Tests that a thing may be read.
fn reading(v: &Value, label: &Label) -> OpEffect<'static>
    ensures { (locals s rest : List Value) → did_of result locals s ≡ on_thing (v.now ∷ rest) (λ n r. barrier s (may_read label.now n.own)) }
{
    match v {
        Value::Obj(name) => barred(read_rule(label, name.own())),
        Value::Arr { name, .. } => barred(read_rule(label, name.own())),
        Value::Nothing => OpEffect::Fails(Fault::Null),
        _ => OpEffect::Breaks,
    }
}

/// Tests that a thing may be written.
fn writing(v: &Value, label: &Label) -> OpEffect<'static>
    ensures { (locals s rest : List Value) → did_of result locals s ≡ on_thing (v.now ∷ rest) (λ n r. barrier s (may_write label.now n.own)) }
{
    match v {
        Value::Obj(name) => barred(write_rule(label, name.own())),
        Value::Arr { name, .. } => barred(write_rule(label, name.own())),
        Value::Nothing => OpEffect::Fails(Fault::Null),
        _ => OpEffect::Breaks,
    }
}

/// Tests that the thing so far below the top may be read.
pub fn read_barrier(stack: &Operands, below: usize, label: &Label) -> OpEffect<'static>
    ensures { (locals : List Value) → did_of result locals stack.now ≡ tested stack.now below (may_read label.now) }
{
    match stack.get(below) {
        None => OpEffect::Breaks,
        Some(v) => reading(v, label),
    }
}

/// Tests that the thing so far below the top may be written.
pub fn write_barrier(stack: &Operands, below: usize, label: &Label) -> OpEffect<'static>
    ensures { (locals : List Value) → did_of result locals stack.now ≡ tested stack.now below (may_write label.now) }
{
    match stack.get(below) {
        None => OpEffect::Breaks,
        Some(v) => writing(v, label),
    }
}

/// Asks for a field of the object on top, with no test.
pub fn get_field(stack: &Operands, at: u32) -> OpEffect<'_>
    ensures { (locals : List Value) → did_of result locals stack.now ≡ reads_field at stack.now }
{
    let Some(r) = stack.get(0) else {
        return OpEffect::Breaks;
    };
    let Value::Obj(_) = r else {
        return OpEffect::Breaks;
    };
    let at = u64::from(at);
    OpEffect::Asks {
        ask: AskRef::Read { r, at },
        takes: 1,
        leaves_null: false,
    }
}

/// Asks that the top operand be put into a field of the object below it, with no test.
pub fn put_field(stack: &Operands, at: u32) -> OpEffect<'_>
    ensures { (locals : List Value) → did_of result locals stack.now ≡ on_any stack.now (λ v s. writes_field at v s) }
{
    let Some(v) = stack.get(0) else {
        return OpEffect::Breaks;
    };
    let Some(r) = stack.get(1) else {
        return OpEffect::Breaks;
    };
    let Value::Obj(_) = r else {
        return OpEffect::Breaks;
    };
    let at = u64::from(at);
    OpEffect::Asks {
        ask: AskRef::Write { r, at, v },
        takes: 2,
        leaves_null: false,
    }
}

/// The place within a length that a number is.
fn place_of(i: i64, len: u64) -> Option<u64>
    ensures { result ≡ place_in i len }
{
    if i < 0 {
        return None;
    }
    let at = i as u64;
    if at < len { Some(at) } else { None }
}

/// An element outside the length: Index is raised, where the rule of the access holds.
fn outside(denied: Option<Denied>) -> OpEffect<'static>
    ensures { (locals s : List Value) → did_of result locals s ≡ unless_denied denied (fails fault.Index) }
{
    match denied {
        None => OpEffect::Fails(Fault::Index),
        Some(_) => OpEffect::Breaks,
    }
}

/// Asks for an element, at the number on top, of the array below it.
pub fn get_element<'a>(stack: &'a Operands, label: &Label) -> OpEffect<'a>
    ensures { (locals : List Value) → did_of result locals stack.now ≡ on_int stack.now (λ i s. reads_element label.now i s) }
{
    let Some(Value::Int(i)) = stack.get(0) else {
        return OpEffect::Breaks;
    };
    let Some(r) = stack.get(1) else {
        return OpEffect::Breaks;
    };
    let Value::Arr { name, len } = r else {
        return OpEffect::Breaks;
    };
    match place_of(*i, *len) {
        None => outside(read_rule(label, name.own())),
        Some(at) => OpEffect::Asks {
            ask: AskRef::Read { r, at },
            takes: 2,
            leaves_null: false,
        },
    }
}

/// Asks that the top operand be put into an element, at the number below it, of the array below that.
pub fn put_element<'a>(stack: &'a Operands, label: &Label) -> OpEffect<'a>
    ensures { (locals : List Value) → did_of result locals stack.now ≡ on_any stack.now (λ v s. on_int s (λ i s. writes_element label.now i v s)) }
{
    let Some(v) = stack.get(0) else {
        return OpEffect::Breaks;
    };
    let Some(Value::Int(i)) = stack.get(1) else {
        return OpEffect::Breaks;
    };
    let Some(r) = stack.get(2) else {
        return OpEffect::Breaks;
    };
    let Value::Arr { name, len } = r else {
        return OpEffect::Breaks;
    };
    match place_of(*i, *len) {
        None => outside(write_rule(label, name.own())),
        Some(at) => OpEffect::Asks {
            ask: AskRef::Write { r, at, v },
            takes: 3,
            leaves_null: false,
        },
    }
}

/// Asks for a new object of a class.
pub fn new_object<'a>(classes: &'a [Kinds], class: u32) -> OpEffect<'a>
    ensures { (locals s : List Value) → did_of result locals s ≡ makes_object classes.now class s }
{
    match classes.get(class as usize) {
        None => OpEffect::Breaks,
        Some(kinds) => {
            let kinds = kinds.as_slice();
            OpEffect::Asks {
                ask: AskRef::NewObject { class, kinds },
                takes: 0,
                leaves_null: false,
            }
        }
    }
}

/// Asks for a new array, as long as the number on top.
pub fn new_array(stack: &Operands, kind: Kind) -> OpEffect<'_>
    ensures { (locals : List Value) → did_of result locals stack.now ≡ on_int stack.now (λ n s. new_array kind s n) }
{
    let Some(Value::Int(n)) = stack.get(0) else {
        return OpEffect::Breaks;
    };
    if *n < 0 {
        return OpEffect::Fails(Fault::Long);
    }
    let len = *n as u64;
    if len > LENGTH_LIMIT {
        return OpEffect::Fails(Fault::Long);
    }
    OpEffect::Asks {
        ask: AskRef::NewArray { kind, len },
        takes: 1,
        leaves_null: false,
    }
}

/// Asks for the monitor of the thing on top.
pub fn enter_monitor(stack: &Operands) -> OpEffect<'_>
    ensures { (locals : List Value) → did_of result locals stack.now ≡ monitor_of (λ r. ask.MonEnter r) (λ n. true) stack.now }
{
    let Some(r) = stack.get(0) else {
        return OpEffect::Breaks;
    };
    if is_null(r) {
        return OpEffect::Fails(Fault::Null);
    }
    match thing_in(r) {
        None => OpEffect::Breaks,
        Some(_) => OpEffect::Asks {
            ask: AskRef::MonEnter { r },
            takes: 1,
            leaves_null: false,
        },
    }
}

/// Whether a monitor is among those that were taken.
fn is_held(name: &Name, taken: &[Name]) -> bool
    ensures { result ≡ is_held name.now (reverse taken.now) }
{
    taken.iter().rev().any(|other| same_names(name, other))
}

/// Gives the monitor of the thing on top back, where it was taken.
pub fn leave_monitor<'a>(stack: &'a Operands, taken: &[Name]) -> OpEffect<'a>
    ensures { (locals : List Value) → did_of result locals stack.now ≡ monitor_of (λ r. ask.MonLeave r) (λ n. is_held n (reverse taken.now)) stack.now }
{
    let Some(r) = stack.get(0) else {
        return OpEffect::Breaks;
    };
    if is_null(r) {
        return OpEffect::Fails(Fault::Null);
    }
    match thing_in(r) {
        None => OpEffect::Breaks,
        Some(name) => {
            if is_held(name, taken) {
                OpEffect::Asks {
                    ask: AskRef::MonLeave { r },
                    takes: 1,
                    leaves_null: false,
                }
            } else {
                OpEffect::Breaks
            }
        }
    }
}
