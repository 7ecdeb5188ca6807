//! The rows of asks about objects, arrays and their monitors.

ghost use Rattle.std.specs.Prelude.{◌≡◌, IfOk};
ghost use Rattle.capabilities.specs.Changes.{joined};
ghost use Rattle.lam_asks.specs.declared.ask.Ask.TheVariants as Ask;
ghost use Rattle.lam_machine_effects.specs.Serving.{slot_at, reference, renamed};
ghost use Rattle.lam_machine_rows.specs.Rows.{Serves, any_world, any_context, at_label, acting_by, with_heap, with_monitors};

use crate::rules::{copy_rule, full, thing_of};
use crate::services::{did, given};
use capabilities::Caps;
use flow_labels::{Label, read_rule, same_rule, write_rule};
use labelled_heap::{HOME_LIMIT, Heap};
use lam_asks::Fault;
use lam_machine_effects::{Effect, Served};
use lam_value::{Name, Shape, Value};
use monitor_core::{Monitors, TAKINGS_LIMIT};
use want_of_memory::NoMemory;

/// The value of a slot.
pub fn read(heap: &Heap, p: &Label, r: &Value, at: u64) -> Result<Served, NoMemory>
    ensures { IfOk result (Serves (with_heap heap.now) (at_label p.now) (Ask.Read r.now at)) }
{
    let Some(name) = thing_of(r) else {
        return Ok(Served::failed(Fault::Null));
    };
    if let Some(denied) = read_rule(p, name.own()) {
        return Ok(Served::refused(denied));
    }
    let v = slot_of(heap, name, at)?;
    Ok(Served::gives(v, Effect::Nothing))
}

/// What a slot holds; one that the thing does not have reads as null.
fn slot_of(heap: &Heap, name: &Name, at: u64) -> Result<Value, NoMemory>
    ensures { IfOk result (λ v. v ≡ slot_at heap.now name.now at) }
{
    match heap.get(name, at) {
        None => Ok(Value::Nothing),
        Some(v) => v.copy(),
    }
}

/// A slot gets a value.
pub fn write(p: &Label, r: &Value, at: u64, v: &Value) -> Result<Served, NoMemory>
    ensures { IfOk result (Serves any_world (at_label p.now) (Ask.Write r.now at v.now)) }
{
    let Some(name) = thing_of(r) else {
        return Ok(Served::failed(Fault::Null));
    };
    if let Some(denied) = write_rule(p, name.own()) {
        return Ok(Served::refused(denied));
    }
    did(Effect::sets_slot(name, at, v))
}

/// A new object or array at the acting label.
pub fn make_thing(heap: &Heap, p: &Label, shape: &Shape) -> Result<Served, NoMemory>
    ensures { IfOk result (Serves (with_heap heap.now) (at_label p.now) (Ask.New shape.now)) }
{
    let number = heap.next(p, p);
    if let Some(fault) = full(number, HOME_LIMIT, Fault::HomeFull) {
        return Ok(Served::failed(fault));
    }
    let name = Name::of(p, p, number)?;
    given(reference(shape, name), Effect::adds_thing(p, p, shape))
}

/// A reference to a new thing of a shape.
fn reference(shape: &Shape, name: Name) -> Value
    ensures { result ≡ reference shape.now name }
{
    match shape {
        Shape::Class { .. } => Value::Obj(name),
        Shape::Array { len, .. } => Value::Arr { name, len: *len },
    }
}

/// A copy with another label.
pub fn copy_to(
    heap: &Heap,
    p: &Label,
    caps: &Caps,
    public: &Caps,
    r: &Value,
    own: &Label,
) -> Result<Served, NoMemory>
    ensures { IfOk result (Serves (with_heap heap.now) (acting_by p.now (joined caps.now public.now)) (Ask.CopyTo r.now own.now)) }
{
    let Some(name) = thing_of(r) else {
        return Ok(Served::failed(Fault::Null));
    };
    if let Some(denied) = copy_rule(p, caps, public, name.own(), own) {
        return Ok(Served::refused(denied));
    }
    let number = heap.next(p, own);
    if let Some(fault) = full(number, HOME_LIMIT, Fault::HomeFull) {
        return Ok(Served::failed(fault));
    }
    let copy = Name::of(p, own, number)?;
    given(renamed(r, copy), Effect::adds_copy(name, p, own))
}

/// A reference of the same sort to another thing.
fn renamed(r: &Value, name: Name) -> Value
    ensures { result ≡ renamed r.now name }
{
    match r {
        Value::Arr { len, .. } => Value::Arr { name, len: *len },
        _ => Value::Obj(name),
    }
}

/// The monitor of a thing is taken.
pub fn enter_monitor(monitors: &Monitors, p: &Label, r: &Value) -> Result<Served, NoMemory>
    ensures { IfOk result (Serves (with_monitors monitors.now) (at_label p.now) (Ask.MonEnter r.now)) }
{
    let Some(name) = thing_of(r) else {
        return Ok(Served::failed(Fault::Null));
    };
    if let Some(denied) = same_rule(p, name.own()) {
        return Ok(Served::refused(denied));
    }
    if let Some(fault) = full(monitors.takings(name), TAKINGS_LIMIT, Fault::Deep) {
        return Ok(Served::failed(fault));
    }
    did(Effect::takes_monitor(name))
}

/// The monitor of a thing is given back once.
pub fn leave_monitor(r: &Value) -> Result<Served, NoMemory>
    ensures { IfOk result (Serves any_world any_context (Ask.MonLeave r.now)) }
{
    let Some(name) = thing_of(r) else {
        return Ok(Served::failed(Fault::Null));
    };
    did(Effect::gives_back(name))
}
