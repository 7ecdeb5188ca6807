//! Controls that ask for an array, a monitor or a thread, and throws.

ghost use Rattle.std.specs.Prelude.{◌≡◌, OnOk};
ghost use Rattle.source_walk_state.specs.declared.Sort.TheVariants as sorts;
ghost use Rattle.source_walk_state.specs.declared.Reply.TheVariants as replies;
ghost use Rattle.source_walk_state.specs.declared.Control.TheVariants as controls;
ghost use Rattle.source_walk_parts.specs.Controls.{array_control, thrown_control, spawn_control, monitor_ask, monitor_control};
ghost use Rattle.source_walk_parts.specs.States.{state_of, is_ask, pushed_if};

use crate::walk::{Walk, push};
use capabilities::Caps;
use lam_asks::{Ask, Fault};
use lam_value::{Kind, Shape, Value, Values};
use source_walk_state::{Control, Frame, Reply, Sort};
use thread_core_calls::LENGTH_LIMIT;
use want_of_memory::NoMemory;

/// Asks for a new array, of a number as its length.
pub fn new_array<'a>(kind: Kind, length: &Value) -> Control<'a>
    ensures { result ≡ array_control kind length.now }
{
    let Value::Int(n) = length else {
        return Control::Broken;
    };
    if *n < 0 {
        return Control::Raise(Fault::Long);
    }
    let len = *n as u64;
    if len > LENGTH_LIMIT {
        return Control::Raise(Fault::Long);
    }
    Control::Ask {
        ask: Ask::New {
            shape: Shape::Array { kind, len },
        },
        sort: Sort::Number,
        reply: Reply::Value,
    }
}

/// Raises the fault that a number throws.
pub fn thrown<'a>(v: &Value) -> Control<'a>
    ensures { result ≡ thrown_control v.now }
{
    match v {
        Value::Int(n) => Control::Raise(Fault::Thrown(*n)),
        _ => Control::Broken,
    }
}

/// Asks for a new thread that runs a function with capabilities and arguments.
pub fn spawns<'a>(function: usize, caps: Value, args: Values) -> Control<'a>
    ensures { result ≡ spawn_control function caps args }
{
    match caps {
        Value::CapV { plus, minus } => Control::Spawn {
            function,
            args,
            caps: Caps { plus, minus },
        },
        Value::Nothing => Control::Raise(Fault::Null),
        _ => Control::Broken,
    }
}

/// The ask for a monitor, that it be taken or given back.
fn monitor_ask(takes: bool, r: Value) -> Ask
    ensures { result ≡ monitor_ask takes r }
{
    if takes {
        Ask::MonEnter { r }
    } else {
        Ask::MonLeave { r }
    }
}

fn asks_monitor<'a>(takes: bool, r: Value) -> Control<'a>
    ensures { result ≡ controls.Ask (monitor_ask takes r) sorts.Number replies.Done }
{
    Control::Ask {
        ask: monitor_ask(takes, r),
        sort: Sort::Number,
        reply: Reply::Done,
    }
}

/// Asks that the monitor of a thing be taken, or given back.
pub fn monitor<'a>(takes: bool, v: Value) -> Control<'a>
    ensures { result ≡ monitor_control takes v }
{
    match v {
        Value::Obj(name) => asks_monitor(takes, Value::Obj(name)),
        Value::Arr { name, len } => asks_monitor(takes, Value::Arr { name, len }),
        Value::Nothing => Control::Raise(Fault::Null),
        _ => Control::Broken,
    }
}

/// Whether a control asks.
fn asks(control: &Control<'_>) -> bool
    ensures { result ≡ is_ask control.now }
{
    match control {
        Control::Ask { .. } => true,
        _ => false,
    }
}

/// Where a control asks, a frame waits for the answer.
///
/// # Errors
///
/// `NoMemory` where memory is refused.
pub fn wait_if_asked<'a>(
    w: &mut Walk<'a>,
    control: &Control<'a>,
    frame: Frame<'a>,
) -> Result<(), NoMemory>
    ensures { OnOk result (state_of w.new ≡ pushed_if control.now (state_of w.old) frame.entry) }
{
    if asks(control) {
        push(w, frame)
    } else {
        drop(frame);
        Ok(())
    }
}
