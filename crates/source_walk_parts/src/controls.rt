//! The control after an operator or a built-in call.

ghost use Rattle.std.specs.Prelude.{◌≡◌, ◌<◌, length, IfOk};
ghost use Rattle.flow_labels.specs.declared.Label.{Label as TheLabel};
ghost use Rattle.capabilities.specs.declared.Caps.{Caps as TheCaps};
ghost use Rattle.thread_steps.specs.Builtins.{builtin};
ghost use Rattle.thread_steps.specs.Operators.{prefix, operator, label_from, with_sign};
ghost use Rattle.thread_core_effects.specs.Acting.{value_of, ask_of};
ghost use Rattle.source_walk_state.specs.declared.Control.TheVariants as controls;
ghost use Rattle.source_walk_parts.specs.Controls.{pure_control, calls_control};

use capabilities::Caps;
use flow_labels::Label;
use lam_asks::Fault;
use lam_builtins::Builtin;
use lam_operators::{BinaryOp, UnaryOp};
use lam_value::Value;
use source_walk_state::{Control, Reply, Sort};
use std::alloc::Global;
use thread_core_calls::builtin;
use thread_core_effects::{AskRef, Called, Computed, ValueRef, ask_from, some_null, value_from};
use thread_core_ops::{label_from, operator, prefix, with_sign};
use want_of_memory::NoMemory;

/// With a value, its parts where they stand.
fn give<'a>(alloc: Global, value_ref: &ValueRef<'_>) -> Result<Control<'a>, NoMemory>
    ensures { IfOk result (λ c. c ≡ controls.Give (value_of value_ref.now)) }
{
    Ok(Control::Give(value_from(alloc, value_ref)?))
}

/// With an ask, its parts where they stand.
fn ask<'a>(
    alloc: Global,
    ask_ref: &AskRef<'_>,
    sort: Sort,
    reply: Reply,
) -> Result<Control<'a>, NoMemory>
    ensures { IfOk result (λ c. c ≡ controls.Ask (ask_of ask_ref.now) sort reply) }
{
    let ask = ask_from(alloc, ask_ref)?;
    Ok(Control::Ask { ask, sort, reply })
}

/// With what an operator before a value gives.
///
/// # Errors
///
/// `NoMemory` where memory is refused.
pub fn prefixed<'a>(alloc: Global, op: UnaryOp, v: &Value) -> Result<Control<'a>, NoMemory>
    ensures { IfOk result (λ c. c ≡ pure_control (prefix op v.now)) }
{
    match prefix(op, v) {
        Computed::Fine(value_ref) => give(alloc, &value_ref),
        Computed::Faults(fault) => Ok(Control::Raise(fault)),
        Computed::Wrong => Ok(Control::Broken),
    }
}

/// With what an operator between two values gives.
///
/// # Errors
///
/// `NoMemory` where memory is refused.
pub fn operated<'a>(
    alloc: Global,
    op: BinaryOp,
    v: &Value,
    w: &Value,
) -> Result<Control<'a>, NoMemory>
    ensures { IfOk result (λ c. c ≡ pure_control (operator op v.now w.now)) }
{
    match operator(op, v, w) {
        Computed::Fine(value_ref) => give(alloc, &value_ref),
        Computed::Faults(fault) => Ok(Control::Raise(fault)),
        Computed::Wrong => Ok(Control::Broken),
    }
}

/// With the label of tags of secrecy and of integrity.
///
/// # Errors
///
/// `NoMemory` where memory is refused.
pub fn labelled<'a>(
    alloc: Global,
    secrets: &[Value],
    vouchers: &[Value],
) -> Result<Control<'a>, NoMemory>
    ensures { IfOk result (λ c. c ≡ pure_control (label_from secrets.now vouchers.now)) }
{
    match label_from(secrets, vouchers) {
        Computed::Fine(value_ref) => give(alloc, &value_ref),
        Computed::Faults(fault) => Ok(Control::Raise(fault)),
        Computed::Wrong => Ok(Control::Broken),
    }
}

/// With capabilities with the plus or the minus of a tag.
///
/// # Errors
///
/// `NoMemory` where memory is refused.
pub fn signed<'a>(
    alloc: Global,
    plus: bool,
    caps: &Value,
    tag: &Value,
) -> Result<Control<'a>, NoMemory>
    ensures { IfOk result (λ c. c ≡ pure_control (with_sign plus caps.now tag.now)) }
{
    match with_sign(plus, caps, tag) {
        Computed::Fine(value_ref) => give(alloc, &value_ref),
        Computed::Faults(fault) => Ok(Control::Raise(fault)),
        Computed::Wrong => Ok(Control::Broken),
    }
}

/// With more arguments than any built-in call takes.
fn too_many<'a>(args: &[Value]) -> Control<'a>
    requires { 3 < length args.now }
    ensures { (l : TheLabel) (k : TheCaps) (b : Builtin) (s : Sort) → result ≡ calls_control s (builtin l k b args.now) }
{
    if some_null(args) {
        Control::Raise(Fault::Null)
    } else {
        Control::Broken
    }
}

/// With a built-in call at a label with capabilities, whose result is of a sort.
///
/// # Errors
///
/// `NoMemory` where memory is refused.
pub fn built<'a>(
    alloc: Global,
    label: &Label,
    caps: &Caps,
    call: Builtin,
    sort: Sort,
    args: &[Value],
) -> Result<Control<'a>, NoMemory>
    ensures { IfOk result (λ c. c ≡ calls_control sort (builtin label.now caps.now call args.now)) }
{
    if args.len() > 3 {
        return Ok(too_many(args));
    }
    match builtin(label, caps, call, args) {
        Called::Now(value_ref) => give(alloc, &value_ref),
        Called::Faults(fault) => Ok(Control::Raise(fault)),
        Called::Asks(ask_ref) => ask(alloc, &ask_ref, sort, Reply::Value),
        Called::Acts(ask_ref) => ask(alloc, &ask_ref, Sort::Number, Reply::Done),
        Called::Wrong => Ok(Control::Broken),
    }
}
