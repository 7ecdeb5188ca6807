//! The rows of asks about pipes.

ghost use Rattle.std.specs.Prelude.{◌≡◌, IfOk};
ghost use Rattle.std.specs.Option.{option_copied};
ghost use Rattle.capabilities.specs.Changes.{joined};
ghost use Rattle.lam_asks.specs.declared.ask.Ask.TheVariants as Ask;
ghost use Rattle.lam_machine_effects.specs.Serving.{received};
ghost use Rattle.lam_machine_rows.specs.Rows.{Serves, any_world, at_label, acting_by, with_pipes};

use crate::rules::{full, make_rule, send_rule};
use crate::services::{did, given};
use capabilities::Caps;
use flow_labels::{Label, same_rule, write_rule};
use labelled_pipes::{HOME_LIMIT, Message, MessageKind, Pipes};
use lam_asks::Fault;
use lam_machine_effects::{Effect, Served};
use lam_value::{ByteText, Name, Value};
use want_of_memory::NoMemory;

/// A new pipe.
pub fn make_pipe(
    pipes: &Pipes,
    p: &Label,
    caps: &Caps,
    public: &Caps,
    own: &Label,
) -> Result<Served, NoMemory>
    ensures { IfOk result (Serves (with_pipes pipes.now) (acting_by p.now (joined caps.now public.now)) (Ask.MakePipe own.now)) }
{
    if let Some(denied) = make_rule(p, caps, public, own) {
        return Ok(Served::refused(denied));
    }
    let number = pipes.next(p, own);
    if let Some(fault) = full(number, HOME_LIMIT, Fault::HomeFull) {
        return Ok(Served::failed(fault));
    }
    let name = Name::of(p, own, number)?;
    given(Value::Pipe(name), Effect::adds_pipe(p, own))
}

/// Bytes are sent.
pub fn send(p: &Label, pipe: &Name, bytes: &ByteText) -> Result<Served, NoMemory>
    ensures { IfOk result (Serves any_world (at_label p.now) (Ask.Send pipe.now bytes.now)) }
{
    if let Some(denied) = write_rule(p, pipe.own()) {
        return Ok(Served::refused(denied));
    }
    did(Effect::sends_bytes(pipe, bytes))
}

/// Capabilities are sent.
pub fn send_caps(
    p: &Label,
    caps: &Caps,
    public: &Caps,
    pipe: &Name,
    sent: &Caps,
) -> Result<Served, NoMemory>
    ensures { IfOk result (Serves any_world (acting_by p.now (joined caps.now public.now)) (Ask.SendCaps pipe.now sent.now)) }
{
    if let Some(denied) = send_rule(p, caps, public, pipe.own(), sent) {
        return Ok(Served::refused(denied));
    }
    did(Effect::sends_caps(pipe, sent))
}

/// The front message, where it is bytes.
pub fn receive(pipes: &Pipes, p: &Label, from: &Name) -> Result<Served, NoMemory>
    ensures { IfOk result (Serves (with_pipes pipes.now) (at_label p.now) (Ask.Receive from.now)) }
{
    if let Some(denied) = same_rule(p, from.own()) {
        return Ok(Served::refused(denied));
    }
    let v = received(pipes.front(from, MessageKind::Bytes))?;
    given(v, Effect::receives(from, MessageKind::Bytes))
}

/// The front message, where it is capabilities.
pub fn receive_caps(pipes: &Pipes, p: &Label, pipe: &Name) -> Result<Served, NoMemory>
    ensures { IfOk result (Serves (with_pipes pipes.now) (at_label p.now) (Ask.ReceiveCaps pipe.now)) }
{
    if let Some(denied) = same_rule(p, pipe.own()) {
        return Ok(Served::refused(denied));
    }
    let v = received(pipes.front(pipe, MessageKind::Caps))?;
    given(v, Effect::receives(pipe, MessageKind::Caps))
}

/// What was taken from a pipe, or null.
fn received(message: Option<&Message>) -> Result<Value, NoMemory>
    ensures { IfOk result (λ v. v ≡ received (option_copied message.entry)) }
{
    match message {
        None => Ok(Value::Nothing),
        Some(Message::Bytes(bytes)) => Ok(Value::Bytes(bytes.copy()?)),
        Some(Message::Caps(caps)) => description(caps),
    }
}

/// A description of capabilities.
fn description(caps: &Caps) -> Result<Value, NoMemory>
    ensures { IfOk result (λ v. v ≡ Value.CapV caps.now.plus caps.now.minus) }
{
    let Caps { plus, minus } = caps.copy()?;
    Ok(Value::CapV { plus, minus })
}
