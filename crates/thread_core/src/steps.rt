//! Turns of a context.

ghost use Rattle.std.specs.Prelude.{◌≡◌, ◌<◌, ◌+◌, ◌^◌, ◌∷◌, [], Some, if◌then◌else◌, reverse, length, drop, slice_get, vec_len, vec_capacity, IfSome, IfOk, OnOk, OnErr, MatchOption};
ghost use Rattle.lam_bytecode.specs.Codes.{CodeTree};
ghost use Rattle.thread_steps.specs.Threads.{Inside};
ghost use Rattle.thread_core_state.specs.Stacked.{is_bottom};
ghost use Rattle.thread_steps.specs.Next.{stands, leaving, is_shared, is_stuck};
ghost use Rattle.thread_core_state.specs.Seen.{phase_of};
ghost use Rattle.thread_core_effects.specs.Acting.{ask_of};
ghost use Rattle.thread_core_effects.specs.Reading.{thing_in};
ghost use Rattle.thread_core.specs.Turning.{moved, standing_of, asked, awaited, awaited_by, nobody, monitor_of, end_of};
ghost use Rattle.thread_core.specs.Coming.{next_from};
ghost use Rattle.thread_core.specs.Untested.{untested_next};
ghost use Rattle.thread_core.specs.Steps.{changed, stands_by, moved_by, HasNext};
ghost use Rattle.thread_core.specs.Moves.{dropped, put, jumped, called_with, failed, raised_ask, with_result, caller_with, acting};

use crate::next_turn::{Coming, next};
use crate::step::{Change, Step};
use crate::turn::{Outlook, Standing, Waits};
use flow_labels::{Label, read_rule, same_rule};
use lam_asks::{Ask, Fault, Outcome};
use lam_bytecode::Code;
use lam_value::{Name, Value};
use std::mem::replace;
use thread_core_effects::{AskRef, OpEffect, ask_from, thing_in, value_from};
use thread_core_state::{Context, Frame, Operands, Phase, locals_of};
use want_of_memory::NoMemory;

fn drops(c: &mut Context, takes: usize)
    requires { c.old.inside.frame.at + 1 < 2 ^ 64 }
    ensures { c.new ≡ dropped c.old takes }
{
    c.stack.drop_many(takes);
    c.at += 1;
    c.fault = None;
}

fn puts(c: &mut Context, takes: usize, value: Value) -> Result<(), NoMemory>
    requires { c.old.inside.frame.at + 1 < 2 ^ 64 }
    ensures ok { OnOk result (c.new ≡ put c.old takes value) }
    ensures err { OnErr result (c.new ≡ c.old) }
{
    c.stack.place(takes, value)?;
    c.at += 1;
    c.fault = None;
    Ok(())
}

/// The top operand goes into a local.
fn sets(c: &mut Context, local: usize) -> Standing
    requires { c.old.inside.frame.at + 1 < 2 ^ 64 }
    ensures stands { (code : CodeTree) → standing_of result ≡ stands (next_from code c.old (Coming.Sees (OpEffect.Sets local))) }
    ensures new { (code : CodeTree) → c.new ≡ moved c.old (next_from code c.old (Coming.Sees (OpEffect.Sets local))) }
{
    let Some(value) = c.stack.pop() else {
        return Standing::Stuck;
    };
    drop(c.locals.set(local as u64, value));
    c.at += 1;
    c.fault = None;
    Standing::Private
}

fn jumps(c: &mut Context, to: usize, takes: usize)
    ensures { c.new ≡ jumped c.old to takes }
{
    c.stack.drop_many(takes);
    c.at = to;
    c.fault = None;
}

fn fails(c: &mut Context, fault: Fault)
    ensures { c.new ≡ failed c.old fault }
{
    c.fault = Some(fault);
}

/// The caller of the acting call, taken off.
fn pop_caller(callers: &mut Vec<Frame>) -> Option<Frame>
    ensures frames { MatchOption result ((reverse callers.old.items ≡ []) × (callers.new.items ≡ callers.old.items)) (λ f. reverse callers.old.items ≡ f ∷ reverse callers.new.items) }
    ensures room { IfSome result (λ _. vec_len callers.new < vec_capacity callers.new) }
{
    callers.pop()
}

/// A caller is put on, for which there is room.
fn put_caller(callers: &mut Vec<Frame>, frame: Frame)
    requires { vec_len callers.old < vec_capacity callers.old }
    ensures { reverse callers.new.items ≡ frame ∷ reverse callers.old.items }
{
    callers.push_reserved(frame);
}

fn make_room(callers: &mut Vec<Frame>) -> Result<(), NoMemory>
    ensures frames { callers.new.items ≡ callers.old.items }
    ensures room { OnOk result (vec_len callers.new < vec_capacity callers.new) }
{
    callers.reserve(1)?;
    Ok(())
}

/// A function is called with the arguments on top.
fn calls(c: &mut Context, code: &Code, unit: usize, count: usize) -> Result<(), NoMemory>
    requires { c.old.inside.frame.at + 1 < 2 ^ 64 }
    ensures ok { OnOk result (c.new ≡ called_with code.now c.old unit count) }
    ensures err { OnErr result (c.new ≡ c.old) }
{
    let size = locals_of(code, unit);
    make_room(&mut c.callers)?;
    let locals = c.stack.take_many(count, size)?;
    let alloc = c.stack.allocator();
    let frame = Frame {
        unit: c.unit,
        at: c.at + 1,
        locals: replace(&mut c.locals, locals),
        stack: replace(&mut c.stack, Operands::new(alloc)),
    };
    put_caller(&mut c.callers, frame);
    c.unit = unit;
    c.at = 0;
    c.fault = None;
    Ok(())
}

/// A copy of the top operand, where there is one.
fn top_copy(stack: &Operands) -> Result<Option<Value>, NoMemory>
    ensures { IfOk result (λ o. o ≡ slice_get stack.now 0) }
{
    match stack.get(0) {
        None => Ok(None),
        Some(value) => Ok(Some(value.copy()?)),
    }
}

fn push_result(frame: &mut Frame, value: Value) -> Result<(), NoMemory>
    ensures ok { OnOk result (frame.new ≡ with_result frame.old value) }
    ensures err { OnErr result (frame.new ≡ frame.old) }
{
    frame.stack.push(value)
}

/// The caller of the acting call, taken off, with the call's result on its operands.
fn take_back(callers: &mut Vec<Frame>, value: Value) -> Result<Option<Frame>, NoMemory>
    ensures frame { IfOk result (λ f. f ≡ caller_with value (reverse callers.old.items)) }
    ensures rest { OnOk result (reverse callers.new.items ≡ drop 1 (reverse callers.old.items)) }
    ensures err { OnErr result (reverse callers.new.items ≡ reverse callers.old.items) }
{
    let Some(mut frame) = pop_caller(callers) else {
        return Ok(None);
    };
    match push_result(&mut frame, value) {
        Ok(()) => Ok(Some(frame)),
        Err(_) => {
            put_caller(callers, frame);
            Err(NoMemory)
        }
    }
}

/// Another call of a context acts.
fn acts(c: &mut Context, frame: Frame)
    ensures { c.new ≡ acting c.old frame }
{
    let Frame {
        unit,
        at,
        locals,
        stack,
    } = frame;
    c.unit = unit;
    c.at = at;
    c.fault = None;
    drop(replace(&mut c.locals, locals));
    drop(replace(&mut c.stack, stack));
}

/// The acting call, which another one waits for, returns.
#[tactic(auto, using(crate::proofs::Cases::back_stands, crate::proofs::Cases::back_moved))]
fn goes_back(c: &mut Context, value: Value) -> Result<Standing, NoMemory>
    requires waits { 0 < length c.old.inside.callers }
    requires top { slice_get c.old.inside.frame.stack 0 ≡ Some value }
    ensures stands { IfOk result (λ s. (code : CodeTree) → standing_of s ≡ stands (next_from code c.old (Coming.Sees OpEffect.Returns))) }
    ensures new { OnOk result ((code : CodeTree) → c.new ≡ moved c.old (next_from code c.old (Coming.Sees OpEffect.Returns))) }
    ensures err { OnErr result (c.new ≡ c.old) }
{
    match take_back(&mut c.callers, value)? {
        None => Ok(Standing::Stuck),
        Some(frame) => {
            acts(c, frame);
            Ok(Standing::Private)
        }
    }
}

/// How a context stands that has the result of its only call.
fn ends(phase: Phase) -> Standing
    ensures { standing_of result ≡ (if is_bottom (phase_of phase) then is_shared else is_stuck) }
{
    match phase {
        Phase::Bottom => Standing::Shared,
        Phase::Body { .. } => Standing::Stuck,
        Phase::Catch => Standing::Stuck,
    }
}

/// The top operand is the result of the call.
#[tactic(auto, using(crate::proofs::Cases::ended_stands, crate::proofs::Cases::ended_moved, crate::proofs::Tops::first_none))]
fn returns(c: &mut Context) -> Result<Standing, NoMemory>
    ensures stands { IfOk result (λ s. (code : CodeTree) → standing_of s ≡ stands (next_from code c.old (Coming.Sees OpEffect.Returns))) }
    ensures new { OnOk result ((code : CodeTree) → c.new ≡ moved c.old (next_from code c.old (Coming.Sees OpEffect.Returns))) }
    ensures err { OnErr result (c.new ≡ c.old) }
{
    match top_copy(&c.stack)? {
        None => Ok(Standing::Stuck),
        Some(value) => {
            if c.callers.is_empty() {
                drop(value);
                Ok(ends(c.phase))
            } else {
                goes_back(c, value)
            }
        }
    }
}

/// The ask by which a fault that was raised is handled.
fn handling(phase: Phase, fault: Fault) -> Ask
    ensures { result ≡ raised_ask (phase_of phase) fault }
{
    match phase {
        Phase::Bottom => Ask::End(Outcome::Failed(fault)),
        Phase::Body { .. } => Ask::Caught(fault),
        Phase::Catch => Ask::Suppressed(fault),
    }
}

fn is_bottom(phase: Phase) -> bool
    ensures { result ≡ is_bottom (phase_of phase) }
{
    matches!(phase, Phase::Bottom)
}

/// How a context stands that is to leave its region.
fn leaves(phase: Phase) -> Standing
    ensures { (i : Inside) → standing_of result ≡ stands (leaving (phase_of phase) i) }
{
    match phase {
        Phase::Bottom => Standing::Stuck,
        Phase::Body { .. } => Standing::Shared,
        Phase::Catch => Standing::Shared,
    }
}

/// What a context does in its next turn where this is private, with its value made.
#[tactic(auto, using(crate::proofs::Cases::raised_stands, crate::proofs::Cases::raised_moved, crate::proofs::Cases::leaving_moved))]
fn step_of(c: &Context, code: &Code) -> Result<Step, NoMemory>
    ensures stands { IfOk result (λ s. stands_by code.now c.now s ≡ stands (untested_next code.now c.now)) }
    ensures new { IfOk result (λ s. moved_by code.now c.now s ≡ moved c.now (untested_next code.now c.now)) }
    ensures place { IfOk result (λ s. HasNext c.now s) }
{
    match next(c, code) {
        Coming::Nothing => Ok(Step::Keeps(Standing::Stuck)),
        Coming::Handles(_) => Ok(Step::Keeps(Standing::Shared)),
        Coming::Sees(op_effect) => match op_effect {
            OpEffect::Drops { takes } => Ok(Step::Changes(Change::Drops { takes })),
            OpEffect::Puts { takes, value_ref } => {
                let value = value_from(c.stack.allocator(), &value_ref)?;
                Ok(Step::Changes(Change::Puts { takes, value }))
            }
            OpEffect::Sets { local } => Ok(Step::Sets { local }),
            OpEffect::Jumps { to, takes } => Ok(Step::Changes(Change::Jumps { to, takes })),
            OpEffect::Calls { unit, count } => Ok(Step::Changes(Change::Calls { unit, count })),
            OpEffect::Returns => Ok(Step::Returns),
            OpEffect::Fails(fault) => Ok(Step::Changes(Change::Fails(fault))),
            OpEffect::Asks { .. } => Ok(Step::Keeps(Standing::Shared)),
            OpEffect::Leaves => Ok(Step::Keeps(leaves(c.phase))),
            OpEffect::Breaks => Ok(Step::Keeps(Standing::Stuck)),
        },
    }
}

fn changes(c: &mut Context, code: &Code, change: Change) -> Result<(), NoMemory>
    requires { c.old.inside.frame.at + 1 < 2 ^ 64 }
    ensures ok { OnOk result (c.new ≡ changed code.now c.old change) }
    ensures err { OnErr result (c.new ≡ c.old) }
{
    match change {
        Change::Drops { takes } => {
            drops(c, takes);
            Ok(())
        }
        Change::Puts { takes, value } => puts(c, takes, value),
        Change::Jumps { to, takes } => {
            jumps(c, to, takes);
            Ok(())
        }
        Change::Calls { unit, count } => calls(c, code, unit, count),
        Change::Fails(fault) => {
            fails(c, fault);
            Ok(())
        }
    }
}

/// A step that was made ready is taken.
fn take_step(c: &mut Context, code: &Code, step: Step) -> Result<Standing, NoMemory>
    requires { HasNext c.old step }
    ensures stands { IfOk result (λ s. standing_of s ≡ stands_by code.now c.old step) }
    ensures new { OnOk result (c.new ≡ moved_by code.now c.old step) }
    ensures err { OnErr result (c.new ≡ c.old) }
{
    match step {
        Step::Changes(change) => match changes(c, code, change) {
            Ok(()) => Ok(Standing::Private),
            Err(_) => Err(NoMemory),
        },
        Step::Sets { local } => Ok(sets(c, local)),
        Step::Returns => returns(c),
        Step::Keeps(standing) => Ok(standing),
    }
}

/// Takes the next turn of a context where it is private, and says how the context stood before it.
///
/// # Errors
///
/// `NoMemory` where memory is refused; the context is then as it was.
pub fn go_on_in(c: &mut Context, code: &Code) -> Result<Standing, NoMemory>
    ensures stands { IfOk result (λ s. standing_of s ≡ stands (untested_next code.now c.old)) }
    ensures new { OnOk result (c.new ≡ moved c.old (untested_next code.now c.old)) }
    ensures err { OnErr result (c.new ≡ c.old) }
{
    let step = step_of(c, code)?;
    take_step(c, code, step)
}

fn private_where(holds: bool) -> Standing
    ensures { result ≡ (if holds then Standing.Private else Standing.Stuck) }
{
    if holds {
        Standing::Private
    } else {
        Standing::Stuck
    }
}

/// How a context stands whose call returns.
#[tactic(auto, using(crate::proofs::Cases::ending_stands))]
fn returning(c: &Context) -> Standing
    ensures { (code : CodeTree) → standing_of result ≡ stands (next_from code c.now (Coming.Sees OpEffect.Returns)) }
{
    if c.stack.len() == 0 {
        return Standing::Stuck;
    }
    if c.callers.len() > 0 {
        return Standing::Private;
    }
    if is_bottom(c.phase) {
        Standing::Shared
    } else {
        Standing::Stuck
    }
}

/// The ask of a context whose call returns, if it asks.
#[tactic(auto, using(crate::proofs::Cases::ending_asked))]
fn returning_ask(c: &Context) -> Result<Option<Ask>, NoMemory>
    ensures { IfOk result (λ a. (code : CodeTree) → a ≡ asked (next_from code c.now (Coming.Sees OpEffect.Returns))) }
{
    if c.callers.len() > 0 || !is_bottom(c.phase) {
        return Ok(None);
    }
    match c.stack.get(0) {
        None => Ok(None),
        Some(value) => Ok(Some(Ask::End(Outcome::Value(value.copy()?)))),
    }
}

/// What a context asks next, `None` where it does not ask.
///
/// # Errors
///
/// `NoMemory` where memory is refused.
#[tactic(auto, using(crate::proofs::Cases::raised_asked, crate::proofs::Cases::leaving_asked, crate::proofs::Cases::set_asked))]
pub fn context_ask(c: &Context, code: &Code) -> Result<Option<Ask>, NoMemory>
    ensures { IfOk result (λ a. a ≡ asked (untested_next code.now c.now)) }
{
    match next(c, code) {
        Coming::Nothing => Ok(None),
        Coming::Handles(fault) => Ok(Some(handling(c.phase, fault))),
        Coming::Sees(op_effect) => match op_effect {
            OpEffect::Drops { .. } => Ok(None),
            OpEffect::Puts { .. } => Ok(None),
            OpEffect::Sets { .. } => Ok(None),
            OpEffect::Jumps { .. } => Ok(None),
            OpEffect::Calls { .. } => Ok(None),
            OpEffect::Returns => returning_ask(c),
            OpEffect::Fails(_) => Ok(None),
            OpEffect::Asks { ask, .. } => ask_from(c.stack.allocator(), &ask).map(Some),
            OpEffect::Leaves => {
                if is_bottom(c.phase) {
                    Ok(None)
                } else {
                    Ok(Some(Ask::Leave))
                }
            }
            OpEffect::Breaks => Ok(None),
        },
    }
}

/// The monitor of a name, where its thing has the acting label.
fn named_monitor<'a>(p: &Label, name: &'a Name) -> Waits<'a>
    ensures { awaited_by result ≡ monitor_of p.now (Some name.now) }
{
    match same_rule(p, name.own()) {
        None => Waits::Monitor(name),
        Some(_) => Waits::Nobody,
    }
}

/// The monitor of what a value refers to, where the thing has the acting label.
fn monitor_of<'a>(p: &Label, r: &'a Value) -> Waits<'a>
    ensures { awaited_by result ≡ monitor_of p.now (thing_in r.now) }
{
    match thing_in(r) {
        None => Waits::Nobody,
        Some(name) => named_monitor(p, name),
    }
}

/// The end of a thread, where the acting label may read of it.
fn end_of(p: &Label, thread: u32) -> Waits<'static>
    ensures { awaited_by result ≡ end_of p.now thread }
{
    let public = Label::public(p.allocator());
    match read_rule(p, &public) {
        None => Waits::Thread(thread),
        Some(_) => Waits::Nobody,
    }
}

/// What an ask waits for, where that is not free or lives: a monitor, or a thread's end.
fn waits_of<'a>(p: &Label, ask_ref: &AskRef<'a>) -> Waits<'a>
    ensures { awaited_by result ≡ awaited p.now (Some (ask_of ask_ref.now)) }
{
    match ask_ref {
        AskRef::MonEnter { r } => monitor_of(p, r),
        AskRef::Join { thread } => end_of(p, *thread),
        _ => Waits::Nobody,
    }
}

/// It stands so, and waits for nobody.
fn alone(standing: Standing) -> Outlook<'static>
    ensures standing { result.standing ≡ standing }
    ensures waits { awaited_by result.waits ≡ nobody }
{
    Outlook {
        standing,
        waits: Waits::Nobody,
    }
}

/// How a context stands, and what its next ask waits for.
#[tactic(auto, using(crate::proofs::Cases::raised_stands, crate::proofs::Cases::leaving_stands, crate::proofs::Cases::raised_waits, crate::proofs::Cases::returned_waits, crate::proofs::Cases::leaving_waits, crate::proofs::Cases::set_waits))]
pub fn context_outlook<'a>(c: &'a Context, code: &'a Code) -> Outlook<'a>
    ensures standing { standing_of result.standing ≡ stands (untested_next code.now c.now) }
    ensures waits { awaited_by result.waits ≡ awaited c.now.label (asked (untested_next code.now c.now)) }
{
    match next(c, code) {
        Coming::Nothing => alone(Standing::Stuck),
        Coming::Handles(_) => alone(Standing::Shared),
        Coming::Sees(op_effect) => match op_effect {
            OpEffect::Drops { .. } => alone(Standing::Private),
            OpEffect::Puts { .. } => alone(Standing::Private),
            OpEffect::Sets { .. } => alone(private_where(c.stack.len() > 0)),
            OpEffect::Jumps { .. } => alone(Standing::Private),
            OpEffect::Calls { .. } => alone(Standing::Private),
            OpEffect::Returns => alone(returning(c)),
            OpEffect::Fails(_) => alone(Standing::Private),
            OpEffect::Asks { ask, .. } => Outlook {
                standing: Standing::Shared,
                waits: waits_of(&c.label, &ask),
            },
            OpEffect::Leaves => alone(leaves(c.phase)),
            OpEffect::Breaks => alone(Standing::Stuck),
        },
    }
}
