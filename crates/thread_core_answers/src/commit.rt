//! The commit and the rollback of a prepared answer, without memory.

ghost use Rattle.std.specs.Prelude.{◌≡◌, ◌<◌, [], None, if◌then◌else◌, reverse, length, drop, slice_get};
ghost use Rattle.std.specs.List.{remove};
ghost use Rattle.thread_core.specs.Moves.{failed};
ghost use Rattle.thread_core_answers.specs.Preparing.{unwound, caps_or, held_after, held_before, caught, gone, undone, done_in, undone_in};

use crate::plan::{Going, Monitor, Plan};
use capabilities::Caps;
use lam_asks::Fault;
use lam_value::Name;
use std::mem::replace;
use thread_core_state::{Context, Frame, Operands, Phase};

#[tactic(auto, using(crate::proofs::Held::removed_reversed, crate::proofs::Held::removed_none))]
fn drop_at(held: &mut Vec<Name>, place: usize)
    ensures { reverse held.new.items ≡ remove (reverse held.old.items) place }
{
    if place < held.len() {
        let _ = held.remove(held.len() - 1 - place);
    }
}

fn change_held(held: &mut Vec<Name>, monitor: Monitor)
    ensures { reverse held.new.items ≡ held_after monitor (reverse held.old.items) }
{
    match monitor {
        Monitor::Stays => {}
        Monitor::Taken => {}
        Monitor::Given(place) => drop_at(held, place),
    }
}

fn restore_held(held: &mut Vec<Name>, monitor: Monitor)
    ensures { reverse held.new.items ≡ held_before monitor (reverse held.old.items) }
{
    match monitor {
        Monitor::Stays => {}
        Monitor::Taken => {
            let _ = held.pop();
        }
        Monitor::Given(_) => {}
    }
}

fn kept(clears: bool, fault: Option<Fault>) -> Option<Fault>
    ensures { result ≡ (if clears then None else fault) }
{
    if clears { None } else { fault }
}

fn change_caps(caps: &mut Caps, new: Option<Caps>)
    ensures { caps.new ≡ caps_or new caps.old }
{
    match new {
        None => drop(new),
        Some(new) => drop(replace(caps, new)),
    }
}

/// A context goes on.
fn go(c: &mut Context, going: Going)
    ensures { c.new ≡ gone going c.old }
{
    let Going {
        at,
        takes,
        added,
        clears,
        caps,
        monitor,
    } = going;
    c.at = at;
    c.stack.drop_under(added, takes);
    c.fault = kept(clears, c.fault);
    change_caps(&mut c.caps, caps);
    change_held(&mut c.held, monitor);
}

/// What was put on a context before its answer is taken back.
fn ungo(c: &mut Context, going: Going)
    ensures { c.new ≡ undone going c.old }
{
    c.stack.drop_many(going.added);
    restore_held(&mut c.held, going.monitor);
    drop(going);
}

fn fail(c: &mut Context, fault: Fault)
    ensures { c.new ≡ failed c.old fault }
{
    c.fault = Some(fault);
}

/// The outermost of the calls that wait, where one does.
fn outermost(callers: &mut Vec<Frame>) -> Option<Frame>
    ensures frame { result ≡ slice_get callers.old.items 0 }
    ensures frames { callers.new.items ≡ [] }
{
    callers.truncate(1);
    callers.pop()
}

/// The outermost call is the acting one, and no other is open.
#[tactic(auto, using(crate::proofs::Outermost::outermost_none, crate::proofs::Outermost::outermost_some))]
fn unwind(c: &mut Context)
    ensures { c.new ≡ unwound c.old }
{
    match outermost(&mut c.callers) {
        None => {}
        Some(frame) => {
            c.unit = frame.unit;
            c.locals = frame.locals;
        }
    }
}

/// The catch block of a context begins.
fn begin_catch(c: &mut Context, at: usize, stack: Operands)
    ensures { c.new ≡ caught c.old at stack }
{
    unwind(c);
    c.held.clear();
    c.phase = Phase::Catch;
    c.at = at;
    c.stack = stack;
    c.fault = None;
}

fn fail_last(contexts: &mut Vec<Context>, fault: Fault)
    requires { 0 < length contexts.old.items }
    ensures { reverse contexts.new.items ≡ done_in (Plan.Fails fault) (reverse contexts.old.items) }
{
    let at = contexts.len() - 1;
    fail(&mut contexts[at], fault);
}

fn go_last(contexts: &mut Vec<Context>, going: Going)
    requires { 0 < length contexts.old.items }
    ensures { reverse contexts.new.items ≡ done_in (Plan.Goes going) (reverse contexts.old.items) }
{
    let at = contexts.len() - 1;
    go(&mut contexts[at], going);
}

fn go_second(contexts: &mut Vec<Context>, going: Going)
    requires { 1 < length contexts.old.items }
    ensures { reverse contexts.new.items ≡ done_in (Plan.Enters going) (reverse contexts.old.items) }
{
    let at = contexts.len() - 2;
    go(&mut contexts[at], going);
}

fn catch_last(contexts: &mut Vec<Context>, at: usize, stack: Operands)
    requires { 0 < length contexts.old.items }
    ensures { reverse contexts.new.items ≡ done_in (Plan.Catches at stack) (reverse contexts.old.items) }
{
    let last = contexts.len() - 1;
    begin_catch(&mut contexts[last], at, stack);
}

fn ungo_last(contexts: &mut Vec<Context>, going: Going)
    requires { 0 < length contexts.old.items }
    ensures { reverse contexts.new.items ≡ undone_in (Plan.Goes going) (reverse contexts.old.items) }
{
    let at = contexts.len() - 1;
    ungo(&mut contexts[at], going);
}

fn ungo_entered(contexts: &mut Vec<Context>, going: Going)
    requires { 1 < length contexts.old.items }
    ensures { reverse contexts.new.items ≡ undone_in (Plan.Enters going) (reverse contexts.old.items) }
{
    drop_last(contexts);
    let at = contexts.len() - 1;
    ungo(&mut contexts[at], going);
}

/// The acting context goes, where there is one.
fn drop_last(contexts: &mut Vec<Context>)
    ensures { reverse contexts.new.items ≡ drop 1 (reverse contexts.old.items) }
{
    drop(contexts.pop());
}

/// Does what was planned.
pub fn do_plan(contexts: &mut Vec<Context>, plan: Plan)
    ensures { reverse contexts.new.items ≡ done_in plan (reverse contexts.old.items) }
{
    if contexts.is_empty() {
        drop(plan);
        return;
    }
    match plan {
        Plan::Fails(fault) => {
            drop(plan);
            fail_last(contexts, fault);
        }
        Plan::Leaves => {
            drop(plan);
            drop_last(contexts);
        }
        Plan::Catches { at, stack } => catch_last(contexts, at, stack),
        Plan::Goes(going) => go_last(contexts, going),
        Plan::Enters(going) => {
            if contexts.len() > 1 {
                go_second(contexts, going);
            } else {
                drop(going);
            }
        }
    }
}

/// Takes back what was put on the contexts for a plan.
pub fn undo_plan(contexts: &mut Vec<Context>, plan: Plan)
    ensures { reverse contexts.new.items ≡ undone_in plan (reverse contexts.old.items) }
{
    if contexts.is_empty() {
        drop(plan);
        return;
    }
    match plan {
        Plan::Fails(_) => drop(plan),
        Plan::Leaves => drop(plan),
        Plan::Catches { .. } => drop(plan),
        Plan::Goes(going) => ungo_last(contexts, going),
        Plan::Enters(going) => {
            if contexts.len() > 1 {
                ungo_entered(contexts, going);
            } else {
                drop(going);
            }
        }
    }
}
