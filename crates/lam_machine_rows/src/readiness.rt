//! The asks that a context may make, and those that wait.

ghost use Rattle.std.specs.Prelude.{◌≡◌};
ghost use Rattle.thread_steps.specs.Threads.{Context};
ghost use Rattle.lam_machine_effects.specs.Worlds.{World};
ghost use Rattle.lam_machine_effects.specs.Turns as turns;
ghost use Rattle.thread_steps.specs.Ops as ops;
ghost use Rattle.lam_machine_rows.specs.Acting.{acting_of};
ghost use Rattle.lam_machine_rows.specs.Rows.{with_monitors, at_label};
ghost use Rattle.lam_machine_rows.specs.Waits.{JoinsLiving, IsReadiness};

use crate::actor::Acting;
use crate::rules::thing_of;
use flow_labels::{Label, read_rule, same_rule};
use lam_asks::Ask;
use lam_value::{Name, Value};
use monitor_core::Monitors;

/// Whether a context of a thread may make an ask, and the ask does not wait. `living` is whether the thread lives that
/// the ask joins, where it joins one.
pub fn is_ready(monitors: &Monitors, thread: u32, living: bool, who: &Acting, ask: &Ask) -> bool
    ensures { IsReadiness monitors.now thread living who.now ask.now result }
{
    may_ask(who, ask) && !waits(monitors, thread, living, who.label(), ask)
}

/// Whether a context may make an ask: its thread's first context is never left and ends with its thread, and a context
/// gives back a monitor that it took.
fn may_ask(who: &Acting, ask: &Ask) -> bool
    ensures { (c : Context) → acting_of c ≡ who.now → result ≡ turns.may_ask c ask.now }
{
    match ask {
        Ask::Leave => !who.is_first(),
        Ask::End(_) => who.is_first(),
        Ask::MonLeave { r } => lists(who.held(), r),
        _ => true,
    }
}

/// Whether a reference is to one of these things.
fn lists(held: &[Name], r: &Value) -> bool
    ensures { result ≡ turns.lists held.now r.now }
{
    match thing_of(r) {
        None => false,
        Some(name) => is_held(name, held),
    }
}

/// Whether a name is among others.
fn is_held(name: &Name, held: &[Name]) -> bool
    ensures { result ≡ ops.is_held name.now held.now }
{
    held.iter().any(|other| name.order(other).is_eq())
}

/// Whether an ask waits: for a monitor that another thread holds, or for a thread that lives.
fn waits(monitors: &Monitors, thread: u32, living: bool, p: &Label, ask: &Ask) -> bool
    ensures { (w : World) (c : Context) → JoinsLiving w ask.now living → result ≡ turns.waits (with_monitors monitors.now w) thread (at_label p.now c) ask.now }
{
    match ask {
        Ask::MonEnter { r } => is_taken(monitors, thread, p, r),
        Ask::Join { .. } => {
            let public = Label::public(p.allocator());
            let denied = read_rule(p, &public);
            drop(public);
            denied.is_none() && living
        }
        _ => false,
    }
}

/// Whether another thread holds the monitor of a thing at the acting label.
fn is_taken(monitors: &Monitors, thread: u32, p: &Label, r: &Value) -> bool
    ensures { (w : World) → result ≡ turns.is_taken (with_monitors monitors.now w) thread p.now r.now }
{
    match thing_of(r) {
        None => false,
        Some(name) => { same_rule(p, name.own()).is_none() && !monitors.is_free_for(name, thread) }
    }
}
