//! What the next ask of each thread waits for, kept as data.
//!
//! To find out what a thread asks next takes a walk over its context. A [`Prospect`] keeps the answer, with monitors by
//! number, so that many threads that wait for one monitor are told apart from others by a comparison of numbers.

ghost use Rattle.std.specs.Prelude.{◌≡◌, ◌<◌, ◌≤◌, ◌++◌, ◌∷◌, [], true, length, slice_get, Some, IfOk, OnOk, OnErr, not, if◌then◌else◌};
ghost use Rattle.std.specs.List.{list_any};
ghost use Rattle.lam_value.specs.Names.{name_eq};
ghost use Rattle.monitor_core.specs.Held.{is_free, is_free_of};
ghost use Rattle.lam_machine.specs.Worlds.{IsSound};
ghost use Rattle.lam_machine_terms.specs.Worlds.{thread_at};
ghost use Rattle.lam_machine_terms.specs.Turns.{is_living};
ghost use Rattle.lam_value.specs.declared.names.Name.{Name as Named};
ghost use Rattle.std.specs.FinMap as map;
ghost use Rattle.thread_core_effects.specs.Reading.{thing_in};
ghost use Rattle.thread_core_stretches.specs.Turning.{awaited_by, a_monitor, standing_of};
ghost use Rattle.lam_machine_effects.specs.Parts.{world_of};
ghost use Rattle.thread_host_run.specs.Readiness.{waits_on, ready_by};
ghost use Rattle.thread_host_run.specs.Waiting.{most_names, awaited_at, IsAwaited, Extends, Tells, TellsBut, IsHeldSo, Touches, is_stale, is_number, is_monitor, is_everything};

use crate::readiness::{stands_ready, thread_in};
use guarded_code::Verified;
use indexmap::IndexSet;
use lam_machine::World;
use lam_machine_effects::Stores;
use lam_machine_equal::lives;
use lam_value::{Name, Value};
use monitor_core::Holder;
use thread_core_effects::thing_in;
use thread_core_state::LamThread;
use thread_core_stretches::{Outlook, Waits, outlook};
use want_of_memory::NoMemory;

/// The most monitors that have a number. While all are given, a thread that is looked at and waits for a monitor gets
/// [`Awaits::Unknown`]. The next turn that touches other threads drops all numbers and looks at every thread.
pub const MOST_NAMES: usize = 8_192;

/// What the next ask of a thread waits for.
#[derive(Clone, Copy, Debug, PartialEq, Eq)]
pub enum Awaits {
    Nobody,
    /// The monitor of this number.
    Monitor(u32),
    /// The end of this thread.
    End(u32),
    /// The thread is to be looked at.
    Unknown,
}

/// What the next ask of a thread waits for, and whether the thread is ready.
#[derive(Clone, Copy, Debug, PartialEq, Eq)]
pub struct Prospect {
    pub awaits: Awaits,
    pub ready: bool,
}

/// What a turn may have changed for other threads than its own.
#[derive(Clone, Copy, Debug, PartialEq, Eq)]
pub enum Touched {
    /// The monitor of this number with its holder now, if any; or a monitor that has no number.
    OneMonitor(Option<u32>, Option<Holder>),
    /// Any monitor, and who lives.
    Everything,
}

/// What a thread's next ask waits for, and whether the thread is ready, found from the world.
pub fn look(world: &World, code: &Verified, names: &mut IndexSet<Name>, thread: u32) -> Prospect
    requires sound { IsSound code.now world.now }
    ensures more { Extends names.old.keys names.new.keys }
    ensures tells { Tells code.now world.now names.new.keys thread result }
{
    look_in(world.stores(), world.threads(), code, names, thread)
}

fn look_in(
    stores: &Stores,
    threads: &[LamThread],
    code: &Verified,
    names: &mut IndexSet<Name>,
    thread: u32,
) -> Prospect
    requires sound { IsSound code.now (world_of stores.now threads.now) }
    ensures more { Extends names.old.keys names.new.keys }
    ensures tells { Tells code.now (world_of stores.now threads.now) names.new.keys thread result }
{
    match thread_in(threads, thread) {
        None => Prospect {
            awaits: Awaits::Nobody,
            ready: false,
        },
        Some(found) => prospect_of(stores, threads, names, thread, outlook(found, code)),
    }
}

/// What is known of a thread that is there.
fn prospect_of(
    stores: &Stores,
    threads: &[LamThread],
    names: &mut IndexSet<Name>,
    thread: u32,
    outlook: Outlook,
) -> Prospect
    ensures more { Extends names.old.keys names.new.keys }
    ensures awaits { IsAwaited names.new.keys result.awaits (awaited_by outlook.entry.waits) }
    ensures ready { result.ready ≡ ready_by (standing_of outlook.entry.standing) (waits_on (world_of stores.now threads.now) thread (awaited_by outlook.entry.waits)) }
{
    Prospect {
        awaits: numbered(names, outlook.waits),
        ready: stands_ready(stores, threads, thread, outlook),
    }
}

/// What an ask waits for, where a monitor gets a number.
fn numbered(names: &mut IndexSet<Name>, waits: Waits) -> Awaits
    ensures more { Extends names.old.keys names.new.keys }
    ensures awaits { IsAwaited names.new.keys result (awaited_by waits.entry) }
{
    match waits {
        Waits::Nobody => Awaits::Nobody,
        Waits::Monitor(name) => number_of(names, name),
        Waits::Thread(thread) => Awaits::End(thread),
    }
}

/// The number of a monitor, which it gets where it has none; `Unknown` where all numbers are given or memory is refused.
fn number_of(names: &mut IndexSet<Name>, name: &Name) -> Awaits
    ensures more { Extends names.old.keys names.new.keys }
    ensures awaits { IsAwaited names.new.keys result (a_monitor name.now) }
{
    if names.len() >= MOST_NAMES {
        return Awaits::Unknown;
    }
    match name.copy() {
        Ok(copy) => put_name(names, copy),
        Err(_) => Awaits::Unknown,
    }
}

fn put_name(names: &mut IndexSet<Name>, name: Name) -> Awaits
    requires { length names.old.keys < most_names }
    ensures more { Extends names.old.keys names.new.keys }
    ensures awaits { IsAwaited names.new.keys result (a_monitor name) }
{
    match insert_name(names, name) {
        Ok(at) => Awaits::Monitor(at as u32),
        Err(_) => Awaits::Unknown,
    }
}

fn insert_name(names: &mut IndexSet<Name>, name: Name) -> Result<usize, NoMemory>
    requires { length names.old.keys < most_names }
    ensures ok { OnOk result (names.new.keys ≡ (if list_any (name_eq name) names.old.keys then names.old.keys else names.old.keys ++ name ∷ [])) }
    ensures err { OnErr result (names.new.keys ≡ names.old.keys) }
    ensures stands { IfOk result (λ n. slice_get names.new.keys n ≡ Some name) }
    ensures few { IfOk result (λ n. n ≤ most_names) }
{
    let (at, _) = names.insert_full(name)?;
    Ok(at)
}

/// The same as [`look`], after a turn of another thread: only what that turn touched, or what is unknown, is found anew.
#[inline(always)]
pub fn look_again(
    world: &World,
    code: &Verified,
    names: &mut IndexSet<Name>,
    thread: u32,
    prospect: Prospect,
    touched: Touched,
) -> Prospect
    requires sound { IsSound code.now world.now }
    ensures more { Extends names.old.keys names.new.keys }
    ensures tells { IsHeldSo names.old.keys world.now touched → TellsBut touched code.now world.now names.old.keys thread prospect → Tells code.now world.now names.new.keys thread result }
{
    match prospect.awaits {
        Awaits::Nobody => prospect,
        Awaits::Monitor(number) => Prospect {
            awaits: prospect.awaits,
            ready: has_monitor(world, names, thread, number, prospect.ready, touched),
        },
        Awaits::End(other) => Prospect {
            awaits: prospect.awaits,
            ready: has_end(world, other, prospect.ready, touched),
        },
        Awaits::Unknown => look(world, code, names, thread),
    }
}

/// Whether the monitor of a number is free for a thread, where that may have changed, and else what it was.
#[inline(always)]
fn has_monitor(
    world: &World,
    names: &IndexSet<Name>,
    thread: u32,
    number: u32,
    was: bool,
    touched: Touched,
) -> bool
    ensures { (n : Named) → slice_get names.now.keys number ≡ Some n → IsHeldSo names.now.keys world.now touched → result ≡ (if is_monitor touched number then is_free world.now.monitors n thread else was) }
{
    match touched {
        Touched::OneMonitor(one, holder) => has_one(one, holder, number, thread, was),
        Touched::Everything => has_any(world, names, number, thread, was),
    }
}

/// Whether the monitor is free for a thread, where it is this one, and else what it was.
#[inline(always)]
fn has_one(one: Option<u32>, holder: Option<Holder>, number: u32, thread: u32, was: bool) -> bool
    ensures { result ≡ (if is_number one number then is_free_of holder thread else was) }
{
    if is_number(one, number) {
        is_free(holder, thread)
    } else {
        was
    }
}

/// Whether the monitor of a number is free for a thread.
fn has_any(world: &World, names: &IndexSet<Name>, number: u32, thread: u32, was: bool) -> bool
    ensures { (n : Named) → slice_get names.now.keys number ≡ Some n → result ≡ is_free world.now.monitors n thread }
{
    match names.get_index(number as usize) {
        None => was,
        Some(name) => is_free_in(world, name, thread),
    }
}

#[inline(always)]
fn is_number(number: Option<u32>, wanted: u32) -> bool
    ensures { result ≡ is_number number wanted }
{
    match number {
        None => false,
        Some(one) => one == wanted,
    }
}

/// Whether a monitor that is held so is free for a thread.
#[inline(always)]
fn is_free(holder: Option<Holder>, thread: u32) -> bool
    ensures { result ≡ is_free_of holder thread }
{
    match holder {
        None => true,
        Some(one) => one.thread == thread,
    }
}

fn is_free_in(world: &World, name: &Name, thread: u32) -> bool
    ensures { result ≡ is_free world.now.monitors name.now thread }
{
    world.stores.monitors.is_free_for(name, thread)
}

/// Who holds a monitor.
fn holder_in(world: &World, name: &Name) -> Option<Holder>
    ensures { result ≡ map.get world.now.monitors name.now }
{
    world.stores.monitors.holder(name)
}

/// Whether a thread has ended, where that may have changed, and else what it was.
#[inline(always)]
fn has_end(world: &World, other: u32, was: bool, touched: Touched) -> bool
    ensures { result ≡ (if is_everything touched then not (is_living (thread_at world.now other)) else was) }
{
    match touched {
        Touched::OneMonitor(_, _) => was,
        Touched::Everything => !lives(world.threads(), other),
    }
}

/// What is touched where the monitor of a thing has changed its holder.
pub fn touched_at(world: &World, names: &IndexSet<Name>, thing: &Value) -> Touched
    ensures held { IsHeldSo names.now.keys world.now result }
    ensures touches { Touches names.now.keys (thing_in thing.now) result }
{
    match thing_in(thing) {
        None => Touched::OneMonitor(None, None),
        Some(name) => touched_monitor(world, names, name),
    }
}

fn touched_monitor(world: &World, names: &IndexSet<Name>, name: &Name) -> Touched
    ensures held { IsHeldSo names.now.keys world.now result }
    ensures touches { Touches names.now.keys (Some name.now) result }
{
    let _ = names.len();
    match names.get_index_of(name) {
        None => Touched::OneMonitor(None, None),
        Some(at) => touched_number(world, names, at),
    }
}

/// The monitor of a number is touched.
fn touched_number(world: &World, names: &IndexSet<Name>, at: usize) -> Touched
    ensures held { IsHeldSo names.now.keys world.now result }
    ensures stale { is_monitor result at ≡ true }
{
    let Ok(number) = u32::try_from(at) else {
        return Touched::Everything;
    };
    match names.get_index(at) {
        None => Touched::Everything,
        Some(name) => Touched::OneMonitor(Some(number), holder_in(world, name)),
    }
}
