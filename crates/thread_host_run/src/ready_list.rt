//! The list of a run's ready threads, with what each thread waits for.
//!
//! A turn that enters or leaves a monitor touches the threads that wait for that monitor, and no others. So their
//! readiness is read off who holds it, and the list is made anew with a look at the thread that moved and at those of which
//! nothing is known. A fault in a region, an end and a new thread touch all that wait for something. After a quiet turn
//! only the thread that took it is looked at: it leaves the list where it is no longer ready.
//!
//! The room for as many threads as a run can have is taken once, and no turn takes more for the list. A monitor's name is
//! copied when it gets its number; where that is refused, it gets none.

ghost use Rattle.std.specs.Prelude.{◌≡◌, ◌<◌, ◌≤◌, true, length, IfOk, OnOk, OnErr, vec_capacity};
ghost use Rattle.lam_asks.specs.declared.answer.Event.{Event as Turn};
ghost use Rattle.lam_machine_terms.specs.Worlds.{World as Plain};
ghost use Rattle.lam_machine_terms.specs.Turns as turns;
ghost use Rattle.lam_machine_terms.specs.Limits.{most_threads};
ghost use Rattle.lam_machine_laws.specs.Turned.{IsTurn};
ghost use Rattle.lam_machine.specs.Worlds.{IsSound};
ghost use Rattle.thread_core_stretches.specs.Stretches.{StretchStands};
ghost use Rattle.thread_host_run.specs.Courses.{TookTurn};
ghost use Rattle.thread_host_run.specs.Quiet.{is_quiet};
ghost use Rattle.thread_host_run.specs.ReadyLists.{kept_list};
ghost use Rattle.thread_host_run.specs.Stretched.{StretchFits, WentOn, checked_in};
ghost use Rattle.thread_host_run.specs.Waiting.{IsHeldSo};
ghost use Rattle.thread_host_run.specs.Kept.{Lists, ListsBy, HasRoom, AllTellBut, OthersTell, IsAsk, IsOfMonitor, AreBut, AreOld};

use crate::course::Course;
use crate::lists::{check_in_listed, few_threads, leave, roomy_list};
use crate::one_turn::touches_others;
use crate::waits::{Awaits, MOST_NAMES, Prospect, Touched, look, look_again, touched_at};
use guarded_code::Verified;
use indexmap::IndexSet;
use lam_asks::{Ask, Event, What};
use lam_machine::World;
use lam_machine_effects::THREAD_LIMIT;
use lam_value::{Name, Value};
use std::alloc::Global;
use thread_core_stretches::Stretch;
use want_of_memory::NoMemory;

/// The ready threads, in increasing order, with what the next ask of each thread waits for and the monitors that have a number.
#[derive(Drop)]
pub struct ReadyList {
    pub threads: Vec<u32>,
    pub prospects: Vec<Prospect>,
    pub names: IndexSet<Name>,
}

/// What is known of a thread that is to be looked at.
const UNKNOWN: Prospect = Prospect {
    awaits: Awaits::Unknown,
    ready: false,
};

impl ReadyList {
    /// The ready threads of a world.
    ///
    /// # Errors
    ///
    /// `NoMemory` where memory is refused.
    pub fn new(alloc: Global, world: &World, code: &Verified) -> Result<ReadyList, NoMemory>
        requires sound { IsSound code.now world.now }
        ensures lists { IfOk result (Lists code.now world.now) }
        ensures room { IfOk result HasRoom }
    {
        let mut list = ReadyList {
            threads: roomy_list(alloc)?,
            prospects: Vec::with_capacity(alloc, THREAD_LIMIT as usize)?,
            names: IndexSet::with_capacity(alloc, MOST_NAMES)?,
        };
        look_at_all(&mut list, world, code);
        Ok(list)
    }
}

/// After a turn of a thread, which left this world: the list stays that of the ready threads.
///
/// `taken` is the turn's event, or `None` where it was private and no event was made.
pub fn list_after_turn(
    list: &mut ReadyList,
    world: &World,
    code: &Verified,
    thread: u32,
    taken: &Option<Event>,
)
    requires sound { IsSound code.now world.now }
    requires room { HasRoom list.old }
    ensures lists { (before : Plain) → TookTurn code.now thread before taken.now world.now → Lists code.now before list.old → Lists code.now world.now list.new }
    ensures room { HasRoom list.new }
{
    match taken {
        None => after_quiet_turn(list, world, code, thread),
        Some(event) => after_event(list, world, code, thread, &event.what),
    }
}

/// After a turn that was this.
fn after_event(list: &mut ReadyList, world: &World, code: &Verified, thread: u32, what: &What)
    requires sound { IsSound code.now world.now }
    requires room { HasRoom list.old }
    ensures lists { (before : Plain) (e : Turn) → IsTurn code.now thread before e world.now → e.what ≡ what.now → Lists code.now before list.old → Lists code.now world.now list.new }
    ensures room { HasRoom list.new }
{
    match what {
        What::Private => after_quiet_turn(list, world, code, thread),
        What::Asked { ask, .. } => after_ask(list, world, code, thread, ask),
    }
}

/// After a turn that was this ask.
fn after_ask(list: &mut ReadyList, world: &World, code: &Verified, thread: u32, ask: &Ask)
    requires sound { IsSound code.now world.now }
    requires room { HasRoom list.old }
    ensures lists { (before : Plain) (e : Turn) → IsTurn code.now thread before e world.now → IsAsk ask.now e.what → Lists code.now before list.old → Lists code.now world.now list.new }
    ensures room { HasRoom list.new }
{
    if touches_others(ask) {
        after_touching(list, world, code, thread, ask);
    } else {
        after_quiet_turn(list, world, code, thread);
    }
}

/// After an ask that touches other threads.
fn after_touching(list: &mut ReadyList, world: &World, code: &Verified, thread: u32, ask: &Ask)
    requires sound { IsSound code.now world.now }
    requires room { HasRoom list.old }
    ensures lists { (before : Plain) (e : Turn) → IsTurn code.now thread before e world.now → IsAsk ask.now e.what → Lists code.now before list.old → Lists code.now world.now list.new }
    ensures room { HasRoom list.new }
{
    match ask {
        Ask::MonEnter { r } => after_monitor(list, world, code, thread, r),
        Ask::MonLeave { r } => after_monitor(list, world, code, thread, r),
        _ => after_touch(list, world, code, thread, Touched::Everything),
    }
}

/// After a quiet turn: every other thread is ready where it was.
fn after_quiet_turn(list: &mut ReadyList, world: &World, code: &Verified, thread: u32)
    requires sound { IsSound code.now world.now }
    requires room { HasRoom list.old }
    ensures lists { (before : Plain) (e : Turn) → IsTurn code.now thread before e world.now → is_quiet e.what ≡ true → Lists code.now before list.old → Lists code.now world.now list.new }
    ensures room { HasRoom list.new }
{
    let prospect = look(world, code, &mut list.names, thread);
    put(&mut list.prospects, thread, prospect);
    keep(&mut list.threads, thread, prospect.ready);
}

/// A thread leaves the list where it is no longer ready.
fn keep(threads: &mut Vec<u32>, thread: u32, is_ready: bool)
    ensures list { threads.new.items ≡ kept_list is_ready thread threads.old.items }
    ensures room { vec_capacity threads.new ≡ vec_capacity threads.old }
{
    if !is_ready {
        leave(threads, thread);
    }
}

/// After a turn that entered or left the monitor of a thing, or was to.
fn after_monitor(list: &mut ReadyList, world: &World, code: &Verified, thread: u32, thing: &Value)
    requires sound { IsSound code.now world.now }
    requires room { HasRoom list.old }
    ensures lists { (before : Plain) (e : Turn) → IsTurn code.now thread before e world.now → IsOfMonitor thing.now e.what → Lists code.now before list.old → Lists code.now world.now list.new }
    ensures room { HasRoom list.new }
{
    let touched = touched_at(world, &list.names, thing);
    after_touch(list, world, code, thread, touched);
}

/// After a turn that touched this. Where the names are many, they are dropped first.
fn after_touch(list: &mut ReadyList, world: &World, code: &Verified, thread: u32, touched: Touched)
    requires sound { IsSound code.now world.now }
    requires room { HasRoom list.old }
    ensures lists { IsHeldSo list.old.names.keys world.now touched → OthersTell touched code.now world.now list.old.names.keys thread list.old.prospects.items → Lists code.now world.now list.new }
    ensures room { HasRoom list.new }
{
    if list.names.len() >= MOST_NAMES {
        look_at_all(list, world, code);
    } else {
        put(&mut list.prospects, thread, UNKNOWN);
        look_through(list, world, code, touched);
    }
}

/// Looks at every thread.
fn look_at_all(list: &mut ReadyList, world: &World, code: &Verified)
    requires sound { IsSound code.now world.now }
    requires room { HasRoom list.old }
    ensures lists { Lists code.now world.now list.new }
    ensures room { HasRoom list.new }
{
    list.prospects.clear();
    list.names.clear();
    look_through(list, world, code, Touched::Everything);
}

/// Looks at all that was touched, and at threads of which nothing is known.
fn look_through(list: &mut ReadyList, world: &World, code: &Verified, touched: Touched)
    requires sound { IsSound code.now world.now }
    requires room { HasRoom list.old }
    ensures lists { IsHeldSo list.old.names.keys world.now touched → AllTellBut touched code.now world.now list.old.names.keys list.old.prospects.items → Lists code.now world.now list.new }
    ensures room { HasRoom list.new }
{
    cover(&mut list.prospects, few_threads(world));
    refresh(
        &mut list.threads,
        &mut list.prospects,
        &mut list.names,
        world,
        code,
        touched,
    );
}

/// What is known of a thread that is there.
fn put(prospects: &mut Vec<Prospect>, thread: u32, prospect: Prospect)
    ensures each { AreBut thread prospect prospects.old.items prospects.new.items }
    ensures count { length prospects.new.items ≡ length prospects.old.items }
    ensures room { vec_capacity prospects.new ≡ vec_capacity prospects.old }
{
    if (thread as usize) < prospects.len() {
        prospects[thread as usize] = prospect;
    }
}

/// Makes them as many as there are threads. Nothing is known of those that are new.
fn cover(prospects: &mut Vec<Prospect>, count: u32)
    requires few { count ≤ most_threads }
    requires room { most_threads ≤ vec_capacity prospects.old }
    ensures count { length prospects.new.items ≡ count }
    ensures each { AreOld prospects.old.items prospects.new.items }
    ensures room { most_threads ≤ vec_capacity prospects.new }
{
    if prospects.len() > count as usize {
        prospects.clear();
    }
    for place in prospects.len()..count as usize {
        prospects.push_reserved(UNKNOWN);
    }
}

/// Makes the list anew, by what is known and by a look at what was touched.
fn refresh(
    threads: &mut Vec<u32>,
    prospects: &mut Vec<Prospect>,
    names: &mut IndexSet<Name>,
    world: &World,
    code: &Verified,
    touched: Touched,
)
    requires sound { IsSound code.now world.now }
    requires count { length prospects.old.items ≡ length world.now.threads }
    requires room { most_threads ≤ vec_capacity threads.old }
    ensures lists { IsHeldSo names.old.keys world.now touched → AllTellBut touched code.now world.now names.old.keys prospects.old.items → ListsBy code.now world.now names.new.keys prospects.new.items threads.new.items }
    ensures room { most_threads ≤ vec_capacity threads.new }
    ensures kept { vec_capacity prospects.new ≡ vec_capacity prospects.old }
{
    threads.clear();
    for thread in 0..few_threads(world) {
        let known = prospects[thread as usize];
        let prospect = look_again(world, code, names, thread, known, touched);
        prospects[thread as usize] = prospect;
        if prospect.ready {
            threads.push_reserved(thread);
        }
    }
}

/// Takes private turns of a thread that is ready in a row, at most `most`; the list stays that of the ready threads, and
/// only that thread is looked at. The answer is how many it took. The contract leaves open how many it takes.
///
/// # Errors
///
/// `NoMemory` where memory is refused for the first of them; nothing has changed then.
pub fn go_ready(
    course: &mut Course,
    list: &mut ReadyList,
    code: &Verified,
    thread: u32,
    most: u64,
) -> Result<u64, NoMemory>
    requires sound { IsSound code.now course.old.world }
    requires ready { turns.ready code.now course.old.world thread ≡ true }
    requires lists { Lists code.now course.old.world list.old }
    requires room { HasRoom list.old }
    ensures few { IfOk result (λ n. n ≤ most) }
    ensures ok { IfOk result (λ n. WentOn code.now thread n course.old course.new) }
    ensures err { OnErr result (course.new ≡ course.old) }
    ensures lists { Lists code.now course.new.world list.new }
    ensures room { HasRoom list.new }
{
    let taken = course.go_along(code, thread, most)?;
    let prospect = look(course.world(), code, &mut list.names, thread);
    put(&mut list.prospects, thread, prospect);
    keep(&mut list.threads, thread, prospect.ready);
    Ok(taken)
}

/// Checks a stretch of some turns in; the list stays that of the ready threads, and only the stretch's thread is looked at.
///
/// # Errors
///
/// `NoMemory` where memory is refused; nothing has changed then, and the stretch is let go.
pub fn check_in_ready(
    course: &mut Course,
    list: &mut ReadyList,
    code: &Verified,
    stretch: Stretch,
) -> Result<(), NoMemory>
    requires sound { IsSound code.now course.old.world }
    requires stands { StretchStands code.now stretch }
    requires some { 0 < stretch.count }
    requires fits { StretchFits course.old stretch }
    requires lists { Lists code.now course.old.world list.old }
    requires room { HasRoom list.old }
    ensures ok { OnOk result (course.new ≡ checked_in course.old stretch) }
    ensures err { OnErr result (course.new ≡ course.old) }
    ensures lists { Lists code.now course.new.world list.new }
    ensures room { HasRoom list.new }
{
    let thread = stretch.thread;
    check_in_listed(course, &mut list.threads, code, stretch)?;
    let prospect = look(course.world(), code, &mut list.names, thread);
    put(&mut list.prospects, thread, prospect);
    Ok(())
}
