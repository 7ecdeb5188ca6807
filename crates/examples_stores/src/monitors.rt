//! Monitors, with their holders and counts.

use flow_labels::Label;
use lam_value::Name;
use monitor_core::{Holder, Monitors, TAKINGS_LIMIT};
use std::alloc::Global;
use tag_sets::NoMemory;

/// A thread takes a monitor, and it is said whether it could.
fn take(monitors: &mut Monitors, name: &Name, thread: u32) -> bool {
    if !monitors.is_free_for(name, thread) || monitors.takings(name) >= TAKINGS_LIMIT {
        return false;
    }
    monitors.enter(name, thread).is_ok()
}

/// Whether a thread holds a monitor so often.
fn is_held(monitors: &Monitors, name: &Name, thread: u32, count: u64) -> bool {
    monitors.holder(name) == Some(Holder { thread, count })
}

/// Whether a monitor is taken again by its own thread alone.
fn is_taken_again(monitors: &mut Monitors, name: &Name) -> bool {
    let own = take(monitors, name, 0);
    let other = take(monitors, name, 1);
    let again = take(monitors, name, 0);
    own & !other & again & is_held(monitors, name, 0, 2)
}

/// The holder of a monitor lets go of all that it holds, which is this one.
fn drop_held(monitors: &mut Monitors, name: Name) {
    monitors.drop_all(0, &[name]);
}

/// Whether another thread leaves in vain, and the holder's exits free a monitor. `listed` is the same name.
fn is_left(monitors: &mut Monitors, name: &Name, listed: Name) -> bool {
    monitors.leave(name, 1);
    let held = is_held(monitors, name, 0, 2);
    monitors.leave(name, 0);
    drop_held(monitors, listed);
    held & monitors.is_free_for(name, 1)
}

/// The name of the first public monitor.
fn first(alloc: Global) -> Result<Name, NoMemory> {
    let public = Label::public(alloc);
    Name::of(&public, &public, 0)
}

/// Whether a new monitor is taken again and left.
fn is_taken_and_left(alloc: Global, name: &Name) -> Result<bool, NoMemory> {
    let listed = name.copy()?;
    let mut monitors = Monitors::new(alloc);
    let taken = is_taken_again(&mut monitors, name);
    Ok(taken & is_left(&mut monitors, name, listed))
}

/// Whether the first public monitor is taken again and left.
fn first_is_taken_and_left(alloc: Global) -> Result<bool, NoMemory> {
    let name = first(alloc)?;
    is_taken_and_left(alloc, &name)
}

#[test]
fn monitor_is_reentrant(rt: HostRuntime) {
    assert!(rt; first_is_taken_and_left(rt.alloc()) == Ok(true));
}

/// Whether two have the same monitors held, and the same where the public observer sees.
fn are_same(a: &Monitors, b: &Monitors, public: &Label) -> bool {
    a.facts();
    a.same(b) & a.same_seen(b, public)
}

/// Whether two are equal until a monitor of the first is taken.
fn are_copies(monitors: &mut Monitors, copy: &Monitors, name: &Name) -> bool {
    let before = are_same(monitors, copy, name.own());
    let took = take(monitors, name, 3);
    before & took & !are_same(monitors, copy, name.own())
}

/// Whether new monitors are equal to their copy, until one of them is taken.
fn new_are_copied(alloc: Global, name: &Name) -> Result<bool, NoMemory> {
    let mut monitors = Monitors::new(alloc);
    let copy = monitors.copy()?;
    Ok(are_copies(&mut monitors, &copy, name))
}

/// Whether monitors are equal to their copy, until the first public one is taken.
fn are_copied_until_first(alloc: Global) -> Result<bool, NoMemory> {
    let name = first(alloc)?;
    new_are_copied(alloc, &name)
}

#[test]
fn copied_monitors_are_equal(rt: HostRuntime) {
    assert!(rt; are_copied_until_first(rt.alloc()) == Ok(true));
}
