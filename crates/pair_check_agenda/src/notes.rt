//! The noting of turns by an observer.

ghost use Rattle.std.specs.Prelude.{◌≡◌, ◌++◌, replicate, IfOk, OnOk};
ghost use Rattle.std.specs.Option.{option_map, option_to_list};
ghost use Rattle.lam_machine_terms.specs.Views as views;
ghost use Rattle.pair_check_agenda.specs.Agendas.{item_in, items_in};
ghost use Rattle.pair_check_agenda.specs.Noting.{released, past, noted_of, private_noted};

use crate::entry::{Entry, Release};
use audit_log_notes::Content;
use capabilities::Caps;
use flow_labels::{Label, seen};
use lam_asks::{Event, let_go_event};
use lam_machine_replay::{World, product, product_label};
use std::alloc::Global;
use want_of_memory::NoMemory;

/// Puts what is noted of private turns of a thread at the end: so many times the thread, where it is seen.
pub(crate) fn note_private(
    entries: &mut Vec<Entry>,
    thread: u32,
    is_seen: bool,
    many: u64,
) -> Result<(), NoMemory>
    ensures { OnOk result (items_in entries.new.items ≡ items_in entries.old.items ++ private_noted is_seen thread many) }
{
    if is_seen {
        return put_turns(entries, thread, many);
    }
    Ok(())
}

/// Puts so many turns of a thread at the end.
fn put_turns(entries: &mut Vec<Entry>, thread: u32, many: u64) -> Result<(), NoMemory>
    ensures { OnOk result (items_in entries.new.items ≡ items_in entries.old.items ++ replicate many (views.turn thread)) }
{
    for _done in 0..many {
        entries.push(Entry::Turn { thread })?;
    }
    Ok(())
}

/// Puts what is noted of a turn at the end, by the turn's event and the world after it.
pub(crate) fn note_event(
    alloc: Global,
    entries: &mut Vec<Entry>,
    event: Event,
    world: &World,
    observer: &Label,
) -> Result<(), NoMemory>
    ensures { OnOk result (items_in entries.new.items ≡ items_in entries.old.items ++ option_to_list (noted_of observer.now event world.now)) }
{
    let noted = noted_of(alloc, &event, world, observer);
    let_go_event(event);
    put(entries, noted?)
}

/// Puts an entry at the end, where there is one.
fn put(entries: &mut Vec<Entry>, entry: Option<Entry>) -> Result<(), NoMemory>
    ensures { OnOk result (items_in entries.new.items ≡ items_in entries.old.items ++ option_to_list (option_map item_in entry)) }
{
    match entry {
        None => Ok(()),
        Some(entry) => {
            entries.push(entry)?;
            Ok(())
        }
    }
}

fn noted_of(
    alloc: Global,
    event: &Event,
    world: &World,
    observer: &Label,
) -> Result<Option<Entry>, NoMemory>
    ensures { IfOk result (λ noted. option_map item_in noted ≡ noted_of observer.now event.now world.now) }
{
    if seen(&event.label, observer) {
        return Ok(Some(Entry::Turn {
            thread: event.thread,
        }));
    }
    past(alloc, event, world, observer)
}

/// A turn of a thread that is not seen: what it made, where the observer sees that.
fn past(
    alloc: Global,
    event: &Event,
    world: &World,
    observer: &Label,
) -> Result<Option<Entry>, NoMemory>
    ensures { IfOk result (λ noted. option_map item_in noted ≡ past observer.now event.now world.now) }
{
    match product_label(&event.what) {
        None => Ok(None),
        Some(own) => {
            if seen(own, observer) {
                let by = Caps::used(&event.label, own)?;
                let made = product(alloc, world, event.thread, &event.what)?;
                released(alloc, event.thread, by, made)
            } else {
                Ok(None)
            }
        }
    }
}

fn released(
    alloc: Global,
    thread: u32,
    by: Caps,
    made: Option<Content>,
) -> Result<Option<Entry>, NoMemory>
    ensures { IfOk result (λ noted. option_map item_in noted ≡ released thread by made) }
{
    match made {
        None => Ok(None),
        Some(content) => {
            let release = Box::new(
                alloc,
                Release {
                    thread,
                    content,
                    by,
                },
            )?;
            Ok(Some(Entry::Past(release)))
        }
    }
}
