//! The fold of an observer over turns.

ghost use Rattle.std.specs.Prelude.{◌≡◌, ◌++◌, None, IfOk, OnOk, IfErr};
ghost use Rattle.std.specs.Option.{option_to_list};
ghost use Rattle.lam_machine_terms.specs.Turns.{moments};
ghost use Rattle.lam_machine.specs.Worlds.{IsSound};
ghost use Rattle.audit_log_notes.specs.Notes.{seen_by};
ghost use Rattle.lam_machine_runs.specs.Stops.{stopped_at};
ghost use Rattle.lam_machine_replay.specs.Stops.{IsStop};
ghost use Rattle.lam_machine_replay.specs.Viewed.{is_private, own_turn, told, past, seen_of};

use crate::fault::RunFault;
use crate::folds::{Keeps, keep_turns};
use crate::products::{product, product_label};
use audit_log_notes::{Content, Seen};
use capabilities::Caps;
use flow_labels::{Label, seen};
use guarded_code::Verified;
use lam_asks::{Event, What, let_go_event};
use lam_machine::World;
use std::alloc::Global;
use want_of_memory::NoMemory;

/// What an observer sees of the turns of a start: the asks of the threads whose labels flow to its own, and the releases
/// past it.
///
/// It takes as many steps as there are turns, and memory for what is seen.
///
/// # Errors
///
/// `NotReady` at the first turn whose thread is not ready, exactly where there is one; `NoMemory`.
pub fn seen_by(
    alloc: Global,
    code: &Verified,
    start: World,
    turns: &[u32],
    observer: &Label,
) -> Result<Vec<Seen>, RunFault>
    requires sound { IsSound code.now start }
    ensures ok { IfOk result (λ s. s.items ≡ seen_by observer.now (moments code.now turns.now start)) }
    ensures run { OnOk result (stopped_at code.now turns.now start ≡ None) }
    ensures stops { IfErr result (λ f. IsStop f (stopped_at code.now turns.now start)) }
{
    let mut all = Vec::new(alloc);
    match keep_turns(alloc, observer, &mut all, code, start, turns) {
        Ok(()) => Ok(all),
        Err(fault) => {
            drop(all);
            Err(fault)
        }
    }
}

/// An observer keeps what it sees. It is its label.
impl Keeps<Vec<Seen>> for Label {
    ghost AreKept = { λ o ms all. all.items ≡ seen_by o ms };

    fn keep(
        &self,
        alloc: Global,
        kept: &mut Vec<Seen>,
        _turn: u64,
        event: Event,
        world: &World,
    ) -> Result<(), NoMemory> {
        push_seen(alloc, kept, event, world, self)
    }

    fn leaves_private(&self) {}
}

/// Puts what an observer sees of a turn at the end, by the turn's event and the world after it.
fn push_seen(
    alloc: Global,
    all: &mut Vec<Seen>,
    event: Event,
    world: &World,
    observer: &Label,
) -> Result<(), NoMemory>
    ensures { OnOk result (all.new.items ≡ all.old.items ++ option_to_list (seen_of observer.now event world.now)) }
{
    match seen_of(alloc, event, world, observer)? {
        None => Ok(()),
        Some(one) => {
            all.push(one)?;
            Ok(())
        }
    }
}

/// What an observer sees of a turn, by the turn's event and the world after it.
///
/// # Errors
///
/// `NoMemory` where memory is refused.
pub fn seen_of(
    alloc: Global,
    event: Event,
    world: &World,
    observer: &Label,
) -> Result<Option<Seen>, NoMemory>
    ensures { IfOk result (λ s. s ≡ seen_of observer.now event world.now) }
{
    if seen(&event.label, observer) {
        return Ok(own_turn(event));
    }
    let made = past(alloc, &event, world, observer);
    let_go_event(event);
    made
}

/// A turn of a thread that is seen: an ask, and nothing where it is private.
fn own_turn(event: Event) -> Option<Seen>
    ensures { result ≡ own_turn event }
{
    if is_private(&event.what) {
        let_go_event(event);
        return None;
    }
    Some(Seen::Event(event))
}

fn is_private(what: &What) -> bool
    ensures { result ≡ is_private what.now }
{
    matches!(what, What::Private)
}

/// A turn of a thread that is not seen: what it made, where the observer sees that.
fn past(
    alloc: Global,
    event: &Event,
    world: &World,
    observer: &Label,
) -> Result<Option<Seen>, NoMemory>
    ensures { IfOk result (λ s. s ≡ past observer.now event.now world.now) }
{
    match product_label(&event.what) {
        None => Ok(None),
        Some(own) => {
            if seen(own, observer) {
                let by = Caps::used(&event.label, own)?;
                let made = product(alloc, world, event.thread, &event.what)?;
                Ok(told(event.thread, by, made))
            } else {
                Ok(None)
            }
        }
    }
}

fn told(thread: u32, by: Caps, made: Option<Content>) -> Option<Seen>
    ensures { result ≡ told thread by made }
{
    match made {
        None => None,
        Some(content) => Some(Seen::Release {
            thread,
            content,
            by,
        }),
    }
}
