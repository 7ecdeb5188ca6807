//! The fold of an observer over all turns, private ones too.

ghost use Rattle.std.specs.Prelude.{◌≡◌};
ghost use Rattle.flow_labels.specs.Flow.{seen};
ghost use Rattle.lam_machine_replay.specs.Asking.{label_at};
ghost use Rattle.pair_check_agenda.specs.Agendas.{IsAgenda};

use crate::agenda::Agenda;
use crate::notes::{note_event, note_private};
use flow_labels::{Label, seen};
use lam_asks::Event;
use lam_machine_replay::{KeepsAll, World};
use std::alloc::Global;
use want_of_memory::NoMemory;

/// An observer notes the turns of the threads that it sees, and the releases past it. It is its label.
impl KeepsAll<Agenda> for Label {
    ghost AreAllKept = { IsAgenda };

    fn keep_turn(
        &self,
        alloc: Global,
        kept: &mut Agenda,
        _turn: u64,
        event: Event,
        world: &World,
    ) -> Result<(), NoMemory> {
        note_event(alloc, &mut kept.entries, event, world, self)
    }

    fn keep_private(
        &self,
        alloc: Global,
        kept: &mut Agenda,
        thread: u32,
        many: u64,
        world: &World,
    ) -> Result<(), NoMemory> {
        let is_seen = sees_acting(alloc, world, thread, self);
        note_private(&mut kept.entries, thread, is_seen, many)
    }
}

/// Whether an observer sees at which label a thread acts. A thread that has ended, or is not there, acts as the public.
fn sees_acting(alloc: Global, world: &World, thread: u32, observer: &Label) -> bool
    ensures { result ≡ seen (label_at world.now thread) observer.now }
{
    let acting = match world.threads().get(thread as usize) {
        None => None,
        Some(thread) => thread.top(),
    };
    match acting {
        None => seen(&Label::public(alloc), observer),
        Some(context) => seen(context.label(), observer),
    }
}
