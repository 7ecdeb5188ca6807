//! The type of agendas.

ghost use Rattle.std.specs.Prelude.{◌≡◌, None, IfOk, OnOk, IfErr};
ghost use Rattle.lam_machine_terms.specs.Turns.{moments};
ghost use Rattle.lam_machine_replay.specs.Worlds.{IsSound};
ghost use Rattle.lam_machine_terms.specs.Views.{agenda};
ghost use Rattle.lam_machine_runs.specs.Stops.{stopped_at};
ghost use Rattle.lam_machine_replay.specs.Stops.{IsStop};
ghost use Rattle.pair_check_terms.specs.Pairs.{IsMet};
ghost use Rattle.pair_check_agenda.specs.Agendas.{items_in};

use crate::common_part::meeting;
use crate::entry::Entry;
use flow_labels::Label;
use guarded_code::Verified;
use lam_machine_replay::{RunFault, World, keep_turns};
use pair_check_terms::PairAnswer;
use std::alloc::Global;
use std::marker::Model;

/// The turns that an observer sees of a run, and the releases past it, in order.
#[derive(Drop)]
pub struct Agenda {
    pub(crate) entries: Vec<Entry>,
}

impl Model for Agenda {
    ghost use Rattle.std.specs.Prelude.{List};
    ghost use Rattle.lam_machine_terms.specs.Views.{Item};
    ghost use Rattle.pair_check_agenda.specs.Coding.{coded_items};

    ghost Value = { List Item };

    ghost coded = { coded_items };

    ghost use Rattle.pair_check_agenda.specs.Agendas.{items_in};

    ghost view = { λ a. items_in a.entries.items };
}

impl Agenda {
    /// What is noted, entry by entry.
    pub fn entries(&self) -> &[Entry]
        ensures { items_in result.now ≡ self.now }
    {
        self.entries.as_slice()
    }

    /// The same as a list of its own.
    pub fn into_entries(self) -> Vec<Entry>
        ensures { items_in result.items ≡ self }
    {
        let Agenda { entries } = self;
        entries
    }
}

/// What an observer notes of the turns of a start: those of the threads whose labels flow to its own, private ones too,
/// and the releases past it.
///
/// It takes as many steps as there are turns, and memory for what is noted.
///
/// # Errors
///
/// `NotReady` at the first turn whose thread is not ready, exactly where there is one; `NoMemory`.
pub fn agenda_of(
    alloc: Global,
    code: &Verified,
    start: World,
    turns: &[u32],
    observer: &Label,
) -> Result<Agenda, RunFault>
    requires sound { IsSound code.now start }
    ensures ok { IfOk result (λ a. a ≡ agenda observer.now (moments code.now turns.now start)) }
    ensures run { OnOk result (stopped_at code.now turns.now start ≡ None) }
    ensures stops { IfErr result (λ f. IsStop f (stopped_at code.now turns.now start)) }
{
    let mut noted = Agenda {
        entries: Vec::new(alloc),
    };
    match keep_turns(alloc, observer, &mut noted, code, start, turns) {
        Ok(()) => Ok(noted),
        Err(fault) => {
            drop(noted);
            Err(fault)
        }
    }
}

/// The first place at which two agendas differ, and whether one of them has a turn there; or how far both go, where they
/// do not differ. Takes no memory.
pub fn answer_of(a: &Agenda, b: &Agenda) -> PairAnswer
    ensures { IsMet a.now b.now result }
{
    meeting(a.entries.as_slice(), b.entries.as_slice())
}
