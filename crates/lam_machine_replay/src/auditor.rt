//! The fold of an auditor over turns.

ghost use Rattle.std.specs.Prelude.{◌≡◌, ◌++◌, None, IfOk, OnOk, IfErr};
ghost use Rattle.std.specs.Option.{option_to_list};
ghost use Rattle.lam_machine_terms.specs.Turns.{moments};
ghost use Rattle.lam_machine.specs.Worlds.{IsSound};
ghost use Rattle.audit_log_notes.specs.Notes.{noted_in, refusal_of};
ghost use Rattle.lam_machine_runs.specs.Stops.{stopped_at};
ghost use Rattle.lam_machine_replay.specs.Stops.{IsStop};
ghost use Rattle.lam_machine_replay.specs.Audited.{taken, note, noted_of};

use crate::fault::RunFault;
use crate::folds::{Keeps, keep_turns};
use crate::products::product_label;
use audit_log_notes::{Noted, refusal_of};
use capabilities::Caps;
use flow_labels::flows;
use guarded_code::Verified;
use lam_asks::{Event, let_go_event};
use lam_machine::World;
use std::alloc::Global;
use want_of_memory::NoMemory;

/// What an auditor notes of the turns of a start: each release and each refusal, with its turn.
///
/// It takes as many steps as there are turns, and memory for what is noted.
///
/// # Errors
///
/// `NotReady` at the first turn whose thread is not ready, exactly where there is one; `NoMemory`.
pub fn noted_in(
    alloc: Global,
    code: &Verified,
    start: World,
    turns: &[u32],
) -> Result<Vec<Noted>, RunFault>
    requires sound { IsSound code.now start }
    ensures ok { IfOk result (λ n. n.items ≡ noted_in (moments code.now turns.now start)) }
    ensures run { OnOk result (stopped_at code.now turns.now start ≡ None) }
    ensures stops { IfErr result (λ f. IsStop f (stopped_at code.now turns.now start)) }
{
    let mut all = Vec::new(alloc);
    match keep_turns(alloc, &Auditor, &mut all, code, start, turns) {
        Ok(()) => Ok(all),
        Err(fault) => {
            drop(all);
            Err(fault)
        }
    }
}

/// An auditor keeps what it notes.
#[derive(Clone, Copy)]
pub struct Auditor;

impl Keeps<Vec<Noted>> for Auditor {
    ghost AreKept = { λ _ ms all. all.items ≡ noted_in ms };

    fn keep(
        &self,
        _alloc: Global,
        kept: &mut Vec<Noted>,
        turn: u64,
        event: Event,
        _world: &World,
    ) -> Result<(), NoMemory> {
        push_noted(kept, turn, event)
    }

    fn leaves_private(&self) {}
}

/// Puts what is noted of a turn at the end.
fn push_noted(all: &mut Vec<Noted>, turn: u64, event: Event) -> Result<(), NoMemory>
    ensures { OnOk result (all.new.items ≡ all.old.items ++ option_to_list (noted_of turn event)) }
{
    match taken(&event) {
        Ok(by) => push_note(all, turn, event, by),
        Err(error) => {
            let_go_event(event);
            Err(error)
        }
    }
}

/// A release, with what it took, or a refusal is put at the end.
fn push_note(
    all: &mut Vec<Noted>,
    turn: u64,
    event: Event,
    by: Option<Caps>,
) -> Result<(), NoMemory>
    ensures { OnOk result (all.new.items ≡ all.old.items ++ option_to_list (note turn event by (refusal_of event.what))) }
{
    if by.is_none() && refusal_of(&event.what).is_none() {
        let_go_event(event);
        return Ok(());
    }
    all.push(Noted { turn, event, by })?;
    Ok(())
}

/// The capabilities that a turn took, where it is a release, by its event.
///
/// # Errors
///
/// `NoMemory` where memory is refused.
pub fn taken(event: &Event) -> Result<Option<Caps>, NoMemory>
    ensures { IfOk result (λ by. by ≡ taken event.now) }
{
    match product_label(&event.what) {
        None => Ok(None),
        Some(own) => {
            if flows(&event.label, own) {
                Ok(None)
            } else {
                Ok(Some(Caps::used(&event.label, own)?))
            }
        }
    }
}
