//! The fold that counts, turn by turn.

ghost use Rattle.std.specs.Prelude.{◌≡◌};
ghost use Rattle.audit_log_notes.specs.Sums.{sums};

use crate::events::with_turn;
use crate::folds::Keeps;
use audit_log_notes::Sums;
use lam_asks::{Event, let_go_event};
use lam_machine::World;
use std::alloc::Global;
use want_of_memory::NoMemory;

/// Who keeps three sums: how often something was said, released and refused.
#[derive(Clone, Copy)]
pub struct Counter;

impl Keeps<Sums> for Counter {
    ghost AreKept = { λ _ ms kept. kept ≡ sums ms };

    fn keep(
        &self,
        _alloc: Global,
        kept: &mut Sums,
        _turn: u64,
        event: Event,
        _world: &World,
    ) -> Result<(), NoMemory> {
        *kept = with_turn(kept, &event);
        let_go_event(event);
        Ok(())
    }

    fn leaves_private(&self) {}
}
