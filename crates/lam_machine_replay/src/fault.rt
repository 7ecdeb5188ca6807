//! Faults, the reasons why turns are no run.

ghost use Rattle.std.specs.Prelude.{◌≡◌};
ghost use Rattle.lam_machine_replay.specs.declared.fault.RunFault.TheVariants.{NoMemory as no_memory};

use std::alloc::{AllocError, AllocFailed};
use want_of_memory::NoMemory;

/// Why the turns of a start are no run.
#[derive(Clone, Copy, Debug, PartialEq, Eq)]
pub enum RunFault {
    /// The turn with this number, counted from 0, is of a thread that is not ready; those before it are a run.
    NotReady { turn: u64, thread: u32 },
    /// Memory was refused.
    NoMemory,
}

impl From<NoMemory> for RunFault {
    ghost from_gives = { λ _ f. f ≡ no_memory };

    fn from(_error: NoMemory) -> RunFault {
        RunFault::NoMemory
    }
}

impl From<AllocError> for RunFault {
    ghost from_gives = { λ _ f. f ≡ no_memory };

    fn from(_error: AllocError) -> RunFault {
        RunFault::NoMemory
    }
}

impl<T: Drop> From<AllocFailed<T>> for RunFault {
    ghost from_gives = { λ _ f. f ≡ no_memory };

    fn from(_failed: AllocFailed<T>) -> RunFault {
        RunFault::NoMemory
    }
}
