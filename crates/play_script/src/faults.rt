//! The faults of a script's line.

ghost use Rattle.std.specs.Prelude.{◌≡◌};
ghost use Rattle.play_script.specs.declared.faults.LineFault.TheVariants.{NoMemory as no_memory};

use flow_labels::NoMemory;
use std::alloc::{AllocError, AllocFailed};

/// Why a line was not read.
#[derive(Clone, Copy, Debug, PartialEq, Eq)]
pub enum LineFault {
    Broken,
    NoMemory,
}

impl From<NoMemory> for LineFault {
    ghost from_gives = { λ _ e. e ≡ no_memory };

    fn from(_e: NoMemory) -> LineFault {
        LineFault::NoMemory
    }
}

impl From<AllocError> for LineFault {
    ghost from_gives = { λ _ e. e ≡ no_memory };

    fn from(_e: AllocError) -> LineFault {
        LineFault::NoMemory
    }
}

impl<T: Drop> From<AllocFailed<T>> for LineFault {
    ghost from_gives = { λ _ e. e ≡ no_memory };

    fn from(_e: AllocFailed<T>) -> LineFault {
        LineFault::NoMemory
    }
}
