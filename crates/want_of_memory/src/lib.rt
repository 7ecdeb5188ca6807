//! The error for refused memory, the one failure that contracts leave open.
//!
//! Every call that allocates returns a `Result` whose error is `NoMemory` or has it as a variant. The crate lies below
//! all others, so that the crates of the language need not depend on those of labels for it.
//!
//! Nothing here is a matter of speed.
#![tactic(auto)]

use std::alloc::{AllocError, AllocFailed};

/// Memory was refused. It stands alone, so that no other failure hides behind it.
#[derive(Clone, Copy, Debug, PartialEq, Eq)]
pub struct NoMemory;

impl From<AllocError> for NoMemory {
    fn from(_e: AllocError) -> NoMemory {
        NoMemory
    }
}

impl<T: Drop> From<AllocFailed<T>> for NoMemory {
    fn from(_e: AllocFailed<T>) -> NoMemory {
        NoMemory
    }
}
