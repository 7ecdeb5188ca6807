//! The reasons why the program stops early.

use run_inputs::InputFault;
use std::alloc::{AllocError, AllocFailed};
use want_of_memory::NoMemory;

/// Why the program stops early.
#[derive(Clone, Copy)]
pub enum Stop {
    /// The program is refused.
    Program,
    /// The document of the world is refused.
    World,
    /// A caller's thread can take no turn, and has not ended.
    Unfinished,
    /// The run is full.
    Full,
    /// The run could not be closed.
    NotClosed,
    /// The book is refused.
    Book,
    /// Memory ran out.
    NoMemory,
}

impl Stop {
    /// The words for it.
    pub fn reason(self) -> &'static str {
        match self {
            Stop::Program => "the program is refused",
            Stop::World => "the world is refused",
            Stop::Unfinished => "a thread waits without an end",
            Stop::Full => "the run is full",
            Stop::NotClosed => "the run is not closed",
            Stop::Book => "the book is refused",
            Stop::NoMemory => "out of memory",
        }
    }
}

/// Why the program stops where its run is not opened.
pub fn not_opened(fault: InputFault) -> Stop {
    match fault {
        InputFault::NotUtf8 | InputFault::Flawed { .. } | InputFault::CodeTooLong { .. } => {
            Stop::Program
        }
        InputFault::World(_) => Stop::World,
        InputFault::NoMemory => Stop::NoMemory,
    }
}

impl From<NoMemory> for Stop {
    fn from(_e: NoMemory) -> Stop {
        Stop::NoMemory
    }
}

impl From<AllocError> for Stop {
    fn from(_e: AllocError) -> Stop {
        Stop::NoMemory
    }
}

impl<T: Drop> From<AllocFailed<T>> for Stop {
    fn from(_e: AllocFailed<T>) -> Stop {
        Stop::NoMemory
    }
}
