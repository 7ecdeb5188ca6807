//! Lexical faults, the reasons why a text has no tokens.

ghost use Rattle.std.specs.Prelude.{◌≡◌};
ghost use Rattle.lam_lexer.specs.declared.fault.LexFault.TheVariants.{NoMemory as no_memory};

use std::alloc::{AllocError, AllocFailed};

/// The first lexical fault of a text, at a position in bytes from 0.
#[derive(Clone, Copy, Debug, PartialEq, Eq, Drop)]
pub enum LexFault {
    /// The character begins no token.
    BadChar { at: u64 },
    /// The number that begins here is greater than the greatest `i64`, or an identifier's character follows it.
    BadNumber { at: u64 },
    /// The backslash here begins no escape.
    BadEscape { at: u64 },
    /// The text that begins at this quote has no end on its line, or means more than 65,536 bytes.
    OpenText { at: u64 },
    /// Memory ran out.
    NoMemory,
}

impl From<want_of_memory::NoMemory> for LexFault {
    ghost from_gives = { λ _ e. e ≡ no_memory };

    fn from(_: want_of_memory::NoMemory) -> Self {
        LexFault::NoMemory
    }
}

impl From<AllocError> for LexFault {
    ghost from_gives = { λ _ e. e ≡ no_memory };

    fn from(_: AllocError) -> Self {
        LexFault::NoMemory
    }
}

impl<T: Drop> From<AllocFailed<T>> for LexFault {
    ghost from_gives = { λ _ e. e ≡ no_memory };

    fn from(_: AllocFailed<T>) -> Self {
        LexFault::NoMemory
    }
}
