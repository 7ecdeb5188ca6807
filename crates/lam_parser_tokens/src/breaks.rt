//! Breaks, the reasons why reading stopped.

ghost use Rattle.std.specs.Prelude.{◌≡◌};
ghost use Rattle.lam_parser_tokens.specs.declared.breaks.Break.TheVariants.{NoMemory as no_memory};

use crate::Mark;
use std::alloc::{AllocError, AllocFailed};

/// What could have stood in place of a token.
#[derive(Clone, Copy, Debug, PartialEq, Eq, Drop)]
pub enum Wanted {
    /// a class or a function
    Item,
    Name,
    TypeName,
    Statement,
    Expression,
    /// Before `=` stands no name, field or element, to which alone is assigned.
    Place,
    /// a token of that class
    Mark(Mark),
}

/// Why nothing was read, and at the token of which index.
#[derive(Clone, Copy, Debug, PartialEq, Eq, Drop)]
pub enum Break {
    /// The token continues nothing; what is wanted could stand there.
    Unexpected { at: usize, wanted: Wanted },
    /// The depth sum passes its limit at the token.
    TooDeep { at: usize },
    /// Memory ran out.
    NoMemory,
}

impl From<want_of_memory::NoMemory> for Break {
    ghost from_gives = { λ _ e. e ≡ no_memory };

    fn from(_: want_of_memory::NoMemory) -> Self {
        Break::NoMemory
    }
}

impl From<AllocError> for Break {
    ghost from_gives = { λ _ e. e ≡ no_memory };

    fn from(_: AllocError) -> Self {
        Break::NoMemory
    }
}

impl<T: Drop> From<AllocFailed<T>> for Break {
    ghost from_gives = { λ _ e. e ≡ no_memory };

    fn from(_: AllocFailed<T>) -> Self {
        Break::NoMemory
    }
}
