//! Halts, the reasons why a call does not print its command's text.

ghost use Rattle.std.specs.Prelude.{◌≡◌};
ghost use Rattle.lam_main_replay.specs.Halts.{halt_of, halt_of_input};
ghost use Rattle.lam_main_replay.specs.declared.halt.Halt.TheVariants.{NoMemory as no_memory};

use lam_front::{Flaw, ProgramFault};
use lam_main_plan::InputFault;
use std::alloc::AllocError;
use want_of_memory::NoMemory;
use world_doc_terms::WorldBreak;

/// What is refused, by the line that is printed.
#[derive(Drop)]
pub enum Refusal {
    /// The words are in no form at this index, or the word there names an unknown tag.
    Word(u64),
    /// The script is broken at this line.
    Script(u64),
    /// The program is not UTF-8.
    NotUtf8,
    /// The program's first fault, and its position.
    Flawed { flaw: Flaw, at: u64 },
    /// The program's unit of this number is the first that is too long.
    CodeTooLong(u32),
    /// The first break of the document of a world.
    World(WorldBreak),
    /// A tag of this number stands in a label of what would be saved, and has no name.
    Unnamed(u64),
    /// The path of the item of this number, of those that would be saved, is no text.
    BadText(u64),
    /// The document of the next world would have so many bytes, or the greatest number where it would have more.
    TooBig(u64),
    /// The first line of the book that is broken.
    Book { flaw: BookBreak, line: u64 },
    /// The first turn of the book whose thread is not ready.
    NotReady { turn: u64, thread: u32 },
    /// There is no file of this name.
    Absent(String),
    /// The file of this name is longer than its limit.
    TooLong(String),
}

/// What is broken in a line of a book.
#[derive(Clone, Copy)]
pub enum BookBreak {
    /// It is not the head line.
    Head,
    /// It is not the line of a stretch of turns.
    Line,
    /// It goes on with the thread of the line before.
    SameThread,
    /// With it there are too many turns.
    TooMany,
}

/// Why a call does not print the text of its command.
#[derive(Drop)]
pub enum Halt {
    /// What is asked is refused, with a line.
    Refused(Refusal),
    /// Memory ran out.
    NoMemory,
    /// The shelf failed.
    ShelfFailed,
}

impl From<NoMemory> for Halt {
    ghost from_gives = { λ _ e. e ≡ no_memory };

    fn from(_e: NoMemory) -> Halt {
        Halt::NoMemory
    }
}

impl From<AllocError> for Halt {
    ghost from_gives = { λ _ e. e ≡ no_memory };

    fn from(_e: AllocError) -> Halt {
        Halt::NoMemory
    }
}

impl From<ProgramFault> for Halt {
    ghost from_gives = { λ f e. e ≡ halt_of f };

    fn from(fault: ProgramFault) -> Halt {
        match fault {
            ProgramFault::NotUtf8 => Halt::Refused(Refusal::NotUtf8),
            ProgramFault::At { flaw, at } => Halt::Refused(Refusal::Flawed { flaw, at }),
            ProgramFault::NoMemory => Halt::NoMemory,
        }
    }
}

impl From<InputFault> for Halt {
    ghost from_gives = { λ f e. e ≡ halt_of_input f };

    fn from(fault: InputFault) -> Halt {
        match fault {
            InputFault::NotUtf8 => Halt::Refused(Refusal::NotUtf8),
            InputFault::Flawed { flaw, at } => Halt::Refused(Refusal::Flawed { flaw, at }),
            InputFault::CodeTooLong { unit } => Halt::Refused(Refusal::CodeTooLong(unit)),
            InputFault::World(breach) => Halt::Refused(Refusal::World(breach)),
            InputFault::NoMemory => Halt::NoMemory,
        }
    }
}
