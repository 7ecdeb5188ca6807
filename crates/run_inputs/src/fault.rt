//! Faults of a program or of the document of a world.

ghost use Rattle.std.specs.Prelude.{◌≡◌};
ghost use Rattle.run_inputs.specs.Inputs.{fault_of_program, fault_of_code, fault_of_world};
ghost use Rattle.run_inputs.specs.declared.fault.InputFault.TheVariants.{NoMemory as no_memory};

use barrier_compiler::CompileFault;
use lam_front::{Flaw, ProgramFault};
use std::alloc::AllocError;
use want_of_memory::NoMemory;
use world_doc_stores::WorldFault;
use world_doc_terms::WorldBreak;

/// Why bytes give no code, or no world to start from.
#[derive(Debug, Drop)]
pub enum InputFault {
    /// The program is not UTF-8.
    NotUtf8,
    /// The program's first fault, and its position.
    Flawed { flaw: Flaw, at: u64 },
    /// The program's unit of this number is the first that is too long.
    CodeTooLong { unit: u32 },
    /// The first break of the document of a world.
    World(WorldBreak),
    /// Memory ran out.
    NoMemory,
}

impl From<NoMemory> for InputFault {
    ghost from_gives = { λ _ e. e ≡ no_memory };

    fn from(_e: NoMemory) -> InputFault {
        InputFault::NoMemory
    }
}

impl From<AllocError> for InputFault {
    ghost from_gives = { λ _ e. e ≡ no_memory };

    fn from(_e: AllocError) -> InputFault {
        InputFault::NoMemory
    }
}

impl From<ProgramFault> for InputFault {
    ghost from_gives = { λ f e. e ≡ fault_of_program f };

    fn from(fault: ProgramFault) -> InputFault {
        match fault {
            ProgramFault::NotUtf8 => InputFault::NotUtf8,
            ProgramFault::At { flaw, at } => InputFault::Flawed { flaw, at },
            ProgramFault::NoMemory => InputFault::NoMemory,
        }
    }
}

impl From<CompileFault> for InputFault {
    ghost from_gives = { λ f e. e ≡ fault_of_code f };

    fn from(fault: CompileFault) -> InputFault {
        match fault {
            CompileFault::CodeTooLong { unit } => InputFault::CodeTooLong { unit },
            CompileFault::NoMemory => InputFault::NoMemory,
        }
    }
}

impl From<WorldFault> for InputFault {
    ghost from_gives = { λ f e. e ≡ fault_of_world f };

    fn from(fault: WorldFault) -> InputFault {
        match fault {
            WorldFault::Broken(breach) => InputFault::World(breach),
            WorldFault::NoMemory => InputFault::NoMemory,
        }
    }
}
