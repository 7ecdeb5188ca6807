//! Breaks and faults.

ghost use Rattle.std.specs.Prelude.{◌≡◌};
ghost use Rattle.code_verify.specs.declared.fault.VerifyFault.TheVariants.{NoMemory as no_memory};
ghost use Rattle.code_verify.specs.Faults.{fault_of};

use std::alloc::{AllocError, AllocFailed};
use want_of_memory::NoMemory;

/// The rules of guarded code, in the order in which a unit's breaks are looked for.
#[derive(Clone, Copy, Debug, PartialEq, Eq)]
pub enum Rule {
    BadTarget,
    Depth,
    Kind,
    Unguarded,
}

/// A broken rule, with its unit and address.
#[derive(Clone, Copy, Debug, PartialEq, Eq)]
pub struct CodeBreak {
    pub rule: Rule,
    pub unit: u32,
    pub at: u32,
}

/// Why a code is not verified.
#[derive(Clone, Copy, Debug, PartialEq, Eq)]
pub enum VerifyFault {
    /// An address that may come next is none of the unit, or a number names nothing that its operation takes.
    BadTarget { unit: u32, at: u32 },
    /// An operation finds too few operands, or paths that meet bring differing numbers of them.
    Depth { unit: u32, at: u32 },
    /// An operand is of a known kind that its operation does not take.
    Kind { unit: u32, at: u32 },
    /// An access stands behind no barrier of its rule on its reference.
    Unguarded { unit: u32, at: u32 },
    /// Memory was refused.
    NoMemory,
}

impl VerifyFault {
    /// The fault that a break is.
    pub fn of(broken: CodeBreak) -> VerifyFault
        ensures { result ≡ fault_of broken }
    {
        let unit = broken.unit;
        let at = broken.at;
        match broken.rule {
            Rule::BadTarget => VerifyFault::BadTarget { unit, at },
            Rule::Depth => VerifyFault::Depth { unit, at },
            Rule::Kind => VerifyFault::Kind { unit, at },
            Rule::Unguarded => VerifyFault::Unguarded { unit, at },
        }
    }
}

impl From<NoMemory> for VerifyFault {
    ghost from_gives = { λ _ e. e ≡ no_memory };

    fn from(_e: NoMemory) -> VerifyFault {
        VerifyFault::NoMemory
    }
}

impl From<AllocError> for VerifyFault {
    ghost from_gives = { λ _ e. e ≡ no_memory };

    fn from(_e: AllocError) -> VerifyFault {
        VerifyFault::NoMemory
    }
}

impl<T: Drop> From<AllocFailed<T>> for VerifyFault {
    ghost from_gives = { λ _ e. e ≡ no_memory };

    fn from(_e: AllocFailed<T>) -> VerifyFault {
        VerifyFault::NoMemory
    }
}
