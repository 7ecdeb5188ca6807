//! The first fault of a program's bytes, whichever layer finds it.

ghost use Rattle.std.specs.Prelude.{◌≡◌};
ghost use Rattle.lam_front.specs.Faults.{lexical, of_parser, of_types, of_regions, flaw_name};

use lam_lexer::LexFault;
use lam_parser::ParseFault;
use lam_types::TypeFault;
use region_check::RegionFault;

/// What is wrong, by the name that is printed.
#[derive(Clone, Copy, Debug, PartialEq, Eq, Drop)]
pub enum Flaw {
    /// A character begins no token.
    BadChar,
    /// A number is too great, or runs into a name.
    BadNumber,
    /// A backslash begins no escape.
    BadEscape,
    /// A text has no end on its line, or means more than 65,536 bytes.
    OpenText,
    /// A token continues no program.
    Unexpected,
    /// A token stands deeper than 128.
    TooDeep,
    /// A name is not declared where it is used.
    NoName,
    /// A name is declared where a declaration of it is in scope.
    Twice,
    /// A call has a wrong number of arguments.
    Arity,
    /// A class does not have the field.
    NoField,
    /// A function with a result may end without one.
    NoReturn,
    /// A declaration passes a limit.
    TooMany,
    /// An expression has a wrong type.
    Mismatch,
    /// A region reads an outer name that it does not capture.
    OuterRead,
    /// A region writes an outer name that it does not capture.
    OuterWrite,
    /// A `return` stands inside a region.
    ReturnInRegion,
    /// A region captures a name twice.
    CaptureTwice,
}

impl Flaw {
    /// The name that is printed.
    pub fn name(self) -> &'static str
        ensures { result.now ≡ flaw_name self }
    {
        match self {
            Flaw::BadChar => "BadChar",
            Flaw::BadNumber => "BadNumber",
            Flaw::BadEscape => "BadEscape",
            Flaw::OpenText => "OpenText",
            Flaw::Unexpected => "Unexpected",
            Flaw::TooDeep => "TooDeep",
            Flaw::NoName => "NoName",
            Flaw::Twice => "Twice",
            Flaw::Arity => "Arity",
            Flaw::NoField => "NoField",
            Flaw::NoReturn => "NoReturn",
            Flaw::TooMany => "TooMany",
            Flaw::Mismatch => "Mismatch",
            Flaw::OuterRead => "OuterRead",
            Flaw::OuterWrite => "OuterWrite",
            Flaw::ReturnInRegion => "ReturnInRegion",
            Flaw::CaptureTwice => "CaptureTwice",
        }
    }
}

/// Why bytes are no program, or no checked one.
#[derive(Clone, Copy, Debug, PartialEq, Eq, Drop)]
pub enum ProgramFault {
    /// The bytes are not UTF-8.
    NotUtf8,
    /// The first fault, at a position in bytes from 0.
    At { flaw: Flaw, at: u64 },
    /// The memory did not suffice.
    NoMemory,
}

fn at(flaw: Flaw, at: u64) -> ProgramFault
    ensures { result ≡ ProgramFault.At flaw at }
{
    ProgramFault::At { flaw, at }
}

impl From<LexFault> for ProgramFault {
    ghost from_gives = { λ f e. e ≡ lexical f };

    fn from(f: LexFault) -> ProgramFault {
        match f {
            LexFault::BadChar { at: n } => at(Flaw::BadChar, n),
            LexFault::BadNumber { at: n } => at(Flaw::BadNumber, n),
            LexFault::BadEscape { at: n } => at(Flaw::BadEscape, n),
            LexFault::OpenText { at: n } => at(Flaw::OpenText, n),
            LexFault::NoMemory => ProgramFault::NoMemory,
        }
    }
}

impl From<ParseFault> for ProgramFault {
    ghost from_gives = { λ f e. e ≡ of_parser f };

    fn from(f: ParseFault) -> ProgramFault {
        match f {
            ParseFault::Unexpected { at: n, wanted: _ } => at(Flaw::Unexpected, n),
            ParseFault::TooDeep { at: n } => at(Flaw::TooDeep, n),
            ParseFault::NoMemory => ProgramFault::NoMemory,
        }
    }
}

impl From<TypeFault> for ProgramFault {
    ghost from_gives = { λ f e. e ≡ of_types f };

    fn from(f: TypeFault) -> ProgramFault {
        match f {
            TypeFault::NoName { at: n } => at(Flaw::NoName, n),
            TypeFault::Twice { at: n } => at(Flaw::Twice, n),
            TypeFault::Arity { at: n } => at(Flaw::Arity, n),
            TypeFault::NoField { at: n } => at(Flaw::NoField, n),
            TypeFault::NoReturn { at: n } => at(Flaw::NoReturn, n),
            TypeFault::TooMany { at: n } => at(Flaw::TooMany, n),
            TypeFault::Mismatch {
                at: n,
                want: _,
                got: _,
            } => at(Flaw::Mismatch, n),
            TypeFault::NoMemory => ProgramFault::NoMemory,
        }
    }
}

impl From<RegionFault> for ProgramFault {
    ghost from_gives = { λ f e. e ≡ of_regions f };

    fn from(f: RegionFault) -> ProgramFault {
        match f {
            RegionFault::OuterRead { at: n } => at(Flaw::OuterRead, n),
            RegionFault::OuterWrite { at: n } => at(Flaw::OuterWrite, n),
            RegionFault::ReturnInRegion { at: n } => at(Flaw::ReturnInRegion, n),
            RegionFault::CaptureTwice { at: n } => at(Flaw::CaptureTwice, n),
            RegionFault::NoMemory => ProgramFault::NoMemory,
        }
    }
}
