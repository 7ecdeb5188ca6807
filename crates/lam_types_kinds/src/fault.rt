//! The refusals of the type checker.

ghost use Rattle.std.specs.Prelude.{◌≡◌, None, Some};
ghost use Rattle.lam_types_kinds.specs.Breaks.{mismatch_of, fit as fit_place, unequal as unequal_break};
ghost use Rattle.lam_types_kinds.specs.Values.{IsFault, option_type, Gives, given, place};
ghost use Rattle.lam_types_kinds.specs.declared.fault.TypeFault.TheVariants.{NoMemory as no_memory};

use crate::types::{Got, TypeRef, Want, comparable, got_type, one_type, plain_types, suits};
use lam_syntax::TypeExpr;
use std::alloc::{AllocError, AllocFailed, Global};
use want_of_memory::NoMemory;

/// Why a program is not typed. `at` is the position of the smallest construct at fault.
#[derive(Drop)]
pub enum TypeFault {
    /// A name that is not declared where it is used.
    NoName {
        at: u64,
    },
    /// A name that is declared where a declaration of it is in scope.
    Twice {
        at: u64,
    },
    /// A call with a wrong number of arguments.
    Arity {
        at: u64,
    },
    /// A field that the class does not have.
    NoField {
        at: u64,
    },
    /// A function with a result whose body may end without one.
    NoReturn {
        at: u64,
    },
    /// The declaration that passes a limit.
    TooMany {
        at: u64,
    },
    /// An expression of a wrong type. `want` is the type that its place needs, if it is one; `got` the expression's
    /// own, if it has one. Both have 0 for each position.
    Mismatch {
        at: u64,
        want: Option<TypeExpr>,
        got: Option<TypeExpr>,
    },
    /// The memory did not suffice.
    NoMemory,
}

impl From<NoMemory> for TypeFault {
    ghost from_gives = { λ _ f. f ≡ no_memory };

    fn from(_error: NoMemory) -> TypeFault {
        TypeFault::NoMemory
    }
}

impl From<AllocError> for TypeFault {
    ghost from_gives = { λ _ f. f ≡ no_memory };

    fn from(_error: AllocError) -> TypeFault {
        TypeFault::NoMemory
    }
}

impl<T: Drop> From<AllocFailed<T>> for TypeFault {
    ghost from_gives = { λ _ f. f ≡ no_memory };

    fn from(_failed: AllocFailed<T>) -> TypeFault {
        TypeFault::NoMemory
    }
}

/// The refusal of a wrong type.
pub fn mismatch<'a>(
    alloc: Global,
    at: u64,
    want: Option<TypeRef<'a>>,
    got: Option<TypeRef<'a>>,
) -> TypeFault
    ensures { IsFault result (mismatch_of at (option_type want.entry) (option_type got.entry)) }
{
    let Ok(want) = plain_types(alloc, want) else {
        return TypeFault::NoMemory;
    };
    let Ok(got) = plain_types(alloc, got) else {
        return TypeFault::NoMemory;
    };
    TypeFault::Mismatch { at, want, got }
}

/// What is given stands at a place: it comes back where it fits.
pub fn fit<'a>(alloc: Global, at: u64, want: Want<'a>, got: Got<'a>) -> Result<Got<'a>, TypeFault>
    ensures { Gives result (fit_place at (place want.entry) (given got.entry)) }
{
    if suits(want, got) {
        Ok(got)
    } else {
        Err(mismatch(alloc, at, one_type(want), got_type(got)))
    }
}

/// The refusal of two operands that do not compare.
pub fn unequal<'a>(
    alloc: Global,
    left_at: u64,
    right_at: u64,
    left: Got<'a>,
    right: Got<'a>,
) -> TypeFault
    ensures { IsFault result (unequal_break left_at right_at (given left.entry) (given right.entry)) }
{
    match left {
        Got::Nothing => mismatch(alloc, left_at, got_type(right), None),
        Got::Value(t) => mismatch(alloc, right_at, Some(t), got_type(right)),
        Got::Null => mismatch(alloc, right_at, None, got_type(right)),
    }
}
