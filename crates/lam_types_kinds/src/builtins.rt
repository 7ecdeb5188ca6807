//! Signatures of built-in calls, in types that borrow from a program's tree. The table is that of `lam_builtins`.

ghost use Rattle.std.specs.Prelude.{◌≡◌, take, length};
ghost use Rattle.lam_operators.specs.Words.{Word};
ghost use Rattle.lam_builtins.specs.Builtins.{row, answered};
ghost use Rattle.lam_builtins.specs.Rows.{plain_type, place_taken, places_taken, answer_given};
ghost use Rattle.lam_types_kinds.specs.Values.{value_type, place, places, answer, given};

use crate::types::{Got, TypeRef, Want};
use lam_builtins::{Answers, Arguments, Builtin, PlainType, Takes};

/// The result of a call: a value of a type, none, or a value of the first argument's type.
#[derive(Clone, Copy)]
pub enum Returns<'a> {
    Value(TypeRef<'a>),
    Nothing,
    AsFirst,
}

// A place that no argument takes.
const PAST: Want<'static> = Want::Exactly(TypeRef::Int);

/// The type that a row speaks of.
pub fn plain_ref(t: PlainType) -> TypeRef<'static>
    ensures { value_type result ≡ plain_type t }
{
    match t {
        PlainType::Int => TypeRef::Int,
        PlainType::Bool => TypeRef::Bool,
        PlainType::Bytes => TypeRef::Bytes,
        PlainType::Tag => TypeRef::Tag,
        PlainType::Label => TypeRef::Label,
        PlainType::Caps => TypeRef::Caps,
        PlainType::File => TypeRef::File,
        PlainType::Dir => TypeRef::Dir,
        PlainType::Pipe => TypeRef::Pipe,
        PlainType::Thread => TypeRef::Thread,
    }
}

fn want_of(takes: Takes) -> Want<'static>
    ensures { place result ≡ place_taken takes }
{
    match takes {
        Takes::Exactly(t) => Want::Exactly(plain_ref(t)),
        Takes::AnyArray => Want::AnyArray,
        Takes::AnyObject => Want::AnyObject,
        Takes::AnyLabelled => Want::AnyLabelled,
    }
}

fn wants_of(takes: Arguments) -> [Want<'static>; 3]
    ensures takes { places (take (length (places_taken {C = Word} takes)) result) ≡ places_taken takes }
    ensures three { length result ≡ 3 }
{
    match takes {
        Arguments::Zero => [PAST, PAST, PAST],
        Arguments::One(a) => [want_of(a), PAST, PAST],
        Arguments::Two(a, b) => [want_of(a), want_of(b), PAST],
        Arguments::Three(a, b, c) => [want_of(a), want_of(b), want_of(c)],
    }
}

/// What the arguments of a built-in call are; past its arity, places that no argument takes.
pub fn builtin_wants(call: Builtin) -> [Want<'static>; 3]
    ensures takes { places (take (length (row call).signature.takes) result) ≡ (row call).signature.takes }
    ensures three { length result ≡ 3 }
{
    wants_of(call.row().takes)
}

/// The result of a built-in call.
pub fn builtin_returns(call: Builtin) -> Returns<'static>
    ensures { answer result ≡ (row call).signature.answer }
{
    returns_of(call.row().answer)
}

fn returns_of(given: Answers) -> Returns<'static>
    ensures { answer result ≡ answer_given given }
{
    match given {
        Answers::Value(t) => Returns::Value(plain_ref(t)),
        Answers::Nothing => Returns::Nothing,
        Answers::AsFirst => Returns::AsFirst,
    }
}

/// What a call gives, where `first` is what its first argument gives.
pub fn answered<'a>(returns: Returns<'a>, first: Got<'a>) -> Got<'a>
    ensures { given result ≡ answered (answer returns.entry) (given first.entry) }
{
    match returns {
        Returns::Value(t) => Got::Value(t),
        Returns::Nothing => Got::Nothing,
        Returns::AsFirst => first,
    }
}
