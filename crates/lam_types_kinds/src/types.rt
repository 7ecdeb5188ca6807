//! Types that borrow from a program's tree: of expressions, and of places.

ghost use Rattle.std.specs.Prelude.{◌≡◌, IfOk, None, Some};
ghost use Rattle.std.specs.Str.{bytes_eq};
ghost use Rattle.lam_syntax.specs.Tree.{type_tree, option_type_tree};
ghost use Rattle.lam_builtins.specs.Types.{same_type as same, nullable as may_be_null, accepts, suits as suits_place, comparable as may_compare, wanted_type, given_type};
ghost use Rattle.lam_types_kinds.specs.Written.{plain};
ghost use Rattle.lam_types_kinds.specs.Breaks.{plain_option};
ghost use Rattle.lam_types_kinds.specs.Values.{type_of, value_type, given, place, option_type};

use lam_syntax::{TypeExpr, TypeKind};
use std::alloc::{AllocError, Global};

/// A type. A class and an array's element are those of the program's tree.
#[derive(Clone, Copy)]
pub enum TypeRef<'a> {
    Int,
    Bool,
    Bytes,
    Tag,
    Label,
    Caps,
    File,
    Dir,
    Pipe,
    Thread,
    Class(&'a str),
    Array(&'a TypeExpr),
}

/// What an expression gives: a value of a type, `null`, or nothing, which is a call without a result.
#[derive(Clone, Copy)]
pub enum Got<'a> {
    Value(TypeRef<'a>),
    Null,
    Nothing,
}

/// What a place takes: one type, or several.
#[derive(Clone, Copy)]
pub enum Want<'a> {
    Exactly(TypeRef<'a>),
    /// A class, before `.`.
    AnyClass,
    /// An array, before `[` and in `len`.
    AnyArray,
    /// A class or an array, in `sync` and `copy`.
    AnyObject,
    /// What has a label: a class, an array, a file, a directory or a pipe, in `label_of`.
    AnyLabelled,
}

fn same_text(a: &str, b: &str) -> bool
    ensures { result ≡ bytes_eq a.now b.now }
{
    a.as_bytes() == b.as_bytes()
}

/// The type that is written, whose positions do not count.
pub fn type_ref<'a>(t: &'a TypeExpr) -> TypeRef<'a>
    ensures { value_type result ≡ type_of t.now }
{
    match &t.kind {
        TypeKind::Int => TypeRef::Int,
        TypeKind::Bool => TypeRef::Bool,
        TypeKind::Bytes => TypeRef::Bytes,
        TypeKind::Tag => TypeRef::Tag,
        TypeKind::Label => TypeRef::Label,
        TypeKind::Caps => TypeRef::Caps,
        TypeKind::File => TypeRef::File,
        TypeKind::Dir => TypeRef::Dir,
        TypeKind::Pipe => TypeRef::Pipe,
        TypeKind::Thread => TypeRef::Thread,
        TypeKind::Class(c) => TypeRef::Class(c.as_str()),
        TypeKind::Array(element) => TypeRef::Array(element),
    }
}

/// The two types are one.
pub fn same_type(a: TypeRef, b: TypeRef) -> bool
    ensures { result ≡ same (value_type a.entry) (value_type b.entry) }
{
    match (a, b) {
        (TypeRef::Int, TypeRef::Int) => true,
        (TypeRef::Bool, TypeRef::Bool) => true,
        (TypeRef::Bytes, TypeRef::Bytes) => true,
        (TypeRef::Tag, TypeRef::Tag) => true,
        (TypeRef::Label, TypeRef::Label) => true,
        (TypeRef::Caps, TypeRef::Caps) => true,
        (TypeRef::File, TypeRef::File) => true,
        (TypeRef::Dir, TypeRef::Dir) => true,
        (TypeRef::Pipe, TypeRef::Pipe) => true,
        (TypeRef::Thread, TypeRef::Thread) => true,
        (TypeRef::Class(c), TypeRef::Class(e)) => same_text(c, e),
        (TypeRef::Array(t), TypeRef::Array(u)) => same_written(t, u),
        _ => false,
    }
}

fn same_written(a: &TypeExpr, b: &TypeExpr) -> bool
    ensures { result ≡ same (type_of a.now) (type_of b.now) }
{
    match (&a.kind, &b.kind) {
        (TypeKind::Int, TypeKind::Int) => true,
        (TypeKind::Bool, TypeKind::Bool) => true,
        (TypeKind::Bytes, TypeKind::Bytes) => true,
        (TypeKind::Tag, TypeKind::Tag) => true,
        (TypeKind::Label, TypeKind::Label) => true,
        (TypeKind::Caps, TypeKind::Caps) => true,
        (TypeKind::File, TypeKind::File) => true,
        (TypeKind::Dir, TypeKind::Dir) => true,
        (TypeKind::Pipe, TypeKind::Pipe) => true,
        (TypeKind::Thread, TypeKind::Thread) => true,
        (TypeKind::Class(c), TypeKind::Class(e)) => same_text(c.as_str(), e.as_str()),
        (TypeKind::Array(t), TypeKind::Array(u)) => same_written(t, u),
        _ => false,
    }
}

fn nullable(t: TypeRef) -> bool
    ensures { result ≡ may_be_null (value_type t.entry) }
{
    match t {
        TypeRef::Int | TypeRef::Bool => false,
        _ => true,
    }
}

fn takes(want: Want, t: TypeRef) -> bool
    ensures { result ≡ accepts (place want.entry) (value_type t.entry) }
{
    match want {
        Want::Exactly(u) => same_type(u, t),
        Want::AnyClass => matches!(t, TypeRef::Class(_)),
        Want::AnyArray => matches!(t, TypeRef::Array(_)),
        Want::AnyObject => matches!(t, TypeRef::Class(_) | TypeRef::Array(_)),
        Want::AnyLabelled => match t {
            TypeRef::Class(_) | TypeRef::Array(_) => true,
            TypeRef::File | TypeRef::Dir | TypeRef::Pipe => true,
            _ => false,
        },
    }
}

/// What is given fits the place.
pub fn suits(want: Want, got: Got) -> bool
    ensures { result ≡ suits_place (place want.entry) (given got.entry) }
{
    match got {
        Got::Value(t) => takes(want, t),
        Got::Null => match want {
            Want::Exactly(t) => nullable(t),
            _ => false,
        },
        Got::Nothing => false,
    }
}

/// `==` and `!=` compare the two.
pub fn comparable(left: Got, right: Got) -> bool
    ensures { result ≡ may_compare (given left.entry) (given right.entry) }
{
    match left {
        Got::Value(t) => match right {
            Got::Value(u) => same_type(t, u),
            Got::Null => nullable(t),
            Got::Nothing => false,
        },
        Got::Null => match right {
            Got::Value(u) => nullable(u),
            Got::Null => true,
            Got::Nothing => false,
        },
        Got::Nothing => false,
    }
}

/// The one type that a place takes, if it takes one.
pub fn one_type<'a>(want: Want<'a>) -> Option<TypeRef<'a>>
    ensures { option_type result ≡ wanted_type (place want.entry) }
{
    match want {
        Want::Exactly(t) => Some(t),
        _ => None,
    }
}

/// The type of a given value.
pub fn got_type<'a>(got: Got<'a>) -> Option<TypeRef<'a>>
    ensures { option_type result ≡ given_type (given got.entry) }
{
    match got {
        Got::Value(t) => Some(t),
        _ => None,
    }
}

fn plain_written(alloc: Global, t: &TypeExpr) -> Result<TypeExpr, AllocError>
    ensures { IfOk result (λ u. type_tree u ≡ plain (type_of t.now)) }
{
    let kind = match &t.kind {
        TypeKind::Int => TypeKind::Int,
        TypeKind::Bool => TypeKind::Bool,
        TypeKind::Bytes => TypeKind::Bytes,
        TypeKind::Tag => TypeKind::Tag,
        TypeKind::Label => TypeKind::Label,
        TypeKind::Caps => TypeKind::Caps,
        TypeKind::File => TypeKind::File,
        TypeKind::Dir => TypeKind::Dir,
        TypeKind::Pipe => TypeKind::Pipe,
        TypeKind::Thread => TypeKind::Thread,
        TypeKind::Class(c) => TypeKind::Class(c.clone()?),
        TypeKind::Array(u) => TypeKind::Array(Box::new(alloc, plain_written(alloc, u)?)?),
    };
    Ok(TypeExpr { at: 0, kind })
}

/// The type as a tree of its own, with 0 for each position.
pub fn plain_type(alloc: Global, t: TypeRef) -> Result<TypeExpr, AllocError>
    ensures { IfOk result (λ u. type_tree u ≡ plain (value_type t.entry)) }
{
    let kind = match t {
        TypeRef::Int => TypeKind::Int,
        TypeRef::Bool => TypeKind::Bool,
        TypeRef::Bytes => TypeKind::Bytes,
        TypeRef::Tag => TypeKind::Tag,
        TypeRef::Label => TypeKind::Label,
        TypeRef::Caps => TypeKind::Caps,
        TypeRef::File => TypeKind::File,
        TypeRef::Dir => TypeKind::Dir,
        TypeRef::Pipe => TypeKind::Pipe,
        TypeRef::Thread => TypeKind::Thread,
        TypeRef::Class(c) => TypeKind::Class(c.to_string(alloc)?),
        TypeRef::Array(u) => TypeKind::Array(Box::new(alloc, plain_written(alloc, u)?)?),
    };
    Ok(TypeExpr { at: 0, kind })
}

/// The same of a type that may be absent.
pub fn plain_types(alloc: Global, t: Option<TypeRef>) -> Result<Option<TypeExpr>, AllocError>
    ensures { IfOk result (λ u. option_type_tree u ≡ plain_option (option_type t.entry)) }
{
    match t {
        Some(t) => Ok(Some(plain_type(alloc, t)?)),
        None => Ok(None),
    }
}
