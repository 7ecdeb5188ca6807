//! The resolver's types, and what an expression gives.

ghost use Rattle.std.specs.Prelude.{◌≡◌, IfOk, IsSome, Some, option_map};
ghost use Rattle.lam_syntax.specs.Tree.{type_tree as written_tree, option_type_tree as written_option};
ghost use Rattle.lam_builtins.specs.Types.{array, given_type};
ghost use Rattle.lam_resolve_tree.specs.Tree.{type_tree, option_type_tree};
ghost use Rattle.lam_resolve_laws.specs.Resolved.{resolve_type as resolved_type, resolve_result as resolved_result};
ghost use Rattle.lam_resolve_tables.specs.Entries.{entries_of};
ghost use Rattle.lam_resolve_tables.specs.Kinds.{base_type, kind_type, given, class_given, element_given};

use crate::named::Named;
use lam_resolve_tree::ValueType;
use lam_syntax::{TypeExpr, TypeKind};
use std::alloc::Global;
use want_of_memory::NoMemory;

/// The types but arrays. A class stands by its number.
#[derive(Clone, Copy)]
pub enum Base {
    Int,
    Bool,
    Bytes,
    Tag,
    Label,
    Caps,
    File,
    Dir,
    Pipe,
    Thread,
    Object(usize),
}

/// A type: a base, or arrays of it, so many deep.
#[derive(Clone, Copy)]
pub struct Kind {
    pub base: Base,
    pub arrays: u32,
}

/// What an expression gives: a value of a type, `null`, or nothing, which is a call without a result.
#[derive(Clone, Copy)]
pub enum Given {
    Value(Kind),
    Null,
    Nothing,
}

/// A type that is no array.
pub fn plain(base: Base) -> Kind
    ensures { kind_type result ≡ base_type base }
{
    Kind { base, arrays: 0 }
}

/// An array of elements of a type.
///
/// # Errors
///
/// `NoMemory` where arrays nest too deep to be counted, which no memory holds.
pub fn array_of(element: Kind) -> Result<Kind, NoMemory>
    ensures { IfOk result (λ k. kind_type k ≡ array (kind_type element)) }
{
    if element.arrays == u32::MAX {
        return Err(NoMemory);
    }
    Ok(Kind {
        base: element.base,
        arrays: element.arrays + 1,
    })
}

/// The class of the object that is given.
pub fn class_of(of: Given) -> Option<usize>
    ensures { result ≡ class_given (given of) }
{
    match of {
        Given::Value(kind) => {
            if kind.arrays > 0 {
                return None;
            }
            match kind.base {
                Base::Object(class) => Some(class),
                _ => None,
            }
        }
        _ => None,
    }
}

/// The type of the elements of the array that is given.
pub fn element_of(of: Given) -> Option<Kind>
    ensures { option_map kind_type result ≡ element_given (given of) }
{
    match of {
        Given::Value(kind) => {
            if kind.arrays == 0 {
                return None;
            }
            Some(Kind {
                base: kind.base,
                arrays: kind.arrays - 1,
            })
        }
        _ => None,
    }
}

/// The type of the value that is given.
pub fn given_kind(of: Given) -> Option<Kind>
    ensures { option_map kind_type result ≡ given_type (given of) }
{
    match of {
        Given::Value(kind) => Some(kind),
        _ => None,
    }
}

fn base_value(base: Base) -> ValueType
    ensures { type_tree result ≡ base_type base }
{
    match base {
        Base::Int => ValueType::Int,
        Base::Bool => ValueType::Bool,
        Base::Bytes => ValueType::Bytes,
        Base::Tag => ValueType::Tag,
        Base::Label => ValueType::Label,
        Base::Caps => ValueType::Caps,
        Base::File => ValueType::File,
        Base::Dir => ValueType::Dir,
        Base::Pipe => ValueType::Pipe,
        Base::Thread => ValueType::Thread,
        Base::Object(class) => ValueType::Object(class),
    }
}

/// The type as a tree.
///
/// # Errors
///
/// `NoMemory` where memory is refused.
pub fn value_type(alloc: Global, kind: Kind) -> Result<ValueType, NoMemory>
    ensures { IfOk result (λ t. type_tree t ≡ kind_type kind) }
{
    let mut ty = base_value(kind.base);
    for _ in 0..kind.arrays {
        ty = ValueType::Array(Box::new(alloc, ty)?);
    }
    Ok(ty)
}

/// The same of a type that may be absent.
///
/// # Errors
///
/// `NoMemory` where memory is refused.
pub fn option_value_type(alloc: Global, kind: Option<Kind>) -> Result<Option<ValueType>, NoMemory>
    ensures { IfOk result (λ t. option_type_tree t ≡ option_map kind_type kind) }
{
    match kind {
        None => Ok(None),
        Some(kind) => Ok(Some(value_type(alloc, kind)?)),
    }
}

/// A written type, by the names of the program's classes.
///
/// # Errors
///
/// `NoMemory` where arrays nest too deep to be counted, which no memory holds.
pub fn resolve_type(names: &Named<()>, t: &TypeExpr) -> Result<Kind, NoMemory>
    requires { IsSome (resolved_type (entries_of names.now) (written_tree t.now)) }
    ensures { IfOk result (λ k. Some (kind_type k) ≡ resolved_type (entries_of names.now) (written_tree t.now)) }
{
    match &t.kind {
        TypeKind::Int => Ok(plain(Base::Int)),
        TypeKind::Bool => Ok(plain(Base::Bool)),
        TypeKind::Bytes => Ok(plain(Base::Bytes)),
        TypeKind::Tag => Ok(plain(Base::Tag)),
        TypeKind::Label => Ok(plain(Base::Label)),
        TypeKind::Caps => Ok(plain(Base::Caps)),
        TypeKind::File => Ok(plain(Base::File)),
        TypeKind::Dir => Ok(plain(Base::Dir)),
        TypeKind::Pipe => Ok(plain(Base::Pipe)),
        TypeKind::Thread => Ok(plain(Base::Thread)),
        TypeKind::Class(class) => {
            let Some((number, _)) = names.find(class.as_str()) else {
                unreachable!()
            };
            Ok(plain(Base::Object(number)))
        }
        TypeKind::Array(element) => array_of(resolve_type(names, element)?),
    }
}

/// A result's type, where there is one.
///
/// # Errors
///
/// `NoMemory` where arrays nest too deep to be counted, which no memory holds.
pub fn resolve_result(
    names: &Named<()>,
    written: &Option<TypeExpr>,
) -> Result<Option<Kind>, NoMemory>
    requires { IsSome (resolved_result (entries_of names.now) (written_option written.now)) }
    ensures { IfOk result (λ k. Some (option_map kind_type k) ≡ resolved_result (entries_of names.now) (written_option written.now)) }
{
    match written {
        None => Ok(None),
        Some(t) => Ok(Some(resolve_type(names, t)?)),
    }
}
