//! The sort of a type's values, and the first value of its fields.

ghost use Rattle.std.specs.Prelude.{◌≡◌};
ghost use Rattle.lam_resolve_tree.specs.Tree.{type_tree, option_type_tree};
ghost use Rattle.lam_meaning.specs.Means.{sort_of, kind_of, result_sort};
ghost use Rattle.source_walk_state.specs.Meaning.{sort_seen};

use lam_resolve_tree::ValueType;
use lam_value::Kind;
use source_walk_state::Sort;

/// The sort of a type's values.
pub fn sort_of(ty: &ValueType) -> Sort
    ensures { sort_seen result ≡ sort_of (type_tree ty.now) }
{
    match ty {
        ValueType::Int => Sort::Number,
        ValueType::Bool => Sort::Truth,
        ValueType::Bytes => Sort::Bytes,
        ValueType::Tag => Sort::Tag,
        ValueType::Label => Sort::Label,
        ValueType::Caps => Sort::Caps,
        ValueType::File => Sort::File,
        ValueType::Dir => Sort::Dir,
        ValueType::Pipe => Sort::Pipe,
        ValueType::Thread => Sort::Thread,
        ValueType::Object(_) => Sort::Object,
        ValueType::Array(_) => Sort::Array,
    }
}

/// The sort of a built-in call's result.
pub fn result_sort(ty: &Option<ValueType>) -> Sort
    ensures { sort_seen result ≡ result_sort (option_type_tree ty.now) }
{
    match ty {
        None => Sort::Number,
        Some(ty) => sort_of(ty),
    }
}

/// What fields and elements of a type are at first.
pub fn kind_of(ty: &ValueType) -> Kind
    ensures { result ≡ kind_of (type_tree ty.now) }
{
    match ty {
        ValueType::Int => Kind::Int,
        ValueType::Bool => Kind::Bool,
        _ => Kind::Null,
    }
}
