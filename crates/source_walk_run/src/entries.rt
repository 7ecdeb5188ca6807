//! The test that a thread may begin at a function with these arguments.

ghost use Rattle.std.specs.Prelude.{◌≡◌, ◌↔◌, Some, IsTrue, length};
ghost use Rattle.lam_value.specs.declared.values.Value.TheVariants.{Nothing as nothing};
ghost use Rattle.lam_builtins.specs.Types.{int};
ghost use Rattle.lam_resolve_tree.specs.Tree.{type_tree, types_tree, option_type_tree, resolved_tree};
ghost use Rattle.lam_asks.specs.Suits.{is_of};
ghost use Rattle.lam_meaning.specs.Means.{sort_of};
ghost use Rattle.lam_meaning_typed.specs.Kinds.{AreOf};
ghost use Rattle.source_walk_terms.specs.Walks.{IsEntry};

use lam_resolve_tree::{Resolved, ValueType};
use lam_value::Value;

/// Whether the function with this number is one of the program, has a number as its result, and takes values of these
/// sorts.
pub(crate) fn is_entry(program: &Resolved, function: u32, args: &[Value]) -> bool
    ensures { IsTrue result ↔ IsEntry (resolved_tree program.now) function args.now }
{
    match program.functions.get(function as usize) {
        None => false,
        Some(declared) => {
            gives_number(&declared.result) && are_of(declared.params.as_slice(), args)
        }
    }
}

fn gives_number(gives: &Option<ValueType>) -> bool
    ensures { IsTrue result ↔ (option_type_tree gives.now ≡ Some int) }
{
    match gives {
        None => false,
        Some(ty) => is_number(ty),
    }
}

fn is_number(ty: &ValueType) -> bool
    ensures { IsTrue result ↔ (type_tree ty.now ≡ int) }
{
    matches!(ty, ValueType::Int)
}

/// Whether there are as many values as types, each of the sort of its own.
fn are_of(types: &[ValueType], args: &[Value]) -> bool
    ensures { IsTrue result ↔ AreOf (types_tree types.now) args.now }
{
    types.len() == args.len() && each_is_of(types, args)
}

fn each_is_of(types: &[ValueType], args: &[Value]) -> bool
    requires { length types.now ≡ length args.now }
    ensures { IsTrue result ↔ AreOf (types_tree types.now) args.now }
{
    for at in 0..types.len() {
        if !is_of(&types[at], &args[at]) {
            return false;
        }
    }
    true
}

/// Whether a value is of a type's sort.
fn is_of(ty: &ValueType, value: &Value) -> bool
    ensures { result ≡ is_of (sort_of (type_tree ty.now)) value.now }
{
    match value {
        Value::Int(_) => matches!(ty, ValueType::Int),
        Value::Bool(_) => matches!(ty, ValueType::Bool),
        Value::Bytes(_) => matches!(ty, ValueType::Bytes),
        Value::Nothing => has_null(ty),
        Value::Obj(_) => matches!(ty, ValueType::Object(_)),
        Value::Arr { .. } => matches!(ty, ValueType::Array(_)),
        Value::File(_) => matches!(ty, ValueType::File),
        Value::Dir(_) => matches!(ty, ValueType::Dir),
        Value::Pipe(_) => matches!(ty, ValueType::Pipe),
        Value::Thread(_) => matches!(ty, ValueType::Thread),
        Value::Tag(_) => matches!(ty, ValueType::Tag),
        Value::Lab(_) => matches!(ty, ValueType::Label),
        Value::CapV { .. } => matches!(ty, ValueType::Caps),
    }
}

/// Whether null is of a type's sort: of each but numbers and truth values.
fn has_null(ty: &ValueType) -> bool
    ensures { result ≡ is_of (sort_of (type_tree ty.now)) nothing }
{
    !matches!(ty, ValueType::Int | ValueType::Bool)
}
