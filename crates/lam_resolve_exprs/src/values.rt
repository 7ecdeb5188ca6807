//! Names in scope, and constructors of resolved expressions with what they give.

ghost use Rattle.std.specs.Prelude.{◌≡◌, ℕ, IfOk, IsSome, Some, slice_get};
ghost use Rattle.std.specs.Option.{option_map, option_copied};
ghost use Rattle.lam_syntax.specs.Tree.{cap_tree as written_cap, caps_tree as written_caps};
ghost use Rattle.lam_builtins.specs.Types.{a_value, a_null, bytes as bytes_type, label as label_type, caps as caps_type, thread as thread_type, object, array};
ghost use Rattle.lam_builtins.specs.Operators.{operator_type as type_of_operator, unary_type};
ghost use Rattle.lam_builtins.specs.Rows.{plain_type};
ghost use Rattle.lam_builtins.specs.Builtins.{row_by, answered as answered_by};
ghost use Rattle.lam_resolve_tree.specs.Tree.{expr_tree, exprs_tree, cap_tree, caps_tree, text_value as text_tree, null_value as null_tree, local_value as local_tree, option_type_tree, new_object as new_object_tree, unary_of, builtin_of, call_of, field_of, binary_of, new_array as new_array_tree, label_of as label_tree, caps_of as caps_of_tree, spawn_of};
ghost use Rattle.lam_resolve_tables.specs.Resolved.{then_some, value_as, local_named as first_local, field_read as read_field, element_read as read_element, builtin_value as value_of_builtin, called as called_by, found, resolve_caps as resolved_caps};
ghost use Rattle.lam_builtins.specs.Builtins.{builtin_named};
ghost use Rattle.lam_resolve_tables.specs.Kinds.{base_type, kind_type, given};
ghost use Rattle.lam_resolve_tables.specs.Tables.{tables};
ghost use Rattle.lam_resolve_tree.specs.Typing.{given_by as result_given};
ghost use Rattle.lam_resolve_exprs.specs.Values.{local, locals, value, args as seen_args, field_seen, function_seen, called_seen, cap_at};

use lam_builtins::{Answers, Builtin, PlainType, operator_type, prefix_type};
use lam_operators::{BinaryOp, UnaryOp};
use lam_resolve_tables::kinds::{
    Base, Given, Kind, array_of, class_of, element_of, given_kind, option_value_type, plain,
    value_type,
};
use lam_resolve_tables::named::Named;
use lam_resolve_tables::tables::Tables;
use lam_resolve_tree::{CapItem, Expr, ValueType};
use lam_syntax::CapItem as WrittenCap;
use std::alloc::Global;
use want_of_memory::NoMemory;

/// A name in scope has a slot and a type.
#[derive(Clone, Copy)]
pub struct Local {
    pub slot: usize,
    pub kind: Kind,
}

/// A resolved expression, and what it gives.
#[derive(Drop)]
pub struct Value {
    pub it: Expr,
    pub gives: Given,
}

/// Arguments, and what the first gives.
#[derive(Drop)]
pub struct Args {
    pub it: Vec<Expr>,
    pub first: Given,
}

/// An expression of a type that is no array.
pub fn plain_value(it: Expr, base: Base) -> Value
    ensures { value result ≡ value_as (expr_tree it) (a_value (base_type base)) }
{
    Value {
        it,
        gives: Given::Value(plain(base)),
    }
}

/// Bytes.
///
/// # Errors
///
/// `NoMemory` where memory is refused.
pub fn text_value(alloc: Global, bytes: &Vec<u8>) -> Result<Value, NoMemory>
    ensures { IfOk result (λ v. value v ≡ value_as (text_tree bytes.now.items) (a_value bytes_type)) }
{
    let copy = Vec::from_slice(alloc, bytes)?;
    Ok(plain_value(Expr::Text(copy), Base::Bytes))
}

/// `null`
pub fn null_value() -> Value
    ensures { value result ≡ value_as null_tree a_null }
{
    Value {
        it: Expr::Null,
        gives: Given::Null,
    }
}

/// The local of a name.
pub fn local_named(scope: &Named<Local>, name: &str) -> Option<Local>
    ensures { option_map local result ≡ first_local (locals scope.now) name.now }
{
    match scope.find(name) {
        None => None,
        Some((_, local)) => Some(*local),
    }
}

/// The value of the local of a name.
pub fn local_value(scope: &Named<Local>, name: &str) -> Value
    requires { IsSome (first_local (locals scope.now) name.now) }
    ensures { Some (value result) ≡ then_some (first_local (locals scope.now) name.now) (λ l. Some (value_as (local_tree l.slot) (a_value l.ty))) }
{
    let Some(local) = local_named(scope, name) else {
        unreachable!()
    };
    Value {
        it: Expr::Local(local.slot),
        gives: Given::Value(local.kind),
    }
}

// The base that a row of operators or of built-in calls speaks of.
fn plain_base(t: PlainType) -> Base
    ensures { base_type result ≡ plain_type t }
{
    match t {
        PlainType::Int => Base::Int,
        PlainType::Bool => Base::Bool,
        PlainType::Bytes => Base::Bytes,
        PlainType::Tag => Base::Tag,
        PlainType::Label => Base::Label,
        PlainType::Caps => Base::Caps,
        PlainType::File => Base::File,
        PlainType::Dir => Base::Dir,
        PlainType::Pipe => Base::Pipe,
        PlainType::Thread => Base::Thread,
    }
}

/// An operator between two operands.
///
/// # Errors
///
/// `NoMemory` where memory is refused.
pub fn binary(alloc: Global, op: BinaryOp, left: Value, right: Value) -> Result<Value, NoMemory>
    ensures { IfOk result (λ v. value v ≡ value_as (binary_of op (expr_tree left.it) (expr_tree right.it)) (a_value (type_of_operator op))) }
{
    let it = Expr::Binary {
        op,
        left: Box::new(alloc, left.it)?,
        right: Box::new(alloc, right.it)?,
    };
    Ok(plain_value(it, plain_base(operator_type(op))))
}

/// An operator before its operand.
///
/// # Errors
///
/// `NoMemory` where memory is refused.
pub fn unary(alloc: Global, op: UnaryOp, of: Value) -> Result<Value, NoMemory>
    ensures { IfOk result (λ v. value v ≡ value_as (unary_of op (expr_tree of.it)) (a_value (unary_type op))) }
{
    let it = Expr::Unary {
        op,
        of: Box::new(alloc, of.it)?,
    };
    Ok(plain_value(it, plain_base(prefix_type(op))))
}

fn class_at<'t, 'a>(classes: &'t [Named<'a, Kind>], class: usize) -> Option<&'t Named<'a, Kind>>
    ensures { option_copied result ≡ slice_get classes.now class }
{
    classes.get(class)
}

// A field, by the number of its class and its name: its own number, and its type.
fn field_named(t: &Tables, class: usize, name: &str) -> Option<(usize, Kind)>
    ensures { option_map field_seen result ≡ then_some (slice_get (tables t.now).classes class) (λ fields. found name.now fields) }
{
    match class_at(t.classes.as_slice(), class) {
        None => None,
        Some(fields) => match fields.find(name) {
            None => None,
            Some((field, kind)) => Some((field, *kind)),
        },
    }
}

/// A field of an object.
///
/// # Errors
///
/// `NoMemory` where memory is refused.
pub fn field_read(alloc: Global, t: &Tables, of: Value, name: &str) -> Result<Value, NoMemory>
    requires { IsSome (read_field (tables t.now) (expr_tree of.it) (given of.gives) name.now) }
    ensures { IfOk result (λ v. Some (value v) ≡ read_field (tables t.now) (expr_tree of.it) (given of.gives) name.now) }
{
    let Some(class) = class_of(of.gives) else {
        unreachable!()
    };
    let Some((field, kind)) = field_named(t, class, name) else {
        unreachable!()
    };
    field_value(alloc, of.it, class, field, kind)
}

fn field_value(
    alloc: Global,
    of: Expr,
    class: usize,
    field: usize,
    kind: Kind,
) -> Result<Value, NoMemory>
    ensures { IfOk result (λ v. value v ≡ value_as (field_of (expr_tree of) class field (kind_type kind)) (a_value (kind_type kind))) }
{
    let it = Expr::Field {
        of: Box::new(alloc, of)?,
        class,
        field,
        ty: value_type(alloc, kind)?,
    };
    Ok(Value {
        it,
        gives: Given::Value(kind),
    })
}

/// An element of an array.
///
/// # Errors
///
/// `NoMemory` where memory is refused.
pub fn element_read(alloc: Global, of: Value, index: Value) -> Result<Value, NoMemory>
    requires { IsSome (read_element (expr_tree of.it) (given of.gives) (expr_tree index.it)) }
    ensures { IfOk result (λ v. Some (value v) ≡ read_element (expr_tree of.it) (given of.gives) (expr_tree index.it)) }
{
    let Some(kind) = element_of(of.gives) else {
        unreachable!()
    };
    let it = Expr::Element {
        of: Box::new(alloc, of.it)?,
        index: Box::new(alloc, index.it)?,
        ty: value_type(alloc, kind)?,
    };
    Ok(Value {
        it,
        gives: Given::Value(kind),
    })
}

/// A built-in call.
///
/// # Errors
///
/// `NoMemory` where memory is refused.
pub fn builtin_value(alloc: Global, call: Builtin, args: Args) -> Result<Value, NoMemory>
    ensures { IfOk result (λ v. value v ≡ value_of_builtin call (seen_args args) (answered_by (row_by ℕ call).signature.answer (given args.first))) }
{
    let gives = answer(call, args.first);
    let ty = option_value_type(alloc, given_kind(gives))?;
    Ok(builtin_call(call, args.it, ty, gives))
}

fn builtin_call(call: Builtin, args: Vec<Expr>, ty: Option<ValueType>, gives: Given) -> Value
    ensures { value result ≡ value_as (builtin_of call (exprs_tree args.items) (option_type_tree ty)) (given gives) }
{
    let it = Expr::BuiltinCall { call, args, ty };
    Value { it, gives }
}

// What a built-in call gives, where `first` is what its first argument gives.
fn answer(call: Builtin, first: Given) -> Given
    ensures { given result ≡ answered_by (row_by ℕ call).signature.answer (given first) }
{
    match call.row().answer {
        Answers::Value(t) => given_base(plain_base(t)),
        Answers::Nothing => Given::Nothing,
        Answers::AsFirst => first,
    }
}

fn given_base(base: Base) -> Given
    ensures { given result ≡ a_value (base_type base) }
{
    Given::Value(plain(base))
}

// What a function with such a result gives.
fn given_by(kind: Option<Kind>) -> Given
    ensures { given result ≡ result_given (option_map kind_type kind) }
{
    match kind {
        Some(kind) => Given::Value(kind),
        None => Given::Nothing,
    }
}

/// A declared function: its number, and what its call gives.
pub fn function_named(t: &Tables, name: &str) -> Option<(usize, Given)>
    ensures { option_map function_seen result ≡ option_map called_seen (found name.now (tables t.now).functions) }
{
    match t.functions.find(name) {
        None => None,
        Some((number, head)) => Some((number, given_by(head.result))),
    }
}

/// The number of a declared function.
pub fn function_number(t: &Tables, name: &str) -> usize
    requires { IsSome (found name.now (tables t.now).functions) }
    ensures { Some result ≡ option_map (λ f. f.number) (found name.now (tables t.now).functions) }
{
    let Some((number, _)) = t.functions.find(name) else {
        unreachable!()
    };
    number
}

fn function_call(function: usize, args: Vec<Expr>, gives: Given) -> Value
    ensures { value result ≡ value_as (call_of function (exprs_tree args.items)) (given gives) }
{
    let it = Expr::Call { function, args };
    Value { it, gives }
}

/// A built-in call, or else a call of a declared function.
///
/// # Errors
///
/// `NoMemory` where memory is refused.
pub fn called(alloc: Global, t: &Tables, name: &str, args: Args) -> Result<Value, NoMemory>
    requires { IsSome (called_by (tables t.now) (builtin_named name.now) name.now (seen_args args)) }
    ensures { IfOk result (λ v. Some (value v) ≡ called_by (tables t.now) (builtin_named name.now) name.now (seen_args args)) }
{
    match Builtin::named(name) {
        Some(call) => builtin_value(alloc, call, args),
        None => {
            let Some((function, gives)) = function_named(t, name) else {
                unreachable!()
            };
            Ok(function_call(function, args.it, gives))
        }
    }
}

/// A new object of a class.
pub fn new_object(t: &Tables, name: &str) -> Value
    requires { IsSome (found name.now (tables t.now).names) }
    ensures { Some (value result) ≡ then_some (found name.now (tables t.now).names) (λ n. Some (value_as (new_object_tree n.number) (a_value (object n.number)))) }
{
    let Some((class, _)) = t.names.find(name) else {
        unreachable!()
    };
    plain_value(Expr::NewClass { class }, Base::Object(class))
}

/// A new array of a length.
///
/// # Errors
///
/// `NoMemory` where memory is refused.
pub fn new_array(alloc: Global, element: Kind, length: Value) -> Result<Value, NoMemory>
    ensures { IfOk result (λ v. value v ≡ value_as (new_array_tree (kind_type element) (expr_tree length.it)) (a_value (array (kind_type element)))) }
{
    let gives = Given::Value(array_of(element)?);
    let it = Expr::NewArray {
        element: value_type(alloc, element)?,
        length: Box::new(alloc, length.it)?,
    };
    Ok(Value { it, gives })
}

/// A label of tags.
pub fn label_of(s: Args, i: Args) -> Value
    ensures { value result ≡ value_as (label_tree (exprs_tree s.it.items) (exprs_tree i.it.items)) (a_value label_type) }
{
    plain_value(Expr::LabelOf { s: s.it, i: i.it }, Base::Label)
}

/// A thread that is started.
///
/// # Errors
///
/// `NoMemory` where memory is refused.
pub fn spawn(alloc: Global, caps: Value, function: usize, args: Args) -> Result<Value, NoMemory>
    ensures { IfOk result (λ v. value v ≡ value_as (spawn_of (expr_tree caps.it) function (exprs_tree args.it.items)) (a_value thread_type)) }
{
    let it = Expr::Spawn {
        caps: Box::new(alloc, caps.it)?,
        function,
        args: args.it,
    };
    Ok(plain_value(it, Base::Thread))
}

fn caps_value(items: Vec<CapItem>) -> Value
    ensures { value result ≡ value_as (caps_of_tree (caps_tree items.items)) (a_value caps_type) }
{
    plain_value(Expr::CapsOf(items), Base::Caps)
}

fn resolve_cap(scope: &Named<Local>, item: &WrittenCap) -> CapItem
    requires { IsSome (first_local (locals scope.now) (written_cap item.now).name.word) }
    ensures { Some (cap_tree result) ≡ option_map (λ l. cap_at l.slot (written_cap item.now).plus) (first_local (locals scope.now) (written_cap item.now).name.word) }
{
    let Some(local) = local_named(scope, item.name.name.as_str()) else {
        unreachable!()
    };
    CapItem {
        slot: local.slot,
        plus: item.plus,
    }
}

fn resolve_caps(
    alloc: Global,
    scope: &Named<Local>,
    items: &[WrittenCap],
) -> Result<Vec<CapItem>, NoMemory>
    requires { IsSome (resolved_caps (locals scope.now) (written_caps items.now)) }
    ensures { IfOk result (λ v. Some (caps_tree v.items) ≡ resolved_caps (locals scope.now) (written_caps items.now)) }
{
    let mut out = Vec::new(alloc);
    for item in items {
        out.push(resolve_cap(scope, item))?;
    }
    Ok(out)
}

/// Capabilities of tags in scope.
///
/// # Errors
///
/// `NoMemory` where memory is refused.
pub fn caps_of(alloc: Global, scope: &Named<Local>, items: &[WrittenCap]) -> Result<Value, NoMemory>
    requires { IsSome (resolved_caps (locals scope.now) (written_caps items.now)) }
    ensures { IfOk result (λ v. Some (value v) ≡ then_some (resolved_caps (locals scope.now) (written_caps items.now)) (λ cs. Some (value_as (caps_of_tree cs) (a_value caps_type)))) }
{
    Ok(caps_value(resolve_caps(alloc, scope, items)?))
}
