//! The traversal of an expression.

ghost use Rattle.std.specs.Prelude.{◌≡◌, IfOk, IsSome, Some};
ghost use Rattle.lam_syntax.specs.Tree.{expr_tree, exprs_tree, id_tree, type_tree, new_array_expr, label_expr, spawn_expr};
ghost use Rattle.lam_resolve_tables.specs.Resolved.{resolve, resolve_form, resolve_args as resolved_args};
ghost use Rattle.lam_resolve_tables.specs.Kinds.{given};
ghost use Rattle.lam_resolve_exprs.specs.Meets.{first_of};
ghost use Rattle.lam_resolve_tables.specs.Tables.{tables};
ghost use Rattle.lam_resolve_exprs.specs.Values.{locals, value, args as seen_args};

use crate::values::{
    Args, Local, Value, binary, called, caps_of, element_read, field_read, function_number,
    label_of, local_value, new_array, new_object, null_value, plain_value, spawn, text_value,
    unary,
};
use lam_resolve_tables::kinds::{Base, Given, resolve_type};
use lam_resolve_tables::named::Named;
use lam_resolve_tables::tables::Tables;
use lam_syntax::{Expr, ExprKind, Id, TypeExpr};
use std::alloc::Global;
use want_of_memory::NoMemory;

// What the first argument gives: argument i gives `given`, and `first` was noted before it.
fn first_given(i: usize, first: Given, next: Given) -> Given
    ensures { given result ≡ first_of i (given first) (given next) }
{
    if i == 0 { next } else { first }
}

/// An expression, and what it gives.
///
/// # Errors
///
/// `NoMemory` where memory is refused.
#[cycle(expr)]
pub fn resolve_expr(
    alloc: Global,
    t: &Tables,
    scope: &Named<Local>,
    e: &Expr,
) -> Result<Value, NoMemory>
    requires { IsSome (resolve (tables t.now) (locals scope.now) (expr_tree e.now)) }
    ensures { IfOk result (λ v. Some (value v) ≡ resolve (tables t.now) (locals scope.now) (expr_tree e.now)) }
{
    match &e.kind {
        ExprKind::Binary { op, left, right } => {
            let first = resolve_expr(alloc, t, scope, left)?;
            let second = resolve_expr(alloc, t, scope, right)?;
            binary(alloc, *op, first, second)
        }
        ExprKind::Unary { op, of } => {
            let operand = resolve_expr(alloc, t, scope, of)?;
            unary(alloc, *op, operand)
        }
        ExprKind::Field { of, field } => {
            let object = resolve_expr(alloc, t, scope, of)?;
            field_read(alloc, t, object, field.name.as_str())
        }
        ExprKind::Element { of, index } => {
            let array = resolve_expr(alloc, t, scope, of)?;
            let place = resolve_expr(alloc, t, scope, index)?;
            element_read(alloc, array, place)
        }
        ExprKind::Number(n) => Ok(plain_value(lam_resolve_tree::Expr::Number(*n), Base::Int)),
        ExprKind::Text(bytes) => text_value(alloc, bytes),
        ExprKind::Bool(b) => Ok(plain_value(lam_resolve_tree::Expr::Bool(*b), Base::Bool)),
        ExprKind::Null => Ok(null_value()),
        ExprKind::Name(x) => Ok(local_value(scope, x.as_str())),
        ExprKind::Call { name, args } => {
            let given = resolve_args(alloc, t, scope, args)?;
            called(alloc, t, name.name.as_str(), given)
        }
        ExprKind::NewClass { class } => Ok(new_object(t, class.name.as_str())),
        ExprKind::NewArray { element, length } => resolve_array(alloc, t, scope, element, length),
        ExprKind::LabelOf { s, i } => resolve_label(alloc, t, scope, s, i),
        ExprKind::CapsOf(items) => caps_of(alloc, scope, items.as_slice()),
        ExprKind::Spawn {
            caps,
            function,
            args,
        } => resolve_spawn(alloc, t, scope, caps, function, args),
    }
}

// A new array of a length.
#[cycle(expr)]
fn resolve_array(
    alloc: Global,
    t: &Tables,
    scope: &Named<Local>,
    element: &TypeExpr,
    length: &Expr,
) -> Result<Value, NoMemory>
    requires { IsSome (resolve_form (tables t.now) (locals scope.now) (new_array_expr (type_tree element.now) (expr_tree length.now))) }
    ensures { IfOk result (λ v. Some (value v) ≡ resolve_form (tables t.now) (locals scope.now) (new_array_expr (type_tree element.now) (expr_tree length.now))) }
{
    let kind = resolve_type(&t.names, element)?;
    let size = resolve_expr(alloc, t, scope, length)?;
    new_array(alloc, kind, size)
}

// A label of tags.
#[cycle(expr)]
fn resolve_label(
    alloc: Global,
    t: &Tables,
    scope: &Named<Local>,
    s: &Vec<Expr>,
    i: &Vec<Expr>,
) -> Result<Value, NoMemory>
    requires { IsSome (resolve_form (tables t.now) (locals scope.now) (label_expr (exprs_tree s.now.items) (exprs_tree i.now.items))) }
    ensures { IfOk result (λ v. Some (value v) ≡ resolve_form (tables t.now) (locals scope.now) (label_expr (exprs_tree s.now.items) (exprs_tree i.now.items))) }
{
    let secrecy = resolve_args(alloc, t, scope, s)?;
    let integrity = resolve_args(alloc, t, scope, i)?;
    Ok(label_of(secrecy, integrity))
}

// A thread that is started.
#[cycle(expr)]
fn resolve_spawn(
    alloc: Global,
    t: &Tables,
    scope: &Named<Local>,
    caps: &Expr,
    function: &Id,
    args: &Vec<Expr>,
) -> Result<Value, NoMemory>
    requires { IsSome (resolve_form (tables t.now) (locals scope.now) (spawn_expr (expr_tree caps.now) (id_tree function.now) (exprs_tree args.now.items))) }
    ensures { IfOk result (λ v. Some (value v) ≡ resolve_form (tables t.now) (locals scope.now) (spawn_expr (expr_tree caps.now) (id_tree function.now) (exprs_tree args.now.items))) }
{
    let held = resolve_expr(alloc, t, scope, caps)?;
    let number = function_number(t, function.name.as_str());
    let given = resolve_args(alloc, t, scope, args)?;
    spawn(alloc, held, number, given)
}

// Arguments, and what the first gives.
#[cycle(expr)]
fn resolve_args(
    alloc: Global,
    t: &Tables,
    scope: &Named<Local>,
    args: &Vec<Expr>,
) -> Result<Args, NoMemory>
    requires { IsSome (resolved_args (tables t.now) (locals scope.now) (exprs_tree args.now.items)) }
    ensures { IfOk result (λ a. Some (seen_args a) ≡ resolved_args (tables t.now) (locals scope.now) (exprs_tree args.now.items)) }
{
    let mut it = Vec::with_capacity(alloc, args.len())?;
    let mut first = Given::Nothing;
    for (i, x) in args.iter().enumerate() {
        let v = resolve_expr(alloc, t, scope, x)?;
        first = first_given(i, first, v.gives);
        it.push(v.it)?;
    }
    Ok(Args { it, first })
}
