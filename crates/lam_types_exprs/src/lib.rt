//! The typing of expressions.
//!
//! `specs/Exprs.antt` defines what an expression gives, and the first break in it. The order is from left to right,
//! with an operator's own rule after its operands. `specs/Judgement.antt` says which expressions are typed, with one
//! rule for each form of the grammar, and without positions or order. `check_one` joins the two.
//!
//! Every function here takes the tables of the program's classes and functions, and the names in scope. It answers what
//! the expression gives. Only a refusal that names types allocates.
//!
//! The promise of `check` (`lam_types`) rests on `check_one` (clauses `exact`, `typed`, `only`): what an expression
//! gives, or its first break. Free to change for speed: how names are looked up.
#![tactic(auto)]

ghost use Rattle.std.specs.Prelude.{◌≡◌, IfOk, OnOk, length, is_some, Some};
ghost use Rattle.lam_syntax.specs.Tree.{expr_tree, exprs_tree, id_tree, cap_tree, caps_tree, type_tree, call_expr};
ghost use Rattle.lam_builtins.specs.Types.{Given, a_value, int, caps, object, array, exactly, any_class};
ghost use Rattle.lam_types_kinds.specs.Written.{written};
ghost use Rattle.lam_types_kinds.specs.Tables.{find, named_if, type_known};
ghost use Rattle.lam_types_kinds.specs.Verdicts.{Fine, then_on};
ghost use Rattle.lam_types_kinds.specs.Values.{decls, names, value_type, option_type, given, place, places, answer, option_signature, Gives, Passes};
ghost use Rattle.lam_types_exprs.specs.Exprs.{at_of, placed, operate, field_type, found_field, element_of, known as known_name, count, counted, called, spawnable, started, cap_tag, cap_tags, given_of, form_given, args_given, tags_given};
ghost use Rattle.lam_builtins.specs.Operators.{operand, operator_type as type_of_operator, unary_type};
ghost use Rattle.lam_types_exprs.specs.Judgement.{IsGiven};
ghost use Rattle.lam_types_exprs.specs.Meets.{first_of, signature_as, GivesSignature, TakesAsMany};
ghost use Rattle.lam_types_kinds.specs.Meets.{HasNoBreak};

use lam_builtins::{operand_type, operator_type, prefix_type};
use lam_operators::{BinaryOp, UnaryOp};
use lam_syntax::{CapItem, Expr, ExprKind, Id, TypeExpr};
use lam_types_kinds::builtins::{answered, builtin_returns, builtin_wants, plain_ref};
use lam_types_kinds::fault::{fit, unequal};
use lam_types_kinds::tables::{find_name, known_type};
use lam_types_kinds::types::{comparable, type_ref};
use lam_types_kinds::{Builtin, Callable, Got, Known, Names, Returns, TypeFault, TypeRef, Want};
use std::alloc::Global;

fn operand_ref(op: BinaryOp) -> Option<TypeRef<'static>>
    ensures { option_type result ≡ operand op }
{
    match operand_type(op) {
        Some(t) => Some(plain_ref(t)),
        None => None,
    }
}

fn result_ref(op: BinaryOp) -> TypeRef<'static>
    ensures { value_type result ≡ type_of_operator op }
{
    plain_ref(operator_type(op))
}

fn prefix_ref(op: UnaryOp) -> TypeRef<'static>
    ensures { value_type result ≡ unary_type op }
{
    plain_ref(prefix_type(op))
}

// An operator's own rule, once its operands are typed.
fn check_operator<'a>(
    alloc: Global,
    op: BinaryOp,
    left_at: u64,
    right_at: u64,
    left: Got<'a>,
    right: Got<'a>,
) -> Result<Got<'a>, TypeFault>
    ensures { Gives result (operate (operand op) (type_of_operator op) left_at right_at (given left.entry) (given right.entry)) }
{
    match operand_ref(op) {
        Some(t) => {
            fit(alloc, left_at, Want::Exactly(t), left)?;
            fit(alloc, right_at, Want::Exactly(t), right)?;
            Ok(Got::Value(result_ref(op)))
        }
        None => {
            if comparable(left, right) {
                Ok(Got::Value(result_ref(op)))
            } else {
                Err(unequal(alloc, left_at, right_at, left, right))
            }
        }
    }
}

fn check_field<'a>(known: &Known<'a>, of: Got<'a>, field: &Id) -> Result<Got<'a>, TypeFault>
    ensures { Gives result (found_field field.now.at (field_type (decls known.now) (given of.entry) (id_tree field.now).word)) }
{
    match of {
        Got::Value(TypeRef::Class(class)) => match known.class(class) {
            Some(fields) => match find_name(fields, field.name.as_str()) {
                Some(t) => Ok(Got::Value(t)),
                None => Err(TypeFault::NoField { at: field.at }),
            },
            None => Err(TypeFault::NoField { at: field.at }),
        },
        _ => Err(TypeFault::NoField { at: field.at }),
    }
}

fn element_got<'a>(of: Got<'a>) -> Got<'a>
    ensures { given result ≡ element_of (given of.entry) }
{
    match of {
        Got::Value(TypeRef::Array(t)) => Got::Value(type_ref(t)),
        _ => Got::Nothing,
    }
}

fn check_name<'a>(env: &Names<'a>, at: u64, name: &str) -> Result<Got<'a>, TypeFault>
    ensures { Gives result (known_name at (find name.now (names env.now.entries))) }
{
    match find_name(env, name) {
        Some(t) => Ok(Got::Value(t)),
        None => Err(TypeFault::NoName { at }),
    }
}

// A new object of a class, which is declared.
fn check_object<'a>(known: &Known<'a>, class: &'a Id) -> Result<Got<'a>, TypeFault>
    ensures { Gives result (then_on (named_if (is_some (find (id_tree class.now).word (decls known.now).classes)) (id_tree class.now).at) (λ _. Fine (a_value (object (id_tree class.now).word)))) }
{
    if known.class(class.name.as_str()).is_some() {
        Ok(Got::Value(TypeRef::Class(class.name.as_str())))
    } else {
        Err(TypeFault::NoName { at: class.at })
    }
}

#[tactic(auto, unfolding(crate::specs::Exprs::placed))]
fn check_cap<'a>(alloc: Global, env: &Names<'a>, item: &CapItem) -> Result<Got<'a>, TypeFault>
    ensures { Gives result (cap_tag (names env.now.entries) (cap_tree item.now)) }
{
    let got = check_name(env, item.name.at, item.name.name.as_str())?;
    fit(alloc, item.name.at, Want::Exactly(TypeRef::Tag), got)
}

fn check_caps(alloc: Global, env: &Names, items: &[CapItem]) -> Result<(), TypeFault>
    ensures { Passes result (cap_tags (names env.now.entries) (caps_tree items.now)) }
{
    for item in items {
        check_cap(alloc, env, item)?;
    }
    Ok(())
}

fn check_caps_of<'a>(
    alloc: Global,
    env: &Names<'a>,
    items: &[CapItem],
) -> Result<Got<'a>, TypeFault>
    ensures { Gives result (then_on (cap_tags (names env.now.entries) (caps_tree items.now)) (λ _. Fine (a_value caps))) }
{
    check_caps(alloc, env, items)?;
    Ok(Got::Value(TypeRef::Caps))
}

// The function that is spawned, where it is declared: its result is int, and it takes so many arguments.
fn check_spawned<'k, 'a>(
    alloc: Global,
    known: &'k Known<'a>,
    at: u64,
    function: &Id,
    args: &Vec<Expr>,
) -> Result<Option<&'k Callable<'a>>, TypeFault>
    ensures meets { GivesSignature result (spawnable at (find (id_tree function.now).word (decls known.now).functions) (length args.now.items)) }
    ensures many { IfOk result (λ o. TakesAsMany (length args.now.items) o) }
{
    match known.function(function.name.as_str()) {
        Some(f) => {
            fit(
                alloc,
                at,
                Want::Exactly(TypeRef::Int),
                answered(f.returns, Got::Nothing),
            )?;
            if f.takes.len() != args.len() {
                return Err(TypeFault::Arity { at });
            }
            Ok(Some(f))
        }
        None => Ok(None),
    }
}

// As many arguments as are taken.
#[tactic(auto, using(crate::proofs::Loops::counts))]
fn check_count(at: u64, takes: &[Want], args: &[Expr]) -> Result<(), TypeFault>
    ensures meets { Passes result (counted at (length (places takes.now)) (count (exprs_tree args.now))) }
    ensures many { OnOk result (length takes.now ≡ length args.now) }
{
    if takes.len() == args.len() {
        Ok(())
    } else {
        Err(TypeFault::Arity { at })
    }
}

// What the first argument gave: argument i gives `got`, and `first` was noted before it.
fn first_got<'a>(i: usize, first: Got<'a>, got: Got<'a>) -> Got<'a>
    ensures { given result ≡ first_of i (given first.entry) (given got.entry) }
{
    if i == 0 { got } else { first }
}

/// What an expression gives, or the first break in it.
#[cycle(expr)]
pub fn check_expr<'a>(
    alloc: Global,
    known: &Known<'a>,
    env: &Names<'a>,
    e: &'a Expr,
) -> Result<Got<'a>, TypeFault>
    ensures { Gives result (given_of (decls known.now) (names env.now.entries) (expr_tree e.now)) }
{
    match &e.kind {
        ExprKind::Binary { op, left, right } => {
            let first = check_expr(alloc, known, env, left)?;
            let second = check_expr(alloc, known, env, right)?;
            check_operator(alloc, *op, left.at, right.at, first, second)
        }
        ExprKind::Unary { op, of } => check_prefix(alloc, known, env, of, *op),
        ExprKind::Field { of, field } => check_access(alloc, known, env, of, field),
        ExprKind::Element { of, index } => {
            let got = check_at(alloc, known, env, Want::AnyArray, of)?;
            check_at(alloc, known, env, Want::Exactly(TypeRef::Int), index)?;
            Ok(element_got(got))
        }
        ExprKind::Number(_) => Ok(Got::Value(TypeRef::Int)),
        ExprKind::Text(_) => Ok(Got::Value(TypeRef::Bytes)),
        ExprKind::Bool(_) => Ok(Got::Value(TypeRef::Bool)),
        ExprKind::Null => Ok(Got::Null),
        ExprKind::Name(x) => check_name(env, e.at, x.as_str()),
        ExprKind::Call { name, args } => check_call(alloc, known, env, e.at, name, args),
        ExprKind::NewClass { class } => check_object(known, class),
        ExprKind::NewArray { element, length } => check_array(alloc, known, env, length, element),
        ExprKind::LabelOf { s, i } => {
            check_tags(alloc, known, env, s)?;
            check_tags(alloc, known, env, i)?;
            Ok(Got::Value(TypeRef::Label))
        }
        ExprKind::CapsOf(items) => check_caps_of(alloc, env, items.as_slice()),
        ExprKind::Spawn {
            caps,
            function,
            args,
        } => {
            let call = check_spawned(alloc, known, e.at, function, args)?;
            check_at(alloc, known, env, Want::Exactly(TypeRef::Caps), caps)?;
            check_started(alloc, known, env, function.at, call, args)
        }
    }
}

/// An expression at a place: what it gives fits there.
#[cycle(expr)]
#[tactic(auto, unfolding(crate::specs::Exprs::placed))]
pub fn check_at<'a>(
    alloc: Global,
    known: &Known<'a>,
    env: &Names<'a>,
    want: Want<'a>,
    e: &'a Expr,
) -> Result<Got<'a>, TypeFault>
    ensures { Gives result (placed (at_of (expr_tree e.now)) (place want.entry) (given_of (decls known.now) (names env.now.entries) (expr_tree e.now))) }
{
    let got = check_expr(alloc, known, env, e)?;
    fit(alloc, e.at, want, got)
}

#[cycle(expr)]
fn check_prefix<'a>(
    alloc: Global,
    known: &Known<'a>,
    env: &Names<'a>,
    of: &'a Expr,
    op: UnaryOp,
) -> Result<Got<'a>, TypeFault>
    ensures { Gives result (then_on (placed (at_of (expr_tree of.now)) (exactly (unary_type op)) (given_of (decls known.now) (names env.now.entries) (expr_tree of.now))) (λ _. Fine (a_value (unary_type op)))) }
{
    check_at(alloc, known, env, Want::Exactly(prefix_ref(op)), of)?;
    Ok(Got::Value(prefix_ref(op)))
}

#[cycle(expr)]
fn check_access<'a>(
    alloc: Global,
    known: &Known<'a>,
    env: &Names<'a>,
    of: &'a Expr,
    field: &Id,
) -> Result<Got<'a>, TypeFault>
    ensures { Gives result (then_on (placed (at_of (expr_tree of.now)) any_class (given_of (decls known.now) (names env.now.entries) (expr_tree of.now))) (λ g. found_field field.now.at (field_type (decls known.now) g (id_tree field.now).word))) }
{
    let got = check_at(alloc, known, env, Want::AnyClass, of)?;
    check_field(known, got, field)
}

// A new array: the classes in the type of its elements are declared, and its length is an int.
#[cycle(expr)]
fn check_array<'a>(
    alloc: Global,
    known: &Known<'a>,
    env: &Names<'a>,
    length: &'a Expr,
    element: &'a TypeExpr,
) -> Result<Got<'a>, TypeFault>
    ensures { Gives result (then_on (type_known (decls known.now) (type_tree element.now)) (λ _. then_on (placed (at_of (expr_tree length.now)) (exactly int) (given_of (decls known.now) (names env.now.entries) (expr_tree length.now))) (λ _. Fine (a_value (array (written (type_tree element.now))))))) }
{
    known_type(known, element)?;
    check_at(alloc, known, env, Want::Exactly(TypeRef::Int), length)?;
    Ok(Got::Value(TypeRef::Array(element)))
}

#[cycle(expr)]
fn check_call<'a>(
    alloc: Global,
    known: &Known<'a>,
    env: &Names<'a>,
    at: u64,
    name: &'a Id,
    args: &'a Vec<Expr>,
) -> Result<Got<'a>, TypeFault>
    ensures { Gives result (form_given (decls known.now) (names env.now.entries) at (call_expr (id_tree name.now) (exprs_tree args.now.items))) }
{
    match Builtin::named(name.name.as_str()) {
        Some(call) => {
            let takes = builtin_wants(call);
            check_called(
                alloc,
                known,
                env,
                at,
                &takes[..call.arity()],
                builtin_returns(call),
                args,
            )
        }
        None => match known.function(name.name.as_str()) {
            Some(f) => check_called(alloc, known, env, at, f.takes.as_slice(), f.returns, args),
            None => Err(TypeFault::NoName { at }),
        },
    }
}

// A call, by what it takes and returns.
#[cycle(expr)]
fn check_called<'a>(
    alloc: Global,
    known: &Known<'a>,
    env: &Names<'a>,
    at: u64,
    takes: &[Want<'a>],
    returns: Returns<'a>,
    args: &'a Vec<Expr>,
) -> Result<Got<'a>, TypeFault>
    ensures { Gives result (called at (Some (signature_as (places takes.now) (answer returns.entry))) (count (exprs_tree args.now.items)) (λ ps. args_given (decls known.now) (names env.now.entries) ps (exprs_tree args.now.items))) }
{
    check_count(at, takes, args.as_slice())?;
    let first = check_args(alloc, known, env, takes, args.as_slice())?;
    Ok(answered(returns, first))
}

#[cycle(expr)]
fn check_started<'a>(
    alloc: Global,
    known: &Known<'a>,
    env: &Names<'a>,
    at: u64,
    call: Option<&Callable<'a>>,
    args: &'a Vec<Expr>,
) -> Result<Got<'a>, TypeFault>
    requires { TakesAsMany (length args.now.items) call }
    ensures { Gives result (started at (option_signature call.entry) (λ ps. args_given (decls known.now) (names env.now.entries) ps (exprs_tree args.now.items))) }
{
    match call {
        Some(f) => {
            check_args(alloc, known, env, f.takes.as_slice(), args.as_slice())?;
            Ok(Got::Value(TypeRef::Thread))
        }
        None => Err(TypeFault::NoName { at }),
    }
}

// The arguments at their places, and what the first gives.
#[cycle(expr)]
fn check_args<'a>(
    alloc: Global,
    known: &Known<'a>,
    env: &Names<'a>,
    wants: &[Want<'a>],
    args: &'a [Expr],
) -> Result<Got<'a>, TypeFault>
    requires { length wants.now ≡ length args.now }
    ensures { Gives result (args_given (decls known.now) (names env.now.entries) (places wants.now) (exprs_tree args.now)) }
{
    let mut first = Got::Nothing;
    for (i, x) in args.iter().enumerate() {
        let got = check_at(alloc, known, env, wants[i], x)?;
        first = first_got(i, first, got);
    }
    Ok(first)
}

// The tags of a label.
#[cycle(expr)]
fn check_tags<'a>(
    alloc: Global,
    known: &Known<'a>,
    env: &Names<'a>,
    tags: &'a Vec<Expr>,
) -> Result<(), TypeFault>
    ensures { Passes result (tags_given (decls known.now) (names env.now.entries) (exprs_tree tags.now.items)) }
{
    for x in tags {
        check_at(alloc, known, env, Want::Exactly(TypeRef::Tag), x)?;
    }
    Ok(())
}

/// What an expression gives, or the first break in it. It is typed exactly where there is none: that is the law that
/// joins the two definitions.
pub fn check_one<'a>(
    alloc: Global,
    known: &Known<'a>,
    env: &Names<'a>,
    e: &'a Expr,
) -> Result<Got<'a>, TypeFault>
    ensures exact { Gives result (given_of (decls known.now) (names env.now.entries) (expr_tree e.now)) }
    ensures typed { IfOk result (λ g. IsGiven (decls known.now) (names env.now.entries) (expr_tree e.now) (given g)) }
    ensures only { (g : Given) → IsGiven (decls known.now) (names env.now.entries) (expr_tree e.now) g → HasNoBreak result }
{
    check_expr(alloc, known, env, e)
}
