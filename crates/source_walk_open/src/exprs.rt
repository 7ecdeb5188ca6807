//! The first steps at expressions, arguments and lists of tags.

ghost use Rattle.std.specs.Prelude.{◌≡◌, ℕ, IfOk};
ghost use Rattle.lam_value.specs.declared.values.Value.TheVariants as value;
ghost use Rattle.lam_resolve_tree.specs.Tree.{unary_of, binary_of, field_of, element_of, call_of, builtin_of, new_array, label_of, caps_of, spawn_of, text_value, local_value, args_more, type_tree, option_type_tree, caps_tree, expr_tree, exprs_tree};
ghost use Rattle.source_walk_state.specs.declared.Control.TheVariants as controls;
ghost use Rattle.source_walk_parts.specs.States.{State, state_of};
ghost use Rattle.source_walk_open.specs.Opens.{OpensExpr, OpensArgs};

use crate::caps::capabilities;
use lam_builtins::Builtin;
use lam_operators::{BinaryOp, UnaryOp};
use lam_resolve_tree::{CapItem, Expr, ValueType};
use lam_value::{ByteText, Value, Values};
use source_walk_parts::{Walk, kind_of, local_of, result_sort, sort_of, wait};
use source_walk_state::{BeforeExpr, Control, Frame, Using};
use std::alloc::Global;
use want_of_memory::NoMemory;

fn number<'a>(n: &i64) -> Control<'a>
    ensures { result ≡ controls.Give (value.Int n.now) }
{
    Control::Give(Value::Int(*n))
}

fn text<'a>(alloc: Global, bytes: &[u8]) -> Result<Control<'a>, NoMemory>
    ensures { IfOk result (λ d. (depth : ℕ) (s : State) → OpensExpr depth (text_value bytes.now) s d s) }
{
    let bytes = ByteText::from_slice(alloc, bytes)?;
    Ok(Control::Give(Value::Bytes(bytes)))
}

fn local<'a>(w: &Walk<'a>, slot: usize) -> Result<Control<'a>, NoMemory>
    ensures { IfOk result (λ d. (depth : ℕ) → OpensExpr depth (local_value slot) (state_of w.now) d (state_of w.now)) }
{
    Ok(Control::Give(local_of(&w.locals, slot)?))
}

fn unary<'a>(
    w: &mut Walk<'a>,
    depth: u64,
    op: UnaryOp,
    of: &'a Expr,
) -> Result<Control<'a>, NoMemory>
    ensures { IfOk result (λ d. OpensExpr depth (unary_of op (expr_tree of.now)) (state_of w.old) d (state_of w.new)) }
{
    wait(w, depth, of, Frame::Prefix(op))
}

fn binary<'a>(
    w: &mut Walk<'a>,
    depth: u64,
    op: BinaryOp,
    left: &'a Expr,
    right: &'a Expr,
) -> Result<Control<'a>, NoMemory>
    ensures { IfOk result (λ d. OpensExpr depth (binary_of op (expr_tree left.now) (expr_tree right.now)) (state_of w.old) d (state_of w.new)) }
{
    let before = BeforeExpr::Left(op);
    wait(
        w,
        depth,
        left,
        Frame::Expr {
            depth,
            e: right,
            before,
        },
    )
}

fn field<'a>(
    w: &mut Walk<'a>,
    depth: u64,
    of: &'a Expr,
    at: usize,
    ty: &ValueType,
) -> Result<Control<'a>, NoMemory>
    ensures { IfOk result (λ d. (class : ℕ) → OpensExpr depth (field_of (expr_tree of.now) class at (type_tree ty.now)) (state_of w.old) d (state_of w.new)) }
{
    let sort = sort_of(ty);
    wait(w, depth, of, Frame::Field { at, sort })
}

fn element<'a>(
    w: &mut Walk<'a>,
    depth: u64,
    of: &'a Expr,
    index: &'a Expr,
    ty: &ValueType,
) -> Result<Control<'a>, NoMemory>
    ensures { IfOk result (λ d. OpensExpr depth (element_of (expr_tree of.now) (expr_tree index.now) (type_tree ty.now)) (state_of w.old) d (state_of w.new)) }
{
    let before = BeforeExpr::OfElement(sort_of(ty));
    wait(
        w,
        depth,
        of,
        Frame::Expr {
            depth,
            e: index,
            before,
        },
    )
}

fn call<'a>(alloc: Global, depth: u64, function: usize, rest: &'a [Expr]) -> Control<'a>
    ensures { (s : State) → OpensExpr depth (call_of function (exprs_tree rest.now)) s result s }
{
    let done = Values::new(alloc);
    let using = Using::Call { function };
    Control::Gather {
        depth,
        rest,
        done,
        using,
    }
}

fn builtin_call<'a>(
    alloc: Global,
    depth: u64,
    call: Builtin,
    rest: &'a [Expr],
    ty: &Option<ValueType>,
) -> Control<'a>
    ensures { (s : State) → OpensExpr depth (builtin_of call (exprs_tree rest.now) (option_type_tree ty.now)) s result s }
{
    let sort = result_sort(ty);
    let done = Values::new(alloc);
    let using = Using::Builtin { call, sort };
    Control::Gather {
        depth,
        rest,
        done,
        using,
    }
}

fn new_array<'a>(
    w: &mut Walk<'a>,
    depth: u64,
    element: &ValueType,
    length: &'a Expr,
) -> Result<Control<'a>, NoMemory>
    ensures { IfOk result (λ d. OpensExpr depth (new_array (type_tree element.now) (expr_tree length.now)) (state_of w.old) d (state_of w.new)) }
{
    wait(w, depth, length, Frame::Length(kind_of(element)))
}

fn label<'a>(alloc: Global, depth: u64, rest: &'a [Expr], vouchers: &'a [Expr]) -> Control<'a>
    ensures { (s : State) → OpensExpr depth (label_of (exprs_tree rest.now) (exprs_tree vouchers.now)) s result s }
{
    let done = Values::new(alloc);
    let using = Using::Secrets { vouchers };
    Control::Gather {
        depth,
        rest,
        done,
        using,
    }
}

fn caps<'a>(alloc: Global, w: &Walk<'a>, items: &[CapItem]) -> Result<Control<'a>, NoMemory>
    ensures { IfOk result (λ d. (depth : ℕ) → OpensExpr depth (caps_of (caps_tree items.now)) (state_of w.now) d (state_of w.now)) }
{
    capabilities(alloc, &w.locals, items)
}

fn spawn<'a>(
    w: &mut Walk<'a>,
    depth: u64,
    caps: &'a Expr,
    function: usize,
    args: &'a [Expr],
) -> Result<Control<'a>, NoMemory>
    ensures { IfOk result (λ d. OpensExpr depth (spawn_of (expr_tree caps.now) function (exprs_tree args.now)) (state_of w.old) d (state_of w.new)) }
{
    wait(
        w,
        depth,
        caps,
        Frame::Spawn {
            depth,
            function,
            args,
        },
    )
}

/// The first step of an expression.
///
/// # Errors
///
/// `NoMemory` where memory is refused.
pub fn eval<'a>(
    alloc: Global,
    w: &mut Walk<'a>,
    depth: u64,
    e: &'a Expr,
) -> Result<Control<'a>, NoMemory>
    ensures { IfOk result (λ d. OpensExpr depth (expr_tree e.now) (state_of w.old) d (state_of w.new)) }
{
    match e {
        Expr::Number(n) => Ok(number(n)),
        Expr::Text(bytes) => text(alloc, bytes),
        Expr::Bool(b) => Ok(Control::Give(Value::Bool(*b))),
        Expr::Null => Ok(Control::Give(Value::Nothing)),
        Expr::Local(slot) => local(w, *slot),
        Expr::Unary { op, of } => unary(w, depth, *op, of),
        Expr::Binary { op, left, right } => binary(w, depth, *op, left, right),
        Expr::Field {
            of,
            field: at,
            ty,
            ..
        } => field(w, depth, of, *at, ty),
        Expr::Element { of, index, ty } => element(w, depth, of, index, ty),
        Expr::Call { function, args } => Ok(call(alloc, depth, *function, args)),
        Expr::BuiltinCall { call, args, ty } => Ok(builtin_call(alloc, depth, *call, args, ty)),
        Expr::NewClass { class } => Ok(Control::New { class: *class }),
        Expr::NewArray { element, length } => new_array(w, depth, element, length),
        Expr::LabelOf { s, i } => Ok(label(alloc, depth, s, i)),
        Expr::CapsOf(items) => caps(alloc, w, items),
        Expr::Spawn {
            caps,
            function,
            args,
        } => spawn(w, depth, caps, *function, args),
    }
}

/// The first step of some arguments, of which there is one.
///
/// # Errors
///
/// `NoMemory` where memory is refused.
pub fn next_arg<'a>(
    w: &mut Walk<'a>,
    depth: u64,
    first: &'a Expr,
    rest: &'a [Expr],
    done: Values,
    using: Using<'a>,
) -> Result<Control<'a>, NoMemory>
    ensures { IfOk result (λ d. OpensArgs depth (args_more (expr_tree first.now) (exprs_tree rest.now)) done «using».entry (state_of w.old) d (state_of w.new)) }
{
    wait(
        w,
        depth,
        first,
        Frame::Args {
            depth,
            rest,
            done,
            using,
        },
    )
}
