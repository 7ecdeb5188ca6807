//! The code of expressions.
//!
//! Each function puts an expression's code into a buffer, construct by construct as the scheme has it: operands from
//! left to right, a read barrier before each access, and jumps for `&&` and `||`. The contract of each names the
//! pieces of the scheme that it adds.

ghost use Rattle.std.specs.Prelude.{◌≡◌, vec_len, true, false};
ghost use Rattle.lam_value.specs.declared.values.Value.TheVariants.{Bool as a_bool};
ghost use Rattle.lam_bytecode.specs.declared.op.Op.TheVariants.{Load, Call, System, GetField, GetElement, ReadBarrier, NoCaps};
ghost use Rattle.lam_resolve_tree.specs.Tree.{type_tree, expr_tree, exprs_tree, caps_tree, text_value};
ghost use Rattle.lam_meaning.specs.Pieces.{joined, one, op, either, puts};
ghost use Rattle.lam_meaning.specs.Scheme.{between, prefix_op, sign_op, signs, expression, expressions};
ghost use Rattle.lam_meaning.specs.Means.{kind_of};
ghost use Rattle.barrier_compiler_ops.specs.Emits.{Emits};
ghost use Rattle.barrier_compiler_ops.specs.Labels.{MakesLabel};

use crate::{Buffer, Constant};
use lam_builtins::Builtin;
use lam_bytecode::Op;
use lam_operators::{BinaryOp, UnaryOp};
use lam_resolve_tree::{CapItem, Expr, ValueType};
use lam_value::Kind;

/// The operation of a prefix operator.
fn prefix_op(operator: UnaryOp) -> Op
    ensures { result ≡ prefix_op operator }
{
    match operator {
        UnaryOp::Not => Op::Not,
        UnaryOp::Neg => Op::Neg,
    }
}

/// What fields and elements of a type are at first.
pub fn kind_of(ty: &ValueType) -> Kind
    ensures { result ≡ kind_of (type_tree ty.now) }
{
    match ty {
        ValueType::Int => Kind::Int,
        ValueType::Bool => Kind::Bool,
        _ => Kind::Null,
    }
}

fn emit_sign(out: &mut Buffer, item: CapItem)
    ensures { Emits out.old out.new (joined (op (Load item.slot)) (op (sign_op item.plus))) }
{
    out.load(item.slot);
    emit_plus(out, item.plus)
}

fn emit_plus(out: &mut Buffer, plus: bool)
    ensures { Emits out.old out.new (op (sign_op plus)) }
{
    if plus {
        out.push(Op::WithPlus)
    } else {
        out.push(Op::WithMinus)
    }
}

fn emit_signs(out: &mut Buffer, items: &[CapItem])
    ensures { Emits out.old out.new (signs (caps_tree items.now)) }
{
    for item in items {
        emit_sign(out, *item);
    }
}

fn emit_caps(out: &mut Buffer, items: &[CapItem])
    ensures { Emits out.old out.new (joined (op NoCaps) (signs (caps_tree items.now))) }
{
    out.push(Op::NoCaps);
    emit_signs(out, items)
}

fn emit_bytes(out: &mut Buffer, bytes: &Vec<u8>)
    ensures { Emits out.old out.new (expression (text_value bytes.now.items)) }
{
    match Vec::from_slice(*bytes.allocator(), bytes) {
        Ok(copy) => out.constant(Constant::Bytes(copy)),
        Err(_) => out.give_up(),
    }
}

/// The label of tags that are on the operand stack.
fn emit_label(out: &mut Buffer, s: &Vec<Expr>, i: &Vec<Expr>)
    ensures { MakesLabel out.old out.new (vec_len s.now) (vec_len i.now) }
{
    let secrecy = out.count(s.len());
    let integrity = out.count(i.len());
    out.push(Op::MakeLabel { secrecy, integrity })
}

/// Puts the code of an expression, which leaves its value on the operand stack.
#[cycle(expr)]
pub fn emit_expr(out: &mut Buffer, e: &Expr)
    ensures { Emits out.old out.new (expression (expr_tree e.now)) }
{
    match e {
        Expr::Number(n) => out.constant(Constant::Int(*n)),
        Expr::Text(bytes) => emit_bytes(out, bytes),
        Expr::Bool(b) => out.constant(Constant::Bool(*b)),
        Expr::Null => out.constant(Constant::Nothing),
        Expr::Local(slot) => out.load(*slot),
        Expr::Unary { op, of } => emit_then(out, of, prefix_op(*op)),
        Expr::Binary { op, left, right } => {
            emit_expr(out, left);
            emit_right(out, right, *op)
        }
        Expr::Field { of, field, .. } => emit_field(out, of, *field),
        Expr::Element { of, index, .. } => {
            emit_expr(out, of);
            emit_index(out, index)
        }
        Expr::Call { function, args } => emit_call(out, args, *function),
        Expr::BuiltinCall { call, args, .. } => emit_builtin(out, args, *call),
        Expr::NewClass { class } => out.new_object(*class),
        Expr::NewArray { element, length } => {
            emit_then(out, length, Op::NewArray(kind_of(element)))
        }
        Expr::LabelOf { s, i } => {
            emit_exprs(out, s);
            emit_exprs(out, i);
            emit_label(out, s, i)
        }
        Expr::CapsOf(items) => emit_caps(out, items),
        Expr::Spawn {
            caps,
            function,
            args,
        } => {
            emit_expr(out, caps);
            emit_exprs(out, args);
            out.spawn(*function)
        }
    }
}

/// An expression, and an operation behind it.
#[cycle(expr)]
fn emit_then(out: &mut Buffer, e: &Expr, last: Op)
    ensures { Emits out.old out.new (joined (expression (expr_tree e.now)) (op last)) }
{
    emit_expr(out, e);
    out.push(last)
}

/// A field of an object.
#[cycle(expr)]
fn emit_field(out: &mut Buffer, of: &Expr, field: usize)
    ensures { Emits out.old out.new (joined (expression (expr_tree of.now)) (joined (op (ReadBarrier 0)) (op (GetField field)))) }
{
    emit_expr(out, of);
    out.push(Op::ReadBarrier(0));
    out.get_field(field)
}

/// An index and the read of that element, where the array is there.
#[cycle(expr)]
fn emit_index(out: &mut Buffer, index: &Expr)
    ensures { Emits out.old out.new (joined (expression (expr_tree index.now)) (joined (op (ReadBarrier 1)) (op GetElement))) }
{
    emit_expr(out, index);
    out.push(Op::ReadBarrier(1));
    out.push(Op::GetElement)
}

/// Arguments, and a call of a declared function.
#[cycle(expr)]
fn emit_call(out: &mut Buffer, args: &Vec<Expr>, function: usize)
    ensures { Emits out.old out.new (joined (expressions (exprs_tree args.now.items)) (op (Call function))) }
{
    emit_exprs(out, args);
    out.call(function)
}

/// Arguments, and a built-in call.
#[cycle(expr)]
fn emit_builtin(out: &mut Buffer, args: &Vec<Expr>, call: Builtin)
    ensures { Emits out.old out.new (joined (expressions (exprs_tree args.now.items)) (op (System call))) }
{
    emit_exprs(out, args);
    out.push(Op::System(call))
}

/// The right operand of an operator and the operator, where the left operand's value is there.
#[cycle(expr)]
fn emit_right(out: &mut Buffer, right: &Expr, operator: BinaryOp)
    ensures { Emits out.old out.new (between operator (expr_tree right.now)) }
{
    match operator {
        BinaryOp::And => emit_and(out, right),
        BinaryOp::Or => emit_or(out, right),
        BinaryOp::Eq => emit_then(out, right, Op::Eq),
        BinaryOp::Ne => emit_then(out, right, Op::Ne),
        BinaryOp::Lt => emit_then(out, right, Op::Lt),
        BinaryOp::Le => emit_then(out, right, Op::Le),
        BinaryOp::Gt => emit_then(out, right, Op::Gt),
        BinaryOp::Ge => emit_then(out, right, Op::Ge),
        BinaryOp::Add => emit_then(out, right, Op::Add),
        BinaryOp::Sub => emit_then(out, right, Op::Sub),
        BinaryOp::Mul => emit_then(out, right, Op::Mul),
        BinaryOp::Div => emit_then(out, right, Op::Div),
        BinaryOp::Rem => emit_then(out, right, Op::Rem),
    }
}

/// The right operand where the left one is true, else false.
#[cycle(expr)]
fn emit_and(out: &mut Buffer, right: &Expr)
    ensures { Emits out.old out.new (one (either (expression (expr_tree right.now)) (one (puts (a_bool false))))) }
{
    let test = out.jump(Op::JumpIfFalse(0));
    emit_expr(out, right);
    let skip = out.jump(Op::Jump(0));
    let other = out.len();
    out.constant(Constant::Bool(false));
    let end = out.len();
    out.point(test, Op::JumpIfFalse(other));
    out.point(skip, Op::Jump(end))
}

/// True where the left operand is true, else the right one.
#[cycle(expr)]
fn emit_or(out: &mut Buffer, right: &Expr)
    ensures { Emits out.old out.new (one (either (one (puts (a_bool true))) (expression (expr_tree right.now)))) }
{
    let test = out.jump(Op::JumpIfFalse(0));
    out.constant(Constant::Bool(true));
    let skip = out.jump(Op::Jump(0));
    let other = out.len();
    emit_expr(out, right);
    let end = out.len();
    out.point(test, Op::JumpIfFalse(other));
    out.point(skip, Op::Jump(end))
}

/// Puts the code of expressions, one after another.
#[cycle(expr)]
pub fn emit_exprs(out: &mut Buffer, es: &Vec<Expr>)
    ensures { Emits out.old out.new (expressions (exprs_tree es.now.items)) }
{
    for e in es {
        emit_expr(out, e);
    }
}
