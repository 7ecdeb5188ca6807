//! The code of statements and blocks.
//!
//! A block's code knows the slots of the open `sync`s, whose monitors a `return` gives back from the inmost out. They
//! stand in a vector, the inmost last; the scheme names them the inmost first. A region's blocks are a unit of their
//! own: here stands only what enters it.

ghost use Rattle.std.specs.Prelude.{◌≡◌, ◌∷◌, reverse};
ghost use Rattle.lam_bytecode.specs.declared.op.Op.TheVariants.{Load, Store, Return, WriteBarrier, PutField, PutElement, EnterMonitor, LeaveMonitor, EnterRegion};
ghost use Rattle.lam_resolve_tree.specs.Tree.{expr_tree, option_expr_tree, stmt_tree, stmts_tree, sync_block};
ghost use Rattle.lam_meaning.specs.Pieces.{joined, one, op, when, either, loops};
ghost use Rattle.lam_meaning.specs.Scheme.{expression, loads, gives_back, value_or_null, statement, block};
ghost use Rattle.barrier_compiler_ops.specs.Emits.{Emits};
ghost use Rattle.barrier_compiler_ops.specs.Forks.{Completes};

use crate::{Buffer, Constant, emit_expr};
use lam_bytecode::Op;
use lam_resolve_tree::{Expr, Stmt};

fn emit_loads(out: &mut Buffer, slots: &Vec<usize>)
    ensures { Emits out.old out.new (loads slots.now.items) }
{
    for slot in slots {
        out.load(*slot);
    }
}

/// Gives the monitors of the open `sync`s back, the inmost first.
fn emit_returns(out: &mut Buffer, held: &Vec<usize>)
    ensures { Emits out.old out.new (gives_back (reverse held.now.items)) }
{
    let mut left = held.len();
    while left > 0 {
        left -= 1;
        out.load(held[left]);
        out.push(Op::LeaveMonitor);
    }
}

fn emit_value(out: &mut Buffer, value: &Option<Expr>)
    ensures { Emits out.old out.new (value_or_null (option_expr_tree value.now)) }
{
    match value {
        None => out.constant(Constant::Nothing),
        Some(e) => emit_expr(out, e),
    }
}

fn emit_return(out: &mut Buffer, held: &Vec<usize>, value: &Option<Expr>)
    ensures { Emits out.old out.new (joined (value_or_null (option_expr_tree value.now)) (joined (gives_back (reverse held.now.items)) (op Return))) }
{
    emit_value(out, value);
    emit_returns(out, held);
    out.push(Op::Return)
}

/// A value, and where it is stored.
fn emit_store(out: &mut Buffer, slot: usize, value: &Expr)
    ensures { Emits out.old out.new (joined (expression (expr_tree value.now)) (op (Store slot))) }
{
    emit_expr(out, value);
    out.store(slot)
}

/// A value, and an operation behind it.
fn emit_then(out: &mut Buffer, value: &Expr, last: Op)
    ensures { Emits out.old out.new (joined (expression (expr_tree value.now)) (op last)) }
{
    emit_expr(out, value);
    out.push(last)
}

fn emit_put_field(out: &mut Buffer, of: &Expr, field: usize, value: &Expr)
    ensures { Emits out.old out.new (joined (expression (expr_tree of.now)) (joined (expression (expr_tree value.now)) (joined (op (WriteBarrier 1)) (op (PutField field))))) }
{
    emit_expr(out, of);
    emit_expr(out, value);
    out.push(Op::WriteBarrier(1));
    out.put_field(field)
}

fn emit_put_element(out: &mut Buffer, of: &Expr, index: &Expr, value: &Expr)
    ensures { Emits out.old out.new (joined (expression (expr_tree of.now)) (joined (expression (expr_tree index.now)) (joined (expression (expr_tree value.now)) (joined (op (WriteBarrier 2)) (op PutElement))))) }
{
    emit_expr(out, of);
    emit_expr(out, index);
    emit_expr(out, value);
    out.push(Op::WriteBarrier(2));
    out.push(Op::PutElement)
}

/// What enters a region: its label, its capabilities, its captures.
fn emit_entry(out: &mut Buffer, number: usize, label: &Expr, caps: &Expr, captures: &Vec<usize>)
    ensures { Emits out.old out.new (joined (expression (expr_tree label.now)) (joined (expression (expr_tree caps.now)) (joined (loads captures.now.items) (op (EnterRegion number))))) }
{
    emit_expr(out, label);
    emit_expr(out, caps);
    emit_loads(out, captures);
    out.enter_region(number)
}

/// The thing whose monitor a `sync` takes.
fn emit_enter(out: &mut Buffer, slot: usize, thing: &Expr)
    ensures { Emits out.old out.new (joined (expression (expr_tree thing.now)) (joined (op (Store slot)) (joined (op (Load slot)) (op EnterMonitor)))) }
{
    emit_expr(out, thing);
    out.store(slot);
    out.load(slot);
    out.push(Op::EnterMonitor)
}

/// The end of a `sync`.
fn emit_leave(out: &mut Buffer, slot: usize)
    ensures { Emits out.old out.new (joined (op (Load slot)) (op LeaveMonitor)) }
{
    out.load(slot);
    out.push(Op::LeaveMonitor)
}

/// The end of an `if` without a part for false. `fork` is where the jump to the end stands.
fn end_fork(out: &mut Buffer, fork: u32)
    ensures { Completes out.old out.new fork (λ ps. one (when ps)) }
{
    let end = out.len();
    out.point(fork, Op::JumpIfFalse(end))
}

/// Puts the code of a statement. The open `sync`s stay.
#[cycle(stmt)]
fn emit_stmt(out: &mut Buffer, s: &Stmt, held: &mut Vec<usize>)
    ensures emits { Emits out.old out.new (statement (reverse held.old.items) (stmt_tree s.now)) }
    ensures held { held.new.items ≡ held.old.items }
{
    match s {
        Stmt::Let { slot, value } | Stmt::SetLocal { slot, value } => {
            emit_store(out, *slot, value)
        }
        Stmt::If { test, yes, no } => {
            emit_expr(out, test);
            let fork = out.jump(Op::JumpIfFalse(0));
            emit_block(out, yes, held);
            match no {
                None => end_fork(out, fork),
                Some(other) => emit_other(out, other, fork, held),
            }
        }
        Stmt::While { test, body } => emit_loop(out, body, test, held),
        Stmt::Return(value) => emit_return(out, held, value),
        Stmt::Throw(e) => emit_then(out, e, Op::Throw),
        Stmt::Sync { slot, thing, body } => emit_sync(out, body, *slot, thing, held),
        Stmt::Region {
            number,
            label,
            caps,
            captures,
            ..
        } => emit_entry(out, *number, label, caps, captures),
        Stmt::Do(e) => emit_then(out, e, Op::Pop),
        Stmt::SetField {
            of,
            field,
            value,
            ..
        } => emit_put_field(out, of, *field, value),
        Stmt::SetElement {
            of,
            index,
            value,
            ..
        } => emit_put_element(out, of, index, value),
    }
}

/// The part of an `if` for false. `fork` is where the jump to it stands.
#[cycle(stmt)]
fn emit_other(out: &mut Buffer, other: &Vec<Stmt>, fork: u32, held: &mut Vec<usize>)
    ensures emits { Completes out.old out.new fork (λ ps. one (either ps (block (reverse held.old.items) (stmts_tree other.now.items)))) }
    ensures held { held.new.items ≡ held.old.items }
{
    let skip = out.jump(Op::Jump(0));
    let second = out.len();
    emit_block(out, other, held);
    let end = out.len();
    out.point(fork, Op::JumpIfFalse(second));
    out.point(skip, Op::Jump(end))
}

#[cycle(stmt)]
fn emit_loop(out: &mut Buffer, body: &Vec<Stmt>, test: &Expr, held: &mut Vec<usize>)
    ensures emits { Emits out.old out.new (one (loops (expression (expr_tree test.now)) (block (reverse held.old.items) (stmts_tree body.now.items)))) }
    ensures held { held.new.items ≡ held.old.items }
{
    let start = out.len();
    emit_expr(out, test);
    let leave = out.jump(Op::JumpIfFalse(0));
    emit_block(out, body, held);
    out.push(Op::Jump(start));
    let end = out.len();
    out.point(leave, Op::JumpIfFalse(end))
}

#[cycle(stmt)]
fn emit_sync(out: &mut Buffer, body: &Vec<Stmt>, slot: usize, thing: &Expr, held: &mut Vec<usize>)
    ensures emits { Emits out.old out.new (statement (reverse held.old.items) (sync_block slot (expr_tree thing.now) (stmts_tree body.now.items))) }
    ensures held { held.new.items ≡ held.old.items }
{
    emit_enter(out, slot, thing);
    emit_inside(out, body, slot, held);
    emit_leave(out, slot)
}

/// A block inside one more open `sync`.
#[cycle(stmt)]
fn emit_inside(out: &mut Buffer, body: &Vec<Stmt>, slot: usize, held: &mut Vec<usize>)
    ensures emits { Emits out.old out.new (block (slot ∷ reverse held.old.items) (stmts_tree body.now.items)) }
    ensures held { held.new.items ≡ held.old.items }
{
    match held.push(slot) {
        Ok(()) => {
            emit_block(out, body, held);
            let _ = held.pop();
        }
        Err(_) => out.give_up(),
    }
}

/// Puts the code of a block. The open `sync`s stay.
#[cycle(stmt)]
pub fn emit_block(out: &mut Buffer, body: &Vec<Stmt>, held: &mut Vec<usize>)
    ensures emits { Emits out.old out.new (block (reverse held.old.items) (stmts_tree body.now.items)) }
    ensures held { held.new.items ≡ held.old.items }
{
    for s in body {
        emit_stmt(out, s, held);
    }
}
