//! The first steps at statements and blocks.

ghost use Rattle.std.specs.Prelude.{◌≡◌, ℕ, List, length, IfOk};
ghost use Rattle.lam_resolve_tree.specs.Tree.{let_slot, set_local, do_value, return_value, throw_value, if_block, while_block, sync_block, region_block, set_field, set_element, expr_tree, option_expr_tree, stmts_tree, stmt_tree, else_tree, ResolvedType};
ghost use Rattle.source_walk_state.specs.Meaning.{block_in};
ghost use Rattle.source_walk_parts.specs.States.{state_of};
ghost use Rattle.source_walk_open.specs.Opens.{OpensStmt, OpensBlock};

use lam_resolve_tree::{Expr, Stmt};
use lam_value::Value;
use source_walk_parts::{Walk, push, wait};
use source_walk_state::{BeforeBlock, BeforeExpr, BeforeRegion, Control, Frame, Region};
use want_of_memory::NoMemory;

/// The statements of an `else`, none where there is none.
fn other_of(no: &Option<Vec<Stmt>>) -> &[Stmt]
    ensures { stmts_tree result.now ≡ block_in no.now }
{
    match no {
        None => &[],
        Some(body) => body.as_slice(),
    }
}

fn branch<'a>(
    w: &mut Walk<'a>,
    depth: u64,
    test: &'a Expr,
    first: &'a [Stmt],
    no: &'a Option<Vec<Stmt>>,
) -> Result<Control<'a>, NoMemory>
    ensures { IfOk result (λ d. OpensStmt depth (if_block (expr_tree test.now) (stmts_tree first.now) (else_tree no.now)) (state_of w.old) d (state_of w.new)) }
{
    let other = other_of(no);
    wait(
        w,
        depth,
        test,
        Frame::Branch {
            depth,
            first,
            other,
        },
    )
}

fn repeat<'a>(
    w: &mut Walk<'a>,
    depth: u64,
    test: &'a Expr,
    body: &'a [Stmt],
) -> Result<Control<'a>, NoMemory>
    ensures { IfOk result (λ d. OpensStmt depth (while_block (expr_tree test.now) (stmts_tree body.now)) (state_of w.old) d (state_of w.new)) }
{
    let tested = true;
    wait(
        w,
        depth,
        test,
        Frame::Loop {
            depth,
            test,
            body,
            tested,
        },
    )
}

fn sync<'a>(
    w: &mut Walk<'a>,
    depth: u64,
    slot: usize,
    thing: &'a Expr,
    body: &'a [Stmt],
) -> Result<Control<'a>, NoMemory>
    ensures { IfOk result (λ d. OpensStmt depth (sync_block slot (expr_tree thing.now) (stmts_tree body.now)) (state_of w.old) d (state_of w.new)) }
{
    let before = BeforeBlock::Thing(slot);
    wait(
        w,
        depth,
        thing,
        Frame::Block {
            depth,
            body,
            before,
        },
    )
}

fn region<'a>(
    w: &mut Walk<'a>,
    depth: u64,
    label: &'a Expr,
    caps: &'a Expr,
    region: Region<'a>,
) -> Result<Control<'a>, NoMemory>
    ensures { IfOk result (λ d. (slots : List ResolvedType) → region.entry.slots ≡ length slots → OpensStmt depth (region_block region.entry.number (expr_tree label.now) (expr_tree caps.now) region.entry.captures.now slots (stmts_tree region.entry.body.now) region.entry.catch_slot (stmts_tree region.entry.catch_body.now)) (state_of w.old) d (state_of w.new)) }
{
    let before = BeforeRegion::Label(caps);
    wait(
        w,
        depth,
        label,
        Frame::Region {
            depth,
            region,
            before,
        },
    )
}

fn set_field<'a>(
    w: &mut Walk<'a>,
    depth: u64,
    of: &'a Expr,
    at: usize,
    value: &'a Expr,
) -> Result<Control<'a>, NoMemory>
    ensures { IfOk result (λ d. (class : ℕ) (ty : ResolvedType) → OpensStmt depth (set_field (expr_tree of.now) class at ty (expr_tree value.now)) (state_of w.old) d (state_of w.new)) }
{
    let before = BeforeExpr::OfField(at);
    wait(
        w,
        depth,
        of,
        Frame::Expr {
            depth,
            e: value,
            before,
        },
    )
}

fn set_element<'a>(
    w: &mut Walk<'a>,
    depth: u64,
    of: &'a Expr,
    index: &'a Expr,
    value: &'a Expr,
) -> Result<Control<'a>, NoMemory>
    ensures { IfOk result (λ d. (ty : ResolvedType) → OpensStmt depth (set_element (expr_tree of.now) (expr_tree index.now) ty (expr_tree value.now)) (state_of w.old) d (state_of w.new)) }
{
    wait(
        w,
        depth,
        of,
        Frame::Index {
            depth,
            index,
            value,
        },
    )
}

fn declare<'a>(
    w: &mut Walk<'a>,
    depth: u64,
    slot: usize,
    e: &'a Expr,
) -> Result<Control<'a>, NoMemory>
    ensures { IfOk result (λ d. OpensStmt depth (let_slot slot (expr_tree e.now)) (state_of w.old) d (state_of w.new)) }
{
    wait(w, depth, e, Frame::Assign(slot))
}

fn assign<'a>(
    w: &mut Walk<'a>,
    depth: u64,
    slot: usize,
    e: &'a Expr,
) -> Result<Control<'a>, NoMemory>
    ensures { IfOk result (λ d. OpensStmt depth (set_local slot (expr_tree e.now)) (state_of w.old) d (state_of w.new)) }
{
    wait(w, depth, e, Frame::Assign(slot))
}

fn discard<'a>(w: &mut Walk<'a>, depth: u64, e: &'a Expr) -> Result<Control<'a>, NoMemory>
    ensures { IfOk result (λ d. OpensStmt depth (do_value (expr_tree e.now)) (state_of w.old) d (state_of w.new)) }
{
    wait(w, depth, e, Frame::Drop)
}

fn give_back<'a>(
    w: &mut Walk<'a>,
    depth: u64,
    value: &'a Option<Expr>,
) -> Result<Control<'a>, NoMemory>
    ensures { IfOk result (λ d. OpensStmt depth (return_value (option_expr_tree value.now)) (state_of w.old) d (state_of w.new)) }
{
    match value {
        None => Ok(Control::Leave(Value::Nothing)),
        Some(e) => wait(w, depth, e, Frame::Return),
    }
}

fn throw<'a>(w: &mut Walk<'a>, depth: u64, e: &'a Expr) -> Result<Control<'a>, NoMemory>
    ensures { IfOk result (λ d. OpensStmt depth (throw_value (expr_tree e.now)) (state_of w.old) d (state_of w.new)) }
{
    wait(w, depth, e, Frame::Throw)
}

/// The first step of a statement.
///
/// # Errors
///
/// `NoMemory` where memory is refused.
pub fn exec<'a>(w: &mut Walk<'a>, depth: u64, s: &'a Stmt) -> Result<Control<'a>, NoMemory>
    ensures { IfOk result (λ d. OpensStmt depth (stmt_tree s.now) (state_of w.old) d (state_of w.new)) }
{
    match s {
        Stmt::Let { slot, value } => declare(w, depth, *slot, value),
        Stmt::If { test, yes, no } => branch(w, depth, test, yes, no),
        Stmt::While { test, body } => repeat(w, depth, test, body),
        Stmt::Return(value) => give_back(w, depth, value),
        Stmt::Throw(value) => throw(w, depth, value),
        Stmt::Sync { slot, thing, body } => sync(w, depth, *slot, thing, body),
        Stmt::Region {
            number,
            label,
            caps,
            captures,
            slots,
            body,
            catch_slot,
            catch_body,
        } => {
            let it = Region {
                number: *number,
                captures,
                slots: slots.len(),
                body,
                catch_slot: *catch_slot,
                catch_body,
            };
            region(w, depth, label, caps, it)
        }
        Stmt::Do(value) => discard(w, depth, value),
        Stmt::SetLocal { slot, value } => assign(w, depth, *slot, value),
        Stmt::SetField {
            of,
            field,
            value,
            ..
        } => set_field(w, depth, of, *field, value),
        Stmt::SetElement {
            of,
            index,
            value,
            ..
        } => set_element(w, depth, of, index, value),
    }
}

/// The first step of a block.
///
/// # Errors
///
/// `NoMemory` where memory is refused.
pub fn block<'a>(w: &mut Walk<'a>, depth: u64, rest: &'a [Stmt]) -> Result<Control<'a>, NoMemory>
    ensures { IfOk result (λ d. OpensBlock depth (stmts_tree rest.now) (state_of w.old) d (state_of w.new)) }
{
    match rest.split_first() {
        None => Ok(Control::Give(Value::Nothing)),
        Some((s, body)) => {
            let before = BeforeBlock::Statement;
            push(
                w,
                Frame::Block {
                    depth,
                    body,
                    before,
                },
            )?;
            Ok(Control::Exec { depth, s })
        }
    }
}
