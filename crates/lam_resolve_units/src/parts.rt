//! Constructors of statements from resolved parts.

ghost use Rattle.std.specs.Prelude.{◌≡◌, IfOk, IsSome, OnOk, Some};
ghost use Rattle.lam_syntax.specs.Tree.{expr_tree as written_tree, option_expr_tree as written_option, var_tree, let_stmt};
ghost use Rattle.lam_resolve_tree.specs.Tree.{expr_tree, option_expr_tree, stmt_tree, stmts_tree, types_tree, else_tree, if_block, while_block, sync_block, region_block};
ghost use Rattle.lam_resolve_laws.specs.Resolved.{resolve_stmt_form, resolve_value as resolved_value, assignment as assigned, step_as};
ghost use Rattle.lam_resolve_tables.specs.Tables.{tables};
ghost use Rattle.lam_resolve_exprs.specs.Values.{locals};
ghost use Rattle.lam_resolve_units.specs.Seen.{state};
ghost use Rattle.lam_resolve_units.specs.Meets.{Extends};
ghost use Rattle.lam_resolve_units.specs.Parts.{assigned_tree};

use crate::units::{State, declare};
use lam_resolve_exprs::exprs::resolve_expr;
use lam_resolve_exprs::values::Local;
use lam_resolve_tables::kinds::resolve_type;
use lam_resolve_tables::named::Named;
use lam_resolve_tables::tables::Tables;
use lam_resolve_tree::{Expr as ResolvedExpr, Stmt as ResolvedStmt, ValueType};
use lam_syntax::{Expr, Var};
use std::alloc::Global;
use want_of_memory::NoMemory;

/// A value that may be absent.
pub fn resolve_value(
    alloc: Global,
    t: &Tables,
    scope: &Named<Local>,
    value: &Option<Expr>,
) -> Result<Option<ResolvedExpr>, NoMemory>
    requires { IsSome (resolved_value (tables t.now) (locals scope.now) (written_option value.now)) }
    ensures { IfOk result (λ v. Some (option_expr_tree v) ≡ resolved_value (tables t.now) (locals scope.now) (written_option value.now)) }
{
    match value {
        None => Ok(None),
        Some(e) => {
            let v = resolve_expr(alloc, t, scope, e)?;
            Ok(Some(v.it))
        }
    }
}

fn assignment(place: ResolvedExpr, value: ResolvedExpr) -> ResolvedStmt
    requires { IsSome (assigned (expr_tree place) (expr_tree value)) }
    ensures { Some (stmt_tree result) ≡ assigned (expr_tree place) (expr_tree value) }
{
    match place {
        ResolvedExpr::Local(slot) => ResolvedStmt::SetLocal { slot, value },
        ResolvedExpr::Field {
            of,
            class,
            field,
            ty,
        } => ResolvedStmt::SetField {
            of,
            class,
            field,
            ty,
            value,
        },
        ResolvedExpr::Element { of, index, ty } => ResolvedStmt::SetElement {
            of,
            index,
            ty,
            value,
        },
        _ => unreachable!(),
    }
}

/// An assignment.
pub fn resolve_assign(
    alloc: Global,
    t: &Tables,
    scope: &Named<Local>,
    place: &Expr,
    value: &Expr,
) -> Result<ResolvedStmt, NoMemory>
    requires { IsSome (assigned_tree (tables t.now) (locals scope.now) (written_tree place.now) (written_tree value.now)) }
    ensures { IfOk result (λ s. Some (stmt_tree s) ≡ assigned_tree (tables t.now) (locals scope.now) (written_tree place.now) (written_tree value.now)) }
{
    let place = resolve_expr(alloc, t, scope, place)?;
    let value = resolve_expr(alloc, t, scope, value)?;
    Ok(assignment(place.it, value.it))
}

/// A local: its name comes into scope.
pub fn resolve_let<'a>(
    alloc: Global,
    t: &Tables,
    scope: &mut Named<'a, Local>,
    st: &mut State,
    var: &'a Var,
    value: &Expr,
) -> Result<ResolvedStmt, NoMemory>
    requires { IsSome (resolve_stmt_form (tables t.now) (locals scope.old) (state st.old) (let_stmt (var_tree var.now) (written_tree value.now))) }
    ensures meets { IfOk result (λ s. Some (step_as (stmt_tree s) (locals scope.new) (state st.new)) ≡ resolve_stmt_form (tables t.now) (locals scope.old) (state st.old) (let_stmt (var_tree var.now) (written_tree value.now))) }
    ensures keeps { OnOk result (Extends (locals scope.old) (locals scope.new)) }
{
    let kind = resolve_type(&t.names, &var.ty)?;
    let value = resolve_expr(alloc, t, scope, value)?;
    let slot = declare(alloc, scope, st, var.name.name.as_str(), kind)?;
    Ok(ResolvedStmt::Let {
        slot,
        value: value.it,
    })
}

/// `if`, with what else there is.
pub fn if_stmt(
    test: ResolvedExpr,
    yes: Vec<ResolvedStmt>,
    no: Option<Vec<ResolvedStmt>>,
) -> ResolvedStmt
    ensures { stmt_tree result ≡ if_block (expr_tree test) (stmts_tree yes.items) (else_tree no) }
{
    ResolvedStmt::If { test, yes, no }
}

/// `while`
pub fn while_stmt(test: ResolvedExpr, body: Vec<ResolvedStmt>) -> ResolvedStmt
    ensures { stmt_tree result ≡ while_block (expr_tree test) (stmts_tree body.items) }
{
    ResolvedStmt::While { test, body }
}

/// `sync`
pub fn sync_stmt(slot: usize, thing: ResolvedExpr, body: Vec<ResolvedStmt>) -> ResolvedStmt
    ensures { stmt_tree result ≡ sync_block slot (expr_tree thing) (stmts_tree body.items) }
{
    ResolvedStmt::Sync { slot, thing, body }
}

/// What stands before the blocks of a region.
#[derive(Drop)]
pub struct RegionHead {
    pub number: usize,
    pub label: Box<ResolvedExpr>,
    pub caps: Box<ResolvedExpr>,
    pub captures: Vec<usize>,
}

/// `region`
pub fn region_stmt(
    head: RegionHead,
    slots: Vec<ValueType>,
    body: Vec<ResolvedStmt>,
    catch_slot: usize,
    catch_body: Vec<ResolvedStmt>,
) -> ResolvedStmt
    ensures { stmt_tree result ≡ region_block head.number (expr_tree head.label.value) (expr_tree head.caps.value) head.captures.items (types_tree slots.items) (stmts_tree body.items) catch_slot (stmts_tree catch_body.items) }
{
    ResolvedStmt::Region {
        number: head.number,
        label: head.label,
        caps: head.caps,
        captures: head.captures,
        slots,
        body,
        catch_slot,
        catch_body,
    }
}
