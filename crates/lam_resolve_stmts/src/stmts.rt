//! The statements of a unit.

ghost use Rattle.std.specs.Prelude.{◌≡◌, IfOk, IsSome, OnOk, Some};
ghost use Rattle.lam_syntax.specs.Tree.{expr_tree, id_tree, stmt_tree, stmts_tree, else_tree, if_stmt as written_if, while_stmt as written_while, sync_stmt as written_sync};
ghost use Rattle.lam_resolve_tree.specs.Tree.{stmt_tree as resolved_stmt, stmts_tree as resolved_stmts, else_tree as resolved_other};
ghost use Rattle.lam_resolve_laws.specs.Resolved.{step_as, closed_as, resolve_stmt as stmt_resolved, resolve_stmts as stmts_resolved, resolve_stmt_form, resolve_else as else_resolved};
ghost use Rattle.lam_resolve_tables.specs.Tables.{tables};
ghost use Rattle.lam_resolve_exprs.specs.Values.{locals};
ghost use Rattle.lam_resolve_units.specs.Seen.{state};
ghost use Rattle.lam_resolve_units.specs.Meets.{Extends};
ghost use Rattle.lam_resolve_stmts.specs.Regions.{region_form, bodies_of, bodies};

use crate::regions::{Bodies, Written, close_region, open_region};
use lam_resolve_exprs::exprs::resolve_expr;
use lam_resolve_exprs::values::Local;
use lam_resolve_tables::kinds::{Base, given_kind, plain};
use lam_resolve_tables::named::Named;
use lam_resolve_tables::tables::Tables;
use lam_resolve_tree::Stmt as ResolvedStmt;
use lam_resolve_units::parts::{
    if_stmt, resolve_assign, resolve_let, resolve_value, sync_stmt, while_stmt,
};
use lam_resolve_units::units::{State, Unit, close, declare, new_slot};
use lam_syntax::{Expr, Id, Stmt, StmtKind};
use std::alloc::Global;
use want_of_memory::NoMemory;

#[cycle(stmt)]
fn resolve_stmt<'a>(
    alloc: Global,
    t: &Tables,
    scope: &mut Named<'a, Local>,
    st: &mut State,
    s: &'a Stmt,
) -> Result<ResolvedStmt, NoMemory>
    requires { IsSome (stmt_resolved (tables t.now) (locals scope.old) (state st.old) (stmt_tree s.now)) }
    ensures meets { IfOk result (λ r. Some (step_as (resolved_stmt r) (locals scope.new) (state st.new)) ≡ stmt_resolved (tables t.now) (locals scope.old) (state st.old) (stmt_tree s.now)) }
    ensures keeps { OnOk result (Extends (locals scope.old) (locals scope.new)) }
{
    match &s.kind {
        StmtKind::Let { var, value } => resolve_let(alloc, t, scope, st, var, value),
        StmtKind::If { test, yes, no } => resolve_if(alloc, t, scope, st, test, yes, no),
        StmtKind::While { test, body } => resolve_while(alloc, t, scope, st, test, body),
        StmtKind::Return(value) => {
            let v = resolve_value(alloc, t, scope, value)?;
            Ok(ResolvedStmt::Return(v))
        }
        StmtKind::Throw(value) => {
            let v = resolve_expr(alloc, t, scope, value)?;
            Ok(ResolvedStmt::Throw(v.it))
        }
        StmtKind::Sync { thing, body } => resolve_sync(alloc, t, scope, st, thing, body),
        StmtKind::Region {
            label,
            caps,
            captures,
            body,
            catch_name,
            catch_body,
        } => {
            let written = Written {
                label,
                caps,
                captures,
                body,
                catch_name,
                catch_body,
            };
            resolve_region(alloc, t, scope, st, written)
        }
        StmtKind::Do(value) => {
            let v = resolve_expr(alloc, t, scope, value)?;
            Ok(ResolvedStmt::Do(v.it))
        }
        StmtKind::Assign { place, value } => resolve_assign(alloc, t, scope, place, value),
    }
}

// `if`, with what else there is.
#[cycle(stmt)]
fn resolve_if<'a>(
    alloc: Global,
    t: &Tables,
    scope: &mut Named<'a, Local>,
    st: &mut State,
    test: &Expr,
    yes: &'a Vec<Stmt>,
    no: &'a Option<Vec<Stmt>>,
) -> Result<ResolvedStmt, NoMemory>
    requires { IsSome (resolve_stmt_form (tables t.now) (locals scope.old) (state st.old) (written_if (expr_tree test.now) (stmts_tree yes.now.items) (else_tree no.now))) }
    ensures meets { IfOk result (λ r. Some (step_as (resolved_stmt r) (locals scope.new) (state st.new)) ≡ resolve_stmt_form (tables t.now) (locals scope.old) (state st.old) (written_if (expr_tree test.now) (stmts_tree yes.now.items) (else_tree no.now))) }
    ensures keeps { OnOk result (Extends (locals scope.old) (locals scope.new)) }
{
    let v = resolve_expr(alloc, t, scope, test)?;
    let first = resolve_block(alloc, t, scope, st, yes)?;
    let other = resolve_else(alloc, t, scope, st, no)?;
    Ok(if_stmt(v.it, first, other))
}

// `while`
#[cycle(stmt)]
fn resolve_while<'a>(
    alloc: Global,
    t: &Tables,
    scope: &mut Named<'a, Local>,
    st: &mut State,
    test: &Expr,
    body: &'a Vec<Stmt>,
) -> Result<ResolvedStmt, NoMemory>
    requires { IsSome (resolve_stmt_form (tables t.now) (locals scope.old) (state st.old) (written_while (expr_tree test.now) (stmts_tree body.now.items))) }
    ensures meets { IfOk result (λ r. Some (step_as (resolved_stmt r) (locals scope.new) (state st.new)) ≡ resolve_stmt_form (tables t.now) (locals scope.old) (state st.old) (written_while (expr_tree test.now) (stmts_tree body.now.items))) }
    ensures keeps { OnOk result (Extends (locals scope.old) (locals scope.new)) }
{
    let v = resolve_expr(alloc, t, scope, test)?;
    let block = resolve_block(alloc, t, scope, st, body)?;
    Ok(while_stmt(v.it, block))
}

// `sync`, whose thing has a slot of its own.
#[cycle(stmt)]
fn resolve_sync<'a>(
    alloc: Global,
    t: &Tables,
    scope: &mut Named<'a, Local>,
    st: &mut State,
    thing: &Expr,
    body: &'a Vec<Stmt>,
) -> Result<ResolvedStmt, NoMemory>
    requires { IsSome (resolve_stmt_form (tables t.now) (locals scope.old) (state st.old) (written_sync (expr_tree thing.now) (stmts_tree body.now.items))) }
    ensures meets { IfOk result (λ r. Some (step_as (resolved_stmt r) (locals scope.new) (state st.new)) ≡ resolve_stmt_form (tables t.now) (locals scope.old) (state st.old) (written_sync (expr_tree thing.now) (stmts_tree body.now.items))) }
    ensures keeps { OnOk result (Extends (locals scope.old) (locals scope.new)) }
{
    let v = resolve_expr(alloc, t, scope, thing)?;
    let Some(kind) = given_kind(v.gives) else {
        unreachable!()
    };
    let slot = new_slot(alloc, st, kind)?;
    let block = resolve_block(alloc, t, scope, st, body)?;
    Ok(sync_stmt(slot, v.it, block))
}

// A region, whose blocks are a unit of their own.
#[cycle(stmt)]
fn resolve_region<'a>(
    alloc: Global,
    t: &Tables,
    scope: &Named<Local>,
    st: &mut State,
    written: Written<'a>,
) -> Result<ResolvedStmt, NoMemory>
    requires { IsSome (resolve_stmt_form (tables t.now) (locals scope.now) (state st.old) (region_form written)) }
    ensures { IfOk result (λ r. Some (step_as (resolved_stmt r) (locals scope.now) (state st.new)) ≡ resolve_stmt_form (tables t.now) (locals scope.now) (state st.old) (region_form written.entry)) }
{
    let opened = open_region(alloc, t, scope, st.regions, written)?;
    let blocks = resolve_bodies(
        alloc,
        t,
        opened.unit,
        written.body,
        written.catch_name,
        written.catch_body,
    )?;
    Ok(close_region(st, opened.head, blocks))
}

// Both blocks of a region, of which the second has one name more.
#[cycle(stmt)]
fn resolve_bodies<'a>(
    alloc: Global,
    t: &Tables,
    unit: Unit<'a>,
    body: &'a Vec<Stmt>,
    name: &'a Id,
    handler: &'a Vec<Stmt>,
) -> Result<Bodies, NoMemory>
    requires { IsSome (bodies_of (tables t.now) (locals unit.scope) (state unit.state) (stmts_tree body.now.items) (id_tree name.now) (stmts_tree handler.now.items)) }
    ensures { IfOk result (λ b. Some (bodies b) ≡ bodies_of (tables t.now) (locals unit.entry.scope) (state unit.entry.state) (stmts_tree body.now.items) (id_tree name.now) (stmts_tree handler.now.items)) }
{
    let mut names = unit.scope;
    let mut inner = unit.state;
    let first = resolve_block(alloc, t, &mut names, &mut inner, body)?;
    let slot = declare(
        alloc,
        &mut names,
        &mut inner,
        name.name.as_str(),
        plain(Base::Int),
    )?;
    let last = resolve_block(alloc, t, &mut names, &mut inner, handler)?;
    Ok(Bodies {
        body: first,
        slot,
        handler: last,
        state: inner,
    })
}

#[cycle(stmt)]
fn resolve_else<'a>(
    alloc: Global,
    t: &Tables,
    scope: &mut Named<'a, Local>,
    st: &mut State,
    no: &'a Option<Vec<Stmt>>,
) -> Result<Option<Vec<ResolvedStmt>>, NoMemory>
    requires { IsSome (else_resolved (tables t.now) (locals scope.old) (state st.old) (else_tree no.now)) }
    ensures meets { IfOk result (λ o. Some (closed_as (resolved_other o) (state st.new)) ≡ else_resolved (tables t.now) (locals scope.old) (state st.old) (else_tree no.now)) }
    ensures keeps { OnOk result (locals scope.new ≡ locals scope.old) }
{
    match no {
        None => Ok(None),
        Some(body) => {
            let block = resolve_block(alloc, t, scope, st, body)?;
            Ok(Some(block))
        }
    }
}

/// A block, at whose end its names go out of scope.
///
/// # Errors
///
/// `NoMemory` where memory is refused.
#[cycle(stmt)]
pub fn resolve_block<'a>(
    alloc: Global,
    t: &Tables,
    scope: &mut Named<'a, Local>,
    st: &mut State,
    body: &'a Vec<Stmt>,
) -> Result<Vec<ResolvedStmt>, NoMemory>
    requires { IsSome (stmts_resolved (tables t.now) (locals scope.old) (state st.old) (stmts_tree body.now.items)) }
    ensures meets { IfOk result (λ v. Some (closed_as (resolved_stmts v.items) (state st.new)) ≡ stmts_resolved (tables t.now) (locals scope.old) (state st.old) (stmts_tree body.now.items)) }
    ensures keeps { OnOk result (locals scope.new ≡ locals scope.old) }
{
    let n = scope.len();
    let block = resolve_stmts(alloc, t, scope, st, body.as_slice())?;
    close(scope, n);
    Ok(block)
}

#[cycle(stmt)]
fn resolve_stmts<'a>(
    alloc: Global,
    t: &Tables,
    scope: &mut Named<'a, Local>,
    st: &mut State,
    body: &'a [Stmt],
) -> Result<Vec<ResolvedStmt>, NoMemory>
    requires { IsSome (stmts_resolved (tables t.now) (locals scope.old) (state st.old) (stmts_tree body.now)) }
    ensures meets { IfOk result (λ v. Some (closed_as (resolved_stmts v.items) (state st.new)) ≡ stmts_resolved (tables t.now) (locals scope.old) (state st.old) (stmts_tree body.now)) }
    ensures keeps { OnOk result (Extends (locals scope.old) (locals scope.new)) }
{
    let mut out = Vec::with_capacity(alloc, body.len())?;
    for s in body {
        let r = resolve_stmt(alloc, t, scope, st, s)?;
        out.push(r)?;
    }
    Ok(out)
}
