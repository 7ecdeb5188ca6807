//! The text of statements.

ghost use Rattle.std.specs.Prelude.{◌∷◌, OnOk, false};
ghost use Rattle.std.specs.String.{string_bytes};
ghost use Rattle.lam_lexer.specs.declared.token.TokenKind.TheVariants as Kind;
ghost use Rattle.lam_syntax.specs.Tree as view;
ghost use Rattle.lam_print.specs.Pieces.{token, blank};
ghost use Rattle.lam_print.specs.Canon as canon;
ghost use Rattle.lam_print.specs.Printing.{Puts};

use crate::exprs::{WHOLE, put_expr, put_names, put_var};
use crate::words::{put, put_line, put_name};
use lam_syntax::{Expr, Id, Stmt, StmtKind, Var};
use want_of_memory::NoMemory;

/// A block whose braces stand in so many open blocks.
#[cycle(stmt)]
pub fn put_block(out: &mut String, body: &[Stmt], depth: u64) -> Result<(), NoMemory>
    ensures { OnOk result (Puts (string_bytes out.old) (string_bytes out.new) (canon.lay_block (view.stmts_tree body.now) depth)) }
{
    if body.is_empty() {
        return put(out, "{ }");
    }
    // So deep an indent fits no memory.
    let Some(inner) = depth.checked_add(1) else {
        return Err(NoMemory);
    };
    put(out, "{")?;
    for x in body {
        put_line(out, inner)?;
        put_stmt(out, x, inner)?;
    }
    put_line(out, depth)?;
    put(out, "}")
}

#[cycle(stmt)]
fn put_stmt(out: &mut String, stmt: &Stmt, depth: u64) -> Result<(), NoMemory>
    ensures { OnOk result (Puts (string_bytes out.old) (string_bytes out.new) (canon.lay_stmt (view.stmt_tree stmt.now) depth)) }
{
    put_kind(out, &stmt.kind, depth)
}

/// An expression, if there is one.
fn put_value(out: &mut String, value: &Option<Expr>) -> Result<(), NoMemory>
    ensures { OnOk result (Puts (string_bytes out.old) (string_bytes out.new) (canon.lay_value (view.option_expr_tree value.now))) }
{
    match value {
        None => Ok(()),
        Some(e) => put_expr(out, e, WHOLE),
    }
}

fn put_let(out: &mut String, var: &Var, value: &Expr) -> Result<(), NoMemory>
    ensures { OnOk result (Puts (string_bytes out.old) (string_bytes out.new) (canon.lay_stmt_form (view.let_stmt (view.var_tree var.now) (view.expr_tree value.now)) 0)) }
{
    put(out, "let ")?;
    put_var(out, var)?;
    put(out, " = ")?;
    put_expr(out, value, WHOLE)?;
    put(out, ";")
}

fn put_assign(out: &mut String, place: &Expr, value: &Expr) -> Result<(), NoMemory>
    ensures { OnOk result (Puts (string_bytes out.old) (string_bytes out.new) (canon.lay_stmt_form (view.assign_stmt (view.expr_tree place.now) (view.expr_tree value.now)) 0)) }
{
    put_expr(out, place, WHOLE)?;
    put(out, " = ")?;
    put_expr(out, value, WHOLE)?;
    put(out, ";")
}

/// A region up to its body: its label, capabilities and captures.
fn put_region_head(
    out: &mut String,
    label: &Expr,
    caps: &Expr,
    captures: &[Id],
) -> Result<(), NoMemory>
    ensures { OnOk result (Puts (string_bytes out.old) (string_bytes out.new) (λ ps. token Kind.Region ∷ blank ∷ token Kind.ParenOpen ∷ canon.lay (view.expr_tree label.now) canon.whole (token Kind.Comma ∷ blank ∷ canon.lay (view.expr_tree caps.now) canon.whole (token Kind.ParenClose ∷ blank ∷ token Kind.BracketOpen ∷ canon.lay_names false (view.ids_tree captures.now) (token Kind.BracketClose ∷ blank ∷ ps))))) }
{
    put(out, "region (")?;
    put_expr(out, label, WHOLE)?;
    put(out, ", ")?;
    put_expr(out, caps, WHOLE)?;
    put(out, ") [")?;
    put_names(out, captures)?;
    put(out, "] ")
}

#[cycle(stmt)]
fn put_kind(out: &mut String, kind: &StmtKind, depth: u64) -> Result<(), NoMemory>
    ensures { OnOk result (Puts (string_bytes out.old) (string_bytes out.new) (canon.lay_stmt_form (view.stmt_form kind.now) depth)) }
{
    match kind {
        StmtKind::Let { var, value } => put_let(out, var, value),
        StmtKind::If { test, yes, no } => put_if(out, test, yes, no, depth),
        StmtKind::While { test, body } => put_while(out, test, body, depth),
        StmtKind::Return(value) => {
            put(out, "return ")?;
            put_value(out, value)?;
            put(out, ";")
        }
        StmtKind::Throw(value) => {
            put(out, "throw ")?;
            put_expr(out, value, WHOLE)?;
            put(out, ";")
        }
        StmtKind::Sync { thing, body } => put_sync(out, thing, body, depth),
        StmtKind::Region {
            label,
            caps,
            captures,
            body,
            catch_name,
            catch_body,
        } => {
            put_region_head(out, label, caps, captures)?;
            put_block(out, body, depth)?;
            put_catch(out, catch_name, catch_body, depth)
        }
        StmtKind::Do(value) => {
            put_expr(out, value, WHOLE)?;
            put(out, ";")
        }
        StmtKind::Assign { place, value } => put_assign(out, place, value),
    }
}

#[cycle(stmt)]
fn put_if(
    out: &mut String,
    test: &Expr,
    yes: &[Stmt],
    no: &Option<Vec<Stmt>>,
    depth: u64,
) -> Result<(), NoMemory>
    ensures { OnOk result (Puts (string_bytes out.old) (string_bytes out.new) (canon.lay_stmt_form (view.if_stmt (view.expr_tree test.now) (view.stmts_tree yes.now) (view.else_tree no.now)) depth)) }
{
    put(out, "if (")?;
    put_expr(out, test, WHOLE)?;
    put(out, ") ")?;
    put_block(out, yes, depth)?;
    put_else(out, no, depth)
}

/// The other block of an `if`, if there is one.
#[cycle(stmt)]
fn put_else(out: &mut String, no: &Option<Vec<Stmt>>, depth: u64) -> Result<(), NoMemory>
    ensures { OnOk result (Puts (string_bytes out.old) (string_bytes out.new) (canon.lay_else (view.else_tree no.now) depth)) }
{
    match no {
        None => Ok(()),
        Some(other) => {
            put(out, " else ")?;
            put_block(out, other, depth)
        }
    }
}

#[cycle(stmt)]
fn put_while(out: &mut String, test: &Expr, body: &[Stmt], depth: u64) -> Result<(), NoMemory>
    ensures { OnOk result (Puts (string_bytes out.old) (string_bytes out.new) (canon.lay_stmt_form (view.while_stmt (view.expr_tree test.now) (view.stmts_tree body.now)) depth)) }
{
    put(out, "while (")?;
    put_expr(out, test, WHOLE)?;
    put(out, ") ")?;
    put_block(out, body, depth)
}

#[cycle(stmt)]
fn put_sync(out: &mut String, thing: &Expr, body: &[Stmt], depth: u64) -> Result<(), NoMemory>
    ensures { OnOk result (Puts (string_bytes out.old) (string_bytes out.new) (canon.lay_stmt_form (view.sync_stmt (view.expr_tree thing.now) (view.stmts_tree body.now)) depth)) }
{
    put(out, "sync (")?;
    put_expr(out, thing, WHOLE)?;
    put(out, ") ")?;
    put_block(out, body, depth)
}

/// The catch block of a region, with its name.
#[cycle(stmt)]
fn put_catch(out: &mut String, name: &Id, body: &[Stmt], depth: u64) -> Result<(), NoMemory>
    ensures { OnOk result (Puts (string_bytes out.old) (string_bytes out.new) (λ ps. blank ∷ token Kind.Catch ∷ blank ∷ token Kind.ParenOpen ∷ canon.name (view.id_tree name.now) (token Kind.ParenClose ∷ blank ∷ canon.lay_block (view.stmts_tree body.now) depth ps))) }
{
    put(out, " catch (")?;
    put_name(out, name)?;
    put(out, ") ")?;
    put_block(out, body, depth)
}
