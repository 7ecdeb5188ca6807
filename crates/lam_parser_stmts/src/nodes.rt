//! Constructors of the tree nodes of statements.
//!
//! Each function says which tree of `lam_syntax` its node is seen as.

ghost use Rattle.std.specs.Prelude.{◌≡◌};
ghost use Rattle.lam_syntax.specs.Tree as view;

use crate::stmts::RegionHead;
use lam_parser_tokens::Read;
use lam_syntax::{Expr, Id, Stmt, StmtKind, Var};

/// `let var = value;`, from a position on.
pub fn make_let(at: u64, var: Var, value: Box<Expr>) -> Stmt
    ensures { view.stmt_tree result ≡ view.stmt_node at (view.let_stmt (view.var_tree var) (view.expr_tree value.value)) }
{
    Stmt {
        at,
        kind: StmtKind::Let {
            var,
            value: Box::into_inner(value),
        },
    }
}

/// `return value;`, or without a value, from a position on.
pub fn make_return(at: u64, value: Option<Expr>) -> Stmt
    ensures { view.stmt_tree result ≡ view.stmt_node at (view.return_stmt (view.option_expr_tree value)) }
{
    Stmt {
        at,
        kind: StmtKind::Return(value),
    }
}

/// `throw value;`, from a position on.
pub fn make_throw(at: u64, value: Box<Expr>) -> Stmt
    ensures { view.stmt_tree result ≡ view.stmt_node at (view.throw_stmt (view.expr_tree value.value)) }
{
    Stmt {
        at,
        kind: StmtKind::Throw(Box::into_inner(value)),
    }
}

/// An expression as a statement.
pub fn make_do(of: Read) -> Stmt
    ensures { view.stmt_tree result ≡ view.stmt_node of.begin (view.do_stmt (view.expr_tree of.expr.value)) }
{
    Stmt {
        at: of.begin,
        kind: StmtKind::Do(Box::into_inner(of.expr)),
    }
}

/// `place = value;`
pub fn make_assign(place: Read, value: Box<Expr>) -> Stmt
    ensures { view.stmt_tree result ≡ view.stmt_node place.begin (view.assign_stmt (view.expr_tree place.expr.value) (view.expr_tree value.value)) }
{
    Stmt {
        at: place.begin,
        kind: StmtKind::Assign {
            place: Box::into_inner(place.expr),
            value: Box::into_inner(value),
        },
    }
}

/// `if (test) { yes } else { no }`, or without `else`, from a position on.
pub fn make_if(at: u64, test: Box<Expr>, yes: Vec<Stmt>, no: Option<Vec<Stmt>>) -> Stmt
    ensures { view.stmt_tree result ≡ view.stmt_node at (view.if_stmt (view.expr_tree test.value) (view.stmts_tree yes.items) (view.else_tree no)) }
{
    Stmt {
        at,
        kind: StmtKind::If {
            test: Box::into_inner(test),
            yes,
            no,
        },
    }
}

/// `while (test) { body }`, from a position on.
pub fn make_while(at: u64, test: Box<Expr>, body: Vec<Stmt>) -> Stmt
    ensures { view.stmt_tree result ≡ view.stmt_node at (view.while_stmt (view.expr_tree test.value) (view.stmts_tree body.items)) }
{
    Stmt {
        at,
        kind: StmtKind::While {
            test: Box::into_inner(test),
            body,
        },
    }
}

/// `sync (thing) { body }`, from a position on.
pub fn make_sync(at: u64, thing: Box<Expr>, body: Vec<Stmt>) -> Stmt
    ensures { view.stmt_tree result ≡ view.stmt_node at (view.sync_stmt (view.expr_tree thing.value) (view.stmts_tree body.items)) }
{
    Stmt {
        at,
        kind: StmtKind::Sync {
            thing: Box::into_inner(thing),
            body,
        },
    }
}

/// What a region does with a fault: the name that the fault has there, and the statements.
#[derive(Drop)]
pub struct Handler {
    pub name: Id,
    pub body: Vec<Stmt>,
}

/// A region, from a position on.
pub fn make_region(
    at: u64,
    head: RegionHead,
    captures: Vec<Id>,
    body: Vec<Stmt>,
    handler: Handler,
) -> Stmt
    ensures { view.stmt_tree result ≡ view.stmt_node at (view.region_stmt (view.expr_tree head.label.value) (view.expr_tree head.caps.value) (view.ids_tree captures.items) (view.stmts_tree body.items) (view.id_tree handler.name) (view.stmts_tree handler.body.items)) }
{
    Stmt {
        at,
        kind: StmtKind::Region {
            label: head.label,
            caps: head.caps,
            captures,
            body,
            catch_name: handler.name,
            catch_body: handler.body,
        },
    }
}
