//! Trees made by hand.

use lam_operators::BinaryOp;
use lam_syntax::{
    Expr, ExprKind, Function, Id, Item, Program, Stmt, StmtKind, TypeExpr, TypeKind, Var,
};
use std::alloc::{AllocError, Global};
use std::test::Fail;

fn id(alloc: Global, at: u64, name: &str) -> Result<Id, AllocError> {
    Ok(Id {
        at,
        name: String::from_str(alloc, name)?,
    })
}

fn int(at: u64) -> TypeExpr {
    TypeExpr {
        at,
        kind: TypeKind::Int,
    }
}

fn boxed(alloc: Global, at: u64, kind: ExprKind) -> Result<Box<Expr>, Fail> {
    Ok(Box::new(alloc, Expr { at, kind })?)
}

/// `(of + 1) * 2`, from a position on.
fn product(alloc: Global, at: u64, of: &str) -> Result<Expr, Fail> {
    let sum = ExprKind::Binary {
        op: BinaryOp::Add,
        left: boxed(alloc, at, ExprKind::Name(String::from_str(alloc, of)?))?,
        right: boxed(alloc, at, ExprKind::Number(1))?,
    };
    let kind = ExprKind::Binary {
        op: BinaryOp::Mul,
        left: boxed(alloc, at, sum)?,
        right: boxed(alloc, at, ExprKind::Number(2))?,
    };
    Ok(Expr { at, kind })
}

/// `fn f(x: int): int { return (of + 1) * 2; }`, from a position on.
pub fn function(alloc: Global, at: u64, of: &str) -> Result<Program, Fail> {
    let mut params = Vec::new(alloc);
    params.push(Var {
        name: id(alloc, at, "x")?,
        ty: int(at),
    })?;
    let mut body = Vec::new(alloc);
    body.push(Stmt {
        at,
        kind: StmtKind::Return(Some(product(alloc, at, of)?)),
    })?;
    let mut items = Vec::new(alloc);
    items.push(Item::Function(Function {
        at,
        name: id(alloc, at, "f")?,
        params,
        result: Some(int(at)),
        body,
    }))?;
    Ok(Program { items })
}
