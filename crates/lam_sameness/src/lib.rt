//! Equality of programs, up to positions.
//!
//! Two trees are the same where their views without positions (`unplaced`, of `lam_syntax`) are. The tool itself does
//! not depend on this crate: it serves callers that compare programs, and the worked examples.
//!
//! A public promise rests on `same_tree`: it says exactly whether two programs are the same but for positions. Free to
//! change for speed: the order in which their parts are compared.
#![tactic(auto)]

ghost use Rattle.std.specs.Prelude.{◌≡◌, ◌↔◌, IsTrue};
ghost use Rattle.lam_syntax.specs.Tree as view;
ghost use Rattle.lam_syntax.specs.declared.Item.TheVariants as Item;
ghost use Rattle.lam_syntax.specs.Unplaced.{unplaced_id, unplaced_ids, unplaced_type, unplaced_type_form, unplaced_option_type, unplaced_var, unplaced_vars, unplaced_cap, unplaced_caps, unplaced_expr, unplaced_expr_form, unplaced_exprs, unplaced_option_expr, unplaced_stmt, unplaced_stmt_form, unplaced_stmts, unplaced_else, unplaced_item, unplaced};

use lam_operators::{BinaryOp, UnaryOp};
use lam_syntax::{
    CapItem, Class, Expr, ExprKind, Function, Id, Item, Program, Stmt, StmtKind, TypeExpr,
    TypeKind, Var,
};

/// Whether the two programs are the same tree, positions left out.
pub fn same_tree(a: &Program, b: &Program) -> bool
    ensures { IsTrue result ↔ (unplaced (view.program_tree a.now) ≡ unplaced (view.program_tree b.now)) }
{
    same_items(&a.items, &b.items)
}

fn same_items(a: &[Item], b: &[Item]) -> bool
    ensures { IsTrue result ↔ (unplaced (view.items_tree a.now) ≡ unplaced (view.items_tree b.now)) }
{
    if a.len() != b.len() {
        return false;
    }
    for i in 0..a.len() {
        if !same_item(&a[i], &b[i]) {
            return false;
        }
    }
    true
}

fn same_item(a: &Item, b: &Item) -> bool
    ensures { IsTrue result ↔ (unplaced_item (view.item_tree a.now) ≡ unplaced_item (view.item_tree b.now)) }
{
    match a {
        Item::Class(x) => match b {
            Item::Class(y) => same_class(x, y),
            Item::Function(_) => false,
        },
        Item::Function(x) => match b {
            Item::Function(y) => same_function(x, y),
            Item::Class(_) => false,
        },
    }
}

fn same_class(a: &Class, b: &Class) -> bool
    ensures { IsTrue result ↔ (unplaced_item (view.item_tree (Item.Class a.now)) ≡ unplaced_item (view.item_tree (Item.Class b.now))) }
{
    same_id(&a.name, &b.name) && same_vars(&a.fields, &b.fields)
}

fn same_function(a: &Function, b: &Function) -> bool
    ensures { IsTrue result ↔ (unplaced_item (view.item_tree (Item.Function a.now)) ≡ unplaced_item (view.item_tree (Item.Function b.now))) }
{
    same_id(&a.name, &b.name)
        && same_vars(&a.params, &b.params)
        && same_result(&a.result, &b.result)
        && same_stmts(&a.body, &b.body)
}

fn same_result(a: &Option<TypeExpr>, b: &Option<TypeExpr>) -> bool
    ensures { IsTrue result ↔ (unplaced_option_type (view.option_type_tree a.now) ≡ unplaced_option_type (view.option_type_tree b.now)) }
{
    match a {
        None => b.is_none(),
        Some(x) => match b {
            None => false,
            Some(y) => same_type(x, y),
        },
    }
}

fn same_id(a: &Id, b: &Id) -> bool
    ensures { IsTrue result ↔ (unplaced_id (view.id_tree a.now) ≡ unplaced_id (view.id_tree b.now)) }
{
    a.name.as_str() == b.name.as_str()
}

fn same_ids(a: &[Id], b: &[Id]) -> bool
    ensures { IsTrue result ↔ (unplaced_ids (view.ids_tree a.now) ≡ unplaced_ids (view.ids_tree b.now)) }
{
    if a.len() != b.len() {
        return false;
    }
    for i in 0..a.len() {
        if !same_id(&a[i], &b[i]) {
            return false;
        }
    }
    true
}

fn same_var(a: &Var, b: &Var) -> bool
    ensures { IsTrue result ↔ (unplaced_var (view.var_tree a.now) ≡ unplaced_var (view.var_tree b.now)) }
{
    same_id(&a.name, &b.name) && same_type(&a.ty, &b.ty)
}

fn same_vars(a: &[Var], b: &[Var]) -> bool
    ensures { IsTrue result ↔ (unplaced_vars (view.vars_tree a.now) ≡ unplaced_vars (view.vars_tree b.now)) }
{
    if a.len() != b.len() {
        return false;
    }
    for i in 0..a.len() {
        if !same_var(&a[i], &b[i]) {
            return false;
        }
    }
    true
}

fn same_cap(a: &CapItem, b: &CapItem) -> bool
    ensures { IsTrue result ↔ (unplaced_cap (view.cap_tree a.now) ≡ unplaced_cap (view.cap_tree b.now)) }
{
    same_id(&a.name, &b.name) && a.plus == b.plus
}

fn same_caps(a: &[CapItem], b: &[CapItem]) -> bool
    ensures { IsTrue result ↔ (unplaced_caps (view.caps_tree a.now) ≡ unplaced_caps (view.caps_tree b.now)) }
{
    if a.len() != b.len() {
        return false;
    }
    for i in 0..a.len() {
        if !same_cap(&a[i], &b[i]) {
            return false;
        }
    }
    true
}

fn same_type(a: &TypeExpr, b: &TypeExpr) -> bool
    ensures { IsTrue result ↔ (unplaced_type (view.type_tree a.now) ≡ unplaced_type (view.type_tree b.now)) }
{
    same_type_kind(&a.kind, &b.kind)
}

fn same_type_kind(a: &TypeKind, b: &TypeKind) -> bool
    ensures { IsTrue result ↔ (unplaced_type_form (view.type_form a.now) ≡ unplaced_type_form (view.type_form b.now)) }
{
    match a {
        TypeKind::Int => matches!(b, TypeKind::Int),
        TypeKind::Bool => matches!(b, TypeKind::Bool),
        TypeKind::Bytes => matches!(b, TypeKind::Bytes),
        TypeKind::Tag => matches!(b, TypeKind::Tag),
        TypeKind::Label => matches!(b, TypeKind::Label),
        TypeKind::Caps => matches!(b, TypeKind::Caps),
        TypeKind::File => matches!(b, TypeKind::File),
        TypeKind::Dir => matches!(b, TypeKind::Dir),
        TypeKind::Pipe => matches!(b, TypeKind::Pipe),
        TypeKind::Thread => matches!(b, TypeKind::Thread),
        TypeKind::Class(x) => match b {
            TypeKind::Class(y) => x.as_str() == y.as_str(),
            _ => false,
        },
        TypeKind::Array(x) => match b {
            TypeKind::Array(y) => same_type_kind(&x.kind, &y.kind),
            _ => false,
        },
    }
}

#[cycle(same_expr)]
fn same_exprs(a: &[Expr], b: &[Expr]) -> bool
    ensures { IsTrue result ↔ (unplaced_exprs (view.exprs_tree a.now) ≡ unplaced_exprs (view.exprs_tree b.now)) }
{
    if a.len() != b.len() {
        return false;
    }
    for i in 0..a.len() {
        if !same_expr(&a[i], &b[i]) {
            return false;
        }
    }
    true
}

#[cycle(same_expr)]
fn same_expr(a: &Expr, b: &Expr) -> bool
    ensures { IsTrue result ↔ (unplaced_expr (view.expr_tree a.now) ≡ unplaced_expr (view.expr_tree b.now)) }
{
    same_expr_kind(&a.kind, &b.kind)
}

#[cycle(same_expr)]
fn same_expr_kind(a: &ExprKind, b: &ExprKind) -> bool
    ensures { IsTrue result ↔ (unplaced_expr_form (view.expr_form a.now) ≡ unplaced_expr_form (view.expr_form b.now)) }
{
    match a {
        ExprKind::Binary { op, left, right } => same_binary(*op, left, right, b),
        ExprKind::Unary { op, of } => same_unary(*op, of, b),
        ExprKind::Field { of, field } => same_field(of, field, b),
        ExprKind::Element { of, index } => same_element(of, index, b),
        ExprKind::Number(n) => match b {
            ExprKind::Number(m) => *n == *m,
            _ => false,
        },
        ExprKind::Text(x) => match b {
            ExprKind::Text(y) => x.as_slice() == y.as_slice(),
            _ => false,
        },
        ExprKind::Bool(x) => match b {
            ExprKind::Bool(y) => *x == *y,
            _ => false,
        },
        ExprKind::Null => matches!(b, ExprKind::Null),
        ExprKind::Name(x) => match b {
            ExprKind::Name(y) => x.as_str() == y.as_str(),
            _ => false,
        },
        ExprKind::Call { name, args } => same_call(name, args, b),
        ExprKind::NewClass { class } => match b {
            ExprKind::NewClass { class: x } => same_id(class, x),
            _ => false,
        },
        ExprKind::NewArray { element, length } => same_new_array(element, length, b),
        ExprKind::LabelOf { s, i } => same_label(s, i, b),
        ExprKind::CapsOf(x) => match b {
            ExprKind::CapsOf(y) => same_caps(x, y),
            _ => false,
        },
        ExprKind::Spawn {
            caps,
            function,
            args,
        } => same_spawn(caps, function, args, b),
    }
}

/// Whether an expression is this operator between these two.
#[cycle(same_expr)]
fn same_binary(op: BinaryOp, left: &Expr, right: &Expr, b: &ExprKind) -> bool
    ensures { IsTrue result ↔ (unplaced_expr_form (view.binary_expr op (view.expr_tree left.now) (view.expr_tree right.now)) ≡ unplaced_expr_form (view.expr_form b.now)) }
{
    match b {
        ExprKind::Binary {
            op: o,
            left: l,
            right: r,
        } => op == *o && same_expr(left, l) && same_expr(right, r),
        _ => false,
    }
}

#[cycle(same_expr)]
fn same_unary(op: UnaryOp, of: &Expr, b: &ExprKind) -> bool
    ensures { IsTrue result ↔ (unplaced_expr_form (view.unary_expr op (view.expr_tree of.now)) ≡ unplaced_expr_form (view.expr_form b.now)) }
{
    match b {
        ExprKind::Unary { op: o, of: e } => op == *o && same_expr(of, e),
        _ => false,
    }
}

#[cycle(same_expr)]
fn same_field(of: &Expr, field: &Id, b: &ExprKind) -> bool
    ensures { IsTrue result ↔ (unplaced_expr_form (view.field_expr (view.expr_tree of.now) (view.id_tree field.now)) ≡ unplaced_expr_form (view.expr_form b.now)) }
{
    match b {
        ExprKind::Field { of: e, field: x } => same_expr(of, e) && same_id(field, x),
        _ => false,
    }
}

#[cycle(same_expr)]
fn same_element(of: &Expr, index: &Expr, b: &ExprKind) -> bool
    ensures { IsTrue result ↔ (unplaced_expr_form (view.element_expr (view.expr_tree of.now) (view.expr_tree index.now)) ≡ unplaced_expr_form (view.expr_form b.now)) }
{
    match b {
        ExprKind::Element { of: e, index: i } => same_expr(of, e) && same_expr(index, i),
        _ => false,
    }
}

#[cycle(same_expr)]
fn same_call(name: &Id, args: &[Expr], b: &ExprKind) -> bool
    ensures { IsTrue result ↔ (unplaced_expr_form (view.call_expr (view.id_tree name.now) (view.exprs_tree args.now)) ≡ unplaced_expr_form (view.expr_form b.now)) }
{
    match b {
        ExprKind::Call { name: x, args: es } => same_id(name, x) && same_exprs(args, es),
        _ => false,
    }
}

#[cycle(same_expr)]
fn same_new_array(element: &TypeExpr, length: &Expr, b: &ExprKind) -> bool
    ensures { IsTrue result ↔ (unplaced_expr_form (view.new_array_expr (view.type_tree element.now) (view.expr_tree length.now)) ≡ unplaced_expr_form (view.expr_form b.now)) }
{
    match b {
        ExprKind::NewArray {
            element: t,
            length: e,
        } => same_type(element, t) && same_expr(length, e),
        _ => false,
    }
}

#[cycle(same_expr)]
fn same_label(s: &[Expr], i: &[Expr], b: &ExprKind) -> bool
    ensures { IsTrue result ↔ (unplaced_expr_form (view.label_expr (view.exprs_tree s.now) (view.exprs_tree i.now)) ≡ unplaced_expr_form (view.expr_form b.now)) }
{
    match b {
        ExprKind::LabelOf { s: t, i: j } => same_exprs(s, t) && same_exprs(i, j),
        _ => false,
    }
}

#[cycle(same_expr)]
fn same_spawn(caps: &Expr, function: &Id, args: &[Expr], b: &ExprKind) -> bool
    ensures { IsTrue result ↔ (unplaced_expr_form (view.spawn_expr (view.expr_tree caps.now) (view.id_tree function.now) (view.exprs_tree args.now)) ≡ unplaced_expr_form (view.expr_form b.now)) }
{
    match b {
        ExprKind::Spawn {
            caps: c,
            function: x,
            args: es,
        } => same_expr(caps, c) && same_id(function, x) && same_exprs(args, es),
        _ => false,
    }
}

fn same_value(a: &Option<Expr>, b: &Option<Expr>) -> bool
    ensures { IsTrue result ↔ (unplaced_option_expr (view.option_expr_tree a.now) ≡ unplaced_option_expr (view.option_expr_tree b.now)) }
{
    match a {
        None => b.is_none(),
        Some(x) => match b {
            None => false,
            Some(y) => same_expr(x, y),
        },
    }
}

fn same_let(var: &Var, value: &Expr, b: &StmtKind) -> bool
    ensures { IsTrue result ↔ (unplaced_stmt_form (view.let_stmt (view.var_tree var.now) (view.expr_tree value.now)) ≡ unplaced_stmt_form (view.stmt_form b.now)) }
{
    match b {
        StmtKind::Let { var: v, value: e } => same_var(var, v) && same_expr(value, e),
        _ => false,
    }
}

fn same_assign(place: &Expr, value: &Expr, b: &StmtKind) -> bool
    ensures { IsTrue result ↔ (unplaced_stmt_form (view.assign_stmt (view.expr_tree place.now) (view.expr_tree value.now)) ≡ unplaced_stmt_form (view.stmt_form b.now)) }
{
    match b {
        StmtKind::Assign { place: p, value: e } => same_expr(place, p) && same_expr(value, e),
        _ => false,
    }
}

#[cycle(same_stmt)]
fn same_stmts(a: &[Stmt], b: &[Stmt]) -> bool
    ensures { IsTrue result ↔ (unplaced_stmts (view.stmts_tree a.now) ≡ unplaced_stmts (view.stmts_tree b.now)) }
{
    if a.len() != b.len() {
        return false;
    }
    for i in 0..a.len() {
        if !same_stmt(&a[i], &b[i]) {
            return false;
        }
    }
    true
}

#[cycle(same_stmt)]
fn same_stmt(a: &Stmt, b: &Stmt) -> bool
    ensures { IsTrue result ↔ (unplaced_stmt (view.stmt_tree a.now) ≡ unplaced_stmt (view.stmt_tree b.now)) }
{
    same_stmt_kind(&a.kind, &b.kind)
}

#[cycle(same_stmt)]
fn same_stmt_kind(a: &StmtKind, b: &StmtKind) -> bool
    ensures { IsTrue result ↔ (unplaced_stmt_form (view.stmt_form a.now) ≡ unplaced_stmt_form (view.stmt_form b.now)) }
{
    match a {
        StmtKind::Let { var, value } => same_let(var, value, b),
        StmtKind::If { test, yes, no } => same_if(test, yes, no, b),
        StmtKind::While { test, body } => same_while(test, body, b),
        StmtKind::Return(value) => match b {
            StmtKind::Return(e) => same_value(value, e),
            _ => false,
        },
        StmtKind::Throw(value) => match b {
            StmtKind::Throw(e) => same_expr(value, e),
            _ => false,
        },
        StmtKind::Sync { thing, body } => same_sync(thing, body, b),
        StmtKind::Region {
            label,
            caps,
            captures,
            body,
            catch_name,
            catch_body,
        } => same_region(label, caps, captures, body, catch_name, catch_body, b),
        StmtKind::Do(value) => match b {
            StmtKind::Do(e) => same_expr(value, e),
            _ => false,
        },
        StmtKind::Assign { place, value } => same_assign(place, value, b),
    }
}

#[cycle(same_stmt)]
fn same_if(test: &Expr, yes: &[Stmt], no: &Option<Vec<Stmt>>, b: &StmtKind) -> bool
    ensures { IsTrue result ↔ (unplaced_stmt_form (view.if_stmt (view.expr_tree test.now) (view.stmts_tree yes.now) (view.else_tree no.now)) ≡ unplaced_stmt_form (view.stmt_form b.now)) }
{
    match b {
        StmtKind::If {
            test: e,
            yes: x,
            no: y,
        } => same_expr(test, e) && same_stmts(yes, x) && same_else(no, y),
        _ => false,
    }
}

#[cycle(same_stmt)]
fn same_else(a: &Option<Vec<Stmt>>, b: &Option<Vec<Stmt>>) -> bool
    ensures { IsTrue result ↔ (unplaced_else (view.else_tree a.now) ≡ unplaced_else (view.else_tree b.now)) }
{
    match a {
        None => b.is_none(),
        Some(x) => match b {
            None => false,
            Some(y) => same_stmts(x, y),
        },
    }
}

#[cycle(same_stmt)]
fn same_while(test: &Expr, body: &[Stmt], b: &StmtKind) -> bool
    ensures { IsTrue result ↔ (unplaced_stmt_form (view.while_stmt (view.expr_tree test.now) (view.stmts_tree body.now)) ≡ unplaced_stmt_form (view.stmt_form b.now)) }
{
    match b {
        StmtKind::While { test: e, body: x } => same_expr(test, e) && same_stmts(body, x),
        _ => false,
    }
}

#[cycle(same_stmt)]
fn same_sync(thing: &Expr, body: &[Stmt], b: &StmtKind) -> bool
    ensures { IsTrue result ↔ (unplaced_stmt_form (view.sync_stmt (view.expr_tree thing.now) (view.stmts_tree body.now)) ≡ unplaced_stmt_form (view.stmt_form b.now)) }
{
    match b {
        StmtKind::Sync { thing: e, body: x } => same_expr(thing, e) && same_stmts(body, x),
        _ => false,
    }
}

/// Whether a statement is a region of these parts.
#[cycle(same_stmt)]
fn same_region(
    label: &Expr,
    caps: &Expr,
    captures: &[Id],
    body: &[Stmt],
    catch_name: &Id,
    catch_body: &[Stmt],
    b: &StmtKind,
) -> bool
    ensures { IsTrue result ↔ (unplaced_stmt_form (view.region_stmt (view.expr_tree label.now) (view.expr_tree caps.now) (view.ids_tree captures.now) (view.stmts_tree body.now) (view.id_tree catch_name.now) (view.stmts_tree catch_body.now)) ≡ unplaced_stmt_form (view.stmt_form b.now)) }
{
    match b {
        StmtKind::Region {
            label: l,
            caps: c,
            captures: xs,
            body: x,
            catch_name: y,
            catch_body: z,
        } => {
            same_expr(label, l)
                && same_expr(caps, c)
                && same_ids(captures, xs)
                && same_stmts(body, x)
                && same_id(catch_name, y)
                && same_stmts(catch_body, z)
        }
        _ => false,
    }
}
