//! The text of types and expressions.

ghost use Rattle.std.specs.Prelude.{◌≡◌, ◌++◌, ◌∷◌, [], OnOk, false};
ghost use Rattle.std.specs.String.{string_bytes};
ghost use Rattle.lam_syntax.specs.Tree as view;
ghost use Rattle.lam_print.specs.Pieces.{spelling, token, blank};
ghost use Rattle.lam_print.specs.Canon as canon;
ghost use Rattle.lam_print.specs.Printing.{Puts};

use crate::words::{
    close_group, open_group, put, put_comma, put_name, put_number, put_spaced, put_text,
};
use lam_operators::{BinaryOp, UnaryOp};
use lam_syntax::{CapItem, Expr, ExprKind, Id, TypeExpr, TypeKind, Var};
use want_of_memory::NoMemory;

/// The place of an operand of `.` and `[`.
const OPERAND: u8 = 0;

/// How tightly a prefix binds.
const PREFIXED: u8 = 1;

/// The place of any expression.
pub const WHOLE: u8 = 6;

fn weight(op: BinaryOp) -> u8
    ensures { result ≡ canon.weight op }
{
    match op {
        BinaryOp::Mul | BinaryOp::Div | BinaryOp::Rem => 2,
        BinaryOp::Add | BinaryOp::Sub => 3,
        BinaryOp::And => 5,
        BinaryOp::Or => 6,
        _ => 4,
    }
}

fn left_place(op: BinaryOp) -> u8
    ensures { result ≡ canon.left_place op }
{
    match op {
        BinaryOp::Eq | BinaryOp::Ne | BinaryOp::Lt | BinaryOp::Le | BinaryOp::Gt | BinaryOp::Ge =>
            3,
        _ => weight(op),
    }
}

fn right_place(op: BinaryOp) -> u8
    ensures { result ≡ canon.right_place op }
{
    match op {
        BinaryOp::Mul | BinaryOp::Div | BinaryOp::Rem => 1,
        BinaryOp::Add | BinaryOp::Sub => 2,
        BinaryOp::And => 4,
        BinaryOp::Or => 5,
        _ => 3,
    }
}

/// An operator between blanks.
fn operator(op: BinaryOp) -> &'static str
    ensures { result.now ≡ 32 ∷ spelling (canon.operator op) ++ 32 ∷ [] }
{
    match op {
        BinaryOp::Or => " || ",
        BinaryOp::And => " && ",
        BinaryOp::Eq => " == ",
        BinaryOp::Ne => " != ",
        BinaryOp::Lt => " < ",
        BinaryOp::Le => " <= ",
        BinaryOp::Gt => " > ",
        BinaryOp::Ge => " >= ",
        BinaryOp::Add => " + ",
        BinaryOp::Sub => " - ",
        BinaryOp::Mul => " * ",
        BinaryOp::Div => " / ",
        BinaryOp::Rem => " % ",
    }
}

fn sign(op: UnaryOp) -> &'static str
    ensures { result.now ≡ spelling (canon.sign op) }
{
    match op {
        UnaryOp::Not => "!",
        UnaryOp::Neg => "-",
    }
}

fn truth(b: bool) -> &'static str
    ensures { result.now ≡ spelling (canon.truth b) }
{
    if b { "true" } else { "false" }
}

fn put_operator(out: &mut String, op: BinaryOp) -> Result<(), NoMemory>
    ensures { OnOk result (Puts (string_bytes out.old) (string_bytes out.new) (λ ps. blank ∷ token (canon.operator op) ∷ blank ∷ ps)) }
{
    put(out, operator(op))
}

pub fn put_type(out: &mut String, ty: &TypeExpr) -> Result<(), NoMemory>
    ensures { OnOk result (Puts (string_bytes out.old) (string_bytes out.new) (canon.lay_type (view.type_tree ty.now))) }
{
    put_type_kind(out, &ty.kind)
}

fn put_type_kind(out: &mut String, kind: &TypeKind) -> Result<(), NoMemory>
    ensures { OnOk result (Puts (string_bytes out.old) (string_bytes out.new) (canon.lay_type_form (view.type_form kind.now))) }
{
    match kind {
        TypeKind::Int => put(out, "int"),
        TypeKind::Bool => put(out, "bool"),
        TypeKind::Bytes => put(out, "bytes"),
        TypeKind::Tag => put(out, "tag"),
        TypeKind::Label => put(out, "label"),
        TypeKind::Caps => put(out, "caps"),
        TypeKind::File => put(out, "file"),
        TypeKind::Dir => put(out, "dir"),
        TypeKind::Pipe => put(out, "pipe"),
        TypeKind::Thread => put(out, "thread"),
        TypeKind::Class(x) => put(out, x.as_str()),
        TypeKind::Array(of) => {
            put(out, "[")?;
            put_type_kind(out, &of.kind)?;
            put(out, "]")
        }
    }
}

/// A name, a colon and a type.
pub fn put_var(out: &mut String, var: &Var) -> Result<(), NoMemory>
    ensures { OnOk result (Puts (string_bytes out.old) (string_bytes out.new) (canon.lay_var (view.var_tree var.now))) }
{
    put_name(out, &var.name)?;
    put(out, ": ")?;
    put_type(out, &var.ty)
}

pub fn put_vars(out: &mut String, vars: &[Var]) -> Result<(), NoMemory>
    ensures { OnOk result (Puts (string_bytes out.old) (string_bytes out.new) (canon.lay_vars false (view.vars_tree vars.now))) }
{
    for i in 0..vars.len() {
        put_comma(out, i > 0)?;
        put_var(out, &vars[i])?;
    }
    Ok(())
}

pub fn put_names(out: &mut String, names: &[Id]) -> Result<(), NoMemory>
    ensures { OnOk result (Puts (string_bytes out.old) (string_bytes out.new) (canon.lay_names false (view.ids_tree names.now))) }
{
    for i in 0..names.len() {
        put_comma(out, i > 0)?;
        put_name(out, &names[i])?;
    }
    Ok(())
}

fn put_cap(out: &mut String, cap: &CapItem) -> Result<(), NoMemory>
    ensures { OnOk result (Puts (string_bytes out.old) (string_bytes out.new) (canon.lay_cap (view.cap_tree cap.now))) }
{
    put_name(out, &cap.name)?;
    if cap.plus {
        put(out, "+")
    } else {
        put(out, "-")
    }
}

fn put_caps(out: &mut String, caps: &[CapItem]) -> Result<(), NoMemory>
    ensures { OnOk result (Puts (string_bytes out.old) (string_bytes out.new) (canon.lay_caps false (view.caps_tree caps.now))) }
{
    for i in 0..caps.len() {
        put_comma(out, i > 0)?;
        put_cap(out, &caps[i])?;
    }
    Ok(())
}

/// The capabilities in braces.
fn put_caps_of(out: &mut String, caps: &[CapItem]) -> Result<(), NoMemory>
    ensures { OnOk result (Puts (string_bytes out.old) (string_bytes out.new) (canon.lay_form (view.caps_expr (view.caps_tree caps.now)) canon.before_postfix)) }
{
    put(out, "caps{")?;
    put_caps(out, caps)?;
    put(out, "}")
}

fn put_new_class(out: &mut String, class: &Id) -> Result<(), NoMemory>
    ensures { OnOk result (Puts (string_bytes out.old) (string_bytes out.new) (canon.lay_form (view.new_class_expr (view.id_tree class.now)) canon.before_postfix)) }
{
    put(out, "new ")?;
    put_name(out, class)?;
    put(out, "()")
}

#[cycle(expr)]
fn put_args(out: &mut String, args: &[Expr]) -> Result<(), NoMemory>
    ensures { OnOk result (Puts (string_bytes out.old) (string_bytes out.new) (canon.lay_args false (view.exprs_tree args.now))) }
{
    for i in 0..args.len() {
        put_comma(out, i > 0)?;
        put_expr(out, &args[i], WHOLE)?;
    }
    Ok(())
}

/// The tags of a label's second set, after a blank where there are any.
#[cycle(expr)]
fn put_tags(out: &mut String, tags: &[Expr]) -> Result<(), NoMemory>
    ensures { OnOk result (Puts (string_bytes out.old) (string_bytes out.new) (canon.lay_tags false (view.exprs_tree tags.now))) }
{
    for i in 0..tags.len() {
        put_spaced(out, i > 0)?;
        put_expr(out, &tags[i], WHOLE)?;
    }
    Ok(())
}

/// An expression at a place. It has parentheses where it binds more weakly than its place asks.
#[cycle(expr)]
pub fn put_expr(out: &mut String, e: &Expr, place: u8) -> Result<(), NoMemory>
    ensures { OnOk result (Puts (string_bytes out.old) (string_bytes out.new) (canon.lay (view.expr_tree e.now) place)) }
{
    put_kind(out, &e.kind, place)
}

#[cycle(expr)]
fn put_kind(out: &mut String, kind: &ExprKind, place: u8) -> Result<(), NoMemory>
    ensures { OnOk result (Puts (string_bytes out.old) (string_bytes out.new) (canon.lay_form (view.expr_form kind.now) place)) }
{
    match kind {
        ExprKind::Binary { op, left, right } => put_binary(out, *op, left, right, place),
        ExprKind::Unary { op, of } => put_unary(out, *op, of, place),
        ExprKind::Field { of, field } => {
            put_expr(out, of, OPERAND)?;
            put(out, ".")?;
            put_name(out, field)
        }
        ExprKind::Element { of, index } => {
            put_expr(out, of, OPERAND)?;
            put(out, "[")?;
            put_expr(out, index, WHOLE)?;
            put(out, "]")
        }
        ExprKind::Number(n) => put_number(out, *n),
        ExprKind::Text(bytes) => put_text(out, bytes),
        ExprKind::Bool(b) => put(out, truth(*b)),
        ExprKind::Null => put(out, "null"),
        ExprKind::Name(x) => put(out, x.as_str()),
        ExprKind::Call { name, args } => put_call(out, name, args),
        ExprKind::NewClass { class } => put_new_class(out, class),
        ExprKind::NewArray { element, length } => put_new_array(out, element, length),
        ExprKind::LabelOf { s, i } => put_label(out, s, i),
        ExprKind::CapsOf(caps) => put_caps_of(out, caps),
        ExprKind::Spawn {
            caps,
            function,
            args,
        } => put_spawn(out, caps, function, args),
    }
}

#[cycle(expr)]
fn put_binary(
    out: &mut String,
    op: BinaryOp,
    left: &Expr,
    right: &Expr,
    place: u8,
) -> Result<(), NoMemory>
    ensures { OnOk result (Puts (string_bytes out.old) (string_bytes out.new) (canon.lay_form (view.binary_expr op (view.expr_tree left.now) (view.expr_tree right.now)) place)) }
{
    let group = place < weight(op);
    open_group(out, group)?;
    put_expr(out, left, left_place(op))?;
    put_operator(out, op)?;
    put_expr(out, right, right_place(op))?;
    close_group(out, group)
}

#[cycle(expr)]
fn put_unary(out: &mut String, op: UnaryOp, of: &Expr, place: u8) -> Result<(), NoMemory>
    ensures { OnOk result (Puts (string_bytes out.old) (string_bytes out.new) (canon.lay_form (view.unary_expr op (view.expr_tree of.now)) place)) }
{
    let group = place < PREFIXED;
    open_group(out, group)?;
    put(out, sign(op))?;
    put_expr(out, of, PREFIXED)?;
    close_group(out, group)
}

/// A call. As every form below, it is an operand, and has no parentheses at any place.
#[cycle(expr)]
fn put_call(out: &mut String, name: &Id, args: &[Expr]) -> Result<(), NoMemory>
    ensures { OnOk result (Puts (string_bytes out.old) (string_bytes out.new) (canon.lay_form (view.call_expr (view.id_tree name.now) (view.exprs_tree args.now)) canon.before_postfix)) }
{
    put_name(out, name)?;
    put(out, "(")?;
    put_args(out, args)?;
    put(out, ")")
}

#[cycle(expr)]
fn put_new_array(out: &mut String, element: &TypeExpr, length: &Expr) -> Result<(), NoMemory>
    ensures { OnOk result (Puts (string_bytes out.old) (string_bytes out.new) (canon.lay_form (view.new_array_expr (view.type_tree element.now) (view.expr_tree length.now)) canon.before_postfix)) }
{
    put(out, "new [")?;
    put_type(out, element)?;
    put(out, "](")?;
    put_expr(out, length, WHOLE)?;
    put(out, ")")
}

#[cycle(expr)]
fn put_label(out: &mut String, s: &[Expr], i: &[Expr]) -> Result<(), NoMemory>
    ensures { OnOk result (Puts (string_bytes out.old) (string_bytes out.new) (canon.lay_form (view.label_expr (view.exprs_tree s.now) (view.exprs_tree i.now)) canon.before_postfix)) }
{
    put(out, "label{")?;
    put_args(out, s)?;
    put(out, ";")?;
    put_tags(out, i)?;
    put(out, "}")
}

#[cycle(expr)]
fn put_spawn(out: &mut String, caps: &Expr, function: &Id, args: &[Expr]) -> Result<(), NoMemory>
    ensures { OnOk result (Puts (string_bytes out.old) (string_bytes out.new) (canon.lay_form (view.spawn_expr (view.expr_tree caps.now) (view.id_tree function.now) (view.exprs_tree args.now)) canon.before_postfix)) }
{
    put(out, "spawn(")?;
    put_expr(out, caps, WHOLE)?;
    put(out, ") ")?;
    put_call(out, function, args)
}
