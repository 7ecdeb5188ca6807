//! Constructors of the tree nodes of primary expressions.
//!
//! Each function says which tree of `lam_syntax` its node is seen as.

ghost use Rattle.std.specs.Prelude.{◌≡◌, IfOk, string_bytes};
ghost use Rattle.lam_syntax.specs.Tree as view;
ghost use Rattle.lam_grammar.specs.Meaning.{spelt, id_of, literal_form, is_plus};

use lam_lexer::{Token, TokenKind};
use lam_parser_tokens::name_of;
use lam_syntax::{CapItem, Expr, ExprKind, TypeExpr};
use std::alloc::{AllocError, Global};
use want_of_memory::NoMemory;

/// The text of an identifier. Other tokens have none.
fn spelling(alloc: Global, kind: &TokenKind) -> Result<String, NoMemory>
    ensures { IfOk result (λ s. string_bytes s ≡ spelt kind.now) }
{
    match kind {
        TokenKind::Id(name) => Ok(String::from_str(alloc, name.as_str())?),
        _ => Ok(String::new(alloc)),
    }
}

/// The value that a literal is.
fn literal_kind(alloc: Global, kind: &TokenKind) -> Result<ExprKind, NoMemory>
    ensures { IfOk result (λ k. view.expr_form k ≡ literal_form kind.now) }
{
    match kind {
        TokenKind::Number(n) => Ok(ExprKind::Number(*n)),
        TokenKind::Text(text) => Ok(ExprKind::Text(Vec::from_slice(alloc, text.bytes())?)),
        TokenKind::True => Ok(ExprKind::Bool(true)),
        TokenKind::False => Ok(ExprKind::Bool(false)),
        _ => Ok(ExprKind::Null),
    }
}

/// A literal, at its position.
pub fn make_literal(alloc: Global, token: &Token) -> Result<Box<Expr>, NoMemory>
    ensures { IfOk result (λ e. view.expr_tree e.value ≡ view.expr_node token.now.at (literal_form token.now.kind)) }
{
    let kind = literal_kind(alloc, &token.kind)?;
    Ok(make_node(alloc, token.at, kind)?)
}

/// A name as an expression.
pub fn make_name(alloc: Global, token: &Token) -> Result<Box<Expr>, NoMemory>
    ensures { IfOk result (λ e. view.expr_tree e.value ≡ view.expr_node token.now.at (view.name_expr (spelt token.now.kind))) }
{
    let name = spelling(alloc, &token.kind)?;
    Ok(make_node(alloc, token.at, ExprKind::Name(name))?)
}

/// A call, at the position of the name of its function.
pub fn make_call(alloc: Global, name: &Token, args: Vec<Expr>) -> Result<Box<Expr>, NoMemory>
    ensures { IfOk result (λ e. view.expr_tree e.value ≡ view.expr_node name.now.at (view.call_expr (id_of name.now) (view.exprs_tree args.items))) }
{
    let at = name.at;
    let name = name_of(alloc, name)?;
    let args = fitted(args);
    Ok(make_node(alloc, at, ExprKind::Call { name, args })?)
}

/// Arguments in no more room than they take: they stand as long as the program, and most calls have one or two.
fn fitted(mut args: Vec<Expr>) -> Vec<Expr>
    ensures { result.items ≡ args.items }
{
    args.shrink_to_fit();
    args
}

/// A node at a position.
pub fn make_node(alloc: Global, at: u64, kind: ExprKind) -> Result<Box<Expr>, AllocError>
    ensures { IfOk result (λ e. view.expr_tree e.value ≡ view.expr_node at (view.expr_form kind)) }
{
    Ok(Box::new(alloc, Expr { at, kind })?)
}

/// `new [element](length)`.
pub fn array_kind(element: TypeExpr, length: Box<Expr>) -> ExprKind
    ensures { view.expr_form result ≡ view.new_array_expr (view.type_tree element) (view.expr_tree length.value) }
{
    ExprKind::NewArray { element, length }
}

/// `label{s; i}`, from a position on.
pub fn make_label(
    alloc: Global,
    at: u64,
    s: Vec<Expr>,
    i: Vec<Expr>,
) -> Result<Box<Expr>, AllocError>
    ensures { IfOk result (λ e. view.expr_tree e.value ≡ view.expr_node at (view.label_expr (view.exprs_tree s.items) (view.exprs_tree i.items))) }
{
    make_node(alloc, at, ExprKind::LabelOf { s, i })
}

/// `caps{..}`, from a position on.
pub fn make_caps(alloc: Global, at: u64, items: Vec<CapItem>) -> Result<Box<Expr>, AllocError>
    ensures { IfOk result (λ e. view.expr_tree e.value ≡ view.expr_node at (view.caps_expr (view.caps_tree items.items))) }
{
    make_node(alloc, at, ExprKind::CapsOf(items))
}

/// A tag and its sign, in the braces of `caps`.
pub fn make_cap(alloc: Global, name: &Token, sign: &Token) -> Result<CapItem, NoMemory>
    ensures { IfOk result (λ c. view.cap_tree c ≡ record { name = id_of name.now; plus = is_plus sign.now.kind }) }
{
    Ok(CapItem {
        name: name_of(alloc, name)?,
        plus: matches!(sign.kind, TokenKind::Plus),
    })
}

/// `spawn(caps) function(args)`, from a position on.
pub fn make_spawn(
    alloc: Global,
    at: u64,
    caps: Box<Expr>,
    function: &Token,
    args: Vec<Expr>,
) -> Result<Box<Expr>, NoMemory>
    ensures { IfOk result (λ e. view.expr_tree e.value ≡ view.expr_node at (view.spawn_expr (view.expr_tree caps.value) (id_of function.now) (view.exprs_tree args.items))) }
{
    let function = Box::new(alloc, name_of(alloc, function)?)?;
    let kind = ExprKind::Spawn {
        caps,
        function,
        args,
    };
    Ok(make_node(alloc, at, kind)?)
}
