//! Constructors of the tree nodes of operators, prefixes and postfix parts.

ghost use Rattle.std.specs.Prelude.{◌≡◌, ◌+◌, ◌^◌, ◌<◌, ◌≤◌, length, IfOk, MatchResult};
ghost use Rattle.lam_syntax.specs.Tree.{expr_tree, expr_node, binary_expr, unary_expr, field_expr, element_expr, id_tree};
ghost use Rattle.lam_grammar.specs.Meaning as meaning;
ghost use Rattle.lam_grammar.specs.Program.{most_depth};
ghost use Rattle.lam_parser_tokens.specs.Reading.{TakeFails};
ghost use Rattle.lam_parser_parts.specs.Parts.{IsMember};

use crate::nodes::make_node;
use lam_lexer::{Token, TokenKind};
use lam_operators::{BinaryOp, UnaryOp};
use lam_parser_tokens::{Break, Mark, Read, name_of, take};
use lam_syntax::{Expr, ExprKind, Id};
use std::alloc::{AllocError, Global};

/// The operator that a token is.
pub fn binary_op(kind: &TokenKind) -> BinaryOp
    ensures { result ≡ meaning.binary_op kind.now }
{
    match kind {
        TokenKind::Or => BinaryOp::Or,
        TokenKind::And => BinaryOp::And,
        TokenKind::Equal => BinaryOp::Eq,
        TokenKind::NotEqual => BinaryOp::Ne,
        TokenKind::Less => BinaryOp::Lt,
        TokenKind::LessEqual => BinaryOp::Le,
        TokenKind::Greater => BinaryOp::Gt,
        TokenKind::GreaterEqual => BinaryOp::Ge,
        TokenKind::Plus => BinaryOp::Add,
        TokenKind::Minus => BinaryOp::Sub,
        TokenKind::Star => BinaryOp::Mul,
        TokenKind::Slash => BinaryOp::Div,
        _ => BinaryOp::Rem,
    }
}

/// The prefix that a token is.
pub fn unary_op(kind: &TokenKind) -> UnaryOp
    ensures { result ≡ meaning.unary_op kind.now }
{
    match kind {
        TokenKind::Not => UnaryOp::Not,
        _ => UnaryOp::Neg,
    }
}

/// Two operands with the operator between them.
pub fn joined(alloc: Global, left: Read, op: BinaryOp, right: Read) -> Result<Read, AllocError>
    ensures tree { IfOk result (λ x. expr_tree x.expr.value ≡ expr_node left.begin (binary_expr op (expr_tree left.expr.value) (expr_tree right.expr.value))) }
    ensures places { IfOk result (λ x. (x.begin ≡ left.begin) × (x.next ≡ right.next) × (x.depth ≡ right.depth)) }
{
    let begin = left.begin;
    let next = right.next;
    let depth = right.depth;
    let kind = ExprKind::Binary {
        op,
        left: left.expr,
        right: right.expr,
    };
    Ok(Read {
        expr: make_node(alloc, begin, kind)?,
        begin,
        next,
        depth,
    })
}

/// A prefix with what stands behind it, from a position on.
pub fn make_unary(
    alloc: Global,
    at: u64,
    op: UnaryOp,
    of: Box<Expr>,
) -> Result<Box<Expr>, AllocError>
    ensures { IfOk result (λ e. expr_tree e.value ≡ expr_node at (unary_expr op (expr_tree of.value))) }
{
    make_node(alloc, at, ExprKind::Unary { op, of })
}

/// What is read, with the field whose dot stands behind it.
///
/// # Errors
///
/// `Unexpected` where no name stands behind the dot, `TooDeep` where the depth sum passes its limit, `NoMemory` where
/// memory is refused.
pub fn member(alloc: Global, tokens: &[Token], of: Read) -> Result<Read, Break>
    requires in_range { of.next < length tokens.now }
    requires low { of.depth ≤ most_depth + 22 }
    ensures reads { MatchResult result (IsMember tokens.now of) (TakeFails tokens.now of.depth (of.next + 1) Mark.Member) }
    ensures within { IfOk result (λ x. x.next ≤ length tokens.now) }
{
    let token = take(tokens, of.next + 1, of.depth, Mark::Member)?;
    let field = name_of(alloc, token)?;
    Ok(with_field(alloc, of, field)?)
}

fn with_field(alloc: Global, of: Read, field: Id) -> Result<Read, AllocError>
    requires room { of.next + 2 < 2 ^ 64 }
    requires low { of.depth ≤ most_depth + 22 }
    ensures tree { IfOk result (λ x. expr_tree x.expr.value ≡ expr_node of.begin (field_expr (expr_tree of.expr.value) (id_tree field))) }
    ensures places { IfOk result (λ x. (x.begin ≡ of.begin) × (x.next ≡ of.next + 1 + 1) × (x.depth ≡ of.depth + 1)) }
{
    let begin = of.begin;
    let next = of.next + 1 + 1;
    let depth = of.depth + 1;
    let kind = ExprKind::Field { of: of.expr, field };
    Ok(Read {
        expr: make_node(alloc, begin, kind)?,
        begin,
        next,
        depth,
    })
}

/// What is read, with an index behind it.
pub fn element(alloc: Global, of: Read, index: Read) -> Result<Read, AllocError>
    requires room { index.next + 1 < 2 ^ 64 }
    requires low { of.depth ≤ most_depth + 22 }
    ensures tree { IfOk result (λ x. expr_tree x.expr.value ≡ expr_node of.begin (element_expr (expr_tree of.expr.value) (expr_tree index.expr.value))) }
    ensures places { IfOk result (λ x. (x.begin ≡ of.begin) × (x.next ≡ index.next + 1) × (x.depth ≡ of.depth + 1)) }
{
    let begin = of.begin;
    let next = index.next + 1;
    let depth = of.depth + 1;
    let kind = ExprKind::Element {
        of: of.expr,
        index: index.expr,
    };
    Ok(Read {
        expr: make_node(alloc, begin, kind)?,
        begin,
        next,
        depth,
    })
}
