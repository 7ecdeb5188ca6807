//! The parser of `let`, `return`, `throw`, expression statements, assignments and region heads.

ghost use Rattle.std.specs.Prelude.{◌≡◌, ◌<◌, ◌≤◌, length, slice_get, IfOk};
ghost use Rattle.lam_syntax.specs.Tree.{expr_tree};
ghost use Rattle.lam_grammar.specs.Table.{captures, expr};
ghost use Rattle.lam_grammar.specs.Meaning.{expr_value, is_place};
ghost use Rattle.lam_parser_tokens.specs.Reading.{Gives, Taken};
ghost use Rattle.lam_parser_parts.specs.Variables.{ReadsNames};
ghost use Rattle.lam_parser_stmts.specs.Parts.{ReadsStmt, ReadsRegionHead, NoWord};
ghost use Rattle.lam_grammar.specs.Program.{most_depth};

use crate::nodes::{make_assign, make_do, make_let, make_return, make_throw};
use lam_lexer::Token;
use lam_parser_exprs::expression;
use lam_parser_parts::{names, variable};
use lam_parser_tokens::{Break, Mark, Read, Wanted, begins_expression, take, take_if};
use lam_syntax::{Expr, ExprKind, Id, Stmt};
use std::alloc::Global;

/// A statement that was read, and the token after it.
pub type ReadStmt = (Stmt, usize);

/// `let name: type = value;`
pub fn let_statement(
    alloc: Global,
    tokens: &[Token],
    at: usize,
    depth: u64,
    word: &Token,
) -> Result<ReadStmt, Break>
    requires in_range { at ≤ length tokens.now }
    requires bounded { depth ≤ most_depth }
    requires begun { Taken tokens.now depth at Mark.Let word.now }
    ensures reads { ReadsStmt tokens.now depth at result }
    ensures goes_on { IfOk result (λ x. (at < x.1) × (x.1 ≤ length tokens.now)) }
{
    let (var, equals) = variable(alloc, tokens, at + 1, depth)?;
    take(tokens, equals, depth, Mark::Assign)?;
    let value = expression(alloc, tokens, equals + 1, depth)?;
    take(tokens, value.next, depth, Mark::Semicolon)?;
    Ok((make_let(word.at, var, value.expr), value.next + 1))
}

/// `return value;`, or `return;`
pub fn return_statement(
    alloc: Global,
    tokens: &[Token],
    at: usize,
    depth: u64,
    word: &Token,
) -> Result<ReadStmt, Break>
    requires in_range { at ≤ length tokens.now }
    requires bounded { depth ≤ most_depth }
    requires begun { Taken tokens.now depth at Mark.Return word.now }
    ensures reads { ReadsStmt tokens.now depth at result }
    ensures goes_on { IfOk result (λ x. (at < x.1) × (x.1 ≤ length tokens.now)) }
{
    let after_word = at + 1;
    if !begins_expression(tokens, after_word) {
        take(tokens, after_word, depth, Mark::Semicolon)?;
        return Ok((make_return(word.at, None), after_word + 1));
    }
    let value = expression(alloc, tokens, after_word, depth)?;
    take(tokens, value.next, depth, Mark::Semicolon)?;
    Ok((
        make_return(word.at, Some(Box::into_inner(value.expr))),
        value.next + 1,
    ))
}

/// `throw value;`
pub fn throw_statement(
    alloc: Global,
    tokens: &[Token],
    at: usize,
    depth: u64,
    word: &Token,
) -> Result<ReadStmt, Break>
    requires in_range { at ≤ length tokens.now }
    requires bounded { depth ≤ most_depth }
    requires begun { Taken tokens.now depth at Mark.Throw word.now }
    ensures reads { ReadsStmt tokens.now depth at result }
    ensures goes_on { IfOk result (λ x. (at < x.1) × (x.1 ≤ length tokens.now)) }
{
    let value = expression(alloc, tokens, at + 1, depth)?;
    take(tokens, value.next, depth, Mark::Semicolon)?;
    Ok((make_throw(word.at, value.expr), value.next + 1))
}

/// The head of a region that was read, and the token after it.
#[derive(Drop)]
pub struct RegionHead {
    pub label: Box<Expr>,
    pub caps: Box<Expr>,
    pub next: usize,
}

/// `(label, caps)`
pub fn region_head(
    alloc: Global,
    tokens: &[Token],
    at: usize,
    depth: u64,
) -> Result<RegionHead, Break>
    requires in_range { at ≤ length tokens.now }
    requires bounded { depth ≤ most_depth }
    ensures reads { ReadsRegionHead tokens.now depth at result }
    ensures goes_on { IfOk result (λ x. (at < x.next) × (x.next ≤ length tokens.now)) }
{
    take(tokens, at, depth, Mark::ParenOpen)?;
    let label = expression(alloc, tokens, at + 1, depth)?;
    take(tokens, label.next, depth, Mark::Comma)?;
    let caps = expression(alloc, tokens, label.next + 1, depth)?;
    take(tokens, caps.next, depth, Mark::ParenClose)?;
    Ok(RegionHead {
        label: label.expr,
        caps: caps.expr,
        next: caps.next + 1,
    })
}

/// `[names]`
pub fn captures(
    alloc: Global,
    tokens: &[Token],
    at: usize,
    depth: u64,
) -> Result<(Vec<Id>, usize), Break>
    requires in_range { at ≤ length tokens.now }
    requires bounded { depth ≤ most_depth }
    ensures reads { ReadsNames tokens.now captures depth at result }
    ensures goes_on { IfOk result (λ x. (at < x.1) × (x.1 ≤ length tokens.now)) }
{
    take(tokens, at, depth, Mark::BracketOpen)?;
    let (all, next) = names(alloc, tokens, at + 1, depth)?;
    take(tokens, next, depth, Mark::BracketClose)?;
    Ok((all, next + 1))
}

/// `value;`, or `place = value;`
pub fn expression_statement(
    alloc: Global,
    tokens: &[Token],
    at: usize,
    depth: u64,
) -> Result<ReadStmt, Break>
    requires in_range { at ≤ length tokens.now }
    requires bounded { depth ≤ most_depth }
    requires begun { NoWord tokens.now at }
    ensures reads { ReadsStmt tokens.now depth at result }
    ensures goes_on { IfOk result (λ x. (at < x.1) × (x.1 ≤ length tokens.now)) }
{
    let left = expression(alloc, tokens, at, depth)?;
    if let Some(equals) = take_if(tokens, left.next, depth, Mark::Assign)? {
        return assignment(alloc, tokens, at, depth, left, equals);
    }
    take(tokens, left.next, depth, Mark::Semicolon)?;
    let next = left.next + 1;
    Ok((make_do(left), next))
}

/// ` = value;` behind a place.
fn assignment(
    alloc: Global,
    tokens: &[Token],
    at: usize,
    depth: u64,
    left: Read,
    equals: &Token,
) -> Result<ReadStmt, Break>
    requires in_range { left.next < length tokens.now }
    requires bounded { depth ≤ most_depth }
    requires begun { NoWord tokens.now at }
    requires left { Gives (slice_get tokens.now) expr depth at (expr_value left.begin (expr_tree left.expr.value)) left.next depth }
    requires behind { at < left.next }
    requires equals { Taken tokens.now depth left.next Mark.Assign equals.now }
    ensures reads { ReadsStmt tokens.now depth at result }
    ensures goes_on { IfOk result (λ x. (at < x.1) × (x.1 ≤ length tokens.now)) }
{
    if !is_place(&left.expr) {
        return Err(Break::Unexpected {
            at: left.next,
            wanted: Wanted::Place,
        });
    }
    let value = expression(alloc, tokens, left.next + 1, depth)?;
    take(tokens, value.next, depth, Mark::Semicolon)?;
    Ok((make_assign(left, value.expr), value.next + 1))
}

/// Names, fields and elements are places.
fn is_place(e: &Expr) -> bool
    ensures { result ≡ is_place (expr_tree e.now) }
{
    matches!(
        e.kind,
        ExprKind::Name(_) | ExprKind::Field { .. } | ExprKind::Element { .. }
    )
}
