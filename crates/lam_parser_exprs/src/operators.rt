//! Operator expressions: left-associative levels, comparisons, prefixes and postfix parts.

ghost use Rattle.std.specs.Prelude.{◌≡◌, ◌<◌, ◌≤◌, ◌+◌, length, IfOk, MatchResult};
ghost use Rattle.lam_grammar.specs.Table as table;
ghost use Rattle.lam_parser_tokens.specs.Reading.{ReadsExpr};
ghost use Rattle.lam_parser_parts.specs.Parts.{IsElement, IndexFails};
ghost use Rattle.lam_grammar.specs.Program.{most_depth};

use crate::primary::primary;
use lam_grammar::Level;
use lam_lexer::Token;
use lam_parser_parts::{binary_op, element, joined, make_unary, member, unary_op};
use lam_parser_tokens::{Break, Mark, Read, take, take_if};
use std::alloc::Global;

/// The expression that is written from a token on.
///
/// # Errors
///
/// `Unexpected` at the first token that continues no expression, `TooDeep` at the first at which the depth sum passes
/// its limit, `NoMemory` where memory is refused.
#[cycle(expression)]
pub fn expression(alloc: Global, tokens: &[Token], at: usize, depth: u64) -> Result<Read, Break>
    requires in_range { at ≤ length tokens.now }
    requires bounded { depth ≤ most_depth + 2 }
    ensures reads { ReadsExpr tokens.now table.expr depth at result }
    ensures goes_on { IfOk result (λ x. (at < x.next) × (x.next ≤ length tokens.now)) }
    ensures depth { IfOk result (λ x. x.depth ≡ depth) }
{
    let read = chain(alloc, tokens, at, depth + 1, Level::Or)?;
    Ok(Read {
        expr: read.expr,
        begin: read.begin,
        next: read.next,
        depth,
    })
}

// Operands of one level with the operators between them.
#[cycle(expression)]
fn chain(
    alloc: Global,
    tokens: &[Token],
    at: usize,
    depth: u64,
    level: Level,
) -> Result<Read, Break>
    requires in_range { at ≤ length tokens.now }
    requires bounded { depth ≤ most_depth + 12 }
    ensures reads { ReadsExpr tokens.now (table.chain level) depth at result }
    ensures goes_on { IfOk result (λ x. (at < x.next) × (x.next ≤ length tokens.now)) }
    ensures depth { IfOk result (λ x. x.depth ≤ most_depth + 22) }
{
    let mut left = operand(alloc, tokens, at, depth, level)?;
    while let Some(token) = take_if(tokens, left.next, left.depth, Mark::Operator(level))? {
        let op = binary_op(&token.kind);
        let right = operand(alloc, tokens, left.next + 1, left.depth + 1, level)?;
        left = joined(alloc, left, op, right)?;
    }
    Ok(left)
}

// One operand of a level.
#[cycle(expression)]
fn operand(
    alloc: Global,
    tokens: &[Token],
    at: usize,
    depth: u64,
    level: Level,
) -> Result<Read, Break>
    requires in_range { at ≤ length tokens.now }
    requires bounded { depth ≤ most_depth + 12 }
    ensures reads { ReadsExpr tokens.now (table.operand_rule level) depth at result }
    ensures goes_on { IfOk result (λ x. (at < x.next) × (x.next ≤ length tokens.now)) }
    ensures depth { IfOk result (λ x. x.depth ≤ most_depth + 22) }
{
    match level {
        Level::Or => chain(alloc, tokens, at, depth, Level::And),
        Level::And => comparison(alloc, tokens, at, depth),
        Level::Sum => chain(alloc, tokens, at, depth, Level::Term),
        Level::Term => unary(alloc, tokens, at, depth),
    }
}

// Sums with at most one comparison between two.
#[cycle(expression)]
fn comparison(alloc: Global, tokens: &[Token], at: usize, depth: u64) -> Result<Read, Break>
    requires in_range { at ≤ length tokens.now }
    requires bounded { depth ≤ most_depth + 12 }
    ensures reads { ReadsExpr tokens.now table.comparison depth at result }
    ensures goes_on { IfOk result (λ x. (at < x.next) × (x.next ≤ length tokens.now)) }
    ensures depth { IfOk result (λ x. x.depth ≤ most_depth + 22) }
{
    let left = chain(alloc, tokens, at, depth, Level::Sum)?;
    let Some(token) = take_if(tokens, left.next, left.depth, Mark::Comparison)? else {
        return Ok(left);
    };
    let op = binary_op(&token.kind);
    let right = chain(alloc, tokens, left.next + 1, left.depth + 1, Level::Sum)?;
    Ok(joined(alloc, left, op, right)?)
}

// Prefixes, and what stands behind them.
#[cycle(expression)]
fn unary(alloc: Global, tokens: &[Token], at: usize, depth: u64) -> Result<Read, Break>
    requires in_range { at ≤ length tokens.now }
    requires bounded { depth ≤ most_depth + 12 }
    ensures reads { ReadsExpr tokens.now table.unary depth at result }
    ensures goes_on { IfOk result (λ x. (at < x.next) × (x.next ≤ length tokens.now)) }
    ensures depth { IfOk result (λ x. x.depth ≡ depth) }
{
    let inner = depth + 1;
    if let Some(token) = take_if(tokens, at, inner, Mark::Prefix)? {
        let op = unary_op(&token.kind);
        let of = unary(alloc, tokens, at + 1, inner + 1)?;
        return Ok(Read {
            expr: make_unary(alloc, token.at, op, of.expr)?,
            begin: token.at,
            next: of.next,
            depth,
        });
    }
    let read = postfix(alloc, tokens, at, inner)?;
    Ok(Read {
        expr: read.expr,
        begin: read.begin,
        next: read.next,
        depth,
    })
}

// A primary expression with its postfix parts.
#[cycle(expression)]
fn postfix(alloc: Global, tokens: &[Token], at: usize, depth: u64) -> Result<Read, Break>
    requires in_range { at ≤ length tokens.now }
    requires bounded { depth ≤ most_depth + 17 }
    ensures reads { ReadsExpr tokens.now table.post depth at result }
    ensures goes_on { IfOk result (λ x. (at < x.next) × (x.next ≤ length tokens.now)) }
    ensures depth { IfOk result (λ x. x.depth ≤ most_depth + 22) }
{
    let mut of = primary(alloc, tokens, at, depth)?;
    loop {
        if let Some(_dot) = take_if(tokens, of.next, of.depth, Mark::Dot)? {
            of = member(alloc, tokens, of)?;
            continue;
        }
        let Some(_bracket) = take_if(tokens, of.next, of.depth, Mark::BracketOpen)? else {
            return Ok(of);
        };
        of = indexed(alloc, tokens, of)?;
    }
}

// What is read, with the index whose bracket stands behind it.
#[cycle(expression)]
fn indexed(alloc: Global, tokens: &[Token], of: Read) -> Result<Read, Break>
    requires in_range { of.next < length tokens.now }
    requires bounded { of.depth ≤ most_depth }
    ensures reads { MatchResult result (IsElement tokens.now of) (IndexFails tokens.now of) }
    ensures within { IfOk result (λ x. x.next ≤ length tokens.now) }
{
    let index = expression(alloc, tokens, of.next + 1, of.depth)?;
    let _close = take(tokens, index.next, of.depth, Mark::IndexClose)?;
    Ok(element(alloc, of, index)?)
}
