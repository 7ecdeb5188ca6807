//! Primary expressions: literals, parentheses, names, calls, and the forms of `new`, `label`, `caps` and `spawn`.
//!
//! `primary` looks at one token and chooses the form, and each form has a function. Lists of arguments and of tags are
//! loops, so only nested expressions recurse, which the limit of the depth sum bounds.

ghost use Rattle.std.specs.Prelude.{◌≡◌, true, false, ◌<◌, ◌≤◌, ◌+◌, length, slice_get, IfOk};
ghost use Rattle.lam_grammar.specs.Table as table;
ghost use Rattle.lam_parser_tokens.specs.Classes.{fits_at};
ghost use Rattle.lam_parser_tokens.specs.Reading.{ReadsExpr};
ghost use Rattle.lam_parser_tokens.specs.declared.marks.Mark.TheVariants as mark;
ghost use Rattle.lam_parser_parts.specs.Forms.{form_of};
ghost use Rattle.lam_parser_parts.specs.Parts.{ReadsArgs, ReadsForm};
ghost use Rattle.lam_parser_parts.specs.declared.primary.Form.TheVariants as form;
ghost use Rattle.lam_grammar.specs.Program.{most_depth};

use crate::operators::expression;
use lam_lexer::Token;
use lam_parser_parts::{
    Form, array_kind, caps_of, form_at, literal, make_call, make_label, make_name, make_node,
    make_spawn, new_class, typ,
};
use lam_parser_tokens::{
    Break, Mark, Read, Wanted, begins_expression, name_of, next_is, take, take_if,
};
use lam_syntax::{Expr, ExprKind};
use std::alloc::Global;

/// An expression without operators and postfix parts.
///
/// # Errors
///
/// `Unexpected` at the first token that goes on no such expression, `TooDeep` where the depth sum passes its limit,
/// `NoMemory` where memory is refused.
#[cycle(expression)]
pub fn primary(alloc: Global, tokens: &[Token], at: usize, depth: u64) -> Result<Read, Break>
    requires in_range { at ≤ length tokens.now }
    ensures reads { ReadsExpr tokens.now table.prim depth at result }
    ensures goes_on { IfOk result (λ x. (at < x.next) × (x.next ≤ length tokens.now)) }
    ensures depth { IfOk result (λ x. x.depth ≡ depth) }
{
    match form_at(tokens, at) {
        Form::Literal => literal(alloc, tokens, at, depth),
        Form::Parens => parens(alloc, tokens, at, depth),
        Form::Name => named(alloc, tokens, at, depth),
        Form::New => created(alloc, tokens, at, depth),
        Form::Label => label_of(alloc, tokens, at, depth),
        Form::Caps => caps_of(alloc, tokens, at, depth),
        Form::Spawn => spawned(alloc, tokens, at, depth),
        Form::Other => Err(Break::Unexpected {
            at,
            wanted: Wanted::Expression,
        }),
    }
}

/// An expression in parentheses. It begins at the opening one, of which its tree has nothing.
#[cycle(expression)]
pub fn parens(alloc: Global, tokens: &[Token], at: usize, depth: u64) -> Result<Read, Break>
    ensures reads { ReadsExpr tokens.now table.parens depth at result }
    ensures goes_on { IfOk result (λ x. (at < x.next) × (x.next ≤ length tokens.now)) }
    ensures depth { IfOk result (λ x. x.depth ≡ depth) }
{
    let open = take(tokens, at, depth, Mark::ParenOpen)?;
    let inner = expression(alloc, tokens, at + 1, depth)?;
    let _close = take(tokens, inner.next, depth, Mark::ParenClose)?;
    Ok(Read {
        expr: inner.expr,
        begin: open.at,
        next: inner.next + 1,
        depth,
    })
}

/// A name, or a call of the function of that name.
#[cycle(expression)]
fn named(alloc: Global, tokens: &[Token], at: usize, depth: u64) -> Result<Read, Break>
    requires begins { form_of (slice_get tokens.now at) ≡ form.Name }
    ensures reads { ReadsExpr tokens.now table.prim depth at result }
    ensures goes_on { IfOk result (λ x. (at < x.next) × (x.next ≤ length tokens.now)) }
    ensures depth { IfOk result (λ x. x.depth ≡ depth) }
{
    let name = take(tokens, at, depth, Mark::Name)?;
    let behind = at + 1;
    if !next_is(tokens, behind, Mark::ParenOpen) {
        let expr = make_name(alloc, name)?;
        return Ok(Read {
            expr,
            begin: name.at,
            next: behind,
            depth,
        });
    }
    let (args, next) = arguments(alloc, tokens, behind, depth)?;
    let expr = make_call(alloc, name, args)?;
    Ok(Read {
        expr,
        begin: name.at,
        next,
        depth,
    })
}

/// Arguments in parentheses, and the place behind them.
#[cycle(expression)]
pub fn arguments(
    alloc: Global,
    tokens: &[Token],
    at: usize,
    depth: u64,
) -> Result<(Vec<Expr>, usize), Break>
    ensures reads { ReadsArgs tokens.now table.arguments depth at result }
    ensures goes_on { IfOk result (λ x. (at < x.1) × (x.1 ≤ length tokens.now)) }
{
    let _open = take(tokens, at, depth, Mark::ParenOpen)?;
    let (args, next) = list(alloc, tokens, at + 1, depth)?;
    let _close = take(tokens, next, depth, Mark::ParenClose)?;
    Ok((args, next + 1))
}

/// Expressions with a comma between each two, or none, and the place behind them.
#[cycle(expression)]
fn list(alloc: Global, tokens: &[Token], at: usize, depth: u64) -> Result<(Vec<Expr>, usize), Break>
    requires in_range { at ≤ length tokens.now }
    requires bounded { depth ≤ most_depth }
    ensures reads { ReadsArgs tokens.now table.args depth at result }
    ensures goes_on { IfOk result (λ x. (at ≤ x.1) × (x.1 ≤ length tokens.now)) }
{
    let mut args = Vec::new(alloc);
    if !begins_expression(tokens, at) {
        return Ok((args, at));
    }
    let first = expression(alloc, tokens, at, depth)?;
    args.push(Box::into_inner(first.expr))?;
    let mut next = first.next;
    while let Some(_comma) = take_if(tokens, next, depth, Mark::Comma)? {
        let arg = expression(alloc, tokens, next + 1, depth)?;
        args.push(Box::into_inner(arg.expr))?;
        next = arg.next;
    }
    Ok((args, next))
}

/// `new` with a class or an array.
#[cycle(expression)]
fn created(alloc: Global, tokens: &[Token], at: usize, depth: u64) -> Result<Read, Break>
    requires begins { form_of (slice_get tokens.now at) ≡ form.New }
    ensures reads { ReadsExpr tokens.now table.prim depth at result }
    ensures goes_on { IfOk result (λ x. (at < x.next) × (x.next ≤ length tokens.now)) }
    ensures depth { IfOk result (λ x. x.depth ≡ depth) }
{
    let word = take(tokens, at, depth, Mark::New)?;
    let (kind, next) = new_part(alloc, tokens, at + 1, depth)?;
    let expr = make_node(alloc, word.at, kind)?;
    Ok(Read {
        expr,
        begin: word.at,
        next,
        depth,
    })
}

/// What stands behind `new`, and the place behind it.
#[cycle(expression)]
fn new_part(
    alloc: Global,
    tokens: &[Token],
    at: usize,
    depth: u64,
) -> Result<(ExprKind, usize), Break>
    ensures reads { ReadsForm tokens.now table.new_part depth at result }
    ensures goes_on { IfOk result (λ x. (at < x.1) × (x.1 ≤ length tokens.now)) }
{
    if next_is(tokens, at, Mark::Name) {
        return new_class(alloc, tokens, at, depth);
    }
    if next_is(tokens, at, Mark::BracketOpen) {
        return new_array(alloc, tokens, at, depth);
    }
    Err(Break::Unexpected {
        at,
        wanted: Wanted::Name,
    })
}

#[cycle(expression)]
fn new_array(
    alloc: Global,
    tokens: &[Token],
    at: usize,
    depth: u64,
) -> Result<(ExprKind, usize), Break>
    requires begins { fits_at mark.BracketOpen (slice_get tokens.now at) ≡ true }
    requires no_name { fits_at mark.Name (slice_get tokens.now at) ≡ false }
    ensures reads { ReadsForm tokens.now table.new_part depth at result }
    ensures goes_on { IfOk result (λ x. (at < x.1) × (x.1 ≤ length tokens.now)) }
{
    let _open = take(tokens, at, depth, Mark::BracketOpen)?;
    let (element, close) = typ(alloc, tokens, at + 1, depth)?;
    let _close = take(tokens, close, depth, Mark::BracketClose)?;
    let length = parens(alloc, tokens, close + 1, depth)?;
    Ok((array_kind(element, length.expr), length.next))
}

/// `label` with the tags for secrecy and those for integrity.
#[cycle(expression)]
fn label_of(alloc: Global, tokens: &[Token], at: usize, depth: u64) -> Result<Read, Break>
    requires begins { form_of (slice_get tokens.now at) ≡ form.Label }
    ensures reads { ReadsExpr tokens.now table.prim depth at result }
    ensures goes_on { IfOk result (λ x. (at < x.next) × (x.next ≤ length tokens.now)) }
    ensures depth { IfOk result (λ x. x.depth ≡ depth) }
{
    let word = take(tokens, at, depth, Mark::Label)?;
    let open = at + 1;
    let _open = take(tokens, open, depth, Mark::BraceOpen)?;
    let (s, middle) = list(alloc, tokens, open + 1, depth)?;
    let _semicolon = take(tokens, middle, depth, Mark::Semicolon)?;
    let (i, close) = list(alloc, tokens, middle + 1, depth)?;
    let _close = take(tokens, close, depth, Mark::BraceClose)?;
    let expr = make_label(alloc, word.at, s, i)?;
    Ok(Read {
        expr,
        begin: word.at,
        next: close + 1,
        depth,
    })
}

/// `spawn` with the capabilities of the new thread and the call that it begins with.
#[cycle(expression)]
fn spawned(alloc: Global, tokens: &[Token], at: usize, depth: u64) -> Result<Read, Break>
    requires begins { form_of (slice_get tokens.now at) ≡ form.Spawn }
    ensures reads { ReadsExpr tokens.now table.prim depth at result }
    ensures goes_on { IfOk result (λ x. (at < x.next) × (x.next ≤ length tokens.now)) }
    ensures depth { IfOk result (λ x. x.depth ≡ depth) }
{
    let word = take(tokens, at, depth, Mark::Spawn)?;
    let caps = parens(alloc, tokens, at + 1, depth)?;
    let function = take(tokens, caps.next, depth, Mark::Name)?;
    let (args, next) = arguments(alloc, tokens, caps.next + 1, depth)?;
    let expr = make_spawn(alloc, word.at, caps.expr, function, args)?;
    Ok(Read {
        expr,
        begin: word.at,
        next,
        depth,
    })
}
