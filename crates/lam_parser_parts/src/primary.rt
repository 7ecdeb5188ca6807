//! Primary expressions without nested ones (literals, `caps`, `new` with a class), and all forms.

ghost use Rattle.std.specs.Prelude.{◌≡◌, true, ◌<◌, ◌≤◌, length, slice_get, IfOk};
ghost use Rattle.lam_grammar.specs.Table as table;
ghost use Rattle.lam_parser_tokens.specs.Classes.{fits_at};
ghost use Rattle.lam_parser_tokens.specs.Reading.{ReadsExpr};
ghost use Rattle.lam_parser_tokens.specs.declared.marks.Mark.TheVariants as mark;
ghost use Rattle.lam_parser_parts.specs.Forms.{form_of, kind_form};
ghost use Rattle.lam_parser_parts.specs.Parts.{ReadsCaps, ReadsCap, ReadsForm};
ghost use Rattle.lam_parser_parts.specs.declared.primary.Form.TheVariants as form;

use crate::nodes::{make_cap, make_caps, make_literal};
use lam_lexer::{Token, TokenKind};
use lam_parser_tokens::{Break, Mark, Read, name_of, next_is, take, take_if};
use lam_syntax::{CapItem, ExprKind};
use std::alloc::Global;

/// The forms of a primary expression, by the token with which it begins.
#[derive(Clone, Copy, Drop)]
pub enum Form {
    Literal,
    Parens,
    /// a name, or a call
    Name,
    New,
    Label,
    Caps,
    Spawn,
    /// The token begins no expression.
    Other,
}

fn form_of_kind(kind: &TokenKind) -> Form
    ensures { result ≡ kind_form kind.now }
{
    match kind {
        TokenKind::Number(_)
        | TokenKind::Text(_)
        | TokenKind::True
        | TokenKind::False
        | TokenKind::Null => Form::Literal,
        TokenKind::ParenOpen => Form::Parens,
        TokenKind::Id(_) => Form::Name,
        TokenKind::New => Form::New,
        TokenKind::Label => Form::Label,
        TokenKind::Caps => Form::Caps,
        TokenKind::Spawn => Form::Spawn,
        _ => Form::Other,
    }
}

/// The form that the token at an index begins.
pub fn form_at(tokens: &[Token], at: usize) -> Form
    ensures { result ≡ form_of (slice_get tokens.now at) }
{
    match tokens.get(at) {
        Some(token) => form_of_kind(&token.kind),
        None => Form::Other,
    }
}

/// A literal.
pub fn literal(alloc: Global, tokens: &[Token], at: usize, depth: u64) -> Result<Read, Break>
    requires begins { form_of (slice_get tokens.now at) ≡ form.Literal }
    ensures reads { ReadsExpr tokens.now table.prim depth at result }
    ensures goes_on { IfOk result (λ x. (at < x.next) × (x.next ≤ length tokens.now)) }
    ensures depth { IfOk result (λ x. x.depth ≡ depth) }
{
    let token = take(tokens, at, depth, Mark::Literal)?;
    let expr = make_literal(alloc, token)?;
    Ok(Read {
        expr,
        begin: token.at,
        next: at + 1,
        depth,
    })
}

/// The class behind `new`, with its parentheses, and the place behind it.
pub fn new_class(
    alloc: Global,
    tokens: &[Token],
    at: usize,
    depth: u64,
) -> Result<(ExprKind, usize), Break>
    requires begins { fits_at mark.Name (slice_get tokens.now at) ≡ true }
    ensures reads { ReadsForm tokens.now table.new_part depth at result }
    ensures goes_on { IfOk result (λ x. (at < x.1) × (x.1 ≤ length tokens.now)) }
{
    let name = take(tokens, at, depth, Mark::Name)?;
    let open = at + 1;
    let _open = take(tokens, open, depth, Mark::ParenOpen)?;
    let close = open + 1;
    let _close = take(tokens, close, depth, Mark::ParenClose)?;
    let class = name_of(alloc, name)?;
    Ok((ExprKind::NewClass { class }, close + 1))
}

/// `caps` with tags and their signs.
pub fn caps_of(alloc: Global, tokens: &[Token], at: usize, depth: u64) -> Result<Read, Break>
    requires begins { form_of (slice_get tokens.now at) ≡ form.Caps }
    ensures reads { ReadsExpr tokens.now table.prim depth at result }
    ensures goes_on { IfOk result (λ x. (at < x.next) × (x.next ≤ length tokens.now)) }
    ensures depth { IfOk result (λ x. x.depth ≡ depth) }
{
    let word = take(tokens, at, depth, Mark::Caps)?;
    let open = at + 1;
    let _open = take(tokens, open, depth, Mark::BraceOpen)?;
    let (items, close) = cap_items(alloc, tokens, open + 1, depth)?;
    let _close = take(tokens, close, depth, Mark::BraceClose)?;
    let expr = make_caps(alloc, word.at, items)?;
    Ok(Read {
        expr,
        begin: word.at,
        next: close + 1,
        depth,
    })
}

/// Tags with their signs and a comma between each two, or none, and the place behind them.
fn cap_items(
    alloc: Global,
    tokens: &[Token],
    at: usize,
    depth: u64,
) -> Result<(Vec<CapItem>, usize), Break>
    requires in_range { at ≤ length tokens.now }
    ensures reads { ReadsCaps tokens.now table.cap_items depth at result }
    ensures goes_on { IfOk result (λ x. (at ≤ x.1) × (x.1 ≤ length tokens.now)) }
{
    let mut items = Vec::new(alloc);
    if !next_is(tokens, at, Mark::Name) {
        return Ok((items, at));
    }
    let (first, behind) = cap_item(alloc, tokens, at, depth)?;
    items.push(first)?;
    let mut next = behind;
    while let Some(_comma) = take_if(tokens, next, depth, Mark::Comma)? {
        let (item, behind) = cap_item(alloc, tokens, next + 1, depth)?;
        items.push(item)?;
        next = behind;
    }
    Ok((items, next))
}

/// A tag with its sign, and the place behind it.
fn cap_item(
    alloc: Global,
    tokens: &[Token],
    at: usize,
    depth: u64,
) -> Result<(CapItem, usize), Break>
    ensures reads { ReadsCap tokens.now table.cap_item depth at result }
    ensures goes_on { IfOk result (λ x. (at < x.1) × (x.1 ≤ length tokens.now)) }
{
    let name = take(tokens, at, depth, Mark::Name)?;
    let behind = at + 1;
    let sign = take(tokens, behind, depth, Mark::Sign)?;
    let item = make_cap(alloc, name, sign)?;
    Ok((item, behind + 1))
}
