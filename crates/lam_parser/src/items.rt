//! The parser of classes, functions and programs.

ghost use Rattle.std.specs.Prelude.{◌≡◌, true, ◌<◌, ◌≤◌, length, slice_get, IfOk};
ghost use Rattle.lam_grammar.specs.Table as table;
ghost use Rattle.lam_parser_tokens.specs.Classes.{begins_at};
ghost use Rattle.lam_parser_tokens.specs.Reading.{Taken};
ghost use Rattle.lam_parser.specs.Left.{IsFreed, ReadsProgram};
ghost use Rattle.lam_parser.specs.Parts.{ReadsItem, ReadsResult};

use crate::stmts::block;
use lam_lexer::Token;
use lam_parser_parts::{fields, params, take_name, typ};
use lam_parser_tokens::{Break, Mark, Wanted, next_is, take, take_if};
use lam_syntax::{Class, Function, Item, Program, TypeExpr};
use std::alloc::Global;

/// An item that was read, and the token after it.
type ReadItem = (Item, usize);

/// Items and the end of the text, and the place behind it. The tokens of what was read are let go of on the way: places
/// count from the first token that is left.
pub(crate) fn program(alloc: Global, tokens: &mut Vec<Token>) -> Result<(Program, usize), Break>
    ensures reads { ReadsProgram tokens.old.items tokens.new.items result }
    ensures within { IfOk result (λ x. x.1 ≤ length tokens.new.items) }
{
    let mut items = Vec::new(alloc);
    let mut next = 0;
    while begins_item(tokens.as_slice(), next) {
        let (item, end) = item(alloc, tokens.as_slice(), next)?;
        items.push(item)?;
        next = let_go(tokens, end);
    }
    let Some(_) = take_if(tokens.as_slice(), next, 0, Mark::End)? else {
        return Err(Break::Unexpected {
            at: next,
            wanted: Wanted::Item,
        });
    };
    Ok((Program { items }, next + 1))
}

/// Frees the tokens before an index, where they are as many as the others or more: so all moves together are linear.
/// Answers the index that the token there has now. One token at least is left, for the place of a fault.
fn let_go(tokens: &mut Vec<Token>, end: usize) -> usize
    requires { end ≤ length tokens.old.items }
    ensures { IsFreed tokens.old.items tokens.new.items end result }
{
    let kept = tokens.len() - end;
    if 0 < kept && kept <= end {
        tokens.rotate_left(end);
        tokens.truncate(kept);
        tokens.shrink_to_fit();
        return 0;
    }
    end
}

fn begins_item(tokens: &[Token], at: usize) -> bool
    ensures is { result ≡ begins_at table.item (slice_get tokens.now at) }
    ensures within { result ≡ true → at < length tokens.now }
{
    next_is(tokens, at, Mark::Class) || next_is(tokens, at, Mark::Fn)
}

/// A class or a function, as its first token tells.
fn item(alloc: Global, tokens: &[Token], at: usize) -> Result<ReadItem, Break>
    requires in_range { at ≤ length tokens.now }
    requires begun { begins_at table.item (slice_get tokens.now at) ≡ true }
    ensures reads { ReadsItem tokens.now at result }
    ensures goes_on { IfOk result (λ x. (at < x.1) × (x.1 ≤ length tokens.now)) }
{
    if let Some(word) = take_if(tokens, at, 0, Mark::Class)? {
        return class(alloc, tokens, at, word);
    }
    let word = take(tokens, at, 0, Mark::Fn)?;
    function(alloc, tokens, at, word)
}

/// `class Name { fields }`
fn class(alloc: Global, tokens: &[Token], at: usize, word: &Token) -> Result<ReadItem, Break>
    requires in_range { at ≤ length tokens.now }
    requires begun { Taken tokens.now 0 at Mark.Class word.now }
    ensures reads { ReadsItem tokens.now at result }
    ensures goes_on { IfOk result (λ x. (at < x.1) × (x.1 ≤ length tokens.now)) }
{
    let after_word = at + 1;
    let name = take_name(alloc, tokens, after_word, 0)?;
    let brace = after_word + 1;
    take(tokens, brace, 0, Mark::BraceOpen)?;
    let (fields, next) = fields(alloc, tokens, brace + 1, 0)?;
    take(tokens, next, 0, Mark::BraceClose)?;
    let class = Class {
        at: word.at,
        name,
        fields,
    };
    Ok((Item::Class(class), next + 1))
}

/// `fn name(params): type { body }`, or without a type.
fn function(alloc: Global, tokens: &[Token], at: usize, word: &Token) -> Result<ReadItem, Break>
    requires in_range { at ≤ length tokens.now }
    requires begun { Taken tokens.now 0 at Mark.Fn word.now }
    ensures reads { ReadsItem tokens.now at result }
    ensures goes_on { IfOk result (λ x. (at < x.1) × (x.1 ≤ length tokens.now)) }
{
    let after_word = at + 1;
    let name = take_name(alloc, tokens, after_word, 0)?;
    let paren = after_word + 1;
    take(tokens, paren, 0, Mark::ParenOpen)?;
    let (params, next) = params(alloc, tokens, paren + 1, 0)?;
    take(tokens, next, 0, Mark::ParenClose)?;
    let (result, brace) = result_part(alloc, tokens, next + 1)?;
    let (body, end) = block(alloc, tokens, brace, 0)?;
    let function = Function {
        at: word.at,
        name,
        params,
        result,
        body,
    };
    Ok((Item::Function(function), end))
}

/// `: type`, or nothing.
fn result_part(
    alloc: Global,
    tokens: &[Token],
    at: usize,
) -> Result<(Option<TypeExpr>, usize), Break>
    requires in_range { at ≤ length tokens.now }
    ensures reads { ReadsResult tokens.now at result }
    ensures goes_on { IfOk result (λ x. (at ≤ x.1) × (x.1 ≤ length tokens.now)) }
{
    let Some(_) = take_if(tokens, at, 0, Mark::Colon)? else {
        return Ok((None, at));
    };
    let (ty, next) = typ(alloc, tokens, at + 1, 0)?;
    Ok((Some(ty), next))
}
