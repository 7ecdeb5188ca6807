//! The parser of typed names, and of lists of names.

ghost use Rattle.std.specs.Prelude.{◌<◌, ◌≤◌, length, IfOk};
ghost use Rattle.lam_grammar.specs.Table.{fields, params, names};
ghost use Rattle.lam_parser_parts.specs.Variables.{TakesName, ReadsVariable, ReadsVariables, ReadsNames};
ghost use Rattle.lam_grammar.specs.Program.{most_depth};

use crate::types::typ;
use lam_lexer::Token;
use lam_parser_tokens::{Break, Mark, name_of, next_is, take, take_if};
use lam_syntax::{Id, Var};
use std::alloc::Global;

/// The name that the token at an index is.
pub fn take_name(alloc: Global, tokens: &[Token], at: usize, depth: u64) -> Result<Id, Break>
    ensures takes { TakesName tokens.now depth at result }
    ensures within { IfOk result (λ _. at < length tokens.now) }
{
    let token = take(tokens, at, depth, Mark::Name)?;
    Ok(name_of(alloc, token)?)
}

/// `name: type`
pub fn variable(
    alloc: Global,
    tokens: &[Token],
    at: usize,
    depth: u64,
) -> Result<(Var, usize), Break>
    requires in_range { at ≤ length tokens.now }
    requires bounded { depth ≤ most_depth }
    ensures reads { ReadsVariable tokens.now depth at result }
    ensures goes_on { IfOk result (λ x. (at < x.1) × (x.1 ≤ length tokens.now)) }
{
    let name = take_name(alloc, tokens, at, depth)?;
    let colon = at + 1;
    take(tokens, colon, depth, Mark::Colon)?;
    let (ty, next) = typ(alloc, tokens, colon + 1, depth)?;
    Ok((Var { name, ty }, next))
}

/// The fields of a class, as many as there are.
pub fn fields(
    alloc: Global,
    tokens: &[Token],
    at: usize,
    depth: u64,
) -> Result<(Vec<Var>, usize), Break>
    requires in_range { at ≤ length tokens.now }
    requires bounded { depth ≤ most_depth }
    ensures reads { ReadsVariables tokens.now fields depth at result }
    ensures goes_on { IfOk result (λ x. (at ≤ x.1) × (x.1 ≤ length tokens.now)) }
{
    let mut all = Vec::new(alloc);
    let mut next = at;
    while next_is(tokens, next, Mark::Name) {
        let (field, end) = variable(alloc, tokens, next, depth)?;
        take(tokens, end, depth, Mark::Semicolon)?;
        all.push(field)?;
        next = end + 1;
    }
    Ok((all, next))
}

/// The parameters of a function, or none.
pub fn params(
    alloc: Global,
    tokens: &[Token],
    at: usize,
    depth: u64,
) -> Result<(Vec<Var>, usize), Break>
    requires in_range { at ≤ length tokens.now }
    requires bounded { depth ≤ most_depth }
    ensures reads { ReadsVariables tokens.now params depth at result }
    ensures goes_on { IfOk result (λ x. (at ≤ x.1) × (x.1 ≤ length tokens.now)) }
{
    let mut all = Vec::new(alloc);
    if !next_is(tokens, at, Mark::Name) {
        return Ok((all, at));
    }
    let (first, mut next) = variable(alloc, tokens, at, depth)?;
    all.push(first)?;
    while let Some(_) = take_if(tokens, next, depth, Mark::Comma)? {
        let (param, end) = variable(alloc, tokens, next + 1, depth)?;
        all.push(param)?;
        next = end;
    }
    Ok((all, next))
}

/// The names that a region captures, or none.
pub fn names(
    alloc: Global,
    tokens: &[Token],
    at: usize,
    depth: u64,
) -> Result<(Vec<Id>, usize), Break>
    requires in_range { at ≤ length tokens.now }
    requires bounded { depth ≤ most_depth }
    ensures reads { ReadsNames tokens.now names depth at result }
    ensures goes_on { IfOk result (λ x. (at ≤ x.1) × (x.1 ≤ length tokens.now)) }
{
    let mut all = Vec::new(alloc);
    let Some(first) = take_if(tokens, at, depth, Mark::Name)? else {
        return Ok((all, at));
    };
    all.push(name_of(alloc, first)?)?;
    let mut next = at + 1;
    while let Some(_) = take_if(tokens, next, depth, Mark::Comma)? {
        let after_comma = next + 1;
        all.push(take_name(alloc, tokens, after_comma, depth)?)?;
        next = after_comma + 1;
    }
    Ok((all, next))
}
