//! The token list, and the taking of one token.

ghost use Rattle.std.specs.Prelude.{◌≡◌, true, ◌<◌, length, slice_get, IfOk, IfSome, MatchOption, MatchResult, option_copied};
ghost use Rattle.lam_syntax.specs.Tree.{id_tree};
ghost use Rattle.lam_grammar.specs.Meaning.{id_of};
ghost use Rattle.lam_parser_tokens.specs.Classes.{fits_at, begins_at};
ghost use Rattle.lam_grammar.specs.Table as table;
ghost use Rattle.lam_parser_tokens.specs.Reading.{Taken, TakeFails, Absent, IsDeep};

use crate::{Break, Mark, is_mark, wanted_of};
use lam_lexer::{Token, TokenKind};
use lam_syntax::{Expr, Id};
use std::alloc::Global;
use want_of_memory::NoMemory;

/// The greatest depth sum that a token may have.
const DEPTH_LIMIT: u64 = 128;

/// An expression that was read.
#[derive(Drop)]
pub struct Read {
    pub expr: Box<Expr>,
    /// The position of its first token, which is a parenthesis where it begins with one.
    pub begin: u64,
    /// The index of the token after it.
    pub next: usize,
    /// The depth sum there.
    pub depth: u64,
}

fn token_at<'a, 'b>(tokens: &'a [Token<'b>], at: usize) -> Option<&'a Token<'b>>
    ensures is { option_copied result ≡ slice_get tokens.now at }
    ensures within { IfSome result (λ _. at < length tokens.now) }
{
    tokens.get(at)
}

/// Whether the token at an index is of the class.
pub fn next_is(tokens: &[Token], at: usize, mark: Mark) -> bool
    ensures is { result ≡ fits_at mark (slice_get tokens.now at) }
    ensures within { result ≡ true → at < length tokens.now }
{
    match token_at(tokens, at) {
        Some(token) => is_mark(mark, &token.kind),
        None => false,
    }
}

/// Whether an expression can begin with the token at an index.
pub fn begins_expression(tokens: &[Token], at: usize) -> bool
    ensures is { result ≡ begins_at table.expr (slice_get tokens.now at) }
    ensures within { result ≡ true → at < length tokens.now }
{
    match token_at(tokens, at) {
        Some(token) => is_expression_start(&token.kind),
        None => false,
    }
}

/// Whether a statement can begin with the token at an index.
pub fn begins_statement(tokens: &[Token], at: usize) -> bool
    ensures is { result ≡ begins_at table.stmt (slice_get tokens.now at) }
    ensures within { result ≡ true → at < length tokens.now }
{
    match token_at(tokens, at) {
        Some(token) => is_statement_start(&token.kind),
        None => false,
    }
}

fn is_expression_start(kind: &TokenKind) -> bool
    ensures { result ≡ table.begins_expr kind.now }
{
    matches!(
        kind,
        TokenKind::Not
            | TokenKind::Minus
            | TokenKind::Number(_)
            | TokenKind::Text(_)
            | TokenKind::True
            | TokenKind::False
            | TokenKind::Null
            | TokenKind::ParenOpen
            | TokenKind::Id(_)
            | TokenKind::New
            | TokenKind::Label
            | TokenKind::Caps
            | TokenKind::Spawn
    )
}

fn is_statement_start(kind: &TokenKind) -> bool
    ensures { result ≡ table.begins_stmt kind.now }
{
    match kind {
        TokenKind::Let
        | TokenKind::If
        | TokenKind::While
        | TokenKind::Return
        | TokenKind::Throw
        | TokenKind::Sync
        | TokenKind::Region => true,
        other => is_expression_start(other),
    }
}

/// The token at an index, which has to be of the class, and within the depth limit.
pub fn take<'a, 'b>(
    tokens: &'a [Token<'b>],
    at: usize,
    depth: u64,
    mark: Mark,
) -> Result<&'a Token<'b>, Break>
    ensures takes { MatchResult result (λ w. Taken tokens.now depth at mark w.now) (TakeFails tokens.now depth at mark) }
    ensures within { IfOk result (λ _. at < length tokens.now) }
{
    let Some(token) = token_at(tokens, at) else {
        return Err(Break::Unexpected {
            at,
            wanted: wanted_of(mark),
        });
    };
    if !is_mark(mark, &token.kind) {
        return Err(Break::Unexpected {
            at,
            wanted: wanted_of(mark),
        });
    }
    if depth > DEPTH_LIMIT {
        return Err(Break::TooDeep { at });
    }
    Ok(token)
}

/// The token at an index where it is of the class, within the depth limit, and none where it is not.
pub fn take_if<'a, 'b>(
    tokens: &'a [Token<'b>],
    at: usize,
    depth: u64,
    mark: Mark,
) -> Result<Option<&'a Token<'b>>, Break>
    ensures takes { MatchResult result (λ o. MatchOption o (Absent tokens.now at mark) (λ w. Taken tokens.now depth at mark w.now)) (IsDeep tokens.now depth at mark) }
    ensures within { IfOk result (λ o. IfSome o (λ _. at < length tokens.now)) }
{
    let Some(token) = token_at(tokens, at) else {
        return Ok(None);
    };
    if !is_mark(mark, &token.kind) {
        return Ok(None);
    }
    if depth > DEPTH_LIMIT {
        return Err(Break::TooDeep { at });
    }
    Ok(Some(token))
}

/// The name that an identifier's token is.
pub fn name_of(alloc: Global, token: &Token) -> Result<Id, NoMemory>
    ensures { IfOk result (λ x. id_tree x ≡ id_of token.now) }
{
    match &token.kind {
        TokenKind::Id(x) => Ok(Id {
            at: token.at,
            name: String::from_str(alloc, x.as_str())?,
        }),
        _ => Ok(Id {
            at: token.at,
            name: String::new(alloc),
        }),
    }
}
