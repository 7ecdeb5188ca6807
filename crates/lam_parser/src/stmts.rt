//! The parser of statements and blocks.

ghost use Rattle.std.specs.Prelude.{◌≡◌, ◌<◌, ◌≤◌, length, IfOk};
ghost use Rattle.lam_parser_tokens.specs.Reading.{Taken};
ghost use Rattle.lam_parser_stmts.specs.Parts.{ReadsStmt};
ghost use Rattle.lam_parser.specs.Parts.{ReadsBlock, ReadsElse, ReadsHandler};
ghost use Rattle.lam_grammar.specs.Program.{most_depth};

use lam_lexer::Token;
use lam_parser_exprs::parens;
use lam_parser_parts::take_name;
use lam_parser_stmts::{
    Handler, ReadStmt, captures, expression_statement, let_statement, make_if, make_region,
    make_sync, make_while, region_head, return_statement, throw_statement,
};
use lam_parser_tokens::{Break, Mark, Wanted, begins_statement, take, take_if};
use lam_syntax::Stmt;
use std::alloc::Global;

/// Statements that were read, and the token after them.
type ReadBlock = (Vec<Stmt>, usize);

/// `{`, statements, `}`
#[cycle(statement)]
pub(crate) fn block(
    alloc: Global,
    tokens: &[Token],
    at: usize,
    depth: u64,
) -> Result<ReadBlock, Break>
    requires in_range { at ≤ length tokens.now }
    requires bounded { depth ≤ most_depth }
    ensures reads { ReadsBlock tokens.now depth at result }
    ensures goes_on { IfOk result (λ x. (at < x.1) × (x.1 ≤ length tokens.now)) }
{
    let inner = depth + 1;
    take(tokens, at, inner, Mark::BraceOpen)?;
    let mut body = Vec::new(alloc);
    let mut next = at + 1;
    while begins_statement(tokens, next) {
        let (stmt, end) = statement(alloc, tokens, next, inner)?;
        body.push(stmt)?;
        next = end;
    }
    let Some(_) = take_if(tokens, next, inner, Mark::BraceClose)? else {
        return Err(Break::Unexpected {
            at: next,
            wanted: Wanted::Statement,
        });
    };
    Ok((fitted(body), next + 1))
}

/// The statements of a block, in no more room than they take: they stand as long as the program, and one is large.
fn fitted(mut body: Vec<Stmt>) -> Vec<Stmt>
    ensures { result.items ≡ body.items }
{
    body.shrink_to_fit();
    body
}

/// A statement of the form that its first token tells.
#[cycle(statement)]
fn statement(alloc: Global, tokens: &[Token], at: usize, depth: u64) -> Result<ReadStmt, Break>
    requires in_range { at ≤ length tokens.now }
    requires bounded { depth ≤ most_depth }
    ensures reads { ReadsStmt tokens.now depth at result }
    ensures goes_on { IfOk result (λ x. (at < x.1) × (x.1 ≤ length tokens.now)) }
{
    if let Some(word) = take_if(tokens, at, depth, Mark::Let)? {
        return let_statement(alloc, tokens, at, depth, word);
    }
    if let Some(word) = take_if(tokens, at, depth, Mark::If)? {
        return if_statement(alloc, tokens, at, depth, word);
    }
    if let Some(word) = take_if(tokens, at, depth, Mark::While)? {
        return while_statement(alloc, tokens, at, depth, word);
    }
    if let Some(word) = take_if(tokens, at, depth, Mark::Return)? {
        return return_statement(alloc, tokens, at, depth, word);
    }
    if let Some(word) = take_if(tokens, at, depth, Mark::Throw)? {
        return throw_statement(alloc, tokens, at, depth, word);
    }
    if let Some(word) = take_if(tokens, at, depth, Mark::Sync)? {
        return sync_statement(alloc, tokens, at, depth, word);
    }
    if let Some(word) = take_if(tokens, at, depth, Mark::Region)? {
        return region_statement(alloc, tokens, at, depth, word);
    }
    expression_statement(alloc, tokens, at, depth)
}

/// `if (test) { yes } else { no }`, or without `else`.
#[cycle(statement)]
fn if_statement(
    alloc: Global,
    tokens: &[Token],
    at: usize,
    depth: u64,
    word: &Token,
) -> Result<ReadStmt, Break>
    requires in_range { at ≤ length tokens.now }
    requires bounded { depth ≤ most_depth }
    requires begun { Taken tokens.now depth at Mark.If word.now }
    ensures reads { ReadsStmt tokens.now depth at result }
    ensures goes_on { IfOk result (λ x. (at < x.1) × (x.1 ≤ length tokens.now)) }
{
    let test = parens(alloc, tokens, at + 1, depth)?;
    let (yes, other) = block(alloc, tokens, test.next, depth)?;
    let (no, next) = else_part(alloc, tokens, other, depth)?;
    Ok((make_if(word.at, test.expr, yes, no), next))
}

/// `else` and a block, or nothing.
#[cycle(statement)]
fn else_part(
    alloc: Global,
    tokens: &[Token],
    at: usize,
    depth: u64,
) -> Result<(Option<Vec<Stmt>>, usize), Break>
    requires in_range { at ≤ length tokens.now }
    requires bounded { depth ≤ most_depth }
    ensures reads { ReadsElse tokens.now depth at result }
    ensures goes_on { IfOk result (λ x. (at ≤ x.1) × (x.1 ≤ length tokens.now)) }
{
    let Some(_) = take_if(tokens, at, depth, Mark::Else)? else {
        return Ok((None, at));
    };
    let (no, next) = block(alloc, tokens, at + 1, depth)?;
    Ok((Some(no), next))
}

/// `while (test) { body }`
#[cycle(statement)]
fn while_statement(
    alloc: Global,
    tokens: &[Token],
    at: usize,
    depth: u64,
    word: &Token,
) -> Result<ReadStmt, Break>
    requires in_range { at ≤ length tokens.now }
    requires bounded { depth ≤ most_depth }
    requires begun { Taken tokens.now depth at Mark.While word.now }
    ensures reads { ReadsStmt tokens.now depth at result }
    ensures goes_on { IfOk result (λ x. (at < x.1) × (x.1 ≤ length tokens.now)) }
{
    let test = parens(alloc, tokens, at + 1, depth)?;
    let (body, next) = block(alloc, tokens, test.next, depth)?;
    Ok((make_while(word.at, test.expr, body), next))
}

/// `sync (thing) { body }`
#[cycle(statement)]
fn sync_statement(
    alloc: Global,
    tokens: &[Token],
    at: usize,
    depth: u64,
    word: &Token,
) -> Result<ReadStmt, Break>
    requires in_range { at ≤ length tokens.now }
    requires bounded { depth ≤ most_depth }
    requires begun { Taken tokens.now depth at Mark.Sync word.now }
    ensures reads { ReadsStmt tokens.now depth at result }
    ensures goes_on { IfOk result (λ x. (at < x.1) × (x.1 ≤ length tokens.now)) }
{
    let thing = parens(alloc, tokens, at + 1, depth)?;
    let (body, next) = block(alloc, tokens, thing.next, depth)?;
    Ok((make_sync(word.at, thing.expr, body), next))
}

/// `region (label, caps) [captures] { body } catch (name) { handler }`
#[cycle(statement)]
fn region_statement(
    alloc: Global,
    tokens: &[Token],
    at: usize,
    depth: u64,
    word: &Token,
) -> Result<ReadStmt, Break>
    requires in_range { at ≤ length tokens.now }
    requires bounded { depth ≤ most_depth }
    requires begun { Taken tokens.now depth at Mark.Region word.now }
    ensures reads { ReadsStmt tokens.now depth at result }
    ensures goes_on { IfOk result (λ x. (at < x.1) × (x.1 ≤ length tokens.now)) }
{
    let head = region_head(alloc, tokens, at + 1, depth)?;
    let (captures, brace) = captures(alloc, tokens, head.next, depth)?;
    let (body, word_catch) = block(alloc, tokens, brace, depth)?;
    let (caught, next) = handler(alloc, tokens, word_catch, depth)?;
    Ok((make_region(word.at, head, captures, body, caught), next))
}

/// `catch (name) { body }`
#[cycle(statement)]
fn handler(
    alloc: Global,
    tokens: &[Token],
    at: usize,
    depth: u64,
) -> Result<(Handler, usize), Break>
    requires in_range { at ≤ length tokens.now }
    requires bounded { depth ≤ most_depth }
    ensures reads { ReadsHandler tokens.now depth at result }
    ensures goes_on { IfOk result (λ x. (at < x.1) × (x.1 ≤ length tokens.now)) }
{
    take(tokens, at, depth, Mark::Catch)?;
    let paren = at + 1;
    take(tokens, paren, depth, Mark::ParenOpen)?;
    let name_at = paren + 1;
    let name = take_name(alloc, tokens, name_at, depth)?;
    let close = name_at + 1;
    take(tokens, close, depth, Mark::ParenClose)?;
    let (body, next) = block(alloc, tokens, close + 1, depth)?;
    Ok((Handler { name, body }, next))
}
