//! Tokens that are read as programs, and the first fault of those that are none.

use lam_lexer::{Token, TokenKind, lex};
use lam_parser::{ParseFault, Wanted, parse};
use lam_parser_tokens::Mark;
use lam_syntax::{Item, Program, StmtKind};
use std::test::Fail;

/// How many items a text has, or its fault.
fn items_of(rt: &HostRuntime, text: &str) -> Result<usize, ParseFault> {
    let Ok(tokens) = lex(rt.alloc(), text) else {
        return Err(ParseFault::NoMemory);
    };
    items_in(rt, tokens)
}

fn unexpected(at: u64, wanted: Wanted) -> Result<usize, ParseFault> {
    Err(ParseFault::Unexpected { at, wanted })
}

#[test]
fn programs_are_read(rt: HostRuntime) {
    for (text, count) in [
        ("", 0),
        (
            "class Point { x: int; names: [[bytes]]; } fn main(): int { return 1; }",
            2,
        ),
        (
            "fn f(a: int, b: Point) { let x: tag = a.b[1 + 2] == null || !b; x[a] = (-b); f(x, 1); throw a; }",
            1,
        ),
        (
            "fn f() { if (a) { } else { while (b) { return; } } sync (x) { return x; } }",
            1,
        ),
        (
            "fn f() { region (label{a; b}, caps{t+}) [x, y] { x.y = spawn(c) f(); } catch (e) { } }",
            1,
        ),
    ] {
        assert_eq!(rt; items_of(&rt, text), Ok(count), "{text}");
    }
}

#[test]
fn first_wrong_token_of_a_program(rt: HostRuntime) {
    for (text, at, wanted) in [
        ("let", 0, Wanted::Item),
        ("fn 1", 3, Wanted::Name),
        ("fn f() { f() = 1; }", 13, Wanted::Place),
        ("fn f() { ) }", 9, Wanted::Statement),
        (
            "fn f() { if (1) { } else return; }",
            25,
            Wanted::Mark(Mark::BraceOpen),
        ),
        ("fn f() { x = ; }", 13, Wanted::Expression),
        ("fn f() { let x: 1", 16, Wanted::TypeName),
        ("fn f() { ", 9, Wanted::Statement),
    ] {
        assert_eq!(rt; items_of(&rt, text), unexpected(at, wanted), "{text}");
    }
}

#[test]
fn depth_has_a_limit(rt: HostRuntime) {
    for (text, items) in [
        (
            "fn f() { !!!!!!!!!!!!!!!!!!!!!!!!!!!!!!!!!!!!!!!!!!!!!!!!!!!!!!!!!!!!!!x; }",
            Ok(1),
        ),
        (
            "fn f() { !!!!!!!!!!!!!!!!!!!!!!!!!!!!!!!!!!!!!!!!!!!!!!!!!!!!!!!!!!!!!!!x; }",
            Err(ParseFault::TooDeep { at: 72 }),
        ),
    ] {
        assert_eq!(rt; items_of(&rt, text), items);
    }
}

/// How many items these tokens have, or their fault.
fn items_in(rt: &HostRuntime, tokens: Vec<Token>) -> Result<usize, ParseFault> {
    let program = parse(rt.alloc(), tokens)?;
    Ok(program.items.len())
}

#[test]
fn tokens_beyond_their_end(rt: HostRuntime) -> Result<(), Fail> {
    let mut tokens = lex(rt.alloc(), "")?;
    tokens.push(Token {
        at: 5,
        kind: TokenKind::Comma,
    })?;
    assert_eq!(rt;
        items_in(&rt, tokens),
        unexpected(5, Wanted::Mark(Mark::End))
    );
    let none = Vec::new(rt.alloc());
    assert_eq!(rt; items_in(&rt, none), unexpected(0, Wanted::Item));
    Ok(())
}

/// Whether a program is one function with one statement, which keep their places.
fn keeps_places(program: &Program) -> bool {
    match program.items.as_slice() {
        [Item::Function(f)] => match f.body.as_slice() {
            [s] => matches!(&s.kind, StmtKind::Do(e) if s.at == 9 && e.at == 10),
            _ => false,
        },
        _ => false,
    }
}

#[test]
fn statements_keep_their_places(rt: HostRuntime) -> Result<(), Fail> {
    let tokens = lex(rt.alloc(), "fn f() { (1); }")?;
    let program = parse(rt.alloc(), tokens)?;
    assert!(rt; keeps_places(&program));
    Ok(())
}
