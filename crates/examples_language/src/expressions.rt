//! Expressions of each primary form, and the places where reading stops.

use lam_lexer::lex;
use lam_parser_exprs::expression;
use lam_parser_tokens::{Break, Mark, Wanted};

/// The index of the token behind the expression at the front of a text, or why there is none.
fn end(rt: &HostRuntime, text: &str) -> Option<Result<usize, Break>> {
    let tokens = lex(rt.alloc(), text).ok()?;
    Some(expression(rt.alloc(), &tokens, 0, 0).map(|read| read.next))
}

#[test]
fn primary_forms(rt: HostRuntime) {
    for (text, next) in [
        ("7", 1),
        ("(x)", 3),
        ("f(x, y(), \"a\")", 10),
        ("new C()", 4),
        ("new [[int]](n)", 9),
        ("label{a, b; c}", 8),
        ("label{;}", 4),
        ("caps{a+, b-}", 8),
        ("caps{}", 3),
        ("spawn(c) f(x)", 8),
    ] {
        assert_eq!(rt; end(&rt, text), Some(Ok(next)), "{text}");
    }
}

#[test]
fn first_wrong_token_of_an_expression(rt: HostRuntime) {
    for (text, at, wanted) in [
        ("f(x,)", 4, Wanted::Expression),
        ("caps{a*}", 3, Wanted::Mark(Mark::Sign)),
        ("new 3", 1, Wanted::Name),
        ("label{a b}", 3, Wanted::Mark(Mark::Semicolon)),
        ("", 0, Wanted::Expression),
    ] {
        assert_eq!(rt;
            end(&rt, text),
            Some(Err(Break::Unexpected { at, wanted })),
            "{text}"
        );
    }
}
