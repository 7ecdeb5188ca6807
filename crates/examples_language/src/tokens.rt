//! Texts that are lexed, and the first fault of those that are none.

use lam_lexer::{LexFault, TokenKind, lex};
use std::test::Fail;

/// Where the last token of a text ends, or its fault.
fn end(rt: &HostRuntime, text: &str) -> Result<u64, LexFault> {
    let tokens = lex(rt.alloc(), text)?;
    Ok(match tokens.last() {
        Some(token) => token.at,
        None => 0,
    })
}

#[test]
fn tokens_of_texts(rt: HostRuntime) -> Result<(), Fail> {
    let tokens = lex(rt.alloc(), "let é = <=9; // end\n\"\\x4a\"")?;
    assert_eq!(rt; tokens.len(), 8);
    assert_eq!(rt; tokens[3].at, 9);
    assert_eq!(rt; tokens[7].at, 27);
    assert_eq!(rt; end(&rt, ""), Ok(0));
    assert_eq!(rt; end(&rt, "// x\r\n\t"), Ok(7));
    assert_eq!(rt; end(&rt, "9223372036854775807"), Ok(19));
    Ok(())
}

#[test]
fn first_fault_of_a_text(rt: HostRuntime) {
    for (text, fault) in [
        (
            "fn main(): int { return 99999999999999999999; }",
            LexFault::BadNumber { at: 24 },
        ),
        ("9223372036854775808", LexFault::BadNumber { at: 0 }),
        (" 1x", LexFault::BadNumber { at: 1 }),
        ("a # b", LexFault::BadChar { at: 2 }),
        ("\"a\\q", LexFault::BadEscape { at: 2 }),
        ("é \"a\n\"", LexFault::OpenText { at: 3 }),
        ("\"\\", LexFault::BadEscape { at: 1 }),
        ("\0", LexFault::BadChar { at: 0 }),
        ("\u{feff}x", LexFault::BadChar { at: 0 }),
        ("a &b", LexFault::BadChar { at: 2 }),
    ] {
        assert_eq!(rt; end(&rt, text), Err(fault), "{text}");
    }
}

#[test]
fn longest_mark_is_read(rt: HostRuntime) -> Result<(), Fail> {
    let tokens = lex(rt.alloc(), "<== a/b")?;
    assert_eq!(rt; tokens.len(), 6);
    assert_eq!(rt; tokens[1].at, 2);
    assert!(rt; matches!(tokens[0].kind, TokenKind::LessEqual));
    assert!(rt; matches!(tokens[1].kind, TokenKind::Assign));
    assert!(rt; matches!(tokens[3].kind, TokenKind::Slash));
    Ok(())
}
