//! Classification of characters by the token that they begin.

ghost use Rattle.std.specs.Prelude.{◌≡◌, chars};
ghost use Rattle.lam_lexer.specs.Characters as spec;
ghost use Rattle.lam_lexer.specs.Lexed.{start, marks, one_mark, two_marks};
ghost use Rattle.lam_lexer.specs.Reading.{Begins};

use crate::rest::first_char;
use crate::token::TokenKind;

/// What a character begins, where the next one is known.
#[derive(Drop)]
pub enum Start<'a> {
    Space,
    Comment,
    Name,
    Number,
    Text,
    /// A mark of one character.
    Mark(TokenKind<'a>),
    /// A mark of two characters.
    LongMark(TokenKind<'a>),
    Nothing,
}

/// Whether the character is white space.
pub fn is_space(c: char) -> bool
    ensures { result ≡ spec.is_space c }
{
    c == ' ' || c == '\t' || c == '\r' || c == '\n'
}

/// Whether the character is a decimal digit.
pub fn is_digit(c: char) -> bool
    ensures { result ≡ spec.is_digit c }
{
    '0' <= c && c <= '9'
}

/// Whether an identifier may begin with the character.
pub fn starts_name(c: char) -> bool
    ensures { result ≡ spec.starts_name c }
{
    unicode_ident::is_xid_start(c) || c == '_'
}

/// Whether an identifier may go on with the character.
pub fn continues_name(c: char) -> bool
    ensures { result ≡ spec.continues_name c }
{
    unicode_ident::is_xid_continue(c) || c == '_'
}

fn one_mark<'a>(c: char) -> Start<'a>
    ensures { result ≡ one_mark c }
{
    match c {
        '{' => Start::Mark(TokenKind::BraceOpen),
        '}' => Start::Mark(TokenKind::BraceClose),
        '(' => Start::Mark(TokenKind::ParenOpen),
        ')' => Start::Mark(TokenKind::ParenClose),
        '[' => Start::Mark(TokenKind::BracketOpen),
        ']' => Start::Mark(TokenKind::BracketClose),
        ',' => Start::Mark(TokenKind::Comma),
        ';' => Start::Mark(TokenKind::Semicolon),
        ':' => Start::Mark(TokenKind::Colon),
        '.' => Start::Mark(TokenKind::Dot),
        '=' => Start::Mark(TokenKind::Assign),
        '<' => Start::Mark(TokenKind::Less),
        '>' => Start::Mark(TokenKind::Greater),
        '+' => Start::Mark(TokenKind::Plus),
        '-' => Start::Mark(TokenKind::Minus),
        '*' => Start::Mark(TokenKind::Star),
        '/' => Start::Mark(TokenKind::Slash),
        '%' => Start::Mark(TokenKind::Percent),
        '!' => Start::Mark(TokenKind::Not),
        _ => Start::Nothing,
    }
}

fn two_marks<'a>(c: char, d: char) -> Start<'a>
    ensures { result ≡ two_marks c d }
{
    if c == '/' && d == '/' {
        Start::Comment
    } else if c == '=' && d == '=' {
        Start::LongMark(TokenKind::Equal)
    } else if c == '!' && d == '=' {
        Start::LongMark(TokenKind::NotEqual)
    } else if c == '<' && d == '=' {
        Start::LongMark(TokenKind::LessEqual)
    } else if c == '>' && d == '=' {
        Start::LongMark(TokenKind::GreaterEqual)
    } else if c == '&' && d == '&' {
        Start::LongMark(TokenKind::And)
    } else if c == '|' && d == '|' {
        Start::LongMark(TokenKind::Or)
    } else {
        one_mark(c)
    }
}

/// What a mark begins before the next character. It is the longest mark.
fn marks<'a>(c: char, next: Option<char>) -> Start<'a>
    ensures is { result ≡ marks c next }
    ensures begins { Begins result c next }
{
    match next {
        None => one_mark(c),
        Some(d) => two_marks(c, d),
    }
}

/// What a character begins before a text. Of the marks it is the longest.
pub fn start_of<'a>(c: char, after: &str) -> Start<'a>
    ensures is { result ≡ start c (spec.first (chars after.now)) }
    ensures begins { Begins result c (spec.first (chars after.now)) }
{
    if is_space(c) {
        return Start::Space;
    }
    if starts_name(c) {
        return Start::Name;
    }
    if is_digit(c) {
        return Start::Number;
    }
    if c == '"' {
        return Start::Text;
    }
    marks(c, first_char(after))
}
