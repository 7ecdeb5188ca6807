//! The classes of tokens.

ghost use Rattle.std.specs.Prelude.{◌≡◌};
ghost use Rattle.lam_grammar.specs.Table as table;
ghost use Rattle.lam_parser_tokens.specs.Classes as classes;
ghost use Rattle.lam_parser_tokens.specs.Classes.{class_of};

use crate::Wanted;
use lam_grammar::Level;
use lam_lexer::TokenKind;

/// A class of tokens, as the grammar names them.
#[derive(Clone, Copy, Debug, PartialEq, Eq, Drop)]
pub enum Mark {
    /// an identifier
    Name,
    /// an identifier behind a `.`
    Member,
    /// a number, a text, or a word that is a value
    Literal,
    /// a word that is a type
    TypeWord,
    /// an operator that groups to the left
    Operator(Level),
    /// `==`, `!=`, `<`, `<=`, `>` or `>=`
    Comparison,
    /// `!` or `-` before an operand
    Prefix,
    /// `+` or `-` behind a tag
    Sign,
    BraceOpen,
    BraceClose,
    ParenOpen,
    ParenClose,
    BracketOpen,
    BracketClose,
    /// the `]` behind an index
    IndexClose,
    Comma,
    Semicolon,
    Colon,
    Dot,
    Assign,
    Class,
    Fn,
    Let,
    If,
    Else,
    While,
    Return,
    Throw,
    Sync,
    Region,
    Catch,
    New,
    Spawn,
    Label,
    Caps,
    End,
}

/// Whether a token of that kind is of the class.
pub fn is_mark(mark: Mark, kind: &TokenKind) -> bool
    ensures { result ≡ (class_of mark).fits kind.now }
{
    match mark {
        Mark::Name | Mark::Member => matches!(kind, TokenKind::Id(_)),
        Mark::Literal => is_literal(kind),
        Mark::TypeWord => is_type_word(kind),
        Mark::Operator(level) => is_operator(level, kind),
        Mark::Comparison => is_comparison(kind),
        Mark::Prefix => matches!(kind, TokenKind::Not | TokenKind::Minus),
        Mark::Sign => matches!(kind, TokenKind::Plus | TokenKind::Minus),
        Mark::BraceOpen => matches!(kind, TokenKind::BraceOpen),
        Mark::BraceClose => matches!(kind, TokenKind::BraceClose),
        Mark::ParenOpen => matches!(kind, TokenKind::ParenOpen),
        Mark::ParenClose => matches!(kind, TokenKind::ParenClose),
        Mark::BracketOpen => matches!(kind, TokenKind::BracketOpen),
        Mark::BracketClose | Mark::IndexClose => matches!(kind, TokenKind::BracketClose),
        Mark::Comma => matches!(kind, TokenKind::Comma),
        Mark::Semicolon => matches!(kind, TokenKind::Semicolon),
        Mark::Colon => matches!(kind, TokenKind::Colon),
        Mark::Dot => matches!(kind, TokenKind::Dot),
        Mark::Assign => matches!(kind, TokenKind::Assign),
        Mark::End => matches!(kind, TokenKind::End),
        Mark::Class => matches!(kind, TokenKind::Class),
        Mark::Fn => matches!(kind, TokenKind::Fn),
        Mark::Let => matches!(kind, TokenKind::Let),
        Mark::If => matches!(kind, TokenKind::If),
        Mark::Else => matches!(kind, TokenKind::Else),
        Mark::While => matches!(kind, TokenKind::While),
        Mark::Return => matches!(kind, TokenKind::Return),
        Mark::Throw => matches!(kind, TokenKind::Throw),
        Mark::Sync => matches!(kind, TokenKind::Sync),
        Mark::Region => matches!(kind, TokenKind::Region),
        Mark::Catch => matches!(kind, TokenKind::Catch),
        Mark::New => matches!(kind, TokenKind::New),
        Mark::Spawn => matches!(kind, TokenKind::Spawn),
        Mark::Label => matches!(kind, TokenKind::Label),
        Mark::Caps => matches!(kind, TokenKind::Caps),
    }
}

fn is_literal(kind: &TokenKind) -> bool
    ensures { result ≡ table.is_literal kind.now }
{
    matches!(
        kind,
        TokenKind::Number(_)
            | TokenKind::Text(_)
            | TokenKind::True
            | TokenKind::False
            | TokenKind::Null
    )
}

fn is_type_word(kind: &TokenKind) -> bool
    ensures { result ≡ table.is_type_word kind.now }
{
    matches!(
        kind,
        TokenKind::Int
            | TokenKind::Bool
            | TokenKind::Bytes
            | TokenKind::Tag
            | TokenKind::Label
            | TokenKind::Caps
            | TokenKind::File
            | TokenKind::Dir
            | TokenKind::Pipe
            | TokenKind::Thread
    )
}

fn is_operator(level: Level, kind: &TokenKind) -> bool
    ensures { result ≡ table.operates level kind.now }
{
    match level {
        Level::Or => matches!(kind, TokenKind::Or),
        Level::And => matches!(kind, TokenKind::And),
        Level::Sum => matches!(kind, TokenKind::Plus | TokenKind::Minus),
        Level::Term => matches!(
            kind,
            TokenKind::Star | TokenKind::Slash | TokenKind::Percent
        ),
    }
}

fn is_comparison(kind: &TokenKind) -> bool
    ensures { result ≡ table.compares kind.now }
{
    matches!(
        kind,
        TokenKind::Equal
            | TokenKind::NotEqual
            | TokenKind::Less
            | TokenKind::LessEqual
            | TokenKind::Greater
            | TokenKind::GreaterEqual
    )
}

/// What a parser wants where it takes a token of the class.
pub fn wanted_of(mark: Mark) -> Wanted
    ensures { result ≡ classes.wanted_of mark }
{
    match mark {
        Mark::Name | Mark::Member => Wanted::Name,
        Mark::TypeWord => Wanted::TypeName,
        other => Wanted::Mark(other),
    }
}
