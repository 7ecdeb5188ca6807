//! The tokens of a program.

ghost use Rattle.std.specs.Prelude.{◌≡◌, IfOk};

use std::alloc::{AllocError, Global};
use std::marker::Model;

/// The bytes of an identifier, in UTF-8: a part of the program's text.
#[derive(Drop)]
pub struct Identifier<'a> {
    text: &'a str,
}

impl<'a> Model for Identifier<'a> {
    ghost use Rattle.std.specs.Prelude.{List, ℕ};

    ghost Value = { List ℕ };

    ghost view = { λ x. x.text.now };
}

impl<'a> Identifier<'a> {
    /// An identifier of that text.
    pub fn new(text: &'a str) -> Identifier<'a>
        ensures { result ≡ text.now }
    {
        Identifier { text }
    }

    /// The identifier as a text.
    pub fn as_str(&self) -> &'a str
        ensures { result.now ≡ self.now }
    {
        self.text
    }
}

/// The bytes that a text between quotes means.
#[derive(Drop)]
pub struct Literal {
    /// In a box, which keeps a token small.
    bytes: Box<Vec<u8>>,
}

impl Model for Literal {
    ghost use Rattle.std.specs.Prelude.{List, ℕ, box_value};

    ghost Value = { List ℕ };

    ghost view = { λ x. (box_value x.bytes).items };
}

impl Literal {
    /// A text that means these bytes.
    pub fn new(alloc: Global, bytes: Vec<u8>) -> Result<Literal, AllocError>
        ensures { IfOk result (λ x. x ≡ bytes.items) }
    {
        let bytes = Box::new(alloc, bytes)?;
        Ok(Literal { bytes })
    }

    /// The bytes.
    pub fn bytes(&self) -> &[u8]
        ensures { result.now ≡ self.now }
    {
        self.bytes.as_slice()
    }
}

/// A token: what it is, and the position of its first byte.
#[derive(Drop)]
pub struct Token<'a> {
    pub at: u64,
    pub kind: TokenKind<'a>,
}

/// What a token is: an identifier, a number, a text, a mark, a reserved word, or the end of the text.
#[derive(Drop)]
pub enum TokenKind<'a> {
    Id(Identifier<'a>),
    Number(i64),
    Text(Literal),
    BraceOpen,
    BraceClose,
    ParenOpen,
    ParenClose,
    BracketOpen,
    BracketClose,
    Comma,
    Semicolon,
    Colon,
    Dot,
    Assign,
    Equal,
    NotEqual,
    Less,
    LessEqual,
    Greater,
    GreaterEqual,
    Plus,
    Minus,
    Star,
    Slash,
    Percent,
    Not,
    And,
    Or,
    Class,
    Fn,
    Let,
    If,
    Else,
    While,
    Return,
    Throw,
    Sync,
    Region,
    Catch,
    New,
    Spawn,
    True,
    False,
    Null,
    Int,
    Bool,
    Bytes,
    Tag,
    Label,
    Caps,
    File,
    Dir,
    Pipe,
    Thread,
    /// The end of the text, at the text's length.
    End,
}
