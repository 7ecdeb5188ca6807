//! The lexer: from the text of a program to its tokens.
//!
//! A public promise rests on `lex` (clauses `exact`, `tokens`, `fault`): the tokens of a text, or its first fault. Free
//! to change for speed: how characters are scanned and told apart.
#![tactic(auto)]

pub mod fault;
mod lexer;
mod rest;
mod start;
mod text;
pub mod token;
mod words;

pub use fault::LexFault;
pub use lexer::lex;
pub use token::{Identifier, Literal, Token, TokenKind};
