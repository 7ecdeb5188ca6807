//! The parser: from the tokens of a text to the tree of its program.
//!
//! `parse` descends over the grammar's rules, one small function for each, with one token of lookahead. `items` reads
//! items and their parts, and `stmts` statements with blocks. `lam_parser_stmts` reads what contains no block,
//! `lam_parser_exprs` expressions, and `lam_parser_parts` types and names. The parser copies no tokens, and lets go of
//! those of the items that it has read. Loops read items, statements and the other lists. Nested blocks are nested
//! calls, at most 128 deep, since each counts in the depth sum.
//!
//! `Parses`, in `specs/Answers.antt`, specifies the answers:
//!
//! - the tree is exactly the one that the tokens spell, positions included,
//! - the token named as unexpected is the first that continues no program, and something of the wanted kind could stand
//!   in its place,
//! - the token named as too deep is the first at which the depth sum passes 128.
//!
//! A public promise rests on `parse`: the tree or the first fault, as above. Free to change for speed: when tokens are
//! let go of (`let_go`), and whether blocks give back spare room (`fitted`).
#![tactic(auto)]

ghost use Rattle.std.specs.Prelude.{◌≡◌, ℕ, List, slice_get};
ghost use Rattle.lam_grammar.specs.Program as table;
ghost use Rattle.lam_parser_tokens.specs.Reading.{Fails};
ghost use Rattle.lam_parser.specs.Answers.{Parses, position_at};
ghost use Rattle.lam_lexer.specs.declared.token.Token.{Token};
ghost use Rattle.lam_parser.specs.Left.{IsLeft, later};

mod items;
mod stmts;

use items::program;
use lam_lexer::Token;
pub use lam_parser_tokens::Wanted;
use lam_parser_tokens::{Break, Mark};
use lam_syntax::Program;
use std::alloc::Global;

/// Why tokens are not those of a program. Positions are bytes of the text, counted from 0.
#[derive(Clone, Copy, Debug, PartialEq, Eq, Drop)]
pub enum ParseFault {
    /// The token here is the first that continues no program. Something of the wanted kind could stand in its place.
    /// Where the tokens run out before their end, this is the position of the last token.
    Unexpected { at: u64, wanted: Wanted },
    /// The token here is the first at which the rules, operators and postfix parts that are open pass 128.
    TooDeep { at: u64 },
    /// Memory ran out.
    NoMemory,
}

/// The program that the tokens spell, or the first fault. Tokens are let go of as the items that they spell are read.
pub fn parse(alloc: Global, mut tokens: Vec<Token>) -> Result<Program, ParseFault>
    ensures { Parses tokens.entry.items result }
{
    match program(alloc, &mut tokens) {
        Ok((program, end)) => {
            if end < tokens.len() {
                return Err(ParseFault::Unexpected {
                    at: position(tokens.as_slice(), end),
                    wanted: Wanted::Mark(Mark::End),
                });
            }
            Ok(program)
        }
        Err(stopped) => Err(fault_of(tokens.as_slice(), stopped)),
    }
}

/// The position of a token, or of the last one where there is none at the index; 0 without tokens.
fn position(tokens: &[Token], index: usize) -> u64
    ensures { result ≡ position_at tokens.now index }
{
    match tokens.get(index) {
        Some(token) => token.at,
        None => match tokens.last() {
            Some(token) => token.at,
            None => 0,
        },
    }
}

/// What a break in the tokens that are left says of all of them.
fn fault_of(tokens: &[Token], stopped: Break) -> ParseFault
    ensures { (all : List Token) → (gone : ℕ) → IsLeft all tokens.now gone → Fails (slice_get all) table.program 0 0 (later gone stopped) → Parses all (Err result) }
{
    match stopped {
        Break::Unexpected { at, wanted } => ParseFault::Unexpected {
            at: position(tokens, at),
            wanted,
        },
        Break::TooDeep { at } => ParseFault::TooDeep {
            at: position(tokens, at),
        },
        Break::NoMemory => ParseFault::NoMemory,
    }
}
