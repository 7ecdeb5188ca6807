//! The lexing of a whole text.

ghost use Rattle.std.specs.Prelude.{◌≡◌, ◌<◌, ◌+◌, ◌-◌, ◌*◌, ◌^◌, ◌⊎◌, ◌∷◌, ◌++◌, ℕ, true, List, length, IfSome, MatchResult, IsUtf8, chars, encode_utf8_all};
ghost use Rattle.lam_lexer.specs.Characters as spec;
ghost use Rattle.lam_lexer.specs.Lexed.{Lexed, FirstFault, word_kind, Wrong};
ghost use Rattle.lam_lexer.specs.Reading.{size, HasEnd, OrNoMemory, IsFault, IsValue, Begins, IsTaken, tokens_of};
ghost use Rattle.lam_lexer.specs.declared.token.Token.{Token};
ghost use Rattle.lam_lexer.specs.declared.fault.LexFault.{LexFault};
ghost use Rattle.lam_lexer.specs.declared.fault.LexFault.TheVariants.{NoMemory as no_memory};

use crate::fault::LexFault;
use crate::rest::{behind_first, first_char, split_first};
use crate::start::{Start, continues_name, is_digit, start_of};
use crate::text::text_run;
use crate::token::{Identifier, Literal, Token, TokenKind};
use crate::words::reserved;
use std::alloc::Global;

/// What was read from a character on: a token or none, what is left behind it, and the position there.
#[derive(Drop)]
pub struct Taken<'a> {
    pub token: Option<Token<'a>>,
    pub rest: &'a str,
    pub to: u64,
}

fn word_kind(name: &str) -> TokenKind<'_>
    ensures { result ≡ word_kind name.now }
{
    match reserved(name) {
        Some(kind) => kind,
        None => TokenKind::Id(Identifier::new(name)),
    }
}

/// The front of a text before what is left of it.
fn before<'a>(text: &'a str, rest: &str) -> &'a str
    requires { HasEnd (chars text.now) (chars rest.now) }
    ensures { (front : List ℕ) → chars text.now ≡ front ++ chars rest.now → result.now ≡ encode_utf8_all front }
{
    let (front, _) = text.split_at(text.len() - rest.len());
    front
}

/// The identifier that a text begins with, and what is left behind it.
fn name_run<'a>(text: &'a str, first: char, after: &'a str) -> (&'a str, &'a str)
    requires { chars text.now ≡ first ∷ chars after.now }
    ensures bytes { result.0.now ≡ encode_utf8_all (first ∷ spec.run spec.continues_name (chars after.now)) }
    ensures rest { chars result.1.now ≡ spec.past spec.continues_name (chars after.now) }
    ensures utf8 { IsUtf8 result.1.now }
{
    let mut rest = after;
    while let Some((c, behind)) = split_first(rest) {
        if !continues_name(c) {
            break;
        }
        rest = behind;
    }
    (before(text, rest), rest)
}

/// What is left behind a line, and the position there.
fn line_run(text: &str, at: u64) -> (&str, u64)
    requires { at + size (chars text.now) < 2 ^ 64 }
    ensures rest { chars result.0.now ≡ spec.past spec.stays_on_line (chars text.now) }
    ensures position { result.1 ≡ at + size (spec.run spec.stays_on_line (chars text.now)) }
    ensures utf8 { IsUtf8 result.0.now }
{
    let mut rest = text;
    let mut to = at;
    while let Some((c, behind)) = split_first(rest) {
        if c == '\n' {
            break;
        }
        to += c.len_utf8() as u64;
        rest = behind;
    }
    (rest, to)
}

const MAX: u64 = 9223372036854775807;

fn with_digit(value: Option<u64>, c: char) -> Option<u64>
    requires digit { spec.is_digit c ≡ true }
    requires value { IfSome value (λ v. v < 2 ^ 63) }
    ensures { (n : ℕ) → IsValue n value → IsValue (n * 10 + (c - 48)) result }
{
    let digit = u64::from(c as u32 - '0' as u32);
    match value {
        None => None,
        Some(v) => {
            if v <= (MAX - digit) / 10 {
                Some(v * 10 + digit)
            } else {
                None
            }
        }
    }
}

/// The value of a digit and those that follow, if that is small enough, how many follow, and what is left behind them.
fn digits_run(first: char, after: &str) -> (Option<u64>, u64, &str)
    requires digit { spec.is_digit first ≡ true }
    requires short { size (chars after.now) < 2 ^ 64 }
    ensures value { IsValue (spec.number (first ∷ spec.run spec.is_digit (chars after.now))) result.0 }
    ensures count { result.1 ≡ length (spec.run spec.is_digit (chars after.now)) }
    ensures rest { chars result.2.now ≡ spec.past spec.is_digit (chars after.now) }
    ensures utf8 { IsUtf8 result.2.now }
{
    let mut value = Some(u64::from(first as u32 - '0' as u32));
    let mut count = 0;
    let mut rest = after;
    while let Some((c, behind)) = split_first(rest) {
        if !is_digit(c) {
            break;
        }
        value = with_digit(value, c);
        count += 1;
        rest = behind;
    }
    (value, count, rest)
}

/// Whether a text goes on an identifier.
fn joins_name(text: &str) -> bool
    ensures { result ≡ spec.goes_on spec.continues_name (chars text.now) }
{
    match first_char(text) {
        Some(c) => continues_name(c),
        None => false,
    }
}

fn name_token<'a>(text: &'a str, c: char, after: &'a str, at: u64) -> Taken<'a>
    requires parts { chars text.now ≡ c ∷ chars after.now }
    requires place { at + size (c ∷ chars after.now) < 2 ^ 64 }
    ensures { IsTaken at Start.Name c (chars after.now) result }
{
    let (name, rest) = name_run(text, c, after);
    let to = at + name.len() as u64;
    let kind = word_kind(name);
    Taken {
        token: Some(Token { at, kind }),
        rest,
        to,
    }
}

fn number_token(c: char, after: &str, at: u64) -> Result<Taken<'_>, LexFault>
    requires digit { spec.is_digit c ≡ true }
    requires place { at + size (c ∷ chars after.now) < 2 ^ 64 }
    ensures { MatchResult result (IsTaken at Start.Number c (chars after.now)) (Wrong at Start.Number c (chars after.now)) }
{
    let (value, count, rest) = digits_run(c, after);
    let Some(n) = value else {
        return Err(LexFault::BadNumber { at });
    };
    if joins_name(rest) {
        return Err(LexFault::BadNumber { at });
    }
    Ok(Taken {
        token: Some(Token {
            at,
            kind: TokenKind::Number(n as i64),
        }),
        rest,
        to: at + 1 + count,
    })
}

fn text_token<'a>(alloc: Global, c: char, after: &'a str, at: u64) -> Result<Taken<'a>, LexFault>
    requires { at + size (c ∷ chars after.now) < 2 ^ 64 }
    ensures { MatchResult result (IsTaken at Start.Text c (chars after.now)) (OrNoMemory (Wrong at Start.Text c (chars after.now))) }
{
    match text_run(alloc, after, at) {
        Ok((bytes, rest, to)) => match Literal::new(alloc, bytes) {
            Ok(literal) => Ok(Taken {
                token: Some(Token {
                    at,
                    kind: TokenKind::Text(literal),
                }),
                rest,
                to,
            }),
            Err(_) => Err(LexFault::NoMemory),
        },
        Err(fault) => Err(fault),
    }
}

/// What a text's first character begins is read.
fn take<'a>(
    alloc: Global,
    begins: Start<'a>,
    text: &'a str,
    c: char,
    after: &'a str,
    at: u64,
) -> Result<Taken<'a>, LexFault>
    requires begins { Begins begins c (spec.first (chars after.now)) }
    requires parts { chars text.now ≡ c ∷ chars after.now }
    requires place { at + size (c ∷ chars after.now) < 2 ^ 64 }
    ensures { MatchResult result (IsTaken at begins.entry c (chars after.now)) (OrNoMemory (Wrong at begins.entry c (chars after.now))) }
{
    match begins {
        Start::Space => Ok(Taken {
            token: None,
            rest: after,
            to: at + 1,
        }),
        Start::Comment => {
            let (rest, to) = line_run(after, at + 1);
            Ok(Taken {
                token: None,
                rest,
                to,
            })
        }
        Start::Name => Ok(name_token(text, c, after, at)),
        Start::Number => number_token(c, after, at),
        Start::Text => text_token(alloc, c, after, at),
        Start::Mark(kind) => Ok(Taken {
            token: Some(Token { at, kind }),
            rest: after,
            to: at + 1,
        }),
        Start::LongMark(kind) => Ok(Taken {
            token: Some(Token { at, kind }),
            rest: behind_first(after),
            to: at + 2,
        }),
        Start::Nothing => Err(LexFault::BadChar { at }),
    }
}

fn keep<'a>(tokens: &mut Vec<Token<'a>>, token: Option<Token<'a>>) -> Result<(), LexFault>
    ensures { MatchResult result (λ _. tokens.new.items ≡ tokens.old.items ++ tokens_of token.entry) (λ f. f ≡ no_memory) }
{
    match token {
        Some(token) => {
            tokens.push(token)?;
            Ok(())
        }
        None => Ok(()),
    }
}

fn lex_text<'a>(alloc: Global, text: &'a str) -> Result<Vec<Token<'a>>, LexFault>
    ensures { MatchResult result (λ v. Lexed (chars text.now) v.items) (IsFault (chars text.now)) }
{
    let mut tokens = Vec::new(alloc);
    let mut rest = text;
    let mut at = 0;
    while let Some((c, after)) = split_first(rest) {
        match take(alloc, start_of(c, after), rest, c, after, at) {
            Ok(taken) => {
                keep(&mut tokens, taken.token)?;
                rest = taken.rest;
                at = taken.to;
            }
            Err(fault) => return Err(fault),
        }
    }
    tokens.push(Token {
        at,
        kind: TokenKind::End,
    })?;
    Ok(tokens)
}

/// The tokens of a text, where it has no lexical fault; the last is the end, at the text's length.
/// Else its first fault in reading order. Only want of memory is free.
pub fn lex<'a>(alloc: Global, text: &'a str) -> Result<Vec<Token<'a>>, LexFault>
    // What is found is the text's.
    ensures exact { MatchResult result (λ v. Lexed (chars text.now) v.items) (IsFault (chars text.now)) }
    // Its tokens are found, where it has any.
    ensures tokens { (ts : List Token) → Lexed (chars text.now) ts → MatchResult result (λ v. v.items ≡ ts) (λ f. f ≡ no_memory) }
    // Its first fault is found, where it has any.
    ensures fault { (f : LexFault) → FirstFault (chars text.now) f → MatchResult result (λ _. ⊥) (λ e. (e ≡ no_memory) ⊎ (e ≡ f)) }
{
    lex_text(alloc, text)
}
