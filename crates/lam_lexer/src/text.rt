//! The lexing of text literals, with their escapes.

ghost use Rattle.std.specs.Prelude.{◌≡◌, ◌<◌, ◌+◌, ◌^◌, IfOk, IfSome, MatchResult, IsUtf8, chars, encode_utf8, ◌++◌, OnOk};
ghost use Rattle.lam_lexer.specs.Text as spec;
ghost use Rattle.lam_lexer.specs.Reading.{size, IsPart, IsText, OrNoMemory};

use crate::fault::LexFault;
use crate::rest::split_first;
use crate::start::is_digit;
use std::alloc::{AllocError, Global};

/// A text means at most so many bytes.
const ROOM: usize = 65536;

/// What comes next in a text, and what is left behind it.
#[derive(Clone, Copy, Drop)]
pub enum Part<'a> {
    EndQuote(&'a str),
    /// A character that means itself.
    Char(char, &'a str),
    /// The escape of a byte, and of how many characters it is.
    Byte(u8, u64, &'a str),
    BadEscape,
    NoEnd,
}

fn letter(c: char) -> Option<u8>
    ensures { result ≡ spec.letter c }
{
    match c {
        'n' => Some(b'\n'),
        't' => Some(b'\t'),
        '"' => Some(b'"'),
        '\\' => Some(b'\\'),
        _ => None,
    }
}

fn hex_value(c: char) -> Option<u8>
    ensures is { result ≡ spec.hex_value c }
    ensures small { IfSome result (λ x. x < 16) }
{
    if is_digit(c) {
        Some((c as u32 - '0' as u32) as u8)
    } else if 'a' <= c && c <= 'f' {
        Some((c as u32 - 'a' as u32) as u8 + 10)
    } else if 'A' <= c && c <= 'F' {
        Some((c as u32 - 'A' as u32) as u8 + 10)
    } else {
        None
    }
}

/// What a text means behind `\x`.
fn hex_part(text: &str) -> Part<'_>
    ensures { IsPart (spec.after_x (chars text.now)) result }
{
    let Some((high, behind)) = split_first(text) else {
        return Part::BadEscape;
    };
    let Some((low, rest)) = split_first(behind) else {
        return Part::BadEscape;
    };
    let Some(x) = hex_value(high) else {
        return Part::BadEscape;
    };
    let Some(y) = hex_value(low) else {
        return Part::BadEscape;
    };
    Part::Byte(x * 16 + y, 4, rest)
}

/// What a text means behind a backslash.
fn escape_part(text: &str) -> Part<'_>
    ensures { IsPart (spec.after_backslash (chars text.now)) result }
{
    let Some((c, rest)) = split_first(text) else {
        return Part::BadEscape;
    };
    if c == 'x' {
        return hex_part(rest);
    }
    let Some(b) = letter(c) else {
        return Part::BadEscape;
    };
    Part::Byte(b, 2, rest)
}

fn next_part(text: &str) -> Part<'_>
    ensures { IsPart (spec.part (chars text.now)) result }
{
    let Some((c, rest)) = split_first(text) else {
        return Part::NoEnd;
    };
    if c == '"' {
        return Part::EndQuote(rest);
    }
    if c == '\\' {
        return escape_part(rest);
    }
    if c == '\n' {
        return Part::NoEnd;
    }
    Part::Char(c, rest)
}

fn push_char(bytes: &mut Vec<u8>, c: char) -> Result<(), AllocError>
    ensures { OnOk result (bytes.new.items ≡ bytes.old.items ++ encode_utf8 c) }
{
    let mut room = [0u8; 4];
    bytes.extend_from_slice(c.encode_utf8(&mut room).as_bytes())
}

/// The bytes that the text behind a quote means, what is left behind its last quote, and the position there.
pub fn text_run<'a>(
    alloc: Global,
    text: &'a str,
    quote: u64,
) -> Result<(Vec<u8>, &'a str, u64), LexFault>
    requires { quote + 1 + size (chars text.now) < 2 ^ 64 }
    ensures exact { MatchResult result (λ x. IsText (chars text.now) quote x.0.items (chars x.1.now) x.2) (OrNoMemory (spec.TextFault quote 0 (quote + 1) (chars text.now))) }
    ensures utf8 { IfOk result (λ x. IsUtf8 x.1.now) }
{
    let mut bytes = Vec::new(alloc);
    let mut rest = text;
    let mut to = quote + 1;
    loop {
        match next_part(rest) {
            Part::EndQuote(behind) => return Ok((bytes, behind, to + 1)),
            Part::Char(c, behind) => {
                let n = c.len_utf8();
                if bytes.len() + n > ROOM {
                    return Err(LexFault::OpenText { at: quote });
                }
                push_char(&mut bytes, c)?;
                rest = behind;
                to += n as u64;
            }
            Part::Byte(b, n, behind) => {
                if bytes.len() == ROOM {
                    return Err(LexFault::OpenText { at: quote });
                }
                bytes.push(b)?;
                rest = behind;
                to += n;
            }
            Part::BadEscape => return Err(LexFault::BadEscape { at: to }),
            Part::NoEnd => return Err(LexFault::OpenText { at: quote }),
        }
    }
}
