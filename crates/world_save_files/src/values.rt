//! The compact form of a JSON value.

ghost use Rattle.std.specs.Prelude.{IsTrue, IfOk, All};
ghost use Rattle.json.specs.Lex.{tokens};
ghost use Rattle.serde_json.specs.View.{view};
ghost use Rattle.world_save_terms.specs.Compact.{IsLaidOut, IsCompact};

use crate::numbers::is_laid_out;
use json::{Reader, Scratch, Token};
use serde_json::Value;
use std::alloc::{AllocError, Global};
use std::str;

// Whether each number of a text is written as the libraries write it.
fn are_laid_out(alloc: Global, text: &str) -> Result<bool, AllocError>
    ensures { IfOk result (λ sound. IsTrue sound → All IsLaidOut (tokens text.now)) }
{
    let mut scratch = Scratch::new(alloc);
    let mut reader = Reader::new(text, &mut scratch)?;
    for _ in 0..u64::MAX {
        match reader.next() {
            None => return Ok(true),
            Some(Token::Number(number)) => {
                if !is_laid_out(number) {
                    return Ok(false);
                }
            }
            Some(_) => {}
        }
    }
    Ok(false)
}

// The same of bytes that are a text.
fn bytes_are_laid_out(alloc: Global, bytes: &[u8]) -> Result<bool, AllocError>
    ensures { IfOk result (λ sound. IsTrue sound → All IsLaidOut (tokens bytes.now)) }
{
    match str::from_utf8(bytes) {
        Ok(text) => are_laid_out(alloc, text),
        Err(_) => Ok(false),
    }
}

/// The text of a value in the compact form, as the writer of `serde_json` gives it.
///
/// No clause of that writer bounds the length of a number, says where it has an exponent, or that it has the fewest digits. So each
/// number of the text is written once more by the library that it comes from, and compared, and its digits are tested.
///
/// # Errors
///
/// `AllocError` where memory is refused, and where a number were written otherwise or with more digits.
pub fn value_text(alloc: Global, value: &Value) -> Result<Vec<u8>, AllocError>
    ensures { IfOk result (λ text. IsCompact (view value.now) text.items) }
{
    let text = value.to_vec(alloc)?;
    if bytes_are_laid_out(alloc, text.as_slice())? {
        Ok(text)
    } else {
        Err(AllocError)
    }
}
