//! The words after the program's name, as the process has them.

use std::alloc::AllocError;
use std::env::{Env, FillError};

/// The words after the program's name. A word that is not UTF-8 is in no form, and nor is the empty word: that stands
/// for it, as the last one, so that a call names its index.
///
/// # Errors
///
/// Where memory runs out.
pub fn words_of<R: Env + AllocGlobal>(rt: &R) -> Result<Vec<String>, AllocError> {
    let mut words = Vec::new(rt.alloc());
    for number in 1..usize::MAX {
        let Some(bytes) = argument(rt, number)? else {
            break;
        };
        let Ok(word) = String::from_utf8(bytes) else {
            words.push(String::new(rt.alloc()))?;
            break;
        };
        words.push(word)?;
    }
    Ok(words)
}

/// The bytes of an argument, where there is one of this number.
fn argument<R: Env + AllocGlobal>(rt: &R, number: usize) -> Result<Option<Vec<u8>>, AllocError> {
    for doublings in 8..63u32 {
        let mut bytes = vec![in rt.alloc(); 0u8; 1usize << doublings]?;
        match rt.arg(number, bytes.as_mut_slice()) {
            Ok(len) => {
                bytes.truncate(len);
                return Ok(Some(bytes));
            }
            Err(FillError::NotPresent) => return Ok(None),
            Err(FillError::TooLong) => {}
        }
    }
    Err(AllocError)
}
