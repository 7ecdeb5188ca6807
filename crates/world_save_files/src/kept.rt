//! The parts of an older document that the next one takes over.

ghost use Rattle.std.specs.Prelude.{◌≡◌, IsSome, IfOk, Some};
ghost use Rattle.serde_json.specs.Data.{Data};
ghost use Rattle.serde_json.specs.Read.{read};
ghost use Rattle.serde_json.specs.Find.{get};
ghost use Rattle.serde_json.specs.View.{view};
ghost use Rattle.world_save_terms.specs.Compact.{IsCompact};
ghost use Rattle.world_save_files.specs.Saved.{HasKept, CanBeKept};

use crate::values::value_text;
use flow_labels::NoMemory;
use serde_json::Value;
use std::alloc::Global;
use std::str;

/// The texts of two values of a document, in the compact form.
#[derive(Drop)]
pub struct KeptTexts {
    pub pipes: Vec<u8>,
    pub threads: Vec<u8>,
}

// The text of a member that is there.
fn member_text(alloc: Global, document: &Value, name: &str) -> Result<Vec<u8>, NoMemory>
    requires { IsSome (get name.now (view document.now)) }
    ensures { IfOk result (λ text. (d : Data) → get name.now (view document.now) ≡ Some d → IsCompact d text.items) }
{
    match document.get(name) {
        Some(value) => Ok(value_text(alloc, value)?),
        None => unreachable!(),
    }
}

// The document that a text is. Only want of memory can come of a text that is one.
fn read_document(alloc: Global, text: &str) -> Result<Value, NoMemory>
    ensures { IfOk result (λ v. read text.now ≡ Some (view v)) }
{
    match Value::from_str(alloc, text) {
        Ok(document) => Ok(document),
        Err(_) => Err(NoMemory),
    }
}

fn texts_in(alloc: Global, text: &str) -> Result<KeptTexts, NoMemory>
    requires { CanBeKept text.now }
    ensures { IfOk result (λ k. (pipes threads : Data) → HasKept text.now pipes threads → IsCompact pipes k.pipes.items × IsCompact threads k.threads.items) }
{
    let document = read_document(alloc, text)?;
    let pipes = member_text(alloc, &document, "pipes")?;
    let threads = member_text(alloc, &document, "threads")?;
    Ok(KeptTexts { pipes, threads })
}

/// The texts of the pipes and of the threads of a document that has them.
///
/// # Errors
///
/// `NoMemory` where memory is refused.
pub fn kept_texts(alloc: Global, old: &[u8]) -> Result<KeptTexts, NoMemory>
    requires { CanBeKept old.now }
    ensures { IfOk result (λ k. (pipes threads : Data) → HasKept old.now pipes threads → IsCompact pipes k.pipes.items × IsCompact threads k.threads.items) }
{
    match str::from_utf8(old) {
        Ok(text) => texts_in(alloc, text),
        Err(_) => unreachable!(),
    }
}
