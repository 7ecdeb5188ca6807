//! The writer of a text, or of its length alone.

ghost use Rattle.std.specs.Prelude.{◌≡◌, [], Some, None, OnOk, option_map};
ghost use Rattle.world_save_text.specs.Writing.{Wrote, kept, lengthened};

use flow_labels::NoMemory;
use std::alloc::Global;
use world_save_items::more;

/// What writes a text, or only counts its bytes.
#[derive(Drop)]
pub struct JsonWriter {
    /// How many bytes were written, at most the greatest number.
    pub count: u64,
    /// The text, where it is kept.
    pub kept: Option<Vec<u8>>,
}

impl JsonWriter {
    /// A writer that counts.
    pub fn counting() -> JsonWriter
        ensures count { result.count ≡ 0 }
        ensures text { kept result ≡ None }
    {
        JsonWriter {
            count: 0,
            kept: None,
        }
    }

    /// A writer that keeps what it writes.
    pub fn writing(alloc: Global) -> JsonWriter
        ensures count { result.count ≡ 0 }
        ensures text { kept result ≡ Some [] }
    {
        JsonWriter {
            count: 0,
            kept: Some(Vec::new(alloc)),
        }
    }
}

/// Puts bytes at the end of the text, where it is kept.
fn keep(kept: &mut Option<Vec<u8>>, bytes: &[u8]) -> Result<(), NoMemory>
    ensures { OnOk result (option_map (λ v. v.items) kept.new ≡ lengthened (option_map (λ v. v.items) kept.old) bytes.now) }
{
    match kept {
        None => Ok(()),
        Some(text) => {
            text.extend_from_slice(bytes)?;
            Ok(())
        }
    }
}

/// Writes bytes.
///
/// # Errors
///
/// `NoMemory` where memory is refused; so it is of each call that writes.
pub fn raw(writer: &mut JsonWriter, bytes: &[u8]) -> Result<(), NoMemory>
    ensures { OnOk result (Wrote writer.old writer.new bytes.now) }
{
    keep(&mut writer.kept, bytes)?;
    writer.count = more(writer.count, bytes.len() as u64);
    Ok(())
}
