//! The values of a document, each in its compact text.

ghost use Rattle.std.specs.Prelude.{◌≡◌, ◌<◌, OnOk, decimal};
ghost use Rattle.std.specs.Char.{digit_char};
ghost use Rattle.json.specs.Print.{escape, escape_byte, quoted};
ghost use Rattle.hex.specs.Hex.{encode_lower};
ghost use Rattle.flow_labels.specs.LabelText.{label_text};
ghost use Rattle.world_save_text.specs.Writing.{Wrote};

use crate::writer::{JsonWriter, raw};
use flow_labels::{Label, NoMemory, TagNames, label_text};
use std::alloc::Global;
use world_save_items::letter;

/// A digit below 16, as a lower-case letter from ten on.
fn digit(n: u8) -> u8
    requires { n < 16 }
    ensures { result ≡ digit_char n }
{
    if n < 10 { b'0' + n } else { b'a' + (n - 10) }
}

/// Writes a byte of a text between quotes.
fn escaped_byte(writer: &mut JsonWriter, b: u8) -> Result<(), NoMemory>
    ensures { OnOk result (Wrote writer.old writer.new (escape_byte b)) }
{
    let short = letter(b);
    if 0 < short {
        return raw(writer, &[b'\\', short]);
    }
    if b < 32 {
        return raw(
            writer,
            &[b'\\', b'u', b'0', b'0', digit(b / 16), digit(b % 16)],
        );
    }
    raw(writer, &[b])
}

/// Writes a text as it stands between quotes.
pub fn escaped(writer: &mut JsonWriter, text: &[u8]) -> Result<(), NoMemory>
    ensures { OnOk result (Wrote writer.old writer.new (escape text.now)) }
{
    let _count = writer.count;
    let mut rest = text;
    while let Some((b, after)) = rest.split_first() {
        escaped_byte(writer, *b)?;
        rest = after;
    }
    Ok(())
}

/// Writes a text in quotes.
pub fn quoted(writer: &mut JsonWriter, text: &[u8]) -> Result<(), NoMemory>
    ensures { OnOk result (Wrote writer.old writer.new (quoted text.now)) }
{
    raw(writer, b"\"")?;
    escaped(writer, text)?;
    raw(writer, b"\"")
}

/// Writes a number in decimal.
pub fn number(writer: &mut JsonWriter, n: u64) -> Result<(), NoMemory>
    ensures { OnOk result (Wrote writer.old writer.new (decimal n)) }
{
    let mut buffer = itoa::Buffer::new();
    raw(writer, buffer.format(n).as_bytes())
}

/// Writes bytes as their digits, in quotes.
pub fn digits(alloc: Global, writer: &mut JsonWriter, bytes: &[u8]) -> Result<(), NoMemory>
    ensures { OnOk result (Wrote writer.old writer.new (quoted (encode_lower bytes.now))) }
{
    let text = hex::encode(alloc, bytes)?;
    quoted(writer, text.as_bytes())
}

/// Writes the text of a label, in quotes.
pub fn label(writer: &mut JsonWriter, l: &Label, names: &TagNames) -> Result<(), NoMemory>
    ensures { OnOk result (Wrote writer.old writer.new (quoted (label_text names.now l.now))) }
{
    let text = label_text(l, names)?;
    quoted(writer, text.as_bytes())
}
