//! The writer of decimal numbers, at the end of a text or of bytes. Its only error is `NoMemory`.

ghost use Rattle.std.specs.Prelude.{◌≡◌, ◌++◌, OnOk, string_bytes, decimal};
ghost use Rattle.std.specs.Fmt.{signed_decimal};

use itoa::Buffer;
use want_of_memory::NoMemory;

/// Writes a number.
pub fn push_number(text: &mut String, number: u64) -> Result<(), NoMemory>
    ensures { OnOk result (string_bytes text.new ≡ string_bytes text.old ++ decimal number) }
{
    let mut digits = Buffer::new();
    text.push_str(digits.format(number))?;
    Ok(())
}

/// Writes a whole number.
pub fn push_int(text: &mut String, int: i64) -> Result<(), NoMemory>
    ensures { OnOk result (string_bytes text.new ≡ string_bytes text.old ++ signed_decimal int) }
{
    let mut digits = Buffer::new();
    text.push_str(digits.format(int))?;
    Ok(())
}

/// Writes a number to bytes.
pub fn push_number_bytes(text: &mut Vec<u8>, number: u64) -> Result<(), NoMemory>
    ensures { OnOk result (text.new.items ≡ text.old.items ++ decimal number) }
{
    let mut digits = Buffer::new();
    text.extend_from_slice(digits.format(number).as_bytes())?;
    Ok(())
}

/// Writes a whole number to bytes.
pub fn push_int_bytes(text: &mut Vec<u8>, int: i64) -> Result<(), NoMemory>
    ensures { OnOk result (text.new.items ≡ text.old.items ++ signed_decimal int) }
{
    let mut digits = Buffer::new();
    text.extend_from_slice(digits.format(int).as_bytes())?;
    Ok(())
}
