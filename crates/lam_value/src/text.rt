//! The texts of values.

ghost use Rattle.std.specs.Prelude.{◌≡◌, ◌<◌, ◌/◌, ◌%◌, ◌++◌, ◌∷◌, [], codes, decimal, IfOk, OnOk, string_bytes};
ghost use Rattle.lam_value.specs.Texts.{hex_digit, escaped, bytes_text, name_text, value_text, values_text, after_commas};

use crate::names::Name;
use crate::values::Value;
use lam_value_homes::{
    Form, NoMemory, TagNames, push_int, push_label, push_number, push_sets, push_tag,
};
use std::alloc::Global;

/// The text of a value: a number in decimal; `true`, `false` or `null`; bytes in double quotes; a
/// reference as `obj<MAKER|OWN|N>`, and an array's with its length; `t` and a thread's number; a tag, a
/// label or capabilities by the names of their tags.
///
/// Of bytes, the printable ones of ASCII stand as they are, but `"` and `\`, before which stands `\`; all
/// others are `\x` and two lower-case hexadecimal digits.
///
/// # Errors
///
/// `NoMemory` where memory is refused.
pub fn value_text(v: &Value, names: &TagNames) -> Result<String, NoMemory>
    ensures { IfOk result (λ t. string_bytes t ≡ value_text names.now v.now) }
{
    let mut text = String::new(names.allocator());
    push_value(&mut text, v, names)?;
    Ok(text)
}

/// The texts of values, with a comma between each two.
///
/// # Errors
///
/// `NoMemory` where memory is refused.
pub fn values_text(values: &[Value], names: &TagNames) -> Result<String, NoMemory>
    ensures { IfOk result (λ t. string_bytes t ≡ values_text names.now values.now) }
{
    let mut text = String::new(names.allocator());
    push_values(&mut text, values, names)?;
    Ok(text)
}

/// The text of bytes, in double quotes.
///
/// # Errors
///
/// `NoMemory` where memory is refused.
pub fn bytes_text(alloc: Global, bytes: &[u8]) -> Result<String, NoMemory>
    ensures { IfOk result (λ t. string_bytes t ≡ bytes_text bytes.now) }
{
    let mut text = String::new(alloc);
    push_bytes(&mut text, bytes)?;
    Ok(text)
}

/// Writes the text of a value at the end of a text, and makes no other on the way.
///
/// # Errors
///
/// `NoMemory` where memory is refused.
pub fn push_value(text: &mut String, v: &Value, names: &TagNames) -> Result<(), NoMemory>
    ensures { OnOk result (string_bytes text.new ≡ string_bytes text.old ++ value_text names.now v.now) }
{
    match v {
        Value::Int(n) => push_int(text, *n),
        Value::Bool(true) => push_word(text, "true"),
        Value::Bool(false) => push_word(text, "false"),
        Value::Bytes(bytes) => push_bytes(text, bytes.bytes()),
        Value::Nothing => push_word(text, "null"),
        Value::Obj(name) => push_name(text, "obj", name, names),
        Value::Arr { name, len } => push_array(text, name, *len, names),
        Value::File(name) => push_name(text, "file", name, names),
        Value::Dir(name) => push_name(text, "dir", name, names),
        Value::Pipe(name) => push_name(text, "pipe", name, names),
        Value::Thread(t) => push_thread(text, *t),
        Value::Tag(tag) => push_tag(text, *tag, names),
        Value::Lab(label) => push_label(text, label, names),
        Value::CapV { plus, minus } => push_sets(text, Form::Caps, plus, minus, names),
    }
}

fn push_word(text: &mut String, word: &str) -> Result<(), NoMemory>
    ensures { OnOk result (string_bytes text.new ≡ string_bytes text.old ++ word.now) }
{
    text.push_str(word)?;
    Ok(())
}

/// Writes a character of ASCII.
fn push_char(text: &mut String, letter: char) -> Result<(), NoMemory>
    requires { letter < 128 }
    ensures { OnOk result (string_bytes text.new ≡ string_bytes text.old ++ letter ∷ []) }
{
    text.push(letter)?;
    Ok(())
}

/// Writes the texts of values at the end of a text, with a comma between each two.
///
/// # Errors
///
/// `NoMemory` where memory is refused.
pub fn push_values(text: &mut String, values: &[Value], names: &TagNames) -> Result<(), NoMemory>
    ensures { OnOk result (string_bytes text.new ≡ string_bytes text.old ++ values_text names.now values.now) }
{
    if let Some((first, rest)) = values.split_first() {
        push_value(text, first, names)?;
        push_rest(text, rest, names)
    } else {
        Ok(())
    }
}

/// Each value with a comma before it.
fn push_rest(text: &mut String, rest: &[Value], names: &TagNames) -> Result<(), NoMemory>
    ensures { OnOk result (string_bytes text.new ≡ string_bytes text.old ++ after_commas names.now rest.now) }
{
    for value in rest {
        text.push(',')?;
        push_value(text, value, names)?;
    }
    Ok(())
}

fn push_thread(text: &mut String, t: u32) -> Result<(), NoMemory>
    ensures { OnOk result (string_bytes text.new ≡ string_bytes text.old ++ 116 ∷ decimal t) }
{
    text.push('t')?;
    push_number(text, t as u64)
}

/// Writes a word, and a name in angle brackets, at the end of a text.
///
/// # Errors
///
/// `NoMemory` where memory is refused.
pub fn push_name(
    text: &mut String,
    word: &str,
    name: &Name,
    names: &TagNames,
) -> Result<(), NoMemory>
    ensures { OnOk result (string_bytes text.new ≡ string_bytes text.old ++ name_text word.now names.now name.now) }
{
    let (maker, own) = (name.maker(), name.own());
    text.push_str(word)?;
    text.push('<')?;
    push_label(text, maker, names)?;
    text.push('|')?;
    push_label(text, own, names)?;
    text.push('|')?;
    push_number(text, name.n())?;
    push_char(text, '>')
}

fn push_array(text: &mut String, name: &Name, len: u64, names: &TagNames) -> Result<(), NoMemory>
    ensures { OnOk result (string_bytes text.new ≡ string_bytes text.old ++ name_text (codes "arr") names.now name.now ++ 91 ∷ decimal len ++ 93 ∷ []) }
{
    push_name(text, "arr", name, names)?;
    text.push('[')?;
    push_number(text, len)?;
    push_char(text, ']')
}

/// Writes the text of bytes, in double quotes, at the end of a text.
///
/// # Errors
///
/// `NoMemory` where memory is refused.
pub fn push_bytes(text: &mut String, bytes: &[u8]) -> Result<(), NoMemory>
    ensures { OnOk result (string_bytes text.new ≡ string_bytes text.old ++ bytes_text bytes.now) }
{
    text.push('"')?;
    for byte in bytes {
        push_escaped(text, *byte)?;
    }
    push_char(text, '"')
}

fn push_escaped(text: &mut String, byte: u8) -> Result<(), NoMemory>
    ensures { OnOk result (string_bytes text.new ≡ string_bytes text.old ++ escaped byte) }
{
    match byte {
        b'"' => push_word(text, "\\\""),
        b'\\' => push_word(text, "\\\\"),
        32..=126 => push_char(text, byte as char),
        _ => push_hex(text, byte),
    }
}

/// Writes a byte by its two digits.
fn push_hex(text: &mut String, byte: u8) -> Result<(), NoMemory>
    ensures { OnOk result (string_bytes text.new ≡ string_bytes text.old ++ 92 ∷ 120 ∷ hex_digit (byte / 16) ∷ hex_digit (byte % 16) ∷ []) }
{
    push_word(text, "\\x")?;
    push_char(text, hex_digit(byte / 16))?;
    push_char(text, hex_digit(byte % 16))
}

fn hex_digit(digit: u8) -> char
    requires { digit < 16 }
    ensures value { result ≡ hex_digit digit }
    ensures ascii { result < 128 }
{
    if digit < 10 {
        (b'0' + digit) as char
    } else {
        (b'a' + (digit - 10)) as char
    }
}
