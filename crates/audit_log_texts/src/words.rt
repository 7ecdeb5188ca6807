//! The words of lines.

ghost use Rattle.std.specs.Prelude.{◌≡◌, ◌++◌, ◌∷◌, decimal, OnOk, string_bytes};
ghost use Rattle.flow_labels.specs.LabelText.{label_text};
ghost use Rattle.capabilities.specs.CapsText.{caps_text};
ghost use Rattle.lam_value.specs.Texts.{bytes_text, name_text, value_text};
ghost use Rattle.audit_log_texts.specs.Lines.{denied_text, fault_text, group_text, thread_text};

use crate::answers::push_fault;
use capabilities::{Caps, push_caps};
use decimal_text::push_number;
use flow_labels::{Denied, Label, TagNames, push_label, push_tag, rule_text};
use lam_asks::Fault;
use lam_value::{ByteText, Name, Value, Values, push_bytes, push_name, push_value, push_values};
use want_of_memory::NoMemory;

/// Writes `t` and a thread's number.
///
/// # Errors
///
/// `NoMemory` where memory is refused.
pub fn push_thread(text: &mut String, thread: u32) -> Result<(), NoMemory>
    ensures { OnOk result (string_bytes text.new ≡ string_bytes text.old ++ thread_text thread) }
{
    text.push('t')?;
    push_number(text, thread as u64)
}

/// Writes a space and a word.
///
/// # Errors
///
/// `NoMemory` where memory is refused.
pub fn push_word(text: &mut String, word: &str) -> Result<(), NoMemory>
    ensures { OnOk result (string_bytes text.new ≡ string_bytes text.old ++ 32 ∷ word.now) }
{
    text.push(' ')?;
    text.push_str(word)?;
    Ok(())
}

/// Writes a space and a number.
///
/// # Errors
///
/// `NoMemory` where memory is refused.
pub fn push_number_word(text: &mut String, number: u64) -> Result<(), NoMemory>
    ensures { OnOk result (string_bytes text.new ≡ string_bytes text.old ++ 32 ∷ decimal number) }
{
    text.push(' ')?;
    push_number(text, number)
}

/// Writes a space and the text of a value.
///
/// # Errors
///
/// `NoMemory` where memory is refused.
pub fn push_value_word(text: &mut String, value: &Value, names: &TagNames) -> Result<(), NoMemory>
    ensures { OnOk result (string_bytes text.new ≡ string_bytes text.old ++ 32 ∷ value_text names.now value.now) }
{
    text.push(' ')?;
    push_value(text, value, names)
}

/// Writes a space, and values in round brackets with a comma between each two.
///
/// # Errors
///
/// `NoMemory` where memory is refused.
pub fn push_group_word(text: &mut String, values: &Values, names: &TagNames) -> Result<(), NoMemory>
    ensures { OnOk result (string_bytes text.new ≡ string_bytes text.old ++ 32 ∷ group_text names.now values.now) }
{
    text.push_str(" (")?;
    push_values(text, values.as_slice(), names)?;
    text.push(')')?;
    Ok(())
}

/// Writes a space, and the word of a kind of things with a name in angle brackets.
///
/// # Errors
///
/// `NoMemory` where memory is refused.
pub fn push_name_word(
    text: &mut String,
    kind: &str,
    name: &Name,
    names: &TagNames,
) -> Result<(), NoMemory>
    ensures { OnOk result (string_bytes text.new ≡ string_bytes text.old ++ 32 ∷ name_text kind.now names.now name.now) }
{
    text.push(' ')?;
    push_name(text, kind, name, names)
}

/// Writes a space, and bytes in double quotes.
///
/// # Errors
///
/// `NoMemory` where memory is refused.
pub fn push_bytes_word(text: &mut String, bytes: &ByteText) -> Result<(), NoMemory>
    ensures { OnOk result (string_bytes text.new ≡ string_bytes text.old ++ 32 ∷ bytes_text bytes.now) }
{
    text.push(' ')?;
    push_bytes(text, bytes.bytes())
}

/// Writes a space and the text of a label.
///
/// # Errors
///
/// `NoMemory` where memory is refused.
pub fn push_label_word(text: &mut String, label: &Label, names: &TagNames) -> Result<(), NoMemory>
    ensures { OnOk result (string_bytes text.new ≡ string_bytes text.old ++ 32 ∷ label_text names.now label.now) }
{
    text.push(' ')?;
    push_label(text, label, names)
}

/// Writes a space and the text of capabilities.
///
/// # Errors
///
/// `NoMemory` where memory is refused.
pub fn push_caps_word(text: &mut String, caps: &Caps, names: &TagNames) -> Result<(), NoMemory>
    ensures { OnOk result (string_bytes text.new ≡ string_bytes text.old ++ 32 ∷ caps_text names.now caps.now) }
{
    text.push(' ')?;
    push_caps(text, caps, names)
}

/// Writes a space, and a rule with the tag by which it forbids.
///
/// # Errors
///
/// `NoMemory` where memory is refused.
pub fn push_denied_word(text: &mut String, denied: Denied, names: &TagNames) -> Result<(), NoMemory>
    ensures { OnOk result (string_bytes text.new ≡ string_bytes text.old ++ 32 ∷ denied_text names.now denied) }
{
    push_word(text, rule_text(denied.rule))?;
    text.push(' ')?;
    push_tag(text, denied.tag, names)
}

/// Writes a space and the text of a fault.
///
/// # Errors
///
/// `NoMemory` where memory is refused.
pub fn push_fault_word(text: &mut String, fault: Fault) -> Result<(), NoMemory>
    ensures { OnOk result (string_bytes text.new ≡ string_bytes text.old ++ 32 ∷ fault_text fault) }
{
    text.push(' ')?;
    push_fault(text, fault)
}
