//! The texts of faults and answers.

ghost use Rattle.std.specs.Prelude.{◌≡◌, ◌++◌, ◌∷◌, [], codes, OnOk, string_bytes};
ghost use Rattle.audit_log_texts.specs.Lines.{answer_text, denied_text, fault_name, fault_text, spaced, thrown_text};

use crate::words::{push_denied_word, push_fault_word};
use decimal_text::push_int;
use flow_labels::{Denied, TagNames};
use lam_asks::{Answer, Fault};
use lam_value::push_value;
use want_of_memory::NoMemory;

/// Writes the name of a fault, and the number of one that was thrown.
///
/// # Errors
///
/// `NoMemory` where memory is refused.
pub fn push_fault(text: &mut String, fault: Fault) -> Result<(), NoMemory>
    ensures { OnOk result (string_bytes text.new ≡ string_bytes text.old ++ fault_text fault) }
{
    text.push_str(fault_name(fault))?;
    push_thrown(text, fault)
}

/// Writes what follows the name of a fault: a space and the number of one that was thrown.
fn push_thrown(text: &mut String, fault: Fault) -> Result<(), NoMemory>
    ensures { OnOk result (string_bytes text.new ≡ string_bytes text.old ++ thrown_text fault) }
{
    match fault {
        Fault::Thrown(number) => {
            text.push(' ')?;
            push_int(text, number)
        }
        _ => Ok(()),
    }
}

fn fault_name(fault: Fault) -> &'static str
    ensures { result.now ≡ fault_name fault }
{
    match fault {
        Fault::Denied => "Denied",
        Fault::Null => "Null",
        Fault::Index => "Index",
        Fault::Zero => "Zero",
        Fault::Overflow => "Overflow",
        Fault::Deep => "Deep",
        Fault::Long => "Long",
        Fault::Form => "Form",
        Fault::HomeFull => "HomeFull",
        Fault::Exists => "Exists",
        Fault::NoEntry => "NoEntry",
        Fault::DirFull => "DirFull",
        Fault::BadName => "BadName",
        Fault::Child => "Child",
        Fault::Thrown(_) => "Thrown",
    }
}

/// Writes an answer: `done`, `entered`, a value, `refused` with the rule and its tag, or `failed` with the fault.
///
/// # Errors
///
/// `NoMemory` where memory is refused.
pub fn push_answer(text: &mut String, answer: &Answer, names: &TagNames) -> Result<(), NoMemory>
    ensures { OnOk result (string_bytes text.new ≡ string_bytes text.old ++ answer_text names.now answer.now) }
{
    match answer {
        Answer::Done => push_plain(text, "done"),
        Answer::Entered => push_plain(text, "entered"),
        Answer::Val(value) => push_value(text, value, names),
        Answer::Refused(denied) => push_refused(text, *denied, names),
        Answer::Failed(fault) => push_failed(text, *fault),
    }
}

fn push_plain(text: &mut String, word: &str) -> Result<(), NoMemory>
    ensures { OnOk result (string_bytes text.new ≡ string_bytes text.old ++ word.now) }
{
    text.push_str(word)?;
    Ok(())
}

fn push_refused(text: &mut String, denied: Denied, names: &TagNames) -> Result<(), NoMemory>
    ensures { OnOk result (string_bytes text.new ≡ string_bytes text.old ++ spaced (codes "refused" ∷ denied_text names.now denied ∷ [])) }
{
    text.push_str("refused")?;
    push_denied_word(text, denied, names)
}

fn push_failed(text: &mut String, fault: Fault) -> Result<(), NoMemory>
    ensures { OnOk result (string_bytes text.new ≡ string_bytes text.old ++ spaced (codes "failed" ∷ fault_text fault ∷ [])) }
{
    text.push_str("failed")?;
    push_fault_word(text, fault)
}
