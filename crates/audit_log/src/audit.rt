//! The text of an audit.

ghost use Rattle.std.specs.Prelude.{◌≡◌, ◌++◌, ◌∷◌, [], codes, IfOk, OnOk, string_bytes};
ghost use Rattle.flow_labels.specs.LabelText.{label_text};
ghost use Rattle.lam_value.specs.Texts.{value_text};
ghost use Rattle.audit_log_texts.specs.Lines.{line};
ghost use Rattle.audit_log.specs.Log.{are_public, note_line, noted_lines, public_mark, release_note, refusal_note, taken_text, turn_text};

use audit_log_notes::{Noted, refusal_of};
use audit_log_texts::{
    push_caps_word, push_denied_word, push_head, push_label_word, push_value_word, push_word,
};
use capabilities::Caps;
use decimal_text::push_number;
use flow_labels::{Denied, Label, TagNames};
use lam_asks::{Answer, Ask, Event, What};
use lam_value::Value;
use std::alloc::Global;
use want_of_memory::NoMemory;

/// The text of an audit: a line for each release and each refusal. What is public is the same in each world of a run.
///
/// It takes time linear in the length of the text.
///
/// # Errors
///
/// `NoMemory` where memory is refused, and no other.
pub fn audit_text(
    alloc: Global,
    noted: &[Noted],
    names: &TagNames,
    public: &Caps,
) -> Result<String, NoMemory>
    ensures { IfOk result (λ t. string_bytes t ≡ noted_lines names.now public.now noted.now) }
{
    let mut text = String::new(alloc);
    for one in noted {
        push_noted(&mut text, one, names, public)?;
    }
    Ok(text)
}

/// Writes the audit line of a release or a refusal, at the end of a text.
///
/// # Errors
///
/// `NoMemory` where memory is refused.
pub fn push_noted(
    text: &mut String,
    noted: &Noted,
    names: &TagNames,
    public: &Caps,
) -> Result<(), NoMemory>
    ensures { OnOk result (string_bytes text.new ≡ string_bytes text.old ++ note_line names.now public.now noted.now.turn noted.now.event noted.now.by) }
{
    match &noted.by {
        Some(by) => push_released(text, noted.turn, &noted.event, by, names, public),
        None => push_refused(
            text,
            noted.turn,
            &noted.event,
            refusal_of(&noted.event.what),
            names,
        ),
    }
}

fn push_refused(
    text: &mut String,
    turn: u64,
    event: &Event,
    refusal: Option<Denied>,
    names: &TagNames,
) -> Result<(), NoMemory>
    ensures { OnOk result (string_bytes text.new ≡ string_bytes text.old ++ refusal_note names.now (turn_text names.now turn event.now) refusal) }
{
    match refusal {
        None => Ok(()),
        Some(denied) => {
            push_turn(text, turn, event, names)?;
            push_word(text, "refused")?;
            push_denied_word(text, denied, names)?;
            text.push('\n')?;
            Ok(())
        }
    }
}

fn push_released(
    text: &mut String,
    turn: u64,
    event: &Event,
    by: &Caps,
    names: &TagNames,
    public: &Caps,
) -> Result<(), NoMemory>
    ensures { OnOk result (string_bytes text.new ≡ string_bytes text.old ++ release_note names.now public.now (turn_text names.now turn event.now) event.now.what by.now) }
{
    match &event.what {
        What::Asked {
            ask: Ask::Enter { label, .. },
            ..
        } => push_entry(text, turn, event, label, by, names, public),
        What::Asked {
            ask: Ask::CopyTo { .. },
            answer: Answer::Val(value),
        } => push_copied(text, turn, event, value, by, names, public),
        _ => Ok(()),
    }
}

fn push_entry(
    text: &mut String,
    turn: u64,
    event: &Event,
    label: &Label,
    by: &Caps,
    names: &TagNames,
    public: &Caps,
) -> Result<(), NoMemory>
    ensures { OnOk result (string_bytes text.new ≡ string_bytes text.old ++ line (turn_text names.now turn event.now ∷ codes "enter" ∷ label_text names.now label.now ∷ taken_text names.now public.now by.now ∷ [])) }
{
    push_turn(text, turn, event, names)?;
    push_word(text, "enter")?;
    push_label_word(text, label, names)?;
    push_taken(text, by, names, public)
}

fn push_copied(
    text: &mut String,
    turn: u64,
    event: &Event,
    value: &Value,
    by: &Caps,
    names: &TagNames,
    public: &Caps,
) -> Result<(), NoMemory>
    ensures { OnOk result (string_bytes text.new ≡ string_bytes text.old ++ line (turn_text names.now turn event.now ∷ codes "copy" ∷ value_text names.now value.now ∷ taken_text names.now public.now by.now ∷ [])) }
{
    push_turn(text, turn, event, names)?;
    push_word(text, "copy")?;
    push_value_word(text, value, names)?;
    push_taken(text, by, names, public)
}

/// The end of the line of a release.
fn push_taken(text: &mut String, by: &Caps, names: &TagNames, public: &Caps) -> Result<(), NoMemory>
    ensures { OnOk result (string_bytes text.new ≡ string_bytes text.old ++ 32 ∷ (taken_text names.now public.now by.now ++ 10 ∷ [])) }
{
    push_word(text, "by")?;
    push_caps_word(text, by, names)?;
    push_mark(text, are_public(public, by))?;
    text.push('\n')?;
    Ok(())
}

/// Marks a release that took public capabilities alone.
fn push_mark(text: &mut String, is_public: bool) -> Result<(), NoMemory>
    ensures { OnOk result (string_bytes text.new ≡ string_bytes text.old ++ public_mark is_public) }
{
    if is_public {
        text.push_str(" public")?;
    }
    Ok(())
}

/// Whether each capability of `by` is a public one.
fn are_public(public: &Caps, by: &Caps) -> bool
    ensures { result ≡ are_public public.now by.now }
{
    by.plus.is_subset(&public.plus) && by.minus.is_subset(&public.minus)
}

/// The turn, and who acted at which label.
fn push_turn(text: &mut String, turn: u64, event: &Event, names: &TagNames) -> Result<(), NoMemory>
    ensures { OnOk result (string_bytes text.new ≡ string_bytes text.old ++ turn_text names.now turn event.now) }
{
    push_number(text, turn)?;
    text.push(' ')?;
    push_head(text, event.thread, &event.label, names)
}
