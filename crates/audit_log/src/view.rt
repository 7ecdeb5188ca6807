//! The text of an observer's view.

ghost use Rattle.std.specs.Prelude.{◌≡◌, ◌++◌, ◌∷◌, [], codes, decimal, IfOk, OnOk, string_bytes};
ghost use Rattle.flow_labels.specs.LabelText.{label_text};
ghost use Rattle.capabilities.specs.CapsText.{caps_text};
ghost use Rattle.audit_log_texts.specs.Lines.{group_text, spaced};
ghost use Rattle.audit_log.specs.Log.{content_text, release_line, seen_line, seen_lines};
ghost use Rattle.audit_log_notes.specs.declared.Content.TheVariants as Content;

use audit_log_notes::{Content, Seen};
use audit_log_texts::{
    push_caps_word, push_event, push_group_word, push_label_word, push_number_word, push_thread,
    push_value_word, push_word,
};
use capabilities::Caps;
use flow_labels::{Label, TagNames};
use lam_value::{Value, Values, push_values};
use std::alloc::Global;
use want_of_memory::NoMemory;

/// The text of what an observer saw: a line for each event and each release.
///
/// It takes time linear in the length of the text.
///
/// # Errors
///
/// `NoMemory` where memory is refused, and no other.
pub fn view_text(alloc: Global, seen: &[Seen], names: &TagNames) -> Result<String, NoMemory>
    ensures { IfOk result (λ t. string_bytes t ≡ seen_lines names.now seen.now) }
{
    let mut text = String::new(alloc);
    for one in seen {
        push_seen(&mut text, one, names)?;
    }
    Ok(text)
}

/// Writes the line of what an observer saw at one place, at the end of a text.
///
/// # Errors
///
/// `NoMemory` where memory is refused.
pub fn push_seen(text: &mut String, seen: &Seen, names: &TagNames) -> Result<(), NoMemory>
    ensures { OnOk result (string_bytes text.new ≡ string_bytes text.old ++ seen_line names.now seen.now) }
{
    match seen {
        Seen::Event(event) => push_event(text, event, names),
        Seen::Release {
            thread,
            content,
            by,
        } => push_release(text, *thread, content, by, names),
    }
}

/// Writes the line of a release past an observer, at the end of a text: who released what, and by which capabilities.
///
/// # Errors
///
/// `NoMemory` where memory is refused.
pub fn push_release(
    text: &mut String,
    thread: u32,
    content: &Content,
    by: &Caps,
    names: &TagNames,
) -> Result<(), NoMemory>
    ensures { OnOk result (string_bytes text.new ≡ string_bytes text.old ++ release_line names.now thread content.now by.now) }
{
    text.push_str("release ")?;
    push_thread(text, thread)?;
    text.push(' ')?;
    push_content(text, content, names)?;
    text.push_str(" by")?;
    push_caps_word(text, by, names)?;
    text.push('\n')?;
    Ok(())
}

fn push_content(text: &mut String, content: &Content, names: &TagNames) -> Result<(), NoMemory>
    ensures { OnOk result (string_bytes text.new ≡ string_bytes text.old ++ content_text names.now content.now) }
{
    match content {
        Content::Context {
            label,
            caps,
            depth,
            region,
            args,
        } => {
            push_label_and_caps(text, label, caps, names)?;
            push_place(text, *depth, *region, args, names)
        }
        Content::Thing { name, slots } => push_thing(text, name, slots, names),
    }
}

/// The first words of a region that was entered.
fn push_label_and_caps(
    text: &mut String,
    label: &Label,
    caps: &Caps,
    names: &TagNames,
) -> Result<(), NoMemory>
    ensures { OnOk result (string_bytes text.new ≡ string_bytes text.old ++ spaced (codes "enter" ∷ label_text names.now label.now ∷ codes "caps" ∷ caps_text names.now caps.now ∷ [])) }
{
    text.push_str("enter")?;
    push_label_word(text, label, names)?;
    push_word(text, "caps")?;
    push_caps_word(text, caps, names)
}

/// The words that follow them.
fn push_place(
    text: &mut String,
    depth: u32,
    region: u32,
    args: &Values,
    names: &TagNames,
) -> Result<(), NoMemory>
    ensures { OnOk result (string_bytes text.new ≡ string_bytes text.old ++ 32 ∷ spaced (codes "depth" ∷ decimal depth ∷ codes "region" ∷ decimal region ∷ group_text names.now args.now ∷ [])) }
{
    push_word(text, "depth")?;
    push_number_word(text, depth as u64)?;
    push_word(text, "region")?;
    push_number_word(text, region as u64)?;
    push_group_word(text, args, names)
}

fn push_thing(
    text: &mut String,
    name: &Value,
    slots: &Values,
    names: &TagNames,
) -> Result<(), NoMemory>
    ensures { OnOk result (string_bytes text.new ≡ string_bytes text.old ++ content_text names.now (Content.Thing name.now slots.now)) }
{
    text.push_str("copy")?;
    push_value_word(text, name, names)?;
    text.push_str(" = ")?;
    push_values(text, slots.as_slice(), names)
}
