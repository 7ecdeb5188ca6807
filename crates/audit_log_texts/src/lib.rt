//! The texts of a run's events, with their faults, asks and answers.
//!
//! An event's line shows who acts, at which label, the ask and the answer, in words with one space between each two:
//!
//! ```text
//! t0 {}/{} enter {a}/{} caps +{}-{} region 0 (1) = refused AddS a
//! t0 {}/{} new array int 2 = arr<{}/{}|{}/{}|0>[2]
//! ```
//!
//! `specs/Lines.antt` has the table of all asks and answers. A private turn has no line. `words` writes the words of
//! such lines, each with the space before it, also for the lines of other crates. `answers` and `asks` write the two
//! sides of an event.
//!
//! All of them append to a given text and make no other text on the way. Where memory is refused, what was written by
//! then may stand at the text's end.
//!
//! A public promise rests on `push_event` and `push_head`: the bytes of a view and of an audit. Free to change for
//! speed: how a text grows.
#![tactic(auto)]

mod answers;
mod asks;
mod words;

ghost use Rattle.std.specs.Prelude.{◌≡◌, ◌++◌, OnOk, string_bytes};
ghost use Rattle.audit_log_texts.specs.Lines.{event_line, head_text};

pub use answers::{push_answer, push_fault};
pub use asks::push_ask;
use flow_labels::{Label, TagNames};
use lam_asks::{Event, What};
use want_of_memory::NoMemory;
pub use words::{
    push_bytes_word, push_caps_word, push_denied_word, push_fault_word, push_group_word,
    push_label_word, push_name_word, push_number_word, push_thread, push_value_word, push_word,
};

/// Writes the line of an event at the end of a text: nothing where the turn was private.
///
/// # Errors
///
/// `NoMemory` where memory is refused.
pub fn push_event(text: &mut String, event: &Event, names: &TagNames) -> Result<(), NoMemory>
    ensures { OnOk result (string_bytes text.new ≡ string_bytes text.old ++ event_line names.now event.now) }
{
    match &event.what {
        What::Private => Ok(()),
        What::Asked { ask, answer } => {
            push_head(text, event.thread, &event.label, names)?;
            text.push(' ')?;
            push_ask(text, ask, names)?;
            text.push_str(" = ")?;
            push_answer(text, answer, names)?;
            text.push('\n')?;
            Ok(())
        }
    }
}

/// Writes who acts at which label, at the end of a text.
///
/// # Errors
///
/// `NoMemory` where memory is refused.
pub fn push_head(
    text: &mut String,
    thread: u32,
    label: &Label,
    names: &TagNames,
) -> Result<(), NoMemory>
    ensures { OnOk result (string_bytes text.new ≡ string_bytes text.old ++ head_text names.now thread label.now) }
{
    push_thread(text, thread)?;
    push_label_word(text, label, names)
}
