//! The printed lines of an observer's view.

ghost use Rattle.std.specs.Prelude.{◌≡◌, ◌++◌, ◌∷◌, [], OnOk, string_bytes, codes};
ghost use Rattle.std.specs.Fmt.{signed_decimal};
ghost use Rattle.capabilities.specs.CapsText.{caps_text};
ghost use Rattle.play_script.specs.Script.{play_of};
ghost use Rattle.play_run.specs.Lines.{name_of, words_of, answer_of};

use crate::steps::Outcome;
use capabilities::{Caps, push_caps};
use flow_labels::{NoMemory, TagId, TagNames, push_tag, rule_text};
use play_script::{Script, Step};

/// The name of an actor or a cell; nothing where it has none.
fn name_of(names: &TagNames, number: u64) -> &str
    ensures { result.now ≡ name_of names.now number }
{
    match names.name(TagId(number)) {
        None => "",
        Some(name) => name,
    }
}

/// The words of a step, as the script has them.
fn push_words(text: &mut String, script: &Script, step: Step) -> Result<(), NoMemory>
    ensures { OnOk result (string_bytes text.new ≡ string_bytes text.old ++ words_of (play_of script.now) step) }
{
    match step {
        Step::Read { actor, cell } => {
            let actor = name_of(&script.actor_names, actor);
            let cell = name_of(&script.cell_names, cell);
            write!(text, "{actor} read {cell}")?;
        }
        Step::Write { actor, cell, value } => {
            let actor = name_of(&script.actor_names, actor);
            let cell = name_of(&script.cell_names, cell);
            write!(text, "{actor} write {cell} {value}")?;
        }
        Step::Copy { actor, from, to } => {
            let actor = name_of(&script.actor_names, actor);
            let from = name_of(&script.cell_names, from);
            let to = name_of(&script.cell_names, to);
            write!(text, "{actor} copy {from} {to}")?;
        }
    }
    Ok(())
}

/// How a step went.
fn push_answer(
    text: &mut String,
    script: &Script,
    step: Step,
    outcome: &Outcome,
) -> Result<(), NoMemory>
    ensures { OnOk result (string_bytes text.new ≡ string_bytes text.old ++ answer_of (play_of script.now) step outcome.now) }
{
    match *outcome {
        Outcome::Done(value) => match step {
            Step::Read { .. } => write!(text, " = {value}")?,
            Step::Write { .. } => {}
            Step::Copy { .. } => write!(text, " = {value}")?,
        },
        Outcome::Refused(denied) => {
            let rule = rule_text(denied.rule);
            write!(text, " refused {rule} ")?;
            push_tag(text, denied.tag, &script.tags)?;
        }
    }
    Ok(())
}

/// The line of a step that the observer sees.
pub fn push_event(
    text: &mut String,
    script: &Script,
    step: Step,
    outcome: &Outcome,
) -> Result<(), NoMemory>
    ensures { OnOk result (string_bytes text.new ≡ string_bytes text.old ++ (words_of (play_of script.now) step ++ answer_of (play_of script.now) step outcome.now ++ 10 ∷ [])) }
{
    push_words(text, script, step)?;
    push_answer(text, script, step, outcome)?;
    text.push('\n')?;
    Ok(())
}

/// The line of a copy that is a release past the observer.
pub fn push_release(
    text: &mut String,
    script: &Script,
    copy: Step,
    value: i64,
    by: &Caps,
) -> Result<(), NoMemory>
    ensures { OnOk result (string_bytes text.new ≡ string_bytes text.old ++ (codes "release " ++ words_of (play_of script.now) copy ++ codes " = " ++ signed_decimal value ++ codes " by " ++ caps_text (play_of script.now).tags by.now ++ 10 ∷ [])) }
{
    text.push_str("release ")?;
    push_words(text, script, copy)?;
    write!(text, " = {value} by ")?;
    push_caps(text, by, &script.tags)?;
    text.push('\n')?;
    Ok(())
}
