//! The texts of a view and of an audit, written as turns are taken.
//!
//! `audit_log` writes the lines of a list of what was seen, or of what was noted. Here a turn's lines are written from
//! its event and the world after it, and only the text is kept. [`push_view`] does so for an observer, and
//! [`push_audit`] for an auditor. `specs/Kept` says what is kept of the moments of a run, in the form of `Keeps`
//! (`lam_machine_replay`). A private turn has no line ([`views_leave_private`], [`audits_leave_private`]).
//!
//! The promises about views and audits rest on [`push_view`] and [`push_audit`] (the one clause of each), and on the
//! two laws. Free to change for speed: how a line is put together.
#![tactic(auto)]

ghost use Rattle.std.specs.Prelude.{◌≡◌, ◌++◌, ℕ, List, OnOk, string_bytes};
ghost use Rattle.std.specs.Option.{option_to_list};
ghost use Rattle.flow_labels.specs.TwoLists.{Text};
ghost use Rattle.flow_labels.specs.declared.Label.{Label as Plain};
ghost use Rattle.capabilities.specs.Changes.{used};
ghost use Rattle.lam_machine_replay.specs.Audited.{taken};
ghost use Rattle.lam_machine_replay.specs.Keeping.{KeepsEvent, LeavesPrivate};
ghost use Rattle.lam_machine_replay.specs.Told.{product};
ghost use Rattle.lam_machine_replay.specs.Viewed.{own_turn, past, seen_of, told};
ghost use Rattle.audit_log.specs.Log.{note_line, seen_lines};
ghost use Rattle.audit_log_lines.specs.Kept.{IsView, IsAudit};

use audit_log::{push_noted, push_release, views_are_read};
use audit_log_notes::{Noted, refusal_of};
use audit_log_texts::push_event;
use capabilities::Caps;
use flow_labels::{Label, TagNames, seen};
use lam_asks::{Event, What, let_go_event};
use lam_machine_replay::{product, product_label, taken};
pub use lam_machine_replay::{Keeps, RunFault, World, keep_turns};
use std::alloc::Global;
use want_of_memory::NoMemory;

/// A law: an observer's text has no line of a private turn.
pub fn views_leave_private()
    ensures { (names : List Text) (o : Plain) → LeavesPrivate (IsView names o) }
{
    views_are_read();
}

/// A law: an auditor's text has no line of a private turn.
pub fn audits_leave_private()
    ensures { (names : List Text) → LeavesPrivate (IsAudit names) }
{}

/// Writes the line of what an observer sees of a turn, by its event and the world after it, at the end of a text.
///
/// # Errors
///
/// `NoMemory` where memory is refused.
pub fn push_view(
    alloc: Global,
    text: &mut String,
    event: Event,
    world: &World,
    label: &Label,
    names: &TagNames,
) -> Result<(), NoMemory>
    ensures { OnOk result ((n : ℕ) → KeepsEvent (IsView names.now label.now) n event world.now text.old text.new) }
{
    views_are_read();
    let pushed = push_seen_of(alloc, text, &event, world, label, names);
    let_go_event(event);
    pushed
}

/// Writes the line of a turn whose thread is seen, and else of what it released.
fn push_seen_of(
    alloc: Global,
    text: &mut String,
    event: &Event,
    world: &World,
    label: &Label,
    names: &TagNames,
) -> Result<(), NoMemory>
    ensures { OnOk result (string_bytes text.new ≡ string_bytes text.old ++ seen_lines names.now (option_to_list (seen_of label.now event.now world.now))) }
{
    if seen(&event.label, label) {
        push_own(text, event, names)
    } else {
        push_past(alloc, text, event, world, label, names)
    }
}

/// Writes the line of a turn whose thread is seen, which has none where it is private.
fn push_own(text: &mut String, event: &Event, names: &TagNames) -> Result<(), NoMemory>
    ensures { OnOk result (string_bytes text.new ≡ string_bytes text.old ++ seen_lines names.now (option_to_list (own_turn event.now))) }
{
    match &event.what {
        What::Private => Ok(()),
        What::Asked { .. } => push_event(text, event, names),
    }
}

/// Writes the line of what a turn made whose thread is not seen, where the observer sees that.
fn push_past(
    alloc: Global,
    text: &mut String,
    event: &Event,
    world: &World,
    label: &Label,
    names: &TagNames,
) -> Result<(), NoMemory>
    ensures { OnOk result (string_bytes text.new ≡ string_bytes text.old ++ seen_lines names.now (option_to_list (past label.now event.now world.now))) }
{
    match product_label(&event.what) {
        None => Ok(()),
        Some(own) => {
            if seen(own, label) {
                push_told(alloc, text, event, world, own, names)
            } else {
                Ok(())
            }
        }
    }
}

/// Writes the line of what a turn made with this label, for an observer who sees that.
fn push_told(
    alloc: Global,
    text: &mut String,
    event: &Event,
    world: &World,
    own: &Label,
    names: &TagNames,
) -> Result<(), NoMemory>
    ensures { OnOk result (string_bytes text.new ≡ string_bytes text.old ++ seen_lines names.now (option_to_list (told event.now.thread (used event.now.label own.now) (product world.now event.now.thread event.now.what)))) }
{
    let by = Caps::used(&event.label, own)?;
    match product(alloc, world, event.thread, &event.what)? {
        None => Ok(()),
        Some(content) => push_release(text, event.thread, &content, &by, names),
    }
}

/// Writes the line of a release or a refusal, where a turn was one, by its event and the world after it, at the end of a text.
///
/// # Errors
///
/// `NoMemory` where memory is refused.
pub fn push_audit(
    text: &mut String,
    turn: u64,
    event: Event,
    world: &World,
    names: &TagNames,
) -> Result<(), NoMemory>
    ensures { OnOk result (KeepsEvent (IsAudit names.now) turn event world.now text.old text.new) }
{
    match taken(&event) {
        Ok(by) => push_note(text, turn, event, by, public_in(world), names),
        Err(error) => {
            let_go_event(event);
            Err(error)
        }
    }
}

/// What is public in a world.
fn public_in(world: &World) -> &Caps
    ensures { result.now ≡ world.now.public }
{
    &world.stores().public
}

/// Writes the line of a turn that took these capabilities.
fn push_note(
    text: &mut String,
    turn: u64,
    event: Event,
    by: Option<Caps>,
    public: &Caps,
    names: &TagNames,
) -> Result<(), NoMemory>
    ensures { OnOk result (string_bytes text.new ≡ string_bytes text.old ++ note_line names.now public.now turn event by) }
{
    if by.is_none() && refusal_of(&event.what).is_none() {
        let_go_event(event);
        return Ok(());
    }
    let noted = Noted { turn, event, by };
    let pushed = push_noted(text, &noted, names, public);
    let Noted { event, .. } = noted;
    let_go_event(event);
    pushed
}
