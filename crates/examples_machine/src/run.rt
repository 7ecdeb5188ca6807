//! One run of code from the document of a world.

ghost use Rattle.std.specs.Prelude.{IfOk};
ghost use Rattle.lam_bytecode.specs.Codes.{IsCode};
ghost use Rattle.guarded_code_runs.specs.Worlds.{IsSound};

use audit_log::{audit_text, view_text};
use audit_log_notes::{Noted, Seen};
use capabilities::Caps;
use code_verify::verify;
use decimal_text::push_number;
use flow_labels::{Label, TagNames, parse_label};
use guarded_code::Verified;
use lam_asks::let_go_event;
use lam_machine_replay::{noted_in, seen_by};
use lam_machine_world::World;
use std::alloc::Global;
use std::mem::forget;
use std::process::Abort;
use std::test::Fail;
use thread_host_run::{Run, TURN_LIMIT};
use world_doc::start;
use world_doc_laws::starts_are_entered;
use written_code::{Written, code_of};

/// A code, the document of the world that it starts from, and whose turns come: so many of each thread, one after another.
#[derive(Clone, Copy)]
pub struct Given<'a> {
    pub code: Written<'a>,
    pub world: &'a str,
    pub turns: &'a [(u32, u32)],
}

/// Compares the lines that an observer sees of a run, and the last line, which says how the run stands after its turns:
/// `done`, `all wait`, or `ready` with the numbers of the threads that are.
pub fn shows<R: Abort + AllocGlobal>(
    rt: &R,
    given: Given<'_>,
    observer: &str,
    lines: &str,
) -> Result<(), Fail> {
    let text = text_of(rt.alloc(), given, observer)?;
    assert_eq!(rt; text.as_str(), lines, "seen by {observer}");
    Ok(())
}

/// Compares the last of these lines, for the observer who sees what is public.
pub fn ends<R: Abort + AllocGlobal>(rt: &R, given: Given<'_>, lines: &str) -> Result<(), Fail> {
    let text = text_of(rt.alloc(), given, "{}/{}")?;
    assert!(rt; text.as_str().ends_with(lines), "it ends otherwise");
    Ok(())
}

/// Takes the turns of a run, one by one, and gives its text.
fn text_of(alloc: Global, given: Given<'_>, observer: &str) -> Result<String, Fail> {
    let mut run = opened(alloc, given.code, given.world)?;
    let text = text_after(alloc, &mut run, given.turns, observer);
    forget(run);
    text
}

/// The run with no turns. Code that is not guarded has none.
pub fn opened(alloc: Global, code: Written<'_>, world: &str) -> Result<Run, Fail> {
    let code = verify(alloc, code_of(alloc, code)?)?;
    let start = start_of(alloc, &code, world)?;
    Ok(Run::new(alloc, code, start)?)
}

/// The world of a document. Runs of the code from there are sound.
fn start_of(alloc: Global, code: &Verified, world: &str) -> Result<World, Fail>
    requires { IsCode code.now }
    ensures { IfOk result (IsSound code.now) }
{
    starts_are_entered();
    match start(alloc, world.as_bytes(), code.code()) {
        Ok(start) => Ok(start),
        Err(_) => Err(Fail::new("no world")),
    }
}

fn text_after(
    alloc: Global,
    run: &mut Run,
    turns: &[(u32, u32)],
    observer: &str,
) -> Result<String, Fail> {
    take_turns(run, turns)?;
    let mut text = lines_of(alloc, run, observer)?;
    push_standing(&mut text, run)?;
    Ok(text)
}

/// Takes so many turns of each thread, one after another.
pub fn take_turns(run: &mut Run, turns: &[(u32, u32)]) -> Result<(), Fail> {
    for (thread, count) in turns {
        for _ in 0..*count {
            take_turn(run, *thread)?;
        }
    }
    Ok(())
}

fn take_turn(run: &mut Run, thread: u32) -> Result<(), Fail> {
    if run.turns().len() as u64 >= TURN_LIMIT || !run.ready(thread) {
        return Err(Fail::new("not ready"));
    }
    let event = run.turn(thread)?;
    let_go_event(event);
    Ok(())
}

/// What an observer sees of the turns of a run.
fn lines_of(alloc: Global, run: &Run, observer: &str) -> Result<String, Fail> {
    let label = parse_label(observer, &run.start().stores().names)?;
    lines_for(alloc, run, &label)
}

/// What the observer with this label sees of the turns of a run, which are taken once more from a copy of its start.
fn lines_for(alloc: Global, run: &Run, label: &Label) -> Result<String, Fail> {
    let start = run.start().copy()?;
    let seen = seen_by(alloc, run.code(), start, run.turns(), label)?;
    let names = &run.start().stores().names;
    let well = copies_are_same(alloc, seen.as_slice(), names);
    let text = view_text(alloc, seen.as_slice(), names);
    forget(seen);
    well?;
    Ok(text?)
}

/// Fails where a copy of something that was seen has another text.
fn copies_are_same(alloc: Global, seen: &[Seen], names: &TagNames) -> Result<(), Fail> {
    for at in 0..seen.len() {
        let text = view_text(alloc, &seen[at..at + 1], names)?;
        let copy = [seen[at].copy()?];
        let again = view_text(alloc, &copy, names);
        forget(copy);
        if again? != text {
            return Err(Fail::new("a copy of something seen has another text"));
        }
    }
    Ok(())
}

/// Compares the lines of an audit of a run, and fails where a copy of a note has another text.
pub fn notes<R: Abort + AllocGlobal>(rt: &R, given: Given<'_>, lines: &str) -> Result<(), Fail> {
    let text = audit_of(rt.alloc(), given)?;
    assert_eq!(rt; text.as_str(), lines);
    Ok(())
}

/// Takes the turns of a run, one by one, and gives the text of its audit.
fn audit_of(alloc: Global, given: Given<'_>) -> Result<String, Fail> {
    let mut run = opened(alloc, given.code, given.world)?;
    let text = audit_after(alloc, &mut run, given.turns);
    forget(run);
    text
}

fn audit_after(alloc: Global, run: &mut Run, turns: &[(u32, u32)]) -> Result<String, Fail> {
    take_turns(run, turns)?;
    let start = run.start().copy()?;
    let noted = noted_in(alloc, run.code(), start, run.turns())?;
    let names = &run.start().stores().names;
    let public = &run.start().stores().public;
    let well = notes_are_same(alloc, noted.as_slice(), names, public);
    let text = audit_text(alloc, noted.as_slice(), names, public);
    forget(noted);
    well?;
    Ok(text?)
}

/// Fails where a copy of a note has another text.
fn notes_are_same(
    alloc: Global,
    noted: &[Noted],
    names: &TagNames,
    public: &Caps,
) -> Result<(), Fail> {
    for at in 0..noted.len() {
        let text = audit_text(alloc, &noted[at..at + 1], names, public)?;
        let copy = [noted[at].copy()?];
        let again = audit_text(alloc, &copy, names, public);
        forget(copy);
        if again? != text {
            return Err(Fail::new("a copy of a note has another text"));
        }
    }
    Ok(())
}

/// Writes how a run stands.
fn push_standing(text: &mut String, run: &Run) -> Result<(), Fail> {
    if run.is_done() {
        return Ok(text.push_str("done\n")?);
    }
    if run.all_wait() {
        return Ok(text.push_str("all wait\n")?);
    }
    text.push_str("ready")?;
    for thread in 0..run.thread_count() {
        if run.ready(thread) {
            text.push(' ')?;
            push_number(text, thread as u64)?;
        }
    }
    Ok(text.push('\n')?)
}
