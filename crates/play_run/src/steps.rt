//! The effects of a script's steps, and an observer's view of them.

ghost use Rattle.std.specs.Prelude.{◌≡◌, ◌≤◌, ◌++◌, [], length, Some, None, IfOk, OnOk, string_bytes, slice_get};
ghost use Rattle.std.specs.Option.{option_copied};
ghost use Rattle.flow_labels.specs.Failing.{first_failing};
ghost use Rattle.capabilities.specs.Changes.{no_caps};
ghost use Rattle.labelled_heap.specs.CellAt.{with_value};
ghost use Rattle.play_script.specs.declared.Step.TheVariants.{Read, Write, Copy};
ghost use Rattle.play_script.specs.Script.{play_of, most_lines};
ghost use Rattle.play_run.specs.Steps.{with_public, held, copy_test, went, put, cells_after, taken, moment_of};
ghost use Rattle.play_run.specs.Seen.{noted};
ghost use Rattle.play_run.specs.Shown.{cells_from, entry_text, text_of};

use crate::lines::{push_event, push_release};
use capabilities::Caps;
use flow_labels::{Denied, Label, NoMemory, flows, read_rule, write_rule};
use labelled_heap::{Cell, Cells};
use play_script::{Actor, Script, Step};
use std::alloc::Global;

/// How a step went.
#[derive(Clone, Copy, Debug, PartialEq, Eq)]
pub enum Outcome {
    /// Done, with the number that was read, written or copied.
    Done(i64),
    /// Refused, by the first rule that failed and its least tag. Nothing was changed.
    Refused(Denied),
}

/// The cells of a script, as they are declared.
pub fn cells_of(alloc: Global, declared: &[play_script::Cell]) -> Result<Cells, NoMemory>
    requires { length declared.now ≤ most_lines }
    ensures { IfOk result (λ cells. cells ≡ held declared.now) }
{
    let mut cells = Cells::new(alloc);
    for cell in declared {
        cells.add(cell.label.copy()?, cell.value)?;
    }
    Ok(cells)
}

/// The cell of a number, where there is one.
fn cell_at(cells: &Cells, number: u64) -> Option<&Cell>
    ensures { option_copied result ≡ slice_get cells.now number }
{
    if number >= u64::from(cells.count()) {
        return None;
    }
    cells.find(number as u32)
}

/// Changes what a cell holds, where there is one of the number.
fn set_cell(cells: &mut Cells, number: u64, value: i64)
    ensures { cells.new ≡ with_value cells.old number value }
{
    if number < u64::from(cells.count()) {
        cells.set(number as u32, value);
    }
}

/// Puts a step's number into a cell, unless the step was refused.
fn put(cells: &mut Cells, number: u64, outcome: &Outcome)
    ensures { cells.new ≡ put cells.old number outcome.now }
{
    match *outcome {
        Outcome::Done(value) => set_cell(cells, number, value),
        Outcome::Refused(_) => {}
    }
}

/// Changes the cell that a step changes, unless the step was refused.
fn settle(cells: &mut Cells, step: Step, outcome: &Outcome)
    ensures { cells.new ≡ cells_after cells.old step outcome.now }
{
    match step {
        Step::Read { .. } => {}
        Step::Write { cell, .. } => put(cells, cell, outcome),
        Step::Copy { to, .. } => put(cells, to, outcome),
    }
}

fn outcome_of(denied: Option<Denied>, value: i64) -> Outcome
    ensures { result ≡ went denied value }
{
    match denied {
        None => Outcome::Done(value),
        Some(denied) => Outcome::Refused(denied),
    }
}

/// The first rule that forbids an actor to copy from a cell of one label into a cell of another.
fn copy_rule(public: &Caps, actor: &Actor, from: &Label, to: &Label) -> Option<Denied>
    ensures { result ≡ first_failing (copy_test public.now actor.now from.now to.now) }
{
    read_rule(&actor.label, from)
        .or_else(|| actor.caps.change_rule(public, from, to))
        .or_else(|| actor.caps.change_rule(public, &actor.label, to))
}

/// Takes a step, and writes what the observer sees of it.
pub fn take_step(
    text: &mut String,
    cells: &mut Cells,
    script: &Script,
    public: &Caps,
    observer: &Label,
    step: Step,
) -> Result<(), NoMemory>
    ensures cells { OnOk result (cells.new ≡ cells_from cells.old (moment_of (with_public public.now script.now.actors.items) cells.old step)) }
    ensures text { OnOk result (string_bytes text.new ≡ string_bytes text.old ++ text_of (play_of script.now) observer.now (moment_of (with_public public.now script.now.actors.items) cells.old step)) }
{
    match step {
        Step::Read { actor, cell } => take_read(text, cells, script, observer, actor, cell),
        Step::Write { actor, cell, value } => {
            take_write(text, cells, script, observer, actor, cell, value)
        }
        Step::Copy { actor, from, to } => {
            take_copy(text, cells, script, public, observer, actor, from, to)
        }
    }
}

fn take_read(
    text: &mut String,
    cells: &Cells,
    script: &Script,
    observer: &Label,
    number: u64,
    n: u64,
) -> Result<(), NoMemory>
    ensures { OnOk result (string_bytes text.new ≡ string_bytes text.old ++ text_of (play_of script.now) observer.now (moment_of (with_public no_caps script.now.actors.items) cells.now (Read number n))) }
{
    let Some(actor) = script.actors.get(number as usize) else {
        return Ok(());
    };
    let Some(cell) = cell_at(cells, n) else {
        return Ok(());
    };
    let outcome = outcome_of(read_rule(&actor.label, &cell.label), cell.value);
    let step = Step::Read {
        actor: number,
        cell: n,
    };
    push_seen(text, script, observer, actor, step, &outcome)
}

fn take_write(
    text: &mut String,
    cells: &mut Cells,
    script: &Script,
    observer: &Label,
    number: u64,
    n: u64,
    value: i64,
) -> Result<(), NoMemory>
    ensures cells { OnOk result (cells.new ≡ cells_from cells.old (moment_of (with_public no_caps script.now.actors.items) cells.old (Write number n value))) }
    ensures text { OnOk result (string_bytes text.new ≡ string_bytes text.old ++ text_of (play_of script.now) observer.now (moment_of (with_public no_caps script.now.actors.items) cells.old (Write number n value))) }
{
    let Some(actor) = script.actors.get(number as usize) else {
        return Ok(());
    };
    let Some(cell) = cell_at(cells, n) else {
        return Ok(());
    };
    let outcome = outcome_of(write_rule(&actor.label, &cell.label), value);
    let step = Step::Write {
        actor: number,
        cell: n,
        value,
    };
    push_seen(text, script, observer, actor, step, &outcome)?;
    settle(cells, step, &outcome);
    Ok(())
}

fn take_copy(
    text: &mut String,
    cells: &mut Cells,
    script: &Script,
    public: &Caps,
    observer: &Label,
    number: u64,
    n: u64,
    m: u64,
) -> Result<(), NoMemory>
    ensures cells { OnOk result (cells.new ≡ cells_from cells.old (moment_of (with_public public.now script.now.actors.items) cells.old (Copy number n m))) }
    ensures text { OnOk result (string_bytes text.new ≡ string_bytes text.old ++ text_of (play_of script.now) observer.now (moment_of (with_public public.now script.now.actors.items) cells.old (Copy number n m))) }
{
    let Some(actor) = script.actors.get(number as usize) else {
        return Ok(());
    };
    let Some(from) = cell_at(cells, n) else {
        return Ok(());
    };
    let Some(to) = cell_at(cells, m) else {
        return Ok(());
    };
    let outcome = outcome_of(copy_rule(public, actor, &from.label, &to.label), from.value);
    let step = Step::Copy {
        actor: number,
        from: n,
        to: m,
    };
    push_copy(text, script, observer, actor, &to.label, step, &outcome)?;
    settle(cells, step, &outcome);
    Ok(())
}

/// Writes the line of a read or a write, where the observer sees the actor.
fn push_seen(
    text: &mut String,
    script: &Script,
    observer: &Label,
    actor: &Actor,
    step: Step,
    outcome: &Outcome,
) -> Result<(), NoMemory>
    ensures { OnOk result (string_bytes text.new ≡ string_bytes text.old ++ entry_text (play_of script.now) (noted observer.now (taken [] actor.now step outcome.now None))) }
{
    if !flows(&actor.label, observer) {
        return Ok(());
    }
    push_event(text, script, step, outcome)
}

/// Writes the line of a copy, where the observer sees the actor or the copy is a release past it.
fn push_copy(
    text: &mut String,
    script: &Script,
    observer: &Label,
    actor: &Actor,
    to: &Label,
    copy: Step,
    outcome: &Outcome,
) -> Result<(), NoMemory>
    ensures { OnOk result (string_bytes text.new ≡ string_bytes text.old ++ entry_text (play_of script.now) (noted observer.now (taken [] actor.now copy outcome.now (Some to.now)))) }
{
    if flows(&actor.label, observer) {
        return push_event(text, script, copy, outcome);
    }
    let Outcome::Done(value) = *outcome else {
        return Ok(());
    };
    if !flows(to, observer) {
        return Ok(());
    }
    let by = Caps::used(&actor.label, to)?;
    push_release(text, script, copy, value, &by)
}
