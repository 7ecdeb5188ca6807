//! The line of a walk's answer, with the number of asks.
//!
//! The other line, of a thread that departs, is written by checks that the law makes superfluous: in the proved program
//! no walk comes to it. A build without proof still compares, and prints it where the code is not its source's.

ghost use Rattle.std.specs.Prelude.{◌≡◌, ◌≢◌, ℕ, List, IfOk, IfErr, string_bytes};
ghost use Rattle.lam_resolve_tree.specs.Tree.{resolved_tree};
ghost use Rattle.guarded_code_runs.specs.Worlds.{IsSound};
ghost use Rattle.lam_machine_runs.specs.Stops.{stopped_at};
ghost use Rattle.lam_main_laws.specs.Documents.{RunMeans};
ghost use Rattle.lam_main_replay.specs.Books.{WhereReady};
ghost use Rattle.lam_main_replay.specs.Walks.{same_line, TellsSame};
ghost use Rattle.lam_main_replay.specs.Halts.{Says};
ghost use Rattle.lam_main_walk.specs.Lines.{departs_line};
ghost use Rattle.lam_main_walk.specs.Sources.{IsSoundSource};

use crate::source::Source;
use decimal_text::push_number;
use lam_machine_world::World;
use lam_main_replay::{Halt, run_halt};
use source_walk::{Walked, meant_runs_are_same, walk_turns};
use std::alloc::Global;
use want_of_memory::NoMemory;

/// The line of how many asks there are in turns, where they are a run. Each thread of every run of the source means it, so
/// none departs from it, and the line of one that departs never comes.
pub(crate) fn told(
    alloc: Global,
    source: &Source,
    start: World,
    turns: &[u32],
) -> Result<String, Halt>
    requires sound { IsSoundSource source.now }
    requires start { IsSound source.now.code start }
    requires means { (ts : List ℕ) → RunMeans (resolved_tree source.now.program) source.now.code start ts }
    ensures says { Says result (WhereReady (TellsSame (resolved_tree source.now.program) source.now.code start turns.now) (stopped_at source.now.code turns.now start)) }
    ensures no_fault { IfErr result (λ halt. halt ≢ Halt.ShelfFailed) }
{
    meant_runs_are_same();
    match walk_turns(alloc, &source.program, &source.code, start, turns) {
        Ok(Walked::Same { asks }) => Ok(same_text(alloc, asks)?),
        Ok(Walked::Departs { thread, ask }) => Ok(departs_text(alloc, thread, ask)?),
        Err(fault) => Err(run_halt(fault)),
    }
}

/// The line of so many asks.
fn same_text(alloc: Global, asks: u64) -> Result<String, NoMemory>
    ensures { IfOk result (λ text. string_bytes text ≡ same_line asks) }
{
    let mut text = String::new(alloc);
    text.push_str("same ")?;
    push_number(&mut text, asks)?;
    text.push('\n')?;
    Ok(text)
}

/// The line of the first thread that departs from its source, and of the place of its first ask that the source does not
/// make, counted from 0.
fn departs_text(alloc: Global, thread: u32, ask: u64) -> Result<String, NoMemory>
    ensures { IfOk result (λ text. string_bytes text ≡ departs_line thread ask) }
{
    let mut text = String::new(alloc);
    text.push_str("departs ")?;
    push_number(&mut text, u64::from(thread))?;
    text.push(' ')?;
    push_number(&mut text, ask)?;
    text.push('\n')?;
    Ok(text)
}
