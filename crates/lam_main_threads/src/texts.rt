//! The text of a run that threads took, and its book.

ghost use Rattle.std.specs.Prelude.{◌≢◌, ◌<◌, ◌≤◌, IfOk, IfErr, string_bytes};
ghost use Rattle.guarded_code_runs.specs.Worlds.{IsSound};
ghost use Rattle.lam_main_words.specs.Words.{Text};
ghost use Rattle.lam_main_replay.specs.Threads.{IsOfThreads, TakesTurns};
ghost use Rattle.lam_main_replay.specs.Asked.{reader_of, lines_for};
ghost use Rattle.lam_main_threads.specs.Taken.{HasBook, IsShown, planned, Offers};
ghost use Rattle.turn_book.specs.Limits.{most_turns, most_workers};

use crate::Bounds;
use crate::parts::{Ended, EndedKept, taken_turns};
use guarded_code::Verified;
use lam_io::Gate;
use lam_machine_runs::How;
use lam_main_replay::{Halt, NamedViewer, Reader, let_go_world, viewer_of};
use std::alloc::Global;
use std::sync::Wait;
use std::thread::Threads;
use thread_host::{RunParts, World, let_go_verified};
use turn_book::write_book;
use want_of_memory::NoMemory;

/// What is made of a run: how it ended, what is printed of it, and the bytes of its book.
#[derive(Drop)]
pub(crate) struct Taken {
    pub(crate) how: How,
    pub(crate) text: String,
    pub(crate) book: Vec<u8>,
}

/// What a reader is shown of a run of a code from a world, whose turns threads take. The label of an observer is read
/// before any turn is taken.
pub(crate) fn shown<R: Threads + Wait + Sync, G: Gate + Sync>(
    rt: &R,
    alloc: Global,
    code: Verified,
    start: World,
    reader: &Reader,
    bounds: Bounds,
    gate: &G,
) -> Result<Taken, Halt>
    requires sound { IsSound code start }
    requires workers { (0 < bounds.workers) × (bounds.workers ≤ most_workers) }
    requires turns { (0 < bounds.turns) × (bounds.turns ≤ most_turns) }
    ensures offers { Offers result (λ out. TakesTurns out bounds.turns (reader_of reader.now) code start) }
    ensures no_fault { IfErr result (λ halt. halt ≢ Halt.ShelfFailed) }
{
    match viewer_of(reader, start.stores()) {
        Ok(viewer) => Ok(viewed(rt, alloc, code, start, &viewer, bounds, gate)?),
        Err(halt) => {
            let_go_world(start);
            Err(halt)
        }
    }
}

/// What a viewer is shown of a run of a code from a world.
fn viewed<R: Threads + Wait + Sync, G: Gate + Sync>(
    rt: &R,
    alloc: Global,
    code: Verified,
    start: World,
    viewer: &NamedViewer,
    bounds: Bounds,
    gate: &G,
) -> Result<Taken, NoMemory>
    requires sound { IsSound code start }
    requires workers { (0 < bounds.workers) × (bounds.workers ≤ most_workers) }
    requires turns { (0 < bounds.turns) × (bounds.turns ≤ most_turns) }
    ensures { IfOk result (λ taken. (out : Text) → IsOfThreads code start out bounds.turns (lines_for viewer.now.who viewer.now.names) (planned out taken)) }
{
    let text = String::new(alloc);
    match taken_turns(rt, alloc, code, start, bounds, gate, viewer, text) {
        Ok(taken) => {
            let EndedKept { ended, kept } = taken;
            with_book(alloc, ended, kept)
        }
        Err(error) => Err(error),
    }
}

/// The text that is shown of a run, and its book.
pub(crate) fn with_book(alloc: Global, ended: Ended, text: String) -> Result<Taken, NoMemory>
    requires { HasBook ended }
    ensures { IfOk result (IsShown (string_bytes text) ended) }
{
    let Ended { parts, how } = ended;
    let RunParts { code, start, turns } = parts;
    let_go_world(start);
    let_go_verified(code);
    let book = write_book(alloc, turns.as_slice())?;
    Ok(Taken { how, text, book })
}
