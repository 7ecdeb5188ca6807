//! The text of a closed run, and its book.

ghost use Rattle.std.specs.Prelude.{◌≡◌, ◌≢◌, ◌<◌, ◌≤◌, IfOk, IfErr, string_bytes};
ghost use Rattle.guarded_code_runs.specs.Worlds.{IsSound};
ghost use Rattle.turn_book.specs.Book.{AreTurns};
ghost use Rattle.closed_terms.specs.Ends.{most_turns};
ghost use Rattle.lam_main_words.specs.Words.{Text};
ghost use Rattle.lam_main_replay.specs.Asked.{lines_for};
ghost use Rattle.lam_closed_plan.specs.Closes.{IsOfClosed, ClosesOver, ClosesFrom};
ghost use Rattle.lam_closed_rooms.specs.Asked.{asked_of};
ghost use Rattle.lam_closed_rooms.specs.Taken.{IsShown, planned, Offers};

use crate::Asked;
use closed_laws::each_start_ends_once;
use closed_run::{Closed, End, RunParts, World, closed_kept};
use flow_labels::Label;
use guarded_code::Verified;
use lam_main_replay::{Halt, NamedViewer, let_go_world, read_label, viewer_of};
use std::alloc::Global;
use thread_host_run::let_go_verified;
use turn_book::write_book;
use want_of_memory::NoMemory;

/// The index of the word that is the base.
const BASE_WORD: u64 = 6;

/// What is made of a closed run: how it ended, what is printed of it, and the bytes of its book.
#[derive(Drop)]
pub(crate) struct Taken {
    pub(crate) end: End,
    pub(crate) text: String,
    pub(crate) book: Vec<u8>,
}

/// What a reader is shown of the closed run of a code from a world. The label of an observer and the base are read before
/// any turn is taken.
pub(crate) fn shown(
    alloc: Global,
    code: Verified,
    start: World,
    asked: &Asked,
) -> Result<Taken, Halt>
    requires sound { IsSound code start }
    requires turns { (0 < asked.now.turns) × (asked.now.turns ≤ most_turns) }
    ensures offers { Offers result (λ out e. ClosesFrom out (asked_of asked.now) e code start) }
    ensures no_fault { IfErr result (λ halt. halt ≢ Halt.ShelfFailed) }
{
    match viewer_of(&asked.reader, start.stores()) {
        Ok(viewer) => shown_to(alloc, code, start, asked, &viewer),
        Err(halt) => {
            let_go_world(start);
            Err(halt)
        }
    }
}

/// What a viewer is shown of the closed run of a code from a world: the base is read next.
fn shown_to(
    alloc: Global,
    code: Verified,
    start: World,
    asked: &Asked,
    viewer: &NamedViewer,
) -> Result<Taken, Halt>
    requires sound { IsSound code start }
    requires turns { (0 < asked.now.turns) × (asked.now.turns ≤ most_turns) }
    ensures offers { Offers result (λ out e. ClosesOver out (asked_of asked.now) e code start (lines_for viewer.now.who viewer.now.names)) }
    ensures no_fault { IfErr result (λ halt. halt ≢ Halt.ShelfFailed) }
{
    match read_label(BASE_WORD, asked.base.as_str(), &start.stores().names) {
        Ok(base) => Ok(viewed(alloc, code, start, &base, asked.turns, viewer)?),
        Err(halt) => {
            let_go_world(start);
            Err(halt)
        }
    }
}

/// What a viewer is shown of the closed run of a code from a world, over a base.
fn viewed(
    alloc: Global,
    code: Verified,
    start: World,
    base: &Label,
    turns: u64,
    viewer: &NamedViewer,
) -> Result<Taken, NoMemory>
    requires sound { IsSound code start }
    requires turns { (0 < turns) × (turns ≤ most_turns) }
    ensures { IfOk result (λ taken. (out : Text) → IsOfClosed code start base.now turns out (lines_for viewer.now.who viewer.now.names) taken.end (planned out taken)) }
{
    each_start_ends_once();
    let text = String::new(alloc);
    match closed_kept(alloc, code, start, base, turns, viewer, text) {
        Ok(closed) => {
            let Closed { parts, end, kept } = closed;
            with_book(alloc, parts, end, kept)
        }
        Err(error) => Err(error),
    }
}

/// The text that is shown of a closed run, and its book.
fn with_book(alloc: Global, parts: RunParts, end: End, text: String) -> Result<Taken, NoMemory>
    requires { AreTurns parts.turns.items }
    ensures { IfOk result (IsShown end (string_bytes text) parts.turns.items) }
{
    let RunParts { code, start, turns } = parts;
    let_go_world(start);
    let_go_verified(code);
    let book = write_book(alloc, turns.as_slice())?;
    Ok(Taken { end, text, book })
}
