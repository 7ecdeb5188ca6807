//! The product of a run's end: the next document, and its line about the items.

ghost use Rattle.std.specs.Prelude.{◌≡◌, ◌≢◌, ◌≤◌, Ok, length, IfOk, IfErr, string_bytes};
ghost use Rattle.guarded_code_runs.specs.Worlds.{IsSound};
ghost use Rattle.lam_machine_runs.specs.Stops.{stopped_at};
ghost use Rattle.world_doc_terms.specs.Start.{start_of};
ghost use Rattle.world_forest.specs.Forest.{IsForest};
ghost use Rattle.lam_main_replay.specs.Books.{WhereReady};
ghost use Rattle.lam_main_replay.specs.Saves.{saved_line, IsOfFiles, IsOfEnd};
ghost use Rattle.lam_main_next.specs.Endings.{Offers, IsToldOf, halt_of_save};
ghost use Rattle.turn_book.specs.Limits.{most_turns};

use decimal_text::push_number;
use guarded_code::Verified;
use lam_machine_world::World;
use lam_main_replay::{Halt, Refusal};
use std::alloc::Global;
use want_of_memory::NoMemory;
use world_forest_laws::texts_begin_as_forests;
use world_save::{Run, RunOf, SaveFault, Saved, let_go_run, run_of, save};

/// The line that is printed, and the document that is written.
#[derive(Drop)]
pub(crate) struct Ending {
    pub(crate) text: String,
    pub(crate) document: Vec<u8>,
}

/// What is made of the end of turns, where they are a run.
pub(crate) fn end_of_turns(
    alloc: Global,
    code: Verified,
    start: World,
    turns: &[u32],
    old: &[u8],
) -> Result<Ending, Halt>
    requires sound { IsSound code start }
    requires document { start_of old.now code ≡ Ok start }
    requires few { length turns.now ≤ most_turns }
    ensures offers { Offers result (λ out. WhereReady (IsOfEnd out code old.now start turns.now) (stopped_at code turns.now start)) }
    ensures no_fault { IfErr result (λ halt. halt ≢ Halt.ShelfFailed) }
{
    texts_begin_as_forests();
    match run_of(alloc, code, start, turns) {
        Err(NoMemory) => Err(Halt::NoMemory),
        Ok(RunOf::Stops { turn, thread }) => {
            Err(Halt::Refused(Refusal::NotReady { turn, thread }))
        }
        Ok(RunOf::Whole(run)) => end_of_run(alloc, run, old),
    }
}

/// What is made of the end of a run.
fn end_of_run(alloc: Global, run: Run, old: &[u8]) -> Result<Ending, Halt>
    requires start { start_of old.now run.code ≡ Ok run.start }
    requires forest { IsForest run.start.files }
    ensures offers { Offers result (λ out. IsOfFiles out old.now run.start.names run.start.public run.world.files) }
    ensures no_fault { IfErr result (λ halt. halt ≢ Halt.ShelfFailed) }
{
    let saved = save(alloc, &run, old);
    let_go_run(run);
    match saved {
        Ok(saved) => Ok(told(alloc, saved)?),
        Err(fault) => Err(save_halt(fault)),
    }
}

/// A document that is saved, and the line of how many items it has.
fn told(alloc: Global, saved: Saved) -> Result<Ending, NoMemory>
    ensures { IfOk result (IsToldOf saved) }
{
    let Saved {
        text: document,
        items,
    } = saved;
    let text = saved_text(alloc, items)?;
    Ok(Ending { text, document })
}

/// The line of so many items.
fn saved_text(alloc: Global, items: u64) -> Result<String, NoMemory>
    ensures { IfOk result (λ text. string_bytes text ≡ saved_line items) }
{
    let mut text = String::new(alloc);
    text.push_str("saved ")?;
    push_number(&mut text, items)?;
    text.push('\n')?;
    Ok(text)
}

/// What that nothing is saved halts with.
fn save_halt(fault: SaveFault) -> Halt
    ensures { result ≡ halt_of_save fault }
{
    match fault {
        SaveFault::Unnamed { tag } => Halt::Refused(Refusal::Unnamed(tag.0)),
        SaveFault::BadText { item } => Halt::Refused(Refusal::BadText(item)),
        SaveFault::TooBig { bytes } => Halt::Refused(Refusal::TooBig(bytes)),
        SaveFault::NoMemory => Halt::NoMemory,
    }
}
