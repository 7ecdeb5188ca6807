//! The comparison of two runs of a code below an observer's label.
//!
//! [`pair`] tests the premises of isolation for two runs: that their starts agree below the observer's label, and how
//! far their agendas are equal. Up to there the runs look the same to the observer, whatever else differs
//! (`pair_check_terms`, `specs/Laws`). So none of their visible events has to be compared.
//!
//! [`agenda_for`] is what an observer notes of a run, entry by entry. `worlds` finds the first part in which two starts
//! differ; `stores` and `threads` compare their parts. A caller that has starts and lists of turns, and no [`Run`],
//! calls [`agenda_of`] once for each, and then [`answer_of_starts`]. The first also says whether the turns are a run.
//!
//! A public promise rests on [`pair`] (clauses `paired`, `same`), [`answer_of_starts`], [`agenda_for`] and [`first_part`]:
//! the answer is that of the definitions, and up to its number both runs look the same to the observer. Free to change for
//! speed: how the parts of two worlds, and two agendas, are compared.
#![tactic(auto)]

mod stores;
mod threads;
mod worlds;

ghost use Rattle.std.specs.Prelude.{◌≡◌, None, IfOk};
ghost use Rattle.lam_machine_terms.specs.Turns.{moments};
ghost use Rattle.guarded_code_runs.specs.Worlds.{IsSound};
ghost use Rattle.lam_machine_terms.specs.Views.{Agree, agenda};
ghost use Rattle.lam_machine_runs.specs.Stops.{stopped_at};
ghost use Rattle.pair_check_terms.specs.Pairs.{IsPairedBy, IsPaired};
ghost use Rattle.pair_check_terms.specs.Laws.{LookSameBy};
ghost use Rattle.pair_check_agenda.specs.Agendas.{items_in};

use flow_labels::Label;
use guarded_code::Verified;
use pair_check_agenda::{RunFault, World, answer_of, runs_are_whole};
pub use pair_check_agenda::{Agenda, Entry, Release, agenda_of};
use pair_check_terms::pairs_look_same;
pub use pair_check_terms::{PairAnswer, Part};
use std::alloc::Global;
use thread_host_run::Run;
use want_of_memory::NoMemory;
pub use worlds::first_part;

/// Whether an observer may expect to see the same of two runs of a code, and how far: the first part in which their
/// starts differ; or, where they agree, the first place at which their agendas differ; or how far both agendas go. Up to the
/// number of the answer both runs look the same to the observer.
///
/// It takes a step for each turn of both runs, but none where the starts differ.
///
/// # Errors
///
/// `NoMemory` where memory is refused.
pub fn pair(alloc: Global, a: &Run, b: &Run, observer: &Label) -> Result<PairAnswer, NoMemory>
    requires { a.now.code ≡ b.now.code }
    ensures paired { IfOk result (λ answer. IsPaired observer.now a.now.start (moments a.now.code a.now.turns a.now.start) b.now.start (moments b.now.code b.now.turns b.now.start) answer) }
    ensures same { IfOk result (λ answer. LookSameBy answer observer.now a.now.start (moments a.now.code a.now.turns a.now.start) b.now.start (moments b.now.code b.now.turns b.now.start)) }
{
    pairs_look_same();
    let _turns = a.turns();
    let _others = b.turns();
    answer_of_pair(alloc, a, b, observer)
}

/// What is to be said of two runs.
fn answer_of_pair(alloc: Global, a: &Run, b: &Run, observer: &Label) -> Result<PairAnswer, NoMemory>
    ensures { IfOk result (λ answer. IsPaired observer.now a.now.start (moments a.now.code a.now.turns a.now.start) b.now.start (moments b.now.code b.now.turns b.now.start) answer) }
{
    match first_part(a.start(), b.start(), observer) {
        Some(what) => Ok(PairAnswer::WorldsDiffer { what }),
        None => answer_of_runs(alloc, a, b, observer),
    }
}

/// What is to be said of two runs whose starts agree.
fn answer_of_runs(alloc: Global, a: &Run, b: &Run, observer: &Label) -> Result<PairAnswer, NoMemory>
    requires { Agree observer.now a.now.start b.now.start }
    ensures { IfOk result (λ answer. IsPaired observer.now a.now.start (moments a.now.code a.now.turns a.now.start) b.now.start (moments b.now.code b.now.turns b.now.start) answer) }
{
    let first = agenda_of_run(alloc, a, observer)?;
    let second = agenda_of_run(alloc, b, observer)?;
    Ok(answer_of(&first, &second))
}

/// What an observer notes of a run, entry by entry.
///
/// # Errors
///
/// `NoMemory` where memory is refused.
pub fn agenda_for(alloc: Global, run: &Run, observer: &Label) -> Result<Vec<Entry>, NoMemory>
    ensures { IfOk result (λ noted. items_in noted.items ≡ agenda observer.now (moments run.now.code run.now.turns run.now.start)) }
{
    let noted = agenda_of_run(alloc, run, observer)?;
    Ok(noted.into_entries())
}

/// What an observer notes of a run, as the comparison takes it.
fn agenda_of_run(alloc: Global, run: &Run, observer: &Label) -> Result<Agenda, NoMemory>
    ensures { IfOk result (λ noted. noted ≡ agenda observer.now (moments run.now.code run.now.turns run.now.start)) }
{
    runs_are_whole();
    let start = run.start().copy()?;
    agenda_of_whole(alloc, run.code(), start, run.turns(), observer)
}

/// What an observer notes of turns that are a run, so that none is refused.
fn agenda_of_whole(
    alloc: Global,
    code: &Verified,
    start: World,
    turns: &[u32],
    observer: &Label,
) -> Result<Agenda, NoMemory>
    requires sound { IsSound code.now start }
    requires whole { stopped_at code.now turns.now start ≡ None }
    ensures { IfOk result (λ noted. noted ≡ agenda observer.now (moments code.now turns.now start)) }
{
    match agenda_of(alloc, code, start, turns, observer) {
        Ok(noted) => Ok(noted),
        Err(RunFault::NoMemory) => Err(NoMemory),
        Err(RunFault::NotReady { turn: _, thread: _ }) => unreachable!(),
    }
}

/// What is to be said of two starts and of what an observer notes of the turns behind each. Takes no memory.
pub fn answer_of_starts(
    a: &World,
    first: &Agenda,
    b: &World,
    second: &Agenda,
    observer: &Label,
) -> PairAnswer
    ensures { IsPairedBy observer.now a.now b.now first.now second.now result }
{
    match first_part(a, b, observer) {
        Some(what) => PairAnswer::WorldsDiffer { what },
        None => answer_of(first, second),
    }
}
