//! The law of a call of `run`.
//!
//! However its threads interleave, `run` prints for an observer exactly the visible events of the machine run that its
//! book records; and any other run of the program whose start agrees below the observer's label, with the same visible
//! turns in the same order and the same releases past the label, has the same visible events and visible state as far
//! as both go.
//!
//! That is [`runs_are_recorded`]. It joins what a call did of its plan (`lam_main_plan`) to two-run isolation
//! (`lam_machine_laws`). The plan says no more than that some run was taken; the book tells which.

ghost use Rattle.std.specs.Prelude.{List};
ghost use Rattle.lam_io.specs.Outside.{Files};
ghost use Rattle.lam_main_words.specs.Words.{Text};
ghost use Rattle.lam_main_plan.specs.declared.Status.{Status};
ghost use Rattle.lam_main_plan.specs.Plan.{IsPlan};
ghost use Rattle.lam_main_plan.specs.Answer.{Outside, IsPlanned};
ghost use Rattle.lam_main_laws.specs.Headline.{Headline, BreaksOff, EndsInOrder, RunsAreComplete, GeneratedRuns};
ghost use Rattle.lam_main_laws.specs.Orderly.{OrderlyRunsEnd};

use lam_machine_laws::{runs_are_isolated, worlds_stay_well_labelled};
use world_save_laws::texts_start;

/// A law: where words, files and label are in order, and a call ends as a run ends (`Done`, `Budget` or `AllWait`), the
/// file of the book holds the turns of a run of the program's code from the start of the world's document, no other file
/// changed, and what was printed is what the observer sees of that run, and not a byte more. Any other run of the code,
/// from a start that the observer cannot tell apart, looks the same to it as far as both have the same agenda; of that
/// start no more is taken than that it is well labelled, as each valid one is.
pub fn runs_are_recorded()
    ensures { (ws : List Text) (status : Status) (old new : Outside) → IsPlanned status (IsPlan ws old.files) old new → Headline ws status old new }
{
    runs_are_isolated();
    worlds_stay_well_labelled();
    texts_start();
}

/// A law: where the output failed in such a call, the book stands all the same, and a front of what the observer sees was
/// printed, and not all of it.
pub fn broken_runs_are_recorded()
    ensures { (ws : List Text) (status : Status) (old new : Outside) → IsPlanned status (IsPlan ws old.files) old new → BreaksOff ws status old new }
{
    runs_are_isolated();
    worlds_stay_well_labelled();
    texts_start();
}

/// A law: a call of `run` ends as a run ends only where the program has code, the document gives a start, and the label is
/// one of the start's tags.
pub fn runs_end_in_order()
    ensures { (ws : List Text) (status : Status) (old new : Outside) → IsPlanned status (IsPlan ws old.files) old new → EndsInOrder ws status old }
{}

/// A law: where all these are in order, nothing but a run is planned.
pub fn runs_are_complete()
    ensures { (ws : List Text) (files : Files) → RunsAreComplete ws files }
{}

/// A law: where all these are in order, a call ends as a run ends, unless memory runs out, or the file store or the output
/// fails.
pub fn orderly_runs_end()
    ensures { (ws : List Text) (status : Status) (old new : Outside) → IsPlanned status (IsPlan ws old.files) old new → OrderlyRunsEnd ws status old }
{
    runs_are_complete();
}

/// A law: where a call of `make` ends as a run ends, the file of the book holds the turns of a run of the code of the made
/// program from the made world, no other file changed, and the summary of that run was printed.
pub fn generated_runs_are_recorded()
    ensures { (ws : List Text) (status : Status) (old new : Outside) → IsPlanned status (IsPlan ws old.files) old new → GeneratedRuns ws status old new }
{}
