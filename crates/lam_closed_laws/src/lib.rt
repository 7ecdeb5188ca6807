//! The laws of calls of `lam_closed`: what a call's text and files tell, in proofs alone.
//!
//! The tool's contract says what a call does of its plan, and `lam_closed_plan` says what is planned. These laws join that
//! to the laws of closed runs (`closed_laws`) and of documents (`closed_starts`).
//!
//! - **The closed headline** (`specs/Headline`, `specs/Alone`): what `run` printed is what its observer sees of the closed
//!   run that the written book records. The observer can tell no more of it than what is released past it. The order of
//!   the visible turns is a conclusion: what a secret region does, and for how long, moves nobody else's turns.
//! - In plain words, for two calls (`specs/Shown`): two worlds that agree below the observer's label show it the same, byte
//!   for byte, where nothing is released past the label and both runs end publicly.
//! - `check` says exactly where a run departs from the schedule (`specs/Checked`).
//! - What is in order ends in order, and refusals come exactly where they are planned (`specs/Orderly`).
//!
//! All laws here are public promises. Nothing here is a matter of speed.
#![tactic(auto)]

ghost use Rattle.std.specs.Prelude.{List};
ghost use Rattle.lam_io.specs.Outside.{Files};
ghost use Rattle.lam_main_words.specs.Words.{Text};
ghost use Rattle.lam_closed_words.specs.Words.{request_of};
ghost use Rattle.lam_closed_plan.specs.declared.Status.{Status};
ghost use Rattle.lam_closed_plan.specs.Plan.{IsPlan, written_by};
ghost use Rattle.lam_closed_plan.specs.Answer.{Outside, IsAnswer};
ghost use Rattle.lam_closed_laws.specs.Headline.{Headline, BreaksOff, EndsInOrder, RunsAreComplete};
ghost use Rattle.lam_closed_laws.specs.Shown.{CallsShowSame};
ghost use Rattle.lam_closed_laws.specs.Checked.{ChecksAreTold};
ghost use Rattle.lam_closed_laws.specs.Orderly.{OrderlyCallsEnd, RefusalsAreExact};

use closed_laws::{
    departures_are_first, each_start_ends_once, ends_are_the_same, order_is_a_conclusion,
    releases_follow,
};
use closed_starts::texts_are_starts;
use lam_closed_plan::plans_are_one;
use lam_machine_runs::runs_stop;

/// A law: where words, files and labels are in order, and a call ends as a closed run ends (`Done`, `Cut`, `Waits`,
/// `Stalled` or `Over`), the file of the book holds the turns of the closed run of the program's code from the start of
/// the world's document, that run ended so, no other file changed, and what was printed is what the observer sees of that
/// run, and not a byte more. Where the base flows to the observer, it can tell no more of it.
pub fn closed_runs_are_recorded()
    ensures { (ws : List Text) (status : Status) (old new : Outside) → IsAnswer (written_by (request_of ws)) status (IsPlan ws old.files) old new → Headline ws status old new }
{
    order_is_a_conclusion();
    ends_are_the_same();
    releases_follow();
    each_start_ends_once();
    texts_are_starts();
}

/// A law: where the output failed in such a call, the book stands all the same, and a front of what the observer sees was
/// printed, and not all of it.
pub fn broken_runs_are_recorded()
    ensures { (ws : List Text) (status : Status) (old new : Outside) → IsAnswer (written_by (request_of ws)) status (IsPlan ws old.files) old new → BreaksOff ws status old new }
{
    order_is_a_conclusion();
    ends_are_the_same();
    releases_follow();
    each_start_ends_once();
    texts_are_starts();
}

/// A law: two worlds agree below an observer's label, and are run closed with the same number of open turns. Where nothing is
/// released past the label and both runs end done, cut or waiting, both calls print the same, and end with the same status.
pub fn closed_calls_show_the_same()
    ensures { (ws : List Text) (status : Status) (old new : Outside) → IsAnswer (written_by (request_of ws)) status (IsPlan ws old.files) old new → CallsShowSame ws status old new }
{
    ends_are_the_same();
    texts_are_starts();
}

/// A law: a call of `run` ends as a closed run ends only where the program has code, the document gives a start, and both
/// labels are of the start's tags.
pub fn closed_runs_end_in_order()
    ensures { (ws : List Text) (status : Status) (old new : Outside) → IsAnswer (written_by (request_of ws)) status (IsPlan ws old.files) old new → EndsInOrder ws status old }
{}

/// A law: where all these are in order, nothing but the closed run is planned.
pub fn closed_runs_are_complete()
    ensures { (ws : List Text) (files : Files) → RunsAreComplete ws files }
{
    each_start_ends_once();
}

/// A law: `check` tells the first turn at which a run is not closed, or that it is closed, where no turn departs.
pub fn checks_are_told()
    ensures { (ws : List Text) (files : Files) → ChecksAreTold ws files }
{
    departures_are_first();
    runs_stop();
}

/// A law: a call whose words and files are in order ends in order, unless memory runs out, or the file store or the output
/// fails.
pub fn orderly_calls_end()
    ensures { (ws : List Text) (status : Status) (old new : Outside) → IsAnswer (written_by (request_of ws)) status (IsPlan ws old.files) old new → OrderlyCallsEnd ws status old }
{
    closed_runs_are_complete();
    checks_are_told();
    plans_are_one();
}

/// A law: a call ends with the status of a refusal exactly where a refusal of that status is planned of its words and files,
/// unless memory runs out, or the file store or the output fails; and then nothing else is planned.
pub fn refusals_are_exact()
    ensures { (ws : List Text) (status : Status) (old new : Outside) → IsAnswer (written_by (request_of ws)) status (IsPlan ws old.files) old new → RefusalsAreExact ws status old new }
{
    plans_are_one();
}
