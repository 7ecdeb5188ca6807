//! The laws of how calls end where nothing failed.
//!
//! What is in order ends in order, and what is refused is refused as it is planned. For runs, whose words and files
//! have many plans, `runs` and `makes` say what is in order. These laws say it for the other commands. For all
//! commands, they say that the statuses of refusals come exactly where the plan has them.

ghost use Rattle.std.specs.Prelude.{List};
ghost use Rattle.lam_main_words.specs.Words.{Text};
ghost use Rattle.lam_main_plan.specs.declared.Status.{Status};
ghost use Rattle.lam_main_plan.specs.Plan.{IsPlan};
ghost use Rattle.lam_main_plan.specs.Answer.{Outside, IsPlanned};
ghost use Rattle.lam_main_laws.specs.Orderly.{OrderlyCallsAreDone, RefusalsAreExact};

use lam_machine_runs::runs_stop;
use lam_main_plan::{plans_are_one, refusals_are_one};
use world_save_laws::spelled_texts_are_bounded;

/// A law: a call of a command that starts no thread, whose words and files are in order, is done, unless memory runs out, or
/// the file store or the output fails.
pub fn orderly_calls_are_done()
    ensures { (ws : List Text) (status : Status) (old new : Outside) → IsPlanned status (IsPlan ws old.files) old new → OrderlyCallsAreDone ws status old }
{
    plans_are_one();
    runs_stop();
    spelled_texts_are_bounded();
}

/// A law: a call of any command ends with the status of a refusal exactly where a refusal of that status is planned of its
/// words and files, unless memory runs out, or the file store or the output fails; and then nothing else is planned.
pub fn refusals_are_exact()
    ensures { (ws : List Text) (status : Status) (old new : Outside) → IsPlanned status (IsPlan ws old.files) old new → RefusalsAreExact ws status old new }
{
    refusals_are_one();
}
