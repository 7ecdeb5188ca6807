//! The law of an observer's text of a run's prefix.
//!
//! Of a prefix of a run an observer is shown the first of the lines that it is shown of the run. So a book that lost
//! its end shows no other run, and a turn more takes back nothing that was shown.

ghost use Rattle.std.specs.Prelude.{List};
ghost use Rattle.lam_bytecode.specs.Codes.{CodeTree};
ghost use Rattle.lam_io.specs.Outside.{Files};
ghost use Rattle.lam_main_words.specs.Words.{Text};
ghost use Rattle.lam_main_laws.specs.Fronts.{FrontsAreSeenFirst, FrontsArePrinted};

use lam_machine_runs::{runs_join, runs_stop};

/// A law: a front of a run's turns is a run, and the lines of what an observer sees of it are a front of those of the run.
pub fn fronts_are_seen_first()
    ensures { (code : CodeTree) → FrontsAreSeenFirst code }
{
    runs_join();
}

/// A law: a call of `replay` prints first what every call of it prints that asks the same of a front of its run.
pub fn fronts_are_printed()
    ensures { (ws : List Text) (files : Files) → FrontsArePrinted ws files }
{
    fronts_are_seen_first();
    runs_stop();
}
