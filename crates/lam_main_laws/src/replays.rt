//! The laws of the texts that `replay` and `audit` print.
//!
//! A call of `replay` prints what its observer sees of the run that its files hold. Two calls whose starts the observer
//! cannot tell apart print the same as far as their agendas agree. That is two-run isolation (`lam_machine_laws`), said
//! of what is printed. A call of `audit` prints a line for each release past any observer, with the capabilities that
//! it took. It marks the line where all of these are public.

ghost use Rattle.std.specs.Prelude.{List};
ghost use Rattle.lam_io.specs.Outside.{Files};
ghost use Rattle.lam_main_words.specs.Words.{Text};
ghost use Rattle.lam_main_laws.specs.Calls.{ReplaysAreIsolated, AuditsArePrinted};

use crate::audits::audits_are_whole;
use lam_machine_laws::{runs_are_isolated, two_asks_release, worlds_stay_well_labelled};
use lam_machine_runs::runs_stop;
use world_save_laws::texts_start;

/// A law: what two calls of `replay` with one program print for an observer begins with the same lines, as far as their
/// runs have the same agenda, where it cannot tell their starts apart.
pub fn replays_are_isolated()
    ensures { (ws : List Text) (files : Files) → ReplaysAreIsolated ws files }
{
    runs_are_isolated();
    worlds_stay_well_labelled();
    runs_stop();
    texts_start();
}

/// A law: a call of `audit` prints the line of each release past any observer.
pub fn audits_are_printed()
    ensures { (ws : List Text) (files : Files) → AuditsArePrinted ws files }
{
    audits_are_whole();
    two_asks_release();
    runs_stop();
}
