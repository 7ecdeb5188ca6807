//! The law of a call of `walk`, over a run.

ghost use Rattle.std.specs.Prelude.{List};
ghost use Rattle.lam_io.specs.Outside.{Files};
ghost use Rattle.lam_main_words.specs.Words.{Text};
ghost use Rattle.lam_main_laws.specs.Walks.{WalksAreTold};

use lam_machine_runs::runs_stop;

/// A law: what a call of `walk` prints is the number of the asks of its run, where the source makes each of them.
pub fn walks_are_told()
    ensures { (ws : List Text) (files : Files) → WalksAreTold ws files }
{
    runs_stop();
}
