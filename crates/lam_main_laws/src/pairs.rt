//! The law of a call of `pair`, over two runs.
//!
//! A call of `pair` prints the one answer of its two runs. Up to the number of that answer they look the same to the
//! observer: that is isolation (`lam_machine_laws`), said of what is printed.

ghost use Rattle.std.specs.Prelude.{List};
ghost use Rattle.lam_io.specs.Outside.{Files};
ghost use Rattle.lam_main_words.specs.Words.{Text};
ghost use Rattle.lam_main_laws.specs.Pairs.{PairsAreTold};

use lam_machine_runs::runs_stop;
use pair_check_terms::pairs_look_same;
use world_save_laws::texts_start;

/// A law: what a call of `pair` prints is the line of the one answer of its runs, and up to the number of the answer they
/// look the same to the observer.
pub fn pairs_are_told()
    ensures { (ws : List Text) (files : Files) → PairsAreTold ws files }
{
    pairs_look_same();
    runs_stop();
    texts_start();
}
