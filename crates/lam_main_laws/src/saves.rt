//! The laws of the files that a call of `next` carries over.

ghost use Rattle.std.specs.Prelude.{List};
ghost use Rattle.lam_io.specs.Outside.{Files};
ghost use Rattle.lam_main_words.specs.Words.{Text};
ghost use Rattle.lam_main_laws.specs.Saves.{SavesAreTold, NextWorldsAreRead, NextStartsAgree};

use lam_machine_runs::runs_stop;
use thinned_code::thinned_code_keeps_units;

/// A law: what a call of `next` writes is the document of the files at the end of its run and of the one that the run began
/// with, and it tells how many items that has; or it tells why there is no such document.
pub fn saves_are_told()
    ensures { (ws : List Text) (files : Files) → SavesAreTold ws files }
{
    runs_stop();
}

/// A law: the world that a call of `next` writes is read as a start of the same code, which goes on from the end of the run:
/// with the tags, the public capabilities, the pipes and the threads of the run's start, and with the files and directories
/// that the root reached.
pub fn next_worlds_are_read()
    ensures { (ws : List Text) (files : Files) → NextWorldsAreRead ws files }
{
    runs_stop();
    thinned_code_keeps_units();
}

/// A law: the worlds that two calls of `next` write after runs that look the same to an observer give starts that look the
/// same to it, where at the end of either run each file and directory that it sees is named in a directory that it sees.
pub fn next_starts_agree()
    ensures { (ws ws' : List Text) (files files' : Files) → NextStartsAgree ws ws' files files' }
{
    runs_stop();
    thinned_code_keeps_units();
}
