//! The law that runs of `replay`, `audit` and `run` mean what their source means.
//!
//! The premise is that such a call's files hold a checked program that has code, and a document with a start. Then in
//! each state of each run no thread is stuck, and each thread asks what its source means (`world_doc_laws`). What is
//! run is the thinned code, which acts as the program, since its code is guarded (`compiled_code_guarded`,
//! `thinned_code_acts`).
//!
//! Its asks are the first ones of its function in the source, with as many units as it made turns. They are taken with
//! the arguments and capabilities that it was started with, and the answers in the run. In turn, the source's asks with
//! n units are the first ones of its own after `(n + 1) * (T + 2R + 1)` turns, or once it has ended. T is the number of
//! operations of the code that the program is compiled to, and R that of its regions.

ghost use Rattle.std.specs.Prelude.{List};
ghost use Rattle.lam_io.specs.Outside.{Files};
ghost use Rattle.lam_main_words.specs.Words.{Text};
ghost use Rattle.lam_main_laws.specs.Meant.{CallsRunAsMeant, SourcesRunAsMeant};

use compiled_code_guarded::compiled_code_is_guarded;
use thinned_code::thinned_code_keeps_units;
use thinned_code_acts::thinned_scheme_acts;
use world_save_laws::{entries_are_functions, runs_of_documents_mean};

/// A law: where words ask for runs of a program from a document's start, the program has its names resolved, and every
/// run from there of the code that is run of it means what that source means. This speaks of every list of turns: of those of a book up to
/// the first that is not ready, and of those that threads take.
pub fn calls_run_as_meant()
    ensures { (ws : List Text) (files : Files) → CallsRunAsMeant ws files }
{
    compiled_code_is_guarded();
    thinned_scheme_acts();
    thinned_code_keeps_units();
    entries_are_functions();
    runs_of_documents_mean();
}

/// A law: every run of the code that is run of a program means the program with its names resolved, whatever document it
/// starts from. As of [`calls_run_as_meant`], this speaks of every list of turns.
pub fn sources_run_as_meant()
    ensures { SourcesRunAsMeant }
{
    compiled_code_is_guarded();
    thinned_scheme_acts();
    thinned_code_keeps_units();
    entries_are_functions();
    runs_of_documents_mean();
}
