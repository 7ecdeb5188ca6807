//! The execution of a play script, and its view at an observer's label.
//!
//! Steps are taken in order. Each is tested by the rules of `flow_labels` and `capabilities`, with the capabilities
//! that the kinds of the script's tags make public. A step that fails a rule is refused with the first failed rule and
//! its least tag, and changes nothing. An observer sees the steps of the actors whose labels flow to its own. A copy by
//! an unseen actor into a seen cell is a *release past* the observer, a declassification or an endorsement. It prints a
//! line of its own, with the capabilities that it used.
//!
//! `play_script` reads the scripts; [`play_text`] gives the text of an observer's view.
//!
//! [`scripts_are_isolated`] is non-interference up to declassification for scripts. Take two scripts that differ only
//! in the numbers of unseen cells. They print the same as far as the observer sees the same steps and the same releases
//! past it.
//!
//! The promises of `play` rest on `play_text` (its one clause) and on the laws `scripts_are_isolated`,
//! `notes_are_exact` and `releases_are_allowed`. Free to change for speed: how the text is put together.
#![tactic(auto)]

mod lines;
mod steps;

ghost use Rattle.std.specs.Prelude.{◌≡◌, ◌≤◌, length, IfOk, string_bytes};
ghost use Rattle.play_script.specs.Script.{play_of, most_lines};
ghost use Rattle.play_run.specs.Lines.{play_lines};
ghost use Rattle.play_run.specs.Isolation.{IsolatedScripts};
ghost use Rattle.play_run.specs.Laws.{NotesAreExact, ReleasesAreAllowed};

use capabilities::public_of;
use flow_labels::{Label, NoMemory};
use play_script::Script;
use std::alloc::Global;
pub use steps::Outcome;
use steps::{cells_of, take_step};

/// What the observer reads of the run of a script: a line for each step of an actor that it sees, and
/// one for each release past it.
///
/// It takes time linear in the number of steps and in the labels, the names and the capabilities that
/// they meet. A script that `read_script` of `play_script` gave has at most 65,536 cells.
///
/// # Errors
///
/// `NoMemory` where memory is refused, and no other.
pub fn play_text(alloc: Global, script: &Script, observer: &Label) -> Result<String, NoMemory>
    requires { length script.now.cells.items ≤ most_lines }
    ensures { IfOk result (λ text. string_bytes text ≡ play_lines (play_of script.now) observer.now) }
{
    let public = public_of(alloc, script.kinds.as_slice())?;
    let mut cells = cells_of(alloc, script.cells.as_slice())?;
    let mut text = String::new(alloc);
    for step in &script.steps {
        take_step(&mut text, &mut cells, script, &public, observer, *step)?;
    }
    Ok(text)
}

/// Of two scripts that declare the same, but for the numbers of the cells that an observer does not see,
/// the observer reads the same, as far as it sees the same steps and the same releases past it.
pub fn scripts_are_isolated()
    ensures { IsolatedScripts }
{}

/// A step has an entry in the trace exactly where the observer sees its actor, or where it is a release
/// past the observer.
pub fn notes_are_exact()
    ensures { NotesAreExact }
{}

/// Each release past any observer is a copy that the actor's capabilities and the public ones allowed, and
/// the capabilities that its line names are those that it used.
pub fn releases_are_allowed()
    ensures { ReleasesAreAllowed }
{}
