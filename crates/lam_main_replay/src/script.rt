//! The command `play`: an observer's view of a script's steps.

ghost use Rattle.std.specs.Prelude.{◌≡◌, ◌≢◌, IsTrue, IfErr, string_bytes};
ghost use Rattle.lam_io.specs.Outside.{Rose, AllStay};
ghost use Rattle.lam_main_plan.specs.Reading.{WithFile, script_limit};
ghost use Rattle.lam_main_plan.specs.Plan.{Plays};
ghost use Rattle.lam_main_replay.specs.Halts.{Says, Gives};

use crate::files::read_file;
use crate::halt::{Halt, Refusal};
use flow_labels::{LabelFault, parse_label};
use lam_io::Shelf;
use play_run::play_text;
use play_script::{ScriptFault, read_script};
use std::alloc::Global;

/// The most bytes of a script.
const SCRIPT_LIMIT: u64 = 1_048_576;

/// The index of the word that is the observer's label.
const OBSERVER_WORD: u64 = 2;

/// What the observer of a label sees of the steps of the script in a file.
///
/// # Errors
///
/// A refusal where the file can't be read, the script is broken, or the label names an unknown tag.
pub fn play<H: Shelf>(
    alloc: Global,
    shelf: &mut H,
    file: String,
    observer: &str,
) -> Result<String, Halt>
    ensures gives { IsTrue (H.tells shelf.old) → Gives result (WithFile (H.files shelf.old (string_bytes file)) (string_bytes file) script_limit (Plays observer.now)) (H.files shelf.old) (H.files shelf.new) }
    ensures stay { IsTrue (H.tells shelf.old) → AllStay (H.files shelf.old) (H.files shelf.new) }
    ensures failed { IfErr result (λ halt. halt ≡ Halt.ShelfFailed → Rose (H.faults shelf.old) (H.faults shelf.new)) }
{
    let bytes = read_file(alloc, shelf, file, SCRIPT_LIMIT)?;
    play_bytes(alloc, bytes.as_slice(), observer)
}

/// What an observer sees of the script in a file's bytes.
fn play_bytes(alloc: Global, bytes: &[u8], observer: &str) -> Result<String, Halt>
    ensures says { Says result (Plays observer.now bytes.now) }
    ensures no_fault { IfErr result (λ halt. halt ≢ Halt.ShelfFailed) }
{
    let script = match read_script(alloc, bytes) {
        Ok(script) => script,
        Err(ScriptFault::Line(line)) => return Err(Halt::Refused(Refusal::Script(line))),
        Err(ScriptFault::NoMemory) => return Err(Halt::NoMemory),
    };
    let label = match parse_label(observer, &script.tags) {
        Ok(label) => label,
        Err(LabelFault::BadLabel { at: _ } | LabelFault::NoTag { at: _ }) => {
            return Err(Halt::Refused(Refusal::Word(OBSERVER_WORD)));
        }
        Err(LabelFault::NoMemory) => return Err(Halt::NoMemory),
    };
    Ok(play_text(alloc, &script, &label)?)
}
