//! The readers of a run, with the observer's label read by the start's names.

ghost use Rattle.std.specs.Prelude.{◌≡◌, ◌≢◌, Ok, IfOk, IfErr};
ghost use Rattle.lam_main_plan.specs.Reading.{Never};
ghost use Rattle.lam_main_plan.specs.Replays.{an_observer, ByReader, read_by};
ghost use Rattle.lam_main_replay.specs.Halts.{Finds};
ghost use Rattle.lam_main_replay.specs.Asked.{reader_of, lines_for};

use crate::Reader;
use crate::halt::Halt;
use crate::turns::read_label;
use flow_labels::{Label, TagNames};
use lam_machine_effects::Stores;

/// Who reads of a run.
#[derive(Drop)]
pub enum Viewer {
    /// An observer at this label.
    Observer(Label),
    /// An auditor.
    Auditor,
}

/// Who reads of a run, with the names of the tags of its start.
#[derive(Drop)]
pub struct NamedViewer {
    /// The names of the tags of the start.
    pub names: TagNames,
    /// Who reads.
    pub who: Viewer,
}

/// The reader of a run from these stores.
///
/// # Errors
///
/// A refusal with the index of the observer's word, where its text is no label of the tags of the stores; `NoMemory`.
pub fn viewer_of(reader: &Reader, stores: &Stores) -> Result<NamedViewer, Halt>
    ensures names { IfOk result (λ viewer. viewer.names ≡ stores.now.names) }
    ensures finds { Finds result (λ viewer. read_by (reader_of reader.now) stores.now.names ≡ Ok (lines_for viewer.who viewer.names)) (ByReader Never (read_by (reader_of reader.now) stores.now.names)) }
    ensures no_fault { IfErr result (λ halt. halt ≢ Halt.ShelfFailed) }
{
    match eye_of(reader, &stores.names) {
        Ok(who) => {
            let names = stores.names.copy()?;
            Ok(NamedViewer { names, who })
        }
        Err(halt) => Err(halt),
    }
}

/// The reader, with the label that the observer's text spells.
fn eye_of(reader: &Reader, names: &TagNames) -> Result<Viewer, Halt>
    ensures finds { Finds result (λ who. read_by (reader_of reader.now) names.now ≡ Ok (lines_for who names.now)) (ByReader Never (read_by (reader_of reader.now) names.now)) }
    ensures no_fault { IfErr result (λ halt. halt ≢ Halt.ShelfFailed) }
{
    match reader {
        Reader::Observer { index, label } => observer(*index, label.as_str(), names),
        Reader::Auditor => Ok(Viewer::Auditor),
    }
}

/// An observer at the label of a text.
fn observer(index: u64, text: &str, names: &TagNames) -> Result<Viewer, Halt>
    ensures finds { Finds result (λ who. read_by (an_observer index text.now) names.now ≡ Ok (lines_for who names.now)) (ByReader Never (read_by (an_observer index text.now) names.now)) }
    ensures no_fault { IfErr result (λ halt. halt ≢ Halt.ShelfFailed) }
{
    match read_label(index, text, names) {
        Ok(label) => Ok(Viewer::Observer(label)),
        Err(halt) => Err(halt),
    }
}
