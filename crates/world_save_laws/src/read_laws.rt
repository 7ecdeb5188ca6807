//! The law that a saved text is read back as the next run's start.
//!
//! The start has what the root reached at the end of this run. The text is read as its document (`text_laws`), and its
//! lists say the tags, the counters and the items (`list_laws`). The items make the files and directories again
//! (`tree_laws`), as those at the end of each run can be (`end_laws`). Pipes and threads are those of the older
//! document, and are read from its own values. The parts are one law here (`specs/Saved`), and with what an observer
//! can tell of two runs (`run_laws`) another (`specs/Runs`). All of it is in proofs alone.

ghost use Rattle.flow_labels.specs.declared.Label.{Label};
ghost use Rattle.lam_bytecode.specs.Codes.{CodeTree};
ghost use Rattle.world_save_laws.specs.Runs.{SavedStartsAgree};
ghost use Rattle.world_save_laws.specs.Saved.{SavedTextsAreRead, NextWorldsAreRead};

/// A text of files and directories, and of the document of a start, gives a start with the same tags, public capabilities,
/// pipes and threads, and with the files and directories that the root reaches, and no others.
pub fn saved_texts_are_read()
    ensures { (code : CodeTree) → SavedTextsAreRead code }
{}

/// So does a text of the files and directories at the end of a run from a document.
pub fn next_worlds_are_read()
    ensures { (code : CodeTree) → NextWorldsAreRead code }
{}

/// Two runs of one code with starts that look the same to an observer, and with equal agendas for it, are saved. Where at
/// their ends each seen file and directory is named in a seen directory, the starts that are read of the saved texts look
/// the same to it.
pub fn saved_starts_agree()
    ensures { (code : CodeTree) (o : Label) → SavedStartsAgree code o }
{}
