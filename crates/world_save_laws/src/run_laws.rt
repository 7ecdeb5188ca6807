//! Isolation of the starts that two runs leave behind, in proofs alone.
//!
//! Two runs that an observer cannot tell apart may end with files and directories that it does not see. The next starts
//! make them again by their paths. So an observer could tell the starts apart by a visible file in an invisible
//! directory, which is there or not. If every visible file and directory is named in a visible directory, it cannot
//! (`specs/Agreeing`).

ghost use Rattle.lam_bytecode.specs.Codes.{CodeTree};
ghost use Rattle.flow_labels.specs.declared.Label.{Label};
ghost use Rattle.world_save_laws.specs.Agreeing.{NextStartsAgree};

/// Two runs of one code with starts that look the same to an observer, and with equal agendas for it, go on with starts that
/// look the same to it, where at their ends each seen file and directory is named in a seen directory.
pub fn next_starts_agree()
    ensures { (code : CodeTree) (o : Label) → NextStartsAgree code o }
{}
