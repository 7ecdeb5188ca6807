//! The law that a run's last files and directories can be saved and made again.
//!
//! They are sound and a forest by the laws of valid worlds and of `world_forest_laws`. This law adds what a document
//! can say of them. No file has more bytes than a file may have, and no home that is counted has made nothing. So it is
//! at every start from a document, and each turn keeps it (`specs/EndLaws`). All of it is in proofs alone.

ghost use Rattle.lam_bytecode.specs.Codes.{CodeTree};
ghost use Rattle.world_save_laws.specs.EndLaws.{StartsAreSmall, EndsAreWhole};

/// The files of a world that a text gives have no more bytes than files may have, and each home that is counted has made
/// something.
pub fn starts_are_small()
    ensures { (code : CodeTree) → StartsAreSmall code }
{}

/// From a valid world with such files that are a forest, the files and directories at the end of every run are sound, a
/// forest, and of that kind.
pub fn ends_are_whole()
    ensures { (code : CodeTree) → EndsAreWhole code }
{}
