//! The law that all texts of the same files have one length. All of it is in proofs alone.

ghost use Rattle.world_save_files.specs.Lengths.{CompactLengthsAreOne, SavedLengthsAreOne};

/// All texts of a value in the compact form have one length, and so have all texts that can be saved of the same files.
pub fn saved_lengths_are_one()
    ensures values { CompactLengthsAreOne }
    ensures documents { SavedLengthsAreOne }
{}
