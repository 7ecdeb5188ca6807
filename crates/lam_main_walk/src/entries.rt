//! The law that the threads of a start stand at entries of their source.

ghost use Rattle.lam_main_walk.specs.Starts.{StartsStandAtEntries};

use lam_main_laws::sources_run_as_meant;

/// A law: each thread of the world that a document gives for the code that is run of a program stands at the entry of a
/// function of that program. `walk` and `walk_turns` of `source_walk` require that, so a caller that has its code and its
/// start by `run_inputs` meets it.
pub fn starts_stand_at_entries()
    ensures { StartsStandAtEntries }
{
    sources_run_as_meant();
}
