//! Runs turn by turn: their concatenation, their longest valid prefix, and their ends.
//!
//! `specs/Stops` defines the first turn whose thread is not ready. The plan of a call (`lam_main_plan`) and the fold
//! over turns (`lam_machine_replay`) both use it. A run ends ([`How`], `specs/Ends`) because every thread has ended,
//! all that live wait, or the budget of turns is used up. The workers that take the turns (`thread_host`) and the plan
//! of a call use that.
//!
//! A public promise rests on [`runs_join`], [`runs_stop`] and [`runs_end_in_one_way`]: how runs join, stop and end.
//! Nothing here is a matter of speed.
#![tactic(auto)]

ghost use Rattle.lam_machine_terms.specs.Codes.{CodeTree};
ghost use Rattle.lam_machine_runs.specs.Ends.{EndsAreOne};
ghost use Rattle.lam_machine_runs.specs.Runs.{RunsJoin, RunsStop};

/// Two lists of turns in a row are a run exactly where the first is one and the second is one of the world that the
/// first leaves; the moments are those of both in a row. A turn of a ready thread makes a run longer by one.
pub fn runs_join()
    ensures { (code : CodeTree) → RunsJoin code }
{}

/// The moments of turns are those of their longest front that is a run, and the turn after that front, where there is
/// one, is of a thread that is not ready.
pub fn runs_stop()
    ensures { (code : CodeTree) → RunsStop code }
{}

/// A run ends in one way: where every thread has ended none lives and none is ready, and where none is ready the budget is
/// not what it ended by.
pub fn runs_end_in_one_way()
    ensures { (code : CodeTree) → EndsAreOne code }
{}

/// How a run ended.
#[derive(Clone, Copy, Debug, PartialEq, Eq)]
pub enum How {
    /// Every thread has ended.
    Done,
    /// Some thread lives, and none is ready.
    AllWait,
    /// Some thread is ready, and as many turns were taken as there were to be at most.
    Budget,
}
