//! Plans of the program `lam_closed`, and how a call of it answers to one.
//!
//! A [`Status`] is how a call ends. A *plan* (`specs/Plan.antt`) is a status, the text that is printed and the file that
//! is written, if any. Refusals are those of `lam` (`lam_main_plan`), in the same order and with the same lines, and
//! files are read by the same definitions. Since a start has one closed run that ends, words and files have one plan
//! ([`plans_are_one`]). What a call may make of its plan is one relation for all commands (`specs/Answer.antt`).
//!
//! Public promises rest on the definitions and on [`plans_are_one`]. Nothing here is a matter of speed.
#![tactic(auto)]

ghost use Rattle.std.specs.Prelude.{◌≡◌, ◌≤◌};
ghost use Rattle.lam_closed_plan.specs.Codes.{code_of};
ghost use Rattle.lam_closed_plan.specs.Outcome.{status_of, ended};
ghost use Rattle.lam_closed_plan.specs.Plan.{PlansAreOne};
ghost use Rattle.closed_terms.specs.declared.End.TheVariants.{Done as all_ended};

use closed_laws::each_start_ends_once;
use closed_terms::End;
use lam_main_plan::Status as LamStatus;

/// How a call ended.
#[derive(Clone, Copy, Debug, PartialEq, Eq)]
pub enum Status {
    /// The command's text was printed; of `run`: every thread has ended.
    Done,
    /// Memory ran out; nothing was printed.
    NoMemory,
    /// The words are in no form, or name an unknown tag.
    Words,
    /// The program has a fault.
    Program,
    /// The document of a world is refused.
    World,
    /// The book of a schedule is refused, or one of its turns is of a thread that is not ready.
    Book,
    /// A file is not there, or is too long.
    Missing,
    /// The file store failed; nothing was printed.
    ShelfFault,
    /// The output failed, after a front of what the call prints.
    SinkFault,
    /// A closed run has as many open turns as it may have.
    Cut,
    /// A closed run's living threads all wait, and nobody is inside a region.
    Waits,
    /// A closed run's thread waits inside a region, and nobody else may go on.
    Stalled,
    /// A closed run has 1,000,000 turns in all.
    Over,
}

impl Status {
    /// The number that the process ends with.
    pub fn code(&self) -> u8
        ensures value { result ≡ code_of self.now }
        ensures small { result ≤ 12 }
    {
        match self {
            Status::Done => 0,
            Status::NoMemory => 1,
            Status::Words => 2,
            Status::Program => 3,
            Status::World => 4,
            Status::Book => 5,
            Status::Missing => 6,
            Status::ShelfFault => 7,
            Status::SinkFault => 8,
            Status::Cut => 9,
            Status::Waits => 10,
            Status::Stalled => 11,
            Status::Over => 12,
        }
    }

    /// The status of a call whose closed run ended so.
    pub fn of_end(end: End) -> Status
        ensures { result ≡ status_of end }
    {
        match end {
            End::Done => Status::Done,
            End::Cut => Status::Cut,
            End::Waits => Status::Waits,
            End::Stalled => Status::Stalled,
            End::Over => Status::Over,
        }
    }

    /// The status of a call that ends as one of `lam` does, and takes no run to its end.
    pub fn of_lam(status: LamStatus) -> Status
        ensures { result ≡ ended all_ended status }
    {
        match status {
            LamStatus::Done => Status::Done,
            LamStatus::NoMemory => Status::NoMemory,
            LamStatus::Words => Status::Words,
            LamStatus::Program => Status::Program,
            LamStatus::World => Status::World,
            LamStatus::Book => Status::Book,
            LamStatus::Missing => Status::Missing,
            LamStatus::ShelfFault => Status::ShelfFault,
            LamStatus::SinkFault => Status::SinkFault,
            LamStatus::Budget => Status::Cut,
            LamStatus::AllWait => Status::Waits,
        }
    }
}

/// A law: words and files have at most one plan.
pub fn plans_are_one()
    ensures { PlansAreOne }
{
    each_start_ends_once();
}
