//! Plans, the specifications of a call's outcome, and how a call may answer to one.
//!
//! A [`Status`] is how a call ends. A *plan* (`specs/Plan.antt`) is a status, the text that is printed and the file
//! that is written, if any. It is defined command by command, in the order in which files are read, and a new command
//! adds a case. What a call may make of its plan is one relation for all commands (`specs/Answer.antt`). The output or
//! the file store may fail, and memory may run out.
//!
//! Public promises rest on the definitions, on [`plans_are_one`] and on [`refusals_are_one`]: words and files have one
//! plan. Nothing here is a matter of speed.
#![tactic(auto)]

ghost use Rattle.std.specs.Prelude.{◌≡◌, ◌≤◌};
ghost use Rattle.lam_main_plan.specs.Codes.{code_of};
ghost use Rattle.lam_main_plan.specs.Plan.{PlansAreOne, RefusalsAreOne};

pub use run_inputs::{InputFault, compiled_code, let_go_world, program_in, run_code, start_in};

/// How a call ended.
#[derive(Clone, Copy, Debug, PartialEq, Eq)]
pub enum Status {
    /// The command's text was printed.
    Done,
    /// Memory ran out; nothing was printed.
    NoMemory,
    /// The words are in no form, or name an unknown tag.
    Words,
    /// The script is broken, or the program has a fault.
    Program,
    /// The document of a world is refused.
    World,
    /// The book of a schedule is refused, or one of its turns is of a thread that is not ready.
    Book,
    /// A file is not there, or is too long.
    Missing,
    /// The file store failed; nothing was printed.
    ShelfFault,
    /// The output failed, after a front of what the call prints.
    SinkFault,
    /// A run took all its turns, and some thread is ready.
    Budget,
    /// A run's living threads all wait.
    AllWait,
}

impl Status {
    /// The number that the process ends with.
    pub fn code(&self) -> u8
        ensures value { result ≡ code_of self.now }
        ensures small { result ≤ 10 }
    {
        match self {
            Status::Done => 0,
            Status::NoMemory => 1,
            Status::Words => 2,
            Status::Program => 3,
            Status::World => 4,
            Status::Book => 5,
            Status::Missing => 6,
            Status::ShelfFault => 7,
            Status::SinkFault => 8,
            Status::Budget => 9,
            Status::AllWait => 10,
        }
    }
}

/// Words and files that tell all of a plan have at most one: no turns are left to threads, and no digits to the writer of a world.
pub fn plans_are_one()
    ensures { PlansAreOne }
{}

/// Where a refusal is planned of words and files, it is their one plan, also where threads would be started, or digits are left to the
/// writer of a world.
pub fn refusals_are_one()
    ensures { RefusalsAreOne }
{}
