//! Answers, outcomes of threads, and the events of a run.

ghost use Rattle.std.specs.Prelude.{◌≡◌, IfOk};

use crate::ask::Ask;
use crate::fault::Fault;
use crate::together::both;
use lam_value::{Denied, Label, Value};
use want_of_memory::NoMemory;

/// How a thread ended: with a value, or with a fault that nothing caught.
#[derive(Drop)]
pub enum Outcome {
    Value(Value),
    Failed(Fault),
}

impl Outcome {
    /// An equal outcome.
    ///
    /// # Errors
    ///
    /// `NoMemory` where memory is refused.
    pub fn copy(&self) -> Result<Outcome, NoMemory>
        ensures { IfOk result (λ o. o ≡ self.now) }
    {
        match self {
            Outcome::Value(value) => Ok(Outcome::Value(value.copy()?)),
            Outcome::Failed(fault) => Ok(Outcome::Failed(*fault)),
        }
    }
}

/// What the reference monitor answers.
#[derive(Drop)]
pub enum Answer {
    /// It was done, and there is no value.
    Done,
    /// The thread stands in the region that it asked for.
    Entered,
    /// A value.
    Val(Value),
    /// A rule forbids it, and nothing was done. The thread has the fault Denied.
    Refused(Denied),
    /// It could not be done, and nothing was. The thread has the fault.
    Failed(Fault),
}

impl Answer {
    /// An equal answer.
    ///
    /// # Errors
    ///
    /// `NoMemory` where memory is refused.
    pub fn copy(&self) -> Result<Answer, NoMemory>
        ensures { IfOk result (λ a. a ≡ self.now) }
    {
        match self {
            Answer::Done => Ok(Answer::Done),
            Answer::Entered => Ok(Answer::Entered),
            Answer::Val(value) => Ok(Answer::Val(value.copy()?)),
            Answer::Refused(denied) => Ok(Answer::Refused(*denied)),
            Answer::Failed(fault) => Ok(Answer::Failed(*fault)),
        }
    }
}

/// What a turn of a thread was.
#[derive(Drop)]
pub enum What {
    /// An instruction of its own, of which nobody else learns anything.
    Private,
    /// An ask with its answer.
    Asked { ask: Ask, answer: Answer },
}

impl What {
    /// An equal one.
    ///
    /// # Errors
    ///
    /// `NoMemory` where memory is refused.
    pub fn copy(&self) -> Result<What, NoMemory>
        ensures { IfOk result (λ w. w ≡ self.now) }
    {
        match self {
            What::Private => Ok(What::Private),
            What::Asked { ask, answer } => {
                let (ask, answer) = both(ask.copy(), answer.copy())?;
                Ok(What::Asked { ask, answer })
            }
        }
    }
}

/// One turn of a run: the label at which the thread acted, its number, and what it did.
#[derive(Drop)]
pub struct Event {
    pub label: Label,
    pub thread: u32,
    pub what: What,
}

impl Event {
    /// An equal event.
    ///
    /// # Errors
    ///
    /// `NoMemory` where memory is refused.
    pub fn copy(&self) -> Result<Event, NoMemory>
        ensures { IfOk result (λ e. e ≡ self.now) }
    {
        let (label, what) = both(self.label.copy(), self.what.copy())?;
        Ok(Event {
            label,
            thread: self.thread,
            what,
        })
    }
}
