//! The plan of an answer's effect on a thread.

use capabilities::Caps;
use lam_asks::Fault;
use thread_core_state::Operands;

/// What stands of the acting call when its ask was answered: its address, and how many operands the ask takes, with
/// null in the answer's place where there is no value.
#[derive(Clone, Copy)]
pub struct Left {
    pub at: usize,
    pub takes: usize,
    pub leaves_null: bool,
}

/// What an answer does to the monitors that a context took, from the last one on.
#[derive(Clone, Copy)]
pub enum Monitor {
    Stays,
    /// One was put first already.
    Taken,
    /// The one at a place goes.
    Given(usize),
}

/// How a context goes on: the operands that were added stay, and those below them that the ask takes go.
#[derive(Drop)]
pub struct Going {
    pub at: usize,
    pub takes: usize,
    pub added: usize,
    /// Whether a fault that was raised is forgotten.
    pub clears: bool,
    /// The capabilities that it has then, where they change.
    pub caps: Option<Caps>,
    pub monitor: Monitor,
}

/// What an answer will do to the contexts. All memory for it is taken.
#[derive(Drop)]
pub enum Plan {
    /// The acting context has a fault.
    Fails(Fault),
    /// The acting context goes.
    Leaves,
    /// The catch block begins, with these operands.
    Catches { at: usize, stack: Operands },
    /// The acting context goes on.
    Goes(Going),
    /// A region was entered: the context below the acting one goes on.
    Enters(Going),
}
