//! The types of a thread's turns, standings and waits.

use lam_asks::Ask;
use lam_value::Name;

/// What a thread's next turn is.
#[derive(Drop)]
pub enum Turn {
    /// A private turn, which was taken.
    Private,
    /// An ask, which the reference monitor answers. The thread is as it was.
    Asks(Ask),
    /// Nothing: the thread is stuck.
    Stuck,
    /// Nothing: the thread has ended.
    Ended,
}

/// How a thread stands.
#[derive(Clone, Copy, Debug, PartialEq, Eq)]
pub enum Standing {
    /// Its next turn is private.
    Private,
    /// It asks next.
    Shared,
    Stuck,
    Ended,
}

/// How a thread stands, and what its next ask waits for.
#[derive(Clone, Copy)]
pub struct Outlook<'a> {
    pub standing: Standing,
    pub waits: Waits<'a>,
}

/// What a thread's next ask waits for, where that is not free or lives.
#[derive(Clone, Copy)]
pub enum Waits<'a> {
    Nobody,
    /// The monitor of a thing with the acting label.
    Monitor(&'a Name),
    /// The end of a thread, of which the acting label may read.
    Thread(u32),
}
