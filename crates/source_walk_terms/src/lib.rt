//! Definitions of when the asks of a run are those of its source.
//!
//! A walk re-executes a resolved program with the answers of a run, and compares the asks that it meets with those of
//! the run. It takes no code and trusts none: it can walk a run of any code. Where a thread asks something else than
//! its source, or more, the walk names the thread and the place of that ask.
//!
//! `specs/Departs` says where one list of asks leaves another. `specs/Walks` says what the answer of a walk tells of a
//! run, and `proofs/Examples` has a worked example.
//!
//! Nothing here is a matter of speed. The promise of `walk` (`source_walk`) is made in these definitions.
#![tactic(auto)]

/// How the asks of a run stand to those of its source.
#[derive(Clone, Copy, Debug, PartialEq, Eq, Drop)]
pub enum Walked {
    /// The asks of each thread are the first ones of its source, with as many units as the thread took turns. There are
    /// so many asks in the run.
    Same { asks: u64 },
    /// The asks of this thread are not, and those of each thread with a lower number are. At this place of its asks, and
    /// at none before, its source asks something else or nothing.
    Departs { thread: u32, ask: u64 },
}
