//! How long a schedule may be, and who may stand in it.

/// The most turns of a run, and of its book.
pub const TURN_LIMIT: u64 = 1_000_000;

/// The greatest number of a thread.
pub const LAST_THREAD: u64 = 4_095;

/// The most workers that take the turns of a run.
pub const WORKER_LIMIT: u64 = 16;
