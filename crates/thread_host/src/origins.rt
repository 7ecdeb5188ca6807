//! Origins, phantom types that fix what a shared course is one of.

use std::marker::Brand;

/// What the course under a lock is one of, the most turns that it may have, and what is to be kept of its moments. No value
/// of it is made: each call that shares a course picks its own.
pub trait Origin<Kept> {
    ghost use Rattle.std.specs.Prelude.{ℕ, List};
    ghost use Rattle.lam_bytecode.specs.Codes.{CodeTree};
    ghost use Rattle.lam_machine_terms.specs.Worlds.{World as Plain};
    ghost use Rattle.lam_machine_terms.specs.Turns.{Moment};

    ghost code: { CodeTree };

    ghost start: { Plain };

    ghost budget: { ℕ };

    ghost AreKept: { List Moment → Kept → Type 0 };
}

impl<Kept> Origin<Kept> for Brand {
    ghost use Rattle.thread_host.specs.Origins.{no_code, no_world};

    ghost code = { no_code };

    ghost start = { no_world };

    ghost budget = { 0 };

    ghost AreKept = { λ ms kept. Unit {0} };
}
