//! Histories of threads, with the places where they depart from their source.

use crate::written::{Held, Is, NONE, caps_of, values_of};
use lam_asks::{Answer, Ask, Fault, Outcome, What};
use lam_front::check_program;
use lam_resolve::resolve;
use lam_value::Value;
use source_walk_follow::follow;
use source_walk_state::Beginning;
use std::alloc::Global;
use std::test::Fail;
use want_of_memory::NoMemory;

/// Gives one.
const ONE: &str = "fn main(): int { return 1; }";

/// Goes round once, where a unit is left for that.
const ROUND: &str = "fn main(): int { let n: int = 0; while (n < 1) { n = n + 1; } return n; }";

/// Never goes round.
const NO_ROUND: &str = "fn main(): int { while (false) { } return 3; }";

/// Raises a fault.
const FAILS: &str = "fn main(): int { throw 5; }";

/// The end of a thread with a number, which is done.
fn ends(number: i64) -> What {
    What::Asked {
        ask: Ask::End(Outcome::Value(Value::Int(number))),
        answer: Answer::Done,
    }
}

/// The end of a thread with a fault, which is done.
fn fails(fault: Fault) -> What {
    What::Asked {
        ask: Ask::End(Outcome::Failed(fault)),
        answer: Answer::Done,
    }
}

/// How a thread begins: the number of its function, arguments and capabilities.
#[derive(Clone, Copy)]
pub struct Begins {
    pub function: u32,
    pub args: &'static [Is],
    pub caps: Held,
}

/// With the first function of a program, on nothing and without capabilities.
pub const MAIN: Begins = Begins {
    function: 0,
    args: &[],
    caps: NONE,
};

fn beginning_of(alloc: Global, begins: Begins) -> Result<Beginning, NoMemory> {
    let args = values_of(alloc, begins.args)?;
    let caps = caps_of(alloc, begins.caps)?;
    Ok(Beginning {
        function: begins.function,
        args,
        caps,
    })
}

/// Where a thread that did this with so many units departs from its source.
pub fn place_of(
    alloc: Global,
    text: &str,
    begins: Begins,
    units: u64,
    did: &[What],
) -> Result<Option<u64>, Fail> {
    let checked = check_program(alloc, text.as_bytes())?;
    let program = resolve(&checked)?;
    let begin = beginning_of(alloc, begins)?;
    Ok(follow(alloc, &program, &begin, units, did)?)
}

/// Fails where the first function of a program, that did this with so many units, departs from its source elsewhere.
fn departs(
    rt: &HostRuntime,
    text: &str,
    units: u64,
    did: &[What],
    want: Option<u64>,
) -> Result<(), Fail> {
    match place_of(rt.alloc(), text, MAIN, units, did)? {
        place if place == want => Ok(()),
        place => Err(Fail::new(format_args!("{place:?}"))),
    }
}

#[test]
fn end_with_another_number_departs_at_once(rt: HostRuntime) -> Result<(), Fail> {
    departs(&rt, ONE, 2, &[What::Private, ends(2)], Some(0))
}

#[test]
fn end_with_its_number_does_not_depart(rt: HostRuntime) -> Result<(), Fail> {
    departs(&rt, ONE, 2, &[What::Private, ends(1)], None)
}

#[test]
fn what_is_asked_after_the_end_departs(rt: HostRuntime) -> Result<(), Fail> {
    departs(&rt, ONE, 3, &[What::Private, ends(1), ends(1)], Some(1))
}

#[test]
fn thread_that_has_not_asked_yet_does_not_depart(rt: HostRuntime) -> Result<(), Fail> {
    departs(&rt, ONE, 1, &[What::Private], None)
}

#[test]
fn turn_of_a_loop_takes_a_unit(rt: HostRuntime) -> Result<(), Fail> {
    departs(&rt, ROUND, 0, &[ends(1)], Some(0))?;
    departs(&rt, ROUND, 1, &[ends(1)], None)
}

#[test]
fn test_of_a_loop_takes_none(rt: HostRuntime) -> Result<(), Fail> {
    departs(&rt, NO_ROUND, 0, &[ends(3)], None)
}

#[test]
fn thrown_number_ends_the_thread_with_that_fault(rt: HostRuntime) -> Result<(), Fail> {
    departs(&rt, FAILS, 2, &[fails(Fault::Thrown(5))], None)?;
    departs(&rt, FAILS, 2, &[ends(5)], Some(0))
}
