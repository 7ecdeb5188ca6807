//! Asks for threads, the asks of a started thread, and a book that stops early.

use crate::follows::{Begins, MAIN};
use crate::tables::Line::{Did, Not};
use crate::tables::{Thread, departs_at_each};
use crate::written::Asks::{Ends, Enter, Fails, Join, Leave, Say, Spawn};
use crate::written::Gets::{Done, Entered, Failed, Gives};
use crate::written::{Is, NONE, PLUS};
use lam_asks::Fault;
use std::test::Fail;

const STARTS: &str =
    "fn main(): int { let t: thread = spawn(my_caps()) work(4, \"n\"); return join(t); } fn work(n: int, b: bytes): int { region (label{;}, my_caps()) [b] { say(b); } catch (e) { } return n * n; }";

/// Starts a thread and waits for it.
const FIRST: Thread = Thread {
    text: STARTS,
    begins: Begins {
        function: 0,
        args: &[],
        caps: PLUS,
    },
    lines: &[
        Did(
            Spawn(1, &[Is::Int(4), Is::Bytes("n")], PLUS),
            Gives(Is::Thread(7)),
        ),
        Not(Spawn(0, &[Is::Int(4), Is::Bytes("n")], PLUS)),
        Not(Spawn(1, &[Is::Int(4), Is::Bytes("m")], PLUS)),
        Not(Spawn(1, &[Is::Int(4)], PLUS)),
        Not(Spawn(1, &[Is::Int(4), Is::Bytes("n")], NONE)),
        Did(Join(7), Failed(Fault::Child)),
        Not(Join(6)),
        Did(Fails(Fault::Child), Done),
        Not(Fails(Fault::Denied)),
        Not(Ends(Is::Int(16))),
    ],
};

/// The thread that it starts.
const SECOND: Thread = Thread {
    text: STARTS,
    begins: Begins {
        function: 1,
        args: &[Is::Int(4), Is::Bytes("n")],
        caps: PLUS,
    },
    lines: &[
        Did(Enter(&[], PLUS, 0, &[Is::Bytes("n")]), Entered),
        Not(Enter(&[], NONE, 0, &[Is::Bytes("n")])),
        Did(Say("n"), Done),
        Not(Say("m")),
        Did(Leave, Done),
        Not(Say("n")),
        Did(Ends(Is::Int(16)), Done),
        Not(Ends(Is::Int(4))),
    ],
};

/// Says one number after another, up to where its book stops.
const STOPS: Thread = Thread {
    text: "fn main(): int { let n: int = 0; while (true) { say(text(n)); n = n + 1; } return n; }",
    begins: MAIN,
    lines: &[
        Did(Say("0"), Done),
        Not(Say("1")),
        Did(Say("1"), Done),
        Not(Say("2")),
        Not(Ends(Is::Int(1))),
    ],
};

#[test]
fn another_ask_for_a_thread_departs(rt: HostRuntime) -> Result<(), Fail> {
    departs_at_each(&rt, FIRST)
}

#[test]
fn another_ask_of_a_second_thread_departs(rt: HostRuntime) -> Result<(), Fail> {
    departs_at_each(&rt, SECOND)
}

#[test]
fn another_ask_before_a_book_stops_departs(rt: HostRuntime) -> Result<(), Fail> {
    departs_at_each(&rt, STOPS)
}
