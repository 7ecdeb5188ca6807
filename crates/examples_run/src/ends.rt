//! Runs with their ends, their views and the books that they write.

use crate::call::{Calls, Given, WIDE, Wanted, comes_to, store, wrote};
use crate::gates::Hook;
use crate::given::{BARE_WORLD, ENTERS, ENTRY_SEEN, ONE_WORKER, THREE, ZERO};
use lam_io::MemShelf;
use lam_main::Status;
use std::test::Fail;

/// A run by the program's gate, what it comes to, and the book that it writes.
#[derive(Clone, Copy)]
struct Case<'a> {
    given: Given<'a>,
    call: Wanted<'a>,
    book: &'a str,
}

const FAULTS: Given<'static> = Given {
    program: "fn main(): int { let x: int = 1; region (label{;}, caps{}) [x] { x = x / 0; } catch (e) { x = 1 / 0; } return x; }",
    world: BARE_WORLD,
};

const LOOP_SEEN: &str =
    "t0 {}/{} enter {a}/{} caps +{}-{} region 0 () = entered\nt0 {}/{} new class 0 = obj<{}/{}|{}/{}|0>\nt0 {}/{} end value 0 = done\n";

const ENDLESS: Given<'static> = Given {
    program: "fn main(): int { while (true) { } return 0; }",
    world: BARE_WORLD,
};

/// A thread that joins itself.
const JOINS: Given<'static> = Given {
    program: "class H { t: thread; } fn kid(h: H): int { while (h.t == null) { } return join(h.t); } fn main(): int { let h: H = new H(); let t: thread = spawn(caps{}) kid(h); h.t = t; return join(t); }",
    world: BARE_WORLD,
};

const CASES: [Case<'static>; 8] = [
    Case {
        given: ENTERS,
        call: Wanted {
            shows: "a region that the thread may not enter is refused to it, and the thread ends by that",
            words: ONE_WORKER,
            output: WIDE,
            status: Status::Done,
            printed: ENTRY_SEEN,
        },
        book: "lam book 1\n0 8\n",
    },
    Case {
        given: FAULTS,
        call: Wanted {
            shows: "a body's fault is caught, the catch block's is suppressed, and the thread goes on",
            words: ONE_WORKER,
            output: WIDE,
            status: Status::Done,
            printed: "t0 {}/{} enter {}/{} caps +{}-{} region 0 (1) = entered\nt0 {}/{} caught Zero = done\nt0 {}/{} suppressed Zero = done\nt0 {}/{} end value 1 = done\n",
        },
        book: "lam book 1\n0 17\n",
    },
    Case {
        given: ZERO,
        call: Wanted {
            shows: "a loop that a secret makes short",
            words: ONE_WORKER,
            output: WIDE,
            status: Status::Done,
            printed: LOOP_SEEN,
        },
        book: "lam book 1\n0 21\n",
    },
    Case {
        given: THREE,
        call: Wanted {
            shows: "one that a secret makes long looks the same, though the run has more turns",
            words: ONE_WORKER,
            output: WIDE,
            status: Status::Done,
            printed: LOOP_SEEN,
        },
        book: "lam book 1\n0 54\n",
    },
    Case {
        given: ZERO,
        call: Wanted {
            shows: "a run has no more turns than its budget",
            words: &[
                "run",
                "P",
                "W",
                "{}/{}",
                "B",
                "--workers",
                "1",
                "--turns",
                "1",
            ],
            output: WIDE,
            status: Status::Budget,
            printed: "",
        },
        book: "lam book 1\n0 1\n",
    },
    Case {
        given: ENTERS,
        call: Wanted {
            shows: "who ends with the last turn of the budget has ended",
            words: &["run", "P", "W", "{}/{}", "B", "--turns", "8"],
            output: WIDE,
            status: Status::Done,
            printed: ENTRY_SEEN,
        },
        book: "lam book 1\n0 8\n",
    },
    Case {
        given: ENDLESS,
        call: Wanted {
            shows: "the budget is 100,000 turns where the words name none",
            words: &["run", "P", "W", "{}/{}", "B"],
            output: WIDE,
            status: Status::Budget,
            printed: "",
        },
        book: "lam book 1\n0 100000\n",
    },
    Case {
        given: JOINS,
        call: Wanted {
            shows: "a thread that joins itself waits, and who joins that one too",
            words: ONE_WORKER,
            output: WIDE,
            status: Status::AllWait,
            printed: "t0 {}/{} new class 0 = obj<{}/{}|{}/{}|0>\nt0 {}/{} spawn 0 (obj<{}/{}|{}/{}|0>) caps +{}-{} = t1\nt0 {}/{} write obj<{}/{}|{}/{}|0> 0 t1 = done\nt1 {}/{} read obj<{}/{}|{}/{}|0> 0 = t1\nt1 {}/{} read obj<{}/{}|{}/{}|0> 0 = t1\n",
        },
        book: "lam book 1\n0 11\n1 8\n",
    },
];

/// Each run ends, prints and writes what its case says.
#[test]
fn runs_end_as_they_should(rt: HostRuntime) -> Result<(), Fail> {
    for case in &CASES {
        goes_so(&rt, case)?;
    }
    Ok(())
}

/// Makes the run of a case.
fn goes_so<R: Calls>(rt: &R, case: &Case<'_>) -> Result<(), Fail> {
    let mut shelf = store(rt, &case.given.files(), &[])?;
    let well = runs_and_writes(rt, &mut shelf, case.call, case.book, Hook::Open);
    drop(shelf);
    well
}

/// Makes a run by a gate, which comes to what is wanted, and writes this book.
fn runs_and_writes<R: Calls>(
    rt: &R,
    shelf: &mut MemShelf,
    wanted: Wanted<'_>,
    book: &str,
    gate: Hook<'_>,
) -> Result<(), Fail> {
    comes_to(rt, shelf, wanted, gate)?;
    wrote(rt, shelf, wanted.shows, book)
}

/// Two threads that lock the same two things in different orders.
const LOCKS: Given<'static> = Given {
    program: "class C { v: int; } fn kid(x: C, y: C): int { sync (y) { sync (x) { } } return 0; } fn main(): int { let x: C = new C(); let y: C = new C(); let t: thread = spawn(caps{}) kid(x, y); sync (x) { sync (y) { } } return join(t); }",
    world: BARE_WORLD,
};

const LOCKS_SEEN: &str =
    "t0 {}/{} new class 0 = obj<{}/{}|{}/{}|0>\nt0 {}/{} new class 0 = obj<{}/{}|{}/{}|1>\nt0 {}/{} spawn 0 (obj<{}/{}|{}/{}|0>,obj<{}/{}|{}/{}|1>) caps +{}-{} = t1\nt0 {}/{} lock obj<{}/{}|{}/{}|0> = done\nt1 {}/{} lock obj<{}/{}|{}/{}|1> = done\n";

/// A pick is for one ask, or for the private turns that come up to the next one. The first thread is at turn 8 when it has
/// started the other; then each pick is the first thread's at an even turn, and the other's at an odd one.
const LOCKS_BOOK: &str = "lam book 1\n0 13\n1 3\n0 3\n1 4\n";

const LOCKED: Wanted<'static> = Wanted {
    shows: "two threads that each hold what the other wants wait",
    words: ONE_WORKER,
    output: WIDE,
    status: Status::AllWait,
    printed: LOCKS_SEEN,
};

/// Turns of the one thread and of the other bring them to where both wait.
#[test]
fn threads_that_lock_crosswise_wait(rt: HostRuntime) -> Result<(), Fail> {
    let mut shelf = store(&rt, &LOCKS.files(), &[])?;
    let well = runs_and_writes(&rt, &mut shelf, LOCKED, LOCKS_BOOK, Hook::InTurn);
    drop(shelf);
    well
}
