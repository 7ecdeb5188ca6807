//! Calls of the outside that fail.

use crate::call::{Calls, Output, WIDE, Wanted, comes_to, store, wrote};
use crate::gates::Hook;
use crate::given::{ENTRY, ENTRY_SEEN, HOLDS_NOTHING, ONE_WORKER};
use lam_io::MemShelf;
use lam_main::Status;
use std::str::from_utf8;
use std::test::Fail;

/// A call whose outside fails, what it comes to, and the book that it wrote. The store writes the files first, each by a call.
#[derive(Clone, Copy)]
struct Case<'a> {
    files: &'a [(&'a str, &'a str)],
    shelf: &'a [u64],
    call: Wanted<'a>,
    book: Option<&'a str>,
}

const STEPS: &str = "actor p {}/{}\ncell c {}/{} 5\np read c\n";

const SCRIPT: &[(&str, &str)] = &[("s", STEPS)];

const PLAY: &[&str] = &["play", "s", "{}/{}"];

const BOOK: &str = "lam book 1\n0 8\n";

const RECORDED: &[(&str, &str)] = &[("P", ENTRY), ("W", HOLDS_NOTHING), ("B", BOOK)];

const REPLAY: &[&str] = &["replay", "P", "W", "B", "{}/{}"];

const GIVEN: &[(&str, &str)] = &[("P", ENTRY), ("W", HOLDS_NOTHING)];

/// An output whose first call fails.
const CLOSED: Output<'static> = Output {
    room: 65_536,
    most: 65_536,
    failing: &[1],
};

const CASES: [Case<'static>; 7] = [
    Case {
        files: SCRIPT,
        shelf: &[],
        call: Wanted {
            shows: "the lines of a script are not taken",
            words: PLAY,
            output: CLOSED,
            status: Status::SinkFault,
            printed: "",
        },
        book: None,
    },
    Case {
        files: SCRIPT,
        shelf: &[],
        call: Wanted {
            shows: "the output has no more room",
            words: PLAY,
            output: Output {
                room: 4,
                most: 4,
                failing: &[],
            },
            status: Status::SinkFault,
            printed: "p re",
        },
        book: None,
    },
    Case {
        files: SCRIPT,
        shelf: &[3],
        call: Wanted {
            shows: "no call is made after the last one that is needed",
            words: PLAY,
            output: Output {
                room: 13,
                most: 13,
                failing: &[2],
            },
            status: Status::Done,
            printed: "p read c = 5\n",
        },
        book: None,
    },
    Case {
        files: SCRIPT,
        shelf: &[],
        call: Wanted {
            shows: "a refusal's line is cut off where the output fails",
            words: &["play", "s"],
            output: Output {
                room: 100,
                most: 100,
                failing: &[2],
            },
            status: Status::SinkFault,
            printed: "lam: ",
        },
        book: None,
    },
    Case {
        files: RECORDED,
        shelf: &[],
        call: Wanted {
            shows: "a replay's lines are not taken",
            words: REPLAY,
            output: CLOSED,
            status: Status::SinkFault,
            printed: "",
        },
        book: None,
    },
    Case {
        files: GIVEN,
        shelf: &[],
        call: Wanted {
            shows: "a run's lines are not taken, and its book stands",
            words: ONE_WORKER,
            output: CLOSED,
            status: Status::SinkFault,
            printed: "",
        },
        book: Some(BOOK),
    },
    Case {
        files: GIVEN,
        shelf: &[],
        call: Wanted {
            shows: "a run where nothing fails, though a byte is taken by a call",
            words: ONE_WORKER,
            output: Output {
                room: 100,
                most: 1,
                failing: &[92],
            },
            status: Status::Done,
            printed: ENTRY_SEEN,
        },
        book: Some(BOOK),
    },
];

/// A store that fails, and an output that fails, have their own statuses. Each call of both fails in turn.
#[test]
fn shelf_and_sink_fail_in_turn(rt: HostRuntime) -> Result<(), Fail> {
    for case in &CASES {
        goes_so(&rt, *case)?;
    }
    for needs in &NEEDS {
        fails_at_each(&rt, *needs)?;
    }
    for taken in 0..ENTRY_SEEN.len() {
        breaks_off(&rt, taken)?;
    }
    Ok(())
}

/// A command, and the numbers of the calls of a store with all files that it makes, each in a list of its own.
#[derive(Clone, Copy)]
struct Needs<'a> {
    words: &'a [&'a str],
    calls: &'a [&'a [u64]],
}

/// Four files are written first.
const ALL: &[(&str, &str)] = &[
    ("s", STEPS),
    ("P", ENTRY),
    ("W", HOLDS_NOTHING),
    ("B", BOOK),
];

const ONE: &[&[u64]] = &[&[5]];

const THREE: &[&[u64]] = &[&[5], &[6], &[7]];

const NEEDS: [Needs<'static>; 8] = [
    Needs {
        words: PLAY,
        calls: ONE,
    },
    Needs {
        words: &["check", "P"],
        calls: ONE,
    },
    Needs {
        words: &["format", "P"],
        calls: ONE,
    },
    Needs {
        words: &["code", "P"],
        calls: ONE,
    },
    Needs {
        words: REPLAY,
        calls: THREE,
    },
    Needs {
        words: &["audit", "P", "W", "B"],
        calls: THREE,
    },
    Needs {
        words: ONE_WORKER,
        calls: THREE,
    },
    Needs {
        words: &["make", "1", "2", "B"],
        calls: ONE,
    },
];

/// Makes a call again and again, over stores of which another call fails each time: the status is that of the store, and
/// nothing is printed.
fn fails_at_each<R: Calls>(rt: &R, needs: Needs<'_>) -> Result<(), Fail> {
    let call = Wanted {
        shows: "a call of the store fails",
        words: needs.words,
        output: WIDE,
        status: Status::ShelfFault,
        printed: "",
    };
    for failing in needs.calls {
        let case = Case {
            files: ALL,
            shelf: failing,
            call,
            book: None,
        };
        goes_so(rt, case)?;
    }
    Ok(())
}

/// Makes a run whose output takes a byte by each call, and fails when it has taken so many. The book stands.
fn breaks_off<R: Calls>(rt: &R, taken: usize) -> Result<(), Fail> {
    let printed = front_of(ENTRY_SEEN, taken)?;
    let case = Case {
        files: GIVEN,
        shelf: &[],
        call: Wanted {
            shows: "an output fails that takes a byte by a call",
            words: ONE_WORKER,
            output: Output {
                room: 100,
                most: 1,
                failing: &[(taken as u64).saturating_add(1)],
            },
            status: Status::SinkFault,
            printed,
        },
        book: Some(BOOK),
    };
    goes_so(rt, case)
}

/// The first bytes of a text.
fn front_of(text: &str, taken: usize) -> Result<&str, Fail> {
    match text.as_bytes().get(..taken) {
        None => Err(Fail::new("no such front")),
        Some(front) => match from_utf8(front) {
            Ok(front) => Ok(front),
            Err(_) => Err(Fail::new("no such front")),
        },
    }
}

/// Makes the call of a case.
fn goes_so<R: Calls>(rt: &R, case: Case<'_>) -> Result<(), Fail> {
    let mut shelf = store(rt, case.files, case.shelf)?;
    let well = goes_so_over(rt, &mut shelf, &case);
    drop(shelf);
    well
}

/// Makes the call of a case over a store with its files.
fn goes_so_over<R: Calls>(rt: &R, shelf: &mut MemShelf, case: &Case<'_>) -> Result<(), Fail> {
    comes_to(rt, shelf, case.call, Hook::Open)?;
    match case.book {
        None => Ok(()),
        Some(wanted) => wrote(rt, shelf, case.call.shows, wanted),
    }
}
