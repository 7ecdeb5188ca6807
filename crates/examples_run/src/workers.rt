//! Concurrent workers, with the gate's picks, and the book that replays their run.

use crate::call::{Calls, Given, Told, WIDE, Wanted, book_in, comes_to, store, tell};
use crate::gates::{Gathers, Hook, Meets, Notes};
use lam_io::MemShelf;
use lam_main::Status;
use std::sync::atomic::{AtomicU64, Ordering};
use std::test::Fail;
use turn_book::{Turns, read_book};

/// Each round of a made thread's loop takes 13 turns and the rest of it 25, and the numbers of the four threads that seed 1
/// makes are 774, 153, 196 and 870.
const TURNS: usize = 26_009;

/// The words of a run by two workers.
const TWO_WORKERS: [&str; 7] = ["run", "P", "W", "{}/{}", "B", "--workers", "2"];

/// The words of a run by sixteen workers, of few turns.
const SIXTEEN_WORKERS: [&str; 9] = [
    "run",
    "P",
    "W",
    "{}/{}",
    "B",
    "--workers",
    "16",
    "--turns",
    "20000",
];

/// The words of a run by one worker.
const ONE_WORKER: [&str; 7] = ["run", "P", "W", "{}/{}", "B", "--workers", "1"];

/// The most turns that a worker checks in at once.
const STRETCH: u64 = 4_096;

/// A thread that speaks in a region, where nobody hears it.
const SPEAKER: Given<'static> = Given {
    program: "fn main(a: tag): int { region (label{a;}, caps{}) [] { while (true) { say(\"a\"); } } catch (e) { } return 0; }",
    world: "{\"version\":1,\"tags\":[\"a\"],\"tree\":[],\"pipes\":[],\"threads\":[{\"run\":\"main\",\"args\":[{\"tag\":\"a\"}],\"caps\":{\"plus\":[\"a\"],\"minus\":[]}}]}",
};

/// Two threads that compute.
const COMPUTERS: Given<'static> = Given {
    program: "fn main(): int { while (true) { } return 0; }",
    world: "{\"version\":1,\"tags\":[],\"tree\":[],\"pipes\":[],\"threads\":[{\"run\":\"main\",\"args\":[],\"caps\":{\"plus\":[],\"minus\":[]}},{\"run\":\"main\",\"args\":[],\"caps\":{\"plus\":[],\"minus\":[]}}]}",
};

/// A run by workers of which none goes on before all have taken turns, a number of times.
#[derive(Clone, Copy)]
struct Gathering {
    shows: &'static str,
    given: Given<'static>,
    workers: u64,
    words: [&'static str; 9],
    rounds: u64,
}

const GATHERINGS: [Gathering; 4] = [
    Gathering {
        shows: "three workers, a thread that speaks",
        given: SPEAKER,
        workers: 3,
        words: [
            "run",
            "P",
            "W",
            "{}/{}",
            "B",
            "--workers",
            "3",
            "--turns",
            "20000",
        ],
        rounds: 300,
    },
    Gathering {
        shows: "sixteen workers, a thread that speaks",
        given: SPEAKER,
        workers: 16,
        words: [
            "run",
            "P",
            "W",
            "{}/{}",
            "B",
            "--workers",
            "16",
            "--turns",
            "20000",
        ],
        rounds: 50,
    },
    Gathering {
        shows: "three workers, two threads that compute",
        given: COMPUTERS,
        workers: 3,
        words: [
            "run",
            "P",
            "W",
            "{}/{}",
            "B",
            "--workers",
            "3",
            "--turns",
            "400000",
        ],
        rounds: 20,
    },
    Gathering {
        shows: "sixteen workers, two threads that compute",
        given: COMPUTERS,
        workers: 16,
        words: [
            "run",
            "P",
            "W",
            "{}/{}",
            "B",
            "--workers",
            "16",
            "--turns",
            "400000",
        ],
        rounds: 4,
    },
];

/// No worker sleeps for good while there is something to take: in each round every one of them takes turns.
#[test]
fn workers_gather(rt: HostRuntime) -> Result<(), Fail> {
    for gathering in &GATHERINGS {
        gathers(&rt, gathering)?;
    }
    Ok(())
}

fn gathers<R: Calls>(rt: &R, gathering: &Gathering) -> Result<(), Fail> {
    let gate = Gathers {
        workers: gathering.workers,
        rounds: gathering.rounds,
        calls: AtomicU64::new(0),
        late: AtomicU64::new(0),
    };
    let mut shelf = store(rt, &gathering.given.files(), &[])?;
    let status = ends(rt, &mut shelf, &gathering.words, Hook::Gathers(&gate));
    drop(shelf);
    let late = gate.late.load(Ordering::SeqCst);
    let calls = gate.calls.load(Ordering::SeqCst);
    let shows = gathering.shows;
    if status? == Status::Budget && late == 0 && calls >= gathering.workers {
        return Ok(());
    }
    Err(Fail::new(format_args!("{shows}: {calls} calls, and a worker waited in vain")))
}

/// A store with the program and the world of four threads that seed 1 makes.
fn four<R: Calls>(rt: &R) -> Result<MemShelf, Fail> {
    let (program, world) = lam_make::make(rt.alloc(), 1, 4)?;
    store(rt, &[("P", program.as_str()), ("W", world.as_str())], &[])
}

#[test]
fn two_workers_meet(rt: HostRuntime) -> Result<(), Fail> {
    let gate = Meets {
        first: AtomicU64::new(0),
        second: AtomicU64::new(0),
        late: AtomicU64::new(0),
        calls: AtomicU64::new(0),
    };
    each_check_in_has_a_call(&rt, &gate)?;
    assert_eq!(rt; gate.first.load(Ordering::SeqCst), 1);
    assert_eq!(rt; gate.second.load(Ordering::SeqCst), 1);
    assert_eq!(rt; gate.late.load(Ordering::SeqCst), 0);
    Ok(())
}

/// A run ends with every thread, and its gate was called between check-ins: each has at least a turn and at most as many as
/// a stretch.
fn each_check_in_has_a_call<R: Calls>(rt: &R, gate: &Meets) -> Result<(), Fail> {
    let mut shelf = four(rt)?;
    let turns = turns_written(rt, &mut shelf, &TWO_WORKERS, Hook::Meets(gate));
    drop(shelf);
    let turns = turns?;
    let count = turns.as_slice().len() as u64;
    drop(turns);
    let calls = gate.calls.load(Ordering::SeqCst);
    if calls <= count && calls >= count / STRETCH {
        return Ok(());
    }
    Err(Fail::new(format_args!("{calls} calls between {count} turns")))
}

/// The turns of the book of a run, which ends with every thread.
fn turns_written<R: Calls>(
    rt: &R,
    shelf: &mut MemShelf,
    words: &[&str],
    gate: Hook<'_>,
) -> Result<Turns, Fail> {
    let status = ends(rt, shelf, words, gate)?;
    if status != Status::Done {
        return Err(Fail::new(format_args!("the run ended with {status:?}")));
    }
    let book = book_in(rt, shelf)?;
    let turns = read_book(rt.alloc(), book.as_slice());
    drop(book);
    Ok(turns?)
}

/// How a run ends.
fn ends<R: Calls>(
    rt: &R,
    shelf: &mut MemShelf,
    words: &[&str],
    gate: Hook<'_>,
) -> Result<Status, Fail> {
    let Told { status, text } = tell(rt, shelf, words, WIDE, gate)?;
    drop(text);
    Ok(status)
}

/// As many places for picks as the run has turns.
fn places<R: Calls>(rt: &R) -> Result<Vec<AtomicU64>, Fail> {
    let mut noted = Vec::new(rt.alloc());
    for _ in 0..TURNS {
        if noted.push(AtomicU64::new(0)).is_err() {
            return Err(Fail::new("memory"));
        }
    }
    Ok(noted)
}

#[test]
fn picks_make_the_run(rt: HostRuntime) -> Result<(), Fail> {
    let gate = Notes {
        noted: places(&rt)?,
        twice: AtomicU64::new(0),
    };
    let well = picks_are_turns(&rt, &gate);
    let Notes { noted, twice } = gate;
    drop(noted);
    well?;
    assert_eq!(rt; twice.load(Ordering::SeqCst), 0);
    Ok(())
}

/// The turns of the book that a run by one worker writes are the picks that its gate notes.
fn picks_are_turns<R: Calls>(rt: &R, gate: &Notes) -> Result<(), Fail> {
    let mut shelf = four(rt)?;
    let well = picks_are_written(rt, &mut shelf, gate);
    drop(shelf);
    well
}

/// The same over a store with the files of the run.
fn picks_are_written<R: Calls>(rt: &R, shelf: &mut MemShelf, gate: &Notes) -> Result<(), Fail> {
    let turns = turns_written(rt, shelf, &ONE_WORKER, Hook::Notes(gate))?;
    let well = are_picks(gate.noted.as_slice(), turns.as_slice());
    drop(turns);
    if well {
        return Ok(());
    }
    Err(Fail::new("the turns of the book are not the picks"))
}

/// Whether each turn is of the thread that was noted last, at its own number or before; the noted threads are counted from 1.
fn are_picks(noted: &[AtomicU64], turns: &[u32]) -> bool {
    if noted.len() != turns.len() {
        return false;
    }
    let mut last = 0;
    for (word, thread) in noted.iter().zip(turns.iter()) {
        let here = word.load(Ordering::SeqCst);
        if here != 0 {
            last = here;
        }
        if last != u64::from(*thread) + 1 {
            return false;
        }
    }
    true
}

/// A store with the program and the world of sixty-four threads that seed 1 makes.
fn sixty_four<R: Calls>(rt: &R) -> Result<MemShelf, Fail> {
    let (program, world) = lam_make::make(rt.alloc(), 1, 64)?;
    store(rt, &[("P", program.as_str()), ("W", world.as_str())], &[])
}

/// Sixteen workers, whose turns the gate makes depend on which of them is first: whatever run comes, the book shows it
/// again.
#[test]
fn many_workers_one_view(rt: HostRuntime) -> Result<(), Fail> {
    let mut shelf = sixty_four(&rt)?;
    let well = both_times(&rt, &mut shelf);
    drop(shelf);
    well
}

/// A run is shown again by its book, and then another one by its own.
fn both_times<R: Calls>(rt: &R, shelf: &mut MemShelf) -> Result<(), Fail> {
    runs_and_replays(rt, shelf)?;
    runs_and_replays(rt, shelf)
}

/// Runs what the store has: the book that the run writes shows what was printed.
fn runs_and_replays<R: Calls>(rt: &R, shelf: &mut MemShelf) -> Result<(), Fail> {
    let Told { status, text } = tell(rt, shelf, &SIXTEEN_WORKERS, WIDE, Hook::Mixes)?;
    let well = is_shown_again(rt, shelf, status, text.as_str());
    drop(text);
    well
}

/// A run used its turns up, and its book shows what was seen of it.
fn is_shown_again<R: Calls>(
    rt: &R,
    shelf: &mut MemShelf,
    status: Status,
    seen: &str,
) -> Result<(), Fail> {
    if status != Status::Budget {
        return Err(Fail::new(format_args!("{status:?}, and not the budget: {seen}")));
    }
    let again = Wanted {
        shows: "the book shows the run again",
        words: &["replay", "P", "W", "B", "{}/{}"],
        output: WIDE,
        status: Status::Done,
        printed: seen,
    };
    comes_to(rt, shelf, again, Hook::Mixes)
}
