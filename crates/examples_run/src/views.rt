//! An observer's view of a run, the same by any workers.

use crate::call::{Calls, Given, Output, Told, WIDE, Wanted, comes_to, store, tell, wrote};
use crate::gates::Hook;
use crate::given::ONE_WORKER;
use lam_io::{MemShelf, TableGate};
use lam_main::Status;
use std::test::Fail;

/// Two people give a scheduler their capabilities, and it tells a third one the first hour at which both are free.
const CALENDAR: Given<'static> = Given {
    program: "fn give(t: tag, p: pipe): int { send_caps(p, caps{t-}); return 0; }
fn sched(a: tag, b: tag, p: pipe, q: pipe, out: pipe): int {
  while (receive_caps(p) == null) { }
  while (receive_caps(q) == null) { }
  region (label{a, b;}, caps{a-, b-}) [out] {
    let d: dir = open_dir(root(), \"cal\");
    let x: bytes = read(open_file(d, \"alice\"), 0, 24);
    let y: bytes = read(open_file(d, \"bob\"), 0, 24);
    let i: int = 0;
    while (byte(x, i) != 49 || byte(y, i) != 49) { i = i + 1; }
    region (label{;}, caps{}) [i, out] { send(out, text(i)); } catch (e) { }
  } catch (f) { }
  return 0;
}
fn show(out: pipe): int {
  let m: bytes = receive(out);
  while (m == null) { m = receive(out); }
  say(m);
  return 0;
}
",
    world: "{\"version\":1,\"tags\":[\"a\",\"b\"],
\"tree\":[{\"path\":\"cal\",\"label\":\"{}/{}\",\"dir\":true},{\"path\":\"cal/alice\",\"label\":\"{a}/{}\",\"text\":\"0110\"},{\"path\":\"cal/bob\",\"label\":\"{b}/{}\",\"text\":\"0011\"}],
\"pipes\":[{\"name\":\"p\",\"label\":\"{}/{}\"},{\"name\":\"q\",\"label\":\"{}/{}\"},{\"name\":\"out\",\"label\":\"{}/{}\"}],
\"threads\":[{\"run\":\"give\",\"args\":[{\"tag\":\"a\"},{\"pipe\":\"p\"}],\"caps\":{\"plus\":[\"a\"],\"minus\":[\"a\"]}},
{\"run\":\"give\",\"args\":[{\"tag\":\"b\"},{\"pipe\":\"q\"}],\"caps\":{\"plus\":[\"b\"],\"minus\":[\"b\"]}},
{\"run\":\"sched\",\"args\":[{\"tag\":\"a\"},{\"tag\":\"b\"},{\"pipe\":\"p\"},{\"pipe\":\"q\"},{\"pipe\":\"out\"}],\"caps\":{\"plus\":[\"a\",\"b\"],\"minus\":[]}},
{\"run\":\"show\",\"args\":[{\"pipe\":\"out\"}],\"caps\":{\"plus\":[],\"minus\":[]}}]}",
};

const HOUR_RELEASED: &str =
    "release t2 enter {}/{} caps +{}-{} depth 2 region 1 (2,pipe<{}/{}|{}/{}|2>) by +{}-{a,b}";

const HOUR_SAID: &str = "t3 {}/{} say \"2\" = done";

/// An output that takes what is seen of all turns of the budget.
const WIDEST: Output<'static> = Output {
    room: 1_048_576,
    most: 1_048_576,
    failing: &[],
};

/// Only the hour leaves the two calendars, by one release, and the book shows the same run again: whether the gate is the
/// program's own or always picks the first ready thread. Where it always picks the last, no hour is found.
#[test]
fn calendar(rt: HostRuntime) -> Result<(), Fail> {
    let first = TableGate {
        picks: [0u64].to_vec(rt.alloc())?,
    };
    let last = TableGate {
        picks: [u64::MAX].to_vec(rt.alloc())?,
    };
    let mut shelf = store(&rt, &CALENDAR.files(), &[])?;
    let well = by_each(&rt, &mut shelf, Hook::Table(&first), Hook::Table(&last));
    drop(shelf);
    well
}

/// Runs what a store has by the program's gate and by two others.
fn by_each<R: Calls>(
    rt: &R,
    shelf: &mut MemShelf,
    first: Hook<'_>,
    last: Hook<'_>,
) -> Result<(), Fail> {
    runs_and_replays(rt, shelf, Hook::Open)?;
    runs_and_replays(rt, shelf, first)?;
    last_alone_runs(rt, shelf, last)
}

/// The last thread, which waits for the hour, takes all turns: there is one worker, so nobody takes others while it is away.
fn last_alone_runs<R: Calls>(rt: &R, shelf: &mut MemShelf, gate: Hook<'_>) -> Result<(), Fail> {
    let Told { status, text } = tell(rt, shelf, ONE_WORKER, WIDEST, gate)?;
    drop(text);
    if status != Status::Budget {
        return Err(Fail::new(format_args!("{status:?}, and not the budget")));
    }
    wrote(
        rt,
        shelf,
        "the last thread takes all turns",
        "lam book 1\n3 100000\n",
    )
}

const WORDS: [&str; 5] = ["run", "P", "W", "{}/{}", "B"];

/// Runs what a store has, and replays the book that the run wrote.
fn runs_and_replays<R: Calls>(rt: &R, shelf: &mut MemShelf, gate: Hook<'_>) -> Result<(), Fail> {
    let Told { status, text } = tell(rt, shelf, &WORDS, WIDE, gate)?;
    let well = tells_the_hour(rt, shelf, status, text.as_str());
    drop(text);
    well
}

/// A run ended, and what was seen of it has one release, of the hour, and says it once. Its book shows the same.
fn tells_the_hour<R: Calls>(
    rt: &R,
    shelf: &mut MemShelf,
    status: Status,
    seen: &str,
) -> Result<(), Fail> {
    if status != Status::Done || !has_the_hour(seen) {
        return Err(Fail::new(format_args!("{status:?}, and not the hour alone: {seen}")));
    }
    let again = Wanted {
        shows: "the book shows the run again",
        words: &["replay", "P", "W", "B", "{}/{}"],
        output: WIDE,
        status: Status::Done,
        printed: seen,
    };
    comes_to(rt, shelf, again, Hook::Open)
}

/// Whether a text has one release, of the hour, and says it once.
fn has_the_hour(seen: &str) -> bool {
    beginning(seen, "release ") == 1
        && beginning(seen, HOUR_RELEASED) == 1
        && beginning(seen, HOUR_SAID) == 1
}

/// How many lines of a text begin so.
fn beginning(text: &str, front: &str) -> u64 {
    let mut count = 0u64;
    for line in text.split('\n') {
        if line.starts_with(front) {
            count = count.saturating_add(1);
        }
    }
    count
}
