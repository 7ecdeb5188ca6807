//! Sixteen callers.

use crate::books::{holding, shown_by_thread};
use crate::callers::Stop;
use crate::shared::{Calls, Told, opened, shared_after_first};
use seat_host::{Closed, let_go_closed};
use std::process::Abort;
use std::test::Fail;
use turn_book::write_book;

/// The first thread starts sixteen others, which send their numbers through one pipe and take what comes. What each of them
/// gets hangs on who was quick.
const PROGRAM: &str = "fn work(me: int, p: pipe): int {
  let i: int = 0;
  while (i < 20) {
    send(p, text(me));
    say(receive(p));
    i = i + 1;
  }
  return 0;
}

fn main(p: pipe): int {
  let k: int = 1;
  while (k < 17) {
    spawn(caps{}) work(k, p);
    k = k + 1;
  }
  return 0;
}
";

const WORLD: &str =
    "{\"version\":1,\"tags\":[],\"tree\":[],\"pipes\":[{\"name\":\"p\",\"label\":\"{}/{}\"}],\"threads\":[{\"run\":\"main\",\"args\":[{\"pipe\":\"p\"}],\"caps\":{\"plus\":[],\"minus\":[]}}]}";

/// How many more books the callers make at most.
const TRIES: u32 = 20;

/// The book of sixteen callers shows what they saw, and has a place for each of their calls. More books are made until one
/// differs from the first, and each is tested so; that one differs is not tested.
#[test]
fn sixteen_share_a_book(rt: HostRuntime) -> Result<(), Fail> {
    let first = book_of_sixteen(&rt)?;
    for _ in 0..TRIES {
        if book_of_sixteen(&rt)?.as_slice() != first.as_slice() {
            return Ok(());
        }
    }
    Ok(())
}

/// The book of a run that sixteen callers share.
fn book_of_sixteen<R: Calls + Abort>(rt: &R) -> Result<Vec<u8>, Fail> {
    let opened = opened(rt.alloc(), PROGRAM, WORLD)?;
    let Told {
        closed,
        calls,
        lines,
    } = shared_after_first(rt, opened, 16)?;
    let book = book_that_shows(rt, &closed, calls, lines);
    let_go_closed(closed);
    book
}

/// The book of a run, which has a place for each call and shows these lines. The last call of each of the seventeen callers has
/// a place that stays empty.
fn book_that_shows<R: Calls + Abort>(
    rt: &R,
    closed: &Closed,
    calls: u64,
    lines: Result<String, Stop>,
) -> Result<Vec<u8>, Fail> {
    let lines = lines?;
    let places = closed.places.as_slice();
    assert_eq!(rt; places.len() as u64, calls);
    assert_eq!(rt; holding(places, None), 17);
    let shown = shown_by_thread(rt.alloc(), &closed.run, "{}/{}", 17)?;
    assert_eq!(rt; shown.as_str(), lines.as_str());
    Ok(write_book(rt.alloc(), closed.run.turns())?)
}
