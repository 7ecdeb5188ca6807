//! Two callers.

use crate::books::{holding, shown_by_thread};
use crate::shared::{Calls, Told, opened, shared_at_once};
use seat_host::let_go_closed;
use std::process::Abort;
use std::test::Fail;

/// Each round of a made thread's loop takes 13 turns and the rest of it 25, and the numbers of the first two threads that
/// seed 1 makes are 774 and 153.
const TURNS: [u64; 2] = [13 * 774 + 25, 13 * 153 + 25];

/// Two callers take the turns of two threads that share nothing, each of one, until it has ended: as many as ever, and the
/// book shows what both saw. The last call of each has a place that stays empty.
#[test]
fn two_threads_share_a_book(rt: HostRuntime) -> Result<(), Fail> {
    let (program, world) = lam_make::make(rt.alloc(), 1, 2)?;
    let opened = opened(rt.alloc(), program.as_str(), world.as_str())?;
    has_the_turns(&rt, shared_at_once(&rt, opened, 2)?)
}

fn has_the_turns<R: Calls + Abort>(rt: &R, told: Told) -> Result<(), Fail> {
    let Told {
        closed,
        calls,
        lines,
    } = told;
    let places = closed.places.as_slice();
    let held = [
        holding(places, Some(0)),
        holding(places, Some(1)),
        holding(places, None),
        places.len() as u64,
    ];
    let done = closed.run.is_done();
    let shown = shown_by_thread(rt.alloc(), &closed.run, "{t0,t1}/{}", 2);
    let_go_closed(closed);
    assert_eq!(rt; held, [TURNS[0], TURNS[1], 2, calls]);
    assert!(rt; done, "a thread has not ended");
    assert_eq!(rt; shown?.as_str(), lines?.as_str());
    Ok(())
}
