//! Calls of one seat.

use crate::given::FAULTS;
use crate::scenes::one_seat_shows;
use std::test::Fail;

/// A seat takes every turn of a thread, each at the next place, and is told then that the thread has ended.
#[test]
fn seat_takes_all_turns(rt: HostRuntime) -> Result<(), Fail> {
    one_seat_shows(
        &rt,
        FAULTS,
        &[0; 18],
        "took 0\ntook 1\ntook 2\ntook 3\ntook 4\ntook 5 t0 {}/{} enter {}/{} caps +{}-{} region 0 (1) = entered\ntook 6\ntook 7\ntook 8\ntook 9 t0 {}/{} caught Zero = done\ntook 10\ntook 11\ntook 12\ntook 13\ntook 14 t0 {}/{} suppressed Zero = done\ntook 15\ntook 16 t0 {}/{} end value 1 = done\nnot ready 17\nseen 18\nplaces of 0 17\nempty places 1\nlam book 1\n0 17\n",
    )
}

/// A thread that is not there is not ready. Such a call has a place, which stays empty.
#[test]
fn no_such_thread_is_ready(rt: HostRuntime) -> Result<(), Fail> {
    one_seat_shows(
        &rt,
        FAULTS,
        &[1, u32::MAX, 0, 1],
        "not ready 0\nnot ready 1\ntook 2\nnot ready 3\nseen 4\nempty places 2\nplaces of 0 1\nempty places 1\nlam book 1\n0 1\n",
    )
}

/// A run without a call has no places.
#[test]
fn no_call_no_place(rt: HostRuntime) -> Result<(), Fail> {
    one_seat_shows(&rt, FAULTS, &[], "seen 0\nempty places 0\nlam book 1\n")
}
