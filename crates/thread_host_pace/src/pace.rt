//! The pace of workers: threads that are away, workers that sleep, and turns of each thread.
//!
//! 1. A worker sleeps only where it finds nothing to take. Whoever leaves the lock, with a turn taken or a thread away,
//!    wakes a sleeper where a thread that is ready is not away, unless one was woken and has not looked since. So the
//!    sleepers are woken one by one as long as there is something to take, whatever the hook waits for in `between`.
//! 2. A thread whose last private turns were few takes the next ones in place, under the lock. Workers do not help each
//!    other there, so one of them leads: the others leave such threads to it, unless it is in `between`. If the hook waits for
//!    nobody ([`may_wait`](crate::may_wait)), the leader is back at once. Then the others leave those threads to it there too,
//!    nobody is woken for them, and the leader may take many turns before it releases the lock.
//! 3. A thread that goes away has a number of turns for it, twice what it took the last time; all that are away have no more
//!    than the budget leaves. Where they have all of it, a worker sleeps until one is back.
//! 4. A thread that is away is not overtaken without bound: the system may hold up the worker that has it, and the others, which
//!    may only poll for what that thread is to do, would use up the budget meanwhile. So past [`AHEAD`] times the longest
//!    stretch for each worker they sleep, though there is something to take. Who comes back then wakes all of them. A thread
//!    that is away comes back whatever the others do, so none of them sleeps for good.
//!
//! So a worker is at the lock, away with a thread, in the hook, asleep, woken, or has stopped. A sleeper waits until there is
//! something to take: a thread that is ready, not away, and not left to the leader, while those that are away leave a part of
//! the budget and none of them is overtaken too far. No contract says that it is woken then. The tests of `examples_ground`
//! (`pace`) look at all states of small runs for one in which it is not.

ghost use Rattle.std.specs.Prelude.{◌<◌, length};

use std::alloc::Global;
use turn_book::WORKER_LIMIT;
use want_of_memory::NoMemory;

/// How many threads a worker looks at for one to take. There are more of them than workers, so that it finds one that is not
/// away.
const MOST_LOOKS: usize = 64;

/// The private turns for which a copy of a thread pays.
const LEAST: u64 = 32;

/// The most private turns of a thread that is away for the first time, and of one that takes them in place.
const FIRST: u64 = 64;

/// How far a thread that is away may be overtaken: so many times the longest that one is away for, for each worker.
const AHEAD: u64 = 2;

/// How often a worker looks for something to take before it releases the lock, where the hook waits for nobody.
const LOOKS_AT_ONCE: u64 = 16;

/// A thread of which a worker takes private turns outside the lock, how many it may take, and how many turns the run had when it
/// went away.
#[derive(Clone, Copy, Debug, PartialEq, Eq, Hash)]
struct Away {
    thread: u32,
    most: u64,
    since: u64,
}

/// How many of those that sleep are to be woken.
#[derive(Clone, Copy, Debug, PartialEq, Eq, Hash)]
pub enum Wakes {
    Nobody,
    One,
    All,
}

/// Who is away, who sleeps, and how many private turns each thread took when it last took some.
#[derive(Clone, Debug, PartialEq, Eq, Hash, Drop)]
pub struct Pace {
    workers: u64,
    /// Whether the hook may wait for other workers between turns.
    may_wait: bool,
    /// The most private turns of a thread that is away.
    longest: u64,
    away: Vec<Away>,
    lasts: Vec<u64>,
    /// How many workers sleep and were not woken.
    asleep: u64,
    /// How many were woken and have not looked since.
    coming: u64,
    /// Whether a thread is back while one was overtaken too far, so that all that sleep are to be woken.
    wakes_all: bool,
    /// The worker that takes turns in place, plus one; 0 where there is none.
    leader: u64,
    /// The leader whose hook was called and had not come back, plus one, as far as it is known; else 0.
    beyond: u64,
    /// The thread whose private turns were taken last and came to an end, plus one; else 0.
    asking: u64,
}

impl Pace {
    /// Nobody is away or asleep, and of no thread it is known how many turns it takes. There are so many workers, at most so
    /// many threads, and a thread is away for at most so many turns. The hook may wait for other workers, or waits for nobody.
    ///
    /// # Errors
    ///
    /// `NoMemory` where memory is refused.
    pub fn new(
        alloc: Global,
        workers: u64,
        threads: usize,
        longest: u64,
        may_wait: bool,
    ) -> Result<Pace, NoMemory> {
        let away = Vec::with_capacity(alloc, WORKER_LIMIT as usize)?;
        let lasts = no_lasts(alloc, workers, threads)?;
        Ok(Pace {
            workers,
            may_wait,
            longest,
            away,
            lasts,
            asleep: 0,
            coming: 0,
            wakes_all: false,
            leader: 0,
            beyond: 0,
            asking: 0,
        })
    }

    /// Whether there is one worker.
    pub fn is_alone(&self) -> bool {
        self.workers <= 1
    }

    /// The place of the first thread from there on, and again from the first one, that this worker may take, where it is one
    /// of so many; else the place itself.
    pub fn place_from(&self, ready: &[u32], place: usize, worker: u64) -> usize
        requires { place < length ready.now }
        ensures { result < length ready.now }
    {
        for at in place..ready.len().min(place.saturating_add(MOST_LOOKS)) {
            if self.is_free(ready[at], worker) {
                return at;
            }
        }
        for at in 0..place.min(MOST_LOOKS) {
            if self.is_free(ready[at], worker) {
                return at;
            }
        }
        place
    }

    /// Whether a worker may take turns of a thread: it is not away, and it is not to be left to the leader.
    pub fn is_free(&self, thread: u32, worker: u64) -> bool {
        !self.is_away(thread) && !(self.is_led(worker) && self.is_short(thread))
    }

    fn is_away(&self, thread: u32) -> bool {
        self.away.iter().any(|away| away.thread == thread)
    }

    /// Whether another worker takes turns in place, and is on its way to the lock.
    fn is_led(&self, worker: u64) -> bool {
        self.leader != 0 && self.leader != worker.saturating_add(1) && self.leader != self.beyond
    }

    /// How often a worker may look for something to take before it releases the lock: once where its hook may wait, since that
    /// is called outside the lock.
    pub fn looks_at_once(&self) -> u64 {
        if self.may_wait { 1 } else { LOOKS_AT_ONCE }
    }

    /// Whether a thread took few private turns when it last took some.
    fn is_short(&self, thread: u32) -> bool {
        let last = self.last_of(thread);
        last > 0 && last < LEAST
    }

    /// How many private turns a thread took when it last took some; 0 where that is not known.
    fn last_of(&self, thread: u32) -> u64 {
        match self.lasts.get(thread as usize) {
            None => 0,
            Some(last) => *last,
        }
    }

    /// How many private turns are to be taken of a copy of a thread, with what the budget leaves; 0 where they are to be taken in
    /// place. One worker takes a copy only where the budget may end among them: if it does, they are let go, and the hook is
    /// asked anew for each of the last turns.
    pub fn turns_away(&self, thread: u32, spare: u64) -> u64 {
        if self.is_alone() {
            return if spare < FIRST { FIRST } else { 0 };
        }
        if self.is_short(thread) {
            return 0;
        }
        let twice = self.last_of(thread).saturating_mul(2);
        let most = twice.max(FIRST).min(self.longest).min(spare);
        if most < LEAST {
            return 0;
        }
        most
    }

    /// How many private turns may be taken in place, with what the budget leaves.
    pub fn turns_here(&self, spare: u64) -> u64 {
        spare.min(FIRST)
    }

    /// How many of the turns that the budget leaves are not for those that are away.
    pub fn spare(&self, left: u64) -> u64 {
        let mut spare = left;
        for away in self.away.iter() {
            spare = spare.saturating_sub(away.most);
        }
        spare
    }

    /// Room for one more that is away.
    ///
    /// # Errors
    ///
    /// `NoMemory` where memory is refused.
    pub fn make_room(&mut self) -> Result<(), NoMemory> {
        self.away.reserve(1)?;
        Ok(())
    }

    /// A worker goes away with a thread, for so many turns, when the run has so many. It leads no more.
    pub fn goes_away(&mut self, thread: u32, most: u64, worker: u64, since: u64) {
        self.asking = 0;
        let _ = self.away.push(Away {
            thread,
            most,
            since,
        });
        self.follows(worker);
    }

    /// A thread is back, with so many turns, when the run has so many.
    pub fn comes_back(&mut self, thread: u32, count: u64, turn: u64) {
        if self.is_overtaken(turn) {
            self.wakes_all = true;
        }
        self.away.retain(|away| away.thread != thread);
        self.took(thread, count);
    }

    /// Whether a thread has been away for so long that the others wait for it. The run has so many turns.
    pub fn is_overtaken(&self, turn: u64) -> bool {
        let ahead = self
            .longest
            .saturating_mul(AHEAD)
            .saturating_mul(self.workers);
        self.away
            .iter()
            .any(|away| turn.saturating_sub(away.since) > ahead)
    }

    /// A thread took so many private turns.
    fn took(&mut self, thread: u32, count: u64) {
        if let Some(last) = self.lasts.get_mut(thread as usize) {
            *last = count;
        }
    }

    /// A thread takes so many private turns in place, of so many that it was to take. Where it takes none, nothing new is known.
    pub fn went_along(&mut self, thread: u32, count: u64, most: u64) {
        if count == 0 {
            return;
        }
        self.took(thread, count);
        if count < most {
            self.asking = u64::from(thread).saturating_add(1);
        }
    }

    /// Whether it is known that the next turn of a thread is not private. Another turn is taken then, so it is known no more.
    pub fn asks(&mut self, thread: u32) -> bool {
        let asks = self.asking == u64::from(thread).saturating_add(1);
        self.asking = 0;
        asks
    }

    /// A worker takes turns in place. Of one worker it is not noted.
    pub fn leads(&mut self, worker: u64) {
        if !self.is_alone() {
            self.leader = worker.saturating_add(1);
        }
    }

    /// Whether a worker takes turns in place.
    fn is_leader(&self, worker: u64) -> bool {
        self.leader == worker.saturating_add(1)
    }

    /// Whether others are to know that a worker is in the hook: it takes turns in place, and may wait there.
    pub fn is_missed(&self, worker: u64) -> bool {
        self.may_wait && self.is_leader(worker)
    }

    fn follows(&mut self, worker: u64) {
        if self.is_leader(worker) {
            self.leader = 0;
        }
    }

    /// What is known of the leader's hook.
    pub fn hears(&mut self, beyond: u64) {
        self.beyond = beyond;
    }

    /// How many workers sleep and were not woken. Some of them may have woken up by themselves, and not have looked since.
    pub fn asleep(&self) -> u64 {
        self.asleep
    }

    /// How many workers were woken and have not looked since.
    pub fn coming(&self) -> u64 {
        self.coming
    }

    /// A worker sleeps.
    pub fn falls_asleep(&mut self, worker: u64) {
        self.follows(worker);
        self.asleep = self.asleep.saturating_add(1);
    }

    /// A worker that slept looks again. It may have been woken by nobody.
    pub fn wakes_up(&mut self) {
        if self.coming > 0 {
            self.coming = self.coming.saturating_sub(1);
        } else {
            self.asleep = self.asleep.saturating_sub(1);
        }
    }

    /// How many that sleep are to be woken now; they count as woken then. These threads are ready, and the run has so many
    /// turns.
    pub fn wakes(&mut self, ready: &[u32], turn: u64) -> Wakes {
        if self.wakes_all {
            self.wakes_all = false;
            self.coming = self.coming.saturating_add(self.asleep);
            self.asleep = 0;
            return Wakes::All;
        }
        if self.asleep == 0 || self.coming > 0 || !self.leaves_some(ready, turn) {
            return Wakes::Nobody;
        }
        self.asleep = self.asleep.saturating_sub(1);
        self.coming = 1;
        Wakes::One
    }

    /// Whether some of the ready threads are for a worker that sleeps, or none is ready, so that the run has ended. A leader
    /// whose hook waits for nobody comes for the short ones itself.
    fn leaves_some(&self, ready: &[u32], turn: u64) -> bool {
        if ready.is_empty() {
            return true;
        }
        if ready.len() <= self.away.len() {
            return false;
        }
        self.may_wait || self.leader == 0 || self.has_long(ready, turn)
    }

    /// Whether some of the threads are neither away nor short. Of many only some are looked at, others at another turn.
    fn has_long(&self, ready: &[u32], turn: u64) -> bool {
        let rows = ready.len() / MOST_LOOKS + 1;
        let row = (turn % rows as u64) as usize;
        ready
            .iter()
            .skip(row.saturating_mul(MOST_LOOKS))
            .take(MOST_LOOKS)
            .any(|thread| !self.is_short(*thread) && !self.is_away(*thread))
    }
}

/// A list of as many zeros as there are threads at most; an empty one where there is one worker, which needs none.
fn no_lasts(alloc: Global, workers: u64, threads: usize) -> Result<Vec<u64>, NoMemory> {
    let mut lasts = Vec::new(alloc);
    if workers > 1 {
        lasts.resize(threads, 0)?;
    }
    Ok(lasts)
}
