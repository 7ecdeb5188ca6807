//! No wake-up of a worker is lost: all interleavings of two and of three workers over small runs.
//!
//! A state has the [`Pace`], where each worker is, and what each thread does next. A step is one worker's: the calls that
//! `thread_host` makes while it has the lock, in their order, or what it does without the lock. Whatever the gate, the threads
//! and memory may answer is a step of its own, and a sleeper may wake up by itself. A row of private turns, or a served turn,
//! is a *take*; a run ends where no take is left or no thread is ready. The hook may wait for other workers, or waits for
//! nobody. Then a worker that took in place may keep the lock and look again, any number of times, and one that is in the hook
//! counts as one at the lock. In each state that can be reached:
//!
//! 1. Where a worker sleeps, one neither sleeps nor has stopped. So they are never left asleep, all of them.
//! 2. Where a worker sleeps and something can be taken, one is at the lock, was woken, or is about to wake another. So nobody
//!    waits for a worker that is away or in the hook, however long it stays there.
//! 3. `asleep` and `coming` together are the workers that sleep or have not looked since. Where one is coming, one was woken
//!    or is about to be.
//! 4. Each step lowers `rank`, except that of a sleeper which wakes up by itself. So each way on ends, and by 1 it ends with
//!    all workers stopped.

ghost use Rattle.std.specs.Prelude.{◌<◌};

use std::alloc::Global;
use std::collections::HashSet;
use std::test::Fail;
use thread_host_pace::{Pace, Wakes};

/// The most states of a search.
const MOST_STATES: u64 = 10_000_000;

/// The turns of a take, as far as the budget goes: the longest that a thread is away for.
const TAKE: u64 = 64;

/// The turns of a take, as far as a thread is overtaken: by two takes it is, too far.
const OVERTAKES: u64 = 200;

/// Where a worker is.
#[derive(Clone, Copy, Debug, PartialEq, Eq, Hash)]
enum At {
    /// At the lock, to look for something to take.
    Lock,
    /// Away with a thread, for at most so many turns.
    Away(u32, u64),
    Hook,
    /// Has the lock still, to look again.
    Again,
    Asleep,
    /// At the lock, since it was woken.
    Woken,
    /// At the lock, since memory was refused to it.
    Refused,
    /// About to wake all that sleep, and to stop.
    Ending,
    Stopped,
}

/// What a thread does next.
#[derive(Clone, Copy, Debug, PartialEq, Eq, Hash)]
enum Next {
    Private,
    Served,
    Waits,
}

#[derive(Clone, Debug, PartialEq, Eq, Hash, Drop)]
struct State {
    pace: Pace,
    /// Where each worker is, and how many it is to wake first.
    workers: [(At, Wakes); 3],
    threads: [Next; 3],
    /// The leader whose hook was called, plus one, or 0.
    beyond: u64,
    /// Whether the hook may wait for other workers.
    may_wait: bool,
    /// How many takes are left.
    left: u64,
    /// Whether memory may be refused, once, and whether it was.
    may_fail: bool,
    lost: bool,
}

/// One of the ways on: a number that is taken apart, and how many ways there are.
#[derive(Drop)]
struct Choice {
    rest: u64,
    ways: u64,
}

impl Choice {
    fn below(&mut self, count: u64) -> u64
        ensures { 0 < count → result < count }
    {
        if count < 2 {
            return 0;
        }
        let picked = self.rest % count;
        self.rest /= count;
        self.ways = self.ways.saturating_mul(count);
        picked
    }

    fn yes(&mut self) -> bool {
        self.below(2) == 1
    }
}

impl State {
    fn ready(&self, alloc: Global) -> Result<Vec<u32>, Fail> {
        let mut ready = Vec::new(alloc);
        for thread in 0..3 {
            if self.next_of(thread) != Next::Waits {
                ready.push(thread)?;
            }
        }
        Ok(ready)
    }

    fn next_of(&self, thread: u32) -> Next {
        match self.threads.get(thread as usize) {
            None => Next::Waits,
            Some(next) => *next,
        }
    }

    fn turns_to(&mut self, thread: u32, next: Next) {
        if let Some(place) = self.threads.get_mut(thread as usize) {
            *place = next;
        }
    }

    fn spare(&self) -> u64 {
        self.pace.spare(self.left.saturating_mul(TAKE))
    }

    fn turn(&self) -> u64 {
        OVERTAKES.saturating_mul(TAKE.saturating_sub(self.left))
    }

    /// One step of a worker.
    fn step(&mut self, alloc: Global, worker: u64, choice: &mut Choice) -> Result<(), Fail> {
        let Some((was, wakes)) = self.workers.get(worker as usize).copied() else {
            return Ok(());
        };
        let at = if wakes == Wakes::Nobody {
            self.moved(alloc, worker, was, choice)?
        } else {
            self.wake(wakes, choice);
            was
        };
        let had_lock = wakes == Wakes::Nobody
            && matches!(was, At::Lock | At::Again | At::Away(_, _));
        let owes = if had_lock && !matches!(at, At::Asleep | At::Refused | At::Again) {
            let ready = self.ready(alloc)?;
            let turn = self.turn();
            self.pace.wakes(ready.as_slice(), turn)
        } else {
            Wakes::Nobody
        };
        if let Some(place) = self.workers.get_mut(worker as usize) {
            *place = (at, owes);
        }
        Ok(())
    }

    /// Where a worker goes that has nobody to wake.
    fn moved(
        &mut self,
        alloc: Global,
        worker: u64,
        at: At,
        choice: &mut Choice,
    ) -> Result<At, Fail> {
        match at {
            At::Lock | At::Again => return self.opened(alloc, worker, choice),
            At::Away(thread, most) => return self.ended(alloc, worker, thread, most, choice),
            At::Hook => {
                if self.beyond == worker.saturating_add(1) {
                    self.beyond = 0;
                }
                Ok(At::Lock)
            }
            At::Asleep => Ok(At::Woken),
            At::Woken => {
                self.pace.wakes_up();
                Ok(At::Lock)
            }
            At::Refused => {
                self.lost = true;
                Ok(At::Ending)
            }
            At::Ending | At::Stopped => {
                self.wake(Wakes::All, choice);
                Ok(At::Stopped)
            }
        }
    }

    /// The thread that the gate picks, or the next one that the worker may take; none where the run has ended.
    fn picked(&self, alloc: Global, worker: u64, choice: &mut Choice) -> Result<Option<u32>, Fail> {
        let ready = self.ready(alloc)?;
        let threads = ready.as_slice();
        let place = choice.below(threads.len() as u64) as usize;
        if self.left == 0 || place >= threads.len() {
            return Ok(None);
        }
        let at = self.pace.place_from(threads, place, worker);
        Ok(Some(threads[at]))
    }

    /// Whether memory is refused to a worker now.
    fn fails(&mut self, choice: &mut Choice) -> bool {
        let fails = self.may_fail && choice.yes();
        self.may_fail = self.may_fail && !fails;
        fails
    }

    /// A worker at the lock looks for something to take. Where it took in place, it may keep the lock to look again.
    fn opened(&mut self, alloc: Global, worker: u64, choice: &mut Choice) -> Result<At, Fail> {
        self.pace.hears(self.beyond);
        let at = self.looked(alloc, worker, choice)?;
        if at == At::Hook && self.pace.looks_at_once() > 1 && choice.yes() {
            return Ok(At::Again);
        }
        if at != At::Refused && self.pace.is_missed(worker) {
            self.beyond = worker.saturating_add(1);
        }
        Ok(at)
    }

    /// A worker that has the lock looks for something to take.
    fn looked(&mut self, alloc: Global, worker: u64, choice: &mut Choice) -> Result<At, Fail> {
        if self.lost || self.fails(choice) {
            return Ok(At::Refused);
        }
        match self.picked(alloc, worker, choice)? {
            None => Ok(At::Ending),
            Some(thread) => self.begun(worker, thread, choice),
        }
    }

    /// A worker goes away with a thread, takes of it in place, or finds that nothing is to be taken now.
    fn begun(&mut self, worker: u64, thread: u32, choice: &mut Choice) -> Result<At, Fail> {
        let spare = self.spare();
        let turn = self.turn();
        if spare == 0 || !self.pace.is_free(thread, worker) || self.pace.is_overtaken(turn) {
            self.pace.falls_asleep(worker);
            return Ok(At::Asleep);
        }
        let is_private = self.next_of(thread) == Next::Private;
        let most = self.pace.turns_away(thread, spare);
        if most > 0 && is_private && choice.yes() {
            self.pace.make_room()?;
            self.pace.goes_away(thread, most, worker, turn);
            return Ok(At::Away(thread, most));
        }
        self.pace.leads(worker);
        let mut is_all = true;
        if !self.pace.asks(thread) && is_private {
            let most = self.pace.turns_here(spare);
            is_all = choice.yes();
            self.pace
                .went_along(thread, if is_all { most } else { 1 }, most);
        }
        self.take(thread, is_all, choice);
        Ok(At::Hook)
    }

    /// A worker is back with a thread. A stretch that has no turn, or does not fit, is let go for one turn.
    fn ended(
        &mut self,
        alloc: Global,
        worker: u64,
        thread: u32,
        most: u64,
        choice: &mut Choice,
    ) -> Result<At, Fail> {
        if self.fails(choice) {
            return Ok(At::Refused);
        }
        let count = match choice.below(3) {
            0 => most,
            short => short.saturating_sub(1),
        };
        let turn = self.turn();
        self.pace.comes_back(thread, count, turn);
        if self.lost {
            return Ok(At::Refused);
        }
        if count > 0 && self.left > 0 && self.next_of(thread) == Next::Private {
            self.take(thread, count == most, choice);
        } else {
            match self.picked(alloc, worker, choice)? {
                None => return Ok(At::Ending),
                Some(other) => self.take(other, true, choice),
            }
        }
        Ok(At::Hook)
    }

    /// A take of a thread: all turns that it was to have, or fewer. A served turn may let another one go on, or make it wait.
    fn take(&mut self, thread: u32, is_all: bool, choice: &mut Choice) {
        self.left = self.left.saturating_sub(1);
        if self.next_of(thread) == Next::Private {
            if !is_all || choice.yes() {
                self.turns_to(thread, Next::Served);
            }
            return;
        }
        let next = match choice.below(3) {
            0 => Next::Private,
            1 => Next::Served,
            _ => Next::Waits,
        };
        self.turns_to(thread, next);
        let other = choice.below(3) as u32;
        if other != thread {
            match self.next_of(other) {
                Next::Private => {}
                Next::Served => self.turns_to(other, Next::Waits),
                Next::Waits => self.turns_to(other, Next::Served),
            }
        }
    }

    fn count(&self, at: At) -> u64 {
        self.workers.iter().filter(|worker| worker.0 == at).count() as u64
    }

    /// All that sleep are woken, or one, where one does.
    fn wake(&mut self, wakes: Wakes, choice: &mut Choice) {
        let mut before = 0u64;
        let one = choice.below(self.count(At::Asleep));
        for worker in self.workers.iter_mut() {
            if worker.0 == At::Asleep {
                if wakes == Wakes::All || before == one {
                    worker.0 = At::Woken;
                }
                before = before.saturating_add(1);
            }
        }
    }

    /// What each step but a sleeper's own lowers.
    fn rank(&self) -> u64 {
        let mut rank = self.left.saturating_mul(200);
        for (at, wakes) in &self.workers {
            let place = match at {
                At::Stopped => 0,
                At::Ending => 20,
                At::Refused => 30,
                At::Away(_, _) => 50,
                At::Asleep => 100,
                At::Lock | At::Again => 101,
                At::Woken | At::Hook => 102,
            };
            let first = if *wakes == Wakes::Nobody { 0 } else { 9 };
            rank = rank.saturating_add(place).saturating_add(first);
        }
        rank
    }

    /// Which of the sentences above does not hold, if one does not.
    fn fault(&self, alloc: Global) -> Result<u64, Fail> {
        let asleep = self.count(At::Asleep);
        let woken = self.count(At::Woken);
        let is_woken = woken > 0 || self.workers.iter().any(|worker| worker.1 != Wakes::Nobody);
        let is_looking = |worker: &(At, Wakes)| match worker.0 {
            At::Lock | At::Again | At::Refused | At::Ending => true,
            At::Hook => !self.may_wait,
            _ => false,
        };
        if asleep > 0 && asleep.saturating_add(self.count(At::Stopped)) == 3 {
            return Ok(1);
        }
        if asleep > 0
            && !is_woken
            && !self.workers.iter().any(is_looking)
            && self.has_more(alloc)?
        {
            return Ok(2);
        }
        let waiting = self.pace.asleep().saturating_add(self.pace.coming());
        if waiting != asleep.saturating_add(woken) || (self.pace.coming() > 0 && !is_woken) {
            return Ok(3);
        }
        Ok(0)
    }

    /// Whether something can be taken: a thread that is ready and not away, where no worker has to wait for one that is.
    fn has_more(&self, alloc: Global) -> Result<bool, Fail> {
        if self.lost || self.spare() == 0 || self.pace.is_overtaken(self.turn()) {
            return Ok(false);
        }
        let ready = self.ready(alloc)?;
        Ok(ready.iter().any(|thread| !self.is_away(*thread)))
    }

    fn is_away(&self, thread: u32) -> bool {
        let is_with = |worker: &(At, Wakes)| matches!(worker.0, At::Away(own, _) if own == thread);
        self.workers.iter().any(is_with)
    }
}

/// The states that were reached, and those from which no step was tried yet.
#[derive(Drop)]
struct Reached {
    all: HashSet<State>,
    open: Vec<State>,
}

impl Reached {
    fn put(&mut self, state: State) -> Result<(), Fail> {
        let copy = state.clone()?;
        match self.all.insert(copy) {
            Err(_) => return Err(Fail::new("no memory")),
            Ok(is_new) => {
                if is_new && self.open.push(state).is_err() {
                    return Err(Fail::new("no memory"));
                }
            }
        }
        Ok(())
    }

    /// The states after a step of a worker.
    fn go(&mut self, alloc: Global, state: &State, worker: u64, at: At) -> Result<(), Fail> {
        let mut ways = 1u64;
        for way in 0..MOST_STATES {
            if way >= ways || at == At::Stopped {
                break;
            }
            let mut choice = Choice { rest: way, ways: 1 };
            let mut next = state.clone()?;
            next.step(alloc, worker, &mut choice)?;
            ways = ways.max(choice.ways);
            if choice.rest == 0 {
                if at != At::Asleep && next.rank() >= state.rank() {
                    return Err(Fail::new(format_args!("4 of {state:?} and {next:?}")));
                }
                self.put(next)?;
            }
        }
        Ok(())
    }
}

/// Tries all states that can be reached where so many workers begin, with so many threads that compute. Others wait.
fn all_hold(
    alloc: Global,
    workers: usize,
    threads: usize,
    left: u64,
    may_fail: bool,
    may_wait: bool,
) -> Result<(), Fail> {
    let mut first = State {
        pace: Pace::new(alloc, workers as u64, 3, TAKE, may_wait)?,
        workers: [(At::Stopped, Wakes::Nobody); 3],
        threads: [Next::Waits; 3],
        beyond: 0,
        may_wait,
        left,
        may_fail,
        lost: false,
    };
    for worker in first.workers.iter_mut().take(workers) {
        worker.0 = At::Lock;
    }
    for thread in first.threads.iter_mut().take(threads) {
        *thread = Next::Private;
    }
    let mut reached = Reached {
        all: HashSet::new(alloc),
        open: Vec::new(alloc),
    };
    reached.put(first)?;
    for _ in 0..MOST_STATES {
        let Some(state) = reached.open.pop() else {
            return Ok(());
        };
        let fault = state.fault(alloc)?;
        if fault > 0 {
            return Err(Fail::new(format_args!("{fault} of {state:?}")));
        }
        let is_held = state.count(At::Again) > 0;
        for (worker, (at, _)) in (0u64..).zip(state.workers.iter()) {
            if !is_held || *at == At::Again {
                reached.go(alloc, &state, worker, *at)?;
            }
        }
    }
    Err(Fail::new("too many states"))
}

#[test]
fn two_workers_are_woken(rt: HostRuntime) -> Result<(), Fail> {
    all_hold(rt.alloc(), 2, 1, 5, false, true)?;
    all_hold(rt.alloc(), 2, 2, 4, false, true)?;
    all_hold(rt.alloc(), 2, 3, 3, true, true)
}

#[test]
fn three_workers_are_woken(rt: HostRuntime) -> Result<(), Fail> {
    all_hold(rt.alloc(), 3, 1, 3, true, true)?;
    all_hold(rt.alloc(), 3, 2, 3, false, true)
}

#[test]
fn two_workers_are_woken_where_no_hook_waits(rt: HostRuntime) -> Result<(), Fail> {
    all_hold(rt.alloc(), 2, 1, 5, false, false)?;
    all_hold(rt.alloc(), 2, 2, 4, false, false)?;
    all_hold(rt.alloc(), 2, 3, 3, true, false)
}

#[test]
fn three_workers_are_woken_where_no_hook_waits(rt: HostRuntime) -> Result<(), Fail> {
    all_hold(rt.alloc(), 3, 1, 3, true, false)?;
    all_hold(rt.alloc(), 3, 2, 3, false, false)
}
