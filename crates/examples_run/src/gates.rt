//! Hooks of the scheduler.

use lam_io::{Gate, OpenGate, TableGate};
use std::sync::atomic::{AtomicU64, Ordering};
use std::thread::yield_now;

/// The hook of an example. All hooks are one type, so that the tool is compiled once for all examples.
#[derive(Clone, Copy)]
pub enum Hook<'a> {
    /// The one that the program has.
    Open,
    /// What a table lists, turn by turn.
    Table(&'a TableGate),
    /// The ready threads one after another.
    InTurn,
    /// A thread that depends on the worker.
    Mixes,
    /// The ready threads one after another, by two workers that meet.
    Meets(&'a Meets),
    /// A thread that depends on the worker, and is noted.
    Notes(&'a Notes),
    /// As the one that the program has for one worker, by workers that all meet again and again.
    Gathers(&'a Gathers),
}

impl<'a> Gate for Hook<'a> {
    fn pick(&self, worker: u64, turn: u64, ready: &[u32]) -> u64 {
        match self {
            Hook::Open | Hook::Gathers(_) => OpenGate.pick(worker, turn, ready),
            Hook::Table(table) => table.pick(worker, turn, ready),
            Hook::InTurn | Hook::Meets(_) => turn,
            Hook::Mixes => mixed(worker, turn),
            Hook::Notes(notes) => notes.pick(worker, turn, ready),
        }
    }

    fn between(&self, worker: u64, _thread: u32) {
        match self {
            Hook::Meets(meets) => meets.wait(worker),
            Hook::Gathers(gathers) => gathers.wait(),
            _ => {}
        }
    }
}

/// An answer that depends on the worker.
fn mixed(worker: u64, turn: u64) -> u64 {
    turn.wrapping_mul(7).wrapping_add(worker)
}

/// How often a worker looks for the other one.
const LOADS: u64 = 1_000_000_000;

/// In its first call between turns each of two workers waits until the other has called too. `first` and `second` are 1 where
/// that worker has called, `late` where one looked in vain, and `calls` counts the calls.
#[derive(Drop)]
pub struct Meets {
    pub first: AtomicU64,
    pub second: AtomicU64,
    pub late: AtomicU64,
    pub calls: AtomicU64,
}

impl Meets {
    fn wait(&self, worker: u64) {
        self.calls.fetch_add(1, Ordering::SeqCst);
        let (own, other) = if worker == 0 {
            (&self.first, &self.second)
        } else {
            (&self.second, &self.first)
        };
        own.store(1, Ordering::SeqCst);
        if self.late.load(Ordering::SeqCst) == 1 {
            return;
        }
        for _ in 0..LOADS {
            if other.load(Ordering::SeqCst) == 1 {
                return;
            }
        }
        self.late.store(1, Ordering::SeqCst);
    }
}

/// How often a worker yields to the others before it goes on alone.
const YIELDS: u64 = 2_000_000;

/// In each of its first calls between turns a worker waits until all of so many workers have called: so each call of a round is
/// of another worker, and a round ends only where each of them goes on. `late` is 1 where one waited in vain, and `calls`
/// counts the calls.
#[derive(Drop)]
pub struct Gathers {
    pub workers: u64,
    pub rounds: u64,
    pub calls: AtomicU64,
    pub late: AtomicU64,
}

impl Gathers {
    fn wait(&self) {
        let before = self.calls.fetch_add(1, Ordering::SeqCst);
        let Some(round) = before.checked_div(self.workers) else {
            return;
        };
        if round < self.rounds {
            self.wait_for(round.saturating_add(1).saturating_mul(self.workers));
        }
    }

    fn wait_for(&self, calls: u64) {
        for _ in 0..YIELDS {
            if self.calls.load(Ordering::SeqCst) >= calls || self.late.load(Ordering::SeqCst) == 1 {
                return;
            }
            yield_now();
        }
        self.late.store(1, Ordering::SeqCst);
    }
}

/// It notes for each turn's number the thread that it picks, plus one. `twice` is 1 where it was asked for one number
/// twice.
#[derive(Drop)]
pub struct Notes {
    pub noted: Vec<AtomicU64>,
    pub twice: AtomicU64,
}

impl Notes {
    fn pick(&self, worker: u64, turn: u64, ready: &[u32]) -> u64 {
        let answer = mixed(worker, turn);
        if ready.is_empty() || turn >= self.noted.len() as u64 {
            return answer;
        }
        let thread = ready[(answer % ready.len() as u64) as usize];
        if self.noted[turn as usize].swap(u64::from(thread) + 1, Ordering::SeqCst) != 0 {
            self.twice.store(1, Ordering::SeqCst);
        }
        answer
    }
}
