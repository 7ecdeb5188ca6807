//! The content of the slot: a run, its turns' places, and each thread's last place.

ghost use Rattle.std.specs.Prelude.{◌≡◌, ℕ, ◌+◌, ◌<◌, ◌^◌, ◌++◌, [], ◌∷◌, length, true, Some, slice_set, IfOk, IfErr, OnOk};
ghost use Rattle.std.specs.Prelude.{drop};
ghost use Rattle.lam_machine_terms.specs.Turns.{ready};
ghost use Rattle.thread_host_run.specs.Runs.{IsWhole};
ghost use Rattle.seat_host.specs.Places.{shared, turns_in, spread};
ghost use Rattle.seat_host.specs.Books.{last_in, SaysSame, MayTry, Tries, Enters, first_at, passed};
ghost use Rattle.seat_host.specs.declared.answer.CloseFault.TheVariants.{NoMemory as OutOfMemory};
ghost use Rattle.seat_host.specs.Answers.{holding, Comes};
ghost use Rattle.turn_book.specs.Limits.{most_turns};

use crate::answer::{CloseFault, Closed, TurnAnswer};
use std::alloc::Global;
use std::marker::Model;
use thread_host_run::{Run, TURN_LIMIT, let_go_run};
use want_of_memory::NoMemory;

/// A run and its places. A place that holds nothing takes no memory.
#[derive(Drop)]
pub struct Book {
    run: Run,
    held: Vec<u64>,
    last: Vec<Option<u64>>,
    count: u64,
}

impl Model for Book {
    ghost use Rattle.seat_host.specs.Places.{Shared, shared, coded_shared, spread};
    ghost use Rattle.seat_host.specs.Books.{IsBook};

    ghost Value = { Shared };

    ghost coded = { coded_shared };

    ghost view = { λ b. shared b.run.code b.run.start (spread 0 b.count b.held.items b.run.turns) };

    ghost invariant = { λ b. IsBook b.run.turns b.held.items b.last.items b.count };
}

impl Book {
    /// A run with no turns, and no places.
    pub fn new(alloc: Global, run: Run) -> Book
        requires { run.turns ≡ [] }
        ensures { result ≡ shared run.code run.start [] }
    {
        Book {
            run,
            held: Vec::new(alloc),
            last: Vec::new(alloc),
            count: 0,
        }
    }

    /// One more place, with a turn of the thread if one may be taken.
    pub fn enter(&mut self, seen: u64, thread: u32) -> TurnAnswer
        requires { length self.old.places + 1 < 2 ^ 64 }
        ensures comes { Comes self.old seen thread result }
        ensures places { self.new ≡ shared self.old.code self.old.start (self.old.places ++ holding thread result ∷ []) }
    {
        let place = self.count;
        let answer = turn_at(
            &mut self.run,
            &mut self.held,
            &mut self.last,
            place,
            seen,
            thread,
        );
        self.count = place + 1;
        answer
    }

    /// The run, and what each place holds.
    ///
    /// # Errors
    ///
    /// `NoMemory` where memory is refused.
    pub fn into_parts(self, alloc: Global) -> Result<Closed, CloseFault>
        ensures ok { IfOk result (λ p. (p.run.code ≡ self.code) × (p.run.start ≡ self.start) × (p.places.items ≡ self.places) × (p.run.turns ≡ turns_in self.places)) }
        ensures err { IfErr result (λ e. e ≡ OutOfMemory) }
    {
        let Book {
            run,
            held,
            last,
            count,
        } = self;
        drop(last);
        parted(alloc, run, held, count)
    }
}

/// Lets a book go.
pub fn let_go_book(book: Book) {
    let Book {
        run,
        held,
        last,
        ..
    } = book;
    drop(last);
    drop(held);
    let_go_run(run);
}

/// A run, and what each place holds, where so many stand.
fn parted(alloc: Global, run: Run, held: Vec<u64>, count: u64) -> Result<Closed, CloseFault>
    ensures ok { IfOk result (λ p. (p.run ≡ run) × (p.places.items ≡ spread 0 count held.items run.turns)) }
    ensures err { IfErr result (λ e. e ≡ OutOfMemory) }
{
    match places_in(alloc, held.as_slice(), run.turns(), count) {
        Ok(places) => Ok(Closed { run, places }),
        Err(_) => {
            let_go_run(run);
            Err(CloseFault::NoMemory)
        }
    }
}

/// What each of so many places holds.
fn places_in(
    alloc: Global,
    held: &[u64],
    turns: &[u32],
    count: u64,
) -> Result<Vec<Option<u32>>, NoMemory>
    ensures { IfOk result (λ v. v.items ≡ spread 0 count held.now turns.now) }
{
    let mut places = Vec::new(alloc);
    let mut next = 0;
    for k in 0..count {
        let (place, after) = place_at(held, turns, next, k);
        places.push(place)?;
        next = after;
    }
    Ok(places)
}

/// What a place holds, where so many turns stand before it, and how many stand before the next.
fn place_at(held: &[u64], turns: &[u32], next: usize, place: u64) -> (Option<u32>, usize)
    ensures place { result.0 ≡ first_at place (drop next held.now) (drop next turns.now) }
    ensures next { result.1 ≡ passed next result.0 }
{
    match held.get(next) {
        None => (None, next),
        Some(at) => match turns.get(next) {
            None => (None, next),
            Some(thread) => {
                if *at == place {
                    (Some(*thread), next + 1)
                } else {
                    (None, next)
                }
            }
        },
    }
}

/// The last place of a thread.
fn last_place(table: &[Option<u64>], thread: u32) -> Option<u64>
    ensures { result ≡ last_in table.now thread }
{
    match table.get(thread as usize) {
        None => None,
        Some(place) => *place,
    }
}

/// The table reaches to the thread.
fn make_room(table: &mut Vec<Option<u64>>, thread: u32) -> Result<(), NoMemory>
    ensures ok { OnOk result (thread < length table.new.items) }
    ensures same { SaysSame table.old.items table.new.items }
{
    for _ in table.len()..thread as usize + 1 {
        table.push(None)?;
    }
    Ok(())
}

/// How many turns a run has.
fn turns_taken(run: &Run) -> u64
    ensures count { result ≡ length run.now.turns }
    ensures whole { IsWhole run.now }
{
    run.turns().len() as u64
}

/// A turn at a place, if one may be taken.
fn turn_at(
    run: &mut Run,
    held: &mut Vec<u64>,
    last: &mut Vec<Option<u64>>,
    place: u64,
    seen: u64,
    thread: u32,
) -> TurnAnswer
    ensures enters { Enters run.old held.old.items last.old.items place seen thread result run.new held.new.items last.new.items }
    ensures whole { IsWhole run.old }
{
    let taken = turns_taken(run);
    if let Some(found) = last_place(last.as_slice(), thread)
        && found >= seen
    {
        return TurnAnswer::Stale { place, seen: found };
    }
    if taken >= TURN_LIMIT {
        return TurnAnswer::Full { place };
    }
    if !run.ready(thread) {
        return TurnAnswer::NotReady { place };
    }
    take_turn(run, held, last, place, thread)
}

/// A turn of a thread that is ready: its memory first.
fn take_turn(
    run: &mut Run,
    held: &mut Vec<u64>,
    last: &mut Vec<Option<u64>>,
    place: u64,
    thread: u32,
) -> TurnAnswer
    requires ready { ready run.old.code run.old.world thread ≡ true }
    requires room { length run.old.turns < most_turns }
    ensures { Tries run.old held.old.items last.old.items place thread result run.new held.new.items last.new.items }
{
    if make_room(last, thread).is_err() || held.reserve(1).is_err() {
        return TurnAnswer::NoMemory { place };
    }
    match run.turn(thread) {
        Err(_) => TurnAnswer::NoMemory { place },
        Ok(event) => {
            held.push_reserved(place);
            last[thread as usize] = Some(place);
            TurnAnswer::Took { place, event }
        }
    }
}
