//! The table that callers share: tickets, the slot with the book, and its holder.

ghost use Rattle.std.specs.Prelude.{◌≡◌, ℕ, ◌+◌, ◌<◌, ◌≤◌, ◌++◌, [], ◌∷◌, length, true, false, IfOk, IfErr};
ghost use mathlib.Core.List.{IsPrefix};
ghost use Rattle.lam_bytecode.specs.Codes.{IsCode};
ghost use Rattle.guarded_code_runs.specs.Worlds.{IsSound};
ghost use Rattle.thread_host_run.specs.Runs.{opened};
ghost use Rattle.seat_host.specs.Places.{shared, turns_in};
ghost use Rattle.seat_host.specs.Answers.{holding, Comes};
ghost use Rattle.seat_host.specs.Law.{newcomer, fresh, learned, joined};
ghost use Rattle.seat_host.specs.Seats.{IsIdle, IsWaiting, Drew, Came, sitting, TookTurn, Closes, StaysOpen, ClosesBy};

use crate::answer::{CloseFault, Closed, TurnAnswer};
use crate::book::{Book, let_go_book};
use crate::law::{Draw, Finish, Fork, Given, Glue, Law, Learn, Look, Serve, View};
use atomic_table::{Refused, Seat, Table};
use guarded_code::Verified;
use lam_bytecode::Code;
use lam_machine_equal::copy_code;
use lam_machine_world::{World, let_go_code, let_go_world};
use std::alloc::Global;
use std::hint::spin_loop;
use std::sync::Wait;
use std::sync::atomic::{AtomicU64, Ordering};
use std::thread;
use thread_host_run::{Run, let_go_verified};
use want_of_memory::NoMemory;

/// How often a caller that waits looks at once for its ticket to be served.
const LOOKS: u64 = 400;

/// How often it has looked once it has also let others run in between. From then on it sleeps until a turn has ended.
const LOOKS_AND_YIELDS: u64 = 410;

/// The ticket word, the serving word, and the slot with the book. Beside them stands how many callers sleep until the serving
/// word changes; no clause speaks of that.
#[derive(Drop)]
pub(crate) struct SeatTable {
    pub(crate) table: Table<Book, View, Given, Law, Global>,
    pub(crate) asleep: AtomicU64,
    pub(crate) ghost counts: { (table.shared.table_id.words ≡ 2) × (table.shared.table_id.slots ≡ 1) },
}

/// What a caller steps with.
pub(crate) type Pass = Seat<Book, View>;

impl SeatTable {
    /// A table with a run of no turns, and a pass that has seen nothing.
    pub fn new(alloc: Global, code: Verified, start: World) -> Result<(SeatTable, Pass), NoMemory>
        requires sound { IsSound code start }
        ensures given { IfOk result (λ r. (r.0.table.shared.key.code ≡ code) × (r.0.table.shared.key.start ≡ start)) }
        ensures seat { IfOk result (λ r. (r.1.table_id ≡ r.0.table.shared.table_id) × (r.1.me ≡ (newcomer r.0.table.shared.key, []))) }
    {
        let (given, run) = begun(alloc, code, start)?;
        let made = laid(alloc, &given, run);
        let_go_given(given);
        made
    }

    /// A pass that has seen as much, and has no calls.
    pub fn split(&self, pass: &mut Pass) -> Pass
        requires own { pass.old.table_id ≡ self.now.table.shared.table_id }
        ensures same { (pass.new.table_id ≡ pass.old.table_id) × (pass.new.me ≡ pass.old.me) }
        ensures other { (result.table_id ≡ pass.old.table_id) × (result.me ≡ (fresh pass.old.me.0, [])) }
    {
        self.table.shared.split_seat::<Fork>(pass)
    }

    /// One pass of two: it has seen what either had, and has the calls of both.
    pub fn join(&self, pass: &mut Pass, other: Pass)
        requires own { pass.old.table_id ≡ self.now.table.shared.table_id }
        requires idle { IsIdle pass.old.me }
        requires other { (other.table_id ≡ self.now.table.shared.table_id) × IsIdle other.me }
        ensures own { pass.new.table_id ≡ pass.old.table_id }
        ensures joined { pass.new.me ≡ (learned (joined pass.old.me.0 other.me.0), []) }
        ensures fronts { IsPrefix pass.old.me.0.seen pass.new.me.0.seen × IsPrefix other.me.0.seen pass.new.me.0.seen }
    {
        self.table.shared.join_seat::<Glue>(pass, other);
        let _ = self.table.shared.load::<Learn>(pass, 0);
    }

    /// The run and its places, if no ticket is open.
    pub fn close(self, alloc: Global, pass: Pass) -> Result<Closed, CloseFault>
        requires own { pass.table_id ≡ self.table.shared.table_id }
        requires given { (pass.me.0.code ≡ self.table.shared.key.code) × (pass.me.0.start ≡ self.table.shared.key.start) }
        ensures ok { IfOk result (λ p. Closes (sitting pass.table_id pass.me.0) p.run p.places.items) }
        ensures err { IfErr result (StaysOpen (sitting pass.table_id pass.me.0)) }
    {
        let SeatTable { table, .. } = self;
        let mut closed = table.close_with(pass);
        let drawn = closed.word(0);
        let served = closed.word(1);
        let book = closed.take(0);
        closed.free();
        closed_by(alloc, book, served, drawn)
    }

    /// A ticket, or the ticket word where it has reached its last number.
    fn draw<W: Wait>(&self, rt: &W, pass: &mut Pass) -> Result<u64, u64>
        requires own { pass.old.table_id ≡ self.now.table.shared.table_id }
        requires idle { IsIdle pass.old.me }
        ensures own { pass.new.table_id ≡ pass.old.table_id }
        ensures drew { Drew pass.old.me result pass.new.me }
    {
        for _ in rt.forever() {
            let next = self.table.shared.load::<Look>(pass, 0);
            if next == u64::MAX {
                return Err(next);
            }
            let found = self
                .table
                .shared
                .compare_exchange::<Draw>(pass, 0, next, next + 1);
            if found == next {
                return Ok(next);
            }
        }
        unreachable!()
    }

    /// Waits until the ticket is served, and takes the slot.
    fn wait_turn<W: Wait>(&self, rt: &W, pass: &mut Pass, ticket: u64)
        requires own { pass.old.table_id ≡ self.now.table.shared.table_id }
        requires waits { IsWaiting pass.old.me ticket }
        ensures own { pass.new.table_id ≡ pass.old.table_id }
        ensures came { Came pass.old.me pass.new.me }
    {
        let mut looks = 0u64;
        for _ in rt.forever() {
            let serving = self.table.shared.load::<Serve>(pass, 1);
            if serving == ticket {
                return;
            }
            self.rest(rt, looks, serving);
            looks = looks.saturating_add(1);
        }
        unreachable!()
    }

    /// Between two looks at the serving word: at first nothing, then others run, and then the caller sleeps until the word is
    /// another one.
    fn rest<W: Wait>(&self, rt: &W, looks: u64, serving: u64) {
        if looks < LOOKS {
            spin_loop();
            return;
        }
        if looks < LOOKS_AND_YIELDS {
            thread::yield_now();
            return;
        }
        self.asleep.fetch_add(1, Ordering::SeqCst);
        self.table
            .shared
            .park(rt, 1, (serving & 0xffff_ffff) as u32);
        self.asleep.fetch_sub(1, Ordering::SeqCst);
    }

    /// Wakes those that sleep. A caller counts itself before it sleeps, and sleeps only where the word is still what it saw; so
    /// after the word has changed nobody that it concerns is left asleep.
    fn wake(&self) {
        if self.asleep.load(Ordering::SeqCst) != 0 {
            self.table.shared.wake_all(1);
        }
    }

    /// One more place in the book that is out with this pass.
    fn act(&self, pass: &mut Pass, seen: u64, thread: u32) -> TurnAnswer
        requires own { pass.old.table_id ≡ self.now.table.shared.table_id }
        requires out { pass.old.me.1 ≡ (0, shared pass.old.me.0.code pass.old.me.0.start pass.old.me.0.seen) ∷ [] }
        requires room { length pass.old.me.0.seen < 18446744073709551615 }
        ensures own { pass.new.table_id ≡ pass.old.table_id }
        ensures comes { Comes (shared pass.old.me.0.code pass.old.me.0.start pass.old.me.0.seen) seen thread result }
        ensures book { pass.new.me ≡ (pass.old.me.0, (0, shared pass.old.me.0.code pass.old.me.0.start (pass.old.me.0.seen ++ holding thread result ∷ [])) ∷ []) }
    {
        let book = pass.slot_mut(&self.table.shared, 0);
        book.enter(seen, thread)
    }

    /// Draws a ticket, waits until it is served, and takes a turn of the thread if one can be taken.
    pub fn turn<W: Wait>(&self, rt: &W, pass: &mut Pass, seen: u64, thread: u32) -> TurnAnswer
        requires own { pass.old.table_id ≡ self.now.table.shared.table_id }
        requires idle { IsIdle pass.old.me }
        requires seen { seen ≡ length pass.old.me.0.seen }
        ensures own { pass.new.table_id ≡ pass.old.table_id }
        ensures idle { IsIdle pass.new.me }
        ensures given { (pass.new.me.0.code ≡ pass.old.me.0.code) × (pass.new.me.0.start ≡ pass.old.me.0.start) }
        ensures turn { TookTurn (sitting pass.old.table_id pass.old.me.0) thread result (sitting pass.new.table_id pass.new.me.0) }
    {
        let ticket = match self.draw(rt, pass) {
            Ok(ticket) => ticket,
            Err(drawn) => return TurnAnswer::Worn { drawn },
        };
        self.wait_turn(rt, pass, ticket);
        let answer = self.act(pass, seen, thread);
        self.table.shared.store::<Finish>(pass, 1, ticket + 1);
        self.wake();
        answer
    }
}

/// The run and its places, where as many places are finished as tickets were drawn.
fn closed_by(alloc: Global, book: Book, served: u64, drawn: u64) -> Result<Closed, CloseFault>
    ensures words { ClosesBy served drawn result }
    ensures parts { IfOk result (λ p. (p.run.code ≡ book.code) × (p.run.start ≡ book.start) × (p.places.items ≡ book.places) × (p.run.turns ≡ turns_in book.places)) }
{
    if served != drawn {
        let_go_book(book);
        return Err(CloseFault::Open { served, drawn });
    }
    book.into_parts(alloc)
}

/// What the table is told, and the run with no turns.
fn begun(alloc: Global, code: Verified, start: World) -> Result<(Given, Run), NoMemory>
    requires sound { IsSound code start }
    ensures given { IfOk result (λ r. (r.0.code ≡ code) × (r.0.start ≡ start)) }
    ensures run { IfOk result (λ r. r.1 ≡ opened code start) }
{
    match told(alloc, code.code(), &start) {
        Ok(given) => match Run::new(alloc, code, start) {
            Ok(run) => Ok((given, run)),
            Err(error) => {
                let_go_given(given);
                Err(error)
            }
        },
        Err(error) => {
            let_go_verified(code);
            let_go_world(start);
            Err(error)
        }
    }
}

/// What the table is told: copies of a code and a start.
fn told(alloc: Global, code: &Code, start: &World) -> Result<Given, NoMemory>
    requires code { IsCode code.now }
    ensures { IfOk result (λ g. (g.code ≡ code.now) × (g.start ≡ start.now)) }
{
    let code = copy_code(alloc, code)?;
    match start.copy() {
        Ok(start) => Ok(Given { code, start }),
        Err(error) => {
            let_go_code(code);
            Err(error)
        }
    }
}

/// Lets go of what a table was told.
fn let_go_given(given: Given) {
    let Given { code, start } = given;
    let_go_code(code);
    let_go_world(start);
}

/// A table whose slot has a run of no turns.
fn laid(alloc: Global, given: &Given, run: Run) -> Result<(SeatTable, Pass), NoMemory>
    requires turns { run.turns ≡ [] }
    requires code { run.code ≡ given.now.code }
    requires start { run.start ≡ given.now.start }
    ensures given { IfOk result (λ r. r.0.table.shared.key ≡ given.now) }
    ensures seat { IfOk result (λ r. (r.1.table_id ≡ r.0.table.shared.table_id) × (r.1.me ≡ (newcomer r.0.table.shared.key, []))) }
{
    let slots = one_slot(alloc, Book::new(alloc, run))?;
    match Table::new(alloc, &[0, 0], slots, given) {
        Ok((table, pass)) => {
            let table_of_seats = SeatTable {
                table,
                asleep: AtomicU64::new(0),
            };
            Ok((table_of_seats, pass))
        }
        Err(refused) => {
            let_go_refused(refused);
            Err(NoMemory)
        }
    }
}

/// Lets go of what a table did not take.
fn let_go_refused(refused: Refused<Book, Global>) {
    drop(refused);
}

/// A list of one book.
fn one_slot(alloc: Global, book: Book) -> Result<Vec<Book>, NoMemory>
    ensures { IfOk result (λ v. v.items ≡ book ∷ []) }
{
    match Vec::with_capacity(alloc, 1) {
        Ok(mut slots) => {
            slots.push_reserved(book);
            Ok(slots)
        }
        Err(_) => {
            let_go_book(book);
            Err(NoMemory)
        }
    }
}
