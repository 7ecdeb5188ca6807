//! Shared runs and seats, as callers have them.

ghost use Rattle.std.specs.Prelude.{◌≡◌, ◌<◌, ◌^◌, length, IfOk, IfErr};
ghost use mathlib.Core.List.{IsPrefix};
ghost use Rattle.guarded_code_runs.specs.Worlds.{IsSound};
ghost use Rattle.seat_host.specs.Seats.{new_seat, without_calls, both_seats, TookTurn, Closes, StaysOpen, seen_after};

use crate::answer::{CloseFault, Closed, TurnAnswer};
use crate::seat_table::{Pass, SeatTable};
use guarded_code::Verified;
use lam_machine_world::World;
use std::alloc::Global;
use std::marker::Model;
use std::sync::Wait;
use want_of_memory::NoMemory;

/// A run whose turns callers take on threads of their own. Contracts see which one it is, its code and its start.
#[derive(Drop)]
pub struct SeatRun {
    seat_table: SeatTable,
}

impl Model for SeatRun {
    ghost use Rattle.seat_host.specs.Seats.{SharedRun, coded_shared_run, shared_run};

    ghost Value = { SharedRun };

    ghost coded = { coded_shared_run };

    ghost view = { λ r. shared_run r.seat_table.table.shared.table_id r.seat_table.table.shared.key.code r.seat_table.table.shared.key.start };
}

/// A caller's seat at a shared run. Contracts see the run that it is of, what the places hold that it has seen, its own
/// calls with their places, and a number that the ticket word is never below.
#[derive(Drop)]
pub struct Seat {
    pass: Pass,
    seen: u64,
}

impl Model for Seat {
    ghost use Rattle.std.specs.Prelude.{◌≡◌, length};
    ghost use Rattle.seat_host.specs.Seats.{Sitting, coded_sitting, sitting, IsIdle};

    ghost Value = { Sitting };

    ghost coded = { coded_sitting };

    ghost view = { λ s. sitting s.pass.table_id s.pass.me.0 };

    ghost invariant = { λ s. IsIdle s.pass.me × (s.seen ≡ length s.pass.me.0.seen) };
}

impl Seat {
    /// How many places the seat has seen.
    pub fn seen(&self) -> u64
        ensures { result ≡ length self.now.seen }
    {
        self.seen
    }
}

impl SeatRun {
    /// A shared run with no turns, and a seat that has seen nothing. Code and start are copied once.
    ///
    /// # Errors
    ///
    /// `NoMemory` where memory is refused.
    pub fn new(alloc: Global, code: Verified, start: World) -> Result<(SeatRun, Seat), NoMemory>
        requires sound { IsSound code start }
        ensures run { IfOk result (λ r. (r.0.code ≡ code) × (r.0.start ≡ start)) }
        ensures seat { IfOk result (λ r. r.1 ≡ new_seat r.0) }
    {
        let (seat_table, pass) = SeatTable::new(alloc, code, start)?;
        Ok((SeatRun { seat_table }, Seat { pass, seen: 0 }))
    }

    /// Draws a ticket, waits until it is served, and takes a turn of the thread if one may be taken. The place of the call
    /// comes after all that the seat had seen, and the seat has then seen it and all before it.
    pub fn turn_as<W: Wait>(&self, rt: &W, seat: Seat, thread: u32) -> (Seat, TurnAnswer)
        requires own { seat.of ≡ self.now }
        ensures own { result.0.of ≡ self.now }
        ensures turn { TookTurn seat thread result.1 result.0 }
    {
        let Seat { mut pass, seen } = seat;
        let answer = self.seat_table.turn(rt, &mut pass, seen, thread);
        let seen = seen_by(seen, &answer);
        (Seat { pass, seen }, answer)
    }

    /// The seat as it was, and one that has seen as much and has no calls.
    pub fn split(&self, seat: Seat) -> (Seat, Seat)
        requires own { seat.of ≡ self.now }
        ensures same { result.0 ≡ seat }
        ensures other { result.1 ≡ without_calls seat }
    {
        let Seat { mut pass, seen } = seat;
        let other = self.seat_table.split(&mut pass);
        (Seat { pass, seen }, Seat { pass: other, seen })
    }

    /// One seat of two: it has seen what either had, and has the calls of both in order of place.
    pub fn join(&self, a: Seat, b: Seat) -> Seat
        requires first { a.of ≡ self.now }
        requires second { b.of ≡ self.now }
        ensures joined { result ≡ both_seats a b }
        ensures fronts { IsPrefix a.seen result.seen × IsPrefix b.seen result.seen }
    {
        let Seat { mut pass, seen } = a;
        let Seat {
            pass: other,
            seen: more,
        } = b;
        self.seat_table.join(&mut pass, other);
        let seen = seen.max(more);
        Seat { pass, seen }
    }

    /// The run, and what each place holds.
    ///
    /// # Errors
    ///
    /// `Open` where a ticket was drawn and is not served, with how many places are finished and how many tickets were
    /// drawn; `NoMemory` where memory is refused. The shared run is gone then.
    pub fn close(self, alloc: Global, seat: Seat) -> Result<Closed, CloseFault>
        requires own { seat.of ≡ self }
        ensures ok { IfOk result (λ c. Closes seat c.run c.places.items) }
        ensures err { IfErr result (StaysOpen seat) }
    {
        let Seat { pass, seen: _ } = seat;
        self.seat_table.close(alloc, pass)
    }
}

/// How many places are seen after an answer.
fn seen_by(seen: u64, answer: &TurnAnswer) -> u64
    requires { seen_after seen answer.now < 2 ^ 64 }
    ensures { result ≡ seen_after seen answer.now }
{
    match answer {
        TurnAnswer::Worn { .. } => seen,
        TurnAnswer::Stale { place, .. }
        | TurnAnswer::Full { place }
        | TurnAnswer::NotReady { place }
        | TurnAnswer::NoMemory { place }
        | TurnAnswer::Took { place, .. } => *place + 1,
    }
}

/// Lets a shared run go that is not closed.
pub fn let_go_seat_run(run: SeatRun) {
    drop(run);
}

/// Lets a seat go. Its calls stay in the book.
pub fn let_go_seat(seat: Seat) {
    drop(seat);
}
