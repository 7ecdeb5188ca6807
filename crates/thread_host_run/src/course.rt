//! Courses, which are the parts of runs that move.

ghost use Rattle.std.specs.Prelude.{◌≡◌, ◌↔◌, ◌<◌, ◌≤◌, true, [], length, IsTrue, IfOk, OnOk, OnErr};
ghost use Rattle.lam_bytecode.specs.Codes.{CodeTree};
ghost use Rattle.lam_machine_terms.specs.Worlds.{World as Plain};
ghost use Rattle.lam_machine_terms.specs.Turns as turns;
ghost use Rattle.lam_machine.specs.Worlds.{IsSound};
ghost use Rattle.lam_machine_laws.specs.Turned.{IsTurn};
ghost use Rattle.thread_core_stretches.specs.Stretches.{StretchStands};
ghost use Rattle.thread_host_run.specs.Courses.{IsCourse, one_more, TookTurn};
ghost use Rattle.thread_host_run.specs.Stretched.{StretchFits, WentOn, checked_in};
ghost use Rattle.turn_book.specs.Limits.{most_turns};

use crate::one_turn::{go_turn, take_turn};
use crate::{rows, stretches};
use guarded_code::Verified;
use lam_asks::Event;
use lam_machine::{World, let_go_world};
use std::alloc::Global;
use std::marker::Model;
use thread_core_stretches::Stretch;
use want_of_memory::NoMemory;

/// The turns of a run and the world that they leave.
///
/// It holds neither the code nor the start, so that whoever shares it under a lock lends both to all from outside. Each call
/// says that it stays a course of the code that it is given, from whatever start it is one.
#[derive(Drop)]
pub struct Course {
    turns: Vec<u32>,
    world: World,
}

impl Model for Course {
    ghost use Rattle.thread_host_run.specs.Courses.{Progress, coded_progress};

    ghost Value = { Progress };

    ghost coded = { coded_progress };

    ghost view = { λ c. record { turns = c.turns.items; world = c.world } };
}

/// Lets a course go.
pub fn let_go_course(course: Course) {
    let Course { world, .. } = course;
    let_go_world(world);
}

impl Course {
    /// No turn yet, from a copy of the start.
    ///
    /// # Errors
    ///
    /// `NoMemory` where memory is refused.
    pub fn new(alloc: Global, start: &World) -> Result<Course, NoMemory>
        ensures { IfOk result (λ c. c ≡ record { turns = []; world = start.now }) }
    {
        let world = start.copy()?;
        Ok(Course {
            turns: Vec::new(alloc),
            world,
        })
    }

    /// The world that the turns leave.
    pub fn world(&self) -> &World
        ensures { result.now ≡ self.now.world }
    {
        &self.world
    }

    /// The threads of the turns, in order.
    pub fn turns(&self) -> &[u32]
        ensures { result.now ≡ self.now.turns }
    {
        self.turns.as_slice()
    }

    /// One turn of a thread that is ready: the event that it is.
    ///
    /// # Errors
    ///
    /// `NoMemory` where memory is refused; the course is then as it was.
    pub fn turn(&mut self, code: &Verified, thread: u32) -> Result<Event, NoMemory>
        requires sound { IsSound code.now self.old.world }
        requires ready { turns.ready code.now self.old.world thread ≡ true }
        requires room { length self.old.turns < most_turns }
        ensures ok { IfOk result (λ e. IsTurn code.now thread self.old.world e self.new.world × (self.new ≡ one_more self.old thread self.new.world)) }
        ensures err { OnErr result (self.new ≡ self.old) }
        ensures course { OnOk result ((start : Plain) → IsCourse code.now start self.old → IsCourse code.now start self.new) }
    {
        let event = take_turn(&mut self.turns, &mut self.world, code, thread)?;
        Ok(event)
    }

    /// One turn of a thread that is ready: the event that it is, or `None` where it is private, of which no event is made.
    ///
    /// # Errors
    ///
    /// `NoMemory` where memory is refused; the course is then as it was.
    pub fn go(&mut self, code: &Verified, thread: u32) -> Result<Option<Event>, NoMemory>
        requires sound { IsSound code.now self.old.world }
        requires ready { turns.ready code.now self.old.world thread ≡ true }
        requires room { length self.old.turns < most_turns }
        ensures ok { IfOk result (λ o. TookTurn code.now thread self.old.world o self.new.world × (self.new ≡ one_more self.old thread self.new.world)) }
        ensures err { OnErr result (self.new ≡ self.old) }
        ensures course { OnOk result ((start : Plain) → IsCourse code.now start self.old → IsCourse code.now start self.new) }
    {
        let taken = go_turn(&mut self.turns, &mut self.world, code, thread)?;
        Ok(taken)
    }

    /// Takes private turns of a thread that is there in a row, at most `most`: how many it took. The contract leaves open how
    /// many it takes. They are taken in place, and each is a turn of the course, of whatever code it is one.
    ///
    /// # Errors
    ///
    /// `NoMemory` where memory is refused for the first of them; the course is then as it was.
    pub fn go_along(&mut self, code: &Verified, thread: u32, most: u64) -> Result<u64, NoMemory>
        requires { thread < length self.old.world.threads }
        ensures few { IfOk result (λ n. n ≤ most) }
        ensures ok { IfOk result (λ n. WentOn code.now thread n self.old self.new) }
        ensures err { OnErr result (self.new ≡ self.old) }
    {
        let taken = rows::go_along(&mut self.turns, &mut self.world, code, thread, most)?;
        Ok(taken)
    }

    /// Whether a stretch can be checked in: its thread is there as it was when the stretch began, and the turns with those
    /// of the stretch are at most [`TURN_LIMIT`](crate::TURN_LIMIT). Takes no memory.
    pub fn fits(&self, stretch: &Stretch) -> bool
        ensures { IsTrue result ↔ StretchFits self.now stretch.now }
    {
        stretches::fits(self.turns.as_slice(), &self.world, stretch)
    }

    /// Checks a stretch in: so many turns of its thread more, which becomes what the stretch left. Of whatever code the
    /// stretch is, the course stays one of that code, from whatever start it is one.
    ///
    /// # Errors
    ///
    /// `NoMemory` where memory is refused; the course is then as it was, and the stretch is let go.
    pub fn check_in(&mut self, stretch: Stretch) -> Result<(), NoMemory>
        requires { StretchFits self.old stretch }
        ensures ok { OnOk result (self.new ≡ checked_in self.old stretch) }
        ensures err { OnErr result (self.new ≡ self.old) }
        ensures course { OnOk result ((code : CodeTree) (start : Plain) → StretchStands code stretch → IsCourse code start self.old → IsCourse code start self.new) }
    {
        stretches::check_in(&mut self.turns, &mut self.world, stretch)?;
        Ok(())
    }

    /// The turns. The world that they leave is let go.
    pub fn into_turns(self) -> Vec<u32>
        ensures { result.items ≡ self.turns }
    {
        let Course { turns, world } = self;
        let_go_world(world);
        turns
    }
}
