//! The type of runs.

ghost use Rattle.std.specs.Prelude.{◌≡◌, ◌↔◌, ◌<◌, true, length, IsTrue, IfOk, OnOk, OnErr, MatchOption};
ghost use Rattle.lam_machine_terms.specs.Worlds.{thread_at};
ghost use Rattle.lam_machine_terms.specs.Turns as turns;
ghost use Rattle.lam_machine_terms.specs.Turns.{IsDone, AllWait, is_living};
ghost use Rattle.lam_machine_terms.specs.Valid.{IsValid};
ghost use Rattle.lam_machine.specs.Worlds.{IsSound};
ghost use Rattle.lam_machine_runs.specs.Ends.{NoneReady};
ghost use Rattle.lam_machine_laws.specs.Turned.{IsTurn};
ghost use Rattle.thread_core_stretches.specs.Stretches.{StretchStands};
ghost use Rattle.thread_host_run.specs.Courses.{IsCourse, ran_to, progress_of, was_quiet};
ghost use Rattle.thread_host_run.specs.Runs.{IsWhole, HasTurn, opened, with_turn};
ghost use Rattle.thread_host_run.specs.Stretched.{StretchFits, checked_in};
ghost use Rattle.turn_book.specs.Limits.{most_turns};

use crate::course::Course;
use crate::lists::few_threads;
use crate::one_turn::was_quiet;
use crate::search::{living_in, ready_in};
use guarded_code::Verified;
use lam_asks::{Event, let_go_event};
use lam_machine::{World, let_go_world};
use lam_machine_equal::{same_code, same_world};
use std::alloc::Global;
use std::marker::Model;
use thread_core_stretches::Stretch;
use want_of_memory::NoMemory;

/// A run. Contracts see its code, its start, the threads of its turns in order, and the world that they leave.
#[derive(Drop)]
pub struct Run {
    code: Verified,
    start: World,
    course: Course,
}

impl Model for Run {
    ghost use Rattle.thread_host_run.specs.Runs.{Ran, coded_run};

    ghost Value = { Ran };

    ghost coded = { coded_run };

    ghost use Rattle.thread_host_run.specs.Runs.{IsWhole};

    ghost view = { λ r. record { code = r.code; start = r.start; turns = r.course.turns; world = r.course.world } };

    ghost invariant = { λ r. IsWhole (record { code = r.code; start = r.start; turns = r.course.turns; world = r.course.world }) };
}

/// Lets a run go.
pub fn let_go_run(run: Run) {
    let RunParts { code, start, .. } = run.into_parts();
    let_go_world(start);
    let_go_verified(code);
}

/// Lets a guarded code go.
pub fn let_go_verified(code: Verified) {
    drop(code);
}

/// What a run is made of, but for the world that its turns leave.
#[derive(Drop)]
pub struct RunParts {
    pub code: Verified,
    pub start: World,
    /// The threads of the turns, in order.
    pub turns: Vec<u32>,
}

impl Run {
    /// The run with no turns of a code from a sound start, which is copied once.
    ///
    /// # Errors
    ///
    /// `NoMemory` where memory is refused.
    pub fn new(alloc: Global, code: Verified, start: World) -> Result<Run, NoMemory>
        requires sound { IsSound code start }
        ensures { IfOk result (λ r. r ≡ opened code start) }
    {
        match Course::new(alloc, &start) {
            Ok(course) => Ok(Run {
                code,
                start,
                course,
            }),
            Err(error) => {
                let_go_world(start);
                let_go_verified(code);
                Err(error)
            }
        }
    }

    /// The run of a code from a start that has come as far as this course of them. Nothing is copied or compared.
    pub fn of(code: Verified, start: World, course: Course) -> Run
        requires { IsCourse code start course }
        ensures { result ≡ ran_to code start course }
    {
        Run {
            code,
            start,
            course,
        }
    }

    /// The code.
    pub fn code(&self) -> &Verified
        ensures { result.now ≡ self.now.code }
    {
        &self.code
    }

    /// The world before the first turn.
    pub fn start(&self) -> &World
        ensures { result.now ≡ self.now.start }
    {
        &self.start
    }

    /// The world that the turns leave, which is valid, and from which runs of the code are sound.
    pub fn now(&self) -> &World
        ensures is { result.now ≡ self.now.world }
        ensures valid { IsValid self.now.world }
        ensures sound { IsSound self.now.code self.now.world }
    {
        self.course.world()
    }

    /// The threads of the turns, in order: they are a run of the code from the start, and leave the world that is now.
    pub fn turns(&self) -> &[u32]
        ensures is { result.now ≡ self.now.turns }
        ensures whole { IsWhole self.now }
    {
        self.course.turns()
    }

    /// Whether this is a run of that code from that start.
    pub fn same_start(&self, code: &Verified, start: &World) -> bool
        ensures { IsTrue result ↔ ((self.now.code ≡ code.now) × (self.now.start ≡ start.now)) }
    {
        same_code(self.code.code(), code.code()) && same_world(&self.start, start)
    }

    /// Whether this is a run of that code.
    pub fn same_code(&self, code: &Verified) -> bool
        ensures { IsTrue result ↔ (self.now.code ≡ code.now) }
    {
        same_code(self.code.code(), code.code())
    }

    /// How many threads there are now.
    pub fn thread_count(&self) -> u32
        ensures { result ≡ length self.now.world.threads }
    {
        few_threads(self.course.world())
    }

    /// Whether a thread is ready for a turn. Takes no memory.
    pub fn ready(&self, thread: u32) -> bool
        ensures { result ≡ turns.ready self.now.code self.now.world thread }
    {
        crate::ready(self.course.world(), &self.code, thread)
    }

    /// A thread that lives, `None` where every thread has ended.
    pub fn find_living(&self) -> Option<u32>
        ensures { MatchOption result (IsDone self.now.world) (λ t. is_living (thread_at self.now.world t) ≡ true) }
    {
        living_in(self.course.world())
    }

    /// A thread that is ready, `None` where none is.
    pub fn find_ready(&self) -> Option<u32>
        ensures { MatchOption result (NoneReady self.now.code self.now.world) (λ t. turns.ready self.now.code self.now.world t ≡ true) }
    {
        ready_in(self.course.world(), &self.code)
    }

    /// Whether every thread has ended.
    #[tactic(auto, using(crate::proofs::SeekLemmas::not_done))]
    pub fn is_done(&self) -> bool
        ensures { IsTrue result ↔ IsDone self.now.world }
    {
        self.find_living().is_none()
    }

    /// Whether some thread lives, and none is ready.
    #[tactic(auto, using(crate::proofs::SeekLemmas::all_waiting, crate::proofs::SeekLemmas::done_not_waiting, crate::proofs::SeekLemmas::ready_not_waiting))]
    pub fn all_wait(&self) -> bool
        ensures { IsTrue result ↔ AllWait self.now.code self.now.world }
    {
        match self.find_living() {
            None => false,
            Some(_) => self.find_ready().is_none(),
        }
    }

    /// One turn of a thread that is ready: the event that it is.
    ///
    /// A run has at most [`TURN_LIMIT`] turns.
    ///
    /// # Errors
    ///
    /// `NoMemory` where memory is refused; the run is then as it was.
    pub fn turn(&mut self, thread: u32) -> Result<Event, NoMemory>
        requires ready { turns.ready self.old.code self.old.world thread ≡ true }
        requires room { length self.old.turns < most_turns }
        ensures ok { IfOk result (λ e. IsTurn self.old.code thread self.old.world e self.new.world × (self.new ≡ with_turn self.old thread self.new.world)) }
        ensures err { OnErr result (self.new ≡ self.old) }
    {
        let event = self.course.turn(&self.code, thread)?;
        Ok(event)
    }

    /// One turn of a thread that is ready, as [`Run::turn`], where nobody asks for the event: whether the turn was quiet, so
    /// that every other thread is ready where it was.
    ///
    /// # Errors
    ///
    /// `NoMemory` where memory is refused; the run is then as it was.
    pub fn go(&mut self, thread: u32) -> Result<bool, NoMemory>
        requires ready { turns.ready self.old.code self.old.world thread ≡ true }
        requires room { length self.old.turns < most_turns }
        ensures ok { IfOk result (λ quiet. HasTurn self.old.code thread self.old.world quiet self.new.world × (self.new ≡ with_turn self.old thread self.new.world)) }
        ensures err { OnErr result (self.new ≡ self.old) }
    {
        let taken = self.course.go(&self.code, thread)?;
        Ok(let_go_taken(taken))
    }

    /// Whether a stretch can be checked in: its thread is there as it was when the stretch began, and the turns with those
    /// of the stretch are at most [`TURN_LIMIT`]. Takes no memory.
    pub fn fits(&self, stretch: &Stretch) -> bool
        ensures { IsTrue result ↔ StretchFits (progress_of self.now) stretch.now }
    {
        self.course.fits(stretch)
    }

    /// Checks a stretch of the run's code in: so many turns of its thread more, which becomes what the stretch left.
    ///
    /// # Errors
    ///
    /// `NoMemory` where memory is refused; the run is then as it was, and the stretch is let go.
    pub fn check_in(&mut self, stretch: Stretch) -> Result<(), NoMemory>
        requires stands { StretchStands self.old.code stretch }
        requires fits { StretchFits (progress_of self.old) stretch }
        ensures ok { OnOk result (self.new ≡ ran_to self.old.code self.old.start (checked_in (progress_of self.old) stretch)) }
        ensures err { OnErr result (self.new ≡ self.old) }
    {
        self.course.check_in(stretch)?;
        Ok(())
    }

    /// The code, the start and the turns. The world that they leave is let go.
    pub fn into_parts(self) -> RunParts
        ensures parts { (result.code ≡ self.code) × (result.start ≡ self.start) × (result.turns.items ≡ self.turns) }
        ensures whole { IsWhole self }
    {
        let Run {
            code,
            start,
            course,
        } = self;
        let turns = course.into_turns();
        RunParts { code, start, turns }
    }
}

/// Lets the event of a turn go, where one was made: whether the turn was quiet.
fn let_go_taken(taken: Option<Event>) -> bool
    ensures { result ≡ was_quiet taken }
{
    let quiet = was_quiet(&taken);
    if let Some(event) = taken {
        let_go_event(event);
    }
    quiet
}
