//! The locked value: a course of its origin, and what is kept of it.

ghost use Rattle.std.specs.Prelude.{◌≡◌, ◌<◌, ◌≤◌, true, false, [], length, IsTrue, ◌↔◌, IfOk, OnOk, OnErr, IfSome, MatchOption};
ghost use Rattle.guarded_code_runs.specs.Worlds.{IsSound};
ghost use Rattle.lam_machine_terms.specs.Turns as turns;
ghost use Rattle.lam_machine_terms.specs.Turns.{moments};
ghost use Rattle.lam_machine_runs.specs.Ends.{SomeReady};
ghost use Rattle.thread_host_run.specs.Courses.{IsCourse};
ghost use Rattle.thread_host.specs.Sharing.{Agree};
ghost use Rattle.thread_core_stretches.specs.Stretches.{StretchStands};
ghost use Rattle.thread_host_run.specs.Stretched.{checked_in};
ghost use Rattle.thread_host.specs.Stretching.{StretchOf, StretchKeepsTo, WentReady, Begins, EndsStretch};
ghost use Rattle.thread_host.specs.Visits.{GoesOn, EndsAs, TookReady, Visits, MayHaveTaken};
ghost use Rattle.turn_book.specs.Limits.{most_turns};

use crate::origins::Origin;
use crate::stretches::{Opening, is_light_in, keeps_to, stretch_of, take_along, take_stretch};
use crate::visits::{Visit, how_it_stands, picked, take_turn};
use guarded_code::Verified;
use lam_io::Gate;
use lam_machine_effects::THREAD_LIMIT;
use lam_machine_replay::{Keeps, World};
use lam_machine_runs::How;
use std::alloc::Global;
use std::marker::{Model, PhantomData};
use thread_core_stretches::{Stretch, let_go_stretch};
use thread_host_pace::{Pace, Wakes};
use thread_host_run::{Course, ReadyList, let_go_course};
use want_of_memory::NoMemory;

/// The most private turns that a worker takes outside the lock before it comes back.
const LONGEST: u64 = 4_096;

/// A course of its origin within the budget, the list of its ready threads with what each thread waits for, and what is kept of its moments so far; that is
/// lost where memory was refused. Contracts see the course. Beside it stands who takes which turns (`Pace`): no contract speaks
/// of that.
#[derive(Drop)]
pub struct Shared<J: Origin<Kept>, Kept: Drop> {
    course: Course,
    ready: ReadyList,
    kept: Kept,
    lost: bool,
    pace: Pace,
    of: PhantomData<J>,
}

impl<J: Origin<Kept>, Kept: Drop> Model for Shared<J, Kept> {
    ghost use Rattle.thread_host_run.specs.Courses.{Progress, coded_progress};
    ghost use Rattle.thread_host_run.specs.Kept.{Lists, HasRoom};
    ghost use Rattle.thread_host.specs.Sharing.{IsShared};

    ghost Value = { Progress };

    ghost coded = { coded_progress };

    ghost view = { λ s. s.course };

    ghost invariant = { λ s. IsShared J.AreKept J.code J.start J.budget s.course s.lost s.kept × Lists J.code s.course.world s.ready × HasRoom s.ready };
}

impl<J: Origin<Kept>, Kept: Drop> Shared<J, Kept> {
    /// No turn yet, and what is kept of none, for so many workers, whose hook may wait for other workers or waits for nobody.
    ///
    /// # Errors
    ///
    /// `NoMemory` where memory is refused.
    pub fn new(
        alloc: Global,
        code: &Verified,
        start: &World,
        nothing: Kept,
        workers: u64,
        may_wait: bool,
    ) -> Result<Shared<J, Kept>, NoMemory>
        requires of { (code.now ≡ J.code) × (start.now ≡ J.start) }
        requires sound { IsSound code.now start.now }
        requires nothing { J.AreKept [] nothing }
        ensures { IfOk result (λ s. s ≡ record { turns = []; world = start.now }) }
    {
        let pace = Pace::new(alloc, workers, THREAD_LIMIT as usize, LONGEST, may_wait)?;
        let course = Course::new(alloc, start)?;
        let ready = ReadyList::new(alloc, course.world(), code)?;
        Ok(Shared {
            course,
            ready,
            kept: nothing,
            lost: false,
            pace,
            of: PhantomData,
        })
    }

    /// A turn of the thread that the hook picks, unless the run has ended.
    ///
    /// # Errors
    ///
    /// `NoMemory` where memory is refused, and from then on where it was refused for what is kept. The course is then as it
    /// was, or has one turn more.
    pub fn visit<K: Keeps<Kept>, G: Gate>(
        &mut self,
        alloc: Global,
        code: &Verified,
        who: &K,
        worker: u64,
        budget: u64,
        gate: &G,
    ) -> Result<Visit, NoMemory>
        requires few { budget ≤ most_turns }
        requires of { (code.now ≡ J.code) × (budget ≡ J.budget) }
        requires keeps { Agree (K.AreKept who.now) J.AreKept }
        ensures ok { IfOk result (Visits code.now budget self.old self.new) }
        ensures err { OnErr result (MayHaveTaken code.now budget self.old self.new) }
    {
        if self.lost {
            return Err(NoMemory);
        }
        if let Some(how) = self.how_it_stands(code, budget) {
            return Ok(Visit::Ended(how));
        }
        let thread = self.picked(code, worker, gate);
        self.turn(alloc, code, who, thread, budget)?;
        Ok(Visit::Took(thread))
    }

    /// Asks the hook for a thread, unless the run has ended, and copies it where its next turn is private and a copy pays; else
    /// takes private turns of it, or a turn, in place. Where other workers take turns of all that are ready, have all that the
    /// budget leaves, or have a thread for long that nobody is to overtake further, there is nothing to do now.
    ///
    /// # Errors
    ///
    /// `NoMemory` where memory is refused, and from then on where it was refused for what is kept. The course is then as it
    /// was, or has one turn more.
    pub fn begin<K: Keeps<Kept>, G: Gate>(
        &mut self,
        alloc: Global,
        code: &Verified,
        who: &K,
        worker: u64,
        budget: u64,
        gate: &G,
    ) -> Result<Opening, NoMemory>
        requires few { budget ≤ most_turns }
        requires of { (code.now ≡ J.code) × (budget ≡ J.budget) }
        requires keeps { Agree (K.AreKept who.now) J.AreKept }
        ensures ok { IfOk result (Begins code.now budget self.old self.new) }
        ensures err { OnErr result (MayHaveTaken code.now budget self.old self.new) }
    {
        if self.lost {
            return Err(NoMemory);
        }
        if let Some(how) = self.how_it_stands(code, budget) {
            return Ok(Opening::Ended(how));
        }
        let thread = self.picked(code, worker, gate);
        let spare = self.spare(budget);
        if spare == 0 || !self.is_free(thread, worker) {
            return Ok(Opening::Away);
        }
        let most = self.pace.turns_away(thread, spare);
        let away = self.goes_away(code, thread, most, worker)?;
        match away {
            Some(stretch) => Ok(Opening::Out(stretch, most)),
            None => self.goes_here(alloc, code, who, thread, worker, budget, spare),
        }
    }

    /// Takes private turns of a thread that is ready, or a turn of it, in place.
    fn goes_here<K: Keeps<Kept>>(
        &mut self,
        alloc: Global,
        code: &Verified,
        who: &K,
        thread: u32,
        worker: u64,
        budget: u64,
        spare: u64,
    ) -> Result<Opening, NoMemory>
        requires few { budget ≤ most_turns }
        requires of { (code.now ≡ J.code) × (budget ≡ J.budget) }
        requires keeps { Agree (K.AreKept who.now) J.AreKept }
        requires ready { turns.ready code.now self.old.world thread ≡ true }
        requires left { length self.old.turns < budget }
        ensures ok { IfOk result (Begins code.now budget self.old self.new) }
        ensures err { OnErr result (MayHaveTaken code.now budget self.old self.new) }
    {
        let most = self.turns_here(thread, worker, spare);
        if self.goes_along(code, who, thread, most, budget)? {
            return Ok(Opening::Along(thread));
        }
        self.turn(alloc, code, who, thread, budget)?;
        Ok(Opening::Took(thread))
    }

    /// Checks a stretch in, where it has some turns, its thread is still what it was, and they keep to the budget; else it is
    /// let go, and this is a visit.
    ///
    /// # Errors
    ///
    /// `NoMemory` where memory is refused, and from then on where it was refused for what is kept. The course is then as it
    /// was, or has one turn more.
    pub fn end<K: Keeps<Kept>, G: Gate>(
        &mut self,
        alloc: Global,
        code: &Verified,
        who: &K,
        stretch: Stretch,
        worker: u64,
        budget: u64,
        gate: &G,
    ) -> Result<Visit, NoMemory>
        requires few { budget ≤ most_turns }
        requires of { (code.now ≡ J.code) × (budget ≡ J.budget) }
        requires keeps { Agree (K.AreKept who.now) J.AreKept }
        requires stands { StretchStands code.now stretch }
        ensures ok { IfOk result (EndsStretch code.now budget stretch self.old self.new) }
        ensures err { OnErr result (MayHaveTaken code.now budget self.old self.new) }
    {
        let thread = stretch.thread;
        self.comes_back(thread, stretch.count);
        if self.keeps_to(&stretch, budget) {
            self.check_in(code, who, stretch, budget)?;
            return Ok(Visit::Took(thread));
        }
        let_go_stretch(stretch);
        self.visit(alloc, code, who, worker, budget, gate)
    }

    /// Whether a worker may take turns of a thread now.
    fn is_free(&self, thread: u32, worker: u64) -> bool {
        let turn = self.course.turns().len() as u64;
        self.pace.is_free(thread, worker) && !self.pace.is_overtaken(turn)
    }

    /// How many turns the budget leaves to those that are not away.
    fn spare(&self, budget: u64) -> u64 {
        let taken = self.course.turns().len() as u64;
        self.pace.spare(budget.saturating_sub(taken))
    }

    /// A thread whose next turn is private goes away with a worker, for so many turns; none does for no turn.
    fn goes_away(
        &mut self,
        code: &Verified,
        thread: u32,
        most: u64,
        worker: u64,
    ) -> Result<Option<Stretch>, NoMemory>
        ensures same { self.new ≡ self.old }
        ensures of { IfOk result (λ o. IfSome o (λ s. (s.thread ≡ thread) × StretchOf code.now self.old s)) }
    {
        if most == 0 {
            return Ok(None);
        }
        self.pace.make_room()?;
        let stretch = stretch_of(&self.course, code, thread)?;
        if stretch.is_some() {
            let turn = self.course.turns().len() as u64;
            self.pace.goes_away(thread, most, worker, turn);
        }
        Ok(stretch)
    }

    /// A thread is back, with so many turns.
    fn comes_back(&mut self, thread: u32, count: u64)
        ensures { self.new ≡ self.old }
    {
        let turn = self.course.turns().len() as u64;
        self.pace.comes_back(thread, count, turn);
    }

    /// How many private turns of a thread a worker is to take in place at most, and 0 where its next turn is known not to be
    /// private. The worker leads then. Where there is one worker and the hook has a choice, of a thread that holds much it takes
    /// one.
    fn turns_here(&mut self, thread: u32, worker: u64, spare: u64) -> u64
        ensures { self.new ≡ self.old }
    {
        self.pace.leads(worker);
        if self.pace.asks(thread) {
            return 0;
        }
        let most = self.pace.turns_here(spare);
        let chooses = self.pace.is_alone() && self.ready.threads.len() > 1;
        if chooses && !is_light_in(&self.course, thread) {
            return most.min(1);
        }
        most
    }

    /// What is known of the leader's hook: the leader that was called and had not come back, plus one, or 0.
    pub fn hears(&mut self, beyond: u64)
        ensures { self.new ≡ self.old }
    {
        self.pace.hears(beyond);
    }

    /// Whether others are to know that a worker is in the hook.
    pub fn is_missed(&self, worker: u64) -> bool {
        self.pace.is_missed(worker)
    }

    /// How often a worker may look for something to take before it releases the lock.
    pub fn looks_at_once(&self) -> u64 {
        self.pace.looks_at_once()
    }

    /// A worker that has memory refused lets what it took go: every later visit answers so too.
    pub fn lose(&mut self)
        ensures { self.new ≡ self.old }
    {
        self.lost = true;
    }

    /// A worker sleeps.
    pub fn falls_asleep(&mut self, worker: u64)
        ensures { self.new ≡ self.old }
    {
        self.pace.falls_asleep(worker);
    }

    /// A worker that slept looks again.
    pub fn wakes_up(&mut self)
        ensures { self.new ≡ self.old }
    {
        self.pace.wakes_up();
    }

    /// How many workers that sleep are to be woken now; they count as woken then.
    pub fn wakes(&mut self) -> Wakes
        ensures { self.new ≡ self.old }
    {
        let turn = self.course.turns().len() as u64;
        self.pace.wakes(self.ready.threads.as_slice(), turn)
    }

    fn keeps_to(&self, stretch: &Stretch, budget: u64) -> bool
        requires { budget ≤ most_turns }
        ensures { IsTrue result ↔ StretchKeepsTo budget self.now stretch.now }
    {
        keeps_to(&self.course, stretch, budget)
    }

    /// Checks a stretch in.
    fn check_in<K: Keeps<Kept>>(
        &mut self,
        code: &Verified,
        who: &K,
        stretch: Stretch,
        budget: u64,
    ) -> Result<(), NoMemory>
        requires few { budget ≤ most_turns }
        requires of { (code.now ≡ J.code) × (budget ≡ J.budget) }
        requires agree { Agree (K.AreKept who.now) J.AreKept }
        requires stands { StretchStands code.now stretch }
        requires keeps { StretchKeepsTo budget self.old stretch }
        ensures ok { OnOk result (self.new ≡ checked_in self.old stretch) }
        ensures err { OnErr result (self.new ≡ self.old) }
    {
        if self.lost {
            let_go_stretch(stretch);
            return Err(NoMemory);
        }
        take_stretch::<J, Kept, K>(
            code,
            who,
            &mut self.course,
            &mut self.ready,
            &self.kept,
            stretch,
            budget,
        )?;
        Ok(())
    }

    /// Takes private turns of a thread that is ready in place, up to so many: whether there were any. If not, all is as it was.
    fn goes_along<K: Keeps<Kept>>(
        &mut self,
        code: &Verified,
        who: &K,
        thread: u32,
        most: u64,
        budget: u64,
    ) -> Result<bool, NoMemory>
        requires few { budget ≤ most_turns }
        requires of { (code.now ≡ J.code) × (budget ≡ J.budget) }
        requires keeps { Agree (K.AreKept who.now) J.AreKept }
        requires ready { turns.ready code.now self.old.world thread ≡ true }
        requires left { length self.old.turns < budget }
        ensures some { IfOk result (λ any. any ≡ true → WentReady code.now budget self.old self.new thread) }
        ensures none { IfOk result (λ any. any ≡ false → self.new ≡ self.old) }
        ensures err { OnErr result (self.new ≡ self.old) }
    {
        if most == 0 {
            return Ok(false);
        }
        match self.along(code, who, thread, most, budget)? {
            0 => Ok(false),
            _ => Ok(true),
        }
    }

    /// Takes private turns of a thread that is ready in place, up to so many: how many they were.
    fn along<K: Keeps<Kept>>(
        &mut self,
        code: &Verified,
        who: &K,
        thread: u32,
        most: u64,
        budget: u64,
    ) -> Result<u64, NoMemory>
        requires few { budget ≤ most_turns }
        requires of { (code.now ≡ J.code) × (budget ≡ J.budget) }
        requires keeps { Agree (K.AreKept who.now) J.AreKept }
        requires ready { turns.ready code.now self.old.world thread ≡ true }
        requires left { length self.old.turns < budget }
        ensures ok { OnOk result (WentReady code.now budget self.old self.new thread) }
        ensures none { IfOk result (λ n. n ≡ 0 → self.new ≡ self.old) }
        ensures err { OnErr result (self.new ≡ self.old) }
    {
        if self.lost {
            return Err(NoMemory);
        }
        let left = budget - self.course.turns().len() as u64;
        let taken = take_along::<J, Kept, K>(
            code,
            who,
            &mut self.course,
            &mut self.ready,
            &self.kept,
            thread,
            most.min(left),
            budget,
        )?;
        self.pace.went_along(thread, taken, most);
        Ok(taken)
    }

    fn how_it_stands(&self, code: &Verified, budget: u64) -> Option<How>
        requires { (code.now ≡ J.code) × (budget ≡ J.budget) }
        ensures { MatchOption result (GoesOn code.now budget self.now) (EndsAs code.now budget self.now) }
    {
        how_it_stands(code, &self.course, self.ready.threads.as_slice(), budget)
    }

    fn picked<G: Gate>(&self, code: &Verified, worker: u64, gate: &G) -> u32
        requires of { code.now ≡ J.code }
        requires some { SomeReady code.now self.now.world }
        ensures { turns.ready code.now self.now.world result ≡ true }
    {
        picked(
            code,
            &self.course,
            self.ready.threads.as_slice(),
            worker,
            gate,
            &self.pace,
        )
    }

    /// A turn of a thread that is ready.
    fn turn<K: Keeps<Kept>>(
        &mut self,
        alloc: Global,
        code: &Verified,
        who: &K,
        thread: u32,
        budget: u64,
    ) -> Result<(), NoMemory>
        requires few { budget ≤ most_turns }
        requires of { (code.now ≡ J.code) × (budget ≡ J.budget) }
        requires keeps { Agree (K.AreKept who.now) J.AreKept }
        requires ready { turns.ready code.now self.old.world thread ≡ true }
        requires left { length self.old.turns < budget }
        ensures ok { OnOk result (TookReady code.now budget self.old self.new thread) }
        ensures err { OnErr result (MayHaveTaken code.now budget self.old self.new) }
    {
        if self.lost {
            return Err(NoMemory);
        }
        take_turn::<J, Kept, K>(
            alloc,
            code,
            who,
            &mut self.course,
            &mut self.ready,
            &mut self.kept,
            &mut self.lost,
            thread,
            budget,
        )?;
        Ok(())
    }

    /// The course and what is kept of it, with all that is known of them; `None` where what was kept is lost.
    pub fn into_parts(self) -> Option<(Course, Kept)>
        ensures is { IfSome result (λ p. p.0 ≡ self) }
        ensures course { IsCourse J.code J.start self }
        ensures budget { length self.turns ≤ J.budget }
        ensures kept { IfSome result (λ p. J.AreKept (moments J.code self.turns J.start) p.1) }
    {
        let Shared {
            course,
            kept,
            lost,
            ..
        } = self;
        if lost {
            let_go_course(course);
            return None;
        }
        Some((course, kept))
    }
}
