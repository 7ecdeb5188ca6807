//! The law that turns keep worlds valid, and laws of asks and their answers.
//!
//! - `specs/Laws`: what a context asks next, for every code and every context.
//! - `specs/Living`: what lives in a world goes on living, and a thread's next turn names only what lives.
//! - `specs/Steps`: every turn of every code leads from a valid world to a valid one.
//! - `specs/Suiting`, `specs/Faults`, `specs/Events`, `specs/Ready`: each answer suits its ask, which fault it may be,
//!   that failing tests are events, and which threads are ready.
//! - `specs/Threads`: the threads of a valid world are threads as the machine's code has them.
//!
//! Public promises rest on most of its laws, first on [`turns_keep_validity`] and [`answers_follow_the_rows`]. Nothing
//! here is a matter of speed.
#![tactic(auto)]

ghost use Rattle.lam_bytecode.specs.Codes.{CodeTree};
ghost use Rattle.lam_machine_valid.specs.Steps.{StaysValid, RunsStayValid, MonitorsExclude, StartsAreValid};
ghost use Rattle.lam_machine_valid.specs.Laws.{AsksWhatItMay, BarriersTest, AccessesPass};
ghost use Rattle.lam_machine_valid.specs.Living.{NamesWhatLives, LivingGoOn};
ghost use Rattle.lam_machine_valid.specs.Faults.{AnswersFollowTheRows};
ghost use Rattle.lam_machine_valid.specs.Events.{FailingTestsAreEvents};
ghost use Rattle.lam_machine_valid.specs.Suiting.{AnswersSuit};
ghost use Rattle.lam_machine_valid.specs.Threads.{ValidThreadsAreThreads};
ghost use Rattle.lam_machine_valid.specs.Ready.{ReadyThreadsCanGo, EndedAreNotReady, StandsOneWay};

/// A turn of any thread, whatever it asks, keeps all that a valid world is: what is named lives, counters stay within
/// their limits, tags are known, and threads and monitors fit together.
pub fn turns_keep_validity()
    ensures { (code : CodeTree) → StaysValid code }
{}

/// So each world of a run from a valid world is valid, and the world that it leaves is.
pub fn runs_stay_valid()
    ensures { (code : CodeTree) → RunsStayValid code }
{}

/// In a valid world no two threads list the monitor of one thing.
pub fn monitors_exclude()
    ensures { MonitorsExclude }
{}

/// A world with sound stores, in which what stands in them lives, whose public capabilities are of known tags, and whose
/// threads stand at the entry of units with living arguments, is valid; one with nothing but an empty directory and such
/// threads is.
pub fn starts_are_valid()
    ensures { (code : CodeTree) → StartsAreValid code }
{}

/// A thread asks only what it may ask: a first context is never left, an end is one of a first context alone, and a
/// monitor is given back only where the context lists it.
pub fn asks_what_it_may()
    ensures { (code : CodeTree) → AsksWhatItMay code }
{}

/// A thread is barred exactly at a barrier whose reference leads to a thing that the barrier's rule forbids to the
/// acting label, and the ask names the first rule that fails; where none fails it goes past the barrier.
pub fn barriers_test()
    ensures { (code : CodeTree) → BarriersTest code }
{}

/// A read and a write are of a thing that the acting label may read or write, so in every world a read gives what
/// stands in the slot and a write sets it.
pub fn accesses_pass()
    ensures { (code : CodeTree) → AccessesPass code }
{}

/// In a valid world what a thread does next names only what lives: what stands in its acting context after a private
/// turn, and what an ask of it holds.
pub fn next_turns_name_what_lives()
    ensures { (code : CodeTree) → NamesWhatLives code }
{}

/// What lives in a world with sound stores lives after a turn too: nothing is ever taken away.
pub fn living_go_on()
    ensures { (code : CodeTree) → LivingGoOn code }
{}

/// An ask is refused where a test of it fails for a context that holds the public capabilities beside its own, by the
/// first rule that does; else it fails where it has a fault, with that fault; and else it is done.
pub fn answers_follow_the_rows()
    ensures { AnswersFollowTheRows }
{}

/// A thread is ready exactly where its acting context has a private turn next, or an ask that does not wait.
pub fn ready_threads_can_go()
    ensures { (code : CodeTree) → ReadyThreadsCanGo code }
{}

/// A thread that has ended is not ready, nor is one that is stuck, and where all have ended none is.
pub fn ended_threads_are_not_ready()
    ensures { (code : CodeTree) → EndedAreNotReady code }
{}

/// A world is done, or some thread lives in it and none is ready, or some thread is ready.
pub fn worlds_stand_one_way()
    ensures { (code : CodeTree) → StandsOneWay code }
{}

/// Where a test of an ask fails for a context that holds the public capabilities beside its own, or the rule of a barrier,
/// the thread's turn is an event that names the first failing rule with its least tag, and all that it does is to raise
/// Denied.
pub fn failing_tests_are_events()
    ensures { (code : CodeTree) → FailingTestsAreEvents code }
{}

/// Each answer suits the ask of a thread that it answers: it is of the sort that the ask wants, or a refusal or a fault
/// that the ask may have. Of a read and a join it is a value of some sort.
pub fn answers_suit()
    ensures { (code : CodeTree) → AnswersSuit code }
{}

/// Each thread of a valid world is a thread as the machine's code has it: its last context is its first one, no other is,
/// and it has a result exactly where it has no context.
pub fn valid_threads_are_threads()
    ensures { ValidThreadsAreThreads }
{}
