//! Threads between their ask and the answer to it.

ghost use Rattle.std.specs.Prelude.{◌≡◌, ◌∷◌, List, Some, IsTrue, IfOk, IfErr, OnOk, OnErr};
ghost use Rattle.lam_asks.specs.Suits.{Sort, suits};
ghost use Rattle.thread_steps.specs.Threads.{Inside, Context};
ghost use Rattle.thread_core_state.specs.Stacked.{IsThread};
ghost use Rattle.thread_steps.specs.Next.{next_of, asks, takes};
ghost use Rattle.thread_core.specs.Turning.{ask_of};
ghost use Rattle.thread_core_answers.specs.Preparing.{result_or};

use crate::commit::{do_plan, undo_plan};
use crate::plan::Plan;
use crate::plans::{ending_of, plan_answer};
use guarded_code::Verified;
use lam_asks::{Answer, Ask, Outcome};
use lam_bytecode::Code;
use lam_value::Value;
use std::alloc::Global;
use std::marker::Model;
use std::mem::replace;
use thread_core_state::LamThread;
use want_of_memory::NoMemory;

/// A thread between its ask and the answer to it: all memory that the answer needs is taken, and it is not done yet.
#[derive(Drop)]
pub struct Prepared {
    thread: LamThread,
    plan: Plan,
    result: Option<Outcome>,
}

impl Model for Prepared {
    ghost use Rattle.thread_core_answers.specs.Preparing.{Ready};
    ghost use Rattle.thread_core_answers.specs.Coding.{coded_ready};

    ghost Value = { Ready };

    ghost coded = { coded_ready };

    ghost use Rattle.thread_core_answers.specs.Preparing.{ready_of};

    ghost view = { λ p. ready_of p.thread p.plan p.result };
}

/// Takes all memory that an answer to a thread's ask needs. Nothing of the thread is copied.
///
/// # Errors
///
/// The thread as it was, where memory is refused.
pub fn prepare(
    thread: LamThread,
    code: &Verified,
    ask: &Ask,
    answer: Answer,
) -> Result<Prepared, LamThread>
    ensures before { IfOk result (λ p. p.before ≡ thread) }
    ensures after { IfOk result (λ p. (c : Context) (rest : List Context) (i : Inside) → thread.contexts ≡ c ∷ rest → next_of code.now c ≡ asks ask.now i → p.after ≡ takes code.now thread c rest i ask.now answer) }
    ensures kept { IfOk result (λ p. (s : Sort) → ask_of code.now thread ≡ Some ask.now → IsTrue (suits s ask.now answer) → IsThread thread → IsThread p.after) }
    ensures err { IfErr result (λ t. t ≡ thread) }
{
    prepare_by(thread, code.code(), ask, answer)
}

fn prepare_by(
    thread: LamThread,
    code: &Code,
    ask: &Ask,
    answer: Answer,
) -> Result<Prepared, LamThread>
    ensures before { IfOk result (λ p. p.before ≡ thread) }
    ensures after { IfOk result (λ p. (c : Context) (rest : List Context) (i : Inside) → thread.contexts ≡ c ∷ rest → next_of code.now c ≡ asks ask.now i → p.after ≡ takes code.now thread c rest i ask.now answer) }
    ensures kept { IfOk result (λ p. (s : Sort) → ask_of code.now thread ≡ Some ask.now → IsTrue (suits s ask.now answer) → IsThread thread → IsThread p.after) }
    ensures err { IfErr result (λ t. t ≡ thread) }
{
    with_memory(thread, code, ask, answer)
}

/// Takes all memory that an answer needs.
fn with_memory(
    thread: LamThread,
    code: &Code,
    ask: &Ask,
    answer: Answer,
) -> Result<Prepared, LamThread>
    ensures before { IfOk result (λ p. p.before ≡ thread) }
    ensures after { IfOk result (λ p. (c : Context) (rest : List Context) (i : Inside) → thread.contexts ≡ c ∷ rest → next_of code.now c ≡ asks ask.now i → p.after ≡ takes code.now thread c rest i ask.now answer) }
    ensures err { IfErr result (λ t. t ≡ thread) }
{
    let ending = ending_of(ask);
    let Ok(result) = ending else {
        drop(ending);
        drop(answer);
        return Err(thread);
    };
    let mut thread = thread;
    let planned = plan_answer(&mut thread.contexts, code, ask, answer);
    match planned {
        Ok(plan) => Ok(Prepared {
            thread,
            plan,
            result,
        }),
        Err(_) => {
            drop(planned);
            drop(result);
            Err(thread)
        }
    }
}

/// An outcome is put in a place, where there is one.
fn put_ending(place: &mut Option<Outcome>, ending: Option<Outcome>)
    ensures { place.new ≡ result_or ending place.old }
{
    match ending {
        None => drop(ending),
        Some(outcome) => drop(replace(place, Some(outcome))),
    }
}

impl Prepared {
    /// The thread after the answer. Takes no memory.
    pub fn done(self) -> LamThread
        ensures { result ≡ self.after }
    {
        let Prepared {
            mut thread,
            plan,
            result,
        } = self;
        do_plan(&mut thread.contexts, plan);
        put_ending(&mut thread.result, result);
        thread
    }

    /// The thread as it was before the answer. Takes no memory.
    pub fn back(self) -> LamThread
        ensures { result ≡ self.before }
    {
        let Prepared {
            mut thread,
            plan,
            result,
        } = self;
        drop(result);
        undo_plan(&mut thread.contexts, plan);
        thread
    }
}

/// The allocator that a thread keeps.
fn allocator(thread: &LamThread) -> Global {
    *thread.contexts.allocator()
}

/// A thread stands in the place of another, which is let go.
fn put(slot: &mut LamThread, thread: LamThread)
    ensures { slot.new ≡ thread }
{
    drop(replace(slot, thread));
}

/// A thread takes the answer to its ask.
///
/// # Errors
///
/// `NoMemory` where memory is refused; the thread is then as it was.
pub fn take_answer(
    thread: &mut LamThread,
    code: &Verified,
    ask: &Ask,
    answer: Answer,
) -> Result<(), NoMemory>
    ensures ok { OnOk result ((c : Context) (rest : List Context) (i : Inside) → thread.old.contexts ≡ c ∷ rest → next_of code.now c ≡ asks ask.now i → thread.new ≡ takes code.now thread.old c rest i ask.now answer) }
    ensures kept { (s : Sort) → ask_of code.now thread.old ≡ Some ask.now → IsTrue (suits s ask.now answer) → IsThread thread.old → IsThread thread.new }
    ensures err { OnErr result (thread.new ≡ thread.old) }
{
    let none = LamThread::ended(allocator(thread), Outcome::Value(Value::Nothing));
    let taken = replace(thread, none);
    match prepare(taken, code, ask, answer) {
        Ok(prepared) => {
            put(thread, prepared.done());
            Ok(())
        }
        Err(back) => {
            put(thread, back);
            Err(NoMemory)
        }
    }
}
