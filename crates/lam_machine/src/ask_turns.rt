//! The turn of a thread that asks.

ghost use Rattle.std.specs.Prelude.{◌≡◌, ◌<◌, ◌≤◌, Some, length, slice_get, IfOk, IfErr, OnOk, OnErr};
ghost use Rattle.std.specs.Option.{option_copied};
ghost use Rattle.flow_labels.specs.declared.Label.{Label};
ghost use Rattle.lam_asks.specs.declared.answer.What.TheVariants.{Asked};
ghost use Rattle.thread_steps.specs.Threads.{Context as Plain};
ghost use Rattle.lam_machine_terms.specs.Limits.{most_threads};
ghost use Rattle.lam_machine_terms.specs.Worlds.{contexts_in};
ghost use Rattle.lam_machine_effects.specs.Parts.{world_of};
ghost use Rattle.lam_machine_laws.specs.Turned.{IsTurn};
ghost use Rattle.lam_machine.specs.Asking.{label_at, IsReadiness, MayAsk, Serves, Fits, Applied, with_born, Took, TookAt};

use guarded_code::Verified;
use lam_asks::{Answer, Ask, Outcome};
use lam_machine_effects::{Effect, Served, Stores, apply};
use lam_machine_world::{is_ready, served_of};
use lam_value::Value;
use std::alloc::Global;
use std::mem::replace;
use thread_core_answers::{Prepared, prepare};
use thread_core_state::{Context, LamThread};
use want_of_memory::NoMemory;

/// The acting context of a thread.
pub fn top_of(threads: &[LamThread], thread: u32) -> Option<&Context>
    ensures { option_copied result ≡ slice_get (contexts_in (slice_get threads.now thread)) 0 }
{
    match threads.get(thread as usize) {
        None => None,
        Some(thread) => thread.top(),
    }
}

/// Whether a thread may make an ask, and the ask does not wait.
pub fn asks_ready(stores: &Stores, threads: &[LamThread], thread: u32, ask: &Ask) -> bool
    ensures { IsReadiness (world_of stores.now threads.now) thread ask.now result }
{
    match top_of(threads, thread) {
        None => false,
        Some(c) => is_ready(stores, threads, thread, c, ask),
    }
}

/// An ask of a thread is served, and changes the world.
///
/// # Errors
///
/// `NoMemory` where memory is refused; nothing has changed then.
pub fn take_ask(
    alloc: Global,
    stores: &mut Stores,
    threads: &mut Vec<LamThread>,
    code: &Verified,
    thread: u32,
    ask: &Ask,
) -> Result<Answer, NoMemory>
    requires few { length threads.old.items ≤ most_threads }
    requires asks { MayAsk code.now (world_of stores.old threads.old.items) thread ask.now }
    ensures ok { IfOk result (λ x. (l : Label) → l ≡ label_at (world_of stores.old threads.old.items) thread → IsTurn code.now thread (world_of stores.old threads.old.items) (record { label = l; thread = thread; what = Asked ask.now x }) (world_of stores.new threads.new.items)) }
    ensures few { length threads.new.items ≤ most_threads }
    ensures same_stores { OnErr result (stores.new ≡ stores.old) }
    ensures same_threads { OnErr result (threads.new.items ≡ threads.old.items) }
{
    let Served { answer, effect } = served(stores, threads.as_slice(), thread, ask)?;
    match answer.copy() {
        Err(error) => {
            drop(answer);
            drop(effect);
            Err(error)
        }
        Ok(copy) => {
            match enact(alloc, stores, threads, thread, code, ask, answer, effect) {
                Ok(()) => Ok(copy),
                Err(error) => {
                    drop(copy);
                    Err(error)
                }
            }
        }
    }
}

/// What the ask of a thread is served by.
fn served(
    stores: &Stores,
    threads: &[LamThread],
    thread: u32,
    ask: &Ask,
) -> Result<Served, NoMemory>
    requires few { length threads.now ≤ most_threads }
    requires top { (c : Plain) × (slice_get (contexts_in (slice_get threads.now thread)) 0 ≡ Some c) }
    ensures { IfOk result (λ d. Serves (world_of stores.now threads.now) thread ask.now d) }
{
    match top_of(threads, thread) {
        None => unreachable!(),
        Some(c) => served_of(stores, threads, c, ask),
    }
}

/// A service is done: the thread that it adds stands last, its answer is taken, and its effect is applied to the stores.
fn enact(
    alloc: Global,
    stores: &mut Stores,
    threads: &mut Vec<LamThread>,
    thread: u32,
    code: &Verified,
    ask: &Ask,
    answer: Answer,
    effect: Effect,
) -> Result<(), NoMemory>
    requires there { thread < length threads.old.items }
    requires room { Fits thread effect stores.old }
    ensures stores { OnOk result (Applied thread effect stores.old stores.new) }
    ensures threads { OnOk result (TookAt code.now (with_born code.now effect threads.old.items) thread ask.now answer threads.new.items) }
    ensures same_stores { OnErr result (stores.new ≡ stores.old) }
    ensures same_threads { OnErr result (threads.new.items ≡ threads.old.items) }
{
    match add_born(alloc, threads, code, &effect) {
        Err(error) => {
            drop(answer);
            drop(effect);
            Err(error)
        }
        Ok(count) => {
            match settle_at(alloc, stores, threads, thread, code, ask, answer, effect) {
                Ok(()) => Ok(()),
                Err(error) => {
                    threads.truncate(count);
                    Err(error)
                }
            }
        }
    }
}

/// The thread that an effect adds stands last. How many there were.
fn add_born(
    alloc: Global,
    threads: &mut Vec<LamThread>,
    code: &Verified,
    effect: &Effect,
) -> Result<usize, NoMemory>
    ensures ok { IfOk result (λ n. (n ≡ length threads.old.items) × (threads.new.items ≡ with_born code.now effect.now threads.old.items)) }
    ensures err { OnErr result (threads.new.items ≡ threads.old.items) }
{
    let count = threads.len();
    push_born(alloc, threads, code, effect)?;
    Ok(count)
}

#[tactic(auto, unfolding(crate::specs::Asking::with_born))]
fn push_born(
    alloc: Global,
    threads: &mut Vec<LamThread>,
    code: &Verified,
    effect: &Effect,
) -> Result<(), NoMemory>
    ensures ok { OnOk result (threads.new.items ≡ with_born code.now effect.now threads.old.items) }
    ensures err { OnErr result (threads.new.items ≡ threads.old.items) }
{
    match effect {
        Effect::AddsThread { unit, args, caps } => {
            let caps = caps.copy()?;
            let args = args.copy()?;
            let thread = LamThread::start(alloc, code.code(), *unit, args, caps)?;
            threads.push(thread)?;
            Ok(())
        }
        _ => Ok(()),
    }
}

/// A thread of many takes the answer of a service, and the effect is applied to the stores.
#[tactic(auto, using(crate::proofs::AskLemmas::took_at))]
fn settle_at(
    alloc: Global,
    stores: &mut Stores,
    threads: &mut Vec<LamThread>,
    thread: u32,
    code: &Verified,
    ask: &Ask,
    answer: Answer,
    effect: Effect,
) -> Result<(), NoMemory>
    requires there { thread < length threads.old.items }
    requires room { Fits thread effect stores.old }
    ensures stores { OnOk result (Applied thread effect stores.old stores.new) }
    ensures threads { OnOk result (TookAt code.now threads.old.items thread ask.now answer threads.new.items) }
    ensures same_stores { OnErr result (stores.new ≡ stores.old) }
    ensures same_threads { OnErr result (threads.new.items ≡ threads.old.items) }
{
    let slot = &mut threads[thread as usize];
    settle(alloc, stores, slot, thread, code, ask, answer, effect)?;
    Ok(())
}

/// A thread takes the answer of a service, and the effect is applied to the stores.
#[tactic(auto, using(crate::proofs::AskLemmas::took_is))]
fn settle(
    alloc: Global,
    stores: &mut Stores,
    slot: &mut LamThread,
    thread: u32,
    code: &Verified,
    ask: &Ask,
    answer: Answer,
    effect: Effect,
) -> Result<(), NoMemory>
    requires { Fits thread effect stores.old }
    ensures stores { OnOk result (Applied thread effect stores.old stores.new) }
    ensures slot { OnOk result (Took code.now slot.old ask.now answer slot.new) }
    ensures same_stores { OnErr result (stores.new ≡ stores.old) }
    ensures same_slot { OnErr result (slot.new ≡ slot.old) }
{
    let none = LamThread::ended(alloc, Outcome::Value(Value::Nothing));
    let taken = replace(slot, none);
    match make_ready(taken, code, ask, answer) {
        Err(back) => {
            put(slot, back);
            drop(effect);
            return Err(NoMemory);
        }
        Ok(prepared) => match apply_to(stores, thread, effect) {
            Err(error) => {
                put(slot, prepared.back());
                return Err(error);
            }
            Ok(()) => {
                put(slot, prepared.done());
                return Ok(());
            }
        },
    }
}

/// A thread stands in a place in place of another, which is let go.
fn put(slot: &mut LamThread, thread: LamThread)
    ensures { slot.new ≡ thread }
{
    drop(replace(slot, thread));
}

/// A thread takes all memory that an answer needs, or is as it was.
fn make_ready(
    thread: LamThread,
    code: &Verified,
    ask: &Ask,
    answer: Answer,
) -> Result<Prepared, LamThread>
    ensures before { IfOk result (λ p. p.before ≡ thread) }
    ensures after { IfOk result (λ p. Took code.now thread ask.now answer p.after) }
    ensures err { IfErr result (λ t. t ≡ thread) }
{
    prepare(thread, code, ask, answer)
}

/// An effect is applied to the stores.
#[tactic(auto, unfolding(crate::specs::Asking::Fits, crate::specs::Asking::Applied))]
fn apply_to(stores: &mut Stores, thread: u32, effect: Effect) -> Result<(), NoMemory>
    requires { Fits thread effect stores.old }
    ensures ok { OnOk result (Applied thread effect stores.old stores.new) }
    ensures err { OnErr result (stores.new ≡ stores.old) }
{
    apply(stores, thread, effect)
}
