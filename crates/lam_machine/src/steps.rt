//! The steps of threads.

ghost use Rattle.std.specs.Prelude.{◌≡◌, ◌≤◌, Some, length, slice_get, IfOk, OnErr};
ghost use Rattle.flow_labels.specs.declared.Label.{Label as LabelOf};
ghost use Rattle.thread_steps.specs.Threads.{Thread};
ghost use Rattle.lam_machine_effects.specs.declared.stores.Stores.{Stores};
ghost use Rattle.lam_machine_terms.specs.Limits.{most_threads};
ghost use Rattle.lam_machine_terms.specs.Worlds.{contexts_in};
ghost use Rattle.lam_machine_effects.specs.Parts.{world_of};
ghost use Rattle.guarded_code_runs.specs.Worlds.{IsSound};
ghost use Rattle.thread_core_answers.specs.Untested.{ThreadFinds};
ghost use Rattle.lam_machine.specs.Machine.{CopiesLive, IsStep};
ghost use Rattle.lam_machine.specs.Asking.{top_label, label_at, asked_event, AsksNext, Advances};

use crate::ask_turns::{asks_ready, take_ask, top_of};
use flow_labels::Label;
use guarded_code::Verified;
use lam_asks::{Answer, Ask, Event, What, let_go};
use lam_machine_effects::Stores;
use lam_machine_world::World;
use std::alloc::Global;
use thread_core_answers::{Turn, advance};
use thread_core_state::LamThread;
use want_of_memory::NoMemory;

/// One turn of a thread, where it is ready: the event that it is. Else `None`, and the world stays as it is.
///
/// The code is guarded and the world is one of its runs, or agrees with its descriptions as these do: so an access finds a reference
/// that its rule allows, and tests nothing.
///
/// # Errors
///
/// `NoMemory` where memory is refused; the world is then as it was.
pub fn step(
    alloc: Global,
    world: &mut World,
    code: &Verified,
    thread: u32,
) -> Result<Option<Event>, NoMemory>
    requires sound { IsSound code.now world.old }
    ensures ok { IfOk result (λ o. IsStep code.now thread world.old o world.new) }
    ensures err { OnErr result (world.new ≡ world.old) }
{
    take_step(alloc, &mut world.stores, &mut world.threads, code, thread)
}

fn take_step(
    alloc: Global,
    stores: &mut Stores,
    threads: &mut Vec<LamThread>,
    code: &Verified,
    thread: u32,
) -> Result<Option<Event>, NoMemory>
    requires few { length threads.old.items ≤ most_threads }
    requires sound { IsSound code.now (world_of stores.old threads.old.items) }
    ensures ok { IfOk result (λ o. IsStep code.now thread (world_of stores.old threads.old.items) o (world_of stores.new threads.new.items)) }
    ensures few { length threads.new.items ≤ most_threads }
    ensures same_stores { OnErr result (stores.new ≡ stores.old) }
    ensures same_threads { OnErr result (threads.new.items ≡ threads.old.items) }
{
    let label = acting_label(alloc, threads.as_slice(), thread)?;
    match advance_at(threads, code, thread)? {
        Turn::Private => Ok(Some(Event {
            label,
            thread,
            what: What::Private,
        })),
        Turn::Asks(ask) => step_asking(alloc, stores, threads, code, label, thread, ask),
        Turn::Stuck => {
            drop(label);
            Ok(None)
        }
        Turn::Ended => {
            drop(label);
            Ok(None)
        }
    }
}

/// The label of the acting context of a thread.
fn acting_label(alloc: Global, threads: &[LamThread], thread: u32) -> Result<Label, NoMemory>
    ensures { IfOk result (λ l. l ≡ top_label (contexts_in (slice_get threads.now thread))) }
{
    match top_of(threads, thread) {
        None => Ok(Label::public(alloc)),
        Some(c) => c.label().copy(),
    }
}

/// A private turn of a thread is taken, and an ask is handed out. A thread that is not there has nothing to do.
#[tactic(auto, using(crate::proofs::AdvanceLemmas::advances, crate::proofs::AdvanceLemmas::absent, crate::proofs::AdvanceLemmas::kept_at))]
fn advance_at(threads: &mut Vec<LamThread>, code: &Verified, thread: u32) -> Result<Turn, NoMemory>
    requires finds { (th : Thread) → slice_get threads.old.items thread ≡ Some th → ThreadFinds code.now th }
    ensures ok { IfOk result (λ x. (s : Stores) → Advances code.now (world_of s threads.old.items) thread x (world_of s threads.new.items)) }
    ensures few { length threads.new.items ≡ length threads.old.items }
    ensures err { OnErr result (threads.new.items ≡ threads.old.items) }
{
    let at = thread as usize;
    if at >= threads.len() {
        return Ok(Turn::Ended);
    }
    let turn = advance(&mut threads[at], code)?;
    Ok(turn)
}

/// The step of a thread that asks.
fn step_asking(
    alloc: Global,
    stores: &mut Stores,
    threads: &mut Vec<LamThread>,
    code: &Verified,
    label: Label,
    thread: u32,
    ask: Ask,
) -> Result<Option<Event>, NoMemory>
    requires few { length threads.old.items ≤ most_threads }
    requires asks { AsksNext code.now (world_of stores.old threads.old.items) thread ask }
    requires living { CopiesLive code.now (world_of stores.old threads.old.items) thread }
    requires label { label ≡ label_at (world_of stores.old threads.old.items) thread }
    ensures ok { IfOk result (λ o. IsStep code.now thread (world_of stores.old threads.old.items) o (world_of stores.new threads.new.items)) }
    ensures few { length threads.new.items ≤ most_threads }
    ensures same_stores { OnErr result (stores.new ≡ stores.old) }
    ensures same_threads { OnErr result (threads.new.items ≡ threads.old.items) }
{
    match answer_ask(alloc, stores, threads, code, thread, &ask) {
        Ok(Some(answer)) => Ok(Some(Event {
            label,
            thread,
            what: What::Asked { ask, answer },
        })),
        Ok(None) => {
            let_go(ask);
            drop(label);
            Ok(None)
        }
        Err(error) => {
            let_go(ask);
            drop(label);
            Err(error)
        }
    }
}

/// The ask of a thread gets its answer, where it is ready.
fn answer_ask(
    alloc: Global,
    stores: &mut Stores,
    threads: &mut Vec<LamThread>,
    code: &Verified,
    thread: u32,
    ask: &Ask,
) -> Result<Option<Answer>, NoMemory>
    requires few { length threads.old.items ≤ most_threads }
    requires asks { AsksNext code.now (world_of stores.old threads.old.items) thread ask.now }
    requires living { CopiesLive code.now (world_of stores.old threads.old.items) thread }
    ensures ok { IfOk result (λ x. (l : LabelOf) → l ≡ label_at (world_of stores.old threads.old.items) thread → IsStep code.now thread (world_of stores.old threads.old.items) (asked_event l thread ask.now x) (world_of stores.new threads.new.items)) }
    ensures few { length threads.new.items ≤ most_threads }
    ensures same_stores { OnErr result (stores.new ≡ stores.old) }
    ensures same_threads { OnErr result (threads.new.items ≡ threads.old.items) }
{
    if !asks_ready(stores, threads.as_slice(), thread, ask) {
        return Ok(None);
    }
    let answer = take_ask(alloc, stores, threads, code, thread, ask)?;
    Ok(Some(answer))
}
