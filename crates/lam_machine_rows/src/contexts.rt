//! The rows of asks about tags, regions and threads.

ghost use Rattle.std.specs.Prelude.{◌≡◌, ℕ, List, length, reverse, IfOk};
ghost use Rattle.lam_value.specs.declared.values.Value.{Value as AValue};
ghost use Rattle.std.specs.Option.{option_copied};
ghost use Rattle.capabilities.specs.Changes.{joined};
ghost use Rattle.lam_asks.specs.declared.ask.Ask.TheVariants as Ask;
ghost use Rattle.thread_steps.specs.Threads.{Context};
ghost use Rattle.lam_machine_effects.specs.Worlds.{World, result_at};
ghost use Rattle.lam_machine_effects.specs.Serves as told;
ghost use Rattle.lam_machine_effects.specs.Serving.{served_by};
ghost use Rattle.lam_machine_effects.specs.Meaning.{DoesAs};
ghost use Rattle.lam_machine_rows.specs.Rows.{Serves, any_world, at_label, acting_by, at_depth, with_tags, ended_with};

use crate::rules::{enter_rule, full, spawn_rule};
use crate::services::{did, given};
use capabilities::Caps;
use flow_labels::{Label, TagId, mint_rule, read_rule};
use lam_asks::{Answer, Fault, Outcome};
use lam_machine_effects::{Effect, Served, TAG_LIMIT, THREAD_LIMIT};
use lam_value::{Name, Value, Values};
use want_of_memory::NoMemory;

/// The greatest depth of a region's context.
const DEPTH_LIMIT: u64 = 63;

/// A new tag.
pub fn mint(tags: u64, p: &Label) -> Served
    ensures { Serves (with_tags tags) (at_label p.now) Ask.Mint result }
{
    if let Some(denied) = mint_rule(p) {
        return Served::refused(denied);
    }
    if let Some(fault) = full(tags, TAG_LIMIT, Fault::HomeFull) {
        return Served::failed(fault);
    }
    Served::gives(Value::Tag(TagId(tags)), Effect::TakesTag)
}

/// A region is entered: its label, its capabilities, its number and the values that it captures.
pub fn enter(
    p: &Label,
    caps: &Caps,
    public: &Caps,
    depth: u32,
    label: &Label,
    some: &Caps,
) -> Served
    ensures { (region : ℕ) (args : List AValue) → Serves any_world (at_depth p.now (joined caps.now public.now) depth) (Ask.Enter label.now some.now region args) result }
{
    if let Some(denied) = enter_rule(p, caps, public, label, some) {
        return Served::refused(denied);
    }
    if let Some(fault) = full(u64::from(depth), DEPTH_LIMIT, Fault::Deep) {
        return Served::failed(fault);
    }
    Served {
        answer: Answer::Entered,
        effect: Effect::Nothing,
    }
}

/// It is done, and changes no store.
pub fn done() -> Served
    ensures { DoesAs result (told.answers Answer.Done) }
{
    Served::does(Effect::Nothing)
}

/// The context's monitors are given back.
pub fn release(p: &Label, held: &[Name]) -> Result<Served, NoMemory>
    ensures { IfOk result (λ d. DoesAs d (told.does (told.drops (reverse held.now)))) }
{
    did(Effect::drops(p.allocator(), held))
}

/// A new thread, among so many.
pub fn spawn(
    threads: u32,
    p: &Label,
    caps: &Caps,
    public: &Caps,
    unit: u32,
    args: &Values,
    some: &Caps,
) -> Result<Served, NoMemory>
    ensures { IfOk result (λ d. (w : World) (c : Context) → length w.threads ≡ threads → DoesAs d (served_by w (acting_by p.now (joined caps.now public.now) c) (Ask.Spawn unit args.now some.now))) }
{
    if let Some(denied) = spawn_rule(p, caps, public, some) {
        return Ok(Served::refused(denied));
    }
    if let Some(fault) = full(u64::from(threads), THREAD_LIMIT, Fault::HomeFull) {
        return Ok(Served::failed(fault));
    }
    given(
        Value::Thread(threads),
        Effect::adds_thread(unit, args, some),
    )
}

/// The value with which a thread ended.
pub fn join(ended: Option<&Outcome>, p: &Label) -> Result<Served, NoMemory>
    ensures { IfOk result (λ d. (w : World) (c : Context) (thread : ℕ) → result_at w thread ≡ option_copied ended.entry → DoesAs d (served_by w (at_label p.now c) (Ask.Join thread))) }
{
    let public = Label::public(p.allocator());
    if let Some(denied) = read_rule(p, &public) {
        drop(public);
        return Ok(Served::refused(denied));
    }
    drop(public);
    let answer = ended_with(ended)?;
    Ok(Served {
        answer,
        effect: Effect::Nothing,
    })
}

/// What a joined thread ended with.
fn ended_with(ended: Option<&Outcome>) -> Result<Answer, NoMemory>
    ensures { IfOk result (λ a. a ≡ ended_with (option_copied ended.entry)) }
{
    match ended {
        Some(Outcome::Value(v)) => Ok(Answer::Val(v.copy()?)),
        _ => Ok(Answer::Failed(Fault::Child)),
    }
}
