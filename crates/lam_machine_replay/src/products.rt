//! The product of a turn, from its event and the world after it.

ghost use Rattle.std.specs.Prelude.{◌≡◌, ℕ, Some, IfOk};
ghost use Rattle.std.specs.Option.{option_copied};
ghost use Rattle.lam_value.specs.declared.values.Value.{Value as Plain};
ghost use Rattle.lam_asks.specs.declared.answer.Answer.TheVariants.{Entered, Val};
ghost use Rattle.lam_machine_terms.specs.Worlds.{World};
ghost use Rattle.audit_log_notes.specs.declared.Content.TheVariants as Content;
ghost use Rattle.lam_machine_replay.specs.Told.{label_by, product_label, depth_at, slots_under, product_by, product};

use audit_log_notes::Content;
use capabilities::Caps;
use flow_labels::Label;
use labelled_heap::Heap;
use lam_asks::{Answer, Ask, What};
use lam_machine::World;
use lam_value::{Value, Values};
use std::alloc::Global;
use thread_core_state::listed;
use want_of_memory::NoMemory;

/// The label of a region that was entered, or of a copy: only these can be releases.
pub fn product_label(what: &What) -> Option<&Label>
    ensures { option_copied result ≡ product_label what.now }
{
    match what {
        What::Private => None,
        What::Asked { ask, answer } => match answer {
            Answer::Entered => entered_label(ask),
            Answer::Val(_) => copied_label(ask),
            _ => None,
        },
    }
}

fn entered_label(ask: &Ask) -> Option<&Label>
    ensures { option_copied result ≡ label_by Entered ask.now }
{
    match ask {
        Ask::Enter { label, .. } => Some(label),
        _ => None,
    }
}

fn copied_label(ask: &Ask) -> Option<&Label>
    ensures { (v : Plain) → option_copied result ≡ label_by (Val v) ask.now }
{
    match ask {
        Ask::CopyTo { own, .. } => Some(own),
        _ => None,
    }
}

/// All of what a turn of a thread made, in the world after it: a region that was entered, or a copy.
///
/// # Errors
///
/// `NoMemory` where memory is refused.
pub fn product(
    alloc: Global,
    world: &World,
    thread: u32,
    what: &What,
) -> Result<Option<Content>, NoMemory>
    ensures { IfOk result (λ made. made ≡ product world.now thread what.now) }
{
    match what {
        What::Private => Ok(None),
        What::Asked { ask, answer } => match answer {
            Answer::Entered => entered(depth_of(world, thread), ask),
            Answer::Val(name) => copied(alloc, world, ask, name),
            _ => Ok(None),
        },
    }
}

/// The region that was entered.
fn entered(depth: u32, ask: &Ask) -> Result<Option<Content>, NoMemory>
    ensures { IfOk result (λ made. (w : World) (t : ℕ) → depth ≡ depth_at w t → made ≡ product_by w t Entered ask.now) }
{
    match ask {
        Ask::Enter {
            label,
            caps,
            region,
            args,
        } => region_of(label, caps, depth, *region, args),
        _ => Ok(None),
    }
}

fn region_of(
    label: &Label,
    caps: &Caps,
    depth: u32,
    region: u32,
    args: &Values,
) -> Result<Option<Content>, NoMemory>
    ensures { IfOk result (λ made. made ≡ Some (Content.Context label.now caps.now depth region args.now)) }
{
    let label = label.copy()?;
    let caps = caps.copy()?;
    let args = args.copy()?;
    Ok(Some(Content::Context {
        label,
        caps,
        depth,
        region,
        args,
    }))
}

/// The copy that was made, with what its reference leads to.
fn copied(
    alloc: Global,
    world: &World,
    ask: &Ask,
    name: &Value,
) -> Result<Option<Content>, NoMemory>
    ensures { IfOk result (λ made. (t : ℕ) → made ≡ product_by world.now t (Val name.now) ask.now) }
{
    match ask {
        Ask::CopyTo { .. } => thing_of(alloc, world, name),
        _ => Ok(None),
    }
}

fn thing_of(alloc: Global, world: &World, name: &Value) -> Result<Option<Content>, NoMemory>
    ensures { IfOk result (λ made. made ≡ Some (Content.Thing name.now (slots_under world.now.heap name.now))) }
{
    let slots = listed(alloc, slots_under(&world.stores().heap, name))?;
    let name = name.copy()?;
    Ok(Some(Content::Thing { name, slots }))
}

/// How many regions a thread stands in.
fn depth_of(world: &World, thread: u32) -> u32
    ensures { result ≡ depth_at world.now thread }
{
    match world.threads().get(thread as usize) {
        None => 0,
        Some(thread) => match thread.top() {
            None => 0,
            Some(context) => context.depth(),
        },
    }
}

/// The slots of the thing that a value leads to.
fn slots_under<'a>(heap: &'a Heap, value: &Value) -> &'a [Value]
    ensures { result.now ≡ slots_under heap.now value.now }
{
    match value {
        Value::Obj(name) => heap.slots(name),
        Value::Arr { name, .. } => heap.slots(name),
        _ => &[],
    }
}
