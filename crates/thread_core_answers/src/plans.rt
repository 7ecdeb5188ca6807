//! The making of a plan, with all memory that the answer needs.

ghost use Rattle.std.specs.Prelude.{◌≡◌, ◌<◌, ◌≤◌, ◌∷◌, ◌++◌, [], List, length, take, drop, reverse, IfOk, OnOk, OnErr};
ghost use Rattle.thread_steps.specs.Ops.{region_in};
ghost use Rattle.lam_asks.specs.declared.ask.Ask.{Ask};
ghost use Rattle.thread_steps.specs.Threads.{Inside, Context as Plain};
ghost use Rattle.thread_steps.specs.Next.{next_of, asks, answered, done, entered, gains, given, with_caps, with_inside, with_held, region_context, without, catch_at, catching, unit_number, catch_place};
ghost use Rattle.capabilities.specs.Changes.{joined};
ghost use Rattle.lam_value.specs.declared.names.Name.{Name as NameOf};
ghost use Rattle.thread_core_state.specs.Seen.{phase_of};
ghost use Rattle.thread_core_effects.specs.Reading.{thing_in};
ghost use Rattle.thread_core.specs.Untested.{untested_next};
ghost use Rattle.thread_core_answers.specs.Preparing.{held_after, held_before, taken_by, given_by, catch_place_in, after_of, nulls, without_at, caps_or, gone, undone, done_in, undone_in, ending_of};

use crate::plan::{Going, Left, Monitor, Plan};
use capabilities::Caps;
use flow_labels::Label;
use lam_asks::{Answer, Ask, Fault, Outcome, both};
use lam_bytecode::{Code, UnitKind};
use lam_value::{Name, Value};
use thread_core::{Coming, next};
use thread_core_effects::{OpEffect, same_names, thing_in};
use thread_core_state::{Context, Operands, Phase, filled, locals_of};
use thread_steps::region_of;
use want_of_memory::NoMemory;

fn stays(c: &Context) -> Left
    ensures { after_of result c.now.inside ≡ c.now.inside }
{
    Left {
        at: c.at,
        takes: 0,
        leaves_null: false,
    }
}

/// What will stand of the acting call when its ask was answered, where an access goes by the barrier before it.
#[tactic(auto, using(crate::proofs::Leaving::wanted_left, thread_core::proofs::Cases::raised_left, thread_core::proofs::Cases::returned_left, thread_core::proofs::Cases::leaving_left, thread_core::proofs::Cases::set_left))]
fn left_untested(c: &Context, code: &Code) -> Left
    ensures { (a : Ask) (i : Inside) → untested_next code.now c.now ≡ asks a i → i ≡ after_of result c.now.inside }
{
    match next(c, code) {
        Coming::Nothing => stays(c),
        Coming::Handles(_) => stays(c),
        Coming::Sees(op_effect) => match op_effect {
            OpEffect::Asks {
                takes,
                leaves_null,
                ..
            } => Left {
                at: c.at + 1,
                takes,
                leaves_null,
            },
            OpEffect::Drops { .. } => stays(c),
            OpEffect::Puts { .. } => stays(c),
            OpEffect::Sets { .. } => stays(c),
            OpEffect::Jumps { .. } => stays(c),
            OpEffect::Calls { .. } => stays(c),
            OpEffect::Returns => stays(c),
            OpEffect::Fails(_) => stays(c),
            OpEffect::Leaves => stays(c),
            OpEffect::Breaks => stays(c),
        },
    }
}

/// What will stand of the acting call when its ask was answered.
#[tactic(auto, using(thread_core::proofs::Untested::asks_same))]
fn left(c: &Context, code: &Code) -> Left
    ensures { (a : Ask) (i : Inside) → next_of code.now c.now ≡ asks a i → i ≡ after_of result c.now.inside }
{
    left_untested(c, code)
}

/// Null is put on the operands, where the ask leaves it. How many were put.
fn add_null(stack: &mut Operands, leaves_null: bool) -> Result<usize, NoMemory>
    ensures added { IfOk result (λ n. take n stack.new ≡ nulls leaves_null) }
    ensures below { IfOk result (λ n. drop n stack.new ≡ stack.old) }
    ensures few { IfOk result (λ n. n ≤ 1) }
    ensures err { OnErr result (stack.new ≡ stack.old) }
{
    if leaves_null {
        stack.push(Value::Nothing)?;
        return Ok(1);
    }
    Ok(0)
}

/// A value is put on the operands, above null where the ask leaves it. How many were put.
#[tactic(auto, using(crate::proofs::Going::take_next, crate::proofs::Going::drop_next))]
fn add_value(stack: &mut Operands, leaves_null: bool, value: Value) -> Result<usize, NoMemory>
    ensures added { IfOk result (λ n. take n stack.new ≡ value ∷ nulls leaves_null) }
    ensures below { IfOk result (λ n. drop n stack.new ≡ stack.old) }
    ensures err { OnErr result (stack.new ≡ stack.old) }
{
    let Ok(nulls) = add_null(stack, leaves_null) else {
        drop(value);
        return Err(NoMemory);
    };
    if stack.push(value).is_err() {
        stack.drop_many(nulls);
        return Err(NoMemory);
    }
    Ok(nulls + 1)
}

/// Some capabilities with more, which are let go.
fn with_more(caps: &Caps, more: Caps) -> Result<Caps, NoMemory>
    ensures { IfOk result (λ c. c ≡ joined caps.now more) }
{
    let together = caps.join(&more);
    drop(more);
    together
}

/// The capabilities of a context to which a value brings some: a minted tag, or received capabilities.
fn gained(caps: &Caps, ask: &Ask, value: &Value) -> Result<Option<Caps>, NoMemory>
    ensures { IfOk result (λ o. (c : Plain) → c.caps ≡ caps.now → gains ask.now value.now c ≡ with_caps c (caps_or o c.caps)) }
{
    match ask {
        Ask::Mint => match value {
            Value::Tag(tag) => Ok(Some(caps.with_both(*tag)?)),
            _ => Ok(None),
        },
        Ask::ReceiveCaps { .. } => match value {
            Value::CapV { plus, minus } => {
                let (plus, minus) = both(plus.copy(), minus.copy())?;
                Ok(Some(with_more(caps, Caps { plus, minus })?))
            }
            _ => Ok(None),
        },
        _ => Ok(None),
    }
}

#[tactic(auto, using(crate::proofs::Going::undone_is, crate::proofs::Going::value_gone))]
fn plan_value(c: &mut Context, code: &Code, ask: &Ask, value: Value) -> Result<Going, NoMemory>
    ensures before { IfOk result (λ g. undone g c.new ≡ c.old) }
    ensures after { IfOk result (λ g. (i : Inside) → next_of code.now c.old ≡ asks ask.now i → gone g c.new ≡ gains ask.now value (given c.old i value)) }
    ensures err { OnErr result (c.new ≡ c.old) }
{
    let left = left(c, code);
    let more = gained(&c.caps, ask, &value);
    let Ok(caps) = more else {
        drop(more);
        drop(value);
        return Err(NoMemory);
    };
    let Ok(added) = add_value(&mut c.stack, left.leaves_null, value) else {
        drop(caps);
        return Err(NoMemory);
    };
    Ok(Going {
        at: left.at,
        takes: left.takes,
        added,
        clears: true,
        caps,
        monitor: Monitor::Stays,
    })
}

/// A context goes on without a value.
#[tactic(auto, using(crate::proofs::Going::undone_is, crate::proofs::Going::rest_gone))]
fn plan_rest(c: &mut Context, code: &Code) -> Result<Going, NoMemory>
    ensures before { IfOk result (λ g. undone g c.new ≡ c.old) }
    ensures after { IfOk result (λ g. (a : Ask) (i : Inside) → next_of code.now c.old ≡ asks a i → gone g c.new ≡ with_inside c.old i) }
    ensures err { OnErr result (c.new ≡ c.old) }
{
    let left = left(c, code);
    let added = add_null(&mut c.stack, left.leaves_null)?;
    Ok(Going {
        at: left.at,
        takes: left.takes,
        added,
        clears: false,
        caps: None,
        monitor: Monitor::Stays,
    })
}

/// A monitor was taken.
#[tactic(auto, using(crate::proofs::Going::taken_undone, crate::proofs::Going::taken_gone))]
fn plan_taken_one(c: &mut Context, code: &Code, name: &Name) -> Result<Going, NoMemory>
    ensures before { IfOk result (λ g. undone g c.new ≡ c.old) }
    ensures after { IfOk result (λ g. (a : Ask) (i : Inside) → next_of code.now c.old ≡ asks a i → gone g c.new ≡ with_held (with_inside c.old i) (name.now ∷ c.old.held)) }
    ensures err { OnErr result (c.new ≡ c.old) }
{
    let left = left(c, code);
    let name = name.copy()?;
    let added = add_null(&mut c.stack, left.leaves_null)?;
    if c.held.push(name).is_err() {
        c.stack.drop_many(added);
        return Err(NoMemory);
    }
    Ok(Going {
        at: left.at,
        takes: left.takes,
        added,
        clears: false,
        caps: None,
        monitor: Monitor::Taken,
    })
}

/// The monitor of what a value refers to was taken.
#[tactic(auto, using(crate::proofs::Going::held_some, crate::proofs::Going::held_none))]
fn plan_taken(c: &mut Context, code: &Code, r: &Value) -> Result<Going, NoMemory>
    ensures before { IfOk result (λ g. undone g c.new ≡ c.old) }
    ensures after { IfOk result (λ g. (a : Ask) (i : Inside) → next_of code.now c.old ≡ asks a i → gone g c.new ≡ taken_by r.now (with_inside c.old i)) }
    ensures err { OnErr result (c.new ≡ c.old) }
{
    match thing_in(r) {
        None => plan_rest(c, code),
        Some(name) => plan_taken_one(c, code, name),
    }
}

/// The place of a monitor among those that were taken, from the last one on.
#[tactic(auto, using(crate::proofs::Held::place_found, crate::proofs::Held::place_passed, crate::proofs::Held::place_none))]
fn place_of(name: &Name, taken: &[Name]) -> Option<usize>
    ensures { without_at result (reverse taken.now) ≡ without name.now (reverse taken.now) }
{
    for place in 0..taken.len() {
        if same_names(name, &taken[taken.len() - 1 - place]) {
            return Some(place);
        }
    }
    None
}

/// What becomes of the monitors where the one at a place goes, if there is one.
fn monitor_from(place: Option<usize>) -> Monitor
    ensures after { (ns : List NameOf) → held_after result ns ≡ without_at place ns }
    ensures before { (ns : List NameOf) → held_before result ns ≡ ns }
{
    match place {
        None => Monitor::Stays,
        Some(place) => Monitor::Given(place),
    }
}

/// A monitor was given back.
#[tactic(auto, using(crate::proofs::Going::kept_undone, crate::proofs::Going::kept_gone))]
fn plan_given_one(c: &mut Context, code: &Code, name: &Name) -> Result<Going, NoMemory>
    ensures before { IfOk result (λ g. undone g c.new ≡ c.old) }
    ensures after { IfOk result (λ g. (a : Ask) (i : Inside) → next_of code.now c.old ≡ asks a i → gone g c.new ≡ with_held (with_inside c.old i) (without name.now c.old.held)) }
    ensures err { OnErr result (c.new ≡ c.old) }
{
    let left = left(c, code);
    let monitor = monitor_from(place_of(name, c.held.as_slice()));
    let added = add_null(&mut c.stack, left.leaves_null)?;
    Ok(Going {
        at: left.at,
        takes: left.takes,
        added,
        clears: false,
        caps: None,
        monitor,
    })
}

/// The monitor of what a value refers to was given back.
#[tactic(auto, using(crate::proofs::Going::held_some, crate::proofs::Going::held_none))]
fn plan_given(c: &mut Context, code: &Code, r: &Value) -> Result<Going, NoMemory>
    ensures before { IfOk result (λ g. undone g c.new ≡ c.old) }
    ensures after { IfOk result (λ g. (a : Ask) (i : Inside) → next_of code.now c.old ≡ asks a i → gone g c.new ≡ given_by r.now (with_inside c.old i)) }
    ensures err { OnErr result (c.new ≡ c.old) }
{
    match thing_in(r) {
        None => plan_rest(c, code),
        Some(name) => plan_given_one(c, code, name),
    }
}

/// The address of the catch block.
fn catch_at(phase: Phase) -> usize
    ensures { result ≡ catch_at (phase_of phase) }
{
    match phase {
        Phase::Bottom => 0,
        Phase::Body { catch_at } => catch_at as usize,
        Phase::Catch => 0,
    }
}

/// The catch block of a region, with the number of a fault as its operand.
fn plan_catch(c: &Context, fault: Fault) -> Result<Plan, NoMemory>
    ensures before { IfOk result (λ p. (cs : List Plain) → undone_in p cs ≡ cs) }
    ensures after { IfOk result (λ p. (rest : List Plain) → done_in p (c.now ∷ rest) ≡ catching c.now fault ∷ rest) }
{
    let mut stack = Operands::new(c.stack.allocator());
    if stack.push(Value::Int(fault.number())).is_err() {
        drop(stack);
        return Err(NoMemory);
    }
    Ok(Plan::Catches {
        at: catch_at(c.phase),
        stack,
    })
}

/// What an answer without a value does to the acting context.
fn plan_done(c: &mut Context, code: &Code, ask: &Ask) -> Result<Plan, NoMemory>
    ensures before { IfOk result (λ p. (rest : List Plain) → undone_in p (c.new ∷ rest) ≡ c.old ∷ rest) }
    ensures after { IfOk result (λ p. (rest : List Plain) (i : Inside) → next_of code.now c.old ≡ asks ask.now i → done_in p (c.new ∷ rest) ≡ done code.now c.old rest i ask.now) }
    ensures err { OnErr result (c.new ≡ c.old) }
{
    match ask {
        Ask::Leave => Ok(Plan::Leaves),
        Ask::Barred(_) => Ok(Plan::Fails(Fault::Denied)),
        Ask::Caught(fault) => plan_catch(c, *fault),
        Ask::Suppressed(_) => Ok(Plan::Leaves),
        Ask::End(_) => Ok(Plan::Leaves),
        Ask::MonEnter { r } => Ok(Plan::Goes(plan_taken(c, code, r)?)),
        Ask::MonLeave { r } => Ok(Plan::Goes(plan_given(c, code, r)?)),
        _ => Ok(Plan::Goes(plan_rest(c, code)?)),
    }
}

fn catch_place(kind: &UnitKind) -> u32
    ensures { result ≡ catch_place_in kind.now }
{
    match kind {
        UnitKind::Function { .. } => 0,
        UnitKind::Region { catch_at, .. } => *catch_at,
    }
}

/// The number of a region's unit, and the address of its catch block.
fn region_place(code: &Code, region: u32) -> (usize, u32)
    ensures number { result.0 ≡ unit_number (region_in region code.now.units) }
    ensures catch_at { result.1 ≡ catch_place (region_in region code.now.units) }
{
    match region_of(code, region) {
        None => (0, 0),
        Some(unit) => (unit.number, catch_place(&unit.it.kind)),
    }
}

/// The context of a region that is entered from another one.
fn region_context(
    c: &Context,
    code: &Code,
    label: &Label,
    caps: &Caps,
    region: u32,
    args: &[Value],
) -> Result<Context, NoMemory>
    ensures { IfOk result (λ r. r ≡ region_context code.now c.now label.now caps.now region args.now) }
{
    let alloc = label.allocator();
    let Some(depth) = c.depth.checked_add(1) else {
        return Err(NoMemory);
    };
    let (unit, catch_at) = region_place(code, region);
    let caps = caps.copy()?;
    let parts = both(label.copy(), filled(alloc, args, locals_of(code, unit)));
    let (caps, (label, locals)) = both(Ok(caps), parts)?;
    Ok(Context {
        label,
        caps,
        depth,
        phase: Phase::Body { catch_at },
        held: Vec::new(alloc),
        unit,
        at: 0,
        locals,
        stack: Operands::new(alloc),
        callers: Vec::new(alloc),
        fault: None,
    })
}

fn plan_last_value(
    contexts: &mut Vec<Context>,
    code: &Code,
    ask: &Ask,
    value: Value,
) -> Result<Plan, NoMemory>
    requires { 0 < length contexts.old.items }
    ensures before { IfOk result (λ p. undone_in p (reverse contexts.new.items) ≡ reverse contexts.old.items) }
    ensures after { IfOk result (λ p. (c : Plain) (rest : List Plain) (i : Inside) → reverse contexts.old.items ≡ c ∷ rest → next_of code.now c ≡ asks ask.now i → done_in p (reverse contexts.new.items) ≡ gains ask.now value (given c i value) ∷ rest) }
    ensures err { OnErr result (contexts.new.items ≡ contexts.old.items) }
{
    let last = contexts.len() - 1;
    let going = plan_value(&mut contexts[last], code, ask, value)?;
    Ok(Plan::Goes(going))
}

fn plan_last_done(contexts: &mut Vec<Context>, code: &Code, ask: &Ask) -> Result<Plan, NoMemory>
    requires { 0 < length contexts.old.items }
    ensures before { IfOk result (λ p. undone_in p (reverse contexts.new.items) ≡ reverse contexts.old.items) }
    ensures after { IfOk result (λ p. (c : Plain) (rest : List Plain) (i : Inside) → reverse contexts.old.items ≡ c ∷ rest → next_of code.now c ≡ asks ask.now i → done_in p (reverse contexts.new.items) ≡ done code.now c rest i ask.now) }
    ensures err { OnErr result (contexts.new.items ≡ contexts.old.items) }
{
    let last = contexts.len() - 1;
    let plan = plan_done(&mut contexts[last], code, ask)?;
    Ok(plan)
}

fn plan_last_rest(contexts: &mut Vec<Context>, code: &Code) -> Result<Plan, NoMemory>
    requires { 0 < length contexts.old.items }
    ensures before { IfOk result (λ p. undone_in p (reverse contexts.new.items) ≡ reverse contexts.old.items) }
    ensures after { IfOk result (λ p. (a : Ask) (c : Plain) (rest : List Plain) (i : Inside) → reverse contexts.old.items ≡ c ∷ rest → next_of code.now c ≡ asks a i → done_in p (reverse contexts.new.items) ≡ with_inside c i ∷ rest) }
    ensures err { OnErr result (contexts.new.items ≡ contexts.old.items) }
{
    let last = contexts.len() - 1;
    let going = plan_rest(&mut contexts[last], code)?;
    Ok(Plan::Goes(going))
}

fn put_context(contexts: &mut Vec<Context>, inner: Context) -> Result<(), NoMemory>
    ensures ok { OnOk result (contexts.new.items ≡ contexts.old.items ++ inner ∷ []) }
    ensures err { OnErr result (contexts.new.items ≡ contexts.old.items) }
{
    contexts.push(inner)?;
    Ok(())
}

/// The context of a region is put above the acting one.
fn plan_region(contexts: &mut Vec<Context>, code: &Code, inner: Context) -> Result<Plan, NoMemory>
    requires { 0 < length contexts.old.items }
    ensures before { IfOk result (λ p. undone_in p (reverse contexts.new.items) ≡ reverse contexts.old.items) }
    ensures after { IfOk result (λ p. (a : Ask) (c : Plain) (rest : List Plain) (i : Inside) → reverse contexts.old.items ≡ c ∷ rest → next_of code.now c ≡ asks a i → done_in p (reverse contexts.new.items) ≡ inner ∷ (with_inside c i ∷ rest)) }
    ensures err { OnErr result (contexts.new.items ≡ contexts.old.items) }
{
    let last = contexts.len() - 1;
    put_context(contexts, inner)?;
    match plan_rest(&mut contexts[last], code) {
        Ok(going) => Ok(Plan::Enters(going)),
        Err(_) => {
            drop(contexts.pop());
            Err(NoMemory)
        }
    }
}

/// A region is entered from the acting context.
fn plan_enter(
    contexts: &mut Vec<Context>,
    code: &Code,
    label: &Label,
    caps: &Caps,
    region: u32,
    args: &[Value],
) -> Result<Plan, NoMemory>
    requires { 0 < length contexts.old.items }
    ensures before { IfOk result (λ p. undone_in p (reverse contexts.new.items) ≡ reverse contexts.old.items) }
    ensures after { IfOk result (λ p. (a : Ask) (c : Plain) (rest : List Plain) (i : Inside) → reverse contexts.old.items ≡ c ∷ rest → next_of code.now c ≡ asks a i → done_in p (reverse contexts.new.items) ≡ region_context code.now c label.now caps.now region args.now ∷ (with_inside c i ∷ rest)) }
    ensures err { OnErr result (contexts.new.items ≡ contexts.old.items) }
{
    let last = contexts.len() - 1;
    let inner = region_context(&contexts[last], code, label, caps, region, args)?;
    plan_region(contexts, code, inner)
}

fn plan_last_entered(contexts: &mut Vec<Context>, code: &Code, ask: &Ask) -> Result<Plan, NoMemory>
    requires { 0 < length contexts.old.items }
    ensures before { IfOk result (λ p. undone_in p (reverse contexts.new.items) ≡ reverse contexts.old.items) }
    ensures after { IfOk result (λ p. (c : Plain) (rest : List Plain) (i : Inside) → reverse contexts.old.items ≡ c ∷ rest → next_of code.now c ≡ asks ask.now i → done_in p (reverse contexts.new.items) ≡ entered code.now c rest i ask.now) }
    ensures err { OnErr result (contexts.new.items ≡ contexts.old.items) }
{
    match ask {
        Ask::Enter {
            label,
            caps,
            region,
            args,
        } => plan_enter(contexts, code, label, caps, *region, args.as_slice()),
        _ => plan_last_rest(contexts, code),
    }
}

/// What an answer will do to the contexts. All memory for it is taken here.
pub fn plan_answer(
    contexts: &mut Vec<Context>,
    code: &Code,
    ask: &Ask,
    answer: Answer,
) -> Result<Plan, NoMemory>
    ensures before { IfOk result (λ p. undone_in p (reverse contexts.new.items) ≡ reverse contexts.old.items) }
    ensures after { IfOk result (λ p. (c : Plain) (rest : List Plain) (i : Inside) → reverse contexts.old.items ≡ c ∷ rest → next_of code.now c ≡ asks ask.now i → done_in p (reverse contexts.new.items) ≡ answered code.now c rest i ask.now answer) }
    ensures err { OnErr result (contexts.new.items ≡ contexts.old.items) }
{
    if contexts.is_empty() {
        drop(answer);
        return Ok(Plan::Leaves);
    }
    match answer {
        Answer::Refused(_) => {
            drop(answer);
            Ok(Plan::Fails(Fault::Denied))
        }
        Answer::Failed(fault) => {
            drop(answer);
            Ok(Plan::Fails(fault))
        }
        Answer::Val(value) => plan_last_value(contexts, code, ask, value),
        Answer::Done => {
            drop(answer);
            plan_last_done(contexts, code, ask)
        }
        Answer::Entered => {
            drop(answer);
            plan_last_entered(contexts, code, ask)
        }
    }
}

/// The outcome of the ask by which a thread ends.
pub fn ending_of(ask: &Ask) -> Result<Option<Outcome>, NoMemory>
    ensures { IfOk result (λ o. o ≡ ending_of ask.now) }
{
    match ask {
        Ask::End(outcome) => Ok(Some(outcome.copy()?)),
        _ => Ok(None),
    }
}
