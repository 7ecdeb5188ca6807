//! The operations that begin a unit.

ghost use Rattle.std.specs.Prelude.{◌≡◌, ◌<◌, ◌+◌, ◌∷◌, List, length, drop};
ghost use Rattle.lam_value.specs.declared.values.Value.{Value};
ghost use Rattle.thread_steps.specs.Ops.{on_caps, on_many, on_label, wants};
ghost use Rattle.thread_core_effects.specs.Acting.{did_of, enters, enters_with, spawns, spawns_with};
ghost use Rattle.lam_asks.specs.declared.ask.Ask.TheVariants as ask;

use flow_labels::TagSet;
use lam_asks::Fault;
use lam_bytecode::{Code, CodeUnit};
use lam_value::Value;
use thread_core_effects::{AskRef, OpEffect, Operands};
use thread_steps::{function_takes, region_takes};

/// Asks for a thread that runs a function, with a description of capabilities. It takes so many operands.
fn spawning<'a>(unit: u32, args: &'a [Value], c: &'a Value, takes: usize) -> OpEffect<'a>
    ensures { (locals s rest : List Value) → drop takes s ≡ rest → did_of result locals s ≡ on_caps (c.now ∷ rest) (λ k t. wants (ask.Spawn unit args.now k) t) }
{
    match c {
        Value::CapV { plus, minus } => OpEffect::Asks {
            ask: AskRef::Spawn {
                unit,
                args,
                plus,
                minus,
            },
            takes,
            leaves_null: false,
        },
        Value::Nothing => OpEffect::Fails(Fault::Null),
        _ => OpEffect::Breaks,
    }
}

/// Asks that a region be entered at a label, with descriptions of both.
fn entering<'a>(
    region: u32,
    args: &'a [Value],
    plus: &'a TagSet,
    minus: &'a TagSet,
    l: &'a Value,
    takes: usize,
) -> OpEffect<'a>
    ensures { (locals s rest : List Value) → drop takes s ≡ rest → did_of result locals s ≡ on_label (l.now ∷ rest) (λ label t. wants (ask.Enter label (record { plus = plus.now; minus = minus.now }) region args.now) t) }
{
    match l {
        Value::Lab(label) => OpEffect::Asks {
            ask: AskRef::Enter {
                label,
                plus,
                minus,
                region,
                args,
            },
            takes,
            leaves_null: false,
        },
        Value::Nothing => OpEffect::Fails(Fault::Null),
        _ => OpEffect::Breaks,
    }
}

/// The place below one at which an operand stands.
fn after(stack: &Operands, below: usize) -> usize
    requires { below < length stack.now }
    ensures { result ≡ below + 1 }
{
    let _length = stack.len();
    below + 1
}

/// Asks for a thread with arguments, above which so many operands stand.
fn spawn_with<'a>(stack: &'a Operands, unit: u32, args: &'a [Value], count: usize) -> OpEffect<'a>
    ensures { (locals : List Value) → did_of result locals stack.now ≡ spawns_with unit args.now (drop count stack.now) }
{
    match stack.get(count) {
        None => OpEffect::Breaks,
        Some(c) => spawning(unit, args, c, after(stack, count)),
    }
}

/// Asks for a thread that runs a function of so many parameters.
fn spawn_many(stack: &Operands, unit: u32, count: usize) -> OpEffect<'_>
    ensures { (locals : List Value) → did_of result locals stack.now ≡ on_many count stack.now (λ args s. spawns_with unit args s) }
{
    match stack.last_many(count) {
        None => OpEffect::Breaks,
        Some(args) => spawn_with(stack, unit, args, count),
    }
}

/// Asks for a thread that runs a function, with the capabilities and the arguments that stand on top.
pub fn spawn<'a>(stack: &'a Operands, units: &[CodeUnit], unit: u32) -> OpEffect<'a>
    ensures { (locals : List Value) → did_of result locals stack.now ≡ spawns units.now unit stack.now }
{
    match function_takes(units, unit) {
        None => OpEffect::Breaks,
        Some(count) => spawn_many(stack, unit, count),
    }
}

/// Asks that a region be entered with capabilities and captures, above which so many operands stand.
fn enter_at<'a>(
    stack: &'a Operands,
    region: u32,
    args: &'a [Value],
    plus: &'a TagSet,
    minus: &'a TagSet,
    count: usize,
) -> OpEffect<'a>
    ensures { (locals : List Value) → did_of result locals stack.now ≡ on_label (drop count stack.now) (λ label t. wants (ask.Enter label (record { plus = plus.now; minus = minus.now }) region args.now) t) }
{
    match stack.get(count) {
        None => OpEffect::Breaks,
        Some(l) => entering(region, args, plus, minus, l, after(stack, count)),
    }
}

/// Asks that a region be entered with the capabilities that a value describes.
fn enter_by<'a>(
    stack: &'a Operands,
    region: u32,
    args: &'a [Value],
    c: &'a Value,
    count: usize,
) -> OpEffect<'a>
    ensures { (locals rest : List Value) → drop count stack.now ≡ rest → did_of result locals stack.now ≡ enters_with region args.now (c.now ∷ rest) }
{
    match c {
        Value::CapV { plus, minus } => enter_at(stack, region, args, plus, minus, count),
        Value::Nothing => OpEffect::Fails(Fault::Null),
        _ => OpEffect::Breaks,
    }
}

/// Asks that a region be entered with captures, above which so many operands stand.
fn enter_with<'a>(stack: &'a Operands, region: u32, args: &'a [Value], count: usize) -> OpEffect<'a>
    ensures { (locals : List Value) → did_of result locals stack.now ≡ enters_with region args.now (drop count stack.now) }
{
    match stack.get(count) {
        None => OpEffect::Breaks,
        Some(c) => enter_by(stack, region, args, c, after(stack, count)),
    }
}

/// Asks that a region be entered that captures so many locals.
fn enter_many(stack: &Operands, region: u32, count: usize) -> OpEffect<'_>
    ensures { (locals : List Value) → did_of result locals stack.now ≡ on_many count stack.now (λ args s. enters_with region args s) }
{
    match stack.last_many(count) {
        None => OpEffect::Breaks,
        Some(args) => enter_with(stack, region, args, count),
    }
}

/// Asks that a region be entered, with the label, the capabilities and the captures that stand on top.
pub fn enter_region<'a>(stack: &'a Operands, code: &Code, region: u32) -> OpEffect<'a>
    ensures { (locals : List Value) → did_of result locals stack.now ≡ enters code.now.units region stack.now }
{
    match region_takes(code, region) {
        None => OpEffect::Breaks,
        Some(count) => enter_many(stack, region, count as usize),
    }
}
