//! The comparison of an ask with the one at which a walk stands.

ghost use Rattle.std.specs.Prelude.{◌≡◌, ◌↔◌, IsTrue, Some, map, slice_get, IfOk};
ghost use Rattle.lam_asks.specs.declared.ask.Ask.TheVariants as asks;
ghost use Rattle.lam_value.specs.declared.shapes.Shape.TheVariants as shapes;
ghost use Rattle.lam_value.specs.Shapes.{zero_of};
ghost use Rattle.lam_resolve_tree.specs.Tree.{resolved_tree, types_tree};
ghost use Rattle.lam_meaning.specs.Means.{kind_of, class_fields};
ghost use Rattle.source_walk_parts.specs.States.{state_of};
ghost use Rattle.source_walk_follow.specs.Standing.{made_by};

use ask_equality::{same_ask, same_outcome};
use capabilities::Caps;
use flow_labels::{Label, same};
use lam_asks::{Ask, Outcome};
use lam_resolve_tree::{Resolved, ValueType};
use lam_value::{Shape, Values};
use source_walk_parts::{Walk, captured, kind_of};
use source_walk_state::Control;
use std::alloc::Global;
use want_of_memory::NoMemory;

/// What fields of these types are at first.
fn zeros(alloc: Global, types: &[ValueType]) -> Result<Values, NoMemory>
    ensures { IfOk result (λ vs. vs ≡ map (λ t. zero_of (kind_of t)) (types_tree types.now)) }
{
    let mut all = Values::new(alloc);
    for ty in types {
        all.push(kind_of(ty).zero())?;
    }
    Ok(all)
}

/// What the fields of a class are at first.
fn fields_of(alloc: Global, program: &Resolved, class: usize) -> Result<Values, NoMemory>
    ensures { IfOk result (λ vs. vs ≡ class_fields (slice_get (resolved_tree program.now).classes class)) }
{
    match program.classes.get(class) {
        None => Ok(Values::new(alloc)),
        Some(it) => zeros(alloc, it.fields.as_slice()),
    }
}

fn is_new(ask: &Ask, class: usize, fields: &Values) -> bool
    ensures { IsTrue result ↔ (asks.New (shapes.Class class fields.now) ≡ ask.now) }
{
    match ask {
        Ask::New {
            shape: Shape::Class {
                class: c,
                fields: f,
            },
        } => *c as usize == class && fields.same(f),
        _ => false,
    }
}

fn is_spawn(ask: &Ask, function: usize, args: &Values, caps: &Caps) -> bool
    ensures { IsTrue result ↔ (asks.Spawn function args.now caps.now ≡ ask.now) }
{
    match ask {
        Ask::Spawn {
            unit,
            args: a,
            caps: k,
        } => *unit as usize == function && args.same(a) && caps.same(k),
        _ => false,
    }
}

fn is_enter(ask: &Ask, label: &Label, caps: &Caps, number: usize, args: &Values) -> bool
    ensures { IsTrue result ↔ (asks.Enter label.now caps.now number args.now ≡ ask.now) }
{
    match ask {
        Ask::Enter {
            label: l,
            caps: k,
            region,
            args: a,
        } => *region as usize == number && same(label, l) && caps.same(k) && args.same(a),
        _ => false,
    }
}

fn is_end(ask: &Ask, outcome: &Outcome) -> bool
    ensures { IsTrue result ↔ (asks.End outcome.now ≡ ask.now) }
{
    match ask {
        Ask::End(o) => same_outcome(outcome, o),
        _ => false,
    }
}

/// Whether an ask is the one at which a walk stands.
///
/// # Errors
///
/// `NoMemory` where memory is refused.
pub fn makes<'a>(
    alloc: Global,
    program: &Resolved,
    w: &Walk<'a>,
    control: &Control<'a>,
    ask: &Ask,
) -> Result<bool, NoMemory>
    ensures { IfOk result (λ b. IsTrue b ↔ (made_by (resolved_tree program.now) control.now (state_of w.now).own ≡ Some ask.now)) }
{
    match control {
        Control::Ask { ask: made, .. } => Ok(same_ask(made, ask)),
        Control::New { class } => {
            let fields = fields_of(alloc, program, *class)?;
            Ok(is_new(ask, *class, &fields))
        }
        Control::Spawn {
            function,
            args,
            caps,
        } => Ok(is_spawn(ask, *function, args, caps)),
        Control::Enter {
            label,
            caps,
            region,
            ..
        } => {
            let args = captured(alloc, &w.locals, region.captures)?;
            Ok(is_enter(ask, label, caps, region.number, &args))
        }
        Control::End(outcome) => Ok(is_end(ask, outcome)),
        _ => Ok(false),
    }
}
