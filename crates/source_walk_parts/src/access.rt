//! Accesses to fields and elements, with their tests: null, label rule, index.

ghost use Rattle.std.specs.Prelude.{◌≡◌, IfOk};
ghost use Rattle.lam_asks.specs.declared.ask.Ask.TheVariants as ask;
ghost use Rattle.thread_core_effects.specs.Fitting.{place_in};
ghost use Rattle.lam_resolve_tree.specs.Tree.{ResolvedTree};
ghost use Rattle.lam_meaning.specs.Trees.{asked, ask_value, ask_unit};
ghost use Rattle.source_walk_state.specs.Meaning.{sort_seen, valued};
ghost use Rattle.source_walk_state.specs.declared.Sort.TheVariants as sorts;
ghost use Rattle.source_walk_state.specs.declared.Reply.TheVariants as replies;
ghost use Rattle.source_walk_state.specs.declared.Frame.TheVariants as frames;
ghost use Rattle.source_walk_state.specs.declared.Control.TheVariants as controls;
ghost use Rattle.source_walk_parts.specs.States.{state_of, IsWaiting, IsLeft};
ghost use Rattle.source_walk_parts.specs.Accesses.{barred_by, field_access, element_access, at_index, access_tree};

use crate::walk::{Walk, push};
use flow_labels::{Denied, Label, read_rule, write_rule};
use lam_asks::{Ask, Fault};
use lam_value::{Name, Value};
use source_walk_state::{Control, Frame, Reply, Sort};
use want_of_memory::NoMemory;

/// Which way an access goes.
#[derive(Clone, Copy)]
pub enum Way {
    Reads,
    Writes,
}

/// How an access goes on.
#[derive(Drop)]
pub enum Access {
    /// At a place of a thing, by its reference.
    Reaches { r: Value, at: u64 },
    /// A rule forbids it.
    Bars(Denied),
    Raises(Fault),
    /// An operand is of another kind.
    Breaks,
}

/// The first rule that forbids an access to a thing.
fn barred_by(way: Way, label: &Label, name: &Name) -> Option<Denied>
    ensures { result ≡ barred_by way label.now name.now }
{
    match way {
        Way::Reads => read_rule(label, name.own()),
        Way::Writes => write_rule(label, name.own()),
    }
}

/// An access to a field of an object.
pub fn field_access(way: Way, label: &Label, object: Value, at: usize) -> Access
    ensures { result ≡ field_access way label.now object at }
{
    match object {
        Value::Obj(name) => match barred_by(way, label, &name) {
            None => Access::Reaches {
                r: Value::Obj(name),
                at: at as u64,
            },
            Some(denied) => Access::Bars(denied),
        },
        Value::Nothing => Access::Raises(Fault::Null),
        _ => Access::Breaks,
    }
}

/// The place within a length that a number is.
fn place_of(i: i64, len: u64) -> Option<u64>
    ensures { result ≡ place_in i len }
{
    if i < 0 {
        return None;
    }
    let at = i as u64;
    if at < len { Some(at) } else { None }
}

/// An access that no rule forbids, to an element of an array.
fn at_index(name: Name, len: u64, index: &Value) -> Access
    ensures { result ≡ at_index name len index.now }
{
    match index {
        Value::Int(i) => match place_of(*i, len) {
            None => Access::Raises(Fault::Index),
            Some(at) => Access::Reaches {
                r: Value::Arr { name, len },
                at,
            },
        },
        _ => Access::Breaks,
    }
}

/// An access to an element of an array.
pub fn element_access(way: Way, label: &Label, array: Value, index: &Value) -> Access
    ensures { result ≡ element_access way label.now array index.now }
{
    match array {
        Value::Arr { name, len } => match barred_by(way, label, &name) {
            None => at_index(name, len, index),
            Some(denied) => Access::Bars(denied),
        },
        Value::Nothing => Access::Raises(Fault::Null),
        _ => Access::Breaks,
    }
}

/// Tells of a rule that forbids an access. When that is done the fault is raised.
fn bar<'a>(w: &mut Walk<'a>, denied: Denied) -> Result<Control<'a>, NoMemory>
    ensures { IfOk result (λ c. IsWaiting (controls.Ask (ask.Barred denied) sorts.Number replies.Done) frames.Bar (state_of w.old) c (state_of w.new)) }
{
    push(w, Frame::Bar)?;
    Ok(Control::Ask {
        ask: Ask::Barred(denied),
        sort: Sort::Number,
        reply: Reply::Done,
    })
}

/// Goes on with an access that reads a value of a sort.
///
/// # Errors
///
/// `NoMemory` where memory is refused.
pub fn reads<'a>(w: &mut Walk<'a>, access: Access, sort: Sort) -> Result<Control<'a>, NoMemory>
    ensures { IfOk result (λ c. (r : ResolvedTree) → IsLeft r (access_tree access (state_of w.old).units (state_of w.old).own (λ x at. ask_value (asked (sort_seen sort) (ask.Read x at)) (state_of w.old).units (state_of w.old).own)) 1 (state_of w.old) c (state_of w.new)) }
{
    match access {
        Access::Reaches { r, at } => Ok(Control::Ask {
            ask: Ask::Read { r, at },
            sort,
            reply: Reply::Value,
        }),
        Access::Bars(denied) => bar(w, denied),
        Access::Raises(fault) => Ok(Control::Raise(fault)),
        Access::Breaks => Ok(Control::Broken),
    }
}

/// Goes on with an access that writes a value.
///
/// # Errors
///
/// `NoMemory` where memory is refused.
pub fn writes<'a>(w: &mut Walk<'a>, access: Access, v: Value) -> Result<Control<'a>, NoMemory>
    ensures { IfOk result (λ c. (r : ResolvedTree) → IsLeft r (valued (access_tree access (state_of w.old).units (state_of w.old).own (λ x at. ask_unit (ask.Write x at v) (state_of w.old).units (state_of w.old).own))) 1 (state_of w.old) c (state_of w.new)) }
{
    match access {
        Access::Reaches { r, at } => Ok(Control::Ask {
            ask: Ask::Write { r, at, v },
            sort: Sort::Number,
            reply: Reply::Done,
        }),
        Access::Bars(denied) => bar(w, denied),
        Access::Raises(fault) => Ok(Control::Raise(fault)),
        Access::Breaks => Ok(Control::Broken),
    }
}
