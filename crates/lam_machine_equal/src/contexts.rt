//! Equality of two contexts.

ghost use Rattle.std.specs.Prelude.{◌≡◌, ◌↔◌, IsTrue, length};
ghost use Rattle.thread_core_state.specs.Seen.{phase_of};

use crate::outcomes::same_fault;
use flow_labels::same;
use lam_value::Name;
use thread_core_state::{Context, Frame, Phase};

/// Whether two lists have equal contexts, place by place.
pub(crate) fn same_contexts(a: &[Context], b: &[Context]) -> bool
    ensures { IsTrue result ↔ (a.now ≡ b.now) }
{
    a.len() == b.len() && contexts_begin_alike(a, b)
}

fn contexts_begin_alike(a: &[Context], b: &[Context]) -> bool
    requires { length a.now ≡ length b.now }
    ensures { IsTrue result ↔ (a.now ≡ b.now) }
{
    for at in 0..a.len() {
        if !same_context(&a[at], &b[at]) {
            return false;
        }
    }
    true
}

/// Whether two contexts are equal, with the calls that are open in them. Takes no memory.
pub fn same_context(a: &Context, b: &Context) -> bool
    ensures { IsTrue result ↔ (a.now ≡ b.now) }
{
    same_bounds(a, b) && same_rest(a, b)
}

/// Whether two contexts have the same label, capabilities, depth and phase.
fn same_bounds(a: &Context, b: &Context) -> bool
    ensures { IsTrue result ↔ ((a.now.label ≡ b.now.label) × ((a.now.caps ≡ b.now.caps) × ((a.now.depth ≡ b.now.depth) × (a.now.phase ≡ b.now.phase)))) }
{
    same(a.label(), b.label())
        && a.caps().same(b.caps())
        && a.depth() == b.depth()
        && same_phase(a.phase(), b.phase())
}

fn same_phase(a: Phase, b: Phase) -> bool
    ensures { IsTrue result ↔ (phase_of a ≡ phase_of b) }
{
    match a {
        Phase::Bottom => matches!(b, Phase::Bottom),
        Phase::Body { catch_at: x } => matches!(b, Phase::Body { catch_at: y } if x == y),
        Phase::Catch => matches!(b, Phase::Catch),
    }
}

/// Whether two contexts took the same monitors, and have the same inside.
fn same_rest(a: &Context, b: &Context) -> bool
    ensures { IsTrue result ↔ ((a.now.held ≡ b.now.held) × (a.now.inside ≡ b.now.inside)) }
{
    same_held(a, b) && same_inside(a, b)
}

fn same_held(a: &Context, b: &Context) -> bool
    ensures { IsTrue result ↔ (a.now.held ≡ b.now.held) }
{
    same_names(a.held(), b.held())
}

/// Whether two lists have equal names, place by place.
fn same_names(a: &[Name], b: &[Name]) -> bool
    ensures { IsTrue result ↔ (a.now ≡ b.now) }
{
    a.len() == b.len() && names_begin_alike(a, b)
}

fn names_begin_alike(a: &[Name], b: &[Name]) -> bool
    requires { length a.now ≡ length b.now }
    ensures { IsTrue result ↔ (a.now ≡ b.now) }
{
    for at in 0..a.len() {
        if !a[at].same(&b[at]) {
            return false;
        }
    }
    true
}

/// Whether two contexts have equal calls and the same fault.
fn same_inside(a: &Context, b: &Context) -> bool
    ensures { IsTrue result ↔ (a.now.inside ≡ b.now.inside) }
{
    same_calls(a, b) && same_raised(a, b)
}

/// Whether two contexts have equal calls: the acting one, and those that wait.
fn same_calls(a: &Context, b: &Context) -> bool
    ensures { IsTrue result ↔ ((a.now.inside.frame ≡ b.now.inside.frame) × (a.now.inside.callers ≡ b.now.inside.callers)) }
{
    same_acting(a, b) && same_callers(a, b)
}

/// Whether the acting calls of two contexts are equal.
fn same_acting(a: &Context, b: &Context) -> bool
    ensures { IsTrue result ↔ (a.now.inside.frame ≡ b.now.inside.frame) }
{
    a.unit == b.unit && a.at == b.at && a.locals.same(&b.locals) && a.stack.same(&b.stack)
}

fn same_callers(a: &Context, b: &Context) -> bool
    ensures { IsTrue result ↔ (a.now.inside.callers ≡ b.now.inside.callers) }
{
    same_frames(a.callers.as_slice(), b.callers.as_slice())
}

/// Whether two contexts have the same fault that is not handled yet, or none.
fn same_raised(a: &Context, b: &Context) -> bool
    ensures { IsTrue result ↔ (a.now.inside.fault ≡ b.now.inside.fault) }
{
    same_fault(a.fault, b.fault)
}

/// Whether two lists have equal calls that wait, place by place.
fn same_frames(a: &[Frame], b: &[Frame]) -> bool
    ensures { IsTrue result ↔ (a.now ≡ b.now) }
{
    a.len() == b.len() && frames_begin_alike(a, b)
}

fn frames_begin_alike(a: &[Frame], b: &[Frame]) -> bool
    requires { length a.now ≡ length b.now }
    ensures { IsTrue result ↔ (a.now ≡ b.now) }
{
    for at in 0..a.len() {
        if !a[at].same(&b[at]) {
            return false;
        }
    }
    true
}
