//! The meet of two descriptions where paths join.

ghost use Rattle.std.specs.Prelude.{◌≡◌, Some, length, IsFalse};
ghost use Rattle.guarded_code.specs.Descriptions.{met_kind, met_known, met_copies, met_operand, met_lists};

use crate::packed::PackedKnown;
use guarded_code::{Known, Operand, ValueKind};

/// The kind of both, where they have one.
fn met_kind(a: ValueKind, b: ValueKind) -> ValueKind
    ensures { result ≡ met_kind a b }
{
    match a {
        ValueKind::Number => match b {
            ValueKind::Number => ValueKind::Number,
            _ => ValueKind::Unknown,
        },
        ValueKind::Truth => match b {
            ValueKind::Truth => ValueKind::Truth,
            _ => ValueKind::Unknown,
        },
        ValueKind::Other => match b {
            ValueKind::Other => ValueKind::Other,
            _ => ValueKind::Unknown,
        },
        ValueKind::Unknown => ValueKind::Unknown,
    }
}

/// What both say of a value.
fn met_known(a: Known, b: Known) -> Known
    ensures { result ≡ met_known a b }
{
    Known {
        kind: met_kind(a.kind, b.kind),
        read: a.read && b.read,
        write: a.write && b.write,
    }
}

/// The local that both are a copy of.
fn met_copies(a: Option<u32>, b: Option<u32>) -> Option<u32>
    ensures { result ≡ met_copies a b }
{
    match a {
        None => None,
        Some(n) => match b {
            None => None,
            Some(m) => if n == m { Some(n) } else { None },
        },
    }
}

fn met_operand(a: Operand, b: Operand) -> Operand
    ensures { result ≡ met_operand a b }
{
    Operand {
        known: met_known(a.known, b.known),
        copies: met_copies(a.copies, b.copies),
    }
}

/// What both say of a local. Where they say the same, nothing is unpacked.
#[tactic(auto, using(crate::proofs::Meets::known_same))]
fn met_packed(a: PackedKnown, b: PackedKnown) -> PackedKnown
    ensures { result ≡ met_known a b }
{
    if a.is_same(b) {
        a
    } else {
        PackedKnown::of(met_known(a.known(), b.known()))
    }
}

/// Lowers what is known of locals to what both lists say, and tells whether that changed any.
pub fn meet_locals(a: &mut Vec<PackedKnown>, b: &Vec<PackedKnown>) -> bool
    requires { length a.old.items ≡ length b.now.items }
    ensures met { met_lists met_known a.old.items b.now.items ≡ Some a.new.items }
    ensures same { IsFalse result → a.new.items ≡ a.old.items }
{
    let mut changed = false;
    for i in 0..a.len() {
        let old = a[i];
        let met = met_packed(old, b[i]);
        if !met.is_same(old) {
            a[i] = met;
            changed = true;
        }
    }
    changed
}

/// The same of operands.
pub fn meet_stacks(a: &mut Vec<Operand>, b: &Vec<Operand>) -> bool
    requires { length a.old.items ≡ length b.now.items }
    ensures met { met_lists met_operand a.old.items b.now.items ≡ Some a.new.items }
    ensures same { IsFalse result → a.new.items ≡ a.old.items }
{
    let mut changed = false;
    for i in 0..a.len() {
        let old = a[i];
        let met = met_operand(old, b[i]);
        changed = changed || met != old;
        a[i] = met;
    }
    changed
}
