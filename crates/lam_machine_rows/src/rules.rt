//! Tests of more than one rule, of limits and of references.
//!
//! Where a rule asks for capabilities, the public ones count beside those of the context.

ghost use Rattle.std.specs.Prelude.{◌≡◌, ◌++◌};
ghost use Rattle.std.specs.Option.{option_copied};
ghost use Rattle.flow_labels.specs.Flow.{public_label};
ghost use Rattle.flow_labels.specs.Failing.{first_failing, read_test, write_test, same_test};
ghost use Rattle.capabilities.specs.Changes.{joined, change_test, covers_test};
ghost use Rattle.lam_machine_effects.specs.Serves.{full};
ghost use Rattle.lam_machine_rows.specs.Rows.{thing_of};

use capabilities::Caps;
use flow_labels::{Denied, Label, read_rule, same_rule, write_rule};
use lam_asks::Fault;
use lam_value::{Name, Value};

/// The name in a reference to an object or an array.
pub fn thing_of(r: &Value) -> Option<&Name>
    ensures { option_copied result ≡ thing_of r.now }
{
    match r {
        Value::Obj(name) => Some(name),
        Value::Arr { name, .. } => Some(name),
        _ => None,
    }
}

/// A fault where there is no room for one more.
pub fn full(count: u64, limit: u64, fault: Fault) -> Option<Fault>
    ensures { result ≡ full count limit fault }
{
    if count < limit { None } else { Some(fault) }
}

/// A thing at the label x is copied, and the copy has the label `own`.
pub fn copy_rule(p: &Label, caps: &Caps, public: &Caps, x: &Label, own: &Label) -> Option<Denied>
    ensures { result ≡ first_failing (read_test p.now x.now ++ (change_test (joined caps.now public.now) x.now own.now ++ change_test (joined caps.now public.now) p.now own.now)) }
{
    read_rule(p, x)
        .or_else(|| caps.change_rule(public, x, own))
        .or_else(|| caps.change_rule(public, p, own))
}

/// A region at the label l is entered with some of the capabilities.
pub fn enter_rule(p: &Label, caps: &Caps, public: &Caps, l: &Label, some: &Caps) -> Option<Denied>
    ensures { result ≡ first_failing (change_test (joined caps.now public.now) p.now l.now ++ covers_test (joined caps.now public.now) some.now) }
{
    caps.change_rule(public, p, l)
        .or_else(|| caps.covers(public, some))
}

/// An entry is made in a directory at the label `dir`, for a new file or directory at the label `own`.
pub fn entry_rule(p: &Label, caps: &Caps, public: &Caps, dir: &Label, own: &Label) -> Option<Denied>
    ensures { result ≡ first_failing (read_test p.now dir.now ++ (write_test p.now dir.now ++ (write_test p.now own.now ++ change_test (joined caps.now public.now) p.now own.now))) }
{
    read_rule(p, dir)
        .or_else(|| write_rule(p, dir))
        .or_else(|| make_rule(p, caps, public, own))
}

/// A pipe at the label l is made.
pub fn make_rule(p: &Label, caps: &Caps, public: &Caps, l: &Label) -> Option<Denied>
    ensures { result ≡ first_failing (write_test p.now l.now ++ change_test (joined caps.now public.now) p.now l.now) }
{
    write_rule(p, l).or_else(|| caps.change_rule(public, p, l))
}

/// An entry is removed from a directory at the label d.
pub fn remove_rule(p: &Label, d: &Label) -> Option<Denied>
    ensures { result ≡ first_failing (read_test p.now d.now ++ write_test p.now d.now) }
{
    read_rule(p, d).or_else(|| write_rule(p, d))
}

/// Capabilities are sent into a pipe at the label x.
pub fn send_rule(p: &Label, caps: &Caps, public: &Caps, x: &Label, some: &Caps) -> Option<Denied>
    ensures { result ≡ first_failing (write_test p.now x.now ++ covers_test (joined caps.now public.now) some.now) }
{
    write_rule(p, x).or_else(|| caps.covers(public, some))
}

/// A thread is started with some of the capabilities.
pub fn spawn_rule(p: &Label, caps: &Caps, public: &Caps, some: &Caps) -> Option<Denied>
    ensures { result ≡ first_failing (same_test p.now public_label ++ covers_test (joined caps.now public.now) some.now) }
{
    let label = Label::public(p.allocator());
    same_rule(p, &label).or_else(|| caps.covers(public, some))
}
