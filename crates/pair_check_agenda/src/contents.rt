//! Equality of two contents of releases.

ghost use Rattle.std.specs.Prelude.{◌≡◌, ◌↔◌, IsTrue};
ghost use Rattle.audit_log_notes.specs.declared.Content.TheVariants as content;

use audit_log_notes::Content;
use capabilities::Caps;
use flow_labels::{Label, same};
use lam_value::{Value, Values, same_value};

/// Whether two contents are equal.
pub(crate) fn same_content(a: &Content, b: &Content) -> bool
    ensures { IsTrue result ↔ (a.now ≡ b.now) }
{
    match a {
        Content::Context {
            label,
            caps,
            depth,
            region,
            args,
        } => is_context(b, label, caps, *depth, *region, args),
        Content::Thing { name, slots } => is_thing(b, name, slots),
    }
}

fn is_context(
    b: &Content,
    label: &Label,
    caps: &Caps,
    depth: u32,
    region: u32,
    args: &Values,
) -> bool
    ensures { IsTrue result ↔ (content.Context label.now caps.now depth region args.now ≡ b.now) }
{
    match b {
        Content::Context {
            label: x,
            caps: y,
            depth: z,
            region: r,
            args: w,
        } => same(label, x) && caps.same(y) && depth == *z && region == *r && args.same(w),
        _ => false,
    }
}

fn is_thing(b: &Content, name: &Value, slots: &Values) -> bool
    ensures { IsTrue result ↔ (content.Thing name.now slots.now ≡ b.now) }
{
    match b {
        Content::Thing { name: x, slots: y } => same_value(name, x) && slots.same(y),
        _ => false,
    }
}
