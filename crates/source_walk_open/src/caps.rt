//! The control of `caps`: its tags, taken from the slots one after another.

ghost use Rattle.std.specs.Prelude.{◌≡◌, IfOk};
ghost use Rattle.lam_value.specs.declared.values.Value.TheVariants as value;
ghost use Rattle.capabilities.specs.Changes.{no_caps};
ghost use Rattle.lam_resolve_tree.specs.Tree.{cap_tree, caps_tree};
ghost use Rattle.source_walk_state.specs.declared.Control.TheVariants as controls;
ghost use Rattle.source_walk_open.specs.Signed.{with_item, with_items};

use capabilities::Caps;
use lam_resolve_tree::CapItem;
use lam_value::{Value, Values};
use source_walk_parts::{local_of, signed};
use source_walk_state::Control;
use std::alloc::Global;
use want_of_memory::NoMemory;

/// One more tag, behind the control that those before it made.
fn one_more<'a>(
    alloc: Global,
    locals: &Values,
    control: Control<'a>,
    item: CapItem,
) -> Result<Control<'a>, NoMemory>
    ensures { IfOk result (λ c. c ≡ with_item control.entry locals.now (cap_tree item)) }
{
    match control {
        Control::Give(caps) => {
            let tag = local_of(locals, item.slot)?;
            signed(alloc, item.plus, &caps, &tag)
        }
        _ => Ok(control),
    }
}

/// The capabilities of `+` or `-` behind each tag, from left to right.
///
/// # Errors
///
/// `NoMemory` where memory is refused.
pub fn capabilities<'a>(
    alloc: Global,
    locals: &Values,
    items: &[CapItem],
) -> Result<Control<'a>, NoMemory>
    ensures { IfOk result (λ c. c ≡ with_items (controls.Give (value.CapV no_caps.plus no_caps.minus)) locals.now (caps_tree items.now)) }
{
    let Caps { plus, minus } = Caps::none(alloc);
    let mut control = Control::Give(Value::CapV { plus, minus });
    for item in items {
        control = one_more(alloc, locals, control, *item)?;
    }
    Ok(control)
}
