//! The taking of an answer into a walk.

ghost use Rattle.std.specs.Prelude.{◌≡◌, true, Some, IfOk, OnOk};
ghost use Rattle.capabilities.specs.Changes.{with_both, joined};
ghost use Rattle.lam_value.specs.declared.values.Value.TheVariants.{Nothing as null};
ghost use Rattle.lam_asks.specs.Suits.{suits};
ghost use Rattle.lam_resolve_tree.specs.Tree.{ResolvedTree};
ghost use Rattle.lam_meaning.specs.Trees.{with_caps, gained, value_reply, nothing_gained, done_reply, on_end};
ghost use Rattle.lam_meaning.specs.Means.{enter_reply};
ghost use Rattle.source_walk_state.specs.Meaning.{sort_seen, replied, after, valued, region_locals, entered};
ghost use Rattle.source_walk_parts.specs.States.{State, state_of, with_own, left_at};
ghost use Rattle.source_walk_follow.specs.Standing.{made_by, place_sort, GoesOn};

use capabilities::Caps;
use flow_labels::{Label, TagId, TagSet};
use lam_asks::{Answer, Ask, Fault};
use lam_value::Value;
use source_walk_parts::{Walk, begin_region, captured, padded, push, suits};
use source_walk_state::{BeforeRegion, Control, Frame, Region, Reply, Sort};
use std::alloc::Global;
use std::mem::replace;
use want_of_memory::NoMemory;

/// Capabilities join those of the context.
fn join_caps(w: &mut Walk<'_>, plus: &TagSet, minus: &TagSet) -> Result<(), NoMemory>
    ensures { OnOk result (state_of w.new ≡ with_own (state_of w.old) (with_caps (state_of w.old).own (joined (state_of w.old).own.caps (record { plus = plus.now; minus = minus.now })))) }
{
    let plus = w.caps.plus.union(plus)?;
    let minus = w.caps.minus.union(minus)?;
    drop(replace(&mut w.caps, Caps { plus, minus }));
    Ok(())
}

/// A minted tag brings both of its capabilities.
fn mint_caps(w: &mut Walk<'_>, tag: TagId) -> Result<(), NoMemory>
    ensures { OnOk result (state_of w.new ≡ with_own (state_of w.old) (with_caps (state_of w.old).own (with_both (state_of w.old).own.caps tag))) }
{
    let caps = w.caps.with_both(tag)?;
    drop(replace(&mut w.caps, caps));
    Ok(())
}

/// What an answer's value brings to the context.
fn gain(w: &mut Walk<'_>, ask: &Ask, v: &Value) -> Result<(), NoMemory>
    ensures { OnOk result (state_of w.new ≡ with_own (state_of w.old) (gained ask.now v.now (state_of w.old).own)) }
{
    match ask {
        Ask::Mint => match v {
            Value::Tag(tag) => mint_caps(w, *tag),
            _ => Ok(()),
        },
        Ask::ReceiveCaps { .. } => match v {
            Value::CapV { plus, minus } => join_caps(w, plus, minus),
            _ => Ok(()),
        },
        _ => Ok(()),
    }
}

/// With the value of an answer, and what it brings.
fn with_value<'a>(w: &mut Walk<'a>, ask: &Ask, answer: &Answer) -> Result<Control<'a>, NoMemory>
    ensures { IfOk result (λ d. (r : ResolvedTree) → left_at r d (state_of w.new) ≡ on_end (value_reply (gained ask.now) (state_of w.old).units (state_of w.old).own answer.now) (after r (state_of w.old).frames (state_of w.old).place)) }
{
    match answer {
        Answer::Val(v) => {
            gain(w, ask, v)?;
            Ok(Control::Give(v.copy()?))
        }
        Answer::Refused(_) => Ok(Control::Raise(Fault::Denied)),
        Answer::Failed(fault) => Ok(Control::Raise(*fault)),
        Answer::Done => Ok(Control::Broken),
        Answer::Entered => Ok(Control::Broken),
    }
}

/// With the value of an answer, which brings nothing.
fn with_given<'a>(answer: &Answer) -> Result<Control<'a>, NoMemory>
    ensures { IfOk result (λ d. (r : ResolvedTree) (s : State) → left_at r d s ≡ on_end (value_reply nothing_gained s.units s.own answer.now) (after r s.frames s.place)) }
{
    match answer {
        Answer::Val(v) => Ok(Control::Give(v.copy()?)),
        Answer::Refused(_) => Ok(Control::Raise(Fault::Denied)),
        Answer::Failed(fault) => Ok(Control::Raise(*fault)),
        Answer::Done => Ok(Control::Broken),
        Answer::Entered => Ok(Control::Broken),
    }
}

/// With null, where it is done.
fn with_nothing<'a>(answer: &Answer) -> Control<'a>
    ensures { (r : ResolvedTree) (s : State) → left_at r result s ≡ on_end (done_reply null s.units s.own answer.now) (after r s.frames s.place) }
{
    match answer {
        Answer::Done => Control::Give(Value::Nothing),
        Answer::Refused(_) => Control::Raise(Fault::Denied),
        Answer::Failed(fault) => Control::Raise(*fault),
        Answer::Val(_) => Control::Broken,
        Answer::Entered => Control::Broken,
    }
}

fn with_reply<'a>(
    w: &mut Walk<'a>,
    reply: Reply,
    ask: &Ask,
    answer: &Answer,
) -> Result<Control<'a>, NoMemory>
    ensures { IfOk result (λ d. (r : ResolvedTree) → left_at r d (state_of w.new) ≡ on_end (replied ask.now reply (state_of w.old).units (state_of w.old).own answer.now) (after r (state_of w.old).frames (state_of w.old).place)) }
{
    match reply {
        Reply::Value => with_value(w, ask, answer),
        Reply::Done => Ok(with_nothing(answer)),
    }
}

/// The body of a region, which was entered.
fn enter<'a>(
    alloc: Global,
    w: &mut Walk<'a>,
    depth: u64,
    label: &Label,
    caps: &Caps,
    region: Region<'a>,
) -> Result<Control<'a>, NoMemory>
    ensures { IfOk result (λ d. (r : ResolvedTree) → left_at r d (state_of w.new) ≡ on_end (valued (entered r depth label.now caps.now region.entry (region_locals (state_of w.old).own region.entry) (state_of w.old).units (state_of w.old).own)) (after r (state_of w.old).frames (state_of w.old).place)) }
{
    let label = label.copy()?;
    let caps = caps.copy()?;
    let args = captured(alloc, &w.locals, region.captures)?;
    let locals = padded(args, region.slots)?;
    let outside = begin_region(w, label, caps, locals);
    let before = BeforeRegion::Body(outside);
    push(
        w,
        Frame::Region {
            depth,
            region,
            before,
        },
    )?;
    let rest = region.body;
    Ok(Control::Block { depth, rest })
}

fn with_region<'a>(
    alloc: Global,
    w: &mut Walk<'a>,
    depth: u64,
    label: &Label,
    caps: &Caps,
    region: Region<'a>,
    answer: &Answer,
) -> Result<Control<'a>, NoMemory>
    ensures { IfOk result (λ d. (r : ResolvedTree) → left_at r d (state_of w.new) ≡ on_end (valued (enter_reply (entered r depth label.now caps.now region.entry (region_locals (state_of w.old).own region.entry) (state_of w.old).units (state_of w.old).own) (state_of w.old).units (state_of w.old).own answer.now)) (after r (state_of w.old).frames (state_of w.old).place)) }
{
    match answer {
        Answer::Entered => enter(alloc, w, depth, label, caps, region),
        Answer::Refused(_) => Ok(Control::Raise(Fault::Denied)),
        Answer::Failed(fault) => Ok(Control::Raise(*fault)),
        Answer::Val(_) => Ok(Control::Broken),
        Answer::Done => Ok(Control::Broken),
    }
}

/// The sort of value that the place of an ask wants.
fn sort_at(control: &Control<'_>) -> Sort
    ensures { result ≡ place_sort control.now }
{
    match control {
        Control::Ask { sort, .. } => *sort,
        _ => Sort::Number,
    }
}

/// A walk goes on with an answer that suits the ask at which it stands.
fn go_on<'a>(
    alloc: Global,
    w: &mut Walk<'a>,
    control: &Control<'a>,
    ask: &Ask,
    answer: &Answer,
) -> Result<Control<'a>, NoMemory>
    requires { suits (sort_seen (place_sort control.now)) ask.now answer.now ≡ true }
    ensures { IfOk result (λ d. (r : ResolvedTree) → made_by r control.now (state_of w.old).own ≡ Some ask.now → GoesOn r control.now (state_of w.old) ask.now answer.now d (state_of w.new)) }
{
    match control {
        Control::Ask { reply, .. } => with_reply(w, *reply, ask, answer),
        Control::New { .. } => with_given(answer),
        Control::Spawn { .. } => with_given(answer),
        Control::Enter {
            depth,
            label,
            caps,
            region,
        } => with_region(alloc, w, *depth, label, caps, *region, answer),
        Control::End(_) => Ok(Control::Over),
        _ => Ok(Control::Broken),
    }
}

/// A walk goes on with the answer to the ask at which it stands. An answer that does not suit ends the asks.
///
/// # Errors
///
/// `NoMemory` where memory is refused.
pub fn answered<'a>(
    alloc: Global,
    w: &mut Walk<'a>,
    control: &Control<'a>,
    ask: &Ask,
    answer: &Answer,
) -> Result<Control<'a>, NoMemory>
    ensures { IfOk result (λ d. (r : ResolvedTree) → made_by r control.now (state_of w.old).own ≡ Some ask.now → GoesOn r control.now (state_of w.old) ask.now answer.now d (state_of w.new)) }
{
    let sort = sort_at(control);
    if suits(sort, ask, answer) {
        go_on(alloc, w, control, ask, answer)
    } else {
        Ok(Control::Broken)
    }
}
