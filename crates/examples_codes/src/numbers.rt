//! The numbers of labels, and the flows between them that are remembered.

use flow_labels::{Label, NoMemory, TagId, TagSet};
use label_table::LabelTable;
use std::alloc::Global;

/// The label whose secrecy has one tag, and whose integrity has none.
fn secret(alloc: Global, tag: TagId) -> Label {
    Label {
        s: TagSet::one(alloc, tag),
        i: TagSet::empty(alloc),
    }
}

/// Gives a secret and what is public their numbers, and says whether that secret has the same one when it comes again.
fn has_one_number(table: &mut LabelTable, alloc: Global) -> Result<bool, NoMemory> {
    let first = table.intern(secret(alloc, TagId(0)))?;
    let second = table.intern(Label::public(alloc))?;
    let third = table.intern(secret(alloc, TagId(0)))?;
    Ok((third == first) & (second != first))
}

/// Whether the first label flows to the second, by their numbers.
fn flow(table: &mut LabelTable, from: &Label, to: &Label) -> Option<bool> {
    let from = table.find(from)?;
    let to = table.find(to)?;
    Some(table.flows(from, to))
}

/// Whether what is public flows to a secret, and not the other way.
fn only_up(table: &mut LabelTable, low: &Label, high: &Label) -> Option<bool> {
    let up = flow(table, low, high)?;
    let down = flow(table, high, low)?;
    Some(up & !down)
}

/// Whether that what is public flows to a secret is the one answer that is remembered.
fn is_remembered(table: &LabelTable, low: &Label, high: &Label) -> Option<bool> {
    let low = table.find(low)?;
    let high = table.find(high)?;
    let up = table.recall(low, high) == Some(true);
    Some(up & table.recall(high, low).is_none() & (table.remembered() == 1))
}

/// Whether the number of a label is that of an equal label.
fn names_its_own(table: &LabelTable, label: &Label) -> Option<bool> {
    let number = table.find(label)?;
    Some(*table.label(number) == *label)
}

/// Asks of two labels both ways, and once more.
fn asked_twice(table: &mut LabelTable, low: &Label, high: &Label) -> Option<bool> {
    let once = only_up(table, low, high)?;
    let again = only_up(table, low, high)?;
    Some(once & again & is_remembered(table, low, high)?)
}

/// Asks of what is public and of a secret.
fn public_and_secret(table: &mut LabelTable, alloc: Global) -> Option<bool> {
    let low = Label::public(alloc);
    let high = secret(alloc, TagId(0));
    let own = names_its_own(table, &low)? & names_its_own(table, &high)?;
    Some(own & asked_twice(table, &low, &high)?)
}

/// Whether a secret that never came has no number.
fn has_none(table: &LabelTable, alloc: Global) -> bool {
    let other = secret(alloc, TagId(1));
    table.find(&other).is_none()
}

/// Makes room for one pair, and asks.
fn asked_in(table: &mut LabelTable, alloc: Global) -> Option<bool> {
    table.remember(1).ok()?;
    let one = has_one_number(table, alloc).ok()?;
    let flows = public_and_secret(table, alloc)?;
    Some(one & flows & has_none(table, alloc))
}

/// Whether all that is so in a new table.
fn asked_anew(alloc: Global) -> Option<bool> {
    let mut table = LabelTable::new(alloc);
    asked_in(&mut table, alloc)
}

/// A label that comes again has the number that it got, which gives an equal label. The first pair that is asked takes the
/// room that there is.
#[test]
fn interned_label_has_one_number(rt: HostRuntime) {
    assert!(rt; asked_anew(rt.alloc()) == Some(true));
}
