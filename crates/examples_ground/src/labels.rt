//! Labels: each call once on its happy path, and the printed texts.

use flow_labels::{
    Denied, Form, Label, LabelFault, NameFault, Rule, TagNames, bad_place, flows, label_form,
    label_text, mint_rule, parse_label, push_label, read_rule, read_sets, rule_text, same_names,
    same_rule, seen, sets_text, tag_text, write_rule,
};
use std::alloc::Global;
use tag_sets::{NoMemory, TagId, TagSet};

/// Adds the names of the tags 0, 1 and 2.
fn add_three(names: &mut TagNames) -> Result<(), NameFault> {
    names.add("a")?;
    names.add("b")?;
    names.add("t")?;
    Ok(())
}

/// The names `a`, `b` and `t`.
fn three_names(alloc: Global) -> Result<TagNames, NameFault> {
    let mut names = TagNames::new(alloc);
    add_three(&mut names)?;
    Ok(names)
}

/// The same, where memory is not wanting.
pub(crate) fn known_names(alloc: Global) -> Option<TagNames> {
    three_names(alloc).ok()
}

/// Whether tags are found by their names, and a name by its tag.
fn are_found(names: &TagNames) -> bool {
    let text = names.find("t") == Some(TagId(2));
    let bytes = names.find_bytes(b"b") == Some(TagId(1));
    text & bytes & (names.name(TagId(1)).unwrap_or("?") == "b")
}

/// Whether tags are found in the copy of names.
fn copy_is_found(names: &TagNames) -> Result<bool, NameFault> {
    let copy = names.copy()?;
    Ok(are_found(&copy))
}

/// Whether copied names are found.
fn copies_are_found(alloc: Global) -> Result<bool, NameFault> {
    let names = three_names(alloc)?;
    copy_is_found(&names)
}

#[test]
fn names_are_kept(rt: HostRuntime) {
    assert!(rt; copies_are_found(rt.alloc()) == Ok(true));
}

/// Whether names are those of a copy until one is added.
fn are_those_of(names: &mut TagNames, copy: &TagNames) -> Result<bool, NameFault> {
    let before = same_names(names, copy);
    names.add("c")?;
    Ok(before & !same_names(names, copy))
}

/// Whether names are those of their copy until one is added.
fn are_copied(names: &mut TagNames) -> Result<bool, NameFault> {
    let copy = names.copy()?;
    are_those_of(names, &copy)
}

/// Whether three names are copied.
fn three_are_copied(alloc: Global) -> Result<bool, NameFault> {
    let mut names = three_names(alloc)?;
    are_copied(&mut names)
}

#[test]
fn copied_names_are_the_same(rt: HostRuntime) {
    assert!(rt; three_are_copied(rt.alloc()) == Ok(true));
}

/// Whether a label has this text.
fn has_text(label: &Label, names: &TagNames, want: &str) -> Result<bool, NoMemory> {
    let text = label_text(label, names)?;
    Ok(text.as_str() == want)
}

/// Whether a label's text is put after another.
fn is_pushed(label: &Label, names: &TagNames) -> Result<bool, NoMemory> {
    let mut text = String::from_str(names.allocator(), "at ")?;
    push_label(&mut text, label, names)?;
    Ok(text.as_str() == "at {a,b}/{t}")
}

/// Whether a tag without a name has its number for a text.
fn is_numbered(names: &TagNames) -> Result<bool, NoMemory> {
    let text = tag_text(TagId(12), names)?;
    Ok(text.as_str() == "#12")
}

/// Whether a label is written without names.
fn is_bare(label: &Label, alloc: Global) -> Result<bool, NoMemory> {
    let none = TagNames::new(alloc);
    has_text(label, &none, "{#0,#1}/{#2}")
}

/// Whether a label is written with names and without, and a tag without a name.
fn is_written(label: &Label, names: &TagNames) -> Result<bool, NoMemory> {
    let text = is_bare(label, names.allocator())? & has_text(label, names, "{a,b}/{t}")?;
    Ok(text & is_pushed(label, names)? & is_numbered(names)?)
}

/// Whether the copy of a label is written.
fn copy_is_written(label: &Label, names: &TagNames) -> Result<bool, NoMemory> {
    let copy = label.copy()?;
    is_written(&copy, names)
}

/// Whether the copy of a label that was read is written.
fn is_read_and_written(names: &TagNames) -> Option<bool> {
    let label = parse_label("{b,a,b}/{t}", names).ok()?;
    copy_is_written(&label, names).ok()
}

/// Whether a label is written with its names, and a tag without one.
fn are_written(alloc: Global) -> Option<bool> {
    let names = known_names(alloc)?;
    is_read_and_written(&names)
}

#[test]
fn a_label_is_read_and_written(rt: HostRuntime) {
    assert!(rt; are_written(rt.alloc()) == Some(true));
}

/// Whether a text is no label, for this reason.
fn is_refused(text: &str, names: &TagNames, fault: LabelFault) -> bool {
    parse_label(text, names).err() == Some(fault)
}

/// Whether a text of an unknown name and one that is cut off are refused.
fn are_refused(names: &TagNames) -> bool {
    let unknown = is_refused("{a}/{x}", names, LabelFault::NoTag { at: 5 });
    unknown & is_refused("{x}/{a", names, LabelFault::BadLabel { at: 6 })
}

/// Whether texts are refused where three names are known.
fn are_no_labels(alloc: Global) -> Result<bool, NameFault> {
    let names = three_names(alloc)?;
    Ok(are_refused(&names))
}

#[test]
fn a_text_that_is_no_label(rt: HostRuntime) {
    assert!(rt; are_no_labels(rt.alloc()) == Ok(true));
    assert!(rt; label_form("{x}/{y,z}"));
}

/// Whether two sets are written as this text.
fn are_kept(
    first: &TagSet,
    second: &TagSet,
    text: &str,
    names: &TagNames,
) -> Result<bool, NoMemory> {
    let again = sets_text(Form::Caps, first, second, names)?;
    Ok(again.as_str() == text)
}

/// Whether the text of two sets is read and written as the same text.
fn is_kept(text: &str, names: &TagNames) -> Option<bool> {
    let sets = read_sets(text.as_bytes(), names).ok()?;
    are_kept(&sets.first, &sets.second, text, names).ok()
}

/// Whether the text of two sets is kept where three names are known.
fn marks_are_kept(alloc: Global, text: &str) -> Option<bool> {
    let names = known_names(alloc)?;
    is_kept(text, &names)
}

#[test]
fn capabilities_have_their_own_marks(rt: HostRuntime) {
    let text = "+{a}-{a,b}";
    assert!(rt; bad_place(Form::Caps, text.as_bytes()).is_none());
    assert!(rt; marks_are_kept(rt.alloc(), text) == Some(true));
}

/// Whether a rule forbids, and names tag 0.
fn forbids(denied: Option<Denied>, rule: Rule) -> bool {
    let tag = TagId(0);
    denied == Some(Denied { rule, tag })
}

/// Whether what is public and what has the secrets 0 and 1 are kept apart.
fn are_apart(public: &Label, secret: &Label) -> bool {
    let read = forbids(read_rule(public, secret), Rule::ReadS);
    let written = forbids(write_rule(secret, public), Rule::WriteS);
    read & written & flows(public, secret) & seen(public, secret) & !seen(secret, public)
}

/// Whether what is public forbids nothing.
fn is_free(public: &Label) -> bool {
    mint_rule(public).is_none() & same_rule(public, public).is_none()
}

/// The label `{a,b}/{}`.
fn secret(alloc: Global) -> Option<Label> {
    let names = known_names(alloc)?;
    parse_label("{b,a}/{}", &names).ok()
}

/// Whether what is public forbids nothing, and is kept apart from a secret.
fn public_is_apart(alloc: Global, secret: &Label) -> bool {
    let public = Label::public(alloc);
    are_apart(&public, secret) & is_free(&public)
}

/// Whether the rules name the least tag of a secret.
fn name_least(alloc: Global) -> Option<bool> {
    let secret = secret(alloc)?;
    Some(public_is_apart(alloc, &secret))
}

#[test]
fn a_rule_names_its_least_tag(rt: HostRuntime) {
    assert!(rt; name_least(rt.alloc()) == Some(true));
    assert!(rt; rule_text(Rule::WriteS) == "WriteS");
}
