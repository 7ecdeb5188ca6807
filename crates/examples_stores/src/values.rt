//! Values, their texts and shapes, and lists of them.

use flow_labels::{Label, TagNames};
use lam_value::{
    Home, Kind, Name, Shape, Value, Values, bytes_text, same_value, same_values, value_text,
    values_text,
};
use std::alloc::Global;
use tag_sets::{NoMemory, TagId, TagSet};

/// The label `{#0}/{}`.
pub(crate) fn secret(alloc: Global) -> Result<Label, NoMemory> {
    let s = TagSet::from_slice(alloc, &[TagId(0)])?;
    Ok(Label {
        s,
        i: TagSet::empty(alloc),
    })
}

/// Lets go of a value here alone, so that the proofs of its callers know nothing of how that is done.
fn let_go(_value: Value) {}

/// Whether a value has this text.
fn shows(value: &Value, names: &TagNames, want: &str) -> Result<bool, NoMemory> {
    let text = value_text(value, names)?;
    Ok(text.as_str() == want)
}

/// Whether a list of values has this text.
fn shows_list(values: &[Value], names: &TagNames, want: &str) -> Result<bool, NoMemory> {
    let text = values_text(values, names)?;
    Ok(text.as_str() == want)
}

/// Whether four plain values have their texts.
fn shows_plain(alloc: Global) -> Result<bool, NoMemory> {
    let names = TagNames::new(alloc);
    let values = [
        Value::Int(-5),
        Value::Bool(true),
        Value::Nothing,
        Value::Thread(7),
    ];
    shows_list(&values, &names, "-5,true,null,t7")
}

/// Whether bytes are escaped.
fn shows_bytes(alloc: Global) -> Result<bool, NoMemory> {
    let text = bytes_text(alloc, b"a\"\\\x00\xff")?;
    Ok(text.as_str() == "\"a\\\"\\\\\\x00\\xff\"")
}

/// Whether numbers, truths, null, threads and bytes have their texts.
fn are_shown(alloc: Global) -> Result<bool, NoMemory> {
    Ok(shows_plain(alloc)? & shows_bytes(alloc)?)
}

#[test]
fn plain_values_have_their_texts(rt: HostRuntime) {
    assert!(rt; are_shown(rt.alloc()) == Ok(true));
}

/// A name of a public maker.
fn name(own: &Label) -> Result<Name, NoMemory> {
    let public = Label::public(own.allocator());
    Name::of(&public, own, 3)
}

/// An array of a public maker, of length 2.
fn array(alloc: Global) -> Result<Value, NoMemory> {
    let own = secret(alloc)?;
    let name = name(&own)?;
    Ok(Value::Arr { name, len: 2 })
}

/// A description of capabilities.
fn both_sets(alloc: Global) -> Result<Value, NoMemory> {
    let plus = TagSet::one(alloc, TagId(1));
    let minus = TagSet::from_slice(alloc, &[TagId(2), TagId(1)])?;
    Ok(Value::CapV { plus, minus })
}

/// A label as a value.
fn label(alloc: Global) -> Result<Value, NoMemory> {
    Ok(Value::Lab(secret(alloc)?))
}

/// Whether what is made has this text.
fn shows_made(
    made: Result<Value, NoMemory>,
    names: &TagNames,
    want: &str,
) -> Result<bool, NoMemory> {
    let value = made?;
    let shown = shows(&value, names, want);
    let_go(value);
    shown
}

/// Whether labels, names and capabilities show their tags.
fn shows_tags(alloc: Global, names: &TagNames) -> Result<bool, NoMemory> {
    let shown = shows_made(label(alloc), names, "{#0}/{}")?;
    let array = shows_made(array(alloc), names, "arr<{}/{}|{#0}/{}|3>[2]")?;
    Ok(shown & array & shows_made(both_sets(alloc), names, "+{#1}-{#1,#2}")?)
}

/// Whether tags are shown by their numbers where none has a name.
fn shows_numbers(alloc: Global) -> Result<bool, NoMemory> {
    let names = TagNames::new(alloc);
    shows_tags(alloc, &names)
}

#[test]
fn tags_are_shown(rt: HostRuntime) {
    assert!(rt; shows_numbers(rt.alloc()) == Ok(true));
}

/// A copy of the home that is made of the two labels of a name.
fn home_of(name: &Name) -> Result<Home, NoMemory> {
    let home = Home::of(name.maker(), name.own())?;
    home.copy()
}

/// Whether the home of a name is the one that is made of its two labels.
fn has_made_home(name: &Name, own: &Label) -> Result<bool, NoMemory> {
    let home = home_of(name)?;
    Ok((home == *name.home()) & (home.own() == own))
}

/// Whether the name of a thing has its home.
fn has_its_home(own: &Label) -> Result<bool, NoMemory> {
    let name = name(own)?;
    has_made_home(&name, own)
}

/// Whether the name of a secret thing has its home.
fn secret_has_its_home(alloc: Global) -> Result<bool, NoMemory> {
    has_its_home(&secret(alloc)?)
}

#[test]
fn a_name_has_its_home(rt: HostRuntime) {
    assert!(rt; secret_has_its_home(rt.alloc()) == Ok(true));
}

/// A copy, of which nothing is known to its caller's proof.
fn copied(value: &Value) -> Result<Value, NoMemory> {
    value.copy()
}

/// Whether a value is equal to this copy, and not to null.
fn is_copy(value: &Value, copy: &Value) -> bool {
    same_value(value, copy) & !same_value(value, &Value::Nothing)
}

/// Whether a value is equal to its copy, and not to null.
fn is_copied(value: &Value) -> Result<bool, NoMemory> {
    let copy = copied(value)?;
    let same = is_copy(value, &copy);
    let_go(copy);
    Ok(same)
}

/// Whether an array is equal to its copy, and not to null.
fn array_is_copied(alloc: Global) -> Result<bool, NoMemory> {
    let value = array(alloc)?;
    let same = is_copied(&value);
    let_go(value);
    same
}

#[test]
fn a_copied_value_is_equal(rt: HostRuntime) {
    assert!(rt; array_is_copied(rt.alloc()) == Ok(true));
}

/// Whether a value is the number 0.
fn is_zero(value: Value) -> bool {
    let zero = matches!(value, Value::Int(0));
    let_go(value);
    zero
}

/// Whether a slot was there and held 0; now it holds 7.
fn sets(slots: &mut Values, at: u64) -> bool {
    match slots.set(at, Value::Int(7)) {
        Some(old) => is_zero(old),
        None => false,
    }
}

/// Whether the slots of a shape are two, and hold 0 each.
fn begins_with_zeros(alloc: Global, shape: Shape) -> Result<bool, NoMemory> {
    let mut slots = shape.into_slots(alloc)?;
    Ok(sets(&mut slots, 1) & !sets(&mut slots, 1) & !sets(&mut slots, 2))
}

/// Whether the copy of a shape is the same, and its slots hold 0.
fn copy_begins(alloc: Global, shape: &Shape) -> Result<bool, NoMemory> {
    let copy = shape.copy()?;
    let same = copy.same(shape);
    Ok(same & begins_with_zeros(alloc, copy)?)
}

#[test]
fn an_array_begins_with_first_values(rt: HostRuntime) {
    let shape = Shape::Array {
        kind: Kind::Int,
        len: 2,
    };
    assert!(rt; copy_begins(rt.alloc(), &shape) == Ok(true));
}

/// Whether two lists are equal.
fn are_same(slots: &Values, copy: &Values) -> bool {
    slots.same(copy) & same_values(slots.as_slice(), copy.as_slice())
}

/// Whether a list of one value takes a second.
fn takes_second(slots: &mut Values) -> Result<bool, NoMemory> {
    slots.push(Value::Int(1))?;
    Ok((slots.len() == 2) & slots.get(1).is_some())
}

/// Whether a list is equal to its copy, until one value more stands in it.
fn list_is_copied(slots: &mut Values) -> Result<bool, NoMemory> {
    let copy = slots.copy()?;
    let before = are_same(slots, &copy);
    let grew = takes_second(slots)?;
    Ok(before & grew & !slots.same(&copy))
}

/// Whether a list of one value is equal to its copy, until it grows.
fn one_is_copied(alloc: Global) -> Result<bool, NoMemory> {
    let mut slots = Values::new(alloc);
    slots.push(Value::Nothing)?;
    list_is_copied(&mut slots)
}

#[test]
fn a_copied_list_is_equal(rt: HostRuntime) {
    assert!(rt; one_is_copied(rt.alloc()) == Ok(true));
}
