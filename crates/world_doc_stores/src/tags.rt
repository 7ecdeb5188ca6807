//! The tags of a world, and readers of what other members say by their names.

ghost use Rattle.std.specs.Prelude.{◌≡◌, ◌++◌, ◌∷◌, [], ◌≤◌, true, length, codes, option_and_then, OnOk, IfOk};
ghost use Rattle.serde_json.specs.View.{view, items_view};
ghost use Rattle.std.specs.List.{prefix_len};
ghost use Rattle.serde_json.specs.Find.{as_str};
ghost use Rattle.flow_labels.specs.Names.{is_name, is_word};
ghost use Rattle.flow_labels.specs.LabelText.{label_of};
ghost use Rattle.capabilities.specs.Kinds.{kind_of};
ghost use Rattle.world_doc_terms.specs.Breaks.{formed, member_as};
ghost use Rattle.world_doc_terms.specs.declared.version.Version.TheVariants.{Two};
ghost use Rattle.world_doc_terms.specs.Tags.{named, fresh_name, no_tags, with_name, kind_in, with_tag_item, with_tags, tags_in, word_at, label_or, label_as, label_in, tag_of, tags_of, set_in, caps_in};
ghost use Rattle.world_doc_stores.specs.Meaning.{Gives, GivesOnto};
ghost use Rattle.world_doc_stores.specs.Seen.{members, tags_seen};

use crate::fault::{WorldFault, bad_member, no_tag};
use crate::members::{array_member, member, object, object_member, str_member};
use capabilities::{Caps, TagKind, kind_of};
use flow_labels::{
    Label, LabelFault, NameFault, TagId, TagNames, TagSet, is_name, is_word, parse_label,
};
use serde_json::Value;
use std::alloc::Global;
use std::str;
use world_doc_terms::Version;

/// The number of tags that a document may name.
const TAG_LIMIT: usize = 65_536;

/// The first tags of a world: tag n has the n-th name and is of the n-th kind.
#[derive(Drop)]
pub struct FirstTags {
    pub names: TagNames,
    pub kinds: Vec<TagKind>,
}

fn no_tags(alloc: Global) -> FirstTags
    ensures { tags_seen result ≡ no_tags }
{
    FirstTags {
        names: TagNames::new(alloc),
        kinds: Vec::new(alloc),
    }
}

/// The tags with their names and kinds, by the member `tags` of a document of a version.
///
/// # Errors
///
/// `NoMember` with `tags` where the member is not there; `BadMember` with `tags` where it is no list of at most 65,536
/// items, where an item is no name, or from version 2 on no object, and where a name comes again. From version 2 on
/// `NoMember` or `BadMember` with `name` or `kind`, where one of them is not there or is of another form.
pub fn read_tags(alloc: Global, version: Version, document: &Value) -> Result<FirstTags, WorldFault>
    ensures { Gives tags_seen result (tags_in version (members (view document.now))) }
{
    let items = array_member(alloc, document, "tags")?;
    if items.len() > TAG_LIMIT {
        return Err(bad_member(alloc, "tags"));
    }
    all_tags(alloc, version, items)
}

fn all_tags(alloc: Global, version: Version, items: &[Value]) -> Result<FirstTags, WorldFault>
    ensures { Gives tags_seen result (with_tags version no_tags (items_view items.now)) }
{
    let mut tags = no_tags(alloc);
    for item in items {
        add_tag(alloc, version, &mut tags, item)?;
    }
    Ok(tags)
}

// One more tag.
fn add_tag(
    alloc: Global,
    version: Version,
    tags: &mut FirstTags,
    item: &Value,
) -> Result<(), WorldFault>
    ensures { GivesOnto result (tags_seen tags.new) (with_tag_item version (tags_seen tags.old) (view item.now)) }
{
    match version {
        Version::One => add_by_name(alloc, tags, item),
        Version::Two => add_by_kind(alloc, tags, item),
        Version::Three => add_by_kind(alloc, tags, item),
    }
}

// One more tag, that is said by its name alone.
fn add_by_name(alloc: Global, tags: &mut FirstTags, item: &Value) -> Result<(), WorldFault>
    ensures { GivesOnto result (tags_seen tags.new) (with_name (tags_seen tags.old) (view item.now)) }
{
    let name = named(alloc, "tags", item)?;
    add_name(alloc, &mut tags.names, name)?;
    tags.kinds.push(TagKind::Read)?;
    Ok(())
}

// One more tag, that is said by its name and its kind.
fn add_by_kind(alloc: Global, tags: &mut FirstTags, item: &Value) -> Result<(), WorldFault>
    ensures { GivesOnto result (tags_seen tags.new) (with_tag_item Two (tags_seen tags.old) (view item.now)) }
{
    object(alloc, item, "tags")?;
    let name = read_name(alloc, item)?;
    add_name(alloc, &mut tags.names, name)?;
    let kind = read_kind(alloc, item)?;
    tags.kinds.push(kind)?;
    Ok(())
}

// Puts a name after the others, where it is none of them.
fn add_name(alloc: Global, names: &mut TagNames, name: &str) -> Result<(), WorldFault>
    requires { is_name name.now ≡ true }
    ensures gives { Gives (λ _. name.now) result (fresh_name names.old name.now) }
    ensures ok { OnOk result (names.new ≡ names.old ++ name.now ∷ []) }
{
    match names.add(name) {
        Ok(_) => Ok(()),
        Err(NameFault::NoMemory) => Err(WorldFault::NoMemory),
        Err(_) => Err(bad_member(alloc, "tags")),
    }
}

// The member `name` of a tag.
fn read_name<'a>(alloc: Global, item: &'a Value) -> Result<&'a str, WorldFault>
    ensures gives { Gives (λ s. s.now) result (member_as (codes "name") named (members (view item.now))) }
    ensures form { IfOk result (λ s. is_name s.now ≡ true) }
{
    let name = member(alloc, item, "name")?;
    named(alloc, "name", name)
}

// The member `kind` of a tag.
fn read_kind(alloc: Global, item: &Value) -> Result<TagKind, WorldFault>
    ensures { Gives (λ k. k) result (kind_in (members (view item.now))) }
{
    let kind = member(alloc, item, "kind")?;
    kind_named(alloc, kind)
}

fn kind_named(alloc: Global, kind: &Value) -> Result<TagKind, WorldFault>
    ensures { Gives (λ k. k) result (formed (codes "kind") (option_and_then kind_of (as_str (view kind.now)))) }
{
    let Some(word) = kind.as_str() else {
        return Err(bad_member(alloc, "kind"));
    };
    match kind_of(word) {
        Some(kind) => Ok(kind),
        None => Err(bad_member(alloc, "kind")),
    }
}

/// The member `label` of an object.
///
/// # Errors
///
/// As of [`read_label_as`].
pub fn read_label(alloc: Global, object: &Value, names: &TagNames) -> Result<Label, WorldFault>
    ensures { Gives (λ l. l) result (label_in names.now (members (view object.now))) }
{
    read_label_as(alloc, object, "label", names)
}

/// The member of an object that is a label.
///
/// # Errors
///
/// `NoMember` where it is not there, `BadMember` where it is no text of a label, and `NoTag` with the first name that is
/// no tag's.
pub fn read_label_as(
    alloc: Global,
    object: &Value,
    name: &str,
    names: &TagNames,
) -> Result<Label, WorldFault>
    ensures { Gives (λ l. l) result (label_as name.now names.now (members (view object.now))) }
{
    let text = str_member(alloc, object, name)?;
    label_or(alloc, name, text, names)
}

fn label_or(alloc: Global, name: &str, text: &str, names: &TagNames) -> Result<Label, WorldFault>
    ensures { Gives (λ l. l) result (label_or name.now text.now (label_of names.now text.now)) }
{
    match parse_label(text, names) {
        Ok(label) => Ok(label),
        Err(LabelFault::BadLabel { .. }) => Err(bad_member(alloc, name)),
        Err(LabelFault::NoTag { at }) => Err(no_tag(alloc, word_at(text, at as usize))),
        Err(LabelFault::NoMemory) => Err(WorldFault::NoMemory),
    }
}

// The letters, digits and `_` that begin at a place.
fn word_at(text: &str, at: usize) -> &str
    ensures { result.now ≡ word_at at text.now }
{
    let rest = text.as_bytes().get(at..).unwrap_or(b"");
    match str::from_utf8(&rest[..word_len(rest)]) {
        Ok(word) => word,
        Err(_) => unreachable!(),
    }
}

// How many letters, digits and `_` a text begins with.
fn word_len(text: &[u8]) -> usize
    ensures value { result ≡ prefix_len is_word text.now }
    ensures within { result ≤ length text.now }
{
    text.iter().take_while(|b| is_word(**b)).count()
}

/// The tag that a value names, of the content of a member.
///
/// # Errors
///
/// `BadMember` where it has not the form of a name, and `NoTag` where no tag has the name.
pub fn read_tag(
    alloc: Global,
    at: &str,
    value: &Value,
    names: &TagNames,
) -> Result<TagId, WorldFault>
    ensures { Gives (λ t. t) result (tag_of at.now names.now (view value.now)) }
{
    let name = named(alloc, at, value)?;
    match names.find(name) {
        Some(tag) => Ok(tag),
        None => Err(no_tag(alloc, name)),
    }
}

fn named<'a>(alloc: Global, at: &str, value: &'a Value) -> Result<&'a str, WorldFault>
    ensures gives { Gives (λ s. s.now) result (formed at.now (named (view value.now))) }
    ensures form { IfOk result (λ s. is_name s.now ≡ true) }
{
    match value.as_str() {
        Some(name) if is_name(name.as_bytes()) => Ok(name),
        _ => Err(bad_member(alloc, at)),
    }
}

fn tags_of(
    alloc: Global,
    at: &str,
    items: &[Value],
    names: &TagNames,
) -> Result<Vec<TagId>, WorldFault>
    ensures { Gives (λ v. v.items) result (tags_of at.now names.now (items_view items.now)) }
{
    let mut tags = Vec::new(alloc);
    for item in items {
        tags.push(read_tag(alloc, at, item, names)?)?;
    }
    Ok(tags)
}

fn read_set(alloc: Global, object: &Value, at: &str, names: &TagNames) -> Result<TagSet, WorldFault>
    ensures { Gives (λ s. s) result (set_in at.now names.now (members (view object.now))) }
{
    let items = array_member(alloc, object, at)?;
    let tags = tags_of(alloc, at, items, names)?;
    Ok(TagSet::from_slice(alloc, tags.as_slice())?)
}

/// The member `caps` of an object, with its members `plus` and `minus`.
///
/// # Errors
///
/// `NoMember` where one of the three is not there, `BadMember` where one is of another form or has an item that is no
/// name, and `NoTag` with the first name that is no tag's.
pub fn read_caps(alloc: Global, object: &Value, names: &TagNames) -> Result<Caps, WorldFault>
    ensures { Gives (λ c. c) result (caps_in names.now (members (view object.now))) }
{
    let inside = object_member(alloc, object, "caps")?;
    let plus = read_set(alloc, inside, "plus", names)?;
    let minus = read_set(alloc, inside, "minus", names)?;
    Ok(Caps::of(plus, minus))
}
