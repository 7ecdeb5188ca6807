//! A reader and a writer of two tag-name lists in one text.
//!
//! A label is written `{a,b}/{t}` and capabilities `+{a}-{a,b}`. Both are two lists of names in braces and differ only
//! in the marks around them, so reading, fault positions and writing stand here once. Reading has two steps.
//! [`bad_place`] checks the form alone, and [`read_sets`] looks up the names of a text that has the form. A text is
//! read in time linear in its length, and its tags are sorted.

ghost use Rattle.std.specs.Prelude.{◌≡◌, ◌≤◌, ◌++◌, ◌∷◌, [], ◌+◌, ◌^◌, ◌<◌, length, map, IfSome, IsNone, ◌↔◌, IfOk, OnOk, string_bytes, decimal};
ghost use Rattle.flow_labels.specs.TwoLists.{HasForm, IsBadPlace, joined, braced, spelled, tag_text, sets_text};
ghost use Rattle.flow_labels.specs.Reading.{start, step, after_list, after_letter, bad_place, first_end, sets_in, tags_of_names, words, Gives, TakesWord, ListsAreRead, SetsAreRead};
ghost use Rattle.flow_labels.specs.declared.two_lists.TagFault.TheVariants.{NoMemory as no_memory};

use crate::names::{TagNames, is_letter, is_word};
use decimal_text::push_number;
use std::alloc::{AllocError, AllocFailed, Global};
use tag_sets::{NoMemory, TagId, TagSet};

/// Which text of two lists it is.
#[derive(Clone, Copy, Debug, PartialEq, Eq)]
pub enum Form {
    /// `{a,b}/{t}`: secrecy and integrity.
    Label,
    /// `+{a}-{a,b}`: plus and minus capabilities.
    Caps,
}

/// Two sets of tags, of the two lists of one text.
#[derive(Debug, Drop)]
pub struct TwoSets {
    pub first: TagSet,
    pub second: TagSet,
}

/// Why the names of a text have no tags.
#[derive(Clone, Copy, Debug, PartialEq, Eq)]
pub enum TagFault {
    /// The first name that no tag has begins at `at`.
    NoTag { at: u64 },
    /// Memory ran out.
    NoMemory,
}

impl From<NoMemory> for TagFault {
    ghost from_gives = { λ _ e. e ≡ no_memory };

    fn from(_e: NoMemory) -> TagFault {
        TagFault::NoMemory
    }
}

impl From<AllocError> for TagFault {
    ghost from_gives = { λ _ e. e ≡ no_memory };

    fn from(_e: AllocError) -> TagFault {
        TagFault::NoMemory
    }
}

impl<T: Drop> From<AllocFailed<T>> for TagFault {
    ghost from_gives = { λ _ e. e ≡ no_memory };

    fn from(_e: AllocFailed<T>) -> TagFault {
        TagFault::NoMemory
    }
}

/// Which of the two lists.
#[derive(Clone, Copy)]
enum Side {
    First,
    Second,
}

/// Where reading stands.
#[derive(Clone, Copy)]
enum Spot {
    /// Before the mark that begins the text.
    Start,
    /// Before the brace that begins a list.
    Brace(Side),
    /// After that brace.
    Open(Side),
    /// In a name, of which so many bytes were read.
    Name(Side, u8),
    /// After a comma.
    Comma(Side),
    /// After the brace that ends a list.
    Closed(Side),
}

fn start(form: Form) -> Spot
    ensures { result ≡ start form }
{
    match form {
        Form::Label => Spot::Brace(Side::First),
        Form::Caps => Spot::Start,
    }
}

fn after_list(form: Form, side: Side, byte: u8) -> Option<Spot>
    ensures { result ≡ after_list form side byte }
{
    match (form, side) {
        (Form::Label, Side::First) if byte == b'/' => Some(Spot::Brace(Side::Second)),
        (Form::Caps, Side::First) if byte == b'-' => Some(Spot::Brace(Side::Second)),
        _ => None,
    }
}

fn after_letter(side: Side, byte: u8) -> Option<Spot>
    ensures { result ≡ after_letter side byte }
{
    if is_letter(byte) {
        Some(Spot::Name(side, 1))
    } else {
        None
    }
}

fn step(form: Form, spot: Spot, byte: u8) -> Option<Spot>
    ensures { result ≡ step form spot byte }
{
    match spot {
        Spot::Start if byte == b'+' => Some(Spot::Brace(Side::First)),
        Spot::Brace(side) if byte == b'{' => Some(Spot::Open(side)),
        Spot::Open(side) | Spot::Name(side, _) if byte == b'}' => Some(Spot::Closed(side)),
        Spot::Name(side, _) if byte == b',' => Some(Spot::Comma(side)),
        Spot::Name(side, len) if is_word(byte) && len < 32 => Some(Spot::Name(side, len + 1)),
        Spot::Open(side) | Spot::Comma(side) => after_letter(side, byte),
        Spot::Closed(side) => after_list(form, side, byte),
        _ => None,
    }
}

/// Where reading byte after byte stops, or None where it comes through.
fn stop_place(form: Form, text: &[u8]) -> Option<u64>
    ensures { result ≡ bad_place form text.now }
{
    let mut spot = start(form);
    for (at, byte) in text.iter().enumerate() {
        match step(form, spot, *byte) {
            None => return Some(at as u64),
            Some(next) => spot = next,
        }
    }
    match spot {
        Spot::Closed(Side::Second) => None,
        _ => Some(text.len() as u64),
    }
}

/// The least place of a text whose byte continues no text of the form, or the text's length where it
/// is only the front of one. None exactly where the text has the form.
pub fn bad_place(form: Form, text: &[u8]) -> Option<u64>
    ensures value { result ≡ bad_place form text.now }
    ensures none { IsNone result ↔ HasForm form text.now }
    ensures place { IfSome result (IsBadPlace form text.now) }
{
    stop_place(form, text)
}

/// The sets of tags that a text of the form names. Nothing is asked of a text that has not the form:
/// its words are looked up all the same.
pub fn read_sets(text: &[u8], names: &TagNames) -> Result<TwoSets, TagFault>
    ensures { Gives (λ sets. sets) result (sets_in names.now text.now) }
{
    let end = first_end(text);
    let first = tags_in(names, &text[..end], 0)?;
    let second = tags_in(names, &text[end..], end)?;
    let first = TagSet::from_slice(names.allocator(), first.as_slice())?;
    let second = TagSet::from_slice(names.allocator(), second.as_slice())?;
    Ok(TwoSets { first, second })
}

/// A law: a text of two lists of names is read as the sets of their tags, or else at the place of the
/// first name that no tag has.
pub fn lists_are_read()
    ensures { ListsAreRead }
{}

/// A law: the text of two sets whose tags all have names has the form, and is read as the two sets.
pub fn sets_are_read()
    ensures { SetsAreRead }
{}

/// Where the first list ends.
fn first_end(text: &[u8]) -> usize
    ensures value { result ≡ first_end text.now }
    ensures within { result ≤ length text.now }
{
    text.iter().take_while(|b| **b != b'}').count()
}

/// The tags of the words of a text that begins at a place.
fn tags_in(names: &TagNames, text: &[u8], from: usize) -> Result<Vec<TagId>, TagFault>
    requires { from + length text.now < 2 ^ 63 }
    ensures { Gives (λ v. v.items) result (tags_of_names names.now (words text.now [] from)) }
{
    let mut tags = Vec::new(names.allocator());
    let mut start = 0usize;
    for (at, byte) in text.iter().enumerate() {
        if !is_word(*byte) {
            take_word(names, &mut tags, &text[start..at], from + start)?;
            start = at + 1;
        }
    }
    take_word(names, &mut tags, &text[start..], from + start)?;
    Ok(tags)
}

/// Adds the tag of a word that stands at a place, unless the word is empty.
fn take_word(
    names: &TagNames,
    tags: &mut Vec<TagId>,
    word: &[u8],
    at: usize,
) -> Result<(), TagFault>
    ensures { TakesWord names.now tags.old.items tags.new.items word.now at result }
{
    if word.is_empty() {
        return Ok(());
    }
    match names.find_bytes(word) {
        None => Err(TagFault::NoTag { at: at as u64 }),
        Some(tag) => {
            tags.push(tag)?;
            Ok(())
        }
    }
}

/// The text of two sets of tags: the tags of each in increasing order, by their names.
pub fn sets_text(
    form: Form,
    first: &TagSet,
    second: &TagSet,
    names: &TagNames,
) -> Result<String, NoMemory>
    ensures { IfOk result (λ t. string_bytes t ≡ sets_text form names.now first.now second.now) }
{
    let mut text = String::new(names.allocator());
    push_sets(&mut text, form, first, second, names)?;
    Ok(text)
}

/// Writes the text of two sets of tags at the end of a text.
pub fn push_sets(
    text: &mut String,
    form: Form,
    first: &TagSet,
    second: &TagSet,
    names: &TagNames,
) -> Result<(), NoMemory>
    ensures { OnOk result (string_bytes text.new ≡ string_bytes text.old ++ sets_text form names.now first.now second.now) }
{
    let (first, second) = (first.tags(), second.tags());
    if first.is_empty() && second.is_empty() {
        return push_empty(text, form);
    }
    match form {
        Form::Label => {
            push_braced(text, first, names)?;
            text.push('/')?;
        }
        Form::Caps => {
            text.push('+')?;
            push_braced(text, first, names)?;
            text.push('-')?;
        }
    }
    push_braced(text, second, names)
}

/// Writes the text of two empty lists.
fn push_empty(text: &mut String, form: Form) -> Result<(), NoMemory>
    ensures { OnOk result (string_bytes text.new ≡ string_bytes text.old ++ spelled form [] []) }
{
    let empty = match form {
        Form::Label => "{}/{}",
        Form::Caps => "+{}-{}",
    };
    text.push_str(empty)?;
    Ok(())
}

/// The name of a tag, or `#` and its number where it has none.
pub fn tag_text(tag: TagId, names: &TagNames) -> Result<String, NoMemory>
    ensures { IfOk result (λ t. string_bytes t ≡ tag_text names.now tag) }
{
    let mut text = String::new(names.allocator());
    push_tag(&mut text, tag, names)?;
    Ok(text)
}

fn push_braced(text: &mut String, tags: &[TagId], names: &TagNames) -> Result<(), NoMemory>
    ensures { OnOk result (string_bytes text.new ≡ string_bytes text.old ++ braced (map (tag_text names.now) tags.now) []) }
{
    text.push('{')?;
    push_names(text, tags, names)?;
    text.push('}')?;
    Ok(())
}

fn push_names(text: &mut String, tags: &[TagId], names: &TagNames) -> Result<(), NoMemory>
    ensures { OnOk result (string_bytes text.new ≡ string_bytes text.old ++ joined (map (tag_text names.now) tags.now)) }
{
    for (at, tag) in tags.iter().enumerate() {
        if at > 0 {
            text.push(',')?;
        }
        push_tag(text, *tag, names)?;
    }
    Ok(())
}

/// Writes the name of a tag, or `#` and its number, at the end of a text.
pub fn push_tag(text: &mut String, tag: TagId, names: &TagNames) -> Result<(), NoMemory>
    ensures { OnOk result (string_bytes text.new ≡ string_bytes text.old ++ tag_text names.now tag) }
{
    match names.name(tag) {
        Some(name) => text.push_str(name)?,
        None => push_unnamed(text, tag.0)?,
    }
    Ok(())
}

fn push_unnamed(text: &mut String, number: u64) -> Result<(), NoMemory>
    ensures { OnOk result (string_bytes text.new ≡ string_bytes text.old ++ 35 ∷ decimal number) }
{
    text.push('#')?;
    push_number(text, number)
}
