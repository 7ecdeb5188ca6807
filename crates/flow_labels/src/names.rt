//! The names of tags.
//!
//! A world's tags are numbered from 0 in the order in which they are named. Tags that are made while a
//! world runs have no name; a text shows them as `#` and their number.

ghost use Rattle.std.specs.Prelude.{◌≡◌, ℕ, List, ◌++◌, ◌∷◌, [], length, true, false, IsSome, OnOk, OnErr, IfOk, IsErrOf, ◌↔◌, slice_get, None, Some};
ghost use Rattle.std.specs.BTreeMap.{get_by_text};
ghost use Rattle.std.specs.Option.{option_copied};
ghost use Rattle.std.specs.List.{list_all};
ghost use Rattle.std.specs.Map.{update};
ghost use Rattle.std.specs.Str.{bytes_eq};
ghost use Rattle.flow_labels.specs.Names.{is_letter, is_word, is_name, place_of};
ghost use Rattle.flow_labels.specs.declared.names.NameFault.TheVariants.{NoMemory as no_memory};

use std::alloc::{AllocError, AllocFailed, Global};
use std::collections::BTreeMap;
use std::marker::Model;
use std::str;
use tag_sets::{NoMemory, TagId};

/// Why a name was not taken.
#[derive(Clone, Copy, Debug, PartialEq, Eq)]
pub enum NameFault {
    /// The text is not an ASCII letter followed by up to 31 letters, digits or `_`.
    BadName,
    /// The name is there already.
    Twice,
    /// Memory ran out.
    NoMemory,
}

impl From<NoMemory> for NameFault {
    ghost from_gives = { λ _ e. e ≡ no_memory };

    fn from(_e: NoMemory) -> NameFault {
        NameFault::NoMemory
    }
}

impl From<AllocError> for NameFault {
    ghost from_gives = { λ _ e. e ≡ no_memory };

    fn from(_e: AllocError) -> NameFault {
        NameFault::NoMemory
    }
}

impl<T: Drop> From<AllocFailed<T>> for NameFault {
    ghost from_gives = { λ _ e. e ≡ no_memory };

    fn from(_e: AllocFailed<T>) -> NameFault {
        NameFault::NoMemory
    }
}

/// The names of the tags, all different. The name at place n is that of tag n.
///
/// Each text stands twice: at its place, and as the key at which its tag is found, in the order of texts: no choice of names
/// makes that slow.
#[derive(Drop)]
pub struct TagNames {
    texts: Vec<String>,
    tags: BTreeMap<String, TagId>,
}

impl Model for TagNames {
    ghost use Rattle.std.specs.Prelude.{List, ℕ, map, string_bytes};
    ghost use Rattle.flow_labels.specs.Names.{AreKept};

    ghost Value = { List (List ℕ) };

    ghost view = { λ n. map string_bytes n.texts.items };

    ghost invariant = { λ n. AreKept n.tags (map string_bytes n.texts.items) };
}

impl TagNames {
    /// No names. Takes no memory.
    pub fn new(alloc: Global) -> TagNames
        ensures { result ≡ [] }
    {
        TagNames {
            texts: Vec::new(alloc),
            tags: BTreeMap::new(alloc),
        }
    }

    /// The number of names.
    pub fn count(&self) -> u64
        ensures { result ≡ length self.now }
    {
        self.texts.len() as u64
    }

    /// The allocator that the names keep.
    pub fn allocator(&self) -> Global {
        *self.texts.allocator()
    }

    /// The tag of a name; None exactly where the name is not there.
    pub fn find(&self, name: &str) -> Option<TagId>
        ensures { result ≡ place_of self.now name.now }
    {
        self.tags.get(name).copied()
    }

    /// The tag of a name that is given by its bytes, whatever bytes they are.
    pub fn find_bytes(&self, name: &[u8]) -> Option<TagId>
        ensures { result ≡ place_of self.now name.now }
    {
        let _ = &self.texts;
        match str::from_utf8(name) {
            Ok(name) => self.find(name),
            Err(_) => None,
        }
    }

    /// The name of a tag; None exactly where the tag's number is not below the number of names.
    pub fn name(&self, tag: TagId) -> Option<&str>
        ensures { option_copied result ≡ slice_get self.now tag }
    {
        match self.texts.get(tag.0 as usize) {
            None => None,
            Some(text) => Some(text.as_str()),
        }
    }

    /// Gives the next tag a name. After an error nothing has changed.
    pub fn add(&mut self, name: &str) -> Result<TagId, NameFault>
        ensures bad_name { IsErrOf result NameFault.BadName ↔ (is_name name.now ≡ false) }
        ensures twice { IsErrOf result NameFault.Twice ↔ ((is_name name.now ≡ true) × IsSome (place_of self.old name.now)) }
        ensures ok { IfOk result (λ t. (t ≡ length self.old) × (self.new ≡ self.old ++ name.now ∷ [])) }
        ensures err { OnErr result (self.new ≡ self.old) }
    {
        if !is_name(name.as_bytes()) {
            return Err(NameFault::BadName);
        }
        if self.find(name).is_some() {
            return Err(NameFault::Twice);
        }
        let tag = TagId(self.count());
        self.push(name)?;
        Ok(tag)
    }

    /// Equal names. NoMemory comes where memory runs out.
    pub fn copy(&self) -> Result<TagNames, NoMemory>
        ensures { IfOk result (λ n. n ≡ self.now) }
    {
        let mut names = TagNames::new(self.allocator());
        for text in &self.texts {
            names.push(text.as_str())?;
        }
        Ok(names)
    }

    /// Puts a name that is not there yet after the others.
    fn push(&mut self, name: &str) -> Result<(), NoMemory>
        requires named { is_name name.now ≡ true }
        requires new { place_of self.old name.now ≡ None }
        ensures ok { OnOk result (self.new ≡ self.old ++ name.now ∷ []) }
        ensures err { OnErr result (self.new ≡ self.old) }
    {
        let alloc = self.allocator();
        let tag = TagId(self.count());
        self.texts.reserve(1)?;
        let text = String::from_str(alloc, name)?;
        put_tag(&mut self.tags, alloc, name, tag)?;
        let Ok(_) = self.texts.push(text) else {
            unreachable!()
        };
        Ok(())
    }
}

/// Lets a name have a tag. After an error nothing has changed.
fn put_tag(
    tags: &mut BTreeMap<String, TagId>,
    alloc: Global,
    name: &str,
    tag: TagId,
) -> Result<(), NoMemory>
    ensures ok { OnOk result ((text : List ℕ) → get_by_text tags.new text ≡ update bytes_eq (get_by_text tags.old) name.now (Some tag) text) }
    ensures err { OnErr result (tags.new.entries ≡ tags.old.entries) }
{
    let text = String::from_str(alloc, name)?;
    tags.insert(text, tag)?;
    Ok(())
}

/// Whether a byte is an ASCII letter.
pub fn is_letter(byte: u8) -> bool
    ensures { result ≡ is_letter byte }
{
    byte.is_ascii_alphabetic()
}

/// Whether a byte is an ASCII letter, a digit or `_`.
pub fn is_word(byte: u8) -> bool
    ensures { result ≡ is_word byte }
{
    byte.is_ascii_alphanumeric() || byte == b'_'
}

/// Whether a text may name a tag.
pub fn is_name(text: &[u8]) -> bool
    ensures { result ≡ is_name text.now }
{
    !text.is_empty() && text.len() <= 32 && is_letter(text[0]) && all_words(text)
}

fn all_words(text: &[u8]) -> bool
    ensures { result ≡ list_all is_word text.now }
{
    text.iter().all(|b| is_word(*b))
}
