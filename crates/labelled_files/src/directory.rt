//! The entries of one directory.

ghost use Rattle.std.specs.Prelude.{◌≡◌, ◌<◌, ◌≤◌, ◌++◌, ◌∷◌, [], None, length, is_some, IsTrue, ◌↔◌, IfOk, OnOk, slice_get};
ghost use Rattle.std.specs.Option.{option_copied, option_map};
ghost use Rattle.std.specs.Map.{lookup};
ghost use Rattle.std.proofs.Props.{props};
ghost use Rattle.indexmap.specs.IndexMap.{IsUnique, spare};
ghost use Rattle.labelled_files.specs.Entries as entries;
ghost use Rattle.labelled_files.specs.Entries.{text_eq, without, vec_eq, entries_of, entry_of};
ghost use Rattle.labelled_files.specs.Trees.{most_entries};

use indexmap::IndexMap;
use lam_value::{Name, NoMemory};
use std::alloc::Global;

/// The number of entries that one directory may have.
pub const ENTRY_LIMIT: usize = 4_096;

/// The two kinds of things that an entry may lead to.
#[derive(Clone, Copy, Debug, PartialEq, Eq)]
pub enum EntryKind {
    File,
    Dir,
}

/// What an entry leads to.
#[derive(Drop)]
pub struct Target {
    pub kind: EntryKind,
    pub name: Name,
}

impl Target {
    /// Whether two lead to the same.
    pub fn same(&self, other: &Target) -> bool
        ensures { IsTrue result ↔ (self.now ≡ other.now) }
    {
        self.kind == other.kind && self.name.same(&other.name)
    }

    fn copy(&self) -> Result<Target, NoMemory>
        ensures { IfOk result (λ t. t ≡ self.now) }
    {
        let name = self.name.copy()?;
        Ok(Target {
            kind: self.kind,
            name,
        })
    }
}

/// Whether an entry may have this name: 1 to 255 bytes without `/` and zero, and neither `.` nor `..`.
pub fn is_entry_name(entry: &[u8]) -> bool
    ensures { result ≡ entries.is_entry_name entry.now }
{
    1 <= entry.len()
        && entry.len() <= 255
        && !entry.contains(&b'/')
        && !entry.contains(&0)
        && entry != b".".as_slice()
        && entry != b"..".as_slice()
}

/// Entries by name, in the order of their making, at most `ENTRY_LIMIT`.
#[derive(Drop)]
pub(crate) struct Directory {
    entries: IndexMap<Vec<u8>, Target>,
    ghost few: { length entries.entries ≤ most_entries },
    ghost unique: { IsUnique vec_eq entries } by { Prim.hlevel props },
}

impl Directory {
    pub(crate) fn new(alloc: Global) -> Directory
        ensures { entries_of result.entries.entries ≡ [] }
    {
        Directory {
            entries: IndexMap::new(alloc),
        }
    }

    pub(crate) fn len(&self) -> usize
        ensures { result ≡ length (entries_of self.now.entries.entries) }
    {
        self.entries.len()
    }

    /// What the entry of a name leads to.
    pub(crate) fn target(&self, entry: &[u8]) -> Option<&Target>
        ensures { option_copied result ≡ lookup (text_eq entry.now) (entries_of self.now.entries.entries) }
    {
        self.entries.get(entry)
    }

    /// The entry at a place, with what it leads to.
    pub(crate) fn entry_at(&self, at: usize) -> Option<(&[u8], EntryKind, &Name)>
        ensures { option_map (λ e. entry_of e.0.now e.1 e.2.now) result ≡ slice_get (entries_of self.now.entries.entries) at }
    {
        match self.entries.get_index(at) {
            None => None,
            Some((text, target)) => Some((text.as_slice(), target.kind, &target.name)),
        }
    }

    /// Makes room for one more entry.
    pub(crate) fn reserve(&mut self) -> Result<(), NoMemory>
        ensures same { entries_of self.new.entries.entries ≡ entries_of self.old.entries.entries }
        ensures room { IfOk result (λ _. 1 ≤ spare self.new.entries) }
    {
        self.entries.reserve(1)?;
        Ok(())
    }

    /// Puts a new entry at the end, for which there is room.
    pub(crate) fn join(&mut self, entry: Vec<u8>, target: Target)
        requires few { length (entries_of self.old.entries.entries) < most_entries }
        requires new { lookup (text_eq entry.items) (entries_of self.old.entries.entries) ≡ None }
        requires room { 1 ≤ spare self.old.entries }
        ensures { entries_of self.new.entries.entries ≡ entries_of self.old.entries.entries ++ (entry.items, target) ∷ [] }
    {
        let Ok(_) = self.entries.insert(entry, target) else {
            unreachable!()
        };
    }

    /// Takes an entry away, and says whether it was there.
    pub(crate) fn leave(&mut self, entry: &[u8]) -> bool
        ensures there { result ≡ is_some (lookup (text_eq entry.now) (entries_of self.old.entries.entries)) }
        ensures rest { entries_of self.new.entries.entries ≡ without entry.now (entries_of self.old.entries.entries) }
    {
        self.entries.shift_remove(entry).is_some()
    }

    pub(crate) fn same(&self, other: &Directory) -> bool
        ensures { IsTrue result ↔ (entries_of self.now.entries.entries ≡ entries_of other.now.entries.entries) }
    {
        same_entries(&self.entries, &other.entries)
    }

    pub(crate) fn copy(&self) -> Result<Directory, NoMemory>
        ensures { IfOk result (λ d. entries_of d.entries.entries ≡ entries_of self.now.entries.entries) }
    {
        let entries = copied(&self.entries)?;
        Ok(Directory { entries })
    }
}

type Rows = IndexMap<Vec<u8>, Target>;

fn same_entries(a: &Rows, b: &Rows) -> bool
    ensures { IsTrue result ↔ (entries_of a.now.entries ≡ entries_of b.now.entries) }
{
    a.len() == b.len() && begin_alike(a, b)
}

/// Whether the first entries of a directory are those of another one that has as many.
fn begin_alike(a: &Rows, b: &Rows) -> bool
    requires { length a.now.entries ≡ length b.now.entries }
    ensures { IsTrue result ↔ (entries_of a.now.entries ≡ entries_of b.now.entries) }
{
    for at in 0..a.len() {
        let Some((text, target)) = a.get_index(at) else {
            unreachable!()
        };
        let Some((other, there)) = b.get_index(at) else {
            unreachable!()
        };
        if !same_entry(text, target, other, there) {
            return false;
        }
    }
    true
}

fn same_entry(text: &Vec<u8>, target: &Target, other: &Vec<u8>, there: &Target) -> bool
    ensures { IsTrue result ↔ ((text.now.items ≡ other.now.items) × (target.now ≡ there.now)) }
{
    text.as_slice() == other.as_slice() && target.same(there)
}

fn copied(entries: &IndexMap<Vec<u8>, Target>) -> Result<IndexMap<Vec<u8>, Target>, NoMemory>
    requires { IsUnique vec_eq entries.now }
    ensures same { IfOk result (λ new. entries_of new.entries ≡ entries_of entries.now.entries) }
    ensures unique { IfOk result (λ new. IsUnique vec_eq new) }
{
    let mut copy = IndexMap::new(*entries.allocator());
    for at in 0..entries.len() {
        let Some((entry, target)) = entries.get_index(at) else {
            unreachable!()
        };
        let Ok(()) = put_copy(&mut copy, entry, target) else {
            drop(copy);
            return Err(NoMemory);
        };
    }
    Ok(copy)
}

/// Puts an equal entry at the end, whose name is new.
fn put_copy(copy: &mut Rows, text: &Vec<u8>, target: &Target) -> Result<(), NoMemory>
    requires { lookup (text_eq text.now.items) (entries_of copy.old.entries) ≡ None }
    ensures entries { OnOk result (entries_of copy.new.entries ≡ entries_of copy.old.entries ++ (text.now.items, target.now) ∷ []) }
    ensures unique { OnOk result (IsUnique vec_eq copy.new) }
{
    let (text, target) = copied_entry(text, target)?;
    let before = copy.insert(text, target)?;
    drop(before);
    Ok(())
}

fn copied_entry(text: &Vec<u8>, target: &Target) -> Result<(Vec<u8>, Target), NoMemory>
    ensures text { IfOk result (λ r. r.0.items ≡ text.now.items) }
    ensures target { IfOk result (λ r. r.1 ≡ target.now) }
{
    let target = target.copy()?;
    let text = Vec::from_slice(*text.allocator(), text.as_slice())?;
    Ok((text, target))
}
