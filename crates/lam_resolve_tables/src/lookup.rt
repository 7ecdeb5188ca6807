//! Look-up of names in constant time.

ghost use Rattle.std.specs.Prelude.{◌≡◌, ◌++◌, ◌∷◌, [], List, OnErr, OnOk, length, take};
ghost use Rattle.lam_operators.specs.Words.{Word};
ghost use Rattle.lam_types_kinds.specs.Values.{keyed};
ghost use Rattle.lam_resolve_tables.specs.Named.{firsts, with_first, seen_found};
ghost use Rattle.lam_resolve_tables.specs.Entries.{entries_of, shorter};
ghost use Rattle.lam_resolve_laws.specs.Resolved.{found};

use crate::named::Named;
use indexmap::IndexMap;
use std::alloc::Global;
use want_of_memory::NoMemory;

// A name has a number, unless it has one.
fn number_name<'a>(
    index: &mut IndexMap<&'a str, usize>,
    name: &'a str,
    number: usize,
) -> Result<(), NoMemory>
    ensures ok { OnOk result (keyed index.new.entries ≡ with_first (keyed index.old.entries) name.now number) }
    ensures err { OnErr result (index.new.entries ≡ index.old.entries) }
{
    if !index.contains_key(name) {
        index.insert(name, number)?;
    }
    Ok(())
}

// The last name has no number, if its own place is it.
fn forget_name(index: &mut IndexMap<&str, usize>, name: &str, number: usize)
    ensures { (ks : List Word) → keyed index.old.entries ≡ firsts (ks ++ name.now ∷ []) → number ≡ length ks → keyed index.new.entries ≡ firsts ks }
{
    let known = index.get(name).copied();
    if let Some(at) = known {
        if at == number {
            index.truncate(index.len().saturating_sub(1));
        }
    }
}

impl<'a, T: Drop> Named<'a, T> {
    /// No entries.
    pub fn new(alloc: Global) -> Named<'a, T>
        ensures { entries_of result ≡ [] }
    {
        Named {
            entries: Vec::new(alloc),
            index: IndexMap::new(alloc),
        }
    }

    /// How many entries there are.
    pub fn len(&self) -> usize
        ensures { result ≡ length (entries_of self.now) }
    {
        self.entries.len()
    }

    /// The first entry of a name, and its number.
    pub fn find(&self, name: &str) -> Option<(usize, &T)>
        ensures { seen_found result ≡ found name.now (entries_of self.now) }
    {
        let Some(at) = self.index.get(name).copied() else {
            return None;
        };
        Some((at, &self.entries[at].1))
    }

    /// One more entry, at the end.
    ///
    /// # Errors
    ///
    /// `NoMemory` where memory is refused.
    pub fn push(&mut self, name: &'a str, value: T) -> Result<(), NoMemory>
        ensures { OnOk result (entries_of self.new ≡ entries_of self.old ++ (name.now, value) ∷ []) }
    {
        self.entries.reserve(1)?;
        number_name(&mut self.index, name, self.entries.len())?;
        let Ok(()) = self.entries.push((name, value)) else {
            unreachable!()
        };
        Ok(())
    }

    // Takes the last entry away.
    fn pop(&mut self)
        ensures { self.new.entries.items ≡ shorter self.old.entries.items }
    {
        if let Some((name, _)) = self.entries.pop() {
            forget_name(&mut self.index, name, self.entries.len());
        }
    }

    /// Takes away all entries but the first `n`.
    pub fn cut(&mut self, n: usize)
        ensures { entries_of self.new ≡ take n (entries_of self.old) }
    {
        while self.entries.len() > n {
            self.pop();
        }
    }
}
