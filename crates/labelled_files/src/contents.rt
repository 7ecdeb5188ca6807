//! The bytes of one file.

ghost use Rattle.std.specs.Prelude.{◌≡◌, ◌≤◌, [], take, drop, length, IfOk, OnOk, OnErr};
ghost use Rattle.labelled_files.specs.Trees.{AreBytes, appended, most_bytes};

use lam_value::NoMemory;
use std::alloc::Global;

/// The number of bytes that one file may have.
pub const FILE_LIMIT: usize = 1_048_576;

/// The bytes of a file, at most `FILE_LIMIT`.
#[derive(Drop)]
pub(crate) struct Contents {
    bytes: Vec<u8>,
    ghost few: { length bytes.items ≤ most_bytes },
    ghost are_bytes: { AreBytes bytes.items },
}

impl Contents {
    pub(crate) fn new(alloc: Global) -> Contents
        ensures { result.bytes.items ≡ [] }
    {
        Contents {
            bytes: Vec::new(alloc),
        }
    }

    pub(crate) fn bytes(&self) -> &[u8]
        ensures value { result.now ≡ self.now.bytes.items }
        ensures few { length result.now ≤ most_bytes }
    {
        self.bytes.as_slice()
    }

    /// Puts the front of `more` that fits at the end.
    pub(crate) fn append(&mut self, more: &[u8]) -> Result<(), NoMemory>
        ensures ok { OnOk result (self.new.bytes.items ≡ appended more.now self.old.bytes.items) }
        ensures err { OnErr result (self.new.bytes.items ≡ self.old.bytes.items) }
    {
        let front = first_bytes(more, FILE_LIMIT - self.bytes.len());
        self.bytes.extend_from_slice(front)?;
        Ok(())
    }

    /// Keeps the first bytes.
    pub(crate) fn cut(&mut self, len: usize)
        ensures { self.new.bytes.items ≡ take len self.old.bytes.items }
    {
        self.bytes.truncate(len);
    }

    pub(crate) fn copy(&self) -> Result<Contents, NoMemory>
        ensures { IfOk result (λ c. c.bytes.items ≡ self.now.bytes.items) }
    {
        let bytes = Vec::from_slice(*self.bytes.allocator(), self.bytes.as_slice())?;
        Ok(Contents { bytes })
    }
}

/// At most `n` of the bytes, from the first on.
pub(crate) fn first_bytes(bytes: &[u8], n: usize) -> &[u8]
    ensures { result.now ≡ take n bytes.now }
{
    if n < bytes.len() {
        bytes.split_at(n).0
    } else {
        bytes
    }
}

/// The bytes past the first `n`.
pub(crate) fn last_bytes(bytes: &[u8], n: usize) -> &[u8]
    ensures { result.now ≡ drop n bytes.now }
{
    if n < bytes.len() {
        bytes.split_at(n).1
    } else {
        &[]
    }
}
