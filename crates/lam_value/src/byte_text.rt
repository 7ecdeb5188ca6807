//! Byte strings whose copies share their bytes.

ghost use Rattle.std.specs.Prelude.{◌≡◌, IsTrue, ◌↔◌, IfOk};
ghost use Rattle.std.specs.Arc.{arc_slice_items};

use lam_value_homes::NoMemory;
use std::alloc::Global;
use std::marker::Model;
use std::sync::ArcSlice;

/// A string of bytes, whatever bytes they are. It is made once, and its copies share the bytes.
#[derive(Drop)]
pub struct ByteText {
    alloc: Global,
    bytes: ArcSlice<u8>,
}

impl Model for ByteText {
    ghost use Rattle.std.specs.Prelude.{ℕ, List};
    ghost use Rattle.std.specs.Arc.{arc_slice_items};

    ghost Value = { List ℕ };

    ghost view = { λ t. arc_slice_items t.bytes };
}

impl ByteText {
    /// The text of the given bytes.
    ///
    /// # Errors
    ///
    /// `NoMemory` where memory is refused.
    pub fn from_slice(alloc: Global, bytes: &[u8]) -> Result<ByteText, NoMemory>
        ensures { IfOk result (λ t. t ≡ bytes.now) }
    {
        let bytes = ArcSlice::from_slice(alloc, bytes)?;
        Ok(ByteText { alloc, bytes })
    }

    /// The text that a buffer holds, which is not copied.
    ///
    /// # Errors
    ///
    /// `NoMemory` where memory is refused.
    pub fn from_vec(bytes: Vec<u8>) -> Result<ByteText, NoMemory>
        ensures { IfOk result (λ t. t ≡ bytes.items) }
    {
        let alloc = *bytes.allocator();
        let bytes = ArcSlice::from_vec(bytes)?;
        Ok(ByteText { alloc, bytes })
    }

    /// The bytes of the text.
    pub fn bytes(&self) -> &[u8]
        ensures { result.now ≡ self.now }
    {
        self.bytes.as_slice()
    }

    /// The allocator that the text keeps.
    pub fn allocator(&self) -> Global {
        self.alloc
    }

    /// An equal text, which shares its bytes with this one: no memory is taken.
    ///
    /// # Errors
    ///
    /// `NoMemory` where the text has 2 ^ 63 copies.
    pub fn copy(&self) -> Result<ByteText, NoMemory>
        ensures { IfOk result (λ t. t ≡ self.now) }
    {
        let bytes = self.bytes.clone()?;
        Ok(ByteText {
            alloc: self.alloc,
            bytes,
        })
    }

    /// Whether two texts are equal.
    pub fn same(&self, other: &ByteText) -> bool
        ensures { IsTrue result ↔ (self.now ≡ other.now) }
    {
        self.bytes.as_slice() == other.bytes.as_slice()
    }
}
