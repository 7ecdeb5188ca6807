//! Limits that more than one crate above speaks of.

/// The most tags that a run may have.
pub const TAG_LIMIT: u64 = 65_536;

/// The most bytes of a value.
pub const BYTES_LIMIT: usize = 65_536;
